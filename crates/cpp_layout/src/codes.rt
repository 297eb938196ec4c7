// The texts of codes. A code that isn't in the tables has no text.
#![tactic(auto)]

ghost use Rattle.std.specs.Prelude.{◌≡◌, ◌<◌, ◌∷◌, ◌++◌, [], codes, length, ◌||◌};
ghost use Rattle.cpp_grammar.specs.Parts.{placeholder_text};
ghost use Rattle.cpp_grammar.specs.Texts.{look_up, same_bytes, builtin_texts, operator_texts, abbreviation_texts, special_texts, literal_endings};
ghost use Rattle.cpp_term.specs.Term.{builtin};
ghost use Rattle.cpp_term.specs.Parts.{is_plain_integer};
ghost use Rattle.cpp_layout.specs.Texts.{fixed_text};
ghost use Rattle.cpp_layout.specs.declared.texts.TheConstants.{COUNT};

use crate::numbered::{abbreviation, builtin, builtin_with_d, ending, operator_code, special};
use crate::texts;

/// Whether the literals of a builtin type need no cast.
#[tactic(auto, unfolding(cpp_term::specs::Parts::is_plain_integer))]
pub(crate) fn is_plain(letter: u8) -> bool
    ensures { result ≡ is_plain_integer (builtin (letter ∷ [])) }
{
    match letter {
        b'i' => true,
        b'j' => true,
        b'l' => true,
        b'm' => true,
        b'x' => true,
        b'y' => true,
        _ => false,
    }
}

/// The text after the name of the concept that constrains a placeholder type, by the last letter of the type's code.
#[tactic(auto, unfolding(cpp_grammar::specs::Parts::placeholder_text))]
pub(crate) fn placeholder(letter: u8) -> u16
    ensures text { fixed_text result ≡ placeholder_text letter }
    ensures there { 0 < length (fixed_text result) }
{
    match letter {
        b'k' => texts::AUTO,
        _ => texts::DECLTYPE_AUTO,
    }
}

/// Whether a code is that of the operator << or <.
pub fn is_angle_code(first: u8, second: u8) -> bool
    ensures { result ≡ same_bytes (first ∷ second ∷ []) (codes "ls") || same_bytes (first ∷ second ∷ []) (codes "lt") }
{
    if first != b'l' {
        return false;
    }
    if second == b's' {
        return true;
    }
    second == b't'
}

/// The name of an operator.
pub(crate) fn operator(first: u8, second: u8) -> u16
    ensures text { fixed_text result ≡ codes "operator" ++ look_up (first ∷ second ∷ []) operator_texts }
    ensures few { result < COUNT }
{
    let code = first as u16 * 256 + second as u16;
    let mut number = 0;
    'codes: loop {
        if number >= texts::OPERATORS {
            return texts::OPERATOR_ALONE;
        }
        if operator_code(number) == code {
            return texts::OPERATOR + number;
        }
        number += 1;
    }
}

/// The text of a builtin type with a code of one letter, or none.
#[inline(always)]
pub fn builtin_text(letter: u8) -> &'static [u8]
    ensures { result.now ≡ look_up (letter ∷ []) builtin_texts }
{
    texts::fixed_text(builtin(letter))
}

/// The text of a builtin type with a code of D and this letter, or none.
#[inline(always)]
pub fn builtin_with_d_text(letter: u8) -> &'static [u8]
    ensures { result.now ≡ look_up (68 ∷ letter ∷ []) builtin_texts }
{
    texts::fixed_text(builtin_with_d(letter))
}

/// The text of an abbreviation, by the letter after its S, or none.
#[inline(always)]
pub fn abbreviation_text(letter: u8) -> &'static [u8]
    ensures { result.now ≡ look_up (letter ∷ []) abbreviation_texts }
{
    texts::fixed_text(abbreviation(letter))
}

/// The name of an operator, by the two letters of its code; just `operator` where no operator has that code.
pub fn operator_text(first: u8, second: u8) -> &'static [u8]
    ensures { result.now ≡ codes "operator" ++ look_up (first ∷ second ∷ []) operator_texts }
{
    texts::fixed_text(operator(first, second))
}

/// The text before the type of a special name, by the letter after its T, or none.
#[inline(always)]
pub fn special_text(letter: u8) -> &'static [u8]
    ensures { result.now ≡ look_up (letter ∷ []) special_texts }
{
    texts::fixed_text(special(letter))
}

/// The text after the digits of an integer of a builtin type with this letter, or none.
#[inline(always)]
pub fn ending_text(letter: u8) -> &'static [u8]
    ensures { result.now ≡ look_up (letter ∷ []) literal_endings }
{
    texts::fixed_text(ending(letter))
}
