// What is written of one node: the bytes before its parts and the bytes after them.
#![tactic(auto)]

ghost use Rattle.std.specs.Prelude.{◌≡◌, ◌++◌, ◌∷◌, [], ◌<◌, ◌^◌, true, get_or, OnOk, IfErr};
ghost use Rattle.sym_core.specs.declared.Refusal.TheVariants.{Memory};
ghost use Rattle.rust_tree.specs.Views.{has_letter};
ghost use Rattle.rust_press.specs.Spelled.{number_bytes, count_bytes, lifetime_bytes, mark_bytes, name_bytes, integer_bytes, reference_bytes, letters, letter_bytes, is_component, type_numbers, constant_numbers, numbers_bytes, text_bytes, front_bytes, end_bytes};

use rust_references::targets::number_of;
use rust_v0::tree_production::{
    ABI_FUNCTION, ARRAY, BASIC, BOOLEAN, C_FUNCTION, CHARACTER, CRATE_ROOT, DYN, FUNCTION, GENERIC,
    INTEGER, LIFETIME_ARGUMENT, MORE_BINDINGS, MUTABLE_REFERENCE, NESTED, NO_ARGUMENTS, NO_TYPES,
    PLACEHOLDER, PUNYCODE_ABI_FUNCTION, PUNYCODE_CRATE_ROOT, PUNYCODE_MORE_BINDINGS,
    PUNYCODE_NESTED, SHARED_REFERENCE, SYMBOL, TRAIT_DEFINITION,
};
use sym_core::Refusal;
use sym_spell::push_digits;

/// The letter that each production begins with, or a dot if it begins with none.
const LETTERS: [u8; 38] = *b"CCMXYNNI.LK...ASTRQPOFFFFDE.E..pp.bcp_";

/// A number in base 62: 0 has no digit, and digits of value v denote v + 1.
#[tactic(auto, unfolding(crate::specs::Spelled::number_bytes))]
fn push_number(value: u64, out: &mut Vec<u8>) -> Result<(), Refusal>
    ensures number { OnOk result (out.new.items ≡ out.old.items ++ number_bytes value) }
    ensures memory { IfErr result (λ e. e ≡ Memory) }
{
    if value > 0 {
        push_digits(62, value - 1, out)?;
    }
    out.push(b'_')?;
    Ok(())
}

/// A letter, and the value less one as a number in base 62; nothing for the value 0.
#[tactic(auto, unfolding(crate::specs::Spelled::count_bytes))]
fn push_count(letter: u8, value: u64, out: &mut Vec<u8>) -> Result<(), Refusal>
    ensures count { OnOk result (out.new.items ≡ out.old.items ++ count_bytes letter value) }
    ensures memory { IfErr result (λ e. e ≡ Memory) }
{
    if value > 0 {
        out.push(letter)?;
        push_number(value - 1, out)?;
    }
    Ok(())
}

/// A lifetime.
#[tactic(auto, unfolding(crate::specs::Spelled::lifetime_bytes))]
fn push_lifetime(lifetime: u64, out: &mut Vec<u8>) -> Result<(), Refusal>
    ensures lifetime { OnOk result (out.new.items ≡ out.old.items ++ lifetime_bytes lifetime) }
    ensures memory { IfErr result (λ e. e ≡ Memory) }
{
    out.push(b'L')?;
    push_number(lifetime, out)?;
    Ok(())
}

/// A letter, if it is to be written.
#[tactic(auto, unfolding(crate::specs::Spelled::mark_bytes))]
fn push_mark(is_marked: bool, letter: u8, out: &mut Vec<u8>) -> Result<(), Refusal>
    ensures mark { OnOk result (out.new.items ≡ out.old.items ++ mark_bytes is_marked letter) }
    ensures memory { IfErr result (λ e. e ≡ Memory) }
{
    if is_marked {
        out.push(letter)?;
    }
    Ok(())
}

/// A name: its length, a separator where its first byte is a digit or an underscore, and its bytes.
#[tactic(auto, unfolding(crate::specs::Spelled::name_bytes))]
fn push_name(punycode: bool, name: &[u8], out: &mut Vec<u8>) -> Result<(), Refusal>
    ensures name { OnOk result (out.new.items ≡ out.old.items ++ name_bytes punycode name.now) }
    ensures memory { IfErr result (λ e. e ≡ Memory) }
{
    push_mark(punycode, b'u', out)?;
    push_digits(10, name.len() as u64, out)?;
    if let [first, ..] = name {
        if first.is_ascii_digit() || *first == b'_' {
            out.push(b'_')?;
        }
    }
    out.extend_from_slice(name)?;
    Ok(())
}

/// The digits of an integer. Zero has no digits in its node, and is written as `0`.
#[tactic(auto, unfolding(crate::specs::Spelled::integer_bytes))]
fn push_integer(digits: &[u8], out: &mut Vec<u8>) -> Result<(), Refusal>
    ensures integer { OnOk result (out.new.items ≡ out.old.items ++ integer_bytes digits.now) }
    ensures memory { IfErr result (λ e. e ≡ Memory) }
{
    if digits.is_empty() {
        out.push(b'0')?;
    }
    out.extend_from_slice(digits)?;
    out.push(b'_')?;
    Ok(())
}

/// A letter, given as a number, as in views.
fn push_letter(letter: u64, out: &mut Vec<u8>) -> Result<(), Refusal>
    requires { letter < 256 }
    ensures letter { OnOk result (out.new.items ≡ out.old.items ++ letter ∷ []) }
    ensures memory { IfErr result (λ e. e ≡ Memory) }
{
    out.push(letter as u8)?;
    Ok(())
}

/// A reference to the component that begins at a place.
#[tactic(auto, unfolding(crate::specs::Spelled::reference_bytes))]
pub(crate) fn push_reference(place: u64, out: &mut Vec<u8>) -> Result<(), Refusal>
    ensures reference { OnOk result (out.new.items ≡ out.old.items ++ reference_bytes place) }
    ensures memory { IfErr result (λ e. e ≡ Memory) }
{
    out.push(b'B')?;
    push_number(number_of(place), out)?;
    Ok(())
}

/// Whether a node is compared with others: a path, a type that isn't a letter, a constant that isn't unknown.
#[tactic(auto, unfolding(crate::specs::Spelled::is_component))]
pub(crate) fn is_component(production: u16) -> bool
    ensures { result ≡ is_component production }
{
    if production < NO_ARGUMENTS {
        true
    } else if production < ARRAY {
        false
    } else if production < NO_TYPES {
        true
    } else if production < INTEGER {
        false
    } else {
        production < PLACEHOLDER
    }
}

/// The letter that the production begins with.
#[tactic(auto, unfolding(crate::specs::Spelled::letter_bytes))]
fn push_first(production: u16, out: &mut Vec<u8>) -> Result<(), Refusal>
    ensures letter { OnOk result (out.new.items ≡ out.old.items ++ letter_bytes production) }
    ensures memory { IfErr result (λ e. e ≡ Memory) }
{
    let letter = letter_of(production);
    if letter != b'.' {
        out.push(letter)?;
    }
    Ok(())
}

fn letter_of(production: u16) -> u8
    ensures { result ≡ get_or letters production 46 }
{
    if production <= SYMBOL {
        LETTERS[production as usize]
    } else {
        b'.'
    }
}

/// The numbers of a type.
#[tactic(auto, unfolding(crate::specs::Spelled::type_numbers))]
fn push_type_numbers(
    production: u16,
    first: u64,
    second: u64,
    out: &mut Vec<u8>,
) -> Result<(), Refusal>
    requires letter { has_letter production ≡ true → first < 256 }
    ensures numbers { OnOk result (out.new.items ≡ out.old.items ++ type_numbers production first second) }
    ensures memory { IfErr result (λ e. e ≡ Memory) }
{
    if production == BASIC {
        push_letter(first, out)?;
    } else if production == SHARED_REFERENCE || production == MUTABLE_REFERENCE {
        if first > 0 {
            push_lifetime(first, out)?;
        }
    } else if production >= FUNCTION {
        push_count(b'G', first, out)?;
        if production != DYN {
            push_mark(second == 1, b'U', out)?;
        }
    }
    Ok(())
}

/// The numbers of a constant, and the second letter of a symbol.
#[tactic(auto, unfolding(crate::specs::Spelled::constant_numbers))]
fn push_constant_numbers(
    production: u16,
    first: u64,
    second: u64,
    out: &mut Vec<u8>,
) -> Result<(), Refusal>
    requires letter { has_letter production ≡ true → first < 256 }
    ensures numbers { OnOk result (out.new.items ≡ out.old.items ++ constant_numbers production first second) }
    ensures memory { IfErr result (λ e. e ≡ Memory) }
{
    if production == INTEGER {
        push_letter(first, out)?;
        push_mark(second == 1, b'n', out)?;
    } else if production == BOOLEAN {
        out.push(if first == 1 { b'1' } else { b'0' })?;
        out.push(b'_')?;
    } else if production == CHARACTER {
        push_digits(16, first, out)?;
        out.push(b'_')?;
    } else if production == SYMBOL {
        out.push(b'R')?;
    }
    Ok(())
}

/// The numbers after the letter.
#[tactic(auto, unfolding(crate::specs::Spelled::numbers_bytes))]
fn push_numbers(production: u16, first: u64, second: u64, out: &mut Vec<u8>) -> Result<(), Refusal>
    requires letter { has_letter production ≡ true → first < 256 }
    ensures numbers { OnOk result (out.new.items ≡ out.old.items ++ numbers_bytes production first second) }
    ensures small { OnOk result (first < 2 ^ 64) }
    ensures memory { IfErr result (λ e. e ≡ Memory) }
{
    if production < TRAIT_DEFINITION {
        push_count(b's', first, out)?;
    } else if production == NESTED || production == PUNYCODE_NESTED {
        push_letter(first, out)?;
    } else if production == LIFETIME_ARGUMENT {
        push_number(first, out)?;
    } else if production >= BASIC {
        if production < NO_TYPES {
            push_type_numbers(production, first, second, out)?;
        } else {
            push_constant_numbers(production, first, second, out)?;
        }
    }
    Ok(())
}

/// The text after the numbers.
#[tactic(auto, unfolding(crate::specs::Spelled::text_bytes))]
fn push_text(production: u16, text: &[u8], out: &mut Vec<u8>) -> Result<(), Refusal>
    ensures text { OnOk result (out.new.items ≡ out.old.items ++ text_bytes production text.now) }
    ensures memory { IfErr result (λ e. e ≡ Memory) }
{
    if production == CRATE_ROOT || production == MORE_BINDINGS {
        push_name(false, text, out)?;
    } else if production == PUNYCODE_CRATE_ROOT || production == PUNYCODE_MORE_BINDINGS {
        push_name(true, text, out)?;
    } else if production == C_FUNCTION {
        out.push(b'K')?;
        out.push(b'C')?;
    } else if production == ABI_FUNCTION || production == PUNYCODE_ABI_FUNCTION {
        out.push(b'K')?;
        push_name(production == PUNYCODE_ABI_FUNCTION, text, out)?;
    } else if production == INTEGER {
        push_integer(text, out)?;
    }
    Ok(())
}

/// What comes before the parts.
#[tactic(auto, unfolding(crate::specs::Spelled::front_bytes))]
pub(crate) fn push_front(
    production: u16,
    numbers: [u64; 2],
    text: &[u8],
    out: &mut Vec<u8>,
) -> Result<(), Refusal>
    requires letter { has_letter production ≡ true → get_or numbers 0 0 < 256 }
    ensures front { OnOk result (out.new.items ≡ out.old.items ++ front_bytes production (get_or numbers 0 0) (get_or numbers 1 0) text.now) }
    ensures small { OnOk result (get_or numbers 0 0 < 2 ^ 64) }
    ensures memory { IfErr result (λ e. e ≡ Memory) }
{
    push_first(production, out)?;
    push_numbers(production, numbers[0], numbers[1], out)?;
    push_text(production, text, out)?;
    Ok(())
}

/// What comes after the parts of a component.
#[tactic(auto, unfolding(crate::specs::Spelled::end_bytes))]
pub(crate) fn push_end(
    production: u16,
    second: u64,
    text: &[u8],
    out: &mut Vec<u8>,
) -> Result<(), Refusal>
    ensures end { OnOk result (out.new.items ≡ out.old.items ++ end_bytes production second text.now) }
    ensures memory { IfErr result (λ e. e ≡ Memory) }
{
    if production == NESTED || production == PUNYCODE_NESTED {
        push_count(b's', second, out)?;
        push_name(production == PUNYCODE_NESTED, text, out)?;
    } else if production == GENERIC {
        out.push(b'E')?;
    } else if production == DYN {
        push_lifetime(second, out)?;
    }
    Ok(())
}
