// The bytes between the trees of a spelling: numbers, names, qualifiers, offsets.
#![tactic(auto)]

ghost use Rattle.std.specs.Prelude.{◌≡◌, ◌++◌, ◌∷◌, [], cond, codes, Some, OnOk, IfErr};
ghost use Rattle.sym_core.specs.declared.Refusal.TheVariants.{Memory};
ghost use Rattle.cpp_press_laws.specs.Texts.{ordinal, counted, signed_text, qualifier_letters, mark_letter, name_letters, offset_text, thunk_text, discriminator_text};
ghost use Rattle.cpp_press_laws.specs.Components.{seq_id};
ghost use Rattle.cpp_tree.specs.Nodes.{signed_of, qualifiers_of, mark_of, adjustment_of, thunk_of, discriminator_of, IsSpan, IsWithin, IsAdjustmentWithin, IsTable};
ghost use Rattle.cpp_layout.specs.Layout.{table_of};
ghost use Rattle.cpp_spelling.specs.Bytes.{text_bytes, IsThere, IsKnownThunk};

use cpp_layout::Symbol;
use cpp_tree::node::{Adjustment, Mark, Qualifiers, Signed, Thunk};
use sym_core::{Refusal, Span};
use sym_spell::push_digits;

/// Bytes of a spelling that belong to none of the trees in it.
#[derive(Clone, Copy)]
pub enum Text {
    Fixed(&'static [u8]),
    Letter(u8),
    Pair(u8, u8),
    /// Fixed bytes, and a number that is counted from 0.
    Ordinal(&'static [u8], u64),
    /// Fixed bytes, and a name after its length.
    Counted(&'static [u8], Span),
    /// Fixed bytes, digits, and an underscore.
    Digits(&'static [u8], Span),
    /// The value of a literal, and the end of the literal.
    Value(Signed),
    Qualifiers(Qualifiers),
    /// The N of a name, with the letters for its function.
    Letters(Qualifiers, Mark),
    /// The beginning of a function type.
    FunctionType { c_linkage: bool, noexcept: bool },
    /// The mark of a function type, and the end of the type.
    FunctionEnd(Mark),
    Thunk(u32),
    Discriminator(Option<Span>),
    Suffix(Span),
    /// A reference to the component with this number.
    Reference(u64),
}

/// A letter, if it is to be written.
fn push_letter_if(stands: bool, letter: u8, out: &mut Vec<u8>) -> Result<(), Refusal>
    ensures letter { OnOk result (out.new.items ≡ out.old.items ++ cond stands (letter ∷ []) []) }
    ensures memory { IfErr result (λ e. e ≡ Memory) }
{
    if stands {
        out.push(letter)?;
    }
    Ok(())
}

/// Qualifiers (ABI 5.1.5.1, `<CV-qualifiers> ::= [r] [V] [K]`).
#[tactic(auto, unfolding(cpp_press_laws::specs::Texts::qualifier_letters))]
fn push_qualifiers(qualifiers: Qualifiers, out: &mut Vec<u8>) -> Result<(), Refusal>
    ensures letters { OnOk result (out.new.items ≡ out.old.items ++ qualifier_letters (qualifiers_of qualifiers)) }
    ensures memory { IfErr result (λ e. e ≡ Memory) }
{
    push_letter_if(qualifiers.restrict, b'r', out)?;
    push_letter_if(qualifiers.volatile, b'V', out)?;
    push_letter_if(qualifiers.const_, b'K', out)?;
    Ok(())
}

/// The mark of a function (ABI 5.1.5.3, `<ref-qualifier> ::= R | O`).
#[tactic(auto, unfolding(cpp_press_laws::specs::Texts::mark_letter))]
fn push_mark(mark: Mark, out: &mut Vec<u8>) -> Result<(), Refusal>
    ensures letter { OnOk result (out.new.items ≡ out.old.items ++ mark_letter (mark_of mark)) }
    ensures memory { IfErr result (λ e. e ≡ Memory) }
{
    match mark {
        Mark::Any => {}
        Mark::Lvalue => out.push(b'R')?,
        Mark::Rvalue => out.push(b'O')?,
        Mark::ExplicitObject => out.push(b'H')?,
    }
    Ok(())
}

/// Bytes and a number that is counted from 0 (ABI 5.1.5.8, `<template-param> ::= T_ | T <number> _`): the first has no
/// digits, and digits of value v denote v + 1.
fn push_ordinal(before: &[u8], number: u64, out: &mut Vec<u8>) -> Result<(), Refusal>
    ensures number { OnOk result (out.new.items ≡ out.old.items ++ (before.now ++ ordinal number)) }
    ensures memory { IfErr result (λ e. e ≡ Memory) }
{
    out.extend_from_slice(before)?;
    if number > 0 {
        push_digits(10, number - 1, out)?;
    }
    out.push(b'_')?;
    Ok(())
}

/// Bytes and a name after its length (ABI 5.1.2, `<source-name> ::= <number> <identifier>`).
fn push_counted(before: &[u8], name: &[u8], out: &mut Vec<u8>) -> Result<(), Refusal>
    ensures name { OnOk result (out.new.items ≡ out.old.items ++ (before.now ++ counted name.now)) }
    ensures memory { IfErr result (λ e. e ≡ Memory) }
{
    out.extend_from_slice(before)?;
    push_digits(10, name.len() as u64, out)?;
    out.extend_from_slice(name)?;
    Ok(())
}

/// A number (ABI 5.1.2, `<number> ::= [n] <digits>`).
#[tactic(auto, unfolding(cpp_press_laws::specs::Texts::signed_text))]
fn push_signed(symbol: &Symbol, number: Signed, out: &mut Vec<u8>) -> Result<(), Refusal>
    requires within { IsWithin number.digits symbol.now.bytes }
    ensures number { OnOk result (out.new.items ≡ out.old.items ++ signed_text (signed_of symbol.now.bytes number)) }
    ensures memory { IfErr result (λ e. e ≡ Memory) }
{
    push_letter_if(number.negative, b'n', out)?;
    out.extend_from_slice(symbol.bytes_of(number.digits))?;
    Ok(())
}

/// How a pointer is adjusted (ABI 5.1.4, `<call-offset> ::= h <nv-offset> _ | v <v-offset> _`).
#[tactic(auto, unfolding(cpp_press_laws::specs::Texts::offset_text, cpp_tree::specs::Nodes::adjustment_of))]
fn push_adjustment(
    symbol: &Symbol,
    adjustment: Adjustment,
    out: &mut Vec<u8>,
) -> Result<(), Refusal>
    requires within { IsAdjustmentWithin symbol.now.bytes adjustment }
    ensures offset { OnOk result (out.new.items ≡ out.old.items ++ offset_text (adjustment_of symbol.now.bytes adjustment)) }
    ensures memory { IfErr result (λ e. e ≡ Memory) }
{
    match adjustment {
        Adjustment::NonVirtual(offset) => {
            out.push(b'h')?;
            push_signed(symbol, offset, out)?;
        }
        Adjustment::ByTable(offset, slot) => {
            out.push(b'v')?;
            push_signed(symbol, offset, out)?;
            out.push(b'_')?;
            push_signed(symbol, slot, out)?;
        }
    }
    out.push(b'_')?;
    Ok(())
}

/// What a thunk adjusts (ABI 5.1.4, `<special-name> ::= T <call-offset> .. | Tc <call-offset> <call-offset> ..`), or no
/// offset where none is known.
#[tactic(auto, unfolding(cpp_press_laws::specs::Texts::thunk_text, cpp_press_laws::specs::Texts::offset_text, cpp_press_laws::specs::Texts::signed_text, cpp_tree::specs::Nodes::thunk_of))]
fn push_thunk(symbol: &Symbol, thunk: Option<Thunk>, out: &mut Vec<u8>) -> Result<(), Refusal>
    requires within { IsKnownThunk symbol.now.bytes thunk }
    ensures thunk { OnOk result (out.new.items ≡ out.old.items ++ thunk_text (thunk_of symbol.now.bytes thunk)) }
    ensures memory { IfErr result (λ e. e ≡ Memory) }
{
    out.push(b'T')?;
    match thunk {
        Some(Thunk::Adjusting(this)) => push_adjustment(symbol, this, out)?,
        Some(Thunk::Covariant(this, result)) => {
            out.push(b'c')?;
            push_adjustment(symbol, this, out)?;
            push_adjustment(symbol, result, out)?;
        }
        None => out.extend_from_slice(b"h_")?,
    }
    Ok(())
}

/// A discriminator, if there is one (ABI 5.1.6, `<discriminator> ::= _ <digit> | __ <number> _`).
#[tactic(auto, unfolding(cpp_press_laws::specs::Texts::discriminator_text))]
fn push_discriminator(
    symbol: &Symbol,
    discriminator: Option<Span>,
    out: &mut Vec<u8>,
) -> Result<(), Refusal>
    requires within { IsSpan symbol.now.bytes discriminator }
    ensures discriminator { OnOk result (out.new.items ≡ out.old.items ++ discriminator_text (discriminator_of symbol.now.bytes discriminator)) }
    ensures memory { IfErr result (λ e. e ≡ Memory) }
{
    if let Some(digits) = discriminator {
        push_discriminator_digits(symbol.bytes_of(digits), out)?;
    }
    Ok(())
}

/// The digits of a discriminator between their underscores (ABI 5.1.6, `<discriminator> ::= _ <digit> | __ <number> _`).
#[tactic(auto, unfolding(cpp_press_laws::specs::Texts::discriminator_text))]
fn push_discriminator_digits(digits: &[u8], out: &mut Vec<u8>) -> Result<(), Refusal>
    ensures discriminator { OnOk result (out.new.items ≡ out.old.items ++ discriminator_text (Some digits.now)) }
    ensures memory { IfErr result (λ e. e ≡ Memory) }
{
    out.push(b'_')?;
    if digits.len() == 1 {
        out.extend_from_slice(digits)?;
    } else {
        out.push(b'_')?;
        out.extend_from_slice(digits)?;
        out.push(b'_')?;
    }
    Ok(())
}

/// The beginning of a function type (ABI 5.1.5.3, `<function-type> ::= [Do] F [Y] ..`).
fn push_function_type(c_linkage: bool, noexcept: bool, out: &mut Vec<u8>) -> Result<(), Refusal>
    ensures letters { OnOk result (out.new.items ≡ out.old.items ++ (cond noexcept (codes "Do") [] ++ codes "F" ++ cond c_linkage (codes "Y") [])) }
    ensures memory { IfErr result (λ e. e ≡ Memory) }
{
    if noexcept {
        out.extend_from_slice(b"Do")?;
    }
    out.push(b'F')?;
    push_letter_if(c_linkage, b'Y', out)?;
    Ok(())
}

/// A reference to a component (ABI 5.1.10, `<substitution> ::= S_ | S <seq-id> _`): the first has no digits, and digits
/// of value v in base 36 denote v + 1.
fn push_reference(number: u64, out: &mut Vec<u8>) -> Result<(), Refusal>
    ensures reference { OnOk result (out.new.items ≡ out.old.items ++ (codes "S" ++ seq_id number ++ codes "_")) }
    ensures memory { IfErr result (λ e. e ≡ Memory) }
{
    out.push(b'S')?;
    if number > 0 {
        push_digits(36, number - 1, out)?;
    }
    out.push(b'_')?;
    Ok(())
}

/// The digits of a dimension (ABI 5.1.5.5, `<array-type> ::= A [<number>] _ ..`; 5.1.5.7, `Dv <number> _ ..`).
fn push_dimension(before: &[u8], digits: &[u8], out: &mut Vec<u8>) -> Result<(), Refusal>
    ensures digits { OnOk result (out.new.items ≡ out.old.items ++ (before.now ++ digits.now ++ codes "_")) }
    ensures memory { IfErr result (λ e. e ≡ Memory) }
{
    out.extend_from_slice(before)?;
    out.extend_from_slice(digits)?;
    out.push(b'_')?;
    Ok(())
}

/// The value of a literal (ABI 5.1.6, `<expr-primary> ::= L <type> <value number> E`).
fn push_value(symbol: &Symbol, value: Signed, out: &mut Vec<u8>) -> Result<(), Refusal>
    requires within { IsWithin value.digits symbol.now.bytes }
    ensures value { OnOk result (out.new.items ≡ out.old.items ++ (signed_text (signed_of symbol.now.bytes value) ++ codes "E")) }
    ensures memory { IfErr result (λ e. e ≡ Memory) }
{
    push_signed(symbol, value, out)?;
    out.push(b'E')?;
    Ok(())
}

/// The letters for a function before its name (ABI 5.1.3, `<nested-name> ::= N [<CV-qualifiers>] [<ref-qualifier>]
/// ..`).
#[tactic(auto, unfolding(cpp_press_laws::specs::Texts::name_letters))]
fn push_letters(qualifiers: Qualifiers, mark: Mark, out: &mut Vec<u8>) -> Result<(), Refusal>
    ensures letters { OnOk result (out.new.items ≡ out.old.items ++ (codes "N" ++ name_letters (qualifiers_of qualifiers) (mark_of mark))) }
    ensures memory { IfErr result (λ e. e ≡ Memory) }
{
    out.push(b'N')?;
    push_qualifiers(qualifiers, out)?;
    push_mark(mark, out)?;
    Ok(())
}

/// The end of a function type (ABI 5.1.5.3, `<function-type> ::= .. [<ref-qualifier>] E`).
fn push_function_end(mark: Mark, out: &mut Vec<u8>) -> Result<(), Refusal>
    ensures letters { OnOk result (out.new.items ≡ out.old.items ++ (mark_letter (mark_of mark) ++ codes "E")) }
    ensures memory { IfErr result (λ e. e ≡ Memory) }
{
    push_mark(mark, out)?;
    out.push(b'E')?;
    Ok(())
}

/// Writes a text.
#[tactic(auto, unfolding(crate::specs::Bytes::text_bytes))]
pub fn push_text(symbol: &Symbol, text: Text, out: &mut Vec<u8>) -> Result<(), Refusal>
    requires table { IsTable (table_of symbol.now) }
    requires there { IsThere symbol.now text }
    ensures text { OnOk result (out.new.items ≡ out.old.items ++ text_bytes symbol.now text) }
    ensures memory { IfErr result (λ e. e ≡ Memory) }
{
    match text {
        Text::Fixed(bytes) => out.extend_from_slice(bytes)?,
        Text::Letter(letter) => out.push(letter)?,
        Text::Pair(first, second) => out.extend_from_slice(&[first, second])?,
        Text::Ordinal(before, number) => push_ordinal(before, number, out)?,
        Text::Counted(before, name) => push_counted(before, symbol.bytes_of(name), out)?,
        Text::Digits(before, digits) => push_dimension(before, symbol.bytes_of(digits), out)?,
        Text::Value(value) => push_value(symbol, value, out)?,
        Text::Qualifiers(qualifiers) => push_qualifiers(qualifiers, out)?,
        Text::Letters(qualifiers, mark) => push_letters(qualifiers, mark, out)?,
        Text::FunctionType {
            c_linkage,
            noexcept,
        } => push_function_type(c_linkage, noexcept, out)?,
        Text::FunctionEnd(mark) => push_function_end(mark, out)?,
        Text::Thunk(number) => push_thunk(symbol, symbol.thunk(number), out)?,
        Text::Discriminator(discriminator) => push_discriminator(symbol, discriminator, out)?,
        Text::Suffix(suffix) => out.extend_from_slice(symbol.bytes_of(suffix))?,
        Text::Reference(number) => push_reference(number, out)?,
    }
    Ok(())
}
