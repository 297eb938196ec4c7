// What a token is as a part of its rule.

ghost use Rattle.std.specs.Prelude.{◌≡◌, ℕ, ◌+◌, ◌-◌, ◌*◌, ◌<◌, ◌≤◌, ◌^◌, ◌&&◌, ◌⊎◌, List, drop, length, true, IfOk, OnOk, IfErr, OnErr, nat_lt};
ghost use Rattle.sym_core.specs.Number.{AreDigitsOf, FitsSymbol};
ghost use Rattle.sym_core.specs.Printed.{signed_text, IsDecoded};
ghost use Rattle.sym_core.specs.Token.{AreNameBytes};
ghost use Rattle.sym_core.specs.declared.NameClass.TheVariants.{Rust};
ghost use Rattle.sym_core.specs.declared.NumberKind.TheVariants.{Base62, Hex};
ghost use Rattle.sym_core.specs.declared.refusal.Refusal.TheVariants as refusals;
ghost use Rattle.rust_tree.specs.Nodes.{HasNoZero, IsTable, Grows, IsWithin, bytes_at};
ghost use Rattle.rust_grammar.specs.Productions.{production_of};
ghost use Rattle.rust_v0.specs.Tokens as tokens;
ghost use Rattle.rust_v0.specs.Tokens.{IsOwn, HasZero, value_as, minus_before};
ghost use Rattle.rust_grammar.specs.Unfold.{value16 as value_of_hex, value62 as value_of_base62, an_integer_of};
ghost use Rattle.rust_grammar.specs.Value.{a_name};
ghost use Rattle.rust_v0.specs.PartValues.{IsNumber, IsPart};
ghost use Rattle.rust_v0.specs.Made.{ground};
ghost use Rattle.rust_v0.specs.RustNodes.{most_text, Prints};
ghost use Rattle.rust_v0.specs.declared.tokens.TokenSort.TheVariants as sorts;

use crate::nodes::RustNodes;
use crate::part::{Integer, NO_SUCH_PARTS, Part};
use rust_grammar::production::{Production, numbered};
use rust_tree::node::Name;
use sym_core::{
    NameClass, NumberKind, Refusal, Span, are_digits, are_name_bytes, value16, value62,
};

/// The sorts of tokens (RFC 2603, "Identifiers", "Constants" and "Base-62 numbers").
#[derive(Clone, Copy)]
pub enum TokenSort {
    PlainName,
    PunycodeName,
    SignedInteger,
    UnsignedInteger,
    CharacterCode,
    CountedNumber,
}

/// The sort of the token of a rule.
pub fn sort_of(rule: u16) -> TokenSort
    ensures { result ≡ tokens.sort_of (production_of rule) }
{
    match numbered(rule) {
        Some(Production::PlainName) => TokenSort::PlainName,
        Some(Production::PunycodeName) => TokenSort::PunycodeName,
        Some(Production::SignedConstant) => TokenSort::SignedInteger,
        Some(Production::UnsignedConstant) => TokenSort::UnsignedInteger,
        Some(Production::CharConstant) => TokenSort::CharacterCode,
        _ => TokenSort::CountedNumber,
    }
}

/// The most digits of a number in base 62.
const MOST_DIGITS: usize = 11;

/// A number in base 62, or none where it is beyond 64 bits. The function isn't inlined: inlined, it
/// makes the loop of `Workspace::link` take more instructions.
#[inline(never)]
fn counted_number(digits: &[u8]) -> Option<u64>
    ensures { AreDigitsOf Base62 digits.now → IsNumber result (value_of_base62 digits.now) }
{
    if digits.len() > MOST_DIGITS {
        return None;
    }
    value62(digits)
}

/// The number of a character, or none where it is beyond 64 bits.
fn character_code(digits: &[u8]) -> Option<u64>
    ensures { AreDigitsOf Hex digits.now → IsNumber result (value_of_hex digits.now) }
{
    if !are_digits(NumberKind::Hex, digits) {
        return None;
    }
    match value16(digits) {
        Some(code) => {
            if code <= u128::from(u64::MAX) {
                Some(code as u64)
            } else {
                None
            }
        }
        None => None,
    }
}

/// Whether the part before a token is a minus.
fn has_minus(parts: &[Part]) -> bool
    ensures { result ≡ minus_before parts.now }
{
    match parts {
        [Part::Minus] => true,
        _ => false,
    }
}

/// Whether an integer after a minus is below zero.
fn is_negative(minus: bool, magnitude: u128) -> bool
    ensures { result ≡ minus && nat_lt 0 magnitude }
{
    minus && magnitude > 0
}

/// How many zeros are in front of the other digits.
fn without_zeros(digits: &[u8]) -> usize
    ensures within { result ≤ length digits.now }
    ensures value { value_of_hex (drop result digits.now) ≡ value_of_hex digits.now }
    ensures no_zero { HasNoZero (drop result digits.now) }
{
    let mut zeros = 0;
    while zeros < digits.len() && digits[zeros] == b'0' {
        zeros += 1;
    }
    zeros
}

impl RustNodes {
    /// The span of an integer's decimal in the text list, which begins with the decimal of zero.
    fn print_integer(&mut self, magnitude: u128, minus: bool) -> Result<Span, Refusal>
        requires room { length self.old.nodes.text + 40 < 2 ^ 32 }
        requires zero { HasZero self.old.nodes.text }
        ensures within { IfOk result (λ span. IsWithin span self.new.nodes.text) }
        ensures printed { IfOk result (λ span. bytes_at self.new.nodes.text span ≡ signed_text (minus && nat_lt 0 magnitude) magnitude) }
        ensures prints { Prints self.old self.new }
        ensures none { OnOk result (magnitude ≡ 0 → self.new.nodes.text ≡ self.old.nodes.text) }
        ensures few { OnOk result (length self.new.nodes.text ≤ length self.old.nodes.text + length (signed_text minus magnitude)) }
        ensures memory { IfErr result (λ e. e ≡ refusals.Memory) }
        ensures full { OnErr result ((0 < magnitude) × (self.old.nodes.text_room < length self.new.nodes.text + length (signed_text minus magnitude))) }
    {
        if magnitude == 0 {
            return Ok(Span { from: 0, to: 1 });
        }
        let span = self.nodes.push_decimal(self.alloc, magnitude, minus)?;
        Ok(span)
    }

    /// An integer by its hexadecimal digits, or none where it is beyond 128 bits.
    fn integer(&mut self, symbol: &[u8], own: Span, minus: bool) -> Result<Part, Refusal>
        requires within { IsWithin own symbol.now }
        requires room { length self.old.nodes.text + 40 < 2 ^ 32 }
        requires zero { HasZero self.old.nodes.text }
        ensures part { IfOk result (λ part. IsPart (ground symbol.now self.new.nodes) part (an_integer_of minus (value_of_hex (bytes_at symbol.now own)))) }
        ensures memory { AreDigitsOf Hex (bytes_at symbol.now own) → IfErr result (λ e. e ≡ refusals.Memory) }
        ensures prints { Prints self.old self.new }
        ensures few { OnOk result (length self.new.nodes.text ≤ length self.old.nodes.text + 4 * (own.to - own.from)) }
        ensures full { IfErr result (λ e. e ≡ refusals.Memory → self.old.nodes.text_room < length self.new.nodes.text + 4 * (own.to - own.from)) }
    {
        let bytes = &symbol[own.from as usize..own.to as usize];
        if !are_digits(NumberKind::Hex, bytes) {
            return Err(NO_SUCH_PARTS);
        }
        let zeros = without_zeros(bytes) as u32;
        match value16(bytes) {
            Some(magnitude) => {
                let printed = self.print_integer(magnitude, minus)?;
                Ok(Part::Integer(Some(Integer {
                    minus: is_negative(minus, magnitude),
                    digits: Span {
                        from: own.from + zeros,
                        to: own.to,
                    },
                    printed,
                })))
            }
            None => Ok(Part::Integer(None)),
        }
    }

    /// A name in Punycode, with what it prints in the text list.
    fn punycode_name(&mut self, symbol: &[u8], own: Span) -> Result<Part, Refusal>
        requires within { IsWithin own symbol.now }
        requires room { length self.old.nodes.text + 4 * length symbol.now + 10 < 2 ^ 32 }
        ensures part { IfOk result (λ part. IsPart (ground symbol.now self.new.nodes) part (a_name (record { punycode = true; bytes = bytes_at symbol.now own }))) }
        ensures memory { AreNameBytes Rust (bytes_at symbol.now own) → IfErr result (λ e. e ≡ refusals.Memory) }
        ensures prints { Prints self.old self.new }
        ensures few { OnOk result (length self.new.nodes.text ≤ length self.old.nodes.text + 4 * (own.to - own.from) + 8) }
        ensures full { IfErr result (λ e. e ≡ refusals.Memory → IsDecoded true (bytes_at symbol.now own)
            ⊎ (self.old.nodes.text_room < length self.new.nodes.text + (own.to - own.from) + 10)) }
    {
        let bytes = &symbol[own.from as usize..own.to as usize];
        if !are_name_bytes(NameClass::Rust, bytes) {
            return Err(NO_SUCH_PARTS);
        }
        let printed = self.nodes.push_name(self.alloc, bytes)?;
        Ok(Part::Name(Name {
            bytes: own,
            decoded: Some(printed),
        }))
    }

    /// What a token is as a part of a rule at a place, after these parts.
    #[inline(always)]
    pub fn token_part(
        &mut self,
        symbol: &[u8],
        sort: TokenSort,
        place: u32,
        parts: &[Part],
        own: Span,
    ) -> Result<Part, Refusal>
        requires fits { FitsSymbol symbol.now }
        requires within { IsWithin own symbol.now }
        requires room { length self.old.nodes.text ≤ 4 * length symbol.now + 20 }
        requires zero { HasZero self.old.nodes.text }
        ensures part { IsOwn sort (bytes_at symbol.now own) (length parts.now) place own.from
            → IfOk result (λ part. IsPart (ground symbol.now self.new.nodes) part (value_as sort (minus_before parts.now) (bytes_at symbol.now own))) }
        ensures memory { IsOwn sort (bytes_at symbol.now own) (length parts.now) place own.from → IfErr result (λ e. e ≡ refusals.Memory) }
        ensures nodes { self.new.nodes.nodes ≡ self.old.nodes.nodes }
        ensures ended { self.new.targets.items ≡ self.old.targets.items }
        ensures grows { Grows self.old.nodes self.new.nodes }
        ensures stays { (s : List ℕ) → IsTable s self.old.nodes → IsTable s self.new.nodes }
        ensures few { OnOk result ((at : ℕ) → at ≤ own.from → (length parts.now ≡ 0 → at ≤ place) → length self.old.nodes.text ≤ 4 * at + 20
            → length self.new.nodes.text ≤ 4 * own.to + 20) }
        ensures full { IfErr result (λ e. e ≡ refusals.Memory → ((sort ≡ sorts.PunycodeName) × IsDecoded true (bytes_at symbol.now own))
            ⊎ (self.old.nodes.text_room < length self.new.nodes.text + most_text symbol.now)) }
        ensures node_room { self.new.nodes.node_room ≡ self.old.nodes.node_room }
        ensures text_room { self.old.nodes.text_room ≤ self.new.nodes.text_room }
    {
        match sort {
            TokenSort::PlainName => Ok(Part::Name(Name {
                bytes: own,
                decoded: None,
            })),
            TokenSort::PunycodeName => {
                if !parts.is_empty() || own.from < place.saturating_add(2) {
                    return Err(NO_SUCH_PARTS);
                }
                let part = self.punycode_name(symbol, own)?;
                Ok(part)
            }
            TokenSort::SignedInteger => {
                let part = self.integer(symbol, own, has_minus(parts))?;
                Ok(part)
            }
            TokenSort::UnsignedInteger => {
                let part = self.integer(symbol, own, false)?;
                Ok(part)
            }
            TokenSort::CharacterCode => Ok(Part::Number(character_code(
                &symbol[own.from as usize..own.to as usize],
            ))),
            TokenSort::CountedNumber => Ok(Part::Number(counted_number(
                &symbol[own.from as usize..own.to as usize],
            ))),
        }
    }
}
