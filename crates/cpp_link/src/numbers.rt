// Texts and the numbers that they spell.

ghost use Rattle.std.specs.Prelude.{◌≡◌, ◌+◌, ◌<◌, ◌∷◌, [], length, take, drop, slice_index};
ghost use Rattle.sym_core.specs.Number.{FitsSymbol};
ghost use Rattle.cpp_grammar.specs.Values.{normal, is_zero, signed_digits, local_number};
ghost use Rattle.cpp_tree.specs.Nodes as nodes;
ghost use Rattle.cpp_tree.specs.Nodes.{bytes_at, IsWithin};
ghost use Rattle.cpp_link.specs.LinkReading.{in_64_bits};

use cpp_tree::node::Signed;
use sym_core::{Span, value10};

/// The byte at a place, as a text.
pub fn one_byte(symbol: &[u8], place: u32) -> Span
    requires place { place < length symbol.now }
    requires fits { FitsSymbol symbol.now }
    ensures is { bytes_at symbol.now result ≡ slice_index symbol.now place ∷ [] }
    ensures there { IsWithin result symbol.now }
{
    Span {
        from: place,
        to: place + 1,
    }
}

/// Digits without leading zeros.
pub fn normal(symbol: &[u8], text: Span) -> Span
    requires { IsWithin text symbol.now }
    ensures is { bytes_at symbol.now result ≡ normal (bytes_at symbol.now text) }
    ensures there { IsWithin result symbol.now }
{
    let mut from = text.from;
    'zeros: loop {
        if text.to - from <= 1 {
            return Span { from, to: text.to };
        }
        if symbol[from as usize] != b'0' {
            return Span { from, to: text.to };
        }
        from += 1;
    }
}

/// Whether a text is a lone zero.
fn is_zero(symbol: &[u8], text: Span) -> bool
    requires { IsWithin text symbol.now }
    ensures { result ≡ is_zero (bytes_at symbol.now text) }
{
    text.to - text.from == 1 && symbol[text.from as usize] == b'0'
}

/// A number with this sign and these digits.
#[tactic(auto, unfolding(cpp_grammar::specs::Values::signed_digits))]
pub fn signed_digits(symbol: &[u8], negative: bool, text: Span) -> Signed
    requires { IsWithin text symbol.now }
    ensures is { nodes.signed_of symbol.now result ≡ signed_digits negative (bytes_at symbol.now text) }
    ensures there { IsWithin result.digits symbol.now }
{
    let digits = normal(symbol, text);
    Signed {
        negative: negative && !is_zero(symbol, digits),
        digits,
    }
}

/// The number of a lambda or an unnamed type. A number beyond 64 bits, which is refused where the
/// type begins, becomes the greatest one of 64 bits.
#[tactic(auto, unfolding(cpp_grammar::specs::Values::local_number, crate::specs::LinkReading::in_64_bits))]
pub fn local_number(symbol: &[u8], text: Span) -> u64
    requires { IsWithin text symbol.now }
    ensures { result ≡ in_64_bits (local_number (bytes_at symbol.now text)) }
{
    match value10(&symbol[text.from as usize..text.to as usize]) {
        Some(counted) => counted.saturating_add(1),
        None => u64::MAX,
    }
}

/// The bytes from a place on, one byte more than a text has.
pub fn from_byte(symbol: &[u8], place: u32, text: Span) -> Span
    requires place { place < length symbol.now }
    requires fits { FitsSymbol symbol.now }
    requires there { IsWithin text symbol.now }
    ensures is { bytes_at symbol.now result ≡ take (length (bytes_at symbol.now text) + 1) (drop place symbol.now) }
    ensures there { IsWithin result symbol.now }
{
    let most = symbol.len() as u32;
    let to = place + 1 + (text.to - text.from);
    Span {
        from: place,
        to: if to < most { to } else { most },
    }
}
