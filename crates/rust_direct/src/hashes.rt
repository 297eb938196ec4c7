// Disambiguators whose value is not shown: most of them are hashes.

ghost use Rattle.std.specs.Prelude.{◌≡◌, ◌≢◌, ◌≤◌, true};
ghost use Rattle.std.specs.Option.{IfSome};
ghost use Rattle.sym_core.specs.declared.NumberKind.TheVariants.{Base62};
ghost use Rattle.sym_core.specs.Number.{FitsSymbol};
ghost use Rattle.sym_core.specs.Value.{digit_value};
ghost use Rattle.rust_direct.specs.Holes.{IsSmallNumberAt, HasDisambiguator};

use crate::lanes::{LANES, digit_lanes};
use crate::tokens::disambiguator_at;
use sym_direct::byte_at;

/// How many digits in base 62 most hashes of 64 bits have.
const HASH_DIGITS: usize = 11;

/// Whether a number of `HASH_DIGITS` digits that begins with these two digits fits in 64 bits.
#[inline(always)]
fn is_low(first: u8, second: u8) -> bool
    ensures first { result ≡ true → digit_value Base62 first ≤ 21 }
    ensures second { result ≡ true → digit_value Base62 first ≡ 21 → (second ≢ 89) × (second ≢ 90) }
{
    if first == b'l' {
        return second != b'Y' && second != b'Z';
    }
    first <= b'9' || (b'a' <= first && first <= b'k')
}

/// Whether a number of `count` digits fits in 64 bits, by its length and its first two digits.
#[inline(always)]
fn is_small(count: usize, first: u8, second: u8) -> bool
    ensures few { result ≡ true → count ≤ 11 }
    ensures first { result ≡ true → count ≡ 11 → digit_value Base62 first ≤ 21 }
    ensures second { result ≡ true → count ≡ 11 → digit_value Base62 first ≡ 21 → (second ≢ 89) × (second ≢ 90) }
{
    count < HASH_DIGITS || (count == HASH_DIGITS && is_low(first, second))
}

/// The place after a number that is no longer than most hashes, if the symbol has sixteen bytes
/// from its first digit on.
// <base-62-number> = {<0-9a-zA-Z>} "_"
#[inline(always)]
fn hash_end(s: &[u8], at: usize) -> Option<usize>
    ensures { IfSome result (IsSmallNumberAt s.now at) }
{
    if at > s.len() {
        return None;
    }
    if s.len() - at < LANES {
        return None;
    }
    let count = digit_lanes(s, at);
    if !is_small(count, s[at], s[at + 1]) {
        return None;
    }
    let mark = at + count;
    if s[mark] != b'_' {
        return None;
    }
    Some(mark + 1)
}

/// The place after the disambiguator at a place; its number isn't read.
#[inline(never)]
fn any_disambiguator_end(s: &[u8], at: usize) -> Option<usize>
    requires { FitsSymbol s.now }
    ensures { IfSome result (HasDisambiguator s.now at) }
{
    let (_count, end) = disambiguator_at(s, at)?;
    Some(end)
}

/// The place after the disambiguator at a place, or the same place where there is none.
// <disambiguator> = "s" <base-62-number>
#[inline(always)]
pub fn disambiguator_end(s: &[u8], at: usize) -> Option<usize>
    requires { FitsSymbol s.now }
    ensures { IfSome result (HasDisambiguator s.now at) }
{
    if byte_at(s, at) != b's' {
        return Some(at);
    }
    let number = at.checked_add(1)?;
    if let Some(end) = hash_end(s, number) {
        return Some(end);
    }
    any_disambiguator_end(s, at)
}
