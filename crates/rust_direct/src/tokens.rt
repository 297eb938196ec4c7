// The bytes of a symbol.

ghost use Rattle.std.specs.Prelude.{◌≡◌, ◌≢◌, ◌≤◌, ◌∷◌, ◌++◌, [], ℕ, List, ◌-◌, length, take, drop, true};
ghost use Rattle.std.specs.List.{AllByRecursion};
ghost use Rattle.std.specs.Option.{IfSome};
ghost use Rattle.sym_core.specs.Number.{FitsSymbol};
ghost use Rattle.rust_direct.specs.Holes.{IsNumberAt, IsDisambiguatorAt, IsSuffix, is_namespace, is_suffix_byte};
ghost use Rattle.rust_direct.specs.Constants.{IsHexAt};

use sym_core::{NumberKind, find_number, value16, value62};
use sym_direct::byte_at;

/// Whether a byte may be in a suffix.
#[tactic(auto, unfolding(crate::specs::Holes::is_suffix_byte))]
fn is_suffix_byte(byte: u8) -> bool
    ensures { result ≡ is_suffix_byte byte }
{
    match byte {
        b'$' | b'.' => true,
        b'0'..=b'9' => true,
        b'A'..=b'Z' => true,
        b'_' => true,
        b'a'..=b'z' => true,
        _ => false,
    }
}

// For each byte, 1 if it is a letter, and 0 otherwise.
static LETTERS: [u8; 256] = [
    0, 0, 0, 0, 0, 0, 0, 0, 0, 0, 0, 0, 0, 0, 0, 0, 0, 0, 0, 0, 0, 0, 0, 0, 0, 0, 0, 0, 0, 0, 0, 0,
    0, 0, 0, 0, 0, 0, 0, 0, 0, 0, 0, 0, 0, 0, 0, 0, 0, 0, 0, 0, 0, 0, 0, 0, 0, 0, 0, 0, 0, 0, 0, 0,
    0, 1, 1, 1, 1, 1, 1, 1, 1, 1, 1, 1, 1, 1, 1, 1, 1, 1, 1, 1, 1, 1, 1, 1, 1, 1, 1, 0, 0, 0, 0, 0,
    0, 1, 1, 1, 1, 1, 1, 1, 1, 1, 1, 1, 1, 1, 1, 1, 1, 1, 1, 1, 1, 1, 1, 1, 1, 1, 1, 0, 0, 0, 0, 0,
    0, 0, 0, 0, 0, 0, 0, 0, 0, 0, 0, 0, 0, 0, 0, 0, 0, 0, 0, 0, 0, 0, 0, 0, 0, 0, 0, 0, 0, 0, 0, 0,
    0, 0, 0, 0, 0, 0, 0, 0, 0, 0, 0, 0, 0, 0, 0, 0, 0, 0, 0, 0, 0, 0, 0, 0, 0, 0, 0, 0, 0, 0, 0, 0,
    0, 0, 0, 0, 0, 0, 0, 0, 0, 0, 0, 0, 0, 0, 0, 0, 0, 0, 0, 0, 0, 0, 0, 0, 0, 0, 0, 0, 0, 0, 0, 0,
    0, 0, 0, 0, 0, 0, 0, 0, 0, 0, 0, 0, 0, 0, 0, 0, 0, 0, 0, 0, 0, 0, 0, 0, 0, 0, 0, 0, 0, 0, 0, 0,
];

/// Whether a byte names a namespace.
// <namespace> = "C" | "S" | <A-Z> | <a-z>
#[inline(always)]
pub fn is_namespace(byte: u8) -> bool
    ensures { result ≡ is_namespace byte }
{
    LETTERS[byte as usize] != 0
}

/// Whether each byte may be in a suffix.
fn are_suffix_bytes(bytes: &[u8]) -> bool
    ensures { result ≡ true → AllByRecursion (λ b. is_suffix_byte b ≡ true) bytes.now }
{
    bytes.iter().all(|byte| is_suffix_byte(*byte))
}

/// Whether the bytes are a dot and at least one byte of a suffix.
pub fn is_suffix(bytes: &[u8]) -> bool
    ensures { result ≡ true → IsSuffix bytes.now }
{
    if byte_at(bytes, 0) != b'.' || bytes.len() < 2 {
        return false;
    }
    are_suffix_bytes(&bytes[1..])
}

/// The number in base 62 at a place, if it has this many digits, and the place after it.
// <base-62-number> = {<0-9a-zA-Z>} "_"
#[inline(always)]
fn short_number_at(s: &[u8], at: usize, count: usize) -> Option<(u64, usize)>
    requires fits { FitsSymbol s.now }
    requires few { count ≤ 11 }
    ensures { IfSome result (λ found. IsNumberAt s.now at found.0 found.1) }
{
    if at > s.len() {
        return None;
    }
    if count >= s.len() - at {
        return None;
    }
    let mark = at + count;
    if s[mark] != b'_' {
        return None;
    }
    let value = value62(&s[at..mark])?;
    Some((value, mark + 1))
}

/// The number in base 62 at a place, and the place after it.
// <base-62-number> = {<0-9a-zA-Z>} "_"
#[inline(never)]
fn any_number_at(s: &[u8], at: usize) -> Option<(u64, usize)>
    requires { FitsSymbol s.now }
    ensures { IfSome result (λ found. IsNumberAt s.now at found.0 found.1) }
{
    if at > s.len() {
        return None;
    }
    let place = find_number(s, at, NumberKind::Base62).ok()?;
    let value = value62(&s[place.from..place.to])?;
    Some((value, place.end))
}

/// The number in base 62 at a place, and the place after it: most numbers have one digit or two.
// <base-62-number> = {<0-9a-zA-Z>} "_"
#[inline(always)]
pub fn number_at(s: &[u8], at: usize) -> Option<(u64, usize)>
    requires { FitsSymbol s.now }
    ensures { IfSome result (λ found. IsNumberAt s.now at found.0 found.1) }
{
    if let Some(found) = short_number_at(s, at, 1) {
        return Some(found);
    }
    if let Some(found) = short_number_at(s, at, 2) {
        return Some(found);
    }
    any_number_at(s, at)
}

/// The number in base 16 at a place, of at most 64 bits, and the place after it.
// <const-data> = {<hex-digit>} "_"
pub fn hex_at(s: &[u8], at: usize) -> Option<(u64, usize)>
    requires { FitsSymbol s.now }
    ensures { IfSome result (λ found. IsHexAt s.now at found.0 found.1) }
{
    if at > s.len() {
        return None;
    }
    let place = find_number(s, at, NumberKind::Hex).ok()?;
    let value = u64::try_from(value16(&s[place.from..place.to])?).ok()?;
    Some((value, place.end))
}

/// The disambiguator at a place, 0 where there is none, and the place after it.
// <disambiguator> = "s" <base-62-number>
#[inline(always)]
pub fn disambiguator_at(s: &[u8], at: usize) -> Option<(u64, usize)>
    requires { FitsSymbol s.now }
    ensures { IfSome result (λ found. IsDisambiguatorAt s.now at found.0 found.1) }
{
    if byte_at(s, at) != b's' {
        return Some((0, at));
    }
    let (number, end) = number_at(s, at.checked_add(1)?)?;
    Some((number.checked_add(1)?, end))
}
