// The places of names.

ghost use Rattle.std.specs.Prelude.{◌≡◌, ◌≤◌, ◌-◌, length, get_or, true, false};
ghost use Rattle.std.specs.Option.{IfSome};
ghost use Rattle.sym_core.specs.declared.NameClass.TheVariants.{Rust};
ghost use Rattle.sym_core.specs.Number.{FitsSymbol, is_decimal_digit};
ghost use Rattle.sym_core.specs.Scan.{ReachesNameBytes};
ghost use Rattle.sym_core.specs.Token.{is_name_byte};
ghost use Rattle.rust_direct.specs.Lanes.{EachPasses};
ghost use Rattle.rust_direct.specs.Names.{IsLengthRead, IsNamePlace, IsNameSpan, goes_on};

use crate::lanes::{LANES, are_name_lanes};
use sym_core::{NameClass, Span, TokenPlace, find_name};
use sym_direct::byte_at;

// For each byte, 1 if it may not be in a name, and 0 otherwise.
static BARRED: [u8; 256] = [
    1, 1, 1, 1, 1, 1, 1, 1, 1, 1, 1, 1, 1, 1, 1, 1, 1, 1, 1, 1, 1, 1, 1, 1, 1, 1, 1, 1, 1, 1, 1, 1,
    1, 1, 1, 1, 1, 1, 1, 1, 1, 1, 1, 1, 1, 1, 1, 1, 0, 0, 0, 0, 0, 0, 0, 0, 0, 0, 1, 1, 1, 1, 1, 1,
    1, 0, 0, 0, 0, 0, 0, 0, 0, 0, 0, 0, 0, 0, 0, 0, 0, 0, 0, 0, 0, 0, 0, 0, 0, 0, 0, 1, 1, 1, 1, 0,
    1, 0, 0, 0, 0, 0, 0, 0, 0, 0, 0, 0, 0, 0, 0, 0, 0, 0, 0, 0, 0, 0, 0, 0, 0, 0, 0, 1, 1, 1, 1, 1,
    1, 1, 1, 1, 1, 1, 1, 1, 1, 1, 1, 1, 1, 1, 1, 1, 1, 1, 1, 1, 1, 1, 1, 1, 1, 1, 1, 1, 1, 1, 1, 1,
    1, 1, 1, 1, 1, 1, 1, 1, 1, 1, 1, 1, 1, 1, 1, 1, 1, 1, 1, 1, 1, 1, 1, 1, 1, 1, 1, 1, 1, 1, 1, 1,
    1, 1, 1, 1, 1, 1, 1, 1, 1, 1, 1, 1, 1, 1, 1, 1, 1, 1, 1, 1, 1, 1, 1, 1, 1, 1, 1, 1, 1, 1, 1, 1,
    1, 1, 1, 1, 1, 1, 1, 1, 1, 1, 1, 1, 1, 1, 1, 1, 1, 1, 1, 1, 1, 1, 1, 1, 1, 1, 1, 1, 1, 1, 1, 1,
];

/// 1 for a byte that may not be in a name, and 0 for one that may.
#[inline(always)]
fn barred(byte: u8) -> u8
    ensures few { result ≤ 1 }
    ensures none { result ≡ 0 → is_name_byte Rust byte ≡ true }
{
    BARRED[byte as usize]
}

/// How many of the first bytes may be in a name, counted in fours: a four counts if all its bytes may.
#[inline(always)]
fn named_fours(bytes: &[u8]) -> usize
    ensures within { result ≤ length bytes.now }
    ensures each { ReachesNameBytes Rust bytes.now result }
{
    let mut end = 0;
    'fours: while bytes.len() - end >= 4
        && barred(bytes[end])
            + barred(bytes[end + 1])
            + barred(bytes[end + 2])
            + barred(bytes[end + 3])
            == 0
    {
        end += 4;
    }
    end
}

/// Whether each byte may be in a name.
fn are_few_name_bytes(bytes: &[u8]) -> bool
    ensures { result ≡ true → ReachesNameBytes Rust bytes.now (length bytes.now) }
{
    let mut end = named_fours(bytes);
    'ones: while end < bytes.len() {
        if barred(bytes[end]) != 0 {
            return false;
        }
        end += 1;
    }
    true
}

/// Whether at most sixteen bytes between two places may be in a name, tested together with the
/// bytes before them: most bytes before a name are those of other names and of lengths.
#[inline(always)]
fn are_last_name_bytes(s: &[u8], from: usize, to: usize) -> bool
    requires from { from ≤ to }
    requires within { to ≤ length s.now }
    ensures { result ≡ true → EachPasses (is_name_byte Rust) s.now from (to - from) }
{
    if to - from > LANES || to < LANES {
        return false;
    }
    are_name_lanes(s, to - LANES)
}

/// Whether each of the bytes between two places may be in a name, however many they are.
#[inline(never)]
fn are_any_name_bytes(s: &[u8], from: usize, to: usize) -> bool
    requires from { from ≤ to }
    requires within { to ≤ length s.now }
    ensures { result ≡ true → EachPasses (is_name_byte Rust) s.now from (to - from) }
{
    let mut at = from;
    'lanes: while to - at >= LANES && are_name_lanes(s, at) {
        at += LANES;
    }
    are_last_name_bytes(s, at, to) || are_few_name_bytes(&s[at..to])
}

/// Whether each of the bytes between two places may be in a name.
#[inline(always)]
fn are_name_bytes(s: &[u8], from: usize, to: usize) -> bool
    requires from { from ≤ to }
    requires within { to ≤ length s.now }
    ensures { result ≡ true → EachPasses (is_name_byte Rust) s.now from (to - from) }
{
    are_last_name_bytes(s, from, to) || are_any_name_bytes(s, from, to)
}

/// Whether a byte is a decimal digit.
#[inline(always)]
fn is_digit(byte: u8) -> bool
    ensures { result ≡ is_decimal_digit byte }
{
    b'0' <= byte && byte <= b'9'
}

// For each byte, 1 if it is a decimal digit or an `_`, and 0 otherwise.
static LENGTH_BYTES: [u8; 256] = [
    0, 0, 0, 0, 0, 0, 0, 0, 0, 0, 0, 0, 0, 0, 0, 0, 0, 0, 0, 0, 0, 0, 0, 0, 0, 0, 0, 0, 0, 0, 0, 0,
    0, 0, 0, 0, 0, 0, 0, 0, 0, 0, 0, 0, 0, 0, 0, 0, 1, 1, 1, 1, 1, 1, 1, 1, 1, 1, 0, 0, 0, 0, 0, 0,
    0, 0, 0, 0, 0, 0, 0, 0, 0, 0, 0, 0, 0, 0, 0, 0, 0, 0, 0, 0, 0, 0, 0, 0, 0, 0, 0, 0, 0, 0, 0, 1,
    0, 0, 0, 0, 0, 0, 0, 0, 0, 0, 0, 0, 0, 0, 0, 0, 0, 0, 0, 0, 0, 0, 0, 0, 0, 0, 0, 0, 0, 0, 0, 0,
    0, 0, 0, 0, 0, 0, 0, 0, 0, 0, 0, 0, 0, 0, 0, 0, 0, 0, 0, 0, 0, 0, 0, 0, 0, 0, 0, 0, 0, 0, 0, 0,
    0, 0, 0, 0, 0, 0, 0, 0, 0, 0, 0, 0, 0, 0, 0, 0, 0, 0, 0, 0, 0, 0, 0, 0, 0, 0, 0, 0, 0, 0, 0, 0,
    0, 0, 0, 0, 0, 0, 0, 0, 0, 0, 0, 0, 0, 0, 0, 0, 0, 0, 0, 0, 0, 0, 0, 0, 0, 0, 0, 0, 0, 0, 0, 0,
    0, 0, 0, 0, 0, 0, 0, 0, 0, 0, 0, 0, 0, 0, 0, 0, 0, 0, 0, 0, 0, 0, 0, 0, 0, 0, 0, 0, 0, 0, 0, 0,
];

/// Whether a byte after digits of a length may belong to the length, or separate it from the name.
#[inline(always)]
fn goes_on(byte: u8) -> bool
    ensures { result ≡ goes_on byte }
{
    LENGTH_BYTES[byte as usize] != 0
}

/// The own bytes of the name at a place; its length may have any number of digits.
#[inline(never)]
fn any_name_span(s: &[u8], at: usize) -> Option<Span>
    requires { FitsSymbol s.now }
    ensures { IfSome result (IsNameSpan s.now at) }
{
    if at > s.len() {
        return None;
    }
    let place = find_name(s, at, NameClass::Rust).ok()?;
    Some(Span {
        from: place.from as u32,
        to: place.to as u32,
    })
}

/// The name at a place; its length may have any number of digits.
#[inline(always)]
pub fn any_name_at(s: &[u8], at: usize) -> Option<TokenPlace>
    requires { FitsSymbol s.now }
    ensures { IfSome result (IsNamePlace s.now at) }
{
    let own = any_name_span(s, at)?;
    let to = own.to as usize;
    Some(TokenPlace {
        from: own.from as usize,
        to,
        end: to,
    })
}

/// The name whose own bytes begin at a place, once its length is read.
#[inline(always)]
fn own_at(s: &[u8], _at: usize, from: usize, size: usize) -> Option<TokenPlace>
    requires fits { FitsSymbol s.now }
    requires read { IsLengthRead s.now _at from size }
    requires within { from ≤ length s.now }
    requires apart { goes_on (get_or s.now from 0) ≡ false }
    ensures { IfSome result (IsNamePlace s.now _at) }
{
    if size > s.len() - from {
        return None;
    }
    let to = from + size;
    if !are_name_bytes(s, from, to) {
        return None;
    }
    Some(TokenPlace { from, to, end: to })
}

/// The name at a place, if its length has one digit or two and nothing after it.
// <undisambiguated-identifier> = <decimal-number> ["_"] <bytes>
#[inline(always)]
pub fn short_name_at(s: &[u8], at: usize) -> Option<TokenPlace>
    requires { FitsSymbol s.now }
    ensures { IfSome result (IsNamePlace s.now at) }
{
    let first = byte_at(s, at);
    if first < b'1' || b'9' < first {
        return None;
    }
    let behind = at.checked_add(1)?;
    if behind >= s.len() {
        return None;
    }
    let second = s[behind];
    if second == b'_' {
        return None;
    }
    if !is_digit(second) {
        return own_at(s, at, behind, (first - b'0') as usize);
    }
    let from = behind + 1;
    if from >= s.len() {
        return None;
    }
    if goes_on(s[from]) {
        return None;
    }
    let size = 10 * (first - b'0') as usize + (second - b'0') as usize;
    own_at(s, at, from, size)
}

/// The name at a place: most have a length of one digit or two, and nothing after it.
// <undisambiguated-identifier> = <decimal-number> ["_"] <bytes>
#[inline(always)]
pub fn name_at(s: &[u8], at: usize) -> Option<TokenPlace>
    requires { FitsSymbol s.now }
    ensures { IfSome result (IsNamePlace s.now at) }
{
    if let Some(name) = short_name_at(s, at) {
        return Some(name);
    }
    any_name_at(s, at)
}

/// The name at a place where most names are empty, such as a closure's.
// <undisambiguated-identifier> = <decimal-number> ["_"] <bytes>
#[inline(always)]
pub fn special_name_at(s: &[u8], at: usize) -> Option<TokenPlace>
    requires { FitsSymbol s.now }
    ensures { IfSome result (IsNamePlace s.now at) }
{
    if at >= s.len() {
        return None;
    }
    if s[at] != b'0' {
        return name_at(s, at);
    }
    let end = at + 1;
    Some(TokenPlace {
        from: end,
        to: end,
        end,
    })
}
