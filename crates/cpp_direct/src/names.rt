// Where names are in a symbol.

ghost use Rattle.std.specs.Prelude.{◌≡◌, ◌+◌, ◌<◌, ◌≤◌, ℕ, get_or, length, true, false};
ghost use Rattle.std.specs.Option.{IfSome};
ghost use Rattle.sym_core.specs.declared.NameClass.TheVariants.{Cpp};
ghost use Rattle.sym_core.specs.Number.{is_decimal_digit};
ghost use Rattle.sym_core.specs.Scan.{ReachesNameBytes};
ghost use Rattle.sym_core.specs.Token.{is_name_byte};
ghost use Rattle.cpp_direct.specs.Names.{IsLengthRead, IsNamePlace, IsReadable};

use crate::tokens::byte_at;
use std::simd::prelude::*;
use sym_core::{NameClass, find_name};

/// How many bytes are examined together.
const LANES: usize = 16;

/// Whether the sixteen bytes from a place on, which are examined together, may be in a name.
#[inline(always)]
fn are_lanes_named(bytes: &[u8], at: usize) -> bool
    requires { at + 16 ≤ length bytes.now }
    ensures { result ≡ true → (k : ℕ) → at ≤ k → k < at + 16 → is_name_byte Cpp (get_or bytes.now k 0) ≡ true }
{
    let lanes = u8x16::from_slice(&bytes[at..]);
    let barred = lanes.simd_le(u8x16::splat(b' ')) | lanes.simd_eq(u8x16::splat(127));
    barred.to_bitmask() == 0
}

/// Whether each of a few bytes may be in a name.
#[inline(never)]
fn are_few_named(bytes: &[u8]) -> bool
    ensures { result ≡ true → ReachesNameBytes Cpp bytes.now (length bytes.now) }
{
    let mut are = true;
    let mut at = 0;
    'bytes: while at < bytes.len() {
        are = are & (bytes[at] > b' ') & (bytes[at] != 127);
        at += 1;
    }
    are
}

/// Whether each byte may be in a name. The last sixteen are examined together wherever they begin.
pub fn are_name_bytes(bytes: &[u8]) -> bool
    ensures { result ≡ true → ReachesNameBytes Cpp bytes.now (length bytes.now) }
{
    if bytes.len() < LANES {
        return are_few_named(bytes);
    }
    let last = bytes.len() - LANES;
    let mut at = 0;
    'lanes: while at < last {
        if !are_lanes_named(bytes, at) {
            return false;
        }
        at += LANES;
    }
    are_lanes_named(bytes, last)
}

/// Where the own bytes of a name are: those after its length.
#[derive(Clone, Copy)]
pub struct NamePlace {
    pub from: usize,
    pub to: usize,
}

/// Whether a byte is a decimal digit.
#[inline(always)]
pub fn is_digit(byte: u8) -> bool
    ensures { result ≡ is_decimal_digit byte }
{
    b'0' <= byte && byte <= b'9'
}

/// The own bytes of the name at a place: the `size` bytes after its length.
#[inline(always)]
fn own_at(s: &[u8], _at: usize, from: usize, size: usize) -> Option<NamePlace>
    requires readable { IsReadable s.now }
    requires read { IsLengthRead s.now _at from size }
    requires within { from ≤ length s.now }
    ensures { IfSome result (IsNamePlace s.now _at) }
{
    if size > s.len() - from {
        return None;
    }
    let to = from + size;
    let own = &s[from..to];
    if is_digit(own[0]) {
        return None;
    }
    Some(NamePlace { from, to })
}

/// The own bytes of the name at a place, if its length has more than two digits.
#[inline(never)]
fn long_name_at(s: &[u8], at: usize) -> Option<NamePlace>
    requires { IsReadable s.now }
    ensures { IfSome result (IsNamePlace s.now at) }
{
    if at > s.len() {
        return None;
    }
    let place = find_name(s, at, NameClass::Cpp).ok()?;
    Some(NamePlace {
        from: place.from,
        to: place.to,
    })
}

/// Where the own bytes of the name at a place are.
// <source-name> ::= <positive length number> <identifier>
#[inline(always)]
pub fn name_at(s: &[u8], at: usize) -> Option<NamePlace>
    requires { IsReadable s.now }
    ensures { IfSome result (IsNamePlace s.now at) }
{
    let first = byte_at(s, at);
    if first < b'1' || b'9' < first {
        return None;
    }
    let second_at = at.checked_add(1)?;
    let second = byte_at(s, second_at);
    if !is_digit(second) {
        return own_at(s, at, second_at, (first - b'0') as usize);
    }
    let from = second_at.checked_add(1)?;
    if is_digit(byte_at(s, from)) {
        return long_name_at(s, at);
    }
    let size = 10 * (first - b'0') as usize + (second - b'0') as usize;
    own_at(s, at, from, size)
}
