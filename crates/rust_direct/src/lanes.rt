// Bytes that are looked at together.

ghost use Rattle.std.specs.Prelude.{◌≡◌, ◌+◌, ◌≤◌, length, true};
ghost use Rattle.sym_core.specs.declared.NameClass.TheVariants.{Rust};
ghost use Rattle.sym_core.specs.declared.NumberKind.TheVariants.{Base62};
ghost use Rattle.sym_core.specs.Number.{is_digit_of};
ghost use Rattle.sym_core.specs.Token.{is_name_byte};
ghost use Rattle.rust_direct.specs.Lanes.{first_set, EachPasses};

use std::simd::prelude::*;

/// How many bytes are looked at together.
pub const LANES: usize = 16;

/// The place of the lowest bit that is set, or the number of lanes if no bit is.
#[inline(always)]
fn first_set(mask: u64) -> usize
    ensures { result ≡ first_set mask }
{
    if mask == 0 {
        LANES
    } else {
        mask.trailing_zeros() as usize
    }
}

/// The lanes whose bytes may not be in a name, as bits, among the sixteen bytes from a place on.
#[inline(always)]
fn name_stops(s: &[u8], at: usize) -> u64
    requires { at + 16 ≤ length s.now }
    ensures { (first_set result ≤ 16) × EachPasses (is_name_byte Rust) s.now at (first_set result) }
{
    let bytes = u8x16::from_slice(&s[at..]);
    let letter = (bytes | u8x16::splat(0x20)) - u8x16::splat(b'a');
    let digit = bytes - u8x16::splat(b'0');
    let stops = letter.simd_ge(u8x16::splat(26))
        & digit.simd_ge(u8x16::splat(10))
        & bytes.simd_ne(u8x16::splat(b'_'));
    stops.to_bitmask()
}

/// The lanes whose bytes are no digits in base 62, as bits, among the sixteen bytes from a place
/// on.
#[inline(always)]
fn digit_stops(s: &[u8], at: usize) -> u64
    requires { at + 16 ≤ length s.now }
    ensures { (first_set result ≤ 16) × EachPasses (is_digit_of Base62) s.now at (first_set result) }
{
    let bytes = u8x16::from_slice(&s[at..]);
    let letter = (bytes | u8x16::splat(0x20)) - u8x16::splat(b'a');
    let digit = bytes - u8x16::splat(b'0');
    let stops = letter.simd_ge(u8x16::splat(26)) & digit.simd_ge(u8x16::splat(10));
    stops.to_bitmask()
}

/// Whether each of the sixteen bytes from a place on may be in a name.
#[inline(always)]
pub fn are_name_lanes(s: &[u8], at: usize) -> bool
    requires { at + 16 ≤ length s.now }
    ensures { result ≡ true → EachPasses (is_name_byte Rust) s.now at 16 }
{
    name_stops(s, at) == 0
}

/// How many of the sixteen bytes from a place on come before the first that is no digit in base 62.
#[inline(always)]
pub fn digit_lanes(s: &[u8], at: usize) -> usize
    requires { at + 16 ≤ length s.now }
    ensures { (result ≤ 16) × EachPasses (is_digit_of Base62) s.now at result }
{
    first_set(digit_stops(s, at))
}
