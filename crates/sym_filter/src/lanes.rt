// Searches that test several bytes at once.

ghost use Rattle.std.specs.Prelude.{◌≡◌, ◌+◌, ◌≤◌, length, drop, take, true};
ghost use Rattle.std.specs.List.{list_all};
ghost use Rattle.sym_filter.specs.Lanes.{first_set, is_no_lead, is_no_mark};
ghost use Rattle.sym_filter.specs.Bytes.{is_byte_of};
ghost use Rattle.sym_filter.specs.declared.kinds.Letters.TheVariants.{Ascii};

use std::simd::prelude::*;

/// The number of bytes that are tested at once.
pub(crate) const LANES: usize = 16;

/// The number of bytes in a block, which is tested at once for any byte of a class.
pub(crate) const BLOCK: usize = 64;

/// The place of the lowest bit that is set, or the number of lanes if no bit is set.
#[inline(always)]
fn first_set(mask: u64) -> usize
    ensures { result ≡ first_set mask }
{
    if mask == 0 {
        LANES
    } else {
        mask.trailing_zeros() as usize
    }
}

/// Which of the sixteen bytes from a place on are `_`, as bits.
#[inline(always)]
fn marks(text: &[u8], at: usize) -> u64
    requires { at + 16 ≤ length text.now }
    ensures { (first_set result ≤ 16) × (list_all is_no_mark (take (first_set result) (drop at text.now)) ≡ true) }
{
    let bytes = u8x16::from_slice(&text[at..]);
    bytes.simd_eq(u8x16::splat(b'_')).to_bitmask()
}

/// How many of the sixteen bytes from a place on come before the first `_`.
#[inline(always)]
pub(crate) fn lanes_before_mark(text: &[u8], at: usize) -> usize
    requires { at + 16 ≤ length text.now }
    ensures { (result ≤ 16) × (list_all is_no_mark (take result (drop at text.now)) ≡ true) }
{
    first_set(marks(text, at))
}

/// Whether none of the sixteen bytes from a place on is `_`.
#[inline(always)]
fn has_no_mark(text: &[u8], at: usize) -> bool
    requires { at + 16 ≤ length text.now }
    ensures { result ≡ true → list_all is_no_mark (take 16 (drop at text.now)) ≡ true }
{
    marks(text, at) == 0
}

/// Whether none of the 64 bytes from a place on is `_`.
#[inline(always)]
pub(crate) fn block_has_no_mark(text: &[u8], at: usize) -> bool
    requires { at + 64 ≤ length text.now }
    ensures { result ≡ true → list_all is_no_mark (take 64 (drop at text.now)) ≡ true }
{
    // all four are computed, so that one branch serves them
    has_no_mark(text, at)
        & has_no_mark(text, at + LANES)
        & has_no_mark(text, at + 2 * LANES)
        & has_no_mark(text, at + 3 * LANES)
}

/// Which of the sixteen bytes from a place on are a backslash or ESC, as bits.
#[inline(always)]
fn leads(text: &[u8], at: usize) -> u64
    requires { at + 16 ≤ length text.now }
    ensures { (first_set result ≤ 16) × (list_all is_no_lead (take (first_set result) (drop at text.now)) ≡ true) }
{
    let bytes = u8x16::from_slice(&text[at..]);
    let leads = bytes.simd_eq(u8x16::splat(b'\\')) | bytes.simd_eq(u8x16::splat(0x1B));
    leads.to_bitmask()
}

/// How many of the sixteen bytes from a place on come before the first backslash or ESC.
#[inline(always)]
pub(crate) fn lanes_before_lead(text: &[u8], at: usize) -> usize
    requires { at + 16 ≤ length text.now }
    ensures { (result ≤ 16) × (list_all is_no_lead (take result (drop at text.now)) ≡ true) }
{
    first_set(leads(text, at))
}

/// Whether none of the sixteen bytes from a place on is a backslash or ESC.
#[inline(always)]
fn has_no_lead(text: &[u8], at: usize) -> bool
    requires { at + 16 ≤ length text.now }
    ensures { result ≡ true → list_all is_no_lead (take 16 (drop at text.now)) ≡ true }
{
    leads(text, at) == 0
}

/// Whether none of the 64 bytes from a place on is a backslash or ESC.
#[inline(always)]
pub(crate) fn block_has_no_lead(text: &[u8], at: usize) -> bool
    requires { at + 64 ≤ length text.now }
    ensures { result ≡ true → list_all is_no_lead (take 64 (drop at text.now)) ≡ true }
{
    // all four are computed, so that one branch serves them
    has_no_lead(text, at)
        & has_no_lead(text, at + LANES)
        & has_no_lead(text, at + 2 * LANES)
        & has_no_lead(text, at + 3 * LANES)
}

/// How many of the sixteen bytes from a place on come before the first that belongs to no run of ASCII letters.
#[inline(always)]
pub(crate) fn lanes_front(text: &[u8], at: usize) -> usize
    requires { at + 16 ≤ length text.now }
    ensures { (result ≤ 16) × (list_all (is_byte_of Ascii) (take result (drop at text.now)) ≡ true) }
{
    let bytes = u8x16::from_slice(&text[at..]);
    let letter = (bytes | u8x16::splat(0x20)) - u8x16::splat(b'a');
    let digit = bytes - u8x16::splat(b'0');
    let stops = letter.simd_ge(u8x16::splat(26))
        & digit.simd_ge(u8x16::splat(10))
        & bytes.simd_ne(u8x16::splat(b'_'))
        & bytes.simd_ne(u8x16::splat(b'.'))
        & bytes.simd_ne(u8x16::splat(b'$'));
    first_set(stops.to_bitmask())
}
