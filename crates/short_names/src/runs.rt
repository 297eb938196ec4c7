// Runs of bytes of names, and the other pieces of a text.
ghost use Rattle.std.specs.Prelude.{◌≡◌, ◌≤◌, ◌<◌, ◌^◌, ◌+◌, ◌-◌, ℕ, Bool, length, take, drop, get_or, true, false, MatchOption};
ghost use Rattle.std.specs.List.{list_all};
ghost use Rattle.std.specs.Int.{bit_at};
ghost use Rattle.short_names.specs.Runs.{first_set, is_letter, is_name_byte, run_of, ends_operator, sign_size, operator_size, begins_std, is_std_at};
ghost use Rattle.short_names.specs.Short.{shortened};

use std::simd::prelude::*;

// For each byte, `1` if it may be in a name without `::`, else `0`.
static LETTERS: [u8; 256] = *b"\
    00000000000000000000000000000000\
    00001000000000101111111111000000\
    01111111111111111111111111100001\
    01111111111111111111111111100000\
    11111111111111111111111111111111\
    11111111111111111111111111111111\
    11111111111111111111111111111111\
    11111111111111111111111111111111";

/// Whether a byte may be in a name without `::`.
#[inline(always)]
pub fn is_letter(byte: u8) -> bool
    ensures { result ≡ is_letter byte }
{
    LETTERS[byte as usize] == b'1'
}

/// Whether a byte may be in a name.
#[inline(always)]
pub(crate) fn is_name_byte(byte: u8) -> bool
    ensures { result ≡ is_name_byte byte }
{
    byte == b':' || is_letter(byte)
}

/// How many bytes are looked at together.
const LANES: usize = 16;

/// The place of the lowest bit that is set, or the number of lanes if no bit is set.
#[inline(always)]
fn first_set(mask: u64) -> usize
    ensures { result ≡ first_set mask }
{
    if mask == 0 {
        LANES
    } else {
        mask.trailing_zeros() as usize
    }
}

/// How many of the sixteen bytes from a place on come before the first that can't be in a name.
#[inline(always)]
fn name_lanes(text: &[u8], at: usize) -> usize
    requires { at + 16 ≤ length text.now }
    ensures { (result ≤ 16) × (list_all is_name_byte (take result (drop at text.now)) ≡ true) }
{
    let bytes = u8x16::from_slice(&text[at..]);
    let letter = (bytes | u8x16::splat(0x20)) - u8x16::splat(b'a');
    // a colon comes after the digits
    let digit = bytes - u8x16::splat(b'0');
    let stops = letter.simd_ge(u8x16::splat(26))
        & digit.simd_ge(u8x16::splat(11))
        & bytes.simd_ne(u8x16::splat(b'_'))
        & bytes.simd_ne(u8x16::splat(b'.'))
        & bytes.simd_ne(u8x16::splat(b'$'))
        & bytes.simd_lt(u8x16::splat(128));
    first_set(stops.to_bitmask())
}

/// A number of bytes at the front of a text that may all be in a name, found sixteen at a time.
#[inline(always)]
fn lanes_run(text: &[u8]) -> usize
    ensures within { result ≤ length text.now }
    ensures in_run { list_all is_name_byte (take result text.now) ≡ true }
{
    let mut size = 0;
    'lanes: while text.len() - size >= LANES {
        let front = name_lanes(text, size);
        size += front;
        if front < LANES {
            return size;
        }
    }
    size
}

/// How many bytes at the front of a text are bytes of names.
#[inline(always)]
fn run_size(text: &[u8]) -> usize
    ensures within { result ≤ length text.now }
    ensures in_run { list_all is_name_byte (take result text.now) ≡ true }
    ensures stops { result < length text.now → is_name_byte (get_or text.now result 0) ≡ false }
{
    let mut size = lanes_run(text);
    'bytes: while size < text.len() {
        if !is_name_byte(text[size]) {
            return size;
        }
        size += 1;
    }
    size
}

/// The longest run of bytes of names with which a text begins.
pub(crate) fn run_at(text: &[u8]) -> &[u8]
    ensures run { result.now ≡ run_of text.now }
    ensures within { length result.now ≤ length text.now }
{
    &text[..run_size(text)]
}

/// Whether a run ends with the word `operator`.
#[tactic(auto, unfolding(crate::specs::Runs::ends_operator))]
fn ends_operator(run: &[u8]) -> bool
    ensures { result ≡ ends_operator run.now }
{
    run.ends_with(b"operator") && (run.len() == 8 || !is_letter(run[run.len() - 9]))
}

/// The size of the operator's sign with `<` or `>`, or of the arrow, with which a text begins; 0 if
/// there is none.
#[tactic(auto, unfolding(crate::specs::Runs::sign_size))]
fn sign_size(text: &[u8]) -> usize
    ensures { result ≡ sign_size text.now }
{
    if text.starts_with(b"<=>") {
        3
    } else if text.starts_with(b"<<") || text.starts_with(b">>") || text.starts_with(b"->") {
        2
    } else if text.starts_with(b"<") || text.starts_with(b">") {
        1
    } else {
        0
    }
}

/// How many bytes of an operator's sign come after a run.
pub(crate) fn operator_size(run: &[u8], rest: &[u8]) -> usize
    ensures size { result ≡ operator_size run.now rest.now }
    ensures within { result ≤ length rest.now }
{
    if ends_operator(run) {
        sign_size(rest)
    } else {
        0
    }
}

/// How many places are looked at together for `std::`.
const BLOCK: usize = 64;

/// The last byte that is looked at for a place is this many bytes after the place.
const REACH: usize = 3;

/// A bit for each of the 64 places from a place on, set if `d:` comes two bytes after it, so that `std::` may begin there.
#[inline(always)]
fn block_bits(text: &[u8], at: usize) -> u64
    requires { at + 67 ≤ length text.now }
    ensures { (k : ℕ) → k < 64 → bit_at result k ≡ 0 → begins_std (drop (at + k) text.now) ≡ false }
{
    let third = u8x64::from_slice(&text[at + 2..]).simd_eq(u8x64::splat(b'd'));
    let fourth = u8x64::from_slice(&text[at + 3..]).simd_eq(u8x64::splat(b':'));
    (third & fourth).to_bitmask()
}

/// Likewise for 16 places.
#[inline(always)]
fn lane_bits(text: &[u8], at: usize) -> u64
    requires { at + 19 ≤ length text.now }
    ensures bits { (k : ℕ) → k < 16 → bit_at result k ≡ 0 → begins_std (drop (at + k) text.now) ≡ false }
    ensures few { result < 2 ^ 16 }
{
    let third = u8x16::from_slice(&text[at + 2..]).simd_eq(u8x16::splat(b'd'));
    let fourth = u8x16::from_slice(&text[at + 3..]).simd_eq(u8x16::splat(b':'));
    (third & fourth).to_bitmask()
}

/// The first place of a block, at or after this one, where `std::` may begin; the end of the block if there is none.
#[inline(always)]
fn first_place(bits: u64, from: usize, at: usize, count: usize) -> usize
    requires { (from ≤ at) × (at < from + count) × (count ≤ 64) × (from + count < 2 ^ 63) × (bits < 2 ^ count) }
    ensures within { (at ≤ result) × (result ≤ from + count) }
    ensures none { (k : ℕ) → at ≤ k → k < result → bit_at bits (k - from) ≡ 0 }
{
    let left = bits >> (at - from);
    if left == 0 {
        from + count
    } else {
        at + left.trailing_zeros() as usize
    }
}

/// A place at or after this one. `std::` begins at none of the places between the two.
#[inline(always)]
fn next_place(text: &[u8], at: usize) -> usize
    requires { at + 5 ≤ length text.now }
    ensures within { (at ≤ result) × (result < length text.now) }
    ensures none { (k : ℕ) → at ≤ k → k < result → begins_std (drop k text.now) ≡ false }
{
    // the last block ends with the text, even if some of its places were looked at before
    if text.len() >= BLOCK + REACH {
        let from = at.min(text.len() - (BLOCK + REACH));
        return first_place(block_bits(text, from), from, at, BLOCK);
    }
    if text.len() >= LANES + REACH {
        let from = at.min(text.len() - (LANES + REACH));
        return first_place(lane_bits(text, from), from, at, LANES);
    }
    at
}

/// Whether a run begins with `std::` at a place of a text.
#[inline(always)]
fn is_std_run(text: &[u8], at: usize) -> bool
    requires { at ≤ length text.now }
    ensures { result ≡ is_std_at text.now at }
{
    match &text[at..] {
        [b's', b't', b'd', b':', b':', ..] => at == 0 || !is_name_byte(text[at - 1]),
        _ => false,
    }
}

/// The place of the first run, at or after a place, that begins with `std::`; none if there is no such run.
pub(crate) fn std_run(text: &[u8], from: usize) -> Option<usize>
    requires { from ≤ length text.now }
    ensures { MatchOption result ((k : ℕ) → from ≤ k → is_std_at text.now k ≡ false)
        (λ at. (from ≤ at) × (is_std_at text.now at ≡ true) × ((k : ℕ) → from ≤ k → k < at → is_std_at text.now k ≡ false) × (at + 5 ≤ length text.now)) }
{
    let mut at = from;
    'places: while text.len() - at >= 5 {
        at = next_place(text, at);
        if is_std_run(text, at) {
            return Some(at);
        }
        at += 1;
    }
    None
}

/// Whether a text has a run that begins with `std::`. A text without such a run is as short as it can be.
pub fn has_std(text: &[u8]) -> bool
    ensures { result ≡ false → (keeps_inline : Bool) → shortened keeps_inline text.now ≡ text.now }
{
    std_run(text, 0).is_some()
}
