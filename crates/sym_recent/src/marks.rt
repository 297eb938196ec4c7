// Marks of symbols: different symbols mostly have different marks.
ghost use Rattle.std.specs.Prelude.{◌+◌, ◌≤◌, length};

/// How many bytes are read as one number. A shorter symbol has no mark.
const BYTES: usize = 8;

/// How many bytes are mixed into a mark at a time.
const STEP: usize = 32;

/// The golden ratio's fraction as an odd number of 64 bits.
const FACTOR: u64 = 0x9E37_79B9_7F4A_7C15;

/// The mark of a symbol, by its bytes. A symbol of fewer than eight bytes, whose text costs little,
/// has no mark.
#[inline(never)]
pub(crate) fn mark_of(symbol: &[u8]) -> Option<u32> {
    if symbol.len() < BYTES {
        return None;
    }
    let length = symbol.len() as u64;
    let number = if symbol.len() < STEP {
        mixed_short(symbol, length)
    } else {
        mixed_long(symbol, length)
    };
    Some((mixed(number, 0) >> 32) as u32)
}

/// A number into which the bytes of a symbol shorter than a step are mixed, some of them twice.
#[inline(always)]
fn mixed_short(symbol: &[u8], number: u64) -> u64
    requires { 8 ≤ length symbol.now }
{
    let last = symbol.len() - BYTES;
    let front = bytes_at(symbol, 0) ^ bytes_at(symbol, last / 3).rotate_left(16);
    let back = bytes_at(symbol, last - last / 3).rotate_left(32) ^ bytes_at(symbol, last);
    mixed(mixed(number, front), back)
}

/// A number into which all bytes of a symbol of a step or more are mixed, some of the last ones
/// twice.
#[inline(always)]
fn mixed_long(symbol: &[u8], number: u64) -> u64
    requires { 32 ≤ length symbol.now }
{
    let last = symbol.len() - STEP;
    let mut number = number;
    let mut at = 0;
    'steps: while at < last {
        number = mixed_step(symbol, at, number);
        at += STEP;
    }
    mixed_step(symbol, last, number)
}

/// A number into which the bytes of a step from a place on are mixed.
#[inline(always)]
fn mixed_step(symbol: &[u8], at: usize, number: u64) -> u64
    requires { at + 32 ≤ length symbol.now }
{
    let front = bytes_at(symbol, at) ^ bytes_at(symbol, at + 8).rotate_left(16);
    let back = bytes_at(symbol, at + 16).rotate_left(32)
        ^ bytes_at(symbol, at + 24).rotate_left(48);
    mixed(number ^ front, back)
}

/// A number into which another number is mixed.
#[inline(always)]
fn mixed(number: u64, other: u64) -> u64 {
    let product = number.wrapping_mul(FACTOR);
    product ^ (product >> 32) ^ other
}

/// The eight bytes from a place on.
#[inline(always)]
fn bytes_at(symbol: &[u8], at: usize) -> u64
    requires { at + 8 ≤ length symbol.now }
{
    let (eights, _) = symbol[at..].as_chunks::<BYTES>();
    u64::from_le_bytes(eights[0])
}
