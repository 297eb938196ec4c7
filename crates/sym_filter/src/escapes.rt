// Escapes of strings and of terminals. Where words begin within runs, a text is cut after each escape.
ghost use Rattle.std.specs.Prelude.{◌≡◌, ◌≤◌, ◌<◌, length, take, true, false};
ghost use Rattle.std.specs.List.{list_all};
ghost use Rattle.sym_filter.specs.Carried.{IsRead, after_backslash, after_digit, ends_with, escape_after, goes_on_after, only};
ghost use Rattle.sym_filter.specs.Escapes.{is_esc_digit, is_hex_digit, is_letter, is_parameter};
ghost use Rattle.sym_filter.specs.Lanes.{is_no_lead};

use crate::kinds::Letters;
use crate::lanes::{BLOCK, LANES, block_has_no_lead, lanes_before_lead};
use crate::places::begins_within;

/// How much of an escape was read. ESC is 0x1B, or one of its spellings `\e`, `\033`, `\x1b`, `\u001b`.
#[derive(Clone, Copy, Debug, PartialEq, Eq)]
pub enum Escape {
    /// Nothing.
    Outside,
    /// A backslash.
    Backslash,
    /// `\0`.
    Octal,
    /// `\03`.
    Octal3,
    /// `\u`.
    Hex,
    /// `\u0`.
    Hex0,
    /// `\u00` or `\x`.
    Hex00,
    /// `\u001` or `\x1`.
    Hex001,
    /// Digits that don't spell ESC, with three more to come.
    Three,
    /// Digits that don't spell ESC, with two more to come.
    Two,
    /// Digits that don't spell ESC, with one more to come.
    One,
    /// ESC.
    Esc,
    /// ESC, `[`, and digits, `:` and `;`.
    Sequence,
}

impl Escape {
    /// The escape after one more byte.
    #[inline]
    fn after(self, byte: u8) -> Escape
        ensures { result ≡ escape_after self byte }
    {
        if byte == b'\\' {
            Escape::Backslash
        } else if byte == 0x1B {
            Escape::Esc
        } else {
            self.goes_on_after(byte)
        }
    }

    /// The escape after a byte with which no escape begins.
    fn goes_on_after(self, byte: u8) -> Escape
        ensures { result ≡ goes_on_after self byte }
    {
        match self {
            Escape::Outside => Escape::Outside,
            Escape::Backslash => after_backslash(byte),
            Escape::Octal => only(byte == b'3', Escape::Octal3),
            Escape::Octal3 => only(byte == b'3', Escape::Esc),
            Escape::Hex => after_digit(byte, b'0', Escape::Hex0, Escape::Three),
            Escape::Hex0 => after_digit(byte, b'0', Escape::Hex00, Escape::Two),
            Escape::Hex00 => after_digit(byte, b'1', Escape::Hex001, Escape::One),
            Escape::Hex001 => only(is_esc_digit(b'b', byte), Escape::Esc),
            Escape::Three => only(is_hex_digit(byte), Escape::Two),
            Escape::Two => only(is_hex_digit(byte), Escape::One),
            Escape::One => Escape::Outside,
            Escape::Esc => only(byte == b'[', Escape::Sequence),
            Escape::Sequence => only(is_parameter(byte), Escape::Sequence),
        }
    }

    /// Whether a byte ends the escape.
    #[inline]
    fn ends_with(self, byte: u8) -> bool
        ensures { result ≡ ends_with self byte }
    {
        match self {
            Escape::Backslash => byte == b'n' || byte == b'r' || byte == b't',
            Escape::Hex001 => is_hex_digit(byte),
            Escape::One => is_hex_digit(byte),
            Escape::Sequence => is_letter(byte),
            _ => false,
        }
    }

    /// How many bytes at the front of a text may be skipped: those before the next backslash or ESC, where no escape is
    /// open.
    fn passes(self, text: &[u8]) -> usize
        ensures within { result ≤ length text.now }
        ensures read { (letters : Letters) → IsRead false letters self self (take result text.now) }
    {
        match self {
            Escape::Outside => before_lead(text),
            _ => 0,
        }
    }
}

/// The escape if it continues, otherwise none.
fn only(goes_on: bool, escape: Escape) -> Escape
    ensures { result ≡ only goes_on escape }
{
    if goes_on { escape } else { Escape::Outside }
}

/// The escape after a backslash and a byte.
fn after_backslash(byte: u8) -> Escape
    ensures { result ≡ after_backslash byte }
{
    if byte == b'n' || byte == b'r' || byte == b't' {
        Escape::Outside
    } else if byte == b'u' {
        Escape::Hex
    } else if byte == b'x' {
        Escape::Hex00
    } else if byte == b'0' {
        Escape::Octal
    } else {
        only(byte == b'e', Escape::Esc)
    }
}

/// The escape after a byte: `esc` if it is this digit of ESC, `other` if it is another digit.
fn after_digit(byte: u8, digit: u8, esc: Escape, other: Escape) -> Escape
    ensures { result ≡ after_digit byte digit esc other }
{
    if is_esc_digit(digit, byte) {
        esc
    } else {
        only(is_hex_digit(byte), other)
    }
}

/// Whether a byte is a digit of ESC, where `b` may be a capital.
fn is_esc_digit(digit: u8, byte: u8) -> bool
    ensures { result ≡ is_esc_digit digit byte }
{
    byte == digit || (digit == b'b' && byte == b'B')
}

/// Whether a byte is a hexadecimal digit.
fn is_hex_digit(byte: u8) -> bool
    ensures { result ≡ is_hex_digit byte }
{
    byte.is_ascii_hexdigit()
}

/// Whether a byte is an ASCII letter.
fn is_letter(byte: u8) -> bool
    ensures { result ≡ is_letter byte }
{
    byte.is_ascii_alphabetic()
}

/// Whether a byte is a digit, `:` or `;`.
fn is_parameter(byte: u8) -> bool
    ensures { result ≡ is_parameter byte }
{
    b'0' <= byte && byte <= b';'
}

/// How many bytes at the front of a text are neither a backslash nor ESC, or a smaller number: sixteen bytes are tested at once.
fn before_lead(text: &[u8]) -> usize
    ensures within { result ≤ length text.now }
    ensures no_lead { list_all is_no_lead (take result text.now) ≡ true }
{
    let blocks = blocks_before_lead(text);
    let mut length = blocks;
    'lanes: while text.len() - length >= LANES {
        let front = lanes_before_lead(text, length);
        length += front;
        if front < LANES {
            return length;
        }
    }
    length
}

/// How many bytes at the front of a text are in blocks of 64 bytes that have no backslash and no ESC.
#[inline(always)]
fn blocks_before_lead(text: &[u8]) -> usize
    ensures within { result ≤ length text.now }
    ensures no_lead { list_all is_no_lead (take result text.now) ≡ true }
{
    let mut length = 0;
    'steps: while text.len() - length >= BLOCK {
        if !block_has_no_lead(text, length) {
            return length;
        }
        length += BLOCK;
    }
    length
}

/// A front of a text: its bytes, whether they end with an escape (after it the text is cut), and the escape that is open after them.
#[derive(Clone, Copy, Debug, PartialEq, Eq)]
pub struct Segment {
    pub length: usize,
    pub ends: bool,
    pub escape: Escape,
}

/// The front of a text up to the end of its first escape, or all of the text; `escape` is open before the text.
pub fn first_segment(letters: Letters, text: &[u8], escape: Escape) -> Segment
    ensures within { result.length ≤ length text.now }
    ensures some { 0 < length text.now → 0 < result.length }
    ensures whole { result.ends ≡ false → result.length ≡ length text.now }
    ensures read { IsRead result.ends letters escape result.escape (take result.length text.now) }
{
    if !begins_within(letters) {
        return Segment {
            length: text.len(),
            ends: false,
            escape,
        };
    }
    let mut here = escape;
    let mut length = 0;
    'bytes: while length < text.len() {
        let byte = text[length];
        let ends = here.ends_with(byte);
        here = here.after(byte);
        length += 1;
        if ends {
            return Segment {
                length,
                ends: true,
                escape: here,
            };
        }
        length += here.passes(&text[length..]);
    }
    Segment {
        length,
        ends: false,
        escape: here,
    }
}
