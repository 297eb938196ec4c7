// Escapes: what is between dollars.
#![tactic(auto)]

ghost use Rattle.std.specs.Prelude.{◌≡◌, ◌≤◌, ◌<◌, ◌+◌, ◌++◌, length, take, drop, MatchOption, None, Some, true};
ghost use Rattle.std.specs.List.{prefix_len};
ghost use Rattle.std.specs.Option.{IfSome};
ghost use Rattle.sym_core.specs.Number.{is_digit_of};
ghost use Rattle.sym_core.specs.declared.NumberKind.TheVariants.{Hex};
ghost use Rattle.rust_legacy.specs.Tokens.{escape_of, is_shown, numbered, token_as};

use sym_core::value16;

/// The most digits of a character's number.
const MOST_DIGITS: usize = 6;

/// The character that an escape denotes, and how many bytes the escape has.
#[derive(Clone, Copy)]
pub struct Escape {
    pub code: char,
    pub size: usize,
}

/// Whether a byte is a hexadecimal digit, in lower case.
fn is_hex(byte: u8) -> bool
    ensures { result ≡ is_digit_of Hex byte }
{
    b'0' <= byte && byte <= b'9' || b'a' <= byte && byte <= b'f'
}

/// Whether a number is that of a character which isn't a control.
fn is_shown(code: u32) -> bool
    ensures { result ≡ is_shown code }
{
    0x20 <= code && code < 0x7f
        || 0xa0 <= code && code < 0xd800
        || 0xe000 <= code && code < 0x110000
}

/// The character with this number.
fn character(code: u32) -> char
    requires { is_shown code ≡ true }
    ensures { result ≡ code }
{
    match char::from_u32(code) {
        Some(character) => character,
        None => unreachable!(),
    }
}

/// How many of the first bytes are hexadecimal digits, in lower case.
pub fn digits_in(bytes: &[u8]) -> usize
    ensures count { result ≡ prefix_len (is_digit_of Hex) bytes.now }
    ensures within { result ≤ length bytes.now }
{
    let mut at = 0;
    while at < bytes.len() && is_hex(bytes[at]) {
        at += 1;
    }
    at
}

/// The escape `$u..$` at the front.
#[tactic(auto, using(crate::proofs::Digits::rest_whole))]
fn numbered(bytes: &[u8]) -> Option<Escape>
    requires { 2 ≤ length bytes.now }
    ensures is { MatchOption result (numbered bytes.now ≡ None) (λ e. numbered bytes.now ≡ Some (token_as e.code e.size)) }
    ensures within { IfSome result (λ e. (e.size ≤ length bytes.now) × (0 < e.size)) }
{
    let rest = &bytes[2..];
    let count = digits_in(rest);
    if count == 0 || count > MOST_DIGITS {
        return None;
    }
    if !bytes[2 + count..].starts_with(b"$") {
        return None;
    }
    let code = match value16(&rest[..count]) {
        Some(code) => code,
        None => return None,
    };
    if code > 0x10ffff {
        return None;
    }
    if !is_shown(code as u32) {
        return None;
    }
    Some(Escape {
        code: character(code as u32),
        size: 3 + count,
    })
}

/// A character that an escape of n bytes denotes.
fn one(code: char, size: usize) -> Option<Escape>
    ensures { result ≡ Some (record { code = code; size = size }) }
{
    Some(Escape { code, size })
}

/// The escape at the front.
pub fn escape_at(bytes: &[u8]) -> Option<Escape>
    ensures is { MatchOption result (escape_of bytes.now ≡ None) (λ e. escape_of bytes.now ≡ Some (token_as e.code e.size)) }
    ensures within { IfSome result (λ e. (e.size ≤ length bytes.now) × (0 < e.size)) }
{
    if bytes.starts_with(b"$SP$") {
        return one('@', 4);
    }
    if bytes.starts_with(b"$BP$") {
        return one('*', 4);
    }
    if bytes.starts_with(b"$RF$") {
        return one('&', 4);
    }
    if bytes.starts_with(b"$LT$") {
        return one('<', 4);
    }
    if bytes.starts_with(b"$GT$") {
        return one('>', 4);
    }
    if bytes.starts_with(b"$LP$") {
        return one('(', 4);
    }
    if bytes.starts_with(b"$RP$") {
        return one(')', 4);
    }
    if bytes.starts_with(b"$C$") {
        return one(',', 3);
    }
    if bytes.starts_with(b"$u") {
        return numbered(bytes);
    }
    None
}
