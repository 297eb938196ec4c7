// Tokens: names and numbers as they are in a symbol.
#![tactic(auto)]

ghost use Rattle.std.specs.Prelude.{◌≡◌, ◌≤◌, ◌+◌, ◌-◌, ◌↔◌, length, take, drop, true, IsTrue};
ghost use Rattle.sym_core.specs.Number.{FitsSymbol, ending_of, IsNumberSpan};
ghost use Rattle.sym_core.specs.Value.{value_of};
ghost use Rattle.sym_core.specs.Scan.{IsSeparated, IsOwn, IsNameless, ReachesNameBytes};
ghost use Rattle.sym_core.specs.Scan.{is_bare_digit as bare_digit};
ghost use Rattle.sym_core.specs.Token.{AreNameBytes, IsName, IsNumberToken, FindsToken};
ghost use Rattle.sym_core.specs.Token.{is_name_byte as name_byte};

use crate::numbers::{find_length, has_mark, number, reach};
use crate::{NameClass, NumberKind, Span};

/// Where a token was found: its own bytes, and the place after it.
#[derive(Clone, Copy, Debug, PartialEq, Eq)]
pub struct TokenPlace {
    /// The first byte of the name itself, or of the number's digits.
    pub from: usize,
    /// The place after the own bytes.
    pub to: usize,
    /// The place after the whole token: after a number's `_` too.
    pub end: usize,
}

/// The longest number at a place, or the place where it breaks off.
#[inline(always)]
pub fn find_number(bytes: &[u8], at: usize, kind: NumberKind) -> Result<TokenPlace, usize>
    requires fits { FitsSymbol bytes.now }
    requires within { at ≤ length bytes.now }
    ensures { FindsToken (IsNumberToken kind) bytes.now at result }
{
    match number(bytes, at, kind) {
        Ok(digits) => Ok(TokenPlace {
            from: digits.from as usize,
            to: digits.to as usize,
            end: behind_number(digits.to, kind),
        }),
        Err(bad) => Err(bad),
    }
}

/// The place after a number whose digits end at a place.
fn behind_number(to: u32, kind: NumberKind) -> usize
    ensures { result ≡ to + length (ending_of kind) }
{
    to as usize + has_mark(kind) as usize
}

// Which bytes may be in a Rust name: letters, digits and `_`.
static RUST_NAME_BYTES: [u8; 256] = *b"\
    00000000000000000000000000000000\
    00000000000000001111111111000000\
    01111111111111111111111111100001\
    01111111111111111111111111100000\
    00000000000000000000000000000000\
    00000000000000000000000000000000\
    00000000000000000000000000000000\
    00000000000000000000000000000000";

/// Whether the byte may be in a name.
fn is_name_byte(names: NameClass, byte: u8) -> bool
    ensures { result ≡ name_byte names byte }
{
    match names {
        NameClass::Cpp => 33 <= byte && byte != 127,
        NameClass::Rust => RUST_NAME_BYTES[byte as usize] == b'1',
    }
}

/// Whether each byte may be in a name.
pub fn are_name_bytes(names: NameClass, bytes: &[u8]) -> bool
    ensures only { result ≡ true → AreNameBytes names bytes.now }
    ensures all { AreNameBytes names bytes.now → result ≡ true }
{
    bytes.iter().all(|byte| is_name_byte(names, *byte))
}

/// Whether no name may have this length.
fn is_nameless(most: usize, names: NameClass) -> bool
    ensures { IsTrue result ↔ IsNameless names most }
{
    match names {
        NameClass::Cpp => most == 0,
        NameClass::Rust => false,
    }
}

/// How many bytes of a separator precede a name's own bytes.
fn separator_len(tail: &[u8], names: NameClass) -> usize
    ensures within { result ≤ length tail.now }
    ensures separated { IsSeparated names tail.now result }
{
    match names {
        NameClass::Cpp => 0,
        NameClass::Rust => {
            if !tail.is_empty() && tail[0] == b'_' {
                1
            } else {
                0
            }
        }
    }
}

/// How many of the first n bytes may be in a name, counted four at a time as long as all four may.
fn own_fours(bytes: &[u8], most: usize, names: NameClass) -> usize
    ensures within { result ≤ length bytes.now }
    ensures few { result ≤ most }
    ensures each { ReachesNameBytes names bytes.now result }
{
    let stop = reach(bytes, 0, most);
    let mut end = 0;
    while stop - end >= 4
        && is_name_byte(names, bytes[end])
        && is_name_byte(names, bytes[end + 1])
        && is_name_byte(names, bytes[end + 2])
        && is_name_byte(names, bytes[end + 3])
    {
        end += 4;
    }
    end
}

/// How many of the bytes are a name's own, at most n.
fn own_len(bytes: &[u8], most: usize, names: NameClass) -> usize
    ensures within { result ≤ length bytes.now }
    ensures own { IsOwn names bytes.now most result }
{
    let mut end = own_fours(bytes, most, names);
    while end < bytes.len() && end < most && is_name_byte(names, bytes[end]) {
        end += 1;
    }
    end
}

/// Whether a name of this length would begin with a digit straight after its length.
fn is_bare_digit(own: &[u8], most: usize, skipped: usize) -> bool
    ensures { result ≡ bare_digit most skipped own.now }
{
    match own {
        [] => false,
        [first, ..] => most > 0 && skipped == 0 && b'0' <= *first && *first <= b'9',
    }
}

/// The longest name at a place, or the place where it breaks off.
#[inline(always)]
pub fn find_name(bytes: &[u8], at: usize, names: NameClass) -> Result<TokenPlace, usize>
    requires fits { FitsSymbol bytes.now }
    requires within { at ≤ length bytes.now }
    ensures { FindsToken (IsName names) bytes.now at result }
{
    match find_length(bytes, at) {
        Ok(length) => {
            let digits = Span {
                from: at as u32,
                to: length.to as u32,
            };
            find_own(bytes, digits, length.value as usize, names)
        }
        Err(bad) => Err(bad),
    }
}

/// Finds a name's own bytes after its length, which says how many they are.
fn find_own(bytes: &[u8], digits: Span, most: usize, names: NameClass) -> Result<TokenPlace, usize>
    requires fits { FitsSymbol bytes.now }
    requires span { IsNumberSpan NumberKind.Length bytes.now digits.from digits }
    requires within { digits.to ≤ length bytes.now }
    requires most { most ≡ value_of NumberKind.Length (take (digits.to - digits.from) (drop digits.from bytes.now)) }
    ensures { FindsToken (IsName names) bytes.now digits.from result }
{
    let to = digits.to as usize;
    if is_nameless(most, names) {
        return Err(digits.from as usize);
    }
    let tail = &bytes[to..];
    let skipped = separator_len(tail, names);
    let own = &tail[skipped..];
    let from = to + skipped;
    if is_bare_digit(own, most, skipped) {
        return Err(from);
    }
    let count = own_len(own, most, names);
    if count < most {
        return Err(from + count);
    }
    Ok(TokenPlace {
        from,
        to: from + count,
        end: from + count,
    })
}
