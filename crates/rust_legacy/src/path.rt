// Which symbols are legacy names, and where their names are.
#![tactic(auto)]

ghost use Rattle.std.specs.Prelude.{◌≡◌, ◌≢◌, ◌≤◌, ◌<◌, ◌+◌, ◌-◌, ◌*◌, ◌^◌, ◌⊎◌, ◌==◌, ◌&&◌, not, nat_lt, [], ◌∷◌, codes, length, take, drop, Some, None, true, false, MatchOption};
ghost use Rattle.std.specs.List.{list_all, prefix_len};
ghost use Rattle.std.specs.Option.{IfSome};
ghost use Rattle.sym_core.specs.Number.{is_decimal_digit};
ghost use Rattle.sym_core.specs.Value.{value_of};
ghost use Rattle.rust_legacy.specs.Path.{AreRead, HasLength, IsPlaced, begins_with, is_end, is_hash, is_legacy_byte, is_suffix, legacy_of, name_in};

use crate::escapes::digits_in;
use sym_core::NumberKind;

/// Where a name is in a symbol: its bytes, after its length.
#[derive(Clone, Copy)]
pub struct NamePlace {
    pub from: usize,
    pub to: usize,
}

/// Where the path of a legacy name is in its symbol. Its names extend from the fourth byte to
/// `hash`, where the length of its hash begins; its suffix begins at `end`, after its `E`. Both are
/// counts of bytes.
#[derive(Clone, Copy)]
pub struct PathPlace {
    pub hash: usize,
    pub end: usize,
}

// For each byte, whether it may be in a legacy name: letters, digits, `_`, `.` and `$`.
static LEGACY_BYTES: [bool; 256] = [
    false, false, false, false, false, false, false, false, false, false, false, false, false,
    false, false, false, false, false, false, false, false, false, false, false, false, false,
    false, false, false, false, false, false, false, false, false, false, true, false, false,
    false, false, false, false, false, false, false, true, false, true, true, true, true, true,
    true, true, true, true, true, false, false, false, false, false, false, false, true, true,
    true, true, true, true, true, true, true, true, true, true, true, true, true, true, true, true,
    true, true, true, true, true, true, true, true, false, false, false, false, true, false, true,
    true, true, true, true, true, true, true, true, true, true, true, true, true, true, true, true,
    true, true, true, true, true, true, true, true, true, false, false, false, false, false, false,
    false, false, false, false, false, false, false, false, false, false, false, false, false,
    false, false, false, false, false, false, false, false, false, false, false, false, false,
    false, false, false, false, false, false, false, false, false, false, false, false, false,
    false, false, false, false, false, false, false, false, false, false, false, false, false,
    false, false, false, false, false, false, false, false, false, false, false, false, false,
    false, false, false, false, false, false, false, false, false, false, false, false, false,
    false, false, false, false, false, false, false, false, false, false, false, false, false,
    false, false, false, false, false, false, false, false, false, false, false, false, false,
    false, false, false, false, false, false, false, false, false, false, false, false, false,
    false, false, false, false, false, false, false, false, false, false,
];

/// Whether a byte may be in a legacy name.
#[inline(always)]
fn is_legacy_byte(byte: u8) -> bool
    ensures { result ≡ is_legacy_byte byte }
{
    LEGACY_BYTES[byte as usize]
}

/// Whether each byte may be in a legacy name, and how many turns the test took. All bytes are examined, without a branch for each.
fn are_legacy_bytes(bytes: &[u8]) -> (bool, usize)
    ensures are { result.0 ≡ list_all is_legacy_byte bytes.now }
    ensures turns { result.1 ≤ length bytes.now }
{
    let mut are = true;
    let mut at = 0;
    while at < bytes.len() {
        are = are & is_legacy_byte(bytes[at]);
        at += 1;
    }
    (are, at)
}

/// Whether a byte is a decimal digit.
fn is_digit(byte: u8) -> bool
    ensures { result ≡ is_decimal_digit byte }
{
    b'0' <= byte && byte <= b'9'
}

/// Whether a byte is at a place.
#[inline(always)]
fn has_byte(s: &[u8], at: usize, byte: u8) -> bool
    ensures { result ≡ begins_with (byte ∷ []) (drop at s.now) }
{
    at < s.len() && s[at] == byte
}

/// Whether a decimal digit is at a place.
#[inline(always)]
fn has_digit(s: &[u8], at: usize) -> bool
    requires { at ≤ length s.now }
    ensures { result ≡ nat_lt 0 (prefix_len is_decimal_digit (drop at s.now)) }
{
    at < s.len() && is_digit(s[at])
}

/// The most digits of a length.
const MOST_DIGITS: usize = 9;

/// Where the digits of a length end, and what they denote.
#[derive(Clone, Copy)]
struct Length {
    to: usize,
    value: usize,
}

/// The first digits at a place, at most `most` of them: nine, or as many bytes as there are. Each turn of its loop reads one.
#[inline(always)]
fn length_at(s: &[u8], at: usize, most: usize) -> Length
    requires within { at + most ≤ length s.now }
    requires nine { (most ≡ 9) ⊎ ((most < 9) × (at + most ≡ length s.now)) }
    ensures low { at ≤ result.to }
    ensures high { result.to ≤ length s.now }
    ensures few { result.to - at ≤ 9 }
    ensures digits { result.to - at + prefix_len is_decimal_digit (drop result.to s.now) ≡ prefix_len is_decimal_digit (drop at s.now) }
    ensures all { result.to - at < 9 → prefix_len is_decimal_digit (drop result.to s.now) ≡ 0 }
    ensures value { result.value ≡ value_of NumberKind.Length (take (result.to - at) (drop at s.now)) }
    ensures below { result.value < 10 ^ 9 }
    ensures some { begins_with (codes "0") (drop at s.now) ≡ false → at < result.to → 0 < result.value }
{
    let mut to = at;
    let mut value: usize = 0;
    while to - at < most && is_digit(s[to]) {
        value = value * 10 + (s[to] - b'0') as usize;
        to += 1;
    }
    Length { to, value }
}

/// Whether a length begins with this digit.
#[inline(always)]
fn begins_length(byte: u8) -> bool
    ensures { result ≡ (is_decimal_digit byte && not (byte == 48)) }
{
    b'1' <= byte && byte <= b'9'
}

/// The length at a place, whether the whole name follows it or not. At most `most` digits are examined.
#[inline(always)]
fn name_length(s: &[u8], at: usize, most: usize) -> Option<Length>
    requires within { at + most ≤ length s.now }
    requires nine { (most ≡ 9) ⊎ ((most < 9) × (at + most ≡ length s.now)) }
    ensures name { MatchOption result (name_in (drop at s.now) ≡ None) (λ found. HasLength s.now at found.to found.value) }
    ensures below { IfSome result (λ found. found.value < 10 ^ 9) }
{
    if most == 0 {
        return None;
    }
    if !begins_length(s[at]) {
        return None;
    }
    let length = length_at(s, at, most);
    if length.to - at == MOST_DIGITS && has_digit(s, length.to) {
        return None;
    }
    Some(length)
}

/// The name whose length is at a place.
#[inline(always)]
pub fn name_at(s: &[u8], at: usize) -> Option<NamePlace>
    requires { at ≤ length s.now }
    ensures name { MatchOption result (name_in (drop at s.now) ≡ None)
        (λ place. name_in (drop at s.now) ≡ Some (record { bytes = take (place.to - place.from) (drop place.from s.now); size = place.to - at })) }
    ensures within { IfSome result (λ place. (at < place.from) × (place.from < place.to) × (place.to ≤ length s.now)) }
{
    let Some(length) = name_length(s, at, MOST_DIGITS.min(s.len() - at)) else {
        return None;
    };
    if length.value > s.len() - length.to {
        return None;
    }
    Some(NamePlace {
        from: length.to,
        to: length.to + length.value,
    })
}

/// The bytes of a hash.
const HASH: usize = 17;

/// Whether a name is a hash, an `h` and sixteen hexadecimal digits in lower case, and how many turns the test took.
#[tactic(auto, using(crate::proofs::Digits::rest_whole))]
#[inline(always)]
fn is_hash(name: &[u8]) -> (bool, usize)
    ensures is { result.0 ≡ is_hash name.now }
    ensures turns { result.1 ≤ length name.now }
{
    if !has_byte(name, 0, b'h') {
        return (false, 0);
    }
    if name.len() != HASH {
        return (false, 0);
    }
    let digits = digits_in(&name[1..]);
    (digits == 16, digits)
}

/// Whether bytes are a suffix, or there are none.
#[inline(always)]
fn is_suffix(suffix: &[u8]) -> bool
    ensures { result ≡ is_suffix suffix.now }
{
    suffix.is_empty() || suffix[0] == b'.' && suffix.len() > 1
}

/// Where a path is, given where its last name begins and where its names end: an `E` has to be
/// there, with a suffix or nothing after it.
#[tactic(auto, using(crate::proofs::Digits::rest_whole))]
#[inline(always)]
fn ended(s: &[u8], hash: usize, at: usize) -> Option<PathPlace>
    ensures { MatchOption result (is_end (drop at s.now) ≡ true → hash ≡ 3) (λ place. (place ≡ record { hash = hash; end = at + 1 }) × (hash ≢ 3) × (is_end (drop at s.now) ≡ true)) }
{
    if !has_byte(s, at, b'E') {
        return None;
    }
    if !is_suffix(&s[at + 1..]) {
        return None;
    }
    if hash == 3 {
        return None;
    }
    Some(PathPlace { hash, end: at + 1 })
}

/// Where the names of a symbol are, by their lengths only, if the symbol may be a legacy name, and how many turns this took:
/// one for each name, and one for each digit of its length. A symbol that is no legacy name costs no more than this.
// It takes 53 instructions for a C++ symbol, on average over 20,000. Fixed places from the end
// can't be tested instead, since a suffix is of any length and ends in any byte. The turns are
// counted so that a clause can bound them; once the call is inlined, a count that nobody reads
// takes no instruction.
#[inline(always)]
pub fn names_of(symbol: &[u8]) -> (Option<PathPlace>, usize)
    ensures place { MatchOption result.0 (legacy_of symbol.now ≡ None) (AreRead symbol.now) }
    ensures turns { result.1 ≤ length symbol.now }
{
    let mut turns = 0;
    if symbol.len() <= 3 + HASH {
        return (None, turns);
    }
    if symbol[2] != b'N' {
        return (None, turns);
    }
    let mut hash = 3;
    let mut at = 3;
    'names: while at + HASH < symbol.len() {
        let Some(length) = name_length(symbol, at, MOST_DIGITS) else {
            return (ended(symbol, hash, at), turns);
        };
        turns += 1 + (length.to - at);
        hash = at;
        at = length.to + length.value;
    }
    (ended(symbol, hash, at), turns)
}

/// Whether names that were found by their lengths are those of a legacy name, and how many turns the test took.
#[inline(always)]
pub fn is_path(symbol: &[u8], place: PathPlace) -> (bool, usize)
    requires { AreRead symbol.now place }
    ensures yes { result.0 ≡ true → IsPlaced symbol.now place }
    ensures no { result.0 ≡ false → legacy_of symbol.now ≡ None }
    ensures turns { result.1 ≤ 2 * length symbol.now }
{
    if !symbol.starts_with(b"_ZN") {
        return (false, 0);
    }
    let Some(name) = name_at(symbol, place.hash) else {
        unreachable!();
    };
    let (is_hash, hash_turns) = is_hash(&symbol[name.from..name.to]);
    if !is_hash {
        return (false, name.from - place.hash + hash_turns);
    }
    let (are, byte_turns) = are_legacy_bytes(symbol);
    (are, name.from - place.hash + hash_turns + byte_turns)
}

/// Where the path of a symbol is, if it is a legacy name: `_ZN`, one or more names, a hash, `E` and a suffix or nothing, where each
/// byte is a letter, a digit, `_`, `.` or `$`. Its loops take at most three turns for each byte: those of `names_of` one, and those of
/// `is_path` two.
pub fn path_of(symbol: &[u8]) -> Option<PathPlace>
    ensures { MatchOption result (legacy_of symbol.now ≡ None) (IsPlaced symbol.now) }
{
    let Some(place) = names_of(symbol).0 else {
        return None;
    };
    if !is_path(symbol, place).0 {
        return None;
    }
    Some(place)
}
