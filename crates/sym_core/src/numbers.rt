// Numbers: where they begin and end.
#![tactic(auto)]

ghost use Rattle.std.specs.Prelude.{◌≡◌, ◌-◌, ◌+◌, ◌<◌, ◌≤◌, length, take, drop, ◌⊎◌, slice_range, true, nat_lt, IfOk, MatchResult, List, ℕ, ◌∷◌};
ghost use Rattle.std.specs.Bool.{OnTrue, OnFalse};
ghost use Rattle.sym_core.specs.Number.{FitsSymbol, is_digit_of, AreDigits, AreDigitsOf, IsNumberSpan, IsNumberBreak};
ghost use Rattle.sym_core.specs.Value.{digit_value, value_of};
ghost use Rattle.sym_core.specs.declared.NumberKind.TheVariants.{Base62};
ghost use Rattle.sym_core.specs.Scan.{is_marked, IsRun, IsLimit};

use crate::{NumberKind, Span};

// The value of each byte as a digit in base 62: 0 to 9, then the lower-case letters, then the upper-case ones; 62 where the byte isn't a
// digit.
static BASE62_DIGITS: [u8; 256] = [
    62, 62, 62, 62, 62, 62, 62, 62, 62, 62, 62, 62, 62, 62, 62, 62, 62, 62, 62, 62, 62, 62, 62, 62,
    62, 62, 62, 62, 62, 62, 62, 62, 62, 62, 62, 62, 62, 62, 62, 62, 62, 62, 62, 62, 62, 62, 62, 62,
    0, 1, 2, 3, 4, 5, 6, 7, 8, 9, 62, 62, 62, 62, 62, 62, 62, 36, 37, 38, 39, 40, 41, 42, 43, 44,
    45, 46, 47, 48, 49, 50, 51, 52, 53, 54, 55, 56, 57, 58, 59, 60, 61, 62, 62, 62, 62, 62, 62, 10,
    11, 12, 13, 14, 15, 16, 17, 18, 19, 20, 21, 22, 23, 24, 25, 26, 27, 28, 29, 30, 31, 32, 33, 34,
    35, 62, 62, 62, 62, 62, 62, 62, 62, 62, 62, 62, 62, 62, 62, 62, 62, 62, 62, 62, 62, 62, 62, 62,
    62, 62, 62, 62, 62, 62, 62, 62, 62, 62, 62, 62, 62, 62, 62, 62, 62, 62, 62, 62, 62, 62, 62, 62,
    62, 62, 62, 62, 62, 62, 62, 62, 62, 62, 62, 62, 62, 62, 62, 62, 62, 62, 62, 62, 62, 62, 62, 62,
    62, 62, 62, 62, 62, 62, 62, 62, 62, 62, 62, 62, 62, 62, 62, 62, 62, 62, 62, 62, 62, 62, 62, 62,
    62, 62, 62, 62, 62, 62, 62, 62, 62, 62, 62, 62, 62, 62, 62, 62, 62, 62, 62, 62, 62, 62, 62, 62,
    62, 62, 62, 62, 62, 62, 62, 62, 62, 62, 62, 62, 62, 62,
];

/// The value of a byte as a digit in base 62, or 62 if the byte isn't a digit.
pub fn base62_digit(byte: u8) -> u8
    ensures digit { nat_lt result 62 ≡ is_digit_of Base62 byte }
    ensures value { is_digit_of Base62 byte ≡ true → result ≡ digit_value Base62 byte }
    ensures below { is_digit_of Base62 byte ≡ true → result < 62 }
{
    BASE62_DIGITS[byte as usize]
}

/// Whether the byte is a digit of the kind.
pub fn is_digit(kind: NumberKind, byte: u8) -> bool
    ensures { result ≡ is_digit_of kind byte }
{
    let decimal = b'0' <= byte && byte <= b'9';
    let upper = b'A' <= byte && byte <= b'Z';
    match kind {
        NumberKind::Length | NumberKind::Decimal | NumberKind::Digits => decimal,
        NumberKind::Seq36 => decimal || upper,
        NumberKind::Base62 => base62_digit(byte) < 62,
        NumberKind::Hex => decimal || (b'a' <= byte && byte <= b'f'),
    }
}

/// Whether each byte is a digit of the kind.
pub fn are_digits(kind: NumberKind, digits: &[u8]) -> bool
    ensures only { result ≡ true → AreDigits kind digits.now }
    ensures all { AreDigits kind digits.now → result ≡ true }
{
    digits.iter().all(|byte| is_digit(kind, *byte))
}

/// Whether numbers of the kind end in an `_`.
pub fn has_mark(kind: NumberKind) -> bool
    ensures { result ≡ is_marked kind }
{
    !matches!(kind, NumberKind::Length | NumberKind::Digits)
}

/// The most digits that a number of the kind may have; for kinds without a limit, more than there
/// are bytes.
fn most_digits(s: &[u8], at: usize, kind: NumberKind) -> usize
    requires fits { FitsSymbol s.now }
    requires within { at ≤ length s.now }
    ensures { IsLimit kind (drop at s.now) result }
{
    match kind {
        NumberKind::Length => { if at < s.len() && s[at] == b'0' { 1 } else { 9 } }
        NumberKind::Base62 => 11,
        NumberKind::Decimal | NumberKind::Seq36 | NumberKind::Hex | NumberKind::Digits => s.len()
            + 1,
    }
}

/// The place n bytes after a given one, or the end of the bytes if fewer follow.
pub fn reach(s: &[u8], at: usize, most: usize) -> usize
    requires { at ≤ length s.now }
    ensures low { at ≤ result }
    ensures high { result ≤ length s.now }
    ensures few { result - at ≤ most }
    ensures full { (result - at ≡ most) ⊎ (length s.now ≤ result) }
{
    at + most.min(s.len() - at)
}

/// The end of the digits at a place, at most n of them.
fn digits_end(s: &[u8], at: usize, kind: NumberKind, most: usize) -> usize
    requires { at ≤ length s.now }
    ensures low { at ≤ result }
    ensures high { result ≤ length s.now }
    ensures run { IsRun kind (drop at s.now) most (result - at) }
{
    let stop = reach(s, at, most);
    let mut end = at;
    while end < stop && is_digit(kind, s[end]) {
        end += 1;
    }
    end
}

/// Digits of a Length: the place after them, and what they denote.
#[derive(Clone, Copy)]
pub struct CountedLength {
    pub to: usize,
    pub value: u32,
}

/// The digits of a Length at a place, at most n of them, counted as they are found.
fn count_length(s: &[u8], at: usize, most: usize) -> CountedLength
    requires within { at ≤ length s.now }
    requires few { most ≤ 9 }
    ensures low { at ≤ result.to }
    ensures high { result.to ≤ length s.now }
    ensures run { IsRun NumberKind.Length (drop at s.now) most (result.to - at) }
    ensures value { result.value ≡ value_of NumberKind.Length (take (result.to - at) (drop at s.now)) }
{
    let stop = reach(s, at, most);
    let mut to = at;
    let mut value: u32 = 0;
    while to < stop && is_digit(NumberKind::Length, s[to]) {
        value = value * 10 + u32::from(s[to] - b'0');
        to += 1;
    }
    CountedLength { to, value }
}

/// The longest Length at a place, with what it denotes, or the place where it breaks off.
pub fn find_length(s: &[u8], at: usize) -> Result<CountedLength, usize>
    requires fits { FitsSymbol s.now }
    requires within { at ≤ length s.now }
    ensures number { MatchResult result (λ found. IsNumberSpan NumberKind.Length s.now at (record { from = at; to = found.to })) (IsNumberBreak NumberKind.Length s.now at) }
    ensures value { IfOk result (λ found. found.value ≡ value_of NumberKind.Length (take (found.to - at) (drop at s.now))) }
    ensures within { IfOk result (λ found. found.to ≤ length s.now) }
{
    let most = most_digits(s, at, NumberKind::Length);
    let found = count_length(s, at, most);
    if at < found.to {
        Ok(found)
    } else {
        Err(found.to)
    }
}

/// Whether an `_` is at a place.
fn is_mark(s: &[u8], at: usize) -> bool
    requires { at ≤ length s.now }
    ensures yes { OnTrue result (drop at s.now ≡ 95 ∷ drop (at + 1) s.now) }
    ensures no { OnFalse result ((r : List ℕ) → drop at s.now ≡ 95 ∷ r → ⊥) }
{
    if at == s.len() {
        return false;
    }
    s[at] == b'_'
}

/// The span of the digits of the longest number that begins at `at`, without its ending `_`.
///
/// # Errors
///
/// Where no number begins at `at`, the first bad place: the end of the longest front from there that begins a number. It is `s.len()` where
/// the bytes only end too soon.
#[inline(always)]
pub fn number(s: &[u8], at: usize, kind: NumberKind) -> Result<Span, usize>
    requires fits { FitsSymbol s.now }
    requires within { at ≤ length s.now }
    ensures number { MatchResult result (IsNumberSpan kind s.now at) (IsNumberBreak kind s.now at) }
    ensures digits { IfOk result (λ span. AreDigitsOf kind (slice_range s.now span.from span.to)) }
    ensures within { MatchResult result (λ span. span.to ≤ length s.now) (λ bad. bad ≤ length s.now) }
{
    let most = most_digits(s, at, kind);
    let end = digits_end(s, at, kind, most);
    let digits = Span {
        from: at as u32,
        to: end as u32,
    };
    if has_mark(kind) {
        if is_mark(s, end) {
            Ok(digits)
        } else {
            Err(end)
        }
    } else if at < end {
        Ok(digits)
    } else {
        Err(end)
    }
}
