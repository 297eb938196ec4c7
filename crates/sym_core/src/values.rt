// Numbers: what they denote.
#![tactic(auto)]

ghost use Rattle.std.specs.Prelude.{◌≡◌, ◌<◌, ◌≤◌, ◌^◌, length, true, MatchOption, IfSome};
ghost use Rattle.sym_core.specs.Number.{is_digit_of, AreDigits, AreDigitsOf};
ghost use Rattle.sym_core.specs.Value.{radix_of, digit_value, value_of, counted_value};
ghost use Rattle.sym_core.specs.declared.values.TheConstants.{SHORT};

use crate::NumberKind;
use crate::numbers::{base62_digit, is_digit};

/// The base of a kind of number.
fn radix(kind: NumberKind) -> u64
    ensures { result ≡ radix_of kind }
{
    match kind {
        NumberKind::Length | NumberKind::Decimal | NumberKind::Digits => 10,
        NumberKind::Seq36 => 36,
        NumberKind::Base62 => 62,
        NumberKind::Hex => 16,
    }
}

/// The value of a digit.
fn digit(kind: NumberKind, byte: u8) -> u8
    requires { is_digit_of kind byte ≡ true }
    ensures value { result ≡ digit_value kind byte }
    ensures below { result < radix_of kind }
{
    match kind {
        NumberKind::Base62 => base62_digit(byte),
        _ if byte <= b'9' => byte - b'0',
        NumberKind::Seq36 => byte - b'A' + 10,
        NumberKind::Hex => byte - b'a' + 10,
        NumberKind::Length | NumberKind::Decimal | NumberKind::Digits => unreachable!(),
    }
}

/// The number that the digits denote, or None beyond 64 bits or where a byte isn't a digit.
#[cold]
fn long_value(kind: NumberKind, digits: &[u8]) -> Option<u64>
    ensures value { AreDigits kind digits.now → MatchOption result (2 ^ 64 ≤ value_of kind digits.now) (λ v. v ≡ value_of kind digits.now) }
    ensures digits { IfSome result (λ v. AreDigits kind digits.now) }
{
    let mut value: u64 = 0;
    for byte in digits {
        if !is_digit(kind, *byte) {
            return None;
        }
        let shifted = value.checked_mul(radix(kind))?;
        value = shifted.checked_add(u64::from(digit(kind, *byte)))?;
    }
    Some(value)
}

/// Ten digits of any kind denote a number that 64 bits hold.
const SHORT: usize = 10;

/// The number that a few digits denote, or None where a byte isn't a digit.
fn short_value(kind: NumberKind, digits: &[u8]) -> Option<u64>
    requires { length digits.now ≤ SHORT }
    ensures value { AreDigits kind digits.now → MatchOption result (2 ^ 64 ≤ value_of kind digits.now) (λ v. v ≡ value_of kind digits.now) }
    ensures digits { IfSome result (λ v. AreDigits kind digits.now) }
{
    let mut value: u64 = 0;
    for byte in digits {
        if !is_digit(kind, *byte) {
            return None;
        }
        value = value * radix(kind) + u64::from(digit(kind, *byte));
    }
    Some(value)
}

/// The number that the digits denote, or None beyond 64 bits or where a byte isn't a digit.
fn value(kind: NumberKind, digits: &[u8]) -> Option<u64>
    ensures value { AreDigits kind digits.now → MatchOption result (2 ^ 64 ≤ value_of kind digits.now) (λ v. v ≡ value_of kind digits.now) }
    ensures digits { IfSome result (λ v. AreDigits kind digits.now) }
{
    if digits.len() > SHORT {
        return long_value(kind, digits);
    }
    short_value(kind, digits)
}

/// One more than the digits denote, 0 where there are none, or None beyond 64 bits or where a byte isn't a digit.
fn counted(kind: NumberKind, digits: &[u8]) -> Option<u64>
    ensures value { AreDigits kind digits.now → MatchOption result (2 ^ 64 ≤ counted_value kind digits.now) (λ v. v ≡ counted_value kind digits.now) }
    ensures digits { IfSome result (λ v. AreDigits kind digits.now) }
{
    if digits.is_empty() {
        return Some(0);
    }
    value(kind, digits)?.checked_add(1)
}

/// The value of a byte as a digit of a Seq36 number. A byte that isn't a digit has some value, too.
fn digit36(byte: u8) -> u8
    ensures { result ≡ digit_value NumberKind.Seq36 byte }
{
    if b'0' <= byte && byte <= b'9' {
        byte - b'0'
    } else {
        byte.saturating_sub(b'A' - 10)
    }
}

/// The number that the digits denote in base 10, or None beyond 64 bits.
fn decimal_value(digits: &[u8]) -> Option<u64>
    ensures { MatchOption result (2 ^ 64 ≤ value_of NumberKind.Decimal digits.now) (λ v. v ≡ value_of NumberKind.Decimal digits.now) }
{
    let mut value: u64 = 0;
    for byte in digits {
        let shifted = value.checked_mul(10)?;
        value = shifted.checked_add(u64::from(byte.saturating_sub(b'0')))?;
    }
    Some(value)
}

/// The number that the digits denote in base 36, or None beyond 64 bits.
fn base36_value(digits: &[u8]) -> Option<u64>
    ensures { MatchOption result (2 ^ 64 ≤ value_of NumberKind.Seq36 digits.now) (λ v. v ≡ value_of NumberKind.Seq36 digits.now) }
{
    let mut value: u64 = 0;
    for byte in digits {
        let shifted = value.checked_mul(36)?;
        value = shifted.checked_add(u64::from(digit36(*byte)))?;
    }
    Some(value)
}

/// The value of a Decimal number by its digits: 0 where there are none, else one more than they denote. None past 64 bits. A byte that
/// isn't a digit has some value, too.
pub fn value10(digits: &[u8]) -> Option<u64>
    ensures { MatchOption result (2 ^ 64 ≤ counted_value NumberKind.Decimal digits.now) (λ v. v ≡ counted_value NumberKind.Decimal digits.now) }
{
    if digits.is_empty() {
        return Some(0);
    }
    decimal_value(digits)?.checked_add(1)
}

/// The value of a Seq36 number by its digits: 0 where there are none, else one more than they denote. None past 64 bits. A byte that isn't
/// a digit has some value, too.
pub fn value36(digits: &[u8]) -> Option<u64>
    ensures { MatchOption result (2 ^ 64 ≤ counted_value NumberKind.Seq36 digits.now) (λ v. v ≡ counted_value NumberKind.Seq36 digits.now) }
{
    if digits.is_empty() {
        return Some(0);
    }
    base36_value(digits)?.checked_add(1)
}

/// The value of a Base62 number by its digits, which are tested as they are counted: 0 where there are none, else one more than they
/// denote. None past 64 bits, and where a byte isn't a digit.
pub fn value62(digits: &[u8]) -> Option<u64>
    ensures value { AreDigits NumberKind.Base62 digits.now → MatchOption result (2 ^ 64 ≤ counted_value NumberKind.Base62 digits.now) (λ v. v ≡ counted_value NumberKind.Base62 digits.now) }
    ensures digits { IfSome result (λ v. AreDigits NumberKind.Base62 digits.now) }
{
    counted(NumberKind::Base62, digits)
}

/// The value of a Hex number by its digits, 0 where there are none. None past 128 bits.
pub fn value16(digits: &[u8]) -> Option<u128>
    requires { AreDigitsOf NumberKind.Hex digits.now }
    ensures { MatchOption result (2 ^ 128 ≤ value_of NumberKind.Hex digits.now) (λ v. v ≡ value_of NumberKind.Hex digits.now) }
{
    let mut value: u128 = 0;
    for byte in digits {
        let shifted = value.checked_mul(16)?;
        value = shifted.checked_add(u128::from(digit(NumberKind::Hex, *byte)))?;
    }
    Some(value)
}

/// The value of a Length by its digits; there are one to nine.
pub fn length_of(digits: &[u8]) -> u32
    requires count { (0 < length digits.now) × (length digits.now ≤ 9) }
    requires digits { AreDigits NumberKind.Length digits.now }
    ensures { result ≡ value_of NumberKind.Length digits.now }
{
    let mut value: u32 = 0;
    for byte in digits {
        value = value * 10 + u32::from(digit(NumberKind::Length, *byte));
    }
    value
}
