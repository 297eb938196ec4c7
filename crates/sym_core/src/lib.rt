//! The vocabulary that every layer shares: places in a symbol, refusals, numbers and names.
#![tactic(auto)]

ghost use Rattle.std.specs.Prelude.{◌↔◌, IsTrue};
ghost use Rattle.sym_core.specs.Number.{FitsSymbol};

pub mod counts;
mod names;
mod numbers;
pub mod refusal;
mod tokens;
mod values;

pub use counts::Counts;
pub use names::{push_decimal, push_name};
pub use numbers::{are_digits, number};
pub use refusal::Refusal;
pub use tokens::{TokenPlace, are_name_bytes, find_name, find_number};
pub use values::{length_of, value10, value16, value36, value62};

/// The longest symbol, in bytes.
pub const MOST_BYTES: usize = 16_777_216;

/// A stretch of bytes, from `from` up to, but not including, `to`; both are counted from the symbol's first byte.
#[derive(Clone, Copy, Debug, PartialEq, Eq)]
pub struct Span {
    pub from: u32,
    pub to: u32,
}

/// How a number is spelled.
#[derive(Clone, Copy, Debug, PartialEq, Eq)]
pub enum NumberKind {
    /// One to nine decimal digits without a leading zero, or a 0 alone: the length of a name.
    Length,
    /// Decimal digits, maybe none, and an `_`.
    Decimal,
    /// Digits and upper-case letters, maybe none, and an `_` (Itanium C++ ABI 5.1, `<seq-id>`).
    Seq36,
    /// At most eleven digits and letters, and an `_` (RFC 2603, `<base-62-number>`).
    Base62,
    /// Digits and the letters `a` to `f`, maybe none, and an `_` (RFC 2603, constants).
    Hex,
    /// One or more decimal digits.
    Digits,
}

/// How names are spelled after their length.
#[derive(Clone, Copy, Debug, PartialEq, Eq)]
pub enum NameClass {
    /// At least one byte, none of them blank or a control; the first is no digit (Itanium C++ ABI 5.1, `<source-name>`).
    Cpp,
    /// Letters, digits and `_`, maybe none, after an optional `_` that isn't counted (RFC 2603, `<undisambiguated-identifier>`).
    Rust,
}

/// Whether the bytes are few enough to be read as a symbol.
pub fn fits(s: &[u8]) -> bool
    ensures { IsTrue result ↔ FitsSymbol s.now }
{
    s.len() <= MOST_BYTES
}
