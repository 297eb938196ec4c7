// What a row says of a symbol.

use sym_filter::Kind;
use sym_print::Detail;

/// The limit where a row has none.
pub const LIMIT: u32 = 1_000_000;

/// The reason why a symbol that is read has no text.
pub const TOO_LONG: &[u8] = b"too long";

/// A symbol, how it is shown, and the answer that it has to get.
#[derive(Clone, Copy)]
pub struct Row<'a> {
    pub kind: Kind,
    pub s: &'a [u8],
    pub limit: u32,
    pub detail: Detail,
    /// Whether C++ is read by the wide grammar.
    pub wide: bool,
    /// Whether legacy Rust names are shown as paths.
    pub legacy: bool,
    pub wanted: &'a [u8],
}

impl<'a> Row<'a> {
    /// A row of the same symbol at another limit, with the answer that the symbol has to have at
    /// that limit.
    pub fn with(self, limit: u32, wanted: &'a [u8]) -> Row<'a> {
        Row {
            limit,
            wanted,
            ..self
        }
    }
}
