// The text of a symbol with its parts.

use sym_parts::{NameKind, Part};

/// The text of a symbol, what the symbol is, and the parts of the text.
#[derive(Drop)]
pub struct Parsed {
    pub text: Vec<u8>,
    pub kind: NameKind,
    /// The parts, in the order of their starts; any two parts are apart, or one is within the other.
    pub parts: Vec<Part>,
}
