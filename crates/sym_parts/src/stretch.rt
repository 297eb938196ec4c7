// A stretch of a text.

use crate::role::Role;
use crate::spelling::Ordinal;

/// A stretch of a text: which part of the text it is, and where it is.
#[derive(Clone, Copy, Debug, PartialEq, Eq)]
pub struct Stretch {
    pub role: Role,
    pub ordinal: Ordinal,
    /// How many bytes of the text are before it.
    pub start: u32,
    pub length: u32,
}
