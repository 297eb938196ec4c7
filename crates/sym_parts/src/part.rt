// A part of a text.

use crate::role::Role;

/// A part of a text: its role, the stretch of the text's bytes that it is, and the bytes of the symbol that spell it.
#[derive(Clone, Copy, Debug, PartialEq, Eq)]
pub struct Part {
    pub role: Role,
    /// How many bytes of the text are before the part.
    pub start: u32,
    pub length: u32,
    /// How many bytes of the symbol are before the bytes that spell the part.
    pub from: u32,
    /// How many bytes of the symbol are before the end of the bytes that spell the part.
    pub to: u32,
}
