//! Which bytes of a Rust v0 symbol spell which part of its text, by the rows of its shape (RFC 2603).
#![tactic(auto)]

mod arguments;
mod laws;
mod lists;
mod parts;
mod paths;
mod root;
mod rows;
mod symbol;

pub use laws::spelling_is_within;
pub use sym_parts::Spelling;
pub use symbol::spelling;
