//! The calls of the static library as plain functions: a name's text, this text with its parts, the texts of many names, a filtered text, a
//! pressed spelling, and the work of reading a symbol. Each call answers an outcome, and writes into a buffer of the caller.
//!
//! `symdemangle` exports each of them to C.
#![tactic(auto)]

mod counted;
mod counting;
mod filtering;
pub mod flags;
pub mod outcome;
pub mod parts;
mod text;
mod texts;

pub use counting::{SymbolCounts, counts_of};
pub use filtering::{TextTally, filter_of};
pub use outcome::Outcome;
pub use parts::{NameFound, NamePart, parts_of};
pub use text::{press_of, text_of};
pub use texts::texts_of;
