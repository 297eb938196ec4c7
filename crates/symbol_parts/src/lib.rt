//! What C++ and Rust symbols are, with the parts of their texts.
#![tactic(auto)]

mod behind;
mod languages;
mod laws;
mod legacy;
mod marked;
mod parsed;
mod parser;
mod reading;

pub use laws::{parts_are_placed, text_is_the_answer};
pub use marked::Marked;
pub use parsed::Parsed;
pub use parser::Parser;
pub use sym_parts::{NameKind, Part, Role};
