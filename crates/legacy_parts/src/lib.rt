//! The parts of legacy Rust names' texts, by the names of their paths, and what the names are.
#![tactic(auto)]

mod kinds;
mod laws;
mod listing;
mod names;
mod parsing;
mod spelled;

pub use laws::{marks_change_no_text, spelling_is_within, stretches_are_few, stretches_are_placed};
pub use parsing::{LegacyName, parse};
pub use sym_parts::{NameKind, Part, Role};
