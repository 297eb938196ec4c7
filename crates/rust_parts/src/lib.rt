//! The parts of Rust symbols' texts, by their trees and by what is printed, and what their names are.
#![tactic(auto)]

mod apart;
mod arguments;
mod kinds;
mod laws;
mod paths;
mod sorts;
mod walk;

pub use kinds::kind_of;
pub use laws::{marks_change_no_text, stretches_are_few, stretches_are_placed};
pub use sym_parts::{NameKind, Role, Stretch};
pub use walk::{stretches, stretches_as};
