//! The parts of C++ symbols' texts: which stretches of a text are its scope, its base, its arguments, its parameters and so on.
#![tactic(auto)]

mod encodings;
mod kinds;
mod laws;
mod lengths;
mod lists;
mod names;
mod numbering;
mod plain;
mod sorts;
mod split;
mod task;
mod walk;

pub use kinds::kind_of;
pub use laws::{marks_change_no_text, stretches_are_few, stretches_are_placed};
pub use sym_parts::{NameKind, Role, Stretch};
pub use walk::{stretches, stretches_as};
