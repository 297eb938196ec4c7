//! From the bytes of a symbol to its text, for any mangling.
#![tactic(auto)]

mod demangling;
mod laws;
mod linker;
mod mangling;
mod workspace;

pub use demangling::{demangle, demangle_as, read, read_fed};
pub use laws::{each_has_an_answer, each_refusal_has_a_reason, one_answer, read_answers};
pub use linker::Linker;
pub use mangling::Mangling;
pub use workspace::Workspace;
