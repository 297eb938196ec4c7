//! What demanglers know of the texts that they give: what a symbol is, how it is mangled, and the parts of its text.
#![tactic(auto)]

mod details;
mod manglings;

pub use details::{Detailed, Details};
pub use manglings::{Mangling, mangling_of};
