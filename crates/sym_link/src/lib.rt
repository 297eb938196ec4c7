//! From the rows of a shape to what the symbol means, for any language.
#![tactic(auto)]

pub mod counting;
pub mod driver;
pub mod language;
pub mod parts;
pub mod threads;
