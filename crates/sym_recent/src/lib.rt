//! A demangler that keeps the texts of recent symbols, and gives them again without demangling.
#![tactic(auto)]

mod marks;
mod recent;
mod table;

pub use recent::{Alike, Recent, RecentLists};
