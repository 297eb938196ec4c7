//! The linker's counts for each production are those of its row. This crate has only laws.
#![tactic(auto)]

mod laws;

pub use laws::counts_are_rows;
