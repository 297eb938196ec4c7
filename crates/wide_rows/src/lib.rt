//! Symbols that only the wide grammar reads: the checker computes their texts and costs. The crate has only laws.
#![tactic(auto)]

mod laws;

pub use laws::symbols_are_read;
