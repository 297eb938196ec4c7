//! Legacy Rust names as symbols of C++: each name is such a symbol, and is read without a refusal.
#![tactic(auto)]

mod laws;

pub use laws::legacy_names_are_read;
