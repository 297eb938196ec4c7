//! The Rust v0 symbols (RFC 2603): their grammar as a table, what each shape denotes, and how that is shown.
#![tactic(auto)]

mod grammar;
pub mod kind;
pub mod production;
mod table;

pub use grammar::V0;
