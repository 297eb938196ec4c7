//! The C++ symbols of the Itanium ABI 5.1: their grammar as a table, what each shape denotes, and how that is shown.
#![tactic(auto)]

mod abi;
mod kind;
mod laws;
pub mod operand;
pub mod production;
mod table;
mod wide;
mod wide_table;

pub use abi::Abi;
pub use laws::{
    abi_answers_stay, abi_meanings_stay, abi_trees_stay, earlier_trees_stay, no_first_packs_in_abi,
    no_tags_in_abi, parts_are_few_and_smaller, refuses_bad_tokens, scopes_are_closed,
};
pub use wide::Wide;
