//! The Rust v0 mangling (RFC 2603): from the bytes of a symbol to its text.
#![tactic(auto)]

mod demangling;
mod grammar;
mod language;
mod mangling;
mod nodes;
mod operands;
pub mod part;
mod semantics;
pub mod tokens;

pub use demangling::{demangle, demangle_as, read, read_fed};
pub use grammar::V0;
pub use rust_tree::{
    Detail, Node, Symbol, equal_trees_have_equal_views, fields_make_the_tree, tree_production,
};
pub use sym_core::Counts;
pub use sym_demangle::{each_has_an_answer, each_refusal_has_a_reason, one_answer, read_answers};
pub use sym_shape::Reader;

/// Links a symbol.
pub type Linker = sym_demangle::Linker<V0>;

/// The lists that symbols are read and printed with, one after the other.
pub type Workspace = sym_demangle::Workspace<V0>;
