//! C++'s mangling (Itanium C++ ABI, chapter 5.1): from the bytes of a symbol to its text.
#![tactic(auto)]

mod demangling;
mod grammar;
mod mangling;
mod short_way;
mod wide;
mod wide_symbol;
mod writer;

pub use cpp_layout::{
    Adjustment, Detail, Node, Signed, Symbol, Thunk, equal_trees_have_equal_views,
    fields_make_the_tree, tree_production,
};
pub use demangling::{demangle, demangle_as, read, read_fed};
pub use grammar::{Abi, Wide};
pub use short_way::write_less;
pub use sym_core::Counts;
pub use sym_demangle::{each_has_an_answer, each_refusal_has_a_reason, one_answer, read_answers};
pub use sym_shape::Reader;
pub use wide_symbol::WideSymbol;
pub use writer::Writer;

/// Links a symbol.
pub type Linker = sym_demangle::Linker<Abi>;

/// The lists with which symbols are read and printed, one symbol after the other.
pub type Workspace = sym_demangle::Workspace<Abi>;
