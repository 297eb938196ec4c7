// What reading a symbol of a mangling took.
ghost use Rattle.std.specs.Prelude.{◌≡◌, ◌+◌, ◌*◌, ◌≤◌, ℕ, length};

use itanium::{Abi, Wide, WideSymbol};
use rust_v0::V0;
use sym_core::Counts;
use sym_demangle::Mangling;

/// A mangling whose symbols are counted as they are read.
pub trait Counted: Mangling {
    // what holds of each symbol that was read
    ghost is_read: { Self.Symbol → Type 0 };

    // the most nodes for each byte
    ghost nodes_a_byte: { ℕ };

    /// The rows, nodes and steps that reading a symbol took.
    fn counts(symbol: &Self::Symbol) -> Counts
        ensures is_read { is_read symbol.now }
        ensures rows { result.rows ≡ Self.rows_of symbol.now }
        ensures nodes { result.nodes ≡ Self.nodes_of symbol.now }
        ensures steps { result.steps ≡ Self.steps_of symbol.now }
        ensures nodes_few { result.nodes ≤ nodes_a_byte * length (Self.bytes_of symbol.now) + 8 }
        ensures steps_few { result.steps ≤ 32 * length (Self.bytes_of symbol.now) + 48 }
        ensures steps_enough { result.rows ≤ result.steps };
}

impl Counted for Abi {
    ghost use Rattle.cpp_layout.specs.Layout.{IsRead};

    ghost is_read = { λ symbol. IsRead symbol };

    ghost nodes_a_byte = { 2 };

    fn counts(symbol: &itanium::Symbol) -> Counts {
        symbol.counts()
    }
}

impl Counted for Wide {
    ghost use Rattle.cpp_layout.specs.Layout.{IsRead};

    ghost is_read = { λ symbol. IsRead symbol };

    ghost nodes_a_byte = { 2 };

    fn counts(symbol: &WideSymbol) -> Counts {
        symbol.counts()
    }
}

impl Counted for V0 {
    ghost use Rattle.rust_tree.specs.Counts.{IsRead};

    ghost is_read = { λ symbol. IsRead symbol };

    ghost nodes_a_byte = { 4 };

    fn counts(symbol: &rust_v0::Symbol) -> Counts {
        symbol.counts()
    }
}
