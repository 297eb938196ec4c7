// Reading a whole symbol, and its text.

ghost use Rattle.std.specs.Prelude.{◌≡◌, ◌≢◌, ◌⊎◌, List, length, true, Ok, Err, IfOk, IfErr};
ghost use Rattle.sym_core.specs.Number.{FitsSymbol};
ghost use Rattle.sym_core.specs.declared.refusal.Refusal.TheVariants as refusals;
ghost use Rattle.sym_print.specs.declared.detail.Detail.{Detail};
ghost use Rattle.sym_shape.specs.Tree.{AreRowsOf};
ghost use Rattle.sym_shape.specs.declared.rule.Row.{Row};
ghost use Rattle.sym_demangle.specs.Standing.{AreStepsInAll, AreNodesOf};
ghost use Rattle.rust_grammar.specs.Mangled.{IsReading, IsAnswer};
ghost use Rattle.rust_v0.specs.Whole.{whole_of};
ghost use Rattle.rust_v0.specs.NodeCount.{are_nodes};
ghost use Rattle.rust_grammar.specs.Rules.{v0_table};

use crate::grammar::V0;
use rust_tree::{Detail, Symbol};
use std::alloc::Global;
use sym_core::Refusal;
use sym_shape::Reader;

/// Reads a symbol.
///
/// # Errors
///
/// `Malformed` at the first bad byte of a symbol that isn't well shaped, `BadReference` and `BadValue` at the first bad token of a symbol
/// that is well shaped, `Memory` where a list couldn't grow.
pub fn read(alloc: Global, s: &[u8]) -> Result<Symbol, Refusal>
    requires { FitsSymbol s.now }
    ensures bytes { IfOk result (λ symbol. symbol.bytes ≡ s.now) }
    ensures symbol { IfOk result (λ symbol. IsReading s.now (Ok (whole_of symbol))) }
    // The rows, steps and nodes that are counted are those of the symbol's one tree.
    ensures rows { IfOk result (λ symbol. (rows : List Row) × AreRowsOf v0_table s.now rows × (symbol.rows ≡ length rows)) }
    ensures steps { IfOk result (λ symbol. AreStepsInAll v0_table s.now symbol.steps) }
    ensures nodes { IfOk result (λ symbol. AreNodesOf v0_table are_nodes s.now (length symbol.table.nodes)) }
    ensures refused { IfErr result (λ e. (e ≡ refusals.Memory) ⊎ IsReading s.now (Err e)) }
    ensures never_too_long { IfErr result (λ e. e ≢ refusals.TooLong) }
{
    sym_demangle::read::<V0>(alloc, s)
}

/// Reads the symbol that a reader was fed up to its end. Its bytes aren't copied.
///
/// # Errors
///
/// The refusals of `read`, for the bytes fed.
pub fn read_fed(alloc: Global, reader: Reader<V0>) -> Result<Symbol, Refusal>
    requires { reader.ended ≡ true }
    ensures bytes { IfOk result (λ symbol. symbol.bytes ≡ reader.bytes) }
    ensures symbol { IfOk result (λ symbol. IsReading reader.bytes (Ok (whole_of symbol))) }
    // The rows, steps and nodes that are counted are those of the symbol's one tree.
    ensures rows { IfOk result (λ symbol. (rows : List Row) × AreRowsOf v0_table reader.bytes rows × (symbol.rows ≡ length rows)) }
    ensures steps { IfOk result (λ symbol. AreStepsInAll v0_table reader.bytes symbol.steps) }
    ensures nodes { IfOk result (λ symbol. AreNodesOf v0_table are_nodes reader.bytes (length symbol.table.nodes)) }
    ensures refused { IfErr result (λ e. (e ≡ refusals.Memory) ⊎ IsReading reader.bytes (Err e)) }
    ensures never_too_long { IfErr result (λ e. e ≢ refusals.TooLong) }
{
    sym_demangle::read_fed::<V0>(alloc, reader)
}

/// The text of a symbol in full, if it costs at most the limit.
///
/// # Errors
///
/// The refusals of `read`, and `TooLong` exactly where the text costs more than the limit.
pub fn demangle(alloc: Global, s: &[u8], limit: u32) -> Result<Vec<u8>, Refusal>
    requires { FitsSymbol s.now }
    ensures text { IfOk result (λ text. IsAnswer Detail.Full s.now limit (Ok text.items)) }
    ensures refused { IfErr result (λ e. (e ≡ refusals.Memory) ⊎ IsAnswer Detail.Full s.now limit (Err e)) }
{
    sym_demangle::demangle::<V0>(alloc, s, limit)
}

/// The text of a symbol in a detail, if it costs at most the limit.
///
/// # Errors
///
/// The refusals of `read`, and `TooLong` exactly where the text costs more than the limit.
pub fn demangle_as(alloc: Global, s: &[u8], limit: u32, detail: Detail) -> Result<Vec<u8>, Refusal>
    requires { FitsSymbol s.now }
    ensures text { IfOk result (λ text. IsAnswer detail s.now limit (Ok text.items)) }
    ensures refused { IfErr result (λ e. (e ≡ refusals.Memory) ⊎ IsAnswer detail s.now limit (Err e)) }
{
    sym_demangle::demangle_as::<V0>(alloc, s, limit, detail)
}
