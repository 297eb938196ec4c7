// Reading a whole symbol, and its text.

ghost use Rattle.std.specs.Prelude.{◌≡◌, ◌≢◌, ◌⊎◌, List, length, true, Ok, Err, IfOk, IfErr};
ghost use Rattle.sym_core.specs.Number.{FitsSymbol};
ghost use Rattle.sym_core.specs.declared.refusal.Refusal.TheVariants as refusals;
ghost use Rattle.sym_print.specs.declared.detail.Detail.{Detail};
ghost use Rattle.sym_shape.specs.Tree.{AreRowsOf};
ghost use Rattle.sym_shape.specs.declared.rule.Row.{Row};
ghost use Rattle.sym_demangle.specs.Standing.{AreStepsInAll, AreNodesOf};
ghost use Rattle.cpp_grammar.specs.Mangled.{IsReading, IsAnswer};
ghost use Rattle.cpp_grammar.specs.Table.{abi};
ghost use Rattle.cpp_layout.specs.Layout.{whole_of};
ghost use Rattle.cpp_link.specs.NodeCount.{are_nodes};

use crate::grammar::Abi;
use cpp_layout::{Detail, Symbol};
use std::alloc::Global;
use sym_core::Refusal;
use sym_shape::Reader;

/// Reads a symbol.
///
/// # Errors
///
/// `Malformed` at the first bad byte of a symbol that isn't well shaped, `BadReference` and `BadValue` at the first bad token of a well
/// shaped symbol, `Memory` where a list couldn't grow.
pub fn read(alloc: Global, s: &[u8]) -> Result<Symbol, Refusal>
    requires { FitsSymbol s.now }
    ensures bytes { IfOk result (λ symbol. symbol.bytes ≡ s.now) }
    ensures symbol { IfOk result (λ symbol. IsReading s.now (Ok (whole_of symbol))) }
    // The rows, steps and nodes that are counted are those of the symbol's one tree.
    ensures rows { IfOk result (λ symbol. (rows : List Row) × AreRowsOf abi s.now rows × (symbol.rows ≡ length rows)) }
    ensures steps { IfOk result (λ symbol. AreStepsInAll abi s.now symbol.steps) }
    ensures nodes { IfOk result (λ symbol. AreNodesOf abi are_nodes s.now (length symbol.table.nodes)) }
    ensures refused { IfErr result (λ e. (e ≡ refusals.Memory) ⊎ IsReading s.now (Err e)) }
    ensures never_too_long { IfErr result (λ e. e ≢ refusals.TooLong) }
{
    sym_demangle::read::<Abi>(alloc, s)
}

/// Reads the symbol that a reader was fed up to the symbol's end. The symbol's bytes aren't copied.
///
/// # Errors
///
/// The errors of `read`, for the bytes fed.
pub fn read_fed(alloc: Global, reader: Reader<Abi>) -> Result<Symbol, Refusal>
    requires { reader.ended ≡ true }
    ensures bytes { IfOk result (λ symbol. symbol.bytes ≡ reader.bytes) }
    ensures symbol { IfOk result (λ symbol. IsReading reader.bytes (Ok (whole_of symbol))) }
    // The rows, steps and nodes that are counted are those of the symbol's one tree.
    ensures rows { IfOk result (λ symbol. (rows : List Row) × AreRowsOf abi reader.bytes rows × (symbol.rows ≡ length rows)) }
    ensures steps { IfOk result (λ symbol. AreStepsInAll abi reader.bytes symbol.steps) }
    ensures nodes { IfOk result (λ symbol. AreNodesOf abi are_nodes reader.bytes (length symbol.table.nodes)) }
    ensures refused { IfErr result (λ e. (e ≡ refusals.Memory) ⊎ IsReading reader.bytes (Err e)) }
    ensures never_too_long { IfErr result (λ e. e ≢ refusals.TooLong) }
{
    sym_demangle::read_fed::<Abi>(alloc, reader)
}

/// The text of a symbol in full, if it costs at most the limit.
///
/// # Errors
///
/// The errors of `read`, and `TooLong` exactly where the text costs more.
pub fn demangle(alloc: Global, s: &[u8], limit: u32) -> Result<Vec<u8>, Refusal>
    requires { FitsSymbol s.now }
    ensures text { IfOk result (λ text. IsAnswer Detail.Full s.now limit (Ok text.items)) }
    ensures refused { IfErr result (λ e. (e ≡ refusals.Memory) ⊎ IsAnswer Detail.Full s.now limit (Err e)) }
{
    sym_demangle::demangle::<Abi>(alloc, s, limit)
}

/// The text of a symbol in a detail, if it costs at most the limit.
///
/// # Errors
///
/// The errors of `read`, and `TooLong` exactly where the text costs more.
pub fn demangle_as(alloc: Global, s: &[u8], limit: u32, detail: Detail) -> Result<Vec<u8>, Refusal>
    requires { FitsSymbol s.now }
    ensures text { IfOk result (λ text. IsAnswer detail s.now limit (Ok text.items)) }
    ensures refused { IfErr result (λ e. (e ≡ refusals.Memory) ⊎ IsAnswer detail s.now limit (Err e)) }
{
    sym_demangle::demangle_as::<Abi>(alloc, s, limit, detail)
}
