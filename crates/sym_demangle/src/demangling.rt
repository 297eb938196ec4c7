// Reading a whole symbol, and its text.

ghost use Rattle.std.specs.Prelude.{◌≡◌, ◌≢◌, ◌⊎◌, List, length, true, Ok, Err, IfOk, IfErr};
ghost use Rattle.sym_core.specs.Number.{FitsSymbol};
ghost use Rattle.sym_core.specs.declared.refusal.Refusal.TheVariants as refusals;
ghost use Rattle.sym_print.specs.declared.detail.Detail.{Detail};
ghost use Rattle.sym_shape.specs.Reader.{AreFew};
ghost use Rattle.sym_shape.specs.Tree.{AreRowsOf, AreStepsOf};
ghost use Rattle.sym_shape.specs.declared.rule.Row.{Row};
ghost use Rattle.sym_demangle.specs.Mangled.{IsReading, IsAnswer};
ghost use Rattle.sym_demangle.specs.Standing.{AreStepsInAll, AreNodesOf};

use crate::linker::Linker;
use crate::mangling::Mangling;
use std::alloc::Global;
use sym_core::Refusal;
use sym_print::{Detail, print};
use sym_shape::{Reader, Shape};

/// The symbol of these bytes, given the shape that was read from them.
fn link<M: Mangling>(alloc: Global, bytes: Vec<u8>, shape: Shape) -> Result<M::Symbol, Refusal>
    requires fits { FitsSymbol bytes.items }
    requires rows { AreRowsOf M.mangled.table bytes.items shape.rows }
    requires steps { AreStepsOf M.mangled.table bytes.items shape.steps }
    requires few { AreFew shape.steps (length shape.rows) (length bytes.items) }
    ensures bytes { IfOk result (λ symbol. M.bytes_of symbol ≡ bytes.items) }
    ensures symbol { IfOk result (λ symbol. IsReading M.mangled bytes.items (Ok (M.whole_of symbol))) }
    ensures rows { IfOk result (λ symbol. M.rows_of symbol ≡ length shape.rows) }
    ensures steps { IfOk result (λ symbol. AreStepsInAll M.mangled.table bytes.items (M.steps_of symbol)) }
    ensures nodes { IfOk result (λ symbol. AreNodesOf M.mangled.table M.are_nodes bytes.items (M.nodes_of symbol)) }
    ensures refused { IfErr result (λ e. (e ≡ refusals.Memory) ⊎ IsReading M.mangled bytes.items (Err e)) }
    ensures never_too_long { IfErr result (λ e. e ≢ refusals.TooLong) }
{
    M::refuses_bad_tokens();
    let mut linker = Linker::<M>::new(alloc, bytes, shape)?;
    linker.run()?;
    Ok(linker.finish())
}

/// Reads a symbol.
///
/// # Errors
///
/// `Malformed` at the first bad byte of a symbol that isn't well shaped, `BadReference` and `BadValue` at the first bad token of a symbol
/// that is well shaped, `Memory` where a list couldn't grow.
pub fn read<M: Mangling>(alloc: Global, s: &[u8]) -> Result<M::Symbol, Refusal>
    requires { FitsSymbol s.now }
    ensures bytes { IfOk result (λ symbol. M.bytes_of symbol ≡ s.now) }
    ensures symbol { IfOk result (λ symbol. IsReading M.mangled s.now (Ok (M.whole_of symbol))) }
    // The rows, steps and nodes that are counted are those of the symbol's one tree.
    ensures rows { IfOk result (λ symbol. (rows : List Row) × AreRowsOf M.mangled.table s.now rows × (M.rows_of symbol ≡ length rows)) }
    ensures steps { IfOk result (λ symbol. AreStepsInAll M.mangled.table s.now (M.steps_of symbol)) }
    ensures nodes { IfOk result (λ symbol. AreNodesOf M.mangled.table M.are_nodes s.now (M.nodes_of symbol)) }
    ensures refused { IfErr result (λ e. (e ≡ refusals.Memory) ⊎ IsReading M.mangled s.now (Err e)) }
    ensures never_too_long { IfErr result (λ e. e ≢ refusals.TooLong) }
{
    let shape = sym_shape::read(alloc, &M::grammar(), s)?;
    let mut bytes = Vec::new(alloc);
    bytes.extend_from_slice(s)?;
    link::<M>(alloc, bytes, shape)
}

/// Reads the symbol that a reader was fed up to its end. Its bytes aren't copied.
///
/// # Errors
///
/// The refusals of `read`, for the bytes fed.
pub fn read_fed<M: Mangling>(alloc: Global, mut reader: Reader<M>) -> Result<M::Symbol, Refusal>
    requires { reader.ended ≡ true }
    ensures bytes { IfOk result (λ symbol. M.bytes_of symbol ≡ reader.bytes) }
    ensures symbol { IfOk result (λ symbol. IsReading M.mangled reader.bytes (Ok (M.whole_of symbol))) }
    // The rows, steps and nodes that are counted are those of the symbol's one tree.
    ensures rows { IfOk result (λ symbol. (rows : List Row) × AreRowsOf M.mangled.table reader.bytes rows × (M.rows_of symbol ≡ length rows)) }
    ensures steps { IfOk result (λ symbol. AreStepsInAll M.mangled.table reader.bytes (M.steps_of symbol)) }
    ensures nodes { IfOk result (λ symbol. AreNodesOf M.mangled.table M.are_nodes reader.bytes (M.nodes_of symbol)) }
    ensures refused { IfErr result (λ e. (e ≡ refusals.Memory) ⊎ IsReading M.mangled reader.bytes (Err e)) }
    ensures never_too_long { IfErr result (λ e. e ≢ refusals.TooLong) }
{
    reader.run(&M::grammar())?;
    let (bytes, shape) = reader.finish()?;
    link::<M>(alloc, bytes, shape)
}

/// The text of a symbol in full, if it costs at most the limit.
///
/// # Errors
///
/// The refusals of `read`, and `TooLong` exactly where the text costs more than the limit.
pub fn demangle<M: Mangling>(alloc: Global, s: &[u8], limit: u32) -> Result<Vec<u8>, Refusal>
    requires { FitsSymbol s.now }
    ensures text { IfOk result (λ text. IsAnswer M.mangled Detail.Full s.now limit (Ok text.items)) }
    ensures refused { IfErr result (λ e. (e ≡ refusals.Memory) ⊎ IsAnswer M.mangled Detail.Full s.now limit (Err e)) }
{
    demangle_as::<M>(alloc, s, limit, Detail::Full)
}

/// The text of a symbol in a detail, if it costs at most the limit.
///
/// # Errors
///
/// The refusals of `read`, and `TooLong` exactly where the text costs more than the limit.
pub fn demangle_as<M: Mangling>(
    alloc: Global,
    s: &[u8],
    limit: u32,
    detail: Detail,
) -> Result<Vec<u8>, Refusal>
    requires { FitsSymbol s.now }
    ensures text { IfOk result (λ text. IsAnswer M.mangled detail s.now limit (Ok text.items)) }
    ensures refused { IfErr result (λ e. (e ≡ refusals.Memory) ⊎ IsAnswer M.mangled detail s.now limit (Err e)) }
{
    let symbol = read::<M>(alloc, s)?;
    print(alloc, &symbol, M::root(&symbol, detail), limit)
}
