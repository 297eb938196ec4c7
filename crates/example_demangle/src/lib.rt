//! Three ways to use `rust_v0`.
#![tactic(auto)]

ghost use Rattle.std.specs.Prelude.{◌+◌, ◌<◌, ◌≤◌, length};
ghost use Rattle.sym_core.specs.declared.TheConstants.{MOST_BYTES};
ghost use Rattle.sym_core.specs.Number.{FitsSymbol};

use rust_v0::{Detail, Reader, Symbol, V0, Workspace, demangle, read_fed};
use std::alloc::Global;
use sym_core::{Refusal, fits};

/// The text of a symbol.
pub fn text(alloc: Global, symbol: &[u8]) -> Result<Vec<u8>, Refusal>
    requires { FitsSymbol symbol.now }
{
    demangle(alloc, symbol, 1_000_000)
}

/// A line for each symbol: its brief text, or the symbol itself. The same lists serve all symbols.
pub fn lines(alloc: Global, symbols: &[&[u8]]) -> Result<Vec<u8>, Refusal> {
    let mut workspace = Workspace::new(alloc);
    let mut lines = Vec::new(alloc);
    for symbol in symbols {
        let answer = if fits(symbol) {
            workspace.demangle_into(symbol, 1_000_000, Detail::Brief, &mut lines)
        } else {
            Err(Refusal::TooLong)
        };
        match answer {
            Ok(()) => {}
            Err(Refusal::Memory) => return Err(Refusal::Memory),
            Err(_) => lines.extend_from_slice(symbol)?,
        }
        lines.push(b'\n')?;
    }
    Ok(lines)
}

/// A symbol that comes in two pieces.
pub fn in_pieces(alloc: Global, first: &[u8], second: &[u8]) -> Result<Symbol, Refusal>
    requires some { 0 < length first.now }
    requires more { 0 < length second.now }
    requires room { length first.now + length second.now ≤ MOST_BYTES }
{
    let mut reader = Reader::new(alloc, &V0)?;
    reader.feed(first)?;
    reader.run(&V0)?; // a bad byte of the first piece is refused here
    reader.feed(second)?;
    reader.feed(b"")?; // no bytes: the end
    read_fed(alloc, reader)
}
