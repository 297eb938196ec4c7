// Reading a symbol of a mangling, and taking its text apart.

ghost use Rattle.std.specs.Prelude.{◌≡◌, ◌<◌, ◌^◌, ◌⊎◌, Err, IfErr, IfOk, Ok, length};
ghost use Rattle.sym_core.specs.Number.{FitsSymbol};
ghost use Rattle.sym_core.specs.declared.refusal.Refusal.TheVariants.{Memory};
ghost use Rattle.symbol_parts.specs.Parsed.{found, parsed};

use crate::marked::Marked;
use crate::parsed::Parsed;
use std::alloc::Global;
use sym_core::Refusal;
use sym_demangle::read;
use sym_parts::with_bytes;
use sym_print::{Detail, print};

/// How many bytes a text has.
fn length_of(text: &[u8]) -> u32
    requires { length text.now < 2 ^ 32 }
    ensures { result ≡ length text.now }
{
    text.len() as u32
}

/// The text of a symbol in a detail with its parts, if the text costs at most the limit.
///
/// # Errors
///
/// The errors of `sym_demangle::read`, and `TooLong` exactly where the text costs more.
pub(crate) fn parse_as<M: Marked>(
    alloc: Global,
    symbol: &[u8],
    limit: u32,
    detail: Detail,
) -> Result<Parsed, Refusal>
    requires { FitsSymbol symbol.now }
    ensures ok { IfOk result (λ p. parsed M.over M.marking detail symbol.now limit ≡ Ok (found p)) }
    ensures err { IfErr result (λ e. (e ≡ Memory) ⊎ (parsed M.over M.marking detail symbol.now limit ≡ Err e)) }
{
    let read = read::<M>(alloc, symbol)?;
    let text = print(alloc, &read, M::root(&read, detail), limit)?;
    let length = length_of(&text);
    let stretches = M::stretches_as(alloc, &read, limit, detail)?;
    let shape = sym_shape::read(alloc, &M::grammar(), symbol)?;
    let spelling = M::spelling_of(alloc, symbol, shape.rows(), &stretches)?;
    let parts = with_bytes(alloc, &stretches, &spelling, length)?;
    Ok(Parsed {
        text,
        kind: M::kind_of(&read),
        parts,
    })
}
