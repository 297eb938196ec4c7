//! The pressed spelling of a symbol of C++'s wide grammar, which is answered only where it is read again as the same tree.
#![tactic(auto)]

ghost use Rattle.std.specs.Prelude.{◌≡◌, ◌≤◌, Ok, Some, true, length, IfOk, IfErr, IfSome};
ghost use Rattle.sym_core.specs.declared.TheConstants.{MOST_BYTES};
ghost use Rattle.sym_core.specs.Number.{FitsSymbol};
ghost use Rattle.sym_core.specs.declared.Refusal.TheVariants.{Memory};
ghost use Rattle.sym_demangle.specs.Mangled.{IsReading};
ghost use Rattle.cpp_grammar.specs.Mangled.{wide_mangled};
ghost use Rattle.cpp_layout.specs.Layout.{whole_of};
ghost use Rattle.wide_press.specs.Kept.{IsKept, kept, reads_as};

use cpp_press::{have_one_tree, press_cpp};
use itanium::{Wide, WideSymbol};
use std::alloc::Global;
use sym_core::Refusal;
use sym_demangle::Workspace;

/// The pressed spelling of a symbol that was read by the wide grammar, if the spelling has at most this many bytes and the wide grammar
/// reads it as the symbol's tree. So symbols with one answer have one tree. Each answer is checked: it is read with the lists, and its
/// nodes are compared with the symbol's by their numbers.
///
/// Many trees that the grammar of the ABI doesn't read have no answer, since some of their parts have no spelling yet.
///
/// # Errors
///
/// Only `Memory`.
pub fn press_wide(
    alloc: Global,
    lists: &mut Workspace<Wide>,
    symbol: &WideSymbol,
    most: usize,
) -> Result<Option<Vec<u8>>, Refusal>
    requires { most ≤ MOST_BYTES }
    ensures kept { IfOk result (IsKept (kept most (whole_of symbol.now))) }
    ensures read { IfOk result (λ spelling. IfSome spelling (λ out. IsReading wide_mangled out.items (Ok (whole_of symbol.now)))) }
    ensures once { IfOk result (λ spelling. IfSome spelling (λ out. kept (length out.items) (whole_of symbol.now) ≡ Some out.items)) }
    ensures short { IfOk result (λ spelling. IfSome spelling (λ out. length out.items ≤ most)) }
    ensures memory { IfErr result (λ e. e ≡ Memory) }
{
    let out = press_cpp(alloc, symbol.plain())?;
    if out.len() > most {
        return Ok(None);
    }
    if is_read_as(alloc, lists, &out, symbol)? {
        return Ok(Some(out));
    }
    Ok(None)
}

/// Whether the wide grammar reads bytes as the tree of a symbol.
///
/// # Errors
///
/// Only `Memory`.
fn is_read_as(
    alloc: Global,
    lists: &mut Workspace<Wide>,
    bytes: &[u8],
    symbol: &WideSymbol,
) -> Result<bool, Refusal>
    requires { FitsSymbol bytes.now }
    ensures is { IfOk result (λ is. is ≡ reads_as bytes.now (whole_of symbol.now)) }
    ensures read { IfOk result (λ is. is ≡ true → IsReading wide_mangled bytes.now (Ok (whole_of symbol.now))) }
    ensures memory { IfErr result (λ e. e ≡ Memory) }
{
    let again = match lists.read(bytes) {
        Ok(again) => again,
        Err(refusal) => match refusal {
            Refusal::Memory => return Err(Refusal::Memory),
            _ => return Ok(false),
        },
    };
    let is_same = have_one_tree(alloc, symbol.plain(), again.plain());
    lists.recycle(again);
    Ok(is_same?)
}
