// The work that reading a name's symbol takes.
ghost use Rattle.std.specs.Prelude.{◌≡◌, []};
ghost use Rattle.sym_core.specs.Number.{FitsSymbol};
ghost use Rattle.sym_print.specs.declared.detail.Detail.TheVariants.{Full};
ghost use Rattle.sym_languages.specs.Languages.{AreCountsBy, language_answer_by};
ghost use Rattle.sym_calls.specs.Calls.{CountingEndsAs, IsCounted, asked_of, ending_of, numbers_of, status_alone};

use crate::flags::asked_of;
use crate::outcome::{FLAGS, OK, Outcome, alone, no_memory, of_refusal};
use std::alloc::Global;
use sym_core::Counts;
use sym_filter::{Demangled, Demangler, Kind};
use sym_languages::languages::Cpp;
use sym_languages::{Abi, Languages, Wide};
use sym_print::Detail;

/// The work that a symbol took: the rows of its shape, the nodes of the table in which its parts are shared, and the counted steps of
/// reading it.
#[repr(C)]
#[derive(Clone, Copy)]
pub struct SymbolCounts {
    pub rows: u32,
    pub nodes: u32,
    pub steps: u32,
}

/// Puts the counts of a name's symbol into the caller's counts, if the symbol is read. Otherwise the outcome says why it isn't, and the
/// caller's counts stay as they are.
#[tactic(auto, unfolding(crate::specs::Calls::CountingEndsAs, crate::specs::Calls::NameCounted))]
pub fn counts_of(alloc: Global, name: &[u8], flags: u32, counts: &mut SymbolCounts) -> Outcome
    ensures { CountingEndsAs (asked_of flags) name.now counts.old counts.new (ending_of result []) }
{
    let Some(asked) = asked_of(flags) else {
        return alone(FLAGS);
    };
    let kind = match asked.named(name) {
        Ok(kind) => kind,
        Err(status) => return alone(status),
    };
    let symbol = &name[kind.skip as usize..];
    if asked.wide {
        return count_in(alloc, Wide, kind, symbol, counts);
    }
    count_in(alloc, Abi, kind, symbol, counts)
}

/// Puts the counts of a symbol into the caller's counts. The symbol is read with a grammar of C++, and gets no room for a text.
fn count_in<C: Cpp>(
    alloc: Global,
    cpp: C,
    kind: Kind,
    symbol: &[u8],
    counts: &mut SymbolCounts,
) -> Outcome
    requires { FitsSymbol symbol.now }
    ensures { IsCounted (language_answer_by C.mangled 0 Full kind.lang symbol.now)
        (AreCountsBy (record { mangled = C.mangled; IsRead = C.is_read; bytes_of = C.bytes_of; whole_of = C.whole_of; are_nodes = C.are_nodes; nodes_a_byte = C.nodes_a_byte }) kind.lang symbol.now)
        kind.skip counts.old counts.new (ending_of result []) }
{
    let languages = Languages {
        limit: 0,
        detail: Detail::Full,
        cpp,
    };
    count_by(alloc, &languages, kind, symbol, counts)
}

/// Puts the counts of a symbol into the caller's.
fn count_by<D: Demangler>(
    alloc: Global,
    demangler: &D,
    kind: Kind,
    symbol: &[u8],
    counts: &mut SymbolCounts,
) -> Outcome
    requires { FitsSymbol symbol.now }
    ensures { IsCounted (D.answer demangler.now kind symbol.now) (D.are_counts demangler.now kind.lang symbol.now) kind.skip counts.old counts.new (ending_of result []) }
{
    let mut lists = match demangler.lists(alloc) {
        Ok(lists) => lists,
        Err(_) => return no_memory(),
    };
    let mut text = Vec::new(alloc);
    match demangler.demangle(&mut lists, kind, symbol, &mut text) {
        Demangled::Text(read) => put(read, counts),
        Demangled::TooLong(read) => put(read, counts),
        Demangled::Refused(refusal) => of_refusal(refusal, kind.skip, &[]),
    }
}

/// Puts the counts of a symbol into the caller's.
fn put(read: Counts, counts: &mut SymbolCounts) -> Outcome
    ensures ending { ending_of result [] ≡ status_alone OK [] }
    ensures counts { numbers_of counts.new ≡ read }
{
    counts.rows = read.rows;
    counts.nodes = read.nodes;
    counts.steps = read.steps;
    alone(OK)
}
