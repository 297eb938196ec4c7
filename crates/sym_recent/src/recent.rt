// A demangler that keeps texts.
ghost use Rattle.std.specs.Prelude.{◌≡◌, List, ℕ, true};
ghost use Rattle.sym_core.specs.Number.{FitsSymbol};
ghost use Rattle.sym_filter.specs.Demangled.{IsAppended};
ghost use Rattle.sym_filter.specs.declared.kinds.Kind.{Kind as Kind-type};
ghost use Rattle.sym_recent.specs.Kept.{IsFew, Keeps};

use crate::marks::mark_of;
use crate::table::Table;
use std::alloc::{AllocError, Global};
use sym_core::Refusal;
use sym_filter::{Demangled, Demangler, Kind, Lang};

/// A demangler that can tell whether another one of its type answers the same.
pub trait Alike: Demangler {
    /// Whether another demangler answers the same, as far as its settings show this.
    fn is_alike(&self, other: &Self) -> bool
        ensures { result ≡ true → (kind : Kind-type) (symbol : List ℕ) → Self.answer self.now kind symbol ≡ Self.answer other.now kind symbol };
}

/// A demangler that answers what another one does, and keeps texts that it appended: at most
/// 1,179,648 bytes of symbols and texts. Compared with the other demangler, any symbol, even a
/// hostile one, costs at most a few more passes over its bytes and its text.
#[derive(Clone, Copy, Drop)]
pub struct Recent<D> {
    pub demangler: D,
}

/// The lists of a demangler, and texts that it has appended.
#[derive(Drop)]
pub struct RecentLists<D: Demangler + Drop> {
    lists: D::Lists,
    demangler: D,
    table: Table,
    ghost keeps: { Keeps (D.answer demangler) table },
    ghost few: { IsFew table },
}

impl<D: Alike + Copy + Drop> Demangler for Recent<D> {
    type Lists = RecentLists<D>;

    ghost answer = { λ recent kind symbol. D.answer recent.demangler kind symbol };

    ghost are_counts = { λ recent lang symbol counts. D.are_counts recent.demangler lang symbol counts };

    fn lists(&self, alloc: Global) -> Result<RecentLists<D>, AllocError> {
        Ok(RecentLists {
            lists: self.demangler.lists(alloc)?,
            demangler: self.demangler,
            table: Table::new(alloc),
        })
    }

    fn read_ahead(&self, lists: &mut RecentLists<D>, lang: Lang, front: &[u8]) {
        self.demangler.read_ahead(&mut lists.lists, lang, front);
    }

    fn demangle(
        &self,
        lists: &mut RecentLists<D>,
        kind: Kind,
        symbol: &[u8],
        out: &mut Vec<u8>,
    ) -> Demangled {
        self.demangler.demangle(&mut lists.lists, kind, symbol, out)
    }

    // Out of line, since the filter's loop holds more in registers if it calls this function than
    // if this function is inlined.
    #[inline(never)]
    fn append(
        &self,
        lists: &mut RecentLists<D>,
        kind: Kind,
        symbol: &[u8],
        out: &mut Vec<u8>,
    ) -> Result<(), Refusal> {
        if lists.table.looks() {
            return append_looked(&self.demangler, lists, kind, symbol, out);
        }
        self.demangler.append(&mut lists.lists, kind, symbol, out)
    }
}

/// Appends the text of a symbol, which is looked up in the table if the demangler of the lists is
/// known to answer the same.
#[inline(never)]
fn append_looked<D: Alike + Copy + Drop>(
    demangler: &D,
    lists: &mut RecentLists<D>,
    kind: Kind,
    symbol: &[u8],
    out: &mut Vec<u8>,
) -> Result<(), Refusal>
    requires { FitsSymbol symbol.now }
    ensures { IsAppended (D.answer demangler.now kind symbol.now) out.old.items out.new.items result }
{
    if demangler.is_alike(&lists.demangler) {
        if let Some(mark) = mark_of(symbol) {
            return append_marked(lists, mark, kind, symbol, out);
        }
    }
    demangler.append(&mut lists.lists, kind, symbol, out)
}

/// Appends the text of a symbol with a mark, from the table or by the demangler of the lists.
fn append_marked<D: Alike + Copy + Drop>(
    lists: &mut RecentLists<D>,
    mark: u32,
    kind: Kind,
    symbol: &[u8],
    out: &mut Vec<u8>,
) -> Result<(), Refusal>
    requires { FitsSymbol symbol.now }
    ensures { IsAppended (D.answer lists.old.demangler kind symbol.now) out.old.items out.new.items result }
{
    if let Some(text) = lists.table.text_of(mark, kind, symbol) {
        out.extend_from_slice(text)?;
        lists.table.came_again();
        return Ok(());
    }
    let length = out.len();
    lists.demangler.append(&mut lists.lists, kind, symbol, out)?;
    lists.table.take(mark, kind, symbol, &out[length..]);
    Ok(())
}
