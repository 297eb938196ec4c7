// The writer of symbols, which counts its steps.

ghost use Rattle.std.specs.Prelude.{◌≡◌, ◌≤◌, ◌+◌, ◌*◌, ◌%◌, ◌^◌, [], length};
ghost use Rattle.std.specs.Option.{IfSome, OnSome};
ghost use Rattle.sym_core.specs.Number.{FitsSymbol};
ghost use Rattle.cpp_direct.specs.WriterInvariant.{IsShown, IsWhole, IsWriting};
ghost use Rattle.cpp_direct.specs.Names.{IsReadable};
ghost use Rattle.cpp_direct.specs.Symbol.{symbol_by};
ghost use Rattle.cpp_direct.specs.MidStep.{IsFresh};

use cpp_direct::{Direct, Grammar, Step};
use std::alloc::Global;

/// The lists that symbols are written with, and how many steps were taken with them.
#[derive(Drop)]
pub struct Writer {
    lists: Direct,
    /// The steps for all symbols, modulo 2^64. This number is kept apart from the lists, so that no step can change it, and no proof has to
    /// show of each move that the number stays.
    rounds: u64,
}

impl Writer {
    /// Empty lists: nothing is allocated yet.
    pub fn new(alloc: Global) -> Writer {
        Writer {
            lists: Direct::new(alloc),
            rounds: 0,
        }
    }

    /// The text that was written last.
    #[inline(always)]
    pub fn text(&self) -> &[u8]
        ensures { result.now ≡ self.now.lists.text.list.items }
    {
        self.lists.text()
    }

    /// Clears the lists and reserves room in them for a symbol: this many bytes of text, and in the other lists an entry for each byte of the symbol.
    #[inline(always)]
    pub(crate) fn restart(&mut self, s: &[u8], bytes: u32)
        requires fits { FitsSymbol s.now }
        requires bytes { bytes ≤ 32 * length s.now + 1024 }
        ensures fresh { IsFresh self.new.lists }
        ensures text_room { self.new.lists.text.room ≡ bytes }
        ensures candidate_room { self.new.lists.candidates.room ≡ length s.now }
        ensures open_room { self.new.lists.waiting.room ≡ length s.now }
        ensures rounds { self.new.rounds ≡ self.old.rounds }
    {
        self.lists.restart(s, bytes);
    }

    /// Forgets the candidates and the open entries, after a symbol is done.
    #[inline(always)]
    pub(crate) fn forget(&mut self)
        ensures text { self.new.lists.text ≡ self.old.lists.text }
        ensures candidates { self.new.lists.candidates.list.items ≡ [] }
        ensures open { self.new.lists.waiting.list.items ≡ [] }
        ensures rounds { self.new.rounds ≡ self.old.rounds }
    {
        self.lists.forget();
    }

    /// Reads the first bytes of a symbol, once the lists have been prepared, or gives it up.
    #[inline(always)]
    pub(crate) fn begin<G: Grammar>(&mut self, s: &[u8]) -> Option<Step>
        requires fits { IsReadable s.now }
        requires fresh { IsFresh self.old.lists }
        ensures writing { IfSome result (IsWriting (symbol_by G.IS_WIDE G.IS_BARE G.IS_BRIEF s.now) self.new.lists) }
        ensures rounds { self.new.rounds ≡ self.old.rounds }
    {
        self.lists.begin::<G>(s)
    }

    /// Takes a step, and counts it whatever its outcome is.
    #[inline(always)]
    pub(crate) fn take<G: Grammar>(&mut self, s: &[u8], step: Step) -> Option<Step>
        requires fits { IsReadable s.now }
        requires writing { IsWriting (symbol_by G.IS_WIDE G.IS_BARE G.IS_BRIEF s.now) self.old.lists step }
        ensures writing { IfSome result (IsWriting (symbol_by G.IS_WIDE G.IS_BARE G.IS_BRIEF s.now) self.new.lists) }
        ensures rounds { self.new.rounds ≡ (self.old.rounds + 1) % 2 ^ 64 }
    {
        self.rounds = self.rounds.wrapping_add(1);
        self.lists.take::<G>(s, step)
    }

    /// Removes what isn't to be shown from what was written. A text that can't be distinguished from a text with marks is given up.
    #[inline(always)]
    pub(crate) fn show<G: Grammar>(&mut self, s: &[u8]) -> Option<()>
        requires { IsWhole (symbol_by G.IS_WIDE G.IS_BARE G.IS_BRIEF s.now) self.old.lists.text.list.items }
        ensures shown { OnSome result (IsShown (symbol_by G.IS_WIDE G.IS_BARE G.IS_BRIEF s.now) (length self.old.lists.text.list.items) self.new.lists.text.list.items) }
        ensures most { length self.new.lists.text.list.items ≤ length self.old.lists.text.list.items }
        ensures rounds { self.new.rounds ≡ self.old.rounds }
    {
        self.lists.show::<G>(s)
    }
}
