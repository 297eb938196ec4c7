// The writer of symbols, which counts its steps.

ghost use Rattle.std.specs.Prelude.{◌≡◌, ℕ, ◌≤◌, ◌+◌, ◌*◌, ◌%◌, ◌^◌, List, length};
ghost use Rattle.std.specs.Option.{IfSome, OnSome};
ghost use Rattle.sym_core.specs.Number.{FitsSymbol};
ghost use Rattle.rust_direct.specs.WriterInvariant.{IsWriting, IsWhole, IsShown, HasRooms};
ghost use Rattle.rust_direct.specs.Awaits.{IsFresh};

use rust_direct::{Direct, Showing, Step};
use std::alloc::Global;

/// The lists that symbols are written with, and how many steps were taken with them.
#[derive(Drop)]
pub struct Writer {
    lists: Direct,
    /// The steps for all symbols, modulo 2^64. They are counted apart from the lists that a step
    /// changes, so no proof has to say of each move that it leaves the count alone.
    rounds: u64,
}

impl Writer {
    /// Empty lists: nothing is allocated yet.
    pub fn new(alloc: Global) -> Writer {
        Writer {
            lists: Direct::new(alloc),
            rounds: 0,
        }
    }

    /// The text that was written last.
    #[inline(always)]
    pub fn text(&self) -> &[u8]
        ensures { result.now ≡ self.now.lists.text.list.items }
    {
        self.lists.text()
    }

    /// Clears the lists and reserves space for a symbol of n bytes, for shown and for hidden text.
    #[inline(always)]
    pub(crate) fn restart(&mut self, shown: u32, hidden: u32, size: u32)
        requires shown { shown ≤ 8 * size + 1024 }
        requires hidden { hidden ≤ 8 * size + 1024 }
        ensures fresh { (s : List ℕ) → size ≤ length s → IsFresh s self.new.lists }
        ensures rounds { self.new.rounds ≡ self.old.rounds }
    {
        self.lists.restart(shown, hidden, size);
    }

    /// Reads the first bytes of a symbol, if it isn't too long.
    #[inline(always)]
    pub(crate) fn begin<S: Showing>(&mut self, s: &[u8]) -> Option<Step>
        requires fits { FitsSymbol s.now }
        requires fresh { IsFresh s.now self.old.lists }
        ensures writing { IfSome result (IsWriting S.IS_BRIEF s.now self.new.lists) }
        ensures rounds { self.new.rounds ≡ self.old.rounds }
    {
        self.lists.begin::<S>(s)
    }

    /// Takes a step, and counts it whether it succeeds or not.
    #[inline(always)]
    pub(crate) fn take<S: Showing>(&mut self, s: &[u8], step: Step) -> Option<Step>
        requires fits { FitsSymbol s.now }
        requires writing { IsWriting S.IS_BRIEF s.now self.old.lists step }
        ensures writing { IfSome result (IsWriting S.IS_BRIEF s.now self.new.lists) }
        ensures rounds { self.new.rounds ≡ (self.old.rounds + 1) % 2 ^ 64 }
    {
        self.rounds = self.rounds.wrapping_add(1);
        self.lists.take::<S>(s, step)
    }

    /// Removes from the written text what isn't to be shown.
    #[inline(always)]
    pub(crate) fn show<S: Showing>(&mut self, s: &[u8]) -> Option<()>
        requires { IsWhole S.IS_BRIEF s.now self.old.lists.text.list.items }
        ensures shown { OnSome result (IsShown S.IS_BRIEF s.now (length self.old.lists.text.list.items) self.new.lists.text.list.items) }
        ensures rooms { HasRooms s.now self.old.lists → HasRooms s.now self.new.lists }
        ensures rounds { self.new.rounds ≡ self.old.rounds }
    {
        self.lists.show::<S>(s)
    }
}
