// The lists of a writer.

ghost use Rattle.std.specs.Prelude.{◌≡◌, ◌+◌, ◌*◌, ◌≤◌, [], length};
ghost use Rattle.std.specs.Option.{OnSome};
ghost use Rattle.sym_core.specs.Number.{FitsSymbol};
ghost use Rattle.cpp_direct.specs.Symbol.{symbol_by};
ghost use Rattle.cpp_direct.specs.WriterInvariant.{IsShown, IsWhole};

use crate::grammar::Grammar;
use crate::open::{Arguments, Candidate, Nest, Open};
use crate::symbols::{NO_NEST, NOWHERE};
use std::alloc::Global;
use sym_direct::Bounded;

/// The lists that are used to write one text after another.
#[derive(Drop)]
pub struct Direct {
    pub(crate) text: Bounded<u8>,
    pub(crate) candidates: Bounded<Candidate>,
    pub(crate) waiting: Bounded<Open>,
    pub(crate) nest: Nest,
    /// the known arguments of the name that was read last. The first arguments are known, as far as
    /// each is a literal, or a type other than a function type or an array. Then the elements of a
    /// pack are known, as far as each is a reference to an array, or a type other than a function
    /// type or an array.
    pub(crate) argument: Arguments,
    /// whether the arguments that types may name are known; also true if no types follow the
    /// symbol's own name. Types may name the arguments of the symbol's own name; the types of a
    /// function whose address is an argument may name that function's arguments instead.
    pub(crate) has_scope: bool,
    pub(crate) at: usize,
}

impl Direct {
    /// Empty lists: nothing is allocated yet.
    pub fn new(alloc: Global) -> Direct {
        Direct {
            text: Bounded::new(alloc),
            candidates: Bounded::new(alloc),
            waiting: Bounded::new(alloc),
            nest: NO_NEST,
            argument: NOWHERE,
            has_scope: false,
            at: 0,
        }
    }

    /// The text that was written last.
    pub fn text(&self) -> &[u8]
        ensures { result.now ≡ self.now.text.list.items }
    {
        self.text.as_slice()
    }

    /// Removes from the written text what isn't to be shown. A text that might have had marks of
    /// its own is given up.
    #[inline(always)]
    pub fn show<G: Grammar>(&mut self, _s: &[u8]) -> Option<()>
        requires { IsWhole (symbol_by G.IS_WIDE G.IS_BARE G.IS_BRIEF _s.now) self.old.text.list.items }
        ensures shown { OnSome result (IsShown (symbol_by G.IS_WIDE G.IS_BARE G.IS_BRIEF _s.now) (length self.old.text.list.items) self.new.text.list.items) }
        ensures most { length self.new.text.list.items ≤ length self.old.text.list.items }
    {
        if G::IS_BRIEF {
            return self.text.leave_out_marked();
        }
        Some(())
    }

    /// Clears the lists and reserves room for a symbol: `bytes` for the text (at most 32 for each
    /// byte of the symbol, and a kilobyte), and an entry for each byte of the symbol in each other
    /// list.
    #[inline(always)]
    pub fn restart(&mut self, s: &[u8], bytes: u32)
        requires fits { FitsSymbol s.now }
        requires bytes { bytes ≤ 32 * length s.now + 1024 }
        ensures text { self.new.text.list.items ≡ [] }
        ensures candidates { self.new.candidates.list.items ≡ [] }
        ensures open { self.new.waiting.list.items ≡ [] }
        ensures text_room { self.new.text.room ≡ bytes }
        ensures candidate_room { self.new.candidates.room ≡ length s.now }
        ensures open_room { self.new.waiting.room ≡ length s.now }
    {
        let entries = s.len() as u32;
        self.text.begin(bytes);
        self.candidates.begin(entries);
        self.waiting.begin(entries);
        self.has_scope = false;
    }

    /// Forgets the candidates and the open entries, once a symbol is done.
    #[inline(always)]
    pub fn forget(&mut self)
        ensures text { self.new.text ≡ self.old.text }
        ensures candidates { self.new.candidates.list.items ≡ [] }
        ensures open { self.new.waiting.list.items ≡ [] }
    {
        self.candidates.begin(0);
        self.waiting.begin(0);
    }
}
