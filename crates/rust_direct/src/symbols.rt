// A symbol from its first byte to its last.

ghost use Rattle.std.specs.Prelude.{◌≡◌, ℕ, ◌≤◌, ◌+◌, ◌*◌, List, [], length, replicate, not};
ghost use Rattle.std.specs.Option.{IfSome, OnSome};
ghost use Rattle.sym_core.specs.Number.{FitsSymbol};
ghost use Rattle.rust_direct.specs.declared.open.Open.TheVariants as opens;
ghost use Rattle.rust_direct.specs.WriterInvariant.{IsWriting, IsWhole, IsShown, HasRooms};
ghost use Rattle.rust_direct.specs.Awaits.{IsFresh, Receives, IsSymbolEnded};

use crate::direct::Direct;
use crate::open::{Forms, Open, Step, has_form, is_path};
use crate::showing::Showing;
use crate::tokens::is_suffix;
use std::alloc::Global;
use std::mem;
use sym_direct::{Bounded, byte_at};

/// The longest symbol that is written this way, in bytes: the lists stay small, and real symbols are shorter.
const LONGEST: usize = 65_536;

impl Direct {
    /// Empty lists: nothing is allocated yet.
    pub fn new(alloc: Global) -> Direct {
        Direct {
            text: Bounded::new(alloc),
            aside: Bounded::new(alloc),
            is_aside: false,
            notes: Bounded::new(alloc),
            numbers: Vec::new(alloc),
            waiting: Bounded::new(alloc),
            at: 0,
        }
    }

    /// The text that was written last.
    pub fn text(&self) -> &[u8]
        ensures { result.now ≡ self.now.text.list.items }
    {
        self.text.as_slice()
    }

    /// Clears the lists and reserves space for a symbol of n bytes, for shown and for hidden text.
    pub fn restart(&mut self, shown: u32, hidden: u32, size: u32)
        requires shown { shown ≤ 8 * size + 1024 }
        requires hidden { hidden ≤ 8 * size + 1024 }
        ensures { (s : List ℕ) → size ≤ length s → IsFresh s self.new }
    {
        self.text.begin(shown);
        self.aside.begin(hidden);
        self.is_aside = false;
        self.notes.begin(size);
        self.numbers.clear();
        self.waiting.begin(size);
    }

    /// Takes a step: begins an argument, the argument's type and the path in the type, each if it
    /// is next, and ends the entry that waited for that path.
    // A step for each of these takes 11 % more instructions.
    #[inline(always)]
    pub fn take<S: Showing>(&mut self, s: &[u8], step: Step) -> Option<Step>
        requires fits { FitsSymbol s.now }
        requires writing { IsWriting S.IS_BRIEF s.now self.old step }
        ensures { IfSome result (IsWriting S.IS_BRIEF s.now self.new) }
    {
        let behind_argument = self.take_argument::<S>(s, step)?;
        let behind_type = self.take_type::<S>(s, behind_argument)?;
        let behind_path = self.take_path::<S>(s, behind_type)?;
        self.take_value::<S>(s, behind_path)
    }

    /// Begins an argument, if one is next.
    #[inline(always)]
    fn take_argument<S: Showing>(&mut self, s: &[u8], step: Step) -> Option<Step>
        requires fits { FitsSymbol s.now }
        requires writing { IsWriting S.IS_BRIEF s.now self.old step }
        ensures { IfSome result (IsWriting S.IS_BRIEF s.now self.new) }
    {
        match step {
            Step::Arguments { is_first } => self.argument_at::<S>(s, is_first),
            other => Some(other),
        }
    }

    /// Begins a type, if one is next.
    #[inline(always)]
    fn take_type<S: Showing>(&mut self, s: &[u8], step: Step) -> Option<Step>
        requires fits { FitsSymbol s.now }
        requires writing { IsWriting S.IS_BRIEF s.now self.old step }
        ensures { IfSome result (IsWriting S.IS_BRIEF s.now self.new) }
    {
        match step {
            Step::Type => self.type_at::<S>(s),
            other => Some(other),
        }
    }

    /// Begins a path, if one is next.
    #[inline(always)]
    fn take_path<S: Showing>(&mut self, s: &[u8], step: Step) -> Option<Step>
        requires fits { FitsSymbol s.now }
        requires writing { IsWriting S.IS_BRIEF s.now self.old step }
        ensures { IfSome result (IsWriting S.IS_BRIEF s.now self.new) }
    {
        match step {
            Step::Path { is_value } => self.path_at::<S>(s, is_value),
            other => Some(other),
        }
    }

    /// Forwards what is read, if that is next.
    #[inline(always)]
    fn take_value<S: Showing>(&mut self, s: &[u8], step: Step) -> Option<Step>
        requires fits { FitsSymbol s.now }
        requires writing { IsWriting S.IS_BRIEF s.now self.old step }
        ensures { IfSome result (IsWriting S.IS_BRIEF s.now self.new) }
    {
        match step {
            Step::Value { from, forms } => self.pass::<S>(s, from, forms),
            other => Some(other),
        }
    }

    /// Reads the first bytes of a symbol, if it isn't too long.
    // <symbol-name> = "_R" <path> [<instantiating-crate>] [<vendor-specific-suffix>]
    pub fn begin<S: Showing>(&mut self, s: &[u8]) -> Option<Step>
        requires fits { FitsSymbol s.now }
        requires fresh { IsFresh s.now self.old }
        ensures { IfSome result (IsWriting S.IS_BRIEF s.now self.new) }
    {
        if s.len() > LONGEST || byte_at(s, 0) != b'_' || byte_at(s, 1) != b'R' {
            return None;
        }
        self.clear_numbers(s.len())?;
        self.waiting.push(Open::Symbol)?;
        self.at = 2;
        Some(Step::Path { is_value: true })
    }

    /// Makes a number for each byte of a symbol: nothing is noted yet.
    fn clear_numbers(&mut self, size: usize) -> Option<()>
        requires none { self.old.numbers.items ≡ [] }
        ensures numbers { OnSome result (self.new.numbers.items ≡ replicate size 0) }
        ensures text { self.new.text ≡ self.old.text }
        ensures aside { self.new.aside ≡ self.old.aside }
        ensures is_aside { self.new.is_aside ≡ self.old.is_aside }
        ensures notes { self.new.notes ≡ self.old.notes }
        ensures waiting { self.new.waiting ≡ self.old.waiting }
    {
        self.numbers.resize(size, 0).ok()
    }

    /// The path of a symbol is read: that of the instantiating crate follows, or the end.
    // <symbol-name> = "_R" <path> [<instantiating-crate>] [<vendor-specific-suffix>]
    pub(crate) fn symbol_ended<S: Showing>(
        &mut self,
        s: &[u8],
        _from: usize,
        forms: Forms,
    ) -> Option<Step>
        requires fits { FitsSymbol s.now }
        requires arrives { Receives S.IS_BRIEF s.now self.old opens.Symbol _from forms }
        ensures { IfSome result (IsWriting S.IS_BRIEF s.now self.new) }
    {
        if !has_form(true, forms) {
            return None;
        }
        if self.is_aside {
            return None;
        }
        if !byte_at(s, self.at).is_ascii_uppercase() {
            return self.finish::<S>(s);
        }
        self.waiting.push(Open::Other)?;
        self.turn();
        Some(Step::Path { is_value: false })
    }

    /// The path of the instantiating crate is read.
    // <symbol-name> = "_R" <path> [<instantiating-crate>] [<vendor-specific-suffix>]
    pub(crate) fn other_ended<S: Showing>(
        &mut self,
        s: &[u8],
        _from: usize,
        forms: Forms,
    ) -> Option<Step>
        requires fits { FitsSymbol s.now }
        requires arrives { Receives S.IS_BRIEF s.now self.old opens.Other _from forms }
        ensures { IfSome result (IsWriting S.IS_BRIEF s.now self.new) }
    {
        if !is_path(forms) {
            return None;
        }
        if !self.is_aside {
            return None;
        }
        self.turn();
        self.finish::<S>(s)
    }

    /// The end of a symbol, after the text of its path: most symbols have no suffix.
    // <symbol-name> = "_R" <path> [<instantiating-crate>] [<vendor-specific-suffix>]
    #[inline(always)]
    fn finish<S: Showing>(&mut self, s: &[u8]) -> Option<Step>
        requires { IsSymbolEnded S.IS_BRIEF s.now self.old }
        ensures { IfSome result (IsWriting S.IS_BRIEF s.now self.new) }
    {
        if self.at == s.len() {
            return Some(Step::Ended);
        }
        self.push_suffix::<S>(s)
    }

    /// The suffix of a symbol.
    // <vendor-specific-suffix> = ("." | "$") <suffix>
    #[inline(never)]
    fn push_suffix<S: Showing>(&mut self, s: &[u8]) -> Option<Step>
        requires { IsSymbolEnded S.IS_BRIEF s.now self.old }
        ensures { IfSome result (IsWriting S.IS_BRIEF s.now self.new) }
    {
        let suffix = s.get(self.at..)?;
        if !is_suffix(suffix) {
            return None;
        }
        self.push(b" (")?;
        self.push(suffix)?;
        self.push(b")")?;
        Some(Step::Ended)
    }

    /// Removes the parts that aren't to be shown from the written text.
    #[inline(always)]
    pub fn show<S: Showing>(&mut self, _s: &[u8]) -> Option<()>
        requires { IsWhole S.IS_BRIEF _s.now self.old.text.list.items }
        ensures shown { OnSome result (IsShown S.IS_BRIEF _s.now (length self.old.text.list.items) self.new.text.list.items) }
        ensures rooms { HasRooms _s.now self.old → HasRooms _s.now self.new }
    {
        if S::IS_BRIEF {
            return self.text.leave_out_marked();
        }
        Some(())
    }

    /// Writes to the other of the two texts from here on.
    pub(crate) fn turn(&mut self)
        ensures text { self.new.text ≡ self.old.aside }
        ensures aside { self.new.aside ≡ self.old.text }
        ensures is_aside { self.new.is_aside ≡ not self.old.is_aside }
        ensures notes { self.new.notes ≡ self.old.notes }
        ensures numbers { self.new.numbers ≡ self.old.numbers }
        ensures waiting { self.new.waiting ≡ self.old.waiting }
        ensures at { self.new.at ≡ self.old.at }
    {
        mem::swap(&mut self.text, &mut self.aside);
        self.is_aside = !self.is_aside;
    }
}
