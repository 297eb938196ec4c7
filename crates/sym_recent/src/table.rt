// The table of the texts that are kept.
ghost use Rattle.std.specs.Prelude.{◌≡◌, ◌≤◌, List, ℕ, Result, Ok, IfSome, length};
ghost use Rattle.sym_core.specs.declared.refusal.Refusal.{Refusal as Refusal-type};
ghost use Rattle.sym_filter.specs.declared.kinds.Kind.{Kind as Kind-type};
ghost use Rattle.sym_recent.specs.Kept.{IsFew, Keeps};

use std::alloc::Global;
use sym_filter::Kind;

/// How many places for symbols there are. Each symbol has one, by its mark.
const PLACES: usize = 16_384;

/// The most symbols that are kept.
const MOST_ENTRIES: usize = 8_192;

/// The most bytes of symbols and texts to which another text is added: with more, all are forgotten
/// first.
const MOST_KEPT: usize = 1_048_576;

/// The most bytes of a symbol and of a text that is kept.
const LONGEST: usize = 65_536;

/// After this many new symbols in a row, only few symbols are looked at, and a symbol is kept only
/// once it comes again.
const PATIENCE: u32 = 64;

/// After `PATIENCE` new symbols in a row, one in this many symbols is looked at.
const FEW: u32 = 8;

/// The places are made after this many symbols, since making them costs as much as twenty texts.
const ENOUGH: u32 = 512;

/// What is noted of the symbols of a place.
#[derive(Clone, Copy, Debug, PartialEq, Eq)]
pub(crate) struct Place {
    /// The mark of the symbol that came last, without the bits that the place gives.
    mark: u16,
    /// The entry of the symbol that was kept last.
    entry: u16,
}

/// A symbol and its text, which are among the bytes of a table, one after the other.
#[derive(Clone, Copy, Debug, PartialEq, Eq)]
pub(crate) struct Entry {
    pub(crate) kind: Kind,
    pub(crate) at: u32,
    pub(crate) symbol: u32,
    pub(crate) text: u32,
}

/// Texts of symbols, with the symbols.
#[derive(Drop)]
pub(crate) struct Table {
    alloc: Global,
    places: Vec<Place>,
    pub(crate) entries: Vec<Entry>,
    pub(crate) bytes: Vec<u8>,
    /// How many new symbols have come since one came again. A symbol that isn't looked at counts as
    /// new.
    news: u32,
}

impl Table {
    /// A table that keeps no text, and has no places yet.
    pub(crate) fn new(alloc: Global) -> Table
        ensures keeps { (answer : Kind-type → List ℕ → Result (List ℕ) Refusal-type) → Keeps answer result }
        ensures few { IsFew result }
    {
        Table {
            alloc,
            places: Vec::new(alloc),
            entries: Vec::new(alloc),
            bytes: Vec::new(alloc),
            news: PATIENCE + 1,
        }
    }

    /// Whether the next symbol is looked at. A symbol that isn't looked at is counted as new.
    #[inline(always)]
    pub(crate) fn looks(&mut self) -> bool
        ensures keeps { (answer : Kind-type → List ℕ → Result (List ℕ) Refusal-type) → Keeps answer self.old → Keeps answer self.new }
        ensures few { IsFew self.old → IsFew self.new }
    {
        if self.news < PATIENCE || self.news % FEW == 0 {
            return true;
        }
        self.news = self.news.wrapping_add(1);
        false
    }

    /// The text that is kept for a symbol with a mark, if there is one.
    #[inline(always)]
    pub(crate) fn text_of(&self, mark: u32, kind: Kind, symbol: &[u8]) -> Option<&[u8]>
        ensures { (answer : Kind-type → List ℕ → Result (List ℕ) Refusal-type) → Keeps answer self.now → IfSome result (λ text. answer kind symbol.now ≡ Ok text.now) }
    {
        let place = self.places.get(place_of(mark))?;
        if place.mark != tag_of(mark) {
            return None;
        }
        let entry = self.entries.get(place.entry as usize)?;
        if entry.kind != kind {
            return None;
        }
        let at = entry.at as usize;
        let middle = at + entry.symbol as usize;
        if self.bytes.get(at..middle)? != symbol {
            return None;
        }
        self.bytes.get(middle..middle + entry.text as usize)
    }

    /// Notes that a symbol came again.
    #[inline(always)]
    pub(crate) fn came_again(&mut self)
        ensures keeps { (answer : Kind-type → List ℕ → Result (List ℕ) Refusal-type) → Keeps answer self.old → Keeps answer self.new }
        ensures few { IsFew self.old → IsFew self.new }
    {
        self.news = 0;
    }

    /// Takes a symbol that isn't kept, with its text. The symbol is kept if it is likely to come again and there is memory for it.
    #[inline(always)]
    pub(crate) fn take(&mut self, mark: u32, kind: Kind, symbol: &[u8], text: &[u8])
        ensures keeps { (answer : Kind-type → List ℕ → Result (List ℕ) Refusal-type) → Keeps answer self.old → answer kind symbol.now ≡ Ok text.now → Keeps answer self.new }
        ensures few { IsFew self.old → IsFew self.new }
    {
        let place = place_of(mark);
        if place >= self.places.len() {
            self.begin();
            return;
        }
        let comes_again = self.places[place].mark == tag_of(mark);
        self.places[place].mark = tag_of(mark);
        let is_kept = comes_again || self.news < PATIENCE;
        self.news = if comes_again {
            0
        } else {
            self.news.wrapping_add(1)
        };
        if is_kept {
            self.keep(place, kind, symbol, text);
        }
    }

    /// Counts a new symbol, and makes the places if enough have come and there is memory for them.
    #[inline(never)]
    fn begin(&mut self)
        ensures keeps { (answer : Kind-type → List ℕ → Result (List ℕ) Refusal-type) → Keeps answer self.old → Keeps answer self.new }
        ensures few { IsFew self.old → IsFew self.new }
    {
        self.news = self.news.wrapping_add(1);
        if self.news < ENOUGH {
            return;
        }
        let none = Place { mark: 0, entry: 0 };
        if let Ok(places) = vec![in self.alloc; none; PLACES] {
            self.places = places;
        }
    }

    /// Keeps a symbol and its text at a place, if they aren't too long and there is memory for them.
    #[inline(never)]
    fn keep(&mut self, place: usize, kind: Kind, symbol: &[u8], text: &[u8])
        ensures keeps { (answer : Kind-type → List ℕ → Result (List ℕ) Refusal-type) → Keeps answer self.old → answer kind symbol.now ≡ Ok text.now → Keeps answer self.new }
        ensures few { IsFew self.old → IsFew self.new }
    {
        if symbol.len() > LONGEST || text.len() > LONGEST {
            return;
        }
        self.make_room();
        let entry = Entry {
            kind,
            at: self.bytes.len() as u32,
            symbol: symbol.len() as u32,
            text: text.len() as u32,
        };
        if self.bytes.extend_from_slice(symbol).is_err() {
            return;
        }
        if self.bytes.extend_from_slice(text).is_err() {
            return;
        }
        let number = self.entries.len() as u16;
        if self.entries.push(entry).is_err() {
            return;
        }
        if place < self.places.len() {
            self.places[place].entry = number;
        }
    }

    /// Forgets all texts, if their bytes or their entries are too many.
    fn make_room(&mut self)
        ensures few { length self.new.bytes.items ≤ 1_048_576 }
        ensures few_entries { length self.new.entries.items ≤ 8_192 }
        ensures keeps { (answer : Kind-type → List ℕ → Result (List ℕ) Refusal-type) → Keeps answer self.old → Keeps answer self.new }
    {
        if self.bytes.len() <= MOST_KEPT && self.entries.len() <= MOST_ENTRIES {
            return;
        }
        self.entries.clear();
        self.bytes.clear();
    }
}

/// The place of a mark.
#[inline(always)]
fn place_of(mark: u32) -> usize {
    mark as usize % PLACES
}

/// What is noted of a mark at its place.
#[inline(always)]
fn tag_of(mark: u32) -> u16 {
    (mark >> 16) as u16
}
