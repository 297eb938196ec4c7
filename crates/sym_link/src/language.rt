// What a language gives the driver.
//
// A language has a reading (`specs/Reading.antt`), which says what a tree means with no word of rows, frames or nodes. The driver goes over
// the rows, and the language makes nodes at four moments: the root begins, a rule begins in another one, a token is taken, and a rule
// closes. An instance gives a `view` (`specs/Linking.antt`), and shows the following of each moment (`opens`, `takes`, `closes`). Before
// the call, the frame, the parts after `frame.base` and the nodes denote an open rule of the reading, the values of its parts so far and
// the state. After the call they denote what the reading says, or the refusal is the reading's. A refusal for want of memory says nothing
// of the symbol.
//
// - At each moment except the root's, a rule is open at the frame (`IsOpen`), so the language may go by what the frame and its parts
//   denote.
// - The premises of a moment are one record, `IsInside`. A language that gives no value to parts
//   without a row uses only its `kept`, `parts`, `holds` and `place`. For a language by meaning
//   (`specs/Cases.antt`), `plain_next` and `plain_ended` in `proofs/Cases.antt` reduce the
//   reading's side to the inputs of the next part, and to what the rule means. For a language that
//   needs to know, `stands` says which rule of the grammar is open and which parts this rule has
//   passed.
// - `adds`: the nodes are the old ones and at most n more. `Grows` is what must be kept, so that parts and frames denote what
//   they denoted (the laws `part_stays`, `kept_stays`). `few`: the same holds of a call that is refused. With the laws `two`
//   and `two_at_once` a step of the driver adds at most two nodes.
// - `pays`: what the language writes beside its nodes is paid for by bytes of the symbol. So far the bytes up to `at` have paid, and no
//   row lies after `at`. A token adds the bytes from `at` up to its end; if the token is the first part of its rule with a row, `at` is no
//   later than the rule (the frame then has no parts, if parts without a row have no value). Before each call the bytes of the whole symbol
//   have paid (`room`), so `IsPaid` may hold other invariants, too.
// - `full`: `Memory` is answered only where a list, the language's or that of the parts, had no room for what was put on it
//   (`lists`), or for a token that takes memory of its own (`TakesMemory`). With `keeps` this persists over calls.
// - `laws`: see `IsLinking`.
//
// An impl writes the clauses of its methods out, with its own view in the place of `view`.

ghost use Rattle.std.specs.Prelude.{◌≡◌, ℕ, ◌<◌, ◌≤◌, List, length, OnOk, OnErr};
ghost use Rattle.sym_link.specs.Linking.{View, IsLinking, HasRoom, IsOpen, OpensRoot, Opens, TakesToken, ClosesRule, Adds, AddsFew, Pays, KeepsRoom, NeedsRoom, TokenNeedsRoom, owed_behind, owed_next};
ghost use Rattle.sym_link.specs.Room.{KeepRoom, OnlyForRoom};

use sym_core::Refusal;
use sym_shape::rule::Row;

/// An open rule: where its parts begin, its place, the row after it, what the language keeps for it, and its number.
///
/// The moments of a language take the frame by reference. When the frame was passed by value, it
/// was taken apart and put together again at each call, which took 8 % of the instructions over
/// real C++ symbols. The frame's fields leave no gap in memory if the fields of what is kept leave
/// none: the frame has 40 bytes for C++.
#[derive(Clone, Copy, Debug, PartialEq, Eq)]
pub struct Frame<K> {
    pub base: usize,
    pub place: u32,
    pub end: u32,
    pub kept: K,
    pub rule: u16,
}

/// A language over the nodes that it has made so far.
pub trait Linking {
    /// What a part of a symbol denotes, in terms of nodes.
    type Part: Copy;

    /// What the language keeps for an open rule.
    type Kept: Copy;

    ghost Value: { Type 0 };

    ghost State: { Type 0 };

    ghost Context: { Type 0 };

    /// How the nodes correspond to what the language's reading says, in a symbol.
    ghost view: { List ℕ → View Self Self.Part Self.Kept Value State Context };

    /// The rule of the whole symbol begins.
    fn root(&mut self, symbol: &[u8], rows: &[Row], row: Row) -> Result<Self::Kept, Refusal>
        requires room { HasRoom (view symbol.now) symbol.now self.old 0 }
        requires end { row.end ≤ length rows.now }
        ensures opens { OpensRoot (view symbol.now) symbol.now rows.now self.old self.new row result }
        ensures adds { OnOk result (Adds (view symbol.now) self.old self.new 0 0) }
        ensures few { OnErr result ((view symbol.now).size self.new ≤ (view symbol.now).size self.old) }
        ensures pays { OnOk result (Pays (view symbol.now) self.old self.new 0 0) }
        ensures keeps { KeepRoom ((view symbol.now).lists self.old) ((view symbol.now).lists self.new) }
        ensures full { OnlyForRoom ⊥ ((view symbol.now).lists self.old) ((view symbol.now).lists self.new) result };

    /// A rule begins in the frame's rule.
    fn enter(
        &mut self,
        symbol: &[u8],
        rows: &[Row],
        frame: &Frame<Self::Kept>,
        parts: &mut Vec<Self::Part>,
        row: Row,
    ) -> Result<Self::Kept, Refusal>
        requires room { HasRoom (view symbol.now) symbol.now self.old (owed_behind (view symbol.now) frame.now parts.old.items) }
        requires open { IsOpen (view symbol.now) symbol.now self.old frame.now parts.old.items }
        requires base { frame.now.base ≤ length parts.old.items }
        requires place { row.from < length symbol.now }
        requires end { row.end ≤ length rows.now }
        ensures opens { Opens (view symbol.now) symbol.now rows.now self.old self.new frame.now parts.old.items parts.new.items row result }
        ensures adds { OnOk result (Adds (view symbol.now) self.old self.new (owed_behind (view symbol.now) frame.now parts.old.items) (owed_next (view symbol.now) frame.now parts.new.items)) }
        ensures few { OnErr result (AddsFew (view symbol.now) self.old self.new frame.now parts.old.items) }
        ensures pays { OnOk result ((at : ℕ) → at ≤ row.from → Pays (view symbol.now) self.old self.new at row.from) }
        ensures keeps { KeepsRoom (view symbol.now) self.old self.new parts.old parts.new }
        ensures full { NeedsRoom (view symbol.now) self.old self.new parts.old parts.new result };

    /// A token is taken in the frame's rule.
    fn token(
        &mut self,
        symbol: &[u8],
        frame: &Frame<Self::Kept>,
        parts: &mut Vec<Self::Part>,
        row: Row,
    ) -> Result<(), Refusal>
        requires room { HasRoom (view symbol.now) symbol.now self.old (owed_behind (view symbol.now) frame.now parts.old.items) }
        requires open { IsOpen (view symbol.now) symbol.now self.old frame.now parts.old.items }
        requires base { frame.now.base ≤ length parts.old.items }
        requires from { row.from ≤ row.to }
        requires to { row.to ≤ length symbol.now }
        ensures takes { TakesToken (view symbol.now) symbol.now self.old self.new frame.now parts.old.items parts.new.items row result }
        ensures adds { OnOk result (Adds (view symbol.now) self.old self.new (owed_behind (view symbol.now) frame.now parts.old.items) (owed_behind (view symbol.now) frame.now parts.new.items)) }
        ensures few { OnErr result (AddsFew (view symbol.now) self.old self.new frame.now parts.old.items) }
        ensures pays { OnOk result ((at : ℕ) → at ≤ row.from → (length parts.old.items ≡ frame.now.base → at ≤ frame.now.place)
            → Pays (view symbol.now) self.old self.new at row.to) }
        ensures keeps { KeepsRoom (view symbol.now) self.old self.new parts.old parts.new }
        ensures full { TokenNeedsRoom (view symbol.now) symbol.now self.old self.new frame.now parts.old parts.new row result };

    /// The frame's rule closes: what it means takes the place of its parts.
    fn close(
        &mut self,
        symbol: &[u8],
        frame: &Frame<Self::Kept>,
        parts: &mut Vec<Self::Part>,
    ) -> Result<(), Refusal>
        requires room { HasRoom (view symbol.now) symbol.now self.old (owed_behind (view symbol.now) frame.now parts.old.items) }
        requires open { IsOpen (view symbol.now) symbol.now self.old frame.now parts.old.items }
        requires base { frame.now.base ≤ length parts.old.items }
        requires place { frame.now.place < length symbol.now }
        ensures closes { ClosesRule (view symbol.now) symbol.now self.old self.new frame.now parts.old.items parts.new.items result }
        ensures adds { OnOk result (Adds (view symbol.now) self.old self.new (owed_behind (view symbol.now) frame.now parts.old.items) 0) }
        ensures few { AddsFew (view symbol.now) self.old self.new frame.now parts.old.items }
        ensures pays { OnOk result ((at : ℕ) → Pays (view symbol.now) self.old self.new at at) }
        ensures keeps { KeepsRoom (view symbol.now) self.old self.new parts.old parts.new }
        ensures full { NeedsRoom (view symbol.now) self.old self.new parts.old parts.new result };

    ghost laws: { (s : List ℕ) → IsLinking (view s) };
}
