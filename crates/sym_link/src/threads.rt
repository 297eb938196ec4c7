// A language in which each part has one value, even a part without a row, and something is done before each part.
//
// Such a language says what is done before a part, whatever part that is. Its code need not know of parts without a row: `pass` does what
// precedes each of them, once the rule reaches a part with a row or closes.
//
// Where something is done before a part, or a rule closes, the frame and the parts are those of an open rule (`IsOpenAt`).

ghost use Rattle.std.specs.Prelude.{◌≡◌, ℕ, ◌+◌, ◌-◌, ◌<◌, ◌≤◌, ◌∷◌, ◌++◌, [], List, length, drop, Result, OnOk, OnErr};
ghost use Rattle.sym_core.specs.declared.refusal.Refusal.{Refusal};
ghost use Rattle.sym_link.specs.Machine.{Passed};
ghost use Rattle.sym_link.specs.Driving.{AreAll};
ghost use Rattle.sym_link.specs.Linking.{View, HasRoom, IsOpen, Opens, TakesToken, ClosesRule, Adds, AddsFew, Pays, KeepsRoom, NeedsRoom, TokenNeedsRoom, owed_behind, owed_next};
ghost use Rattle.sym_link.specs.Room.{KeepRoom, OnlyForRoom};
ghost use Rattle.sym_link.specs.Threads.{IsOpenAt, GoesOn, BeginsIn, ClosesAll, IsTaken, IsCount, IsAhead, IsThreading, AddsBefore, Passing, PassesOne, Passes};

use crate::language::Frame;
use sym_core::Refusal;
use sym_shape::rule::Row;

/// A language over the nodes that it has made so far, in which something is done before each part.
pub trait Threading {
    /// What a part of a symbol denotes, in terms of nodes.
    type Part: Copy;

    /// What the language keeps for an open rule, and what holds around its next part.
    type Kept: Copy;

    ghost Value: { Type 0 };

    ghost State: { Type 0 };

    ghost Context: { Type 0 };

    ghost view: { List ℕ → View Self Self.Part Self.Kept Value State Context };

    ghost surrounds: { List ℕ → Self → Self.Kept → Context → Type 0 };

    // what each part without a row is in code
    ghost absent: { Self.Part };

    /// What a part without a row denotes.
    fn nothing(&self) -> Self::Part
        ensures is { result ≡ absent }
        ensures stands { (s : List ℕ) → AreAll ((view s).IsPart self.now) (result ∷ []) (view s).reading.rowless };

    /// What is done before the next part of the frame's rule.
    fn between(
        &mut self,
        symbol: &[u8],
        frame: &Frame<Self::Kept>,
        parts: &mut Vec<Self::Part>,
    ) -> Result<Self::Kept, Refusal>
        requires room { HasRoom (view symbol.now) symbol.now self.old (owed_behind (view symbol.now) frame.now parts.old.items) }
        requires open { IsOpenAt (view symbol.now) symbol.now self.old frame.now parts.old.items }
        requires base { frame.now.base ≤ length parts.old.items }
        ensures goes { GoesOn (view symbol.now) symbol.now (surrounds symbol.now) self.old self.new frame.now parts.old.items parts.new.items result }
        ensures adds { OnOk result (Adds (view symbol.now) self.old self.new (owed_behind (view symbol.now) frame.now parts.old.items) (owed_next (view symbol.now) frame.now parts.new.items)) }
        ensures few { AddsBefore (view symbol.now) self.old self.new frame.now parts.old.items (drop frame.now.base parts.new.items ++ absent ∷ []) result }
        ensures pays { OnOk result ((at : ℕ) → Pays (view symbol.now) self.old self.new at at) }
        ensures count { OnOk result (length parts.new.items ≡ length parts.old.items) }
        ensures keeps { KeepsRoom (view symbol.now) self.old self.new parts.old parts.new }
        ensures full { NeedsRoom (view symbol.now) self.old self.new parts.old parts.new result };

    /// The rule of a row begins, in these surroundings.
    fn begin(
        &mut self,
        symbol: &[u8],
        rows: &[Row],
        context: Self::Kept,
        row: Row,
    ) -> Result<Self::Kept, Refusal>
        requires place { row.from < length symbol.now }
        requires end { row.end ≤ length rows.now }
        ensures begins { BeginsIn (view symbol.now) symbol.now (surrounds symbol.now) rows.now self.old self.new context row result }
        ensures adds { OnOk result (Adds (view symbol.now) self.old self.new 0 0) }
        ensures few { OnErr result ((view symbol.now).size self.new ≤ (view symbol.now).size self.old) }
        ensures pays { OnOk result ((at : ℕ) → Pays (view symbol.now) self.old self.new at at) }
        ensures keeps { KeepRoom ((view symbol.now).lists self.old) ((view symbol.now).lists self.new) }
        ensures full { OnlyForRoom ⊥ ((view symbol.now).lists self.old) ((view symbol.now).lists self.new) result };

    /// The frame's rule closes over all its parts.
    fn finish(
        &mut self,
        symbol: &[u8],
        frame: &Frame<Self::Kept>,
        parts: &mut Vec<Self::Part>,
    ) -> Result<(), Refusal>
        requires room { HasRoom (view symbol.now) symbol.now self.old (owed_behind (view symbol.now) frame.now parts.old.items) }
        requires open { IsOpenAt (view symbol.now) symbol.now self.old frame.now parts.old.items }
        requires base { frame.now.base ≤ length parts.old.items }
        requires place { frame.now.place < length symbol.now }
        ensures closes { ClosesAll (view symbol.now) symbol.now self.old self.new frame.now parts.old.items parts.new.items result }
        ensures adds { OnOk result (Adds (view symbol.now) self.old self.new (owed_behind (view symbol.now) frame.now parts.old.items) 0) }
        ensures few { AddsFew (view symbol.now) self.old self.new frame.now parts.old.items }
        ensures pays { OnOk result ((at : ℕ) → Pays (view symbol.now) self.old self.new at at) }
        ensures keeps { KeepsRoom (view symbol.now) self.old self.new parts.old parts.new }
        ensures full { NeedsRoom (view symbol.now) self.old self.new parts.old parts.new result };

    /// What a token denotes.
    fn text(&mut self, symbol: &[u8], row: Row) -> Result<Self::Part, Refusal>
        requires from { row.from ≤ row.to }
        requires to { row.to ≤ length symbol.now }
        ensures taken { IsTaken (view symbol.now) symbol.now self.old self.new row result }
        ensures adds { OnOk result (Adds (view symbol.now) self.old self.new 0 0) }
        ensures few { OnErr result ((view symbol.now).size self.new ≤ (view symbol.now).size self.old) }
        ensures pays { OnOk result ((at : ℕ) → Pays (view symbol.now) self.old self.new at at) }
        ensures keeps { KeepRoom ((view symbol.now).lists self.old) ((view symbol.now).lists self.new) }
        ensures full { OnlyForRoom ⊥ ((view symbol.now).lists self.old) ((view symbol.now).lists self.new) result };

    /// How many parts the rule with a number has.
    fn count(&self, rule: u16) -> usize
        ensures { (s : List ℕ) → IsCount (view s).table rule result };

    /// How many parts of the rule with a number come before its next part that has a row, once
    /// `held` parts have begun; `after` parts follow that one.
    fn ahead(&self, rule: u16, held: usize, after: u8) -> usize
        ensures { (s : List ℕ) → IsAhead (view s).table rule held after result };

    ghost laws: { (s : List ℕ) → IsThreading (view s) };
}

/// Passes a part of the frame's rule that has no row.
#[inline(always)]
fn pass_one<L: Threading>(
    language: &mut L,
    symbol: &[u8],
    frame: &Frame<L::Kept>,
    parts: &mut Vec<L::Part>,
) -> Result<(), Refusal>
    requires room { HasRoom (L.view symbol.now) symbol.now language.old (owed_behind (L.view symbol.now) frame.now parts.old.items) }
    requires open { IsOpenAt (L.view symbol.now) symbol.now language.old frame.now parts.old.items }
    requires base { frame.now.base ≤ length parts.old.items }
    ensures passing { (lower : List L.Part) (to : ℕ) (whole : Result (Passed L.Value L.State) Refusal)
        → Passing (L.view symbol.now) symbol.now language.old frame.now lower parts.old.items to whole → length parts.old.items - frame.now.base < to
        → PassesOne (L.view symbol.now) symbol.now language.new frame.now lower parts.new.items to whole result }
    ensures open { OnOk result (IsOpenAt (L.view symbol.now) symbol.now language.new frame.now parts.new.items) }
    ensures adds { OnOk result (Adds (L.view symbol.now) language.old language.new (owed_behind (L.view symbol.now) frame.now parts.old.items) (owed_behind (L.view symbol.now) frame.now parts.new.items)) }
    ensures few { AddsBefore (L.view symbol.now) language.old language.new frame.now parts.old.items (drop frame.now.base parts.new.items) result }
    ensures pays { OnOk result ((at : ℕ) → Pays (L.view symbol.now) language.old language.new at at) }
    ensures count { OnOk result (length parts.new.items ≡ length parts.old.items + 1) }
    ensures keeps { KeepsRoom (L.view symbol.now) language.old language.new parts.old parts.new }
    ensures full { NeedsRoom (L.view symbol.now) language.old language.new parts.old parts.new result }
{
    language.between(symbol, frame, parts)?;
    parts.push(language.nothing())?;
    Ok(())
}

/// Passes the parts of the frame's rule that have no row and precede the part with this number.
#[inline(always)]
pub fn pass<L: Threading>(
    language: &mut L,
    symbol: &[u8],
    frame: &Frame<L::Kept>,
    parts: &mut Vec<L::Part>,
    to: usize,
) -> Result<(), Refusal>
    requires room { HasRoom (L.view symbol.now) symbol.now language.old (owed_behind (L.view symbol.now) frame.now parts.old.items) }
    requires open { IsOpenAt (L.view symbol.now) symbol.now language.old frame.now parts.old.items }
    requires base { frame.now.base ≤ length parts.old.items }
    ensures passes { (lower : List L.Part) (whole : Result (Passed L.Value L.State) Refusal)
        → Passing (L.view symbol.now) symbol.now language.old frame.now lower parts.old.items to whole
        → Passes (L.view symbol.now) language.new frame.now lower parts.new.items result whole }
    ensures open { OnOk result (IsOpenAt (L.view symbol.now) symbol.now language.new frame.now parts.new.items) }
    ensures adds { OnOk result (Adds (L.view symbol.now) language.old language.new (owed_behind (L.view symbol.now) frame.now parts.old.items) (owed_behind (L.view symbol.now) frame.now parts.new.items)) }
    ensures few { AddsBefore (L.view symbol.now) language.old language.new frame.now parts.old.items (drop frame.now.base parts.new.items) result }
    ensures pays { OnOk result ((at : ℕ) → Pays (L.view symbol.now) language.old language.new at at) }
    ensures base { OnOk result (frame.now.base ≤ length parts.new.items) }
    ensures keeps { KeepsRoom (L.view symbol.now) language.old language.new parts.old parts.new }
    ensures full { NeedsRoom (L.view symbol.now) language.old language.new parts.old parts.new result }
{
    'parts: while parts.len() - frame.base < to {
        pass_one(language, symbol, frame, parts)?;
    }
    Ok(())
}

/// A rule begins in the frame's rule.
pub fn enter_by<L: Threading>(
    language: &mut L,
    symbol: &[u8],
    rows: &[Row],
    frame: &Frame<L::Kept>,
    parts: &mut Vec<L::Part>,
    row: Row,
) -> Result<L::Kept, Refusal>
    requires room { HasRoom (L.view symbol.now) symbol.now language.old (owed_behind (L.view symbol.now) frame.now parts.old.items) }
    requires open { IsOpen (L.view symbol.now) symbol.now language.old frame.now parts.old.items }
    requires base { frame.now.base ≤ length parts.old.items }
    requires place { row.from < length symbol.now }
    requires end { row.end ≤ length rows.now }
    ensures opens { Opens (L.view symbol.now) symbol.now rows.now language.old language.new frame.now parts.old.items parts.new.items row result }
    ensures adds { OnOk result (Adds (L.view symbol.now) language.old language.new (owed_behind (L.view symbol.now) frame.now parts.old.items) (owed_next (L.view symbol.now) frame.now parts.new.items)) }
    ensures few { OnErr result (AddsFew (L.view symbol.now) language.old language.new frame.now parts.old.items) }
    ensures pays { OnOk result ((at : ℕ) → at ≤ row.from → Pays (L.view symbol.now) language.old language.new at row.from) }
    ensures keeps { KeepsRoom (L.view symbol.now) language.old language.new parts.old parts.new }
    ensures full { NeedsRoom (L.view symbol.now) language.old language.new parts.old parts.new result }
{
    let to = language.ahead(frame.rule, parts.len() - frame.base, row.after);
    pass(language, symbol, frame, parts, to)?;
    let context = language.between(symbol, frame, parts)?;
    let kept = language.begin(symbol, rows, context, row)?;
    Ok(kept)
}

/// The frame's rule closes: what it means takes the place of its parts.
#[inline(always)]
pub fn close_by<L: Threading>(
    language: &mut L,
    symbol: &[u8],
    frame: &Frame<L::Kept>,
    parts: &mut Vec<L::Part>,
) -> Result<(), Refusal>
    requires room { HasRoom (L.view symbol.now) symbol.now language.old (owed_behind (L.view symbol.now) frame.now parts.old.items) }
    requires open { IsOpen (L.view symbol.now) symbol.now language.old frame.now parts.old.items }
    requires base { frame.now.base ≤ length parts.old.items }
    requires place { frame.now.place < length symbol.now }
    ensures closes { ClosesRule (L.view symbol.now) symbol.now language.old language.new frame.now parts.old.items parts.new.items result }
    ensures adds { OnOk result (Adds (L.view symbol.now) language.old language.new (owed_behind (L.view symbol.now) frame.now parts.old.items) 0) }
    ensures few { AddsFew (L.view symbol.now) language.old language.new frame.now parts.old.items }
    ensures pays { OnOk result ((at : ℕ) → Pays (L.view symbol.now) language.old language.new at at) }
    ensures keeps { KeepsRoom (L.view symbol.now) language.old language.new parts.old parts.new }
    ensures full { NeedsRoom (L.view symbol.now) language.old language.new parts.old parts.new result }
{
    let to = language.count(frame.rule);
    pass(language, symbol, frame, parts, to)?;
    language.finish(symbol, frame, parts)?;
    Ok(())
}

/// A token is taken in the frame's rule.
pub fn token_by<L: Threading>(
    language: &mut L,
    symbol: &[u8],
    frame: &Frame<L::Kept>,
    parts: &mut Vec<L::Part>,
    row: Row,
) -> Result<(), Refusal>
    requires room { HasRoom (L.view symbol.now) symbol.now language.old (owed_behind (L.view symbol.now) frame.now parts.old.items) }
    requires open { IsOpen (L.view symbol.now) symbol.now language.old frame.now parts.old.items }
    requires base { frame.now.base ≤ length parts.old.items }
    requires from { row.from ≤ row.to }
    requires to { row.to ≤ length symbol.now }
    ensures takes { TakesToken (L.view symbol.now) symbol.now language.old language.new frame.now parts.old.items parts.new.items row result }
    ensures adds { OnOk result (Adds (L.view symbol.now) language.old language.new (owed_behind (L.view symbol.now) frame.now parts.old.items) (owed_behind (L.view symbol.now) frame.now parts.new.items)) }
    ensures few { OnErr result (AddsFew (L.view symbol.now) language.old language.new frame.now parts.old.items) }
    ensures pays { OnOk result ((at : ℕ) → at ≤ row.from → Pays (L.view symbol.now) language.old language.new at row.to) }
    ensures keeps { KeepsRoom (L.view symbol.now) language.old language.new parts.old parts.new }
    ensures full { TokenNeedsRoom (L.view symbol.now) symbol.now language.old language.new frame.now parts.old parts.new row result }
{
    let to = language.ahead(frame.rule, parts.len() - frame.base, row.after);
    pass(language, symbol, frame, parts, to)?;
    language.between(symbol, frame, parts)?;
    let part = language.text(symbol, row)?;
    parts.push(part)?;
    Ok(())
}
