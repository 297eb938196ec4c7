// The moments at which the driver calls C++'s language: at the root, where a rule opens, where a
// token is taken, and where a rule closes. Something is done before each part, even one without a
// row (`Threading`).

ghost use Rattle.std.specs.Prelude.{◌≡◌, ℕ, ◌<◌, ◌≤◌, ◌∷◌, ◌++◌, [], List, length, drop, OnOk, OnErr};
ghost use Rattle.sym_link.specs.Driving.{AreAll};
ghost use Rattle.sym_link.specs.Linking.{HasRoom, IsOpen, OpensRoot, Opens, TakesToken, ClosesRule, Adds, AddsFew, Pays, KeepsRoom, NeedsRoom, TokenNeedsRoom, owed_behind, owed_next};
ghost use Rattle.sym_link.specs.Room.{KeepRoom, OnlyForRoom};
ghost use Rattle.sym_link.specs.Tally.{Tally};
ghost use Rattle.sym_link.specs.Threads.{IsOpenAt, GoesOn, BeginsIn, ClosesAll, IsTaken, IsCount, IsAhead, AddsBefore};
ghost use Rattle.cpp_link.specs.declared.part.Part.TheVariants as variants;
ghost use Rattle.cpp_term.specs.Values.{Value, State, Around};
ghost use Rattle.cpp_link.specs.View.{Surrounds};
ghost use Rattle.cpp_link.specs.NodeCount.{cpp_counted};
ghost use Rattle.cpp_link.specs.ViewLaws.{counted_laws, counted_threads};

use crate::dispatch::{part_count, parts_ahead};
use crate::linked::Linked;
use crate::part::{Naming, Part, Scope, Surroundings};
use sym_core::Refusal;
use sym_link::language::{Frame, Linking};
use sym_link::threads::{Threading, close_by, enter_by, token_by};
use sym_shape::rule::Row;

/// What surrounds a whole symbol.
pub(crate) const OUTSIDE: Surroundings = Surroundings {
    arguments: 0,
    encoding: 0,
    name: 0,
    pack_length: 0,
    scope: Scope::Nothing,
    naming: Naming::Outermost,
    in_expansion: false,
    has_packs: false,
};

impl Threading for Linked {
    type Part = Part;

    type Kept = Surroundings;

    ghost Value = { Value };

    ghost State = { Tally State };

    ghost Context = { Around };

    ghost view = { cpp_counted };

    ghost surrounds = { Surrounds };

    ghost absent = { variants.Nothing };

    fn nothing(&self) -> Part
        ensures is { result ≡ variants.Nothing }
        ensures stands { (s : List ℕ) → AreAll ((cpp_counted s).IsPart self.now) (result ∷ []) (cpp_counted s).reading.rowless }
    {
        Part::Nothing
    }

    fn between(
        &mut self,
        symbol: &[u8],
        frame: &Frame<Surroundings>,
        parts: &mut Vec<Part>,
    ) -> Result<Surroundings, Refusal>
        requires room { HasRoom (cpp_counted symbol.now) symbol.now self.old (owed_behind (cpp_counted symbol.now) frame.now parts.old.items) }
        requires open { IsOpenAt (cpp_counted symbol.now) symbol.now self.old frame.now parts.old.items }
        requires base { frame.now.base ≤ length parts.old.items }
        ensures goes { GoesOn (cpp_counted symbol.now) symbol.now (Surrounds symbol.now) self.old self.new frame.now parts.old.items parts.new.items result }
        ensures adds { OnOk result (Adds (cpp_counted symbol.now) self.old self.new (owed_behind (cpp_counted symbol.now) frame.now parts.old.items) (owed_next (cpp_counted symbol.now) frame.now parts.new.items)) }
        ensures few { AddsBefore (cpp_counted symbol.now) self.old self.new frame.now parts.old.items (drop frame.now.base parts.new.items ++ variants.Nothing ∷ []) result }
        ensures pays { OnOk result ((at : ℕ) → Pays (cpp_counted symbol.now) self.old self.new at at) }
        ensures count { OnOk result (length parts.new.items ≡ length parts.old.items) }
        ensures keeps { KeepsRoom (cpp_counted symbol.now) self.old self.new parts.old parts.new }
        ensures full { NeedsRoom (cpp_counted symbol.now) self.old self.new parts.old parts.new result }
    {
        self.before_part(symbol, frame, parts)
    }

    fn begin(
        &mut self,
        symbol: &[u8],
        rows: &[Row],
        context: Surroundings,
        row: Row,
    ) -> Result<Surroundings, Refusal>
        requires place { row.from < length symbol.now }
        requires end { row.end ≤ length rows.now }
        ensures begins { BeginsIn (cpp_counted symbol.now) symbol.now (Surrounds symbol.now) rows.now self.old self.new context row result }
        ensures adds { OnOk result (Adds (cpp_counted symbol.now) self.old self.new 0 0) }
        ensures few { OnErr result ((cpp_counted symbol.now).size self.new ≤ (cpp_counted symbol.now).size self.old) }
        ensures pays { OnOk result ((at : ℕ) → Pays (cpp_counted symbol.now) self.old self.new at at) }
        ensures keeps { KeepRoom ((cpp_counted symbol.now).lists self.old) ((cpp_counted symbol.now).lists self.new) }
        ensures full { OnlyForRoom ⊥ ((cpp_counted symbol.now).lists self.old) ((cpp_counted symbol.now).lists self.new) result }
    {
        self.begin_rule(symbol, rows, context, row)
    }

    #[inline(always)]
    fn finish(
        &mut self,
        symbol: &[u8],
        frame: &Frame<Surroundings>,
        parts: &mut Vec<Part>,
    ) -> Result<(), Refusal>
        requires room { HasRoom (cpp_counted symbol.now) symbol.now self.old (owed_behind (cpp_counted symbol.now) frame.now parts.old.items) }
        requires open { IsOpenAt (cpp_counted symbol.now) symbol.now self.old frame.now parts.old.items }
        requires base { frame.now.base ≤ length parts.old.items }
        requires place { frame.now.place < length symbol.now }
        ensures closes { ClosesAll (cpp_counted symbol.now) symbol.now self.old self.new frame.now parts.old.items parts.new.items result }
        ensures adds { OnOk result (Adds (cpp_counted symbol.now) self.old self.new (owed_behind (cpp_counted symbol.now) frame.now parts.old.items) 0) }
        ensures few { AddsFew (cpp_counted symbol.now) self.old self.new frame.now parts.old.items }
        ensures pays { OnOk result ((at : ℕ) → Pays (cpp_counted symbol.now) self.old self.new at at) }
        ensures keeps { KeepsRoom (cpp_counted symbol.now) self.old self.new parts.old parts.new }
        ensures full { NeedsRoom (cpp_counted symbol.now) self.old self.new parts.old parts.new result }
    {
        self.finish_rule(symbol, frame, parts)
    }

    fn text(&mut self, symbol: &[u8], row: Row) -> Result<Part, Refusal>
        requires from { row.from ≤ row.to }
        requires to { row.to ≤ length symbol.now }
        ensures taken { IsTaken (cpp_counted symbol.now) symbol.now self.old self.new row result }
        ensures adds { OnOk result (Adds (cpp_counted symbol.now) self.old self.new 0 0) }
        ensures few { OnErr result ((cpp_counted symbol.now).size self.new ≤ (cpp_counted symbol.now).size self.old) }
        ensures pays { OnOk result ((at : ℕ) → Pays (cpp_counted symbol.now) self.old self.new at at) }
        ensures keeps { KeepRoom ((cpp_counted symbol.now).lists self.old) ((cpp_counted symbol.now).lists self.new) }
        ensures full { OnlyForRoom ⊥ ((cpp_counted symbol.now).lists self.old) ((cpp_counted symbol.now).lists self.new) result }
    {
        Ok(self.text_at(symbol, row))
    }

    fn count(&self, rule: u16) -> usize
        ensures { (s : List ℕ) → IsCount (cpp_counted s).table rule result }
    {
        part_count(rule)
    }

    #[inline(always)]
    fn ahead(&self, rule: u16, held: usize, after: u8) -> usize
        ensures { (s : List ℕ) → IsAhead (cpp_counted s).table rule held after result }
    {
        parts_ahead(rule, held, after)
    }

    ghost laws = { counted_threads };
}

impl Linking for Linked {
    type Part = Part;

    type Kept = Surroundings;

    ghost Value = { Value };

    ghost State = { Tally State };

    ghost Context = { Around };

    ghost view = { cpp_counted };

    fn root(&mut self, symbol: &[u8], _rows: &[Row], _row: Row) -> Result<Surroundings, Refusal>
        requires room { HasRoom (cpp_counted symbol.now) symbol.now self.old 0 }
        requires end { _row.end ≤ length _rows.now }
        ensures opens { OpensRoot (cpp_counted symbol.now) symbol.now _rows.now self.old self.new _row result }
        ensures adds { OnOk result (Adds (cpp_counted symbol.now) self.old self.new 0 0) }
        ensures few { OnErr result ((cpp_counted symbol.now).size self.new ≤ (cpp_counted symbol.now).size self.old) }
        ensures pays { OnOk result (Pays (cpp_counted symbol.now) self.old self.new 0 0) }
        ensures keeps { KeepRoom ((cpp_counted symbol.now).lists self.old) ((cpp_counted symbol.now).lists self.new) }
        ensures full { OnlyForRoom ⊥ ((cpp_counted symbol.now).lists self.old) ((cpp_counted symbol.now).lists self.new) result }
    {
        Ok(OUTSIDE)
    }

    fn enter(
        &mut self,
        symbol: &[u8],
        rows: &[Row],
        frame: &Frame<Surroundings>,
        parts: &mut Vec<Part>,
        row: Row,
    ) -> Result<Surroundings, Refusal>
        requires room { HasRoom (cpp_counted symbol.now) symbol.now self.old (owed_behind (cpp_counted symbol.now) frame.now parts.old.items) }
        requires open { IsOpen (cpp_counted symbol.now) symbol.now self.old frame.now parts.old.items }
        requires base { frame.now.base ≤ length parts.old.items }
        requires place { row.from < length symbol.now }
        requires end { row.end ≤ length rows.now }
        ensures opens { Opens (cpp_counted symbol.now) symbol.now rows.now self.old self.new frame.now parts.old.items parts.new.items row result }
        ensures adds { OnOk result (Adds (cpp_counted symbol.now) self.old self.new (owed_behind (cpp_counted symbol.now) frame.now parts.old.items) (owed_next (cpp_counted symbol.now) frame.now parts.new.items)) }
        ensures few { OnErr result (AddsFew (cpp_counted symbol.now) self.old self.new frame.now parts.old.items) }
        ensures pays { OnOk result ((at : ℕ) → at ≤ row.from → Pays (cpp_counted symbol.now) self.old self.new at row.from) }
        ensures keeps { KeepsRoom (cpp_counted symbol.now) self.old self.new parts.old parts.new }
        ensures full { NeedsRoom (cpp_counted symbol.now) self.old self.new parts.old parts.new result }
    {
        enter_by(self, symbol, rows, frame, parts, row)
    }

    #[inline(always)]
    fn token(
        &mut self,
        symbol: &[u8],
        frame: &Frame<Surroundings>,
        parts: &mut Vec<Part>,
        row: Row,
    ) -> Result<(), Refusal>
        requires room { HasRoom (cpp_counted symbol.now) symbol.now self.old (owed_behind (cpp_counted symbol.now) frame.now parts.old.items) }
        requires open { IsOpen (cpp_counted symbol.now) symbol.now self.old frame.now parts.old.items }
        requires base { frame.now.base ≤ length parts.old.items }
        requires from { row.from ≤ row.to }
        requires to { row.to ≤ length symbol.now }
        ensures takes { TakesToken (cpp_counted symbol.now) symbol.now self.old self.new frame.now parts.old.items parts.new.items row result }
        ensures adds { OnOk result (Adds (cpp_counted symbol.now) self.old self.new (owed_behind (cpp_counted symbol.now) frame.now parts.old.items) (owed_behind (cpp_counted symbol.now) frame.now parts.new.items)) }
        ensures few { OnErr result (AddsFew (cpp_counted symbol.now) self.old self.new frame.now parts.old.items) }
        ensures pays { OnOk result ((at : ℕ) → at ≤ row.from → (length parts.old.items ≡ frame.now.base → at ≤ frame.now.place)
            → Pays (cpp_counted symbol.now) self.old self.new at row.to) }
        ensures keeps { KeepsRoom (cpp_counted symbol.now) self.old self.new parts.old parts.new }
        ensures full { TokenNeedsRoom (cpp_counted symbol.now) symbol.now self.old self.new frame.now parts.old parts.new row result }
    {
        token_by(self, symbol, frame, parts, row)?;
        Ok(())
    }

    #[inline(always)]
    fn close(
        &mut self,
        symbol: &[u8],
        frame: &Frame<Surroundings>,
        parts: &mut Vec<Part>,
    ) -> Result<(), Refusal>
        requires room { HasRoom (cpp_counted symbol.now) symbol.now self.old (owed_behind (cpp_counted symbol.now) frame.now parts.old.items) }
        requires open { IsOpen (cpp_counted symbol.now) symbol.now self.old frame.now parts.old.items }
        requires base { frame.now.base ≤ length parts.old.items }
        requires place { frame.now.place < length symbol.now }
        ensures closes { ClosesRule (cpp_counted symbol.now) symbol.now self.old self.new frame.now parts.old.items parts.new.items result }
        ensures adds { OnOk result (Adds (cpp_counted symbol.now) self.old self.new (owed_behind (cpp_counted symbol.now) frame.now parts.old.items) 0) }
        ensures few { AddsFew (cpp_counted symbol.now) self.old self.new frame.now parts.old.items }
        ensures pays { OnOk result ((at : ℕ) → Pays (cpp_counted symbol.now) self.old self.new at at) }
        ensures keeps { KeepsRoom (cpp_counted symbol.now) self.old self.new parts.old parts.new }
        ensures full { NeedsRoom (cpp_counted symbol.now) self.old self.new parts.old parts.new result }
    {
        close_by(self, symbol, frame, parts)
    }

    ghost laws = { counted_laws };
}
