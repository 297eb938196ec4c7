// The moments at which the driver calls C++'s language by the wide grammar. At each of them the same is done as by the ABI's grammar,
// except for lambdas, the parameters of their signatures, names with an `M`, substitutions, and encodings of literals in constraints.

ghost use Rattle.std.specs.Prelude.{◌≡◌, ℕ, ◌<◌, ◌≤◌, ◌∷◌, ◌++◌, [], List, length, drop, OnOk, OnErr};
ghost use Rattle.sym_link.specs.Driving.{AreAll};
ghost use Rattle.sym_link.specs.Linking.{HasRoom, IsOpen, OpensRoot, Opens, TakesToken, ClosesRule, Adds, AddsFew, Pays, KeepsRoom, NeedsRoom, TokenNeedsRoom, owed_behind, owed_next};
ghost use Rattle.sym_link.specs.Room.{KeepRoom, OnlyForRoom};
ghost use Rattle.sym_link.specs.Tally.{Tally};
ghost use Rattle.sym_link.specs.Threads.{IsOpenAt, GoesOn, BeginsIn, ClosesAll, IsTaken, IsCount, IsAhead, AddsBefore};
ghost use Rattle.cpp_grammar.specs.declared.production.Production.TheVariants as productions;
ghost use Rattle.cpp_grammar.specs.Unfolding.{production_at};
ghost use Rattle.cpp_link.specs.declared.part.Part.TheVariants as variants;
ghost use Rattle.cpp_term.specs.Values.{Value, State, Around};
ghost use Rattle.cpp_link.specs.Parts.{is_lambda};
ghost use Rattle.cpp_link.specs.View.{Surrounds};
ghost use Rattle.cpp_link.specs.LinkRescoping.{steps_apart, wide_counted};
ghost use Rattle.cpp_link.specs.RescopingLaws.{wide_laws, wide_threads};
ghost use Rattle.cpp_link.specs.declared.rescoping.Rescoping.{Rescoping};

use crate::between::quiet_parts;
use crate::dispatch::{part_count, parts_ahead, production_of};
use crate::language::OUTSIDE;
use crate::part::{Part, Surroundings};
use crate::rescoping::Rescoping;
use cpp_grammar::production::Production;
use sym_core::Refusal;
use sym_link::language::{Frame, Linking};
use sym_link::threads::{Threading, close_by, enter_by, token_by};
use sym_shape::rule::Row;

/// Whether the wide reading does something of its own before the part after n others.
#[tactic(auto, unfolding(crate::specs::LinkRescoping::steps_apart))]
#[inline(always)]
fn steps_apart(production: Production, kept: Surroundings, before: usize) -> bool
    ensures { result ≡ steps_apart production (is_lambda kept.scope) before }
{
    match production {
        Production::Parameter => kept.in_lambda() && before == 1,
        Production::NestParameter => kept.in_lambda() && before == 1,
        Production::ParameterArgument => kept.in_lambda() && before == 1,
        Production::ParameterExpression => kept.in_lambda() && before == 1,
        Production::Holder => before == 1,
        Production::HeldArguments => before == 0,
        Production::NamedModule => before == 1,
        Production::DeclaredFirst => before == 0,
        Production::Constraint => before == 0,
        Production::EncodingLiteral => kept.in_lambda() && before == 1,
        Production::Encoding => kept.in_lambda() && before < 2,
        _ => false,
    }
}

impl Rescoping {
    /// Does what is to be done before the next part of the frame's rule, which is of this
    /// production, even if only the wide reading does it. Answers the surroundings of that part.
    ///
    /// # Errors
    ///
    /// The errors of `before_part`.
    #[inline(always)]
    fn between_apart(
        &mut self,
        symbol: &[u8],
        production: Production,
        frame: &Frame<Surroundings>,
        parts: &mut Vec<Part>,
    ) -> Result<Surroundings, Refusal>
        requires numbered { production ≡ production_at frame.now.rule }
        requires room { HasRoom (wide_counted symbol.now) symbol.now self.old (owed_behind (wide_counted symbol.now) frame.now parts.old.items) }
        requires open { IsOpenAt (wide_counted symbol.now) symbol.now self.old frame.now parts.old.items }
        requires base { frame.now.base ≤ length parts.old.items }
        ensures goes { GoesOn (wide_counted symbol.now) symbol.now (λ l. Surrounds symbol.now l.linked) self.old self.new frame.now parts.old.items parts.new.items result }
        ensures adds { OnOk result (Adds (wide_counted symbol.now) self.old self.new (owed_behind (wide_counted symbol.now) frame.now parts.old.items) (owed_next (wide_counted symbol.now) frame.now parts.new.items)) }
        ensures few { AddsBefore (wide_counted symbol.now) self.old self.new frame.now parts.old.items (drop frame.now.base parts.new.items ++ variants.Nothing ∷ []) result }
        ensures pays { OnOk result ((at : ℕ) → Pays (wide_counted symbol.now) self.old self.new at at) }
        ensures count { OnOk result (length parts.new.items ≡ length parts.old.items) }
        ensures keeps { KeepsRoom (wide_counted symbol.now) self.old self.new parts.old parts.new }
        ensures full { NeedsRoom (wide_counted symbol.now) self.old self.new parts.old parts.new result }
    {
        if steps_apart(production, frame.kept, parts.len() - frame.base) {
            return match self.linked.before_apart(symbol, frame, parts) {
                Ok(then) => Ok(then),
                Err(refusal) => Err(refusal),
            };
        }
        match self.linked.before_rare(symbol, production, frame, parts) {
            Ok(then) => Ok(then),
            Err(refusal) => Err(refusal),
        }
    }

    /// Does what is to be done before the next part of the frame's rule, if there is anything, and
    /// answers the surroundings of that part. The common productions have code of their own.
    ///
    /// # Errors
    ///
    /// The errors of `before_part`.
    // This function is called, with all that it does inlined in it, so that the driver's loop stays
    // small. It repeats the common productions, so that productions are told apart only once.
    #[inline(never)]
    fn between_by_step(
        &mut self,
        symbol: &[u8],
        frame: &Frame<Surroundings>,
        parts: &mut Vec<Part>,
    ) -> Result<Surroundings, Refusal>
        requires room { HasRoom (wide_counted symbol.now) symbol.now self.old (owed_behind (wide_counted symbol.now) frame.now parts.old.items) }
        requires open { IsOpenAt (wide_counted symbol.now) symbol.now self.old frame.now parts.old.items }
        requires base { frame.now.base ≤ length parts.old.items }
        ensures goes { GoesOn (wide_counted symbol.now) symbol.now (λ l. Surrounds symbol.now l.linked) self.old self.new frame.now parts.old.items parts.new.items result }
        ensures adds { OnOk result (Adds (wide_counted symbol.now) self.old self.new (owed_behind (wide_counted symbol.now) frame.now parts.old.items) (owed_next (wide_counted symbol.now) frame.now parts.new.items)) }
        ensures few { AddsBefore (wide_counted symbol.now) self.old self.new frame.now parts.old.items (drop frame.now.base parts.new.items ++ variants.Nothing ∷ []) result }
        ensures pays { OnOk result ((at : ℕ) → Pays (wide_counted symbol.now) self.old self.new at at) }
        ensures count { OnOk result (length parts.new.items ≡ length parts.old.items) }
        ensures keeps { KeepsRoom (wide_counted symbol.now) self.old self.new parts.old parts.new }
        ensures full { NeedsRoom (wide_counted symbol.now) self.old self.new parts.old parts.new result }
    {
        let production = production_of(frame.rule);
        match production {
            Production::Encoding => {
                if frame.kept.in_lambda() {
                    return self.between_apart(symbol, production, frame, parts);
                }
                self.linked
                    .before_as(symbol, Production::Encoding, frame, parts)
            }
            // Generated by tools/trees.py. The other productions that are common before their parts
            Production::NestNext => self
                .linked
                .before_as(symbol, Production::NestNext, frame, parts),
            Production::SourceName => self
                .linked
                .before_as(symbol, Production::SourceName, frame, parts),
            Production::NestSource => self
                .linked
                .before_as(symbol, Production::NestSource, frame, parts),
            Production::Arguments => self
                .linked
                .before_as(symbol, Production::Arguments, frame, parts),
            Production::NestTemplate => self
                .linked
                .before_as(symbol, Production::NestTemplate, frame, parts),
            Production::TypeWithS => self
                .linked
                .before_as(symbol, Production::TypeWithS, frame, parts),
            Production::TaggedStdType => self
                .linked
                .before_as(symbol, Production::TaggedStdType, frame, parts),
            _ => self.between_apart(symbol, production, frame, parts),
        }
    }

    /// Likewise. Room for the call's outcome is made only where the call is made.
    ///
    /// # Errors
    ///
    /// The errors of `before_part`.
    #[inline(always)]
    fn between_by_call(
        &mut self,
        symbol: &[u8],
        frame: &Frame<Surroundings>,
        parts: &mut Vec<Part>,
    ) -> Result<Surroundings, Refusal>
        requires room { HasRoom (wide_counted symbol.now) symbol.now self.old (owed_behind (wide_counted symbol.now) frame.now parts.old.items) }
        requires open { IsOpenAt (wide_counted symbol.now) symbol.now self.old frame.now parts.old.items }
        requires base { frame.now.base ≤ length parts.old.items }
        ensures goes { GoesOn (wide_counted symbol.now) symbol.now (λ l. Surrounds symbol.now l.linked) self.old self.new frame.now parts.old.items parts.new.items result }
        ensures adds { OnOk result (Adds (wide_counted symbol.now) self.old self.new (owed_behind (wide_counted symbol.now) frame.now parts.old.items) (owed_next (wide_counted symbol.now) frame.now parts.new.items)) }
        ensures few { AddsBefore (wide_counted symbol.now) self.old self.new frame.now parts.old.items (drop frame.now.base parts.new.items ++ variants.Nothing ∷ []) result }
        ensures pays { OnOk result ((at : ℕ) → Pays (wide_counted symbol.now) self.old self.new at at) }
        ensures count { OnOk result (length parts.new.items ≡ length parts.old.items) }
        ensures keeps { KeepsRoom (wide_counted symbol.now) self.old self.new parts.old parts.new }
        ensures full { NeedsRoom (wide_counted symbol.now) self.old self.new parts.old parts.new result }
    {
        match self.between_by_step(symbol, frame, parts) {
            Ok(then) => Ok(then),
            Err(refusal) => Err(refusal),
        }
    }
}

impl Threading for Rescoping {
    type Part = Part;

    type Kept = Surroundings;

    ghost Value = { Value };

    ghost State = { Tally State };

    ghost Context = { Around };

    ghost view = { wide_counted };

    ghost surrounds = { λ s l. Surrounds s l.linked };

    ghost absent = { variants.Nothing };

    fn nothing(&self) -> Part
        ensures is { result ≡ variants.Nothing }
        ensures stands { (s : List ℕ) → AreAll ((wide_counted s).IsPart self.now) (result ∷ []) (wide_counted s).reading.rowless }
    {
        Part::Nothing
    }

    #[inline(always)]
    fn between(
        &mut self,
        symbol: &[u8],
        frame: &Frame<Surroundings>,
        parts: &mut Vec<Part>,
    ) -> Result<Surroundings, Refusal>
        requires room { HasRoom (wide_counted symbol.now) symbol.now self.old (owed_behind (wide_counted symbol.now) frame.now parts.old.items) }
        requires open { IsOpenAt (wide_counted symbol.now) symbol.now self.old frame.now parts.old.items }
        requires base { frame.now.base ≤ length parts.old.items }
        ensures goes { GoesOn (wide_counted symbol.now) symbol.now (λ l. Surrounds symbol.now l.linked) self.old self.new frame.now parts.old.items parts.new.items result }
        ensures adds { OnOk result (Adds (wide_counted symbol.now) self.old self.new (owed_behind (wide_counted symbol.now) frame.now parts.old.items) (owed_next (wide_counted symbol.now) frame.now parts.new.items)) }
        ensures few { AddsBefore (wide_counted symbol.now) self.old self.new frame.now parts.old.items (drop frame.now.base parts.new.items ++ variants.Nothing ∷ []) result }
        ensures pays { OnOk result ((at : ℕ) → Pays (wide_counted symbol.now) self.old self.new at at) }
        ensures count { OnOk result (length parts.new.items ≡ length parts.old.items) }
        ensures keeps { KeepsRoom (wide_counted symbol.now) self.old self.new parts.old parts.new }
        ensures full { NeedsRoom (wide_counted symbol.now) self.old self.new parts.old parts.new result }
    {
        if parts.len() - frame.base < quiet_parts(frame.rule) {
            return Ok(frame.kept);
        }
        self.between_by_call(symbol, frame, parts)
    }

    fn begin(
        &mut self,
        symbol: &[u8],
        rows: &[Row],
        context: Surroundings,
        row: Row,
    ) -> Result<Surroundings, Refusal>
        requires place { row.from < length symbol.now }
        requires end { row.end ≤ length rows.now }
        ensures begins { BeginsIn (wide_counted symbol.now) symbol.now (λ l. Surrounds symbol.now l.linked) rows.now self.old self.new context row result }
        ensures adds { OnOk result (Adds (wide_counted symbol.now) self.old self.new 0 0) }
        ensures few { OnErr result ((wide_counted symbol.now).size self.new ≤ (wide_counted symbol.now).size self.old) }
        ensures pays { OnOk result ((at : ℕ) → Pays (wide_counted symbol.now) self.old self.new at at) }
        ensures keeps { KeepRoom ((wide_counted symbol.now).lists self.old) ((wide_counted symbol.now).lists self.new) }
        ensures full { OnlyForRoom ⊥ ((wide_counted symbol.now).lists self.old) ((wide_counted symbol.now).lists self.new) result }
    {
        self.linked.begin_wide(symbol, rows, context, row)
    }

    #[inline(always)]
    fn finish(
        &mut self,
        symbol: &[u8],
        frame: &Frame<Surroundings>,
        parts: &mut Vec<Part>,
    ) -> Result<(), Refusal>
        requires room { HasRoom (wide_counted symbol.now) symbol.now self.old (owed_behind (wide_counted symbol.now) frame.now parts.old.items) }
        requires open { IsOpenAt (wide_counted symbol.now) symbol.now self.old frame.now parts.old.items }
        requires base { frame.now.base ≤ length parts.old.items }
        requires place { frame.now.place < length symbol.now }
        ensures closes { ClosesAll (wide_counted symbol.now) symbol.now self.old self.new frame.now parts.old.items parts.new.items result }
        ensures adds { OnOk result (Adds (wide_counted symbol.now) self.old self.new (owed_behind (wide_counted symbol.now) frame.now parts.old.items) 0) }
        ensures few { AddsFew (wide_counted symbol.now) self.old self.new frame.now parts.old.items }
        ensures pays { OnOk result ((at : ℕ) → Pays (wide_counted symbol.now) self.old self.new at at) }
        ensures keeps { KeepsRoom (wide_counted symbol.now) self.old self.new parts.old parts.new }
        ensures full { NeedsRoom (wide_counted symbol.now) self.old self.new parts.old parts.new result }
    {
        let production = production_of(frame.rule);
        match production {
            Production::Substitution => self.linked.finish_substitution(symbol, frame, parts),
            Production::Lambda => self.linked.finish_lambda(symbol, frame, parts),
            Production::Inheriting => self.linked.finish_inheriting(symbol, frame, parts),
            Production::Encoding => self.linked.finish_encoding(symbol, frame, parts),
            Production::Holder => self.linked.finish_holder(symbol, frame, parts),
            Production::EncodingLiteral => self.linked.finish_literal(symbol, frame, parts),
            _ => self.linked.finish_rule(symbol, frame, parts),
        }
    }

    fn text(&mut self, symbol: &[u8], row: Row) -> Result<Part, Refusal>
        requires from { row.from ≤ row.to }
        requires to { row.to ≤ length symbol.now }
        ensures taken { IsTaken (wide_counted symbol.now) symbol.now self.old self.new row result }
        ensures adds { OnOk result (Adds (wide_counted symbol.now) self.old self.new 0 0) }
        ensures few { OnErr result ((wide_counted symbol.now).size self.new ≤ (wide_counted symbol.now).size self.old) }
        ensures pays { OnOk result ((at : ℕ) → Pays (wide_counted symbol.now) self.old self.new at at) }
        ensures keeps { KeepRoom ((wide_counted symbol.now).lists self.old) ((wide_counted symbol.now).lists self.new) }
        ensures full { OnlyForRoom ⊥ ((wide_counted symbol.now).lists self.old) ((wide_counted symbol.now).lists self.new) result }
    {
        Ok(self.linked.text_at(symbol, row))
    }

    fn count(&self, rule: u16) -> usize
        ensures { (s : List ℕ) → IsCount (wide_counted s).table rule result }
    {
        part_count(rule)
    }

    #[inline(always)]
    fn ahead(&self, rule: u16, held: usize, after: u8) -> usize
        ensures { (s : List ℕ) → IsAhead (wide_counted s).table rule held after result }
    {
        parts_ahead(rule, held, after)
    }

    ghost laws = { wide_threads };
}

impl Linking for Rescoping {
    type Part = Part;

    type Kept = Surroundings;

    ghost Value = { Value };

    ghost State = { Tally State };

    ghost Context = { Around };

    ghost view = { wide_counted };

    fn root(&mut self, symbol: &[u8], _rows: &[Row], _row: Row) -> Result<Surroundings, Refusal>
        requires room { HasRoom (wide_counted symbol.now) symbol.now self.old 0 }
        requires end { _row.end ≤ length _rows.now }
        ensures opens { OpensRoot (wide_counted symbol.now) symbol.now _rows.now self.old self.new _row result }
        ensures adds { OnOk result (Adds (wide_counted symbol.now) self.old self.new 0 0) }
        ensures few { OnErr result ((wide_counted symbol.now).size self.new ≤ (wide_counted symbol.now).size self.old) }
        ensures pays { OnOk result (Pays (wide_counted symbol.now) self.old self.new 0 0) }
        ensures keeps { KeepRoom ((wide_counted symbol.now).lists self.old) ((wide_counted symbol.now).lists self.new) }
        ensures full { OnlyForRoom ⊥ ((wide_counted symbol.now).lists self.old) ((wide_counted symbol.now).lists self.new) result }
    {
        Ok(OUTSIDE)
    }

    fn enter(
        &mut self,
        symbol: &[u8],
        rows: &[Row],
        frame: &Frame<Surroundings>,
        parts: &mut Vec<Part>,
        row: Row,
    ) -> Result<Surroundings, Refusal>
        requires room { HasRoom (wide_counted symbol.now) symbol.now self.old (owed_behind (wide_counted symbol.now) frame.now parts.old.items) }
        requires open { IsOpen (wide_counted symbol.now) symbol.now self.old frame.now parts.old.items }
        requires base { frame.now.base ≤ length parts.old.items }
        requires place { row.from < length symbol.now }
        requires end { row.end ≤ length rows.now }
        ensures opens { Opens (wide_counted symbol.now) symbol.now rows.now self.old self.new frame.now parts.old.items parts.new.items row result }
        ensures adds { OnOk result (Adds (wide_counted symbol.now) self.old self.new (owed_behind (wide_counted symbol.now) frame.now parts.old.items) (owed_next (wide_counted symbol.now) frame.now parts.new.items)) }
        ensures few { OnErr result (AddsFew (wide_counted symbol.now) self.old self.new frame.now parts.old.items) }
        ensures pays { OnOk result ((at : ℕ) → at ≤ row.from → Pays (wide_counted symbol.now) self.old self.new at row.from) }
        ensures keeps { KeepsRoom (wide_counted symbol.now) self.old self.new parts.old parts.new }
        ensures full { NeedsRoom (wide_counted symbol.now) self.old self.new parts.old parts.new result }
    {
        enter_by(self, symbol, rows, frame, parts, row)
    }

    #[inline(always)]
    fn token(
        &mut self,
        symbol: &[u8],
        frame: &Frame<Surroundings>,
        parts: &mut Vec<Part>,
        row: Row,
    ) -> Result<(), Refusal>
        requires room { HasRoom (wide_counted symbol.now) symbol.now self.old (owed_behind (wide_counted symbol.now) frame.now parts.old.items) }
        requires open { IsOpen (wide_counted symbol.now) symbol.now self.old frame.now parts.old.items }
        requires base { frame.now.base ≤ length parts.old.items }
        requires from { row.from ≤ row.to }
        requires to { row.to ≤ length symbol.now }
        ensures takes { TakesToken (wide_counted symbol.now) symbol.now self.old self.new frame.now parts.old.items parts.new.items row result }
        ensures adds { OnOk result (Adds (wide_counted symbol.now) self.old self.new (owed_behind (wide_counted symbol.now) frame.now parts.old.items) (owed_behind (wide_counted symbol.now) frame.now parts.new.items)) }
        ensures few { OnErr result (AddsFew (wide_counted symbol.now) self.old self.new frame.now parts.old.items) }
        ensures pays { OnOk result ((at : ℕ) → at ≤ row.from → (length parts.old.items ≡ frame.now.base → at ≤ frame.now.place)
            → Pays (wide_counted symbol.now) self.old self.new at row.to) }
        ensures keeps { KeepsRoom (wide_counted symbol.now) self.old self.new parts.old parts.new }
        ensures full { TokenNeedsRoom (wide_counted symbol.now) symbol.now self.old self.new frame.now parts.old parts.new row result }
    {
        token_by(self, symbol, frame, parts, row)?;
        Ok(())
    }

    #[inline(always)]
    fn close(
        &mut self,
        symbol: &[u8],
        frame: &Frame<Surroundings>,
        parts: &mut Vec<Part>,
    ) -> Result<(), Refusal>
        requires room { HasRoom (wide_counted symbol.now) symbol.now self.old (owed_behind (wide_counted symbol.now) frame.now parts.old.items) }
        requires open { IsOpen (wide_counted symbol.now) symbol.now self.old frame.now parts.old.items }
        requires base { frame.now.base ≤ length parts.old.items }
        requires place { frame.now.place < length symbol.now }
        ensures closes { ClosesRule (wide_counted symbol.now) symbol.now self.old self.new frame.now parts.old.items parts.new.items result }
        ensures adds { OnOk result (Adds (wide_counted symbol.now) self.old self.new (owed_behind (wide_counted symbol.now) frame.now parts.old.items) 0) }
        ensures few { AddsFew (wide_counted symbol.now) self.old self.new frame.now parts.old.items }
        ensures pays { OnOk result ((at : ℕ) → Pays (wide_counted symbol.now) self.old self.new at at) }
        ensures keeps { KeepsRoom (wide_counted symbol.now) self.old self.new parts.old parts.new }
        ensures full { NeedsRoom (wide_counted symbol.now) self.old self.new parts.old parts.new result }
    {
        close_by(self, symbol, frame, parts)
    }

    ghost laws = { wide_laws };
}
