// A rule closes over all its parts.

ghost use Rattle.std.specs.Prelude.{◌≡◌, ℕ, ◌+◌, ◌-◌, ◌<◌, ◌≤◌, length, drop, slice_get, slice_index, Ok, IfOk, IfErr, IfSome, OnOk};
ghost use Rattle.sym_core.specs.Number.{FitsSymbol};
ghost use Rattle.sym_core.specs.Value.{counted_value};
ghost use Rattle.sym_core.specs.declared.NumberKind.TheVariants as kinds;
ghost use Rattle.sym_core.specs.declared.refusal.Refusal.TheVariants as refusals;
ghost use Rattle.sym_link.specs.Driving.{Fails};
ghost use Rattle.sym_link.specs.Linking.{HasRoom, Adds, AddsFew, Pays, owed_behind};
ghost use Rattle.sym_link.specs.Threads.{IsOpenAt, ClosesAll};
ghost use Rattle.sym_link.specs.Unfold.{found};
ghost use Rattle.cpp_term.specs.Values.{State, part, text_of};
ghost use Rattle.cpp_term.specs.References.{substituted};
ghost use Rattle.cpp_term.specs.Unfolding as unfolding_;
ghost use Rattle.cpp_tree.specs.Nodes.{bytes_at, IsWithin};
ghost use Rattle.cpp_grammar.specs.declared.production.Production.TheVariants as productions;
ghost use Rattle.cpp_grammar.specs.Unfolding.{production_at};
ghost use Rattle.cpp_link.specs.Progress.{Finishes, MakesPart};
ghost use Rattle.cpp_link.specs.Grows.{HasPlace};
ghost use Rattle.cpp_link.specs.LinkReading.{link_meaning, link_close};
ghost use Rattle.cpp_link.specs.Room.{IsRoomy};
ghost use Rattle.cpp_link.specs.Making.{IsCommon, IsRare, nodes_of_outcome, state_of};
ghost use Rattle.cpp_link.specs.NodeCount.{makes_at_end};
ghost use Rattle.cpp_link.specs.Closes.{ends_of};
ghost use Rattle.cpp_link.specs.Parts.{trees_in, value_in, values_in, packs_of, around_of, candidates_of, outcome_value, IsOutcomeThere, IsThere, AreThere, IsKeptThere, AreCandidatesThere};
ghost use Rattle.cpp_link.specs.Reads.{maybe_candidate};
ghost use Rattle.cpp_link.specs.View.{IsPaid, IsWhole, cpp_view};

use crate::counting::Counted;
use crate::dispatch::production_of;
use crate::linked::Linked;
use crate::part::{Outcome, Part, Surroundings};
use cpp_grammar::production::Production;
use cpp_references::candidates::substitution;
use sym_core::Refusal;
use sym_link::language::Frame;
use sym_link::parts::put;

impl Linked {
    /// A substitution closes: its part is the candidate that it names.
    ///
    /// # Errors
    ///
    /// `BadReference` one byte before the place, at the `S`, where the substitution names no
    /// candidate that it may name.
    fn substitute(
        &mut self,
        symbol: &[u8],
        place: u32,
        kept: Surroundings,
        parts: &[Part],
    ) -> Result<Part, Refusal>
        requires whole { IsWhole symbol.now self.old }
        requires there { AreThere symbol.now (length self.old.nodes.nodes) parts.now }
        ensures is { IfOk result (λ made. substituted (around_of (trees_in symbol.now self.old.nodes) kept) (place - 1) (slice_get (state_of symbol.now self.old).candidates (counted_value kinds.Seq36 (text_of (part (values_in symbol.now self.old.nodes parts.now) 0)))) (state_of symbol.now self.old) ≡ Ok (found (value_in symbol.now self.new.nodes made) (state_of symbol.now self.new))) }
        ensures refused { IfErr result (λ e. Fails e (substituted (around_of (trees_in symbol.now self.old.nodes) kept) (place - 1) (slice_get (state_of symbol.now self.old).candidates (counted_value kinds.Seq36 (text_of (part (values_in symbol.now self.old.nodes parts.now) 0)))) (state_of symbol.now self.old))) }
        ensures there { IfOk result (λ made. IsThere symbol.now (length self.new.nodes.nodes) made) }
        ensures nodes { self.new.nodes ≡ self.old.nodes }
        ensures candidates { self.new.candidates ≡ self.old.candidates }
        ensures bad { IfErr result (λ e. e ≡ refusals.Memory → ⊥) }
    {
        let digits = self.text(symbol, parts, 0);
        let (node, packs) = substitution(
            &self.nodes,
            symbol,
            kept,
            place,
            &self.candidates.list,
            digits,
            self.packs,
        )?;
        self.packs = packs;
        Ok(Part::Tree { node, listed: true })
    }

    /// Closes a rule that denotes this outcome: its node is made, and a type may become a
    /// candidate.
    ///
    /// # Errors
    ///
    /// `Memory` where a list couldn't grow.
    #[inline(always)]
    fn add_node_and_candidate(
        &mut self,
        symbol: &[u8],
        production: Production,
        place: u32,
        kept: Surroundings,
        parts: &[Part],
        outcome: Outcome,
    ) -> Result<Part, Refusal>
        requires fits { FitsSymbol symbol.now }
        requires place { place < length symbol.now }
        requires room { HasPlace symbol.now self.old.nodes 2 }
        requires paid { IsPaid self.old }
        requires whole { IsWhole symbol.now self.old }
        requires there { AreThere symbol.now (length self.old.nodes.nodes) parts.now }
        requires kept { IsKeptThere (length self.old.nodes.nodes) kept }
        requires outcome { IsOutcomeThere symbol.now (length self.old.nodes.thunks) (length self.old.nodes.nodes) outcome }
        requires value { outcome_value symbol.now self.old.nodes outcome ≡ link_meaning symbol.now production (slice_index symbol.now place) place (around_of (trees_in symbol.now self.old.nodes) kept) (values_in symbol.now self.old.nodes parts.now) }
        requires nodes { nodes_of_outcome outcome ≤ ends_of production parts.now }
        requires makes { nodes_of_outcome outcome ≡ makes_at_end production (values_in symbol.now self.old.nodes parts.now) }
        ensures value { IfOk result (λ made. value_in symbol.now self.new.nodes made ≡ link_meaning symbol.now production (slice_index symbol.now place) place (around_of (trees_in symbol.now self.old.nodes) kept) (values_in symbol.now self.old.nodes parts.now)) }
        ensures state { OnOk result ((began : State) → began.packs ≡ packs_of kept
            → unfolding_.behind production (slice_index symbol.now place) (around_of (trees_in symbol.now self.old.nodes) kept) began (values_in symbol.now self.old.nodes parts.now) (state_of symbol.now self.old) ≡ state_of symbol.now self.new) }
        ensures made { MakesPart symbol.now self.old self.new (ends_of production parts.now) (makes_at_end production (values_in symbol.now self.old.nodes parts.now)) result }
        ensures memory { IfErr result (λ e. e ≡ refusals.Memory) }
    {
        let byte = symbol[place as usize];
        let made = self.add_node(symbol, outcome)?;
        let after = self.after_rule(symbol, production, byte, kept, parts, made);
        self.append(symbol, kept, after.candidate, Counted::ByAll)?;
        self.packs = after.packs;
        Ok(made)
    }

    /// The result of closing a common production that begins at a place, with these parts.
    ///
    /// # Errors
    ///
    /// `BadReference` at a substitution that names no candidate that it may name, `Memory` where a list couldn't grow.
    #[inline(always)]
    pub(crate) fn close_production(
        &mut self,
        symbol: &[u8],
        production: Production,
        place: u32,
        kept: Surroundings,
        parts: &[Part],
    ) -> Result<Part, Refusal>
        requires common { IsCommon production }
        requires fits { FitsSymbol symbol.now }
        requires place { place < length symbol.now }
        requires room { HasPlace symbol.now self.old.nodes 2 }
        requires paid { IsPaid self.old }
        requires whole { IsWhole symbol.now self.old }
        requires there { AreThere symbol.now (length self.old.nodes.nodes) parts.now }
        requires kept { IsKeptThere (length self.old.nodes.nodes) kept }
        ensures is { IfOk result (λ made. (began : State) → began.packs ≡ packs_of kept
            → link_close symbol.now production (slice_index symbol.now place) (around_of (trees_in symbol.now self.old.nodes) kept) place began (values_in symbol.now self.old.nodes parts.now) (state_of symbol.now self.old) ≡ Ok (found (value_in symbol.now self.new.nodes made) (state_of symbol.now self.new))) }
        ensures refused { IfErr result (λ e. (began : State)
            → Fails e (link_close symbol.now production (slice_index symbol.now place) (around_of (trees_in symbol.now self.old.nodes) kept) place began (values_in symbol.now self.old.nodes parts.now) (state_of symbol.now self.old))) }
        ensures made { MakesPart symbol.now self.old self.new (ends_of production parts.now) (makes_at_end production (values_in symbol.now self.old.nodes parts.now)) result }
    {
        match production {
            Production::Substitution => self.substitute(symbol, place, kept, parts),
            _ => {
                let outcome = self.outcome(symbol, production, place, kept, parts);
                self.add_node_and_candidate(symbol, production, place, kept, parts, outcome)
            }
        }
    }

    /// A rule of a rare production closes.
    ///
    /// # Errors
    ///
    /// `Memory` where a list couldn't grow.
    #[inline(always)]
    pub(crate) fn make_rare(
        &mut self,
        symbol: &[u8],
        production: Production,
        place: u32,
        kept: Surroundings,
        parts: &[Part],
    ) -> Result<Part, Refusal>
        requires rare { IsRare production }
        requires fits { FitsSymbol symbol.now }
        requires place { place < length symbol.now }
        requires room { HasPlace symbol.now self.old.nodes 2 }
        requires paid { IsPaid self.old }
        requires whole { IsWhole symbol.now self.old }
        requires there { AreThere symbol.now (length self.old.nodes.nodes) parts.now }
        requires kept { IsKeptThere (length self.old.nodes.nodes) kept }
        ensures value { IfOk result (λ made. value_in symbol.now self.new.nodes made ≡ link_meaning symbol.now production (slice_index symbol.now place) place (around_of (trees_in symbol.now self.old.nodes) kept) (values_in symbol.now self.old.nodes parts.now)) }
        ensures state { OnOk result ((began : State) → began.packs ≡ packs_of kept
            → unfolding_.behind production (slice_index symbol.now place) (around_of (trees_in symbol.now self.old.nodes) kept) began (values_in symbol.now self.old.nodes parts.now) (state_of symbol.now self.old) ≡ state_of symbol.now self.new) }
        ensures made { MakesPart symbol.now self.old self.new (ends_of production parts.now) (makes_at_end production (values_in symbol.now self.old.nodes parts.now)) result }
        ensures memory { IfErr result (λ e. e ≡ refusals.Memory) }
    {
        let outcome = self.outcome_by_family(symbol, production, place, kept, parts);
        self.add_node_and_candidate(symbol, production, place, kept, parts, outcome)
    }

    /// The frame's rule, which is of this production, closes over all its parts: its meaning takes
    /// their place.
    ///
    /// # Errors
    ///
    /// `BadReference` at a substitution that names no candidate that it may name, `Memory` where a list couldn't grow.
    #[tactic(auto, using(crate::proofs::Viewing::own_there, crate::proofs::Viewing::open_whole, crate::proofs::Viewing::open_kept))]
    #[inline(always)]
    fn finish_as(
        &mut self,
        symbol: &[u8],
        production: Production,
        frame: &Frame<Surroundings>,
        parts: &mut Vec<Part>,
    ) -> Result<(), Refusal>
        requires common { IsCommon production }
        requires numbered { production ≡ production_at frame.now.rule }
        requires room { HasRoom (cpp_view symbol.now) symbol.now self.old (owed_behind (cpp_view symbol.now) frame.now parts.old.items) }
        requires open { IsOpenAt (cpp_view symbol.now) symbol.now self.old frame.now parts.old.items }
        requires base { frame.now.base ≤ length parts.old.items }
        requires place { frame.now.place < length symbol.now }
        ensures { Finishes (cpp_view symbol.now) makes_at_end symbol.now self.old self.new frame.now parts.old parts.new result }
    {
        let made = self.close_production(
            symbol,
            production,
            frame.place,
            frame.kept,
            &parts[frame.base..],
        )?;
        put(parts, frame.base, made)
    }

    /// Likewise for rare productions: one body serves all of them, and on every call it zeroes the room for the nodes of each.
    ///
    /// # Errors
    ///
    /// `Memory` where a list couldn't grow.
    #[tactic(auto, using(crate::proofs::Viewing::own_there, crate::proofs::Viewing::open_whole, crate::proofs::Viewing::open_kept))]
    #[inline(never)]
    fn finish_rare(
        &mut self,
        symbol: &[u8],
        production: Production,
        frame: &Frame<Surroundings>,
        parts: &mut Vec<Part>,
    ) -> Result<(), Refusal>
        requires rare { IsRare production }
        requires read { production ≡ productions.Inheriting → ⊥ }
        requires numbered { production ≡ production_at frame.now.rule }
        requires room { HasRoom (cpp_view symbol.now) symbol.now self.old (owed_behind (cpp_view symbol.now) frame.now parts.old.items) }
        requires open { IsOpenAt (cpp_view symbol.now) symbol.now self.old frame.now parts.old.items }
        requires base { frame.now.base ≤ length parts.old.items }
        requires place { frame.now.place < length symbol.now }
        ensures { Finishes (cpp_view symbol.now) makes_at_end symbol.now self.old self.new frame.now parts.old parts.new result }
    {
        let made = self.make_rare(
            symbol,
            production,
            frame.place,
            frame.kept,
            &parts[frame.base..],
        )?;
        put(parts, frame.base, made)
    }

    /// Likewise, by a call of `finish_rare`. Room for the call's outcome is made only where the
    /// call is made.
    ///
    /// # Errors
    ///
    /// `Memory` where a list couldn't grow.
    #[inline(always)]
    fn finish_other(
        &mut self,
        symbol: &[u8],
        production: Production,
        frame: &Frame<Surroundings>,
        parts: &mut Vec<Part>,
    ) -> Result<(), Refusal>
        requires rare { IsRare production }
        requires read { production ≡ productions.Inheriting → ⊥ }
        requires numbered { production ≡ production_at frame.now.rule }
        requires room { HasRoom (cpp_view symbol.now) symbol.now self.old (owed_behind (cpp_view symbol.now) frame.now parts.old.items) }
        requires open { IsOpenAt (cpp_view symbol.now) symbol.now self.old frame.now parts.old.items }
        requires base { frame.now.base ≤ length parts.old.items }
        requires place { frame.now.place < length symbol.now }
        ensures { Finishes (cpp_view symbol.now) makes_at_end symbol.now self.old self.new frame.now parts.old parts.new result }
    {
        match self.finish_rare(symbol, production, frame, parts) {
            Ok(done) => Ok(done),
            Err(refusal) => Err(refusal),
        }
    }

    /// The frame's rule closes over all its parts: its meaning takes their place. The common
    /// productions have code of their own.
    ///
    /// # Errors
    ///
    /// `BadReference` at a substitution that names no candidate that it may name, and at an inherited constructor; `Memory` where a list
    /// couldn't grow.
    #[inline(never)]
    pub fn finish_rule(
        &mut self,
        symbol: &[u8],
        frame: &Frame<Surroundings>,
        parts: &mut Vec<Part>,
    ) -> Result<(), Refusal>
        requires room { HasRoom (cpp_view symbol.now) symbol.now self.old (owed_behind (cpp_view symbol.now) frame.now parts.old.items) }
        requires open { IsOpenAt (cpp_view symbol.now) symbol.now self.old frame.now parts.old.items }
        requires base { frame.now.base ≤ length parts.old.items }
        requires place { frame.now.place < length symbol.now }
        ensures closes { ClosesAll (cpp_view symbol.now) symbol.now self.old self.new frame.now parts.old.items parts.new.items result }
        ensures adds { OnOk result (Adds (cpp_view symbol.now) self.old self.new (owed_behind (cpp_view symbol.now) frame.now parts.old.items) 0) }
        ensures few { AddsFew (cpp_view symbol.now) self.old self.new frame.now parts.old.items }
        ensures makes { OnOk result (length self.new.nodes.nodes ≡ length self.old.nodes.nodes + makes_at_end (production_at frame.now.rule) (values_in symbol.now self.old.nodes (drop frame.now.base parts.old.items))) }
        ensures pays { OnOk result ((at : ℕ) → Pays (cpp_view symbol.now) self.old self.new at at) }
        ensures roomy { IsRoomy self.old self.new parts.old parts.new result }
    {
        let production = production_of(frame.rule);
        match production {
            // the ABI's grammar has no inherited constructor
            Production::Inheriting => Err(Refusal::BadReference { at: frame.place }),
            // Generated by tools/trees.py. The productions that are common
            Production::NestNext => self.finish_as(symbol, Production::NestNext, frame, parts),
            Production::SourceName => self.finish_as(symbol, Production::SourceName, frame, parts),
            Production::PlainType => self.finish_as(symbol, Production::PlainType, frame, parts),
            Production::NestEnd => self.finish_as(symbol, Production::NestEnd, frame, parts),
            Production::Items => self.finish_as(symbol, Production::Items, frame, parts),
            Production::Builtin => self.finish_as(symbol, Production::Builtin, frame, parts),
            Production::AnyArgument => self.finish_as(
                symbol,
                Production::AnyArgument,
                frame,
                parts,
            ),
            Production::NestSource => self.finish_as(symbol, Production::NestSource, frame, parts),
            Production::Substitution => self.finish_as(
                symbol,
                Production::Substitution,
                frame,
                parts,
            ),
            Production::Symbol => self.finish_as(symbol, Production::Symbol, frame, parts),
            Production::NestedType => self.finish_as(symbol, Production::NestedType, frame, parts),
            Production::Encoding => self.finish_as(symbol, Production::Encoding, frame, parts),
            Production::NestedName => self.finish_as(symbol, Production::NestedName, frame, parts),
            Production::NestWithS => self.finish_as(symbol, Production::NestWithS, frame, parts),
            Production::Arguments => self.finish_as(symbol, Production::Arguments, frame, parts),
            Production::NestTemplate => self.finish_as(
                symbol,
                Production::NestTemplate,
                frame,
                parts,
            ),
            Production::TypeWithS => self.finish_as(symbol, Production::TypeWithS, frame, parts),
            Production::AbbreviatedType => self.finish_as(
                symbol,
                Production::AbbreviatedType,
                frame,
                parts,
            ),
            Production::ReferenceType => self.finish_as(
                symbol,
                Production::ReferenceType,
                frame,
                parts,
            ),
            Production::Pointer => self.finish_as(symbol, Production::Pointer, frame, parts),
            Production::ConstType => self.finish_as(symbol, Production::ConstType, frame, parts),
            Production::QualifiedPlain => self.finish_as(
                symbol,
                Production::QualifiedPlain,
                frame,
                parts,
            ),
            Production::Mark => self.finish_as(symbol, Production::Mark, frame, parts),
            Production::SourcePiece => self.finish_as(
                symbol,
                Production::SourcePiece,
                frame,
                parts,
            ),
            Production::PlainArgument => self.finish_as(
                symbol,
                Production::PlainArgument,
                frame,
                parts,
            ),
            Production::TypeInStd => self.finish_as(symbol, Production::TypeInStd, frame, parts),
            Production::TaggedStdType => self.finish_as(
                symbol,
                Production::TaggedStdType,
                frame,
                parts,
            ),
            Production::Special => self.finish_as(symbol, Production::Special, frame, parts),
            _ => self.finish_other(symbol, production, frame, parts),
        }
    }
}
