// What is done before the next part of a rule.

ghost use Rattle.std.specs.Prelude.{◌≡◌, ℕ, ◌+◌, ◌<◌, ◌≤◌, ◌∷◌, ◌++◌, [], List, length, take, drop, true, false, Some, None, IfOk, IfErr, OnOk, vec_capacity, OnErr};
ghost use Rattle.sym_core.specs.declared.refusal.Refusal.TheVariants as refusals;
ghost use Rattle.sym_link.specs.Linking.{HasRoom, Adds, Pays, owed_behind, owed_next};
ghost use Rattle.sym_link.specs.Threads.{IsOpenAt, GoesOn, AddsBefore};
ghost use Rattle.cpp_grammar.specs.declared.production.Production.TheVariants as productions;
ghost use Rattle.cpp_link.specs.declared.part.Part.TheVariants as variants;
ghost use Rattle.cpp_grammar.specs.Values.{by_all};
ghost use Rattle.cpp_term.specs.Term.{Term};
ghost use Rattle.cpp_grammar.specs.Unfolding.{production_at};
ghost use Rattle.cpp_tree.specs.Nodes.{IsAliasBelow, IsBelow, tree_at};
ghost use Rattle.cpp_link.specs.Grows.{Grows, HasPlace};
ghost use Rattle.cpp_link.specs.Making.{state_of};
ghost use Rattle.cpp_link.specs.NodeCount.{makes_before};
ghost use Rattle.cpp_link.specs.Parts.{trees_in, values_in, tree_of_node, around_of, candidates_of, AreThere, IsKeptThere, AreCandidatesThere, IsStepThere};
ghost use Rattle.cpp_link.specs.Progress.{Advances};
ghost use Rattle.cpp_link.specs.Reads.{with_candidate, named_if, appended_if};
ghost use Rattle.cpp_link.specs.Stepping.{IsStepOf, Takes, CountsStep, nodes_of_step};
ghost use Rattle.cpp_link.specs.Tables.{quiet_parts};
ghost use Rattle.cpp_link.specs.View.{Surrounds, cpp_view};
ghost use Rattle.cpp_link.specs.Room.{KeepsRoom, LacksRoom, IsRoomy};

use crate::counting::Counted;
use crate::dispatch::production_of;
use crate::linked::Linked;
use crate::part::{Part, Step, Surroundings};
use crate::tables::QUIET_PARTS;
use cpp_grammar::production::Production;
use cpp_tree::node::Node;
use sym_core::Refusal;
use sym_link::language::Frame;

/// Puts a part in the place of the one at the base.
#[inline(always)]
fn put_first(parts: &mut Vec<Part>, base: usize, part: Part)
    requires { base < length parts.old.items }
    ensures own { drop base parts.new.items ≡ part ∷ drop (base + 1) parts.old.items }
    ensures lower { take base parts.new.items ≡ take base parts.old.items }
    ensures count { length parts.new.items ≡ length parts.old.items }
    ensures capacity { vec_capacity parts.old ≤ vec_capacity parts.new }
{
    parts[base] = part;
}

/// The node itself, if it is to become a candidate.
fn candidate_if(is_candidate: bool, node: u32) -> Option<u32>
    ensures { result ≡ elim is_candidate [ true ↦ Some node | false ↦ None ] }
{
    if is_candidate { Some(node) } else { None }
}

/// How many of a production's first parts have nothing done before them. Since nothing is done
/// before most parts, this is looked up first, by the rule's number.
#[inline(always)]
pub(crate) fn quiet_parts(number: u16) -> usize
    ensures { result ≡ quiet_parts (production_at number) }
{
    match QUIET_PARTS.get(number as usize) {
        Some(count) => *count as usize,
        None => 5,
    }
}

impl Linked {
    /// A tree, if one is given, becomes a candidate. The packs then have this length.
    ///
    /// # Errors
    ///
    /// `Memory` where the candidates couldn't grow.
    #[inline(always)]
    fn note(
        &mut self,
        symbol: &[u8],
        kept: Surroundings,
        candidate: Option<u32>,
        packs: Option<u32>,
    ) -> Result<(), Refusal>
        requires candidate { IsAliasBelow (length self.old.nodes.nodes) candidate }
        requires there { AreCandidatesThere (length self.old.nodes.nodes) self.old.candidates }
        ensures nodes { self.new.nodes ≡ self.old.nodes }
        ensures there { OnOk result (AreCandidatesThere (length self.old.nodes.nodes) self.new.candidates) }
        ensures is { OnOk result (with_candidate by_all (around_of (trees_in symbol.now self.old.nodes) kept) (trees_in symbol.now self.old.nodes) candidate
            (record (state_of symbol.now self.old) { packs = packs }) ≡ state_of symbol.now self.new) }
        ensures memory { IfErr result (λ e. e ≡ refusals.Memory) }
        ensures keeps { KeepsRoom self.old self.new }
        ensures full { OnErr result (LacksRoom self.old self.new) }
    {
        self.append(symbol, kept, candidate, Counted::ByAll)?;
        self.packs = packs;
        Ok(())
    }

    /// Adds a node, which may become a candidate; the packs then have this length. Answers the node's number.
    ///
    /// # Errors
    ///
    /// `Memory` where a list couldn't grow.
    #[inline(always)]
    fn add_noted(
        &mut self,
        symbol: &[u8],
        kept: Surroundings,
        node: Node,
        is_candidate: bool,
        packs: Option<u32>,
    ) -> Result<u32, Refusal>
        requires place { HasPlace symbol.now self.old.nodes 1 }
        requires below { IsBelow symbol.now (length self.old.nodes.thunks) (length self.old.nodes.nodes) node }
        requires kept { IsKeptThere (length self.old.nodes.nodes) kept }
        requires there { AreCandidatesThere (length self.old.nodes.nodes) self.old.candidates }
        ensures grows { Grows symbol.now self.old.nodes self.new.nodes 1 }
        ensures more { OnOk result (length self.new.nodes.nodes ≡ length self.old.nodes.nodes + 1) }
        ensures thunks { self.new.nodes.thunks ≡ self.old.nodes.thunks }
        ensures tree { IfOk result (λ number. tree_at (trees_in symbol.now self.new.nodes) number ≡ tree_of_node symbol.now self.old.nodes node) }
        ensures below { IfOk result (λ number. number < length self.new.nodes.nodes) }
        ensures there { OnOk result (AreCandidatesThere (length self.new.nodes.nodes) self.new.candidates) }
        ensures is { OnOk result (appended_if is_candidate (around_of (trees_in symbol.now self.old.nodes) kept) (tree_of_node symbol.now self.old.nodes node)
            (record (state_of symbol.now self.old) { packs = packs }) ≡ state_of symbol.now self.new) }
        ensures memory { IfErr result (λ e. e ≡ refusals.Memory) }
        ensures keeps { KeepsRoom self.old self.new }
        ensures full { OnErr result (LacksRoom self.old self.new) }
    {
        let number = self.add(symbol, node)?;
        self.note(symbol, kept, candidate_if(is_candidate, number), packs)?;
        Ok(number)
    }

    /// What surrounds the part after a tree that has been made.
    #[tactic(auto, unfolding(crate::specs::Reads::named_if))]
    #[inline(always)]
    fn behind_if(&self, is_name: bool, kept: Surroundings, node: u32, listed: bool) -> Surroundings
        requires kept { IsKeptThere (length self.now.nodes.nodes) kept }
        requires node { node < length self.now.nodes.nodes }
        ensures around { (ts : List Term) → around_of ts result ≡ named_if is_name (around_of ts kept) (tree_at ts node) listed }
        ensures there { IsKeptThere (length self.now.nodes.nodes) result }
    {
        if is_name {
            return self.behind_name(kept, node, listed);
        }
        kept
    }

    /// Takes a step before the next part of a rule, whose parts begin at the base. Answers the surroundings of that part.
    ///
    /// # Errors
    ///
    /// `Memory` where a list couldn't grow.
    #[inline(always)]
    pub(crate) fn take_step(
        &mut self,
        symbol: &[u8],
        kept: Surroundings,
        base: usize,
        step: Step,
        parts: &mut Vec<Part>,
    ) -> Result<Surroundings, Refusal>
        requires place { HasPlace symbol.now self.old.nodes 1 }
        requires step { IsStepThere symbol.now (length self.old.nodes.thunks) (length self.old.nodes.nodes) step }
        requires of { (production : Production) × IsStepOf production (length (drop base parts.old.items)) step }
        requires kept { IsKeptThere (length self.old.nodes.nodes) kept }
        requires there { AreCandidatesThere (length self.old.nodes.nodes) self.old.candidates }
        requires parts { AreThere symbol.now (length self.old.nodes.nodes) (drop base parts.old.items) }
        ensures takes { IfOk result (λ then. Takes symbol.now self.old self.new kept base parts.old.items parts.new.items step then) }
        ensures more { OnOk result (length self.new.nodes.nodes ≡ length self.old.nodes.nodes + nodes_of_step step) }
        ensures few { (production : Production) → IsStepOf production (length (drop base parts.old.items)) step
            → (production ≡ productions.PackArgument → drop base parts.old.items ≡ variants.Nothing ∷ [] → nodes_of_step step ≡ 0)
            → CountsStep production self.old self.new (drop base parts.old.items) (drop base parts.new.items) result }
        ensures capacity { vec_capacity parts.old ≤ vec_capacity parts.new }
        ensures memory { IfErr result (λ e. e ≡ refusals.Memory) }
        ensures keeps { KeepsRoom self.old self.new }
        ensures full { OnErr result (LacksRoom self.old self.new) }
    {
        match step {
            Step::Go {
                candidate,
                then,
                packs,
            } => {
                self.note(symbol, kept, candidate, packs)?;
                Ok(then)
            }
            Step::Named {
                node,
                listed,
                is_name,
            } => {
                put_first(parts, base, Part::Tree { node, listed });
                Ok(self.behind_if(is_name, kept, node, listed))
            }
            Step::Made {
                node,
                listed,
                is_name,
                is_candidate,
                packs,
            } => {
                let node = self.add_noted(symbol, kept, node, is_candidate, packs)?;
                put_first(parts, base, Part::Tree { node, listed });
                Ok(self.behind_if(is_name, kept, node, listed))
            }
        }
    }

    /// Does what is to be done before the next part of the frame's rule, which is of this production, and answers the
    /// surroundings of that part.
    ///
    /// # Errors
    ///
    /// The errors of `before_part`.
    #[tactic(auto, using(crate::proofs::Viewing::own_there, crate::proofs::Viewing::open_kept))]
    #[inline(always)]
    pub(crate) fn before_as(
        &mut self,
        symbol: &[u8],
        production: Production,
        frame: &Frame<Surroundings>,
        parts: &mut Vec<Part>,
    ) -> Result<Surroundings, Refusal>
        requires numbered { production ≡ production_at frame.now.rule }
        requires room { HasRoom (cpp_view symbol.now) symbol.now self.old (owed_behind (cpp_view symbol.now) frame.now parts.old.items) }
        requires open { IsOpenAt (cpp_view symbol.now) symbol.now self.old frame.now parts.old.items }
        requires base { frame.now.base ≤ length parts.old.items }
        ensures { Advances (cpp_view symbol.now) symbol.now self.old self.new frame.now parts.old parts.new result }
    {
        let own = &parts[frame.base..];
        let step = self.step(symbol, production, frame.place, frame.kept, own)?;
        let then = self.take_step(symbol, frame.kept, frame.base, step, parts)?;
        Ok(then)
    }

    /// Likewise for rare productions: one body serves all of them, and zeroes the room for the nodes of each on every call.
    ///
    /// # Errors
    ///
    /// The errors of `before_part`.
    #[inline(never)]
    pub(crate) fn before_rare(
        &mut self,
        symbol: &[u8],
        production: Production,
        frame: &Frame<Surroundings>,
        parts: &mut Vec<Part>,
    ) -> Result<Surroundings, Refusal>
        requires numbered { production ≡ production_at frame.now.rule }
        requires room { HasRoom (cpp_view symbol.now) symbol.now self.old (owed_behind (cpp_view symbol.now) frame.now parts.old.items) }
        requires open { IsOpenAt (cpp_view symbol.now) symbol.now self.old frame.now parts.old.items }
        requires base { frame.now.base ≤ length parts.old.items }
        ensures { Advances (cpp_view symbol.now) symbol.now self.old self.new frame.now parts.old parts.new result }
    {
        self.before_as(symbol, production, frame, parts)
    }

    /// Likewise, for rare productions. Room for the call's outcome is made only where the call is
    /// made.
    ///
    /// # Errors
    ///
    /// The errors of `before_part`.
    #[inline(always)]
    fn before_other(
        &mut self,
        symbol: &[u8],
        production: Production,
        frame: &Frame<Surroundings>,
        parts: &mut Vec<Part>,
    ) -> Result<Surroundings, Refusal>
        requires numbered { production ≡ production_at frame.now.rule }
        requires room { HasRoom (cpp_view symbol.now) symbol.now self.old (owed_behind (cpp_view symbol.now) frame.now parts.old.items) }
        requires open { IsOpenAt (cpp_view symbol.now) symbol.now self.old frame.now parts.old.items }
        requires base { frame.now.base ≤ length parts.old.items }
        ensures { Advances (cpp_view symbol.now) symbol.now self.old self.new frame.now parts.old parts.new result }
    {
        match self.before_rare(symbol, production, frame, parts) {
            Ok(then) => Ok(then),
            Err(refusal) => Err(refusal),
        }
    }

    /// Likewise, with separate code for each common production.
    ///
    /// # Errors
    ///
    /// The errors of `before_part`.
    #[inline(never)]
    fn before_by_step(
        &mut self,
        symbol: &[u8],
        frame: &Frame<Surroundings>,
        parts: &mut Vec<Part>,
    ) -> Result<Surroundings, Refusal>
        requires room { HasRoom (cpp_view symbol.now) symbol.now self.old (owed_behind (cpp_view symbol.now) frame.now parts.old.items) }
        requires open { IsOpenAt (cpp_view symbol.now) symbol.now self.old frame.now parts.old.items }
        requires base { frame.now.base ≤ length parts.old.items }
        ensures { Advances (cpp_view symbol.now) symbol.now self.old self.new frame.now parts.old parts.new result }
    {
        let production = production_of(frame.rule);
        match production {
            // Generated by tools/trees.py. The productions that are common before their parts
            Production::NestNext => self.before_as(symbol, Production::NestNext, frame, parts),
            Production::SourceName => self.before_as(symbol, Production::SourceName, frame, parts),
            Production::NestSource => self.before_as(symbol, Production::NestSource, frame, parts),
            Production::Encoding => self.before_as(symbol, Production::Encoding, frame, parts),
            Production::Arguments => self.before_as(symbol, Production::Arguments, frame, parts),
            Production::NestTemplate => self.before_as(
                symbol,
                Production::NestTemplate,
                frame,
                parts,
            ),
            Production::TypeWithS => self.before_as(symbol, Production::TypeWithS, frame, parts),
            Production::TaggedStdType => self.before_as(
                symbol,
                Production::TaggedStdType,
                frame,
                parts,
            ),
            _ => self.before_other(symbol, production, frame, parts),
        }
    }

    /// Likewise, for all productions. Room for the call's outcome is made only where the call is
    /// made.
    ///
    /// # Errors
    ///
    /// The errors of `before_part`.
    #[inline(always)]
    fn before_by_call(
        &mut self,
        symbol: &[u8],
        frame: &Frame<Surroundings>,
        parts: &mut Vec<Part>,
    ) -> Result<Surroundings, Refusal>
        requires room { HasRoom (cpp_view symbol.now) symbol.now self.old (owed_behind (cpp_view symbol.now) frame.now parts.old.items) }
        requires open { IsOpenAt (cpp_view symbol.now) symbol.now self.old frame.now parts.old.items }
        requires base { frame.now.base ≤ length parts.old.items }
        ensures { Advances (cpp_view symbol.now) symbol.now self.old self.new frame.now parts.old parts.new result }
    {
        match self.before_by_step(symbol, frame, parts) {
            Ok(then) => Ok(then),
            Err(refusal) => Err(refusal),
        }
    }

    /// What is done before the next part of the frame's rule, and the surroundings of that part.
    ///
    /// # Errors
    ///
    /// `BadReference` at a parameter that names no argument that it may name, `Memory` where a list couldn't grow.
    #[inline(always)]
    pub fn before_part(
        &mut self,
        symbol: &[u8],
        frame: &Frame<Surroundings>,
        parts: &mut Vec<Part>,
    ) -> Result<Surroundings, Refusal>
        requires room { HasRoom (cpp_view symbol.now) symbol.now self.old (owed_behind (cpp_view symbol.now) frame.now parts.old.items) }
        requires open { IsOpenAt (cpp_view symbol.now) symbol.now self.old frame.now parts.old.items }
        requires base { frame.now.base ≤ length parts.old.items }
        ensures goes { GoesOn (cpp_view symbol.now) symbol.now (Surrounds symbol.now) self.old self.new frame.now parts.old.items parts.new.items result }
        ensures adds { OnOk result (Adds (cpp_view symbol.now) self.old self.new (owed_behind (cpp_view symbol.now) frame.now parts.old.items) (owed_next (cpp_view symbol.now) frame.now parts.new.items)) }
        ensures few { AddsBefore (cpp_view symbol.now) self.old self.new frame.now parts.old.items (drop frame.now.base parts.new.items ++ variants.Nothing ∷ []) result }
        ensures makes { OnOk result (length self.new.nodes.nodes ≡ length self.old.nodes.nodes + makes_before (production_at frame.now.rule) (values_in symbol.now self.old.nodes (drop frame.now.base parts.old.items))) }
        ensures pays { OnOk result ((at : ℕ) → Pays (cpp_view symbol.now) self.old self.new at at) }
        ensures count { OnOk result (length parts.new.items ≡ length parts.old.items) }
        ensures roomy { IsRoomy self.old self.new parts.old parts.new result }
    {
        if parts.len() - frame.base < quiet_parts(frame.rule) {
            return Ok(frame.kept);
        }
        self.before_by_call(symbol, frame, parts)
    }
}
