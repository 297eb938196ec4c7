// What is linked of a symbol so far.

ghost use Rattle.std.specs.Prelude.{◌≡◌, ℕ, ◌<◌, ◌≤◌, ◌||◌, ◌&&◌, ◌∷◌, ◌++◌, [], false, List, length, Option, Ok, IfErr, OnOk, OnErr};
ghost use Rattle.sym_core.specs.declared.refusal.Refusal.TheVariants as refusals;
ghost use Rattle.sym_link.specs.Threads.{IsTaken};
ghost use Rattle.cpp_term.specs.Unfolding.{first_state};
ghost use Rattle.cpp_term.specs.Term.{Term};
ghost use Rattle.cpp_tree.specs.Nodes.{IsAliasBelow, tree_at};
ghost use Rattle.cpp_term.specs.Values.{State};
ghost use Rattle.cpp_references.specs.Around.{counted_of};
ghost use Rattle.cpp_link.specs.Counting.{candidate_by};
ghost use Rattle.cpp_link.specs.Parts.{trees_in, around_of, candidates_of, AreCandidatesThere};
ghost use Rattle.cpp_link.specs.Reads.{with_candidate, with_marks};
ghost use Rattle.cpp_link.specs.View.{Holds, IsPaid, cpp_view};
ghost use Rattle.cpp_link.specs.Room.{KeepsRoom, LacksRoom};

use crate::candidates::Candidates;
use crate::counting::{Counted, Counting, NOTHING_COUNTED};
use crate::part::{Marks, Part, Surroundings};
use cpp_tree::Nodes;
use std::alloc::Global;
use sym_core::{Refusal, Span};
use sym_shape::rule::Row;

/// The nodes of a symbol, the trees that a substitution may name, and the length of the packs under the innermost expansion.
#[derive(Drop)]
pub struct Linked {
    pub nodes: Nodes,
    pub candidates: Candidates,
    pub packs: Option<u32>,
    pub counting: Counting,
}

impl Linked {
    /// Nothing is linked yet.
    pub fn new(alloc: Global) -> Linked {
        Linked {
            nodes: Nodes::new(alloc),
            candidates: Candidates::new(alloc),
            packs: None,
            counting: NOTHING_COUNTED,
        }
    }

    /// Forgets what was linked, and keeps its memory.
    ///
    /// # Errors
    ///
    /// `Memory` where the nodes couldn't grow.
    pub fn restart(&mut self) -> Result<(), Refusal>
        ensures holds { OnOk result ((s : List ℕ) → Holds s self.new first_state) }
        ensures size { OnOk result (length self.new.nodes.nodes ≡ 4) }
        ensures paid { OnOk result (IsPaid self.new) }
        ensures memory { IfErr result (λ e. e ≡ refusals.Memory) }
        ensures full { OnErr result (self.old.nodes.node_room < 4) }
    {
        self.candidates.clear();
        self.packs = None;
        self.counting = NOTHING_COUNTED;
        self.nodes.begin()?;
        Ok(())
    }

    /// A tree becomes a candidate, which is counted by these compilers.
    ///
    /// # Errors
    ///
    /// `Memory` where the candidates couldn't grow.
    #[inline(always)]
    pub(crate) fn push_candidate(
        &mut self,
        kept: Surroundings,
        node: u32,
        counted: Counted,
    ) -> Result<(), Refusal>
        requires below { node < length self.old.nodes.nodes }
        requires there { AreCandidatesThere (length self.old.nodes.nodes) self.old.candidates }
        ensures nodes { self.new.nodes ≡ self.old.nodes }
        ensures packs { self.new.packs ≡ self.old.packs }
        ensures counting { self.new.counting ≡ self.old.counting }
        ensures there { OnOk result (AreCandidatesThere (length self.old.nodes.nodes) self.new.candidates) }
        ensures is { OnOk result ((ts : List Term) → candidates_of ts self.new.candidates.list.items ≡ candidates_of ts self.old.candidates.list.items ++ candidate_by ts kept node counted ∷ []) }
        ensures memory { IfErr result (λ e. e ≡ refusals.Memory) }
        ensures keeps { KeepsRoom self.old self.new }
        ensures full { OnErr result (LacksRoom self.old self.new) }
    {
        self.candidates.push(kept, node, counted)?;
        Ok(())
    }

    /// A tree, if one is given, becomes a candidate, which is counted by these compilers.
    ///
    /// # Errors
    ///
    /// `Memory` where the candidates couldn't grow.
    #[inline(always)]
    pub fn append(
        &mut self,
        symbol: &[u8],
        kept: Surroundings,
        candidate: Option<u32>,
        counted: Counted,
    ) -> Result<(), Refusal>
        requires candidate { IsAliasBelow (length self.old.nodes.nodes) candidate }
        requires there { AreCandidatesThere (length self.old.nodes.nodes) self.old.candidates }
        ensures nodes { self.new.nodes ≡ self.old.nodes }
        ensures packs { self.new.packs ≡ self.old.packs }
        ensures counting { self.new.counting ≡ self.old.counting }
        ensures there { OnOk result (AreCandidatesThere (length self.old.nodes.nodes) self.new.candidates) }
        ensures is { OnOk result ((state : State) → with_candidate (counted_of counted) (around_of (trees_in symbol.now self.old.nodes) kept) (trees_in symbol.now self.old.nodes) candidate
            (record state { candidates = candidates_of (trees_in symbol.now self.old.nodes) self.old.candidates.list.items })
            ≡ record state { candidates = candidates_of (trees_in symbol.now self.old.nodes) self.new.candidates.list.items }) }
        ensures memory { IfErr result (λ e. e ≡ refusals.Memory) }
        ensures keeps { KeepsRoom self.old self.new }
        ensures full { OnErr result (LacksRoom self.old self.new) }
    {
        match candidate {
            None => Ok(()),
            Some(node) => {
                self.push_candidate(kept, node, counted)?;
                Ok(())
            }
        }
    }

    /// Two trees, or fewer, become candidates one after the other.
    ///
    /// # Errors
    ///
    /// `Memory` where the candidates couldn't grow.
    #[tactic(auto, unfolding(crate::specs::Reads::with_marks))]
    pub(crate) fn append_marks(
        &mut self,
        symbol: &[u8],
        kept: Surroundings,
        marks: Marks,
    ) -> Result<(), Refusal>
        requires first { IsAliasBelow (length self.old.nodes.nodes) marks.first }
        requires second { IsAliasBelow (length self.old.nodes.nodes) marks.second }
        requires there { AreCandidatesThere (length self.old.nodes.nodes) self.old.candidates }
        ensures nodes { self.new.nodes ≡ self.old.nodes }
        ensures packs { self.new.packs ≡ self.old.packs }
        ensures counting { self.new.counting ≡ self.old.counting }
        ensures there { OnOk result (AreCandidatesThere (length self.old.nodes.nodes) self.new.candidates) }
        ensures is { OnOk result ((state : State) → with_marks (around_of (trees_in symbol.now self.old.nodes) kept) (trees_in symbol.now self.old.nodes) marks
            (record state { candidates = candidates_of (trees_in symbol.now self.old.nodes) self.old.candidates.list.items })
            ≡ record state { candidates = candidates_of (trees_in symbol.now self.old.nodes) self.new.candidates.list.items }) }
        ensures memory { IfErr result (λ e. e ≡ refusals.Memory) }
        ensures keeps { KeepsRoom self.old self.new }
        ensures full { OnErr result (LacksRoom self.old self.new) }
    {
        self.append(symbol, kept, marks.first, marks.first_by)?;
        self.append(symbol, kept, marks.second, marks.second_by)?;
        Ok(())
    }

    /// What a token denotes.
    #[inline(always)]
    pub fn text_at(&self, symbol: &[u8], row: Row) -> Part
        requires from { row.from ≤ row.to }
        requires to { row.to ≤ length symbol.now }
        ensures { IsTaken (cpp_view symbol.now) symbol.now self.now self.now row (Ok result) }
    {
        Part::Text(Span {
            from: row.from,
            to: row.to,
        })
    }
}
