// Names with an `M`, in the wide grammar, and inherited constructors. Compilers differ in which of
// these they count among the candidates.

ghost use Rattle.std.specs.Prelude.{◌≡◌, ℕ, ◌+◌, ◌-◌, ◌<◌, ◌≤◌, ◌^◌, MatchOption, length, slice_get, slice_index, true, false, IfSome, IfOk, IfErr, OnOk};
ghost use Rattle.sym_core.specs.Number.{FitsSymbol};
ghost use Rattle.sym_core.specs.Value.{counted_value};
ghost use Rattle.sym_core.specs.declared.NumberKind.TheVariants as kinds;
ghost use Rattle.sym_core.specs.declared.refusal.Refusal.TheVariants as refusals;
ghost use Rattle.sym_link.specs.Driving.{Fails};
ghost use Rattle.sym_link.specs.Linking.{HasRoom, owed_behind};
ghost use Rattle.sym_link.specs.Threads.{IsOpenAt};
ghost use Rattle.sym_link.specs.Unfold.{found};
ghost use Rattle.cpp_grammar.specs.declared.production.Production.TheVariants as productions;
ghost use Rattle.cpp_grammar.specs.Unfolding.{production_at};
ghost use Rattle.cpp_grammar.specs.Values.{by_gcc};
ghost use Rattle.cpp_term.specs.Rescoping.{counted_base, is_instance, can_be_named, has_head, named_by_both};
ghost use Rattle.cpp_term.specs.Values.{State, Around, part};
ghost use Rattle.cpp_tree.specs.Nodes.{over, tree_at, bytes_at, IsAliasBelow, IsWithin, IsTable};
ghost use Rattle.cpp_link.specs.Closes.{ends_of};
ghost use Rattle.cpp_link.specs.Grows.{HasPlace};
ghost use Rattle.cpp_link.specs.LinkReading.{link_meaning};
ghost use Rattle.cpp_link.specs.LinkRescoping.{wide_ends, wide_view};
ghost use Rattle.cpp_link.specs.Making.{state_of};
ghost use Rattle.cpp_link.specs.NodeCount.{makes_at_end};
ghost use Rattle.cpp_link.specs.Parts.{trees_in, value_in, values_in, around_of, candidates_of, IsClosed, IsThere, AreThere, IsKeptThere, AreCandidatesThere};
ghost use Rattle.cpp_link.specs.Progress.{Finishes, MakesPart};
ghost use Rattle.cpp_link.specs.Counting.{expected_of, is_one_place};
ghost use Rattle.cpp_link.specs.Naming.{IsNamed};
ghost use Rattle.cpp_grammar.specs.Rescoping.{may_be};
ghost use Rattle.cpp_link.specs.Reads.{instance_node, node_fits, maybe_candidate, with_candidate};
ghost use Rattle.cpp_link.specs.View.{IsPaid, IsWhole, cpp_view};

use crate::counting::{Counted, Lists, left_by};
use crate::linked::Linked;
use crate::part::{Candidate, Part, Surroundings};
use crate::values::is_listed;
use cpp_grammar::production::Production;
use cpp_references::again::opened;
use cpp_references::candidates::numbered;
use cpp_tree::node::Node;
use sym_core::{Refusal, Span, value36};
use sym_link::language::Frame;
use sym_link::parts::put;

/// Whether the node is a template with arguments.
#[tactic(auto, unfolding(crate::specs::Reads::instance_node))]
fn is_instance_node(node: Node) -> bool
    ensures { result ≡ instance_node node }
{
    match node {
        Node::Instance { .. } => true,
        _ => false,
    }
}

/// Whether two heads may be those of one tree: if one isn't known, the other may be any head.
#[tactic(auto, unfolding(cpp_grammar::specs::Rescoping::may_be))]
fn may_be(head: u8, other: u8) -> bool
    ensures { result ≡ may_be head other }
{
    head == 0 || other == 0 || head == other
}

/// Whether an `S` may name the node at the front of a nested name, or under qualifiers.
#[tactic(auto, unfolding(crate::specs::Reads::node_fits))]
fn node_fits(node: Node, is_prefix: bool, is_qualified: bool) -> bool
    ensures { result ≡ node_fits node is_prefix is_qualified }
{
    match node {
        Node::Absent => false,
        Node::Holder(_) => is_prefix,
        Node::Lvalue(_) => !is_qualified,
        Node::Rvalue(_) => !is_qualified,
        _ => true,
    }
}

/// Whether both lists have the same candidate.
#[tactic(auto, unfolding(crate::specs::Counting::is_one_place))]
fn is_one_place(longer: Option<usize>, shorter: Option<usize>) -> bool
    ensures { result ≡ is_one_place longer shorter }
{
    match longer {
        Some(at) => match shorter {
            Some(other) => at == other,
            None => false,
        },
        None => false,
    }
}

impl Linked {
    /// Whether a node's tree is a template with arguments.
    pub(crate) fn is_instance(&self, symbol: &[u8], node: u32) -> bool
        requires table { IsTable (over symbol.now self.now.nodes) }
        requires below { node < length self.now.nodes.nodes }
        ensures { result ≡ is_instance (tree_at (trees_in symbol.now self.now.nodes) node) }
    {
        is_instance_node(opened(&self.nodes, symbol, node).node)
    }

    /// The candidate at a place, if there is one.
    fn candidate_at(&self, place: Option<usize>) -> Option<Candidate>
        ensures { (k : ℕ) → MatchOption place (length self.now.candidates.list.items ≤ k) (λ at. (at ≡ k) × (at < length self.now.candidates.list.items)) → result ≡ slice_get self.now.candidates.list.items k }
    {
        match place {
            Some(at) => match self.candidates.list.get(at) {
                Some(candidate) => Some(*candidate),
                None => None,
            },
            None => None,
        }
    }

    /// Whether a list has a candidate for the `S` at this place, and the candidate's form fits
    /// there.
    fn can_be_named(&self, symbol: &[u8], place: u32, candidate: Option<Candidate>) -> bool
        requires table { IsTable (over symbol.now self.now.nodes) }
        requires there { IfSome candidate (λ c. c.node < length self.now.nodes.nodes) }
        ensures { result ≡ can_be_named (expected_of self.now.counting.expected) place (maybe_candidate (trees_in symbol.now self.now.nodes) candidate) }
    {
        let Some(c) = candidate else {
            return false;
        };
        let is_prefix = self.counting.expected.is_prefix_at(place);
        let is_qualified = self.counting.expected.is_qualified_at(place);
        node_fits(
            opened(&self.nodes, symbol, c.node).node,
            is_prefix,
            is_qualified,
        )
    }

    /// Whether the candidate may have the head that is expected at this place.
    fn has_head(&self, symbol: &[u8], place: u32, candidate: Option<Candidate>) -> bool
        requires table { IsTable (over symbol.now self.now.nodes) }
        requires there { IfSome candidate (λ c. c.node < length self.now.nodes.nodes) }
        ensures { result ≡ has_head (expected_of self.now.counting.expected) place (maybe_candidate (trees_in symbol.now self.now.nodes) candidate) }
    {
        let Some(c) = candidate else {
            return false;
        };
        let expected = self.counting.expected.head_at(place);
        let own = self.head_at(symbol, c.node);
        may_be(expected, own)
    }

    /// The candidate that this number names at this place, and the lists that remain then.
    fn named_apart(&self, symbol: &[u8], place: u32, number: u64) -> (Option<Candidate>, Lists)
        requires table { IsTable (over symbol.now self.now.nodes) }
        requires candidates { AreCandidatesThere (length self.now.nodes.nodes) self.now.candidates }
        ensures named { IsNamed symbol.now self.now place number result.0 result.1 }
    {
        let longer_at = self.candidates.longer_place(number);
        let shorter_at = self.candidates.shorter_place(number);
        let longer = self.candidate_at(longer_at);
        if is_one_place(longer_at, shorter_at) {
            return (longer, self.counting.lists);
        }
        if self.candidates.by.is_by_some() {
            return (None, Lists::Neither);
        }
        let shorter = self.candidate_at(shorter_at);
        let longer_fits = self.can_be_named(symbol, place, longer);
        let shorter_fits = self.can_be_named(symbol, place, shorter);
        let longer_has = self.has_head(symbol, place, longer);
        let shorter_has = self.has_head(symbol, place, shorter);
        match left_by(
            self.counting.lists,
            longer_fits,
            shorter_fits,
            longer_has,
            shorter_has,
        ) {
            Lists::Longer => (longer, Lists::Longer),
            Lists::Shorter => (shorter, Lists::Shorter),
            Lists::Both => (None, Lists::Both),
            Lists::Neither => (None, Lists::Neither),
        }
    }

    /// The candidate that these digits name at this place, and the lists that remain then.
    pub(crate) fn named_by_lists(
        &self,
        symbol: &[u8],
        place: u32,
        digits: Span,
    ) -> (Option<Candidate>, Lists)
        requires table { IsTable (over symbol.now self.now.nodes) }
        requires digits { IsWithin digits symbol.now }
        requires candidates { AreCandidatesThere (length self.now.nodes.nodes) self.now.candidates }
        ensures named { IsNamed symbol.now self.now place (counted_value kinds.Seq36 (bytes_at symbol.now digits)) result.0 result.1 }
    {
        let counted = value36(&symbol[digits.from as usize..digits.to as usize]);
        let named = numbered(&self.candidates.list, counted);
        if self.candidates.is_one_list() {
            return (named, self.counting.lists);
        }
        match counted {
            Some(number) => self.named_apart(symbol, place, number),
            None => (named, self.counting.lists),
        }
    }

    /// The candidate that these digits name, if it is the same in both lists.
    pub(crate) fn named_by_both(&self, symbol: &[u8], digits: Span) -> Option<Candidate>
        requires digits { IsWithin digits symbol.now }
        requires candidates { AreCandidatesThere (length self.now.nodes.nodes) self.now.candidates }
        ensures is { maybe_candidate (trees_in symbol.now self.now.nodes) result ≡ named_by_both (candidates_of (trees_in symbol.now self.now.nodes) self.now.candidates.list.items) (counted_value kinds.Seq36 (bytes_at symbol.now digits)) }
        ensures there { IfSome result (λ c. c.node < length self.now.nodes.nodes) }
    {
        let counted = value36(&symbol[digits.from as usize..digits.to as usize]);
        let named = numbered(&self.candidates.list, counted);
        if self.candidates.is_one_list() {
            return named;
        }
        match counted {
            Some(number) => {
                let longer = self.candidates.longer_place(number);
                let shorter = self.candidates.shorter_place(number);
                if is_one_place(longer, shorter) {
                    return self.candidate_at(longer);
                }
                None
            }
            None => None,
        }
    }

    /// The base class of an inherited constructor, unless it was counted before the constructor's own arguments, or a number
    /// names it.
    #[tactic(auto, unfolding(crate::specs::Reads::with_candidate, crate::specs::Parts::value_of, cpp_term::specs::Rescoping::counted_base))]
    fn base_to_count(&self, symbol: &[u8], base: Part) -> Option<u32>
        requires table { IsTable (over symbol.now self.now.nodes) }
        requires there { IsThere symbol.now (length self.now.nodes.nodes) base }
        ensures is { (around : Around) (state : State) → counted_base around (value_in symbol.now self.now.nodes base) state ≡ with_candidate by_gcc around (trees_in symbol.now self.now.nodes) result state }
        ensures there { IsAliasBelow (length self.now.nodes.nodes) result }
    {
        match base {
            Part::Pair { .. } => None,
            _ => {
                if is_listed(base) {
                    return None;
                }
                Some(self.node(symbol, base))
            }
        }
    }

    /// The rule of an inherited constructor closes: its base class is counted, unless it was counted before.
    ///
    /// # Errors
    ///
    /// `Memory` where a list couldn't grow.
    fn close_inheriting(
        &mut self,
        symbol: &[u8],
        place: u32,
        kept: Surroundings,
        parts: &[Part],
    ) -> Result<Part, Refusal>
        requires fits { FitsSymbol symbol.now }
        requires place { place < length symbol.now }
        requires room { HasPlace symbol.now self.old.nodes 2 }
        requires paid { IsPaid self.old }
        requires whole { IsWhole symbol.now self.old }
        requires there { AreThere symbol.now (length self.old.nodes.nodes) parts.now }
        requires kept { IsKeptThere (length self.old.nodes.nodes) kept }
        ensures value { IfOk result (λ made. value_in symbol.now self.new.nodes made ≡ link_meaning symbol.now productions.Inheriting (slice_index symbol.now place) place (around_of (trees_in symbol.now self.old.nodes) kept) (values_in symbol.now self.old.nodes parts.now)) }
        ensures state { OnOk result (counted_base (around_of (trees_in symbol.now self.old.nodes) kept) (part (values_in symbol.now self.old.nodes parts.now) 1) (state_of symbol.now self.old) ≡ state_of symbol.now self.new) }
        ensures made { MakesPart symbol.now self.old self.new (ends_of productions.Inheriting parts.now) (makes_at_end productions.Inheriting (values_in symbol.now self.old.nodes parts.now)) result }
        ensures memory { IfErr result (λ e. e ≡ refusals.Memory) }
    {
        let base = self.base_to_count(symbol, self.given(symbol, parts, 1));
        let made = self.make_rare(symbol, Production::Inheriting, place, kept, parts)?;
        self.append(symbol, kept, base, Counted::ByGcc)?;
        Ok(made)
    }

    /// The frame's rule, an inherited constructor, closes: its meaning takes the place of its
    /// parts.
    ///
    /// # Errors
    ///
    /// `Memory` where a list couldn't grow.
    #[tactic(auto, using(crate::proofs::Viewing::own_there, crate::proofs::Viewing::open_whole, crate::proofs::Viewing::open_kept))]
    pub(crate) fn finish_inheriting(
        &mut self,
        symbol: &[u8],
        frame: &Frame<Surroundings>,
        parts: &mut Vec<Part>,
    ) -> Result<(), Refusal>
        requires inheriting { production_at frame.now.rule ≡ productions.Inheriting }
        requires room { HasRoom (cpp_view symbol.now) symbol.now self.old (owed_behind (cpp_view symbol.now) frame.now parts.old.items) }
        requires open { IsOpenAt (cpp_view symbol.now) symbol.now self.old frame.now parts.old.items }
        requires base { frame.now.base ≤ length parts.old.items }
        requires place { frame.now.place < length symbol.now }
        ensures { Finishes (wide_view symbol.now) (wide_ends symbol.now self.old frame.now.place frame.now.kept) symbol.now self.old self.new frame.now parts.old parts.new result }
    {
        let made = self.close_inheriting(symbol, frame.place, frame.kept, &parts[frame.base..])?;
        put(parts, frame.base, made)
    }
}
