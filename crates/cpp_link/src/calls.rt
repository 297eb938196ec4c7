// The functions of a lambda: their types are those of the lambda's signature.

ghost use Rattle.std.specs.Prelude.{◌≡◌, ℕ, suc, ◌<◌, ◌≤◌, length, slice_index, true, false, IfOk, IfErr, OnOk};
ghost use Rattle.sym_core.specs.Number.{FitsSymbol};
ghost use Rattle.sym_core.specs.declared.refusal.Refusal.TheVariants as refusals;
ghost use Rattle.sym_link.specs.Linking.{HasRoom, owed_behind};
ghost use Rattle.sym_link.specs.Threads.{IsOpenAt};
ghost use Rattle.cpp_grammar.specs.declared.production.Production.TheVariants as productions;
ghost use Rattle.cpp_grammar.specs.Rescoping.{is_by_all};
ghost use Rattle.cpp_grammar.specs.Unfolding.{production_at};
ghost use Rattle.cpp_term.specs.Rescoping as rescoping;
ghost use Rattle.cpp_term.specs.Values.{part, tree_of};
ghost use Rattle.cpp_tree.specs.Nodes.{over, tree_at, piece_of, IsPieceBelow, IsTable};
ghost use Rattle.cpp_references.specs.Around.{counted_of};
ghost use Rattle.cpp_link.specs.Closes.{ends_of};
ghost use Rattle.cpp_link.specs.Counting.{awaited_of, counting_of};
ghost use Rattle.cpp_link.specs.Grows.{HasPlace};
ghost use Rattle.cpp_link.specs.LinkReading.{link_meaning};
ghost use Rattle.cpp_link.specs.LinkRescoping.{wide_ends, wide_view};
ghost use Rattle.cpp_link.specs.Making.{state_of};
ghost use Rattle.cpp_link.specs.NodeCount.{makes_at_end};
ghost use Rattle.cpp_link.specs.Parts.{trees_in, value_in, values_in, around_of, AreThere, IsKeptThere};
ghost use Rattle.cpp_link.specs.Progress.{Finishes, MakesPart};
ghost use Rattle.cpp_link.specs.Reads.{piece_head, node_head, nth_head};
ghost use Rattle.cpp_link.specs.View.{IsPaid, IsWhole, cpp_view};

use crate::counting::{Awaited, NOTHING_AWAITED};
use crate::linked::Linked;
use crate::part::{Part, Surroundings};
use cpp_grammar::production::Production;
use cpp_references::again::opened;
use cpp_tree::node::{Node, Piece};
use cpp_tree::nodes::NIL;
use sym_core::Refusal;
use sym_link::language::Frame;
use sym_link::parts::put;

/// The head of a name that ends in this piece: only lambdas are distinguished.
#[tactic(auto, unfolding(crate::specs::Reads::piece_head))]
fn head_of_name(piece: Piece) -> u8
    ensures { result ≡ piece_head piece }
{
    match piece {
        Piece::Lambda { .. } => 2,
        Piece::GenericLambda { .. } => 2,
        _ => 1,
    }
}

/// The head of a tree: a number for its outermost form, or 0 for forms that aren't distinguished.
#[tactic(auto, unfolding(crate::specs::Reads::node_head))]
pub(crate) fn head_of(node: Node) -> u8
    ensures { result ≡ node_head node }
{
    match node {
        Node::Alone(piece) => head_of_name(piece),
        Node::InStd(piece) => head_of_name(piece),
        Node::Within { piece, .. } => head_of_name(piece),
        Node::Parameter { .. } => 3,
        Node::Pointer(_) => 4,
        Node::Lvalue(_) => 5,
        Node::Rvalue(_) => 6,
        Node::Array { .. } => 7,
        Node::MemberPointer { .. } => 8,
        Node::FunctionType { .. } => 9,
        Node::Qualified { .. } => 10,
        Node::Expansion(_) => 11,
        _ => 0,
    }
}

impl Linked {
    /// The head of a tree.
    pub(crate) fn head_at(&self, symbol: &[u8], node: u32) -> u8
        requires table { IsTable (over symbol.now self.now.nodes) }
        requires below { node < length self.now.nodes.nodes }
        ensures { result ≡ rescoping.head_of (tree_at (trees_in symbol.now self.now.nodes) node) }
    {
        head_of(opened(&self.nodes, symbol, node).node)
    }

    /// The head of the first of these types, and the others.
    fn first_head(&self, symbol: &[u8], types: u32) -> (u8, u32)
        requires table { IsTable (over symbol.now self.now.nodes) }
        requires below { types < length self.now.nodes.nodes }
        ensures head { result.0 ≡ rescoping.first_head (tree_at (trees_in symbol.now self.now.nodes) types) }
        ensures others { (k : ℕ) → nth_head k (tree_at (trees_in symbol.now self.now.nodes) result.1) ≡ nth_head (suc k) (tree_at (trees_in symbol.now self.now.nodes) types) }
        ensures there { result.1 < length self.now.nodes.nodes }
    {
        match opened(&self.nodes, symbol, types).node {
            Node::Cell { first, rest } => (self.head_at(symbol, first), rest),
            _ => (0, NIL),
        }
    }

    /// The heads of the first four of these types, for the encoding that begins at this place.
    fn heads(&self, symbol: &[u8], encoding: u32, types: u32) -> Awaited
        requires table { IsTable (over symbol.now self.now.nodes) }
        requires below { types < length self.now.nodes.nodes }
        ensures { awaited_of result ≡ rescoping.heads_of encoding (tree_at (trees_in symbol.now self.now.nodes) types) }
    {
        let one = self.first_head(symbol, types);
        let two = self.first_head(symbol, one.1);
        let three = self.first_head(symbol, two.1);
        let four = self.first_head(symbol, three.1);
        Awaited {
            encoding,
            is_called: false,
            first: one.0,
            second: two.0,
            third: three.0,
            fourth: four.0,
        }
    }

    /// The types of a signature, without what it declares.
    fn types_in(&self, symbol: &[u8], signature: u32) -> u32
        requires table { IsTable (over symbol.now self.now.nodes) }
        requires below { signature < length self.now.nodes.nodes }
        ensures heads { (k : ℕ) → nth_head k (tree_at (trees_in symbol.now self.now.nodes) result) ≡ nth_head k (rescoping.types_in (tree_at (trees_in symbol.now self.now.nodes) signature)) }
        ensures there { result < length self.now.nodes.nodes }
    {
        match opened(&self.nodes, symbol, signature).node {
            Node::Declaring { parameters, .. } => parameters,
            _ => signature,
        }
    }

    /// What is awaited after a name that ends in this piece, in the encoding that begins at this place.
    #[tactic(auto, unfolding(cpp_tree::specs::Nodes::piece_of, cpp_term::specs::Rescoping::awaited_by_piece))]
    fn awaited_by_piece(&self, symbol: &[u8], encoding: u32, piece: Piece) -> Awaited
        requires table { IsTable (over symbol.now self.now.nodes) }
        requires there { IsPieceBelow symbol.now (length self.now.nodes.nodes) piece }
        ensures { awaited_of result ≡ rescoping.awaited_by_piece encoding (piece_of symbol.now (trees_in symbol.now self.now.nodes) piece) }
    {
        match piece {
            Piece::Lambda { parameters, .. } => self.heads(symbol, encoding, parameters),
            Piece::GenericLambda { parameters, .. } => {
                let types = self.types_in(symbol, parameters);
                self.heads(symbol, encoding, types).behind_another()
            }
            _ => NOTHING_AWAITED,
        }
    }

    /// What is awaited after this name, if it is a lambda's.
    fn awaited_by(&self, symbol: &[u8], encoding: u32, name: u32) -> Awaited
        requires table { IsTable (over symbol.now self.now.nodes) }
        requires below { name < length self.now.nodes.nodes }
        ensures { awaited_of result ≡ rescoping.awaited_by encoding (tree_at (trees_in symbol.now self.now.nodes) name) }
    {
        match opened(&self.nodes, symbol, name).node {
            Node::Within { piece, .. } => self.awaited_by_piece(symbol, encoding, piece),
            _ => NOTHING_AWAITED,
        }
    }

    /// These types are awaited, unless all compilers count alike.
    fn await_types(&mut self, awaited: Awaited)
        ensures nodes { self.new.nodes ≡ self.old.nodes }
        ensures candidates { self.new.candidates ≡ self.old.candidates }
        ensures packs { self.new.packs ≡ self.old.packs }
        ensures counting { counting_of self.new.counting ≡ elim (is_by_all (counted_of self.old.candidates.by)) [ true ↦ counting_of self.old.counting | false ↦ record (counting_of self.old.counting) { awaited = awaited_of awaited } ] }
    {
        if self.candidates.is_one_list() {
            return;
        }
        self.counting.awaited = awaited;
    }

    /// The rule of a name with an `M` in it closes: if it is a lambda's name, the lambda's types are awaited.
    ///
    /// # Errors
    ///
    /// `Memory` where a list couldn't grow.
    fn close_holder(
        &mut self,
        symbol: &[u8],
        place: u32,
        kept: Surroundings,
        parts: &[Part],
    ) -> Result<Part, Refusal>
        requires fits { FitsSymbol symbol.now }
        requires place { place < length symbol.now }
        requires room { HasPlace symbol.now self.old.nodes 2 }
        requires paid { IsPaid self.old }
        requires whole { IsWhole symbol.now self.old }
        requires there { AreThere symbol.now (length self.old.nodes.nodes) parts.now }
        requires kept { IsKeptThere (length self.old.nodes.nodes) kept }
        ensures value { IfOk result (λ made. value_in symbol.now self.new.nodes made ≡ link_meaning symbol.now productions.Holder (slice_index symbol.now place) place (around_of (trees_in symbol.now self.old.nodes) kept) (values_in symbol.now self.old.nodes parts.now)) }
        ensures state { OnOk result (rescoping.noting (rescoping.awaiting (around_of (trees_in symbol.now self.old.nodes) kept) (tree_of (part (values_in symbol.now self.old.nodes parts.now) 1)) (state_of symbol.now self.old).counting) (state_of symbol.now self.old) ≡ state_of symbol.now self.new) }
        ensures made { MakesPart symbol.now self.old self.new (ends_of productions.Holder parts.now) (makes_at_end productions.Holder (values_in symbol.now self.old.nodes parts.now)) result }
        ensures memory { IfErr result (λ e. e ≡ refusals.Memory) }
    {
        let name = self.node(symbol, self.given(symbol, parts, 1));
        let awaited = self.awaited_by(symbol, kept.encoding, name);
        let made = self.make_rare(symbol, Production::Holder, place, kept, parts)?;
        self.await_types(awaited);
        Ok(made)
    }

    /// The frame's rule, a name with an `M` in it, closes: its meaning takes the place of its parts.
    ///
    /// # Errors
    ///
    /// `Memory` where a list couldn't grow.
    #[tactic(auto, using(crate::proofs::Viewing::own_there, crate::proofs::Viewing::open_whole, crate::proofs::Viewing::open_kept))]
    pub(crate) fn finish_holder(
        &mut self,
        symbol: &[u8],
        frame: &Frame<Surroundings>,
        parts: &mut Vec<Part>,
    ) -> Result<(), Refusal>
        requires holder { production_at frame.now.rule ≡ productions.Holder }
        requires room { HasRoom (cpp_view symbol.now) symbol.now self.old (owed_behind (cpp_view symbol.now) frame.now parts.old.items) }
        requires open { IsOpenAt (cpp_view symbol.now) symbol.now self.old frame.now parts.old.items }
        requires base { frame.now.base ≤ length parts.old.items }
        requires place { frame.now.place < length symbol.now }
        ensures { Finishes (wide_view symbol.now) (wide_ends symbol.now self.old frame.now.place frame.now.kept) symbol.now self.old self.new frame.now parts.old parts.new result }
    {
        let made = self.close_holder(symbol, frame.place, frame.kept, &parts[frame.base..])?;
        put(parts, frame.base, made)
    }
}
