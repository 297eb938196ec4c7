// Encodings and function types: what is read from lists.

ghost use Rattle.std.specs.Prelude.{◌≡◌, ◌<◌, ◌^◌, ◌&&◌, length, IfSome, true};
ghost use Rattle.cpp_term.specs.Values as values;
ghost use Rattle.cpp_term.specs.Values.{part};
ghost use Rattle.cpp_term.specs.Between.{no_items};
ghost use Rattle.cpp_term.specs.Meaning.{parameters, encoding_of, is_void, is_nil};
ghost use Rattle.cpp_tree.specs.Nodes.{over, tree_at, tree_of, IsTable};
ghost use Rattle.cpp_link.specs.Parts.{trees_in, values_in, outcome_value, AreThere, IsOutcomeThere};
ghost use Rattle.cpp_link.specs.Making.{nodes_of_outcome};
ghost use Rattle.cpp_link.specs.Reads.{void_node, nil_node, split_of, parameters_by, encoding_by, IsSplitThere};
ghost use Rattle.cpp_term.specs.Scope.{has_return_type};

use crate::linked::Linked;
use crate::part::{Outcome, Part};
use cpp_references::again::{OpenedNode, opened};
use cpp_tree::node::{Node, under_word};
use cpp_tree::nodes::{ABSENT, NIL};

/// Whether the node is the type void.
#[tactic(auto, unfolding(crate::specs::Reads::void_node))]
fn is_void(node: Node) -> bool
    ensures { result ≡ void_node node }
{
    match node {
        Node::Builtin(letter) => letter == b'v',
        _ => false,
    }
}

/// Whether the node is the empty list.
#[tactic(auto, unfolding(crate::specs::Reads::nil_node))]
fn is_nil(node: Node) -> bool
    ensures { result ≡ nil_node node }
{
    match node {
        Node::Nil => true,
        _ => false,
    }
}

/// The first element of a nonempty list and its other elements, and the argument that applies to
/// both.
#[derive(Clone, Copy)]
pub(crate) struct Split {
    pub first: u32,
    pub rest: u32,
    pub under: Option<u32>,
}

/// The first element of a nonempty list, and its other elements.
#[tactic(auto, unfolding(crate::specs::Reads::split_of))]
fn split_of(list: OpenedNode) -> Option<Split>
    ensures { result ≡ split_of list }
{
    match list.node {
        Node::Cell { first, rest } => Some(Split {
            first,
            rest,
            under: list.under,
        }),
        _ => None,
    }
}

/// Whether the elements are a lone void.
fn is_lone(first: Node, rest: Node) -> bool
    ensures { result ≡ (void_node first && nil_node rest) }
{
    is_void(first) && is_nil(rest)
}

impl Linked {
    /// Whether the elements of a list are a lone void.
    pub fn is_lone_void(&self, symbol: &[u8], first: u32, rest: u32) -> bool
        requires table { IsTable (over symbol.now self.now.nodes) }
        requires first { first < length self.now.nodes.nodes }
        requires rest { rest < length self.now.nodes.nodes }
        ensures { result ≡ (is_void (tree_at (trees_in symbol.now self.now.nodes) first) && is_nil (tree_at (trees_in symbol.now self.now.nodes) rest)) }
    {
        let item = opened(&self.nodes, symbol, first).node;
        let others = opened(&self.nodes, symbol, rest).node;
        is_lone(item, others)
    }

    /// The first element of a nonempty list, and its other elements.
    fn split(&self, symbol: &[u8], list: u32) -> Option<Split>
        requires table { IsTable (over symbol.now self.now.nodes) }
        requires below { list < length self.now.nodes.nodes }
        ensures parameters { parameters (tree_at (trees_in symbol.now self.now.nodes) list) ≡ parameters_by (trees_in symbol.now self.now.nodes) result (tree_at (trees_in symbol.now self.now.nodes) list) }
        ensures encoding { (name : values.Value) → encoding_of name (tree_at (trees_in symbol.now self.now.nodes) list) ≡ encoding_by (trees_in symbol.now self.now.nodes) name result (tree_at (trees_in symbol.now self.now.nodes) list) }
        ensures there { IfSome result (IsSplitThere (length self.now.nodes.nodes)) }
    {
        split_of(opened(&self.nodes, symbol, list))
    }

    /// The parameters in a list of items: a lone void is no parameter.
    pub fn parameters(&self, symbol: &[u8], list: u32) -> u32
        requires table { IsTable (over symbol.now self.now.nodes) }
        requires below { list < length self.now.nodes.nodes }
        ensures is { tree_at (trees_in symbol.now self.now.nodes) result ≡ parameters (tree_at (trees_in symbol.now self.now.nodes) list) }
        ensures there { result < length self.now.nodes.nodes }
    {
        let Some(items) = self.split(symbol, list) else {
            return list;
        };
        if self.is_lone_void(symbol, items.first, items.rest) {
            return NIL;
        }
        list
    }

    /// What an encoding denotes: an object, or a function with its return type.
    #[tactic(auto, unfolding(crate::specs::Parts::outcome_value, cpp_tree::specs::Nodes::tree_of, crate::specs::Reads::encoding_by, crate::specs::Making::nodes_of_outcome))]
    #[inline(always)]
    pub fn encoding(&self, symbol: &[u8], parts: &[Part]) -> Outcome
        requires table { IsTable (over symbol.now self.now.nodes) }
        requires few { length self.now.nodes.nodes < 2 ^ 32 }
        requires there { AreThere symbol.now (length self.now.nodes.nodes) parts.now }
        ensures is { outcome_value symbol.now self.now.nodes result ≡ values.tree (encoding_of (part (values_in symbol.now self.now.nodes parts.now) 0) (no_items (part (values_in symbol.now self.now.nodes parts.now) 1))) true }
        ensures there { IsOutcomeThere symbol.now (length self.now.nodes.thunks) (length self.now.nodes.nodes) result }
        ensures nodes { nodes_of_outcome result ≡ 1 }
    {
        let name = self.tree(symbol, parts, 0);
        let qualifiers = self.qualifiers(symbol, parts, 0);
        let mark = self.reference(symbol, parts, 0);
        let list = self.list(symbol, parts, 1);
        let Some(items) = self.split(symbol, list) else {
            let node = Node::Object {
                name,
                qualifiers,
                mark,
            };
            return Outcome::Made { node, listed: true };
        };
        if self.returns(symbol, name) {
            let node = Node::Function {
                name,
                qualifiers,
                mark,
                returned: items.first,
                parameters: self.parameters(symbol, items.rest),
                under: under_word(items.under),
            };
            return Outcome::Made { node, listed: true };
        }
        let node = Node::Function {
            name,
            qualifiers,
            mark,
            returned: ABSENT,
            parameters: self.parameters(symbol, list),
            under: under_word(None),
        };
        Outcome::Made { node, listed: true }
    }

    /// Whether an encoding of this name has a return type.
    fn returns(&self, symbol: &[u8], name: u32) -> bool
        requires table { IsTable (over symbol.now self.now.nodes) }
        requires below { name < length self.now.nodes.nodes }
        ensures { result ≡ has_return_type (tree_at (trees_in symbol.now self.now.nodes) name) }
    {
        self.nodes.entry(name).returns
    }
}
