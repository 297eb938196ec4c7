// What the productions of expressions denote.

ghost use Rattle.std.specs.Prelude.{◌≡◌, ℕ, ◌<◌, ◌≤◌, List, length, cond, nat_eq, true};
ghost use Rattle.cpp_grammar.specs.Standing.{is_code};
ghost use Rattle.cpp_term.specs.Term as term;
ghost use Rattle.cpp_term.specs.Term.{Term};
ghost use Rattle.cpp_term.specs.Values as values;
ghost use Rattle.cpp_term.specs.Values.{tree_of, piece_of, letter_of, part};
ghost use Rattle.cpp_term.specs.Between.{no_items};
ghost use Rattle.cpp_term.specs.Meaning.{operation_or_address, operation_by, first_letter, second_letter, in_parentheses, is_comma, ends_arguments, enclosed_argument, enclosed_element};
ghost use Rattle.cpp_tree.specs.declared.node.Thunk as thunks;
ghost use Rattle.cpp_tree.specs.Nodes as nodes;
ghost use Rattle.cpp_tree.specs.Nodes.{over, tree_at, IsBelow, IsTable};
ghost use Rattle.cpp_link.specs.declared.part.Outcome.{Outcome};
ghost use Rattle.cpp_link.specs.declared.part.Part.{Part};
ghost use Rattle.cpp_link.specs.Making.{nodes_of_outcome};
ghost use Rattle.cpp_link.specs.NodeCount.{enclosed_at_end, elements_at_end, operation_at_end};
ghost use Rattle.cpp_link.specs.Parts.{trees_in, tree_of_node, values_in, outcome_value, AreThere, IsOutcomeThere};
ghost use Rattle.cpp_link.specs.Reads.{comma_node, ending_node};

use crate::linked::Linked;
use crate::meaning::made;
use crate::part::{Outcome, Part};
use cpp_references::again::opened;
use cpp_tree::node::{Node, Piece};
use cpp_tree::nodes::ABSENT;

/// An expression in parentheses.
#[tactic(auto, unfolding(cpp_tree::specs::Nodes::tree_of, cpp_term::specs::Meaning::in_parentheses))]
pub(crate) fn in_parentheses(expression: u32) -> Node
    ensures is { (s : List ℕ) (us : List thunks.Thunk) (ts : List Term) → tree_at ts 0 ≡ term.absent → nodes.tree_of s us ts result ≡ in_parentheses (tree_at ts expression) }
    ensures there { (s : List ℕ) (held n : ℕ) → 0 < n → expression < n → IsBelow s held n result }
{
    Node::Operation {
        first: b'(',
        second: b')',
        left: expression,
        right: ABSENT,
    }
}

/// Whether the two letters of a code are these two.
#[tactic(auto, unfolding(cpp_grammar::specs::Standing::is_code))]
fn is_code(a: u8, b: u8, first: u8, second: u8) -> bool
    ensures { result ≡ is_code a b first second }
{
    first == a && second == b
}

/// Whether the node is an operation whose operator is a comma.
#[tactic(auto, unfolding(crate::specs::Reads::comma_node))]
fn is_comma(node: Node) -> bool
    ensures { result ≡ comma_node node }
{
    match node {
        Node::Operation { first, second, .. } => is_code(b'c', b'm', first, second),
        _ => false,
    }
}

/// Whether the node's operator is a comma, `>` or `>>`, which would seem to continue or to end
/// template arguments.
#[tactic(auto, unfolding(crate::specs::Reads::ending_node))]
fn ends_arguments(node: Node) -> bool
    ensures { result ≡ ending_node node }
{
    match node {
        Node::Operation { first, second, .. } => {
            is_code(b'c', b'm', first, second)
                || is_code(b'g', b't', first, second)
                || is_code(b'r', b's', first, second)
        }
        _ => false,
    }
}

/// The first letter of an operator.
#[tactic(auto, unfolding(cpp_term::specs::Meaning::first_letter, cpp_tree::specs::Nodes::piece_of))]
pub(crate) fn first_letter(piece: Piece) -> u8
    ensures { (s : List ℕ) (ts : List Term) → result ≡ first_letter (nodes.piece_of s ts piece) }
{
    match piece {
        Piece::Operator(first, _) => first,
        _ => 0,
    }
}

/// The second letter of an operator.
#[tactic(auto, unfolding(cpp_term::specs::Meaning::second_letter, cpp_tree::specs::Nodes::piece_of))]
pub(crate) fn second_letter(piece: Piece) -> u8
    ensures { (s : List ℕ) (ts : List Term) → result ≡ second_letter (nodes.piece_of s ts piece) }
{
    match piece {
        Piece::Operator(_, second) => second,
        _ => 0,
    }
}

impl Linked {
    /// The operation of the operator with these two letters; the address of an encoding is a node
    /// of its own.
    #[tactic(auto, unfolding(cpp_tree::specs::Nodes::tree_of))]
    fn operation(&self, symbol: &[u8], first: u8, second: u8, left: u32, right: u32) -> Node
        requires table { IsTable (over symbol.now self.now.nodes) }
        requires left { left < length self.now.nodes.nodes }
        requires right { right < length self.now.nodes.nodes }
        ensures is { tree_of_node symbol.now self.now.nodes result
            ≡ operation_or_address (is_code 97 100 first second) first second (tree_at (trees_in symbol.now self.now.nodes) left) (tree_at (trees_in symbol.now self.now.nodes) right) }
        ensures there { IsBelow symbol.now (length self.now.nodes.thunks) (length self.now.nodes.nodes) result }
    {
        let operation = Node::Operation {
            first,
            second,
            left,
            right,
        };
        if !is_code(b'a', b'd', first, second) {
            return operation;
        }
        match opened(&self.nodes, symbol, left).node {
            Node::EncodingLiteral(encoding) => Node::AddressOf(encoding),
            _ => operation,
        }
    }

    /// The operation whose operator begins with this letter, given its second letter and its operands in the first part; or an
    /// existing expression.
    #[tactic(auto, unfolding(crate::specs::Parts::outcome_value, crate::specs::Parts::value_of, cpp_term::specs::Meaning::operation_by, crate::specs::Making::nodes_of_outcome, crate::specs::NodeCount::operation_at_end))]
    pub(crate) fn operation_by(&self, symbol: &[u8], first: u8, parts: &[Part]) -> Outcome
        requires table { IsTable (over symbol.now self.now.nodes) }
        requires there { AreThere symbol.now (length self.now.nodes.nodes) parts.now }
        ensures is { outcome_value symbol.now self.now.nodes result ≡ operation_by first (part (values_in symbol.now self.now.nodes parts.now) 0) }
        ensures there { IsOutcomeThere symbol.now (length self.now.nodes.thunks) (length self.now.nodes.nodes) result }
        ensures nodes { nodes_of_outcome result ≤ 1 }
        ensures makes { nodes_of_outcome result ≡ operation_at_end (part (values_in symbol.now self.now.nodes parts.now) 0) }
    {
        let operands = self.given(symbol, parts, 0);
        match operands {
            Part::Pair {
                letter,
                left,
                right,
            } => made(self.operation(symbol, first, letter, left, right), true),
            _ => Outcome::Given(operands),
        }
    }

    /// Whether a node's tree ends arguments.
    fn ends_arguments(&self, symbol: &[u8], node: u32) -> bool
        requires table { IsTable (over symbol.now self.now.nodes) }
        requires below { node < length self.now.nodes.nodes }
        ensures { result ≡ ends_arguments (tree_at (trees_in symbol.now self.now.nodes) node) }
    {
        ends_arguments(opened(&self.nodes, symbol, node).node)
    }

    /// Whether the operator of a node's tree is a comma.
    fn is_comma(&self, symbol: &[u8], node: u32) -> bool
        requires table { IsTable (over symbol.now self.now.nodes) }
        requires below { node < length self.now.nodes.nodes }
        ensures { result ≡ is_comma (tree_at (trees_in symbol.now self.now.nodes) node) }
    {
        is_comma(opened(&self.nodes, symbol, node).node)
    }

    /// An expression as a template argument.
    #[tactic(auto, unfolding(crate::specs::Parts::outcome_value, cpp_term::specs::Meaning::enclosed_argument, crate::specs::Making::nodes_of_outcome, crate::specs::NodeCount::enclosed_at_end))]
    pub(crate) fn enclosed_argument(&self, symbol: &[u8], parts: &[Part]) -> Outcome
        requires table { IsTable (over symbol.now self.now.nodes) }
        requires there { AreThere symbol.now (length self.now.nodes.nodes) parts.now }
        ensures is { outcome_value symbol.now self.now.nodes result ≡ enclosed_argument (part (values_in symbol.now self.now.nodes parts.now) 0) }
        ensures there { IsOutcomeThere symbol.now (length self.now.nodes.thunks) (length self.now.nodes.nodes) result }
        ensures nodes { nodes_of_outcome result ≤ 1 }
        ensures makes { nodes_of_outcome result ≡ enclosed_at_end (values_in symbol.now self.now.nodes parts.now) }
    {
        let expression = self.tree(symbol, parts, 0);
        if self.ends_arguments(symbol, expression) {
            return made(in_parentheses(expression), true);
        }
        Outcome::Given(self.given(symbol, parts, 0))
    }

    /// A list of expressions: an element whose operator is a comma is put in parentheses.
    #[tactic(auto, unfolding(crate::specs::Parts::outcome_value, cpp_tree::specs::Nodes::tree_of, cpp_term::specs::Meaning::enclosed_element, crate::specs::Making::nodes_of_outcome, crate::specs::NodeCount::elements_at_end))]
    pub(crate) fn elements(&self, symbol: &[u8], parts: &[Part]) -> Outcome
        requires table { IsTable (over symbol.now self.now.nodes) }
        requires there { AreThere symbol.now (length self.now.nodes.nodes) parts.now }
        ensures is { outcome_value symbol.now self.now.nodes result
            ≡ values.tree (term.list (enclosed_element (tree_of (part (values_in symbol.now self.now.nodes parts.now) 0))) (no_items (part (values_in symbol.now self.now.nodes parts.now) 1))) true }
        ensures there { IsOutcomeThere symbol.now (length self.now.nodes.thunks) (length self.now.nodes.nodes) result }
        ensures nodes { nodes_of_outcome result ≤ 2 }
        ensures makes { nodes_of_outcome result ≡ elements_at_end (values_in symbol.now self.now.nodes parts.now) }
    {
        let first = self.tree(symbol, parts, 0);
        let rest = self.list(symbol, parts, 1);
        if self.is_comma(symbol, first) {
            return Outcome::Enclosed { first, rest };
        }
        made(Node::Cell { first, rest }, true)
    }

    /// The letter of the part with this number, or the other letter if the part has none.
    #[inline(always)]
    pub(crate) fn letter_or(&self, symbol: &[u8], parts: &[Part], k: usize, byte: u8) -> u8
        ensures { result ≡ cond (nat_eq (letter_of (part (values_in symbol.now self.now.nodes parts.now) k)) 0) byte (letter_of (part (values_in symbol.now self.now.nodes parts.now) k)) }
    {
        let letter = self.letter(symbol, parts, k);
        if letter == 0 { byte } else { letter }
    }
}
