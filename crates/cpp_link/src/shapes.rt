// What the productions that distinguish cases of their parts denote.

ghost use Rattle.std.specs.Prelude.{◌≡◌, ℕ, ◌+◌, ◌<◌, ◌≤◌, List, length, true, false, not, ◌&&◌, if◌then◌else◌};
ghost use Rattle.cpp_term.specs.Term as term;
ghost use Rattle.cpp_term.specs.Term.{Term};
ghost use Rattle.cpp_term.specs.Values as values;
ghost use Rattle.cpp_term.specs.Values.{tree_of, letter_of, is_there, text_of, part, prefix_tree, prefix_listed};
ghost use Rattle.cpp_term.specs.Between.{applied, no_items, extended, inherited};
ghost use Rattle.cpp_term.specs.Meaning.{is_void, is_nil, parameters, signature_with, declared_first, default_entity, discriminator_of, reference_to, listed_value, signature_or, operator_or_literal};
ghost use Rattle.cpp_grammar.specs.Term.{any_value};
ghost use Rattle.cpp_grammar.specs.Values.{unqualified, local_number};
ghost use Rattle.cpp_tree.specs.Nodes as nodes;
ghost use Rattle.cpp_tree.specs.declared.node.Thunk as thunks;
ghost use Rattle.cpp_tree.specs.Nodes.{over, tree_at, IsTable, IsSpan, IsPieceBelow, IsBelow};
ghost use Rattle.cpp_link.specs.Closes.{name_closes};
ghost use Rattle.cpp_link.specs.LinkReading.{in_64_bits};
ghost use Rattle.cpp_link.specs.Making.{nodes_of_outcome};
ghost use Rattle.cpp_link.specs.NodeCount.{name_at_end, lambda_at_end, inheriting_at_end};
ghost use Rattle.cpp_link.specs.Parts.{trees_in, tree_of_node, value_of, value_in, values_in, prefix_of, outcome_value, IsThere, AreThere, IsOutcomeThere, IsPrefixThere};

use crate::linked::Linked;
use crate::meaning::{made, tree};
use crate::numbers::{local_number, normal};
use crate::part::{Outcome, Part, Prefix};
use crate::values::part;
use cpp_tree::node::{Mark, Node, Piece, Qualifiers};
use cpp_tree::nodes::{ABSENT, NIL};
use sym_core::Span;

/// The name so far with one more piece.
#[tactic(auto, unfolding(cpp_tree::specs::Nodes::tree_of, crate::specs::Parts::prefix_of, cpp_term::specs::Between::extended))]
fn with_piece(prefix: Prefix, piece: Piece) -> Node
    ensures is { (s : List ℕ) (us : List thunks.Thunk) (ts : List Term) → nodes.tree_of s us ts result ≡ extended (prefix_of ts prefix) (nodes.piece_of s ts piece) }
    ensures there { (s : List ℕ) (held n : ℕ) → IsPrefixThere n prefix → IsPieceBelow s n piece → IsBelow s held n result }
{
    match prefix {
        Prefix::Outermost => Node::Alone(piece),
        Prefix::Behind { node, .. } => Node::Within {
            prefix: node,
            piece,
        },
    }
}

/// The digits that tell local names apart.
#[tactic(auto, unfolding(crate::specs::Parts::value_of, cpp_term::specs::Meaning::discriminator_of))]
fn discriminator_of(part: Part) -> Option<Span>
    ensures is { (s : List ℕ) (ts : List Term) → nodes.discriminator_of s result ≡ discriminator_of (value_of s ts part) }
    ensures there { (s : List ℕ) (n : ℕ) → IsThere s n part → IsSpan s result }
{
    match part {
        Part::Text(text) => Some(text),
        _ => None,
    }
}

impl Linked {
    /// The name so far with one more piece.
    pub fn extended(&self, symbol: &[u8], prefix: Prefix, piece: Piece) -> Node
        requires prefix { IsPrefixThere (length self.now.nodes.nodes) prefix }
        requires piece { IsPieceBelow symbol.now (length self.now.nodes.nodes) piece }
        ensures is { tree_of_node symbol.now self.now.nodes result ≡ extended (prefix_of (trees_in symbol.now self.now.nodes) prefix) (nodes.piece_of symbol.now (trees_in symbol.now self.now.nodes) piece) }
        ensures there { IsBelow symbol.now (length self.now.nodes.thunks) (length self.now.nodes.nodes) result }
    {
        with_piece(prefix, piece)
    }

    /// The discriminator of the part with this number.
    pub fn discriminator(&self, symbol: &[u8], parts: &[Part], k: usize) -> Option<Span>
        ensures is { nodes.discriminator_of symbol.now result ≡ discriminator_of (part (values_in symbol.now self.now.nodes parts.now) k) }
        ensures there { AreThere symbol.now (length self.now.nodes.nodes) parts.now → IsSpan symbol.now result }
    {
        discriminator_of(part(parts, k))
    }

    /// A name, with its arguments if it has any.
    #[tactic(auto, unfolding(cpp_term::specs::Between::applied, crate::specs::Parts::outcome_value, crate::specs::Parts::value_of, cpp_tree::specs::Nodes::tree_of, crate::specs::Making::nodes_of_outcome, crate::specs::NodeCount::name_at_end, crate::specs::NodeCount::one_if_arguments, crate::specs::NodeCount::one_if_there))]
    #[inline(always)]
    pub fn applied(&self, symbol: &[u8], parts: &[Part], listed: bool) -> Outcome
        requires table { IsTable (over symbol.now self.now.nodes) }
        requires there { AreThere symbol.now (length self.now.nodes.nodes) parts.now }
        ensures is { outcome_value symbol.now self.now.nodes result ≡ values.tree (applied (tree_of (part (values_in symbol.now self.now.nodes parts.now) 0)) (part (values_in symbol.now self.now.nodes parts.now) 1)) (listed && not (is_there (part (values_in symbol.now self.now.nodes parts.now) 1))) }
        ensures there { IsOutcomeThere symbol.now (length self.now.nodes.thunks) (length self.now.nodes.nodes) result }
        ensures nodes { nodes_of_outcome result ≤ 1 }
        ensures named { nodes_of_outcome result ≤ name_closes parts.now }
        ensures makes { nodes_of_outcome result ≡ name_at_end (values_in symbol.now self.now.nodes parts.now) }
    {
        let name = self.tree(symbol, parts, 0);
        let behind = self.given(symbol, parts, 1);
        match behind {
            Part::Nothing => tree(name, listed),
            Part::Named { node, .. } => tree(node, false),
            _ => made(
                Node::Instance {
                    template: name,
                    arguments: self.node(symbol, behind),
                },
                false,
            ),
        }
    }

    /// Likewise for a tagged name, which takes the place of the name without its tag.
    #[tactic(auto, unfolding(cpp_term::specs::Between::applied, cpp_term::specs::Values::tree_of, cpp_term::specs::Values::is_there, crate::specs::Parts::outcome_value, crate::specs::Parts::value_of, cpp_tree::specs::Nodes::tree_of, crate::specs::Making::nodes_of_outcome, crate::specs::NodeCount::name_at_end, crate::specs::NodeCount::one_if_arguments, crate::specs::NodeCount::one_if_there))]
    pub fn in_place(&self, symbol: &[u8], parts: &[Part]) -> Outcome
        requires table { IsTable (over symbol.now self.now.nodes) }
        requires there { AreThere symbol.now (length self.now.nodes.nodes) parts.now }
        ensures is { outcome_value symbol.now self.now.nodes result ≡ values.named (applied (tree_of (part (values_in symbol.now self.now.nodes parts.now) 0)) (part (values_in symbol.now self.now.nodes parts.now) 1)) unqualified any_value }
        ensures there { IsOutcomeThere symbol.now (length self.now.nodes.thunks) (length self.now.nodes.nodes) result }
        ensures named { nodes_of_outcome result ≤ name_closes parts.now }
        ensures makes { nodes_of_outcome result ≡ name_at_end (values_in symbol.now self.now.nodes parts.now) }
    {
        let qualifiers = Qualifiers {
            restrict: false,
            volatile: false,
            const_: false,
        };
        let mark = Mark::Any;
        let behind = self.given(symbol, parts, 1);
        match behind {
            Part::Nothing => Outcome::Given(Part::Named {
                node: self.tree(symbol, parts, 0),
                qualifiers,
                mark,
            }),
            Part::Named { node, .. } => Outcome::Given(Part::Named {
                node,
                qualifiers,
                mark,
            }),
            _ => Outcome::Entity {
                node: Node::Instance {
                    template: self.tree(symbol, parts, 0),
                    arguments: self.node(symbol, behind),
                },
                qualifiers,
                mark,
            },
        }
    }

    /// What the end of a nested name denotes: the name so far.
    #[tactic(auto, unfolding(crate::specs::Parts::outcome_value, crate::specs::Parts::value_of, crate::specs::Parts::prefix_of, cpp_term::specs::Values::prefix_tree, cpp_term::specs::Values::prefix_listed, crate::specs::Making::nodes_of_outcome))]
    pub fn nest_end(&self, symbol: &[u8], prefix: Prefix) -> Outcome
        requires table { IsTable (over symbol.now self.now.nodes) }
        requires there { IsPrefixThere (length self.now.nodes.nodes) prefix }
        ensures is { outcome_value symbol.now self.now.nodes result ≡ values.tree (prefix_tree (prefix_of (trees_in symbol.now self.now.nodes) prefix)) (prefix_listed (prefix_of (trees_in symbol.now self.now.nodes) prefix)) }
        ensures there { IsOutcomeThere symbol.now (length self.now.nodes.thunks) (length self.now.nodes.nodes) result }
        ensures nodes { nodes_of_outcome result ≡ 0 }
    {
        match prefix {
            Prefix::Outermost => tree(ABSENT, true),
            Prefix::Behind { node, listed } => tree(node, listed),
        }
    }

    /// What a reference denotes.
    #[tactic(auto, unfolding(crate::specs::Parts::outcome_value, cpp_tree::specs::Nodes::tree_of, cpp_term::specs::Meaning::listed_value, cpp_term::specs::Meaning::reference_to, cpp_term::specs::Values::tree_of, crate::specs::Making::nodes_of_outcome))]
    pub fn reference_meant(&self, symbol: &[u8], byte: u8, parts: &[Part]) -> Outcome
        requires table { IsTable (over symbol.now self.now.nodes) }
        requires there { AreThere symbol.now (length self.now.nodes.nodes) parts.now }
        ensures is { outcome_value symbol.now self.now.nodes result ≡ listed_value (reference_to byte (part (values_in symbol.now self.now.nodes parts.now) 0)) }
        ensures there { IsOutcomeThere symbol.now (length self.now.nodes.thunks) (length self.now.nodes.nodes) result }
        ensures nodes { nodes_of_outcome result ≡ 1 }
    {
        let inner = self.tree(symbol, parts, 0);
        if byte == b'R' {
            return made(Node::Lvalue(inner), true);
        }
        made(Node::Rvalue(inner), true)
    }

    /// What the rest of a signature with a mark denotes.
    #[tactic(auto, unfolding(cpp_term::specs::Meaning::signature_or, crate::specs::Parts::outcome_value, crate::specs::Parts::value_of, crate::specs::Making::nodes_of_outcome))]
    pub fn signature_or(&self, symbol: &[u8], mark: Mark, rest: Part) -> Outcome
        requires table { IsTable (over symbol.now self.now.nodes) }
        requires there { IsThere symbol.now (length self.now.nodes.nodes) rest }
        ensures is { outcome_value symbol.now self.now.nodes result ≡ signature_or (nodes.mark_of mark) (value_in symbol.now self.now.nodes rest) }
        ensures there { IsOutcomeThere symbol.now (length self.now.nodes.thunks) (length self.now.nodes.nodes) result }
        ensures nodes { nodes_of_outcome result ≡ 0 }
    {
        match rest {
            Part::Nothing => Outcome::Given(Part::Signature { list: NIL, mark }),
            _ => Outcome::Given(rest),
        }
    }

    /// The operator of two letters, or a literal operator.
    #[tactic(auto, unfolding(cpp_term::specs::Meaning::operator_or_literal, crate::specs::Parts::outcome_value, crate::specs::Parts::value_of, cpp_tree::specs::Nodes::piece_of, crate::specs::Making::nodes_of_outcome))]
    pub fn operator_or_literal(&self, symbol: &[u8], first: u8, rest: Part) -> Outcome
        requires there { IsThere symbol.now (length self.now.nodes.nodes) rest }
        ensures is { outcome_value symbol.now self.now.nodes result ≡ operator_or_literal first (value_in symbol.now self.now.nodes rest) }
        ensures there { IsOutcomeThere symbol.now (length self.now.nodes.thunks) (length self.now.nodes.nodes) result }
        ensures nodes { nodes_of_outcome result ≡ 0 }
    {
        match rest {
            Part::Letter(second) => Outcome::Given(Part::Piece(Piece::Operator(first, second))),
            _ => Outcome::Given(rest),
        }
    }

    /// The entity of a local name in a default argument.
    #[tactic(auto, unfolding(cpp_term::specs::Meaning::default_entity, crate::specs::Parts::outcome_value, crate::specs::Parts::value_of, cpp_tree::specs::Nodes::tree_of, crate::specs::Making::nodes_of_outcome))]
    pub fn default_entity(&self, symbol: &[u8], parts: &[Part]) -> Outcome
        requires table { IsTable (over symbol.now self.now.nodes) }
        requires there { AreThere symbol.now (length self.now.nodes.nodes) parts.now }
        ensures is { outcome_value symbol.now self.now.nodes result ≡ default_entity (text_of (part (values_in symbol.now self.now.nodes parts.now) 0)) (part (values_in symbol.now self.now.nodes parts.now) 1) }
        ensures there { IsOutcomeThere symbol.now (length self.now.nodes.thunks) (length self.now.nodes.nodes) result }
        ensures nodes { nodes_of_outcome result ≡ 1 }
    {
        Outcome::Entity {
            node: Node::OfDefault {
                digits: normal(symbol, self.text(symbol, parts, 0)),
                entity: self.tree(symbol, parts, 1),
            },
            qualifiers: self.qualifiers(symbol, parts, 1),
            mark: self.reference(symbol, parts, 1),
        }
    }

    /// The part with the number `k`, or the part with the number `other` if the first is absent.
    pub fn either(&self, symbol: &[u8], parts: &[Part], k: usize, other: usize) -> Part
        ensures is { value_in symbol.now self.now.nodes result ≡ elim (is_there (part (values_in symbol.now self.now.nodes parts.now) k)) [ true ↦ part (values_in symbol.now self.now.nodes parts.now) k | false ↦ part (values_in symbol.now self.now.nodes parts.now) other ] }
        ensures there { AreThere symbol.now (length self.now.nodes.nodes) parts.now → IsThere symbol.now (length self.now.nodes.nodes) result }
    {
        if self.there(symbol, parts, k) {
            return self.given(symbol, parts, k);
        }
        self.given(symbol, parts, other)
    }

    /// The name of an inherited constructor, with its own arguments if it has any.
    #[tactic(auto, unfolding(cpp_term::specs::Between::inherited, crate::specs::Parts::outcome_value, crate::specs::Parts::value_of, cpp_tree::specs::Nodes::tree_of, cpp_tree::specs::Nodes::piece_of, crate::specs::Making::nodes_of_outcome))]
    pub fn inherited(&self, symbol: &[u8], prefix: Prefix, parts: &[Part]) -> Outcome
        requires table { IsTable (over symbol.now self.now.nodes) }
        requires there { AreThere symbol.now (length self.now.nodes.nodes) parts.now }
        requires prefix { IsPrefixThere (length self.now.nodes.nodes) prefix }
        ensures is { outcome_value symbol.now self.now.nodes result ≡ inherited (prefix_of (trees_in symbol.now self.now.nodes) prefix) (letter_of (part (values_in symbol.now self.now.nodes parts.now) 0)) (part (values_in symbol.now self.now.nodes parts.now) 1) }
        ensures there { IsOutcomeThere symbol.now (length self.now.nodes.thunks) (length self.now.nodes.nodes) result }
        ensures nodes { nodes_of_outcome result ≤ 2 }
        ensures makes { nodes_of_outcome result ≡ inheriting_at_end (part (values_in symbol.now self.now.nodes parts.now) 1) }
    {
        let digit = self.letter(symbol, parts, 0);
        let base = self.given(symbol, parts, 1);
        match base {
            Part::Pair { left, right, .. } => Outcome::Applied {
                name: self.extended(symbol, prefix, Piece::Inheriting { digit, base: right }),
                arguments: left,
            },
            _ => made(
                self.extended(
                    symbol,
                    prefix,
                    Piece::Inheriting {
                        digit,
                        base: self.node(symbol, base),
                    },
                ),
                false,
            ),
        }
    }

    /// What a lambda denotes.
    #[tactic(auto, unfolding(crate::specs::Parts::outcome_value, crate::specs::Parts::value_of, cpp_tree::specs::Nodes::piece_of, cpp_term::specs::Meaning::parameters, crate::specs::Making::nodes_of_outcome, crate::specs::NodeCount::lambda_at_end))]
    pub fn lambda(&self, symbol: &[u8], parts: &[Part]) -> Outcome
        requires table { IsTable (over symbol.now self.now.nodes) }
        requires there { AreThere symbol.now (length self.now.nodes.nodes) parts.now }
        ensures is { outcome_value symbol.now self.now.nodes result ≡ values.piece (term.lambda (signature_with (part (values_in symbol.now self.now.nodes parts.now) 0) (parameters (term.list (tree_of (part (values_in symbol.now self.now.nodes parts.now) 0)) (no_items (part (values_in symbol.now self.now.nodes parts.now) 1))))) (in_64_bits (local_number (text_of (part (values_in symbol.now self.now.nodes parts.now) 3))))) }
        ensures there { IsOutcomeThere symbol.now (length self.now.nodes.thunks) (length self.now.nodes.nodes) result }
        ensures nodes { nodes_of_outcome result ≤ 2 }
        ensures makes { nodes_of_outcome result ≡ lambda_at_end (values_in symbol.now self.now.nodes parts.now) }
    {
        let number = local_number(symbol, self.text(symbol, parts, 3));
        let rest = self.list(symbol, parts, 1);
        match self.given(symbol, parts, 0) {
            Part::Pair { left, right, .. } => self.declaring_lambda(
                symbol, right, left, rest, number,
            ),
            _ => self.undeclared_lambda(symbol, self.tree(symbol, parts, 0), rest, number),
        }
    }

    /// What a lambda that declares parameters of its own denotes.
    #[tactic(auto, unfolding(crate::specs::Parts::outcome_value, cpp_term::specs::Meaning::parameters, crate::specs::Making::nodes_of_outcome))]
    fn declaring_lambda(
        &self,
        symbol: &[u8],
        heads: u32,
        first: u32,
        rest: u32,
        number: u64,
    ) -> Outcome
        requires table { IsTable (over symbol.now self.now.nodes) }
        requires heads { heads < length self.now.nodes.nodes }
        requires first { first < length self.now.nodes.nodes }
        requires rest { rest < length self.now.nodes.nodes }
        ensures is { outcome_value symbol.now self.now.nodes result ≡ values.piece (term.lambda (term.declaring (tree_at (trees_in symbol.now self.now.nodes) heads) (parameters (term.list (tree_at (trees_in symbol.now self.now.nodes) first) (tree_at (trees_in symbol.now self.now.nodes) rest)))) number) }
        ensures there { IsOutcomeThere symbol.now (length self.now.nodes.thunks) (length self.now.nodes.nodes) result }
        ensures makes { nodes_of_outcome result ≡ (if is_void (tree_at (trees_in symbol.now self.now.nodes) first) && is_nil (tree_at (trees_in symbol.now self.now.nodes) rest) then 0 else 1) + 1 }
    {
        if self.is_lone_void(symbol, first, rest) {
            return Outcome::Declaring { heads, number };
        }
        Outcome::DeclaringLambda {
            heads,
            first,
            rest,
            number,
        }
    }

    /// What a lambda that declares no parameters denotes.
    #[tactic(auto, unfolding(crate::specs::Parts::outcome_value, crate::specs::Parts::value_of, cpp_tree::specs::Nodes::piece_of, cpp_term::specs::Meaning::parameters, crate::specs::Making::nodes_of_outcome))]
    fn undeclared_lambda(&self, symbol: &[u8], first: u32, rest: u32, number: u64) -> Outcome
        requires table { IsTable (over symbol.now self.now.nodes) }
        requires first { first < length self.now.nodes.nodes }
        requires rest { rest < length self.now.nodes.nodes }
        ensures is { outcome_value symbol.now self.now.nodes result ≡ values.piece (term.lambda (parameters (term.list (tree_at (trees_in symbol.now self.now.nodes) first) (tree_at (trees_in symbol.now self.now.nodes) rest))) number) }
        ensures there { IsOutcomeThere symbol.now (length self.now.nodes.thunks) (length self.now.nodes.nodes) result }
        ensures nodes { nodes_of_outcome result ≤ 1 }
        ensures makes { nodes_of_outcome result ≡ (if is_void (tree_at (trees_in symbol.now self.now.nodes) first) && is_nil (tree_at (trees_in symbol.now self.now.nodes) rest) then 0 else 1) }
    {
        if self.is_lone_void(symbol, first, rest) {
            return Outcome::Given(Part::Piece(Piece::Lambda {
                parameters: NIL,
                number,
            }));
        }
        Outcome::Lambda {
            first,
            rest,
            number,
        }
    }

    /// The declaration of one more of a lambda's parameters, before its first type.
    #[tactic(auto, unfolding(crate::specs::Parts::outcome_value, crate::specs::Parts::value_of, cpp_tree::specs::Nodes::tree_of, cpp_term::specs::Meaning::declared_first, cpp_term::specs::Values::tree_of, crate::specs::Making::nodes_of_outcome))]
    pub fn declared_first(&self, symbol: &[u8], parts: &[Part]) -> Outcome
        requires table { IsTable (over symbol.now self.now.nodes) }
        requires there { AreThere symbol.now (length self.now.nodes.nodes) parts.now }
        ensures is { outcome_value symbol.now self.now.nodes result ≡ declared_first (part (values_in symbol.now self.now.nodes parts.now) 0) (part (values_in symbol.now self.now.nodes parts.now) 1) }
        ensures there { IsOutcomeThere symbol.now (length self.now.nodes.thunks) (length self.now.nodes.nodes) result }
        ensures nodes { nodes_of_outcome result ≡ 1 }
    {
        let first = self.tree(symbol, parts, 0);
        let behind = self.given(symbol, parts, 1);
        match behind {
            Part::Pair {
                letter,
                left,
                right,
            } => Outcome::MadeOperand {
                letter,
                left: Some(left),
                node: Node::Cell { first, rest: right },
            },
            _ => Outcome::MadeOperand {
                letter: b'T',
                left: Some(self.node(symbol, behind)),
                node: Node::Cell { first, rest: NIL },
            },
        }
    }
}
