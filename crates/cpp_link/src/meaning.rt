// What productions denote, given their parts: a part, or a part whose node isn't made yet.

ghost use Rattle.std.specs.Prelude.{◌≡◌, ◌<◌, ◌≤◌, length, slice_index, true, ◌^◌};
ghost use Rattle.cpp_term.specs.Meaning.{meaning};
ghost use Rattle.cpp_tree.specs.Nodes.{over, IsTable};
ghost use Rattle.sym_core.specs.Number.{FitsSymbol};
ghost use Rattle.cpp_link.specs.declared.part.Outcome.{Outcome};
ghost use Rattle.cpp_link.specs.declared.part.Part.{Part};
ghost use Rattle.cpp_tree.specs.declared.node.Node.{Node};
ghost use Rattle.cpp_link.specs.Parts.{trees_in, values_in, around_of, outcome_value, AreThere, IsOutcomeThere, IsPrefixThere, name_of};
ghost use Rattle.cpp_link.specs.Closes.{ends_of};
ghost use Rattle.cpp_link.specs.LinkReading.{link_meaning};
ghost use Rattle.cpp_link.specs.Making.{IsCommon, IsRare, nodes_of_outcome};
ghost use Rattle.cpp_link.specs.NodeCount.{makes_at_end};

use crate::families::{Family, family_of};
use crate::linked::Linked;
use crate::part::{Outcome, Part, Surroundings};
use cpp_grammar::production::Production;
use cpp_tree::node::{Mark, Node, Piece, Qualifiers};

/// A tree whose node is still to be made.
#[inline(always)]
pub fn made(node: Node, listed: bool) -> Outcome
    ensures { result ≡ Outcome.Made node listed }
{
    Outcome::Made { node, listed }
}

/// An existing tree.
#[inline(always)]
pub fn tree(node: u32, listed: bool) -> Outcome
    ensures { result ≡ Outcome.There node listed }
{
    Outcome::There { node, listed }
}

/// A piece of a name.
#[inline(always)]
pub(crate) fn piece(piece: Piece) -> Outcome
    ensures { result ≡ Outcome.Given (Part.Piece piece) }
{
    Outcome::Given(Part::Piece(piece))
}

/// One more item before those of a signature.
#[inline(always)]
pub(crate) fn items(first: u32, rest: u32, mark: Mark) -> Outcome
    ensures { result ≡ Outcome.Items (Node.Cell first rest) mark }
{
    Outcome::Items {
        node: Node::Cell { first, rest },
        mark,
    }
}

/// A type under these qualifiers.
#[inline(always)]
pub(crate) fn qualified(restrict: bool, volatile: bool, const_: bool, ty: u32) -> Outcome
    ensures { result ≡ Outcome.Made (Node.Qualified (record { restrict = restrict; volatile = volatile; const_ = const_ }) ty) true }
{
    Outcome::Made {
        node: Node::Qualified {
            qualifiers: Qualifiers {
                restrict,
                volatile,
                const_,
            },
            ty,
        },
        listed: true,
    }
}

impl Linked {
    /// What a rare production that begins at a place denotes, given its parts.
    #[inline(never)]
    pub fn outcome_by_family(
        &self,
        symbol: &[u8],
        production: Production,
        place: u32,
        kept: Surroundings,
        parts: &[Part],
    ) -> Outcome
        requires rare { IsRare production }
        requires fits { FitsSymbol symbol.now }
        requires place { place < length symbol.now }
        requires table { IsTable (over symbol.now self.now.nodes) }
        requires there { AreThere symbol.now (length self.now.nodes.nodes) parts.now }
        requires prefix { IsPrefixThere (length self.now.nodes.nodes) (name_of kept) }
        ensures is { outcome_value symbol.now self.now.nodes result ≡ link_meaning symbol.now production (slice_index symbol.now place) place (around_of (trees_in symbol.now self.now.nodes) kept) (values_in symbol.now self.now.nodes parts.now) }
        ensures there { IsOutcomeThere symbol.now (length self.now.nodes.thunks) (length self.now.nodes.nodes) result }
        ensures nodes { nodes_of_outcome result ≤ ends_of production parts.now }
        ensures makes { nodes_of_outcome result ≡ makes_at_end production (values_in symbol.now self.now.nodes parts.now) }
    {
        match family_of(production) {
            Family::GivenName => self.outcome_of_given_name(symbol, production, place, kept, parts),
            Family::AppliedName => self.outcome_of_applied_name(
                symbol, production, place, kept, parts,
            ),
            Family::Piece => self.outcome_of_piece(symbol, production, place, kept, parts),
            Family::LocalName => self.outcome_of_local_name(symbol, production, place, kept, parts),
            Family::Inherited => self.outcome_of_inherited(symbol, production, place, kept, parts),
            Family::Special => self.outcome_of_special(symbol, production, place, kept, parts),
            Family::Thunk => self.outcome_of_thunk(symbol, production, place, kept, parts),
            Family::Number => self.outcome_of_number(symbol, production, place, kept, parts),
            Family::PlainType => self.outcome_of_plain_type(symbol, production, place, kept, parts),
            Family::CompoundType => self.outcome_of_compound_type(
                symbol, production, place, kept, parts,
            ),
            Family::FunctionType => self.outcome_of_function_type(
                symbol, production, place, kept, parts,
            ),
            Family::Argument => self.outcome_of_argument(symbol, production, place, kept, parts),
            Family::Declaration => self.outcome_of_declaration(
                symbol, production, place, kept, parts,
            ),
            Family::Operation => self.outcome_of_operation(symbol, production, place, kept, parts),
            Family::Operands => self.outcome_of_operands(symbol, production, place, kept, parts),
            Family::Pack => self.outcome_of_pack(symbol, production, place, kept, parts),
            Family::Requirement => self.outcome_of_requirement(
                symbol, production, place, kept, parts,
            ),
            Family::Unresolved => self.outcome_of_unresolved(
                symbol, production, place, kept, parts,
            ),
            Family::Literal => self.outcome_of_literal(symbol, production, place, kept, parts),
            Family::Common => unreachable!(),
        }
    }

    /// What a common production that begins at a place denotes, given its parts.
    #[tactic(auto, unfolding(cpp_term::specs::Meaning::meaning, cpp_term::specs::Meaning::listed_value, cpp_term::specs::Meaning::with_item, cpp_term::specs::Values::tree_of, cpp_term::specs::Values::is_there, crate::specs::Parts::around_of, crate::specs::Parts::outcome_value, crate::specs::Parts::value_of, cpp_tree::specs::Nodes::tree_of, cpp_tree::specs::Nodes::piece_of, cpp_tree::specs::Nodes::thunk_of, cpp_tree::specs::Nodes::adjustment_of, crate::specs::Owed::made_at_end, crate::specs::Closes::ends_of, crate::specs::Making::nodes_of_outcome, crate::specs::NodeCount::makes_at_end))]
    #[inline(always)]
    pub fn outcome(
        &self,
        symbol: &[u8],
        production: Production,
        place: u32,
        kept: Surroundings,
        parts: &[Part],
    ) -> Outcome
        requires common { IsCommon production }
        requires fits { FitsSymbol symbol.now }
        requires place { place < length symbol.now }
        requires table { IsTable (over symbol.now self.now.nodes) }
        requires few { length self.now.nodes.nodes < 2 ^ 32 }
        requires there { AreThere symbol.now (length self.now.nodes.nodes) parts.now }
        requires prefix { IsPrefixThere (length self.now.nodes.nodes) (name_of kept) }
        ensures is { outcome_value symbol.now self.now.nodes result ≡ meaning production (slice_index symbol.now place) (around_of (trees_in symbol.now self.now.nodes) kept) (values_in symbol.now self.now.nodes parts.now) }
        ensures there { IsOutcomeThere symbol.now (length self.now.nodes.thunks) (length self.now.nodes.nodes) result }
        ensures nodes { nodes_of_outcome result ≤ ends_of production parts.now }
        ensures makes { nodes_of_outcome result ≡ makes_at_end production (values_in symbol.now self.now.nodes parts.now) }
    {
        let byte = symbol[place as usize];
        match production {
            // <prefix> ::= <substitution>
            Production::NestWithS
            // <class-enum-type> ::= <nested-name>
            | Production::NestedType
            // <type> ::= <substitution>
            | Production::AbbreviatedType
            // <unscoped-name> ::= St <unqualified-name>, as a type
            | Production::TypeInStd
            // <encoding> ::= <special-name>
            | Production::Special => Outcome::Given(self.given(symbol, parts, 0)),
            // <prefix> ::= <source-name>
            Production::NestSource
            // <prefix> ::= <substitution>, and what is within it, or <template-prefix> ::= <substitution>, and its arguments
            | Production::NestTemplate
            // <prefix> ::= <prefix> <unqualified-name>
            | Production::NestNext => Outcome::Given(self.given(symbol, parts, 1)),
            // <mangled-name> ::= _Z <encoding> [. <vendor-specific suffix>]
            Production::Symbol => made(
                Node::Whole {
                    encoding: self.tree(symbol, parts, 1),
                    suffix: self.text(symbol, parts, 2),
                },
                true,
            ),
            // <type> ::= <class-enum-type> | .., without qualifiers
            Production::PlainType
            // <template-arg> ::= <type>, where the type is no parameter
            | Production::PlainArgument
            // <qualified-type> ::= <qualifiers> <type>
            | Production::QualifiedPlain => tree(self.tree(symbol, parts, 0), true),
            // <builtin-type> ::= v | w | b | c | ..
            Production::Builtin => made(Node::Builtin(byte), true),
            // <bare-function-type> ::= <signature type>+
            Production::Items
            // <template-arg> ::= <type> | X <expression> E | <template-param-decl> <template-arg>, read by itself
            | Production::AnyArgument => made(
                Node::Cell {
                    first: self.tree(symbol, parts, 0),
                    rest: self.list(symbol, parts, 1),
                },
                true,
            ),
            // <template-args> ::= I <template-arg>* E
            Production::Arguments => tree(self.list(symbol, parts, 0), true),
            // <unqualified-name> ::= <source-name>, perhaps with <template-args>
            Production::SourceName
            // <unscoped-name> ::= St <unqualified-name>, as a type, perhaps with <abi-tags>
            | Production::TaggedStdType => self.applied(symbol, parts, false),
            // <type> ::= <substitution> [<template-args>]
            Production::TypeWithS => self.applied(symbol, parts, self.listed(symbol, parts, 0)),
            // <nested-name> ::= N [<CV-qualifiers>] [<ref-qualifier>] <prefix> <unqualified-name> E
            Production::NestedName => Outcome::Given(Part::Named {
                node: self.tree(symbol, parts, 4),
                qualifiers: Qualifiers {
                    restrict: self.there(symbol, parts, 0),
                    volatile: self.there(symbol, parts, 1),
                    const_: self.there(symbol, parts, 2),
                },
                mark: self.mark(symbol, parts, 3),
            }),
            // <encoding> ::= <function name> <bare-function-type> | <data name>
            Production::Encoding => self.encoding(symbol, parts),
            // <nested-name> ::= N .. E
            Production::NestEnd => self.nest_end(symbol, kept.prefix()),
            // <type> ::= R <type> | O <type>
            Production::ReferenceType => self.reference_meant(symbol, byte, parts),
            // <type> ::= P <type>
            Production::Pointer => made(Node::Pointer(self.tree(symbol, parts, 0)), false),
            // <CV-qualifiers> ::= K
            Production::ConstType => qualified(false, false, true, self.tree(symbol, parts, 0)),
            Production::Mark => Outcome::Given(Part::Letter(byte)),
            // <unqualified-name> ::= <source-name>
            Production::SourcePiece => piece(Piece::Source {
                internal: false,
                bytes: self.text(symbol, parts, 0),
            }),
            // <substitution> ::= S_ | S <seq-id> _
            Production::Substitution => Outcome::Given(Part::Nothing),
            _ => unreachable!(),
        }
    }
}
