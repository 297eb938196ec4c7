// The view of a node.
#![tactic(auto)]

ghost use Rattle.std.specs.Prelude.{◌≡◌, ℕ, ◌≤◌, ◌<◌, [], ◌∷◌, length, false};
ghost use Rattle.cpp_term.specs.Erased.{erase};
ghost use Rattle.cpp_grammar.specs.Term.{Term};
ghost use Rattle.cpp_tree.specs.Nodes.{over, trees, tree_of, piece_of, qualifiers_of, mark_of, thunk_of, discriminator_of, is_again, IsSpan, IsBelow, IsPieceBelow, IsTable};
ghost use Rattle.cpp_tree.specs.Fields.{bit, linkage_number, name_fields, named_fields, local_fields, thunk_fields, fields_of, offsets_of};
ghost use Rattle.cpp_tree.specs.Views.{plain_tree, prefix_trees, seen_of, seen_behind, seen_fields, no_text, offsets_in, AreBelow, IsSlotBelow, AreWithin, IsSeen, IsKnownThunk};

use crate::node::{Adjustment, Piece, Thunk, bit};
use crate::tree_production::{
    ABBREVIATION, ABSENT, ADDRESS_OF, ARRAY, BINDINGS, BOOLEAN, BOUNDED, BUILTIN, BUILTIN_WITH_D,
    CLONE, COMPLEX, CONSTRAINED, CONSTRUCTION, CONSTRUCTOR, CONVERSION, COVARIANT_THUNK, DECLARING,
    DECLTYPE, DESTRUCTOR, ENCODING_LITERAL, ENUMERATION, EXPANSION, FUNCTION, FUNCTION_PARAMETER,
    FUNCTION_TYPE, GENERIC_LAMBDA, GUARD, HOLDER, INHERITING, INSTANCE, INTEGER, LAMBDA, LIST,
    LITERAL_OPERATOR, LOCAL, LVALUE, MEMBER_POINTER, NESTED_BINDINGS, NESTED_CONSTRUCTOR,
    NESTED_CONVERSION, NESTED_DESTRUCTOR, NESTED_ENUMERATION, NESTED_GENERIC_LAMBDA,
    NESTED_INHERITING, NESTED_LAMBDA, NESTED_LITERAL_OPERATOR, NESTED_NO_PIECE, NESTED_OPERATOR,
    NESTED_SOURCE, NESTED_STRING_LITERAL, NESTED_UNNAMED, NIL, NO_PIECE, NULL_POINTER,
    NUMBERED_LOCAL, OBJECT, OF_DEFAULT, OF_NAME, OPERATION, OPERATOR, PACK, PARAMETER, POINTER,
    QUALIFIED, RVALUE, SIZED_FLOAT, SOURCE, SPECIAL, STD_BINDINGS, STD_CONSTRUCTOR, STD_CONVERSION,
    STD_DESTRUCTOR, STD_ENUMERATION, STD_GENERIC_LAMBDA, STD_INHERITING, STD_LAMBDA,
    STD_LITERAL_OPERATOR, STD_NO_PIECE, STD_OPERATOR, STD_SOURCE, STD_STRING_LITERAL, STD_UNNAMED,
    STRING_LITERAL, SYMBOL, TABLE_THUNK, TAGGED, THUNK, UNNAMED, VECTOR, VENDOR, WIDE_THUNK,
};
use crate::{Nodes, node};
use sym_core::Span;

/// The view of a node. Its production in `tree_production` says what its numbers, texts and parts
/// are.
#[derive(Clone, Copy)]
pub struct Node {
    pub production: u16,
    pub numbers: [u64; 2],
    pub texts: [Span; 2],
    pub parts: u32,
}

/// A node's view, and the nodes that are its parts.
#[derive(Clone, Copy)]
pub struct NodeView {
    pub node: Node,
    pub parts: [u32; 3],
}

/// The productions of names in one sort of scope, by their pieces.
#[derive(Clone, Copy)]
struct Names {
    source: u16,
    operator: u16,
    literal_operator: u16,
    constructor: u16,
    destructor: u16,
    inheriting: u16,
    lambda: u16,
    generic_lambda: u16,
    conversion: u16,
    enumeration: u16,
    bindings: u16,
    unnamed: u16,
    string_literal: u16,
    no_piece: u16,
}

/// The productions of names in no scope.
const ALONE: Names = Names {
    source: SOURCE,
    operator: OPERATOR,
    literal_operator: LITERAL_OPERATOR,
    constructor: CONSTRUCTOR,
    destructor: DESTRUCTOR,
    inheriting: INHERITING,
    lambda: LAMBDA,
    generic_lambda: GENERIC_LAMBDA,
    conversion: CONVERSION,
    enumeration: ENUMERATION,
    bindings: BINDINGS,
    unnamed: UNNAMED,
    string_literal: STRING_LITERAL,
    no_piece: NO_PIECE,
};

/// The productions of names in std.
const IN_STD: Names = Names {
    source: STD_SOURCE,
    operator: STD_OPERATOR,
    literal_operator: STD_LITERAL_OPERATOR,
    constructor: STD_CONSTRUCTOR,
    destructor: STD_DESTRUCTOR,
    inheriting: STD_INHERITING,
    lambda: STD_LAMBDA,
    generic_lambda: STD_GENERIC_LAMBDA,
    conversion: STD_CONVERSION,
    enumeration: STD_ENUMERATION,
    bindings: STD_BINDINGS,
    unnamed: STD_UNNAMED,
    string_literal: STD_STRING_LITERAL,
    no_piece: STD_NO_PIECE,
};

/// The productions of names in a prefix.
const NESTED: Names = Names {
    source: NESTED_SOURCE,
    operator: NESTED_OPERATOR,
    literal_operator: NESTED_LITERAL_OPERATOR,
    constructor: NESTED_CONSTRUCTOR,
    destructor: NESTED_DESTRUCTOR,
    inheriting: NESTED_INHERITING,
    lambda: NESTED_LAMBDA,
    generic_lambda: NESTED_GENERIC_LAMBDA,
    conversion: NESTED_CONVERSION,
    enumeration: NESTED_ENUMERATION,
    bindings: NESTED_BINDINGS,
    unnamed: NESTED_UNNAMED,
    string_literal: NESTED_STRING_LITERAL,
    no_piece: NESTED_NO_PIECE,
};

const NO_TEXT: Span = Span { from: 0, to: 0 };

/// A node of these numbers and texts, with the first n of these parts.
fn seen(
    production: u16,
    numbers: [u64; 2],
    texts: [Span; 2],
    count: u32,
    parts: [u32; 3],
) -> NodeView
    ensures { result ≡ seen_of production numbers texts count parts }
{
    NodeView {
        node: Node {
            production,
            numbers,
            texts,
            parts: count,
        },
        parts,
    }
}

/// A node with only a number.
fn leaf(production: u16, number: u64) -> NodeView
    ensures { result ≡ seen_of production (number ∷ 0 ∷ []) (no_text ∷ no_text ∷ []) 0 (0 ∷ 0 ∷ 0 ∷ []) }
{
    seen(production, [number, 0], [NO_TEXT; 2], 0, [0; 3])
}

/// A node of one part.
fn one(production: u16, numbers: [u64; 2], text: Span, part: u32) -> NodeView
    ensures { result ≡ seen_of production numbers (text ∷ no_text ∷ []) 1 (part ∷ 0 ∷ 0 ∷ []) }
{
    seen(production, numbers, [text, NO_TEXT], 1, [part, 0, 0])
}

/// A node of two parts.
fn two(production: u16, numbers: [u64; 2], text: Span, first: u32, second: u32) -> NodeView
    ensures { result ≡ seen_of production numbers (text ∷ no_text ∷ []) 2 (first ∷ second ∷ 0 ∷ []) }
{
    seen(production, numbers, [text, NO_TEXT], 2, [first, second, 0])
}

/// A name of this text, after a prefix if there is one.
fn named(production: u16, numbers: [u64; 2], text: Span, prefix: Option<u32>) -> NodeView
    ensures { result ≡ seen_behind production numbers text prefix }
{
    match prefix {
        None => seen(production, numbers, [text, NO_TEXT], 0, [0; 3]),
        Some(prefix) => one(production, numbers, text, prefix),
    }
}

/// The number that records the properties of a function's type, except its mark.
fn linkage_number(c_linkage: bool, noexcept: bool) -> u64
    ensures { result ≡ linkage_number c_linkage noexcept }
{
    (bit(c_linkage) + 2 * bit(noexcept)) as u64
}

/// The view of a name that is a piece, after a prefix if there is one.
#[tactic(auto, unfolding(crate::specs::Fields::name_fields, cpp_term::specs::Erased::erase, crate::specs::Nodes::piece_of))]
fn view_of_name(
    symbol: &[u8],
    nodes: &Nodes,
    names: Names,
    prefix: Option<u32>,
    piece: Piece,
) -> NodeView
    requires piece { IsPieceBelow symbol.now (length nodes.now.nodes) piece }
    ensures fields { (whole : Term) → seen_fields (over symbol.now nodes.now) result ≡ name_fields names (prefix_trees (over symbol.now nodes.now) prefix) whole (erase (piece_of symbol.now (trees (over symbol.now nodes.now)) piece)) }
    ensures texts { AreWithin symbol.now result.node.texts }
    ensures parts { (n : ℕ) → IsSlotBelow n prefix → IsPieceBelow symbol.now n piece → AreBelow n result }
    ensures few { result.node.parts ≤ 3 }
{
    match piece {
        Piece::Source { internal, bytes } => named(
            names.source,
            [bit(internal) as u64, 0],
            bytes,
            prefix,
        ),
        Piece::Operator(first, second) => {
            let letters = [first as u64, second as u64];
            named(names.operator, letters, NO_TEXT, prefix)
        }
        Piece::LiteralOperator(bytes) => named(names.literal_operator, [0; 2], bytes, prefix),
        Piece::Constructor(digit) => named(names.constructor, [digit as u64, 0], NO_TEXT, prefix),
        Piece::Destructor(digit) => named(names.destructor, [digit as u64, 0], NO_TEXT, prefix),
        Piece::Inheriting { digit, base } => match prefix {
            None => one(names.inheriting, [digit as u64, 0], NO_TEXT, base),
            Some(prefix) => two(names.inheriting, [digit as u64, 0], NO_TEXT, prefix, base),
        },
        Piece::Lambda { parameters, number } => match prefix {
            None => one(names.lambda, [number, 0], NO_TEXT, parameters),
            Some(prefix) => two(names.lambda, [number, 0], NO_TEXT, prefix, parameters),
        },
        Piece::GenericLambda { parameters, number } => match prefix {
            None => one(names.generic_lambda, [number, 0], NO_TEXT, parameters),
            Some(prefix) => two(
                names.generic_lambda,
                [number, 0],
                NO_TEXT,
                prefix,
                parameters,
            ),
        },
        Piece::Conversion(ty) => match prefix {
            None => one(names.conversion, [0; 2], NO_TEXT, ty),
            Some(prefix) => two(names.conversion, [0; 2], NO_TEXT, prefix, ty),
        },
        Piece::Enumeration { ty, name } => match prefix {
            None => one(names.enumeration, [0; 2], name, ty),
            Some(prefix) => two(names.enumeration, [0; 2], name, prefix, ty),
        },
        Piece::Bindings(list) => match prefix {
            None => one(names.bindings, [0; 2], NO_TEXT, list),
            Some(prefix) => two(names.bindings, [0; 2], NO_TEXT, prefix, list),
        },
        Piece::Unnamed(number) => named(names.unnamed, [number, 0], NO_TEXT, prefix),
        Piece::StringLiteral => named(names.string_literal, [0; 2], NO_TEXT, prefix),
        Piece::Absent => named(names.no_piece, [0; 2], NO_TEXT, prefix),
    }
}

/// The view of a special name that is about a name, by the last letter of its code.
#[tactic(auto, unfolding(crate::specs::Fields::named_fields))]
fn view_of_special_name(
    symbol: &[u8],
    nodes: &Nodes,
    letter: u8,
    name: u32,
    qualifiers: node::Qualifiers,
    mark: node::Mark,
) -> NodeView
    ensures fields { seen_fields (over symbol.now nodes.now) result ≡ named_fields letter (plain_tree (over symbol.now nodes.now) name) (qualifiers_of qualifiers) (mark_of mark) }
    ensures texts { AreWithin symbol.now result.node.texts }
    ensures parts { result.parts ≡ name ∷ 0 ∷ 0 ∷ [] }
    ensures count { result.node.parts ≡ 1 }
{
    let qualifiers = qualifiers.number() as u64;
    let mark = mark.number() as u64;
    if letter == b'V' {
        one(GUARD, [qualifiers, mark], NO_TEXT, name)
    } else {
        one(
            OF_NAME,
            [letter as u64, qualifiers + 8 * mark],
            NO_TEXT,
            name,
        )
    }
}

/// The view of a name in a function.
#[tactic(auto, unfolding(crate::specs::Fields::local_fields))]
fn view_of_local(
    symbol: &[u8],
    nodes: &Nodes,
    encoding: u32,
    entity: u32,
    discriminator: Option<Span>,
) -> NodeView
    requires discriminator { IsSpan symbol.now discriminator }
    ensures fields { seen_fields (over symbol.now nodes.now) result ≡ local_fields (plain_tree (over symbol.now nodes.now) encoding) (plain_tree (over symbol.now nodes.now) entity) (discriminator_of symbol.now discriminator) }
    ensures texts { AreWithin symbol.now result.node.texts }
    ensures parts { result.parts ≡ encoding ∷ entity ∷ 0 ∷ [] }
    ensures count { result.node.parts ≡ 2 }
{
    match discriminator {
        None => two(LOCAL, [0; 2], NO_TEXT, encoding, entity),
        Some(digits) => two(NUMBERED_LOCAL, [0; 2], digits, encoding, entity),
    }
}

/// A thunk with two offsets.
fn offsets(production: u16, first: node::Signed, second: node::Signed, encoding: u32) -> NodeView
    ensures { result ≡ seen_of production (bit first.negative ∷ bit second.negative ∷ []) (first.digits ∷ second.digits ∷ []) 1 (encoding ∷ 0 ∷ 0 ∷ []) }
{
    seen(
        production,
        [bit(first.negative) as u64, bit(second.negative) as u64],
        [first.digits, second.digits],
        1,
        [encoding, 0, 0],
    )
}

/// The view of a thunk.
#[tactic(auto, unfolding(crate::specs::Fields::thunk_fields, crate::specs::Fields::bit, crate::specs::Nodes::thunk_of, crate::specs::Nodes::adjustment_of))]
fn view_of_thunk(symbol: &[u8], nodes: &Nodes, thunk: Option<Thunk>, encoding: u32) -> NodeView
    requires thunk { IsKnownThunk symbol.now thunk }
    ensures fields { seen_fields (over symbol.now nodes.now) result ≡ thunk_fields (thunk_of symbol.now thunk) (plain_tree (over symbol.now nodes.now) encoding) }
    ensures texts { AreWithin symbol.now result.node.texts }
    ensures parts { result.parts ≡ encoding ∷ 0 ∷ 0 ∷ [] }
    ensures count { result.node.parts ≡ 1 }
{
    match thunk {
        None => one(THUNK, [0; 2], NO_TEXT, encoding),
        Some(Thunk::Adjusting(this)) => match this {
            Adjustment::NonVirtual(offset) => {
                one(
                    THUNK,
                    [bit(offset.negative) as u64, 0],
                    offset.digits,
                    encoding,
                )
            }
            Adjustment::ByTable(offset, place) => offsets(TABLE_THUNK, offset, place, encoding),
        },
        Some(Thunk::Covariant(this, returned)) => match this {
            Adjustment::NonVirtual(first) => match returned {
                Adjustment::NonVirtual(second) => {
                    offsets(COVARIANT_THUNK, first, second, encoding)
                }
                Adjustment::ByTable(_, _) => one(WIDE_THUNK, [0; 2], NO_TEXT, encoding),
            },
            Adjustment::ByTable(_, _) => one(WIDE_THUNK, [0; 2], NO_TEXT, encoding),
        },
    }
}

/// The view of a node, and its parts. Without arguments an alias is its tree.
pub fn view_of(symbol: &[u8], nodes: &Nodes, node: node::Node) -> NodeView
    requires table { IsTable (over symbol.now nodes.now) }
    requires node { IsBelow symbol.now (length nodes.now.thunks) (length nodes.now.nodes) node }
    ensures fields { seen_fields (over symbol.now nodes.now) result ≡ fields_of (erase (tree_of symbol.now nodes.now.thunks (trees (over symbol.now nodes.now)) node)) }
    ensures texts { AreWithin symbol.now result.node.texts }
    ensures parts { (n : ℕ) → IsBelow symbol.now (length nodes.now.thunks) n node → AreBelow n result }
    ensures few { result.node.parts ≤ 3 }
{
    match node {
        node::Node::Reargued { tree, .. } => view_of_tree(symbol, nodes, tree),
        _ => view_of_own(symbol, nodes, node),
    }
}

/// The view of the tree at a node.
fn view_of_tree(symbol: &[u8], nodes: &Nodes, tree: u32) -> NodeView
    requires table { IsTable (over symbol.now nodes.now) }
    requires tree { tree < length nodes.now.nodes }
    ensures fields { seen_fields (over symbol.now nodes.now) result ≡ fields_of (plain_tree (over symbol.now nodes.now) tree) }
    ensures texts { AreWithin symbol.now result.node.texts }
    ensures parts { AreBelow tree result }
    ensures few { result.node.parts ≤ 3 }
{
    let place = nodes.resolved(symbol, tree);
    view_of_own(symbol, nodes, nodes.node(symbol, place.node))
}

/// The view of a node that isn't an alias.
#[tactic(auto, unfolding(crate::specs::Nodes::is_again))]
fn view_of_own(symbol: &[u8], nodes: &Nodes, node: node::Node) -> NodeView
    requires table { IsTable (over symbol.now nodes.now) }
    requires own { is_again node ≡ false }
    requires node { IsBelow symbol.now (length nodes.now.thunks) (length nodes.now.nodes) node }
    ensures { IsSeen (over symbol.now nodes.now) node result }
{
    let none = [0; 2];
    match node {
        // Generated by tools/trees.py. An alias of a tree has no node here: that tree is shown in its place.
        node::Node::Absent => leaf(ABSENT, 0),
        node::Node::Nil => leaf(NIL, 0),
        node::Node::Function {
            name,
            qualifiers,
            mark,
            returned,
            parameters,
            ..
        } => seen(
            FUNCTION,
            [qualifiers.number() as u64, mark.number() as u64],
            [NO_TEXT; 2],
            3,
            [name, returned, parameters],
        ),
        node::Node::Object {
            name,
            qualifiers,
            mark,
        } => one(
            OBJECT,
            [qualifiers.number() as u64, mark.number() as u64],
            NO_TEXT,
            name,
        ),
        node::Node::Special { letter, ty } => one(SPECIAL, [letter as u64, 0], NO_TEXT, ty),
        node::Node::Thunk { thunk, encoding } => {
            view_of_thunk(symbol, nodes, nodes.thunk(thunk), encoding)
        }
        node::Node::OfName {
            letter,
            name,
            qualifiers,
            mark,
        } => view_of_special_name(symbol, nodes, letter, name, qualifiers, mark),
        node::Node::Construction {
            derived,
            digits,
            parent,
        } => two(CONSTRUCTION, none, digits, derived, parent),
        node::Node::CloneOf { letter, encoding } => {
            one(CLONE, [letter as u64, 0], NO_TEXT, encoding)
        }
        node::Node::Alone(piece) => view_of_name(symbol, nodes, ALONE, None, piece),
        node::Node::InStd(piece) => view_of_name(symbol, nodes, IN_STD, None, piece),
        node::Node::Within { prefix, piece } => {
            view_of_name(symbol, nodes, NESTED, Some(prefix), piece)
        }
        node::Node::Instance {
            template,
            arguments,
        } => two(INSTANCE, none, NO_TEXT, template, arguments),
        node::Node::Local {
            encoding,
            entity,
            discriminator,
        } => view_of_local(symbol, nodes, encoding, entity, discriminator),
        node::Node::Holder(name) => one(HOLDER, none, NO_TEXT, name),
        node::Node::Tagged {
            of_structor,
            name,
            tag,
        } => one(TAGGED, [bit(of_structor) as u64, 0], tag, name),
        node::Node::OfDefault { digits, entity } => one(OF_DEFAULT, none, digits, entity),
        node::Node::Abbreviation(letter) => leaf(ABBREVIATION, letter as u64),
        node::Node::Parameter { number, .. } => leaf(PARAMETER, number as u64),
        node::Node::Declaring { heads, parameters } => {
            two(DECLARING, none, NO_TEXT, heads, parameters)
        }
        node::Node::Builtin(letter) => leaf(BUILTIN, letter as u64),
        node::Node::BuiltinWithD(letter) => leaf(BUILTIN_WITH_D, letter as u64),
        node::Node::SizedFloat { digits, end } => {
            seen(SIZED_FLOAT, [end as u64, 0], [digits, NO_TEXT], 0, [0; 3])
        }
        node::Node::Constrained { letter, concept } => {
            one(CONSTRAINED, [letter as u64, 0], NO_TEXT, concept)
        }
        node::Node::Vendor(name) => seen(VENDOR, none, [name, NO_TEXT], 0, [0; 3]),
        node::Node::Pointer(ty) => one(POINTER, none, NO_TEXT, ty),
        node::Node::Lvalue(ty) => one(LVALUE, none, NO_TEXT, ty),
        node::Node::Rvalue(ty) => one(RVALUE, none, NO_TEXT, ty),
        node::Node::Array { digits, element } => one(ARRAY, none, digits, element),
        node::Node::Bounded { bound, element } => two(BOUNDED, none, NO_TEXT, bound, element),
        node::Node::MemberPointer { class, member } => {
            two(MEMBER_POINTER, none, NO_TEXT, class, member)
        }
        node::Node::FunctionType {
            c_linkage,
            noexcept,
            mark,
            returned,
            parameters,
        } => two(
            FUNCTION_TYPE,
            [linkage_number(c_linkage, noexcept), mark.number() as u64],
            NO_TEXT,
            returned,
            parameters,
        ),
        node::Node::Qualified { qualifiers, ty } => {
            one(QUALIFIED, [qualifiers.number() as u64, 0], NO_TEXT, ty)
        }
        node::Node::Vector { digits, element } => one(VECTOR, none, digits, element),
        node::Node::Complex(ty) => one(COMPLEX, none, NO_TEXT, ty),
        node::Node::Decltype(expression) => one(DECLTYPE, none, NO_TEXT, expression),
        node::Node::Expansion(pattern) => one(EXPANSION, none, NO_TEXT, pattern),
        node::Node::Integer { ty, value } => {
            one(INTEGER, [bit(value.negative) as u64, 0], value.digits, ty)
        }
        node::Node::Boolean(truth) => leaf(BOOLEAN, bit(truth) as u64),
        node::Node::NullPointer => leaf(NULL_POINTER, 0),
        node::Node::EncodingLiteral(encoding) => one(ENCODING_LITERAL, none, NO_TEXT, encoding),
        node::Node::AddressOf(encoding) => one(ADDRESS_OF, none, NO_TEXT, encoding),
        node::Node::Operation {
            first,
            second,
            left,
            right,
        } => two(
            OPERATION,
            [first as u64, second as u64],
            NO_TEXT,
            left,
            right,
        ),
        node::Node::FunctionParameter(digits) => {
            seen(FUNCTION_PARAMETER, none, [digits, NO_TEXT], 0, [0; 3])
        }
        node::Node::Pack(elements) => one(PACK, none, NO_TEXT, elements),
        node::Node::Cell { first, rest } => two(LIST, none, NO_TEXT, first, rest),
        node::Node::Whole { encoding, suffix } => one(SYMBOL, none, suffix, encoding),
        node::Node::Reargued { .. } => leaf(ABSENT, 0),
    }
}

/// The offsets of a node that is a thunk.
pub fn offsets_of(symbol: &[u8], nodes: &Nodes, node: node::Node) -> Option<Thunk>
    requires table { IsTable (over symbol.now nodes.now) }
    requires node { IsBelow symbol.now (length nodes.now.thunks) (length nodes.now.nodes) node }
    ensures offsets { offsets_in symbol.now result ≡ offsets_of (erase (tree_of symbol.now nodes.now.thunks (trees (over symbol.now nodes.now)) node)) }
    ensures within { IsKnownThunk symbol.now result }
{
    match node {
        node::Node::Reargued { tree, .. } => {
            let place = nodes.resolved(symbol, tree);
            own_offsets_of(symbol, nodes, nodes.node(symbol, place.node))
        }
        _ => own_offsets_of(symbol, nodes, node),
    }
}

/// The offsets of a node that isn't an alias, if the node is a thunk.
#[tactic(auto, unfolding(crate::specs::Fields::offsets_of, cpp_term::specs::Erased::erase, crate::specs::Nodes::tree_of, crate::specs::Nodes::is_again))]
fn own_offsets_of(symbol: &[u8], nodes: &Nodes, node: node::Node) -> Option<Thunk>
    requires table { IsTable (over symbol.now nodes.now) }
    requires node { IsBelow symbol.now (length nodes.now.thunks) (length nodes.now.nodes) node }
    requires own { is_again node ≡ false }
    ensures offsets { offsets_in symbol.now result ≡ offsets_of (erase (tree_of symbol.now nodes.now.thunks (trees (over symbol.now nodes.now)) node)) }
    ensures within { IsKnownThunk symbol.now result }
{
    match node {
        node::Node::Thunk { thunk, .. } => nodes.thunk(thunk),
        _ => None,
    }
}
