// The views of a symbol's nodes.
#![tactic(auto)]

ghost use Rattle.std.specs.Prelude.{◌≡◌, ℕ, ◌<◌, ◌≤◌, List, [], ◌∷◌, length, take, Some, slice_get, if◌then◌else◌};
ghost use Rattle.std.specs.List.{All};
ghost use Rattle.rust_tree.specs.Tree.{Tree, of_path, of_arguments, of_type, of_types, of_bounds, of_bindings, of_constant, of_symbol};
ghost use Rattle.rust_tree.specs.Nodes.{is_some, tree_of, path_of, arguments_of, type_of, types_of, bounds_of, bindings_of, constant_of, symbol_of, HasParts, HasPathParts, HasArgumentsParts, HasTypeParts, HasTypesParts, HasBoundsParts, HasBindingsParts, HasConstantParts, HasSymbolParts, IsWithin};
ghost use Rattle.rust_tree.specs.Layout.{trees_of};
ghost use Rattle.rust_tree.specs.Fields.{fields_of, tree_from, one_if};
ghost use Rattle.rust_tree.specs.Views.{fields_at, IsView, IsSeen, IsLettered, HasNoPathType, seen_of, no_text};

use crate::node;
use crate::node::{Abi, Arguments, Bindings, Bounds, Constant, Name, Path, Ty, Types, Whole};
use crate::symbol::Symbol;
use crate::tree_production::{
    ABI_FUNCTION, ARRAY, BASIC, BOOLEAN, C_FUNCTION, CHARACTER, CONST_POINTER, CONSTANT_ARGUMENT,
    CRATE_ROOT, DYN, FUNCTION, GENERIC, INHERENT_IMPL, INTEGER, LIFETIME_ARGUMENT, MORE_BINDINGS,
    MORE_BOUNDS, MORE_TYPES, MUT_POINTER, MUTABLE_REFERENCE, NESTED, NO_ARGUMENTS, NO_BINDINGS,
    NO_BOUNDS, NO_TYPES, PLACEHOLDER, PUNYCODE_ABI_FUNCTION, PUNYCODE_CRATE_ROOT,
    PUNYCODE_MORE_BINDINGS, PUNYCODE_NESTED, SHARED_REFERENCE, SLICE, SYMBOL, TRAIT_DEFINITION,
    TRAIT_IMPL, TUPLE, TYPE_ARGUMENT,
};
use sym_core::Span;

/// The view of a node. Its production in `tree_production` says what its numbers, texts and parts
/// are.
#[derive(Clone, Copy)]
pub struct Node {
    pub production: u16,
    pub numbers: [u64; 2],
    pub texts: [Span; 2],
    pub parts: u32,
}

/// A node's view, and the nodes that are its parts.
#[derive(Clone, Copy)]
struct NodeView {
    node: Node,
    parts: [u32; 3],
}

const NO_TEXT: Span = Span { from: 0, to: 0 };

/// A node with these numbers and this text, and with the first `count` of these parts.
fn view_of(production: u16, numbers: [u64; 2], text: Span, count: u32, parts: [u32; 3]) -> NodeView
    ensures { result ≡ seen_of production numbers text count parts }
{
    NodeView {
        node: Node {
            production,
            numbers,
            texts: [text, NO_TEXT],
            parts: count,
        },
        parts,
    }
}

/// A node with only a number.
fn leaf(production: u16, number: u64) -> NodeView
    ensures { result ≡ seen_of production (number ∷ 0 ∷ []) no_text 0 (0 ∷ 0 ∷ 0 ∷ []) }
{
    view_of(production, [number, 0], NO_TEXT, 0, [0, 0, 0])
}

/// A node of one part.
fn one(production: u16, number: u64, part: u32) -> NodeView
    ensures { result ≡ seen_of production (number ∷ 0 ∷ []) no_text 1 (part ∷ 0 ∷ 0 ∷ []) }
{
    view_of(production, [number, 0], NO_TEXT, 1, [part, 0, 0])
}

/// A node of two parts.
fn two(production: u16, number: u64, first: u32, second: u32) -> NodeView
    ensures { result ≡ seen_of production (number ∷ 0 ∷ []) no_text 2 (first ∷ second ∷ 0 ∷ []) }
{
    view_of(production, [number, 0], NO_TEXT, 2, [first, second, 0])
}

/// A node of three parts.
fn three(production: u16, number: u64, first: u32, second: u32, third: u32) -> NodeView
    ensures { result ≡ seen_of production (number ∷ 0 ∷ []) no_text 3 (first ∷ second ∷ third ∷ []) }
{
    view_of(production, [number, 0], NO_TEXT, 3, [first, second, third])
}

/// The production of a name that may be in Punycode.
fn by_name(name: Name, plain: u16, punycode: u16) -> u16
    ensures { result ≡ (if is_some name.decoded then punycode else plain) }
{
    if name.decoded.is_some() {
        punycode
    } else {
        plain
    }
}

/// 1 for a mark, and 0 for none.
fn one_if(mark: bool) -> u64
    ensures { result ≡ one_if mark }
{
    if mark { 1 } else { 0 }
}

fn view_of_path(path: Path) -> NodeView
    ensures seen { (s text : List ℕ) (all : List Tree) → HasNoPathType all → HasPathParts s text all path → IsSeen s all result (fields_of (of_path (path_of s all path))) }
    ensures letter { IsLettered result.node }
{
    match path {
        Path::Crate {
            name,
            disambiguator,
        } => {
            let by = by_name(name, CRATE_ROOT, PUNYCODE_CRATE_ROOT);
            view_of(by, [disambiguator, 0], name.bytes, 0, [0, 0, 0])
        }
        Path::InherentImpl {
            disambiguator,
            path,
            self_type,
        } => two(INHERENT_IMPL, disambiguator, path, self_type),
        Path::TraitImpl {
            disambiguator,
            path,
            self_type,
            implemented,
        } => three(TRAIT_IMPL, disambiguator, path, self_type, implemented),
        Path::TraitDefinition {
            self_type,
            implemented,
        } => two(TRAIT_DEFINITION, 0, self_type, implemented),
        Path::Nested {
            namespace,
            parent,
            name,
            disambiguator,
        } => {
            let by = by_name(name, NESTED, PUNYCODE_NESTED);
            let numbers = [namespace as u64, disambiguator];
            view_of(by, numbers, name.bytes, 1, [parent, 0, 0])
        }
        Path::Generic { parent, arguments } => two(GENERIC, 0, parent, arguments),
    }
}

fn view_of_arguments(arguments: Arguments) -> NodeView
    ensures seen { (s text : List ℕ) (all : List Tree) → HasNoPathType all → HasArgumentsParts all arguments → IsSeen s all result (fields_of (of_arguments (arguments_of all arguments))) }
    ensures letter { IsLettered result.node }
{
    match arguments {
        Arguments::None => leaf(NO_ARGUMENTS, 0),
        Arguments::Lifetime { lifetime, rest } => one(LIFETIME_ARGUMENT, lifetime, rest),
        Arguments::Constant { constant, rest } => two(CONSTANT_ARGUMENT, 0, constant, rest),
        Arguments::Ty { argument, rest } => two(TYPE_ARGUMENT, 0, argument, rest),
    }
}

fn view_of_function(
    binder: u16,
    is_unsafe: bool,
    abi: Abi,
    parameters: u32,
    returned: u32,
) -> NodeView
    ensures seen { (s text : List ℕ) (all : List Tree) → HasNoPathType all → HasTypeParts s text all (Ty.Function binder is_unsafe abi parameters returned)
        → IsSeen s all result (fields_of (of_type (type_of s all (Ty.Function binder is_unsafe abi parameters returned)))) }
    ensures letter { IsLettered result.node }
{
    let numbers = [binder as u64, one_if(is_unsafe)];
    let parts = [parameters, returned, 0];
    match abi {
        Abi::Rust => view_of(FUNCTION, numbers, NO_TEXT, 2, parts),
        Abi::C => view_of(C_FUNCTION, numbers, NO_TEXT, 2, parts),
        Abi::Named(name) => {
            let by = by_name(name, ABI_FUNCTION, PUNYCODE_ABI_FUNCTION);
            view_of(by, numbers, name.bytes, 2, parts)
        }
    }
}

fn view_of_type(ty: Ty) -> NodeView
    ensures seen { (s text : List ℕ) (all : List Tree) → HasNoPathType all → HasTypeParts s text all ty → IsSeen s all result (fields_of (of_type (type_of s all ty))) }
    ensures letter { IsLettered result.node }
{
    match ty {
        Ty::Basic(letter) => leaf(BASIC, letter as u64),
        Ty::Array { element, size } => two(ARRAY, 0, element, size),
        Ty::Slice(element) => one(SLICE, 0, element),
        Ty::Tuple(elements) => one(TUPLE, 0, elements),
        Ty::SharedReference { lifetime, referent } => one(SHARED_REFERENCE, lifetime, referent),
        Ty::MutableReference { lifetime, referent } => one(MUTABLE_REFERENCE, lifetime, referent),
        Ty::ConstPointer(pointee) => one(CONST_POINTER, 0, pointee),
        Ty::MutPointer(pointee) => one(MUT_POINTER, 0, pointee),
        Ty::Function {
            binder,
            is_unsafe,
            abi,
            parameters,
            returned,
        } => view_of_function(binder, is_unsafe, abi, parameters, returned),
        Ty::Dyn {
            binder,
            bounds,
            lifetime,
        } => view_of(DYN, [binder as u64, lifetime], NO_TEXT, 1, [bounds, 0, 0]),
    }
}

fn view_of_types(types: Types) -> NodeView
    ensures seen { (s text : List ℕ) (all : List Tree) → HasNoPathType all → HasTypesParts all types → IsSeen s all result (fields_of (of_types (types_of all types))) }
    ensures letter { IsLettered result.node }
{
    match types {
        Types::None => leaf(NO_TYPES, 0),
        Types::More { first, rest } => two(MORE_TYPES, 0, first, rest),
    }
}

fn view_of_bounds(bounds: Bounds) -> NodeView
    ensures seen { (s text : List ℕ) (all : List Tree) → HasNoPathType all → HasBoundsParts all bounds → IsSeen s all result (fields_of (of_bounds (bounds_of all bounds))) }
    ensures letter { IsLettered result.node }
{
    match bounds {
        Bounds::None => leaf(NO_BOUNDS, 0),
        Bounds::More {
            path,
            bindings,
            rest,
        } => three(MORE_BOUNDS, 0, path, bindings, rest),
    }
}

fn view_of_bindings(bindings: Bindings) -> NodeView
    ensures seen { (s text : List ℕ) (all : List Tree) → HasNoPathType all → HasBindingsParts s text all bindings → IsSeen s all result (fields_of (of_bindings (bindings_of s all bindings))) }
    ensures letter { IsLettered result.node }
{
    match bindings {
        Bindings::None => leaf(NO_BINDINGS, 0),
        Bindings::More {
            name,
            bound_type,
            rest,
        } => {
            let by = by_name(name, MORE_BINDINGS, PUNYCODE_MORE_BINDINGS);
            view_of(by, [0, 0], name.bytes, 2, [bound_type, rest, 0])
        }
    }
}

fn view_of_constant(constant: Constant) -> NodeView
    ensures seen { (s text : List ℕ) (all : List Tree) → HasNoPathType all → HasConstantParts s text constant → IsSeen s all result (fields_of (of_constant (constant_of s constant))) }
    ensures letter { IsLettered result.node }
{
    match constant {
        Constant::Integer {
            letter,
            minus,
            digits,
            ..
        } => view_of(
            INTEGER,
            [letter as u64, one_if(minus)],
            digits,
            0,
            [0, 0, 0],
        ),
        Constant::Boolean(truth) => leaf(BOOLEAN, one_if(truth)),
        Constant::Character(character) => leaf(CHARACTER, character as u64),
        Constant::Placeholder => leaf(PLACEHOLDER, 0),
    }
}

fn view_of_symbol(whole: Whole) -> NodeView
    ensures seen { (s text : List ℕ) (all : List Tree) → HasNoPathType all → HasSymbolParts s all whole → IsSeen s all result (fields_of (of_symbol (symbol_of s all whole))) }
    ensures letter { IsLettered result.node }
{
    match whole.instantiating {
        Some(other) => view_of(SYMBOL, [0, 0], whole.suffix, 2, [whole.path, other, 0]),
        None => view_of(SYMBOL, [0, 0], whole.suffix, 1, [whole.path, 0, 0]),
    }
}

fn view_of_node(node: node::Node) -> NodeView
    ensures seen { (s text : List ℕ) (all : List Tree) → HasNoPathType all → HasParts s text all node → IsSeen s all result (fields_of (tree_of s all node)) }
    ensures letter { IsLettered result.node }
{
    match node {
        node::Node::Path(path) => view_of_path(path),
        node::Node::Arguments(arguments) => view_of_arguments(arguments),
        node::Node::Ty(ty) => view_of_type(ty),
        node::Node::Types(types) => view_of_types(types),
        node::Node::Bounds(bounds) => view_of_bounds(bounds),
        node::Node::Bindings(bindings) => view_of_bindings(bindings),
        node::Node::Constant(constant) => view_of_constant(constant),
        node::Node::Symbol(whole) => view_of_symbol(whole),
    }
}

impl Symbol {
    /// A node's view and parts.
    fn view_at(&self, node: u32) -> NodeView
        requires { node < length self.now.table.nodes }
        ensures seen { IsSeen self.now.bytes (take node (trees_of self.now)) result (fields_at self.now node) }
        ensures made { (made : Tree) × (slice_get (trees_of self.now) node ≡ Some made) }
        ensures letter { IsLettered result.node }
    {
        view_of_node(self.stored(node))
    }

    /// The view of a node, whose number is below `counts().nodes`. The call takes no memory.
    ///
    /// A node's tree is made of its production, the numbers, the bytes of the texts and the trees of the parts. Two nodes
    /// have equal trees exactly where all of these are equal.
    pub fn node(&self, node: u32) -> Node
        requires { node < length self.now.table.nodes }
        ensures fields { IsView self.now.bytes result (fields_at self.now node) }
        ensures tree { slice_get (trees_of self.now) node ≡ Some (tree_from (fields_at self.now node)) }
        ensures within { All (λ text. IsWithin text self.now.bytes) result.texts }
        ensures few { result.parts ≤ 3 }
        ensures letter { IsLettered result }
    {
        self.view_at(node).node
    }

    /// A part of a node, which is an earlier node; parts are counted from 0. The node is below `counts().nodes`, and the part is below the
    /// `parts` of the node's view. The call takes no memory.
    pub fn part(&self, node: u32, k: u32) -> u32
        requires node { node < length self.now.table.nodes }
        requires part { k < length (fields_at self.now node).parts }
        ensures earlier { result < node }
        ensures part { slice_get (trees_of self.now) result ≡ slice_get (fields_at self.now node).parts k }
    {
        self.view_at(node).parts[k as usize]
    }
}
