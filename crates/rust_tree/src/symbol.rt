// A symbol that was read.
#![tactic(auto)]

ghost use Rattle.std.specs.Prelude.{◌≡◌, ◌+◌, ◌<◌, ◌≤◌, ◌*◌, ◌^◌, length, take, slice_get, Some};
ghost use Rattle.rust_tree.specs.Symbol as tree;
ghost use Rattle.rust_tree.specs.Nodes.{tree_of, path_of, arguments_of, types_of, bounds_of, bindings_of, constant_of, symbol_of, HasParts, HasPathParts, HasArgumentsParts, HasTypesParts, HasBoundsParts, HasBindingsParts, HasConstantParts, HasSymbolParts, IsPath, IsArguments, IsTypes, IsBounds, IsBindings, IsConstant, IsSymbol, IsWithin, bytes_at};
ghost use Rattle.rust_tree.specs.Layout.{trees_of};
ghost use Rattle.rust_tree.specs.Counts.{IsRead};
ghost use Rattle.rust_tree.specs.Views.{HasNoPathType};

use crate::node::{Arguments, Bindings, Bounds, Constant, Node, Path, Ty, Types, Whole};
use crate::nodes::Nodes;
use std::alloc::Global;
use std::marker::Model;
use sym_core::{Counts, Span};

/// A symbol that was read: its bytes, its nodes, and what reading it took.
#[derive(Drop)]
pub struct Symbol {
    bytes: Vec<u8>,
    nodes: Nodes,
    root: u32,
    rows: u32,
    steps: u32,
}

impl Model for Symbol {
    ghost use Rattle.rust_tree.specs.Layout.{ReadSymbol};
    ghost use Rattle.rust_tree.specs.Counts.{IsRead};

    ghost Value = { ReadSymbol };

    ghost view = { λ s. record { bytes = s.bytes.items; table = s.nodes; root = s.root; rows = s.rows; steps = s.steps } };

    ghost invariant = { λ s. IsRead (record { bytes = s.bytes.items; table = s.nodes; root = s.root; rows = s.rows; steps = s.steps }) };
}

impl Symbol {
    /// The symbol with these nodes; the root is the node of the whole.
    pub fn new(bytes: Vec<u8>, nodes: Nodes, root: u32, rows: u32, steps: u32) -> Symbol
        requires { IsRead (record { bytes = bytes.items; table = nodes; root = root; rows = rows; steps = steps }) }
        ensures { result ≡ record { bytes = bytes.items; table = nodes; root = root; rows = rows; steps = steps } }
    {
        Symbol {
            bytes,
            nodes,
            root,
            rows,
            steps,
        }
    }

    /// The lists of a symbol that is given up: its bytes, and its nodes with the text list. The call takes no memory.
    pub fn into_lists(self) -> (Vec<u8>, Nodes)
        ensures bytes { result.0.items ≡ self.bytes }
        ensures nodes { result.1 ≡ self.table }
    {
        let Symbol { bytes, nodes, .. } = self;
        (bytes, nodes)
    }

    /// The numbers of rows, nodes and steps that reading took.
    pub fn counts(&self) -> Counts
        ensures rows { result.rows ≡ self.now.rows }
        ensures nodes { result.nodes ≡ length self.now.table.nodes }
        ensures steps { result.steps ≡ self.now.steps }
        ensures rows_bound { result.rows ≤ 4 * length self.now.bytes + 4 }
        ensures nodes_bound { result.nodes ≤ 4 * length self.now.bytes + 8 }
        ensures steps_bound { result.steps ≤ 32 * length self.now.bytes + 48 }
        ensures text_bound { length self.now.table.text ≤ 4 * length self.now.bytes + 20 }
        ensures counted { result.rows ≤ result.steps }
        ensures is_read { IsRead self.now }
    {
        Counts {
            rows: self.rows,
            nodes: self.nodes.len() as u32,
            steps: self.steps,
        }
    }

    /// The node of the whole symbol.
    pub fn root_node(&self) -> u32
        ensures root { result ≡ self.now.root }
        ensures within { result < length self.now.table.nodes }
        ensures root_is { (whole : tree.Symbol) × IsSymbol (trees_of self.now) result whole }
        ensures few { length self.now.table.nodes < 2 ^ 32 }
    {
        self.root
    }

    /// The allocator of the symbol's lists.
    pub(crate) fn allocator(&self) -> Global {
        *self.bytes.allocator()
    }

    /// The bytes of a span within the symbol. Each text of a node's view is such a span. The call takes no memory.
    pub fn bytes_of(&self, span: Span) -> &[u8]
        requires { IsWithin span self.now.bytes }
        ensures { result.now ≡ bytes_at self.now.bytes span }
    {
        &self.bytes[span.from as usize..span.to as usize]
    }

    /// Bytes of the text list.
    pub(crate) fn printed_bytes(&self, span: Span) -> &[u8]
        requires { IsWithin span self.now.table.text }
        ensures { result.now ≡ bytes_at self.now.table.text span }
    {
        self.nodes.printed(span)
    }

    /// A node as it is stored.
    pub(crate) fn stored(&self, node: u32) -> Node
        requires { node < length self.now.table.nodes }
        ensures tree { slice_get (trees_of self.now) node ≡ Some (tree_of self.now.bytes (trees_of self.now) result) }
        ensures parts { HasParts self.now.bytes self.now.table.text (take node (trees_of self.now)) result }
        ensures bare { HasNoPathType (trees_of self.now) }
    {
        self.nodes.node(node)
    }

    /// A reference to a node as it is stored.
    fn stored_at(&self, node: u32) -> &Node
        requires { node < length self.now.table.nodes }
        ensures tree { slice_get (trees_of self.now) node ≡ Some (tree_of self.now.bytes (trees_of self.now) result.now) }
        ensures parts { HasParts self.now.bytes self.now.table.text (take node (trees_of self.now)) result.now }
    {
        self.nodes.node_at(node)
    }

    pub(crate) fn path(&self, node: u32) -> &Path
        requires { (p : tree.Path) × IsPath (trees_of self.now) node p }
        ensures tree { IsPath (trees_of self.now) node (path_of self.now.bytes (trees_of self.now) result.now) }
        ensures parts { HasPathParts self.now.bytes self.now.table.text (take node (trees_of self.now)) result.now }
    {
        match self.stored_at(node) {
            Node::Path(path) => path,
            _ => unreachable!(),
        }
    }

    // Generated by tools/rust_productions.py.
    pub(crate) fn arguments(&self, node: u32) -> Arguments
        requires { (a : tree.Arguments) × IsArguments (trees_of self.now) node a }
        ensures tree { IsArguments (trees_of self.now) node (arguments_of (trees_of self.now) result) }
        ensures parts { HasArgumentsParts (take node (trees_of self.now)) result }
    {
        match self.stored(node) {
            Node::Arguments(found) => found,
            _ => unreachable!(),
        }
    }

    // Generated by tools/rust_productions.py.
    pub(crate) fn types(&self, node: u32) -> Types
        requires { (ts : tree.Tys) × IsTypes (trees_of self.now) node ts }
        ensures tree { IsTypes (trees_of self.now) node (types_of (trees_of self.now) result) }
        ensures parts { HasTypesParts (take node (trees_of self.now)) result }
    {
        match self.stored(node) {
            Node::Types(found) => found,
            _ => unreachable!(),
        }
    }

    // Generated by tools/rust_productions.py.
    pub(crate) fn bounds(&self, node: u32) -> Bounds
        requires { (bs : tree.Bounds) × IsBounds (trees_of self.now) node bs }
        ensures tree { IsBounds (trees_of self.now) node (bounds_of (trees_of self.now) result) }
        ensures parts { HasBoundsParts (take node (trees_of self.now)) result }
    {
        match self.stored(node) {
            Node::Bounds(found) => found,
            _ => unreachable!(),
        }
    }

    // Generated by tools/rust_productions.py.
    pub(crate) fn bindings(&self, node: u32) -> Bindings
        requires { (b : tree.Bindings) × IsBindings (trees_of self.now) node b }
        ensures tree { IsBindings (trees_of self.now) node (bindings_of self.now.bytes (trees_of self.now) result) }
        ensures parts { HasBindingsParts self.now.bytes self.now.table.text (take node (trees_of self.now)) result }
    {
        match self.stored(node) {
            Node::Bindings(found) => found,
            _ => unreachable!(),
        }
    }

    pub(crate) fn constant(&self, node: u32) -> Constant
        requires { (k : tree.Constant) × IsConstant (trees_of self.now) node k }
        ensures tree { IsConstant (trees_of self.now) node (constant_of self.now.bytes result) }
        ensures parts { HasConstantParts self.now.bytes self.now.table.text result }
    {
        match self.stored(node) {
            Node::Constant(found) => found,
            _ => unreachable!(),
        }
    }

    pub(crate) fn whole(&self, node: u32) -> Whole
        requires { (w : tree.Symbol) × IsSymbol (trees_of self.now) node w }
        ensures tree { IsSymbol (trees_of self.now) node (symbol_of self.now.bytes (trees_of self.now) result) }
        ensures parts { HasSymbolParts self.now.bytes (take node (trees_of self.now)) result }
    {
        match self.stored(node) {
            Node::Symbol(found) => found,
            _ => unreachable!(),
        }
    }
}
