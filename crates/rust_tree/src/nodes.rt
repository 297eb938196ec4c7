// A table of nodes, and the text list.
#![tactic(auto)]

ghost use Rattle.std.specs.Prelude.{◌≡◌, ℕ, ◌+◌, ◌*◌, ◌<◌, ◌≤◌, ◌^◌, ◌++◌, [], List, length, slice_get, Some, true, IfOk, IfErr, OnErr, OnOk, ◌⊎◌, max, vec_len, vec_capacity};
ghost use Rattle.rust_tree.specs.Nodes.{Table, IsTable, Makes, Grows, trees, IsWithin, bytes_at};
ghost use Rattle.rust_tree.specs.Needs.{need_at, path_needs, arguments_need, type_needs, types_need, bounds_need, bindings_need, symbol_needs, needs};
ghost use Rattle.rust_tree.specs.Tree.{Tree, need_of_tree};
ghost use Rattle.sym_core.specs.declared.Refusal.{Refusal};
ghost use Rattle.sym_core.specs.declared.NameClass.{NameClass};
ghost use Rattle.sym_core.specs.Token.{AreNameBytes};
ghost use Rattle.sym_core.specs.Printed.{printed_name, signed_text, IsDecoded};
ghost use Rattle.sym_room.specs.Room.{IsGrown, most_for};

use crate::node::{Arguments, Bindings, Bounds, Entry, Node, Path, Ty, Types, Whole};
use rust_lifetimes::around_binder;
use std::alloc::{AllocError, Global};
use std::marker::Model;
use sym_core::{Refusal, Span};
use sym_room::make_room;

/// The nodes of a symbol, each after its parts, and the text list, which has the decoded names and the decimals.
#[derive(Drop)]
pub struct Nodes {
    entries: Vec<Entry>,
    text: Vec<u8>,
    // The most nodes that the table had when it was cleared. This number and the number of present nodes bound the memory of the nodes.
    most: usize,
}

impl Model for Nodes {
    ghost use Rattle.std.specs.Prelude.{◌≤◌, max, vec_capacity, vec_len};
    ghost use Rattle.rust_tree.specs.Nodes.{Table};
    ghost use Rattle.sym_room.specs.Room.{most_for};

    ghost Value = { Table };

    ghost view = { λ t. record { nodes = t.entries.items; text = t.text.items; node_room = vec_capacity t.entries; text_room = vec_capacity t.text; most = t.most } };

    ghost invariant = { λ t. vec_capacity t.entries ≤ most_for (max t.most (vec_len t.entries)) };
}

/// Makes room for more nodes.
///
/// # Errors
///
/// `AllocError` where there is no memory; the list is unchanged then.
// It isn't inlined, so that adding a node for which there is room takes few registers.
#[inline(never)]
fn grow(entries: &mut Vec<Entry>) -> Result<(), AllocError>
    ensures items { entries.new.items ≡ entries.old.items }
    ensures len { vec_len entries.new ≡ vec_len entries.old }
    ensures ok { OnOk result (vec_len entries.new + 1 ≤ vec_capacity entries.new) }
    ensures grown { IsGrown (vec_capacity entries.old) (vec_capacity entries.new) (vec_len entries.old + 1) }
    ensures full { OnErr result (vec_capacity entries.old < vec_len entries.old + 1) }
    ensures err { OnErr result (vec_capacity entries.new ≡ vec_capacity entries.old) }
{
    make_room(entries, 1)
}

/// Makes room for one more node, if there is no room left.
///
/// # Errors
///
/// `AllocError` where there is no memory; the list is unchanged then.
#[inline(always)]
fn make_room_for_one(entries: &mut Vec<Entry>) -> Result<(), AllocError>
    ensures items { entries.new.items ≡ entries.old.items }
    ensures len { vec_len entries.new ≡ vec_len entries.old }
    ensures ok { OnOk result (vec_len entries.new + 1 ≤ vec_capacity entries.new) }
    ensures grown { IsGrown (vec_capacity entries.old) (vec_capacity entries.new) (vec_len entries.old + 1) }
    ensures full { OnErr result (vec_capacity entries.old < vec_len entries.old + 1) }
    ensures err { OnErr result (vec_capacity entries.new ≡ vec_capacity entries.old) }
{
    if entries.len() < entries.capacity() {
        return Ok(());
    }
    grow(entries)
}

impl Nodes {
    /// A table without nodes.
    pub fn new(alloc: Global) -> Nodes
        ensures nodes { result.nodes ≡ [] }
        ensures text { result.text ≡ [] }
        ensures most { result.most ≡ 0 }
    {
        Nodes {
            entries: Vec::new(alloc),
            text: Vec::new(alloc),
            most: 0,
        }
    }

    /// How many nodes there are.
    pub fn len(&self) -> usize
        ensures { result ≡ length self.now.nodes }
    {
        self.entries.len()
    }

    /// How many nodes of 56 bytes the table has memory for: at most twice the most nodes that it had at
    /// once since it was made, and 8 more.
    pub fn room(&self) -> usize
        ensures is { result ≡ self.now.node_room }
        ensures bounded { result ≤ most_for (max self.now.most (length self.now.nodes)) }
    {
        self.entries.capacity()
    }

    /// Bytes of the text list.
    pub fn printed(&self, span: Span) -> &[u8]
        requires { IsWithin span self.now.text }
        ensures { result.now ≡ bytes_at self.now.text span }
    {
        &self.text[span.from as usize..span.to as usize]
    }

    /// The node with this number.
    pub fn node(&self, number: u32) -> Node
        requires { number < length self.now.nodes }
        ensures { (need : ℕ) × (slice_get self.now.nodes number ≡ Some (record { node = result; need = need })) }
    {
        *self.node_at(number)
    }

    /// A reference to the node with this number.
    pub(crate) fn node_at(&self, number: u32) -> &Node
        requires { number < length self.now.nodes }
        ensures { (need : ℕ) × (slice_get self.now.nodes number ≡ Some (record { node = result.now; need = need })) }
    {
        &self.entries[number as usize].node
    }

    /// How many enclosing bound lifetimes close the tree of a node.
    pub fn need(&self, node: u32) -> u64
        ensures { (s : List ℕ) (t : Tree) → IsTable s self.now → slice_get (trees s self.now.nodes) node ≡ Some t → result ≡ need_of_tree t }
    {
        self.stored_need(node)
    }

    /// The number of lifetimes that a node is noted to need, 0 where there is no such node.
    fn stored_need(&self, node: u32) -> u64
        ensures { result ≡ need_at self.now.nodes node }
    {
        match self.entries.get(node as usize) {
            Some(entry) => entry.need,
            None => 0,
        }
    }

    #[inline(always)]
    fn path_need(&self, path: &Path) -> u64
        ensures { result ≡ path_needs self.now.nodes path.now }
    {
        match path {
            Path::Crate { .. } => 0,
            Path::InherentImpl {
                path,
                self_type,
                ..
            } => self.stored_need(*path).max(self.stored_need(*self_type)),
            Path::TraitImpl {
                path,
                self_type,
                implemented,
                ..
            } => self
                .stored_need(*path)
                .max(self.stored_need(*self_type))
                .max(self.stored_need(*implemented)),
            Path::TraitDefinition {
                self_type,
                implemented,
            } => self
                .stored_need(*self_type)
                .max(self.stored_need(*implemented)),
            Path::Nested { parent, .. } => self.stored_need(*parent),
            Path::Generic { parent, arguments } => self
                .stored_need(*parent)
                .max(self.stored_need(*arguments)),
        }
    }

    fn arguments_need(&self, arguments: &Arguments) -> u64
        ensures { result ≡ arguments_need self.now.nodes arguments.now }
    {
        match arguments {
            Arguments::None => 0,
            Arguments::Lifetime { lifetime, rest } => (*lifetime).max(self.stored_need(*rest)),
            Arguments::Constant { rest, .. } => self.stored_need(*rest),
            Arguments::Ty { argument, rest } => self
                .stored_need(*argument)
                .max(self.stored_need(*rest)),
        }
    }

    fn type_need(&self, ty: &Ty) -> u64
        ensures { result ≡ type_needs self.now.nodes ty.now }
    {
        match ty {
            Ty::Basic(_) => 0,
            Ty::Array { element, .. } => self.stored_need(*element),
            Ty::Slice(element) => self.stored_need(*element),
            Ty::Tuple(elements) => self.stored_need(*elements),
            Ty::SharedReference { lifetime, referent } => (*lifetime).max(self.stored_need(
                *referent,
            )),
            Ty::MutableReference { lifetime, referent } => (*lifetime).max(self.stored_need(
                *referent,
            )),
            Ty::ConstPointer(pointee) => self.stored_need(*pointee),
            Ty::MutPointer(pointee) => self.stored_need(*pointee),
            Ty::Function {
                binder,
                parameters,
                returned,
                ..
            } => {
                let within = self
                    .stored_need(*parameters)
                    .max(self.stored_need(*returned));
                around_binder(within, *binder as u64)
            }
            Ty::Dyn {
                binder,
                bounds,
                lifetime,
            } => around_binder(self.stored_need(*bounds), *binder as u64).max(*lifetime),
        }
    }

    fn types_need(&self, types: &Types) -> u64
        ensures { result ≡ types_need self.now.nodes types.now }
    {
        match types {
            Types::None => 0,
            Types::More { first, rest } => self.stored_need(*first).max(self.stored_need(*rest)),
        }
    }

    fn bounds_need(&self, bounds: &Bounds) -> u64
        ensures { result ≡ bounds_need self.now.nodes bounds.now }
    {
        match bounds {
            Bounds::None => 0,
            Bounds::More {
                path,
                bindings,
                rest,
            } => self
                .stored_need(*path)
                .max(self.stored_need(*bindings))
                .max(self.stored_need(*rest)),
        }
    }

    fn bindings_need(&self, bindings: &Bindings) -> u64
        ensures { result ≡ bindings_need self.now.nodes bindings.now }
    {
        match bindings {
            Bindings::None => 0,
            Bindings::More {
                bound_type,
                rest,
                ..
            } => self.stored_need(*bound_type).max(self.stored_need(*rest)),
        }
    }

    fn symbol_need(&self, whole: &Whole) -> u64
        ensures { result ≡ symbol_needs self.now.nodes whole.now }
    {
        let other = match whole.instantiating {
            Some(path) => self.stored_need(path),
            None => 0,
        };
        self.stored_need(whole.path).max(other)
    }

    #[inline(always)]
    fn node_need(&self, node: &Node) -> u64
        ensures { result ≡ needs self.now.nodes node.now }
    {
        match node {
            Node::Path(path) => self.path_need(path),
            Node::Arguments(arguments) => self.arguments_need(arguments),
            Node::Ty(ty) => self.type_need(ty),
            Node::Types(types) => self.types_need(types),
            Node::Bounds(bounds) => self.bounds_need(bounds),
            Node::Bindings(bindings) => self.bindings_need(bindings),
            Node::Constant(_) => 0,
            Node::Symbol(whole) => self.symbol_need(whole),
        }
    }

    /// Adds a node after its parts, and answers its number.
    #[inline(always)]
    pub fn push(&mut self, node: Node) -> Result<u32, Refusal>
        requires room { length self.old.nodes + 1 < 2 ^ 32 }
        ensures number { IfOk result (λ number. number ≡ length self.old.nodes) }
        ensures stands { IfOk result (λ number. (s : List ℕ) (t : Tree) → IsTable s self.old → Makes s self.old node t → IsTable s self.new × (slice_get (trees s self.new.nodes) number ≡ Some t)) }
        ensures grows { Grows self.old self.new }
        ensures one { length self.new.nodes ≤ length self.old.nodes + 1 }
        ensures more { OnOk result (length self.new.nodes ≡ length self.old.nodes + 1) }
        ensures text { self.new.text ≡ self.old.text }
        ensures same { OnErr result (self.new ≡ self.old) }
        ensures memory { IfErr result (λ r. r ≡ Refusal.Memory) }
        ensures full { OnErr result (self.old.node_room < length self.old.nodes + 1) }
        ensures node_room { self.old.node_room ≤ self.new.node_room }
        ensures text_room { self.new.text_room ≡ self.old.text_room }
        ensures most { self.new.most ≡ self.old.most }
    {
        let number = self.entries.len() as u32;
        let need = self.node_need(&node);
        let entry = Entry { node, need };
        if make_room_for_one(&mut self.entries).is_err() {
            return Err(Refusal::Memory);
        }
        self.entries.push_reserved(entry);
        Ok(number)
    }

    /// Adds what a name in Punycode prints to the text list, and answers the span of the added
    /// text.
    ///
    /// # Errors
    ///
    /// `Memory` where a list couldn't grow; the table is then as it was.
    pub fn push_name(&mut self, alloc: Global, bytes: &[u8]) -> Result<Span, Refusal>
        requires name { AreNameBytes NameClass.Rust bytes.now }
        requires room { length self.old.text + 4 * length bytes.now + 10 < 2 ^ 32 }
        ensures nodes { self.new.nodes ≡ self.old.nodes }
        ensures within { IfOk result (λ span. IsWithin span self.new.text) }
        ensures printed { IfOk result (λ span. bytes_at self.new.text span ≡ printed_name true bytes.now) }
        ensures text { IfOk result (λ span. self.new.text ≡ self.old.text ++ printed_name true bytes.now) }
        ensures span { IfOk result (λ span. (span.from ≡ length self.old.text) × (span.to ≡ length self.new.text)) }
        ensures few { IfOk result (λ span. span.to ≤ span.from + 4 * length bytes.now + 8) }
        ensures grows { Grows self.old self.new }
        ensures stays { (s : List ℕ) → IsTable s self.old → IsTable s self.new }
        ensures same { OnErr result (self.new ≡ self.old) }
        ensures memory { IfErr result (λ r. r ≡ Refusal.Memory) }
        ensures full { OnErr result (IsDecoded true bytes.now ⊎ (self.old.text_room < length self.old.text + length (printed_name true bytes.now))) }
        ensures node_room { self.new.node_room ≡ self.old.node_room }
        ensures text_room { self.old.text_room ≤ self.new.text_room }
        ensures most { self.new.most ≡ self.old.most }
    {
        let span = sym_core::push_name(alloc, bytes, true, &mut self.text)?;
        Ok(span)
    }

    /// Adds a decimal to the text list, after a minus if one is requested, and answers the span of
    /// the added text.
    ///
    /// # Errors
    ///
    /// `Memory` where a list couldn't grow; the table is then as it was.
    pub fn push_decimal(&mut self, alloc: Global, value: u128, minus: bool) -> Result<Span, Refusal>
        requires room { length self.old.text + 40 < 2 ^ 32 }
        ensures nodes { self.new.nodes ≡ self.old.nodes }
        ensures within { IfOk result (λ span. IsWithin span self.new.text) }
        ensures printed { IfOk result (λ span. bytes_at self.new.text span ≡ signed_text minus value) }
        ensures text { IfOk result (λ span. self.new.text ≡ self.old.text ++ signed_text minus value) }
        ensures span { IfOk result (λ span. (span.from ≡ length self.old.text) × (span.to ≡ length self.new.text)) }
        ensures few { IfOk result (λ span. span.to ≤ span.from + 40) }
        ensures grows { Grows self.old self.new }
        ensures stays { (s : List ℕ) → IsTable s self.old → IsTable s self.new }
        ensures same { OnErr result (self.new ≡ self.old) }
        ensures memory { IfErr result (λ r. r ≡ Refusal.Memory) }
        ensures full { OnErr result (self.old.text_room < length self.old.text + length (signed_text minus value)) }
        ensures node_room { self.new.node_room ≡ self.old.node_room }
        ensures text_room { self.old.text_room ≤ self.new.text_room }
        ensures most { self.new.most ≡ self.old.most }
    {
        let span = sym_core::push_decimal(alloc, value, minus, &mut self.text)?;
        Ok(span)
    }

    /// Removes all nodes and the text list, and keeps their memory.
    pub fn clear(&mut self)
        ensures nodes { self.new.nodes ≡ [] }
        ensures text { self.new.text ≡ [] }
        ensures node_room { self.new.node_room ≡ self.old.node_room }
        ensures text_room { self.new.text_room ≡ self.old.text_room }
        ensures most { self.new.most ≡ max self.old.most (length self.old.nodes) }
    {
        self.most = self.most.max(self.entries.len());
        self.entries.clear();
        self.text.clear();
    }
}
