// A table of nodes, and what is noted of their trees.
#![tactic(auto)]

ghost use Rattle.std.specs.Prelude.{◌≡◌, ℕ, ◌+◌, ◌<◌, ◌≤◌, ◌^◌, ◌++◌, ◌∷◌, [], List, length, slice_get, false, None, Some, Option, IfOk, IfErr, OnOk, OnErr, max, vec_len, vec_capacity};
ghost use Rattle.sym_core.specs.declared.Refusal.{Refusal};
ghost use Rattle.cpp_term.specs.Scope.{without_tags};
ghost use Rattle.cpp_term.specs.Reargued.{reargued};
ghost use Rattle.cpp_tree.specs.Nodes.{over, tree_at, trees, tree_of, entry_at, tree_under, is_again, IsFlat, IsLone, IsSettled, IsPlacedBelow, IsBelow, IsThunkWithin, IsTable};
ghost use Rattle.cpp_tree.specs.Notes.{resolved_at};
ghost use Rattle.cpp_tree.specs.Compact.{entry_of};
ghost use Rattle.sym_room.specs.Room.{IsGrown, most_for};

use crate::compact::{Compact, bare};
use crate::node::{Entry, HeadFrom, Node, Placed, Thunk};
use std::alloc::{AllocError, Global};
use std::marker::Model;
use sym_core::Refusal;
use sym_room::make_room;

/// The nodes of a symbol, each after its parts, and what its thunks adjust.
#[derive(Drop)]
pub struct Nodes {
    pub(crate) entries: Vec<Compact>,
    pub(crate) thunks: Vec<Thunk>,
    // The highest number of nodes, and the highest number of thunks, at the times when the table
    // was begun again. Together with the present numbers they bound the memory of both lists.
    most: usize,
    most_thunks: usize,
}

impl Model for Nodes {
    ghost use Rattle.std.specs.Prelude.{◌≤◌, map, max, vec_capacity, vec_len};
    ghost use Rattle.cpp_tree.specs.Compact.{entry_of};
    ghost use Rattle.cpp_tree.specs.Nodes.{Stored};
    ghost use Rattle.sym_room.specs.Room.{most_for};

    ghost Value = { Stored };

    ghost view = { λ t. record { nodes = map entry_of t.entries.items; thunks = t.thunks.items; node_room = vec_capacity t.entries; thunk_room = vec_capacity t.thunks; most = t.most; most_thunks = t.most_thunks } };

    ghost invariant = { λ t. (vec_capacity t.entries ≤ most_for (max t.most (vec_len t.entries))) × (vec_capacity t.thunks ≤ most_for (max t.most_thunks (vec_len t.thunks))) };
}

/// The node of the absent tree.
pub const ABSENT: u32 = 0;

/// The empty list.
pub const NIL: u32 = 1;

/// The empty pack. A table begins with it, so that no step of the linker adds more than two nodes.
pub const NO_ELEMENTS: u32 = 2;

/// The builtin type auto, which is the argument of a lambda's own parameters.
pub const AUTO: u32 = 3;

/// Makes room for more nodes.
///
/// # Errors
///
/// `AllocError` if there is no memory; the list is then unchanged.
// This is apart from its caller, so that adding a node where there is room for it takes few
// registers.
#[inline(never)]
fn grow(entries: &mut Vec<Compact>) -> Result<(), AllocError>
    ensures items { entries.new.items ≡ entries.old.items }
    ensures len { vec_len entries.new ≡ vec_len entries.old }
    ensures ok { OnOk result (vec_len entries.new + 1 ≤ vec_capacity entries.new) }
    ensures grown { IsGrown (vec_capacity entries.old) (vec_capacity entries.new) (vec_len entries.old + 1) }
    ensures full { OnErr result (vec_capacity entries.old < vec_len entries.old + 1) }
    ensures err { OnErr result (vec_capacity entries.new ≡ vec_capacity entries.old) }
{
    make_room(entries, 1)
}

/// Makes room for one more node, if there is none.
///
/// # Errors
///
/// `AllocError` if there is no memory; the list is then unchanged.
#[inline(always)]
fn make_room_for_one(entries: &mut Vec<Compact>) -> Result<(), AllocError>
    ensures items { entries.new.items ≡ entries.old.items }
    ensures len { vec_len entries.new ≡ vec_len entries.old }
    ensures ok { OnOk result (vec_len entries.new + 1 ≤ vec_capacity entries.new) }
    ensures grown { IsGrown (vec_capacity entries.old) (vec_capacity entries.new) (vec_len entries.old + 1) }
    ensures full { OnErr result (vec_capacity entries.old < vec_len entries.old + 1) }
    ensures err { OnErr result (vec_capacity entries.new ≡ vec_capacity entries.old) }
{
    if entries.len() < entries.capacity() {
        return Ok(());
    }
    grow(entries)
}

impl Nodes {
    /// A table without nodes.
    pub fn new(alloc: Global) -> Nodes
        ensures nodes { result.nodes ≡ [] }
        ensures thunks { result.thunks ≡ [] }
        ensures most { result.most ≡ 0 }
        ensures most_thunks { result.most_thunks ≡ 0 }
    {
        Nodes {
            entries: Vec::new(alloc),
            thunks: Vec::new(alloc),
            most: 0,
            most_thunks: 0,
        }
    }

    /// Removes all nodes, keeps their memory, and adds the four nodes that each table begins with.
    ///
    /// # Errors
    ///
    /// `Memory` where the list couldn't grow.
    pub fn begin(&mut self) -> Result<(), Refusal>
        ensures table { OnOk result ((s : List ℕ) → IsTable (over s self.new)) }
        ensures nodes { OnOk result (length self.new.nodes ≡ 4) }
        ensures thunks { OnOk result (self.new.thunks ≡ []) }
        ensures memory { IfErr result (λ e. e ≡ Refusal.Memory) }
        ensures full { OnErr result (self.old.node_room < 4) }
        ensures node_room { self.old.node_room ≤ self.new.node_room }
        ensures thunk_room { self.new.thunk_room ≡ self.old.thunk_room }
        ensures most { self.new.most ≡ max self.old.most (length self.old.nodes) }
        ensures most_thunks { self.new.most_thunks ≡ max self.old.most_thunks (length self.old.thunks) }
    {
        self.most = self.most.max(self.entries.len());
        self.most_thunks = self.most_thunks.max(self.thunks.len());
        self.entries.clear();
        self.thunks.clear();
        if make_room(&mut self.entries, 4).is_err() {
            return Err(Refusal::Memory);
        }
        self.entries.push_reserved(bare(Node::Absent, false));
        self.entries.push_reserved(bare(Node::Nil, true));
        self.entries.push_reserved(bare(Node::Pack(NIL), true));
        self.entries
            .push_reserved(bare(Node::BuiltinWithD(b'a'), false));
        Ok(())
    }

    /// How many nodes there are.
    #[inline(always)]
    pub fn len(&self) -> usize
        ensures { result ≡ length self.now.nodes }
    {
        self.entries.len()
    }

    /// How many nodes, of 48 bytes each, there is memory for: at most twice the highest number of nodes at once since the table was made,
    /// plus 8.
    pub fn room(&self) -> usize
        ensures is { result ≡ self.now.node_room }
        ensures bounded { result ≤ most_for (max self.now.most (length self.now.nodes)) }
    {
        self.entries.capacity()
    }

    /// How many thunks, of 60 bytes each, there is memory for: at most twice the highest number of thunks at once, plus 8.
    pub fn thunk_room(&self) -> usize
        ensures is { result ≡ self.now.thunk_room }
        ensures bounded { result ≤ most_for (max self.now.most_thunks (length self.now.thunks)) }
    {
        self.thunks.capacity()
    }

    /// A node and what is noted of it, in few bytes.
    #[inline(always)]
    pub(crate) fn at(&self, node: u32) -> Compact
        requires { node < length self.now.nodes }
        ensures { entry_of result ≡ entry_at self.now.nodes node }
    {
        self.entries[node as usize]
    }

    /// A node, and what is noted of it.
    #[inline(always)]
    pub fn entry(&self, node: u32) -> Entry
        requires { node < length self.now.nodes }
        ensures { result ≡ entry_at self.now.nodes node }
    {
        self.at(node).entry()
    }

    /// What a thunk adjusts, if there is one of this number.
    pub fn thunk(&self, number: u32) -> Option<Thunk>
        ensures { result ≡ slice_get self.now.thunks number }
    {
        match self.thunks.get(number as usize) {
            Some(thunk) => Some(*thunk),
            None => None,
        }
    }

    /// A node, made of earlier ones.
    #[inline(always)]
    pub fn node(&self, symbol: &[u8], node: u32) -> Node
        requires table { IsTable (over symbol.now self.now) }
        requires node { node < length self.now.nodes }
        ensures is { result ≡ (entry_at self.now.nodes node).node }
        ensures tree { tree_at (trees (over symbol.now self.now)) node ≡ tree_of symbol.now self.now.thunks (trees (over symbol.now self.now)) result }
        ensures below { IsBelow symbol.now (length self.now.thunks) node result }
    {
        self.entry(node).node
    }

    /// What a node denotes: the tree of an alias with the alias's argument, or its own tree.
    #[inline(always)]
    pub(crate) fn resolved(&self, symbol: &[u8], node: u32) -> Placed
        requires table { IsTable (over symbol.now self.now) }
        requires node { node < length self.now.nodes }
        ensures is { result ≡ resolved_at self.now.nodes node }
        ensures tree { tree_under (trees (over symbol.now self.now)) result ≡ tree_at (trees (over symbol.now self.now)) node }
        ensures flat { is_again (entry_at self.now.nodes result.node).node ≡ false }
        ensures below { IsPlacedBelow (length self.now.nodes) result }
    {
        match self.node(symbol, node) {
            Node::Reargued { tree, argument } => Placed {
                node: tree,
                under: Some(argument),
            },
            _ => Placed { node, under: None },
        }
    }

    /// What a node denotes under an argument: the outer of two arguments counts.
    #[inline(always)]
    pub fn settled(&self, symbol: &[u8], tree: Placed) -> Placed
        requires table { IsTable (over symbol.now self.now) }
        requires tree { IsPlacedBelow (length self.now.nodes) tree }
        ensures tree { tree_under (trees (over symbol.now self.now)) result ≡ tree_under (trees (over symbol.now self.now)) tree }
        ensures flat { is_again (entry_at self.now.nodes result.node).node ≡ false }
        ensures below { IsPlacedBelow (length self.now.nodes) result }
    {
        let inner = self.resolved(symbol, tree.node);
        match tree.under {
            None => inner,
            Some(argument) => Placed {
                node: inner.node,
                under: Some(argument),
            },
        }
    }

    /// A name without its tags: the name under them, or the name itself.
    #[inline(always)]
    pub fn untagged(&self, symbol: &[u8], name: Placed) -> Placed
        requires table { IsTable (over symbol.now self.now) }
        requires name { IsPlacedBelow (length self.now.nodes) name }
        ensures tree { tree_under (trees (over symbol.now self.now)) result ≡ without_tags (tree_under (trees (over symbol.now self.now)) name) }
        ensures below { IsPlacedBelow (length self.now.nodes) result }
    {
        let inner = self.untagged_node(symbol, name.node);
        match name.under {
            None => inner,
            Some(argument) => Placed {
                node: inner.node,
                under: Some(argument),
            },
        }
    }

    /// Likewise for a node.
    #[inline(always)]
    fn untagged_node(&self, symbol: &[u8], name: u32) -> Placed
        requires table { IsTable (over symbol.now self.now) }
        requires name { name < length self.now.nodes }
        ensures tree { tree_under (trees (over symbol.now self.now)) result ≡ without_tags (tree_at (trees (over symbol.now self.now)) name) }
        ensures below { IsPlacedBelow (length self.now.nodes) result }
    {
        match self.entry(name).untagged {
            Some(inner) => inner,
            None => Placed {
                node: name,
                under: None,
            },
        }
    }

    /// The argument that an alias gets: what the given argument has for the tree's one parameter,
    /// if the tree has that parameter's head; otherwise the given argument.
    #[inline(always)]
    fn lone(&self, symbol: &[u8], tree: u32, argument: u32) -> u32
        requires table { IsTable (over symbol.now self.now) }
        requires tree { tree < length self.now.nodes }
        requires argument { argument < length self.now.nodes }
        ensures tree { reargued (Some (tree_at (trees (over symbol.now self.now)) result)) (tree_at (trees (over symbol.now self.now)) tree) ≡ reargued (Some (tree_at (trees (over symbol.now self.now)) argument)) (tree_at (trees (over symbol.now self.now)) tree) }
        ensures lone { IsLone (tree_at (trees (over symbol.now self.now)) result) (tree_at (trees (over symbol.now self.now)) tree) }
        ensures below { result < length self.now.nodes }
    {
        let held = self.entry(tree);
        match held.by_argument.head {
            HeadFrom::Own => argument,
            _ => self.given_alone(symbol, argument, held.free),
        }
    }

    /// A node that denotes the same; if it is an alias, its tree isn't an alias itself.
    #[inline(always)]
    fn flat(&self, symbol: &[u8], node: Node) -> Node
        requires table { IsTable (over symbol.now self.now) }
        requires below { IsBelow symbol.now (length self.now.thunks) (length self.now.nodes) node }
        ensures tree { tree_of symbol.now self.now.thunks (trees (over symbol.now self.now)) result ≡ tree_of symbol.now self.now.thunks (trees (over symbol.now self.now)) node }
        ensures flat { IsFlat self.now.nodes result }
        ensures settled { IsSettled (trees (over symbol.now self.now)) result }
        ensures below { IsBelow symbol.now (length self.now.thunks) (length self.now.nodes) result }
    {
        match node {
            Node::Reargued { tree, argument } => {
                let tree = self.resolved(symbol, tree).node;
                Node::Reargued {
                    tree,
                    argument: self.lone(symbol, tree, argument),
                }
            }
            _ => node,
        }
    }

    /// Adds a node, and answers its number. The node denotes its production over its parts' trees, and earlier nodes denote what they
    /// denoted.
    ///
    /// # Errors
    ///
    /// `Memory` where the list couldn't grow.
    pub fn push(&mut self, symbol: &[u8], node: Node) -> Result<u32, Refusal>
        requires room { length self.old.nodes + 1 < 2 ^ 32 }
        requires table { IsTable (over symbol.now self.old) }
        requires below { IsBelow symbol.now (length self.old.thunks) (length self.old.nodes) node }
        ensures table { IsTable (over symbol.now self.new) }
        ensures number { IfOk result (λ number. number ≡ length self.old.nodes) }
        ensures trees { OnOk result (trees (over symbol.now self.new) ≡ trees (over symbol.now self.old) ++ tree_of symbol.now self.old.thunks (trees (over symbol.now self.old)) node ∷ []) }
        ensures tree { IfOk result (λ number. tree_at (trees (over symbol.now self.new)) number ≡ tree_of symbol.now self.old.thunks (trees (over symbol.now self.old)) node) }
        ensures stays { (i : ℕ) → i < length self.old.nodes → tree_at (trees (over symbol.now self.new)) i ≡ tree_at (trees (over symbol.now self.old)) i }
        ensures more { OnOk result (length self.new.nodes ≡ length self.old.nodes + 1) }
        ensures few { length self.new.nodes ≤ length self.old.nodes + 1 }
        ensures least { length self.old.nodes ≤ length self.new.nodes }
        ensures thunks { self.new.thunks ≡ self.old.thunks }
        ensures same { OnErr result (self.new ≡ self.old) }
        ensures memory { IfErr result (λ e. e ≡ Refusal.Memory) }
        ensures full { OnErr result (self.old.node_room < length self.old.nodes + 1) }
        ensures node_room { self.old.node_room ≤ self.new.node_room }
        ensures thunk_room { self.new.thunk_room ≡ self.old.thunk_room }
        ensures most { self.new.most ≡ self.old.most }
        ensures most_thunks { self.new.most_thunks ≡ self.old.most_thunks }
    {
        let number = self.len() as u32;
        let node = self.flat(symbol, node);
        let noted = self.noted(symbol, node);
        // `noted` holds this node already. Since it is written again here, the node isn't copied in
        // the code for each sort of node: this takes 9 % fewer instructions.
        let compact = Compact { node, ..noted };
        if make_room_for_one(&mut self.entries).is_err() {
            return Err(Refusal::Memory);
        }
        self.entries.push_reserved(compact);
        Ok(number)
    }

    /// Notes what a thunk adjusts, and answers the number by which the thunk's node names it.
    ///
    /// # Errors
    ///
    /// `Memory` where the list couldn't grow.
    pub fn push_thunk(&mut self, symbol: &[u8], thunk: Thunk) -> Result<u32, Refusal>
        requires room { length self.old.thunks + 1 < 2 ^ 32 }
        requires table { IsTable (over symbol.now self.old) }
        requires within { IsThunkWithin symbol.now thunk }
        ensures table { IsTable (over symbol.now self.new) }
        ensures number { IfOk result (λ number. number ≡ length self.old.thunks) }
        ensures thunks { OnOk result (self.new.thunks ≡ self.old.thunks ++ thunk ∷ []) }
        ensures trees { trees (over symbol.now self.new) ≡ trees (over symbol.now self.old) }
        ensures nodes { self.new.nodes ≡ self.old.nodes }
        ensures same { OnErr result (self.new ≡ self.old) }
        ensures memory { IfErr result (λ e. e ≡ Refusal.Memory) }
        ensures full { OnErr result (self.old.thunk_room < length self.old.thunks + 1) }
        ensures node_room { self.new.node_room ≡ self.old.node_room }
        ensures thunk_room { self.old.thunk_room ≤ self.new.thunk_room }
        ensures most { self.new.most ≡ self.old.most }
        ensures most_thunks { self.new.most_thunks ≡ self.old.most_thunks }
    {
        let number = self.thunks.len() as u32;
        if make_room(&mut self.thunks, 1).is_err() {
            return Err(Refusal::Memory);
        }
        self.thunks.push_reserved(thunk);
        Ok(number)
    }
}
