// The elements of lists, and the nodes that are under an argument.
#![tactic(auto)]

ghost use Rattle.std.specs.Prelude.{◌≡◌, ◌<◌, length, false};
ghost use Rattle.cpp_term.specs.Reargued.{if_alone, given_for, given_alone};
ghost use Rattle.cpp_term.specs.Scope.{element, is_list, has_pack, is_open, free_in, length_if_pack};
ghost use Rattle.cpp_term.specs.Items.{indexed};
ghost use Rattle.cpp_tree.specs.Nodes.{over, trees, tree_at, tree_under, free_is, IsPlacedBelow, IsTable};

use crate::node::{Free, Node, Placed};
use crate::nodes::{ABSENT, Nodes};

/// The absent tree.
const NOWHERE: Placed = Placed {
    node: ABSENT,
    under: None,
};

impl Nodes {
    /// The first element of a list, or the absent tree.
    #[inline(always)]
    fn first(&self, symbol: &[u8], list: Placed) -> Placed
        requires table { IsTable (over symbol.now self.now) }
        requires list { IsPlacedBelow (length self.now.nodes) list }
        ensures tree { tree_under (trees (over symbol.now self.now)) result ≡ element (tree_under (trees (over symbol.now self.now)) list) 0 }
        ensures below { IsPlacedBelow (length self.now.nodes) result }
    {
        let settled = self.settled(symbol, list);
        match self.node(symbol, settled.node) {
            Node::Cell { first, .. } => Placed {
                node: first,
                under: settled.under,
            },
            _ => NOWHERE,
        }
    }

    /// The element of a list at a place, or the absent tree. It is found at once if the cells were made one after the other.
    pub fn element(&self, symbol: &[u8], list: Placed, k: u32) -> Placed
        requires table { IsTable (over symbol.now self.now) }
        requires list { IsPlacedBelow (length self.now.nodes) list }
        ensures tree { tree_under (trees (over symbol.now self.now)) result ≡ element (tree_under (trees (over symbol.now self.now)) list) k }
        ensures below { IsPlacedBelow (length self.now.nodes) result }
    {
        let mut cell = list.node;
        let mut under = list.under;
        let mut left = k;
        'runs: loop {
            let run = self.entry(cell).run;
            if left <= run {
                return self.first(
                    symbol,
                    Placed {
                        node: cell - left,
                        under,
                    },
                );
            }
            let settled = self.settled(
                symbol,
                Placed {
                    node: cell - run,
                    under,
                },
            );
            match self.node(symbol, settled.node) {
                Node::Cell { rest, .. } => {
                    cell = rest;
                    under = settled.under;
                    left -= run + 1;
                }
                _ => return NOWHERE,
            }
        }
    }

    /// A pack's element at the index, or any other argument itself.
    pub fn indexed(&self, symbol: &[u8], index: Option<u32>, argument: Placed) -> Placed
        requires table { IsTable (over symbol.now self.now) }
        requires argument { IsPlacedBelow (length self.now.nodes) argument }
        ensures tree { tree_under (trees (over symbol.now self.now)) result ≡ indexed index (tree_under (trees (over symbol.now self.now)) argument) }
        ensures below { IsPlacedBelow (length self.now.nodes) result }
    {
        let Some(i) = index else {
            return argument;
        };
        let settled = self.settled(symbol, argument);
        match self.node(symbol, settled.node) {
            Node::Pack(elements) => self.element(
                symbol,
                Placed {
                    node: elements,
                    under: settled.under,
                },
                i,
            ),
            _ => argument,
        }
    }

    /// The node of a tree in which no parameter is free, so that no argument changes the tree.
    #[inline(always)]
    pub fn closed_node(&self, symbol: &[u8], tree: Placed) -> u32
        requires table { IsTable (over symbol.now self.now) }
        requires tree { IsPlacedBelow (length self.now.nodes) tree }
        requires closed { is_open (tree_under (trees (over symbol.now self.now)) tree) ≡ false }
        ensures tree { tree_at (trees (over symbol.now self.now)) result ≡ tree_under (trees (over symbol.now self.now)) tree }
        ensures below { result < length self.now.nodes }
    {
        tree.node
    }

    /// Whether a node's tree is a list of elements.
    pub fn is_list(&self, symbol: &[u8], node: u32) -> bool
        requires table { IsTable (over symbol.now self.now) }
        requires node { node < length self.now.nodes }
        ensures { result ≡ is_list (tree_at (trees (over symbol.now self.now)) node) }
    {
        let place = self.resolved(symbol, node);
        match self.node(symbol, place.node) {
            Node::Cell { .. } => true,
            _ => false,
        }
    }

    /// Whether a list has a pack among its elements, or another element that isn't an argument proper.
    #[inline(always)]
    pub fn has_pack(&self, symbol: &[u8], list: u32) -> bool
        requires table { IsTable (over symbol.now self.now) }
        requires list { list < length self.now.nodes }
        ensures { result ≡ has_pack (tree_at (trees (over symbol.now self.now)) list) }
    {
        self.entry(list).has_pack
    }

    /// An element of a list if it is an argument proper, or else the absent tree.
    fn if_alone(&self, symbol: &[u8], element: Placed) -> u32
        requires table { IsTable (over symbol.now self.now) }
        requires element { IsPlacedBelow (length self.now.nodes) element }
        ensures tree { tree_at (trees (over symbol.now self.now)) result ≡ if_alone (tree_under (trees (over symbol.now self.now)) element) }
        ensures below { result < length self.now.nodes }
    {
        if self.is_open(symbol, element.node) {
            return ABSENT;
        }
        let place = self.resolved(symbol, element.node);
        if self.node(symbol, place.node).is_argument() {
            return element.node;
        }
        ABSENT
    }

    /// What a parameter of this number gets: its own element if the argument is a list, and otherwise the argument itself. An element is
    /// found at once if the list's cells were made one after the other.
    pub fn given_for(&self, symbol: &[u8], given: u32, number: u32) -> u32
        requires table { IsTable (over symbol.now self.now) }
        requires given { given < length self.now.nodes }
        ensures tree { tree_at (trees (over symbol.now self.now)) result ≡ given_for (tree_at (trees (over symbol.now self.now)) given) number }
        ensures below { result < length self.now.nodes }
    {
        if self.is_list(symbol, given) {
            let list = Placed {
                node: given,
                under: None,
            };
            return self.if_alone(symbol, self.element(symbol, list, number));
        }
        given
    }

    /// The argument for the one free parameter of a tree.
    pub(crate) fn given_alone(&self, symbol: &[u8], given: u32, free: Free) -> u32
        requires table { IsTable (over symbol.now self.now) }
        requires given { given < length self.now.nodes }
        ensures tree { tree_at (trees (over symbol.now self.now)) result ≡ given_alone (tree_at (trees (over symbol.now self.now)) given) (free_is free) }
        ensures below { result < length self.now.nodes }
    {
        match free {
            Free::One(number) => self.given_for(symbol, given, number),
            _ => given,
        }
    }

    /// The length of an argument that is a pack, which is the same under any other argument.
    pub fn length_if_pack(&self, symbol: &[u8], argument: u32) -> Option<u32>
        requires table { IsTable (over symbol.now self.now) }
        requires below { argument < length self.now.nodes }
        ensures { result ≡ length_if_pack (tree_at (trees (over symbol.now self.now)) argument) }
    {
        let settled = self.settled(
            symbol,
            Placed {
                node: argument,
                under: None,
            },
        );
        match self.node(symbol, settled.node) {
            Node::Pack(elements) => Some(self.entry(elements).count),
            _ => None,
        }
    }

    /// Whether parameters are free in a node's tree.
    #[inline(always)]
    pub fn is_open(&self, symbol: &[u8], node: u32) -> bool
        requires table { IsTable (over symbol.now self.now) }
        requires below { node < length self.now.nodes }
        ensures { result ≡ is_open (tree_at (trees (over symbol.now self.now)) node) }
    {
        self.entry(node).is_open()
    }

    /// Which parameters are free in a node's tree.
    #[inline(always)]
    pub fn free(&self, symbol: &[u8], node: u32) -> Free
        requires table { IsTable (over symbol.now self.now) }
        requires below { node < length self.now.nodes }
        ensures { free_is result ≡ free_in (tree_at (trees (over symbol.now self.now)) node) }
    {
        self.entry(node).free
    }
}
