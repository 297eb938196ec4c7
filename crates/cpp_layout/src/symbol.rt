// A symbol that was read.
#![tactic(auto)]

ghost use Rattle.std.specs.Prelude.{◌≡◌, ℕ, ◌+◌, ◌<◌, ◌≤◌, ◌*◌, length, slice_get, Some, false, true, IfSome};
ghost use Rattle.std.specs.List.{All};
ghost use Rattle.cpp_grammar.specs.Items as heads;
ghost use Rattle.cpp_term.specs.Items as items;
ghost use Rattle.cpp_term.specs.Term.{pointer, qualified};
ghost use Rattle.cpp_term.specs.Reargued.{argument_or};
ghost use Rattle.cpp_term.specs.Scope.{element, without_tags};
ghost use Rattle.cpp_tree.specs.Nodes.{tree_at, trees, tree_of, tree_if_there, is_again, bytes_at, IsBelow, IsAliasBelow, IsTable, IsWithin, entry_at, head_of, qualifiers_of, tree_under, IsPlacedBelow};
ghost use Rattle.cpp_layout.specs.Pointers.{just_const};
ghost use Rattle.cpp_layout.specs.Layout.{table_of, context_of, printed_tree, node_shown, IsRead};
ghost use Rattle.cpp_tree.specs.Fields.{offsets_of, tree_from};
ghost use Rattle.cpp_tree.specs.Views.{plain_tree, fields_at, seen_fields, offsets_in, IsView, AreBelow, AreWithin, IsKnownThunk};

use crate::context::{Context, Place};
use cpp_tree::node::{Entry, Head, HeadClass, Node, Placed, Qualifiers, Thunk};
use cpp_tree::view::{NodeView, offsets_of, view_of};
use cpp_tree::{Node as View, Nodes};
use std::alloc::Global;
use std::marker::Model;
use sym_core::{Counts, Span};
use sym_print::Detail;

/// Whether const is the only qualifier.
#[inline(always)]
fn is_just_const(qualifiers: Qualifiers) -> bool
    ensures { result ≡ true → qualifiers_of qualifiers ≡ just_const }
{
    if qualifiers.restrict {
        return false;
    }
    if qualifiers.volatile {
        return false;
    }
    qualifiers.const_
}

/// Whether the head is that of a function or an array.
#[inline(always)]
#[tactic(auto, unfolding(cpp_tree::specs::Nodes::head_of, cpp_grammar::specs::Items::is_funarr))]
fn is_function(head: Head) -> bool
    ensures { result ≡ heads.is_funarr (head_of head) }
{
    match head {
        Head::FunctionOrArray => true,
        _ => false,
    }
}

/// Whether the head is that of a reference.
#[inline(always)]
#[tactic(auto, unfolding(cpp_tree::specs::Nodes::head_of, cpp_grammar::specs::Items::is_reference))]
fn is_reference(head: Head) -> bool
    ensures { result ≡ heads.is_reference (head_of head) }
{
    match head {
        Head::Lvalue => true,
        Head::Rvalue => true,
        _ => false,
    }
}

/// A symbol that was read: its bytes, its nodes, and what reading it took.
#[derive(Drop)]
pub struct Symbol {
    bytes: Vec<u8>,
    nodes: Nodes,
    root: u32,
    rows: u32,
    steps: u32,
}

impl Model for Symbol {
    ghost use Rattle.cpp_layout.specs.Layout.{ReadSymbol, IsRead};

    ghost Value = { ReadSymbol };

    ghost view = { λ s. record { bytes = s.bytes.items; table = s.nodes; root = s.root; rows = s.rows; steps = s.steps } };

    ghost invariant = { λ s. IsRead (record { bytes = s.bytes.items; table = s.nodes; root = s.root; rows = s.rows; steps = s.steps }) };
}

impl Symbol {
    /// The symbol with these nodes. The node `root` is that of the whole symbol.
    pub fn new(bytes: Vec<u8>, nodes: Nodes, root: u32, rows: u32, steps: u32) -> Symbol
        requires { IsRead (record { bytes = bytes.items; table = nodes; root = root; rows = rows; steps = steps }) }
        ensures { result ≡ record { bytes = bytes.items; table = nodes; root = root; rows = rows; steps = steps } }
    {
        Symbol {
            bytes,
            nodes,
            root,
            rows,
            steps,
        }
    }

    /// The lists of a symbol that is no longer needed: its bytes and its nodes. The call takes no
    /// memory.
    pub fn into_lists(self) -> (Vec<u8>, Nodes)
        ensures bytes { result.0.items ≡ self.bytes }
        ensures nodes { result.1 ≡ self.table }
    {
        let Symbol { bytes, nodes, .. } = self;
        (bytes, nodes)
    }

    /// The numbers of rows, nodes and steps that reading took.
    pub fn counts(&self) -> Counts
        ensures rows { result.rows ≡ self.now.rows }
        ensures nodes { result.nodes ≡ length self.now.table.nodes }
        ensures steps { result.steps ≡ self.now.steps }
        ensures rows_bound { result.rows ≤ 4 * length self.now.bytes + 4 }
        ensures nodes_bound { result.nodes ≤ 2 * length self.now.bytes + 8 }
        ensures steps_bound { result.steps ≤ 32 * length self.now.bytes + 48 }
        ensures thunks_bound { length self.now.table.thunks ≤ result.nodes }
        ensures counted { result.rows ≤ result.steps }
        ensures is_read { IsRead self.now }
    {
        Counts {
            rows: self.rows,
            nodes: self.nodes.len() as u32,
            steps: self.steps,
        }
    }

    /// The node of the whole symbol.
    pub fn root_node(&self) -> u32
        ensures root { result ≡ self.now.root }
        ensures within { result < length self.now.table.nodes }
        ensures read { IsRead self.now }
    {
        self.root
    }

    /// A node and what is noted of it.
    #[inline(always)]
    pub fn entry(&self, node: u32) -> Entry
        requires { node < length self.now.table.nodes }
        ensures { result ≡ entry_at self.now.table.nodes node }
    {
        self.nodes.entry(node)
    }

    /// The node that a node denotes, and its context: an alias denotes its tree, under the alias's argument unless the context
    /// has one already.
    #[inline(always)]
    pub(crate) fn place(&self, node: u32, ctx: Context) -> Place
        requires table { IsTable (table_of self.now) }
        requires node { node < length self.now.table.nodes }
        requires context { IsAliasBelow (length self.now.table.nodes) ctx.argument }
        ensures tree { printed_tree self.now result.ctx result.node ≡ printed_tree self.now ctx node }
        ensures index { context_of result.ctx ≡ context_of ctx }
        ensures detail { result.ctx.detail ≡ ctx.detail }
        ensures own { is_again (entry_at self.now.table.nodes result.node).node ≡ false }
        ensures node { result.node < length self.now.table.nodes }
        ensures context { IsAliasBelow (length self.now.table.nodes) result.ctx.argument }
    {
        let placed = self.nodes.settled(
            &self.bytes,
            Placed {
                node,
                under: ctx.argument,
            },
        );
        Place {
            node: placed.node,
            ctx: Context {
                argument: placed.under,
                ..ctx
            },
        }
    }

    /// Whether a node is a name that is made of others: an instance of a template, a name within another or a local entity.
    #[inline(always)]
    pub(crate) fn is_composite(&self, node: u32) -> bool
        requires { node < length self.now.table.nodes }
    {
        match self.nodes.entry(node).node {
            Node::Instance { .. } => true,
            Node::Local { .. } => true,
            Node::Within { .. } => true,
            _ => false,
        }
    }

    /// A node as it is stored. Its parts are earlier nodes.
    #[inline(always)]
    pub(crate) fn stored(&self, node: u32, ctx: Context) -> Node
        requires table { IsTable (table_of self.now) }
        requires node { node < length self.now.table.nodes }
        requires own { is_again (entry_at self.now.table.nodes node).node ≡ false }
        ensures tree { printed_tree self.now ctx node ≡ node_shown self.now ctx result }
        ensures plain { tree_at (trees (table_of self.now)) node ≡ tree_of self.now.bytes self.now.table.thunks (trees (table_of self.now)) result }
        ensures own { is_again result ≡ false }
        ensures below { IsBelow self.now.bytes (length self.now.table.thunks) node result }
    {
        self.nodes.node(&self.bytes, node)
    }

    /// A name without its tags.
    #[inline(always)]
    pub(crate) fn untagged(&self, name: u32, ctx: Context) -> Place
        requires table { IsTable (table_of self.now) }
        requires name { name < length self.now.table.nodes }
        requires context { IsAliasBelow (length self.now.table.nodes) ctx.argument }
        ensures tree { printed_tree self.now result.ctx result.node ≡ without_tags (printed_tree self.now ctx name) }
        ensures index { context_of result.ctx ≡ context_of ctx }
        ensures detail { result.ctx.detail ≡ ctx.detail }
        ensures own { is_again (entry_at self.now.table.nodes result.node).node ≡ false }
        ensures node { result.node < length self.now.table.nodes }
        ensures context { IsAliasBelow (length self.now.table.nodes) result.ctx.argument }
    {
        let inner = self.nodes.untagged(
            &self.bytes,
            Placed {
                node: name,
                under: ctx.argument,
            },
        );
        let placed = self.nodes.settled(&self.bytes, inner);
        Place {
            node: placed.node,
            ctx: Context {
                argument: placed.under,
                ..ctx
            },
        }
    }

    /// A node's view and, with it, its parts, which are earlier nodes. The node is below `counts().nodes`. The call takes no memory.
    pub fn view_at(&self, node: u32) -> NodeView
        requires { node < length self.now.table.nodes }
        ensures fields { seen_fields (table_of self.now) result ≡ fields_at (table_of self.now) node }
        ensures texts { AreWithin self.now.bytes result.node.texts }
        ensures parts { AreBelow node result }
        ensures few { result.node.parts ≤ 3 }
    {
        view_of(&self.bytes, &self.nodes, self.nodes.node(&self.bytes, node))
    }

    /// The view of a node, which is below `counts().nodes`. The call takes no memory.
    ///
    /// The tree of a node is made of the node's production, the numbers, the bytes of the texts and the trees of the parts, and for
    /// `WIDE_THUNK` also of the offsets. A parameter in it is only its number. Two nodes have equal trees exactly if all of these are
    /// equal.
    pub fn node(&self, node: u32) -> View
        requires { node < length self.now.table.nodes }
        ensures fields { IsView self.now.bytes result (fields_at (table_of self.now) node) }
        ensures tree { plain_tree (table_of self.now) node ≡ tree_from (fields_at (table_of self.now) node) (offsets_of (plain_tree (table_of self.now) node)) }
        ensures within { All (λ text. IsWithin text self.now.bytes) result.texts }
        ensures few { result.parts ≤ 3 }
    {
        self.view_at(node).node
    }

    /// A part of a node, counted from 0: an earlier node. The node is below `counts().nodes`, and the part below its view's `parts`. The
    /// call takes no memory.
    pub fn part(&self, node: u32, k: u32) -> u32
        requires node { node < length self.now.table.nodes }
        requires part { k < length (fields_at (table_of self.now) node).parts }
        ensures earlier { result < node }
        ensures part { slice_get (fields_at (table_of self.now) node).parts k ≡ Some (plain_tree (table_of self.now) result) }
    {
        self.view_at(node).parts[k as usize]
    }

    /// The offsets by which a node adjusts pointers, if the node is a thunk: all four that a thunk may have. The node is below
    /// `counts().nodes`. The call takes no memory.
    pub fn call_offsets(&self, node: u32) -> Option<Thunk>
        requires { node < length self.now.table.nodes }
        ensures offsets { offsets_in self.now.bytes result ≡ offsets_of (plain_tree (table_of self.now) node) }
        ensures within { IsKnownThunk self.now.bytes result }
    {
        offsets_of(&self.bytes, &self.nodes, self.nodes.node(&self.bytes, node))
    }

    /// The offsets of the thunk with this number, if there is one.
    pub fn thunk(&self, number: u32) -> Option<Thunk>
        ensures { result ≡ slice_get self.now.table.thunks number }
    {
        self.nodes.thunk(number)
    }

    /// The allocator of the symbol's lists.
    pub(crate) fn allocator(&self) -> Global {
        *self.bytes.allocator()
    }

    /// The bytes of a span within the symbol. Each text of a node's view is a span within it. The call takes no memory.
    pub fn bytes_of(&self, span: Span) -> &[u8]
        requires { IsWithin span self.now.bytes }
        ensures { result.now ≡ bytes_at self.now.bytes span }
    {
        &self.bytes[span.from as usize..span.to as usize]
    }

    /// What a type points to, if its node is a pointer. An alias yields `None`.
    // <type> ::= P <type>
    #[inline(always)]
    pub(crate) fn pointed(&self, ty: Placed) -> Option<Placed>
        requires table { IsTable (table_of self.now) }
        requires ty { IsPlacedBelow (length self.now.table.nodes) ty }
        ensures below { IfSome result (λ to. IsPlacedBelow (length self.now.table.nodes) to) }
        ensures tree { IfSome result (λ to. tree_under (trees (table_of self.now)) ty ≡ pointer (tree_under (trees (table_of self.now)) to)) }
    {
        match self.nodes.node(&self.bytes, ty.node) {
            Node::Pointer(to) => Some(Placed {
                node: to,
                under: ty.under,
            }),
            _ => None,
        }
    }

    /// The type under a const, if const is the type's only qualifier. An alias yields `None`.
    // <type> ::= <CV-qualifiers> <type>
    #[inline(always)]
    pub(crate) fn constant(&self, ty: Placed) -> Option<Placed>
        requires table { IsTable (table_of self.now) }
        requires ty { IsPlacedBelow (length self.now.table.nodes) ty }
        ensures below { IfSome result (λ to. IsPlacedBelow (length self.now.table.nodes) to) }
        ensures tree { IfSome result (λ to. tree_under (trees (table_of self.now)) ty ≡ qualified just_const (tree_under (trees (table_of self.now)) to)) }
    {
        match self.nodes.node(&self.bytes, ty.node) {
            Node::Qualified { qualifiers, ty: to } => {
                if !is_just_const(qualifiers) {
                    return None;
                }
                Some(Placed {
                    node: to,
                    under: ty.under,
                })
            }
            _ => None,
        }
    }

    /// The noted head of a type, if it may be used: not where the context has an argument, nor where the
    /// head is that of an element of a pack.
    #[inline(always)]
    fn noted_head(&self, node: u32, ctx: Context) -> Option<Head>
        requires table { IsTable (table_of self.now) }
        requires node { node < length self.now.table.nodes }
        ensures { IfSome result (λ head. head_of head ≡ items.head (context_of ctx) (printed_tree self.now ctx node)) }
    {
        match ctx.argument {
            None => match self.entry(node).class {
                HeadClass::Known(head) => Some(head),
                _ => None,
            },
            Some(_) => None,
        }
    }

    /// Whether a type is a function or an array.
    #[inline(always)]
    pub(crate) fn is_function(&self, node: u32, ctx: Context) -> bool
        requires table { IsTable (table_of self.now) }
        requires node { node < length self.now.table.nodes }
        requires context { IsAliasBelow (length self.now.table.nodes) ctx.argument }
        ensures { result ≡ heads.is_funarr (items.head (context_of ctx) (printed_tree self.now ctx node)) }
    {
        match self.noted_head(node, ctx) {
            Some(head) => is_function(head),
            None => self.nodes.is_function(
                &self.bytes,
                Placed {
                    node,
                    under: ctx.argument,
                },
                ctx.index,
            ),
        }
    }

    /// Whether a type is a reference.
    #[inline(always)]
    pub(crate) fn is_reference(&self, node: u32, ctx: Context) -> bool
        requires table { IsTable (table_of self.now) }
        requires node { node < length self.now.table.nodes }
        requires context { IsAliasBelow (length self.now.table.nodes) ctx.argument }
        ensures { result ≡ heads.is_reference (items.head (context_of ctx) (printed_tree self.now ctx node)) }
    {
        match self.noted_head(node, ctx) {
            Some(head) => is_reference(head),
            None => self.nodes.is_reference(
                &self.bytes,
                Placed {
                    node,
                    under: ctx.argument,
                },
                ctx.index,
            ),
        }
    }

    /// Whether a node prints nothing: an expansion over empty packs, or a list of expansions over empty packs.
    pub(crate) fn prints_nothing(&self, node: u32, ctx: Context) -> bool
        requires table { IsTable (table_of self.now) }
        requires node { node < length self.now.table.nodes }
        requires context { IsAliasBelow (length self.now.table.nodes) ctx.argument }
        ensures { result ≡ items.is_empty (context_of ctx) (printed_tree self.now ctx node) }
    {
        self.nodes.prints_nothing(
            &self.bytes,
            Placed {
                node,
                under: ctx.argument,
            },
        )
    }

    /// The length of the packs that a tree holds, if it holds any.
    pub(crate) fn packs(&self, node: u32, ctx: Context) -> Option<u32>
        requires table { IsTable (table_of self.now) }
        requires node { node < length self.now.table.nodes }
        requires context { IsAliasBelow (length self.now.table.nodes) ctx.argument }
        ensures { result ≡ items.packs_of (context_of ctx) (printed_tree self.now ctx node) }
    {
        self.nodes.packs(
            &self.bytes,
            Placed {
                node,
                under: ctx.argument,
            },
        )
    }

    /// The argument of the parameter with a number: the context's argument, if it has one, or otherwise the parameter's own.
    #[inline(always)]
    #[tactic(auto, unfolding(cpp_term::specs::Reargued::argument_or, cpp_tree::specs::Nodes::tree_if_there))]
    fn given_or(&self, given: Option<u32>, number: u32, own: u32) -> u32
        requires table { IsTable (table_of self.now) }
        requires own { own < length self.now.table.nodes }
        requires given { IsAliasBelow (length self.now.table.nodes) given }
        ensures tree { tree_at (trees (table_of self.now)) result ≡ argument_or (tree_if_there (trees (table_of self.now)) given) number (tree_at (trees (table_of self.now)) own) }
        ensures below { result < length self.now.table.nodes }
    {
        match given {
            None => own,
            Some(argument) => self.nodes.given_for(&self.bytes, argument, number),
        }
    }

    /// The element of a list at a place, or the absent tree.
    pub(crate) fn element_of(&self, list: u32, k: u32, detail: Detail) -> Place
        requires table { IsTable (table_of self.now) }
        requires list { list < length self.now.table.nodes }
        ensures tree { printed_tree self.now result.ctx result.node ≡ element (tree_at (trees (table_of self.now)) list) k }
        ensures node { result.node < length self.now.table.nodes }
        ensures context { IsAliasBelow (length self.now.table.nodes) result.ctx.argument }
    {
        let alone = Placed {
            node: list,
            under: None,
        };
        let placed = self.nodes.element(&self.bytes, alone, k);
        Place {
            node: placed.node,
            ctx: Context {
                index: None,
                detail,
                argument: placed.under,
            },
        }
    }

    /// What the parameter with a number denotes at an index: its argument, or an element of that argument. An argument from the context, if
    /// there is one, replaces the parameter's own.
    pub(crate) fn argument_of(&self, number: u32, own: u32, ctx: Context) -> Place
        requires table { IsTable (table_of self.now) }
        requires own { own < length self.now.table.nodes }
        requires context { IsAliasBelow (length self.now.table.nodes) ctx.argument }
        ensures tree { printed_tree self.now result.ctx result.node ≡ items.argument (context_of ctx) (argument_or (tree_if_there (trees (table_of self.now)) ctx.argument) number (tree_at (trees (table_of self.now)) own)) }
        ensures closed { context_of result.ctx ≡ items.closed }
        ensures detail { result.ctx.detail ≡ ctx.detail }
        ensures node { result.node < length self.now.table.nodes }
        ensures context { IsAliasBelow (length self.now.table.nodes) result.ctx.argument }
    {
        let argument = self.given_or(ctx.argument, number, own);
        let alone = Placed {
            node: argument,
            under: None,
        };
        let placed = self.nodes.indexed(&self.bytes, ctx.index, alone);
        Place {
            node: placed.node,
            ctx: Context {
                index: None,
                detail: ctx.detail,
                argument: placed.under,
            },
        }
    }
}
