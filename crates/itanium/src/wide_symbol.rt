// A symbol that was read by the wide grammar.
#![tactic(auto)]

ghost use Rattle.std.specs.Prelude.{◌≡◌, ◌+◌, ◌*◌, ◌<◌, ◌≤◌, [], length, slice_get, vec_len, vec_capacity, Some, true, Err, IfOk, IfErr, IfSome, OnOk, ◌⊎◌};
ghost use Rattle.std.specs.List.{All};
ghost use Rattle.sym_core.specs.declared.Refusal.{Refusal};
ghost use Rattle.sym_print.specs.declared.layout.Part.{Part};
ghost use Rattle.sym_print.specs.declared.detail.Detail.{Detail};
ghost use Rattle.sym_print.specs.Joined.{joined, IsText};
ghost use Rattle.sym_print.specs.Runs.{IsRun};
ghost use Rattle.sym_print.specs.Stacked.{Stacked};
ghost use Rattle.sym_print.specs.Unshared.{text_of, cost_of};
ghost use Rattle.cpp_tree.specs.Fields.{offsets_of, tree_from};
ghost use Rattle.cpp_tree.specs.Nodes.{bytes_at, IsWithin};
ghost use Rattle.cpp_tree.specs.Views.{plain_tree, fields_at, offsets_in, IsView, IsKnownThunk};
ghost use Rattle.cpp_layout.specs.Layout.{table_of, unshared_of, bytes_of_part, shown_symbol, MayBeAsked, IsRead};

use arrayvec::ArrayVec;
use cpp_layout::{Context, Detail, Node, Symbol, Thunk};
use cpp_tree::Nodes;
use std::marker::Model;
use sym_core::{Counts, Refusal, Span};
use sym_print::{Item, Layout, Part, Run};

/// A symbol that was read by the wide grammar.
///
/// It has the texts, counts and views of any C++ symbol. But it is no `Symbol`, so `press_cpp` doesn't take it: the answer of `press_cpp`
/// is promised to be read as the same tree by the grammar of the ABI, which can't read every tree that this symbol may have. `wide_press`
/// presses it, and checks each answer.
#[derive(Drop)]
pub struct WideSymbol {
    symbol: Symbol,
}

impl Model for WideSymbol {
    ghost use Rattle.cpp_layout.specs.Layout.{ReadSymbol};

    ghost Value = { ReadSymbol };

    ghost view = { λ s. s.symbol };
}

impl WideSymbol {
    /// A symbol that was read by the wide grammar.
    pub(crate) fn new(symbol: Symbol) -> WideSymbol
        ensures { result ≡ symbol }
    {
        WideSymbol { symbol }
    }

    /// The symbol, regardless of its grammar. Its pressed spelling needn't be read as its tree: a caller that presses it has to check that.
    pub fn plain(&self) -> &Symbol
        ensures { result.now ≡ self.now }
    {
        &self.symbol
    }

    /// The lists of a symbol that is given up: its bytes, and its nodes. The call takes no memory.
    pub(crate) fn into_lists(self) -> (Vec<u8>, Nodes) {
        let WideSymbol { symbol } = self;
        symbol.into_lists()
    }

    /// The item of the whole symbol in a detail.
    pub(crate) fn root_as(&self, detail: Detail) -> Item<Context>
        ensures may_come { MayBeAsked self.now (Part.Sub result) }
        ensures shows { unshared_of self.now result ≡ shown_symbol detail self.now }
    {
        self.symbol.root_as(detail)
    }

    /// The text of the symbol, if it costs at most the limit.
    ///
    /// # Errors
    ///
    /// `TooLong` exactly where the text costs more, `Memory` where a list couldn't grow.
    pub fn text(&self, limit: u32) -> Result<Vec<u8>, Refusal>
        ensures text { IfOk result (λ text. text.items ≡ text_of (shown_symbol Detail.Full self.now)) }
        ensures within { OnOk result (cost_of (shown_symbol Detail.Full self.now) ≤ limit) }
        ensures refusals { IfErr result (λ r. (r ≡ Refusal.TooLong) ⊎ (r ≡ Refusal.Memory)) }
        ensures too_long { result ≡ Err Refusal.TooLong → limit < cost_of (shown_symbol Detail.Full self.now) }
    {
        self.symbol.text(limit)
    }

    /// The text of the symbol in a detail, if it costs at most the limit.
    ///
    /// # Errors
    ///
    /// `TooLong` exactly where the text costs more, `Memory` where a list couldn't grow.
    pub fn text_as(&self, limit: u32, detail: Detail) -> Result<Vec<u8>, Refusal>
        ensures text { IfOk result (λ text. text.items ≡ text_of (shown_symbol detail self.now)) }
        ensures within { OnOk result (cost_of (shown_symbol detail self.now) ≤ limit) }
        ensures refusals { IfErr result (λ r. (r ≡ Refusal.TooLong) ⊎ (r ≡ Refusal.Memory)) }
        ensures too_long { result ≡ Err Refusal.TooLong → limit < cost_of (shown_symbol detail self.now) }
    {
        self.symbol.text_as(limit, detail)
    }

    /// The numbers of rows, nodes and steps that reading took.
    pub fn counts(&self) -> Counts
        ensures rows { result.rows ≡ self.now.rows }
        ensures nodes { result.nodes ≡ length self.now.table.nodes }
        ensures steps { result.steps ≡ self.now.steps }
        ensures rows_bound { result.rows ≤ 4 * length self.now.bytes + 4 }
        ensures nodes_bound { result.nodes ≤ 2 * length self.now.bytes + 8 }
        ensures steps_bound { result.steps ≤ 32 * length self.now.bytes + 48 }
        ensures thunks_bound { length self.now.table.thunks ≤ result.nodes }
        ensures counted { result.rows ≤ result.steps }
        ensures is_read { IsRead self.now }
    {
        self.symbol.counts()
    }

    /// The node of the whole symbol.
    pub fn root_node(&self) -> u32
        ensures root { result ≡ self.now.root }
        ensures within { result < length self.now.table.nodes }
    {
        self.symbol.root_node()
    }

    /// The view of a node, which is below `counts().nodes`. The call takes no memory.
    ///
    /// In the node's tree, a parameter is only its number. The tree is the node's production over these numbers, the bytes of these texts
    /// and the trees of the parts, and for `WIDE_THUNK` over the offsets. Two nodes have equal trees exactly where they agree in all of
    /// these.
    pub fn node(&self, node: u32) -> Node
        requires { node < length self.now.table.nodes }
        ensures fields { IsView self.now.bytes result (fields_at (table_of self.now) node) }
        ensures tree { plain_tree (table_of self.now) node ≡ tree_from (fields_at (table_of self.now) node) (offsets_of (plain_tree (table_of self.now) node)) }
        ensures within { All (λ text. IsWithin text self.now.bytes) result.texts }
        ensures few { result.parts ≤ 3 }
    {
        self.symbol.node(node)
    }

    /// A part of a node, counted from 0: an earlier node. The node is below `counts().nodes`, and the part below its view's `parts`. The
    /// call takes no memory.
    pub fn part(&self, node: u32, k: u32) -> u32
        requires node { node < length self.now.table.nodes }
        requires part { k < length (fields_at (table_of self.now) node).parts }
        ensures earlier { result < node }
        ensures part { slice_get (fields_at (table_of self.now) node).parts k ≡ Some (plain_tree (table_of self.now) result) }
    {
        self.symbol.part(node, k)
    }

    /// The offsets by which a node adjusts pointers, where it is a thunk: all four that a thunk may have. The node is below
    /// `counts().nodes`. The call takes no memory.
    pub fn call_offsets(&self, node: u32) -> Option<Thunk>
        requires { node < length self.now.table.nodes }
        ensures offsets { offsets_in self.now.bytes result ≡ offsets_of (plain_tree (table_of self.now) node) }
        ensures within { IsKnownThunk self.now.bytes result }
    {
        self.symbol.call_offsets(node)
    }

    /// The bytes of a span within the symbol; each text of a node's view is such a span. The call
    /// takes no memory.
    pub fn bytes_of(&self, span: Span) -> &[u8]
        requires { IsWithin span self.now.bytes }
        ensures { result.now ≡ bytes_at self.now.bytes span }
    {
        self.symbol.bytes_of(span)
    }
}

impl Layout for WideSymbol {
    ghost use Rattle.std.proofs.Common.{lit≤};
    ghost use Rattle.cpp_layout.specs.Layout.{unshared_of, bytes_of_part, MayBeAsked};

    type Ctx = Context;

    ghost may_come = { MayBeAsked };

    ghost unshared = { unshared_of };

    ghost bytes_of = { bytes_of_part };

    fn fill(&self, item: Item<Context>, parts: &mut ArrayVec<Part<Context>, 8>)
        requires may_come { MayBeAsked self.now (Part.Sub item) }
        requires empty { parts.old.items ≡ [] }
        ensures parts { unshared_of self.now item ≡ joined (unshared_of self.now) (bytes_of_part self.now) parts.new.items }
        ensures may_come { All (MayBeAsked self.now) parts.new.items }
    {
        self.symbol.fill(item, parts);
    }

    #[inline(always)]
    fn push_parts(&self, item: Item<Context>, stack: &mut Vec<Part<Context>>)
        requires may_come { MayBeAsked self.now (Part.Sub item) }
        requires room { vec_len stack.old + 8 ≤ vec_capacity stack.old }
        ensures parts { Stacked (unshared_of self.now) (bytes_of_part self.now) (MayBeAsked self.now) stack.old.items stack.new.items (unshared_of self.now item) }
        ensures few { vec_len stack.new ≤ vec_len stack.old + 8 }
        ensures capacity { vec_capacity stack.new ≡ vec_capacity stack.old }
    {
        self.symbol.push_parts(item, stack);
    }

    #[inline(always)]
    fn is_noted(&self, item: Item<Context>) -> bool
        requires may_come { MayBeAsked self.now (Part.Sub item) }
    {
        self.symbol.is_noted(item)
    }

    #[inline(always)]
    fn is_same(&self, one: &Item<Context>, other: &Item<Context>) -> bool
        ensures { result ≡ true → one.now ≡ other.now }
    {
        self.symbol.is_same(one, other)
    }

    #[inline(always)]
    fn begins_run(&self, item: Item<Context>) -> bool
        requires may_come { MayBeAsked self.now (Part.Sub item) }
    {
        self.symbol.begins_run(item)
    }

    #[inline(always)]
    fn run(&self, item: Item<Context>) -> Option<Run<Context>>
        requires may_come { MayBeAsked self.now (Part.Sub item) }
        ensures run { IfSome result (λ run. IsRun (unshared_of self.now) (bytes_of_part self.now) (MayBeAsked self.now) item run) }
    {
        self.symbol.run(item)
    }

    #[inline(always)]
    fn context_number(&self, ctx: Context) -> u64 {
        self.symbol.context_number(ctx)
    }

    #[inline(always)]
    fn bytes<'a>(&'a self, part: &'a Part<Context>) -> &'a [u8]
        requires may_come { MayBeAsked self.now part.now }
        requires is_text { IsText part.now }
        ensures bytes { result.now ≡ bytes_of_part self.now part.now }
        ensures not_empty { 0 < length result.now }
    {
        self.symbol.bytes(part)
    }

    ghost small_context = { (lit≤ tt, lit≤ tt) };
}
