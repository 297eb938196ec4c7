// A symbol as a layout, and its text.
#![tactic(auto)]

ghost use Rattle.std.specs.Prelude.{◌≡◌, ◌+◌, ◌<◌, ◌≤◌, ◌^◌, ◌++◌, [], List, length, vec_len, vec_capacity, true, IfOk, IfErr, IfSome, OnOk, ◌⊎◌, Err, false};
ghost use Rattle.std.specs.List.{All};
ghost use Rattle.sym_core.specs.declared.Refusal.{Refusal};
ghost use Rattle.sym_print.specs.declared.layout.Part.{Part};
ghost use Rattle.sym_print.specs.declared.detail.Detail.{Detail};
ghost use Rattle.sym_print.specs.Unshared.{text_of, cost_of};
ghost use Rattle.sym_print.specs.Joined.{joined};
ghost use Rattle.sym_print.specs.Runs.{IsRun};
ghost use Rattle.sym_print.specs.Stacked.{Stacked};
ghost use Rattle.sym_print.specs.Held.{Held};
ghost use Rattle.sym_print.specs.Unfold.{PartOf};
ghost use Rattle.cpp_term.specs.Items as items;
ghost use Rattle.cpp_grammar.specs.Parts.{is_below};
ghost use Rattle.cpp_term.specs.Parts.{parts_in, expand_parts, expand_rest};
ghost use Rattle.cpp_tree.specs.Nodes.{is_again, entry_at, IsTable, IsAliasBelow};
ghost use Rattle.cpp_layout.specs.Layout.{table_of, context_of, form_of, tree_in, Shows, unshared_of, bytes_of_part, MayBeAsked, shown_symbol, printed_tree};

use crate::context::Context;
use crate::runs::run_text;
use crate::symbol::Symbol;
use crate::{form, texts};
use arrayvec::ArrayVec;
use cpp_term::texts_are_the_same;
use sym_core::Refusal;
use sym_print::{Detail, Item, Layout, Part, PartList, Run, print};

/// Whether the packs have an element after this one.
#[tactic(auto, unfolding(cpp_grammar::specs::Parts::is_below))]
fn has_next(packs: Option<u32>, at: u32) -> bool
    ensures is { result ≡ is_below (at + 1) packs }
    ensures room { result ≡ true → at + 1 < 2 ^ 32 }
{
    match packs {
        None => false,
        Some(count) => at < count && at + 1 < count,
    }
}

impl Symbol {
    /// Adds an expansion's elements after the one at this place.
    fn push_next<S: PartList<Context>>(&self, parts: &mut S, pattern: u32, at: u32, ctx: Context)
        requires context { IsAliasBelow (length self.now.table.nodes) ctx.argument }
        requires table { IsTable (table_of self.now) }
        requires pattern { pattern < length self.now.table.nodes }
        requires room { 0 < S.room parts.old }
        ensures shows { (below : Held Context) (others : List (PartOf items.Item)) → Shows self.now ctx.detail below (S.held parts.old) others
            → Shows self.now ctx.detail below (S.held parts.new) (expand_rest (context_of ctx) (printed_tree self.now ctx pattern) (at + 1) ++ others) }
        ensures room { S.room parts.old ≤ S.room parts.new + 1 }
    {
        if has_next(self.packs(pattern, ctx), at) {
            self.push_item(parts, pattern, form::EXPAND, at + 1, ctx);
        }
    }

    /// The parts of an expansion's elements from this place on.
    fn fill_expand<S: PartList<Context>>(&self, parts: &mut S, pattern: u32, at: u32, ctx: Context)
        requires context { IsAliasBelow (length self.now.table.nodes) ctx.argument }
        requires table { IsTable (table_of self.now) }
        requires pattern { pattern < length self.now.table.nodes }
        requires room { 8 ≤ S.room parts.old }
        ensures shows { Shows self.now ctx.detail (S.held parts.old) (S.held parts.new) (expand_parts (context_of ctx) (printed_tree self.now ctx pattern) at) }
        ensures few { S.room parts.old ≤ S.room parts.new + 8 }
    {
        let inner = Context {
            index: Some(at),
            ..ctx
        };
        self.push_next(parts, pattern, at, ctx);
        self.push_item(parts, pattern, form::RIGHT, 0, inner);
        self.push_item(parts, pattern, form::LEFT, 0, inner);
        self.push_text_if(parts, at > 0, texts::COMMA);
    }

    /// The parts of a node in a form.
    #[inline(always)]
    fn fill_form<S: PartList<Context>>(
        &self,
        parts: &mut S,
        node: u32,
        form: u32,
        at: u32,
        ctx: Context,
    )
        requires context { IsAliasBelow (length self.now.table.nodes) ctx.argument }
        requires table { IsTable (table_of self.now) }
        requires node { node < length self.now.table.nodes }
        requires room { 8 ≤ S.room parts.old }
        ensures shows { Shows self.now ctx.detail (S.held parts.old) (S.held parts.new) (parts_in ctx.detail (context_of ctx) (form_of form at) (tree_in form (printed_tree self.now ctx node))) }
        ensures few { S.room parts.old ≤ S.room parts.new + 8 }
    {
        let place = self.place(node, ctx);
        self.fill_own(parts, place.node, form, at, place.ctx);
    }

    /// The parts, in a form, of a node that isn't an alias.
    #[inline(always)]
    fn fill_own<S: PartList<Context>>(
        &self,
        parts: &mut S,
        node: u32,
        form: u32,
        at: u32,
        ctx: Context,
    )
        requires context { IsAliasBelow (length self.now.table.nodes) ctx.argument }
        requires own { is_again (entry_at self.now.table.nodes node).node ≡ false }
        requires table { IsTable (table_of self.now) }
        requires node { node < length self.now.table.nodes }
        requires room { 8 ≤ S.room parts.old }
        ensures shows { Shows self.now ctx.detail (S.held parts.old) (S.held parts.new) (parts_in ctx.detail (context_of ctx) (form_of form at) (tree_in form (printed_tree self.now ctx node))) }
        ensures few { S.room parts.old ≤ S.room parts.new + 8 }
    {
        match form {
            form::LEFT => self.fill_left(parts, node, ctx),
            form::RIGHT => self.fill_right(parts, node, ctx),
            form::FIRST => self.fill_first_of(parts, node, ctx),
            form::MORE => self.fill_more_of(parts, node, ctx),
            form::LOW => self.fill_low(parts, node, ctx),
            form::BASE => self.fill_base(parts, node, ctx),
            form::PIECE => self.fill_own_piece(parts, node, ctx),
            form::FULL => self.fill_full(parts, node, ctx),
            form::BARE => self.fill_bare_of(parts, node, ctx),
            form::ROOT => self.fill_root(parts, node, ctx),
            form::DECLARED => self.fill_declared(parts, node, at, ctx),
            _ => self.fill_expand(parts, node, at, ctx),
        }
    }
}

impl Layout for Symbol {
    ghost use Rattle.std.proofs.Common.{lit≤};
    ghost use Rattle.cpp_layout.specs.Layout.{unshared_of, bytes_of_part, MayBeAsked};

    type Ctx = Context;

    ghost may_come = { MayBeAsked };

    ghost unshared = { unshared_of };

    ghost bytes_of = { bytes_of_part };

    fn fill(&self, item: Item<Context>, parts: &mut ArrayVec<Part<Context>, 8>)
        requires may_come { MayBeAsked self.now (Part.Sub item) }
        requires empty { parts.old.items ≡ [] }
        ensures parts { unshared_of self.now item ≡ joined (unshared_of self.now) (bytes_of_part self.now) parts.new.items }
        ensures may_come { All (MayBeAsked self.now) parts.new.items }
    {
        self.fill_form(parts, item.node, item.form, item.at, item.ctx);
        parts.as_mut_slice().reverse();
    }

    #[inline(always)]
    fn push_parts(&self, item: Item<Context>, stack: &mut Vec<Part<Context>>)
        requires may_come { MayBeAsked self.now (Part.Sub item) }
        requires room { vec_len stack.old + 8 ≤ vec_capacity stack.old }
        ensures parts { Stacked (unshared_of self.now) (bytes_of_part self.now) (MayBeAsked self.now) stack.old.items stack.new.items (unshared_of self.now item) }
        ensures few { vec_len stack.new ≤ vec_len stack.old + 8 }
        ensures capacity { vec_capacity stack.new ≡ vec_capacity stack.old }
    {
        self.fill_form(stack, item.node, item.form, item.at, item.ctx);
    }

    /// Names made of other names are noted: they recur as prefixes and as arguments, and take many entries to print.
    #[inline(always)]
    fn is_noted(&self, item: Item<Context>) -> bool
        requires may_come { MayBeAsked self.now (Part.Sub item) }
    {
        item.form == form::LEFT && self.is_composite(item.node)
    }

    #[inline(always)]
    fn is_same(&self, one: &Item<Context>, other: &Item<Context>) -> bool
        ensures { result ≡ true → one.now ≡ other.now }
    {
        one.node == other.node
            && one.form == other.form
            && one.at == other.at
            && one.ctx == other.ctx
    }

    #[inline(always)]
    fn begins_run(&self, item: Item<Context>) -> bool
        requires may_come { MayBeAsked self.now (Part.Sub item) }
    {
        self.is_long_run(item)
    }

    /// Pointers to pointers, and to constant pointers, are runs.
    #[inline(always)]
    fn run(&self, item: Item<Context>) -> Option<Run<Context>>
        requires may_come { MayBeAsked self.now (Part.Sub item) }
        ensures run { IfSome result (λ run. IsRun (unshared_of self.now) (bytes_of_part self.now) (MayBeAsked self.now) item run) }
    {
        self.run_of(item)
    }

    #[inline(always)]
    fn context_number(&self, ctx: Context) -> u64 {
        ctx.number()
    }

    #[inline(always)]
    fn bytes<'a>(&'a self, part: &'a Part<Context>) -> &'a [u8] {
        match part {
            Part::Symbol(span) => self.bytes_of(*span),
            Part::Fixed(number) => texts::fixed_text(*number),
            Part::List(span) => &run_text()[span.from as usize..span.to as usize],
            Part::Own(bytes, count) => &bytes[..*count as usize],
            _ => b"",
        }
    }

    ghost small_context = { (lit≤ tt, lit≤ tt) };
}

impl Symbol {
    /// The item of the whole symbol, in full.
    pub fn root(&self) -> Item<Context>
        ensures may_come { MayBeAsked self.now (Part.Sub result) }
        ensures shows { unshared_of self.now result ≡ shown_symbol Detail.Full self.now }
    {
        self.root_as(Detail::Full)
    }

    /// The item of the whole symbol in a detail.
    pub fn root_as(&self, detail: Detail) -> Item<Context>
        ensures may_come { MayBeAsked self.now (Part.Sub result) }
        ensures shows { unshared_of self.now result ≡ shown_symbol detail self.now }
    {
        texts_are_the_same();
        Item {
            node: self.root_node(),
            form: form::ROOT,
            at: 0,
            ctx: Context::closed(detail),
        }
    }

    /// The text of the symbol, if it costs at most the limit.
    ///
    /// # Errors
    ///
    /// `TooLong` exactly where the text costs more, `Memory` where a list couldn't grow.
    pub fn text(&self, limit: u32) -> Result<Vec<u8>, Refusal>
        ensures text { IfOk result (λ text. text.items ≡ text_of (shown_symbol Detail.Full self.now)) }
        ensures within { OnOk result (cost_of (shown_symbol Detail.Full self.now) ≤ limit) }
        ensures refusals { IfErr result (λ r. (r ≡ Refusal.TooLong) ⊎ (r ≡ Refusal.Memory)) }
        ensures too_long { result ≡ Err Refusal.TooLong → limit < cost_of (shown_symbol Detail.Full self.now) }
    {
        self.text_as(limit, Detail::Full)
    }

    /// The text of the symbol in a detail, if it costs at most the limit.
    ///
    /// # Errors
    ///
    /// `TooLong` exactly where the text costs more, `Memory` where a list couldn't grow.
    pub fn text_as(&self, limit: u32, detail: Detail) -> Result<Vec<u8>, Refusal>
        ensures text { IfOk result (λ text. text.items ≡ text_of (shown_symbol detail self.now)) }
        ensures within { OnOk result (cost_of (shown_symbol detail self.now) ≤ limit) }
        ensures refusals { IfErr result (λ r. (r ≡ Refusal.TooLong) ⊎ (r ≡ Refusal.Memory)) }
        ensures too_long { result ≡ Err Refusal.TooLong → limit < cost_of (shown_symbol detail self.now) }
    {
        print(self.allocator(), self, self.root_as(detail), limit)
    }
}
