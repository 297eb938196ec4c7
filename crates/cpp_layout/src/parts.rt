// Texts and items that are pushed onto a list of parts, the last first.
#![tactic(auto)]

ghost use Rattle.std.specs.Prelude.{◌≡◌, ◌+◌, ◌<◌, ◌≤◌, ◌++◌, ◌∷◌, List, length, if◌then◌else◌};
ghost use Rattle.sym_print.specs.Held.{Held};
ghost use Rattle.sym_print.specs.Unfold.{PartOf, text, sub};
ghost use Rattle.sym_print.specs.declared.detail.Detail.{Detail};
ghost use Rattle.cpp_term.specs.Items as items;
ghost use Rattle.cpp_term.specs.Parts.{list_part, text_part};
ghost use Rattle.cpp_tree.specs.Nodes.{tree_at, trees, under_kept, IsTable, bytes_at, IsWithin, IsAliasBelow};
ghost use Rattle.cpp_layout.specs.Texts.{fixed_text};
ghost use Rattle.cpp_layout.specs.declared.texts.TheConstants.{COUNT};
ghost use Rattle.cpp_layout.specs.Layout.{table_of, item_in, form_of, tree_in, context_of, text_if, Shows, printed_tree, type_shown};

use crate::context::Context;
use crate::symbol::Symbol;
use crate::texts;
use cpp_tree::node::Node;
use sym_core::Span;
use sym_print::{Detail, Item, Part, PartList};

impl Symbol {
    /// Adds an item.
    #[inline(always)]
    pub(crate) fn push_item<S: PartList<Context>>(
        &self,
        parts: &mut S,
        node: u32,
        form: u32,
        at: u32,
        ctx: Context,
    )
        requires context { IsAliasBelow (length self.now.table.nodes) ctx.argument }
        requires room { 0 < S.room parts.old }
        requires node { node < length self.now.table.nodes }
        ensures shows { (below : Held Context) (others : List (PartOf items.Item)) → Shows self.now ctx.detail below (S.held parts.old) others
            → Shows self.now ctx.detail below (S.held parts.new) (sub (item_in (trees (table_of self.now)) node form at ctx) ∷ others) }
        ensures room { S.room parts.new + 1 ≡ S.room parts.old }
    {
        parts.push_part(Part::Sub(Item {
            node,
            form,
            at,
            ctx,
        }));
    }

    /// Adds a fixed text.
    #[inline(always)]
    pub(crate) fn push_text<S: PartList<Context>>(&self, parts: &mut S, number: u16)
        requires room { 0 < S.room parts.old }
        requires text { 0 < length (fixed_text number) }
        ensures shows { (d : Detail) (below : Held Context) (others : List (PartOf items.Item)) → Shows self.now d below (S.held parts.old) others
            → Shows self.now d below (S.held parts.new) (text (fixed_text number) ∷ others) }
        ensures room { S.room parts.new + 1 ≡ S.room parts.old }
    {
        parts.push_part(Part::Fixed(number));
    }

    /// Adds one of two fixed texts, depending on a test.
    #[inline(always)]
    pub(crate) fn push_either<S: PartList<Context>>(
        &self,
        parts: &mut S,
        test: bool,
        yes: u16,
        no: u16,
    )
        requires room { 0 < S.room parts.old }
        requires yes { 0 < length (fixed_text yes) }
        requires no { 0 < length (fixed_text no) }
        ensures shows { (d : Detail) (below : Held Context) (others : List (PartOf items.Item)) → Shows self.now d below (S.held parts.old) others
            → Shows self.now d below (S.held parts.new) (text (fixed_text (if test then yes else no)) ∷ others) }
        ensures room { S.room parts.new + 1 ≡ S.room parts.old }
    {
        if test {
            self.push_text(parts, yes);
        } else {
            self.push_text(parts, no);
        }
    }

    /// Adds a fixed text if a test holds.
    #[inline(always)]
    pub(crate) fn push_text_if<S: PartList<Context>>(&self, parts: &mut S, test: bool, number: u16)
        requires room { 0 < S.room parts.old }
        requires text { 0 < length (fixed_text number) }
        ensures shows { (d : Detail) (below : Held Context) (others : List (PartOf items.Item)) → Shows self.now d below (S.held parts.old) others
            → Shows self.now d below (S.held parts.new) (text_if test (fixed_text number) others) }
        ensures room { S.room parts.old ≤ S.room parts.new + 1 }
    {
        if test {
            self.push_text(parts, number);
        }
    }

    /// Adds the fixed text with a number, unless the number is `NONE`.
    #[inline(always)]
    pub(crate) fn push_own_text<S: PartList<Context>>(&self, parts: &mut S, number: u16)
        requires room { length (text_part (fixed_text number)) ≤ S.room parts.old }
        requires few { number < COUNT }
        ensures shows { (d : Detail) (below : Held Context) (others : List (PartOf items.Item)) → Shows self.now d below (S.held parts.old) others
            → Shows self.now d below (S.held parts.new) (text_part (fixed_text number) ++ others) }
        ensures room { S.room parts.old ≤ S.room parts.new + length (text_part (fixed_text number)) }
    {
        if number != texts::NONE {
            self.push_text(parts, number);
        }
    }

    /// Adds bytes of the symbol, if there are any.
    #[inline(always)]
    pub(crate) fn push_bytes<S: PartList<Context>>(&self, parts: &mut S, span: Span)
        requires room { 0 < S.room parts.old }
        requires within { IsWithin span self.now.bytes }
        ensures shows { (d : Detail) (below : Held Context) (others : List (PartOf items.Item)) → Shows self.now d below (S.held parts.old) others
            → Shows self.now d below (S.held parts.new) (text (bytes_at self.now.bytes span) ∷ others) }
        ensures room { S.room parts.old ≤ S.room parts.new + 1 }
    {
        if span.from < span.to {
            parts.push_part(Part::Symbol(span));
        }
    }

    /// Adds a list, unless it is the empty one.
    #[inline(always)]
    pub(crate) fn push_list<S: PartList<Context>>(
        &self,
        parts: &mut S,
        list: u32,
        form: u32,
        ctx: Context,
    )
        requires context { IsAliasBelow (length self.now.table.nodes) ctx.argument }
        requires room { 0 < S.room parts.old }
        requires table { IsTable (table_of self.now) }
        requires list { list < length self.now.table.nodes }
        requires plain { form < 6 }
        ensures shows { (below : Held Context) (others : List (PartOf items.Item)) → Shows self.now ctx.detail below (S.held parts.old) others
            → Shows self.now ctx.detail below (S.held parts.new) (list_part (form_of form 0) (context_of ctx) (printed_tree self.now ctx list) ++ others) }
        ensures room { S.room parts.old ≤ S.room parts.new + 1 }
    {
        let place = self.place(list, ctx);
        match self.stored(place.node, place.ctx) {
            Node::Nil => {}
            _ => self.push_item(parts, list, form, 0, ctx),
        }
    }

    /// Adds an item of an encoding, without context.
    #[inline(always)]
    pub(crate) fn push_closed<S: PartList<Context>>(
        &self,
        parts: &mut S,
        node: u32,
        form: u32,
        detail: Detail,
    )
        requires room { 0 < S.room parts.old }
        requires node { node < length self.now.table.nodes }
        ensures shows { (below : Held Context) (others : List (PartOf items.Item)) → Shows self.now detail below (S.held parts.old) others
            → Shows self.now detail below (S.held parts.new) (sub (record { tree = tree_in form (tree_at (trees (table_of self.now)) node); form = form_of form 0; context = items.closed }) ∷ others) }
        ensures room { S.room parts.new + 1 ≡ S.room parts.old }
    {
        self.push_item(parts, node, form, 0, Context::closed(detail));
    }

    /// Adds an item of an encoding's types, which are under the argument that the word `under` names, if it names one.
    #[inline(always)]
    pub(crate) fn push_typed<S: PartList<Context>>(
        &self,
        parts: &mut S,
        node: u32,
        form: u32,
        under: u32,
        detail: Detail,
    )
        requires under { IsAliasBelow (length self.now.table.nodes) (under_kept under) }
        requires room { 0 < S.room parts.old }
        requires node { node < length self.now.table.nodes }
        ensures shows { (below : Held Context) (others : List (PartOf items.Item)) → Shows self.now detail below (S.held parts.old) others
            → Shows self.now detail below (S.held parts.new) (sub (record { tree = tree_in form (type_shown self.now under node); form = form_of form 0; context = items.closed }) ∷ others) }
        ensures room { S.room parts.new + 1 ≡ S.room parts.old }
    {
        self.push_item(parts, node, form, 0, Context::of_types(detail, under));
    }

    /// Adds a list of an encoding's types, unless it is the empty one.
    #[inline(always)]
    pub(crate) fn push_typed_list<S: PartList<Context>>(
        &self,
        parts: &mut S,
        list: u32,
        form: u32,
        under: u32,
        detail: Detail,
    )
        requires under { IsAliasBelow (length self.now.table.nodes) (under_kept under) }
        requires room { 0 < S.room parts.old }
        requires table { IsTable (table_of self.now) }
        requires list { list < length self.now.table.nodes }
        requires plain { form < 6 }
        ensures shows { (below : Held Context) (others : List (PartOf items.Item)) → Shows self.now detail below (S.held parts.old) others
            → Shows self.now detail below (S.held parts.new) (list_part (form_of form 0) items.closed (type_shown self.now under list) ++ others) }
        ensures room { S.room parts.old ≤ S.room parts.new + 1 }
    {
        self.push_list(parts, list, form, Context::of_types(detail, under));
    }
}
