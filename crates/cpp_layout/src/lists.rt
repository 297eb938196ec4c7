// The parts of lists, from an element on.
#![tactic(auto)]

ghost use Rattle.std.specs.Prelude.{◌≡◌, ◌+◌, ◌<◌, ◌≤◌, length, false};
ghost use Rattle.cpp_term.specs.Items as items;
ghost use Rattle.cpp_term.specs.Term as term;
ghost use Rattle.cpp_term.specs.Parts.{first_parts, more_parts, expansion_parts};
ghost use Rattle.cpp_tree.specs.Nodes.{IsTable, IsAliasBelow, is_again, entry_at};
ghost use Rattle.cpp_layout.specs.Layout.{table_of, context_of, Shows, printed_tree};

use crate::context::Context;
use crate::symbol::Symbol;
use crate::{form, texts};
use cpp_tree::node::Node;
use sym_print::PartList;

impl Symbol {
    /// The parts of a list's elements from the first one on: an element that prints nothing is skipped.
    #[inline]
    pub(crate) fn fill_first<S: PartList<Context>>(
        &self,
        parts: &mut S,
        first: u32,
        rest: u32,
        ctx: Context,
    )
        requires context { IsAliasBelow (length self.now.table.nodes) ctx.argument }
        requires table { IsTable (table_of self.now) }
        requires first { first < length self.now.table.nodes }
        requires rest { rest < length self.now.table.nodes }
        requires room { 8 ≤ S.room parts.old }
        ensures shows { Shows self.now ctx.detail (S.held parts.old) (S.held parts.new) (first_parts (context_of ctx) (term.list (printed_tree self.now ctx first) (printed_tree self.now ctx rest))) }
        ensures few { S.room parts.old ≤ S.room parts.new + 8 }
    {
        if self.prints_nothing(first, ctx) {
            self.push_list(parts, rest, form::FIRST, ctx);
        } else {
            self.push_list(parts, rest, form::MORE, ctx);
            self.push_item(parts, first, form::RIGHT, 0, ctx);
            self.push_item(parts, first, form::LEFT, 0, ctx);
        }
    }

    /// The parts of a list's elements that follow others.
    #[inline]
    pub(crate) fn fill_more<S: PartList<Context>>(
        &self,
        parts: &mut S,
        first: u32,
        rest: u32,
        ctx: Context,
    )
        requires context { IsAliasBelow (length self.now.table.nodes) ctx.argument }
        requires table { IsTable (table_of self.now) }
        requires first { first < length self.now.table.nodes }
        requires rest { rest < length self.now.table.nodes }
        requires room { 8 ≤ S.room parts.old }
        ensures shows { Shows self.now ctx.detail (S.held parts.old) (S.held parts.new) (more_parts (context_of ctx) (term.list (printed_tree self.now ctx first) (printed_tree self.now ctx rest))) }
        ensures few { S.room parts.old ≤ S.room parts.new + 8 }
    {
        if self.prints_nothing(first, ctx) {
            self.push_list(parts, rest, form::MORE, ctx);
        } else {
            self.push_list(parts, rest, form::MORE, ctx);
            self.push_item(parts, first, form::RIGHT, 0, ctx);
            self.push_item(parts, first, form::LEFT, 0, ctx);
            self.push_text(parts, texts::COMMA);
        }
    }

    /// The parts of an expansion: the pattern with dots where it holds no pack, nothing where its packs are empty, and
    /// otherwise its elements from the first on.
    pub(crate) fn fill_expansion<S: PartList<Context>>(
        &self,
        parts: &mut S,
        pattern: u32,
        ctx: Context,
    )
        requires context { IsAliasBelow (length self.now.table.nodes) ctx.argument }
        requires table { IsTable (table_of self.now) }
        requires pattern { pattern < length self.now.table.nodes }
        requires room { 8 ≤ S.room parts.old }
        ensures shows { Shows self.now ctx.detail (S.held parts.old) (S.held parts.new) (expansion_parts (context_of ctx) (printed_tree self.now ctx pattern) (items.packs_of (context_of ctx) (printed_tree self.now ctx pattern))) }
        ensures few { S.room parts.old ≤ S.room parts.new + 8 }
    {
        match self.packs(pattern, ctx) {
            None => {
                self.push_text(parts, texts::DOTS);
                self.push_item(parts, pattern, form::RIGHT, 0, ctx);
                self.push_item(parts, pattern, form::LEFT, 0, ctx);
            }
            Some(count) => {
                if count > 0 {
                    self.push_item(parts, pattern, form::EXPAND, 0, ctx);
                }
            }
        }
    }

    /// The parts of a node in the form of a list's elements.
    #[inline]
    pub(crate) fn fill_first_of<S: PartList<Context>>(&self, parts: &mut S, node: u32, ctx: Context)
        requires context { IsAliasBelow (length self.now.table.nodes) ctx.argument }
        requires own { is_again (entry_at self.now.table.nodes node).node ≡ false }
        requires table { IsTable (table_of self.now) }
        requires node { node < length self.now.table.nodes }
        requires room { 8 ≤ S.room parts.old }
        ensures shows { Shows self.now ctx.detail (S.held parts.old) (S.held parts.new) (first_parts (context_of ctx) (printed_tree self.now ctx node)) }
        ensures few { S.room parts.old ≤ S.room parts.new + 8 }
    {
        match self.stored(node, ctx) {
            Node::Cell { first, rest } => self.fill_first(parts, first, rest, ctx),
            _ => {}
        }
    }

    /// The parts of a node in the form of elements that follow others.
    #[inline]
    pub(crate) fn fill_more_of<S: PartList<Context>>(&self, parts: &mut S, node: u32, ctx: Context)
        requires context { IsAliasBelow (length self.now.table.nodes) ctx.argument }
        requires own { is_again (entry_at self.now.table.nodes node).node ≡ false }
        requires table { IsTable (table_of self.now) }
        requires node { node < length self.now.table.nodes }
        requires room { 8 ≤ S.room parts.old }
        ensures shows { Shows self.now ctx.detail (S.held parts.old) (S.held parts.new) (more_parts (context_of ctx) (printed_tree self.now ctx node)) }
        ensures few { S.room parts.old ≤ S.room parts.new + 8 }
    {
        match self.stored(node, ctx) {
            Node::Cell { first, rest } => self.fill_more(parts, first, rest, ctx),
            _ => {}
        }
    }
}
