// The left parts of references and of floating types, and the parts of parameters.
#![tactic(auto)]

ghost use Rattle.std.specs.Prelude.{◌+◌, ◌<◌, ◌≤◌, ◌∷◌, [], length};
ghost use Rattle.sym_print.specs.Unfold.{sub};
ghost use Rattle.cpp_grammar.specs.Items as heads;
ghost use Rattle.cpp_term.specs.Items as items;
ghost use Rattle.cpp_term.specs.Parts.{as_item, reference_parts, parameter_parts, float_parts};
ghost use Rattle.cpp_term.specs.Reargued.{argument_or};
ghost use Rattle.cpp_tree.specs.Nodes.{tree_if_there, tree_at, trees, IsTable, bytes_at, IsWithin, IsAliasBelow};
ghost use Rattle.cpp_layout.specs.Texts.{fixed_text};
ghost use Rattle.cpp_layout.specs.Layout.{table_of, item_in, form_of, context_of, marked, referred, Shows, printed_tree};

use crate::context::Context;
use crate::symbol::Symbol;
use crate::{form, texts};
use cpp_tree::node::Node;
use sym_core::Span;
use sym_print::PartList;

impl Symbol {
    /// The left parts of a reference. If the referenced type is a reference too, only that type is printed.
    pub(crate) fn fill_reference<S: PartList<Context>>(
        &self,
        parts: &mut S,
        ty: u32,
        form: u32,
        behind: u16,
        plain: u16,
        ctx: Context,
    )
        requires context { IsAliasBelow (length self.now.table.nodes) ctx.argument }
        requires table { IsTable (table_of self.now) }
        requires ty { ty < length self.now.table.nodes }
        requires behind { 0 < length (fixed_text behind) }
        requires plain { 0 < length (fixed_text plain) }
        requires room { 8 ≤ S.room parts.old }
        ensures shows { Shows self.now ctx.detail (S.held parts.old) (S.held parts.new) (referred (heads.is_reference (items.head (context_of ctx) (printed_tree self.now ctx ty))) (sub (item_in (trees (table_of self.now)) ty form 0 ctx))
            (marked (heads.is_funarr (items.head (context_of ctx) (printed_tree self.now ctx ty))) (as_item heads.left (context_of ctx) (printed_tree self.now ctx ty)) (fixed_text behind) (fixed_text plain))) }
        ensures few { S.room parts.old ≤ S.room parts.new + 8 }
    {
        if self.is_reference(ty, ctx) {
            self.push_item(parts, ty, form, 0, ctx);
        } else {
            self.fill_marked(parts, ty, behind, plain, ctx);
        }
    }

    /// The left parts of a reference to an lvalue.
    // <type> ::= R <type>
    pub(crate) fn fill_lvalue<S: PartList<Context>>(&self, parts: &mut S, ty: u32, ctx: Context)
        requires context { IsAliasBelow (length self.now.table.nodes) ctx.argument }
        requires table { IsTable (table_of self.now) }
        requires ty { ty < length self.now.table.nodes }
        requires room { 8 ≤ S.room parts.old }
        ensures shows { Shows self.now ctx.detail (S.held parts.old) (S.held parts.new) (reference_parts (context_of ctx) heads.low (printed_tree self.now ctx ty) "&") }
        ensures few { S.room parts.old ≤ S.room parts.new + 8 }
    {
        self.fill_reference(parts, ty, form::LOW, texts::LEFT_AND, texts::AND, ctx);
    }

    /// The left parts of a reference to an rvalue.
    // <type> ::= O <type>
    pub(crate) fn fill_rvalue<S: PartList<Context>>(&self, parts: &mut S, ty: u32, ctx: Context)
        requires context { IsAliasBelow (length self.now.table.nodes) ctx.argument }
        requires table { IsTable (table_of self.now) }
        requires ty { ty < length self.now.table.nodes }
        requires room { 8 ≤ S.room parts.old }
        ensures shows { Shows self.now ctx.detail (S.held parts.old) (S.held parts.new) (reference_parts (context_of ctx) heads.left (printed_tree self.now ctx ty) "&&") }
        ensures few { S.room parts.old ≤ S.room parts.new + 8 }
    {
        self.fill_reference(
            parts,
            ty,
            form::LEFT,
            texts::LEFT_AND_AND,
            texts::AND_AND,
            ctx,
        );
    }

    /// The left parts of a floating type of this many bits.
    // <builtin-type> ::= DF <number> _ | DF <number> x | DF <number> b
    pub(crate) fn fill_float<S: PartList<Context>>(
        &self,
        parts: &mut S,
        digits: Span,
        end: u8,
        ctx: Context,
    )
        requires context { IsAliasBelow (length self.now.table.nodes) ctx.argument }
        requires digits { IsWithin digits self.now.bytes }
        requires room { 8 ≤ S.room parts.old }
        ensures shows { Shows self.now ctx.detail (S.held parts.old) (S.held parts.new) (float_parts (bytes_at self.now.bytes digits) end) }
        ensures few { S.room parts.old ≤ S.room parts.new + 8 }
    {
        if end == b'b' {
            self.push_text(parts, texts::BRAIN_FLOAT);
        } else {
            self.push_text_if(parts, end == b'x', texts::WIDER);
            self.push_bytes(parts, digits);
            self.push_text(parts, texts::FLOAT);
        }
    }

    /// The parts of a parameter in a form: those of its argument, without an index.
    pub(crate) fn fill_parameter<S: PartList<Context>>(
        &self,
        parts: &mut S,
        number: u32,
        argument: u32,
        form: u32,
        ctx: Context,
    )
        requires context { IsAliasBelow (length self.now.table.nodes) ctx.argument }
        requires table { IsTable (table_of self.now) }
        requires argument { argument < length self.now.table.nodes }
        requires plain { form < 6 }
        requires room { 8 ≤ S.room parts.old }
        ensures shows { Shows self.now ctx.detail (S.held parts.old) (S.held parts.new) (parameter_parts (form_of form 0) number (items.argument (context_of ctx) (argument_or (tree_if_there (trees (table_of self.now)) ctx.argument) number (tree_at (trees (table_of self.now)) argument)))) }
        ensures few { S.room parts.old ≤ S.room parts.new + 8 }
    {
        let place = self.argument_of(number, argument, ctx);
        let own = self.place(place.node, place.ctx);
        match self.stored(own.node, own.ctx) {
            Node::Declaring { heads, .. } => self.fill_own_name(
                parts, heads, number, form, ctx.detail,
            ),
            _ => self.push_item(parts, place.node, form, 0, place.ctx),
        }
    }
}
