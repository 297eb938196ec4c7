// The right parts of types: what they print after a declared name.
#![tactic(auto)]

ghost use Rattle.std.specs.Prelude.{◌≡◌, ◌+◌, ◌<◌, ◌≤◌, length, false};
ghost use Rattle.cpp_term.specs.Parts.{right_parts, qualified_right};
ghost use Rattle.cpp_tree.specs.Nodes.{IsTable, qualifiers_of, IsAliasBelow, is_again, entry_at};
ghost use Rattle.cpp_layout.specs.Layout.{table_of, context_of, Shows, printed_tree};

use crate::context::Context;
use crate::form;
use crate::symbol::Symbol;
use cpp_tree::node::{Node, Qualifiers};
use sym_print::PartList;

impl Symbol {
    /// The right parts of a qualified type. The qualifiers of a function type are among them.
    pub(crate) fn fill_qualified_right<S: PartList<Context>>(
        &self,
        parts: &mut S,
        qualifiers: Qualifiers,
        ty: u32,
        ctx: Context,
    )
        requires context { IsAliasBelow (length self.now.table.nodes) ctx.argument }
        requires table { IsTable (table_of self.now) }
        requires ty { ty < length self.now.table.nodes }
        requires room { 8 ≤ S.room parts.old }
        ensures shows { Shows self.now ctx.detail (S.held parts.old) (S.held parts.new) (qualified_right (context_of ctx) (qualifiers_of qualifiers) (printed_tree self.now ctx ty)) }
        ensures few { S.room parts.old ≤ S.room parts.new + 8 }
    {
        let place = self.place(ty, ctx);
        match self.stored(place.node, place.ctx) {
            Node::FunctionType {
                noexcept,
                mark,
                returned,
                parameters,
                ..
            } => self.fill_function_right(
                parts, qualifiers, mark, noexcept, returned, parameters, place.ctx,
            ),
            _ => self.push_item(parts, ty, form::RIGHT, 0, ctx),
        }
    }

    /// The right parts of a type.
    #[inline]
    pub(crate) fn fill_right<S: PartList<Context>>(&self, parts: &mut S, node: u32, ctx: Context)
        requires context { IsAliasBelow (length self.now.table.nodes) ctx.argument }
        requires own { is_again (entry_at self.now.table.nodes node).node ≡ false }
        requires table { IsTable (table_of self.now) }
        requires node { node < length self.now.table.nodes }
        requires room { 8 ≤ S.room parts.old }
        ensures shows { Shows self.now ctx.detail (S.held parts.old) (S.held parts.new) (right_parts (context_of ctx) (printed_tree self.now ctx node)) }
        ensures few { S.room parts.old ≤ S.room parts.new + 8 }
    {
        match self.stored(node, ctx) {
            Node::Pointer(ty) => self.fill_closing(parts, ty, ctx),
            Node::Lvalue(ty) => self.fill_closing(parts, ty, ctx),
            Node::Rvalue(ty) => self.fill_closing(parts, ty, ctx),
            Node::MemberPointer { member, .. } => self.fill_closing(parts, member, ctx),
            Node::Array { digits, element } => {
                self.fill_array_right(parts, digits, element, ctx);
            }
            Node::Bounded { bound, element } => {
                self.fill_bounded_right(parts, bound, element, ctx);
            }
            Node::Qualified { qualifiers, ty } => {
                self.fill_qualified_right(parts, qualifiers, ty, ctx);
            }
            Node::Vector { element, .. } => self.push_item(parts, element, form::RIGHT, 0, ctx),
            Node::Complex(ty) => self.push_item(parts, ty, form::RIGHT, 0, ctx),
            Node::Parameter { number, argument } => {
                self.fill_parameter(parts, number, argument, form::RIGHT, ctx);
            }
            Node::FunctionType {
                noexcept,
                mark,
                returned,
                parameters,
                ..
            } => {
                let none = Qualifiers {
                    restrict: false,
                    volatile: false,
                    const_: false,
                };
                self.fill_function_right(parts, none, mark, noexcept, returned, parameters, ctx);
            }
            _ => {}
        }
    }
}
