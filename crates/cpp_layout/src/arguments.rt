// The parts of integers and of operands in template arguments.
#![tactic(auto)]

ghost use Rattle.std.specs.Prelude.{◌≡◌, ◌+◌, ◌<◌, ◌≤◌, ◌++◌, List, length, false};
ghost use Rattle.sym_print.specs.Held.{Held};
ghost use Rattle.sym_print.specs.Unfold.{PartOf};
ghost use Rattle.cpp_grammar.specs.Parts.{most_parts};
ghost use Rattle.cpp_term.specs.Items as items;
ghost use Rattle.cpp_term.specs.Parts.{integer_parts, precedence_of, operand_parts};
ghost use Rattle.cpp_tree.specs.Nodes.{IsTable, IsWithin, signed_of, IsAliasBelow, is_again, entry_at};
ghost use Rattle.cpp_layout.specs.Layout.{table_of, context_of, Shows, printed_tree};

use crate::codes::is_plain;
use crate::context::Context;
use crate::operation_rows::{PRIMARY, UNARY, operation_of};
use crate::symbol::Symbol;
use crate::{form, texts};
use cpp_grammar::operand::Operand;
use cpp_tree::node::{Node, Signed};
use sym_print::PartList;

impl Symbol {
    /// The parts of an integer.
    pub(crate) fn fill_integer<S: PartList<Context>>(
        &self,
        parts: &mut S,
        ty: u32,
        value: Signed,
        ctx: Context,
    )
        requires context { IsAliasBelow (length self.now.table.nodes) ctx.argument }
        requires table { IsTable (table_of self.now) }
        requires ty { ty < length self.now.table.nodes }
        requires digits { IsWithin value.digits self.now.bytes }
        requires room { 8 ≤ S.room parts.old }
        ensures shows { Shows self.now ctx.detail (S.held parts.old) (S.held parts.new) (integer_parts (context_of ctx) (printed_tree self.now ctx ty) (signed_of self.now.bytes value)) }
        ensures few { S.room parts.old ≤ S.room parts.new + 8 }
    {
        let place = self.place(ty, ctx);
        match self.stored(place.node, place.ctx) {
            Node::Builtin(letter) => {
                if is_plain(letter) {
                    self.fill_plain_integer(parts, letter, value, ctx);
                } else {
                    self.fill_cast_integer(parts, ty, value, ctx);
                }
            }
            _ => self.fill_cast_integer(parts, ty, value, ctx),
        }
    }

    /// The precedence of a node as an expression. An expression that is neither an operation nor an address needs no parentheses.
    #[tactic(auto, unfolding(cpp_term::specs::Parts::precedence_of, cpp_term::specs::Reargued::reargued, cpp_tree::specs::Nodes::tree_of))]
    fn precedence(&self, node: u32, ctx: Context) -> u8
        requires own { is_again (entry_at self.now.table.nodes node).node ≡ false }
        requires table { IsTable (table_of self.now) }
        requires node { node < length self.now.table.nodes }
        ensures { result ≡ precedence_of (printed_tree self.now ctx node) }
    {
        match self.stored(node, ctx) {
            Node::Operation { first, second, .. } => operation_of(first, second).precedence,
            Node::AddressOf(_) => UNARY,
            _ => PRIMARY,
        }
    }

    /// The parts of an operand, which is put in parentheses if its precedence is at least the given one.
    #[tactic(auto, unfolding(cpp_term::specs::Parts::operand_parts))]
    pub(crate) fn fill_operand<S: PartList<Context>>(
        &self,
        parts: &mut S,
        operand: Operand,
        node: u32,
        ctx: Context,
    )
        requires context { IsAliasBelow (length self.now.table.nodes) ctx.argument }
        requires table { IsTable (table_of self.now) }
        requires node { node < length self.now.table.nodes }
        requires room { most_parts operand ≤ S.room parts.old }
        ensures shows { (below : Held Context) (others : List (PartOf items.Item)) → Shows self.now ctx.detail below (S.held parts.old) others
            → Shows self.now ctx.detail below (S.held parts.new) (operand_parts (context_of ctx) operand (printed_tree self.now ctx node) ++ others) }
        ensures room { S.room parts.old ≤ S.room parts.new + most_parts operand }
    {
        match operand {
            Operand::NotPrinted => {}
            Operand::AsItIs => self.push_item(parts, node, form::LEFT, 0, ctx),
            Operand::AsType => {
                self.push_item(parts, node, form::RIGHT, 0, ctx);
                self.push_item(parts, node, form::LEFT, 0, ctx);
            }
            Operand::AsList => self.push_list(parts, node, form::FIRST, ctx),
            Operand::From(least) => {
                let place = self.place(node, ctx);
                let enclosed = least <= self.precedence(place.node, place.ctx);
                self.push_text_if(parts, enclosed, texts::RIGHT);
                self.push_item(parts, node, form::LEFT, 0, ctx);
                self.push_text_if(parts, enclosed, texts::LEFT);
            }
        }
    }
}
