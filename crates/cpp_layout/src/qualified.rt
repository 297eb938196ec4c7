// The left parts of qualified types: what they print before a declared name.
#![tactic(auto)]

ghost use Rattle.std.specs.Prelude.{◌≡◌, ◌+◌, ◌<◌, ◌≤◌, ◌++◌, [], List, length};
ghost use Rattle.sym_print.specs.Held.{Held};
ghost use Rattle.sym_print.specs.Unfold.{PartOf};
ghost use Rattle.sym_print.specs.declared.detail.Detail.{Detail};
ghost use Rattle.cpp_grammar.specs.Items as heads;
ghost use Rattle.cpp_grammar.specs.Parts.{blank_last, qualifier_text};
ghost use Rattle.cpp_term.specs.Items as items;
ghost use Rattle.cpp_term.specs.Parts.{text_part, qualified_left};
ghost use Rattle.cpp_tree.specs.Nodes.{IsTable, qualifiers_of, IsAliasBelow};
ghost use Rattle.cpp_layout.specs.Texts.{fixed_text};
ghost use Rattle.cpp_layout.specs.declared.texts.TheConstants.{BLANKED};
ghost use Rattle.cpp_layout.specs.Layout.{table_of, context_of, Shows, qualifiers_behind, printed_tree};

use crate::context::Context;
use crate::symbol::Symbol;
use crate::{form, texts};
use cpp_tree::node::{Mark, Node, Qualifiers};
use sym_print::PartList;

/// The number of the text of qualifiers with their blank at the end.
fn blanked_number(qualifiers: Qualifiers) -> u16
    ensures some { BLANKED < result → (fixed_text result ≡ blank_last (qualifier_text (qualifiers_of qualifiers))) × (0 < length (fixed_text result)) }
    ensures none { result ≤ BLANKED → blank_last (qualifier_text (qualifiers_of qualifiers)) ≡ [] }
{
    texts::BLANKED + qualifiers.number() as u16
}

impl Symbol {
    /// Adds qualifiers before a bracket: their blank is at the end.
    fn push_blanked<S: PartList<Context>>(&self, parts: &mut S, qualifiers: Qualifiers)
        requires { 0 < S.room parts.old }
        ensures shows { (d : Detail) (below : Held Context) (others : List (PartOf items.Item)) → Shows self.now d below (S.held parts.old) others
            → Shows self.now d below (S.held parts.new) (text_part (blank_last (qualifier_text (qualifiers_of qualifiers))) ++ others) }
        ensures room { S.room parts.old ≤ S.room parts.new + 1 }
    {
        let number = blanked_number(qualifiers);
        if number > texts::BLANKED {
            self.push_text(parts, number);
        }
    }

    /// Adds the qualifiers of a type that is no function type: a reference has none.
    fn push_qualifiers<S: PartList<Context>>(
        &self,
        parts: &mut S,
        qualifiers: Qualifiers,
        ty: u32,
        ctx: Context,
    )
        requires context { IsAliasBelow (length self.now.table.nodes) ctx.argument }
        requires table { IsTable (table_of self.now) }
        requires ty { ty < length self.now.table.nodes }
        requires room { 0 < S.room parts.old }
        ensures shows { (below : Held Context) (others : List (PartOf items.Item)) → Shows self.now ctx.detail below (S.held parts.old) others
            → Shows self.now ctx.detail below (S.held parts.new) (qualifiers_behind (heads.is_reference (items.head (context_of ctx) (printed_tree self.now ctx ty)))
            (heads.is_funarr (items.head (context_of ctx) (printed_tree self.now ctx ty))) (qualifiers_of qualifiers) ++ others) }
        ensures room { S.room parts.old ≤ S.room parts.new + 1 }
    {
        if self.is_reference(ty, ctx) {
            return;
        }
        if self.is_function(ty, ctx) {
            self.push_blanked(parts, qualifiers);
        } else {
            self.push_suffix(parts, qualifiers, Mark::Any, false);
        }
    }

    /// The left parts of a qualified type.
    // <type> ::= <CV-qualifiers> <type>
    pub(crate) fn fill_qualified_left<S: PartList<Context>>(
        &self,
        parts: &mut S,
        qualifiers: Qualifiers,
        ty: u32,
        ctx: Context,
    )
        requires context { IsAliasBelow (length self.now.table.nodes) ctx.argument }
        requires table { IsTable (table_of self.now) }
        requires ty { ty < length self.now.table.nodes }
        requires room { 8 ≤ S.room parts.old }
        ensures shows { Shows self.now ctx.detail (S.held parts.old) (S.held parts.new) (qualified_left (context_of ctx) (qualifiers_of qualifiers) (printed_tree self.now ctx ty)) }
        ensures few { S.room parts.old ≤ S.room parts.new + 8 }
    {
        let place = self.place(ty, ctx);
        match self.stored(place.node, place.ctx) {
            Node::FunctionType { .. } => self.push_item(parts, ty, form::LEFT, 0, ctx),
            _ => {
                self.push_qualifiers(parts, qualifiers, ty, ctx);
                self.push_item(parts, ty, form::LEFT, 0, ctx);
            }
        }
    }
}
