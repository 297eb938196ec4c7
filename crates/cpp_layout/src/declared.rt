// The parameters that a lambda declares: the declaration of each, and its name.
#![tactic(auto)]

ghost use Rattle.std.specs.Prelude.{◌≡◌, ◌+◌, ◌<◌, ◌≤◌, ◌∷◌, [], ◌++◌, List, length, decimal, false};
ghost use Rattle.sym_print.specs.Held.{Held};
ghost use Rattle.sym_print.specs.Unfold.{PartOf, text};
ghost use Rattle.cpp_grammar.specs.Items as forms;
ghost use Rattle.cpp_term.specs.Items as items;
ghost use Rattle.cpp_term.specs.Scope.{element};
ghost use Rattle.cpp_term.specs.Parts.{says, as_item, list_part, declared_rest, declared_parts, front_of_name, declared_letter, own_name, name_of_own};
ghost use Rattle.cpp_grammar.specs.Parts.{letter_name};
ghost use Rattle.cpp_tree.specs.Nodes.{tree_at, trees, tree_under, IsTable, IsAliasBelow, IsPlacedBelow, is_again, entry_at};
ghost use Rattle.cpp_layout.specs.Texts.{fixed_text};
ghost use Rattle.cpp_layout.specs.declared.texts.TheConstants.{COUNT};
ghost use Rattle.cpp_layout.specs.Layout.{table_of, context_of, form_of, Shows, printed_tree};

use crate::context::Context;
use crate::numbered::builtin_with_d;
use crate::symbol::Symbol;
use crate::{form, texts};
use cpp_tree::node::Node;
use sym_print::{Detail, PartList};

/// What the name of a parameter begins with, by the letter of its declaration.
#[tactic(auto, unfolding(cpp_grammar::specs::Parts::letter_name))]
fn letter_name(letter: u8) -> u16
    ensures text { fixed_text result ≡ letter_name letter }
    ensures some { 0 < length (fixed_text result) }
{
    match letter {
        b'n' => texts::VALUE_NAME,
        b't' => texts::TEMPLATE_NAME,
        _ => texts::TYPE_NAME,
    }
}

impl Symbol {
    /// The letter of a declaration.
    fn declared_letter(&self, head: u32, ctx: Context) -> u8
        requires context { IsAliasBelow (length self.now.table.nodes) ctx.argument }
        requires table { IsTable (table_of self.now) }
        requires head { head < length self.now.table.nodes }
        ensures { result ≡ declared_letter (printed_tree self.now ctx head) }
    {
        let place = self.place(head, ctx);
        match self.stored(place.node, place.ctx) {
            Node::Operation { second, .. } => second,
            _ => 0,
        }
    }

    /// What the name of a parameter begins with, by its declaration, which may be that of a pack.
    fn front_of_name(&self, head: u32, ctx: Context) -> u16
        requires context { IsAliasBelow (length self.now.table.nodes) ctx.argument }
        requires table { IsTable (table_of self.now) }
        requires head { head < length self.now.table.nodes }
        ensures text { fixed_text result ≡ front_of_name (printed_tree self.now ctx head) }
        ensures some { 0 < length (fixed_text result) }
    {
        let place = self.place(head, ctx);
        match self.stored(place.node, place.ctx) {
            Node::Operation { second, left, .. } => {
                if second == b'p' {
                    letter_name(self.declared_letter(left, place.ctx))
                } else {
                    letter_name(second)
                }
            }
            _ => letter_name(0),
        }
    }

    /// The name, in a form, of the parameter with this number in a list of declarations; past the
    /// list's end it is `auto`.
    pub(crate) fn fill_own_name<S: PartList<Context>>(
        &self,
        parts: &mut S,
        heads: u32,
        number: u32,
        form: u32,
        detail: Detail,
    )
        requires table { IsTable (table_of self.now) }
        requires heads { heads < length self.now.table.nodes }
        requires plain { form < 6 }
        requires room { 8 ≤ S.room parts.old }
        ensures shows { Shows self.now detail (S.held parts.old) (S.held parts.new) (own_name (form_of form 0) number (element (tree_at (trees (table_of self.now)) heads) number)) }
        ensures few { S.room parts.old ≤ S.room parts.new + 8 }
    {
        if form == form::RIGHT {
            return;
        }
        let head = self.element_of(heads, number, detail);
        let place = self.place(head.node, head.ctx);
        match self.stored(place.node, place.ctx) {
            Node::Absent => self.push_some(parts, builtin_with_d(b'a')),
            _ => {
                self.push_decimal(parts, number as u64);
                self.push_text(parts, self.front_of_name(place.node, place.ctx));
            }
        }
    }

    /// The parts of the name of a lambda that declares parameters, in a context where the argument of each parameter is the
    /// lambda's signature.
    // <closure-type-name> ::= Ul <lambda-sig> E [ <nonnegative number> ] _
    pub(crate) fn fill_declaring<S: PartList<Context>>(
        &self,
        parts: &mut S,
        heads: u32,
        types: u32,
        number: u64,
        ctx: Context,
    )
        requires context { IsAliasBelow (length self.now.table.nodes) ctx.argument }
        requires table { IsTable (table_of self.now) }
        requires heads { heads < length self.now.table.nodes }
        requires types { types < length self.now.table.nodes }
        requires room { 8 ≤ S.room parts.old }
        ensures shows { Shows self.now ctx.detail (S.held parts.old) (S.held parts.new)
            ((says "{lambda<" ∷ as_item (forms.declared 0) (context_of ctx) (printed_tree self.now ctx heads) ∷ says ">(" ∷ list_part forms.first (context_of ctx) (printed_tree self.now ctx types)) ++ (says ")#" ∷ text (decimal number) ∷ says "}" ∷ [])) }
        ensures few { S.room parts.old ≤ S.room parts.new + 8 }
    {
        self.push_text(parts, texts::BRACE);
        self.push_decimal(parts, number);
        self.push_text(parts, texts::RIGHT_NUMBER);
        self.push_list(parts, types, form::FIRST, ctx);
        self.push_text(parts, texts::TYPES);
        self.push_item(parts, heads, form::DECLARED, 0, ctx);
        self.push_text(parts, texts::DECLARING);
    }

    /// Adds the declarations of the parameters after the one with this number.
    fn push_declared<S: PartList<Context>>(&self, parts: &mut S, rest: u32, at: u32, ctx: Context)
        requires context { IsAliasBelow (length self.now.table.nodes) ctx.argument }
        requires table { IsTable (table_of self.now) }
        requires rest { rest < length self.now.table.nodes }
        requires room { 0 < S.room parts.old }
        ensures shows { (below : Held Context) (others : List (PartOf items.Item)) → Shows self.now ctx.detail below (S.held parts.old) others
            → Shows self.now ctx.detail below (S.held parts.new) (declared_rest (context_of ctx) (printed_tree self.now ctx rest) at ++ others) }
        ensures room { S.room parts.old ≤ S.room parts.new + 1 }
    {
        let Some(next) = at.checked_add(1) else {
            return;
        };
        let place = self.place(rest, ctx);
        match self.stored(place.node, place.ctx) {
            Node::Nil => {}
            _ => self.push_item(parts, rest, form::DECLARED, next, ctx),
        }
    }

    /// The declarations of a lambda's parameters from the given one on, each with its name.
    // <lambda-sig> ::= <template-param-decl>* <parameter type>+
    pub(crate) fn fill_declared<S: PartList<Context>>(
        &self,
        parts: &mut S,
        node: u32,
        at: u32,
        ctx: Context,
    )
        requires context { IsAliasBelow (length self.now.table.nodes) ctx.argument }
        requires own { is_again (entry_at self.now.table.nodes node).node ≡ false }
        requires table { IsTable (table_of self.now) }
        requires node { node < length self.now.table.nodes }
        requires room { 8 ≤ S.room parts.old }
        ensures shows { Shows self.now ctx.detail (S.held parts.old) (S.held parts.new) (declared_parts (context_of ctx) (printed_tree self.now ctx node) at) }
        ensures few { S.room parts.old ≤ S.room parts.new + 8 }
    {
        match self.stored(node, ctx) {
            Node::Cell { first, rest } => {
                self.push_declared(parts, rest, at, ctx);
                self.push_decimal(parts, at as u64);
                self.push_text(parts, self.front_of_name(first, ctx));
                self.push_text(parts, texts::BLANK);
                self.push_item(parts, first, form::LEFT, 0, ctx);
                self.push_text_if(parts, at > 0, texts::COMMA);
            }
            _ => {}
        }
    }
}
