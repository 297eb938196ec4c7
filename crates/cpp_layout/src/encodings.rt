// The parts of encodings.
#![tactic(auto)]

ghost use Rattle.std.specs.Prelude.{◌≡◌, true, ℕ, ◌+◌, ◌<◌, ◌≤◌, ◌++◌, ◌∷◌, [], List, length, slice_get, false};
ghost use Rattle.sym_print.specs.Held.{Held};
ghost use Rattle.sym_print.specs.Unfold.{PartOf, text};
ghost use Rattle.sym_print.specs.declared.detail.Detail.{Detail};
ghost use Rattle.sym_print.specs.Details.{has_parameters};
ghost use Rattle.cpp_term.specs.Items as items;
ghost use Rattle.cpp_term.specs.Term as term;
ghost use Rattle.cpp_grammar.specs.Items as heads;
ghost use Rattle.cpp_grammar.specs.Parts.{thunk_text};
ghost use Rattle.cpp_term.specs.Parts.{as_item, begins_parameters, function_bare, function_full, full_parts, bare_parts, root_parts, text_part};
ghost use Rattle.cpp_tree.specs.Nodes.{is_again, entry_at, tree_at, trees, under_kept, IsTable, IsAliasBelow, IsWithin, bytes_at, thunk_of, qualifiers_of, mark_of};
ghost use Rattle.cpp_layout.specs.Texts.{fixed_text, shown_mark, suffix_of};
ghost use Rattle.cpp_layout.specs.declared.texts.TheConstants.{SUFFIX};
ghost use Rattle.cpp_layout.specs.Layout.{table_of, printed_tree, type_shown, clone_suffix, Shows};

use crate::context::Context;
use crate::symbol::Symbol;
use crate::{form, texts};
use cpp_tree::node::{Adjustment, Mark, Node, Qualifiers, Thunk, bit};
use sym_core::Span;
use sym_print::{Detail, PartList};

/// The number of the text before the target of a thunk.
#[tactic(auto, unfolding(cpp_tree::specs::Nodes::thunk_of, cpp_tree::specs::Nodes::adjustment_of, cpp_grammar::specs::Parts::thunk_text))]
fn thunk_number(thunk: Option<Thunk>) -> u16
    ensures text { (s : List ℕ) → fixed_text result ≡ thunk_text (thunk_of s thunk) }
    ensures some { 0 < length (fixed_text result) }
{
    match thunk {
        None => texts::NON_VIRTUAL,
        Some(Thunk::Covariant(_, _)) => texts::COVARIANT,
        Some(Thunk::Adjusting(adjustment)) => match adjustment {
            Adjustment::NonVirtual(_) => texts::NON_VIRTUAL,
            Adjustment::ByTable(_, _) => texts::VIRTUAL,
        },
    }
}

/// The mark that is printed after a function's parameters.
#[tactic(auto, unfolding(crate::specs::Texts::shown_mark))]
fn shown_mark(mark: Mark) -> Mark
    ensures { mark_of result ≡ shown_mark (mark_of mark) }
{
    match mark {
        Mark::ExplicitObject => Mark::Any,
        Mark::Any => mark,
        Mark::Lvalue => mark,
        Mark::Rvalue => mark,
    }
}

/// The number of the text after a function's parameters.
fn suffix_number(qualifiers: Qualifiers, mark: Mark, noexcept: bool) -> u16
    ensures text { fixed_text result ≡ suffix_of (qualifiers_of qualifiers) (mark_of mark) noexcept }
    ensures some { SUFFIX < result → 0 < length (fixed_text result) }
    ensures from { SUFFIX ≤ result }
{
    texts::SUFFIX
        + qualifiers.number() as u16
        + 8 * shown_mark(mark).number() as u16
        + 24 * bit(noexcept) as u16
}

impl Symbol {
    /// Adds what follows a function's parameters, if there is anything.
    pub(crate) fn push_suffix<S: PartList<Context>>(
        &self,
        parts: &mut S,
        qualifiers: Qualifiers,
        mark: Mark,
        noexcept: bool,
    )
        requires room { 0 < S.room parts.old }
        ensures shows { (d : Detail) (below : Held Context) (others : List (PartOf items.Item)) → Shows self.now d below (S.held parts.old) others
            → Shows self.now d below (S.held parts.new) (text_part (suffix_of (qualifiers_of qualifiers) (mark_of mark) noexcept) ++ others) }
        ensures room { S.room parts.old ≤ S.room parts.new + 1 }
    {
        let number = suffix_number(qualifiers, mark, noexcept);
        if number > texts::SUFFIX {
            self.push_text(parts, number);
        }
    }

    /// The number of the text before a function's parameters. The first parameter may be an explicit object.
    // <nested-name> ::= N H <prefix> <unqualified-name> E
    #[tactic(auto, unfolding(cpp_term::specs::Parts::begins_parameters))]
    fn opening_number(&self, mark: Mark, parameters: u32, under: u32, detail: Detail) -> u16
        requires table { IsTable (table_of self.now) }
        requires parameters { parameters < length self.now.table.nodes }
        requires under { IsAliasBelow (length self.now.table.nodes) (under_kept under) }
        ensures text { fixed_text result ≡ begins_parameters (mark_of mark) (type_shown self.now under parameters) }
        ensures some { 0 < length (fixed_text result) }
    {
        match mark {
            Mark::ExplicitObject => {
                let place = self.place(parameters, Context::of_types(detail, under));
                match self.stored(place.node, place.ctx) {
                    Node::Nil => texts::LEFT,
                    _ => texts::LEFT_THIS,
                }
            }
            Mark::Any => texts::LEFT,
            Mark::Lvalue => texts::LEFT,
            Mark::Rvalue => texts::LEFT,
        }
    }

    /// Adds the parts of a function with parameters, but without its return type.
    fn push_bare<S: PartList<Context>>(
        &self,
        parts: &mut S,
        name: u32,
        qualifiers: Qualifiers,
        mark: Mark,
        parameters: u32,
        under: u32,
        detail: Detail,
    )
        requires table { IsTable (table_of self.now) }
        requires name { name < length self.now.table.nodes }
        requires parameters { parameters < length self.now.table.nodes }
        requires under { IsAliasBelow (length self.now.table.nodes) (under_kept under) }
        requires room { 5 ≤ S.room parts.old }
        ensures shows { (below : Held Context) (others : List (PartOf items.Item)) → Shows self.now detail below (S.held parts.old) others
            → Shows self.now detail below (S.held parts.new) (function_bare true (tree_at (trees (table_of self.now)) name) (qualifiers_of qualifiers) (mark_of mark) (type_shown self.now under parameters) ++ others) }
        ensures room { S.room parts.old ≤ S.room parts.new + 5 }
    {
        self.push_suffix(parts, qualifiers, mark, false);
        self.push_text(parts, texts::RIGHT);
        self.push_typed_list(parts, parameters, form::FIRST, under, detail);
        self.push_text(parts, self.opening_number(mark, parameters, under, detail));
        self.push_closed(parts, name, form::LEFT, detail);
    }

    /// The parts of a function with its return type.
    pub(crate) fn fill_returning<S: PartList<Context>>(
        &self,
        parts: &mut S,
        name: u32,
        qualifiers: Qualifiers,
        mark: Mark,
        returned: u32,
        parameters: u32,
        under: u32,
        detail: Detail,
    )
        requires table { IsTable (table_of self.now) }
        requires name { name < length self.now.table.nodes }
        requires returned { returned < length self.now.table.nodes }
        requires parameters { parameters < length self.now.table.nodes }
        requires under { IsAliasBelow (length self.now.table.nodes) (under_kept under) }
        requires there { type_shown self.now under returned ≡ term.absent → ⊥ }
        requires room { 8 ≤ S.room parts.old }
        ensures shows { Shows self.now detail (S.held parts.old) (S.held parts.new) (function_full true (tree_at (trees (table_of self.now)) name) (qualifiers_of qualifiers) (mark_of mark) (type_shown self.now under returned) (type_shown self.now under parameters)) }
        ensures few { S.room parts.old ≤ S.room parts.new + 8 }
    {
        self.push_typed(parts, returned, form::RIGHT, under, detail);
        self.push_bare(parts, name, qualifiers, mark, parameters, under, detail);
        self.push_text(parts, texts::BLANK);
        self.push_typed(parts, returned, form::LEFT, under, detail);
    }

    /// The parts of a thunk's name.
    // <special-name> ::= T <call-offset> <base encoding> | Tc <call-offset> <call-offset> <base encoding>
    fn fill_thunk<S: PartList<Context>>(
        &self,
        parts: &mut S,
        thunk: u32,
        encoding: u32,
        detail: Detail,
    )
        requires encoding { encoding < length self.now.table.nodes }
        requires room { 8 ≤ S.room parts.old }
        ensures shows { Shows self.now detail (S.held parts.old) (S.held parts.new) (text (thunk_text (thunk_of self.now.bytes (slice_get self.now.table.thunks thunk))) ∷ as_item heads.full items.closed (tree_at (trees (table_of self.now)) encoding) ∷ []) }
        ensures few { S.room parts.old ≤ S.room parts.new + 8 }
    {
        self.push_closed(parts, encoding, form::FULL, detail);
        self.push_text(parts, thunk_number(self.thunk(thunk)));
    }

    /// The parts of a function's name and types.
    fn fill_signature<S: PartList<Context>>(
        &self,
        parts: &mut S,
        name: u32,
        qualifiers: Qualifiers,
        mark: Mark,
        returned: u32,
        parameters: u32,
        under: u32,
        detail: Detail,
    )
        requires table { IsTable (table_of self.now) }
        requires name { name < length self.now.table.nodes }
        requires returned { returned < length self.now.table.nodes }
        requires parameters { parameters < length self.now.table.nodes }
        requires under { IsAliasBelow (length self.now.table.nodes) (under_kept under) }
        requires room { 8 ≤ S.room parts.old }
        ensures shows { Shows self.now detail (S.held parts.old) (S.held parts.new) (function_full true (tree_at (trees (table_of self.now)) name) (qualifiers_of qualifiers) (mark_of mark) (type_shown self.now under returned) (type_shown self.now under parameters)) }
        ensures few { S.room parts.old ≤ S.room parts.new + 8 }
    {
        let place = self.place(returned, Context::of_types(detail, under));
        match self.stored(place.node, place.ctx) {
            Node::Absent => {
                self.push_bare(parts, name, qualifiers, mark, parameters, under, detail);
            }
            _ => self.fill_returning(
                parts, name, qualifiers, mark, returned, parameters, under, detail,
            ),
        }
    }

    /// The parts of a function: its name, and its types where the detail shows parameters.
    // <encoding> ::= <function name> <bare-function-type>
    fn fill_function<S: PartList<Context>>(
        &self,
        parts: &mut S,
        name: u32,
        qualifiers: Qualifiers,
        mark: Mark,
        returned: u32,
        parameters: u32,
        under: u32,
        detail: Detail,
    )
        requires table { IsTable (table_of self.now) }
        requires name { name < length self.now.table.nodes }
        requires returned { returned < length self.now.table.nodes }
        requires parameters { parameters < length self.now.table.nodes }
        requires under { IsAliasBelow (length self.now.table.nodes) (under_kept under) }
        requires room { 8 ≤ S.room parts.old }
        ensures shows { Shows self.now detail (S.held parts.old) (S.held parts.new) (function_full (has_parameters detail) (tree_at (trees (table_of self.now)) name) (qualifiers_of qualifiers) (mark_of mark) (type_shown self.now under returned) (type_shown self.now under parameters)) }
        ensures few { S.room parts.old ≤ S.room parts.new + 8 }
    {
        if detail.has_parameters() {
            self.fill_signature(
                parts, name, qualifiers, mark, returned, parameters, under, detail,
            );
        } else {
            self.push_closed(parts, name, form::LEFT, detail);
        }
    }

    /// The parts of a function without its return type: its name, and its types if the detail shows parameters.
    fn fill_bare<S: PartList<Context>>(
        &self,
        parts: &mut S,
        name: u32,
        qualifiers: Qualifiers,
        mark: Mark,
        parameters: u32,
        under: u32,
        detail: Detail,
    )
        requires table { IsTable (table_of self.now) }
        requires name { name < length self.now.table.nodes }
        requires parameters { parameters < length self.now.table.nodes }
        requires under { IsAliasBelow (length self.now.table.nodes) (under_kept under) }
        requires room { 8 ≤ S.room parts.old }
        ensures shows { Shows self.now detail (S.held parts.old) (S.held parts.new) (function_bare (has_parameters detail) (tree_at (trees (table_of self.now)) name) (qualifiers_of qualifiers) (mark_of mark) (type_shown self.now under parameters)) }
        ensures few { S.room parts.old ≤ S.room parts.new + 8 }
    {
        if detail.has_parameters() {
            self.push_bare(parts, name, qualifiers, mark, parameters, under, detail);
        } else {
            self.push_closed(parts, name, form::LEFT, detail);
        }
    }

    /// The parts of an encoding.
    pub(crate) fn fill_full<S: PartList<Context>>(&self, parts: &mut S, node: u32, ctx: Context)
        requires own { is_again (entry_at self.now.table.nodes node).node ≡ false }
        requires table { IsTable (table_of self.now) }
        requires node { node < length self.now.table.nodes }
        requires room { 8 ≤ S.room parts.old }
        ensures shows { Shows self.now ctx.detail (S.held parts.old) (S.held parts.new) (full_parts ctx.detail (printed_tree self.now ctx node)) }
        ensures few { S.room parts.old ≤ S.room parts.new + 8 }
    {
        match self.stored(node, ctx) {
            Node::Function {
                name,
                qualifiers,
                mark,
                returned,
                parameters,
                under,
            } => self.fill_function(
                parts, name, qualifiers, mark, returned, parameters, under, ctx.detail,
            ),
            Node::Object {
                name,
                qualifiers,
                mark,
            } => self.fill_object(parts, name, qualifiers, mark, ctx.detail),
            Node::Special { letter, ty } => self.fill_special(parts, letter, ty, ctx.detail),
            Node::Thunk { thunk, encoding } => self.fill_thunk(parts, thunk, encoding, ctx.detail),
            Node::OfName {
                letter,
                name,
                qualifiers,
                mark,
            } => self.fill_special_name(parts, letter, name, qualifiers, mark, ctx.detail),
            Node::Construction {
                derived,
                parent,
                ..
            } => { self.fill_construction(parts, derived, parent, ctx.detail) }
            Node::CloneOf { letter, encoding } => self.fill_clone(
                parts, letter, encoding, ctx.detail,
            ),
            _ => {}
        }
    }

    /// The parts of an encoding without its return type.
    pub(crate) fn fill_bare_of<S: PartList<Context>>(&self, parts: &mut S, node: u32, ctx: Context)
        requires own { is_again (entry_at self.now.table.nodes node).node ≡ false }
        requires table { IsTable (table_of self.now) }
        requires node { node < length self.now.table.nodes }
        requires room { 8 ≤ S.room parts.old }
        ensures shows { Shows self.now ctx.detail (S.held parts.old) (S.held parts.new) (bare_parts ctx.detail (printed_tree self.now ctx node)) }
        ensures few { S.room parts.old ≤ S.room parts.new + 8 }
    {
        match self.stored(node, ctx) {
            Node::Function {
                name,
                qualifiers,
                mark,
                parameters,
                under,
                ..
            } => self.fill_bare(parts, name, qualifiers, mark, parameters, under, ctx.detail),
            _ => self.fill_full(parts, node, ctx),
        }
    }

    /// Adds the suffix of a clone in parentheses, if there is one.
    pub(crate) fn push_clone_suffix<S: PartList<Context>>(&self, parts: &mut S, suffix: Span)
        requires room { 3 ≤ S.room parts.old }
        requires suffix { IsWithin suffix self.now.bytes }
        ensures shows { (d : Detail) (below : Held Context) (others : List (PartOf items.Item)) → Shows self.now d below (S.held parts.old) others
            → Shows self.now d below (S.held parts.new) (clone_suffix (bytes_at self.now.bytes suffix) ++ others) }
        ensures room { S.room parts.old ≤ S.room parts.new + 3 }
    {
        if suffix.from < suffix.to {
            self.push_text(parts, texts::RIGHT);
            self.push_bytes(parts, suffix);
            self.push_text(parts, texts::BLANK_LEFT);
        }
    }

    /// The parts of the node of a whole symbol.
    pub(crate) fn fill_root<S: PartList<Context>>(&self, parts: &mut S, node: u32, ctx: Context)
        requires own { is_again (entry_at self.now.table.nodes node).node ≡ false }
        requires table { IsTable (table_of self.now) }
        requires node { node < length self.now.table.nodes }
        requires room { 8 ≤ S.room parts.old }
        ensures shows { Shows self.now ctx.detail (S.held parts.old) (S.held parts.new) (root_parts (printed_tree self.now ctx node)) }
        ensures few { S.room parts.old ≤ S.room parts.new + 8 }
    {
        match self.stored(node, ctx) {
            Node::Whole { encoding, suffix } => self.fill_whole(
                parts, encoding, suffix, ctx.detail,
            ),
            _ => {}
        }
    }
}
