// The parts of names.
#![tactic(auto)]

ghost use Rattle.std.specs.Prelude.{◌≡◌, ℕ, ◌+◌, ◌<◌, ◌≤◌, ◌∷◌, ◌++◌, List, length, codes, decimal, if◌then◌else◌};
ghost use Rattle.sym_print.specs.Held.{Held};
ghost use Rattle.sym_print.specs.Unfold.{PartOf, text};
ghost use Rattle.sym_print.specs.declared.detail.Detail.{Detail};
ghost use Rattle.sym_print.specs.Details.{has_arguments};
ghost use Rattle.cpp_grammar.specs.Parts.{begins_with, source_text};
ghost use Rattle.cpp_term.specs.Term as term;
ghost use Rattle.cpp_term.specs.Items as items;
ghost use Rattle.cpp_term.specs.Parts.{piece_parts, prefix_item, before_piece, component_parts, attached_parts, within_parts, base_within, base_tagged, own_piece, entity_of, opening_text, last_piece, instance_parts};
ghost use Rattle.cpp_tree.specs.Nodes.{piece_of, tree_at, trees, bytes_at, IsTable, IsWithin, IsPieceBelow, IsAliasBelow};
ghost use Rattle.cpp_layout.specs.Texts.{fixed_text};
ghost use Rattle.cpp_layout.specs.declared.texts.TheConstants.{ANONYMOUS, BLANK_LESS, COLONS, COUNT, LESS};
ghost use Rattle.cpp_layout.specs.Layout.{table_of, context_of, Shows, IsOwn, IsNoSource, printed_tree, piece_shown};

use crate::codes::{is_angle_code, operator};
use crate::context::{Context, Place};
use crate::symbol::Symbol;
use crate::{form, texts};
use cpp_tree::node::{Node, Piece};
use cpp_tree::nodes::ABSENT;
use itoa::Buffer;
use sym_core::Span;
use sym_print::{Part, PartList};

/// Whether a name is that of an unnamed namespace.
#[inline(always)]
fn is_anonymous(name: &[u8]) -> bool
    ensures { result ≡ begins_with (codes "_GLOBAL__N") name.now }
{
    // for most names the first byte decides
    if name.is_empty() || name[0] != b'_' {
        return false;
    }
    name.starts_with(b"_GLOBAL__N")
}

/// What an unnamed namespace is shown as.
// This function is out of line: inlined, with all fixed texts, it would make the callers of `name_text` too large for the kit to inline.
#[inline(never)]
fn anonymous_text() -> &'static [u8]
    ensures { result.now ≡ fixed_text ANONYMOUS }
{
    texts::fixed_text(texts::ANONYMOUS)
}

/// What a source name is shown as: its own bytes, except for an unnamed namespace.
#[tactic(auto, unfolding(crate::specs::Texts::fixed_text, cpp_grammar::specs::Parts::source_text))]
#[inline(always)]
pub fn name_text(name: &[u8]) -> &[u8]
    ensures { result.now ≡ source_text name.now }
{
    if is_anonymous(name) {
        return anonymous_text();
    }
    name
}

/// A part with bytes of its own.
fn own(text: &[u8]) -> Part<Context>
    requires { length text.now ≤ 24 }
    ensures { IsOwn result text.now }
{
    let mut bytes = [0; 24];
    bytes[..text.len()].copy_from_slice(text);
    Part::Own(bytes, text.len() as u8)
}

/// Whether a piece is the operator << or <.
fn is_angle(piece: Piece) -> bool
    ensures { (s : List ℕ) (ts : List term.Term) → fixed_text (if result then BLANK_LESS else LESS) ≡ opening_text (piece_of s ts piece) }
{
    match piece {
        Piece::Operator(first, second) => is_angle_code(first, second),
        _ => false,
    }
}

impl Symbol {
    /// Adds what a source name prints: its bytes, or the text of an unnamed namespace.
    #[inline(always)]
    pub(crate) fn push_name<S: PartList<Context>>(&self, parts: &mut S, name: Span)
        requires room { 0 < S.room parts.old }
        requires name { IsWithin name self.now.bytes }
        ensures shows { (d : Detail) (below : Held Context) (others : List (PartOf items.Item)) → Shows self.now d below (S.held parts.old) others
            → Shows self.now d below (S.held parts.new) (text (source_text (bytes_at self.now.bytes name)) ∷ others) }
        ensures room { S.room parts.old ≤ S.room parts.new + 1 }
    {
        if is_anonymous(self.bytes_of(name)) {
            self.push_text(parts, texts::ANONYMOUS);
        } else {
            self.push_bytes(parts, name);
        }
    }

    /// Adds a decimal.
    pub(crate) fn push_decimal<S: PartList<Context>>(&self, parts: &mut S, number: u64)
        requires { 0 < S.room parts.old }
        ensures shows { (d : Detail) (below : Held Context) (others : List (PartOf items.Item)) → Shows self.now d below (S.held parts.old) others
            → Shows self.now d below (S.held parts.new) (text (decimal number) ∷ others) }
        ensures room { S.room parts.new + 1 ≡ S.room parts.old }
    {
        let mut buffer = Buffer::new();
        let digits = buffer.format(number);
        parts.push_part(own(digits.as_bytes()));
    }

    /// Adds the fixed text with a number, unless the number is `NONE`.
    #[inline(always)]
    pub(crate) fn push_some<S: PartList<Context>>(&self, parts: &mut S, number: u16)
        requires room { 0 < S.room parts.old }
        requires few { number < COUNT }
        ensures shows { (d : Detail) (below : Held Context) (others : List (PartOf items.Item)) → Shows self.now d below (S.held parts.old) others
            → Shows self.now d below (S.held parts.new) (text (fixed_text number) ∷ others) }
        ensures room { S.room parts.old ≤ S.room parts.new + 1 }
    {
        if number != texts::NONE {
            self.push_text(parts, number);
        }
    }

    /// The parts of the name of a lambda whose signature names parameters of its own.
    // <closure-type-name> ::= Ul <lambda-sig> E [ <nonnegative number> ] _
    fn fill_generic_lambda<S: PartList<Context>>(
        &self,
        parts: &mut S,
        parameters: u32,
        number: u64,
        ctx: Context,
    )
        requires table { IsTable (table_of self.now) }
        requires parameters { parameters < length self.now.table.nodes }
        requires room { 8 ≤ S.room parts.old }
        ensures shows { Shows self.now ctx.detail (S.held parts.old) (S.held parts.new) (piece_parts (context_of ctx) (term.generic_lambda (tree_at (trees (table_of self.now)) parameters) number)) }
        ensures few { S.room parts.old ≤ S.room parts.new + 8 }
    {
        let place = self.place(parameters, ctx.of_its_own());
        match self.stored(place.node, place.ctx) {
            Node::Declaring {
                heads,
                parameters: types,
            } => self.fill_declaring(parts, heads, types, number, ctx.under(parameters)),
            _ => self.fill_lambda(parts, parameters, number, ctx.of_its_own()),
        }
    }

    /// The parts of a piece that is no source name.
    fn fill_rare_piece<S: PartList<Context>>(&self, parts: &mut S, piece: Piece, ctx: Context)
        requires context { IsAliasBelow (length self.now.table.nodes) ctx.argument }
        requires table { IsTable (table_of self.now) }
        requires piece { IsPieceBelow self.now.bytes (length self.now.table.nodes) piece }
        requires kind { IsNoSource piece }
        requires room { 8 ≤ S.room parts.old }
        ensures shows { Shows self.now ctx.detail (S.held parts.old) (S.held parts.new) (piece_parts (context_of ctx) (piece_shown self.now ctx piece)) }
        ensures few { S.room parts.old ≤ S.room parts.new + 8 }
    {
        match piece {
            Piece::Operator(first, second) => self.push_some(parts, operator(first, second)),
            Piece::LiteralOperator(name) => self.fill_literal_operator(parts, name, ctx),
            Piece::Lambda { parameters, number } => {
                self.fill_lambda(parts, parameters, number, ctx);
            }
            Piece::GenericLambda { parameters, number } => {
                self.fill_generic_lambda(parts, parameters, number, ctx);
            }
            Piece::Unnamed(number) => self.fill_unnamed(parts, number, ctx),
            Piece::StringLiteral => self.push_text(parts, texts::STRING),
            Piece::Conversion(ty) => self.fill_conversion(parts, ty, ctx),
            Piece::Enumeration { ty, name } => self.fill_enumeration(parts, ty, name, ctx),
            Piece::Bindings(names) => self.fill_bindings(parts, names, ctx),
            _ => {}
        }
    }

    /// The parts of a piece of a name.
    #[inline(always)]
    pub(crate) fn fill_piece<S: PartList<Context>>(&self, parts: &mut S, piece: Piece, ctx: Context)
        requires context { IsAliasBelow (length self.now.table.nodes) ctx.argument }
        requires table { IsTable (table_of self.now) }
        requires piece { IsPieceBelow self.now.bytes (length self.now.table.nodes) piece }
        requires room { 8 ≤ S.room parts.old }
        ensures shows { Shows self.now ctx.detail (S.held parts.old) (S.held parts.new) (piece_parts (context_of ctx) (piece_shown self.now ctx piece)) }
        ensures few { S.room parts.old ≤ S.room parts.new + 8 }
    {
        match piece {
            Piece::Source { bytes, .. } => self.push_name(parts, bytes),
            _ => self.fill_rare_piece(parts, piece, ctx),
        }
    }

    /// Adds a prefix. A variable whose initializer contains the piece is shown by its name, and an encoding around a local entity is shown
    /// without its return type.
    #[inline(always)]
    pub(crate) fn push_prefix<S: PartList<Context>>(&self, parts: &mut S, prefix: u32, ctx: Context)
        requires context { IsAliasBelow (length self.now.table.nodes) ctx.argument }
        requires room { 0 < S.room parts.old }
        requires table { IsTable (table_of self.now) }
        requires prefix { prefix < length self.now.table.nodes }
        ensures shows { (below : Held Context) (others : List (PartOf items.Item)) → Shows self.now ctx.detail below (S.held parts.old) others
            → Shows self.now ctx.detail below (S.held parts.new) (prefix_item (context_of ctx) (printed_tree self.now ctx prefix) ∷ others) }
        ensures room { S.room parts.new + 1 ≡ S.room parts.old }
    {
        let place = self.place(prefix, ctx);
        let stored = self.stored(place.node, place.ctx);
        if stored.is_encoding() {
            self.push_closed(parts, place.node, form::BARE, ctx.detail);
            return;
        }
        match stored {
            Node::Holder(name) => self.push_item(parts, name, form::LEFT, 0, place.ctx),
            _ => self.push_item(parts, prefix, form::LEFT, 0, ctx),
        }
    }

    /// The parts of a name within another name.
    // <nested-name> ::= N [<CV-qualifiers>] [<ref-qualifier>] <prefix> <unqualified-name> E
    pub(crate) fn fill_within<S: PartList<Context>>(
        &self,
        parts: &mut S,
        node: u32,
        prefix: u32,
        piece: Piece,
        ctx: Context,
    )
        requires context { IsAliasBelow (length self.now.table.nodes) ctx.argument }
        requires table { IsTable (table_of self.now) }
        requires node { node < length self.now.table.nodes }
        requires prefix { prefix < length self.now.table.nodes }
        requires own { own_piece (printed_tree self.now ctx node) ≡ piece_shown self.now ctx piece }
        requires room { 8 ≤ S.room parts.old }
        ensures shows { Shows self.now ctx.detail (S.held parts.old) (S.held parts.new) (within_parts (context_of ctx) (printed_tree self.now ctx prefix) (piece_shown self.now ctx piece)) }
        ensures few { S.room parts.old ≤ S.room parts.new + 8 }
    {
        match piece {
            Piece::Constructor(_) => self.fill_structor(parts, prefix, texts::COLONS, ctx),
            Piece::Inheriting { .. } => self.fill_structor(parts, prefix, texts::COLONS, ctx),
            Piece::Destructor(_) => self.fill_structor(parts, prefix, texts::COLONS_TILDE, ctx),
            _ => self.fill_component(parts, node, prefix, ctx),
        }
    }

    /// The parts of a piece after its prefix. A prefix that is a module, or has one, attaches the piece to that module.
    fn fill_component<S: PartList<Context>>(
        &self,
        parts: &mut S,
        node: u32,
        prefix: u32,
        ctx: Context,
    )
        requires context { IsAliasBelow (length self.now.table.nodes) ctx.argument }
        requires table { IsTable (table_of self.now) }
        requires node { node < length self.now.table.nodes }
        requires prefix { prefix < length self.now.table.nodes }
        requires room { 8 ≤ S.room parts.old }
        ensures shows { Shows self.now ctx.detail (S.held parts.old) (S.held parts.new) (component_parts (context_of ctx) (printed_tree self.now ctx prefix) (own_piece (printed_tree self.now ctx node))) }
        ensures few { S.room parts.old ≤ S.room parts.new + 8 }
    {
        let place = self.place(prefix, ctx);
        match self.stored(place.node, place.ctx) {
            Node::Operation {
                first,
                second,
                left,
                right,
            } => {
                if first != b'W' {
                    self.fill_nested(parts, node, prefix, ctx);
                } else if second == b'@' {
                    self.fill_attached(parts, node, ctx, left, right, place.ctx);
                } else {
                    self.fill_attached(parts, node, ctx, ABSENT, prefix, ctx);
                }
            }
            _ => self.fill_nested(parts, node, prefix, ctx),
        }
    }

    /// Adds a prefix and what is between it and a piece, if there is a prefix.
    fn push_before<S: PartList<Context>>(&self, parts: &mut S, prefix: u32, ctx: Context)
        requires context { IsAliasBelow (length self.now.table.nodes) ctx.argument }
        requires room { 2 ≤ S.room parts.old }
        requires table { IsTable (table_of self.now) }
        requires prefix { prefix < length self.now.table.nodes }
        ensures shows { (below : Held Context) (others : List (PartOf items.Item)) → Shows self.now ctx.detail below (S.held parts.old) others
            → Shows self.now ctx.detail below (S.held parts.new) (before_piece (context_of ctx) (printed_tree self.now ctx prefix) ++ others) }
        ensures room { S.room parts.old ≤ S.room parts.new + 2 }
    {
        let place = self.place(prefix, ctx);
        match self.stored(place.node, place.ctx) {
            Node::Absent => {}
            _ => {
                self.push_text(parts, texts::COLONS);
                self.push_prefix(parts, prefix, ctx);
            }
        }
    }

    /// The parts of a piece that is attached to a module: its prefix, if it has one, the piece, and the module after an `@`.
    // <unqualified-name> ::= <module-name> <unqualified-name>
    fn fill_attached<S: PartList<Context>>(
        &self,
        parts: &mut S,
        node: u32,
        ctx: Context,
        prefix: u32,
        its_module: u32,
        around: Context,
    )
        requires context { IsAliasBelow (length self.now.table.nodes) ctx.argument }
        requires around { IsAliasBelow (length self.now.table.nodes) around.argument }
        requires index { context_of around ≡ context_of ctx }
        requires detail { around.detail ≡ ctx.detail }
        requires table { IsTable (table_of self.now) }
        requires node { node < length self.now.table.nodes }
        requires prefix { prefix < length self.now.table.nodes }
        requires its_module { its_module < length self.now.table.nodes }
        requires room { 8 ≤ S.room parts.old }
        ensures shows { Shows self.now ctx.detail (S.held parts.old) (S.held parts.new) (attached_parts (context_of ctx) (printed_tree self.now around prefix) (own_piece (printed_tree self.now ctx node)) (printed_tree self.now around its_module)) }
        ensures few { S.room parts.old ≤ S.room parts.new + 8 }
    {
        self.push_item(parts, its_module, form::LEFT, 0, around);
        self.push_text(parts, texts::AT);
        self.push_item(parts, node, form::PIECE, 0, ctx);
        self.push_before(parts, prefix, around);
    }

    /// The entity of a local name. The default argument that contains it isn't shown.
    // This function is out of line: if it were inlined, `fill_form` would be too large for the kit to inline, and would be called for each
    // item.
    #[inline(never)]
    pub(crate) fn own_entity(&self, entity: u32, ctx: Context) -> Place
        requires table { IsTable (table_of self.now) }
        requires entity { entity < length self.now.table.nodes }
        requires context { IsAliasBelow (length self.now.table.nodes) ctx.argument }
        ensures tree { printed_tree self.now result.ctx result.node ≡ entity_of (printed_tree self.now ctx entity) }
        ensures index { context_of result.ctx ≡ context_of ctx }
        ensures detail { result.ctx.detail ≡ ctx.detail }
        ensures below { result.node < length self.now.table.nodes }
        ensures context { IsAliasBelow (length self.now.table.nodes) result.ctx.argument }
    {
        let place = self.place(entity, ctx);
        match self.stored(place.node, place.ctx) {
            Node::OfDefault { entity, .. } => Place {
                node: entity,
                ctx: place.ctx,
            },
            _ => place,
        }
    }

    /// Whether a name's last piece is the operator << or <.
    fn ends_in_angle(&self, template: u32, ctx: Context) -> bool
        requires table { IsTable (table_of self.now) }
        requires template { template < length self.now.table.nodes }
        requires context { IsAliasBelow (length self.now.table.nodes) ctx.argument }
        ensures { fixed_text (if result then BLANK_LESS else LESS) ≡ opening_text (last_piece (printed_tree self.now ctx template)) }
    {
        let mut place = self.place(template, ctx);
        'entities: loop {
            match self.stored(place.node, place.ctx) {
                Node::Local { entity, .. } => place = self.place(entity, place.ctx),
                Node::OfDefault { entity, .. } => place = self.place(entity, place.ctx),
                Node::Alone(piece) => return is_angle(piece),
                Node::InStd(piece) => return is_angle(piece),
                Node::Within { piece, .. } => return is_angle(piece),
                _ => return false,
            }
        }
    }

    /// The parts of an instance of a template. The brief detail leaves out its arguments.
    // <template-args> ::= I <template-arg>+ E
    pub(crate) fn fill_instance<S: PartList<Context>>(
        &self,
        parts: &mut S,
        template: u32,
        arguments: u32,
        ctx: Context,
    )
        requires context { IsAliasBelow (length self.now.table.nodes) ctx.argument }
        requires table { IsTable (table_of self.now) }
        requires template { template < length self.now.table.nodes }
        requires arguments { arguments < length self.now.table.nodes }
        requires room { 8 ≤ S.room parts.old }
        ensures shows { Shows self.now ctx.detail (S.held parts.old) (S.held parts.new) (instance_parts (has_arguments ctx.detail) (context_of ctx) (printed_tree self.now ctx template) (printed_tree self.now ctx arguments)) }
        ensures few { S.room parts.old ≤ S.room parts.new + 8 }
    {
        if ctx.detail.has_arguments() {
            let blank = self.ends_in_angle(template, ctx);
            self.push_text(parts, texts::GREATER);
            self.push_list(parts, arguments, form::FIRST, ctx);
            self.push_either(parts, blank, texts::BLANK_LESS, texts::LESS);
            self.push_item(parts, template, form::LEFT, 0, ctx);
        } else {
            self.push_item(parts, template, form::LEFT, 0, ctx);
        }
    }

    /// The name of a constructor's class that is within another name.
    pub(crate) fn fill_base_within<S: PartList<Context>>(
        &self,
        parts: &mut S,
        prefix: u32,
        piece: Piece,
        ctx: Context,
    )
        requires context { IsAliasBelow (length self.now.table.nodes) ctx.argument }
        requires table { IsTable (table_of self.now) }
        requires prefix { prefix < length self.now.table.nodes }
        requires piece { IsPieceBelow self.now.bytes (length self.now.table.nodes) piece }
        requires room { 8 ≤ S.room parts.old }
        ensures shows { Shows self.now ctx.detail (S.held parts.old) (S.held parts.new) (base_within (context_of ctx) (printed_tree self.now ctx prefix) (piece_shown self.now ctx piece)) }
        ensures few { S.room parts.old ≤ S.room parts.new + 8 }
    {
        match piece {
            Piece::Constructor(_) => self.push_item(parts, prefix, form::BASE, 0, ctx),
            Piece::Inheriting { .. } => self.push_item(parts, prefix, form::BASE, 0, ctx),
            Piece::Destructor(_) => self.push_item(parts, prefix, form::BASE, 0, ctx),
            _ => self.fill_piece(parts, piece, ctx),
        }
    }

    /// The name of a constructor's class under a tag: the class's own piece without tags. The tags
    /// of a constructor's own name are examined one by one.
    pub(crate) fn fill_base_tagged<S: PartList<Context>>(
        &self,
        parts: &mut S,
        of_structor: bool,
        name: u32,
        ctx: Context,
    )
        requires context { IsAliasBelow (length self.now.table.nodes) ctx.argument }
        requires table { IsTable (table_of self.now) }
        requires name { name < length self.now.table.nodes }
        requires room { 8 ≤ S.room parts.old }
        ensures shows { Shows self.now ctx.detail (S.held parts.old) (S.held parts.new) (base_tagged (context_of ctx) of_structor (printed_tree self.now ctx name)) }
        ensures few { S.room parts.old ≤ S.room parts.new + 8 }
    {
        if of_structor {
            self.push_item(parts, name, form::BASE, 0, ctx);
        } else {
            let inner = self.untagged(name, ctx);
            self.fill_own_piece(parts, inner.node, inner.ctx);
        }
    }
}
