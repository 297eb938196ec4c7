// The left parts of names and types: what they print before a declared name.
#![tactic(auto)]

ghost use Rattle.std.specs.Prelude.{◌≡◌, ◌+◌, ◌<◌, ◌≤◌, length, false};
ghost use Rattle.cpp_term.specs.Parts.{own_piece, piece_parts, left_parts, low_parts, base_parts};
ghost use Rattle.cpp_tree.specs.Nodes.{IsTable, IsBelow, IsAliasBelow, is_again, entry_at};
ghost use Rattle.cpp_layout.specs.Layout.{table_of, context_of, Shows, IsNoName, IsNoType, printed_tree, node_shown};

use crate::codes::placeholder;
use crate::context::Context;
use crate::numbered::{abbreviation, builtin, builtin_with_d, last_of_abbreviation};
use crate::symbol::Symbol;
use crate::{form, texts};
use cpp_tree::node::Node;
use sym_print::PartList;

impl Symbol {
    /// The parts of a name's own piece.
    pub(crate) fn fill_own_piece<S: PartList<Context>>(
        &self,
        parts: &mut S,
        node: u32,
        ctx: Context,
    )
        requires context { IsAliasBelow (length self.now.table.nodes) ctx.argument }
        requires own { is_again (entry_at self.now.table.nodes node).node ≡ false }
        requires table { IsTable (table_of self.now) }
        requires node { node < length self.now.table.nodes }
        requires room { 8 ≤ S.room parts.old }
        ensures shows { Shows self.now ctx.detail (S.held parts.old) (S.held parts.new) (piece_parts (context_of ctx) (own_piece (printed_tree self.now ctx node))) }
        ensures few { S.room parts.old ≤ S.room parts.new + 8 }
    {
        match self.stored(node, ctx) {
            Node::Alone(piece) => self.fill_piece(parts, piece, ctx),
            Node::InStd(piece) => self.fill_piece(parts, piece, ctx),
            Node::Within { piece, .. } => self.fill_piece(parts, piece, ctx),
            _ => {}
        }
    }

    /// The left parts of a template argument that is neither a type nor a name.
    #[inline(always)]
    fn fill_left_argument<S: PartList<Context>>(
        &self,
        parts: &mut S,
        number: u32,
        node: Node,
        ctx: Context,
    )
        requires context { IsAliasBelow (length self.now.table.nodes) ctx.argument }
        requires table { IsTable (table_of self.now) }
        requires number { number < length self.now.table.nodes }
        requires below { IsBelow self.now.bytes (length self.now.table.thunks) number node }
        requires kind { IsNoType node }
        requires room { 8 ≤ S.room parts.old }
        ensures shows { Shows self.now ctx.detail (S.held parts.old) (S.held parts.new) (left_parts ctx.detail (context_of ctx) (node_shown self.now ctx node)) }
        ensures few { S.room parts.old ≤ S.room parts.new + 8 }
    {
        match node {
            Node::Expansion(pattern) => self.fill_expansion(parts, pattern, ctx),
            Node::Pack(elements) => self.push_list(parts, elements, form::FIRST, ctx),
            Node::Integer { ty, value } => self.fill_integer(parts, ty, value, ctx),
            Node::Boolean(value) => self.push_either(parts, value, texts::TRUE, texts::FALSE),
            Node::NullPointer => self.push_text(parts, texts::NULLPTR),
            Node::EncodingLiteral(encoding) => {
                self.fill_encoding_literal(parts, encoding, false, ctx);
            }
            Node::AddressOf(encoding) => self.fill_encoding_literal(parts, encoding, true, ctx),
            Node::Decltype(expression) => self.fill_decltype(parts, expression, ctx),
            Node::Operation {
                first,
                second,
                left,
                right,
            } => self.fill_operation(parts, first, second, left, right, ctx),
            Node::FunctionParameter(digits) => self.fill_function_parameter(parts, digits, ctx),
            _ => {}
        }
    }

    /// The left parts of a type that isn't a name.
    #[inline(always)]
    fn fill_left_type<S: PartList<Context>>(
        &self,
        parts: &mut S,
        number: u32,
        node: Node,
        ctx: Context,
    )
        requires context { IsAliasBelow (length self.now.table.nodes) ctx.argument }
        requires table { IsTable (table_of self.now) }
        requires number { number < length self.now.table.nodes }
        requires below { IsBelow self.now.bytes (length self.now.table.thunks) number node }
        requires kind { IsNoName node }
        requires room { 8 ≤ S.room parts.old }
        ensures shows { Shows self.now ctx.detail (S.held parts.old) (S.held parts.new) (left_parts ctx.detail (context_of ctx) (node_shown self.now ctx node)) }
        ensures few { S.room parts.old ≤ S.room parts.new + 8 }
    {
        match node {
            Node::Builtin(letter) => self.push_some(parts, builtin(letter)),
            Node::BuiltinWithD(letter) => self.push_some(parts, builtin_with_d(letter)),
            Node::Vendor(name) => self.push_name(parts, name),
            Node::Pointer(ty) => self.fill_marked(parts, ty, texts::LEFT_STAR, texts::STAR, ctx),
            Node::Lvalue(ty) => self.fill_lvalue(parts, ty, ctx),
            Node::Rvalue(ty) => self.fill_rvalue(parts, ty, ctx),
            Node::Array { element, .. } => self.fill_array(parts, element, ctx),
            Node::Bounded { element, .. } => self.fill_array(parts, element, ctx),
            Node::FunctionType { returned, .. } => {
                self.fill_left_text(parts, returned, texts::BLANK, ctx);
            }
            Node::MemberPointer { class, member } => self.fill_member(parts, class, member, ctx),
            Node::Qualified { qualifiers, ty } => {
                self.fill_qualified_left(parts, qualifiers, ty, ctx);
            }
            Node::Vector { digits, element } => self.fill_vector(parts, digits, element, ctx),
            Node::Complex(ty) => self.fill_left_text(parts, ty, texts::COMPLEX, ctx),
            Node::SizedFloat { digits, end } => self.fill_float(parts, digits, end, ctx),
            Node::Constrained { letter, concept } => {
                self.fill_left_text(parts, concept, placeholder(letter), ctx);
            }
            _ => self.fill_left_argument(parts, number, node, ctx),
        }
    }

    /// The left parts of a node.
    #[inline(always)]
    pub(crate) fn fill_left<S: PartList<Context>>(&self, parts: &mut S, node: u32, ctx: Context)
        requires context { IsAliasBelow (length self.now.table.nodes) ctx.argument }
        requires own { is_again (entry_at self.now.table.nodes node).node ≡ false }
        requires table { IsTable (table_of self.now) }
        requires node { node < length self.now.table.nodes }
        requires room { 8 ≤ S.room parts.old }
        ensures shows { Shows self.now ctx.detail (S.held parts.old) (S.held parts.new) (left_parts ctx.detail (context_of ctx) (printed_tree self.now ctx node)) }
        ensures few { S.room parts.old ≤ S.room parts.new + 8 }
    {
        let stored = self.stored(node, ctx);
        match stored {
            Node::Alone(piece) => self.fill_piece(parts, piece, ctx),
            Node::InStd(_) => self.fill_in_std(parts, node, ctx),
            Node::Within { prefix, piece } => self.fill_within(parts, node, prefix, piece, ctx),
            Node::Instance {
                template,
                arguments,
            } => self.fill_instance(parts, template, arguments, ctx),
            Node::Local { entity, .. } => {
                let own = self.own_entity(entity, ctx);
                self.push_item(parts, own.node, form::LEFT, 0, own.ctx);
            }
            Node::Holder(name) => self.push_item(parts, name, form::LEFT, 0, ctx),
            Node::Tagged { name, tag, .. } => self.fill_tagged(parts, name, tag, ctx),
            Node::Abbreviation(letter) => self.push_some(parts, abbreviation(letter)),
            Node::Parameter { number, argument } => {
                self.fill_parameter(parts, number, argument, form::LEFT, ctx);
            }
            _ => self.fill_left_type(parts, node, stored, ctx),
        }
    }

    /// The left parts of a node. Other forms in which the node prints the same call this function.
    fn fill_as_left<S: PartList<Context>>(&self, parts: &mut S, node: u32, ctx: Context)
        requires context { IsAliasBelow (length self.now.table.nodes) ctx.argument }
        requires own { is_again (entry_at self.now.table.nodes node).node ≡ false }
        requires table { IsTable (table_of self.now) }
        requires node { node < length self.now.table.nodes }
        requires room { 8 ≤ S.room parts.old }
        ensures shows { Shows self.now ctx.detail (S.held parts.old) (S.held parts.new) (left_parts ctx.detail (context_of ctx) (printed_tree self.now ctx node)) }
        ensures few { S.room parts.old ≤ S.room parts.new + 8 }
    {
        self.fill_left(parts, node, ctx);
    }

    /// The left parts of the type to which a reference refers. If this type is itself a reference, it is
    /// shown as an lvalue reference.
    pub(crate) fn fill_low<S: PartList<Context>>(&self, parts: &mut S, node: u32, ctx: Context)
        requires context { IsAliasBelow (length self.now.table.nodes) ctx.argument }
        requires own { is_again (entry_at self.now.table.nodes node).node ≡ false }
        requires table { IsTable (table_of self.now) }
        requires node { node < length self.now.table.nodes }
        requires room { 8 ≤ S.room parts.old }
        ensures shows { Shows self.now ctx.detail (S.held parts.old) (S.held parts.new) (low_parts ctx.detail (context_of ctx) (printed_tree self.now ctx node)) }
        ensures few { S.room parts.old ≤ S.room parts.new + 8 }
    {
        match self.stored(node, ctx) {
            Node::Lvalue(ty) => self.fill_lvalue(parts, ty, ctx),
            Node::Rvalue(ty) => self.fill_lvalue(parts, ty, ctx),
            Node::Qualified { ty, .. } => self.push_item(parts, ty, form::LOW, 0, ctx),
            Node::Parameter { number, argument } => {
                self.fill_parameter(parts, number, argument, form::LOW, ctx);
            }
            _ => self.fill_as_left(parts, node, ctx),
        }
    }

    /// The name of a constructor's class.
    pub(crate) fn fill_base<S: PartList<Context>>(&self, parts: &mut S, node: u32, ctx: Context)
        requires context { IsAliasBelow (length self.now.table.nodes) ctx.argument }
        requires own { is_again (entry_at self.now.table.nodes node).node ≡ false }
        requires table { IsTable (table_of self.now) }
        requires node { node < length self.now.table.nodes }
        requires room { 8 ≤ S.room parts.old }
        ensures shows { Shows self.now ctx.detail (S.held parts.old) (S.held parts.new) (base_parts ctx.detail (context_of ctx) (printed_tree self.now ctx node)) }
        ensures few { S.room parts.old ≤ S.room parts.new + 8 }
    {
        match self.stored(node, ctx) {
            Node::Alone(piece) => self.fill_piece(parts, piece, ctx),
            Node::InStd(piece) => self.fill_piece(parts, piece, ctx),
            Node::Within { prefix, piece } => self.fill_base_within(parts, prefix, piece, ctx),
            Node::Instance { template, .. } => self.push_item(parts, template, form::BASE, 0, ctx),
            Node::Local { entity, .. } => {
                let own = self.own_entity(entity, ctx);
                self.push_item(parts, own.node, form::BASE, 0, own.ctx);
            }
            Node::Holder(name) => self.push_item(parts, name, form::BASE, 0, ctx),
            Node::Tagged {
                of_structor,
                name,
                ..
            } => self.fill_base_tagged(parts, of_structor, name, ctx),
            Node::Abbreviation(letter) => self.push_some(parts, last_of_abbreviation(letter)),
            Node::Parameter { number, argument } => {
                self.fill_parameter(parts, number, argument, form::BASE, ctx);
            }
            _ => self.fill_as_left(parts, node, ctx),
        }
    }
}
