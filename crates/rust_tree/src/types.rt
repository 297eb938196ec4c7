// The parts of types.
#![tactic(auto)]

ghost use Rattle.std.specs.Prelude.{◌≡◌, ℕ, ◌+◌, ◌<◌, ◌≤◌, [], List, length, slice_get, codes, if◌then◌else◌, take};
ghost use Rattle.sym_print.specs.Held.{Held};
ghost use Rattle.sym_print.specs.Unshared.{Unshared};
ghost use Rattle.sym_print.specs.Building.{◌then◌, ◌also◌, ◌perhaps◌};
ghost use Rattle.rust_tree.specs.Symbol as tree;
ghost use Rattle.rust_tree.specs.Nodes.{IsType, IsTypes, IsBounds, IsConstant, type_in, types_in, bounds_in, constant_in, most_bound, HasAbi, HasTypeParts, abi_of, type_of};
ghost use Rattle.rust_tree.specs.Shown.{type_parts, bounds_from, constant_parts, reference_opening, dyn_lifetime, for_binder, signature_opening, returned_parts, closing_tuple, is_unit, basic_text};
ghost use Rattle.rust_tree.specs.Texts.{fixed_text};
ghost use Rattle.rust_tree.specs.Layout.{trees_of, HasDepth, Shows, binder_in, signature_in, names_in};
ghost use Rattle.rust_tree.specs.Tree.{Tree, of_type};

use crate::basic_types::basic_text;
use crate::context::Context;
use crate::form::Form;
use crate::node::{Abi, Constant, Node, Path, Ty, Types};
use crate::symbol::Symbol;
use crate::texts;
use sym_print::PartList;

impl Symbol {
    /// Adds the text of a basic type, if the letter denotes one.
    #[inline(always)]
    fn push_basic<S: PartList<Context>>(&self, parts: &mut S, letter: u8)
        requires { 1 ≤ S.room parts.old }
        ensures shows { (below : Held Context) (so_far : Unshared) → Shows self.now below (S.held parts.old) so_far
            → Shows self.now below (S.held parts.new) (basic_text letter then so_far) }
        ensures room { S.room parts.old ≤ S.room parts.new + 1 }
    {
        if letter < b'a' {
            return;
        }
        if !basic_text(letter as u16).is_empty() {
            self.push_text(parts, letter as u16);
        }
    }

    /// Adds the beginning of a reference.
    #[inline(always)]
    fn push_reference<S: PartList<Context>>(
        &self,
        parts: &mut S,
        lifetime: u64,
        mutable: bool,
        ctx: Context,
    )
        requires { 3 ≤ S.room parts.old }
        ensures shows { (below : Held Context) (so_far : Unshared) → Shows self.now below (S.held parts.old) so_far
            → Shows self.now below (S.held parts.new) (reference_opening ctx.bound lifetime mutable so_far) }
        ensures room { S.room parts.old ≤ S.room parts.new + 3 }
    {
        match lifetime {
            0 => self.push_either(parts, mutable, texts::AND_MUT, texts::AND),
            _ => {
                self.push_either(parts, mutable, texts::MUT, texts::BLANK);
                self.push_lifetime(parts, ctx.bound, lifetime);
                self.push_text(parts, texts::AND);
            }
        }
    }

    /// Adds one of two texts.
    #[inline(always)]
    pub(crate) fn push_either<S: PartList<Context>>(
        &self,
        parts: &mut S,
        first: bool,
        one: u16,
        other: u16,
    )
        requires room { 1 ≤ S.room parts.old }
        requires one { 0 < length (fixed_text one) }
        requires other { 0 < length (fixed_text other) }
        ensures shows { (below : Held Context) (so_far : Unshared) → Shows self.now below (S.held parts.old) so_far
            → Shows self.now below (S.held parts.new) ((if first then fixed_text one else fixed_text other) then so_far) }
        ensures room { S.room parts.old ≤ S.room parts.new + 1 }
    {
        if first {
            self.push_text(parts, one);
        } else {
            self.push_text(parts, other);
        }
    }

    /// Adds the lifetime after a `dyn`'s bounds, unless it is erased.
    fn push_dyn_lifetime<S: PartList<Context>>(&self, parts: &mut S, lifetime: u64, ctx: Context)
        requires { 2 ≤ S.room parts.old }
        ensures shows { (below : Held Context) (so_far : Unshared) → Shows self.now below (S.held parts.old) so_far
            → Shows self.now below (S.held parts.new) (dyn_lifetime ctx.bound lifetime so_far) }
        ensures room { S.room parts.old ≤ S.room parts.new + 2 }
    {
        match lifetime {
            0 => {}
            _ => {
                self.push_lifetime(parts, ctx.bound, lifetime);
                self.push_text(parts, texts::PLUS);
            }
        }
    }

    /// Adds a node's binder, if it binds lifetimes.
    fn push_binder<S: PartList<Context>>(&self, parts: &mut S, node: u32, binder: u16, ctx: Context)
        requires { 3 ≤ S.room parts.old }
        ensures shows { (below : Held Context) (so_far : Unshared) → Shows self.now below (S.held parts.old) so_far → ((t : tree.Ty) × IsType (trees_of self.now) node t) → HasDepth Form.PlainPath node ctx.bound → binder_in (type_in (slice_get (trees_of self.now) node)) ≡ binder
            → Shows self.now below (S.held parts.new) (for_binder ctx.bound binder so_far) }
        ensures room { S.room parts.old ≤ S.room parts.new + 3 }
    {
        match binder {
            0 => {}
            _ => {
                self.push_text(parts, texts::GREATER_BLANK);
                self.push_item(parts, node, Form::Names, 0, ctx);
                self.push_text(parts, texts::FOR);
            }
        }
    }

    /// Adds an array's type.
    fn push_array<S: PartList<Context>>(&self, parts: &mut S, element: u32, size: u32, ctx: Context)
        requires { 5 ≤ S.room parts.old }
        ensures shows { (below : Held Context) (so_far : Unshared) → Shows self.now below (S.held parts.old) so_far → ((t : tree.Ty) × IsType (trees_of self.now) element t) → HasDepth Form.PlainPath element ctx.bound → ((k : tree.Constant) × IsConstant (trees_of self.now) size k) → HasDepth Form.PlainPath size ctx.bound
            → Shows self.now below (S.held parts.new) (codes "[" then type_parts ctx.detail ctx.bound (type_in (slice_get (trees_of self.now) element)) also codes "; " then constant_parts (constant_in (slice_get (trees_of self.now) size)) also codes "]" then so_far) }
        ensures room { S.room parts.old ≤ S.room parts.new + 5 }
    {
        self.push_text(parts, texts::RIGHT_BRACKET);
        self.push_item(parts, size, Form::Constant, 0, ctx);
        self.push_text(parts, texts::SEMICOLON);
        self.push_item(parts, element, Form::Ty, 0, ctx);
        self.push_text(parts, texts::LEFT_BRACKET);
    }

    /// Adds a slice's type.
    fn push_slice<S: PartList<Context>>(&self, parts: &mut S, element: u32, ctx: Context)
        requires { 3 ≤ S.room parts.old }
        ensures shows { (below : Held Context) (so_far : Unshared) → Shows self.now below (S.held parts.old) so_far → ((t : tree.Ty) × IsType (trees_of self.now) element t) → HasDepth Form.PlainPath element ctx.bound
            → Shows self.now below (S.held parts.new) (codes "[" then type_parts ctx.detail ctx.bound (type_in (slice_get (trees_of self.now) element)) also codes "]" then so_far) }
        ensures room { S.room parts.old ≤ S.room parts.new + 3 }
    {
        self.push_text(parts, texts::RIGHT_BRACKET);
        self.push_item(parts, element, Form::Ty, 0, ctx);
        self.push_text(parts, texts::LEFT_BRACKET);
    }

    /// Adds a pointer's type, after the text that it begins with.
    fn push_pointer<S: PartList<Context>>(
        &self,
        parts: &mut S,
        number: u16,
        pointee: u32,
        ctx: Context,
    )
        requires room { 2 ≤ S.room parts.old }
        requires text { 0 < length (fixed_text number) }
        ensures shows { (below : Held Context) (so_far : Unshared) → Shows self.now below (S.held parts.old) so_far → ((t : tree.Ty) × IsType (trees_of self.now) pointee t) → HasDepth Form.PlainPath pointee ctx.bound
            → Shows self.now below (S.held parts.new) (fixed_text number then type_parts ctx.detail ctx.bound (type_in (slice_get (trees_of self.now) pointee)) also so_far) }
        ensures room { S.room parts.old ≤ S.room parts.new + 2 }
    {
        self.push_item(parts, pointee, Form::Ty, 0, ctx);
        self.push_text(parts, number);
    }

    /// Adds a function's type: its binder, and under the binder its signature.
    fn push_function<S: PartList<Context>>(
        &self,
        parts: &mut S,
        node: u32,
        binder: u16,
        ctx: Context,
    )
        requires room { 4 ≤ S.room parts.old }
        requires depth { HasDepth Form.PlainPath node ctx.bound }
        ensures shows { (below : Held Context) (so_far : Unshared) → Shows self.now below (S.held parts.old) so_far → ((t : tree.Ty) × IsType (trees_of self.now) node t) → binder ≤ most_bound → binder_in (type_in (slice_get (trees_of self.now) node)) ≡ binder
            → Shows self.now below (S.held parts.new) (for_binder ctx.bound binder (signature_in (record { bound = ctx.bound + binder; detail = ctx.detail }) (type_in (slice_get (trees_of self.now) node)) also so_far)) }
        ensures room { S.room parts.old ≤ S.room parts.new + 4 }
    {
        let inner = Context {
            bound: ctx.bound + binder as u64,
            detail: ctx.detail,
        };
        self.push_item(parts, node, Form::Signature, 0, inner);
        self.push_binder(parts, node, binder, ctx);
    }

    /// Adds a `dyn` type: its binder, under the binder its bounds, and then its lifetime.
    fn push_dyn<S: PartList<Context>>(
        &self,
        parts: &mut S,
        node: u32,
        binder: u16,
        bounds: u32,
        lifetime: u64,
        ctx: Context,
    )
        requires room { 7 ≤ S.room parts.old }
        requires depth { HasDepth Form.PlainPath node ctx.bound }
        requires are_bounds { (bs : tree.Bounds) × IsBounds (trees_of self.now) bounds bs }
        ensures shows { (below : Held Context) (so_far : Unshared) → Shows self.now below (S.held parts.old) so_far → ((t : tree.Ty) × IsType (trees_of self.now) node t) → bounds < node → binder ≤ most_bound → binder_in (type_in (slice_get (trees_of self.now) node)) ≡ binder
            → Shows self.now below (S.held parts.new) (codes "dyn " then for_binder ctx.bound binder (bounds_from ctx.detail (ctx.bound + binder) [] (bounds_in (slice_get (trees_of self.now) bounds)) perhaps dyn_lifetime ctx.bound lifetime so_far)) }
        ensures room { S.room parts.old ≤ S.room parts.new + 7 }
    {
        let inner = Context {
            bound: ctx.bound + binder as u64,
            detail: ctx.detail,
        };
        self.push_dyn_lifetime(parts, lifetime, ctx);
        self.push_bounds(parts, bounds, true, inner);
        self.push_binder(parts, node, binder, ctx);
        self.push_text(parts, texts::DYN);
    }

    /// Adds the end of a tuple.
    fn push_closing<S: PartList<Context>>(&self, parts: &mut S, elements: u32)
        requires room { 1 ≤ S.room parts.old }
        requires types { (ts : tree.Tys) × IsTypes (trees_of self.now) elements ts }
        ensures shows { (below : Held Context) (so_far : Unshared) → Shows self.now below (S.held parts.old) so_far
            → Shows self.now below (S.held parts.new) (closing_tuple (types_in (slice_get (trees_of self.now) elements)) then so_far) }
        ensures room { S.room parts.old ≤ S.room parts.new + 1 }
    {
        match self.types(elements) {
            Types::None => self.push_text(parts, texts::RIGHT),
            Types::More { rest, .. } => {
                self.push_either(
                    parts,
                    self.any_types(rest),
                    texts::RIGHT,
                    texts::COMMA_RIGHT,
                );
            }
        }
    }

    /// The parts of a type that isn't a path.
    #[inline(always)]
    fn fill_ty<S: PartList<Context>>(&self, parts: &mut S, ty: Ty, node: u32, ctx: Context)
        requires parts { HasTypeParts self.now.bytes self.now.table.text (take node (trees_of self.now)) ty }
        requires tree { slice_get (trees_of self.now) node ≡ Some (of_type (type_of self.now.bytes (trees_of self.now) ty)) }
        requires depth { HasDepth Form.PlainPath node ctx.bound }
        requires room { 8 ≤ S.room parts.old }
        ensures shows { Shows self.now (S.held parts.old) (S.held parts.new) (type_parts ctx.detail ctx.bound (type_of self.now.bytes (trees_of self.now) ty)) }
        ensures room { S.room parts.old ≤ S.room parts.new + 8 }
    {
        match ty {
            Ty::Basic(letter) => self.push_basic(parts, letter),
            Ty::Array { element, size } => self.push_array(parts, element, size, ctx),
            Ty::Slice(element) => self.push_slice(parts, element, ctx),
            Ty::Tuple(elements) => {
                self.push_closing(parts, elements);
                self.push_types(parts, elements, true, ctx);
                self.push_text(parts, texts::LEFT);
            }
            Ty::SharedReference { lifetime, referent } => {
                self.push_item(parts, referent, Form::Ty, 0, ctx);
                self.push_reference(parts, lifetime, false, ctx);
            }
            Ty::MutableReference { lifetime, referent } => {
                self.push_item(parts, referent, Form::Ty, 0, ctx);
                self.push_reference(parts, lifetime, true, ctx);
            }
            Ty::ConstPointer(pointee) => self.push_pointer(
                parts,
                texts::CONST_POINTER,
                pointee,
                ctx,
            ),
            Ty::MutPointer(pointee) => self.push_pointer(parts, texts::MUT_POINTER, pointee, ctx),
            Ty::Function { binder, .. } => self.push_function(parts, node, binder, ctx),
            Ty::Dyn {
                binder,
                bounds,
                lifetime,
            } => self.push_dyn(parts, node, binder, bounds, lifetime, ctx),
        }
    }

    /// The parts of a type, or of a path that is used as a type.
    #[inline(always)]
    pub(crate) fn fill_type<S: PartList<Context>>(&self, parts: &mut S, node: u32, ctx: Context)
        requires ty { (t : tree.Ty) × IsType (trees_of self.now) node t }
        requires depth { HasDepth Form.PlainPath node ctx.bound }
        requires room { 8 ≤ S.room parts.old }
        ensures shows { Shows self.now (S.held parts.old) (S.held parts.new) (type_parts ctx.detail ctx.bound (type_in (slice_get (trees_of self.now) node))) }
        ensures room { S.room parts.old ≤ S.room parts.new + 8 }
    {
        match self.stored(node) {
            Node::Path(_) => self.fill_path(parts, node, false, ctx),
            Node::Ty(ty) => self.fill_ty(parts, ty, node, ctx),
            _ => unreachable!(),
        }
    }

    /// Adds how a signature begins.
    fn push_opening<S: PartList<Context>>(&self, parts: &mut S, is_unsafe: bool, abi: Abi)
        requires { 3 ≤ S.room parts.old }
        ensures shows { (below : Held Context) (so_far : Unshared) → Shows self.now below (S.held parts.old) so_far → HasAbi self.now.bytes self.now.table.text abi
            → Shows self.now below (S.held parts.new) (signature_opening is_unsafe (abi_of self.now.bytes abi) so_far) }
        ensures room { S.room parts.old ≤ S.room parts.new + 3 }
    {
        match abi {
            Abi::Rust => self.push_either(parts, is_unsafe, texts::UNSAFE_FN, texts::FN),
            Abi::C => {
                self.push_text(parts, texts::QUOTE_FN);
                self.push_text(parts, texts::C);
                self.push_either(parts, is_unsafe, texts::UNSAFE_EXTERN, texts::EXTERN);
            }
            Abi::Named(name) => {
                self.push_text(parts, texts::QUOTE_FN);
                self.push_name(parts, name);
                self.push_either(parts, is_unsafe, texts::UNSAFE_EXTERN, texts::EXTERN);
            }
        }
    }

    /// Whether a type is the unit type, spelled as a letter.
    fn is_unit(&self, node: u32) -> bool
        requires { (t : tree.Ty) × IsType (trees_of self.now) node t }
        ensures { result ≡ is_unit (type_in (slice_get (trees_of self.now) node)) }
    {
        match self.stored(node) {
            Node::Path(_) => false,
            Node::Ty(ty) => is_unit(ty),
            _ => unreachable!(),
        }
    }

    /// Adds a signature's result, unless it is the unit type.
    fn push_returned<S: PartList<Context>>(&self, parts: &mut S, returned: u32, ctx: Context)
        requires room { 2 ≤ S.room parts.old }
        requires ty { (t : tree.Ty) × IsType (trees_of self.now) returned t }
        ensures shows { (below : Held Context) (so_far : Unshared) → Shows self.now below (S.held parts.old) so_far → HasDepth Form.PlainPath returned ctx.bound
            → Shows self.now below (S.held parts.new) (returned_parts (is_unit (type_in (slice_get (trees_of self.now) returned))) (type_parts ctx.detail ctx.bound (type_in (slice_get (trees_of self.now) returned))) so_far) }
        ensures room { S.room parts.old ≤ S.room parts.new + 2 }
    {
        if !self.is_unit(returned) {
            self.push_item(parts, returned, Form::Ty, 0, ctx);
            self.push_text(parts, texts::ARROW);
        }
    }

    /// The parts of a function's type without its binder.
    pub(crate) fn fill_signature<S: PartList<Context>>(
        &self,
        parts: &mut S,
        node: u32,
        ctx: Context,
    )
        requires ty { (t : tree.Ty) × IsType (trees_of self.now) node t }
        requires depth { HasDepth Form.Signature node ctx.bound }
        requires room { 8 ≤ S.room parts.old }
        ensures shows { Shows self.now (S.held parts.old) (S.held parts.new) (signature_in ctx (type_in (slice_get (trees_of self.now) node))) }
        ensures room { S.room parts.old ≤ S.room parts.new + 8 }
    {
        match self.stored(node) {
            Node::Path(_) => {}
            Node::Ty(ty) => self.fill_ty_signature(parts, ty, node, ctx),
            _ => unreachable!(),
        }
    }

    fn fill_ty_signature<S: PartList<Context>>(
        &self,
        parts: &mut S,
        ty: Ty,
        node: u32,
        ctx: Context,
    )
        requires parts { HasTypeParts self.now.bytes self.now.table.text (take node (trees_of self.now)) ty }
        requires depth { HasDepth Form.Signature node ctx.bound }
        requires room { 8 ≤ S.room parts.old }
        ensures shows { Shows self.now (S.held parts.old) (S.held parts.new) (signature_in ctx (type_of self.now.bytes (trees_of self.now) ty)) }
        ensures room { S.room parts.old ≤ S.room parts.new + 8 }
    {
        match ty {
            Ty::Function {
                is_unsafe,
                abi,
                parameters,
                returned,
                ..
            } => {
                self.push_returned(parts, returned, ctx);
                self.push_text(parts, texts::RIGHT);
                self.push_types(parts, parameters, true, ctx);
                self.push_opening(parts, is_unsafe, abi);
            }
            Ty::Basic(_) => {}
            Ty::Array { .. } => {}
            Ty::Slice(_) => {}
            Ty::Tuple(_) => {}
            Ty::SharedReference { .. } => {}
            Ty::MutableReference { .. } => {}
            Ty::ConstPointer(_) => {}
            Ty::MutPointer(_) => {}
            Ty::Dyn { .. } => {}
        }
    }

    /// How many lifetimes a type binds.
    fn binder(&self, node: u32) -> u16
        requires { (t : tree.Ty) × IsType (trees_of self.now) node t }
        ensures { result ≡ binder_in (type_in (slice_get (trees_of self.now) node)) }
    {
        match self.stored(node) {
            Node::Path(_) => 0,
            Node::Ty(ty) => ty_binder(ty),
            _ => unreachable!(),
        }
    }

    /// The names of a binder's lifetimes from one on.
    pub(crate) fn fill_names<S: PartList<Context>>(
        &self,
        parts: &mut S,
        node: u32,
        at: u32,
        ctx: Context,
    )
        requires ty { (t : tree.Ty) × IsType (trees_of self.now) node t }
        requires depth { HasDepth Form.PlainPath node ctx.bound }
        requires room { 8 ≤ S.room parts.old }
        ensures shows { Shows self.now (S.held parts.old) (S.held parts.new) (names_in ctx.bound at (binder_in (type_in (slice_get (trees_of self.now) node)))) }
        ensures room { S.room parts.old ≤ S.room parts.new + 8 }
    {
        let binder = self.binder(node) as u32;
        if at < binder {
            if at + 1 < binder {
                self.push_item(parts, node, Form::Names, at + 1, ctx);
                self.push_numbered(parts, ctx.bound + at as u64);
                self.push_separator(parts, at == 0, texts::COMMA);
            } else {
                self.push_numbered(parts, ctx.bound + at as u64);
                self.push_separator(parts, at == 0, texts::COMMA);
            }
        }
    }
}

/// How many lifetimes a type binds.
#[tactic(auto, unfolding(crate::specs::Nodes::type_of))]
fn ty_binder(ty: Ty) -> u16
    ensures { (s : List ℕ) (all : List Tree) → result ≡ binder_in (type_of s all ty) }
{
    match ty {
        Ty::Function { binder, .. } => binder,
        Ty::Dyn { binder, .. } => binder,
        Ty::Basic(_) => 0,
        Ty::Array { .. } => 0,
        Ty::Slice(_) => 0,
        Ty::Tuple(_) => 0,
        Ty::SharedReference { .. } => 0,
        Ty::MutableReference { .. } => 0,
        Ty::ConstPointer(_) => 0,
        Ty::MutPointer(_) => 0,
    }
}

/// Whether a type is the unit type, spelled as a letter.
#[tactic(auto, unfolding(crate::specs::Nodes::type_of))]
fn is_unit(ty: Ty) -> bool
    ensures { (s : List ℕ) (all : List Tree) → result ≡ is_unit (type_of s all ty) }
{
    match ty {
        Ty::Basic(letter) => letter == b'u',
        Ty::Function { .. } => false,
        Ty::Dyn { .. } => false,
        Ty::Array { .. } => false,
        Ty::Slice(_) => false,
        Ty::Tuple(_) => false,
        Ty::SharedReference { .. } => false,
        Ty::MutableReference { .. } => false,
        Ty::ConstPointer(_) => false,
        Ty::MutPointer(_) => false,
    }
}
