// The parts of paths, and of the whole symbol.
#![tactic(auto)]

ghost use Rattle.std.specs.Prelude.{◌+◌, ◌≤◌, [], slice_get, codes, nat_le, if◌then◌else◌, false};
ghost use Rattle.sym_print.specs.Held.{Held};
ghost use Rattle.sym_print.specs.Unshared.{Unshared};
ghost use Rattle.sym_print.specs.Building.{◌then◌, ◌also◌};
ghost use Rattle.sym_print.specs.Details.{has_arguments};
ghost use Rattle.rust_tree.specs.Symbol as tree;
ghost use Rattle.rust_tree.specs.Nodes.{IsPath, IsArguments, IsType, IsSymbol, HasName, IsWithin, bytes_at, identifier_of, path_in, arguments_in, type_in, symbol_in};
ghost use Rattle.rust_tree.specs.Shown.{path_parts, type_parts, arguments_from, symbol_parts, suffix_parts, argument_list, nested_name};
ghost use Rattle.rust_tree.specs.Layout.{trees_of, HasDepth, Shows};

use crate::context::Context;
use crate::form::Form;
use crate::node::{Name, Path, Ty};
use crate::symbol::Symbol;
use crate::texts;
use sym_core::Span;
use sym_print::PartList;

impl Symbol {
    /// Adds a path in this style.
    #[inline(always)]
    pub(crate) fn push_path<S: PartList<Context>>(
        &self,
        parts: &mut S,
        node: u32,
        value: bool,
        ctx: Context,
    )
        requires { 1 ≤ S.room parts.old }
        ensures shows { (below : Held Context) (so_far : Unshared) → Shows self.now below (S.held parts.old) so_far → ((p : tree.Path) × IsPath (trees_of self.now) node p) → HasDepth Form.PlainPath node ctx.bound
            → Shows self.now below (S.held parts.new) (path_parts ctx.detail ctx.bound value (path_in (slice_get (trees_of self.now) node)) also so_far) }
        ensures room { S.room parts.old ≤ S.room parts.new + 1 }
    {
        if value {
            self.push_item(parts, node, Form::ValuePath, 0, ctx);
        } else {
            self.push_item(parts, node, Form::PlainPath, 0, ctx);
        }
    }

    /// Adds a name by its namespace.
    #[inline(always)]
    pub(crate) fn push_nested<S: PartList<Context>>(
        &self,
        parts: &mut S,
        namespace: u8,
        name: Name,
        disambiguator: u64,
    )
        requires { 7 ≤ S.room parts.old }
        ensures shows { (below : Held Context) (so_far : Unshared) → Shows self.now below (S.held parts.old) so_far → HasName self.now.bytes self.now.table.text name
            → Shows self.now below (S.held parts.new) (nested_name (nat_le 97 namespace) namespace (identifier_of self.now.bytes name disambiguator) so_far) }
        ensures room { S.room parts.old ≤ S.room parts.new + 7 }
    {
        if namespace >= b'a' {
            self.push_name_behind(parts, texts::COLONS, name);
        } else {
            self.push_special(parts, namespace, name, disambiguator);
        }
    }

    /// Adds the implementation of a trait by a type.
    pub(crate) fn push_as<S: PartList<Context>>(
        &self,
        parts: &mut S,
        self_type: u32,
        implemented: u32,
        ctx: Context,
    )
        requires { 5 ≤ S.room parts.old }
        ensures shows { (below : Held Context) (so_far : Unshared) → Shows self.now below (S.held parts.old) so_far → ((t : tree.Ty) × IsType (trees_of self.now) self_type t) → HasDepth Form.PlainPath self_type ctx.bound → ((p : tree.Path) × IsPath (trees_of self.now) implemented p) → HasDepth Form.PlainPath implemented ctx.bound
            → Shows self.now below (S.held parts.new) (codes "<" then type_parts ctx.detail ctx.bound (type_in (slice_get (trees_of self.now) self_type)) also codes " as " then path_parts ctx.detail ctx.bound false (path_in (slice_get (trees_of self.now) implemented)) also codes ">" then so_far) }
        ensures room { S.room parts.old ≤ S.room parts.new + 5 }
    {
        self.push_text(parts, texts::GREATER);
        self.push_path(parts, implemented, false, ctx);
        self.push_text(parts, texts::AS);
        self.push_item(parts, self_type, Form::Ty, 0, ctx);
        self.push_text(parts, texts::LESS);
    }

    /// Adds what precedes arguments.
    #[inline(always)]
    pub(crate) fn push_open_angle<S: PartList<Context>>(&self, parts: &mut S, value: bool)
        requires { 1 ≤ S.room parts.old }
        ensures shows { (below : Held Context) (so_far : Unshared) → Shows self.now below (S.held parts.old) so_far
            → Shows self.now below (S.held parts.new) ((if value then codes "::<" else codes "<") then so_far) }
        ensures room { S.room parts.old ≤ S.room parts.new + 1 }
    {
        if value {
            self.push_text(parts, texts::COLONS_LESS);
        } else {
            self.push_text(parts, texts::LESS);
        }
    }

    /// Adds arguments, unless the detail is brief.
    #[inline(always)]
    pub(crate) fn push_argument_list<S: PartList<Context>>(
        &self,
        parts: &mut S,
        arguments: u32,
        value: bool,
        ctx: Context,
    )
        requires room { 3 ≤ S.room parts.old }
        requires arguments { (a : tree.Arguments) × IsArguments (trees_of self.now) arguments a }
        ensures shows { (below : Held Context) (so_far : Unshared) → Shows self.now below (S.held parts.old) so_far → HasDepth Form.PlainPath arguments ctx.bound
            → Shows self.now below (S.held parts.new) (argument_list (has_arguments ctx.detail) value (arguments_from ctx.detail ctx.bound [] (arguments_in (slice_get (trees_of self.now) arguments))) so_far) }
        ensures room { S.room parts.old ≤ S.room parts.new + 3 }
    {
        if ctx.detail.has_arguments() {
            self.push_text(parts, texts::GREATER);
            self.push_arguments(parts, arguments, true, ctx);
            self.push_open_angle(parts, value);
        }
    }

    /// The parts of a path.
    #[inline(always)]
    pub(crate) fn fill_path<S: PartList<Context>>(
        &self,
        parts: &mut S,
        node: u32,
        value: bool,
        ctx: Context,
    )
        requires path { (p : tree.Path) × IsPath (trees_of self.now) node p }
        requires depth { HasDepth Form.PlainPath node ctx.bound }
        requires room { 8 ≤ S.room parts.old }
        ensures shows { Shows self.now (S.held parts.old) (S.held parts.new) (path_parts ctx.detail ctx.bound value (path_in (slice_get (trees_of self.now) node))) }
        ensures room { S.room parts.old ≤ S.room parts.new + 8 }
    {
        match *self.path(node) {
            Path::Crate { name, .. } => self.push_name(parts, name),
            Path::InherentImpl { self_type, .. } => {
                self.push_text(parts, texts::GREATER);
                self.push_item(parts, self_type, Form::Ty, 0, ctx);
                self.push_text(parts, texts::LESS);
            }
            Path::TraitImpl {
                self_type,
                implemented,
                ..
            } => self.push_as(parts, self_type, implemented, ctx),
            Path::TraitDefinition {
                self_type,
                implemented,
            } => self.push_as(parts, self_type, implemented, ctx),
            Path::Nested {
                namespace,
                parent,
                name,
                disambiguator,
            } => {
                self.push_nested(parts, namespace, name, disambiguator);
                self.push_path(parts, parent, value, ctx);
            }
            Path::Generic { parent, arguments } => {
                self.push_argument_list(parts, arguments, value, ctx);
                self.push_path(parts, parent, value, ctx);
            }
        }
    }

    /// Adds a suffix, if there is one.
    pub(crate) fn push_suffix<S: PartList<Context>>(&self, parts: &mut S, suffix: Span)
        requires { 3 ≤ S.room parts.old }
        ensures shows { (below : Held Context) (so_far : Unshared) → Shows self.now below (S.held parts.old) so_far → IsWithin suffix self.now.bytes
            → Shows self.now below (S.held parts.new) (suffix_parts (bytes_at self.now.bytes suffix) so_far) }
        ensures room { S.room parts.old ≤ S.room parts.new + 3 }
    {
        if suffix.from < suffix.to {
            self.push_text(parts, texts::RIGHT);
            self.push_bytes(parts, suffix);
            self.push_text(parts, texts::BLANK_LEFT);
        }
    }

    /// The parts of a whole symbol.
    pub(crate) fn fill_symbol<S: PartList<Context>>(&self, parts: &mut S, node: u32, ctx: Context)
        requires symbol { (w : tree.Symbol) × IsSymbol (trees_of self.now) node w }
        requires depth { HasDepth Form.PlainPath node ctx.bound }
        requires room { 8 ≤ S.room parts.old }
        ensures shows { Shows self.now (S.held parts.old) (S.held parts.new) (symbol_parts ctx.detail (symbol_in (slice_get (trees_of self.now) node))) }
        ensures room { S.room parts.old ≤ S.room parts.new + 8 }
    {
        let whole = self.whole(node);
        let top = Context {
            bound: 0,
            detail: ctx.detail,
        };
        self.push_suffix(parts, whole.suffix);
        self.push_path(parts, whole.path, true, top);
    }
}
