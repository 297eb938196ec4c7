// The parts of a bound.
#![tactic(auto)]

ghost use Rattle.std.specs.Prelude.{◌≡◌, ◌+◌, ◌≤◌, [], slice_get, codes, true, false};
ghost use Rattle.sym_print.specs.Held.{Held};
ghost use Rattle.sym_print.specs.Unshared.{Unshared};
ghost use Rattle.sym_print.specs.Building.{◌then◌, ◌also◌, ◌perhaps◌};
ghost use Rattle.rust_tree.specs.Symbol as tree;
ghost use Rattle.rust_tree.specs.Nodes.{IsPath, IsArguments, IsBounds, IsBindings, path_in, arguments_in, bounds_in, bindings_in};
ghost use Rattle.rust_tree.specs.Shown.{path_parts, arguments_from, bindings_from, bound_parts, behind_arguments};
ghost use Rattle.rust_tree.specs.Layout.{trees_of, HasDepth, Shows, any_bindings, bound_in};
ghost use Rattle.sym_print.specs.Details.{has_arguments};
ghost use Rattle.rust_tree.specs.declared.form.Form.{Form};

use crate::context::Context;
use crate::node::{Bounds, Path};
use crate::symbol::Symbol;
use crate::texts;
use sym_print::PartList;

impl Symbol {
    /// Adds arguments and a comma after them, if there are any.
    fn push_arguments_before<S: PartList<Context>>(
        &self,
        parts: &mut S,
        arguments: u32,
        ctx: Context,
    )
        requires room { 2 ≤ S.room parts.old }
        requires arguments { (a : tree.Arguments) × IsArguments (trees_of self.now) arguments a }
        ensures shows { (below : Held Context) (so_far : Unshared) → Shows self.now below (S.held parts.old) so_far → HasDepth Form.PlainPath arguments ctx.bound
            → Shows self.now below (S.held parts.new) (behind_arguments (arguments_from ctx.detail ctx.bound [] (arguments_in (slice_get (trees_of self.now) arguments))) so_far) }
        ensures room { S.room parts.old ≤ S.room parts.new + 2 }
    {
        if self.any_arguments(arguments) {
            self.push_text(parts, texts::COMMA);
            self.push_arguments(parts, arguments, true, ctx);
        }
    }

    /// Adds a path that isn't generic, and bindings after it.
    fn push_plain_bound<S: PartList<Context>>(
        &self,
        parts: &mut S,
        path: u32,
        bindings: u32,
        ctx: Context,
    )
        requires room { 4 ≤ S.room parts.old }
        requires bindings { (b : tree.Bindings) × IsBindings (trees_of self.now) bindings b }
        ensures shows { (below : Held Context) (so_far : Unshared) → Shows self.now below (S.held parts.old) so_far → ((p : tree.Path) × IsPath (trees_of self.now) path p) → HasDepth Form.PlainPath path ctx.bound → HasDepth Form.PlainPath bindings ctx.bound
            → Shows self.now below (S.held parts.new) (path_parts ctx.detail ctx.bound false (path_in (slice_get (trees_of self.now) path)) also codes "<" then bindings_from ctx.detail ctx.bound [] (bindings_in (slice_get (trees_of self.now) bindings)) perhaps codes ">" then so_far) }
        ensures room { S.room parts.old ≤ S.room parts.new + 4 }
    {
        self.push_text(parts, texts::GREATER);
        self.push_bindings(parts, bindings, true, ctx);
        self.push_text(parts, texts::LESS);
        self.push_path(parts, path, false, ctx);
    }

    /// The parts of a bound with bindings.
    fn fill_full_bound<S: PartList<Context>>(
        &self,
        parts: &mut S,
        path: u32,
        bindings: u32,
        ctx: Context,
    )
        requires path { (p : tree.Path) × IsPath (trees_of self.now) path p }
        requires bindings { (b : tree.Bindings) × IsBindings (trees_of self.now) bindings b }
        requires full { has_arguments ctx.detail ≡ true }
        requires any { any_bindings (bindings_in (slice_get (trees_of self.now) bindings)) ≡ true }
        requires depth { HasDepth Form.PlainPath path ctx.bound }
        requires depth_of_bindings { HasDepth Form.PlainPath bindings ctx.bound }
        requires room { 8 ≤ S.room parts.old }
        ensures shows { Shows self.now (S.held parts.old) (S.held parts.new) (bound_parts ctx.detail ctx.bound (path_in (slice_get (trees_of self.now) path)) (bindings_in (slice_get (trees_of self.now) bindings))) }
        ensures room { S.room parts.old ≤ S.room parts.new + 8 }
    {
        match *self.path(path) {
            Path::Generic { parent, arguments } => {
                self.push_text(parts, texts::GREATER);
                self.push_bindings(parts, bindings, true, ctx);
                self.push_arguments_before(parts, arguments, ctx);
                self.push_text(parts, texts::LESS);
                self.push_path(parts, parent, false, ctx);
            }
            Path::Crate { .. } => self.push_plain_bound(parts, path, bindings, ctx),
            Path::InherentImpl { .. } => self.push_plain_bound(parts, path, bindings, ctx),
            Path::TraitImpl { .. } => self.push_plain_bound(parts, path, bindings, ctx),
            Path::TraitDefinition { .. } => self.push_plain_bound(parts, path, bindings, ctx),
            Path::Nested { .. } => self.push_plain_bound(parts, path, bindings, ctx),
        }
    }

    /// The parts of a bound.
    pub(crate) fn fill_bound<S: PartList<Context>>(&self, parts: &mut S, node: u32, ctx: Context)
        requires bounds { (bs : tree.Bounds) × IsBounds (trees_of self.now) node bs }
        requires depth { HasDepth Form.PlainPath node ctx.bound }
        requires room { 8 ≤ S.room parts.old }
        ensures shows { Shows self.now (S.held parts.old) (S.held parts.new) (bound_in ctx (bounds_in (slice_get (trees_of self.now) node))) }
        ensures room { S.room parts.old ≤ S.room parts.new + 8 }
    {
        match self.bounds(node) {
            Bounds::None => {}
            Bounds::More { path, bindings, .. } => {
                if !ctx.detail.has_arguments() {
                    self.push_path(parts, path, false, ctx);
                } else if self.any_bindings(bindings) {
                    self.fill_full_bound(parts, path, bindings, ctx);
                } else {
                    self.push_path(parts, path, false, ctx);
                }
            }
        }
    }
}
