// Where runs of pointers end.
#![tactic(auto)]

ghost use Rattle.std.specs.Prelude.{◌≡◌, ◌<◌, ◌≤◌, ℕ, length, IfSome};
ghost use Rattle.cpp_term.specs.Term.{Term, pointer};
ghost use Rattle.cpp_tree.specs.Nodes.{IsTable, IsPlacedBelow, tree_under, trees};
ghost use Rattle.cpp_layout.specs.Layout.{table_of, unshared_of, bytes_of_part, MayBeAsked};
ghost use Rattle.cpp_layout.specs.Pointers.{pointers, constant_pointers, run_text, IsPointer};
ghost use Rattle.sym_print.specs.Runs.{IsRun};
ghost use Rattle.sym_print.specs.declared.layout.Part.{Part};

use crate::context::Context;
use crate::form;
use crate::symbol::Symbol;
use cpp_tree::node::Placed;
use sym_core::Span;
use sym_print::{Item, Part, Run};

/// The most pointers whose left parts are taken at once: the text of runs has that many stars.
const MOST_STARS: u32 = 512;

/// The most pointers to constant types whose left parts are taken at once.
const MOST_CONSTANT: u32 = 64;

/// Where the text of pointers to constant types begins in the text of runs. Each pointer's text has
/// seven bytes.
const CONSTANT_STARS: u32 = 512;

/// The text that each run's text is a slice of: stars, and then what pointers to constant types
/// print.
#[tactic(auto, unfolding(crate::specs::Pointers::run_text))]
#[inline(always)]
pub(crate) fn run_text() -> &'static [u8]
    ensures { result.now ≡ run_text }
{
    b"******************************************************************************************************************************************************************************************************************************************************************************************************************************************************************************************************************************************************************************************************************************** const* const* const* const* const* const* const* const* const* const* const* const* const* const* const* const* const* const* const* const* const* const* const* const* const* const* const* const* const* const* const* const* const* const* const* const* const* const* const* const* const* const* const* const* const* const* const* const* const* const* const* const* const* const* const* const* const* const* const* const* const* const* const* const*"
}

/// A pointer, and how many pointers are around it.
#[derive(Clone, Copy)]
struct Pointers {
    levels: u32,
    inner: Placed,
}

impl Symbol {
    /// The innermost of nested pointers whose outermost is `ty`, and how many pointers are around
    /// it: at most `most`, and none if `ty` is no pointer to a pointer.
    // <type> ::= P <type>
    fn pointers(&self, ty: Placed, most: u32) -> Pointers
        requires table { IsTable (table_of self.now) }
        requires ty { IsPlacedBelow (length self.now.table.nodes) ty }
        ensures tree { tree_under (trees (table_of self.now)) ty ≡ pointers result.levels (tree_under (trees (table_of self.now)) result.inner) }
        ensures below { IsPlacedBelow (length self.now.table.nodes) result.inner }
        ensures pointer { 0 < result.levels → IsPointer (tree_under (trees (table_of self.now)) result.inner) }
        ensures few { result.levels ≤ most }
    {
        let mut inner = ty;
        let mut levels = 0;
        let Some(mut to) = self.pointed(ty) else {
            return Pointers { levels, inner };
        };
        'levels: while levels < most {
            let Some(further) = self.pointed(to) else {
                return Pointers { levels, inner };
            };
            inner = to;
            to = further;
            levels += 1;
        }
        Pointers { levels, inner }
    }

    /// Likewise for pointers to constant pointers. Each pointer is counted together with its const.
    // <type> ::= P <type>
    // <type> ::= <CV-qualifiers> <type>
    fn constant_pointers(&self, ty: Placed, most: u32) -> Pointers
        requires table { IsTable (table_of self.now) }
        requires ty { IsPlacedBelow (length self.now.table.nodes) ty }
        ensures tree { tree_under (trees (table_of self.now)) ty ≡ constant_pointers result.levels (tree_under (trees (table_of self.now)) result.inner) }
        ensures below { IsPlacedBelow (length self.now.table.nodes) result.inner }
        ensures pointer { 0 < result.levels → IsPointer (tree_under (trees (table_of self.now)) result.inner) }
        ensures few { result.levels ≤ most }
    {
        let mut inner = ty;
        let mut levels = 0;
        let Some(mut to) = self.pointed(ty) else {
            return Pointers { levels, inner };
        };
        'levels: while levels < most {
            let Some(constant) = self.constant(to) else {
                return Pointers { levels, inner };
            };
            let Some(further) = self.pointed(constant) else {
                return Pointers { levels, inner };
            };
            inner = constant;
            to = further;
            levels += 1;
        }
        Pointers { levels, inner }
    }

    /// Whether a run of pointers that begins at an item has four items or more, or is of pointers to constant pointers.
    #[inline(always)]
    pub(crate) fn is_long_run(&self, item: Item<Context>) -> bool
        requires may_come { MayBeAsked self.now (Part.Sub item) }
    {
        if item.form > form::RIGHT {
            return false;
        }
        let ty = type_in(item);
        match self.pointed(ty) {
            Some(to) => match self.pointed(to) {
                Some(further) => self.pointers(further, 2).levels == 2,
                None => self.constant_pointers(ty, 2).levels == 2,
            },
            None => false,
        }
    }

    /// Where the run of pointers that begins at an item ends.
    pub(crate) fn run_of(&self, item: Item<Context>) -> Option<Run<Context>>
        requires may_come { MayBeAsked self.now (Part.Sub item) }
        ensures run { IfSome result (λ run. IsRun (unshared_of self.now) (bytes_of_part self.now) (MayBeAsked self.now) item run) }
    {
        match item.form {
            form::LEFT => self.run_left(item),
            form::RIGHT => self.run_right(item),
            _ => None,
        }
    }

    /// Where a run of left parts ends: each pointer prints a star after what it points to.
    #[inline(always)]
    fn run_left(&self, item: Item<Context>) -> Option<Run<Context>>
        requires may_come { MayBeAsked self.now (Part.Sub item) }
        requires form { item.form ≡ 0 }
        ensures run { IfSome result (λ run. IsRun (unshared_of self.now) (bytes_of_part self.now) (MayBeAsked self.now) item run) }
    {
        let run = self.pointers(type_in(item), MOST_STARS);
        if run.levels == 0 {
            return self.run_constant(item);
        }
        Some(Run {
            item: item_at(item, run.inner),
            levels: run.levels,
            text: Some(Part::List(Span {
                from: 0,
                to: run.levels,
            })),
        })
    }

    /// Where a run of left parts of pointers to constant pointers ends.
    #[inline(always)]
    fn run_constant(&self, item: Item<Context>) -> Option<Run<Context>>
        requires may_come { MayBeAsked self.now (Part.Sub item) }
        requires form { item.form ≡ 0 }
        ensures run { IfSome result (λ run. IsRun (unshared_of self.now) (bytes_of_part self.now) (MayBeAsked self.now) item run) }
    {
        let run = self.constant_pointers(type_in(item), MOST_CONSTANT);
        if run.levels == 0 {
            return None;
        }
        Some(Run {
            item: item_at(item, run.inner),
            levels: 2 * run.levels,
            text: Some(Part::List(Span {
                from: CONSTANT_STARS,
                to: CONSTANT_STARS + 7 * run.levels,
            })),
        })
    }

    /// Where a run of right parts ends: pointers print nothing there, and neither does const.
    #[inline(always)]
    fn run_right(&self, item: Item<Context>) -> Option<Run<Context>>
        requires may_come { MayBeAsked self.now (Part.Sub item) }
        requires form { item.form ≡ 1 }
        ensures run { IfSome result (λ run. IsRun (unshared_of self.now) (bytes_of_part self.now) (MayBeAsked self.now) item run) }
    {
        let run = self.pointers(type_in(item), u32::MAX);
        if run.levels == 0 {
            return self.run_constant_right(item);
        }
        Some(Run {
            item: item_at(item, run.inner),
            levels: run.levels,
            text: None,
        })
    }

    /// Where a run of right parts of pointers to constant pointers ends.
    #[inline(always)]
    fn run_constant_right(&self, item: Item<Context>) -> Option<Run<Context>>
        requires may_come { MayBeAsked self.now (Part.Sub item) }
        requires form { item.form ≡ 1 }
        ensures run { IfSome result (λ run. IsRun (unshared_of self.now) (bytes_of_part self.now) (MayBeAsked self.now) item run) }
    {
        let run = self.constant_pointers(type_in(item), u32::MAX / 2);
        if run.levels == 0 {
            return None;
        }
        Some(Run {
            item: item_at(item, run.inner),
            levels: 2 * run.levels,
            text: None,
        })
    }
}

/// The type that an item shows, under the item's argument.
#[inline(always)]
fn type_in(item: Item<Context>) -> Placed
    ensures { result ≡ record { node = item.node; under = item.ctx.argument } }
{
    Placed {
        node: item.node,
        under: item.ctx.argument,
    }
}

/// An item with its type replaced.
#[inline(always)]
fn item_at(item: Item<Context>, ty: Placed) -> Item<Context>
    ensures { result ≡ record { node = ty.node; form = item.form; at = 0; ctx = record { index = item.ctx.index; detail = item.ctx.detail; argument = ty.under } } }
{
    Item {
        node: ty.node,
        form: item.form,
        at: 0,
        ctx: Context {
            argument: ty.under,
            ..item.ctx
        },
    }
}
