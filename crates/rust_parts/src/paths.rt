// Tasks for paths, and for a whole symbol.
#![tactic(auto)]

ghost use Rattle.std.specs.Prelude.{◌≡◌, ◌+◌, ◌*◌, ◌<◌, ◌≤◌, length, OnOk, IfErr};
ghost use Rattle.sym_core.specs.declared.refusal.Refusal.{Refusal};
ghost use Rattle.sym_print.specs.Joined.{IsText};
ghost use Rattle.sym_print.specs.Unshared.{bytes, cost_of, cost_of_parts, item, steps_of, steps_of_parts};
ghost use Rattle.rust_tree.specs.Layout.{MayCome, bytes_of_part, unshared_of};
ghost use Rattle.sym_parts.specs.Plain.{suffixed};
ghost use Rattle.rust_parts.specs.Roles.{implementation, of_trait, of_type, scope, scoped, symbol_marked, whole_of};
ghost use Rattle.rust_parts.specs.Sorts.{IsBelow, name_by, path_at, scope_by};
ghost use Rattle.rust_parts.specs.declared.sorts.PathSort.{PathSort};
ghost use Rattle.rust_parts.specs.Tasks.{ArePayable, Grows, IsPayable, printed_by};

use crate::apart::Apart;
use crate::arguments::{push_after, push_arguments};
use crate::sorts::{PathSort, root_path};
use rust_tree::{Context, Symbol};
use sym_core::Refusal;
use sym_parts::{
    ONLY, Role, Split, Task, Tasks, first_of, length_of, length_of_all, push_alone, push_plain,
    push_whole,
};
use sym_print::{Item, Part};

/// The trait that is implemented, if there is one.
///
/// # Errors
///
/// `Memory`.
fn push_of_trait(
    y: &Symbol,
    tasks: &mut Tasks<Apart>,
    parts: &[Part<Context>],
    most: u32,
) -> Result<(), Refusal>
    requires { ArePayable y.now most parts.now }
    ensures grows { OnOk result (Grows y.now most tasks.old tasks.new (of_trait (printed_by y.now parts.now)) 4) }
    ensures refusals { IfErr result (λ refusal. refusal ≡ Refusal.Memory) }
{
    match first_of(y, parts, most) {
        Split::Nothing => push_plain(y, tasks, parts, most),
        Split::Item(_, _) => push_plain(y, tasks, parts, most),
        Split::Text(between, rest) => match first_of(y, rest, most) {
            Split::Nothing => push_plain(y, tasks, parts, most),
            Split::Text(_, _) => push_plain(y, tasks, parts, most),
            Split::Item(implemented, others) => {
                push_plain(y, tasks, others, most)?;
                push_after(y, tasks, between, Role::Trait, ONLY, implemented, most)
            }
        },
    }
}

/// The self type of an implementation, and its trait.
///
/// # Errors
///
/// `Memory`.
fn push_of_type(
    y: &Symbol,
    tasks: &mut Tasks<Apart>,
    parts: &[Part<Context>],
    most: u32,
) -> Result<(), Refusal>
    requires { ArePayable y.now most parts.now }
    ensures grows { OnOk result (Grows y.now most tasks.old tasks.new (of_type (printed_by y.now parts.now)) (4 * steps_of_parts (printed_by y.now parts.now) + 1)) }
    ensures refusals { IfErr result (λ refusal. refusal ≡ Refusal.Memory) }
{
    match first_of(y, parts, most) {
        Split::Nothing => push_plain(y, tasks, parts, most),
        Split::Item(_, _) => push_plain(y, tasks, parts, most),
        Split::Text(opening, rest) => match first_of(y, rest, most) {
            Split::Nothing => push_plain(y, tasks, parts, most),
            Split::Text(_, _) => push_plain(y, tasks, parts, most),
            Split::Item(self_type, others) => {
                push_of_trait(y, tasks, others, most)?;
                push_after(y, tasks, opening, Role::SelfType, ONLY, self_type, most)
            }
        },
    }
}

/// An implementation.
///
/// # Errors
///
/// `Memory`.
fn push_implementation(
    y: &Symbol,
    tasks: &mut Tasks<Apart>,
    parts: &[Part<Context>],
    most: u32,
) -> Result<(), Refusal>
    requires { ArePayable y.now most parts.now }
    ensures grows { OnOk result (Grows y.now most tasks.old tasks.new (implementation (printed_by y.now parts.now)) (4 * steps_of_parts (printed_by y.now parts.now) + 3)) }
    ensures refusals { IfErr result (λ refusal. refusal ≡ Refusal.Memory) }
{
    let length = length_of_all(y, tasks.allocator(), parts, most)?;
    push_of_type(y, tasks, parts, most)?;
    tasks.push(Task::Begin(Role::Impl, ONLY, length))
}

/// The path that a name is in, before this many lists of arguments, by its sort.
///
/// # Errors
///
/// `Memory`.
pub(crate) fn push_scope(
    y: &Symbol,
    tasks: &mut Tasks<Apart>,
    lists: u32,
    sort: PathSort,
    parts: &[Part<Context>],
    most: u32,
) -> Result<(), Refusal>
    requires below { IsBelow (length y.now.table.nodes) sort }
    requires lists { lists + cost_of_parts (printed_by y.now parts.now) < most }
    requires paid { ArePayable y.now most parts.now }
    ensures grows { OnOk result (Grows y.now most tasks.old tasks.new (scope_by y.now lists sort (printed_by y.now parts.now)) (4 * steps_of_parts (printed_by y.now parts.now) + 3)) }
    ensures refusals { IfErr result (λ refusal. refusal ≡ Refusal.Memory) }
{
    match sort {
        PathSort::Crate => push_whole(y, tasks, Role::Crate, ONLY, parts, most),
        PathSort::Implementation => push_implementation(y, tasks, parts, most),
        PathSort::Nested(parent) => match first_of(y, parts, most) {
            Split::Nothing => push_implementation(y, tasks, parts, most),
            Split::Text(_, _) => push_implementation(y, tasks, parts, most),
            Split::Item(inner, rest) => {
                push_plain(y, tasks, rest, most)?;
                tasks.push(Task::Later(Apart::Scope(lists, parent, *inner)))
            }
        },
        PathSort::Generic(parent) => match first_of(y, parts, most) {
            Split::Nothing => push_implementation(y, tasks, parts, most),
            Split::Text(_, _) => push_implementation(y, tasks, parts, most),
            Split::Item(inner, rest) => {
                push_arguments(y, tasks, lists, rest, most)?;
                tasks.push(Task::Later(Apart::Scope(lists + 1, parent, *inner)))
            }
        },
    }
}

/// A scope, two colons and a base.
///
/// # Errors
///
/// `Memory`.
fn push_scoped(
    y: &Symbol,
    tasks: &mut Tasks<Apart>,
    lists: u32,
    parent: u32,
    inner: Item<Context>,
    colons: &Part<Context>,
    parts: &[Part<Context>],
    most: u32,
) -> Result<(), Refusal>
    requires parent { parent < length y.now.table.nodes }
    requires inner { IsPayable y.now most inner }
    requires lists { lists + cost_of (unshared_of y.now inner) ≤ most }
    requires colons { MayCome y.now colons.now }
    requires is_text { IsText colons.now }
    requires fits { length (bytes_of_part y.now colons.now) + cost_of_parts (printed_by y.now parts.now) ≤ most }
    requires paid { ArePayable y.now most parts.now }
    ensures grows { OnOk result (Grows y.now most tasks.old tasks.new (scoped (scope lists (path_at y.now parent) (unshared_of y.now inner)) (bytes_of_part y.now colons.now) (printed_by y.now parts.now)) (4 * steps_of (unshared_of y.now inner) + 5)) }
    ensures refusals { IfErr result (λ refusal. refusal ≡ Refusal.Memory) }
{
    let outer = length_of(y, tasks.allocator(), &Part::Sub(inner), most)?;
    let between = length_of(y, tasks.allocator(), colons, most)?;
    let length = length_of_all(y, tasks.allocator(), parts, most)?;
    let front = between.min(2);
    tasks.push(Task::Skip(length))?;
    tasks.push(Task::Skip(between - front))?;
    tasks.push(Task::Begin(Role::Base, ONLY, between - front + length))?;
    tasks.push(Task::Skip(front))?;
    tasks.push(Task::Later(Apart::Scope(lists, parent, inner)))?;
    tasks.push(Task::Begin(Role::Scope, ONLY, outer))
}

/// A name after its parent, by the item of its parent and what follows the parent.
///
/// # Errors
///
/// `Memory`.
fn push_nested(
    y: &Symbol,
    tasks: &mut Tasks<Apart>,
    lists: u32,
    parent: u32,
    inner: Item<Context>,
    rest: &[Part<Context>],
    most: u32,
) -> Result<(), Refusal>
    requires parent { parent < length y.now.table.nodes }
    requires inner { IsPayable y.now most inner }
    requires lists { lists + cost_of (unshared_of y.now inner) ≤ most }
    requires rest { ArePayable y.now most rest.now }
    ensures grows { OnOk result (Grows y.now most tasks.old tasks.new (name_by y.now lists (PathSort.Nested parent) (item (unshared_of y.now inner) (printed_by y.now rest.now))) (4 * (steps_of (unshared_of y.now inner) + steps_of_parts (printed_by y.now rest.now)) + 3)) }
    ensures refusals { IfErr result (λ refusal. refusal ≡ Refusal.Memory) }
{
    match first_of(y, rest, most) {
        Split::Text(colons, others) => push_scoped(
            y, tasks, lists, parent, inner, colons, others, most,
        ),
        Split::Nothing => {
            push_plain(y, tasks, rest, most)?;
            tasks.push(Task::Later(Apart::Name(lists, parent, inner)))
        }
        Split::Item(_, _) => {
            push_plain(y, tasks, rest, most)?;
            tasks.push(Task::Later(Apart::Name(lists, parent, inner)))
        }
    }
}

/// The path of a name, before this many lists of arguments, by its sort.
///
/// # Errors
///
/// `Memory`.
pub(crate) fn push_name(
    y: &Symbol,
    tasks: &mut Tasks<Apart>,
    lists: u32,
    sort: PathSort,
    parts: &[Part<Context>],
    most: u32,
) -> Result<(), Refusal>
    requires below { IsBelow (length y.now.table.nodes) sort }
    requires lists { lists + cost_of_parts (printed_by y.now parts.now) < most }
    requires paid { ArePayable y.now most parts.now }
    ensures grows { OnOk result (Grows y.now most tasks.old tasks.new (name_by y.now lists sort (printed_by y.now parts.now)) (4 * steps_of_parts (printed_by y.now parts.now) + 3)) }
    ensures refusals { IfErr result (λ refusal. refusal ≡ Refusal.Memory) }
{
    match sort {
        PathSort::Crate => push_scope(y, tasks, lists, sort, parts, most),
        PathSort::Implementation => push_scope(y, tasks, lists, sort, parts, most),
        PathSort::Nested(parent) => match first_of(y, parts, most) {
            Split::Nothing => push_scope(y, tasks, lists, sort, parts, most),
            Split::Text(_, _) => push_scope(y, tasks, lists, sort, parts, most),
            Split::Item(inner, rest) => push_nested(y, tasks, lists, parent, *inner, rest, most),
        },
        PathSort::Generic(parent) => match first_of(y, parts, most) {
            Split::Nothing => push_scope(y, tasks, lists, sort, parts, most),
            Split::Text(_, _) => push_scope(y, tasks, lists, sort, parts, most),
            Split::Item(inner, rest) => {
                push_arguments(y, tasks, lists, rest, most)?;
                tasks.push(Task::Later(Apart::Name(lists + 1, parent, *inner)))
            }
        },
    }
}

/// The suffix, which has parentheses around it, if there is one.
///
/// # Errors
///
/// `Memory`.
fn push_suffixed(
    y: &Symbol,
    tasks: &mut Tasks<Apart>,
    parts: &[Part<Context>],
    most: u32,
) -> Result<(), Refusal>
    requires { ArePayable y.now most parts.now }
    ensures grows { OnOk result (Grows y.now most tasks.old tasks.new (suffixed (printed_by y.now parts.now)) 4) }
    ensures refusals { IfErr result (λ refusal. refusal ≡ Refusal.Memory) }
{
    match first_of(y, parts, most) {
        Split::Nothing => push_plain(y, tasks, parts, most),
        Split::Item(_, _) => push_plain(y, tasks, parts, most),
        Split::Text(opening, rest) => match first_of(y, rest, most) {
            Split::Nothing => push_plain(y, tasks, parts, most),
            Split::Item(_, _) => push_plain(y, tasks, parts, most),
            Split::Text(suffix, others) => {
                let front = length_of(y, tasks.allocator(), opening, most)?;
                let length = length_of(y, tasks.allocator(), suffix, most)?;
                push_plain(y, tasks, others, most)?;
                push_alone(tasks, Role::Suffix, ONLY, length)?;
                tasks.push(Task::Skip(front))
            }
        },
    }
}

/// A whole symbol.
///
/// # Errors
///
/// `Memory`.
pub(crate) fn push_symbol(
    y: &Symbol,
    tasks: &mut Tasks<Apart>,
    parts: &[Part<Context>],
    most: u32,
) -> Result<(), Refusal>
    requires { ArePayable y.now most parts.now }
    ensures grows { OnOk result (Grows y.now most tasks.old tasks.new (symbol_marked (whole_of y.now) (printed_by y.now parts.now)) (4 * steps_of_parts (printed_by y.now parts.now) + 4)) }
    ensures refusals { IfErr result (λ refusal. refusal ≡ Refusal.Memory) }
{
    match first_of(y, parts, most) {
        Split::Nothing => push_plain(y, tasks, parts, most),
        Split::Text(_, _) => push_plain(y, tasks, parts, most),
        Split::Item(inner, rest) => {
            push_suffixed(y, tasks, rest, most)?;
            tasks.push(Task::Later(Apart::Name(0, root_path(y), *inner)))
        }
    }
}
