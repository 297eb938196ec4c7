// The stretches of a symbol's text.
#![tactic(auto)]

ghost use Rattle.std.specs.Prelude.{◌≡◌, ◌+◌, ◌*◌, ◌-◌, ◌<◌, ◌≤◌, ◌^◌, ◌++◌, ◌⊎◌, Err, IfErr, IfOk, OnOk, length};
ghost use Rattle.std.specs.List.{All};
ghost use Rattle.sym_core.specs.declared.refusal.Refusal.{Refusal};
ghost use Rattle.sym_print.specs.declared.detail.Detail.{Detail};
ghost use Rattle.sym_print.specs.Unshared.{cost_of, steps_of_parts};
ghost use Rattle.sym_parts.specs.Marked.{stretches_of};
ghost use Rattle.rust_tree.specs.Layout.{shown_symbol, unshared_of};
ghost use Rattle.sym_parts.specs.Marks.{skipped};
ghost use Rattle.sym_parts.specs.Tasks.{IsTask, Lists, marks_of_task, marks_of_tasks, weight_of_task, weight_of_tasks};
ghost use Rattle.rust_parts.specs.Roles.{elements, name, scope, symbol_marked, whole_of};
ghost use Rattle.rust_parts.specs.Sorts.{path_at};
ghost use Rattle.rust_parts.specs.Tasks.{Grows, IsApart, IsPayable, marked_of, weight_of};

use crate::apart::Apart;
use crate::arguments::push_elements;
use crate::paths::{push_name, push_scope, push_symbol};
use crate::sorts::path_sort;
use rust_tree::{Context, Detail, Symbol};
use std::alloc::Global;
use sym_core::Refusal;
use sym_parts::{Stretch, Stretches, Task, Tasks, length_of_part};
use sym_print::{Item, Layout};

/// Takes apart the path of a name.
///
/// # Errors
///
/// `Memory`.
fn take_name(
    y: &Symbol,
    tasks: &mut Tasks<Apart>,
    lists: u32,
    node: u32,
    item: Item<Context>,
    most: u32,
) -> Result<(), Refusal>
    requires node { node < length y.now.table.nodes }
    requires item { IsPayable y.now most item }
    requires lists { lists + cost_of (unshared_of y.now item) ≤ most }
    ensures grows { OnOk result (Grows y.now most tasks.old tasks.new (name lists (path_at y.now node) (unshared_of y.now item)) (4 * steps_of_parts (unshared_of y.now item) + 3)) }
    ensures refusals { IfErr result (λ refusal. refusal ≡ Refusal.Memory) }
{
    let parts = y.parts(item);
    let sort = path_sort(y, node);
    push_name(y, tasks, lists, sort, &parts, most)
}

/// Takes apart the path that a name is in.
///
/// # Errors
///
/// `Memory`.
fn take_scope(
    y: &Symbol,
    tasks: &mut Tasks<Apart>,
    lists: u32,
    node: u32,
    item: Item<Context>,
    most: u32,
) -> Result<(), Refusal>
    requires node { node < length y.now.table.nodes }
    requires item { IsPayable y.now most item }
    requires lists { lists + cost_of (unshared_of y.now item) ≤ most }
    ensures grows { OnOk result (Grows y.now most tasks.old tasks.new (scope lists (path_at y.now node) (unshared_of y.now item)) (4 * steps_of_parts (unshared_of y.now item) + 3)) }
    ensures refusals { IfErr result (λ refusal. refusal ≡ Refusal.Memory) }
{
    let parts = y.parts(item);
    let sort = path_sort(y, node);
    push_scope(y, tasks, lists, sort, &parts, most)
}

/// Takes apart the arguments of a list from this number on.
///
/// # Errors
///
/// `Memory`.
fn take_elements(
    y: &Symbol,
    tasks: &mut Tasks<Apart>,
    list: u32,
    number: u32,
    item: Item<Context>,
    most: u32,
) -> Result<(), Refusal>
    requires number { number + cost_of (unshared_of y.now item) ≤ most }
    requires item { IsPayable y.now most item }
    ensures grows { OnOk result (Grows y.now most tasks.old tasks.new (elements list number (unshared_of y.now item)) (4 * steps_of_parts (unshared_of y.now item) + 3)) }
    ensures refusals { IfErr result (λ refusal. refusal ≡ Refusal.Memory) }
{
    let parts = y.parts(item);
    push_elements(y, tasks, list, number, &parts, most)
}

/// Takes apart what was left for later.
///
/// # Errors
///
/// `Memory`.
fn take_apart(y: &Symbol, tasks: &mut Tasks<Apart>, next: Apart, most: u32) -> Result<(), Refusal>
    requires { IsApart y.now most next }
    ensures grows { OnOk result (Grows y.now most tasks.old tasks.new (marked_of y.now next) (weight_of y.now next - 1)) }
    ensures refusals { IfErr result (λ refusal. refusal ≡ Refusal.Memory) }
{
    match next {
        Apart::Name(lists, node, item) => take_name(y, tasks, lists, node, item, most),
        Apart::Scope(lists, node, item) => take_scope(y, tasks, lists, node, item, most),
        Apart::Elements(list, number, item) => take_elements(y, tasks, list, number, item, most),
    }
}

/// Does one task.
///
/// # Errors
///
/// `Memory`.
fn take(
    y: &Symbol,
    tasks: &mut Tasks<Apart>,
    found: &mut Stretches,
    task: Task<Apart>,
    most: u32,
) -> Result<(), Refusal>
    requires task { IsTask (IsApart y.now most) task }
    requires tasks { All (IsTask (IsApart y.now most)) tasks.old }
    requires fits { found.old.place + skipped (marks_of_task (marked_of y.now) task) < 2 ^ 32 }
    ensures tasks { OnOk result (All (IsTask (IsApart y.now most)) tasks.new) }
    ensures lists { OnOk result (Lists found.old found.new (marks_of_task (marked_of y.now) task ++ marks_of_tasks (marked_of y.now) tasks.old) (marks_of_tasks (marked_of y.now) tasks.new)) }
    ensures weight { OnOk result (weight_of_tasks (weight_of y.now) tasks.new < weight_of_task (weight_of y.now) task + weight_of_tasks (weight_of y.now) tasks.old) }
    ensures refusals { IfErr result (λ refusal. refusal ≡ Refusal.Memory) }
{
    match task {
        Task::Skip(length) => {
            found.skip(length);
            Ok(())
        }
        Task::Begin(role, ordinal, length) => found.begin(role, ordinal, length),
        Task::Later(next) => take_apart(y, tasks, next, most),
    }
}

/// The stretches of a symbol's text in a detail, if the text costs at most the limit.
///
/// # Errors
///
/// `TooLong` exactly where the text costs more, `Memory` where a list couldn't grow.
pub fn stretches_as(
    alloc: Global,
    y: &Symbol,
    limit: u32,
    detail: Detail,
) -> Result<Vec<Stretch>, Refusal>
    ensures stretches { IfOk result (λ found. found.items ≡ stretches_of (symbol_marked (whole_of y.now) (shown_symbol detail y.now))) }
    ensures within { OnOk result (cost_of (shown_symbol detail y.now) ≤ limit) }
    ensures refusals { IfErr result (λ r. (r ≡ Refusal.TooLong) ⊎ (r ≡ Refusal.Memory)) }
    ensures too_long { result ≡ Err Refusal.TooLong → limit < cost_of (shown_symbol detail y.now) }
{
    let root = y.root_as(detail);
    length_of_part(alloc, y, &sym_print::Part::Sub(root), limit)?;
    let mut tasks = Tasks::new(alloc);
    let mut found = Stretches::new(alloc);
    push_symbol(y, &mut tasks, &y.parts(root), limit)?;
    'tasks: while let Some(task) = tasks.pop() {
        take(y, &mut tasks, &mut found, task, limit)?;
    }
    Ok(found.into_list())
}

/// The stretches of a symbol's text in full, if the text costs at most the limit.
///
/// # Errors
///
/// `TooLong` exactly where the text costs more, `Memory` where a list couldn't grow.
pub fn stretches(alloc: Global, y: &Symbol, limit: u32) -> Result<Vec<Stretch>, Refusal>
    ensures stretches { IfOk result (λ found. found.items ≡ stretches_of (symbol_marked (whole_of y.now) (shown_symbol Detail.Full y.now))) }
    ensures within { OnOk result (cost_of (shown_symbol Detail.Full y.now) ≤ limit) }
    ensures refusals { IfErr result (λ r. (r ≡ Refusal.TooLong) ⊎ (r ≡ Refusal.Memory)) }
    ensures too_long { result ≡ Err Refusal.TooLong → limit < cost_of (shown_symbol Detail.Full y.now) }
{
    stretches_as(alloc, y, limit, Detail::Full)
}
