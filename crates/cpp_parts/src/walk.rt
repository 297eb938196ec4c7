// The stretches of a symbol's text.
#![tactic(auto)]

ghost use Rattle.std.specs.Prelude.{◌≡◌, ◌+◌, ◌<◌, ◌≤◌, ◌^◌, ◌++◌, ◌⊎◌, Err, IfErr, IfOk, OnOk, length};
ghost use Rattle.std.specs.List.{All};
ghost use Rattle.sym_core.specs.declared.refusal.Refusal.{Refusal};
ghost use Rattle.sym_print.specs.declared.detail.Detail.{Detail};
ghost use Rattle.sym_print.specs.Unshared.{cost_of};
ghost use Rattle.sym_parts.specs.Marked.{stretches_of};
ghost use Rattle.cpp_layout.specs.Layout.{whole_of, shown_symbol, unshared_of};
ghost use Rattle.sym_parts.specs.Marks.{skipped};
ghost use Rattle.cpp_parts.specs.Roles.{symbol_marked};
ghost use Rattle.cpp_parts.specs.declared.task.Task.{Task};
ghost use Rattle.cpp_parts.specs.Tasks.{count_of, IsTask, IsPayable, Lists, marks_of_task, marks_of_tasks, weight_of_task, weight_of_tasks};

use crate::encodings::{push_encoding, push_symbol};
use crate::lists::push_elements;
use crate::names::push_name;
use crate::numbering::Numbering;
use crate::task::{Task, Tasks};
use cpp_layout::{Context, Detail, Symbol};
use std::alloc::Global;
use sym_core::Refusal;
use sym_parts::{Role, Stretch, Stretches, length_of_part};
use sym_print::{Item, Layout};

/// Lists the parts of an encoding.
///
/// # Errors
///
/// `Memory`.
fn take_encoding(
    y: &Symbol,
    tasks: &mut Tasks,
    specials: u32,
    node: u32,
    item: Item<Context>,
    most: u32,
) -> Result<(), Refusal>
    requires node { node < length y.now.table.nodes }
    requires item { IsPayable y.now most item }
    requires specials { specials + cost_of (unshared_of y.now item) ≤ most }
    ensures marks { OnOk result (marks_of_tasks y.now tasks.new ≡ marks_of_task y.now (Task.Encoding specials node item) ++ marks_of_tasks y.now tasks.old) }
    ensures tasks { OnOk result (All (IsTask y.now most) tasks.old → All (IsTask y.now most) tasks.new) }
    ensures weight { OnOk result (weight_of_tasks y.now tasks.new < weight_of_task y.now (Task.Encoding specials node item) + weight_of_tasks y.now tasks.old) }
    ensures refusals { IfErr result (λ refusal. refusal ≡ Refusal.Memory) }
{
    let parts = y.parts(item);
    push_encoding(y, tasks, specials, node, &parts, most)
}

/// Lists the parts of a name.
///
/// # Errors
///
/// `Memory`.
fn take_name(
    y: &Symbol,
    tasks: &mut Tasks,
    tags: u32,
    node: u32,
    item: Item<Context>,
    most: u32,
) -> Result<(), Refusal>
    requires node { node < length y.now.table.nodes }
    requires item { IsPayable y.now most item }
    requires tags { tags + cost_of (unshared_of y.now item) ≤ most }
    ensures marks { OnOk result (marks_of_tasks y.now tasks.new ≡ marks_of_task y.now (Task.Name tags node item) ++ marks_of_tasks y.now tasks.old) }
    ensures tasks { OnOk result (All (IsTask y.now most) tasks.old → All (IsTask y.now most) tasks.new) }
    ensures weight { OnOk result (weight_of_tasks y.now tasks.new < weight_of_task y.now (Task.Name tags node item) + weight_of_tasks y.now tasks.old) }
    ensures refusals { IfErr result (λ refusal. refusal ≡ Refusal.Memory) }
{
    let parts = y.parts(item);
    push_name(y, tasks, tags, node, &parts, most)
}

/// Lists the elements of a list.
///
/// # Errors
///
/// `Memory`.
fn take_elements(
    y: &Symbol,
    tasks: &mut Tasks,
    role: Role,
    numbering: Numbering,
    node: u32,
    item: Item<Context>,
    most: u32,
) -> Result<(), Refusal>
    requires node { node < length y.now.table.nodes }
    requires item { IsPayable y.now most item }
    requires numbers { count_of numbering + cost_of (unshared_of y.now item) ≤ most }
    ensures marks { OnOk result (marks_of_tasks y.now tasks.new ≡ marks_of_task y.now (Task.Elements role numbering node item) ++ marks_of_tasks y.now tasks.old) }
    ensures tasks { OnOk result (All (IsTask y.now most) tasks.old → All (IsTask y.now most) tasks.new) }
    ensures weight { OnOk result (weight_of_tasks y.now tasks.new < weight_of_task y.now (Task.Elements role numbering node item) + weight_of_tasks y.now tasks.old) }
    ensures refusals { IfErr result (λ refusal. refusal ≡ Refusal.Memory) }
{
    let parts = y.parts(item);
    push_elements(y, tasks, role, numbering, node, &parts, most)
}

/// Does one task.
fn take(
    y: &Symbol,
    tasks: &mut Tasks,
    found: &mut Stretches,
    task: Task,
    most: u32,
) -> Result<(), Refusal>
    requires task { IsTask y.now most task }
    requires tasks { All (IsTask y.now most) tasks.old }
    requires fits { found.old.place + skipped (marks_of_task y.now task) < 2 ^ 32 }
    ensures tasks { OnOk result (All (IsTask y.now most) tasks.new) }
    ensures lists { OnOk result (Lists found.old found.new (marks_of_task y.now task ++ marks_of_tasks y.now tasks.old) (marks_of_tasks y.now tasks.new)) }
    ensures weight { OnOk result (weight_of_tasks y.now tasks.new < weight_of_task y.now task + weight_of_tasks y.now tasks.old) }
    ensures refusals { IfErr result (λ refusal. refusal ≡ Refusal.Memory) }
{
    match task {
        Task::Skip(length) => {
            found.skip(length);
            Ok(())
        }
        Task::Begin(role, ordinal, length) => found.begin(role, ordinal, length),
        Task::Encoding(specials, node, item) => {
            take_encoding(y, tasks, specials, node, item, most)
        }
        Task::Name(tags, node, item) => take_name(y, tasks, tags, node, item, most),
        Task::Elements(role, numbering, node, item) => {
            take_elements(y, tasks, role, numbering, node, item, most)
        }
    }
}

/// The stretches of a symbol's text in a detail, if the text costs at most the limit.
///
/// # Errors
///
/// `TooLong` exactly where the text costs more, `Memory` where a list couldn't grow.
pub fn stretches_as(
    alloc: Global,
    y: &Symbol,
    limit: u32,
    detail: Detail,
) -> Result<Vec<Stretch>, Refusal>
    ensures stretches { IfOk result (λ found. found.items ≡ stretches_of (symbol_marked (whole_of y.now) (shown_symbol detail y.now))) }
    ensures within { OnOk result (cost_of (shown_symbol detail y.now) ≤ limit) }
    ensures refusals { IfErr result (λ r. (r ≡ Refusal.TooLong) ⊎ (r ≡ Refusal.Memory)) }
    ensures too_long { result ≡ Err Refusal.TooLong → limit < cost_of (shown_symbol detail y.now) }
{
    let root = y.root_as(detail);
    length_of_part(alloc, y, &sym_print::Part::Sub(root), limit)?;
    let mut tasks = Tasks::new(alloc);
    let mut found = Stretches::new(alloc);
    push_symbol(y, &mut tasks, y.root_node(), &y.parts(root), limit)?;
    'tasks: while let Some(task) = tasks.pop() {
        take(y, &mut tasks, &mut found, task, limit)?;
    }
    Ok(found.into_list())
}

/// The stretches of a symbol's text in full, if the text costs at most the limit.
///
/// # Errors
///
/// `TooLong` exactly where the text costs more, `Memory` where a list couldn't grow.
pub fn stretches(alloc: Global, y: &Symbol, limit: u32) -> Result<Vec<Stretch>, Refusal>
    ensures stretches { IfOk result (λ found. found.items ≡ stretches_of (symbol_marked (whole_of y.now) (shown_symbol Detail.Full y.now))) }
    ensures within { OnOk result (cost_of (shown_symbol Detail.Full y.now) ≤ limit) }
    ensures refusals { IfErr result (λ r. (r ≡ Refusal.TooLong) ⊎ (r ≡ Refusal.Memory)) }
    ensures too_long { result ≡ Err Refusal.TooLong → limit < cost_of (shown_symbol Detail.Full y.now) }
{
    stretches_as(alloc, y, limit, Detail::Full)
}
