// Tasks for arguments.
#![tactic(auto)]

ghost use Rattle.std.specs.Prelude.{◌≡◌, ◌∷◌, ◌+◌, ◌*◌, ◌<◌, ◌≤◌, length, OnOk, IfErr};
ghost use Rattle.sym_core.specs.declared.refusal.Refusal.{Refusal};
ghost use Rattle.sym_print.specs.Joined.{IsText};
ghost use Rattle.sym_print.specs.Unshared.{cost_of_parts, text_of, steps_of_parts};
ghost use Rattle.rust_tree.specs.Layout.{MayCome, bytes_of_part, unshared_of};
ghost use Rattle.sym_parts.specs.declared.task.Task.{Task};
ghost use Rattle.rust_parts.specs.Roles.{arguments, elements, listed};
ghost use Rattle.rust_parts.specs.Tasks.{ArePayable, Grows, IsPayable, printed_by};

use crate::apart::Apart;
use rust_tree::{Context, Symbol};
use sym_core::Refusal;
use sym_parts::{
    Ordinal, Role, Split, Task, Tasks, first_of, length_of, length_of_all, push_alone, push_plain,
};
use sym_print::{Item, Part};

/// A text, and after it one part that has an item's text.
///
/// # Errors
///
/// `Memory`.
pub(crate) fn push_after(
    y: &Symbol,
    tasks: &mut Tasks<Apart>,
    before: &Part<Context>,
    role: Role,
    ordinal: Ordinal,
    item: &Item<Context>,
    most: u32,
) -> Result<(), Refusal>
    requires before { MayCome y.now before.now }
    requires is_text { IsText before.now }
    requires fits { length (bytes_of_part y.now before.now) ≤ most }
    requires item { IsPayable y.now most item.now }
    ensures tasks { OnOk result (tasks.new ≡ Task.Skip (length (bytes_of_part y.now before.now)) ∷ Task.Begin role ordinal (length (text_of (unshared_of y.now item.now))) ∷ Task.Skip (length (text_of (unshared_of y.now item.now))) ∷ tasks.old) }
    ensures refusals { IfErr result (λ refusal. refusal ≡ Refusal.Memory) }
{
    let front = length_of(y, tasks.allocator(), before, most)?;
    let length = length_of(y, tasks.allocator(), &Part::Sub(*item), most)?;
    push_alone(tasks, role, ordinal, length)?;
    tasks.push(Task::Skip(front))
}

/// Arguments of a list, from this number on, if there are any, and what is after them.
///
/// # Errors
///
/// `Memory`.
fn push_listed(
    y: &Symbol,
    tasks: &mut Tasks<Apart>,
    list: u32,
    number: u32,
    parts: &[Part<Context>],
    most: u32,
) -> Result<(), Refusal>
    requires number { number + cost_of_parts (printed_by y.now parts.now) ≤ most }
    requires paid { ArePayable y.now most parts.now }
    ensures grows { OnOk result (Grows y.now most tasks.old tasks.new (listed list number (printed_by y.now parts.now)) (4 * steps_of_parts (printed_by y.now parts.now) + 1)) }
    ensures refusals { IfErr result (λ refusal. refusal ≡ Refusal.Memory) }
{
    match first_of(y, parts, most) {
        Split::Nothing => push_plain(y, tasks, parts, most),
        Split::Text(_, _) => push_plain(y, tasks, parts, most),
        Split::Item(others, rest) => {
            push_plain(y, tasks, rest, most)?;
            tasks.push(Task::Later(Apart::Elements(list, number, *others)))
        }
    }
}

/// The arguments of a list from this number on.
///
/// # Errors
///
/// `Memory`.
pub(crate) fn push_elements(
    y: &Symbol,
    tasks: &mut Tasks<Apart>,
    list: u32,
    number: u32,
    parts: &[Part<Context>],
    most: u32,
) -> Result<(), Refusal>
    requires number { number + cost_of_parts (printed_by y.now parts.now) < most }
    requires paid { ArePayable y.now most parts.now }
    ensures grows { OnOk result (Grows y.now most tasks.old tasks.new (elements list number (printed_by y.now parts.now)) (4 * steps_of_parts (printed_by y.now parts.now) + 3)) }
    ensures refusals { IfErr result (λ refusal. refusal ≡ Refusal.Memory) }
{
    let ordinal = Ordinal {
        item: list,
        element: number,
    };
    match first_of(y, parts, most) {
        Split::Nothing => push_plain(y, tasks, parts, most),
        Split::Item(argument, rest) => {
            let length = length_of(y, tasks.allocator(), &Part::Sub(*argument), most)?;
            push_listed(y, tasks, list, number + 1, rest, most)?;
            push_alone(tasks, Role::GenericArgument, ordinal, length)
        }
        Split::Text(comma, rest) => match first_of(y, rest, most) {
            Split::Nothing => push_plain(y, tasks, parts, most),
            Split::Text(_, _) => push_plain(y, tasks, parts, most),
            Split::Item(argument, others) => {
                push_listed(y, tasks, list, number + 1, others, most)?;
                push_after(
                    y,
                    tasks,
                    comma,
                    Role::GenericArgument,
                    ordinal,
                    argument,
                    most,
                )
            }
        },
    }
}

/// A list of arguments in brackets, after two colons.
///
/// # Errors
///
/// `Memory`.
pub(crate) fn push_arguments(
    y: &Symbol,
    tasks: &mut Tasks<Apart>,
    list: u32,
    parts: &[Part<Context>],
    most: u32,
) -> Result<(), Refusal>
    requires fits { cost_of_parts (printed_by y.now parts.now) < most }
    requires paid { ArePayable y.now most parts.now }
    ensures grows { OnOk result (Grows y.now most tasks.old tasks.new (arguments list (printed_by y.now parts.now)) (4 * steps_of_parts (printed_by y.now parts.now) + 3)) }
    ensures refusals { IfErr result (λ refusal. refusal ≡ Refusal.Memory) }
{
    match first_of(y, parts, most) {
        Split::Nothing => push_plain(y, tasks, parts, most),
        Split::Item(_, _) => push_plain(y, tasks, parts, most),
        Split::Text(opening, rest) => {
            let count = length_of(y, tasks.allocator(), opening, most)?;
            let inside = length_of_all(y, tasks.allocator(), rest, most)?;
            let front = count.min(2);
            push_listed(y, tasks, list, 1, rest, most)?;
            tasks.push(Task::Skip(count - front))?;
            let ordinal = Ordinal {
                item: list,
                element: 0,
            };
            tasks.push(Task::Begin(Role::GenericArguments, ordinal, count - front + inside))?;
            tasks.push(Task::Skip(front))
        }
    }
}
