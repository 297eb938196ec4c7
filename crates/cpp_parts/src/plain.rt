// Tasks for what is printed without a mark, and for parts that contain no other parts.
#![tactic(auto)]

ghost use Rattle.std.specs.Prelude.{◌≡◌, ◌+◌, ◌*◌, ◌<◌, ◌≤◌, ◌-◌, ℕ, List, [], ◌∷◌, length, take, drop, OnOk, IfErr};
ghost use Rattle.sym_core.specs.declared.refusal.Refusal.{Refusal};
ghost use Rattle.sym_print.specs.declared.layout.Part.{Part};
ghost use Rattle.sym_print.specs.Joined.{IsText};
ghost use Rattle.sym_print.specs.Unshared.{Unshared, item, bytes, text_of, cost_of, cost_of_parts, steps_of, steps_of_parts};
ghost use Rattle.cpp_tree.specs.Views.{plain_tree};
ghost use Rattle.cpp_layout.specs.Layout.{table_of, unshared_of, bytes_of_part, MayBeAsked};
ghost use Rattle.sym_parts.specs.Marked as marks;
ghost use Rattle.sym_parts.specs.Plain.{alone, plain, whole};
ghost use Rattle.cpp_parts.specs.Roles.{alone_if_any, words, returned, behind};
ghost use Rattle.cpp_parts.specs.Tasks.{ArePayable, IsPayable, printed_by, Grows};

use crate::lengths::{length_of, length_of_all};
use crate::split::{Split, first_of};
use crate::task::{Task, Tasks};
use cpp_layout::{Context, Symbol};
use sym_core::Refusal;
use sym_parts::{ONLY, Ordinal, Role};
use sym_print::{Item, Part};

/// Advances by the bytes that parts print.
///
/// # Errors
///
/// `Memory`.
pub(crate) fn push_plain(
    y: &Symbol,
    tasks: &mut Tasks,
    parts: &[Part<Context>],
    most: u32,
) -> Result<(), Refusal>
    requires { ArePayable y.now most parts.now }
    ensures grows { OnOk result (Grows y.now most tasks.old tasks.new (plain (printed_by y.now parts.now)) 1) }
    ensures refusals { IfErr result (λ refusal. refusal ≡ Refusal.Memory) }
{
    let length = length_of_all(y, tasks.allocator(), parts, most)?;
    tasks.push(Task::Skip(length))
}

/// One part, which has all bytes that these parts print.
///
/// # Errors
///
/// `Memory`.
pub(crate) fn push_whole(
    y: &Symbol,
    tasks: &mut Tasks,
    role: Role,
    ordinal: Ordinal,
    parts: &[Part<Context>],
    most: u32,
) -> Result<(), Refusal>
    requires { ArePayable y.now most parts.now }
    ensures grows { OnOk result (Grows y.now most tasks.old tasks.new (whole role ordinal (printed_by y.now parts.now)) 2) }
    ensures refusals { IfErr result (λ refusal. refusal ≡ Refusal.Memory) }
{
    let length = length_of_all(y, tasks.allocator(), parts, most)?;
    tasks.push(Task::Skip(length))?;
    tasks.push(Task::Begin(role, ordinal, length))
}

/// One part, of this many bytes.
///
/// # Errors
///
/// `Memory`.
pub(crate) fn push_alone(
    y: &Symbol,
    tasks: &mut Tasks,
    role: Role,
    ordinal: Ordinal,
    count: u32,
    _most: u32,
) -> Result<(), Refusal>
    ensures grows { OnOk result ((b : List ℕ) → length b ≡ count → Grows y.now _most tasks.old tasks.new (alone role ordinal b marks.done) 2) }
    ensures refusals { IfErr result (λ refusal. refusal ≡ Refusal.Memory) }
{
    tasks.push(Task::Skip(count))?;
    tasks.push(Task::Begin(role, ordinal, count))
}

/// The words of a special name, after those of `specials` others. With the blank at their end they have `count` bytes.
///
/// # Errors
///
/// `Memory`.
pub(crate) fn push_words(
    y: &Symbol,
    tasks: &mut Tasks,
    specials: u32,
    count: u32,
    most: u32,
) -> Result<(), Refusal>
    ensures grows { OnOk result ((b : List ℕ) → length b ≡ count → Grows y.now most tasks.old tasks.new (words specials b marks.done) 3) }
    ensures refusals { IfErr result (λ refusal. refusal ≡ Refusal.Memory) }
{
    let blank = count.min(1);
    tasks.push(Task::Skip(blank))?;
    let ordinal = Ordinal {
        item: specials,
        element: 0,
    };
    push_alone(y, tasks, Role::Special, ordinal, count - blank, most)
}

/// The rest of a return type after the parameters, if there is one.
///
/// # Errors
///
/// `Memory`.
pub(crate) fn push_returned(
    y: &Symbol,
    tasks: &mut Tasks,
    parts: &[Part<Context>],
    most: u32,
) -> Result<(), Refusal>
    requires { ArePayable y.now most parts.now }
    ensures grows { OnOk result (Grows y.now most tasks.old tasks.new (returned (printed_by y.now parts.now)) (4 * steps_of_parts (printed_by y.now parts.now) + 3)) }
    ensures refusals { IfErr result (λ refusal. refusal ≡ Refusal.Memory) }
{
    match first_of(y, parts, most) {
        Split::Nothing => push_plain(y, tasks, parts, most),
        Split::Text(_, _) => push_plain(y, tasks, parts, most),
        Split::Item(right, rest) => {
            let length = length_of(y, tasks.allocator(), &Part::Sub(right), most)?;
            push_plain(y, tasks, rest, most)?;
            if length == 0 {
                return Ok(());
            }
            push_alone(y, tasks, Role::ReturnType, ONLY, length, most)
        }
    }
}

/// What follows a function's parameters, or the name of a variable.
///
/// # Errors
///
/// `Memory`.
pub(crate) fn push_behind(
    y: &Symbol,
    tasks: &mut Tasks,
    parts: &[Part<Context>],
    most: u32,
) -> Result<(), Refusal>
    requires { ArePayable y.now most parts.now }
    ensures grows { OnOk result (Grows y.now most tasks.old tasks.new (behind (printed_by y.now parts.now)) (4 * steps_of_parts (printed_by y.now parts.now) + 3)) }
    ensures refusals { IfErr result (λ refusal. refusal ≡ Refusal.Memory) }
{
    match first_of(y, parts, most) {
        Split::Nothing => push_returned(y, tasks, parts, most),
        Split::Item(_, _) => push_returned(y, tasks, parts, most),
        Split::Text(text, rest) => {
            push_returned(y, tasks, rest, most)?;
            let length = length_of(y, tasks.allocator(), &text, most)?;
            push_alone(y, tasks, Role::Qualifiers, ONLY, length, most)
        }
    }
}
