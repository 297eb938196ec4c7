// Tasks for what is printed without a mark, and for parts that contain no other parts.
#![tactic(auto)]

ghost use Rattle.std.specs.Prelude.{◌≡◌, ◌∷◌, length, OnOk, IfErr};
ghost use Rattle.sym_core.specs.declared.refusal.Refusal.{Refusal};
ghost use Rattle.sym_print.specs.Joined.{joined};
ghost use Rattle.sym_print.specs.Unshared.{text_of};
ghost use Rattle.sym_parts.specs.Split.{ArePayable};
ghost use Rattle.sym_parts.specs.declared.task.Task.{Task};

use crate::lengths::length_of_all;
use crate::role::Role;
use crate::spelling::Ordinal;
use crate::task::{Task, Tasks};
use sym_core::Refusal;
use sym_print::{Layout, Part};

/// Advances by the bytes that parts print.
///
/// # Errors
///
/// `Memory`.
pub fn push_plain<Y: Layout, T: Copy>(
    y: &Y,
    tasks: &mut Tasks<T>,
    parts: &[Part<Y::Ctx>],
    most: u32,
) -> Result<(), Refusal>
    requires { ArePayable (Y.unshared y.now) (Y.bytes_of y.now) (Y.may_come y.now) most parts.now }
    ensures tasks { OnOk result (tasks.new ≡ Task.Skip (length (text_of (joined (Y.unshared y.now) (Y.bytes_of y.now) parts.now))) ∷ tasks.old) }
    ensures refusals { IfErr result (λ refusal. refusal ≡ Refusal.Memory) }
{
    let length = length_of_all(y, tasks.allocator(), parts, most)?;
    tasks.push(Task::Skip(length))
}

/// Adds tasks for one part of this many bytes.
///
/// # Errors
///
/// `Memory`.
pub fn push_alone<T: Copy>(
    tasks: &mut Tasks<T>,
    role: Role,
    ordinal: Ordinal,
    count: u32,
) -> Result<(), Refusal>
    ensures tasks { OnOk result (tasks.new ≡ Task.Begin role ordinal count ∷ Task.Skip count ∷ tasks.old) }
    ensures refusals { IfErr result (λ refusal. refusal ≡ Refusal.Memory) }
{
    tasks.push(Task::Skip(count))?;
    tasks.push(Task::Begin(role, ordinal, count))
}

/// Adds tasks for one part that consists of all bytes that these parts print.
///
/// # Errors
///
/// `Memory`.
pub fn push_whole<Y: Layout, T: Copy>(
    y: &Y,
    tasks: &mut Tasks<T>,
    role: Role,
    ordinal: Ordinal,
    parts: &[Part<Y::Ctx>],
    most: u32,
) -> Result<(), Refusal>
    requires { ArePayable (Y.unshared y.now) (Y.bytes_of y.now) (Y.may_come y.now) most parts.now }
    ensures tasks { OnOk result (tasks.new ≡ Task.Begin role ordinal (length (text_of (joined (Y.unshared y.now) (Y.bytes_of y.now) parts.now))) ∷ Task.Skip (length (text_of (joined (Y.unshared y.now) (Y.bytes_of y.now) parts.now))) ∷ tasks.old) }
    ensures refusals { IfErr result (λ refusal. refusal ≡ Refusal.Memory) }
{
    let length = length_of_all(y, tasks.allocator(), parts, most)?;
    push_alone(tasks, role, ordinal, length)
}
