// The tasks that are left while the stretches of a text are listed.
#![tactic(auto)]

ghost use Rattle.std.specs.Prelude.{◌≡◌, ◌∷◌, [], OnOk, IfErr, MatchOption, List, reverse};
ghost use Rattle.sym_core.specs.declared.refusal.Refusal.{Refusal};
ghost use Rattle.cpp_parts.specs.declared.task.Task.{Task};

use crate::numbering::Numbering;
use cpp_layout::Context;
use std::alloc::Global;
use std::marker::Model;
use sym_core::Refusal;
use sym_parts::{Ordinal, Role};
use sym_print::Item;
use sym_room::push_within;

/// A task: to advance by bytes, to begin a stretch, or to list the parts of an item, which comes with the node of its tree.
#[derive(Clone, Copy)]
pub(crate) enum Task {
    /// To advance by this many bytes.
    Skip(u32),
    /// To begin a stretch of this role, ordinal and length.
    Begin(Role, Ordinal, u32),
    /// To list the parts of an encoding, after the words of this many special names.
    Encoding(u32, u32, Item<Context>),
    /// To list the parts of a name that is followed by this many of its tags.
    Name(u32, u32, Item<Context>),
    /// To list the elements of a list, or of a pattern that is expanded, each with this role.
    Elements(Role, Numbering, u32, Item<Context>),
}

/// Tasks, the next one first.
#[derive(Drop)]
pub(crate) struct Tasks {
    list: Vec<Task>,
}

impl Model for Tasks {
    ghost use Rattle.cpp_parts.specs.declared.task.Task.{Task};
    ghost use Rattle.std.specs.Prelude.{List, reverse};

    ghost Value = { List Task };

    ghost view = { λ tasks. reverse tasks.list.items };
}

impl Tasks {
    /// No tasks to be done.
    pub(crate) fn new(alloc: Global) -> Tasks
        ensures { result ≡ [] }
    {
        Tasks {
            list: Vec::new(alloc),
        }
    }

    /// The allocator of the list.
    pub(crate) fn allocator(&self) -> Global {
        *self.list.allocator()
    }

    /// Adds a task before the others.
    ///
    /// # Errors
    ///
    /// `Memory` where the list couldn't grow.
    pub(crate) fn push(&mut self, task: Task) -> Result<(), Refusal>
        ensures tasks { OnOk result (self.new ≡ task ∷ self.old) }
        ensures refusals { IfErr result (λ refusal. refusal ≡ Refusal.Memory) }
    {
        push_within(&mut self.list, task)?;
        Ok(())
    }

    /// Takes the next task.
    pub(crate) fn pop(&mut self) -> Option<Task>
        ensures { MatchOption result (self.old ≡ []) (λ task. self.old ≡ task ∷ self.new) }
    {
        self.list.pop()
    }
}
