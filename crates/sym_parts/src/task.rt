// The tasks that are left while the stretches of a text are listed.
#![tactic(auto)]

ghost use Rattle.std.specs.Prelude.{◌≡◌, ◌∷◌, [], OnOk, IfErr, MatchOption};
ghost use Rattle.sym_core.specs.declared.refusal.Refusal.{Refusal};
ghost use Rattle.sym_parts.specs.declared.task.Task.{Task};

use crate::role::Role;
use crate::spelling::Ordinal;
use std::alloc::Global;
use std::marker::Model;
use sym_core::Refusal;
use sym_room::push_within;

/// Something to be done.
#[derive(Clone, Copy)]
pub enum Task<T> {
    /// To advance by this many bytes.
    Skip(u32),
    /// To begin a stretch of this role, ordinal and length.
    Begin(Role, Ordinal, u32),
    /// To take something apart.
    Later(T),
}

/// Tasks, the next one first.
#[derive(Drop)]
pub struct Tasks<T> {
    list: Vec<Task<T>>,
}

impl<T> Model for Tasks<T> {
    ghost use Rattle.sym_parts.specs.declared.task.Task.{Task};
    ghost use Rattle.std.specs.Prelude.{List, reverse};

    ghost Value = { List (Task T) };

    ghost view = { λ tasks. reverse tasks.list.items };
}

impl<T: Copy> Tasks<T> {
    /// Nothing to be done.
    pub fn new(alloc: Global) -> Tasks<T>
        ensures { result ≡ [] }
    {
        Tasks {
            list: Vec::new(alloc),
        }
    }

    /// The allocator of the list.
    pub fn allocator(&self) -> Global {
        *self.list.allocator()
    }

    /// Adds a task before the others.
    ///
    /// # Errors
    ///
    /// `Memory` where the list couldn't grow.
    pub fn push(&mut self, task: Task<T>) -> Result<(), Refusal>
        ensures tasks { OnOk result (self.new ≡ task ∷ self.old) }
        ensures refusals { IfErr result (λ refusal. refusal ≡ Refusal.Memory) }
    {
        push_within(&mut self.list, task)?;
        Ok(())
    }

    /// Takes the next task.
    pub fn pop(&mut self) -> Option<Task<T>>
        ensures { MatchOption result (self.old ≡ []) (λ task. self.old ≡ task ∷ self.new) }
    {
        self.list.pop()
    }
}
