// What is still to be written; the next task is the last in the list.
#![tactic(auto)]

ghost use Rattle.std.specs.Prelude.{◌≡◌, ◌+◌, ◌<◌, length, OnOk, IfErr};
ghost use Rattle.sym_core.specs.declared.Refusal.TheVariants.{Memory};
ghost use Rattle.cpp_spelling.specs.Bytes.{text_bytes, IsThere};
ghost use Rattle.cpp_spelling.specs.Weight.{weight};
ghost use Rattle.cpp_spelling.specs.Tasks.{◌onto◌, written, in_way, ending, before, plain_at, press_task, press_tasks, IsTask, AreTasks, HasRoom, TakesRoom, way_weight, task_weight, tasks_weight};
ghost use Rattle.cpp_spelling.specs.Spelled.{arguments_onto};

use crate::texts::Text;
use cpp_layout::Symbol;
use cpp_tree::node::{Mark, Qualifiers};
use sym_core::Refusal;

/// How a tree is spelled, which depends on the place where it is.
#[derive(Clone, Copy)]
pub enum Way {
    Type,
    UnderQualifiers,
    Prefix,
    /// A name between N and E.
    Between,
    Encoding,
    /// An encoding's own name, with the letters for its function.
    Name(Qualifiers, Mark),
    Argument,
    /// The signature of a lambda that has parameters of its own: it is spelled as an encoding of its own.
    Signature,
    Parameters,
    MoreParameters,
    Elements,
}

/// A task: what is still to be written, in the encoding that begins at a place.
#[derive(Clone, Copy)]
pub enum Task {
    Text(Text),
    /// The tree of a node.
    Tree {
        node: u32,
        way: Way,
        encoding: u64,
    },
    /// A template name and its arguments.
    Template {
        name: u32,
        arguments: u32,
        in_type: bool,
        encoding: u64,
    },
    /// The tree of a node ends here, and is a component from here on.
    Ended {
        node: u32,
        encoding: u64,
    },
}

/// The most tasks that replace one task.
const MOST_TASKS: usize = 8;

/// Makes room for the tasks that replace one task.
///
/// # Errors
///
/// Only `Memory`.
pub fn make_room(symbol: &Symbol, tasks: &mut Vec<Task>) -> Result<(), Refusal>
    requires tasks { AreTasks symbol.now tasks.old.items }
    ensures presses { press_tasks symbol.now tasks.new.items ≡ press_tasks symbol.now tasks.old.items }
    ensures weight { tasks_weight symbol.now tasks.new.items ≡ tasks_weight symbol.now tasks.old.items }
    ensures tasks { AreTasks symbol.now tasks.new.items }
    ensures room { OnOk result (HasRoom tasks.new 8) }
    ensures memory { IfErr result (λ e. e ≡ Memory) }
{
    tasks.reserve(MOST_TASKS)?;
    Ok(())
}

/// Puts a task before the others.
fn then_task(symbol: &Symbol, task: Task, tasks: &mut Vec<Task>)
    requires task { IsTask symbol.now task }
    requires tasks { AreTasks symbol.now tasks.old.items }
    requires room { HasRoom tasks.old 1 }
    ensures presses { press_tasks symbol.now tasks.new.items ≡ press_task symbol.now task onto press_tasks symbol.now tasks.old.items }
    ensures weight { tasks_weight symbol.now tasks.new.items ≡ task_weight symbol.now task + tasks_weight symbol.now tasks.old.items }
    ensures tasks { AreTasks symbol.now tasks.new.items }
    ensures room { TakesRoom tasks.old tasks.new 1 }
{
    tasks.push_reserved(task);
}

/// Puts a text before the tasks.
pub fn then_text(symbol: &Symbol, text: Text, tasks: &mut Vec<Task>)
    requires text { IsThere symbol.now text }
    requires tasks { AreTasks symbol.now tasks.old.items }
    requires room { HasRoom tasks.old 1 }
    ensures presses { press_tasks symbol.now tasks.new.items ≡ written (text_bytes symbol.now text) onto press_tasks symbol.now tasks.old.items }
    ensures weight { tasks_weight symbol.now tasks.new.items ≡ 1 + tasks_weight symbol.now tasks.old.items }
    ensures tasks { AreTasks symbol.now tasks.new.items }
    ensures room { TakesRoom tasks.old tasks.new 1 }
{
    then_task(symbol, Task::Text(text), tasks);
}

/// Puts fixed bytes before the tasks.
#[tactic(auto, unfolding(crate::specs::Bytes::text_bytes))]
pub fn then_fixed(symbol: &Symbol, bytes: &'static [u8], tasks: &mut Vec<Task>)
    requires tasks { AreTasks symbol.now tasks.old.items }
    requires room { HasRoom tasks.old 1 }
    ensures presses { press_tasks symbol.now tasks.new.items ≡ written bytes.now onto press_tasks symbol.now tasks.old.items }
    ensures weight { tasks_weight symbol.now tasks.new.items ≡ 1 + tasks_weight symbol.now tasks.old.items }
    ensures tasks { AreTasks symbol.now tasks.new.items }
    ensures room { TakesRoom tasks.old tasks.new 1 }
{
    then_task(symbol, Task::Text(Text::Fixed(bytes)), tasks);
}

/// Puts a tree before the tasks.
pub fn then_tree(symbol: &Symbol, node: u32, way: Way, encoding: u64, tasks: &mut Vec<Task>)
    requires node { node < length symbol.now.table.nodes }
    requires tasks { AreTasks symbol.now tasks.old.items }
    requires room { HasRoom tasks.old 1 }
    ensures presses { press_tasks symbol.now tasks.new.items ≡ in_way encoding way (plain_at symbol.now node) onto press_tasks symbol.now tasks.old.items }
    ensures weight { tasks_weight symbol.now tasks.new.items ≡ way_weight way + weight (plain_at symbol.now node) + tasks_weight symbol.now tasks.old.items }
    ensures tasks { AreTasks symbol.now tasks.new.items }
    ensures room { TakesRoom tasks.old tasks.new 1 }
{
    let task = Task::Tree {
        node,
        way,
        encoding,
    };
    then_task(symbol, task, tasks);
}

/// Puts the end of a component before the tasks.
pub fn then_ended(symbol: &Symbol, node: u32, encoding: u64, tasks: &mut Vec<Task>)
    requires node { node < length symbol.now.table.nodes }
    requires tasks { AreTasks symbol.now tasks.old.items }
    requires room { HasRoom tasks.old 1 }
    ensures presses { press_tasks symbol.now tasks.new.items ≡ ending encoding (plain_at symbol.now node) onto press_tasks symbol.now tasks.old.items }
    ensures weight { tasks_weight symbol.now tasks.new.items ≡ 1 + tasks_weight symbol.now tasks.old.items }
    ensures tasks { AreTasks symbol.now tasks.new.items }
    ensures room { TakesRoom tasks.old tasks.new 1 }
{
    then_task(symbol, Task::Ended { node, encoding }, tasks);
}

/// Puts a template name with its arguments before the tasks.
pub fn then_template(
    symbol: &Symbol,
    name: u32,
    arguments: u32,
    in_type: bool,
    encoding: u64,
    tasks: &mut Vec<Task>,
)
    requires name { name < length symbol.now.table.nodes }
    requires arguments { arguments < length symbol.now.table.nodes }
    requires tasks { AreTasks symbol.now tasks.old.items }
    requires room { HasRoom tasks.old 1 }
    ensures presses { press_tasks symbol.now tasks.new.items ≡ before encoding in_type (plain_at symbol.now name) (plain_at symbol.now arguments) onto press_tasks symbol.now tasks.old.items }
    ensures weight { tasks_weight symbol.now tasks.new.items ≡ 8 + weight (plain_at symbol.now name) + weight (plain_at symbol.now arguments) + tasks_weight symbol.now tasks.old.items }
    ensures tasks { AreTasks symbol.now tasks.new.items }
    ensures room { TakesRoom tasks.old tasks.new 1 }
{
    let task = Task::Template {
        name,
        arguments,
        in_type,
        encoding,
    };
    then_task(symbol, task, tasks);
}

/// Puts the arguments of a template before the tasks (ABI 5.1.5.8, `<template-args> ::= I <template-arg>+ E`).
pub fn then_arguments(symbol: &Symbol, arguments: u32, encoding: u64, tasks: &mut Vec<Task>)
    requires arguments { arguments < length symbol.now.table.nodes }
    requires tasks { AreTasks symbol.now tasks.old.items }
    requires room { HasRoom tasks.old 3 }
    ensures presses { press_tasks symbol.now tasks.new.items ≡ arguments_onto encoding (plain_at symbol.now arguments) (press_tasks symbol.now tasks.old.items) }
    ensures weight { tasks_weight symbol.now tasks.new.items ≡ 2 + weight (plain_at symbol.now arguments) + tasks_weight symbol.now tasks.old.items }
    ensures tasks { AreTasks symbol.now tasks.new.items }
    ensures room { TakesRoom tasks.old tasks.new 3 }
{
    then_fixed(symbol, b"E", tasks);
    then_tree(symbol, arguments, Way::Elements, encoding, tasks);
    then_fixed(symbol, b"I", tasks);
}
