// One step of the writer at a tree, by how the tree compares with the components before it.
#![tactic(auto)]

ghost use Rattle.std.specs.Prelude.{◌≡◌, ℕ, ◌≤◌, ◌<◌, ◌+◌, List, length, false, OnOk, IfErr};
ghost use Rattle.sym_core.specs.declared.Refusal.TheVariants.{Memory};
ghost use Rattle.cpp_tree.specs.Nodes.{is_again, IsTable};
ghost use Rattle.cpp_layout.specs.Layout.{ReadSymbol, table_of};
ghost use Rattle.cpp_press_laws.specs.Components.{Component, first_equal};
ghost use Rattle.cpp_spelling.specs.Weight.{weight};
ghost use Rattle.cpp_spelling.specs.Tasks.{◌onto◌, in_way, before, plain_at, node_tree, IsMade, press_tasks, AreTasks, HasRoom, TakesRoom, way_weight, tasks_weight};
ghost use Rattle.cpp_spelling.specs.Standings.{compared, standing_of, template_standing_of, needs_N, is_instance, between_arguments_onto, template_onto};

use crate::names::{is_nested, is_operator};
use crate::stored::stored;
use crate::task::{
    Task, Way, make_room, then_arguments, then_ended, then_fixed, then_text, then_tree,
};
use crate::texts::Text;
use crate::types::then_spelled;
use cpp_layout::Symbol;
use cpp_tree::node::Node;
use sym_core::Refusal;

/// How a tree compares with the components before it.
#[derive(Clone, Copy)]
pub enum Standing {
    /// The tree isn't compared at its place.
    Apart,
    /// The tree is equal to the component with this number, and to no component before that one.
    Known(u64),
    /// The tree is equal to no component.
    Fresh,
}

/// How a compared tree compares with the components, by the number of the first component that is equal to it.
#[tactic(auto, unfolding(crate::specs::Standings::compared))]
pub fn compared(first: Option<u64>) -> Standing
    ensures { result ≡ compared first }
{
    match first {
        Some(number) => Standing::Known(number),
        None => Standing::Fresh,
    }
}

/// Spells a tree in one of its ways, as a reference or spelled out, by how it compares with the components before it.
pub fn step_tree(
    symbol: &Symbol,
    standing: Standing,
    node: u32,
    way: Way,
    encoding: u64,
    here: u64,
    tasks: &mut Vec<Task>,
) -> Result<(), Refusal>
    requires table { IsTable (table_of symbol.now) }
    requires node { node < length symbol.now.table.nodes }
    requires tasks { AreTasks symbol.now tasks.old.items }
    ensures presses { OnOk result ((cs : List Component) → standing ≡ standing_of way (plain_at symbol.now node) (first_equal encoding (plain_at symbol.now node) 0 cs)
        → press_tasks symbol.now tasks.new.items here cs ≡ (in_way encoding way (plain_at symbol.now node) onto press_tasks symbol.now tasks.old.items) here cs) }
    ensures weight { OnOk result (tasks_weight symbol.now tasks.new.items < way_weight way + weight (plain_at symbol.now node) + tasks_weight symbol.now tasks.old.items) }
    ensures tasks { OnOk result (AreTasks symbol.now tasks.new.items) }
    ensures memory { IfErr result (λ e. e ≡ Memory) }
{
    make_room(symbol, tasks)?;
    match standing {
        Standing::Apart => then_spelled(symbol, node, way, encoding, here, tasks),
        Standing::Known(number) => then_text(symbol, Text::Reference(number), tasks),
        Standing::Fresh => {
            then_ended(symbol, node, encoding, tasks);
            then_spelled(symbol, node, way, encoding, here, tasks);
        }
    }
    Ok(())
}

/// Whether a template name that is spelled out needs an N.
#[tactic(auto, unfolding(crate::specs::Standings::needs_N, cpp_term::specs::Erased::erase, cpp_tree::specs::Nodes::tree_of, cpp_tree::specs::Nodes::is_again))]
fn needs_n(symbol: &Symbol, node: Node, in_type: bool) -> bool
    requires table { IsTable (table_of symbol.now) }
    requires own { is_again node ≡ false }
    requires node { IsMade symbol.now node }
    ensures { result ≡ needs_N in_type (node_tree symbol.now node) }
{
    match node {
        Node::InStd(piece) => in_type && is_operator(piece),
        Node::Within { .. } => true,
        Node::Tagged { name, .. } => is_nested(symbol, name),
        _ => false,
    }
}

/// A template name that is spelled out, and its arguments.
#[tactic(auto, unfolding(crate::specs::Standings::template_onto, crate::specs::Standings::needs_N, cpp_term::specs::Erased::erase, cpp_tree::specs::Nodes::tree_of, cpp_tree::specs::Nodes::is_again))]
fn then_template_out(
    symbol: &Symbol,
    name: u32,
    arguments: u32,
    in_type: bool,
    encoding: u64,
    tasks: &mut Vec<Task>,
)
    requires table { IsTable (table_of symbol.now) }
    requires name { name < length symbol.now.table.nodes }
    requires arguments { arguments < length symbol.now.table.nodes }
    requires tasks { AreTasks symbol.now tasks.old.items }
    requires room { HasRoom tasks.old 7 }
    ensures presses { press_tasks symbol.now tasks.new.items ≡ template_onto encoding in_type (plain_at symbol.now name) (plain_at symbol.now arguments) (press_tasks symbol.now tasks.old.items) }
    ensures weight { tasks_weight symbol.now tasks.new.items ≤ 5 + weight (plain_at symbol.now name) + weight (plain_at symbol.now arguments) + tasks_weight symbol.now tasks.old.items }
    ensures tasks { AreTasks symbol.now tasks.new.items }
    ensures room { TakesRoom tasks.old tasks.new 7 }
{
    if needs_n(symbol, stored(symbol, name), in_type) {
        then_fixed(symbol, b"E", tasks);
        then_between_arguments(symbol, name, arguments, encoding, tasks);
        then_fixed(symbol, b"N", tasks);
    } else {
        then_between_arguments(symbol, name, arguments, encoding, tasks);
    }
}

/// A template name, the end of its component, and its arguments. A name that itself ends in arguments is always spelled as a reference.
#[tactic(auto, unfolding(crate::specs::Standings::is_instance, cpp_term::specs::Erased::erase, cpp_tree::specs::Nodes::tree_of, cpp_tree::specs::Nodes::is_again))]
fn then_between_arguments(
    symbol: &Symbol,
    name: u32,
    arguments: u32,
    encoding: u64,
    tasks: &mut Vec<Task>,
)
    requires table { IsTable (table_of symbol.now) }
    requires name { name < length symbol.now.table.nodes }
    requires arguments { arguments < length symbol.now.table.nodes }
    requires tasks { AreTasks symbol.now tasks.old.items }
    requires room { HasRoom tasks.old 5 }
    ensures presses { press_tasks symbol.now tasks.new.items ≡ between_arguments_onto encoding (plain_at symbol.now name) (plain_at symbol.now arguments) (press_tasks symbol.now tasks.old.items) }
    ensures weight { tasks_weight symbol.now tasks.new.items ≤ 3 + weight (plain_at symbol.now name) + weight (plain_at symbol.now arguments) + tasks_weight symbol.now tasks.old.items }
    ensures tasks { AreTasks symbol.now tasks.new.items }
    ensures room { TakesRoom tasks.old tasks.new 5 }
{
    then_arguments(symbol, arguments, encoding, tasks);
    then_ended(symbol, name, encoding, tasks);
    if !is_instance(stored(symbol, name)) {
        then_tree(symbol, name, Way::Between, encoding, tasks);
    }
}

/// Whether a name ends in arguments.
#[tactic(auto, unfolding(crate::specs::Standings::is_instance, cpp_term::specs::Erased::erase, cpp_tree::specs::Nodes::tree_of, cpp_tree::specs::Nodes::is_again))]
fn is_instance(node: Node) -> bool
    requires own { is_again node ≡ false }
    ensures { (y : ReadSymbol) → result ≡ is_instance (node_tree y node) }
{
    match node {
        Node::Instance { .. } => true,
        _ => false,
    }
}

/// Spells a template name, as a reference or spelled out, by how it compares with the components before it. Its arguments follow.
pub fn step_template(
    symbol: &Symbol,
    standing: Standing,
    name: u32,
    arguments: u32,
    in_type: bool,
    encoding: u64,
    tasks: &mut Vec<Task>,
) -> Result<(), Refusal>
    requires table { IsTable (table_of symbol.now) }
    requires name { name < length symbol.now.table.nodes }
    requires arguments { arguments < length symbol.now.table.nodes }
    requires tasks { AreTasks symbol.now tasks.old.items }
    ensures presses { OnOk result ((here : ℕ) (cs : List Component) → standing ≡ template_standing_of (plain_at symbol.now name) (first_equal encoding (plain_at symbol.now name) 0 cs)
        → press_tasks symbol.now tasks.new.items here cs ≡ (before encoding in_type (plain_at symbol.now name) (plain_at symbol.now arguments) onto press_tasks symbol.now tasks.old.items) here cs) }
    ensures weight { OnOk result (tasks_weight symbol.now tasks.new.items < 8 + weight (plain_at symbol.now name) + weight (plain_at symbol.now arguments) + tasks_weight symbol.now tasks.old.items) }
    ensures tasks { OnOk result (AreTasks symbol.now tasks.new.items) }
    ensures memory { IfErr result (λ e. e ≡ Memory) }
{
    make_room(symbol, tasks)?;
    match standing {
        Standing::Apart => {
            then_arguments(symbol, arguments, encoding, tasks);
            then_tree(symbol, name, Way::Type, encoding, tasks);
        }
        Standing::Known(number) => {
            then_arguments(symbol, arguments, encoding, tasks);
            then_text(symbol, Text::Reference(number), tasks);
        }
        Standing::Fresh => then_template_out(symbol, name, arguments, in_type, encoding, tasks),
    }
    Ok(())
}
