// C++ symbols are spelled again, with each repeated component as a reference to the first one.
#![tactic(auto)]

ghost use Rattle.std.specs.Prelude.{◌≡◌, ◌<◌, length, IfOk, IfErr};
ghost use Rattle.sym_core.specs.declared.Refusal.TheVariants.{Memory};
ghost use Rattle.cpp_tree.specs.Nodes.{IsTable};
ghost use Rattle.cpp_layout.specs.Layout.{table_of, whole_of};
ghost use Rattle.cpp_press_laws.specs.Pressing.{pressed};
ghost use Rattle.cpp_press_laws.specs.Short.{IsShort};
ghost use Rattle.cpp_spelling.specs.Tasks.{plain_at};
ghost use Rattle.cpp_press.specs.Places.{known_in, likeness_of, AreFirst};
ghost use Rattle.sym_spell.specs.Numbers.{number_at};
ghost use Rattle.cpp_press.specs.OfRead.{HasFewComponents};
ghost use Rattle.cpp_spelling.specs.Standings.{standing_of, template_standing_of};

use crate::components::{Components, Likeness};
use crate::numbering::first_nodes;
use cpp_layout::Symbol;
use cpp_spelling::names::is_name;
use cpp_spelling::steps::{Standing, compared, step_template, step_tree};
use cpp_spelling::stored::stored;
use cpp_spelling::task::{Task, Way, then_tree};
use cpp_spelling::texts::push_text;
use cpp_spelling::types::is_compared;
use std::alloc::Global;
use sym_core::Refusal;

/// The first node that is equal to a node.
fn first_node(firsts: &[u32], node: u32) -> u32
    requires { node < length firsts.now }
    ensures number { result ≡ number_at firsts.now node }
{
    firsts[node as usize]
}

/// The likeness of a node's tree as a component of an encoding: a tree with free parameters is compared only with trees
/// of its encoding.
fn likeness_of(symbol: &Symbol, firsts: &[u32], node: u32, encoding: u64) -> Likeness
    requires table { IsTable (table_of symbol.now) }
    requires node { node < length symbol.now.table.nodes }
    requires number { node < length firsts.now }
    ensures { result ≡ likeness_of symbol.now firsts.now node encoding }
{
    let number = first_node(firsts, node);
    if symbol.entry(node).is_open() {
        Likeness { number, encoding }
    } else {
        Likeness {
            number,
            encoding: 0,
        }
    }
}

/// How a tree compares with the components before it.
fn standing_of(
    symbol: &Symbol,
    firsts: &[u32],
    components: &Components,
    node: u32,
    way: Way,
    encoding: u64,
) -> Standing
    requires table { IsTable (table_of symbol.now) }
    requires node { node < length symbol.now.table.nodes }
    requires number { node < length firsts.now }
    ensures { result ≡ standing_of way (plain_at symbol.now node) (known_in components.now (likeness_of symbol.now firsts.now node encoding)) }
{
    if is_compared(way, stored(symbol, node)) {
        compared(components.first(likeness_of(symbol, firsts, node, encoding)))
    } else {
        Standing::Apart
    }
}

/// How a template name compares with the components before it.
fn template_standing_of(
    symbol: &Symbol,
    firsts: &[u32],
    components: &Components,
    name: u32,
    encoding: u64,
) -> Standing
    requires table { IsTable (table_of symbol.now) }
    requires node { name < length symbol.now.table.nodes }
    requires number { name < length firsts.now }
    ensures { result ≡ template_standing_of (plain_at symbol.now name) (known_in components.now (likeness_of symbol.now firsts.now name encoding)) }
{
    if is_name(stored(symbol, name)) {
        compared(components.first(likeness_of(symbol, firsts, name, encoding)))
    } else {
        Standing::Apart
    }
}

/// The spellings of most symbols have at most `COMMON_BYTES` bytes, and at most `COMMON_TASKS` tasks wait while they are spelled.
const COMMON_BYTES: usize = 128;

const COMMON_TASKS: usize = 16;

/// The pressed spelling of a C++ symbol. `firsts` has the first node that equals each node.
fn press_tasks(alloc: Global, symbol: &Symbol, firsts: &[u32]) -> Result<Vec<u8>, Refusal>
    requires firsts { AreFirst symbol.now firsts.now }
    ensures pressed { IfOk result (λ out. out.items ≡ pressed (whole_of symbol.now)) }
    ensures components { IfOk result (λ _. HasFewComponents symbol.now) }
    ensures short { IfOk result (λ out. IsShort (whole_of symbol.now) out.items) }
    ensures memory { IfErr result (λ e. e ≡ Memory) }
{
    let mut components = Components::new(alloc, firsts.len())?;
    let mut tasks = Vec::with_capacity(alloc, COMMON_TASKS)?;
    let mut out = Vec::with_capacity(alloc, COMMON_BYTES)?;
    then_tree(symbol, symbol.root_node(), Way::Encoding, 0, &mut tasks);
    'tasks: while let Some(task) = tasks.pop() {
        match task {
            Task::Text(text) => push_text(symbol, text, &mut out)?,
            Task::Ended { node, encoding } => {
                components.push(likeness_of(symbol, firsts, node, encoding))?;
            }
            Task::Template {
                name,
                arguments,
                in_type,
                encoding,
            } => {
                let standing = template_standing_of(symbol, firsts, &components, name, encoding);
                step_template(
                    symbol, standing, name, arguments, in_type, encoding, &mut tasks,
                )?;
            }
            Task::Tree {
                node,
                way,
                encoding,
            } => {
                let here = out.len() as u64;
                let standing = standing_of(symbol, firsts, &components, node, way, encoding);
                step_tree(symbol, standing, node, way, encoding, here, &mut tasks)?;
            }
        }
    }
    Ok(out)
}

/// The pressed spelling of a C++ symbol (Itanium C++ ABI 5.1). It spells the symbol's tree in order: each component that equals an earlier
/// one is a reference to the first one that it equals (ABI 5.1.10), and numbers and names have their shortest form. Symbols of one tree
/// have one pressed spelling; the suffix is part of the tree.
///
/// Components are compared by their numbers. Each component is spelled out at most once at the places where a reference can be, however
/// large the tree is. So the spelling has at most 64 bytes for each byte of the symbol.
///
/// # Errors
///
/// Only `Memory`.
pub fn press_cpp(alloc: Global, symbol: &Symbol) -> Result<Vec<u8>, Refusal>
    ensures pressed { IfOk result (λ out. out.items ≡ pressed (whole_of symbol.now)) }
    ensures components { IfOk result (λ _. HasFewComponents symbol.now) }
    ensures short { IfOk result (λ out. IsShort (whole_of symbol.now) out.items) }
    ensures memory { IfErr result (λ e. e ≡ Memory) }
{
    let firsts = first_nodes(alloc, symbol)?;
    press_tasks(alloc, symbol, &firsts)
}
