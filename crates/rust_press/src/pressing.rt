// Rust symbols are spelled again, with each repeated component as a reference to the first one.
#![tactic(auto)]

ghost use Rattle.std.specs.Prelude.{◌≡◌, ℕ, ◌<◌, ◌++◌, length, slice_get, Some, None, OnOk, IfOk, IfErr};
ghost use Rattle.sym_core.specs.declared.Refusal.TheVariants.{Memory};
ghost use Rattle.rust_tree.specs.Layout.{trees_of};
ghost use Rattle.rust_tree.specs.Views.{fields_at};
ghost use Rattle.sym_spell.specs.Numbers.{number_at};
ghost use Rattle.rust_press.specs.Numbers.{AreFirst};
ghost use Rattle.rust_press.specs.Spelled.{end};
ghost use Rattle.rust_press.specs.Tasks.{ArePushed, IsNodeStep, placed, pressed_root};
ghost use Rattle.rust_press.specs.OfRead.{HasFewComponents, pressed_symbol};
ghost use Rattle.rust_press.specs.Short.{IsShort};
ghost use Rattle.rust_v0.specs.Whole.{whole_of};

use crate::numbering::first_nodes;
use crate::spelling::{is_component, push_end, push_front, push_reference};
use rust_v0::Symbol;
use std::alloc::Global;
use sym_core::Refusal;

/// What is still to be spelled.
#[derive(Clone, Copy)]
enum Task {
    /// The tree of a node.
    Node(u32),
    /// The end of a component that began at this place.
    Ended { node: u32, place: u64 },
}

/// Puts the parts of a node on the list of tasks, the last part first.
fn push_parts(symbol: &Symbol, node: u32, count: u32, tasks: &mut Vec<Task>) -> Result<(), Refusal>
    requires node { node < length symbol.now.table.nodes }
    requires count { count ≡ length (fields_at symbol.now node).parts }
    ensures pushed { OnOk result (ArePushed symbol.now (fields_at symbol.now node).parts tasks.old.items tasks.new.items) }
    ensures memory { IfErr result (λ e. e ≡ Memory) }
{
    let mut left = count;
    while left > 0 {
        left -= 1;
        tasks.push(Task::Node(symbol.part(node, left)))?;
    }
    Ok(())
}

/// The first node that is equal to a node.
fn first_of(firsts: &[u32], node: u32) -> u32
    requires { node < length firsts.now }
    ensures number { result ≡ number_at firsts.now node }
{
    firsts[node as usize]
}

/// Spells a node up to its parts, or writes a reference if an equal node is spelled out already.
fn press_node(
    symbol: &Symbol,
    firsts: &[u32],
    places: &[Option<u64>],
    node: u32,
    tasks: &mut Vec<Task>,
    out: &mut Vec<u8>,
) -> Result<(), Refusal>
    requires node { node < length symbol.now.table.nodes }
    requires numbers { node < length firsts.now }
    requires places { number_at firsts.now node < length places.now }
    ensures step { OnOk result (IsNodeStep symbol.now node (number_at firsts.now node) places.now tasks.old.items out.old.items tasks.new.items out.new.items) }
    ensures memory { IfErr result (λ e. e ≡ Memory) }
{
    let view = symbol.node(node);
    if is_component(view.production) {
        let number = first_of(firsts, node);
        if let Some(place) = places[number as usize] {
            push_reference(place, out)?;
            return Ok(());
        }
        let place = out.len() as u64;
        tasks.push(Task::Ended { node, place })?;
    }
    let text = symbol.bytes_of(view.texts[0]);
    push_front(view.production, view.numbers, text, out)?;
    push_parts(symbol, node, view.parts, tasks)?;
    Ok(())
}

/// Ends a component: its place is known from now on.
fn end_component(
    symbol: &Symbol,
    number: u32,
    node: u32,
    place: u64,
    places: &mut Vec<Option<u64>>,
    out: &mut Vec<u8>,
) -> Result<(), Refusal>
    requires node { node < length symbol.now.table.nodes }
    requires places { number < length places.old.items }
    ensures bytes { OnOk result (out.new.items ≡ out.old.items ++ end (fields_at symbol.now node)) }
    ensures places { OnOk result (places.new.items ≡ placed places.old.items number place) }
    ensures memory { IfErr result (λ e. e ≡ Memory) }
{
    let view = symbol.node(node);
    let text = symbol.bytes_of(view.texts[0]);
    push_end(view.production, view.numbers[1], text, out)?;
    if places[number as usize].is_none() {
        places[number as usize] = Some(place);
    }
    Ok(())
}

/// One place for each of `count` nodes, none of them known yet.
fn no_places(alloc: Global, count: u32) -> Result<Vec<Option<u64>>, Refusal>
    ensures places { IfOk result (λ made. (k : ℕ) → k < count → slice_get made.items k ≡ Some None) }
    ensures long { IfOk result (λ made. length made.items ≡ count) }
    ensures memory { IfErr result (λ e. e ≡ Memory) }
{
    Ok(vec![in alloc; None; count as usize]?)
}

/// The spellings of most symbols have at most `COMMON_BYTES` bytes, and at most `COMMON_TASKS` tasks wait while they are spelled.
const COMMON_BYTES: usize = 128;

const COMMON_TASKS: usize = 16;

/// The pressed spelling of a symbol without its suffix. `firsts` has the first node that equals each node.
fn press_tasks(alloc: Global, symbol: &Symbol, firsts: &[u32]) -> Result<Vec<u8>, Refusal>
    requires { AreFirst (trees_of symbol.now) firsts.now }
    ensures pressed { IfOk result (λ out. out.items ≡ pressed_root symbol.now) }
    ensures components { IfOk result (λ _. HasFewComponents symbol.now) }
    ensures memory { IfErr result (λ e. e ≡ Memory) }
{
    let mut places = no_places(alloc, symbol.counts().nodes)?;
    let mut tasks = Vec::with_capacity(alloc, COMMON_TASKS)?;
    let mut out = Vec::with_capacity(alloc, COMMON_BYTES)?;
    tasks.push(Task::Node(symbol.root_node()))?;
    'tasks: while let Some(task) = tasks.pop() {
        match task {
            Task::Node(node) => {
                press_node(symbol, firsts, &places, node, &mut tasks, &mut out)?;
            }
            Task::Ended { node, place } => {
                let number = first_of(firsts, node);
                end_component(symbol, number, node, place, &mut places, &mut out)?;
            }
        }
    }
    Ok(out)
}

/// The pressed spelling of a Rust symbol (RFC 2603). It spells the symbol's tree in order: each
/// path, type or constant that equals an earlier one is a reference to the first one that it
/// equals, and numbers and names have their shortest form. Symbols of one tree have one pressed
/// spelling; disambiguators, the instantiating crate and the suffix are part of the tree.
///
/// Parts are compared by their numbers, and each is spelled out at most once, however large the tree is. So there are at most 4
/// bytes for each byte of the symbol.
///
/// # Errors
///
/// `Memory` alone.
pub fn press_rust(alloc: Global, symbol: &Symbol) -> Result<Vec<u8>, Refusal>
    ensures pressed { IfOk result (λ out. out.items ≡ pressed_symbol symbol.now) }
    ensures components { IfOk result (λ _. HasFewComponents symbol.now) }
    ensures short { IfOk result (λ out. IsShort (whole_of symbol.now) out.items) }
    ensures memory { IfErr result (λ e. e ≡ Memory) }
{
    let firsts = first_nodes(alloc, symbol)?;
    let mut out = press_tasks(alloc, symbol, &firsts)?;
    let view = symbol.node(symbol.root_node());
    out.extend_from_slice(symbol.bytes_of(view.texts[0]))?;
    Ok(out)
}
