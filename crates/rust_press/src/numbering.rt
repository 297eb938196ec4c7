// Nodes with equal trees have one number.
#![tactic(auto)]

ghost use Rattle.std.specs.Prelude.{◌≡◌, ◌<◌, ◌≤◌, length, IfOk, IfErr};
ghost use Rattle.sym_core.specs.declared.Refusal.TheVariants.{Memory};
ghost use Rattle.rust_tree.specs.Layout.{trees_of};
ghost use Rattle.rust_tree.specs.Views.{fields_at};
ghost use Rattle.rust_press.specs.Numbers.{AreFirst, AreNumbers, IsKeyOf, IsPartNumber};

use rust_v0::Symbol;
use std::alloc::Global;
use sym_core::Refusal;
use sym_spell::{Firsts, Marked, Numbers, text_mark};

/// The key of a node: what nodes with equal trees have in common. It gives each of the node's `count` parts as the first node that equals
/// the part.
#[derive(Clone, Copy, PartialEq, Eq, PartialOrd, Ord)]
struct Key<'a> {
    production: u16,
    count: u32,
    parts: [u32; 3],
    numbers: [u64; 2],
    first_text: &'a [u8],
    second_text: &'a [u8],
}

/// The mark of a key: a number that equal keys share, computed in few instructions.
impl<'a> Marked for Key<'a> {
    ghost use Rattle.rust_press.specs.Marks.{mark_of, marked-alike};

    ghost mark_of = { mark_of };

    fn mark(&self) -> u64 {
        let parts = self.parts[0] as u64 * 101
            + self.parts[1] as u64 * 307
            + self.parts[2] as u64 * 419;
        let numbers = self.numbers[0] % 65536 * 17 + self.numbers[1] % 65536 * 229;
        self.production as u64 * 59 + parts + numbers + text_mark(self.first_text)
    }

    ghost alike = { marked-alike };
}

/// The first node that is equal to a node's part, or 0 where the node has no such part.
fn part_number(symbol: &Symbol, firsts: &[u32], node: u32, count: u32, k: u32) -> u32
    requires node { node < length symbol.now.table.nodes }
    requires count { count ≡ length (fields_at symbol.now node).parts }
    requires before { length firsts.now ≡ node }
    ensures part { k < count → IsPartNumber (trees_of symbol.now) firsts.now (fields_at symbol.now node).parts k result }
    ensures rest { count ≤ k → result ≡ 0 }
{
    if k < count {
        firsts[symbol.part(node, k) as usize]
    } else {
        0
    }
}

/// The key of a node, given the first equal node of each node before it.
fn key_of<'a>(symbol: &'a Symbol, firsts: &[u32], node: u32) -> Key<'a>
    requires node { node < length symbol.now.table.nodes }
    requires before { length firsts.now ≡ node }
    ensures { IsKeyOf (trees_of symbol.now) firsts.now (fields_at symbol.now node) result }
{
    let view = symbol.node(node);
    let [first, second] = view.texts;
    Key {
        production: view.production,
        count: view.parts,
        parts: [
            part_number(symbol, firsts, node, view.parts, 0),
            part_number(symbol, firsts, node, view.parts, 1),
            part_number(symbol, firsts, node, view.parts, 2),
        ],
        numbers: view.numbers,
        first_text: symbol.bytes_of(first),
        second_text: symbol.bytes_of(second),
    }
}

/// For each node of a Rust symbol, the first node that is equal to it: an earlier one, or the node itself.
///
/// # Errors
///
/// `Memory` alone.
pub(crate) fn first_nodes(alloc: Global, symbol: &Symbol) -> Result<Vec<u32>, Refusal>
    ensures firsts { IfOk result (λ firsts. AreFirst (trees_of symbol.now) firsts.items) }
    ensures few { IfOk result (λ firsts. length firsts.items ≤ 4294967295) }
    ensures memory { IfErr result (λ e. e ≡ Memory) }
{
    let count = symbol.counts().nodes;
    let mut keys = Firsts::new(alloc, count as usize)?;
    let mut firsts = Vec::with_capacity(alloc, count as usize)?;
    for node in 0..count {
        let first = keys.first_with(key_of(symbol, &firsts, node), node)?;
        firsts.push(first)?;
    }
    Ok(firsts)
}

/// Numbers the nodes of a Rust symbol. A tree that no earlier node has gets the next number,
/// counted from 0. Each node takes two look-ups: one by what equal nodes have in common, and one of
/// the first of these nodes in a table.
///
/// # Errors
///
/// `Memory` alone.
pub fn numbers(alloc: Global, symbol: &Symbol) -> Result<Numbers, Refusal>
    ensures numbers { IfOk result (AreNumbers (trees_of symbol.now)) }
    ensures memory { IfErr result (λ e. e ≡ Memory) }
{
    let firsts = first_nodes(alloc, symbol)?;
    let numbers = Numbers::of_firsts(alloc, &firsts)?;
    Ok(numbers)
}
