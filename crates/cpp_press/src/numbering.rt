// Nodes with equal trees have one number.
#![tactic(auto)]

ghost use Rattle.std.specs.Prelude.{◌≡◌, ◌+◌, ◌<◌, ◌≤◌, ◌++◌, ℕ, List, length, Some, None, OnOk, IfOk, IfErr};
ghost use Rattle.sym_core.specs.declared.Refusal.TheVariants.{Memory};
ghost use Rattle.cpp_grammar.specs.Term.{Term};
ghost use Rattle.cpp_tree.specs.Views.{IsSlotBelow};
ghost use Rattle.cpp_layout.specs.Layout.{whole_of};
ghost use Rattle.cpp_press_laws.specs.Same.{same_tree};
ghost use Rattle.cpp_spelling.specs.Tasks.{plain_at};
ghost use Rattle.cpp_press.specs.Places.{AreFirst, AreNumbers};
ghost use Rattle.cpp_press.specs.Marks.{IsFound, found_in};
ghost use Rattle.cpp_press.specs.Numbers.{ComeNext, IsKey, IsKeyOf, part_number};
ghost use Rattle.sym_spell.proofs.FirstOnes.{AreFirsts};
ghost use Rattle.sym_spell.specs.Numbers.{AreBelow};

use crate::details::details_of;
use cpp_layout::Symbol;
use std::alloc::Global;
use sym_core::Refusal;
use sym_spell::{Firsts, Marked, Numbers, text_mark};

/// The key of a node: what nodes with equal trees have in common. It has the node's production and details, and for each part one more
/// than the first node equal to this part, or 0 for no part. Keys are ordered by parts first, so a new key mostly goes near the end.
#[derive(Clone, Copy, PartialEq, Eq, PartialOrd, Ord)]
struct Key<'a> {
    first_part: u32,
    second_part: u32,
    third_part: u32,
    production: u16,
    numbers: [u64; 4],
    first_text: &'a [u8],
    second_text: &'a [u8],
    third_text: &'a [u8],
    fourth_text: &'a [u8],
}

/// The mark of a key: a number that equal keys share, computed in few instructions.
impl<'a> Marked for Key<'a> {
    ghost use Rattle.cpp_press.specs.Marks.{mark_of, marked-alike};

    ghost mark_of = { mark_of };

    fn mark(&self) -> u64 {
        let parts = self.first_part as u64 * 101
            + self.second_part as u64 * 307
            + self.third_part as u64 * 419;
        let numbers = self.numbers[0] % 65536 * 17 + self.numbers[1] % 65536 * 229;
        self.production as u64 * 59 + parts + numbers + text_mark(self.first_text)
    }

    ghost alike = { marked-alike };
}

/// A part of a node with `count` parts, if the node has a part at this place.
fn part_at(count: u32, place: u32, part: u32) -> Option<u32>
    ensures some { place < count → result ≡ Some part }
    ensures none { count ≤ place → result ≡ None }
{
    if place < count { Some(part) } else { None }
}

/// One more than the first node that is equal to a part, or 0 for no part.
fn part_number(firsts: &[u32], part: Option<u32>) -> u32
    requires part { IsSlotBelow (length firsts.now) part }
    requires below { AreBelow firsts.now 4294967295 }
    ensures { result ≡ part_number firsts.now part }
{
    match part {
        Some(part) => firsts[part as usize] + 1,
        None => 0,
    }
}

/// The key of a node, given the first equal node of each node before it.
fn key_of<'a>(symbol: &'a Symbol, firsts: &[u32], node: u32) -> Key<'a>
    requires node { node < length symbol.now.table.nodes }
    requires before { length firsts.now ≡ node }
    requires below { AreBelow firsts.now 4294967295 }
    ensures { IsKeyOf (plain_at symbol.now) firsts.now (plain_at symbol.now node) result }
{
    let seen = symbol.view_at(node);
    let details = details_of(symbol, node, seen.node);
    let [first_text, second_text, third_text, fourth_text] = details.texts;
    let [first, second, third] = seen.parts;
    let count = seen.node.parts;
    Key {
        production: seen.node.production,
        first_part: part_number(firsts, part_at(count, 0, first)),
        second_part: part_number(firsts, part_at(count, 1, second)),
        third_part: part_number(firsts, part_at(count, 2, third)),
        numbers: details.numbers,
        first_text: symbol.bytes_of(first_text),
        second_text: symbol.bytes_of(second_text),
        third_text: symbol.bytes_of(third_text),
        fourth_text: symbol.bytes_of(fourth_text),
    }
}

/// For each node of a symbol, the first node that is equal to it: an earlier one, or the node itself. `before` other nodes come before
/// the symbol's nodes, and their first nodes are in the table `keys`. The symbol's first nodes are added to this table.
///
/// # Errors
///
/// Only `Memory`.
fn firsts_after<'a>(
    alloc: Global,
    keys: &mut Firsts<Key<'a>>,
    symbol: &'a Symbol,
    before: u32,
) -> Result<Vec<u32>, Refusal>
    requires few { before ≤ 2147483647 }
    requires index { IsFound keys.old }
    requires next { (at : ℕ → Term) × (firsts : List ℕ) × ComeNext symbol.now at firsts before (found_in keys.old) }
    ensures index { OnOk result (IsFound keys.new) }
    ensures long { IfOk result (λ own. length own.items ≡ length symbol.now.table.nodes) }
    ensures few { IfOk result (λ own. length own.items ≤ 4294967295) }
    ensures firsts { IfOk result (λ own. (at : ℕ → Term) (firsts : List ℕ) → ComeNext symbol.now at firsts before (found_in keys.old)
        → AreFirsts at (IsKey at) (firsts ++ own.items) (found_in keys.new)) }
    ensures memory { IfErr result (λ e. e ≡ Memory) }
{
    let count = symbol.counts().nodes;
    let mut own = Vec::with_capacity(alloc, count as usize)?;
    for node in 0..count {
        let first = keys.first_with(key_of(symbol, &own, node), before + node)?;
        own.push(first)?;
    }
    Ok(own)
}

/// For each node of a symbol, the first node that is equal to it: an earlier one, or the node itself.
///
/// # Errors
///
/// Only `Memory`.
pub(crate) fn first_nodes(alloc: Global, symbol: &Symbol) -> Result<Vec<u32>, Refusal>
    ensures firsts { IfOk result (λ firsts. AreFirst symbol.now firsts.items) }
    ensures few { IfOk result (λ firsts. length firsts.items ≤ 4294967295) }
    ensures memory { IfErr result (λ e. e ≡ Memory) }
{
    let mut keys = Firsts::new(alloc, symbol.counts().nodes as usize)?;
    let firsts = firsts_after(alloc, &mut keys, symbol, 0)?;
    Ok(firsts)
}

/// Numbers the nodes of a C++ symbol. A tree that no earlier node has gets the next number, counted from 0. Each node takes two look-ups:
/// one for its first equal node, by what equal nodes have in common, and one for that node's number in a table.
///
/// # Errors
///
/// Only `Memory`.
pub fn numbers(alloc: Global, symbol: &Symbol) -> Result<Numbers, Refusal>
    ensures numbers { IfOk result (AreNumbers symbol.now) }
    ensures memory { IfErr result (λ e. e ≡ Memory) }
{
    let firsts = first_nodes(alloc, symbol)?;
    let numbers = Numbers::of_firsts(alloc, &firsts)?;
    Ok(numbers)
}

/// Whether two C++ symbols have one tree, by one table of keys for the nodes of both.
///
/// # Errors
///
/// Only `Memory`.
pub fn have_one_tree(alloc: Global, one: &Symbol, other: &Symbol) -> Result<bool, Refusal>
    ensures same { IfOk result (λ same. same ≡ same_tree (whole_of one.now) (whole_of other.now)) }
    ensures memory { IfErr result (λ e. e ≡ Memory) }
{
    let mut keys = Firsts::new(alloc, one.counts().nodes as usize)?;
    let firsts = firsts_after(alloc, &mut keys, one, 0)?;
    let others = firsts_after(alloc, &mut keys, other, one.counts().nodes)?;
    let first = firsts[one.root_node() as usize];
    let other_first = others[other.root_node() as usize];
    Ok(first == other_first)
}
