// Numbers of nodes, assigned in the order of the nodes.
#![tactic(auto)]

ghost use Rattle.std.specs.Prelude.{◌≡◌, ◌<◌, ◌≤◌, length, IfOk, IfErr};
ghost use Rattle.sym_core.specs.declared.Refusal.TheVariants.{Memory};
ghost use Rattle.sym_spell.specs.Numbers.{AreBelow, AreNumbered, number_at};

use indexmap::IndexSet;
use std::alloc::Global;
use std::marker::Model;
use sym_core::Refusal;

/// A number for each node of a symbol: nodes with equal trees have the same number, others don't.
#[derive(Drop)]
pub struct Numbers {
    numbers: Vec<u32>,
    looks: u32,
}

impl Model for Numbers {
    ghost use Rattle.std.specs.Prelude.{◌≡◌, ℕ, List, length};
    ghost use Rattle.sym_spell.specs.Numbers.{AreBelow};

    ghost Value = { List ℕ };

    ghost view = { λ n. n.numbers.items };

    ghost invariant = { λ n. AreBelow n.numbers.items n.looks × (n.looks ≡ length n.numbers.items) };
}

impl Numbers {
    /// Numbers nodes, given the first node that equals each, with one look-up in a map for each node. A first node that comes
    /// for the first time gets the next number, counted from 0.
    ///
    /// The map has room for each node from the start, so that no choice of first nodes makes its look-ups long.
    ///
    /// # Errors
    ///
    /// Only `Memory`.
    pub fn of_firsts(alloc: Global, firsts: &[u32]) -> Result<Numbers, Refusal>
        requires few { length firsts.now ≤ 4294967295 }
        ensures numbers { IfOk result (AreNumbered (number_at firsts.now) (length firsts.now)) }
        ensures memory { IfErr result (λ e. e ≡ Memory) }
    {
        let count = firsts.len();
        let mut entries = IndexSet::with_capacity(alloc, count)?;
        let mut numbers = Vec::with_capacity(alloc, count)?;
        let mut looks = 0;
        for node in 0..count {
            let (number, _) = entries.insert_full(firsts[node])?;
            looks += 1;
            numbers.push(number as u32)?;
        }
        Ok(Numbers { numbers, looks })
    }

    /// The number of a node, which is given by its place in the symbol. The call takes no memory.
    pub fn number_of(&self, node: u32) -> u32
        requires { node < length self.now }
        ensures number { result ≡ number_at self.now node }
        ensures below { result < length self.now }
    {
        self.numbers[node as usize]
    }

    /// How many look-ups were made: one for each node. The count is above every number. The call takes no memory.
    pub fn looks(&self) -> u32
        ensures each { result ≡ length self.now }
        ensures above { AreBelow self.now result }
    {
        self.looks
    }
}
