//! A table of nodes that share their parts, printed as the tree that it denotes.
#![tactic(auto)]

ghost use Rattle.std.specs.Prelude.{◌≡◌, ◌+◌, ◌<◌, ◌≤◌, length, vec_len, vec_capacity, [], true, IfOk, IfErr, IfSome};
ghost use Rattle.std.specs.List.{All};
ghost use Rattle.example_layout.specs.Dag.{IsLinked, doubled};
ghost use Rattle.sym_core.specs.declared.Refusal.{Refusal};

use arrayvec::ArrayVec;
use std::alloc::Global;
use sym_core::Refusal;
use sym_print::{Item, Layout, Part, Run, push_reversed};

#[cfg(test)]
mod tests;

/// A leaf with its byte, or a pair of earlier nodes.
#[derive(Clone, Copy)]
pub enum Node {
    Leaf(u8),
    Pair(u32, u32),
}

/// A table of nodes; the last one is the whole. A table can be printed if the parts of each node
/// precede the node.
#[derive(Drop)]
pub struct Dag {
    pub nodes: Vec<Node>,
}

impl Dag {
    /// A leaf, and `levels` pairs above it, each holding the node before it twice.
    ///
    /// Errors: `Memory`.
    pub fn doubling(alloc: Global, levels: u32) -> Result<Dag, Refusal>
        requires { levels < 4294967295 }
        ensures ok { IfOk result (λ dag. dag.nodes.items ≡ doubled levels) }
        ensures linked { IfOk result (λ dag. IsLinked 0 dag.nodes.items) }
        ensures len { IfOk result (λ dag. length dag.nodes.items ≡ levels + 1) }
        ensures err { IfErr result (λ refusal. refusal ≡ Refusal.Memory) }
    {
        let mut nodes = Vec::new(alloc);
        nodes.push(Node::Leaf(b'x'))?;
        let mut below = 0;
        while below < levels {
            nodes.push(Node::Pair(below, below))?;
            below += 1;
        }
        Ok(Dag { nodes })
    }
}

impl Layout for Dag {
    type Ctx = bool;

    ghost use Rattle.std.proofs.Common.{lit≤};
    ghost use Rattle.example_layout.specs.Dag.{MayCome, item_of, bytes_of, parts_of, rank};
    ghost use Rattle.sym_print.specs.Unfold.{printed};
    ghost use Rattle.sym_print.specs.Joined.{joined};
    ghost use Rattle.sym_print.specs.Stacked.{Stacked};
    ghost use Rattle.sym_print.specs.Runs.{IsRun};

    ghost may_come = { λ y part. IsLinked 0 y.nodes.items × MayCome y.nodes.items part };

    ghost unshared = { λ y item. printed parts_of rank (item_of y.nodes.items item) };

    ghost bytes_of = { λ _ part. bytes_of part };

    fn fill(&self, item: Item<bool>, parts: &mut ArrayVec<Part<bool>, 8>)
        requires may_come { IsLinked 0 self.now.nodes.items × MayCome self.now.nodes.items (Part.Sub item) }
        requires empty { parts.old.items ≡ [] }
        ensures parts { printed parts_of rank (item_of self.now.nodes.items item) ≡ joined (λ item. printed parts_of rank (item_of self.now.nodes.items item)) bytes_of parts.new.items }
        ensures may_come { All (λ part. IsLinked 0 self.now.nodes.items × MayCome self.now.nodes.items part) parts.new.items }
    {
        match self.nodes[item.node as usize] {
            Node::Leaf(byte) => parts.push(Part::Own([byte; 24], 1)),
            Node::Pair(left, right) => {
                parts.push(Part::Sub(Item {
                    node: left,
                    form: 0,
                    at: 0,
                    ctx: false,
                }));
                parts.push(Part::Fixed(if item.ctx { 1 } else { 0 }));
                parts.push(Part::Sub(Item {
                    node: right,
                    form: 0,
                    at: 0,
                    ctx: true,
                }));
            }
        }
    }

    fn push_parts(&self, item: Item<bool>, stack: &mut Vec<Part<bool>>)
        requires may_come { IsLinked 0 self.now.nodes.items × MayCome self.now.nodes.items (Part.Sub item) }
        requires room { vec_len stack.old + 8 ≤ vec_capacity stack.old }
        ensures parts { Stacked (λ item. printed parts_of rank (item_of self.now.nodes.items item)) bytes_of (λ part. IsLinked 0 self.now.nodes.items × MayCome self.now.nodes.items part) stack.old.items stack.new.items (printed parts_of rank (item_of self.now.nodes.items item)) }
        ensures few { vec_len stack.new ≤ vec_len stack.old + 8 }
        ensures capacity { vec_capacity stack.new ≡ vec_capacity stack.old }
    {
        let mut parts = ArrayVec::new();
        self.fill(item, &mut parts);
        push_reversed(stack, parts.as_slice());
    }

    fn is_noted(&self, item: Item<bool>) -> bool
        requires may_come { IsLinked 0 self.now.nodes.items × MayCome self.now.nodes.items (Part.Sub item) }
    {
        item.node > 0
    }

    fn is_same(&self, one: &Item<bool>, other: &Item<bool>) -> bool
        ensures { result ≡ true → one.now ≡ other.now }
    {
        one.node == other.node
            && one.form == other.form
            && one.at == other.at
            && one.ctx == other.ctx
    }

    fn begins_run(&self, _item: Item<bool>) -> bool
        requires may_come { IsLinked 0 self.now.nodes.items × MayCome self.now.nodes.items (Part.Sub _item) }
    {
        false
    }

    fn run(&self, _item: Item<bool>) -> Option<Run<bool>>
        requires may_come { IsLinked 0 self.now.nodes.items × MayCome self.now.nodes.items (Part.Sub _item) }
        ensures run { IfSome result (λ run. IsRun (λ item. printed parts_of rank (item_of self.now.nodes.items item)) bytes_of (λ part. IsLinked 0 self.now.nodes.items × MayCome self.now.nodes.items part) _item run) }
    {
        None
    }

    fn bytes<'a>(&'a self, part: &'a Part<bool>) -> &'a [u8] {
        match part {
            Part::Own(bytes, count) => &bytes[..*count as usize],
            Part::Fixed(0) => b",",
            _ => b";",
        }
    }

    ghost small_context = { (lit≤ tt, lit≤ tt) };
}
