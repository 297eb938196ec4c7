// A small language, in which a rule means the number of its parts.

ghost use Rattle.std.specs.Prelude.{◌≡◌, ℕ};
ghost use Rattle.sym_shape.specs.Tree.{Tree};
ghost use Rattle.sym_link.specs.Following.{Fits, IsShape, meaning_of};
ghost use Rattle.sym_link.specs.Counting.{counting, IsNumber, Means};

use crate::driver::Driver;
use crate::language::{Frame, Linking};
use std::alloc::Global;
use sym_core::{Refusal, Span};
use sym_shape::rule::Row;

/// What a part denotes.
#[derive(Clone, Copy, Debug, PartialEq, Eq)]
pub enum Part {
    /// A token, which means the number of its bytes.
    Token(Span),
    /// A rule, by the number of its node.
    Node(usize),
}

/// The number of parts of each rule, in the order in which the rules close, and the bytes of all tokens.
#[derive(Drop)]
pub struct Counts {
    pub counts: Vec<usize>,
    pub text: Vec<u8>,
}

impl Linking for Counts {
    ghost use Rattle.std.specs.Prelude.{◌≡◌, ℕ, ◌<◌, ◌≤◌, length, OnOk, OnErr};
    ghost use Rattle.sym_link.specs.Linking.{HasRoom, IsOpen, OpensRoot, Opens, TakesToken, ClosesRule, Adds, AddsFew, Pays, KeepsRoom, NeedsRoom, TokenNeedsRoom, owed_behind, owed_next};
    ghost use Rattle.sym_link.specs.Room.{KeepRoom, OnlyForRoom};
    ghost use Rattle.sym_link.specs.Counting.{counting};
    ghost use Rattle.sym_link.specs.CountingLaws.{counting_laws};

    type Part = Part;

    type Kept = ();

    ghost Value = { ℕ };

    ghost State = { ℕ };

    ghost Context = { Unit {0} };

    ghost view = { counting };

    fn root(&mut self, _symbol: &[u8], _rows: &[Row], _row: Row) -> Result<(), Refusal>
        requires room { HasRoom (counting _symbol.now) _symbol.now self.old 0 }
        requires end { _row.end ≤ length _rows.now }
        ensures opens { OpensRoot (counting _symbol.now) _symbol.now _rows.now self.old self.new _row result }
        ensures adds { OnOk result (Adds (counting _symbol.now) self.old self.new 0 0) }
        ensures few { OnErr result ((counting _symbol.now).size self.new ≤ (counting _symbol.now).size self.old) }
        ensures pays { OnOk result (Pays (counting _symbol.now) self.old self.new 0 0) }
        ensures keeps { KeepRoom ((counting _symbol.now).lists self.old) ((counting _symbol.now).lists self.new) }
        ensures full { OnlyForRoom ⊥ ((counting _symbol.now).lists self.old) ((counting _symbol.now).lists self.new) result }
    {
        Ok(())
    }

    fn enter(
        &mut self,
        _symbol: &[u8],
        _rows: &[Row],
        _frame: &Frame<()>,
        _parts: &mut Vec<Part>,
        _row: Row,
    ) -> Result<(), Refusal>
        requires room { HasRoom (counting _symbol.now) _symbol.now self.old (owed_behind (counting _symbol.now) _frame.now _parts.old.items) }
        requires open { IsOpen (counting _symbol.now) _symbol.now self.old _frame.now _parts.old.items }
        requires base { _frame.now.base ≤ length _parts.old.items }
        requires place { _row.from < length _symbol.now }
        requires end { _row.end ≤ length _rows.now }
        ensures opens { Opens (counting _symbol.now) _symbol.now _rows.now self.old self.new _frame.now _parts.old.items _parts.new.items _row result }
        ensures adds { OnOk result (Adds (counting _symbol.now) self.old self.new (owed_behind (counting _symbol.now) _frame.now _parts.old.items) (owed_next (counting _symbol.now) _frame.now _parts.new.items)) }
        ensures few { OnErr result (AddsFew (counting _symbol.now) self.old self.new _frame.now _parts.old.items) }
        ensures pays { OnOk result ((at : ℕ) → at ≤ _row.from → Pays (counting _symbol.now) self.old self.new at _row.from) }
        ensures keeps { KeepsRoom (counting _symbol.now) self.old self.new _parts.old _parts.new }
        ensures full { NeedsRoom (counting _symbol.now) self.old self.new _parts.old _parts.new result }
    {
        Ok(())
    }

    fn token(
        &mut self,
        symbol: &[u8],
        frame: &Frame<()>,
        parts: &mut Vec<Part>,
        row: Row,
    ) -> Result<(), Refusal>
        requires room { HasRoom (counting symbol.now) symbol.now self.old (owed_behind (counting symbol.now) frame.now parts.old.items) }
        requires open { IsOpen (counting symbol.now) symbol.now self.old frame.now parts.old.items }
        requires base { frame.now.base ≤ length parts.old.items }
        requires from { row.from ≤ row.to }
        requires to { row.to ≤ length symbol.now }
        ensures takes { TakesToken (counting symbol.now) symbol.now self.old self.new frame.now parts.old.items parts.new.items row result }
        ensures adds { OnOk result (Adds (counting symbol.now) self.old self.new (owed_behind (counting symbol.now) frame.now parts.old.items) (owed_behind (counting symbol.now) frame.now parts.new.items)) }
        ensures few { OnErr result (AddsFew (counting symbol.now) self.old self.new frame.now parts.old.items) }
        ensures pays { OnOk result ((at : ℕ) → at ≤ row.from → (length parts.old.items ≡ frame.now.base → at ≤ frame.now.place)
            → Pays (counting symbol.now) self.old self.new at row.to) }
        ensures keeps { KeepsRoom (counting symbol.now) self.old self.new parts.old parts.new }
        ensures full { TokenNeedsRoom (counting symbol.now) symbol.now self.old self.new frame.now parts.old parts.new row result }
    {
        self.text
            .extend_from_slice(&symbol[row.from as usize..row.to as usize])?;
        parts.push(Part::Token(Span {
            from: row.from,
            to: row.to,
        }))?;
        Ok(())
    }

    fn close(
        &mut self,
        symbol: &[u8],
        frame: &Frame<()>,
        parts: &mut Vec<Part>,
    ) -> Result<(), Refusal>
        requires room { HasRoom (counting symbol.now) symbol.now self.old (owed_behind (counting symbol.now) frame.now parts.old.items) }
        requires open { IsOpen (counting symbol.now) symbol.now self.old frame.now parts.old.items }
        requires base { frame.now.base ≤ length parts.old.items }
        requires place { frame.now.place < length symbol.now }
        ensures closes { ClosesRule (counting symbol.now) symbol.now self.old self.new frame.now parts.old.items parts.new.items result }
        ensures adds { OnOk result (Adds (counting symbol.now) self.old self.new (owed_behind (counting symbol.now) frame.now parts.old.items) 0) }
        ensures few { AddsFew (counting symbol.now) self.old self.new frame.now parts.old.items }
        ensures pays { OnOk result ((at : ℕ) → Pays (counting symbol.now) self.old self.new at at) }
        ensures keeps { KeepsRoom (counting symbol.now) self.old self.new parts.old parts.new }
        ensures full { NeedsRoom (counting symbol.now) self.old self.new parts.old parts.new result }
    {
        let own = parts.len() - frame.base;
        if own > 3 {
            return Err(Refusal::BadValue { at: frame.place });
        }
        let node = self.counts.len();
        self.counts.push(own)?;
        parts.truncate(frame.base);
        parts.push(Part::Node(node))?;
        Ok(())
    }

    ghost laws = { counting_laws };
}

/// The number that a part denotes.
fn number_of(nodes: &Counts, part: Part) -> usize
    requires { (value : ℕ) × IsNumber nodes.now part value }
    ensures { (value : ℕ) → IsNumber nodes.now part value → result ≡ value }
{
    match part {
        Part::Token(span) => (span.to - span.from) as usize,
        Part::Node(node) => nodes.counts[node],
    }
}

/// How many parts the rule of a whole symbol has, from the rows of its shape.
pub fn count(alloc: Global, symbol: &[u8], rows: &[Row]) -> Result<usize, Refusal>
    requires fits { Fits symbol.now rows.now }
    requires shape { (tree : Tree) × IsShape (counting symbol.now).table symbol.now rows.now tree }
    ensures { (tree : Tree) → IsShape (counting symbol.now).table symbol.now rows.now tree
        → Means result (meaning_of (counting symbol.now) tree) }
{
    let mut nodes = Counts {
        counts: Vec::new(alloc),
        text: Vec::new(alloc),
    };
    let mut driver = Driver::new(alloc);
    driver.run(&mut nodes, symbol, rows)?;
    Ok(number_of(&nodes, driver.parts[0]))
}
