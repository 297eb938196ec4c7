// Shapes, and reading a whole symbol.
ghost use Rattle.std.specs.Prelude.{◌≡◌, ◌≤◌, ◌+◌, ◌*◌, [], length, IfOk, IfErr, OnOk, OnErr};
ghost use Rattle.sym_core.specs.Number.{FitsSymbol};
ghost use Rattle.sym_shape.specs.Tree.{AreRowsOf, AreStepsOf};
ghost use Rattle.sym_shape.specs.Reader.{IsMalformedOrMemory, AreFew};
ghost use Rattle.sym_shape.specs.Room.{no_room, room_of, StaysWithin};

use crate::grammar::Grammar;
use crate::parse::Parse;
use crate::rule::Row;
use std::alloc::Global;
use std::marker::Model;
use sym_core::Refusal;

/// A row for each rule, chain and token of a symbol, in the order of their bytes.
///
/// A shape keeps the lists that it was read with, so that another symbol can be read with them.
#[derive(Drop)]
pub struct Shape {
    parse: Parse,
}

impl Model for Shape {
    ghost use Rattle.sym_shape.specs.Room.{room_of};
    ghost use Rattle.sym_shape.specs.Shaped.{Shaped};

    ghost Value = { Shaped };

    ghost view = { λ shape. record { rows = shape.parse.rows.items; steps = shape.parse.steps; room = room_of shape.parse } };
}

impl Shape {
    /// A shape of no symbol yet, into which one can be read.
    pub fn new(alloc: Global) -> Shape
        ensures rows { result.rows ≡ [] }
        ensures steps { result.steps ≡ 0 }
        ensures row_room { result.room.rows ≡ 0 }
        ensures rule_room { result.room.rules ≡ 0 }
    {
        Shape {
            parse: Parse::new(alloc),
        }
    }

    /// What was read.
    pub(crate) fn of(parse: Parse) -> Shape
        ensures rows { result.rows ≡ parse.rows.items }
        ensures steps { result.steps ≡ parse.steps }
        ensures room { result.room ≡ room_of parse }
    {
        Shape { parse }
    }

    /// The lists that the shape was read with.
    pub(crate) fn into_parse(self) -> Parse {
        self.parse
    }

    /// The rows in the order of their bytes.
    pub fn rows(&self) -> &[Row]
        ensures { result.now ≡ self.now.rows }
    {
        &self.parse.rows
    }

    /// How many steps the reader took.
    pub fn steps(&self) -> u32
        ensures { result ≡ self.now.steps }
    {
        self.parse.steps
    }
}

/// Reads a symbol by a grammar: a run of the reader over all of it.
///
/// # Errors
///
/// `Malformed` at the first bad byte, which is the length of the longest front that begins some well shaped symbol; or `Memory`.
pub fn read<G: Grammar>(alloc: Global, grammar: &G, s: &[u8]) -> Result<Shape, Refusal>
    requires { FitsSymbol s.now }
    // If the symbol is read, a tree spells it, and the rows and the steps are those of that tree.
    ensures rows { IfOk result (λ shape. AreRowsOf G.table s.now shape.rows) }
    ensures steps { IfOk result (λ shape. AreStepsOf G.table s.now shape.steps) }
    // If the symbol isn't read, it isn't well shaped, and the place is that of its first bad byte,
    // unless memory runs out.
    ensures refused { IfErr result (IsMalformedOrMemory G.table s.now) }
    ensures row_count { IfOk result (λ shape. length shape.rows ≤ 4 * length s.now + 4) }
    ensures step_count { IfOk result (λ shape. shape.steps ≤ 18 * length s.now + 14) }
    ensures each { IfOk result (λ shape. length shape.rows ≤ shape.steps) }
    ensures bounded { IfOk result (λ shape. StaysWithin (length s.now) no_room shape.room) }
{
    let mut shape = Shape::new(alloc);
    match read_into(&mut shape, grammar, s) {
        Ok(()) => Ok(shape),
        Err(refusal) => Err(refusal),
    }
}

/// Reads a symbol with the lists of a shape, which is then the symbol's.
///
/// # Errors
///
/// The refusals of `read`. The shape is then that of no symbol.
pub fn read_into<G: Grammar>(shape: &mut Shape, grammar: &G, s: &[u8]) -> Result<(), Refusal>
    requires { FitsSymbol s.now }
    ensures rows { OnOk result (AreRowsOf G.table s.now shape.new.rows) }
    ensures steps { OnOk result (AreStepsOf G.table s.now shape.new.steps) }
    ensures refused { IfErr result (IsMalformedOrMemory G.table s.now) }
    ensures no_rows { OnErr result (shape.new.rows ≡ []) }
    ensures no_steps { OnErr result (shape.new.steps ≡ 0) }
    ensures few { AreFew shape.new.steps (length shape.new.rows) (length s.now) }
    // Whether or not the symbol is refused, the shape's lists get room for no more than a symbol of
    // these bytes may need.
    ensures bounded { StaysWithin (length s.now) shape.old.room shape.new.room }
{
    shape.parse.restart();
    match shape.parse.run(grammar, s, true) {
        Ok(()) => Ok(()),
        Err(refusal) => {
            shape.parse.restart();
            Err(refusal)
        }
    }
}
