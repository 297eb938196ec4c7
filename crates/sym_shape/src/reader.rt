// A reader that is fed in pieces.
ghost use Rattle.std.specs.Prelude.{◌≡◌, ◌+◌, ◌<◌, ◌≤◌, ◌&&◌, length, vec_capacity, true, false, None, Some, Ok, Err, OnOk, OnErr, IfOk, IfErr, IfSome};
ghost use Rattle.sym_core.specs.declared.TheConstants.{MOST_BYTES};
ghost use Rattle.sym_core.specs.Number.{FitsSymbol};
ghost use Rattle.sym_shape.specs.Tree.{AreRowsOf, AreStepsOf, BeginsWellShaped};
ghost use Rattle.sym_shape.specs.Reader.{IsMalformedOrMemory};
ghost use Rattle.sym_shape.specs.Fed.{Fed, unfed, refusing, with_piece, with_room, is_answer, IsReason, IsWithinBounds};
ghost use Rattle.sym_shape.specs.Room.{no_room, KeepsRoom, StaysWithin, LacksRoom};

use crate::grammar::Grammar;
use crate::parse::Parse;
use crate::shape::Shape;
use std::alloc::Global;
use std::marker::{Model, PhantomData};
use sym_core::Refusal;

/// Reads a symbol that arrives in pieces.
///
/// After each piece `step` is called until it answers true, or `run` once. A piece without bytes is the end; once the reader is
/// then `ready`, `finish` gives the shape.
#[derive(Drop)]
pub struct Reader<G: Grammar> {
    bytes: Vec<u8>,
    ended: bool,
    ready: bool,
    refused: Option<Refusal>,
    parse: Parse,
    grammar: PhantomData<G>,
}

impl<G: Grammar> Model for Reader<G> {
    ghost use Rattle.std.specs.Prelude.{length, vec_capacity};
    ghost use Rattle.sym_shape.specs.Fed.{Fed, IsFed};
    ghost use Rattle.sym_shape.specs.Room.{room_of};

    ghost Value = { Fed };

    ghost view = { λ r. record { bytes = r.bytes.items; ended = r.ended; ready = r.ready; refused = r.refused; steps = r.parse.steps; rows = length r.parse.rows.items; rules = length r.parse.below.items; byte_room = vec_capacity r.bytes; room = room_of r.parse } };

    ghost invariant = { λ r. IsFed G.listed G.table r.bytes.items r.ended r.ready r.refused r.parse };
}

impl<G: Grammar> Reader<G> {
    /// A reader that was fed nothing. Its lists take memory only once they grow, so nothing is refused here.
    pub fn new(alloc: Global, grammar: &G) -> Result<Self, Refusal>
        ensures { result ≡ Ok (unfed 0 no_room) }
    {
        Ok(Reader {
            bytes: Vec::new(alloc),
            ended: false,
            ready: false,
            refused: None,
            parse: Parse::new(alloc),
            grammar: PhantomData,
        })
    }

    /// A reader that was fed nothing, with the lists of one that has finished. Making it takes no
    /// memory.
    pub fn with_lists(grammar: &G, mut bytes: Vec<u8>, shape: Shape) -> Self
        ensures { result ≡ unfed (vec_capacity bytes) result.room }
    {
        bytes.clear();
        let mut parse = shape.into_parse();
        parse.restart();
        Reader {
            bytes,
            ended: false,
            ready: false,
            refused: None,
            parse,
            grammar: PhantomData,
        }
    }

    /// Gives up what was fed, for another symbol with the same lists.
    pub fn reset(&mut self)
        ensures { self.new ≡ unfed self.old.byte_room self.old.room }
    {
        self.bytes.clear();
        self.ended = false;
        self.ready = false;
        self.refused = None;
        self.parse.restart();
    }

    /// How many bytes were fed.
    pub fn len(&self) -> u32
        ensures { result ≡ length self.now.bytes }
    {
        self.bytes.len() as u32
    }

    /// The bytes that were fed.
    pub fn bytes(&self) -> &[u8]
        ensures { result.now ≡ self.now.bytes }
    {
        &self.bytes
    }

    /// Whether the end was given.
    pub fn ended(&self) -> bool
        ensures { result ≡ self.now.ended }
    {
        self.ended
    }

    /// Whether the end was given and `step` has since answered true or a refusal.
    pub fn ready(&self) -> bool
        ensures { result ≡ self.now.ready }
    {
        self.ready
    }

    /// How many steps were taken.
    pub fn steps(&self) -> u32
        ensures steps { result ≡ self.now.steps }
        ensures few { IsWithinBounds self.now }
    {
        self.parse.steps
    }

    /// Takes a piece of the symbol; one without bytes is the end.
    ///
    /// # Errors
    ///
    /// The refusal that the reader has already answered, or `Memory`. A refused piece isn't kept and doesn't count as the end.
    pub fn feed(&mut self, piece: &[u8]) -> Result<(), Refusal>
        requires open { self.old.ended ≡ false }
        requires room { length self.old.bytes + length piece.now ≤ MOST_BYTES }
        ensures ok { OnOk result (self.new ≡ with_room (with_piece self.old piece.now) self.new.byte_room) }
        ensures open { OnOk result (self.old.refused ≡ None) }
        ensures refused { IfErr result (λ refusal. self.new ≡ with_room (refusing self.old refusal) self.new.byte_room) }
        // A refusal is answered again; a new one can only be `Memory`.
        ensures again { IfSome self.old.refused (λ refusal. result ≡ Err refusal) }
        ensures memory { self.old.refused ≡ None → IfErr result (λ refusal. refusal ≡ Refusal.Memory) }
        ensures full { self.old.refused ≡ None → OnErr result (self.old.byte_room < length self.old.bytes + length piece.now) }
        ensures byte_room { self.old.byte_room ≤ self.new.byte_room }
    {
        if let Some(refusal) = self.refused {
            return Err(refusal);
        }
        if piece.is_empty() {
            self.ended = true;
            return Ok(());
        }
        match self.bytes.extend_from_slice(piece) {
            Ok(()) => Ok(()),
            Err(_) => {
                self.refused = Some(Refusal::Memory);
                Err(Refusal::Memory)
            }
        }
    }

    /// One step; true where it wants more bytes, or the end was given and all is read.
    ///
    /// A step that answers true isn't counted. A step that waits for a token reads again what has
    /// arrived of the token.
    ///
    /// # Errors
    ///
    /// `Malformed` at the first bad byte, as soon as the bytes fed so far show it, or `Memory`; and the same from then on.
    pub fn step(&mut self, grammar: &G) -> Result<bool, Refusal>
        ensures bytes { self.new.bytes ≡ self.old.bytes }
        ensures ended { self.new.ended ≡ self.old.ended }
        ensures ready { self.new.ready ≡ (self.old.ended && is_answer result) }
        // A reader that has refused, or is ready, answers the same again and doesn't change.
        ensures again { IfSome self.old.refused (λ refusal. (result ≡ Err refusal) × (self.new ≡ self.old)) }
        ensures done { self.old.ready ≡ true → self.new ≡ self.old }
        // A move is counted, and makes at most one row.
        ensures moved { result ≡ Ok false → self.new.steps ≡ self.old.steps + 1 }
        ensures one_row { self.new.rows ≤ self.old.rows + 1 }
        // More bytes are wanted only after bytes that begin a well shaped symbol; the step isn't counted.
        ensures wants { result ≡ Ok true → BeginsWellShaped G.table self.old.bytes }
        ensures steps { result ≡ Ok true → self.new.steps ≡ self.old.steps }
        ensures rows { result ≡ Ok true → self.new.rows ≡ self.old.rows }
        ensures open { OnOk result (self.new.refused ≡ None) }
        // The first refusal is counted, and has its reason.
        ensures refused { IfErr result (λ refusal. self.new.refused ≡ Some refusal) }
        ensures reason { IfErr result (IsReason G.table self.old.ended self.old.bytes) }
        ensures counted { self.old.refused ≡ None → OnErr result (self.new.steps ≡ self.old.steps + 1) }
        // The first refusal is `Memory` only where a list had no room.
        ensures full { self.old.refused ≡ None → result ≡ Err Refusal.Memory → LacksRoom 1 self.old.room self.new.rows self.new.rules }
        ensures room { KeepsRoom self.old.room self.new.room }
        // Refused or not, the lists get room for no more than a symbol of these bytes may need.
        ensures bounded { StaysWithin (length self.old.bytes) self.old.room self.new.room }
        ensures byte_room { self.new.byte_room ≡ self.old.byte_room }
        ensures few { IsWithinBounds self.new }
    {
        if let Some(refusal) = self.refused {
            return Err(refusal);
        }
        if self.ready {
            return Ok(true);
        }
        match self.parse.advance(grammar, &self.bytes, self.ended) {
            Ok(true) => {
                self.ready = self.ended;
                Ok(true)
            }
            Ok(false) => Ok(false),
            Err(refusal) => {
                self.ready = self.ended;
                self.refused = Some(refusal);
                Err(refusal)
            }
        }
    }

    /// Steps until `step` would answer true or a refusal: all the steps that these bytes allow, each of them counted.
    ///
    /// # Errors
    ///
    /// Those of `step`.
    pub fn run(&mut self, grammar: &G) -> Result<(), Refusal>
        ensures bytes { self.new.bytes ≡ self.old.bytes }
        ensures ended { self.new.ended ≡ self.old.ended }
        ensures ready { self.new.ready ≡ self.old.ended }
        // A reader that has refused, or is ready, doesn't change.
        ensures again { IfSome self.old.refused (λ refusal. (result ≡ Err refusal) × (self.new ≡ self.old)) }
        ensures done { self.old.ready ≡ true → self.new ≡ self.old }
        // Each step is counted, and makes at most one row.
        ensures steps { self.old.steps ≤ self.new.steps }
        ensures rows { self.new.rows + self.old.steps ≤ self.old.rows + self.new.steps }
        ensures wants { OnOk result (BeginsWellShaped G.table self.old.bytes) }
        ensures open { OnOk result (self.new.refused ≡ None) }
        ensures refused { IfErr result (λ refusal. self.new.refused ≡ Some refusal) }
        ensures reason { IfErr result (IsReason G.table self.old.ended self.old.bytes) }
        // The first refusal is `Memory` only where a list had no room: a token and its rule are two
        // rows.
        ensures full { self.old.refused ≡ None → result ≡ Err Refusal.Memory → LacksRoom 2 self.old.room self.new.rows self.new.rules }
        ensures room { KeepsRoom self.old.room self.new.room }
        // Refused or not, the lists get room for no more than a symbol of these bytes may need.
        ensures bounded { StaysWithin (length self.old.bytes) self.old.room self.new.room }
        ensures byte_room { self.new.byte_room ≡ self.old.byte_room }
        ensures few { IsWithinBounds self.new }
    {
        if let Some(refusal) = self.refused {
            return Err(refusal);
        }
        if self.ready {
            return Ok(());
        }
        let outcome = self.parse.run(grammar, &self.bytes, self.ended);
        self.ready = self.ended;
        match outcome {
            Ok(()) => Ok(()),
            Err(refusal) => {
                self.refused = Some(refusal);
                Err(refusal)
            }
        }
    }

    /// The bytes that were fed and their shape. The call takes no memory.
    ///
    /// # Errors
    ///
    /// The refusal that the reader has already answered.
    pub fn finish(self) -> Result<(Vec<u8>, Shape), Refusal>
        requires { self.ready ≡ true }
        ensures bytes { IfOk result (λ read. read.0.items ≡ self.bytes) }
        ensures fits { FitsSymbol self.bytes }
        ensures rows { IfOk result (λ read. AreRowsOf G.table self.bytes read.1.rows) }
        // The steps are those of the one tree of these bytes, by `step` or by `run`.
        ensures steps { IfOk result (λ read. AreStepsOf G.table self.bytes read.1.steps) }
        ensures row_count { IfOk result (λ read. length read.1.rows ≡ self.rows) }
        ensures step_count { IfOk result (λ read. read.1.steps ≡ self.steps) }
        ensures room { IfOk result (λ read. read.1.room ≡ self.room) }
        ensures open { OnOk result (self.refused ≡ None) }
        ensures refused { IfErr result (λ refusal. self.refused ≡ Some refusal) }
        ensures reason { IfErr result (IsMalformedOrMemory G.table self.bytes) }
        ensures few { IsWithinBounds self }
    {
        match self.refused {
            Some(refusal) => Err(refusal),
            None => Ok((self.bytes, Shape::of(self.parse))),
        }
    }
}
