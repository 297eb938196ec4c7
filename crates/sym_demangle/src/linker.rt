// From the rows of a symbol's shape to what the symbol denotes.

ghost use Rattle.std.specs.Prelude.{◌≡◌, ◌+◌, ◌≤◌, length, true, false, Some, None, Ok, Err, OnOk, OnErr, IfOk, IfErr, IfSome};
ghost use Rattle.sym_core.specs.Number.{FitsSymbol};
ghost use Rattle.sym_core.specs.declared.refusal.Refusal.TheVariants as refusals;
ghost use Rattle.sym_shape.specs.Tree.{AreRowsOf};
ghost use Rattle.sym_shape.specs.Reader.{AreFew};
ghost use Rattle.sym_link.specs.Linking.{TokenTakesMemory};
ghost use Rattle.sym_link.specs.Room.{KeepRoom, OnlyForRoom};
ghost use Rattle.sym_demangle.specs.Mangled.{StandsFor, IsRefused};
ghost use Rattle.sym_demangle.specs.Standing.{Progress, unlinked, AddsTwoEach, AreFewInAll, AreLinkSteps, AreNodesOf, IsLinker};

use crate::mangling::Mangling;
use std::alloc::Global;
use std::marker::Model;
use sym_core::Refusal;
use sym_link::driver::Driver;
use sym_shape::Shape;

/// Links a symbol: goes over the rows of its shape, and makes nodes for what they denote.
///
/// `step` is called until it answers true, or `run` once; then `finish` gives the symbol.
#[derive(Drop)]
pub struct Linker<M: Mangling> {
    bytes: Vec<u8>,
    shape: Shape,
    linked: M::Linked,
    driver: Driver<M::Linked>,
    done: bool,
}

impl<M: Mangling> Model for Linker<M> {
    ghost use Rattle.std.specs.Prelude.{length};
    ghost use Rattle.sym_link.specs.Linking.{all_lists};
    ghost use Rattle.sym_demangle.specs.Standing.{Progress, IsLinker};

    ghost Value = { Progress };

    ghost view = { λ l. record { bytes = l.bytes.items; rows = length l.shape.rows; read_steps = l.shape.steps; steps = l.driver.steps; nodes = M.count_of l.linked; done = l.done; refused = l.driver.refused; lists = all_lists (M.Linked.view l.bytes.items) l.linked l.driver.frames l.driver.parts } };

    ghost invariant = { λ l. IsLinker M.mangled.table (M.Linked.view l.bytes.items) l.bytes.items l.shape.rows l.shape.steps l.linked l.driver.steps l.driver.refused l.driver.next l.driver.frames.items l.driver.parts.items l.done };
}

/// The symbol whose rows a driver has gone over. Making it takes no memory.
#[inline(always)]
pub(crate) fn finished<M: Mangling>(
    bytes: Vec<u8>,
    shape: &Shape,
    linked: &mut M::Linked,
    driver: &Driver<M::Linked>,
) -> M::Symbol
    requires { IsLinker M.mangled.table (M.Linked.view bytes.items) bytes.items shape.now.rows shape.now.steps linked.old driver.now.steps driver.now.refused driver.now.next driver.now.frames.items driver.now.parts.items true }
    ensures bytes { M.bytes_of result ≡ bytes.items }
    ensures stands { StandsFor M.mangled bytes.items (Ok (M.whole_of result)) }
    ensures rows { M.rows_of result ≡ length shape.now.rows }
    ensures steps { M.steps_of result ≡ shape.now.steps + driver.now.steps }
    ensures all_steps { AreLinkSteps M.mangled.table bytes.items driver.now.steps }
    ensures nodes { AreNodesOf M.mangled.table M.are_nodes bytes.items (M.nodes_of result) }
{
    let rows = shape.rows().len() as u32;
    let steps = shape.steps() + driver.steps;
    M::finish(bytes, linked, &driver.parts, rows, steps)
}

impl<M: Mangling> Linker<M> {
    /// A linker of a symbol's bytes and their shape.
    ///
    /// # Errors
    ///
    /// `Memory` where a list couldn't grow.
    pub fn new(alloc: Global, bytes: Vec<u8>, shape: Shape) -> Result<Linker<M>, Refusal>
        requires fits { FitsSymbol bytes.items }
        requires rows { AreRowsOf M.mangled.table bytes.items shape.rows }
        requires few { AreFew shape.steps (length shape.rows) (length bytes.items) }
        ensures unlinked { IfOk result (λ linker. linker ≡ unlinked bytes.items (length shape.rows) shape.steps linker.nodes linker.lists) }
        ensures nodes { IfOk result (λ linker. linker.nodes ≤ 8) }
        ensures memory { IfErr result (λ e. e ≡ refusals.Memory) }
    {
        let mut linked = M::idle(alloc);
        M::restart(&mut linked, &bytes)?;
        Ok(Linker {
            bytes,
            shape,
            linked,
            driver: Driver::new(alloc),
            done: false,
        })
    }

    /// How many steps the linker took, without those of the reader.
    pub fn steps(&self) -> u32
        ensures steps { result ≡ self.now.steps }
        ensures few { AreFewInAll self.now }
    {
        self.driver.steps
    }

    /// One step over the rows; true once nothing is left to do. A step that answers true isn't counted.
    ///
    /// # Errors
    ///
    /// `BadReference` and `BadValue` at the first bad token of the symbol, or `Memory`; and the same from then on.
    pub fn step(&mut self) -> Result<bool, Refusal>
        ensures bytes { self.new.bytes ≡ self.old.bytes }
        ensures rows { self.new.rows ≡ self.old.rows }
        ensures read_steps { self.new.read_steps ≡ self.old.read_steps }
        // A step that answers false is counted, and the linker continues. The first refused step is
        // counted, too.
        ensures moved { result ≡ Ok false → (self.new.steps ≡ self.old.steps + 1) × (self.new.done ≡ false) }
        ensures counted { self.old.refused ≡ None → OnErr result (self.new.steps ≡ self.old.steps + 1) }
        // After true nothing is left to do, and the step itself did nothing.
        ensures done { result ≡ Ok true → self.new.done ≡ true }
        ensures same { result ≡ Ok true → self.new.steps ≡ self.old.steps }
        // The steps so far are then those of the symbol's one tree.
        ensures all_steps { result ≡ Ok true → AreLinkSteps M.mangled.table self.old.bytes self.new.steps }
        ensures open { OnOk result (self.new.refused ≡ None) }
        // A refusal has its reason, is kept, and is answered again.
        ensures refused { IfErr result (IsRefused M.mangled self.old.bytes) }
        ensures kept { IfErr result (λ e. self.new.refused ≡ Some e) }
        ensures again { IfSome self.old.refused (λ e. (result ≡ Err e) × (self.new ≡ self.old)) }
        // A linker that has answered true answers true again, and doesn't change.
        ensures done_again { self.old.done ≡ true → self.old.refused ≡ None → (result ≡ Ok true) × (self.new ≡ self.old) }
        // A step that is counted adds at most two nodes, refused or not, and no other step adds
        // any.
        ensures nodes { AddsTwoEach self.old self.new }
        ensures room { KeepRoom self.old.lists self.new.lists }
        // `Memory` is the first refusal only where a list had no room, or the symbol has a token that takes memory of its own.
        ensures full { self.old.refused ≡ None
            → OnlyForRoom (TokenTakesMemory (M.Linked.view self.old.bytes) self.old.bytes) self.old.lists self.new.lists result }
        ensures few { AreFewInAll self.new }
    {
        if let Some(refusal) = self.driver.refused {
            return Err(refusal);
        }
        if self.done {
            return Ok(true);
        }
        match self
            .driver
            .step(&mut self.linked, &self.bytes, self.shape.rows())
        {
            Ok(done) => {
                self.done = done;
                Ok(done)
            }
            Err(refusal) => Err(refusal),
        }
    }

    /// Steps until nothing is left to do, with the same outcome as one step after the other.
    ///
    /// # Errors
    ///
    /// Those of `step`.
    pub fn run(&mut self) -> Result<(), Refusal>
        ensures bytes { self.new.bytes ≡ self.old.bytes }
        ensures rows { self.new.rows ≡ self.old.rows }
        ensures read_steps { self.new.read_steps ≡ self.old.read_steps }
        ensures done { OnOk result (self.new.done ≡ true) }
        // The steps are then those of the symbol's one tree, by `step` or by `run`.
        ensures all_steps { OnOk result (AreLinkSteps M.mangled.table self.old.bytes self.new.steps) }
        ensures open { OnOk result (self.new.refused ≡ None) }
        ensures refused { IfErr result (IsRefused M.mangled self.old.bytes) }
        ensures kept { IfErr result (λ e. self.new.refused ≡ Some e) }
        ensures again { IfSome self.old.refused (λ e. (result ≡ Err e) × (self.new ≡ self.old)) }
        // A finished linker doesn't change.
        ensures done_again { self.old.done ≡ true → self.old.refused ≡ None → (result ≡ Ok tt) × (self.new ≡ self.old) }
        // Steps are counted, refused or not.
        ensures counted { self.old.steps ≤ self.new.steps }
        // Each step adds at most two nodes, refused or not.
        ensures nodes { AddsTwoEach self.old self.new }
        ensures room { KeepRoom self.old.lists self.new.lists }
        // `Memory` is the first refusal only where a list had no room, or the symbol has a token that takes memory of its own.
        ensures full { self.old.refused ≡ None
            → OnlyForRoom (TokenTakesMemory (M.Linked.view self.old.bytes) self.old.bytes) self.old.lists self.new.lists result }
        ensures few { AreFewInAll self.new }
    {
        if let Some(refusal) = self.driver.refused {
            return Err(refusal);
        }
        if self.done {
            return Ok(());
        }
        match self
            .driver
            .run(&mut self.linked, &self.bytes, self.shape.rows())
        {
            Ok(()) => {
                self.done = true;
                Ok(())
            }
            Err(refusal) => Err(refusal),
        }
    }

    /// The symbol. Making it takes no memory.
    pub fn finish(self) -> M::Symbol
        requires { self.done ≡ true }
        ensures bytes { M.bytes_of result ≡ self.bytes }
        ensures stands { StandsFor M.mangled self.bytes (Ok (M.whole_of result)) }
        ensures rows { M.rows_of result ≡ self.rows }
        ensures steps { M.steps_of result ≡ self.read_steps + self.steps }
        ensures all_steps { AreLinkSteps M.mangled.table self.bytes self.steps }
        ensures nodes { AreNodesOf M.mangled.table M.are_nodes self.bytes (M.nodes_of result) }
    {
        let Linker {
            bytes,
            shape,
            mut linked,
            driver,
            ..
        } = self;
        finished::<M>(bytes, &shape, &mut linked, &driver)
    }
}
