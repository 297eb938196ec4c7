// Symbols that are read and printed one after the other with the same lists.

ghost use Rattle.std.specs.Prelude.{◌≡◌, ◌≢◌, ◌⊎◌, ◌++◌, ◌+◌, ◌<◌, ◌≤◌, ℕ, List, length, false, true, None, Some, Ok, Err, OnOk, OnErr, IfOk, IfErr};
ghost use Rattle.sym_core.specs.declared.TheConstants.{MOST_BYTES};
ghost use Rattle.sym_core.specs.Number.{FitsSymbol};
ghost use Rattle.sym_core.specs.declared.refusal.Refusal.TheVariants as refusals;
ghost use Rattle.sym_print.specs.Unshared.{text_of, cost_of};
ghost use Rattle.sym_shape.specs.Reader.{AreFew};
ghost use Rattle.sym_shape.specs.Tree.{AreRowsOf, AreStepsOf};
ghost use Rattle.sym_shape.specs.declared.rule.Row.{Row};
ghost use Rattle.sym_demangle.specs.Mangled.{IsReading, IsAnswer, StandsFor, IsRefused};
ghost use Rattle.sym_demangle.specs.Standing.{AreStepsInAll, AreLinkSteps, AreNodesOf, IsLinker};

use crate::linker::finished;
use crate::mangling::Mangling;
use std::alloc::Global;
use std::mem;
use sym_core::Refusal;
use sym_link::driver::Driver;
use sym_print::{Detail, Layout, Printer};
use sym_shape::{Reader, Shape, read_into};

/// The lists that symbols are read and printed with, one after the other.
///
/// The lists grow with the largest symbol and text so far, and stay as large: only the end of the workspace gives their memory back. A
/// symbol takes its lists along; `recycle` gives them back.
///
/// If a symbol's bytes arrive in pieces, `read_ahead` reads those that have arrived; the answers are the same without it.
#[derive(Drop)]
pub struct Workspace<M: Mangling> {
    alloc: Global,
    bytes: Vec<u8>,
    shape: Shape,
    linked: M::Linked,
    driver: Driver<M::Linked>,
    printer: Printer<<M::Symbol as Layout>::Ctx>,
    direct: M::Direct,
    // what was read ahead of a symbol whose end isn't known yet
    ahead: Reader<M>,
    ghost ahead_is_open: { ahead.ended ≡ false },
    // the memory sufficed for what was read ahead
    ghost ahead_has_memory: { ahead.refused ≢ Some refusals.Memory },
}

/// Feeds a reader more bytes, if there are any.
fn feed_more<M: Mangling>(reader: &mut Reader<M>, more: &[u8]) -> Result<(), Refusal>
    requires open { reader.old.ended ≡ false }
    requires room { length reader.old.bytes + length more.now ≤ MOST_BYTES }
    ensures bytes { OnOk result (reader.new.bytes ≡ reader.old.bytes ++ more.now) }
    ensures refusal { OnOk result (reader.new.refused ≡ reader.old.refused) }
    ensures open { reader.new.ended ≡ false }
    ensures memory { reader.old.refused ≡ None → IfErr result (λ e. e ≡ refusals.Memory) }
    ensures kept { IfErr result (λ e. reader.new.refused ≡ Some e) }
{
    if more.is_empty() {
        return Ok(());
    }
    reader.feed(more)
}

/// Resets a reader that ran out of memory, so that a later attempt starts afresh.
fn forget_memory<M: Mangling>(reader: &mut Reader<M>, refusal: Refusal)
    requires open { reader.old.ended ≡ false }
    requires kept { reader.old.refused ≡ Some refusal }
    ensures open { reader.new.ended ≡ false }
    ensures memory { reader.new.refused ≢ Some refusals.Memory }
{
    match refusal {
        Refusal::Memory => reader.reset(),
        _ => {}
    }
}

/// Feeds a reader more bytes, and reads what has arrived.
fn read_more<M: Mangling>(reader: &mut Reader<M>, more: &[u8])
    requires open { reader.old.ended ≡ false }
    requires room { length reader.old.bytes + length more.now ≤ MOST_BYTES }
    ensures open { reader.new.ended ≡ false }
    ensures memory { reader.new.refused ≢ Some refusals.Memory }
{
    if let Err(refusal) = feed_more(reader, more) {
        forget_memory(reader, refusal);
        return;
    }
    if let Err(refusal) = reader.run(&M::grammar()) {
        forget_memory(reader, refusal);
    }
}

/// Feeds a reader the rest of its symbol's bytes and their end, and reads them.
fn read_rest<M: Mangling>(reader: &mut Reader<M>, rest: &[u8]) -> Result<(), Refusal>
    requires open { reader.old.ended ≡ false }
    requires fits { FitsSymbol (reader.old.bytes ++ rest.now) }
    ensures bytes { OnOk result (reader.new.bytes ≡ reader.old.bytes ++ rest.now) }
    ensures ready { OnOk result (reader.new.ready ≡ true) }
    ensures open { OnOk result (reader.new.refused ≡ None) }
    ensures refused { IfErr result (λ e. (e ≡ refusals.Memory) ⊎ IsReading M.mangled (reader.old.bytes ++ rest.now) (Err e)) }
    ensures never_too_long { IfErr result (λ e. e ≢ refusals.TooLong) }
{
    reader.run(&M::grammar())?;
    feed_more(reader, rest)?;
    reader.feed(&[])?;
    reader.run(&M::grammar())?;
    Ok(())
}

impl<M: Mangling> Workspace<M> {
    /// Empty lists: nothing is allocated yet.
    pub fn new(alloc: Global) -> Workspace<M> {
        Workspace {
            alloc,
            bytes: Vec::new(alloc),
            shape: Shape::new(alloc),
            linked: M::idle(alloc),
            driver: Driver::new(alloc),
            printer: Printer::idle(alloc),
            direct: M::direct(alloc),
            ahead: Reader::with_lists(&M::grammar(), Vec::new(alloc), Shape::new(alloc)),
        }
    }

    /// Reads what has arrived of a symbol that may continue, once this is half as much again as
    /// what was read ahead before. So a token that arrives in small pieces isn't read again for
    /// each piece. Reading a symbol that begins with these bytes continues after them.
    pub fn read_ahead(&mut self, front: &[u8])
        requires { FitsSymbol front.now }
    {
        let known = self.ahead.len() as usize;
        if front.len() <= known + known / 2 {
            return;
        }
        let more = match front.strip_prefix(self.ahead.bytes()) {
            Some(more) => more,
            None => {
                self.ahead.reset();
                front
            }
        };
        read_more(&mut self.ahead, more);
    }

    /// Reads the symbol that was read ahead, given the rest of its bytes.
    fn read_on(&mut self, rest: &[u8]) -> Result<M::Symbol, Refusal>
        requires fits { FitsSymbol (self.old.ahead.bytes ++ rest.now) }
        ensures bytes { IfOk result (λ symbol. M.bytes_of symbol ≡ self.old.ahead.bytes ++ rest.now) }
        ensures symbol { IfOk result (λ symbol. IsReading M.mangled (self.old.ahead.bytes ++ rest.now) (Ok (M.whole_of symbol))) }
        ensures rows { IfOk result (λ symbol. (rows : List Row) × AreRowsOf M.mangled.table (self.old.ahead.bytes ++ rest.now) rows × (M.rows_of symbol ≡ length rows)) }
        ensures steps { IfOk result (λ symbol. AreStepsInAll M.mangled.table (self.old.ahead.bytes ++ rest.now) (M.steps_of symbol)) }
        ensures nodes { IfOk result (λ symbol. AreNodesOf M.mangled.table M.are_nodes (self.old.ahead.bytes ++ rest.now) (M.nodes_of symbol)) }
        ensures refused { IfErr result (λ e. (e ≡ refusals.Memory) ⊎ IsReading M.mangled (self.old.ahead.bytes ++ rest.now) (Err e)) }
        ensures never_too_long { IfErr result (λ e. e ≢ refusals.TooLong) }
    {
        let alloc = self.alloc;
        M::refuses_bad_tokens();
        let idle = Reader::with_lists(&M::grammar(), Vec::new(alloc), Shape::new(alloc));
        let mut reader = mem::replace(&mut self.ahead, idle);
        if let Err(refusal) = read_rest(&mut reader, rest) {
            reader.reset();
            self.ahead = reader;
            return Err(refusal);
        }
        let (bytes, shape) = reader.finish()?;
        let bytes = mem::replace(&mut self.bytes, bytes);
        let shape = mem::replace(&mut self.shape, shape);
        self.ahead = Reader::with_lists(&M::grammar(), bytes, shape);
        self.link()
    }

    /// Runs the driver over the rows of the symbol with these bytes, after the symbol's shape was
    /// read.
    #[inline(always)]
    fn run(&mut self) -> Result<(), Refusal>
        requires fits { FitsSymbol self.old.bytes.items }
        requires rows { AreRowsOf M.mangled.table self.old.bytes.items self.old.shape.rows }
        requires few { AreFew self.old.shape.steps (length self.old.shape.rows) (length self.old.bytes.items) }
        ensures bytes { self.new.bytes ≡ self.old.bytes }
        ensures shape { self.new.shape ≡ self.old.shape }
        ensures linked { OnOk result (IsLinker M.mangled.table (M.Linked.view self.old.bytes.items) self.old.bytes.items self.old.shape.rows self.old.shape.steps
            self.new.linked self.new.driver.steps self.new.driver.refused self.new.driver.next self.new.driver.frames.items self.new.driver.parts.items true) }
        ensures refused { IfErr result (IsRefused M.mangled self.old.bytes.items) }
    {
        M::restart(&mut self.linked, &self.bytes)?;
        self.driver.reset();
        self.driver
            .run(&mut self.linked, &self.bytes, self.shape.rows())?;
        Ok(())
    }

    /// The symbol, once the driver has run over its rows. The symbol takes the bytes along.
    #[inline(always)]
    fn finish(&mut self) -> M::Symbol
        requires { IsLinker M.mangled.table (M.Linked.view self.old.bytes.items) self.old.bytes.items self.old.shape.rows self.old.shape.steps
            self.old.linked self.old.driver.steps self.old.driver.refused self.old.driver.next self.old.driver.frames.items self.old.driver.parts.items true }
        ensures bytes { M.bytes_of result ≡ self.old.bytes.items }
        ensures stands { StandsFor M.mangled self.old.bytes.items (Ok (M.whole_of result)) }
        ensures rows { M.rows_of result ≡ length self.old.shape.rows }
        ensures steps { M.steps_of result ≡ self.old.shape.steps + self.old.driver.steps }
        ensures all_steps { AreLinkSteps M.mangled.table self.old.bytes.items self.old.driver.steps }
        ensures nodes { AreNodesOf M.mangled.table M.are_nodes self.old.bytes.items (M.nodes_of result) }
    {
        let bytes = mem::replace(&mut self.bytes, Vec::new(self.alloc));
        finished::<M>(bytes, &self.shape, &mut self.linked, &self.driver)
    }

    /// Links the symbol with these bytes, after its shape was read.
    fn link(&mut self) -> Result<M::Symbol, Refusal>
        requires fits { FitsSymbol self.old.bytes.items }
        requires rows { AreRowsOf M.mangled.table self.old.bytes.items self.old.shape.rows }
        requires steps { AreStepsOf M.mangled.table self.old.bytes.items self.old.shape.steps }
        requires few { AreFew self.old.shape.steps (length self.old.shape.rows) (length self.old.bytes.items) }
        ensures bytes { IfOk result (λ symbol. M.bytes_of symbol ≡ self.old.bytes.items) }
        ensures stands { IfOk result (λ symbol. StandsFor M.mangled self.old.bytes.items (Ok (M.whole_of symbol))) }
        ensures rows { IfOk result (λ symbol. M.rows_of symbol ≡ length self.old.shape.rows) }
        ensures steps { IfOk result (λ symbol. AreStepsInAll M.mangled.table self.old.bytes.items (M.steps_of symbol)) }
        ensures nodes { IfOk result (λ symbol. AreNodesOf M.mangled.table M.are_nodes self.old.bytes.items (M.nodes_of symbol)) }
        ensures refused { IfErr result (IsRefused M.mangled self.old.bytes.items) }
    {
        self.run()?;
        Ok(self.finish())
    }

    /// Reads a symbol, as the function `read` does.
    ///
    /// # Errors
    ///
    /// `Malformed` at the first bad byte of a symbol that isn't well shaped, `BadReference` and `BadValue` at the first bad
    /// token of one that is, `Memory` where a list couldn't grow.
    // When this function wasn't inlined in printing and pressing, real Rust symbols took 0.3 % more
    // instructions.
    #[inline(always)]
    pub fn read(&mut self, s: &[u8]) -> Result<M::Symbol, Refusal>
        requires { FitsSymbol s.now }
        ensures bytes { IfOk result (λ symbol. M.bytes_of symbol ≡ s.now) }
        ensures symbol { IfOk result (λ symbol. IsReading M.mangled s.now (Ok (M.whole_of symbol))) }
        // The rows, steps and nodes that are counted are those of the symbol's one tree.
        ensures rows { IfOk result (λ symbol. (rows : List Row) × AreRowsOf M.mangled.table s.now rows × (M.rows_of symbol ≡ length rows)) }
        ensures steps { IfOk result (λ symbol. AreStepsInAll M.mangled.table s.now (M.steps_of symbol)) }
        ensures nodes { IfOk result (λ symbol. AreNodesOf M.mangled.table M.are_nodes s.now (M.nodes_of symbol)) }
        ensures refused { IfErr result (λ e. (e ≡ refusals.Memory) ⊎ IsReading M.mangled s.now (Err e)) }
        ensures never_too_long { IfErr result (λ e. e ≢ refusals.TooLong) }
    {
        M::refuses_bad_tokens();
        if self.ahead.len() > 0
            && let Some(rest) = s.strip_prefix(self.ahead.bytes())
        {
            return self.read_on(rest);
        }
        read_into(&mut self.shape, &M::grammar(), s)?;
        self.bytes.clear();
        self.bytes.extend_from_slice(s)?;
        self.link()
    }

    /// Appends the text of a symbol in a detail, if it costs at most the limit.
    ///
    /// # Errors
    ///
    /// `TooLong` exactly where the text costs more, `Memory` where a list couldn't grow. The list is then as it was.
    pub fn print(
        &mut self,
        symbol: &M::Symbol,
        limit: u32,
        detail: Detail,
        out: &mut Vec<u8>,
    ) -> Result<(), Refusal>
        ensures text { OnOk result (out.new.items ≡ out.old.items ++ text_of (M.mangled.shown detail (M.whole_of symbol.now))) }
        ensures within { OnOk result (cost_of (M.mangled.shown detail (M.whole_of symbol.now)) ≤ limit) }
        ensures refusals { IfErr result (λ e. (e ≡ refusals.TooLong) ⊎ (e ≡ refusals.Memory)) }
        ensures too_long { result ≡ Err refusals.TooLong → limit < cost_of (M.mangled.shown detail (M.whole_of symbol.now)) }
        ensures same { OnErr result (out.new.items ≡ out.old.items) }
    {
        self.printer.reset(M::root(symbol, detail), limit)?;
        self.printer.run(symbol)?;
        out.extend_from_slice(self.printer.text())?;
        Ok(())
    }

    /// Takes back the lists of a symbol, to read the next one with them.
    pub fn recycle(&mut self, symbol: M::Symbol) {
        self.bytes = M::recycle(&mut self.linked, symbol);
    }

    /// Appends the text of a symbol in a detail, if it costs at most the limit. In full, a symbol of common parts is written
    /// while it is read, and its rows and nodes are never made.
    ///
    /// # Errors
    ///
    /// The refusals of `read`, and `TooLong` exactly where the text costs more than the limit. The list is then as it was.
    pub fn demangle_into(
        &mut self,
        s: &[u8],
        limit: u32,
        detail: Detail,
        out: &mut Vec<u8>,
    ) -> Result<(), Refusal>
        requires { FitsSymbol s.now }
        ensures text { OnOk result ((text : List ℕ) × (out.new.items ≡ out.old.items ++ text) × IsAnswer M.mangled detail s.now limit (Ok text)) }
        ensures refused { IfErr result (λ e. (e ≡ refusals.Memory) ⊎ IsAnswer M.mangled detail s.now limit (Err e)) }
        ensures same { OnErr result (out.new.items ≡ out.old.items) }
    {
        if M::write(&mut self.direct, s, limit, detail) {
            out.extend_from_slice(M::text(&self.direct))?;
            return Ok(());
        }
        self.demangle_by_rows(s, limit, detail, out)
    }

    /// Appends the text of a symbol, which is read into rows and nodes first.
    ///
    /// # Errors
    ///
    /// The refusals of `demangle_into`.
    fn demangle_by_rows(
        &mut self,
        s: &[u8],
        limit: u32,
        detail: Detail,
        out: &mut Vec<u8>,
    ) -> Result<(), Refusal>
        requires { FitsSymbol s.now }
        ensures text { OnOk result ((text : List ℕ) × (out.new.items ≡ out.old.items ++ text) × IsAnswer M.mangled detail s.now limit (Ok text)) }
        ensures refused { IfErr result (λ e. (e ≡ refusals.Memory) ⊎ IsAnswer M.mangled detail s.now limit (Err e)) }
        ensures same { OnErr result (out.new.items ≡ out.old.items) }
    {
        let symbol = self.read(s)?;
        let printed = self.print(&symbol, limit, detail, out);
        self.recycle(symbol);
        printed
    }
}
