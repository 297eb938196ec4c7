// Lines that wait to be written.
ghost use Rattle.std.specs.Prelude.{◌≡◌, ◌≢◌, ◌+◌, ◌-◌, ◌^◌, ◌<◌, [], OnOk, OnErr, IfErr};
ghost use Rattle.sym_filter.specs.Streams.{Puts, PutsFront, writer_faults};

use std::alloc::Global;
use sym_filter::{FilterFault, Sink, write_out};

/// Lines are written once the answers, or what is said of words, have this many bytes.
const PAGE_SIZE: usize = 4_096;

/// Lines that wait to be written: answers, and what is said of words that have no text.
#[derive(Drop)]
pub struct Page {
    pub out: Vec<u8>,
    pub err: Vec<u8>,
}

impl Page {
    pub fn new(alloc: Global) -> Page
        ensures no_answers { result.out.items ≡ [] }
        ensures nothing_said { result.err.items ≡ [] }
    {
        Page {
            out: Vec::new(alloc),
            err: Vec::new(alloc),
        }
    }

    /// Writes the lines that wait, the answers first, and clears them.
    pub fn write<W: Sink, E: Sink>(&mut self, out: &mut W, err: &mut E) -> Result<(), FilterFault>
        requires out_failures { W.failure_count out.old < 2 ^ 64 - 1 }
        requires err_failures { E.failure_count err.old < 2 ^ 64 - 1 }
        ensures out { OnOk result (Puts (W.taken out.old) (W.taken out.new) self.old.out.items [] []) }
        ensures err { OnOk result (Puts (E.taken err.old) (E.taken err.new) self.old.err.items [] []) }
        ensures no_answers { OnOk result (self.new.out.items ≡ []) }
        ensures nothing_said { OnOk result (self.new.err.items ≡ []) }
        ensures out_front { OnErr result (PutsFront (W.taken out.old) (W.taken out.new) self.old.out.items []) }
        ensures err_front { OnErr result (PutsFront (E.taken err.old) (E.taken err.new) self.old.err.items []) }
        ensures fault { IfErr result (λ fault. fault ≢ FilterFault.Read) }
        ensures failures { W.failure_count out.new + E.failure_count err.new
            ≡ W.failure_count out.old + E.failure_count err.old + writer_faults result }
        ensures out_fails { OnOk result (W.failure_count out.new ≡ W.failure_count out.old) }
    {
        write_out(out, &mut self.out)?;
        write_out(err, &mut self.err)?;
        Ok(())
    }

    /// Writes the lines that wait, if they have at least `PAGE_SIZE` bytes on either stream.
    pub fn write_when_full<W: Sink, E: Sink>(
        &mut self,
        out: &mut W,
        err: &mut E,
    ) -> Result<(), FilterFault>
        requires out_failures { W.failure_count out.old < 2 ^ 64 - 1 }
        requires err_failures { E.failure_count err.old < 2 ^ 64 - 1 }
        ensures out { OnOk result (Puts (W.taken out.old) (W.taken out.new) self.old.out.items self.new.out.items []) }
        ensures err { OnOk result (Puts (E.taken err.old) (E.taken err.new) self.old.err.items self.new.err.items []) }
        ensures out_front { OnErr result (PutsFront (W.taken out.old) (W.taken out.new) self.old.out.items []) }
        ensures err_front { OnErr result (PutsFront (E.taken err.old) (E.taken err.new) self.old.err.items []) }
        ensures fault { IfErr result (λ fault. fault ≢ FilterFault.Read) }
        ensures failures { W.failure_count out.new + E.failure_count err.new
            ≡ W.failure_count out.old + E.failure_count err.old + writer_faults result }
        ensures out_fails { OnOk result (W.failure_count out.new ≡ W.failure_count out.old) }
    {
        if self.out.len() < PAGE_SIZE && self.err.len() < PAGE_SIZE {
            return Ok(());
        }
        self.write(out, err)?;
        Ok(())
    }
}
