// A report that writes what is said of a text's words to a sink.
ghost use Rattle.std.specs.Prelude.{◌≡◌, ◌≢◌, ◌+◌, ◌-◌, ◌^◌, ◌<◌, [], false, IfOk, OnOk, OnErr, IfErr};
ghost use Rattle.std.specs.Io.KnownBytes.{Appends};
ghost use Rattle.sym_filter.specs.Entries.{newline_of, newlines_in};
ghost use Rattle.sym_filter.specs.Streams.{PutsFront, writer_faults};
ghost use Rattle.demangle_names.specs.Saying.{line_after};

use std::alloc::{AllocError, Global};
use sym_filter::{FilterFault, Report, Sink, write_all};

/// What is said of a word, and whether the word stays.
#[derive(Drop)]
pub struct Said {
    pub bytes: Vec<u8>,
    pub stays: bool,
}

/// Says something of each word of a text, for a report.
pub trait Says {
    ghost use Rattle.demangle_names.specs.Saying.{Saying};

    // what is said of each word, and whether the word stays
    ghost saying: { Self → Saying };

    /// What is said of a word in a line of the text; the first line is line 1.
    fn say(&self, alloc: Global, line: u64, word: &[u8]) -> Result<Said, AllocError>
        ensures bytes { IfOk result (λ said. said.bytes.items ≡ (saying self.now).says line word.now) }
        ensures stays { IfOk result (λ said. said.stays ≡ (saying self.now).stays word.now) };
}

/// A report that writes what is said of each word to a sink.
#[derive(Drop)]
pub struct WordReport<'r, S: Says, E: Sink> {
    alloc: Global,
    says: &'r S,
    out: &'r mut E,
    // the number of the line that has been reached in the text, from 1 on
    line: u64,
    one_stays: bool,
}

impl<'r, S: Says, E: Sink> WordReport<'r, S, E> {
    /// A report at the beginning of a text.
    pub fn new(alloc: Global, says: &'r S, out: &'r mut E) -> WordReport<'r, S, E>
        ensures says { result.says.now ≡ says.now }
        ensures same_reference { result.out.ghost_name ≡ out.entry.ghost_name }
        ensures out { result.out.now ≡ out.old }
        ensures first { result.line ≡ 1 }
        ensures none_stays { result.one_stays ≡ false }
    {
        WordReport {
            alloc,
            says,
            out,
            line: 1,
            one_stays: false,
        }
    }

    /// Whether one of the words that the report has taken stays.
    pub fn one_stays(&self) -> bool
        ensures { result ≡ self.now.one_stays }
    {
        self.one_stays
    }
}

/// The number of the line after some bytes of a text.
fn line_after(line: u64, bytes: &[u8]) -> u64
    ensures { result ≡ line_after line (newlines_in bytes.now) }
{
    let mut here = line;
    'bytes: for byte in bytes {
        here = next_line(here, *byte);
    }
    here
}

/// The number of the line after a byte.
fn next_line(line: u64, byte: u8) -> u64
    ensures { result ≡ line_after line (newline_of byte) }
{
    if byte == b'\n' {
        return line.saturating_add(1);
    }
    line
}

/// Writes what is said.
pub(crate) fn write_said<E: Sink>(out: &mut E, bytes: &[u8]) -> Result<(), FilterFault>
    requires { E.failure_count out.old < 2 ^ 64 - 1 }
    ensures ok { OnOk result (Appends (E.taken out.old) (E.taken out.new) bytes.now) }
    ensures err { OnErr result (PutsFront (E.taken out.old) (E.taken out.new) [] bytes.now) }
    ensures fault { IfErr result (λ fault. fault ≢ FilterFault.Read) }
    ensures failures { E.failure_count out.new ≡ E.failure_count out.old + writer_faults result }
{
    match write_all(out, bytes) {
        Ok(()) => Ok(()),
        Err(fault) => Err(fault),
    }
}

impl<'r, S: Says, E: Sink> Report for WordReport<'r, S, E> {
    ghost use Rattle.std.proofs.Common.{refl, ◌∙◌};
    ghost use Rattle.demangle_names.specs.Saying.{Told, Untold};
    ghost use Rattle.demangle_names.specs.SayingLaws.{told-both, told-none, untold-before, untold-later, untold-within};

    ghost failure_count = { λ report. E.failure_count report.out.now };

    ghost Tells = { λ old new entries. (old.out.ghost_name ≡ new.out.ghost_name)
        × Told (S.saying old.says.now) (S.saying new.says.now) old.line new.line old.one_stays new.one_stays (E.taken old.out.now) (E.taken new.out.now) entries };

    ghost Stops = { λ old new entries. (old.out.ghost_name ≡ new.out.ghost_name) × Untold (S.saying old.says.now) old.line (E.taken old.out.now) (E.taken new.out.now) entries };

    ghost tells_none = { λ report. (refl, told-none (S.saying report.says.now) report.line report.one_stays (E.taken report.out.now)) };

    ghost tells_both = { λ old mid new entries more h i. (
      h.0 ∙ i.0,
      told-both (S.saying old.says.now) (S.saying mid.says.now) (S.saying new.says.now) old.line mid.line new.line old.one_stays mid.one_stays new.one_stays (E.taken old.out.now) (E.taken mid.out.now) (E.taken new.out.now) entries more h.1 i.1,
    ) };

    ghost stops_within = { λ old new entries more h. (
      h.0,
      untold-within (S.saying old.says.now) (S.saying new.says.now) old.line new.line old.one_stays new.one_stays (E.taken old.out.now) (E.taken new.out.now) entries more h.1,
    ) };

    ghost stops_later = { λ old mid new entries more h i. (
      h.0 ∙ i.0,
      untold-later (S.saying old.says.now) (S.saying mid.says.now) old.line mid.line old.one_stays mid.one_stays (E.taken old.out.now) (E.taken mid.out.now) (E.taken new.out.now) entries more h.1 i.1,
    ) };

    ghost stops_before = { λ old new entries more h. (
      h.0,
      untold-before (S.saying old.says.now) old.line (E.taken old.out.now) (E.taken new.out.now) entries more h.1,
    ) };

    fn passes(&mut self, bytes: &[u8]) {
        self.line = line_after(self.line, bytes);
    }

    fn leaves(&mut self, word: &[u8]) -> Result<(), FilterFault> {
        let said = self.says.say(self.alloc, self.line, word)?;
        self.one_stays |= said.stays;
        write_said(self.out, &said.bytes)
    }
}
