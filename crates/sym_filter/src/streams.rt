// Where the filter's bytes come from and go to.
ghost use Rattle.std.specs.Prelude.{◌≡◌, ◌≢◌, ◌+◌, ◌-◌, ◌^◌, ◌<◌, ◌≤◌, ℕ, List, [], length, take, Option, IsSome, IfSome, IfNone, OnOk, IfErr};
ghost use Rattle.std.specs.Io.KnownBytes.{Appends, Consumes, Keeps, IsAtEnd};
ghost use Rattle.sym_filter.specs.Streams.{read_failures, write_failures, writer_faults, BeginsWith, Puts, PutsFront};

use std::alloc::{AllocError, AllocFailed};
use thiserror::Error;

/// Why a text was not filtered to its end.
#[derive(Clone, Copy, Debug, PartialEq, Eq, Error)]
pub enum FilterFault {
    #[error("read failed")]
    Read,
    #[error("write failed")]
    Write,
    #[error("out of memory")]
    Memory,
}

impl From<AllocError> for FilterFault {
    ghost use Rattle.sym_filter.specs.declared.streams.FilterFault.TheVariants.{Memory};

    ghost from_gives = { λ _ fault. fault ≡ Memory };

    fn from(_error: AllocError) -> FilterFault {
        FilterFault::Memory
    }
}

impl<T: Drop> From<AllocFailed<T>> for FilterFault {
    ghost use Rattle.sym_filter.specs.declared.streams.FilterFault.TheVariants.{Memory};

    ghost from_gives = { λ _ fault. fault ≡ Memory };

    fn from(_error: AllocFailed<T>) -> FilterFault {
        FilterFault::Memory
    }
}

/// What bytes are read from.
pub trait Source {
    // the bytes still to come, where they are known
    ghost coming: { Self → Option (List ℕ) };
    // how often the source has failed
    ghost failure_count: { Self → ℕ };
    // the reads that the source can still answer
    ghost reads_left: { Self → ℕ };

    /// Reads bytes into a room's front, and says how many; `None` is a failure. For a nonempty room, 0 means the end.
    fn read(&mut self, room: &mut [u8]) -> Option<usize>
        requires { failure_count self.old < 2 ^ 64 - 1 }
        ensures within { IfSome result (λ count. count ≤ length room.new) }
        ensures bytes { IfSome result (λ count. Consumes (coming self.old) (coming self.new) (take count room.new)) }
        ensures end { IfSome result (λ count. count ≡ 0 → 0 < length room.new → IsAtEnd (coming self.new)) }
        ensures failed { IfNone result (Keeps (coming self.old) (coming self.new)) }
        ensures failures { failure_count self.new ≡ failure_count self.old + read_failures result }
        ensures left { IsSome result → reads_left self.new < reads_left self.old }
        ensures left_at_failure { reads_left self.new ≤ reads_left self.old };

    /// How often the source has failed.
    fn failures(&self) -> u64
        ensures { result ≡ failure_count self.now };

    /// How many reads the source can still answer. With none left it fails.
    fn left(&self) -> u64
        ensures { result ≡ reads_left self.now };
}

/// What bytes are written to.
pub trait Sink {
    // the bytes taken so far, where they are known
    ghost taken: { Self → Option (List ℕ) };
    // how often the sink has failed
    ghost failure_count: { Self → ℕ };

    /// Takes bytes from the front of a piece, and says how many. `None` is a failure, with none taken.
    fn write(&mut self, bytes: &[u8]) -> Option<usize>
        requires { failure_count self.old < 2 ^ 64 - 1 }
        ensures within { IfSome result (λ count. count ≤ length bytes.now) }
        ensures bytes { IfSome result (λ count. Appends (taken self.old) (taken self.new) (take count bytes.now)) }
        ensures failed { IfNone result (Keeps (taken self.old) (taken self.new)) }
        ensures failures { failure_count self.new ≡ failure_count self.old + write_failures result bytes.now };

    /// How often the sink has failed. A write that took no byte of a nonempty piece counts as a
    /// failure.
    fn failures(&self) -> u64
        ensures { result ≡ failure_count self.now };
}

/// Writes all the bytes, or as many as the sink takes before it fails.
pub fn write_all<W: Sink>(writer: &mut W, bytes: &[u8]) -> Result<(), FilterFault>
    requires { W.failure_count writer.old < 2 ^ 64 - 1 }
    ensures ok { OnOk result (Appends (W.taken writer.old) (W.taken writer.new) bytes.now) }
    ensures err { IfErr result (λ fault. (fault ≡ FilterFault.Write) × ((gone : List ℕ)
        × Appends (W.taken writer.old) (W.taken writer.new) gone × BeginsWith bytes.now gone)) }
    ensures failures { W.failure_count writer.new ≡ W.failure_count writer.old + writer_faults result }
{
    let mut written = 0;
    while written < bytes.len() {
        let Some(count) = writer.write(&bytes[written..]) else {
            return Err(FilterFault::Write);
        };
        if count == 0 {
            return Err(FilterFault::Write);
        }
        written += count;
    }
    Ok(())
}

/// Writes the bytes that wait, and clears them.
pub fn write_out<W: Sink>(writer: &mut W, out: &mut Vec<u8>) -> Result<(), FilterFault>
    requires failures { W.failure_count writer.old < 2 ^ 64 - 1 }
    ensures ok { OnOk result (Puts (W.taken writer.old) (W.taken writer.new) out.old.items out.new.items []) }
    ensures nothing_waits { OnOk result (out.new.items ≡ []) }
    ensures err { IfErr result (λ fault. (fault ≢ FilterFault.Read)
        × PutsFront (W.taken writer.old) (W.taken writer.new) out.old.items []) }
    ensures failures { W.failure_count writer.new ≡ W.failure_count writer.old + writer_faults result }
{
    write_all(writer, out)?;
    out.clear();
    Ok(())
}
