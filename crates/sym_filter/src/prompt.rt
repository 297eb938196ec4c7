// A source that is read beside a sink: at each read it sees what the sink has taken.
ghost use Rattle.std.specs.Prelude.{◌≡◌, ◌+◌, ◌-◌, ◌^◌, ◌<◌, ◌≤◌, ℕ, List, length, take, Option, IsSome, IfSome, IfNone};
ghost use Rattle.std.specs.Io.KnownBytes.{Consumes, Keeps, IsAtEnd};
ghost use Rattle.sym_filter.specs.Streams.{read_failures};
ghost use Rattle.sym_filter.specs.declared.filtering.TheConstants.{READ_SIZE};

use crate::streams::{Sink, Source};

/// A source of bytes, read while other bytes are written. A read may require that some of these were written before
/// it.
pub trait PromptSource<W: Sink> {
    // the bytes still to come, where they are known
    ghost coming: { Self → Option (List ℕ) };
    // how often the source has failed
    ghost failure_count: { Self → ℕ };
    // the reads that the source can still answer
    ghost reads_left: { Self → ℕ };
    // the source may be read beside a sink
    ghost MayRead: { Self → W → Type 0 };

    /// Reads at most 16,384 bytes, where the source may be read with the sink in this state.
    fn read_beside(&mut self, sink: &W, room: &mut [u8]) -> Option<usize>
        requires failures { failure_count self.old < 2 ^ 64 - 1 }
        requires may { MayRead self.old sink.now }
        requires few { length room.old ≤ READ_SIZE }
        ensures within { IfSome result (λ count. count ≤ length room.new) }
        ensures bytes { IfSome result (λ count. Consumes (coming self.old) (coming self.new) (take count room.new)) }
        ensures end { IfSome result (λ count. count ≡ 0 → 0 < length room.new → IsAtEnd (coming self.new)) }
        ensures failed { IfNone result (Keeps (coming self.old) (coming self.new)) }
        ensures failures { failure_count self.new ≡ failure_count self.old + read_failures result }
        ensures left { IsSome result → reads_left self.new < reads_left self.old }
        ensures left_at_failure { reads_left self.new ≤ reads_left self.old };

    /// How many reads the source can still answer. With none left, a read fails.
    fn left(&self) -> u64
        ensures { result ≡ reads_left self.now };
}

/// Any source may be read at any time.
impl<R: Source, W: Sink> PromptSource<W> for R {
    ghost coming = { λ source. R.coming source };

    ghost failure_count = { λ source. R.failure_count source };

    ghost reads_left = { λ source. R.reads_left source };

    ghost MayRead = { λ _ _. Unit {0} };

    #[inline(always)]
    fn read_beside(&mut self, _sink: &W, room: &mut [u8]) -> Option<usize> {
        Source::read(self, room)
    }

    #[inline(always)]
    fn left(&self) -> u64 {
        Source::left(self)
    }
}
