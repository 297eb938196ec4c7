// The filter and the lines of a command line, over streams that move a few bytes a call, or fail at a call.
ghost use Rattle.std.specs.Prelude.{◌≡◌};

use crate::answer::Verdict;
use crate::row::Row;
use crate::scripted::{Call, ScriptedSink, ScriptedSource};
use std::alloc::Global;
use sym_command::{Asked, Filtering};
use sym_filter::kinds::LONGEST_WORD;
use sym_filter::{FilterFault, Letters, Sink, Source};
use sym_short::Texts;
use symfilt_command::{filter_asked, run, run_to};

/// More reads than the text of a row needs.
const READS: u64 = 1_000;

/// How many calls of each stream fail, one in each run.
const CALLS: usize = 40;

/// The bytes that a read moves in a run in which a write fails.
const PIECE: usize = 5;

/// The bytes that a read of a long word moves.
const LONG_PIECE: usize = 40_000;

/// Calls that move two bytes each, except one call, which fails.
fn with_failure(good: usize, failure: Call) -> [Call; CALLS] {
    let mut calls = [Call::Moves(2); CALLS];
    if good < CALLS {
        calls[good] = failure;
    }
    calls
}

/// Whether these bytes are what may have been written: all the wanted bytes if the stream ended, and otherwise a beginning of them.
fn may_be_written(ended: bool, written: &[u8], wanted: &[u8]) -> bool {
    if ended {
        return written == wanted;
    }
    wanted.starts_with(written)
}

/// Notes whether a fault is reported in these words.
fn ask_to_say(verdict: &mut Verdict, fault: FilterFault, words: &str) {
    match format!(in verdict.alloc; "{fault}") {
        Ok(said) => verdict.require(said.as_str() == words),
        Err(_) => verdict.lack(),
    }
}

/// Checks the words of each fault.
fn ask_for_words(verdict: &mut Verdict) {
    ask_to_say(verdict, FilterFault::Read, "read failed");
    ask_to_say(verdict, FilterFault::Write, "write failed");
    ask_to_say(verdict, FilterFault::Memory, "out of memory");
}

/// Filters what comes from a source; a script decides the writes. Filtering has to fail exactly if a read or a write failed.
fn ask_to_filter_over(
    verdict: &mut Verdict,
    filtering: Filtering,
    mut source: ScriptedSource<'_>,
    writes: &[Call],
    wanted: &[u8],
)
    requires { source.failures ≡ 0 }
{
    let mut sink = ScriptedSink::new(verdict.alloc, writes);
    let answer = filter_asked(verdict.alloc, filtering, &mut source, &mut sink);
    let failed = (source.failures() > 0, sink.failures() > 0);
    let ended = match answer {
        Ok(_) => failed == (false, false),
        Err(FilterFault::Read) => failed == (true, false),
        Err(FilterFault::Write) => failed == (false, true),
        Err(FilterFault::Memory) => return verdict.lack(),
    };
    verdict.require(ended && may_be_written(answer.is_ok(), sink.bytes(), wanted));
}

/// Filters a text in pieces of each length, and cut once at each place.
fn ask_in_pieces(verdict: &mut Verdict, filtering: Filtering, text: &[u8], wanted: &[u8]) {
    for piece in 1..=text.len() {
        let pieces = [Call::Moves(piece); CALLS];
        let source = ScriptedSource::new(text, &pieces, READS);
        ask_to_filter_over(verdict, filtering, source, &pieces, wanted);
        let cut = [Call::Moves(piece)];
        let source = ScriptedSource::new(text, &cut, READS);
        ask_to_filter_over(verdict, filtering, source, &cut, wanted);
    }
}

/// Filters a text while a read or a write fails, at each call in turn, and from a source that allows no read.
fn ask_with_failures(verdict: &mut Verdict, filtering: Filtering, text: &[u8], wanted: &[u8]) {
    let pieces = [Call::Moves(PIECE); CALLS];
    for good in 0..CALLS {
        let failing = with_failure(good, Call::Fails);
        let source = ScriptedSource::new(text, &failing, READS);
        ask_to_filter_over(verdict, filtering, source, &[], wanted);
        let source = ScriptedSource::new(text, &pieces, READS);
        ask_to_filter_over(verdict, filtering, source, &failing, wanted);
        let full = with_failure(good, Call::Moves(0));
        let source = ScriptedSource::new(text, &pieces, READS);
        ask_to_filter_over(verdict, filtering, source, &full, wanted);
    }
    let source = ScriptedSource::new(text, &[], 0);
    ask_to_filter_over(verdict, filtering, source, &[], wanted);
}

/// Checks that a text is filtered whatever the pieces in which its bytes are read and written.
pub fn ask_streams(verdict: &mut Verdict, filtering: Filtering, text: &[u8], wanted: &[u8]) {
    ask_in_pieces(verdict, filtering, text, wanted);
    ask_with_failures(verdict, filtering, text, wanted);
    ask_for_words(verdict);
}

/// Filters a long symbol as one word, which has to be replaced by its text, unless it is longer than words may be.
pub fn ask_long_word(verdict: &mut Verdict, row: Row<'_>, text: &[u8]) {
    let filtering = Filtering {
        limit: row.limit,
        detail: row.detail,
        texts: Texts::Whole,
        letters: Letters::Any,
        asked: Asked::Text,
        legacy: false,
    };
    let wanted = if row.s.len() > LONGEST_WORD {
        row.s
    } else {
        text
    };
    let cut = [Call::Moves(LONG_PIECE)];
    let source = ScriptedSource::new(row.s, &cut, READS);
    ask_to_filter_over(verdict, filtering, source, &[], wanted);
}

/// Writes the lines of a command line to sinks; scripts decide the writes. Writing has to fail if one of these writes failed.
fn ask_to_write_over(
    verdict: &mut Verdict,
    words: &[&str],
    out_writes: &[Call],
    err_writes: &[Call],
    out_wanted: &[u8],
    err_wanted: &[u8],
) {
    let mut out = ScriptedSink::new(verdict.alloc, out_writes);
    let mut err = ScriptedSink::new(verdict.alloc, err_writes);
    let answer = run_to(verdict.alloc, words, &mut out, &mut err);
    let failed = out.failures() > 0 || err.failures() > 0;
    let ended = match answer {
        Ok(_) => !failed,
        Err(FilterFault::Write) => failed,
        Err(FilterFault::Read) => false,
        Err(FilterFault::Memory) => return verdict.lack(),
    };
    let is_out = may_be_written(ended && !failed, out.bytes(), out_wanted);
    let is_err = may_be_written(ended && !failed, err.bytes(), err_wanted);
    verdict.require(ended && is_out && is_err);
}

/// Writes the lines of a command line while a write of answers or of complaints fails, at each call in turn.
pub fn ask_sinks(verdict: &mut Verdict, words: &[&str]) {
    let mut out = Vec::new(verdict.alloc);
    let mut err = Vec::new(verdict.alloc);
    run(verdict.alloc, words, &mut out, &mut err);
    for good in 0..CALLS {
        for failure in [Call::Fails, Call::Moves(0)] {
            let failing = with_failure(good, failure);
            ask_to_write_over(verdict, words, &failing, &[], &out, &err);
            ask_to_write_over(verdict, words, &[], &failing, &out, &err);
        }
    }
}
