// The filter: words of a text that are symbols are replaced by their texts.
ghost use Rattle.std.specs.Prelude.{◌≡◌, ◌≢◌, ◌+◌, ◌-◌, ◌^◌, ◌<◌, ◌≤◌, ℕ, List, [], false, length, take, vec_len, replicate, IfOk, OnOk, OnErr, IfErr};
ghost use Rattle.sym_filter.specs.CarriedEntries.{TakesEntries, TakesTextEntries, entries_after, entries_in_rest};
ghost use Rattle.sym_filter.specs.Entries.{Entry, left_at_end};
ghost use Rattle.sym_filter.specs.Streams.{reader_faults, writer_faults, Puts, PutsFront, FiltersAll, FiltersAllAt, FiltersFront, FiltersFrontAt, TellsAllAt, TellsFrontAt};
ghost use Rattle.sym_filter.specs.Carried.{rest_of_text, TakesText};
ghost use Rattle.sym_filter.specs.Prompt.{IsPrompt};
ghost use Rattle.sym_filter.specs.Places.{START};
ghost use Rattle.sym_filter.specs.Words.{rest_after, tally_after, held_of, following, Takes};
ghost use Rattle.sym_filter.specs.declared.filtering.TheConstants.{READ_SIZE};

use crate::demangler::Demangler;
use crate::escapes::{Escape, first_segment};
use crate::kinds::Letters;
use crate::prompt::PromptSource;
use crate::reports::{Quiet, Report};
use crate::streams::{FilterFault, Sink, Source, write_out};
use crate::words::{Taken, Tally, Words};
use std::alloc::{AllocError, Global};

/// How many bytes are read at a time. Bytes that wait are written once they are at least this many.
// With four times as many, starting the program took a quarter more instructions, since the room for them is cleared.
const READ_SIZE: usize = 16_384;

/// Reads all that the source gives, and writes it; each word that names a symbol is replaced by the text that a demangler gives for it.
pub fn filter_with<R: Source, W: Sink, D: Demangler>(
    alloc: Global,
    reader: &mut R,
    writer: &mut W,
    demangler: &D,
) -> Result<Tally, FilterFault>
    requires reader_failures { R.failure_count reader.old < 2 ^ 64 - 1 }
    requires writer_failures { W.failure_count writer.old < 2 ^ 64 - 1 }
    ensures ok { IfOk result (λ tally. FiltersAll (D.answer demangler.now)
        (R.coming reader.old) (R.coming reader.new) (W.taken writer.old) (W.taken writer.new) tally) }
    ensures err { OnErr result (FiltersFront (D.answer demangler.now)
        (R.coming reader.old) (R.coming reader.new) (W.taken writer.old) (W.taken writer.new)) }
    ensures read_failed { R.failure_count reader.new ≡ R.failure_count reader.old + reader_faults result }
    ensures write_failed { W.failure_count writer.new ≡ W.failure_count writer.old + writer_faults result }
{
    filter_words(alloc, reader, writer, demangler, Letters::Any)
}

/// The filter over any demangler, with words of these letters. What cannot be decided yet is held back: at most the longest word, and a
/// count of dots after it. What is decided after a read is written before the next read.
pub fn filter_words<R: Source, W: Sink, D: Demangler>(
    alloc: Global,
    reader: &mut R,
    writer: &mut W,
    demangler: &D,
    letters: Letters,
) -> Result<Tally, FilterFault>
    requires reader_failures { R.failure_count reader.old < 2 ^ 64 - 1 }
    requires writer_failures { W.failure_count writer.old < 2 ^ 64 - 1 }
    ensures ok { IfOk result (λ tally. FiltersAllAt letters (D.answer demangler.now)
        (R.coming reader.old) (R.coming reader.new) (W.taken writer.old) (W.taken writer.new) tally) }
    ensures err { OnErr result (FiltersFrontAt letters (D.answer demangler.now)
        (R.coming reader.old) (R.coming reader.new) (W.taken writer.old) (W.taken writer.new)) }
    ensures read_failed { R.failure_count reader.new ≡ R.failure_count reader.old + reader_faults result }
    ensures write_failed { W.failure_count writer.new ≡ W.failure_count writer.old + writer_faults result }
{
    filter_telling(alloc, reader, writer, demangler, letters, &mut Quiet)
}

/// The filter with a report. The report takes the words that are left, and each piece of the text before its filtered
/// bytes are written.
pub fn filter_telling<R: Source, W: Sink, D: Demangler, P: Report>(
    alloc: Global,
    reader: &mut R,
    writer: &mut W,
    demangler: &D,
    letters: Letters,
    report: &mut P,
) -> Result<Tally, FilterFault>
    requires reader_failures { R.failure_count reader.old < 2 ^ 64 - 1 }
    requires writer_failures { W.failure_count writer.old < 2 ^ 64 - 1 }
    requires report_failures { P.failure_count report.old < 2 ^ 64 - 1 }
    ensures ok { IfOk result (λ tally. TellsAllAt letters (D.answer demangler.now)
        (R.coming reader.old) (R.coming reader.new) (W.taken writer.old) (W.taken writer.new) (P.Tells report.old report.new) tally) }
    ensures err { OnErr result (TellsFrontAt letters (D.answer demangler.now)
        (R.coming reader.old) (R.coming reader.new) (W.taken writer.old) (W.taken writer.new) (P.Stops report.old report.new)) }
    ensures read_failed { R.failure_count reader.new ≡ R.failure_count reader.old + reader_faults result }
    ensures same_failures { OnOk result (P.failure_count report.new ≡ P.failure_count report.old) }
    ensures write_failed { W.failure_count writer.new + P.failure_count report.new ≡ W.failure_count writer.old + P.failure_count report.old + writer_faults result }
{
    filter_promptly(alloc, reader, writer, demangler, letters, report)
}

/// The filter with a report, over a source that may be read only where the filter is prompt. At each read all that is decided has been
/// written, and only a front of one word, of at most 65,536 bytes, and a count of dots wait.
pub fn filter_promptly<R: PromptSource<W>, W: Sink, D: Demangler, P: Report>(
    alloc: Global,
    reader: &mut R,
    writer: &mut W,
    demangler: &D,
    letters: Letters,
    report: &mut P,
) -> Result<Tally, FilterFault>
    requires reader_failures { R.failure_count reader.old < 2 ^ 64 - 1 }
    requires writer_failures { W.failure_count writer.old < 2 ^ 64 - 1 }
    requires report_failures { P.failure_count report.old < 2 ^ 64 - 1 }
    requires prompt { (source : R) (sink : W) → IsPrompt letters (D.answer demangler.now)
        (R.coming reader.old) (R.coming source) (W.taken writer.old) (W.taken sink) → R.MayRead source sink }
    ensures ok { IfOk result (λ tally. TellsAllAt letters (D.answer demangler.now)
        (R.coming reader.old) (R.coming reader.new) (W.taken writer.old) (W.taken writer.new) (P.Tells report.old report.new) tally) }
    ensures err { OnErr result (TellsFrontAt letters (D.answer demangler.now)
        (R.coming reader.old) (R.coming reader.new) (W.taken writer.old) (W.taken writer.new) (P.Stops report.old report.new)) }
    ensures read_failed { R.failure_count reader.new ≡ R.failure_count reader.old + reader_faults result }
    ensures same_failures { OnOk result (P.failure_count report.new ≡ P.failure_count report.old) }
    ensures write_failed { W.failure_count writer.new + P.failure_count report.new ≡ W.failure_count writer.old + P.failure_count report.old + writer_faults result }
{
    // The call tells the proof that the count is a u64, so that the reads, and the dots that wait, are bounded.
    let _left = reader.left();
    let mut words = Words::new(alloc, letters);
    let mut escape = Escape::Outside;
    let mut out = Vec::new(alloc);
    let mut lists = demangler.lists(alloc)?;
    let mut room = room_for_reads(alloc)?;
    loop {
        let Some(count) = reader.read_beside(writer, &mut room) else {
            return Err(FilterFault::Read);
        };
        if count == 0 {
            break;
        }
        let piece = &room[..count];
        take_piece(
            demangler,
            &mut lists,
            &mut words,
            &mut escape,
            piece,
            &mut out,
            writer,
            report,
        )?;
    }
    end_text(demangler, &mut lists, &mut words, &mut out, writer, report)?;
    Ok(words.tally())
}

/// Room for the bytes of one read.
fn room_for_reads(alloc: Global) -> Result<Vec<u8>, AllocError>
    ensures { IfOk result (λ room. vec_len room ≡ READ_SIZE) }
{
    vec![in alloc; 0u8; READ_SIZE]
}

/// Takes a piece of the text, and writes the filtered bytes that are decided by it.
fn take_piece<W: Sink, D: Demangler, P: Report>(
    demangler: &D,
    lists: &mut D::Lists,
    words: &mut Words,
    escape: &mut Escape,
    piece: &[u8],
    out: &mut Vec<u8>,
    writer: &mut W,
    report: &mut P,
) -> Result<(), FilterFault>
    requires failures { W.failure_count writer.old < 2 ^ 64 - 1 }
    requires nothing_waits { out.old.items ≡ [] }
    requires room { words.old.dots + length piece.now < 2 ^ 128 }
    requires report_failures { P.failure_count report.old < 2 ^ 64 - 1 }
    ensures ok { OnOk result ((bytes : List ℕ) × TakesText (D.answer demangler.now) words.old words.new escape.old escape.new piece.now bytes
        × Puts (W.taken writer.old) (W.taken writer.new) [] out.new.items bytes) }
    ensures nothing_waits { OnOk result (out.new.items ≡ []) }
    ensures err { IfErr result (λ fault. (fault ≢ FilterFault.Read)
        × PutsFront (W.taken writer.old) (W.taken writer.new) [] (rest_of_text (D.answer demangler.now) words.old escape.old piece.now)) }
    ensures same_failures { OnOk result ((W.failure_count writer.new ≡ W.failure_count writer.old) × (P.failure_count report.new ≡ P.failure_count report.old)) }
    ensures failures { W.failure_count writer.new + P.failure_count report.new ≡ W.failure_count writer.old + P.failure_count report.old + writer_faults result }
    ensures tells { OnOk result ((entries : List Entry) × P.Tells report.old report.new entries
        × TakesTextEntries (D.answer demangler.now) words.old words.new escape.old escape.new piece.now entries) }
    ensures told { OnErr result (P.Stops report.old report.new (entries_in_rest (D.answer demangler.now) words.old escape.old piece.now)) }
{
    let mut at = 0;
    while at < piece.len() {
        let count = take_segment(
            demangler,
            lists,
            words,
            escape,
            &piece[at..],
            out,
            writer,
            report,
        )?;
        at += count;
    }
    words.read_ahead(demangler, lists);
    write_out(writer, out)?;
    Ok(())
}

/// Takes bytes from the front of a text: up to the end of its first escape, or all if it has none. Puts the filtered bytes that are decided
/// by them after the bytes that wait to be written. Answers how many bytes were taken.
fn take_segment<W: Sink, D: Demangler, P: Report>(
    demangler: &D,
    lists: &mut D::Lists,
    words: &mut Words,
    escape: &mut Escape,
    text: &[u8],
    out: &mut Vec<u8>,
    writer: &mut W,
    report: &mut P,
) -> Result<usize, FilterFault>
    requires failures { W.failure_count writer.old < 2 ^ 64 - 1 }
    requires room { words.old.dots + length text.now < 2 ^ 128 }
    requires some { 0 < length text.now }
    requires few_wait { length out.old.items < READ_SIZE }
    requires report_failures { P.failure_count report.old < 2 ^ 64 - 1 }
    ensures few_wait { OnOk result (length out.new.items < READ_SIZE) }
    ensures within { IfOk result (λ count. (0 < count) × (count ≤ length text.now)) }
    ensures ok { IfOk result (λ count. (bytes : List ℕ)
        × TakesText (D.answer demangler.now) words.old words.new escape.old escape.new (take count text.now) bytes
        × Puts (W.taken writer.old) (W.taken writer.new) out.old.items out.new.items bytes) }
    ensures err { IfErr result (λ fault. (fault ≢ FilterFault.Read)
        × PutsFront (W.taken writer.old) (W.taken writer.new) out.old.items (rest_of_text (D.answer demangler.now) words.old escape.old text.now)) }
    ensures same_failures { OnOk result ((W.failure_count writer.new ≡ W.failure_count writer.old) × (P.failure_count report.new ≡ P.failure_count report.old)) }
    ensures failures { W.failure_count writer.new + P.failure_count report.new ≡ W.failure_count writer.old + P.failure_count report.old + writer_faults result }
    ensures tells { IfOk result (λ count. (entries : List Entry) × P.Tells report.old report.new entries
        × TakesTextEntries (D.answer demangler.now) words.old words.new escape.old escape.new (take count text.now) entries) }
    ensures told { OnErr result (P.Stops report.old report.new (entries_in_rest (D.answer demangler.now) words.old escape.old text.now)) }
{
    let segment = first_segment(words.letters(), text, *escape);
    take_words(
        demangler,
        lists,
        words,
        &text[..segment.length],
        out,
        writer,
        report,
    )?;
    *escape = segment.escape;
    if !segment.ends {
        return Ok(segment.length);
    }
    end_segment(demangler, lists, words, out, writer, report)?;
    Ok(segment.length)
}

/// Gives a report the word that is left at the end of some bytes, if there is one.
#[inline(always)]
fn tell_left<P: Report>(report: &mut P, out: &[u8], left: usize) -> Result<(), FilterFault>
    requires report_failures { P.failure_count report.old < 2 ^ 64 - 1 }
    requires within { left ≤ length out.now }
    ensures tells { OnOk result (P.Tells report.old report.new (left_at_end left out.now)) }
    ensures stops { IfErr result (λ fault. (fault ≢ FilterFault.Read) × P.Stops report.old report.new (left_at_end left out.now)) }
    ensures failures { P.failure_count report.new ≡ P.failure_count report.old + writer_faults result }
{
    if left == 0 {
        return Ok(());
    }
    report.leaves(&out[out.len() - left..])
}

/// Takes a part of a segment, and puts the filtered bytes that are decided by it after those that wait to be written.
fn take_words<W: Sink, D: Demangler, P: Report>(
    demangler: &D,
    lists: &mut D::Lists,
    words: &mut Words,
    piece: &[u8],
    out: &mut Vec<u8>,
    writer: &mut W,
    report: &mut P,
) -> Result<(), FilterFault>
    requires failures { W.failure_count writer.old < 2 ^ 64 - 1 }
    requires room { words.old.dots + length piece.now < 2 ^ 128 }
    requires few_wait { length out.old.items < READ_SIZE }
    requires report_failures { P.failure_count report.old < 2 ^ 64 - 1 }
    ensures few_wait { OnOk result (length out.new.items < READ_SIZE) }
    ensures ok { OnOk result ((bytes : List ℕ) × Takes (D.answer demangler.now) words.old words.new piece.now bytes
        × Puts (W.taken writer.old) (W.taken writer.new) out.old.items out.new.items bytes) }
    ensures err { IfErr result (λ fault. (fault ≢ FilterFault.Read)
        × PutsFront (W.taken writer.old) (W.taken writer.new) out.old.items (rest_after (D.answer demangler.now) words.old piece.now)) }
    ensures same_failures { OnOk result ((W.failure_count writer.new ≡ W.failure_count writer.old) × (P.failure_count report.new ≡ P.failure_count report.old)) }
    ensures failures { W.failure_count writer.new + P.failure_count report.new ≡ W.failure_count writer.old + P.failure_count report.old + writer_faults result }
    ensures tells { OnOk result ((entries : List Entry) × P.Tells report.old report.new entries
        × TakesEntries (D.answer demangler.now) words.old words.new piece.now entries) }
    ensures told { OnErr result (P.Stops report.old report.new (entries_after (D.answer demangler.now) words.old piece.now)) }
{
    let mut at = 0;
    while at < piece.len() {
        let rest = &piece[at..];
        let taken = words.take(demangler, lists, rest, out)?;
        tell_left(report, out, taken.left)?;
        report.passes(&rest[..taken.count]);
        put_after(writer, out, taken, &rest[..taken.count])?;
        at += taken.count;
    }
    Ok(())
}

/// At a segment's end, puts the rest of the filtered segment after the bytes that wait to be written.
fn end_segment<W: Sink, D: Demangler, P: Report>(
    demangler: &D,
    lists: &mut D::Lists,
    words: &mut Words,
    out: &mut Vec<u8>,
    writer: &mut W,
    report: &mut P,
) -> Result<(), FilterFault>
    requires failures { W.failure_count writer.old < 2 ^ 64 - 1 }
    requires report_failures { P.failure_count report.old < 2 ^ 64 - 1 }
    ensures ok { OnOk result (Puts (W.taken writer.old) (W.taken writer.new) out.old.items out.new.items
        (rest_after (D.answer demangler.now) words.old [])) }
    ensures few_wait { OnOk result (length out.new.items < READ_SIZE) }
    ensures counts { OnOk result (words.new.tally ≡ tally_after (D.answer demangler.now) words.old []) }
    ensures begins { OnOk result ((held_of words.new ≡ []) × (words.new.dots ≡ 0) × (words.new.place ≡ START) × (words.new.past ≡ false)) }
    ensures letters { OnOk result (words.new.letters ≡ words.old.letters) }
    ensures err { IfErr result (λ fault. (fault ≢ FilterFault.Read)
        × PutsFront (W.taken writer.old) (W.taken writer.new) out.old.items (rest_after (D.answer demangler.now) words.old [])) }
    ensures same_failures { OnOk result ((W.failure_count writer.new ≡ W.failure_count writer.old) × (P.failure_count report.new ≡ P.failure_count report.old)) }
    ensures failures { W.failure_count writer.new + P.failure_count report.new ≡ W.failure_count writer.old + P.failure_count report.old + writer_faults result }
    ensures tells { OnOk result (P.Tells report.old report.new (entries_after (D.answer demangler.now) words.old [])) }
    ensures told { OnErr result (P.Stops report.old report.new (entries_after (D.answer demangler.now) words.old [])) }
{
    let ended = words.end_segment(demangler, lists, out)?;
    tell_left(report, out, ended.left)?;
    write_dots(writer, out, ended.dots)?;
    write_when_full(writer, out)?;
    Ok(())
}

/// Writes the rest of the filtered text at the text's end.
fn end_text<W: Sink, D: Demangler, P: Report>(
    demangler: &D,
    lists: &mut D::Lists,
    words: &mut Words,
    out: &mut Vec<u8>,
    writer: &mut W,
    report: &mut P,
) -> Result<(), FilterFault>
    requires failures { W.failure_count writer.old < 2 ^ 64 - 1 }
    requires nothing_waits { out.old.items ≡ [] }
    requires report_failures { P.failure_count report.old < 2 ^ 64 - 1 }
    ensures ok { OnOk result (Puts (W.taken writer.old) (W.taken writer.new) [] []
        (rest_after (D.answer demangler.now) words.old [])) }
    ensures counts { OnOk result (words.new.tally ≡ tally_after (D.answer demangler.now) words.old []) }
    ensures err { IfErr result (λ fault. (fault ≢ FilterFault.Read)
        × PutsFront (W.taken writer.old) (W.taken writer.new) [] (rest_after (D.answer demangler.now) words.old [])) }
    ensures same_failures { OnOk result ((W.failure_count writer.new ≡ W.failure_count writer.old) × (P.failure_count report.new ≡ P.failure_count report.old)) }
    ensures failures { W.failure_count writer.new + P.failure_count report.new ≡ W.failure_count writer.old + P.failure_count report.old + writer_faults result }
    ensures tells { OnOk result (P.Tells report.old report.new (entries_after (D.answer demangler.now) words.old [])) }
    ensures told { OnErr result (P.Stops report.old report.new (entries_after (D.answer demangler.now) words.old [])) }
{
    end_segment(demangler, lists, words, out, writer, report)?;
    write_out(writer, out)?;
    Ok(())
}

/// Puts dots, and the taken bytes if they stay, after the bytes that wait to be written.
#[inline(always)]
fn put_after<W: Sink>(
    writer: &mut W,
    out: &mut Vec<u8>,
    taken: Taken,
    bytes: &[u8],
) -> Result<(), FilterFault>
    requires failures { W.failure_count writer.old < 2 ^ 64 - 1 }
    ensures ok { OnOk result (Puts (W.taken writer.old) (W.taken writer.new) out.old.items out.new.items
        (following taken bytes.now)) }
    ensures few_wait { OnOk result ((taken.stay ≡ false → length out.old.items < READ_SIZE) → length out.new.items < READ_SIZE) }
    ensures err { IfErr result (λ fault. (fault ≢ FilterFault.Read)
        × PutsFront (W.taken writer.old) (W.taken writer.new) out.old.items (following taken bytes.now)) }
    ensures failures { W.failure_count writer.new ≡ W.failure_count writer.old + writer_faults result }
{
    write_dots(writer, out, taken.dots)?;
    if !taken.stay {
        return Ok(());
    }
    out.extend_from_slice(bytes)?;
    write_when_full(writer, out)?;
    Ok(())
}

/// Puts dots after the bytes that wait to be written.
#[inline(always)]
fn write_dots<W: Sink>(writer: &mut W, out: &mut Vec<u8>, dots: u128) -> Result<(), FilterFault>
    requires failures { W.failure_count writer.old < 2 ^ 64 - 1 }
    ensures ok { OnOk result (Puts (W.taken writer.old) (W.taken writer.new) out.old.items out.new.items
        (replicate dots 46)) }
    ensures few_wait { OnOk result (length out.old.items < READ_SIZE → length out.new.items < READ_SIZE) }
    ensures err { IfErr result (λ fault. (fault ≢ FilterFault.Read)
        × PutsFront (W.taken writer.old) (W.taken writer.new) out.old.items (replicate dots 46)) }
    ensures failures { W.failure_count writer.new ≡ W.failure_count writer.old + writer_faults result }
{
    for _ in 0..dots {
        out.push(b'.')?;
        write_when_full(writer, out)?;
    }
    Ok(())
}

/// Writes the bytes that wait, where they are many.
fn write_when_full<W: Sink>(writer: &mut W, out: &mut Vec<u8>) -> Result<(), FilterFault>
    requires failures { W.failure_count writer.old < 2 ^ 64 - 1 }
    ensures ok { OnOk result (Puts (W.taken writer.old) (W.taken writer.new) out.old.items out.new.items []) }
    ensures few_wait { OnOk result (length out.new.items < READ_SIZE) }
    ensures err { IfErr result (λ fault. (fault ≢ FilterFault.Read)
        × PutsFront (W.taken writer.old) (W.taken writer.new) out.old.items []) }
    ensures failures { W.failure_count writer.new ≡ W.failure_count writer.old + writer_faults result }
{
    if out.len() < READ_SIZE {
        return Ok(());
    }
    write_out(writer, out)?;
    Ok(())
}
