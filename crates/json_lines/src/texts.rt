// The objects of the words of a text.
ghost use Rattle.std.specs.Prelude.{◌≡◌, ◌+◌, ◌-◌, ◌^◌, ◌<◌, ◌≤◌, length, take, IfOk, OnErr, is_some};
ghost use Rattle.sym_filter.specs.Runs.{text_for, trimmed};
ghost use Rattle.sym_filter.specs.Streams.{reader_faults, writer_faults};
ghost use Rattle.json_lines.specs.Meanings.{named_by};
ghost use Rattle.json_lines.specs.Texts.{TellsObjects, TellsObjectsFront};

use crate::lines::line_of;
use crate::meanings::symbol_meaning;
use crate::unanswered::{Nowhere, Unanswered};
use demangle_names::{Said, Says, WordReport};
use std::alloc::{AllocError, Global};
use sym_filter::{FilterFault, Letters, Sink, Source, filter_telling};
use text_details::Detailed;

/// A report that says by an object what each word is.
#[derive(Clone, Copy, Drop)]
pub struct Objects<'r, D: Detailed> {
    pub demangler: &'r D,
    /// Whether legacy Rust names are read as paths.
    pub reads_paths: bool,
}

impl<'r, D: Detailed> Says for Objects<'r, D> {
    ghost use Rattle.json_lines.specs.Objects.{objects_of};

    ghost saying = { λ objects. objects_of objects.reads_paths (D.answer objects.demangler.now) (D.details objects.demangler.now) };

    fn say(&self, alloc: Global, line: u64, word: &[u8]) -> Result<Said, AllocError> {
        let name = named_by(alloc, self.demangler, word)?;
        let meaning = symbol_meaning(alloc, self.demangler, self.reads_paths, name)?;
        let bytes = line_of(alloc, Some(line), name, &meaning)?;
        Ok(Said {
            bytes,
            stays: meaning.stays(),
        })
    }
}

/// The name in a word of a text: the word without the dots and the bytes that aren't ASCII at its end, if what is left has a text;
/// otherwise the whole word.
fn named_by<'w, D: Detailed>(
    alloc: Global,
    demangler: &D,
    word: &'w [u8],
) -> Result<&'w [u8], AllocError>
    ensures { IfOk result (λ name. name.now ≡ named_by (D.answer demangler.now) word.now) }
{
    let end = trimmed_end(word);
    if end == word.len() {
        return Ok(word);
    }
    let front = &word[..end];
    if has_text(alloc, demangler, front)? {
        return Ok(front);
    }
    Ok(word)
}

/// Whether a word has a text.
fn has_text<D: Detailed>(alloc: Global, demangler: &D, word: &[u8]) -> Result<bool, AllocError>
    ensures { IfOk result (λ has. has ≡ is_some (text_for (D.answer demangler.now) word.now)) }
{
    // whether a word has a text doesn't depend on whether legacy Rust names are paths
    let meaning = symbol_meaning(alloc, demangler, false, word)?;
    Ok(!meaning.stays())
}

/// Where the dots and the bytes that aren't ASCII at a word's end begin.
fn trimmed_end(word: &[u8]) -> usize
    ensures within { result ≤ length word.now }
    ensures trimmed { take result word.now ≡ trimmed word.now }
{
    let mut end = word.len();
    'bytes: while end > 0 {
        if word[end - 1] != b'.' && word[end - 1] < 0x80 {
            return end;
        }
        end -= 1;
    }
    0
}

/// Reads a text to its end, and writes the line of each word that names a symbol, as soon as the word has ended. Answers whether any of
/// these words has no text. Holds no more of the text than one read and one word.
///
/// # Errors
///
/// `Read` and `Write` where a stream failed, and `Memory`. What was written is a beginning of these lines.
pub fn tell_objects<D: Detailed, S: Source, W: Sink>(
    alloc: Global,
    demangler: &D,
    reads_paths: bool,
    input: &mut S,
    out: &mut W,
) -> Result<bool, FilterFault>
    requires in_failures { S.failure_count input.old < 2 ^ 64 - 1 }
    requires out_failures { W.failure_count out.old < 2 ^ 64 - 1 }
    ensures ok { IfOk result (TellsObjects reads_paths (D.answer demangler.now) (D.details demangler.now) (S.coming input.old) (S.coming input.new) (W.taken out.old) (W.taken out.new)) }
    ensures err { OnErr result (TellsObjectsFront reads_paths (D.answer demangler.now) (D.details demangler.now) (S.coming input.old) (S.coming input.new) (W.taken out.old) (W.taken out.new)) }
    ensures read_failed { S.failure_count input.new ≡ S.failure_count input.old + reader_faults result }
    ensures write_failed { W.failure_count out.new ≡ W.failure_count out.old + writer_faults result }
{
    let objects = Objects {
        demangler,
        reads_paths,
    };
    let mut report = WordReport::new(alloc, &objects, out);
    let mut nowhere = Nowhere;
    match filter_telling(
        alloc,
        input,
        &mut nowhere,
        &Unanswered,
        Letters::Within,
        &mut report,
    ) {
        Ok(_) => Ok(report.one_stays()),
        Err(fault) => Err(fault),
    }
}
