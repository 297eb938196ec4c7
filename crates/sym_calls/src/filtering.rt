// A text with the texts of all symbols in it.
ghost use Rattle.std.specs.Prelude.{◌≡◌, List, ℕ, length};
ghost use Rattle.sym_filter.specs.Runs.{filtered_at, tally_at};
ghost use Rattle.sym_languages.specs.Languages.{answers_by};
ghost use Rattle.sym_short.specs.Rewriting.{answers_as};
ghost use Rattle.sym_calls.specs.Calls.{EndsAs, IsTallied, Tallied, asked_of, ending_of, filter_told, written};
ghost use Rattle.sym_calls.specs.Counted.{Holds};

use crate::counted::{Counted, filter_counted};
use crate::flags::{Asked, asked_of};
use crate::outcome::{BUFFER, FLAGS, OK, Outcome, alone, no_memory, write};
use std::alloc::Global;
use sym_filter::{Demangler, Letters, Tally};
use sym_languages::languages::Cpp;
use sym_languages::{Abi, Wide};
use sym_short::{Rewriting, Shortening, Texts};

/// How many words of a text name symbols: those that were replaced by a text, and those that weren't.
#[repr(C)]
#[derive(Clone, Copy)]
pub struct TextTally {
    pub words: u64,
    pub replaced: u64,
    pub refused: u64,
}

/// Writes a text that was kept to the front of the buffer, or says how large the buffer has to be.
#[tactic(auto, unfolding(crate::specs::Calls::written))]
fn write_kept(kept: &Counted, buffer: &mut [u8]) -> Outcome
    ensures { (text : List ℕ) → Holds kept.now (length buffer.old) text → ending_of result buffer.new ≡ written text buffer.old }
{
    if kept.count > buffer.len() {
        return Outcome {
            length: kept.count,
            offset: 0,
            status: BUFFER,
        };
    }
    write(&kept.list, buffer)
}

/// The outcome of a filtered text.
fn told(kept: &Counted, counted: Tally, buffer: &mut [u8], tally: &mut TextTally) -> Outcome
    ensures ending { (text : List ℕ) → Holds kept.now (length buffer.old) text → ending_of result buffer.new ≡ written text buffer.old }
    ensures tally { Tallied counted tally.old tally.new result.status }
{
    let outcome = write_kept(kept, buffer);
    if outcome.status == OK {
        tally.words = counted.words;
        tally.replaced = counted.replaced;
        tally.refused = counted.refused;
    }
    outcome
}

/// Writes a filtered text to the front of the buffer. Until then at most as many bytes of the text are kept as the buffer has.
fn filter_by<D: Demangler>(
    alloc: Global,
    demangler: &D,
    letters: Letters,
    text: &[u8],
    buffer: &mut [u8],
    tally: &mut TextTally,
) -> Outcome
    ensures ending { EndsAs (written (filtered_at letters (D.answer demangler.now) text.now) buffer.old) buffer.old (ending_of result buffer.new) }
    ensures tally { Tallied (tally_at letters (D.answer demangler.now) text.now) tally.old tally.new result.status }
{
    let most = buffer.len();
    match filter_counted(alloc, demangler, letters, text, most) {
        Ok((kept, counted)) => told(&kept, counted, buffer, tally),
        Err(_) => no_memory(),
    }
}

/// Writes a text that is filtered as requested, with a grammar of C++, to the front of the buffer.
fn filter_in<C: Cpp>(
    alloc: Global,
    cpp: C,
    asked: Asked,
    limit: u32,
    text: &[u8],
    buffer: &mut [u8],
    tally: &mut TextTally,
) -> Outcome
    ensures ending { EndsAs (written (filtered_at asked.letters (answers_as asked.texts asked.legacy (answers_by C.mangled asked.legacy limit asked.detail)) text.now) buffer.old) buffer.old (ending_of result buffer.new) }
    ensures tally { Tallied (tally_at asked.letters (answers_as asked.texts asked.legacy (answers_by C.mangled asked.legacy limit asked.detail)) text.now) tally.old tally.new result.status }
{
    if asked.legacy {
        let legacy = asked.with_legacy(limit, cpp);
        return filter_as(alloc, legacy, asked, text, buffer, tally);
    }
    let languages = asked.languages(limit, cpp);
    filter_as(alloc, languages, asked, text, buffer, tally)
}

/// Filters a text with a demangler and writes the result to the front of the buffer. The demangler's texts are made short if that is
/// requested.
fn filter_as<D: Demangler + Copy + Drop>(
    alloc: Global,
    demangler: D,
    asked: Asked,
    text: &[u8],
    buffer: &mut [u8],
    tally: &mut TextTally,
) -> Outcome
    ensures ending { EndsAs (written (filtered_at asked.letters (answers_as asked.texts asked.legacy (D.answer demangler)) text.now) buffer.old) buffer.old (ending_of result buffer.new) }
    ensures tally { Tallied (tally_at asked.letters (answers_as asked.texts asked.legacy (D.answer demangler)) text.now) tally.old tally.new result.status }
{
    match asked.texts {
        Texts::Whole => filter_by(alloc, &demangler, asked.letters, text, buffer, tally),
        Texts::Short { keeps_inline } => {
            let short = Rewriting {
                demangler,
                rewrite: Shortening {
                    keeps_inline,
                    reads_paths: asked.legacy,
                },
            };
            filter_by(alloc, &short, asked.letters, text, buffer, tally)
        }
    }
}

/// Writes a text to the front of the buffer, each word that names a symbol replaced by the symbol's text if this text costs at most the
/// limit. Counts the words that name symbols. If nothing is written, the outcome says why, and buffer and tally stay as they are.
#[tactic(auto, unfolding(crate::specs::Calls::filter_told, crate::specs::Calls::IsTallied))]
pub fn filter_of(
    alloc: Global,
    text: &[u8],
    limit: u32,
    flags: u32,
    buffer: &mut [u8],
    tally: &mut TextTally,
) -> Outcome
    ensures ending { EndsAs (filter_told (asked_of flags) limit text.now buffer.old) buffer.old (ending_of result buffer.new) }
    ensures tally { IsTallied (asked_of flags) limit text.now tally.old tally.new result.status }
{
    let Some(asked) = asked_of(flags) else {
        return alone(FLAGS);
    };
    if asked.wide {
        return filter_in(alloc, Wide, asked, limit, text, buffer, tally);
    }
    filter_in(alloc, Abi, asked, limit, text, buffer, tally)
}
