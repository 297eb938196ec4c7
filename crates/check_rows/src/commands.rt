// Checks of the command lines and of the filter, as the programs have them.

use crate::answer::{Verdict, unspelled};
use crate::library::ask_library_to_filter;
use crate::row::LIMIT;
use crate::streams::{ask_sinks, ask_streams};
use std::alloc::{AllocError, Global};
use std::str;
use sym_command::{Asked, FAULT, Filtering, Run};
use sym_filter::{FilterFault, Letters, ListSink, ReaderSource};
use sym_print::Detail;
use sym_short::Texts;
use symfilt_command::{run, run_over};

/// What a row has where a program only has to write something.
const ANY: &[u8] = b"*";

/// How a program has to end, and what it has to write.
#[derive(Clone, Copy)]
pub struct Ending<'a> {
    pub status: u32,
    pub out: &'a [u8],
    pub err: &'a [u8],
}

/// The words of a command line of symfilt, the program's name first. Blanks separate them in a field, and `-` denotes no word. No row has
/// words of symfilt that aren't text.
fn words_of<'a>(
    verdict: &mut Verdict,
    program: &'a str,
    field: &'a [u8],
) -> Result<Vec<&'a str>, AllocError> {
    let mut words = Vec::new(verdict.alloc);
    words.push(program)?;
    match str::from_utf8(field) {
        Ok("-") => {}
        Ok(field) => {
            for word in field.split(' ') {
                words.push(word)?;
            }
        }
        Err(_) => verdict.require(false),
    }
    Ok(words)
}

/// The words of a command line of demangle, written in the same way. They may have any bytes.
fn byte_words_of(alloc: Global, field: &[u8]) -> Result<Vec<&[u8]>, AllocError> {
    let mut words = Vec::new(alloc);
    words.push("demangle".as_bytes())?;
    if field != b"-".as_slice() {
        for word in field.split(|byte| *byte == b' ') {
            words.push(word)?;
        }
    }
    Ok(words)
}

/// Notes whether a program wrote the bytes that a row spells, or any bytes at all where the row has `*`.
fn written(verdict: &mut Verdict, bytes: &[u8], wanted: &[u8]) {
    if wanted == ANY {
        verdict.require(!bytes.is_empty());
    } else {
        verdict.text(bytes, wanted);
    }
}

/// Notes whether a program ended as a row says. Nothing but memory can fail here.
fn ended(
    verdict: &mut Verdict,
    status: Result<u8, FilterFault>,
    out: &[u8],
    err: &[u8],
    wanted: Ending<'_>,
) {
    match status {
        Ok(status) if status != FAULT => verdict.require(u32::from(status) == wanted.status),
        _ => verdict.lack(),
    }
    written(verdict, out, wanted.out);
    written(verdict, err, wanted.err);
}

/// Runs symfilt over an input.
fn run_symfilt(verdict: &mut Verdict, words: &[&str], input: &[u8], wanted: Ending<'_>) {
    let alloc = verdict.alloc;
    let mut reader = ReaderSource::new(input);
    let mut out = ListSink::new(Vec::new(alloc));
    let mut err = ListSink::new(Vec::new(alloc));
    let status = run_over(alloc, words, &mut reader, &mut out, &mut err);
    ended(verdict, status, &out.into_list(), &err.into_list(), wanted);
}

/// Runs demangle over an input.
fn run_demangle(verdict: &mut Verdict, words: &[&[u8]], input: &[u8], wanted: Ending<'_>) {
    let alloc = verdict.alloc;
    let mut reader = ReaderSource::new(input);
    let mut out = ListSink::new(Vec::new(alloc));
    let mut err = ListSink::new(Vec::new(alloc));
    let status = demangle_command::run_over(alloc, words, false, &mut reader, &mut out, &mut err);
    ended(verdict, status, &out.into_list(), &err.into_list(), wanted);
}

/// How `demangle` filters with these options; none where the options say anything besides how much of a symbol is shown.
fn shown_by(options: &[u8]) -> Option<Filtering> {
    let detail = match options {
        b"-" => Detail::Full,
        b"--brief" => Detail::Brief,
        b"-p" => Detail::NoParameters,
        b"-p --brief" => Detail::BriefNoParameters,
        _ => return None,
    };
    Some(Filtering {
        limit: LIMIT,
        detail,
        texts: Texts::Whole,
        letters: Letters::Within,
        asked: Asked::WideText,
        legacy: true,
    })
}

/// What symfilt has to do with these words. Unless it has to filter, symfilt has to end this way.
fn asked_of_symfilt(verdict: &mut Verdict, words: &[&str], wanted: Ending<'_>) -> Run {
    let mut out = Vec::new(verdict.alloc);
    let mut err = Vec::new(verdict.alloc);
    let asked = run(verdict.alloc, words, &mut out, &mut err);
    match asked {
        Run::Done(status) => ended(verdict, Ok(status), &out, &err, wanted),
        Run::Filter(_) => verdict.require(out.is_empty() && err.is_empty()),
    }
    asked
}

/// Checks a filtered text by the library's call and over streams. The command's words have to request this.
fn ask_filters(
    verdict: &mut Verdict,
    asked: Run,
    text: &[u8],
    wanted: &[u8],
) -> Result<(), AllocError> {
    let Run::Filter(filtering) = asked else {
        verdict.require(false);
        return Ok(());
    };
    let filtered = unspelled(verdict.alloc, wanted)?;
    ask_library_to_filter(verdict, text, filtering, wanted);
    ask_streams(verdict, filtering, text, &filtered);
    Ok(())
}

/// Checks that the program with these options filters a text into this one, and that the static
/// library does so, too.
///
/// # Errors
///
/// `Err` where there is no memory for the words and the text.
pub fn ask_to_filter(
    verdict: &mut Verdict,
    options: &[u8],
    text: &[u8],
    wanted: &[u8],
) -> Result<(), AllocError> {
    let words = words_of(verdict, "symfilt", options)?;
    let text = unspelled(verdict.alloc, text)?;
    let ending = Ending {
        status: 0,
        out: wanted,
        err: b"",
    };
    let asked = asked_of_symfilt(verdict, &words, ending);
    ask_filters(verdict, asked, &text, wanted)?;
    run_symfilt(verdict, &words, &text, ending);
    Ok(())
}

/// Checks that the program ends this way on these words.
///
/// # Errors
///
/// `Err` where there is no memory for the words.
pub fn ask_to_end(
    verdict: &mut Verdict,
    words: &[u8],
    wanted: Ending<'_>,
) -> Result<(), AllocError> {
    let words = words_of(verdict, "symfilt", words)?;
    let is_done = matches!(asked_of_symfilt(verdict, &words, wanted), Run::Done(_));
    verdict.require(is_done);
    ask_sinks(verdict, &words);
    Ok(())
}

/// Checks that `demangle` ends this way on these words over an input, and that the static library filters the input in the same way.
///
/// # Errors
///
/// `Err` where there is no memory for the words and the input.
pub fn ask_to_demangle(
    verdict: &mut Verdict,
    options: &[u8],
    input: &[u8],
    wanted: Ending<'_>,
) -> Result<(), AllocError> {
    let words = unspelled(verdict.alloc, options)?;
    let words = byte_words_of(verdict.alloc, &words)?;
    let input = unspelled(verdict.alloc, input)?;
    if let Some(filtering) = shown_by(options) {
        ask_library_to_filter(verdict, &input, filtering, wanted.out);
    }
    run_demangle(verdict, &words, &input, wanted);
    Ok(())
}
