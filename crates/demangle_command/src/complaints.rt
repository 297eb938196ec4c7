// What is said of a command line that its parser doesn't accept.
ghost use Rattle.std.specs.Prelude.{◌≡◌, ◌++◌, List, ℕ, IfOk, OnOk};
ghost use Rattle.demangle_command.specs.Complaints.{IsComplaint, complaint_of, quoted, unknown_coloring, unknown_spelling, unknown_style};

use crate::options::found_in;
use crate::texts::bytes_of;
use clap::error::ErrorKind;
use std::alloc::{AllocError, Global};

/// The beginning of each complaint.
const PROGRAM: &[u8] = b"demangle: ";

/// The end of each complaint.
const SEE: &[u8] = b"; see demangle --help";

const LIMIT_TAKES: &[u8] = b"--limit takes a number from 0 to 4294967295";

const VALUES: &[u8] = b"--limit, --format and --spelling take a value";

/// Says why the parser doesn't accept words, the first of which is the program's name, by the kind
/// of the parser's error.
pub(crate) fn complaint(
    alloc: Global,
    kind: ErrorKind,
    words: &[&str],
) -> Result<Vec<u8>, AllocError>
    ensures { IfOk result (λ line. IsComplaint line.items) }
{
    let reason = reason(alloc, kind, words)?;
    line_of(alloc, &reason)
}

/// Says that no style has the name that is given.
pub(crate) fn style_complaint(alloc: Global, name: &str) -> Result<Vec<u8>, AllocError>
    ensures { IfOk result (λ line. line.items ≡ complaint_of (unknown_style name.now)) }
{
    let mut reason = quoted(alloc, b"unknown style", name)?;
    reason.extend_from_slice(b"; known: auto, gnu-v3, rust, none")?;
    line_of(alloc, &reason)
}

/// Says that no spelling has the name that is given.
pub(crate) fn spelling_complaint(alloc: Global, name: &str) -> Result<Vec<u8>, AllocError>
    ensures { IfOk result (λ line. line.items ≡ complaint_of (unknown_spelling name.now)) }
{
    let mut reason = quoted(alloc, b"unknown spelling", name)?;
    reason.extend_from_slice(b"; known: plain, gnu")?;
    line_of(alloc, &reason)
}

/// Says that no colouring has the name that is given.
pub(crate) fn coloring_complaint(alloc: Global, name: &str) -> Result<Vec<u8>, AllocError>
    ensures { IfOk result (λ line. line.items ≡ complaint_of (unknown_coloring name.now)) }
{
    let mut reason = quoted(alloc, b"unknown color", name)?;
    reason.extend_from_slice(b"; known: auto, always, never")?;
    line_of(alloc, &reason)
}

/// The line of a reason.
fn line_of(alloc: Global, reason: &[u8]) -> Result<Vec<u8>, AllocError>
    ensures { IfOk result (λ line. line.items ≡ complaint_of reason.now) }
{
    let mut line = Vec::from_slice(alloc, PROGRAM)?;
    line.extend_from_slice(reason)?;
    line.extend_from_slice(SEE)?;
    line.push(b'\n')?;
    Ok(line)
}

/// Why the parser doesn't accept words.
fn reason(alloc: Global, kind: ErrorKind, words: &[&str]) -> Result<Vec<u8>, AllocError> {
    match kind {
        ErrorKind::ValueValidation => Vec::from_slice(alloc, LIMIT_TAKES),
        ErrorKind::InvalidValue => Vec::from_slice(alloc, VALUES),
        ErrorKind::TooManyValues => quoted(
            alloc,
            b"unexpected value in",
            first_refused(alloc, kind, words).word,
        ),
        _ => unknown(alloc, first_refused(alloc, kind, words)),
    }
}

/// A word that the parser refuses, and the word before it.
#[derive(Clone, Copy)]
struct Refused<'a> {
    before: &'a str,
    word: &'a str,
}

/// Names an option that doesn't exist. A negative number after `--limit` isn't taken for an option.
fn unknown(alloc: Global, refused: Refused<'_>) -> Result<Vec<u8>, AllocError> {
    if refused.before == "--limit" {
        return Vec::from_slice(alloc, LIMIT_TAKES);
    }
    quoted(alloc, b"unknown option", refused.word)
}

/// A message, followed by the bytes of a word in quotes.
fn quoted(alloc: Global, words: &[u8], text: &str) -> Result<Vec<u8>, AllocError>
    ensures { IfOk result (λ all. all.items ≡ quoted words.now text.now) }
{
    let mut all = Vec::from_slice(alloc, words)?;
    all.extend_from_slice(b" '")?;
    let bytes = bytes_of(alloc, text)?;
    all.extend_from_slice(&bytes)?;
    all.push(b'\'')?;
    Ok(all)
}

/// The first word that the parser, given the word alone, refuses with the same kind of error as all words together.
fn first_refused<'a>(alloc: Global, kind: ErrorKind, words: &[&'a str]) -> Refused<'a> {
    let mut before = "";
    for word in words {
        if !before.is_empty() && refuses(alloc, kind, word) {
            return Refused { before, word };
        }
        before = word;
    }
    Refused { before, word: "" }
}

/// Whether the parser, given a word alone, refuses the word with an error of this kind.
fn refuses(alloc: Global, kind: ErrorKind, word: &str) -> bool {
    if !word.starts_with('-') {
        return false;
    }
    match found_in(alloc, &["demangle", word]) {
        Ok(_) => false,
        Err(error) => error.kind() == kind,
    }
}
