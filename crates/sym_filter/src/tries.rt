// The text for a word that begins within a run. Some of its bytes may not belong to the symbol.
ghost use Rattle.std.specs.Prelude.{◌≡◌, ◌++◌, ◌<◌, ◌≤◌, ◌||◌, List, ℕ, [], length, take, drop, OnOk, IfOk, Some, is_some, unwrap_or};
ghost use Rattle.std.specs.List.{list_any};
ghost use Rattle.sym_filter.specs.Bytes.{is_wide};
ghost use Rattle.sym_filter.specs.Kinds.{kind_of};
ghost use Rattle.sym_filter.specs.Runs.{has_text, replaced, runs_of, text_for, text_of_parts, text_of_tries, trimmed, with_runs, within, word_or_text};
ghost use Rattle.sym_filter.specs.declared.kinds.Letters.TheVariants.{Ascii};

use crate::demangler::Demangler;
use crate::kinds::{Kind, Letters, kind_of};
use crate::words::{run_front, word_end};
use std::alloc::AllocError;
use sym_core::Refusal;

/// Appends the text for a word that begins within a run, or the word itself if it has no text, and answers whether it has one. Each byte is
/// in at most three tries: the word without its last bytes that aren't ASCII, the word, and the longest parts of it that are ASCII.
pub(crate) fn push_tries<D: Demangler>(
    demangler: &D,
    lists: &mut D::Lists,
    word: &[u8],
    kind: Kind,
    out: &mut Vec<u8>,
) -> Result<bool, AllocError>
    requires { kind_of word.now ≡ Some kind }
    ensures text { OnOk result (out.new.items ≡ out.old.items ++ word_or_text (within (D.answer demangler.now)) word.now) }
    ensures has_text { IfOk result (λ has_text. has_text ≡ is_some (text_for (within (D.answer demangler.now)) word.now)) }
{
    let has_text = append_tries(demangler, lists, word, kind, out)?;
    if has_text {
        return Ok(true);
    }
    out.extend_from_slice(word)?;
    Ok(false)
}

/// Appends the text that a word has by one of its tries, if any, and answers whether it has one.
fn append_tries<D: Demangler>(
    demangler: &D,
    lists: &mut D::Lists,
    word: &[u8],
    kind: Kind,
    out: &mut Vec<u8>,
) -> Result<bool, AllocError>
    requires { kind_of word.now ≡ Some kind }
    ensures text { OnOk result (out.new.items ≡ out.old.items ++ unwrap_or (text_of_tries (D.answer demangler.now) word.now) []) }
    ensures has_text { IfOk result (λ has_text. has_text ≡ is_some (text_of_tries (D.answer demangler.now) word.now)) }
{
    let end = trimmed_end(word);
    if end == word.len() {
        let whole_read = append_whole(demangler, lists, word, kind, out)?;
        return Ok(whole_read);
    }
    let front_read = append_text(demangler, lists, &word[..end], out)?;
    if front_read {
        out.extend_from_slice(&word[end..])?;
        return Ok(true);
    }
    let word_read = append_text(demangler, lists, word, out)?;
    if word_read {
        return Ok(true);
    }
    let part_read = append_parts(demangler, lists, word, out)?;
    Ok(part_read)
}

/// Appends the text of a word whose last byte is ASCII and no dot, by one of its tries, if any, and answers whether it has one.
/// Its first two tries are the same.
#[inline(always)]
fn append_whole<D: Demangler>(
    demangler: &D,
    lists: &mut D::Lists,
    word: &[u8],
    kind: Kind,
    out: &mut Vec<u8>,
) -> Result<bool, AllocError>
    requires kind { kind_of word.now ≡ Some kind }
    requires untrimmed { trimmed word.now ≡ word.now }
    ensures text { OnOk result (out.new.items ≡ out.old.items ++ unwrap_or (text_of_tries (D.answer demangler.now) word.now) []) }
    ensures has_text { IfOk result (λ has_text. has_text ≡ is_some (text_of_tries (D.answer demangler.now) word.now)) }
{
    let word_read = append_symbol(demangler, lists, word, kind, out)?;
    if word_read {
        return Ok(true);
    }
    let part_read = append_parts(demangler, lists, word, out)?;
    Ok(part_read)
}

/// Where the dots and the non-ASCII bytes at a word's end begin.
fn trimmed_end(word: &[u8]) -> usize
    ensures within { result ≤ length word.now }
    ensures trimmed { take result word.now ≡ trimmed word.now }
{
    let mut end = word.len();
    'bytes: while end > 0 {
        if word[end - 1] != b'.' && word[end - 1] < 0x80 {
            return end;
        }
        end -= 1;
    }
    0
}

/// Whether a word has a byte that isn't ASCII.
fn has_wide(word: &[u8]) -> bool
    ensures { result ≡ list_any is_wide word.now }
{
    word.iter().any(|byte| *byte >= 0x80)
}

/// Appends the text of a word's symbol, if the word names a symbol that has a text, and answers whether it does.
fn append_text<D: Demangler>(
    demangler: &D,
    lists: &mut D::Lists,
    word: &[u8],
    out: &mut Vec<u8>,
) -> Result<bool, AllocError>
    ensures text { OnOk result (out.new.items ≡ out.old.items ++ unwrap_or (text_for (D.answer demangler.now) word.now) []) }
    ensures has_text { IfOk result (λ has_text. has_text ≡ is_some (text_for (D.answer demangler.now) word.now)) }
{
    let Some(kind) = kind_of(word) else {
        return Ok(false);
    };
    let read = append_symbol(demangler, lists, word, kind, out)?;
    Ok(read)
}

/// Appends the text of a word's symbol, given the word's kind, if the symbol has a text, and
/// answers whether it has one.
#[inline(always)]
fn append_symbol<D: Demangler>(
    demangler: &D,
    lists: &mut D::Lists,
    word: &[u8],
    kind: Kind,
    out: &mut Vec<u8>,
) -> Result<bool, AllocError>
    requires { kind_of word.now ≡ Some kind }
    ensures text { OnOk result (out.new.items ≡ out.old.items ++ unwrap_or (text_for (D.answer demangler.now) word.now) []) }
    ensures has_text { IfOk result (λ has_text. has_text ≡ is_some (text_for (D.answer demangler.now) word.now)) }
{
    match demangler.append(lists, kind, kind.symbol_of(word), out) {
        Ok(()) => Ok(true),
        Err(refusal) => match refusal {
            Refusal::Memory => Err(AllocError),
            _ => Ok(false),
        },
    }
}

/// Appends a word with each of its longest parts in ASCII replaced by its text, and answers whether any of them has
/// one. The word has bytes that aren't ASCII.
fn append_parts<D: Demangler>(
    demangler: &D,
    lists: &mut D::Lists,
    word: &[u8],
    out: &mut Vec<u8>,
) -> Result<bool, AllocError>
    ensures text { OnOk result (out.new.items ≡ out.old.items ++ unwrap_or (text_of_parts (D.answer demangler.now) word.now) []) }
    ensures has_text { IfOk result (λ some. some ≡ is_some (text_of_parts (D.answer demangler.now) word.now)) }
{
    if !has_wide(word) {
        return Ok(false);
    }
    let len = out.len();
    let mut some = false;
    let mut at = 0;
    'parts: while at < word.len() {
        let part = push_part(demangler, lists, &word[at..], out)?;
        some |= part.has_text;
        at += part.length;
    }
    if some {
        return Ok(true);
    }
    out.truncate(len);
    Ok(false)
}

/// A part of a word in ASCII with the byte after it, and whether the part has a text.
#[derive(Clone, Copy, Debug, PartialEq, Eq)]
struct Part {
    length: usize,
    has_text: bool,
}

/// Appends the longest part in ASCII at the front of the rest of a word, replaced where it has a text, and the byte
/// after it.
fn push_part<D: Demangler>(
    demangler: &D,
    lists: &mut D::Lists,
    rest: &[u8],
    out: &mut Vec<u8>,
) -> Result<Part, AllocError>
    requires { 0 < length rest.now }
    ensures within { IfOk result (λ part. (0 < part.length) × (part.length ≤ length rest.now)) }
    ensures text { IfOk result (λ part. (bytes : List ℕ) × (out.new.items ≡ out.old.items ++ bytes)
        × (with_runs Ascii (replaced (D.answer demangler.now)) rest.now
        ≡ bytes ++ with_runs Ascii (replaced (D.answer demangler.now)) (drop part.length rest.now))) }
    ensures has_text { IfOk result (λ part. list_any (has_text (D.answer demangler.now)) (runs_of Ascii rest.now)
        ≡ (part.has_text || list_any (has_text (D.answer demangler.now)) (runs_of Ascii (drop part.length rest.now)))) }
{
    let count = run_front(Letters::Ascii, rest);
    let has_text = push_replaced(demangler, lists, &rest[..count], out)?;
    if count == rest.len() {
        return Ok(Part {
            length: count,
            has_text,
        });
    }
    out.push(rest[count])?;
    Ok(Part {
        length: count + 1,
        has_text,
    })
}

/// Appends a run, replaced where its word has a text, and says whether the word has one.
fn push_replaced<D: Demangler>(
    demangler: &D,
    lists: &mut D::Lists,
    run: &[u8],
    out: &mut Vec<u8>,
) -> Result<bool, AllocError>
    ensures text { OnOk result (out.new.items ≡ out.old.items ++ replaced (D.answer demangler.now) run.now) }
    ensures has_text { IfOk result (λ some. some ≡ has_text (D.answer demangler.now) run.now) }
{
    let end = word_end(run);
    let read = append_text(demangler, lists, &run[..end], out)?;
    if read {
        out.extend_from_slice(&run[end..])?;
        return Ok(true);
    }
    out.extend_from_slice(run)?;
    Ok(false)
}
