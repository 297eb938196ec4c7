// The lines of a word: its answer, and what is said of the word if it has no text.
ghost use Rattle.std.specs.Prelude.{◌≡◌, ◌≢◌, List, ℕ, [], ◌∷◌, ◌++◌, ◌&&◌, OnOk, OnErr, IfOk, Some, is_some, string_bytes, codes};
ghost use Rattle.sym_filter.specs.Kinds.{kind_of};
ghost use Rattle.sym_filter.specs.Runs.{text_for};
ghost use Rattle.sym_filter.specs.Streams.{BeginsWith};
ghost use Rattle.sym_command.specs.Lines.{answer_for, is_read_word, line_of, counts_text, AreCountsFor, IsBehindLine, reason_of, reason_for, complaint_with, complaint_of};

use crate::options::{Asked, Options};
use std::alloc::{AllocError, Global};
use sym_core::{Counts, Refusal};
use sym_filter::{Demangled, Demangler, Kind, kind_of};

/// Appends the lines of one word, and says whether it has a text. Where memory runs out, nothing is appended.
pub fn answer_word<D: Demangler>(
    alloc: Global,
    demangler: &D,
    lists: &mut D::Lists,
    options: Options,
    word: &str,
    out: &mut Vec<u8>,
    err: &mut Vec<u8>,
) -> Result<bool, AllocError>
    ensures line { OnOk result ((behind : List ℕ)
        × (out.new.items ≡ out.old.items ++ line_of (D.answer demangler.now) word.now ++ behind)
        × IsBehindLine (AreCountsFor (D.are_counts demangler.now) word.now) (options.stats && is_read_word (answer_for (D.answer demangler.now) word.now)) behind) }
    ensures complaint { OnOk result (err.new.items ≡ err.old.items ++ complaint_of options.asked (D.answer demangler.now) word.now) }
    ensures has_text { IfOk result (λ has_text. has_text
        ≡ is_some (text_for (D.answer demangler.now) word.now)) }
    ensures same_out { OnErr result (out.new.items ≡ out.old.items) }
    ensures same_err { OnErr result (err.new.items ≡ err.old.items) }
{
    let out_len = out.len();
    let err_len = err.len();
    match push_lines(alloc, demangler, lists, options, word, out, err) {
        Ok(has_text) => Ok(has_text),
        Err(error) => {
            out.truncate(out_len);
            err.truncate(err_len);
            Err(error)
        }
    }
}

/// Appends the lines of one word, or a beginning of them, and says whether it has a text.
fn push_lines<D: Demangler>(
    alloc: Global,
    demangler: &D,
    lists: &mut D::Lists,
    options: Options,
    word: &str,
    out: &mut Vec<u8>,
    err: &mut Vec<u8>,
) -> Result<bool, AllocError>
    ensures line { OnOk result ((behind : List ℕ)
        × (out.new.items ≡ out.old.items ++ line_of (D.answer demangler.now) word.now ++ behind)
        × IsBehindLine (AreCountsFor (D.are_counts demangler.now) word.now) (options.stats && is_read_word (answer_for (D.answer demangler.now) word.now)) behind) }
    ensures complaint { OnOk result (err.new.items ≡ err.old.items ++ complaint_of options.asked (D.answer demangler.now) word.now) }
    ensures has_text { IfOk result (λ has_text. has_text
        ≡ is_some (text_for (D.answer demangler.now) word.now)) }
    ensures out { BeginsWith out.new.items out.old.items }
    ensures err { BeginsWith err.new.items err.old.items }
{
    let Some(kind) = kind_of(word.as_bytes()) else {
        push_unnamed(alloc, word, out, err)?;
        return Ok(false);
    };
    if options.stats {
        let has_text = push_counted(demangler, lists, options.asked, kind, word, out, err)?;
        return Ok(has_text);
    }
    let has_text = push_answer(demangler, lists, options.asked, kind, word, out, err)?;
    Ok(has_text)
}

/// Appends a word that doesn't begin like a symbol, and says that it isn't a symbol.
fn push_unnamed(
    alloc: Global,
    word: &str,
    out: &mut Vec<u8>,
    err: &mut Vec<u8>,
) -> Result<(), AllocError>
    ensures line { OnOk result (out.new.items ≡ out.old.items ++ word.now ++ 10 ∷ []) }
    ensures complaint { OnOk result (err.new.items ≡ err.old.items ++ (complaint_with word.now (codes "not a symbol") ++ 10 ∷ [])) }
    ensures out { BeginsWith out.new.items out.old.items }
    ensures err { BeginsWith err.new.items err.old.items }
{
    let complaint = format!(in alloc; "symfilt: {word}: not a symbol")?;
    push_line(out, word.as_bytes())?;
    push_line(err, complaint.as_bytes())?;
    Ok(())
}

/// Appends the lines of a symbol with its counts, or a beginning of them, and says whether the symbol has a text.
fn push_counted<D: Demangler>(
    demangler: &D,
    lists: &mut D::Lists,
    asked: Asked,
    kind: Kind,
    word: &str,
    out: &mut Vec<u8>,
    err: &mut Vec<u8>,
) -> Result<bool, AllocError>
    requires kind { kind_of word.now ≡ Some kind }
    ensures line { OnOk result ((behind : List ℕ)
        × (out.new.items ≡ out.old.items ++ line_of (D.answer demangler.now) word.now ++ behind)
        × IsBehindLine (AreCountsFor (D.are_counts demangler.now) word.now) (is_read_word (answer_for (D.answer demangler.now) word.now)) behind) }
    ensures complaint { OnOk result (err.new.items ≡ err.old.items ++ complaint_of asked (D.answer demangler.now) word.now) }
    ensures has_text { IfOk result (λ has_text. has_text
        ≡ is_some (text_for (D.answer demangler.now) word.now)) }
    ensures out { BeginsWith out.new.items out.old.items }
    ensures err { BeginsWith err.new.items err.old.items }
{
    match demangler.demangle(lists, kind, kind.symbol_of(word.as_bytes()), out) {
        Demangled::Text(counts) => {
            out.push(b'\n')?;
            push_counts(*out.allocator(), counts, out)?;
            Ok(true)
        }
        Demangled::TooLong(counts) => {
            push_refused(asked, word, Refusal::TooLong, out, err)?;
            push_counts(*out.allocator(), counts, out)?;
            Ok(false)
        }
        Demangled::Refused(refusal) => {
            push_refused(asked, word, refusal, out, err)?;
            Ok(false)
        }
    }
}

/// Appends the line of a symbol without counts, or a beginning of that line, and says whether the symbol has a text.
fn push_answer<D: Demangler>(
    demangler: &D,
    lists: &mut D::Lists,
    asked: Asked,
    kind: Kind,
    word: &str,
    out: &mut Vec<u8>,
    err: &mut Vec<u8>,
) -> Result<bool, AllocError>
    requires kind { kind_of word.now ≡ Some kind }
    ensures line { OnOk result (out.new.items ≡ out.old.items ++ line_of (D.answer demangler.now) word.now) }
    ensures complaint { OnOk result (err.new.items ≡ err.old.items ++ complaint_of asked (D.answer demangler.now) word.now) }
    ensures has_text { IfOk result (λ has_text. has_text
        ≡ is_some (text_for (D.answer demangler.now) word.now)) }
    ensures out { BeginsWith out.new.items out.old.items }
    ensures err { BeginsWith err.new.items err.old.items }
{
    match demangler.append(lists, kind, kind.symbol_of(word.as_bytes()), out) {
        Ok(()) => {
            out.push(b'\n')?;
            Ok(true)
        }
        Err(refusal) => {
            push_refused(asked, word, refusal, out, err)?;
            Ok(false)
        }
    }
}

/// Appends the line of counts.
fn push_counts(alloc: Global, counts: Counts, out: &mut Vec<u8>) -> Result<(), AllocError>
    ensures line { OnOk result (out.new.items ≡ out.old.items ++ (counts_text counts.rows counts.nodes counts.steps ++ 10 ∷ [])) }
    ensures out { BeginsWith out.new.items out.old.items }
{
    let Counts { rows, nodes, steps } = counts;
    let line = format!(in alloc; "rows {rows} nodes {nodes} steps {steps}")?;
    push_line(out, line.as_bytes())
}

/// Appends a word that is refused, and says why.
fn push_refused(
    asked: Asked,
    word: &str,
    refusal: Refusal,
    out: &mut Vec<u8>,
    err: &mut Vec<u8>,
) -> Result<(), AllocError>
    ensures line { OnOk result (out.new.items ≡ out.old.items ++ word.now ++ 10 ∷ []) }
    ensures complaint { OnOk result (err.new.items ≡ err.old.items ++ (complaint_with word.now (reason_for asked refusal) ++ 10 ∷ [])) }
    ensures memory { OnOk result (refusal ≢ Refusal.Memory) }
    ensures out { BeginsWith out.new.items out.old.items }
    ensures err { BeginsWith err.new.items err.old.items }
{
    let complaint = complaint(*err.allocator(), asked, word, refusal)?;
    push_line(out, word.as_bytes())?;
    push_line(err, complaint.as_bytes())?;
    Ok(())
}

/// Says why a word is refused.
fn complaint(
    alloc: Global,
    asked: Asked,
    word: &str,
    refusal: Refusal,
) -> Result<String, AllocError>
    ensures said { IfOk result (λ text. string_bytes text ≡ complaint_with word.now (reason_for asked refusal)) }
    ensures memory { OnOk result (refusal ≢ Refusal.Memory) }
{
    let reason = reason_for(alloc, asked, refusal)?;
    format!(in alloc; "symfilt: {word}: {reason}")
}

/// Why a symbol has no answer. Pressing has no limit, so `TooLong` for a symbol that the wide grammar reads means that no spelling is read as that symbol.
fn reason_for(alloc: Global, asked: Asked, refusal: Refusal) -> Result<String, AllocError>
    ensures said { IfOk result (λ text. string_bytes text ≡ reason_for asked refusal) }
    ensures memory { OnOk result (refusal ≢ Refusal.Memory) }
{
    match (asked, refusal) {
        (Asked::WidePressed, Refusal::TooLong) => format!(in alloc; "no spelling yet"),
        _ => reason(alloc, refusal),
    }
}

/// Why a symbol has no text. Lack of memory isn't a property of the symbol.
pub fn reason(alloc: Global, refusal: Refusal) -> Result<String, AllocError>
    ensures said { IfOk result (λ text. string_bytes text ≡ reason_of refusal) }
    ensures memory { OnOk result (refusal ≢ Refusal.Memory) }
{
    match refusal {
        Refusal::Malformed { at } => format!(in alloc; "malformed at {at}"),
        Refusal::BadReference { at } => format!(in alloc; "bad reference at {at}"),
        Refusal::BadValue { at } => format!(in alloc; "bad value at {at}"),
        Refusal::TooLong => format!(in alloc; "too long"),
        Refusal::Memory => Err(AllocError),
    }
}

/// Appends a line, or nothing.
fn push_line(lines: &mut Vec<u8>, line: &[u8]) -> Result<(), AllocError>
    ensures ok { OnOk result (lines.new.items ≡ lines.old.items ++ line.now ++ 10 ∷ []) }
    ensures begins { BeginsWith lines.new.items lines.old.items }
    ensures whole { OnErr result (lines.new.items ≡ lines.old.items) }
{
    let len = lines.len();
    lines.extend_from_slice(line)?;
    if lines.push(b'\n').is_err() {
        lines.truncate(len);
        return Err(AllocError);
    }
    Ok(())
}
