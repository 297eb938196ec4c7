// Each call over a symbol: whole and in pieces, step by step, with fresh lists and with lists used before.

ghost use Rattle.sym_core.specs.Number.{FitsSymbol};

use crate::answer::{BEFORE, Verdict};
use crate::feeding::most_steps;
use crate::linking::{linked_in_steps, linker_of};
use crate::mangling::{Calls, PressCalls};
use crate::printing::{printed_in_steps, put_together};
use crate::row::Row;
use std::alloc::Global;
use sym_core::{Counts, Refusal, fits};
use sym_demangle::Workspace;
use sym_filter::{Demangled, Demangler};
use sym_print::Detail;

/// Whether a symbol of this length may have these counts.
fn are_few(counts: Counts, len: usize) -> bool {
    let Counts { rows, nodes, steps } = counts;
    rows <= steps
        && rows as usize <= len.saturating_mul(4).saturating_add(4)
        && nodes as usize <= len.saturating_mul(4).saturating_add(8)
        && steps as usize <= most_steps(len)
}

/// Notes whether the answer of a counting demangler, and the list that it appended to, are those of a row.
fn counted(verdict: &mut Verdict, answer: Demangled, list: &[u8], row: Row<'_>) {
    match answer {
        Demangled::Text(counts) => {
            verdict.require(are_few(counts, row.s.len()));
            verdict.appended(Ok(()), list, row.wanted);
        }
        Demangled::TooLong(counts) => {
            verdict.require(are_few(counts, row.s.len()));
            verdict.appended(Err(Refusal::TooLong), list, row.wanted);
        }
        Demangled::Refused(refusal) => verdict.appended(Err(refusal), list, row.wanted),
    }
}

/// Checks the text that a demangler appends to a list for a symbol, and the symbol's counts. Answers what the demangler answered.
fn ask_counting<D: Demangler>(
    verdict: &mut Verdict,
    demangler: &D,
    lists: &mut D::Lists,
    row: Row<'_>,
) -> Demangled
    requires { FitsSymbol row.s.now }
{
    let Ok(mut list) = Vec::from_slice(verdict.alloc, BEFORE) else {
        return Demangled::Refused(Refusal::Memory);
    };
    let answer = demangler.demangle(lists, row.kind, row.s, &mut list);
    counted(verdict, answer, &list, row);
    answer
}

/// Checks the text that a demangler appends to a list for a symbol.
fn ask_appending<D: Demangler>(
    verdict: &mut Verdict,
    demangler: &D,
    lists: &mut D::Lists,
    row: Row<'_>,
) -> Result<(), Refusal>
    requires { FitsSymbol row.s.now }
{
    let mut list = Vec::from_slice(verdict.alloc, BEFORE)?;
    let answer = demangler.append(lists, row.kind, row.s, &mut list);
    verdict.appended(answer, &list, row.wanted);
    answer
}

/// Checks both text functions of a demangler for a symbol, and answers what the counting function answered.
pub fn ask<D: Demangler>(
    verdict: &mut Verdict,
    demangler: &D,
    lists: &mut D::Lists,
    row: Row<'_>,
) -> Demangled
    requires { FitsSymbol row.s.now }
{
    let counted = ask_counting(verdict, demangler, lists, row);
    let appended = ask_appending(verdict, demangler, lists, row);
    if counted == Demangled::Refused(Refusal::Memory) || appended == Err(Refusal::Memory) {
        verdict.lack();
    }
    counted
}

/// Checks the text of a symbol that was read, for each call that prints a text.
fn ask_symbol<M: Calls>(verdict: &mut Verdict, symbol: &M::Symbol, row: Row<'_>) {
    let Row {
        s,
        limit,
        detail,
        wanted,
        ..
    } = row;
    let alloc = verdict.alloc;
    verdict.require(are_few(M::counts(symbol), s.len()));
    verdict.says(M::text_as(symbol, limit, detail), wanted);
    if detail == Detail::Full {
        verdict.says(<M as Calls>::text(symbol, limit), wanted);
    }
    let root = M::root(symbol, detail);
    verdict.soundly_says(printed_in_steps(alloc, symbol, root, limit), wanted);
    let root = M::root(symbol, detail);
    verdict.soundly_says(put_together(alloc, symbol, root, limit), wanted);
}

/// Reads a symbol whole, and checks its text.
fn ask_read<M: Calls>(verdict: &mut Verdict, row: Row<'_>)
    requires { FitsSymbol row.s.now }
{
    match M::read(verdict.alloc, row.s) {
        Ok(symbol) => ask_symbol::<M>(verdict, &symbol, row),
        Err(refusal) => verdict.refusal(refusal, row.wanted),
    }
}

/// Reads and links a symbol step by step, and checks its text.
fn ask_linked_in_steps<M: Calls>(verdict: &mut Verdict, row: Row<'_>)
    requires { FitsSymbol row.s.now }
{
    match linked_in_steps::<M>(verdict.alloc, row.s) {
        Ok(Some(symbol)) => ask_symbol::<M>(verdict, &symbol, row),
        Ok(None) => verdict.require(false),
        Err(refusal) => verdict.refusal(refusal, row.wanted),
    }
}

/// The text of a symbol that is linked at once.
fn linked_at_once<M: Calls>(alloc: Global, row: Row<'_>) -> Result<Vec<u8>, Refusal>
    requires { FitsSymbol row.s.now }
{
    let mut linker = linker_of::<M>(alloc, row.s)?;
    linker.run()?;
    let symbol = linker.finish();
    M::text_as(&symbol, row.limit, row.detail)
}

/// The text of a symbol that is fed in pieces, or none if the reader took a wrong step.
fn in_pieces<M: Calls>(
    alloc: Global,
    pieces: &[&[u8]],
    row: Row<'_>,
) -> Result<Option<Vec<u8>>, Refusal> {
    match M::read_fed(alloc, pieces)? {
        Some(symbol) => Ok(Some(M::text_as(&symbol, row.limit, row.detail)?)),
        None => Ok(None),
    }
}

/// The text of a symbol that is fed byte by byte.
fn byte_by_byte<M: Calls>(alloc: Global, row: Row<'_>) -> Result<Option<Vec<u8>>, Refusal> {
    let bytes: Vec<&[u8]> = row.s.chunks(1).collect(alloc)?;
    in_pieces::<M>(alloc, &bytes, row)
}

/// Checks the text that a workspace, which has read ahead, appends to a list for a symbol.
fn ask_workspace<M: Calls>(verdict: &mut Verdict, workspace: &mut Workspace<M>, row: Row<'_>)
    requires { FitsSymbol row.s.now }
{
    let Ok(mut list) = Vec::from_slice(verdict.alloc, BEFORE) else {
        verdict.lack();
        return;
    };
    let s = row.s;
    for len in [0, 1, s.len() / 2, s.len()] {
        let front = &s[..len.min(s.len())];
        if fits(front) {
            workspace.read_ahead(front);
        }
    }
    let answer = workspace.demangle_into(s, row.limit, row.detail, &mut list);
    verdict.appended(answer, &list, row.wanted);
}

/// Checks a symbol's text by the calls that demangle a symbol at once.
fn ask_at_once<M: Calls>(verdict: &mut Verdict, row: Row<'_>)
    requires { FitsSymbol row.s.now }
{
    let Row {
        s,
        limit,
        detail,
        wanted,
        ..
    } = row;
    let alloc = verdict.alloc;
    verdict.says(M::demangle_as(alloc, s, limit, detail), wanted);
    if detail == Detail::Full {
        verdict.says(M::demangle(alloc, s, limit), wanted);
    }
}

/// Checks a symbol's text by each call of a mangling.
pub fn ask_mangling<M: Calls>(verdict: &mut Verdict, workspace: &mut Workspace<M>, row: Row<'_>)
    requires { FitsSymbol row.s.now }
{
    let alloc = verdict.alloc;
    let wanted = row.wanted;
    ask_at_once::<M>(verdict, row);
    ask_read::<M>(verdict, row);
    ask_linked_in_steps::<M>(verdict, row);
    verdict.says(linked_at_once::<M>(alloc, row), wanted);
    ask_workspace(verdict, workspace, row);
    verdict.soundly_says(byte_by_byte::<M>(alloc, row), wanted);
}

/// Checks the text of a symbol that is fed in two pieces, cut at each place in turn.
pub fn ask_in_pieces<M: Calls>(verdict: &mut Verdict, row: Row<'_>) {
    let s = row.s;
    for cut in 0..s.len() {
        let text = in_pieces::<M>(verdict.alloc, &[&s[..cut], &s[cut..]], row);
        verdict.soundly_says(text, row.wanted);
    }
}

/// The pressed spelling of a symbol that is read whole.
fn read_and_pressed<M: PressCalls>(alloc: Global, s: &[u8]) -> Result<Vec<u8>, Refusal>
    requires { FitsSymbol s.now }
{
    let symbol = M::read(alloc, s)?;
    M::press(alloc, &symbol)
}

/// The pressed spelling of a symbol that is fed byte by byte; none if the reader took a wrong step.
fn fed_and_pressed<M: PressCalls>(alloc: Global, s: &[u8]) -> Result<Option<Vec<u8>>, Refusal> {
    let bytes: Vec<&[u8]> = s.chunks(1).collect(alloc)?;
    match M::read_fed(alloc, &bytes)? {
        Some(symbol) => Ok(Some(M::press(alloc, &symbol)?)),
        None => Ok(None),
    }
}

/// Checks a symbol's spelling by the calls of a mangling that press.
pub fn ask_pressing<M: PressCalls>(verdict: &mut Verdict, s: &[u8], wanted: &[u8])
    requires { FitsSymbol s.now }
{
    verdict.says(read_and_pressed::<M>(verdict.alloc, s), wanted);
    verdict.soundly_says(fed_and_pressed::<M>(verdict.alloc, s), wanted);
}
