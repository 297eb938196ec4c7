// Rows: a row has a word that says what the row is about, and then fields; tabs separate the word
// and the fields.

ghost use Rattle.sym_core.specs.Number.{FitsSymbol};

use crate::answer::{Verdict, spelled};
use crate::calls::ask_pressing;
use crate::changes::{Change, ask_each_place};
use crate::commands::{Ending, ask_to_demangle, ask_to_end, ask_to_filter};
use crate::example::ask_example;
use crate::languages::{
    AllLists, ask_cut, ask_demangler, ask_each, ask_pressed, ask_unpressed, ask_wide_pressed,
};
use crate::library::{
    ask_library_for_type, ask_library_to_press, ask_library_to_press_wide, ask_library_unspelled,
    ask_nameless, ask_oversize,
};
use crate::parsing::ask_parts;
use crate::row::{LIMIT, Row, TOO_LONG};
use crate::streams::ask_long_word;
use crate::trees::ask_tree;
use crate::ways::ask_way;
use rust_v0::{Detail, V0};
use std::alloc::{AllocError, Global};
use std::str;
use sym_core::{Refusal, fits};
use sym_filter::{Lang, kind_of};
use sym_languages::languages::Lists;
use sym_languages::{Abi, Wide};

/// What a row has where a symbol has no pressed spelling.
const NO_SPELLING: &[u8] = b"no spelling yet";

/// The number that digits spell.
fn number(digits: &[u8]) -> Option<u32> {
    match str::from_utf8(digits) {
        Ok(digits) => match digits.parse::<u32>() {
            Ok(number) => Some(number),
            Err(_) => None,
        },
        Err(_) => None,
    }
}

/// A detail by its name.
fn detail_of(name: &[u8]) -> Option<Detail> {
    match name {
        b"full" => Some(Detail::Full),
        b"brief" => Some(Detail::Brief),
        b"no-params" => Some(Detail::NoParameters),
        b"brief-no-params" => Some(Detail::BriefNoParameters),
        _ => None,
    }
}

/// A row for a word that names a symbol, which has no wanted answer yet.
fn row_of(word: &[u8]) -> Option<Row<'_>> {
    match kind_of(word) {
        Some(kind) => Some(Row {
            kind,
            s: kind.symbol_of(word),
            limit: LIMIT,
            detail: Detail::Full,
            wide: false,
            legacy: false,
            wanted: b"",
        }),
        None => None,
    }
}

/// A row for a word in a detail, at the cost of its text.
fn row_at<'a>(detail: &[u8], cost: &[u8], word: &'a [u8], text: &'a [u8]) -> Option<Row<'a>> {
    let row = row_of(word)?;
    Some(Row {
        limit: number(cost)?,
        detail: detail_of(detail)?,
        wanted: text,
        ..row
    })
}

/// Checks the text of a symbol at a limit of its cost, and that the text is too long at a limit of one less, and of 0.
fn ask_for_text(verdict: &mut Verdict, lists: &mut AllLists, row: Row<'_>) {
    let cost = row.limit;
    verdict.require(cost > 0);
    ask_each(verdict, lists, row);
    ask_each(verdict, lists, row.with(cost.saturating_sub(1), TOO_LONG));
    ask_each(verdict, lists, row.with(0, TOO_LONG));
    if !row.legacy {
        ask_cut(verdict, row);
    }
    if fits(row.s) {
        match row.kind.lang {
            Lang::Rust => ask_example(verdict, row),
            Lang::Cpp => {}
        }
    }
}

/// Checks the reason why a symbol is refused, at several limits. A symbol that is too long at other limits may have a text at the greatest one.
fn ask_for_reason(verdict: &mut Verdict, lists: &mut AllLists, row: Row<'_>) {
    let at_none = Row {
        limit: 0,
        detail: Detail::Brief,
        ..row
    };
    ask_each(verdict, lists, row);
    ask_each(verdict, lists, at_none);
    // at the greatest limit a very long text would take hours
    if row.wanted != TOO_LONG && !verdict.failed {
        ask_each(verdict, lists, row.with(u32::MAX, row.wanted));
    }
    if !row.legacy {
        ask_cut(verdict, at_none);
    }
    if !row.legacy && !row.wide {
        ask_unpressed(verdict, &mut lists.abi, row);
    }
}

/// The text that a row spells for a symbol, if the text has this length.
fn spelled_text(alloc: Global, row: Row<'_>, len: u32) -> Result<Option<Vec<u8>>, Refusal>
    requires { FitsSymbol row.s.now }
{
    let text = match row.kind.lang {
        Lang::Cpp => itanium::demangle_as(alloc, row.s, row.limit, row.detail)?,
        Lang::Rust => rust_v0::demangle_as(alloc, row.s, row.limit, row.detail)?,
    };
    if text.len() == len as usize {
        return Ok(Some(spelled(alloc, &text)?));
    }
    Ok(None)
}

/// Checks that a text of this length is answered at a limit of its cost, and is too long at a limit of one less.
fn ask_for_length(verdict: &mut Verdict, lists: &mut AllLists, row: Row<'_>, len: u32) {
    verdict.require(row.limit > 0 && fits(row.s));
    if !fits(row.s) {
        return;
    }
    match spelled_text(verdict.alloc, row, len) {
        Ok(Some(text)) => {
            let spelled = Row {
                wanted: &text,
                ..row
            };
            ask_demangler(verdict, lists, spelled);
            ask_long_word(verdict, row, &text);
        }
        Ok(None) => verdict.require(false),
        // no row has an empty reason
        Err(refusal) => verdict.refusal(refusal, b""),
    }
    let below = row.limit.saturating_sub(1);
    ask_each(verdict, lists, row.with(below, TOO_LONG));
}

/// Bytes made of a front, a repeated piece and an end.
fn repeated(
    alloc: Global,
    front: &[u8],
    count: u32,
    bytes: &[u8],
    end: &[u8],
) -> Result<Vec<u8>, AllocError> {
    let mut whole = Vec::from_slice(alloc, front)?;
    for _ in 0..count {
        whole.extend_from_slice(bytes)?;
    }
    whole.extend_from_slice(end)?;
    Ok(whole)
}

/// Checks a word's spelling by each call that presses.
fn ask_to_press(verdict: &mut Verdict, lists: &mut Lists<Abi>, word: &[u8], pressed: &[u8]) {
    let (Some(row), Some(pressed_row)) = (row_of(word), row_of(pressed)) else {
        verdict.require(false);
        return;
    };
    if !fits(row.s) {
        verdict.require(false);
        return;
    }
    let wanted = Row {
        wanted: pressed,
        ..row
    };
    ask_pressed(verdict, lists, wanted);
    ask_library_to_press(verdict, row.s, pressed_row.s);
    match row.kind.lang {
        Lang::Cpp => ask_pressing::<Abi>(verdict, row.s, pressed_row.s),
        Lang::Rust => ask_pressing::<V0>(verdict, row.s, pressed_row.s),
    }
}

/// Checks a word's spelling, or that it has none, by each call that presses by the wide grammar.
fn ask_to_press_wide(verdict: &mut Verdict, lists: &mut Lists<Wide>, word: &[u8], wanted: &[u8]) {
    let Some(row) = row_of(word) else {
        verdict.require(false);
        return;
    };
    if !fits(row.s) {
        verdict.require(false);
        return;
    }
    if wanted == NO_SPELLING {
        let unspelled = Row {
            wanted: TOO_LONG,
            ..row
        };
        ask_wide_pressed(verdict, lists, unspelled);
        ask_library_unspelled(verdict, row.s);
        return;
    }
    ask_wide_pressed(verdict, lists, Row { wanted, ..row });
    let spelling = match row_of(wanted) {
        Some(pressed) => pressed.s,
        None => wanted,
    };
    ask_library_to_press_wide(verdict, row.s, spelling);
}

/// Checks what a row `text` says.
fn of_text(
    verdict: &mut Verdict,
    lists: &mut AllLists,
    fields: &[&[u8]],
    wide: bool,
    legacy: bool,
) {
    let [detail, cost, word, text] = fields else {
        verdict.require(false);
        return;
    };
    match row_at(detail, cost, word, text) {
        Some(row) => ask_for_text(
            verdict,
            lists,
            Row {
                wide,
                legacy,
                ..row
            },
        ),
        None => verdict.require(false),
    }
}

/// Checks what a row `refused` says.
fn of_refused(
    verdict: &mut Verdict,
    lists: &mut AllLists,
    fields: &[&[u8]],
    wide: bool,
    legacy: bool,
) {
    let [word, reason] = fields else {
        verdict.require(false);
        return;
    };
    match row_of(word) {
        Some(row) => ask_for_reason(
            verdict,
            lists,
            Row {
                wide,
                legacy,
                wanted: reason,
                ..row
            },
        ),
        None => verdict.require(false),
    }
}

/// Checks what a row `long` says.
fn of_long(verdict: &mut Verdict, lists: &mut AllLists, fields: &[&[u8]]) {
    let [detail, cost, word, len] = fields else {
        verdict.require(false);
        return;
    };
    match (row_at(detail, cost, word, b""), number(len)) {
        (Some(row), Some(len)) => ask_for_length(verdict, lists, row, len),
        _ => verdict.require(false),
    }
}

/// Checks what a row `repeated` says. The symbol may be longer than any word that the filter takes.
fn of_repeated(
    verdict: &mut Verdict,
    lists: &mut AllLists,
    fields: &[&[u8]],
) -> Result<(), AllocError> {
    let [detail, cost, front, count, bytes, end, len] = fields else {
        verdict.require(false);
        return Ok(());
    };
    let (Some(row), Some(count), Some(len)) = (
        row_at(detail, cost, front, b""),
        number(count),
        number(len),
    ) else {
        verdict.require(false);
        return Ok(());
    };
    let s = repeated(verdict.alloc, row.s, count, bytes, end)?;
    ask_for_length(verdict, lists, Row { s: &s, ..row }, len);
    Ok(())
}

/// Checks what a row `oversize` says.
fn of_oversize(verdict: &mut Verdict, fields: &[&[u8]]) -> Result<(), AllocError> {
    let [front, count, bytes, end] = fields else {
        verdict.require(false);
        return Ok(());
    };
    let s = repeated(
        verdict.alloc,
        front,
        number(count).unwrap_or_default(),
        bytes,
        end,
    )?;
    verdict.require(!fits(&s));
    ask_oversize(verdict, &s);
    Ok(())
}

/// Checks what a row `nameless` says.
fn of_nameless(verdict: &mut Verdict, fields: &[&[u8]]) {
    match fields {
        [word] => {
            verdict.require(kind_of(word).is_none());
            ask_nameless(verdict, word);
        }
        _ => verdict.require(false),
    }
}

/// Checks what a row `type` says: the text of a type at a limit of its cost, and that the text is too long at a limit of one less.
fn of_type(verdict: &mut Verdict, fields: &[&[u8]]) {
    let [cost, name, text] = fields else {
        verdict.require(false);
        return;
    };
    match number(cost) {
        Some(cost) => {
            verdict.require(cost > 0 && kind_of(name).is_none());
            ask_library_for_type(verdict, name, cost, text);
            ask_library_for_type(verdict, name, cost.saturating_sub(1), TOO_LONG);
        }
        None => verdict.require(false),
    }
}

/// Checks what a row `type refused` says: why a name is no type.
fn of_refused_type(verdict: &mut Verdict, fields: &[&[u8]]) {
    match fields {
        [name, reason] => {
            verdict.require(kind_of(name).is_none());
            ask_library_for_type(verdict, name, LIMIT, reason);
        }
        _ => verdict.require(false),
    }
}

/// Checks what a row `press` says: a word's pressed spelling, which is pressed again unchanged.
fn of_press(verdict: &mut Verdict, lists: &mut Lists<Abi>, fields: &[&[u8]]) {
    match fields {
        [word, pressed] => {
            ask_to_press(verdict, lists, word, pressed);
            ask_to_press(verdict, lists, pressed, pressed);
        }
        _ => verdict.require(false),
    }
}

/// Checks what a row `wide press` says: a word's pressed spelling with C++ by the wide grammar, which is pressed again unchanged, or the
/// reason why there is none.
fn of_wide_press(verdict: &mut Verdict, lists: &mut Lists<Wide>, fields: &[&[u8]]) {
    let [word, wanted] = fields else {
        verdict.require(false);
        return;
    };
    ask_to_press_wide(verdict, lists, word, wanted);
    if row_of(wanted).is_some() {
        ask_to_press_wide(verdict, lists, wanted, wanted);
    }
}

/// Checks what a row `tree` says.
fn of_tree(verdict: &mut Verdict, fields: &[&[u8]]) {
    let [word, tree] = fields else {
        verdict.require(false);
        return;
    };
    match row_of(word) {
        Some(row) => ask_tree(verdict, row.with(LIMIT, tree)),
        None => verdict.require(false),
    }
}

/// Checks what a row `parts` says.
fn of_parts(verdict: &mut Verdict, fields: &[&[u8]]) {
    let [word, kind, text, parts] = fields else {
        verdict.require(false);
        return;
    };
    match row_of(word) {
        Some(row) => ask_parts(verdict, word, row.with(LIMIT, text), kind, parts),
        None => verdict.require(false),
    }
}

/// Checks what a row `way` says. Its last field names the form of the symbol, for the page.
fn of_way(verdict: &mut Verdict, fields: &[&[u8]]) {
    let [grammar, detail, word, way, _form] = fields else {
        verdict.require(false);
        return;
    };
    match row_of(word) {
        Some(row) => match detail_of(detail) {
            Some(detail) => ask_way(verdict, grammar, row.s, detail, way),
            None => verdict.require(false),
        },
        None => verdict.require(false),
    }
}

/// How a program has to end, as three fields say.
fn ending<'a>(verdict: &mut Verdict, status: &[u8], out: &'a [u8], err: &'a [u8]) -> Ending<'a> {
    let status = number(status);
    verdict.require(status.is_some());
    Ending {
        status: status.unwrap_or_default(),
        out,
        err,
    }
}

/// Checks what a row `filter` says.
fn of_filter(verdict: &mut Verdict, fields: &[&[u8]]) -> Result<(), AllocError> {
    let [options, text, filtered] = fields else {
        verdict.require(false);
        return Ok(());
    };
    ask_to_filter(verdict, options, text, filtered)
}

/// Checks what a row `command` says.
fn of_command(verdict: &mut Verdict, fields: &[&[u8]]) -> Result<(), AllocError> {
    let [status, words, out, err] = fields else {
        verdict.require(false);
        return Ok(());
    };
    let ending = ending(verdict, status, out, err);
    ask_to_end(verdict, words, ending)
}

/// Checks what a row `demangle` says.
fn of_demangle(verdict: &mut Verdict, fields: &[&[u8]]) -> Result<(), AllocError> {
    let [status, words, input, out, err] = fields else {
        verdict.require(false);
        return Ok(());
    };
    let ending = ending(verdict, status, out, err);
    ask_to_demangle(verdict, words, input, ending)
}

/// Checks what a row `filter`, `command` or `demangle` says.
fn of_program(verdict: &mut Verdict, what: &[u8], fields: &[&[u8]]) -> Result<(), AllocError> {
    match what {
        b"filter" => of_filter(verdict, fields),
        b"command" => of_command(verdict, fields),
        b"demangle" => of_demangle(verdict, fields),
        _ => {
            verdict.require(false);
            Ok(())
        }
    }
}

/// The change that a row is about.
fn change_of(what: &[u8]) -> Option<Change> {
    match what {
        b"cut" => Some(Change::Cut),
        b"put !" => Some(Change::Put(b'!')),
        b"put 0" => Some(Change::Put(b'0')),
        b"put ff" => Some(Change::Put(0xff)),
        _ => None,
    }
}

/// Checks what a row `cut` or `put` says: the answers for a word that is cut, or changed, at each place in turn.
fn of_changes(
    verdict: &mut Verdict,
    lists: &mut AllLists,
    change: Change,
    fields: &[&[u8]],
) -> Result<(), AllocError> {
    let [word, others @ ..] = fields else {
        verdict.require(false);
        return Ok(());
    };
    match row_of(word) {
        Some(row) => ask_each_place(verdict, lists, Row { s: word, ..row }, change, others),
        None => {
            verdict.require(false);
            Ok(())
        }
    }
}

/// Checks a row that says neither a text nor a refusal.
fn of_other(
    verdict: &mut Verdict,
    lists: &mut AllLists,
    what: &[u8],
    fields: &[&[u8]],
) -> Result<(), AllocError> {
    match what {
        b"long" => of_long(verdict, lists, fields),
        b"repeated" => of_repeated(verdict, lists, fields)?,
        b"oversize" => of_oversize(verdict, fields)?,
        b"nameless" => of_nameless(verdict, fields),
        b"type" => of_type(verdict, fields),
        b"type refused" => of_refused_type(verdict, fields),
        b"press" => of_press(verdict, &mut lists.abi, fields),
        b"wide press" => of_wide_press(verdict, &mut lists.wide, fields),
        b"tree" => of_tree(verdict, fields),
        b"way" => of_way(verdict, fields),
        b"parts" => of_parts(verdict, fields),
        _ => of_program(verdict, what, fields)?,
    }
    Ok(())
}

/// Checks what a row says of a legacy name, by each grammar of C++, or a row that says neither a
/// text nor a refusal.
fn of_legacy_or_other(
    verdict: &mut Verdict,
    lists: &mut AllLists,
    what: &[u8],
    fields: &[&[u8]],
) -> Result<(), AllocError> {
    match what {
        b"legacy text" => {
            of_text(verdict, lists, fields, false, true);
            of_text(verdict, lists, fields, true, true);
        }
        b"legacy refused" => {
            of_refused(verdict, lists, fields, false, true);
            of_refused(verdict, lists, fields, true, true);
        }
        _ => return of_other(verdict, lists, what, fields),
    }
    Ok(())
}

/// Checks by each call what a row with these fields says.
fn ask_fields(
    verdict: &mut Verdict,
    lists: &mut AllLists,
    what: &[u8],
    fields: &[&[u8]],
) -> Result<(), AllocError> {
    if let Some(change) = change_of(what) {
        return of_changes(verdict, lists, change, fields);
    }
    match what {
        b"text" => of_text(verdict, lists, fields, false, false),
        b"refused" => of_refused(verdict, lists, fields, false, false),
        b"wide text" => of_text(verdict, lists, fields, true, false),
        b"wide refused" => of_refused(verdict, lists, fields, true, false),
        _ => return of_legacy_or_other(verdict, lists, what, fields),
    }
    Ok(())
}

/// Checks by each call what a row says. Tabs separate its fields.
fn ask_row(verdict: &mut Verdict, lists: &mut AllLists, row: &[u8]) -> Result<(), AllocError> {
    let fields: Vec<&[u8]> = row.split(|byte| *byte == b'\t').collect(verdict.alloc)?;
    match fields.as_slice() {
        [what, fields @ ..] => ask_fields(verdict, lists, what, fields),
        [] => {
            verdict.require(false);
            Ok(())
        }
    }
}

/// The verdict on a row, by each call.
pub fn verdict_of(alloc: Global, lists: &mut AllLists, row: &[u8]) -> Verdict {
    let mut verdict = Verdict::new(alloc);
    if ask_row(&mut verdict, lists, row).is_err() {
        verdict.lack();
    }
    verdict
}
