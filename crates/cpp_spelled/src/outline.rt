// The outline of a symbol: the rows that are around the parts of its name.
#![tactic(auto)]

ghost use Rattle.std.specs.Prelude.{◌≡◌, ◌+◌, ◌<◌, ◌^◌, length, IfErr, IfOk};
ghost use Rattle.sym_core.specs.declared.refusal.Refusal.{Refusal};
ghost use Rattle.sym_parts.specs.Spelling as spellings;
ghost use Rattle.cpp_spelled.specs.Sorts.{sort_in};
ghost use Rattle.cpp_spelled.specs.Outline.{row_at, own_bytes, outlined, outline_of, from_first, from_last, begin_or};

use crate::sort::Sort;
use crate::sorts::sort_at;
use crate::sought::{ANY_ENCODING, PASSED_OVER, Sought};
use std::alloc::Global;
use sym_core::Refusal;
use sym_parts::Span;
use sym_room::push_within;
use sym_shape::{Row, TOKEN};

/// A row of an outline, with its sort, the row after it, and its bytes that spell a part.
#[derive(Clone, Copy)]
pub(crate) struct Reached {
    pub(crate) sort: Sort,
    pub(crate) row: Row,
    /// The next row, which is the first row within this one, if this one has any.
    pub(crate) first: Row,
    /// This row's bytes up to the row of its rule's last symbol: without the rest of a list, or what follows a tag.
    pub(crate) own: Span,
}

/// The bytes from one place up to another; none where the second isn't after the first.
#[tactic(auto, unfolding(sym_parts::specs::Spelling::span))]
pub(crate) fn span(from: u32, to: u32) -> Span
    ensures { result ≡ spellings.span from to }
{
    if from <= to {
        return Span { from, to };
    }
    Span { from, to: from }
}

/// The row with a number, or a row without bytes if there is no such row.
fn row_at(rows: &[Row], number: usize) -> Row
    ensures { result ≡ row_at rows.now number }
{
    match rows.get(number) {
        Some(row) => *row,
        None => Row {
            rule: TOKEN,
            after: 0,
            from: 0,
            to: 0,
            end: 0,
        },
    }
}

/// How a row relates to the parts of a name.
#[tactic(auto, unfolding(crate::specs::Sorts::sort_in))]
fn sort_in(row: Row) -> Sort
    ensures { result ≡ sort_in row }
{
    let sort = sort_at(row.rule);
    if ANY_ENCODING.is(sort) && 2 <= row.after {
        return Sort::Closed;
    }
    sort
}

/// The bytes of a row up to the row of its rule's last symbol, if the latter is the first or the
/// second row within this one; otherwise all bytes of the row.
#[tactic(auto, unfolding(crate::specs::Outline::own_bytes))]
fn own_bytes(rows: &[Row], number: usize, row: Row) -> Span
    requires { number + 1 < 2 ^ 64 }
    ensures { result ≡ own_bytes rows.now number row }
{
    if row.end as usize <= number + 1 {
        return span(row.from, row.to);
    }
    let first = row_at(rows, number + 1);
    if first.after == 0 {
        return span(row.from, first.from);
    }
    if row.end <= first.end {
        return span(row.from, row.to);
    }
    span(row.from, row_at(rows, first.end as usize).from)
}

/// A row of an outline.
#[tactic(auto, unfolding(crate::specs::Outline::outlined))]
fn outlined(rows: &[Row], number: usize, row: Row) -> Reached
    requires { number + 1 < 2 ^ 64 }
    ensures { result ≡ outlined rows.now number row }
{
    Reached {
        sort: sort_in(row),
        row,
        first: row_at(rows, number + 1),
        own: own_bytes(rows, number, row),
    }
}

/// The outline of a symbol with these rows: all rows except those within a row that is passed over.
///
/// # Errors
///
/// `Memory`.
pub(crate) fn outline_of(alloc: Global, rows: &[Row]) -> Result<Vec<Reached>, Refusal>
    ensures outline { IfOk result (λ found. found.items ≡ outline_of rows.now) }
    ensures refusals { IfErr result (λ refusal. refusal ≡ Refusal.Memory) }
{
    let mut outline = Vec::new(alloc);
    let mut number = 0;
    'rows: loop {
        let Some(row) = rows.get(number) else {
            return Ok(outline);
        };
        let row = outlined(rows, number, *row);
        push_within(&mut outline, row)?;
        number += 1;
        if PASSED_OVER.is(row.sort) {
            number = number.max(row.row.end as usize);
        }
    }
}

/// An outline from its first sought row on.
#[tactic(auto, unfolding(crate::specs::Outline::from_first))]
pub(crate) fn from_first(sought: Sought, outline: &[Reached]) -> &[Reached]
    ensures { result.now ≡ from_first sought outline.now }
{
    let mut left = outline;
    'rows: loop {
        match left {
            [row, rest @ ..] => {
                if sought.is(row.sort) {
                    return left;
                }
                left = rest;
            }
            _ => return left,
        }
    }
}

/// An outline from its last sought row on.
#[tactic(auto, unfolding(crate::specs::Outline::from_last, crate::specs::Outline::or_else))]
pub(crate) fn from_last(sought: Sought, outline: &[Reached]) -> &[Reached]
    ensures { result.now ≡ from_last sought outline.now }
{
    let mut left = outline;
    let mut found: &[Reached] = &[];
    'rows: loop {
        match left {
            [row, rest @ ..] => {
                if sought.is(row.sort) {
                    found = left;
                }
                left = rest;
            }
            _ => return found,
        }
    }
}

/// Where the first row of an outline begins; the given place if the outline has no row.
#[tactic(auto, unfolding(crate::specs::Outline::begin_or))]
pub(crate) fn begin_or(outline: &[Reached], place: u32) -> u32
    ensures { result ≡ begin_or outline.now place }
{
    match outline {
        [row, ..] => row.row.from,
        _ => place,
    }
}
