// Rows of a symbol's shape by their numbers.
#![tactic(auto)]

ghost use Rattle.std.specs.Prelude.{◌≡◌};
ghost use Rattle.rust_spelled.specs.Rows.{behind, production_at, row_at, span_at};
ghost use Rattle.sym_parts.specs.Spelling as bytes;

use rust_grammar::production::{Production, numbered};
use sym_parts::Span;
use sym_shape::{Row, TOKEN};

/// A token without bytes.
const NO_ROW: Row = Row {
    rule: TOKEN,
    after: 0,
    from: 0,
    to: 0,
    end: 0,
};

/// The row with a number; where there is none, a token without bytes.
#[tactic(auto, unfolding(crate::specs::Rows::row_at))]
pub(crate) fn row_at(rows: &[Row], number: usize) -> Row
    ensures { result ≡ row_at rows.now number }
{
    match rows.get(number) {
        Some(row) => *row,
        None => NO_ROW,
    }
}

/// The production of a row, unless it is a token.
pub(crate) fn production_at(rows: &[Row], number: usize) -> Option<Production>
    ensures { result ≡ production_at rows.now number }
{
    numbered(row_at(rows, number).rule)
}

/// The number of the row after those of a row's subtree.
pub(crate) fn behind(rows: &[Row], number: usize) -> usize
    ensures { result ≡ behind rows.now number }
{
    row_at(rows, number).end as usize
}

/// The bytes from one place of a symbol up to another; none where the second isn't after the first.
pub(crate) fn span(from: u32, to: u32) -> Span
    ensures { result ≡ bytes.span from to }
{
    if from <= to {
        return Span { from, to };
    }
    Span { from, to: from }
}

/// The bytes of a row.
pub(crate) fn span_at(rows: &[Row], number: usize) -> Span
    ensures { result ≡ span_at rows.now number }
{
    let row = row_at(rows, number);
    span(row.from, row.to)
}
