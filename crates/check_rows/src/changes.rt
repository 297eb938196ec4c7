// Symbols cut and changed at each byte.

use crate::answer::Verdict;
use crate::languages::{AllLists, ask_demangler};
use crate::row::Row;
use std::alloc::{AllocError, Global};
use sym_core::fits;

/// How a symbol is changed at a place.
#[derive(Clone, Copy)]
pub enum Change {
    /// The symbol ends at the place.
    Cut,
    /// The symbol has this byte at the place.
    Put(u8),
}

/// A symbol that is changed at a place.
fn changed(alloc: Global, s: &[u8], place: usize, change: Change) -> Result<Vec<u8>, AllocError> {
    let (front, rest) = s.split_at(place.min(s.len()));
    let mut changed = Vec::from_slice(alloc, front)?;
    if let Change::Put(byte) = change
        && let Some((_, behind)) = rest.split_first()
    {
        changed.push(byte)?;
        changed.extend_from_slice(behind)?;
    }
    Ok(changed)
}

/// The answer for a symbol that is changed at a place: the rest of a field that begins with the place and a blank.
fn answer_at<'a>(
    alloc: Global,
    field: Option<&&'a [u8]>,
    place: usize,
) -> Result<Option<&'a [u8]>, AllocError> {
    let at = format!(in alloc; "{place} ")?;
    match field {
        Some(field) => Ok(field.strip_prefix(at.as_bytes())),
        None => Ok(None),
    }
}

/// Requests the text of a changed symbol. A changed symbol with too many bytes fails the row.
fn ask_changed(
    verdict: &mut Verdict,
    lists: &mut AllLists,
    row: Row<'_>,
    changed: &[u8],
    wanted: &[u8],
) {
    let row = Row {
        s: changed,
        wanted,
        ..row
    };
    if fits(changed) {
        ask_demangler(verdict, lists, row);
    } else {
        verdict.require(false);
    }
}

/// Requests the text of a symbol that is changed at a place. The symbol has to be malformed there, unless another answer is given. Returns
/// whether another answer is given.
fn ask_at(
    verdict: &mut Verdict,
    lists: &mut AllLists,
    row: Row<'_>,
    place: usize,
    change: Change,
    other: Option<&&[u8]>,
) -> Result<bool, AllocError> {
    let changed = changed(verdict.alloc, row.s, place, change)?;
    if let Some(answer) = answer_at(verdict.alloc, other, place)? {
        ask_changed(verdict, lists, row, &changed, answer);
        return Ok(true);
    }
    let usual = format!(in verdict.alloc; "malformed at {place}")?;
    ask_changed(verdict, lists, row, &changed, usual.as_bytes());
    Ok(false)
}

/// Demangles a symbol with each of its bytes changed in turn. The changed symbol has to be malformed at that byte, unless a field of the
/// row gives another answer: such a field has the place, a blank, and the answer.
pub fn ask_each_place(
    verdict: &mut Verdict,
    lists: &mut AllLists,
    row: Row<'_>,
    change: Change,
    others: &[&[u8]],
) -> Result<(), AllocError> {
    let mut said = 0_usize;
    for place in 0..row.s.len() {
        if ask_at(verdict, lists, row, place, change, others.get(said))? {
            said = said.saturating_add(1);
        }
    }
    verdict.require(said == others.len());
    Ok(())
}
