// Which bytes spell the words of special names, and which the tags, arguments and parameters of a name.
#![tactic(auto)]

ghost use Rattle.std.specs.Prelude.{◌≡◌, ◌+◌, IfErr, IfOk, map};
ghost use Rattle.sym_core.specs.declared.refusal.Refusal.{Refusal};
ghost use Rattle.cpp_spelled.specs.Outline.{bytes_of_all};
ghost use Rattle.cpp_spelled.specs.Spelled.{words_in, elements_ahead, arguments_in, alone};

use crate::outline::{Reached, begin_or, from_first, span};
use crate::sought::{ANY_ENCODING, ARGUMENT, ELEMENT, SPECIAL, Sought};
use std::alloc::Global;
use sym_core::Refusal;
use sym_parts::{Item, Span};
use sym_room::push_within;

/// The own bytes of each row that is sought.
///
/// # Errors
///
/// `Memory`.
#[tactic(auto, unfolding(crate::specs::Outline::bytes_of_all))]
pub(crate) fn bytes_of_all(
    alloc: Global,
    sought: Sought,
    outline: &[Reached],
) -> Result<Vec<Span>, Refusal>
    ensures bytes { IfOk result (λ found. found.items ≡ bytes_of_all sought outline.now) }
    ensures refusals { IfErr result (λ refusal. refusal ≡ Refusal.Memory) }
{
    let mut found = Vec::new(alloc);
    let mut left = outline;
    'rows: loop {
        match left {
            [row, rest @ ..] => {
                if sought.is(row.sort) {
                    push_within(&mut found, row.own)?;
                }
                left = rest;
            }
            _ => return Ok(found),
        }
    }
}

/// The words of each special name, up to the encoding or the object that it belongs to.
///
/// # Errors
///
/// `Memory`.
#[tactic(auto, unfolding(crate::specs::Spelled::words_in))]
pub(crate) fn words_in(
    alloc: Global,
    object: u32,
    outline: &[Reached],
) -> Result<Vec<Span>, Refusal>
    ensures words { IfOk result (λ found. found.items ≡ words_in object outline.now) }
    ensures refusals { IfErr result (λ refusal. refusal ≡ Refusal.Memory) }
{
    let mut found = Vec::new(alloc);
    let mut left = outline;
    'rows: loop {
        match left {
            [row, rest @ ..] => {
                if SPECIAL.is(row.sort) {
                    let end = begin_or(from_first(ANY_ENCODING, rest), object);
                    push_within(&mut found, span(row.row.from, end))?;
                }
                left = rest;
            }
            _ => return Ok(found),
        }
    }
}

/// The next number.
///
/// # Errors
///
/// `Memory` if the next number doesn't fit.
fn next(count: u32) -> Result<u32, Refusal>
    ensures next { IfOk result (λ found. found ≡ count + 1) }
    ensures refusals { IfErr result (λ refusal. refusal ≡ Refusal.Memory) }
{
    match count.checked_add(1) {
        Some(next) => Ok(next),
        None => Err(Refusal::Memory),
    }
}

/// How many elements precede the next argument.
///
/// # Errors
///
/// `Memory` if there are too many elements.
#[tactic(auto, unfolding(crate::specs::Spelled::elements_ahead))]
fn elements_ahead(outline: &[Reached]) -> Result<u32, Refusal>
    ensures count { IfOk result (λ found. found ≡ elements_ahead outline.now) }
    ensures refusals { IfErr result (λ refusal. refusal ≡ Refusal.Memory) }
{
    let mut count = 0u32;
    let mut left = outline;
    'rows: loop {
        match left {
            [row, rest @ ..] => {
                if ARGUMENT.is(row.sort) {
                    return Ok(count);
                }
                if ELEMENT.is(row.sort) {
                    count = next(count)?;
                }
                left = rest;
            }
            _ => return Ok(count),
        }
    }
}

/// The arguments, each with its elements.
///
/// # Errors
///
/// `Memory`.
#[tactic(auto, unfolding(crate::specs::Spelled::arguments_in))]
pub(crate) fn arguments_in(alloc: Global, outline: &[Reached]) -> Result<Vec<Item>, Refusal>
    ensures arguments { IfOk result (λ found. found.items ≡ arguments_in 0 outline.now) }
    ensures refusals { IfErr result (λ refusal. refusal ≡ Refusal.Memory) }
{
    let mut found = Vec::new(alloc);
    let mut before = 0;
    let mut left = outline;
    'rows: loop {
        match left {
            [row, rest @ ..] => {
                if ARGUMENT.is(row.sort) {
                    let count = elements_ahead(rest)?;
                    let item = Item {
                        span: row.own,
                        first: before,
                        count,
                    };
                    push_within(&mut found, item)?;
                } else if ELEMENT.is(row.sort) {
                    before = next(before)?;
                }
                left = rest;
            }
            _ => return Ok(found),
        }
    }
}

/// Items without elements.
///
/// # Errors
///
/// `Memory`.
#[tactic(auto, unfolding(crate::specs::Spelled::alone))]
pub(crate) fn all_alone(alloc: Global, spans: &[Span]) -> Result<Vec<Item>, Refusal>
    ensures items { IfOk result (λ found. found.items ≡ map alone spans.now) }
    ensures refusals { IfErr result (λ refusal. refusal ≡ Refusal.Memory) }
{
    let mut found = Vec::new(alloc);
    let mut left = spans;
    'spans: loop {
        match left {
            [span, rest @ ..] => {
                let item = Item {
                    span: *span,
                    first: 0,
                    count: 0,
                };
                push_within(&mut found, item)?;
                left = rest;
            }
            _ => return Ok(found),
        }
    }
}
