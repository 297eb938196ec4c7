// The parts of a text, with the bytes of the symbol that spell them.
#![tactic(auto)]

ghost use Rattle.std.specs.Prelude.{◌≡◌, ◌++◌, OnOk, IfErr, IfOk, slice_get, map};
ghost use Rattle.sym_core.specs.declared.refusal.Refusal.{Refusal};
ghost use Rattle.sym_parts.specs.Spelling.{or_others, once, element_of, item_of, span_of, part_of, unprinted, parts_spelled};

use crate::part::Part;
use crate::role::Role;
use crate::spelling::{Item, Ordinal, Span, Spelled, Spelling};
use crate::stretch::Stretch;
use std::alloc::Global;
use sym_core::Refusal;
use sym_room::push_within;

/// The span at a place of a list; where there is none, `others`.
#[tactic(auto, unfolding(crate::specs::Spelling::or_others))]
fn or_others(others: Span, spans: &[Span], place: usize) -> Span
    ensures { result ≡ or_others others (slice_get spans.now place) }
{
    match spans.get(place) {
        Some(found) => *found,
        None => others,
    }
}

/// What spells a part that comes once.
fn once(others: Span, role: Role, spans: &[Spelled]) -> Span
    ensures { result ≡ once others role spans.now }
{
    let mut left = spans;
    'spans: while let Some((first, rest)) = left.split_first() {
        if first.role.number() == role.number() {
            return first.span;
        }
        left = rest;
    }
    others
}

/// What spells an element of an item, by the element's number from 1 on; 0 is the item itself.
fn element_of(elements: &[Span], item: Item, number: u32) -> Span
    ensures { result ≡ element_of elements.now item number }
{
    if number == 0 {
        return item.span;
    }
    let before = number - 1;
    if before < item.count {
        return or_others(item.span, elements, item.first as usize + before as usize);
    }
    item.span
}

/// What spells an item of a list, or one of the item's elements.
#[tactic(auto, unfolding(crate::specs::Spelling::item_of))]
fn item_of(others: Span, elements: &[Span], items: &[Item], ordinal: Ordinal) -> Span
    ensures { result ≡ item_of others elements.now (slice_get items.now ordinal.item) ordinal.element }
{
    match items.get(ordinal.item as usize) {
        Some(item) => element_of(elements, *item, ordinal.element),
        None => others,
    }
}

/// What spells a part of this role.
#[tactic(auto, unfolding(crate::specs::Spelling::span_of))]
fn span_of(spelling: &Spelling, role: Role, ordinal: Ordinal) -> Span
    ensures { result ≡ span_of spelling.now role ordinal }
{
    let (others, place) = (spelling.others, ordinal.item as usize);
    match role {
        Role::Special => or_others(others, &spelling.specials, place),
        Role::AbiTag => or_others(others, &spelling.tags, place),
        Role::GenericArguments => or_others(others, &spelling.argument_lists, place),
        Role::GenericArgument => {
            item_of(others, &spelling.elements, &spelling.arguments, ordinal)
        }
        Role::Parameter => item_of(others, &spelling.elements, &spelling.parameters, ordinal),
        _ => once(others, role, &spelling.spans),
    }
}

/// A part of a text with the bytes that spell it.
#[tactic(auto, unfolding(crate::specs::Spelling::part_of))]
fn part_of(spelling: &Spelling, stretch: Stretch) -> Part
    ensures { result ≡ part_of spelling.now stretch }
{
    let span = span_of(spelling, stretch.role, stretch.ordinal);
    Part {
        role: stretch.role,
        start: stretch.start,
        length: stretch.length,
        from: span.from,
        to: span.to,
    }
}

/// Adds the parts of stretches.
///
/// # Errors
///
/// `Memory` where the list couldn't grow.
fn push_parts(
    parts: &mut Vec<Part>,
    stretches: &[Stretch],
    spelling: &Spelling,
) -> Result<(), Refusal>
    ensures parts { OnOk result (parts.new.items ≡ parts.old.items ++ map (part_of spelling.now) stretches.now) }
    ensures refusals { IfErr result (λ refusal. refusal ≡ Refusal.Memory) }
{
    let mut left = stretches;
    'stretches: while let Some((first, rest)) = left.split_first() {
        push_within(parts, part_of(spelling, *first))?;
        left = rest;
    }
    Ok(())
}

/// Adds the parts that aren't in the text, at its end.
///
/// # Errors
///
/// `Memory` where the list couldn't grow.
fn push_unprinted(parts: &mut Vec<Part>, end: u32, spans: &[Spelled]) -> Result<(), Refusal>
    ensures parts { OnOk result (parts.new.items ≡ parts.old.items ++ unprinted end spans.now) }
    ensures refusals { IfErr result (λ refusal. refusal ≡ Refusal.Memory) }
{
    let mut left = spans;
    'spans: while let Some((first, rest)) = left.split_first() {
        if Role::Hash.number() <= first.role.number() {
            let part = Part {
                role: first.role,
                start: end,
                length: 0,
                from: first.span.from,
                to: first.span.to,
            };
            push_within(parts, part)?;
        }
        left = rest;
    }
    Ok(())
}

/// The parts of a text of this length, by its stretches and what spells them. Parts that aren't in the text come last.
///
/// # Errors
///
/// `Memory` where the list couldn't grow.
pub fn with_bytes(
    alloc: Global,
    stretches: &[Stretch],
    spelling: &Spelling,
    length: u32,
) -> Result<Vec<Part>, Refusal>
    ensures parts { IfOk result (λ parts. parts.items ≡ parts_spelled spelling.now length stretches.now) }
    ensures refusals { IfErr result (λ refusal. refusal ≡ Refusal.Memory) }
{
    let mut parts = Vec::new(alloc);
    push_parts(&mut parts, stretches, spelling)?;
    push_unprinted(&mut parts, length, &spelling.spans)?;
    Ok(parts)
}
