// The text of an item, step by step and part by part.

ghost use Rattle.std.specs.Prelude.{◌≡◌, OnOk};
ghost use Rattle.std.specs.List.{All};
ghost use Rattle.sym_print.specs.Printing.{entries};
ghost use Rattle.sym_print.specs.declared.layout.Part.{Part};

use std::alloc::{AllocError, Global};
use sym_core::Refusal;
use sym_print::{Item, Layout, Part, Printer, push_reversed};

/// Whether a printer repeats this answer, with this count of steps before and after the call.
fn answers_again<Y: Layout>(
    printer: &mut Printer<Y::Ctx>,
    y: &Y,
    answer: Result<bool, Refusal>,
    taken: u64,
) -> bool
    requires { All (Y.may_come y.now) (entries printer.old) }
    ensures { All (Y.may_come y.now) (entries printer.new) }
{
    printer.steps() == taken && printer.step(y) == answer && printer.steps() == taken
}

/// The printer's step with this number: whether nothing is left to do after it. None where the step isn't counted, or where a repeated call
/// gives another answer.
fn step<Y: Layout>(
    printer: &mut Printer<Y::Ctx>,
    y: &Y,
    number: u64,
) -> Result<Option<bool>, Refusal>
    requires { All (Y.may_come y.now) (entries printer.old) }
    ensures { All (Y.may_come y.now) (entries printer.new) }
{
    let answer = printer.step(y);
    if answer == Ok(false) {
        return Ok((printer.steps() == number).then_some(false));
    }
    if !answers_again(printer, y, answer, number) {
        return Ok(None);
    }
    Ok(Some(answer?))
}

/// The text of an item that is printed step by step, with each step counted. None if a step is wrong, or if there are more than `limit + 1`
/// steps.
pub fn printed_in_steps<Y: Layout>(
    alloc: Global,
    y: &Y,
    root: Item<Y::Ctx>,
    limit: u32,
) -> Result<Option<Vec<u8>>, Refusal>
    requires { Y.may_come y.now (Part.Sub root) }
{
    let mut printer = Printer::new(alloc, root, limit)?;
    'steps: for taken in 1..=u64::from(limit).saturating_add(1) {
        match step(&mut printer, y, taken)? {
            Some(true) => return Ok(Some(printer.into_text())),
            Some(false) => {}
            None => return Ok(None),
        }
    }
    Ok(None)
}

/// Puts the parts of an item on top of the waiting parts.
fn open<Y: Layout>(
    y: &Y,
    item: Item<Y::Ctx>,
    waiting: &mut Vec<Part<Y::Ctx>>,
) -> Result<(), AllocError>
    requires item { Y.may_come y.now (Part.Sub item) }
    requires waiting { All (Y.may_come y.now) waiting.old.items }
    ensures waiting { OnOk result (All (Y.may_come y.now) waiting.new.items) }
{
    let parts = y.parts(item);
    waiting.reserve(parts.len())?;
    push_reversed(waiting, &parts);
    Ok(())
}

/// Puts the parts of an item on top of the waiting parts, or adds the bytes of a text, and answers what the item or the text costs.
fn take<Y: Layout>(
    y: &Y,
    part: Part<Y::Ctx>,
    waiting: &mut Vec<Part<Y::Ctx>>,
    text: &mut Vec<u8>,
) -> Result<usize, AllocError>
    requires part { Y.may_come y.now part }
    requires waiting { All (Y.may_come y.now) waiting.old.items }
    ensures waiting { OnOk result (All (Y.may_come y.now) waiting.new.items) }
{
    match part {
        Part::Sub(item) => {
            open(y, item, waiting)?;
            Ok(1)
        }
        _ => {
            let bytes = y.bytes(&part);
            text.extend_from_slice(bytes)?;
            Ok(bytes.len())
        }
    }
}

/// Takes the waiting parts, and those of their items, until none is left. Answers whether none is left after at most as many
/// parts as the limit.
///
/// # Errors
///
/// `TooLong` where the parts cost more than the limit, and `Memory`.
fn take_all<Y: Layout>(
    y: &Y,
    waiting: &mut Vec<Part<Y::Ctx>>,
    text: &mut Vec<u8>,
    limit: u32,
) -> Result<bool, Refusal>
    requires { All (Y.may_come y.now) waiting.old.items }
{
    let mut left = limit as usize;
    'parts: for _ in 0..=limit {
        let Some(part) = waiting.pop() else {
            return Ok(true);
        };
        let cost = take(y, part, waiting, text)?;
        if left < cost {
            return Err(Refusal::TooLong);
        }
        left -= cost;
    }
    Ok(false)
}

/// The text of an item, built only from the parts of items and the bytes of texts. None where there are more parts than the text costs.
///
/// # Errors
///
/// `TooLong` where the text costs more than the limit, and `Memory`.
pub fn put_together<Y: Layout>(
    alloc: Global,
    y: &Y,
    root: Item<Y::Ctx>,
    limit: u32,
) -> Result<Option<Vec<u8>>, Refusal>
    requires { Y.may_come y.now (Part.Sub root) }
{
    let mut text = Vec::new(alloc);
    let mut waiting = Vec::new(alloc);
    waiting.push(Part::Sub(root))?;
    if take_all(y, &mut waiting, &mut text, limit)? {
        Ok(Some(text))
    } else {
        Ok(None)
    }
}
