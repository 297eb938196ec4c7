// The work stack: its entries are taken one at a time, and paid for.
#![tactic(auto)]

ghost use Rattle.std.specs.Prelude.{◌≡◌, ◌+◌, ◌*◌, ◌-◌, ◌<◌, ◌≤◌, ◌++◌, max, length, take, drop, vec_len, vec_capacity, is_ok, if◌then◌else◌, [], Err, IfErr, OnOk, OnErr, ◌⊎◌};
ghost use Rattle.std.specs.List.{All};
ghost use Rattle.sym_print.specs.Joined.{text_of_stack, cost_of_stack, steps_of_stack, IsText, IsNext};
ghost use Rattle.sym_print.specs.Noted.{IsNote, AreNoted, AreBelow, EndsAt};
ghost use Rattle.sym_print.specs.Peak.{peak_of_stack};
ghost use Rattle.sym_print.specs.Runs.{IsRun, entries_of_run, steps_of_run};
ghost use Rattle.sym_print.specs.Spare.{spare_of_stack};
ghost use Rattle.sym_print.specs.Stacked.{Stacked};
ghost use Rattle.sym_print.specs.Unshared.{text_of};
ghost use Rattle.sym_print.specs.declared.layout.Part.{Part};
ghost use Rattle.sym_core.specs.declared.Refusal.{Refusal};
ghost use Rattle.sym_room.specs.Room.{IsGrown, most_for};

use crate::layout::{Item, Layout, Part, Run};
use crate::meter::Meter;
use crate::notes::{Begun, Note, Notes};
use std::alloc::AllocError;
use sym_core::Refusal;
use sym_room::make_room;

/// The most that a text may cost, whatever its symbol, without being dear.
const CHEAP_TEXT: u32 = 1024;

/// How much more a text may cost for each node of its symbol without being dear.
const CHEAP_NODE: u32 = 64;

/// Adds bytes to a text. Up to three are added one at a time, which is faster than a copy.
#[inline(always)]
fn append(text: &mut Vec<u8>, bytes: &[u8]) -> Result<(), AllocError>
    ensures items { text.new.items ≡ (if is_ok result then text.old.items ++ bytes.now else text.old.items) }
    ensures len { vec_len text.new ≡ (if is_ok result then vec_len text.old + length bytes.now else vec_len text.old) }
    ensures capacity { vec_capacity text.old ≤ vec_capacity text.new }
    ensures full { OnErr result (vec_capacity text.old < vec_len text.old + length bytes.now) }
{
    match bytes {
        [first, second] => {
            text.reserve(2)?;
            text.push_reserved(*first);
            text.push_reserved(*second);
        }
        [first] => {
            text.reserve(1)?;
            text.push_reserved(*first);
        }
        [first, second, third] => {
            text.reserve(3)?;
            text.push_reserved(*first);
            text.push_reserved(*second);
            text.push_reserved(*third);
        }
        _ => text.extend_from_slice(bytes)?,
    }
    Ok(())
}

/// Writes a byte text where it can be paid for.
#[inline(always)]
fn write_text<Y: Layout>(
    y: &Y,
    part: &Part<Y::Ctx>,
    text: &mut Vec<u8>,
    meter: &mut Meter,
) -> Result<(), Refusal>
    requires may_come { Y.may_come y.now part.now }
    requires is_text { IsText part.now }
    requires paid { vec_len text.old ≤ meter.old.spent }
    ensures paid { vec_len text.new ≤ meter.new.spent }
    ensures ok { OnOk result (text.new.items ≡ text.old.items ++ Y.bytes_of y.now part.now) }
    ensures spent { OnOk result (meter.new.spent ≡ meter.old.spent + length (Y.bytes_of y.now part.now)) }
    ensures some { 0 < length (Y.bytes_of y.now part.now) }
    ensures steps { OnOk result (meter.new.steps ≡ meter.old.steps + 1) }
    ensures limit { meter.new.limit ≡ meter.old.limit }
    ensures err { OnErr result ((text.new.items ≡ text.old.items) × (meter.new ≡ meter.old)) }
    ensures room { vec_capacity text.old ≤ vec_capacity text.new }
    ensures own { IfErr result (λ r. (r ≡ Refusal.TooLong) ⊎ (r ≡ Refusal.Memory)) }
    ensures too_long { result ≡ Err Refusal.TooLong → meter.old.limit < meter.old.spent + length (Y.bytes_of y.now part.now) }
    ensures memory { result ≡ Err Refusal.Memory → vec_capacity text.old < vec_len text.old + length (Y.bytes_of y.now part.now) }
    ensures affords { result ≡ Err Refusal.Memory → meter.old.spent + length (Y.bytes_of y.now part.now) ≤ meter.old.limit }
{
    let bytes = y.bytes(part);
    if !meter.affords(bytes.len()) {
        return Err(Refusal::TooLong);
    }
    append(text, bytes)?;
    meter.pay(bytes.len());
    Ok(())
}

/// Pays for an item, and makes room for its parts.
fn pay_item<C: Copy>(stack: &mut Vec<Part<C>>, meter: &mut Meter) -> Result<(), Refusal>
    ensures items { stack.new.items ≡ stack.old.items }
    ensures len { vec_len stack.new ≡ vec_len stack.old }
    ensures parts_fit { OnOk result (vec_len stack.new + 8 ≤ vec_capacity stack.new) }
    ensures spent { OnOk result (meter.new.spent ≡ meter.old.spent + 1) }
    ensures steps { OnOk result (meter.new.steps ≡ meter.old.steps + 1) }
    ensures limit { meter.new.limit ≡ meter.old.limit }
    ensures err { OnErr result (meter.new ≡ meter.old) }
    ensures room { vec_capacity stack.old ≤ vec_capacity stack.new }
    ensures grown { IsGrown (vec_capacity stack.old) (vec_capacity stack.new) (vec_len stack.old + 8) }
    ensures own { IfErr result (λ r. (r ≡ Refusal.TooLong) ⊎ (r ≡ Refusal.Memory)) }
    ensures too_long { result ≡ Err Refusal.TooLong → meter.old.limit < meter.old.spent + 1 }
    ensures memory { result ≡ Err Refusal.Memory → vec_capacity stack.old < vec_len stack.old + 8 }
    ensures affords { result ≡ Err Refusal.Memory → meter.old.spent < meter.old.limit }
{
    if !meter.affords(1) {
        return Err(Refusal::TooLong);
    }
    make_room(stack, 8)?;
    meter.pay(1);
    Ok(())
}

/// Takes the next entry, an item, from the stack, pays for it, and makes room for its parts.
fn take_item<C: Copy>(stack: &mut Vec<Part<C>>, meter: &mut Meter) -> Result<(), Refusal>
    requires some { 0 < vec_len stack.old }
    ensures items { OnOk result (stack.new.items ≡ take (length stack.old.items - 1) stack.old.items) }
    ensures len { OnOk result (vec_len stack.new + 1 ≡ vec_len stack.old) }
    ensures parts_fit { OnOk result (vec_len stack.new + 8 ≤ vec_capacity stack.new) }
    ensures spent { OnOk result (meter.new.spent ≡ meter.old.spent + 1) }
    ensures steps { OnOk result (meter.new.steps ≡ meter.old.steps + 1) }
    ensures limit { meter.new.limit ≡ meter.old.limit }
    ensures err { OnErr result ((stack.new.items ≡ stack.old.items) × (meter.new ≡ meter.old)) }
    ensures room { vec_capacity stack.old ≤ vec_capacity stack.new }
    ensures grown { IsGrown (vec_capacity stack.old) (vec_capacity stack.new) (vec_len stack.old + 8) }
    ensures own { IfErr result (λ r. (r ≡ Refusal.TooLong) ⊎ (r ≡ Refusal.Memory)) }
    ensures too_long { result ≡ Err Refusal.TooLong → meter.old.limit < meter.old.spent + 1 }
    ensures memory { result ≡ Err Refusal.Memory → vec_capacity stack.old < vec_len stack.old + 8 }
    ensures affords { result ≡ Err Refusal.Memory → meter.old.spent < meter.old.limit }
{
    pay_item(stack, meter)?;
    stack.pop();
    Ok(())
}

/// Puts the parts of the next entry, an item, in its place.
#[inline(always)]
pub(crate) fn open_item<Y: Layout>(
    y: &Y,
    item: Item<Y::Ctx>,
    stack: &mut Vec<Part<Y::Ctx>>,
    meter: &mut Meter,
) -> Result<(), Refusal>
    requires next { IsNext stack.old.items (Part.Sub item) }
    requires may_come { All (Y.may_come y.now) stack.old.items }
    requires paid { vec_len stack.old ≤ 7 * meter.old.spent + 1 }
    ensures paid { vec_len stack.new ≤ 7 * meter.new.spent + 1 }
    ensures may_come { All (Y.may_come y.now) stack.new.items }
    ensures text { text_of_stack (Y.unshared y.now) (Y.bytes_of y.now) stack.new.items ≡ text_of_stack (Y.unshared y.now) (Y.bytes_of y.now) stack.old.items }
    ensures cost { meter.new.spent + cost_of_stack (Y.unshared y.now) (Y.bytes_of y.now) stack.new.items ≡ meter.old.spent + cost_of_stack (Y.unshared y.now) (Y.bytes_of y.now) stack.old.items }
    ensures remaining { meter.new.steps + steps_of_stack (Y.unshared y.now) (Y.bytes_of y.now) stack.new.items ≡ meter.old.steps + steps_of_stack (Y.unshared y.now) (Y.bytes_of y.now) stack.old.items }
    ensures limit { meter.new.limit ≡ meter.old.limit }
    ensures peak { peak_of_stack (Y.unshared y.now) stack.new.items ≤ peak_of_stack (Y.unshared y.now) stack.old.items }
    ensures parts { OnOk result (Stacked (Y.unshared y.now) (Y.bytes_of y.now) (Y.may_come y.now) (take (length stack.old.items - 1) stack.old.items) stack.new.items (Y.unshared y.now item)) }
    ensures spent { OnOk result (meter.new.spent ≡ meter.old.spent + 1) }
    ensures steps { OnOk result (meter.new.steps ≡ meter.old.steps + 1) }
    ensures err { OnErr result ((stack.new.items ≡ stack.old.items) × (meter.new ≡ meter.old)) }
    ensures room { vec_capacity stack.old ≤ vec_capacity stack.new }
    ensures grown { IsGrown (vec_capacity stack.old) (vec_capacity stack.new) (vec_len stack.old + 8) }
    ensures own { IfErr result (λ r. (r ≡ Refusal.TooLong) ⊎ (r ≡ Refusal.Memory)) }
    ensures too_long { result ≡ Err Refusal.TooLong → meter.old.limit < meter.old.spent + 1 }
    ensures memory { result ≡ Err Refusal.Memory → vec_capacity stack.old < vec_len stack.old + 8 }
    ensures affords { result ≡ Err Refusal.Memory → meter.old.spent < meter.old.limit }
{
    take_item(stack, meter)?;
    y.push_parts(item, stack);
    Ok(())
}

/// Writes the next entry, a byte text, and takes it from the stack.
pub(crate) fn print_text<Y: Layout>(
    y: &Y,
    next: &Part<Y::Ctx>,
    stack: &mut Vec<Part<Y::Ctx>>,
    text: &mut Vec<u8>,
    meter: &mut Meter,
) -> Result<(), Refusal>
    requires next { IsNext stack.old.items next.now }
    requires is_text { IsText next.now }
    requires may_come { All (Y.may_come y.now) stack.old.items }
    requires paid { vec_len text.old ≤ meter.old.spent }
    requires stack_paid { vec_len stack.old ≤ 7 * meter.old.spent + 1 }
    ensures paid { vec_len text.new ≤ meter.new.spent }
    ensures stack_paid { vec_len stack.new ≤ 7 * meter.new.spent + 1 }
    ensures may_come { All (Y.may_come y.now) stack.new.items }
    ensures text { text.new.items ++ text_of_stack (Y.unshared y.now) (Y.bytes_of y.now) stack.new.items ≡ text.old.items ++ text_of_stack (Y.unshared y.now) (Y.bytes_of y.now) stack.old.items }
    ensures cost { meter.new.spent + cost_of_stack (Y.unshared y.now) (Y.bytes_of y.now) stack.new.items ≡ meter.old.spent + cost_of_stack (Y.unshared y.now) (Y.bytes_of y.now) stack.old.items }
    ensures remaining { meter.new.steps + steps_of_stack (Y.unshared y.now) (Y.bytes_of y.now) stack.new.items ≡ meter.old.steps + steps_of_stack (Y.unshared y.now) (Y.bytes_of y.now) stack.old.items }
    ensures limit { meter.new.limit ≡ meter.old.limit }
    ensures spent { OnOk result (meter.old.spent < meter.new.spent) }
    ensures steps { OnOk result (meter.new.steps ≡ meter.old.steps + 1) }
    ensures err { OnErr result (meter.new ≡ meter.old) }
    ensures entry_room { vec_capacity stack.old ≤ vec_capacity stack.new }
    ensures same_room { vec_capacity stack.new ≡ vec_capacity stack.old }
    ensures peak { peak_of_stack (Y.unshared y.now) stack.new.items ≤ peak_of_stack (Y.unshared y.now) stack.old.items }
    ensures text_room { vec_capacity text.old ≤ vec_capacity text.new }
    ensures own { IfErr result (λ r. (r ≡ Refusal.TooLong) ⊎ (r ≡ Refusal.Memory)) }
    ensures too_long { result ≡ Err Refusal.TooLong → meter.old.limit < meter.old.spent + length (Y.bytes_of y.now next.now) }
    ensures too_dear { result ≡ Err Refusal.TooLong → meter.new.limit < meter.new.spent + cost_of_stack (Y.unshared y.now) (Y.bytes_of y.now) stack.new.items }
    ensures memory { result ≡ Err Refusal.Memory → vec_capacity text.old < vec_len text.old + length (Y.bytes_of y.now next.now) }
{
    write_text(y, next, text, meter)?;
    stack.pop();
    Ok(())
}

/// Adds a copy of some of a text's bytes to its end.
fn append_again(text: &mut Vec<u8>, from: usize, to: usize) -> Result<(), AllocError>
    requires from { from ≤ to }
    requires to { to ≤ length text.old.items }
    requires fits { length text.old.items + (to - from) ≤ 4294967295 }
    ensures items { OnOk result (text.new.items ≡ text.old.items ++ take (to - from) (drop from text.old.items)) }
    ensures same { OnErr result (text.new.items ≡ text.old.items) }
    ensures capacity { vec_capacity text.old ≤ vec_capacity text.new }
    ensures full { OnErr result (vec_capacity text.old < vec_len text.old + (to - from)) }
{
    let end = text.len();
    text.resize(end + (to - from), 0)?;
    let (written, copied) = text.split_at_mut(end);
    copied.copy_from_slice(&written[from..to]);
    Ok(())
}

/// Writes again the text of the next entry, which is a noted item, and takes the entry from the
/// stack.
#[inline(always)]
fn write_again<Y: Layout>(
    _y: &Y,
    note: &Note<Y::Ctx>,
    stack: &mut Vec<Part<Y::Ctx>>,
    text: &mut Vec<u8>,
    meter: &mut Meter,
) -> Result<(), Refusal>
    requires some { 0 < vec_len stack.old }
    requires is { IsNote (Y.unshared _y.now) text.old.items note.now }
    requires paid { vec_len text.old ≤ meter.old.spent }
    ensures text { OnOk result (text.new.items ≡ text.old.items ++ text_of (Y.unshared _y.now note.now.item)) }
    ensures items { OnOk result (stack.new.items ≡ take (length stack.old.items - 1) stack.old.items) }
    ensures len { OnOk result (vec_len stack.new + 1 ≡ vec_len stack.old) }
    ensures spent { OnOk result (meter.new.spent ≡ meter.old.spent + note.now.cost) }
    ensures steps { OnOk result (meter.new.steps ≡ meter.old.steps + note.now.steps) }
    ensures limit { meter.new.limit ≡ meter.old.limit }
    ensures same_stack { OnErr result (stack.new.items ≡ stack.old.items) }
    ensures same_text { OnErr result (text.new.items ≡ text.old.items) }
    ensures same_meter { OnErr result (meter.new ≡ meter.old) }
    ensures entry_room { vec_capacity stack.old ≤ vec_capacity stack.new }
    ensures same_room { vec_capacity stack.new ≡ vec_capacity stack.old }
    ensures text_room { vec_capacity text.old ≤ vec_capacity text.new }
    ensures own { IfErr result (λ r. (r ≡ Refusal.TooLong) ⊎ (r ≡ Refusal.Memory)) }
    ensures too_long { result ≡ Err Refusal.TooLong → meter.old.limit < meter.old.spent + note.now.cost }
    ensures memory { result ≡ Err Refusal.Memory → vec_capacity text.old < meter.old.limit }
{
    if !meter.affords(note.cost as usize) {
        return Err(Refusal::TooLong);
    }
    append_again(text, note.from as usize, note.to as usize)?;
    meter.pay_steps(note.cost, note.steps);
    stack.pop();
    Ok(())
}

/// Notes the innermost item that is being written, which is whole.
#[inline(always)]
fn note_whole<Y: Layout>(
    y: &Y,
    _stack: &Vec<Part<Y::Ctx>>,
    text: &Vec<u8>,
    notes: &mut Notes<Y::Ctx>,
    meter: &Meter,
    is_dear: bool,
)
    requires noted { AreNoted (Y.unshared y.now) (Y.bytes_of y.now) notes.old _stack.now.items text.now.items meter.now.spent meter.now.steps }
    requires whole { EndsAt (length _stack.now.items) notes.old.begun.items }
    requires paid { vec_len text.now ≤ meter.now.spent }
    ensures noted { AreNoted (Y.unshared y.now) (Y.bytes_of y.now) notes.new _stack.now.items text.now.items meter.now.spent meter.now.steps }
    ensures fewer { vec_len notes.new.begun + 1 ≡ vec_len notes.old.begun }
{
    if let Some(begun) = notes.begun.pop() {
        let note = Note {
            item: begun.item,
            from: begun.from,
            to: text.len() as u32,
            cost: meter.spent - begun.spent,
            steps: meter.steps - begun.steps,
        };
        notes.add(y, note, is_dear);
    }
}

/// Notes that the next entry, an item, is being written, if that item is to be noted.
#[inline(always)]
fn begin_item<Y: Layout>(
    _y: &Y,
    item: Item<Y::Ctx>,
    stack: &Vec<Part<Y::Ctx>>,
    text: &Vec<u8>,
    notes: &mut Notes<Y::Ctx>,
    meter: &Meter,
    is_noted: bool,
)
    requires next { IsNext stack.now.items (Part.Sub item) }
    requires noted { AreNoted (Y.unshared _y.now) (Y.bytes_of _y.now) notes.old stack.now.items text.now.items meter.now.spent meter.now.steps }
    requires below { AreBelow (length stack.now.items) notes.old.begun.items }
    requires paid { vec_len text.now ≤ meter.now.spent }
    ensures noted { AreNoted (Y.unshared _y.now) (Y.bytes_of _y.now) notes.new stack.now.items text.now.items meter.now.spent meter.now.steps }
    ensures below { AreBelow (length stack.now.items) notes.new.begun.items }
    ensures few { vec_len notes.new.begun ≤ vec_len notes.old.begun + 1 }
{
    if is_noted {
        notes.begin(Begun {
            item,
            below: stack.len() - 1,
            from: text.len() as u32,
            spent: meter.spent,
            steps: meter.steps,
        });
    }
}

/// Replaces the next entry, which begins a run of items, by the end of the run and, below it, the text after that end.
fn open_run<C: Copy>(
    run: Run<C>,
    stack: &mut Vec<Part<C>>,
    meter: &mut Meter,
) -> Result<(), Refusal>
    requires some { 0 < vec_len stack.old }
    requires levels { 0 < run.levels }
    ensures items { OnOk result (stack.new.items ≡ take (length stack.old.items - 1) stack.old.items ++ entries_of_run run.item run.text) }
    ensures len { OnOk result (vec_len stack.new ≤ vec_len stack.old + 1) }
    ensures spent { OnOk result (meter.new.spent ≡ meter.old.spent + run.levels) }
    ensures steps { OnOk result (meter.new.steps ≡ meter.old.steps + steps_of_run run.levels run.text) }
    ensures limit { meter.new.limit ≡ meter.old.limit }
    ensures err { OnErr result ((stack.new.items ≡ stack.old.items) × (meter.new ≡ meter.old)) }
    ensures room { vec_capacity stack.old ≤ vec_capacity stack.new }
    ensures grown { IsGrown (vec_capacity stack.old) (vec_capacity stack.new) (vec_len stack.old + 8) }
    ensures own { IfErr result (λ r. (r ≡ Refusal.TooLong) ⊎ (r ≡ Refusal.Memory)) }
    ensures too_long { result ≡ Err Refusal.TooLong → meter.old.limit < meter.old.spent + run.levels }
    ensures memory { result ≡ Err Refusal.Memory → vec_capacity stack.old < vec_len stack.old + 8 }
    ensures affords { result ≡ Err Refusal.Memory → meter.old.spent < meter.old.limit }
{
    let Run { item, levels, text } = run;
    if !meter.affords(levels as usize) {
        return Err(Refusal::TooLong);
    }
    make_room(stack, 8)?;
    stack.pop();
    match text {
        Some(text) => {
            meter.pay_steps(levels, 2 * u64::from(levels) - 1);
            stack.push_reserved(text);
        }
        None => meter.pay_steps(levels, u64::from(levels)),
    }
    stack.push_reserved(Part::Sub(item));
    Ok(())
}

/// Takes the next entry, an item that begins a run.
// out of line, since few texts have runs
#[inline(never)]
fn print_run<Y: Layout>(
    y: &Y,
    item: Item<Y::Ctx>,
    run: Run<Y::Ctx>,
    stack: &mut Vec<Part<Y::Ctx>>,
    _text: &Vec<u8>,
    notes: &mut Notes<Y::Ctx>,
    meter: &mut Meter,
    is_dear: bool,
) -> Result<(), Refusal>
    requires next { IsNext stack.old.items (Part.Sub item) }
    requires run { IsRun (Y.unshared y.now) (Y.bytes_of y.now) (Y.may_come y.now) item run }
    requires may_come { All (Y.may_come y.now) stack.old.items }
    requires noted { AreNoted (Y.unshared y.now) (Y.bytes_of y.now) notes.old stack.old.items _text.now.items meter.old.spent meter.old.steps }
    requires below { AreBelow (length stack.old.items) notes.old.begun.items }
    requires paid { vec_len _text.now ≤ meter.old.spent }
    requires stack_paid { vec_len stack.old ≤ 7 * meter.old.spent + 1 }
    requires steps_paid { meter.old.steps ≤ meter.old.spent + spare_of_stack (Y.bytes_of y.now) stack.old.items }
    ensures paid { vec_len _text.now ≤ meter.new.spent }
    ensures stack_paid { vec_len stack.new ≤ 7 * meter.new.spent + 1 }
    ensures steps_paid { meter.new.steps ≤ meter.new.spent + spare_of_stack (Y.bytes_of y.now) stack.new.items }
    ensures may_come { All (Y.may_come y.now) stack.new.items }
    ensures text { _text.now.items ++ text_of_stack (Y.unshared y.now) (Y.bytes_of y.now) stack.new.items ≡ _text.now.items ++ text_of_stack (Y.unshared y.now) (Y.bytes_of y.now) stack.old.items }
    ensures cost { meter.new.spent + cost_of_stack (Y.unshared y.now) (Y.bytes_of y.now) stack.new.items ≡ meter.old.spent + cost_of_stack (Y.unshared y.now) (Y.bytes_of y.now) stack.old.items }
    ensures remaining { meter.new.steps + steps_of_stack (Y.unshared y.now) (Y.bytes_of y.now) stack.new.items ≡ meter.old.steps + steps_of_stack (Y.unshared y.now) (Y.bytes_of y.now) stack.old.items }
    ensures limit { meter.new.limit ≡ meter.old.limit }
    ensures noted { OnOk result (AreNoted (Y.unshared y.now) (Y.bytes_of y.now) notes.new stack.new.items _text.now.items meter.new.spent meter.new.steps) }
    ensures few { OnOk result (vec_len notes.new.begun ≤ vec_len notes.old.begun + 1) }
    ensures spends { OnOk result (meter.old.spent < meter.new.spent) }
    ensures entry_room { vec_capacity stack.old ≤ vec_capacity stack.new }
    ensures peak { peak_of_stack (Y.unshared y.now) stack.new.items ≤ peak_of_stack (Y.unshared y.now) stack.old.items }
    ensures bounded { vec_capacity stack.new ≤ max (vec_capacity stack.old) (most_for (peak_of_stack (Y.unshared y.now) stack.old.items + 8)) }
    ensures own { IfErr result (λ r. (r ≡ Refusal.TooLong) ⊎ (r ≡ Refusal.Memory)) }
    ensures too_long { result ≡ Err Refusal.TooLong → meter.old.limit < meter.old.spent + cost_of_stack (Y.unshared y.now) (Y.bytes_of y.now) stack.old.items }
    ensures memory { result ≡ Err Refusal.Memory → vec_capacity stack.old < 8 * (meter.old.limit + 1) }
{
    let below = stack.len() - 1;
    open_run(run, stack, meter)?;
    notes.look(&item, stack, below, is_dear);
    Ok(())
}

/// Takes the next entry: an item that is noted or begins a run, or, in a dear text, an item that wasn't looked at. If the item's text is
/// noted, that text is written again. A run of items that begins with the item is taken at once. Otherwise the item's parts take its place.
// out of line, since most items are none of these
#[inline(never)]
fn print_special_item<Y: Layout>(
    y: &Y,
    item: Item<Y::Ctx>,
    stack: &mut Vec<Part<Y::Ctx>>,
    text: &mut Vec<u8>,
    notes: &mut Notes<Y::Ctx>,
    meter: &mut Meter,
    is_dear: bool,
) -> Result<(), Refusal>
    requires next { IsNext stack.old.items (Part.Sub item) }
    requires may_come { All (Y.may_come y.now) stack.old.items }
    requires noted { AreNoted (Y.unshared y.now) (Y.bytes_of y.now) notes.old stack.old.items text.old.items meter.old.spent meter.old.steps }
    requires below { AreBelow (length stack.old.items) notes.old.begun.items }
    requires paid { vec_len text.old ≤ meter.old.spent }
    requires stack_paid { vec_len stack.old ≤ 7 * meter.old.spent + 1 }
    requires steps_paid { meter.old.steps ≤ meter.old.spent + spare_of_stack (Y.bytes_of y.now) stack.old.items }
    ensures paid { vec_len text.new ≤ meter.new.spent }
    ensures stack_paid { vec_len stack.new ≤ 7 * meter.new.spent + 1 }
    ensures steps_paid { meter.new.steps ≤ meter.new.spent + spare_of_stack (Y.bytes_of y.now) stack.new.items }
    ensures may_come { All (Y.may_come y.now) stack.new.items }
    ensures text { text.new.items ++ text_of_stack (Y.unshared y.now) (Y.bytes_of y.now) stack.new.items ≡ text.old.items ++ text_of_stack (Y.unshared y.now) (Y.bytes_of y.now) stack.old.items }
    ensures cost { meter.new.spent + cost_of_stack (Y.unshared y.now) (Y.bytes_of y.now) stack.new.items ≡ meter.old.spent + cost_of_stack (Y.unshared y.now) (Y.bytes_of y.now) stack.old.items }
    ensures remaining { meter.new.steps + steps_of_stack (Y.unshared y.now) (Y.bytes_of y.now) stack.new.items ≡ meter.old.steps + steps_of_stack (Y.unshared y.now) (Y.bytes_of y.now) stack.old.items }
    ensures limit { meter.new.limit ≡ meter.old.limit }
    ensures noted { OnOk result (AreNoted (Y.unshared y.now) (Y.bytes_of y.now) notes.new stack.new.items text.new.items meter.new.spent meter.new.steps) }
    ensures few { OnOk result (vec_len notes.new.begun ≤ vec_len notes.old.begun + 1) }
    ensures spends { OnOk result (meter.old.spent < meter.new.spent) }
    ensures entry_room { vec_capacity stack.old ≤ vec_capacity stack.new }
    ensures peak { peak_of_stack (Y.unshared y.now) stack.new.items ≤ peak_of_stack (Y.unshared y.now) stack.old.items }
    ensures bounded { vec_capacity stack.new ≤ max (vec_capacity stack.old) (most_for (peak_of_stack (Y.unshared y.now) stack.old.items + 8)) }
    ensures text_room { vec_capacity text.old ≤ vec_capacity text.new }
    ensures own { IfErr result (λ r. (r ≡ Refusal.TooLong) ⊎ (r ≡ Refusal.Memory)) }
    ensures too_long { result ≡ Err Refusal.TooLong → meter.old.limit < meter.old.spent + cost_of_stack (Y.unshared y.now) (Y.bytes_of y.now) stack.old.items }
    ensures memory { result ≡ Err Refusal.Memory → (vec_capacity stack.old < 8 * (meter.old.limit + 1)) ⊎ (vec_capacity text.old < meter.old.limit) }
{
    let is_noted = notes.are_for(y, item, is_dear);
    if is_noted {
        if let Some(note) = notes.get(y, item, is_dear) {
            write_again(y, note, stack, text, meter)?;
            return Ok(());
        }
    } else if y.begins_run(item) {
        if let Some(run) = y.run(item) {
            return print_run(y, item, run, stack, text, notes, meter, is_dear);
        }
    }
    begin_item(y, item, stack, text, notes, meter, is_noted);
    let below = stack.len() - 1;
    open_item(y, item, stack, meter)?;
    notes.look(&item, stack, below, is_dear);
    Ok(())
}

/// Takes the next entry, an item: its parts take its place, unless `print_special_item` takes it.
#[inline(always)]
fn print_item<Y: Layout>(
    y: &Y,
    item: Item<Y::Ctx>,
    stack: &mut Vec<Part<Y::Ctx>>,
    text: &mut Vec<u8>,
    notes: &mut Notes<Y::Ctx>,
    meter: &mut Meter,
    is_dear: bool,
) -> Result<(), Refusal>
    requires next { IsNext stack.old.items (Part.Sub item) }
    requires may_come { All (Y.may_come y.now) stack.old.items }
    requires noted { AreNoted (Y.unshared y.now) (Y.bytes_of y.now) notes.old stack.old.items text.old.items meter.old.spent meter.old.steps }
    requires below { AreBelow (length stack.old.items) notes.old.begun.items }
    requires paid { vec_len text.old ≤ meter.old.spent }
    requires stack_paid { vec_len stack.old ≤ 7 * meter.old.spent + 1 }
    requires steps_paid { meter.old.steps ≤ meter.old.spent + spare_of_stack (Y.bytes_of y.now) stack.old.items }
    ensures paid { vec_len text.new ≤ meter.new.spent }
    ensures stack_paid { vec_len stack.new ≤ 7 * meter.new.spent + 1 }
    ensures steps_paid { meter.new.steps ≤ meter.new.spent + spare_of_stack (Y.bytes_of y.now) stack.new.items }
    ensures may_come { All (Y.may_come y.now) stack.new.items }
    ensures text { text.new.items ++ text_of_stack (Y.unshared y.now) (Y.bytes_of y.now) stack.new.items ≡ text.old.items ++ text_of_stack (Y.unshared y.now) (Y.bytes_of y.now) stack.old.items }
    ensures cost { meter.new.spent + cost_of_stack (Y.unshared y.now) (Y.bytes_of y.now) stack.new.items ≡ meter.old.spent + cost_of_stack (Y.unshared y.now) (Y.bytes_of y.now) stack.old.items }
    ensures remaining { meter.new.steps + steps_of_stack (Y.unshared y.now) (Y.bytes_of y.now) stack.new.items ≡ meter.old.steps + steps_of_stack (Y.unshared y.now) (Y.bytes_of y.now) stack.old.items }
    ensures limit { meter.new.limit ≡ meter.old.limit }
    ensures noted { OnOk result (AreNoted (Y.unshared y.now) (Y.bytes_of y.now) notes.new stack.new.items text.new.items meter.new.spent meter.new.steps) }
    ensures few { OnOk result (vec_len notes.new.begun ≤ vec_len notes.old.begun + 1) }
    ensures spends { OnOk result (meter.old.spent < meter.new.spent) }
    ensures entry_room { vec_capacity stack.old ≤ vec_capacity stack.new }
    ensures peak { peak_of_stack (Y.unshared y.now) stack.new.items ≤ peak_of_stack (Y.unshared y.now) stack.old.items }
    ensures bounded { vec_capacity stack.new ≤ max (vec_capacity stack.old) (most_for (peak_of_stack (Y.unshared y.now) stack.old.items + 8)) }
    ensures text_room { vec_capacity text.old ≤ vec_capacity text.new }
    ensures own { IfErr result (λ r. (r ≡ Refusal.TooLong) ⊎ (r ≡ Refusal.Memory)) }
    ensures too_long { result ≡ Err Refusal.TooLong → meter.old.limit < meter.old.spent + cost_of_stack (Y.unshared y.now) (Y.bytes_of y.now) stack.old.items }
    ensures memory { result ≡ Err Refusal.Memory → (vec_capacity stack.old < 8 * (meter.old.limit + 1)) ⊎ (vec_capacity text.old < meter.old.limit) }
{
    if !notes.are_done_with(y, item, is_dear) || y.begins_run(item) {
        return print_special_item(y, item, stack, text, notes, meter, is_dear);
    }
    open_item(y, item, stack, meter)?;
    Ok(())
}

/// Takes entries until none is left. In a dear text each item that is printed more than once is noted.
// Dear texts and others share one loop: with two loops, `push_parts` was called for each item, which took 4 % more instructions in all
// where `demangle` reads instances of templates.
#[inline(never)]
pub(crate) fn print_entries<Y: Layout>(
    y: &Y,
    stack: &mut Vec<Part<Y::Ctx>>,
    text: &mut Vec<u8>,
    notes: &mut Notes<Y::Ctx>,
    meter: &mut Meter,
    is_dear: bool,
) -> Result<(), Refusal>
    requires may_come { All (Y.may_come y.now) stack.old.items }
    requires paid { vec_len text.old ≤ meter.old.spent }
    requires stack_paid { vec_len stack.old ≤ 7 * meter.old.spent + 1 }
    requires steps_paid { meter.old.steps ≤ meter.old.spent + spare_of_stack (Y.bytes_of y.now) stack.old.items }
    ensures paid { vec_len text.new ≤ meter.new.spent }
    ensures stack_paid { vec_len stack.new ≤ 7 * meter.new.spent + 1 }
    ensures steps_paid { meter.new.steps ≤ meter.new.spent + spare_of_stack (Y.bytes_of y.now) stack.new.items }
    ensures may_come { All (Y.may_come y.now) stack.new.items }
    ensures text { text.new.items ++ text_of_stack (Y.unshared y.now) (Y.bytes_of y.now) stack.new.items ≡ text.old.items ++ text_of_stack (Y.unshared y.now) (Y.bytes_of y.now) stack.old.items }
    ensures cost { meter.new.spent + cost_of_stack (Y.unshared y.now) (Y.bytes_of y.now) stack.new.items ≡ meter.old.spent + cost_of_stack (Y.unshared y.now) (Y.bytes_of y.now) stack.old.items }
    ensures steps { meter.new.steps + steps_of_stack (Y.unshared y.now) (Y.bytes_of y.now) stack.new.items ≡ meter.old.steps + steps_of_stack (Y.unshared y.now) (Y.bytes_of y.now) stack.old.items }
    ensures limit { meter.new.limit ≡ meter.old.limit }
    ensures entry_room { vec_capacity stack.old ≤ vec_capacity stack.new }
    ensures peak { peak_of_stack (Y.unshared y.now) stack.new.items ≤ peak_of_stack (Y.unshared y.now) stack.old.items }
    ensures bounded { vec_capacity stack.new ≤ max (vec_capacity stack.old) (most_for (peak_of_stack (Y.unshared y.now) stack.old.items + 8)) }
    ensures own { IfErr result (λ r. (r ≡ Refusal.TooLong) ⊎ (r ≡ Refusal.Memory)) }
    ensures text_room { vec_capacity text.old ≤ vec_capacity text.new }
    ensures done { OnOk result (stack.new.items ≡ []) }
    ensures too_long { result ≡ Err Refusal.TooLong → meter.old.limit < meter.old.spent + cost_of_stack (Y.unshared y.now) (Y.bytes_of y.now) stack.old.items }
    ensures memory { result ≡ Err Refusal.Memory → (vec_capacity stack.old < 8 * (meter.old.limit + 1)) ⊎ (vec_capacity text.old < meter.old.limit) }
{
    notes.clear();
    while let Some(next) = stack.last() {
        if notes.is_whole(stack.len()) {
            note_whole(y, stack, text, notes, meter, is_dear);
            continue;
        }
        match next {
            Part::Sub(item) => {
                let item = *item;
                print_item(y, item, stack, text, notes, meter, is_dear)?;
            }
            _ => {
                write_text(y, next, text, meter)?;
                stack.take_last();
            }
        }
    }
    Ok(())
}

/// Takes entries until none is left, as those of a dear text.
// out of line, so that all other texts pay nothing for it
#[inline(never)]
fn print_dear<Y: Layout>(
    y: &Y,
    stack: &mut Vec<Part<Y::Ctx>>,
    text: &mut Vec<u8>,
    notes: &mut Notes<Y::Ctx>,
    meter: &mut Meter,
) -> Result<(), Refusal>
    requires may_come { All (Y.may_come y.now) stack.old.items }
    requires paid { vec_len text.old ≤ meter.old.spent }
    requires stack_paid { vec_len stack.old ≤ 7 * meter.old.spent + 1 }
    requires steps_paid { meter.old.steps ≤ meter.old.spent + spare_of_stack (Y.bytes_of y.now) stack.old.items }
    ensures paid { vec_len text.new ≤ meter.new.spent }
    ensures stack_paid { vec_len stack.new ≤ 7 * meter.new.spent + 1 }
    ensures steps_paid { meter.new.steps ≤ meter.new.spent + spare_of_stack (Y.bytes_of y.now) stack.new.items }
    ensures may_come { All (Y.may_come y.now) stack.new.items }
    ensures text { text.new.items ++ text_of_stack (Y.unshared y.now) (Y.bytes_of y.now) stack.new.items ≡ text.old.items ++ text_of_stack (Y.unshared y.now) (Y.bytes_of y.now) stack.old.items }
    ensures cost { meter.new.spent + cost_of_stack (Y.unshared y.now) (Y.bytes_of y.now) stack.new.items ≡ meter.old.spent + cost_of_stack (Y.unshared y.now) (Y.bytes_of y.now) stack.old.items }
    ensures steps { meter.new.steps + steps_of_stack (Y.unshared y.now) (Y.bytes_of y.now) stack.new.items ≡ meter.old.steps + steps_of_stack (Y.unshared y.now) (Y.bytes_of y.now) stack.old.items }
    ensures limit { meter.new.limit ≡ meter.old.limit }
    ensures entry_room { vec_capacity stack.old ≤ vec_capacity stack.new }
    ensures peak { peak_of_stack (Y.unshared y.now) stack.new.items ≤ peak_of_stack (Y.unshared y.now) stack.old.items }
    ensures bounded { vec_capacity stack.new ≤ max (vec_capacity stack.old) (most_for (peak_of_stack (Y.unshared y.now) stack.old.items + 8)) }
    ensures own { IfErr result (λ r. (r ≡ Refusal.TooLong) ⊎ (r ≡ Refusal.Memory)) }
    ensures text_room { vec_capacity text.old ≤ vec_capacity text.new }
    ensures done { OnOk result (stack.new.items ≡ []) }
    ensures too_long { result ≡ Err Refusal.TooLong → meter.old.limit < meter.old.spent + cost_of_stack (Y.unshared y.now) (Y.bytes_of y.now) stack.old.items }
    ensures memory { result ≡ Err Refusal.Memory → (vec_capacity stack.old < 8 * (meter.old.limit + 1)) ⊎ (vec_capacity text.old < meter.old.limit) }
{
    print_entries(y, stack, text, notes, meter, true)
}

/// The most that the text of a stack may cost without being dear. The bound grows with the node number of the stack's last entry, which is
/// the whole symbol where nothing was taken yet.
fn cheap_cost<C: Copy>(stack: &[Part<C>]) -> u32 {
    match stack {
        [.., Part::Sub(item)] => item
            .node
            .saturating_mul(CHEAP_NODE)
            .saturating_add(CHEAP_TEXT),
        _ => CHEAP_TEXT,
    }
}

/// Takes entries until none is left. A text is printed as a cheap one first. If it costs more than a cheap text may, and more may be spent,
/// it is printed as a dear one from there.
#[inline(always)]
fn print_all<Y: Layout>(
    y: &Y,
    stack: &mut Vec<Part<Y::Ctx>>,
    text: &mut Vec<u8>,
    notes: &mut Notes<Y::Ctx>,
    meter: &mut Meter,
) -> Result<(), Refusal>
    requires may_come { All (Y.may_come y.now) stack.old.items }
    requires paid { vec_len text.old ≤ meter.old.spent }
    requires stack_paid { vec_len stack.old ≤ 7 * meter.old.spent + 1 }
    requires steps_paid { meter.old.steps ≤ meter.old.spent + spare_of_stack (Y.bytes_of y.now) stack.old.items }
    ensures paid { vec_len text.new ≤ meter.new.spent }
    ensures stack_paid { vec_len stack.new ≤ 7 * meter.new.spent + 1 }
    ensures steps_paid { meter.new.steps ≤ meter.new.spent + spare_of_stack (Y.bytes_of y.now) stack.new.items }
    ensures may_come { All (Y.may_come y.now) stack.new.items }
    ensures text { text.new.items ++ text_of_stack (Y.unshared y.now) (Y.bytes_of y.now) stack.new.items ≡ text.old.items ++ text_of_stack (Y.unshared y.now) (Y.bytes_of y.now) stack.old.items }
    ensures cost { meter.new.spent + cost_of_stack (Y.unshared y.now) (Y.bytes_of y.now) stack.new.items ≡ meter.old.spent + cost_of_stack (Y.unshared y.now) (Y.bytes_of y.now) stack.old.items }
    ensures steps { meter.new.steps + steps_of_stack (Y.unshared y.now) (Y.bytes_of y.now) stack.new.items ≡ meter.old.steps + steps_of_stack (Y.unshared y.now) (Y.bytes_of y.now) stack.old.items }
    ensures limit { meter.new.limit ≡ meter.old.limit }
    ensures entry_room { vec_capacity stack.old ≤ vec_capacity stack.new }
    ensures peak { peak_of_stack (Y.unshared y.now) stack.new.items ≤ peak_of_stack (Y.unshared y.now) stack.old.items }
    ensures bounded { vec_capacity stack.new ≤ max (vec_capacity stack.old) (most_for (peak_of_stack (Y.unshared y.now) stack.old.items + 8)) }
    ensures own { IfErr result (λ r. (r ≡ Refusal.TooLong) ⊎ (r ≡ Refusal.Memory)) }
    ensures text_room { vec_capacity text.old ≤ vec_capacity text.new }
    ensures done { OnOk result (stack.new.items ≡ []) }
    ensures too_long { result ≡ Err Refusal.TooLong → meter.old.limit < meter.old.spent + cost_of_stack (Y.unshared y.now) (Y.bytes_of y.now) stack.old.items }
    ensures memory { result ≡ Err Refusal.Memory → (vec_capacity stack.old < 8 * (meter.old.limit + 1)) ⊎ (vec_capacity text.old < meter.old.limit) }
{
    let mut cheap = meter.for_at_most(cheap_cost(stack));
    let outcome = print_entries(y, stack, text, notes, &mut cheap, false);
    meter.follow(&cheap);
    if cheap.limit == meter.limit {
        return outcome;
    }
    match outcome {
        Err(Refusal::TooLong) => print_dear(y, stack, text, notes, meter),
        _ => outcome,
    }
}

/// Takes entries until none is left. Where one is refused, the steps that aren't paid for yet don't count.
#[inline(always)]
pub(crate) fn print_stack<Y: Layout>(
    y: &Y,
    stack: &mut Vec<Part<Y::Ctx>>,
    text: &mut Vec<u8>,
    notes: &mut Notes<Y::Ctx>,
    meter: &mut Meter,
) -> Result<(), Refusal>
    requires may_come { All (Y.may_come y.now) stack.old.items }
    requires paid { vec_len text.old ≤ meter.old.spent }
    requires stack_paid { vec_len stack.old ≤ 7 * meter.old.spent + 1 }
    requires steps_paid { meter.old.steps ≤ meter.old.spent }
    ensures paid { vec_len text.new ≤ meter.new.spent }
    ensures stack_paid { vec_len stack.new ≤ 7 * meter.new.spent + 1 }
    ensures steps_paid { meter.new.steps ≤ meter.new.spent }
    ensures may_come { All (Y.may_come y.now) stack.new.items }
    ensures text { text.new.items ++ text_of_stack (Y.unshared y.now) (Y.bytes_of y.now) stack.new.items ≡ text.old.items ++ text_of_stack (Y.unshared y.now) (Y.bytes_of y.now) stack.old.items }
    ensures cost { meter.new.spent + cost_of_stack (Y.unshared y.now) (Y.bytes_of y.now) stack.new.items ≡ meter.old.spent + cost_of_stack (Y.unshared y.now) (Y.bytes_of y.now) stack.old.items }
    ensures steps { OnOk result (meter.new.steps ≡ meter.old.steps + steps_of_stack (Y.unshared y.now) (Y.bytes_of y.now) stack.old.items) }
    ensures limit { meter.new.limit ≡ meter.old.limit }
    ensures entry_room { vec_capacity stack.old ≤ vec_capacity stack.new }
    ensures peak { peak_of_stack (Y.unshared y.now) stack.new.items ≤ peak_of_stack (Y.unshared y.now) stack.old.items }
    ensures bounded { vec_capacity stack.new ≤ max (vec_capacity stack.old) (most_for (peak_of_stack (Y.unshared y.now) stack.old.items + 8)) }
    ensures own { IfErr result (λ r. (r ≡ Refusal.TooLong) ⊎ (r ≡ Refusal.Memory)) }
    ensures text_room { vec_capacity text.old ≤ vec_capacity text.new }
    ensures done { OnOk result (stack.new.items ≡ []) }
    ensures too_long { result ≡ Err Refusal.TooLong → meter.old.limit < meter.old.spent + cost_of_stack (Y.unshared y.now) (Y.bytes_of y.now) stack.old.items }
    ensures memory { result ≡ Err Refusal.Memory → (vec_capacity stack.old < 8 * (meter.old.limit + 1)) ⊎ (vec_capacity text.old < meter.old.limit) }
{
    let outcome = print_all(y, stack, text, notes, meter);
    meter.settle();
    outcome
}
