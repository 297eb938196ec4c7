// The printer: a work stack, the text so far, and what was spent.
#![tactic(auto)]

ghost use Rattle.std.specs.Prelude.{◌≡◌, ◌+◌, ◌*◌, ◌<◌, ◌≤◌, ◌++◌, max, length, vec_len, Some, None, [], IfOk, IfErr, OnOk, OnErr, ◌==◌, ◌⊎◌, true, false};
ghost use Rattle.std.specs.List.{All};
ghost use Rattle.sym_print.specs.Joined.{text_of_stack, cost_of_stack, steps_of_stack, spends, IsNext};
ghost use Rattle.sym_print.specs.Peak.{peak_of_stack};
ghost use Rattle.sym_print.specs.Unshared.{text_of, cost_of};
ghost use Rattle.sym_print.specs.Progress.{counted};
ghost use Rattle.sym_print.specs.declared.layout.Part.{Part};
ghost use Rattle.sym_core.specs.declared.Refusal.{Refusal};
ghost use Rattle.sym_room.specs.Room.{most_for};

use crate::entries::{open_item, print_stack, print_text};
use crate::layout::{Item, Layout, Part};
use crate::meter::Meter;
use crate::notes::Notes;
use std::alloc::Global;
use sym_core::Refusal;
use sym_room::make_room;

/// A text that is being printed, counted as it grows.
///
/// The text so far and what the stack still prints are together the root's text. What was spent and what the stack still costs are together
/// the root's cost. Both hold in every context of every shared node, if the items are those of a layout. So a printer never spends more
/// than its limit: its text has at most `limit` bytes, its stack at most `8 * (limit + 1)` entries, and it takes at most `limit + 1` steps.
/// None of these bounds depends on how large the whole text is.
#[derive(Drop)]
pub struct Printer<C: Copy> {
    stack: Vec<Part<C>>,
    text: Vec<u8>,
    notes: Notes<C>,
    meter: Meter,
    refusal: Option<Refusal>,
    ghost text_is_paid: { vec_len text ≤ meter.spent },
    ghost stack_is_paid: { vec_len stack ≤ 7 * meter.spent + 1 },
    ghost steps_are_paid: { meter.steps ≤ meter.spent },
}

impl<C: Copy> Printer<C> {
    ghost use Rattle.sym_print.specs.Printing.{entries, written, spent, may_spend, taken, refused, entry_room, text_room, Begins, LacksRoom};

    /// A printer with nothing to print. It takes no memory.
    pub fn idle(alloc: Global) -> Printer<C>
        ensures entries { entries result ≡ [] }
        ensures text { written result ≡ [] }
        ensures spent { spent result ≡ 0 }
        ensures steps { taken result ≡ 0 }
        ensures limit { may_spend result ≡ 0 }
        ensures refusal { refused result ≡ None }
    {
        Printer {
            stack: Vec::new(alloc),
            text: Vec::new(alloc),
            notes: Notes::idle(alloc),
            meter: Meter::new(0),
            refusal: None,
        }
    }

    /// A printer that has all of `root` still to print, at a cost of at most `limit`.
    ///
    /// Errors: `Memory`.
    pub fn new(alloc: Global, root: Item<C>, limit: u32) -> Result<Printer<C>, Refusal>
        ensures ok { IfOk result (λ p. Begins p root limit) }
        ensures err { IfErr result (λ r. r ≡ Refusal.Memory) }
    {
        let mut printer = Printer::idle(alloc);
        printer.reset(root, limit)?;
        Ok(printer)
    }

    /// Begins again, with all of `root` still to print at a cost of at most `limit`. The memory of the lists is kept.
    ///
    /// Errors: `Memory`, where the printer had no memory yet. Then nothing changes.
    pub fn reset(&mut self, root: Item<C>, limit: u32) -> Result<(), Refusal>
        ensures ok { OnOk result (Begins self.new root limit) }
        ensures err { IfErr result (λ r. r ≡ Refusal.Memory) }
        ensures memory { OnErr result (entry_room self.old ≡ 0) }
        ensures same_entries { OnErr result (entries self.new ≡ entries self.old) }
        ensures same_text { OnErr result (written self.new ≡ written self.old) }
        ensures same_spent { OnErr result (spent self.new ≡ spent self.old) }
        ensures same_limit { OnErr result (may_spend self.new ≡ may_spend self.old) }
        ensures same_steps { OnErr result (taken self.new ≡ taken self.old) }
        ensures same_refusal { OnErr result (refused self.new ≡ refused self.old) }
        ensures entry_room { entry_room self.old ≤ entry_room self.new }
        ensures bounded { entry_room self.new ≤ max (entry_room self.old) (most_for 1) }
        ensures text_room { text_room self.new ≡ text_room self.old }
    {
        if self.stack.capacity() == 0 {
            make_room(&mut self.stack, 1)?;
        }
        self.stack.clear();
        self.stack.push_reserved(Part::Sub(root));
        self.text.clear();
        self.meter = Meter::new(limit);
        self.refusal = None;
        Ok(())
    }

    /// Takes the next entry: an item is replaced by its parts, and a byte text is written. It answers whether nothing is left.
    ///
    /// Errors: `TooLong` where the entry can't be paid for, or `Memory`. From then on the same refusal is answered again.
    pub fn step<Y: Layout<Ctx = C>>(&mut self, y: &Y) -> Result<bool, Refusal>
        requires { All (Y.may_come y.now) (entries self.old) }
        ensures may_come { All (Y.may_come y.now) (entries self.new) }
        ensures text { written self.new ++ text_of_stack (Y.unshared y.now) (Y.bytes_of y.now) (entries self.new) ≡ written self.old ++ text_of_stack (Y.unshared y.now) (Y.bytes_of y.now) (entries self.old) }
        ensures cost { spent self.new + cost_of_stack (Y.unshared y.now) (Y.bytes_of y.now) (entries self.new) ≡ spent self.old + cost_of_stack (Y.unshared y.now) (Y.bytes_of y.now) (entries self.old) }
        ensures limit { may_spend self.new ≡ may_spend self.old }
        ensures done { IfOk result (λ done. done ≡ (length (entries self.new) == 0)) }
        ensures goes_on { OnOk result (refused self.new ≡ None) }
        ensures spends { result ≡ Ok false → spent self.old < spent self.new }
        ensures refuses { IfErr result (λ r. refused self.new ≡ Some r) }
        ensures refused { (r : Refusal) → refused self.old ≡ Some r → (result ≡ Err r) × (self.new ≡ self.old) }
        ensures own { IfErr result (λ r. (refused self.old ≡ Some r) ⊎ (r ≡ Refusal.TooLong) ⊎ (r ≡ Refusal.Memory)) }
        ensures too_long { result ≡ Err Refusal.TooLong → (refused self.old ≡ Some Refusal.TooLong) ⊎ ((next : Part C) × IsNext (entries self.old) next × (may_spend self.old < spent self.old + spends (Y.unshared y.now) (Y.bytes_of y.now) next)) }
        ensures memory { result ≡ Err Refusal.Memory → (refused self.old ≡ Some Refusal.Memory) ⊎ ((next : Part C) × IsNext (entries self.old) next × LacksRoom self.old (Y.bytes_of y.now) next) }
        ensures entry_room { entry_room self.old ≤ entry_room self.new }
        ensures peak { peak_of_stack (Y.unshared y.now) (entries self.new) ≤ peak_of_stack (Y.unshared y.now) (entries self.old) }
        ensures bounded { entry_room self.new ≤ max (entry_room self.old) (most_for (peak_of_stack (Y.unshared y.now) (entries self.old) + 8)) }
        ensures text_room { text_room self.old ≤ text_room self.new }
        ensures finished { refused self.old ≡ None → entries self.old ≡ [] → (result ≡ Ok true) × (self.new ≡ self.old) }
        ensures counted { taken self.new ≡ taken self.old + counted (refused self.old) (entries self.old) }
        ensures remaining { OnOk result (taken self.new + steps_of_stack (Y.unshared y.now) (Y.bytes_of y.now) (entries self.new) ≡ taken self.old + steps_of_stack (Y.unshared y.now) (Y.bytes_of y.now) (entries self.old)) }
        ensures steps_bound { taken self.new ≤ may_spend self.new + 1 }
        ensures stack_bound { length (entries self.new) ≤ 8 * (may_spend self.new + 1) }
        ensures text_bound { length (written self.new) ≤ may_spend self.new }
    {
        if let Some(refusal) = self.refusal {
            return Err(refusal);
        }
        let Some(next) = self.stack.last() else {
            return Ok(true);
        };
        let next = *next;
        match self.take(y, next) {
            Ok(()) => Ok(self.stack.is_empty()),
            Err(refusal) => {
                self.refusal = Some(refusal);
                Err(refusal)
            }
        }
    }

    /// Takes the next entry, which is `next`.
    fn take<Y: Layout<Ctx = C>>(&mut self, y: &Y, next: Part<C>) -> Result<(), Refusal>
        requires next { IsNext (entries self.old) next }
        requires may_come { All (Y.may_come y.now) (entries self.old) }
        requires goes_on { refused self.old ≡ None }
        ensures may_come { All (Y.may_come y.now) (entries self.new) }
        ensures text { written self.new ++ text_of_stack (Y.unshared y.now) (Y.bytes_of y.now) (entries self.new) ≡ written self.old ++ text_of_stack (Y.unshared y.now) (Y.bytes_of y.now) (entries self.old) }
        ensures cost { spent self.new + cost_of_stack (Y.unshared y.now) (Y.bytes_of y.now) (entries self.new) ≡ spent self.old + cost_of_stack (Y.unshared y.now) (Y.bytes_of y.now) (entries self.old) }
        ensures remaining { taken self.new + steps_of_stack (Y.unshared y.now) (Y.bytes_of y.now) (entries self.new) ≡ taken self.old + steps_of_stack (Y.unshared y.now) (Y.bytes_of y.now) (entries self.old) }
        ensures limit { may_spend self.new ≡ may_spend self.old }
        ensures goes_on { refused self.new ≡ None }
        ensures spends { OnOk result (spent self.old < spent self.new) }
        ensures counted_ok { OnOk result (taken self.new ≡ taken self.old + 1) }
        ensures counted_err { OnErr result (taken self.new ≡ taken self.old) }
        ensures own { IfErr result (λ r. (r ≡ Refusal.TooLong) ⊎ (r ≡ Refusal.Memory)) }
        ensures too_long { result ≡ Err Refusal.TooLong → may_spend self.old < spent self.old + spends (Y.unshared y.now) (Y.bytes_of y.now) next }
        ensures memory { result ≡ Err Refusal.Memory → LacksRoom self.old (Y.bytes_of y.now) next }
        ensures entry_room { entry_room self.old ≤ entry_room self.new }
        ensures peak { peak_of_stack (Y.unshared y.now) (entries self.new) ≤ peak_of_stack (Y.unshared y.now) (entries self.old) }
        ensures bounded { entry_room self.new ≤ max (entry_room self.old) (most_for (peak_of_stack (Y.unshared y.now) (entries self.old) + 8)) }
        ensures text_room { text_room self.old ≤ text_room self.new }
    {
        match next {
            Part::Sub(item) => open_item(y, item, &mut self.stack, &mut self.meter),
            _ => print_text(y, &next, &mut self.stack, &mut self.text, &mut self.meter),
        }
    }

    /// Takes entries until nothing is left: the same as `step` until it answers true, but faster.
    ///
    /// Errors: `TooLong` where an entry can't be paid for, or `Memory`. From then on the same refusal is answered again.
    pub fn run<Y: Layout<Ctx = C>>(&mut self, y: &Y) -> Result<(), Refusal>
        requires { All (Y.may_come y.now) (entries self.old) }
        ensures may_come { All (Y.may_come y.now) (entries self.new) }
        ensures text { written self.new ++ text_of_stack (Y.unshared y.now) (Y.bytes_of y.now) (entries self.new) ≡ written self.old ++ text_of_stack (Y.unshared y.now) (Y.bytes_of y.now) (entries self.old) }
        ensures cost { spent self.new + cost_of_stack (Y.unshared y.now) (Y.bytes_of y.now) (entries self.new) ≡ spent self.old + cost_of_stack (Y.unshared y.now) (Y.bytes_of y.now) (entries self.old) }
        ensures limit { may_spend self.new ≡ may_spend self.old }
        ensures done { OnOk result ((entries self.new ≡ []) × (refused self.new ≡ None)) }
        ensures refuses { IfErr result (λ r. refused self.new ≡ Some r) }
        ensures refused { (r : Refusal) → refused self.old ≡ Some r → (result ≡ Err r) × (self.new ≡ self.old) }
        ensures own { IfErr result (λ r. (refused self.old ≡ Some r) ⊎ (r ≡ Refusal.TooLong) ⊎ (r ≡ Refusal.Memory)) }
        ensures too_long { result ≡ Err Refusal.TooLong → (refused self.old ≡ Some Refusal.TooLong) ⊎ (may_spend self.old < spent self.old + cost_of_stack (Y.unshared y.now) (Y.bytes_of y.now) (entries self.old)) }
        ensures memory { result ≡ Err Refusal.Memory → (refused self.old ≡ Some Refusal.Memory) ⊎ (entry_room self.old < 8 * (may_spend self.old + 1)) ⊎ (text_room self.old < may_spend self.old) }
        ensures entry_room { entry_room self.old ≤ entry_room self.new }
        ensures peak { peak_of_stack (Y.unshared y.now) (entries self.new) ≤ peak_of_stack (Y.unshared y.now) (entries self.old) }
        ensures bounded { entry_room self.new ≤ max (entry_room self.old) (most_for (peak_of_stack (Y.unshared y.now) (entries self.old) + 8)) }
        ensures text_room { text_room self.old ≤ text_room self.new }
        ensures counted { OnOk result (taken self.new ≡ taken self.old + steps_of_stack (Y.unshared y.now) (Y.bytes_of y.now) (entries self.old)) }
        ensures steps_bound { taken self.new ≤ may_spend self.new + 1 }
        ensures stack_bound { length (entries self.new) ≤ 8 * (may_spend self.new + 1) }
        ensures text_bound { length (written self.new) ≤ may_spend self.new }
    {
        if let Some(refusal) = self.refusal {
            return Err(refusal);
        }
        let outcome = print_stack(
            y,
            &mut self.stack,
            &mut self.text,
            &mut self.notes,
            &mut self.meter,
        );
        self.refusal = outcome.err();
        outcome
    }

    /// The text so far: all of it once nothing is left.
    pub fn text(&self) -> &[u8]
        ensures text { result.now ≡ written self.now }
        ensures bound { length result.now ≤ may_spend self.now }
    {
        &self.text
    }

    /// The text, once nothing is left.
    pub fn into_text(self) -> Vec<u8>
        ensures text { result.items ≡ written self }
    {
        let Printer {
            stack: _,
            text,
            notes: _,
            meter: _,
            refusal: _,
        } = self;
        text
    }

    /// How many steps were taken.
    pub fn steps(&self) -> u64
        ensures steps { result ≡ taken self.now }
        ensures bound { result ≤ may_spend self.now + 1 }
    {
        match self.refusal {
            None => self.meter.steps,
            Some(_) => self.meter.steps + 1,
        }
    }
}

/// The text of `root`, where it costs at most `limit`.
///
/// Errors: `TooLong` where it costs more, and `Memory`.
pub fn print<Y: Layout>(
    alloc: Global,
    y: &Y,
    root: Item<Y::Ctx>,
    limit: u32,
) -> Result<Vec<u8>, Refusal>
    requires { Y.may_come y.now (Part.Sub root) }
    ensures text { IfOk result (λ text. text.items ≡ text_of (Y.unshared y.now root)) }
    ensures within { OnOk result (cost_of (Y.unshared y.now root) ≤ limit) }
    ensures refusals { IfErr result (λ r. (r ≡ Refusal.TooLong) ⊎ (r ≡ Refusal.Memory)) }
    ensures too_long { result ≡ Err Refusal.TooLong → limit < cost_of (Y.unshared y.now root) }
{
    let mut printer = Printer::new(alloc, root, limit)?;
    printer.run(y)?;
    Ok(printer.into_text())
}
