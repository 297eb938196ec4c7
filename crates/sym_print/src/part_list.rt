// Lists that parts are pushed onto.
#![tactic(auto)]

ghost use Rattle.std.specs.Prelude.{◌≡◌, ℕ, ◌+◌, ◌-◌, ◌<◌, ◌≤◌, ◌++◌, length, reverse, vec_len, vec_capacity};
ghost use Rattle.arrayvec.specs.ArrayVec.{array_vec_len};
ghost use Rattle.sym_print.specs.Held.{Held, with_part};

use crate::layout::Part;
use arrayvec::ArrayVec;

/// A list of parts that has room for some more: a printer's stack, or an item's list of eight.
pub trait PartList<C: Copy> {
    ghost use Rattle.sym_print.specs.Held.{Held, with_part};

    // the parts, and how many there can be
    ghost held: { Self → Held C };

    // how many more there can be
    ghost room: { Self → ℕ };

    /// Adds a part after the others.
    fn push_part(&mut self, part: Part<C>)
        requires { 0 < room self.old }
        ensures held { held self.new ≡ with_part (held self.old) part }
        ensures room { room self.new + 1 ≡ room self.old };
}

impl<C: Copy> PartList<C> for Vec<Part<C>> {
    ghost use Rattle.sym_print.specs.Held.{with_part};

    ghost held = { λ list. record { items = list.items; capacity = vec_capacity list } };

    ghost room = { λ list. vec_capacity list - vec_len list };

    #[inline(always)]
    fn push_part(&mut self, part: Part<C>)
        requires { 0 < vec_capacity self.old - vec_len self.old }
        ensures held { record { items = self.new.items; capacity = vec_capacity self.new } ≡ with_part (record { items = self.old.items; capacity = vec_capacity self.old }) part }
        ensures room { vec_capacity self.new - vec_len self.new + 1 ≡ vec_capacity self.old - vec_len self.old }
    {
        self.push_reserved(part);
    }
}

impl<C: Copy> PartList<C> for ArrayVec<Part<C>, 8> {
    ghost use Rattle.sym_print.specs.Held.{with_part};

    ghost held = { λ list. record { items = list.items; capacity = 8 } };

    ghost room = { λ list. 8 - array_vec_len list };

    #[inline(always)]
    fn push_part(&mut self, part: Part<C>)
        requires { 0 < 8 - array_vec_len self.old }
        ensures held { record { items = self.new.items; capacity = 8 } ≡ with_part (record { items = self.old.items; capacity = 8 }) part }
        ensures room { 8 - array_vec_len self.new + 1 ≡ 8 - array_vec_len self.old }
    {
        self.push(part);
    }
}

/// Puts parts on a stack that has room for them, the first on top.
pub fn push_reversed<C: Copy>(stack: &mut Vec<Part<C>>, parts: &[Part<C>])
    requires { vec_len stack.old + length parts.now ≤ vec_capacity stack.old }
    ensures items { stack.new.items ≡ stack.old.items ++ reverse parts.now }
    ensures len { vec_len stack.new ≡ vec_len stack.old + length parts.now }
    ensures capacity { vec_capacity stack.new ≡ vec_capacity stack.old }
{
    let mut left = parts.len();
    while left > 0 {
        left -= 1;
        stack.push_reserved(parts[left]);
    }
}
