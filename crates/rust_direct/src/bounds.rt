// `dyn` types.

ghost use Rattle.std.specs.Prelude.{◌≡◌, ◌∷◌, [], false, true};
ghost use Rattle.std.specs.Option.{IfSome};
ghost use Rattle.sym_direct.specs.Holes.{StandsAt};
ghost use Rattle.rust_direct.specs.declared.open.Open.TheVariants as opens;
ghost use Rattle.rust_direct.specs.PrintsInForm.{has_form};
ghost use Rattle.rust_direct.specs.WriterInvariant.{IsWriting};
ghost use Rattle.rust_direct.specs.Awaits.{Awaits, Receives};

use crate::direct::Direct;
use crate::open::{Forms, Open, Step, has_form};
use crate::showing::Showing;
use sym_direct::byte_at;

impl Direct {
    /// The path of the first bound follows.
    // <type> = "D" <dyn-bounds> <lifetime>
    pub(crate) fn begin_dyn<S: Showing>(&mut self, s: &[u8]) -> Option<Step>
        requires letter { StandsAt s.now self.old.at (68 ∷ []) }
        requires awaits { Awaits S.IS_BRIEF s.now self.old true }
        ensures { IfSome result (IsWriting S.IS_BRIEF s.now self.new) }
    {
        let place = self.at;
        let from = self.text.len();
        let behind = place.checked_add(1)?;
        self.push_open(b"dyn ", Open::Dyn { place, from }, behind)?;
        Some(Step::Path { is_value: false })
    }

    /// The path of a bound is read: another bound follows, or the E. A symbol with bindings is
    /// given up.
    // <dyn-bounds> = [<binder>] {<dyn-trait>} "E"
    pub(crate) fn bound_ended<S: Showing>(
        &mut self,
        s: &[u8],
        here: usize,
        forms: Forms,
        place: usize,
        from: usize,
    ) -> Option<Step>
        requires { Receives S.IS_BRIEF s.now self.old (opens.Dyn place from) here forms }
        ensures { IfSome result (IsWriting S.IS_BRIEF s.now self.new) }
    {
        if !has_form(false, forms) {
            return None;
        }
        if byte_at(s, self.at) == b'E' {
            return self.bounds_ended::<S>(s, here, forms, place, from);
        }
        self.push(b" + ")?;
        self.waiting.push(Open::Dyn { place, from })?;
        Some(Step::Path { is_value: false })
    }

    /// The E of bounds is read, and an erased lifetime after it. A symbol with any other lifetime
    /// is given up.
    // <type> = "D" <dyn-bounds> <lifetime>
    fn bounds_ended<S: Showing>(
        &mut self,
        s: &[u8],
        _here: usize,
        _forms: Forms,
        place: usize,
        from: usize,
    ) -> Option<Step>
        requires letter { StandsAt s.now self.old.at (69 ∷ []) }
        requires form { has_form false _forms ≡ true }
        requires arrives { Receives S.IS_BRIEF s.now self.old (opens.Dyn place from) _here _forms }
        ensures { IfSome result (IsWriting S.IS_BRIEF s.now self.new) }
    {
        let lifetime = self.at.checked_add(1)?;
        if byte_at(s, lifetime) != b'L' {
            return None;
        }
        let digits = lifetime.checked_add(1)?;
        if byte_at(s, digits) != b'_' {
            return None;
        }
        self.at = digits.checked_add(1)?;
        self.ended::<S>(s, place, from, Forms::Typed, Forms::Typed)
    }
}
