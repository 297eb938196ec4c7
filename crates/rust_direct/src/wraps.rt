// Types that are made of one other type: references, raw pointers and slices.

ghost use Rattle.std.specs.Prelude.{◌≡◌, ◌∷◌, [], length, true};
ghost use Rattle.std.specs.Option.{IfSome};
ghost use Rattle.sym_direct.specs.Holes.{StandsAt};
ghost use Rattle.rust_direct.specs.declared.open.Closing.TheVariants as closings;
ghost use Rattle.rust_direct.specs.declared.open.Open.TheVariants as opens;
ghost use Rattle.rust_direct.specs.Holes.{IsErasedAt};
ghost use Rattle.rust_direct.specs.WriterInvariant.{IsWriting};
ghost use Rattle.rust_direct.specs.Awaits.{Awaits, Receives};

use crate::direct::Direct;
use crate::open::{Closing, Forms, Open, Step, is_type};
use crate::showing::Showing;
use sym_direct::byte_at;

/// The place after an erased lifetime, or the same place if no erased lifetime is there.
// <lifetime> = "L" <base-62-number>
#[inline(always)]
fn behind_erased(s: &[u8], at: usize) -> Option<usize>
    ensures { IfSome result (IsErasedAt s.now at) }
{
    if byte_at(s, at) != b'L' {
        return Some(at);
    }
    let digits = at.checked_add(1)?;
    if byte_at(s, digits) != b'_' {
        return None;
    }
    let end = digits.checked_add(1)?;
    Some(end)
}

impl Direct {
    // <type> = "R" [<lifetime>] <type>
    pub(crate) fn begin_shared<S: Showing>(&mut self, s: &[u8]) -> Option<Step>
        requires letter { StandsAt s.now self.old.at (82 ∷ []) }
        requires awaits { Awaits S.IS_BRIEF s.now self.old true }
        ensures { IfSome result (IsWriting S.IS_BRIEF s.now self.new) }
    {
        let behind = behind_erased(s, self.at.checked_add(1)?)?;
        let entry = self.wrap(Closing::Nothing);
        self.push_open(b"&", entry, behind)?;
        Some(Step::Type)
    }

    // <type> = "Q" [<lifetime>] <type>
    pub(crate) fn begin_mutable<S: Showing>(&mut self, s: &[u8]) -> Option<Step>
        requires letter { StandsAt s.now self.old.at (81 ∷ []) }
        requires awaits { Awaits S.IS_BRIEF s.now self.old true }
        ensures { IfSome result (IsWriting S.IS_BRIEF s.now self.new) }
    {
        let behind = behind_erased(s, self.at.checked_add(1)?)?;
        let entry = self.wrap(Closing::Nothing);
        self.push_open(b"&mut ", entry, behind)?;
        Some(Step::Type)
    }

    // <type> = "P" <type>
    pub(crate) fn begin_const<S: Showing>(&mut self, s: &[u8]) -> Option<Step>
        requires letter { StandsAt s.now self.old.at (80 ∷ []) }
        requires awaits { Awaits S.IS_BRIEF s.now self.old true }
        ensures { IfSome result (IsWriting S.IS_BRIEF s.now self.new) }
    {
        let behind = self.at.checked_add(1)?;
        let entry = self.wrap(Closing::Nothing);
        self.push_open(b"*const ", entry, behind)?;
        Some(Step::Type)
    }

    // <type> = "O" <type>
    pub(crate) fn begin_mut<S: Showing>(&mut self, s: &[u8]) -> Option<Step>
        requires letter { StandsAt s.now self.old.at (79 ∷ []) }
        requires awaits { Awaits S.IS_BRIEF s.now self.old true }
        ensures { IfSome result (IsWriting S.IS_BRIEF s.now self.new) }
    {
        let behind = self.at.checked_add(1)?;
        let entry = self.wrap(Closing::Nothing);
        self.push_open(b"*mut ", entry, behind)?;
        Some(Step::Type)
    }

    // <type> = "S" <type>
    pub(crate) fn begin_slice<S: Showing>(&mut self, s: &[u8]) -> Option<Step>
        requires letter { StandsAt s.now self.old.at (83 ∷ []) }
        requires awaits { Awaits S.IS_BRIEF s.now self.old true }
        ensures { IfSome result (IsWriting S.IS_BRIEF s.now self.new) }
    {
        let behind = self.at.checked_add(1)?;
        let entry = self.wrap(Closing::Bracket);
        self.push_open(b"[", entry, behind)?;
        Some(Step::Type)
    }

    /// The entry that waits for the type that another type is made of.
    #[inline(always)]
    fn wrap(&self, closing: Closing) -> Open
        ensures { result ≡ opens.Wrap self.now.at (length self.now.text.list.items) closing }
    {
        Open::Wrap {
            place: self.at,
            from: self.text.len(),
            closing,
        }
    }

    /// Takes the type that an entry waited for.
    pub(crate) fn wrap_ended<S: Showing>(
        &mut self,
        s: &[u8],
        here: usize,
        forms: Forms,
        place: usize,
        from: usize,
        closing: Closing,
    ) -> Option<Step>
        requires { Receives S.IS_BRIEF s.now self.old (opens.Wrap place from closing) here forms }
        ensures { IfSome result (IsWriting S.IS_BRIEF s.now self.new) }
    {
        match closing {
            Closing::Nothing => self.bare_ended::<S>(s, here, forms, place, from),
            Closing::Bracket => self.bracket_ended::<S>(s, here, forms, place, from),
            Closing::Angle => self.angle_ended::<S>(s, here, forms, place, from),
        }
    }

    /// The type of a reference or a pointer is read.
    // <type> = "R" [<lifetime>] <type> | "Q" [<lifetime>] <type> | "P" <type> | "O" <type>
    #[inline(always)]
    fn bare_ended<S: Showing>(
        &mut self,
        s: &[u8],
        _here: usize,
        forms: Forms,
        place: usize,
        from: usize,
    ) -> Option<Step>
        requires { Receives S.IS_BRIEF s.now self.old (opens.Wrap place from closings.Nothing) _here forms }
        ensures { IfSome result (IsWriting S.IS_BRIEF s.now self.new) }
    {
        if !is_type(forms) {
            return None;
        }
        self.ended::<S>(s, place, from, Forms::Typed, Forms::Typed)
    }

    /// The type of a slice's elements is read.
    // <type> = "S" <type>
    #[inline(always)]
    fn bracket_ended<S: Showing>(
        &mut self,
        s: &[u8],
        _here: usize,
        forms: Forms,
        place: usize,
        from: usize,
    ) -> Option<Step>
        requires { Receives S.IS_BRIEF s.now self.old (opens.Wrap place from closings.Bracket) _here forms }
        ensures { IfSome result (IsWriting S.IS_BRIEF s.now self.new) }
    {
        if !is_type(forms) {
            return None;
        }
        self.push_byte(b']')?;
        self.ended::<S>(s, place, from, Forms::Typed, Forms::Typed)
    }
}
