// Impls: their paths are read and not shown.

ghost use Rattle.std.specs.Prelude.{◌∷◌, []};
ghost use Rattle.std.specs.Option.{IfSome};
ghost use Rattle.sym_core.specs.Number.{FitsSymbol};
ghost use Rattle.sym_direct.specs.Holes.{StandsAt};
ghost use Rattle.rust_direct.specs.declared.open.Closing.TheVariants as closings;
ghost use Rattle.rust_direct.specs.declared.open.Open.TheVariants as opens;
ghost use Rattle.rust_direct.specs.WriterInvariant.{IsWriting};
ghost use Rattle.rust_direct.specs.Awaits.{AwaitsPath, AwaitsImplType, Receives};

use crate::direct::Direct;
use crate::hashes::disambiguator_end;
use crate::open::{Closing, Forms, Open, Step, is_path, is_type};
use crate::showing::Showing;

impl Direct {
    // <path> = "M" <impl-path> <type>
    #[inline(always)]
    pub(crate) fn begin_impl<S: Showing>(&mut self, s: &[u8]) -> Option<Step>
        requires fits { FitsSymbol s.now }
        requires letter { StandsAt s.now self.old.at (77 ∷ []) }
        requires awaits { AwaitsPath S.IS_BRIEF s.now self.old }
        ensures { IfSome result (IsWriting S.IS_BRIEF s.now self.new) }
    {
        let place = self.at;
        let behind = disambiguator_end(s, place.checked_add(1)?)?;
        if self.is_aside {
            self.begin_inner_impl::<S>(s, behind)?;
            return Some(Step::Path { is_value: false });
        }
        self.at = behind;
        self.waiting.push(Open::Impl { place })?;
        self.turn();
        Some(Step::Path { is_value: false })
    }

    /// The path of an impl is read, and the impl's type follows.
    // <path> = "M" <impl-path> <type>
    pub(crate) fn impl_ended<S: Showing>(
        &mut self,
        _s: &[u8],
        _here: usize,
        forms: Forms,
        place: usize,
    ) -> Option<Step>
        requires { Receives S.IS_BRIEF _s.now self.old (opens.Impl place) _here forms }
        ensures { IfSome result (IsWriting S.IS_BRIEF _s.now self.new) }
    {
        if !is_path(forms) {
            return None;
        }
        if !self.is_aside {
            return None;
        }
        self.turn();
        self.begin_impl_type::<S>(_s, place)
    }

    /// The path of a hidden impl is read, and the impl's type follows.
    // <path> = "M" <impl-path> <type>
    pub(crate) fn inner_impl_ended<S: Showing>(
        &mut self,
        _s: &[u8],
        _here: usize,
        forms: Forms,
        place: usize,
    ) -> Option<Step>
        requires { Receives S.IS_BRIEF _s.now self.old (opens.InnerImpl place) _here forms }
        ensures { IfSome result (IsWriting S.IS_BRIEF _s.now self.new) }
    {
        if !is_path(forms) {
            return None;
        }
        self.begin_impl_type::<S>(_s, place)
    }

    /// The type of an impl follows, in angle brackets.
    // <path> = "M" <impl-path> <type>
    #[inline(always)]
    fn begin_impl_type<S: Showing>(&mut self, _s: &[u8], place: usize) -> Option<Step>
        requires { AwaitsImplType S.IS_BRIEF _s.now self.old place }
        ensures { IfSome result (IsWriting S.IS_BRIEF _s.now self.new) }
    {
        let from = self.text.len();
        self.push_byte(b'<')?;
        self.waiting.push(Open::Wrap {
            place,
            from,
            closing: Closing::Angle,
        })?;
        Some(Step::Type)
    }

    /// The type of an impl is read.
    // <path> = "M" <impl-path> <type>
    #[inline(always)]
    pub(crate) fn angle_ended<S: Showing>(
        &mut self,
        s: &[u8],
        _here: usize,
        forms: Forms,
        place: usize,
        from: usize,
    ) -> Option<Step>
        requires { Receives S.IS_BRIEF s.now self.old (opens.Wrap place from closings.Angle) _here forms }
        ensures { IfSome result (IsWriting S.IS_BRIEF s.now self.new) }
    {
        if !is_type(forms) {
            return None;
        }
        self.push_byte(b'>')?;
        self.ended::<S>(s, place, from, Forms::Alike, Forms::Alike)
    }
}
