// Impls of traits, and the traits that types implement.

ghost use Rattle.std.specs.Prelude.{◌∷◌, []};
ghost use Rattle.std.specs.Option.{IfSome};
ghost use Rattle.sym_core.specs.Number.{FitsSymbol};
ghost use Rattle.sym_direct.specs.Holes.{StandsAt};
ghost use Rattle.rust_direct.specs.declared.open.Open.TheVariants as opens;
ghost use Rattle.rust_direct.specs.WriterInvariant.{IsWriting};
ghost use Rattle.rust_direct.specs.Awaits.{AwaitsPath, AwaitsTraitType, Receives};

use crate::direct::Direct;
use crate::hashes::disambiguator_end;
use crate::open::{Forms, Open, Step, has_form, is_path, is_type};
use crate::showing::Showing;

impl Direct {
    // <path> = "X" <impl-path> <type> <path>
    #[inline(always)]
    pub(crate) fn begin_trait_impl<S: Showing>(&mut self, s: &[u8]) -> Option<Step>
        requires fits { FitsSymbol s.now }
        requires letter { StandsAt s.now self.old.at (88 ∷ []) }
        requires awaits { AwaitsPath S.IS_BRIEF s.now self.old }
        ensures { IfSome result (IsWriting S.IS_BRIEF s.now self.new) }
    {
        let place = self.at;
        let behind = disambiguator_end(s, place.checked_add(1)?)?;
        if self.is_aside {
            self.begin_inner_trait_impl::<S>(s, behind)?;
            return Some(Step::Path { is_value: false });
        }
        self.at = behind;
        self.waiting.push(Open::TraitImpl { place })?;
        self.turn();
        Some(Step::Path { is_value: false })
    }

    /// The path of an impl of a trait is read, and the impl's type follows.
    // <path> = "X" <impl-path> <type> <path>
    pub(crate) fn trait_impl_ended<S: Showing>(
        &mut self,
        _s: &[u8],
        _here: usize,
        forms: Forms,
        place: usize,
    ) -> Option<Step>
        requires { Receives S.IS_BRIEF _s.now self.old (opens.TraitImpl place) _here forms }
        ensures { IfSome result (IsWriting S.IS_BRIEF _s.now self.new) }
    {
        if !is_path(forms) {
            return None;
        }
        if !self.is_aside {
            return None;
        }
        self.turn();
        self.begin_trait_type::<S>(_s, place)
    }

    /// The path of an impl of a trait is read, and the impl's type follows; the impl itself isn't
    /// shown.
    // <path> = "X" <impl-path> <type> <path>
    pub(crate) fn inner_trait_impl_ended<S: Showing>(
        &mut self,
        _s: &[u8],
        _here: usize,
        forms: Forms,
        place: usize,
    ) -> Option<Step>
        requires { Receives S.IS_BRIEF _s.now self.old (opens.InnerTraitImpl place) _here forms }
        ensures { IfSome result (IsWriting S.IS_BRIEF _s.now self.new) }
    {
        if !is_path(forms) {
            return None;
        }
        self.begin_trait_type::<S>(_s, place)
    }

    /// The type that implements a trait follows, after an angle bracket.
    // <path> = "X" <impl-path> <type> <path>
    #[inline(always)]
    fn begin_trait_type<S: Showing>(&mut self, _s: &[u8], place: usize) -> Option<Step>
        requires { AwaitsTraitType S.IS_BRIEF _s.now self.old place }
        ensures { IfSome result (IsWriting S.IS_BRIEF _s.now self.new) }
    {
        let from = self.text.len();
        self.push_byte(b'<')?;
        self.waiting.push(Open::Implementing { place, from })?;
        Some(Step::Type)
    }

    // <path> = "Y" <type> <path>
    #[inline(always)]
    pub(crate) fn begin_trait<S: Showing>(&mut self, s: &[u8]) -> Option<Step>
        requires letter { StandsAt s.now self.old.at (89 ∷ []) }
        requires awaits { AwaitsPath S.IS_BRIEF s.now self.old }
        ensures { IfSome result (IsWriting S.IS_BRIEF s.now self.new) }
    {
        let place = self.at;
        let from = self.text.len();
        let behind = place.checked_add(1)?;
        self.push_open(b"<", Open::Implementing { place, from }, behind)?;
        Some(Step::Type)
    }

    /// The type that implements a trait is read, and the trait follows.
    // <path> = "X" <impl-path> <type> <path> | "Y" <type> <path>
    pub(crate) fn implementing_ended<S: Showing>(
        &mut self,
        _s: &[u8],
        _here: usize,
        forms: Forms,
        place: usize,
        from: usize,
    ) -> Option<Step>
        requires { Receives S.IS_BRIEF _s.now self.old (opens.Implementing place from) _here forms }
        ensures { IfSome result (IsWriting S.IS_BRIEF _s.now self.new) }
    {
        if !is_type(forms) {
            return None;
        }
        self.push(b" as ")?;
        self.waiting.push(Open::Implemented { place, from })?;
        Some(Step::Path { is_value: false })
    }

    /// The trait that a type implements is read.
    // <path> = "X" <impl-path> <type> <path> | "Y" <type> <path>
    pub(crate) fn implemented_ended<S: Showing>(
        &mut self,
        s: &[u8],
        _here: usize,
        forms: Forms,
        place: usize,
        from: usize,
    ) -> Option<Step>
        requires { Receives S.IS_BRIEF s.now self.old (opens.Implemented place from) _here forms }
        ensures { IfSome result (IsWriting S.IS_BRIEF s.now self.new) }
    {
        if !has_form(false, forms) {
            return None;
        }
        self.push_byte(b'>')?;
        self.ended::<S>(s, place, from, Forms::Alike, Forms::Alike)
    }
}
