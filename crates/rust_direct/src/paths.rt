// Paths.

ghost use Rattle.std.specs.Prelude.{◌≡◌, ◌≤◌, ◌<◌, ◌+◌, ◌∷◌, [], length, true, false};
ghost use Rattle.std.specs.Option.{IfSome, OnSome};
ghost use Rattle.sym_core.specs.Number.{FitsSymbol};
ghost use Rattle.sym_direct.specs.Holes.{StandsAt};
ghost use Rattle.rust_direct.specs.declared.open.Step.TheVariants as steps;
ghost use Rattle.rust_direct.specs.declared.open.Open.TheVariants as opens;
ghost use Rattle.rust_direct.specs.declared.open.Forms.TheVariants as looks;
ghost use Rattle.rust_direct.specs.Holes.{HasDisambiguator};
ghost use Rattle.rust_direct.specs.Names.{IsNamePlace};
ghost use Rattle.rust_direct.specs.PrintsInForm.{is_path};
ghost use Rattle.rust_direct.specs.WriterInvariant.{IsWriting};
ghost use Rattle.rust_direct.specs.Awaits.{Awaits, AwaitsPath, Receives, IsEnded, IsEndedWithRoom};

use crate::direct::Direct;
use crate::hashes::disambiguator_end;
use crate::names::{any_name_at, name_at, short_name_at};
use crate::open::{Forms, Open, Step, is_path};
use crate::showing::Showing;
use crate::tokens::{is_namespace, number_at};
use sym_core::TokenPlace;
use sym_direct::byte_at;

impl Direct {
    /// Reads a path, up to the first path in it.
    // <path> = "C" <identifier> | "N" <namespace> <path> <identifier> | "I" <path> {<generic-arg>} "E" | "M" <impl-path> <type>
    //        | "X" <impl-path> <type> <path> | "Y" <type> <path> | <backref>
    pub(crate) fn path_at<S: Showing>(&mut self, s: &[u8], is_value: bool) -> Option<Step>
        requires fits { FitsSymbol s.now }
        requires writing { IsWriting S.IS_BRIEF s.now self.old (steps.Path is_value) }
        ensures { IfSome result (IsWriting S.IS_BRIEF s.now self.new) }
    {
        self.begin_outer::<S>(s, is_value)?;
        match byte_at(s, self.at) {
            b'C' => self.crate_root::<S>(s),
            b'B' => self.path_again::<S>(s),
            b'M' => self.begin_impl::<S>(s),
            b'X' => self.begin_trait_impl::<S>(s),
            b'Y' => self.begin_trait::<S>(s),
            _ => None,
        }
    }

    /// Reads the first bytes of the paths around the innermost one.
    // <path> = "N" <namespace> <path> <identifier> | "I" <path> {<generic-arg>} "E"
    #[inline(always)]
    fn begin_outer<S: Showing>(&mut self, s: &[u8], is_value: bool) -> Option<()>
        requires { Awaits S.IS_BRIEF s.now self.old false }
        ensures { OnSome result (Awaits S.IS_BRIEF s.now self.new false) }
    {
        'paths: loop {
            match byte_at(s, self.at) {
                b'N' => self.begin_nest::<S>(s)?,
                b'I' => self.begin_generic::<S>(s, is_value)?,
                _ => return Some(()),
            }
        }
    }

    // <path> = "C" <identifier>
    #[inline(always)]
    pub(crate) fn crate_root<S: Showing>(&mut self, s: &[u8]) -> Option<Step>
        requires fits { FitsSymbol s.now }
        requires letter { StandsAt s.now self.old.at (67 ∷ []) }
        requires awaits { AwaitsPath S.IS_BRIEF s.now self.old }
        ensures { IfSome result (IsWriting S.IS_BRIEF s.now self.new) }
    {
        let place = self.at;
        let from = self.text.len();
        let behind = disambiguator_end(s, place.checked_add(1)?)?;
        if let Some(name) = short_name_at(s, behind) {
            self.crate_named::<S>(s, behind, name)?;
            return self.ended::<S>(s, place, from, Forms::Alike, Forms::Alike);
        }
        self.crate_named_anyhow::<S>(s, behind)?;
        self.ended::<S>(s, place, from, Forms::Alike, Forms::Alike)
    }

    /// Reads the name of a crate, whatever its length is.
    // a function of its own: inlined, it would cost a common name one more test
    // <path> = "C" <identifier>
    #[inline(never)]
    fn crate_named_anyhow<S: Showing>(&mut self, s: &[u8], behind: usize) -> Option<()>
        requires fits { FitsSymbol s.now }
        requires letter { StandsAt s.now self.old.at (67 ∷ []) }
        requires awaits { AwaitsPath S.IS_BRIEF s.now self.old }
        requires counted { HasDisambiguator s.now (self.old.at + 1) behind }
        ensures { OnSome result (IsEnded S.IS_BRIEF s.now self.new self.old.at (length self.old.text.list.items) looks.Alike looks.Alike) }
    {
        let name = any_name_at(s, behind)?;
        self.crate_named::<S>(s, behind, name)
    }

    /// Writes the name of a crate.
    // <path> = "C" <identifier>
    #[inline(always)]
    fn crate_named<S: Showing>(&mut self, s: &[u8], _behind: usize, name: TokenPlace) -> Option<()>
        requires letter { StandsAt s.now self.old.at (67 ∷ []) }
        requires awaits { AwaitsPath S.IS_BRIEF s.now self.old }
        requires counted { HasDisambiguator s.now (self.old.at + 1) _behind }
        requires named { IsNamePlace s.now _behind name }
        ensures { OnSome result (IsEnded S.IS_BRIEF s.now self.new self.old.at (length self.old.text.list.items) looks.Alike looks.Alike) }
    {
        if name.from >= name.to {
            return None;
        }
        self.push_part(s, name.from, name.to)?;
        self.at = name.end;
        Some(())
    }

    // <path> = "N" <namespace> <path> <identifier>
    #[inline(always)]
    pub(crate) fn begin_nest<S: Showing>(&mut self, s: &[u8]) -> Option<()>
        requires letter { StandsAt s.now self.old.at (78 ∷ []) }
        requires awaits { AwaitsPath S.IS_BRIEF s.now self.old }
        ensures awaits { OnSome result (Awaits S.IS_BRIEF s.now self.new false) }
        ensures onward { OnSome result (self.old.at < self.new.at) }
    {
        let place = self.at;
        let behind = place.checked_add(1)?;
        if behind >= s.len() {
            return None;
        }
        let letter = s[behind];
        if !is_namespace(letter) {
            return None;
        }
        self.at = behind + 1;
        self.waiting.push(Open::Nest { letter, place })?;
        Some(())
    }

    /// The parent of a path in a namespace is read: the path's name follows.
    // <path> = "N" <namespace> <path> <identifier>
    #[inline(always)]
    pub(crate) fn nest_ended<S: Showing>(
        &mut self,
        s: &[u8],
        from: usize,
        forms: Forms,
        letter: u8,
        place: usize,
    ) -> Option<()>
        requires fits { FitsSymbol s.now }
        requires lower { 97 ≤ letter }
        requires arrives { Receives S.IS_BRIEF s.now self.old (opens.Nest letter place) from forms }
        ensures writing { OnSome result (IsWriting S.IS_BRIEF s.now self.new (steps.Value from forms)) }
        ensures waiting { OnSome result (length self.new.waiting.list.items ≤ length self.old.waiting.list.items) }
    {
        if !is_path(forms) {
            return None;
        }
        let behind = disambiguator_end(s, self.at)?;
        if let Some(name) = short_name_at(s, behind) {
            return self.nest_named::<S>(s, from, forms, letter, place, behind, name);
        }
        self.nest_named_anyhow::<S>(s, from, forms, letter, place, behind)
    }

    /// Reads the name after the parent of a path in a namespace, whatever its length is.
    // a function of its own, for the same reason as `crate_named_anyhow`
    // <path> = "N" <namespace> <path> <identifier>
    #[inline(never)]
    fn nest_named_anyhow<S: Showing>(
        &mut self,
        s: &[u8],
        from: usize,
        forms: Forms,
        letter: u8,
        place: usize,
        behind: usize,
    ) -> Option<()>
        requires fits { FitsSymbol s.now }
        requires lower { 97 ≤ letter }
        requires path { is_path forms ≡ true }
        requires arrives { Receives S.IS_BRIEF s.now self.old (opens.Nest letter place) from forms }
        requires counted { HasDisambiguator s.now self.old.at behind }
        ensures writing { OnSome result (IsWriting S.IS_BRIEF s.now self.new (steps.Value from forms)) }
        ensures waiting { OnSome result (length self.new.waiting.list.items ≤ length self.old.waiting.list.items) }
    {
        let name = any_name_at(s, behind)?;
        self.nest_named::<S>(s, from, forms, letter, place, behind, name)
    }

    /// Writes the name after the parent of a path in a namespace.
    // <path> = "N" <namespace> <path> <identifier>
    #[inline(always)]
    fn nest_named<S: Showing>(
        &mut self,
        s: &[u8],
        from: usize,
        forms: Forms,
        _letter: u8,
        place: usize,
        _behind: usize,
        name: TokenPlace,
    ) -> Option<()>
        requires fits { FitsSymbol s.now }
        requires lower { 97 ≤ _letter }
        requires path { is_path forms ≡ true }
        requires arrives { Receives S.IS_BRIEF s.now self.old (opens.Nest _letter place) from forms }
        requires counted { HasDisambiguator s.now self.old.at _behind }
        requires named { IsNamePlace s.now _behind name }
        ensures writing { OnSome result (IsWriting S.IS_BRIEF s.now self.new (steps.Value from forms)) }
        ensures waiting { OnSome result (length self.new.waiting.list.items ≤ length self.old.waiting.list.items) }
    {
        if name.from >= name.to {
            return None;
        }
        self.push_name(s, name.from, name.to)?;
        self.at = name.end;
        self.named_ended::<S>(s, place, from, forms)
    }

    /// A name is written, and an empty one may follow.
    // <path> = "N" <namespace> <path> <identifier>
    #[inline(always)]
    fn named_ended<S: Showing>(
        &mut self,
        s: &[u8],
        place: usize,
        from: usize,
        forms: Forms,
    ) -> Option<()>
        requires fits { FitsSymbol s.now }
        requires ended { IsEndedWithRoom S.IS_BRIEF s.now self.old place from forms }
        ensures writing { OnSome result (IsWriting S.IS_BRIEF s.now self.new (steps.Value from forms)) }
        ensures waiting { OnSome result (length self.new.waiting.list.items ≤ length self.old.waiting.list.items) }
    {
        if byte_at(s, self.at) == b'0' {
            if let Some(Open::Nest { letter, .. }) = self.waiting.as_slice().last() {
                if *letter >= b'a' {
                    return self.unnamed_ended::<S>(s, place, from, forms);
                }
            }
        }
        self.note(place, from, forms)?;
        Some(())
    }

    /// The empty name after a parent, such as that of a constructor or of a type's constant: it
    /// prints nothing.
    // <path> = "N" <namespace> <path> <identifier>
    #[inline(never)]
    fn unnamed_ended<S: Showing>(
        &mut self,
        s: &[u8],
        parent: usize,
        from: usize,
        forms: Forms,
    ) -> Option<()>
        requires fits { FitsSymbol s.now }
        requires ended { IsEndedWithRoom S.IS_BRIEF s.now self.old parent from forms }
        ensures writing { OnSome result (IsWriting S.IS_BRIEF s.now self.new (steps.Value from forms)) }
        ensures waiting { OnSome result (length self.new.waiting.list.items ≤ length self.old.waiting.list.items) }
    {
        self.note(parent, from, forms)?;
        match self.waiting.pop()? {
            Open::Nest { letter, place } => {
                if letter < b'a' {
                    return None;
                }
                let name = name_at(s, self.at)?;
                if name.from < name.to {
                    return None;
                }
                self.at = name.end;
                self.note(place, from, forms)?;
                Some(())
            }
            _ => None,
        }
    }

    // <path> = <backref>
    fn path_again<S: Showing>(&mut self, s: &[u8]) -> Option<Step>
        requires fits { FitsSymbol s.now }
        requires letter { StandsAt s.now self.old.at (66 ∷ []) }
        requires awaits { Awaits S.IS_BRIEF s.now self.old false }
        ensures { IfSome result (IsWriting S.IS_BRIEF s.now self.new) }
    {
        let place = self.at;
        let from = self.text.len();
        let (number, end) = number_at(s, place.checked_add(1)?)?;
        let note = self.noted((number as usize).checked_add(2)?)?;
        if !is_path(note.forms) {
            return None;
        }
        self.repeat(note)?;
        self.at = end;
        self.ended::<S>(s, place, from, note.forms, note.forms)
    }

    // <path> = "I" <path> {<generic-arg>} "E"
    #[inline(always)]
    pub(crate) fn begin_generic<S: Showing>(&mut self, _s: &[u8], is_value: bool) -> Option<()>
        requires letter { StandsAt _s.now self.old.at (73 ∷ []) }
        requires awaits { AwaitsPath S.IS_BRIEF _s.now self.old }
        ensures awaits { OnSome result (Awaits S.IS_BRIEF _s.now self.new false) }
        ensures onward { OnSome result (self.old.at < self.new.at) }
    {
        let place = self.at;
        self.at = place.checked_add(1)?;
        self.waiting.push(Open::Generic { is_value, place })?;
        Some(())
    }
}
