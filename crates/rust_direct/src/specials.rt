// Closures, shims, and other things that a compiler made.

ghost use Rattle.std.specs.Prelude.{◌≡◌, ◌<◌, ◌≤◌, decimal, true};
ghost use Rattle.std.specs.Option.{IfSome, OnSome};
ghost use Rattle.sym_core.specs.Number.{FitsSymbol};
ghost use Rattle.rust_tree.specs.Shown.{namespace_text};
ghost use Rattle.rust_direct.specs.declared.open.Open.TheVariants as opens;
ghost use Rattle.rust_direct.specs.PrintsInForm.{is_path};
ghost use Rattle.rust_direct.specs.Written.{Writes};
ghost use Rattle.rust_direct.specs.Specials.{behind_colon, special_text};
ghost use Rattle.rust_direct.specs.WriterInvariant.{IsWriting};
ghost use Rattle.rust_direct.specs.Awaits.{Receives};

use crate::direct::Direct;
use crate::names::special_name_at;
use crate::open::{Forms, Step, is_path};
use crate::showing::Showing;
use crate::tokens::disambiguator_at;
use itoa::Buffer;

impl Direct {
    /// The parent of a path in a namespace of the compiler's own is read.
    // <namespace> = "C" | "S" | <A-Z> | ..
    #[tactic(auto, unfolding(rust_tree::specs::Shown::namespace_text))]
    pub(crate) fn special_ended<S: Showing>(
        &mut self,
        s: &[u8],
        from: usize,
        forms: Forms,
        letter: u8,
        place: usize,
    ) -> Option<Step>
        requires fits { FitsSymbol s.now }
        requires arrives { Receives S.IS_BRIEF s.now self.old (opens.Nest letter place) from forms }
        ensures { IfSome result (IsWriting S.IS_BRIEF s.now self.new) }
    {
        if letter < b'A' || letter >= b'a' || !is_path(forms) {
            return None;
        }
        match letter {
            b'C' => self.special_named::<S>(s, from, forms, letter, place, b"closure"),
            b'S' => self.special_named::<S>(s, from, forms, letter, place, b"shim"),
            _ => self.special_named::<S>(s, from, forms, letter, place, &[letter]),
        }
    }

    /// The number and the name of a closure, a shim or the like follow.
    // <path> = "N" <namespace> <path> <identifier>
    fn special_named<S: Showing>(
        &mut self,
        s: &[u8],
        from: usize,
        forms: Forms,
        _letter: u8,
        place: usize,
        namespace: &[u8],
    ) -> Option<Step>
        requires fits { FitsSymbol s.now }
        requires special { _letter < 97 }
        requires upper { 65 ≤ _letter }
        requires path { is_path forms ≡ true }
        requires arrives { Receives S.IS_BRIEF s.now self.old (opens.Nest _letter place) from forms }
        requires text { namespace.now ≡ namespace_text _letter }
        ensures { IfSome result (IsWriting S.IS_BRIEF s.now self.new) }
    {
        let (count, behind) = disambiguator_at(s, self.at)?;
        let name = special_name_at(s, behind)?;
        self.push_special(namespace, &s[name.from..name.to], count)?;
        self.at = name.end;
        self.ended::<S>(s, place, from, forms, forms)
    }

    /// Writes the text after the parent.
    fn push_special(&mut self, namespace: &[u8], name: &[u8], count: u64) -> Option<()>
        ensures { OnSome result (Writes self.old self.new (special_text namespace.now name.now count)) }
    {
        self.push(b"::{")?;
        self.push(namespace)?;
        self.push_behind_colon(name)?;
        self.push_byte(b'#')?;
        self.push_decimal(count)?;
        self.push_byte(b'}')?;
        Some(())
    }

    /// Writes a number in decimal digits.
    pub(crate) fn push_decimal(&mut self, value: u64) -> Option<()>
        ensures { OnSome result (Writes self.old self.new (decimal value)) }
    {
        if value < 10 {
            return self.push_byte(b'0' + value as u8);
        }
        let mut buffer = Buffer::new();
        self.push(buffer.format(value).as_bytes())?;
        Some(())
    }

    /// Writes a name after a colon, if it isn't empty.
    #[inline(always)]
    fn push_behind_colon(&mut self, name: &[u8]) -> Option<()>
        ensures { OnSome result (Writes self.old self.new (behind_colon name.now)) }
    {
        if name.is_empty() {
            return Some(());
        }
        self.push_byte(b':')?;
        self.push(name)?;
        Some(())
    }
}
