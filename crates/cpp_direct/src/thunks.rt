// Thunks: functions that call another function, and move the object of the call by an offset.

ghost use Rattle.std.specs.Prelude.{◌≡◌, ◌+◌, ◌∷◌, [], ℕ, List, false};
ghost use Rattle.std.specs.Option.{OnSome, IfSome};
ghost use Rattle.cpp_direct.specs.Names.{IsReadable};
ghost use Rattle.cpp_direct.specs.Bytes.{is_local, is_guard};
ghost use Rattle.cpp_direct.specs.Holes.{StandsAt};
ghost use Rattle.cpp_direct.specs.HolesOfLists.{IsDigitsAt, IsOffsetAt};
ghost use Rattle.cpp_direct.specs.WriterInvariant.{IsWriting};
ghost use Rattle.cpp_direct.specs.MidStep.{IsFresh};
ghost use Rattle.cpp_direct.specs.Written.{Reads};
ghost use Rattle.cpp_direct.specs.Symbol.{symbol_by};

use crate::direct::Direct;
use crate::grammar::Grammar;
use crate::open::Step;
use crate::tokens::byte_at;
use sym_core::{NumberKind, find_number};

impl Direct {
    // <special-name> ::= T <call-offset> <base encoding>
    // <call-offset> ::= h <nv-offset> _
    #[inline(never)]
    pub(crate) fn begin_thunk<G: Grammar>(&mut self, s: &[u8]) -> Option<Step>
        requires fits { IsReadable s.now }
        requires fresh { IsFresh self.old }
        requires starts { StandsAt s.now 0 (95 ∷ 90 ∷ []) }
        requires apart { is_local s.now ≡ false }
        requires other { is_guard s.now ≡ false }
        requires letter { StandsAt s.now 2 (84 ∷ []) }
        requires kind { StandsAt s.now 3 (104 ∷ []) }
        ensures { IfSome result (IsWriting (symbol_by G.IS_WIDE G.IS_BARE G.IS_BRIEF s.now) self.new) }
    {
        self.at = 4;
        self.offset(s)?;
        self.push(b"non-virtual thunk to ")?;
        self.begin_encoding::<G>(s)
    }

    // <special-name> ::= T <call-offset> <base encoding>
    // <call-offset> ::= v <offset number> _ <virtual offset number> _
    #[inline(never)]
    pub(crate) fn begin_virtual_thunk<G: Grammar>(&mut self, s: &[u8]) -> Option<Step>
        requires fits { IsReadable s.now }
        requires fresh { IsFresh self.old }
        requires starts { StandsAt s.now 0 (95 ∷ 90 ∷ []) }
        requires apart { is_local s.now ≡ false }
        requires other { is_guard s.now ≡ false }
        requires letter { StandsAt s.now 2 (84 ∷ []) }
        requires kind { StandsAt s.now 3 (118 ∷ []) }
        ensures { IfSome result (IsWriting (symbol_by G.IS_WIDE G.IS_BARE G.IS_BRIEF s.now) self.new) }
    {
        self.at = 4;
        self.offset(s)?;
        self.offset(s)?;
        self.push(b"virtual thunk to ")?;
        self.begin_encoding::<G>(s)
    }

    /// Reads an offset and the _ after it, and writes nothing.
    // <number> ::= [n] <non-negative decimal integer>
    fn offset(&mut self, s: &[u8]) -> Option<()>
        requires { IsReadable s.now }
        ensures { OnSome result (IsOffsetAt s.now self.old.at self.new.at × Reads self.old self.new []) }
    {
        if byte_at(s, self.at) == b'n' {
            self.at = self.at.checked_add(1)?;
            return self.distance(s);
        }
        self.distance(s)
    }

    /// Reads digits and the _ after them, and writes nothing.
    // <non-negative decimal integer>
    pub(crate) fn distance(&mut self, s: &[u8]) -> Option<()>
        requires { IsReadable s.now }
        ensures { OnSome result ((digits : List ℕ) × (end : ℕ) × IsDigitsAt s.now self.old.at digits end × StandsAt s.now end (95 ∷ [])
            × (self.new.at ≡ end + 1) × Reads self.old self.new []) }
    {
        if self.at > s.len() {
            return None;
        }
        let place = find_number(s, self.at, NumberKind::Digits).ok()?;
        if byte_at(s, place.end) != b'_' {
            return None;
        }
        self.at = place.end.checked_add(1)?;
        Some(())
    }
}
