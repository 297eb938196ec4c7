// Guard variables of objects that have nested names, such as static members.

ghost use Rattle.std.specs.Prelude.{◌≡◌, ◌∷◌, [], true, false};
ghost use Rattle.std.specs.Option.{IfSome};
ghost use Rattle.cpp_direct.specs.Bytes.{is_local, is_guard};
ghost use Rattle.cpp_direct.specs.Names.{IsReadable};
ghost use Rattle.cpp_direct.specs.Holes.{StandsAt};
ghost use Rattle.cpp_direct.specs.WriterInvariant.{IsWriting};
ghost use Rattle.cpp_direct.specs.MidStep.{IsFresh};
ghost use Rattle.cpp_direct.specs.Symbol.{symbol_by};

use crate::direct::Direct;
use crate::grammar::Grammar;
use crate::open::Step;
use crate::tokens::byte_at;

impl Direct {
    /// Reads the first bytes of the symbol of an object's guard variable. No types follow the
    /// object's name.
    // <special-name> ::= GV <object name>
    #[inline(never)]
    pub(crate) fn begin_object<G: Grammar>(&mut self, s: &[u8]) -> Option<Step>
        requires fits { IsReadable s.now }
        requires fresh { IsFresh self.old }
        requires apart { is_local s.now ≡ false }
        requires guard { is_guard s.now ≡ true }
        requires starts { StandsAt s.now 0 (95 ∷ 90 ∷ []) }
        ensures { IfSome result (IsWriting (symbol_by G.IS_WIDE G.IS_BARE G.IS_BRIEF s.now) self.new) }
    {
        if byte_at(s, 2) != b'G' || byte_at(s, 3) != b'V' || byte_at(s, 4) != b'N' {
            return None;
        }
        self.push(b"guard variable for ")?;
        self.has_scope = true;
        self.at = 4;
        self.begin_nested::<G>(s)
    }
}
