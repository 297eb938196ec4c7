// Local entities: what has a name in the body of a function.

ghost use Rattle.std.specs.Prelude.{◌≡◌, ◌∷◌, [], true, false};
ghost use Rattle.std.specs.Option.{OnSome, IfSome};
ghost use Rattle.cpp_direct.specs.Names.{IsReadable};
ghost use Rattle.cpp_direct.specs.declared.open.Mark.TheVariants as marks;
ghost use Rattle.cpp_direct.specs.Bytes.{is_local};
ghost use Rattle.cpp_direct.specs.Holes.{StandsAt};
ghost use Rattle.cpp_direct.specs.HolesOfLocals.{Discriminator, IsDiscriminatorAt};
ghost use Rattle.cpp_direct.specs.WriterInvariant.{IsWriting};
ghost use Rattle.cpp_direct.specs.MidStep.{IsFresh, IsEncodingEnded};
ghost use Rattle.cpp_direct.specs.MidStepOfLocals.{AwaitsEntity};
ghost use Rattle.cpp_direct.specs.Written.{Reads};
ghost use Rattle.cpp_direct.specs.Symbol.{symbol_by};

use crate::direct::Direct;
use crate::grammar::Grammar;
use crate::open::Step;
use crate::tokens::byte_at;

impl Direct {
    /// The first bytes of the symbol of a local entity, or of its guard variable.
    // <local-name> ::= Z <function encoding> E <entity name> [<discriminator>]
    pub(crate) fn begin_local<G: Grammar>(&mut self, s: &[u8]) -> Option<Step>
        requires fits { IsReadable s.now }
        requires fresh { IsFresh self.old }
        requires local { is_local s.now ≡ true }
        requires starts { StandsAt s.now 0 (95 ∷ 90 ∷ []) }
        ensures { IfSome result (IsWriting (symbol_by G.IS_WIDE G.IS_BARE G.IS_BRIEF s.now) self.new) }
    {
        if byte_at(s, 2) != b'Z' {
            return self.begin_guard::<G>(s);
        }
        self.at = 3;
        self.begin_encoding::<G>(s)
    }

    /// The first bytes of the symbol of a guard variable.
    // <special-name> ::= GV <object name>
    fn begin_guard<G: Grammar>(&mut self, s: &[u8]) -> Option<Step>
        requires fits { IsReadable s.now }
        requires fresh { IsFresh self.old }
        requires local { is_local s.now ≡ true }
        requires starts { StandsAt s.now 0 (95 ∷ 90 ∷ []) }
        ensures { IfSome result (IsWriting (symbol_by G.IS_WIDE G.IS_BARE G.IS_BRIEF s.now) self.new) }
    {
        if byte_at(s, 2) != b'G' || byte_at(s, 3) != b'V' || byte_at(s, 4) != b'Z' {
            return None;
        }
        self.push(b"guard variable for ")?;
        self.at = 5;
        self.begin_encoding::<G>(s)
    }

    /// A local entity, after the encoding that contains it.
    // <local-name> ::= Z <function encoding> E <entity name> [<discriminator>]
    pub(crate) fn entity<G: Grammar>(&mut self, s: &[u8]) -> Option<Step>
        requires fits { IsReadable s.now }
        requires ended { IsEncodingEnded (symbol_by G.IS_WIDE G.IS_BARE G.IS_BRIEF s.now) self.old marks.Plain }
        requires local { is_local s.now ≡ true }
        ensures { IfSome result (IsWriting (symbol_by G.IS_WIDE G.IS_BARE G.IS_BRIEF s.now) self.new) }
    {
        if byte_at(s, self.at) != b'E' {
            return None;
        }
        self.at = self.at.checked_add(1)?;
        if byte_at(s, self.at) == b'N' {
            return self.begin_member::<G>(s);
        }
        if byte_at(s, self.at) == b'L' {
            self.at = self.at.checked_add(1)?;
            return self.entity_name::<G>(s, true);
        }
        self.entity_name::<G>(s, false)
    }

    /// The name of a local entity, after the L of internal linkage or without one.
    // <unscoped-name> ::= <source-name>
    fn entity_name<G: Grammar>(&mut self, s: &[u8], is_internal: bool) -> Option<Step>
        requires fits { IsReadable s.now }
        requires awaits { AwaitsEntity (symbol_by G.IS_WIDE G.IS_BARE G.IS_BRIEF s.now) self.old is_internal }
        ensures { IfSome result (IsWriting (symbol_by G.IS_WIDE G.IS_BARE G.IS_BRIEF s.now) self.new) }
    {
        self.push_pair(b':', b':')?;
        self.name(s)?;
        self.discriminator(s)?;
        self.finish::<G>(s)
    }

    /// Reads a discriminator, if there is one, and writes nothing.
    // <discriminator> ::= _ <non-negative number> | __ <non-negative number> _
    pub(crate) fn discriminator(&mut self, s: &[u8]) -> Option<()>
        requires { IsReadable s.now }
        ensures { OnSome result ((digit : Discriminator) × IsDiscriminatorAt s.now self.old.at digit self.new.at × Reads self.old self.new []) }
    {
        if byte_at(s, self.at) != b'_' {
            return Some(());
        }
        self.at = self.at.checked_add(1)?;
        let digit = byte_at(s, self.at);
        if digit == b'_' {
            self.at = self.at.checked_add(1)?;
            return self.distance(s);
        }
        if digit < b'0' || b'9' < digit {
            return None;
        }
        self.at = self.at.checked_add(1)?;
        Some(())
    }
}
