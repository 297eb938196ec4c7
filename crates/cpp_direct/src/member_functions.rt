// Functions that are members of local entities, such as those of lambdas in functions.

ghost use Rattle.std.specs.Prelude.{◌∷◌, [], ℕ, List, false};
ghost use Rattle.std.specs.Option.{IfSome, OnSome};
ghost use Rattle.cpp_grammar.specs.Term.{Term};
ghost use Rattle.cpp_direct.specs.Names.{IsReadable};
ghost use Rattle.cpp_direct.specs.Holes.{StandsAt};
ghost use Rattle.cpp_direct.specs.HolesOfLocals.{IsComponentAt};
ghost use Rattle.cpp_direct.specs.Prints.{PrintsPiece};
ghost use Rattle.cpp_direct.specs.WriterInvariant.{IsWriting};
ghost use Rattle.cpp_direct.specs.MidStepOfLocals.{AwaitsEntity, AwaitsFirst, AwaitsMemberFunction, AwaitsMemberParameters, IsMemberParameterRead, IsMemberRead};
ghost use Rattle.cpp_direct.specs.Written.{Reads};
ghost use Rattle.cpp_direct.specs.Symbol.{detail_by, symbol_by};

use crate::direct::Direct;
use crate::enclosing::LONGEST_GONE_OVER;
use crate::grammar::Grammar;
use crate::marks::mark_at;
use crate::open::{Holder, Mark, Open, Step};
use crate::tokens::{byte_at, may_end};

impl Direct {
    /// Reads the first bytes of the name of a member function, after the function that contains the local entity. A long symbol is given
    /// up, since candidates are visited.
    // <local-name> ::= Z <function encoding> E <entity name>
    // <nested-name> ::= N [<CV-qualifiers>] [<ref-qualifier>] <prefix> <unqualified-name> E
    #[inline(never)]
    pub(crate) fn begin_member<G: Grammar>(&mut self, s: &[u8]) -> Option<Step>
        requires fits { IsReadable s.now }
        requires awaits { AwaitsEntity (symbol_by G.IS_WIDE G.IS_BARE G.IS_BRIEF s.now) self.old false }
        requires letter { StandsAt s.now self.old.at (78 ∷ []) }
        ensures { IfSome result (IsWriting (symbol_by G.IS_WIDE G.IS_BARE G.IS_BRIEF s.now) self.new) }
    {
        if byte_at(s, 2) != b'Z' {
            return None;
        }
        if s.len() > LONGEST_GONE_OVER {
            return None;
        }
        let place = mark_at(s, self.at.checked_add(1)?)?;
        self.end_scope();
        self.at = place.end;
        self.member_entity::<G>(s, place.mark)
    }

    /// Reads the local entity that has a member function, up to the first type in it.
    // <prefix> ::= <unqualified-name>
    fn member_entity<G: Grammar>(&mut self, s: &[u8], mark: Mark) -> Option<Step>
        requires fits { IsReadable s.now }
        requires awaits { AwaitsFirst (symbol_by G.IS_WIDE G.IS_BARE G.IS_BRIEF s.now) self.old mark }
        ensures { IfSome result (IsWriting (symbol_by G.IS_WIDE G.IS_BARE G.IS_BRIEF s.now) self.new) }
    {
        let behind = byte_at(s, self.at.checked_add(2)?);
        if byte_at(s, self.at) == b'U' && behind != b'v' {
            self.open_lambda(s, 0, Holder::Member { mark })?;
            return Some(Step::Type);
        }
        self.push_pair(b':', b':')?;
        self.enclosed_piece::<G>(s)?;
        self.member_function::<G>(s, mark)
    }

    /// A local entity is read: the name of its member function follows, and an E.
    // <nested-name> ::= N [<CV-qualifiers>] [<ref-qualifier>] <prefix> <unqualified-name> E
    pub(crate) fn member_function<G: Grammar>(&mut self, s: &[u8], mark: Mark) -> Option<Step>
        requires fits { IsReadable s.now }
        requires awaits { AwaitsMemberFunction (symbol_by G.IS_WIDE G.IS_BARE G.IS_BRIEF s.now) self.old mark }
        ensures { IfSome result (IsWriting (symbol_by G.IS_WIDE G.IS_BARE G.IS_BRIEF s.now) self.new) }
    {
        self.add_candidate(0, false, false)?;
        self.push_pair(b':', b':')?;
        self.member_piece::<G>(s)?;
        if byte_at(s, self.at) != b'E' {
            return None;
        }
        self.at = self.at.checked_add(1)?;
        self.member_parameters::<G>(s, mark)
    }

    /// Reads the name of a member function: a source name, or the operator of a call.
    // <unqualified-name> ::= <source-name> | cl
    fn member_piece<G: Grammar>(&mut self, s: &[u8]) -> Option<()>
        requires { IsReadable s.now }
        ensures { OnSome result ((p : Term) × (n : List ℕ) × IsComponentAt (symbol_by G.IS_WIDE G.IS_BARE G.IS_BRIEF s.now) self.old.at p self.new.at × PrintsPiece (detail_by G.IS_BARE G.IS_BRIEF) p n × Reads self.old self.new n) }
    {
        if byte_at(s, self.at) != b'c' {
            return self.name(s);
        }
        let behind = self.at.checked_add(1)?;
        if byte_at(s, behind) != b'l' {
            return None;
        }
        self.at = behind.checked_add(1)?;
        self.push(b"operator()")
    }

    /// Reads the parameters of a member function, up to the first type in them.
    // <bare-function-type> ::= <parameter type>+ | v
    fn member_parameters<G: Grammar>(&mut self, s: &[u8], mark: Mark) -> Option<Step>
        requires fits { IsReadable s.now }
        requires awaits { AwaitsMemberParameters (symbol_by G.IS_WIDE G.IS_BARE G.IS_BRIEF s.now) self.old mark }
        ensures { IfSome result (IsWriting (symbol_by G.IS_WIDE G.IS_BARE G.IS_BRIEF s.now) self.new) }
    {
        let behind = byte_at(s, self.at.checked_add(1)?);
        if byte_at(s, self.at) == b'v' && may_end(behind) {
            self.at = self.at.checked_add(1)?;
            if G::IS_BARE {
                return self.member_ended::<G>(s, Mark::Plain);
            }
            self.push_pair(b'(', b')')?;
            return self.member_ended::<G>(s, mark);
        }
        let to = self.text.end();
        self.push_byte(b'(')?;
        self.waiting.push(Open::Member { mark, to })?;
        Some(Step::Type)
    }

    /// A parameter of a member function is read: another one follows, or the end. Where only the names of functions are shown,
    /// what follows the name is removed.
    // <bare-function-type> ::= <parameter type>+
    pub(crate) fn member_parameter<G: Grammar>(
        &mut self,
        s: &[u8],
        mark: Mark,
        to: u32,
    ) -> Option<Step>
        requires fits { IsReadable s.now }
        requires read { IsMemberParameterRead (symbol_by G.IS_WIDE G.IS_BARE G.IS_BRIEF s.now) self.old mark to }
        ensures { IfSome result (IsWriting (symbol_by G.IS_WIDE G.IS_BARE G.IS_BRIEF s.now) self.new) }
    {
        if !may_end(byte_at(s, self.at)) {
            self.push_pair(b',', b' ')?;
            return Some(Step::Type);
        }
        // a lone void is no parameter
        if self.text.as_slice().ends_with(b"(void") {
            return None;
        }
        let _open = self.waiting.pop();
        if G::IS_BARE {
            // nothing is removed while types may name arguments: the arguments' texts stay where
            // they are
            if self.has_scope {
                return None;
            }
            self.leave_out(to)?;
            return self.member_ended::<G>(s, Mark::Plain);
        }
        self.push_byte(b')')?;
        self.member_ended::<G>(s, mark)
    }

    /// Writes the qualifiers of a member function, after which the symbol ends.
    fn member_ended<G: Grammar>(&mut self, s: &[u8], mark: Mark) -> Option<Step>
        requires { IsMemberRead (symbol_by G.IS_WIDE G.IS_BARE G.IS_BRIEF s.now) self.old mark }
        ensures { IfSome result (IsWriting (symbol_by G.IS_WIDE G.IS_BARE G.IS_BRIEF s.now) self.new) }
    {
        self.push_mark(mark)?;
        self.finish::<G>(s)
    }
}
