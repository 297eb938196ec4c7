// Arguments that are members of instances of templates, by names that aren't looked up.

ghost use Rattle.std.specs.Prelude.{◌≡◌, ◌∷◌, [], true};
ghost use Rattle.std.specs.Option.{IfSome};
ghost use Rattle.cpp_direct.specs.Names.{IsReadable};
ghost use Rattle.cpp_direct.specs.Holes.{StandsAt};
ghost use Rattle.cpp_direct.specs.WriterInvariant.{IsWriting};
ghost use Rattle.cpp_direct.specs.MidStep.{AwaitsNextArgument, AwaitsMember};
ghost use Rattle.cpp_direct.specs.Symbol.{symbol_by};

use crate::direct::Direct;
use crate::grammar::Grammar;
use crate::open::{Open, Step};
use crate::tokens::byte_at;

impl Direct {
    /// Reads the name of a template that has a member as an argument, up to the first of the
    /// template's own arguments. Only the wide grammar has such arguments.
    // <template-arg> ::= X <expression> E
    // <unresolved-name> ::= sr <unresolved-qualifier-level>+ E <base-unresolved-name>
    // <unresolved-qualifier-level> ::= <source-name> <template-args>
    #[inline(never)]
    pub(crate) fn begin_level<G: Grammar>(&mut self, s: &[u8]) -> Option<Step>
        requires fits { IsReadable s.now }
        requires wide { G.IS_WIDE ≡ true }
        requires letter { StandsAt s.now self.old.at (88 ∷ []) }
        requires awaits { AwaitsNextArgument (symbol_by G.IS_WIDE G.IS_BARE G.IS_BRIEF s.now) self.old }
        ensures { IfSome result (IsWriting (symbol_by G.IS_WIDE G.IS_BARE G.IS_BRIEF s.now) self.new) }
    {
        self.at = self.at.checked_add(1)?;
        if byte_at(s, self.at) != b's' {
            return None;
        }
        self.at = self.at.checked_add(1)?;
        if byte_at(s, self.at) != b'r' {
            return None;
        }
        self.at = self.at.checked_add(1)?;
        self.name(s)?;
        if byte_at(s, self.at) != b'I' {
            return None;
        }
        self.open_arguments::<G>(Open::LevelArguments {
            is_dependent: false,
        })
    }

    /// Reads the name of a template's member, once the template's arguments are read.
    // <base-unresolved-name> ::= <source-name>
    #[inline(never)]
    pub(crate) fn level_ended<G: Grammar>(&mut self, s: &[u8], is_dependent: bool) -> Option<Step>
        requires fits { IsReadable s.now }
        requires awaits { AwaitsMember (symbol_by G.IS_WIDE G.IS_BARE G.IS_BRIEF s.now) self.old is_dependent }
        ensures { IfSome result (IsWriting (symbol_by G.IS_WIDE G.IS_BARE G.IS_BRIEF s.now) self.new) }
    {
        if byte_at(s, self.at) != b'E' {
            return None;
        }
        self.at = self.at.checked_add(1)?;
        self.push_pair(b':', b':')?;
        self.name(s)?;
        if byte_at(s, self.at) != b'E' {
            return None;
        }
        self.at = self.at.checked_add(1)?;
        Some(Step::Value {
            is_reference: false,
            is_dependent,
        })
    }
}
