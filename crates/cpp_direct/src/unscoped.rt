// Names of encodings that are in no class, and operators.

ghost use Rattle.std.specs.Prelude.{◌≡◌, ◌∷◌, [], ℕ, true, false};
ghost use Rattle.std.specs.Option.{IfSome};
ghost use Rattle.cpp_direct.specs.Holes.{StandsAt};
ghost use Rattle.cpp_direct.specs.Names.{IsOperatorAt, is_angle, operator_text, IsReadable};
ghost use Rattle.cpp_direct.specs.WriterInvariant.{IsWriting};
ghost use Rattle.cpp_direct.specs.MidStep.{AwaitsEncoding, AwaitsSource, IsUnscoped};
ghost use Rattle.cpp_direct.specs.Written.{Reads};
ghost use Rattle.cpp_direct.specs.Symbol.{symbol_by};

use crate::direct::Direct;
use crate::grammar::Grammar;
use crate::open::{Mark, Open, Step};
use crate::symbols::NOWHERE;
use crate::tokens::byte_at;

impl Direct {
    /// A source name, after the L of internal linkage or without one.
    // <unscoped-name> ::= <source-name>
    pub(crate) fn begin_name<G: Grammar>(&mut self, s: &[u8], is_internal: bool) -> Option<Step>
        requires fits { IsReadable s.now }
        requires awaits { AwaitsSource (symbol_by G.IS_WIDE G.IS_BARE G.IS_BRIEF s.now) self.old is_internal }
        ensures { IfSome result (IsWriting (symbol_by G.IS_WIDE G.IS_BARE G.IS_BRIEF s.now) self.new) }
    {
        let from = self.text.end();
        self.name(s)?;
        self.unscoped_named::<G>(s, from, true)
    }

    /// An operator that belongs to no class.
    // <unscoped-name> ::= <operator-name>
    #[inline(never)]
    pub(crate) fn begin_operator<G: Grammar>(&mut self, s: &[u8]) -> Option<Step>
        requires fits { IsReadable s.now }
        requires awaits { AwaitsEncoding (symbol_by G.IS_WIDE G.IS_BARE G.IS_BRIEF s.now) self.old }
        ensures { IfSome result (IsWriting (symbol_by G.IS_WIDE G.IS_BARE G.IS_BRIEF s.now) self.new) }
    {
        let from = self.text.end();
        let takes = self.operator_name(s)?;
        self.unscoped_named::<G>(s, from, takes)
    }

    /// A name or an operator in std.
    // <unscoped-name> ::= St <unqualified-name>
    #[inline(never)]
    pub(crate) fn begin_in_std<G: Grammar>(&mut self, s: &[u8]) -> Option<Step>
        requires fits { IsReadable s.now }
        requires awaits { AwaitsEncoding (symbol_by G.IS_WIDE G.IS_BARE G.IS_BRIEF s.now) self.old }
        requires letter { StandsAt s.now self.old.at (83 ∷ []) }
        ensures { IfSome result (IsWriting (symbol_by G.IS_WIDE G.IS_BARE G.IS_BRIEF s.now) self.new) }
    {
        let from = self.text.end();
        self.at = self.at.checked_add(1)?;
        if byte_at(s, self.at) != b't' {
            return None;
        }
        self.at = self.at.checked_add(1)?;
        self.push(b"std::")?;
        if let b'a'..=b'z' = byte_at(s, self.at) {
            let takes = self.operator_name(s)?;
            return self.unscoped_named::<G>(s, from, takes);
        }
        self.name(s)?;
        self.unscoped_named::<G>(s, from, true)
    }

    /// The name of an encoding is read, and written from a place on. If the name accepts arguments,
    /// they may follow it; in the wide grammar a tag may precede them.
    // <unqualified-name> ::= <unqualified-name> <abi-tags>
    fn unscoped_named<G: Grammar>(&mut self, s: &[u8], from: u32, takes: bool) -> Option<Step>
        requires fits { IsReadable s.now }
        requires named { IsUnscoped (symbol_by G.IS_WIDE G.IS_BARE G.IS_BRIEF s.now) self.old from takes }
        ensures { IfSome result (IsWriting (symbol_by G.IS_WIDE G.IS_BARE G.IS_BRIEF s.now) self.new) }
    {
        if G::IS_WIDE && byte_at(s, self.at) == b'B' {
            self.tag(s)?;
            return self.unscoped_tagged::<G>(s, from, takes);
        }
        self.unscoped_tagged::<G>(s, from, takes)
    }

    /// The name of an encoding is read, with its tag.
    // <encoding> ::= <unscoped-template-name> <template-args> <bare-function-type>
    #[inline(always)]
    fn unscoped_tagged<G: Grammar>(&mut self, s: &[u8], from: u32, takes: bool) -> Option<Step>
        requires fits { IsReadable s.now }
        requires named { IsUnscoped (symbol_by G.IS_WIDE G.IS_BARE G.IS_BRIEF s.now) self.old from takes }
        ensures { IfSome result (IsWriting (symbol_by G.IS_WIDE G.IS_BARE G.IS_BRIEF s.now) self.new) }
    {
        if byte_at(s, self.at) != b'I' {
            return self.name_ended::<G>(s, Mark::Plain, false, NOWHERE, from);
        }
        if !takes {
            return None;
        }
        self.add_candidate(from, false, false)?;
        self.open_arguments::<G>(Open::NameArguments { from })
    }

    /// Reads an operator, and answers whether arguments may follow it: none are read after << or <,
    /// where a blank precedes arguments.
    // <operator-name> ::= nw | na | dl | da | ps | ng | ..
    #[inline(never)]
    pub(crate) fn operator_name(&mut self, s: &[u8]) -> Option<bool>
        ensures { IfSome result (λ takes. (first : ℕ) × (second : ℕ) × IsOperatorAt s.now self.old.at first second self.new.at
            × (takes ≡ true → is_angle first second ≡ false) × Reads self.old self.new (operator_text first second)) }
    {
        let first = byte_at(s, self.at);
        self.at = self.at.checked_add(1)?;
        let second = byte_at(s, self.at);
        let text = cpp_layout::operator_text(first, second);
        let size = text.len();
        if size == b"operator".len() {
            return None;
        }
        self.at = self.at.checked_add(1)?;
        self.push(text)?;
        Some(!cpp_layout::is_angle_code(first, second))
    }
}
