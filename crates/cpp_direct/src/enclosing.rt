// Types that are in the body of a function.

ghost use Rattle.std.specs.Prelude.{◌≡◌, ◌+◌, ◌∷◌, [], ℕ, List, true, false};
ghost use Rattle.std.specs.Option.{OnSome, IfSome};
ghost use Rattle.cpp_grammar.specs.Term.{Term};
ghost use Rattle.cpp_direct.specs.Names.{IsReadable};
ghost use Rattle.cpp_direct.specs.declared.open.Mark.TheVariants as marks;
ghost use Rattle.cpp_direct.specs.Holes.{StandsAt};
ghost use Rattle.cpp_direct.specs.HolesOfLocals.{IsPieceAt};
ghost use Rattle.cpp_direct.specs.Prints.{PrintsPiece};
ghost use Rattle.cpp_direct.specs.WriterInvariant.{IsScopedWithin, IsWriting, TypeWithin, below, no_scope};
ghost use Rattle.cpp_direct.specs.MidStep.{AwaitsNamedType};
ghost use Rattle.cpp_direct.specs.MidStepOfLocals.{AwaitsEnclosingParameters, AwaitsLedParameters, AwaitsTypeName, IsBuiltinAt, IsEnclosingFrontRead, IsEnclosingNamed, IsEnclosingParameterRead, IsEnclosingRead, IsInstanceNamed, IsInstanceParameterRead};
ghost use Rattle.cpp_direct.specs.Written.{Reads};
ghost use Rattle.cpp_direct.specs.Symbol.{detail_by, symbol_by};

use crate::direct::Direct;
use crate::grammar::Grammar;
use crate::letters::is_builtin_with_d;
use crate::marks::mark_at;
use crate::open::{Arguments, Mark, Open, Purpose, Step};
use crate::tokens::byte_at;

/// The longest symbol, in bytes, that is scanned once more or has its candidates visited. A lambda
/// with parameters causes the scan; parameters that aren't shown and the address of a function
/// cause the visits.
pub(crate) const LONGEST_GONE_OVER: usize = 1_024;

/// The place after the builtin type at a place.
// <builtin-type> ::= v | w | b | .. | Di | Ds | Du | Da | Dc | Dn
fn builtin_end(s: &[u8], at: usize) -> Option<usize>
    ensures { IfSome result (IsBuiltinAt s.now at) }
{
    let letter = byte_at(s, at);
    let behind = at.checked_add(1)?;
    if letter == b'D' {
        let second = byte_at(s, behind);
        if !is_builtin_with_d(second) {
            return None;
        }
        let end = behind.checked_add(1)?;
        return Some(end);
    }
    if cpp_layout::builtin_text(letter).is_empty() {
        return None;
    }
    Some(behind)
}

impl Direct {
    /// Reads the first bytes of a type in a function, up to the first type in that function's name.
    // <local-name> ::= Z <function encoding> E <entity name> [<discriminator>]
    #[inline(never)]
    pub(crate) fn begin_enclosing<G: Grammar>(&mut self, s: &[u8]) -> Option<Step>
        requires fits { IsReadable s.now }
        requires letter { StandsAt s.now self.old.at (90 ∷ []) }
        requires awaits { AwaitsNamedType (symbol_by G.IS_WIDE G.IS_BARE G.IS_BRIEF s.now) self.old }
        ensures { IfSome result (IsWriting (symbol_by G.IS_WIDE G.IS_BARE G.IS_BRIEF s.now) self.new) }
    {
        self.at = self.at.checked_add(1)?;
        if byte_at(s, self.at) != b'N' {
            let from = self.text.end();
            self.name(s)?;
            return self.enclosing_named::<G>(s, Mark::Plain, from);
        }
        let encoding = self.at;
        // no place is greater in a symbol that is read the short way
        if encoding > u16::MAX as usize {
            return None;
        }
        let place = mark_at(s, encoding.checked_add(1)?)?;
        self.at = place.end;
        let purpose = Purpose::Enclosing {
            mark: place.mark,
            encoding: encoding as u16,
        };
        self.nest_at::<G>(s, purpose)
    }

    /// The name of a function that contains a type is read: the function's parameters or the type
    /// follow.
    // <encoding> ::= <function name> <bare-function-type> | <data name>
    pub(crate) fn enclosing_named<G: Grammar>(
        &mut self,
        s: &[u8],
        mark: Mark,
        from: u32,
    ) -> Option<Step>
        requires fits { IsReadable s.now }
        requires named { IsEnclosingNamed (symbol_by G.IS_WIDE G.IS_BARE G.IS_BRIEF s.now) self.old mark false from }
        ensures { IfSome result (IsWriting (symbol_by G.IS_WIDE G.IS_BARE G.IS_BRIEF s.now) self.new) }
    {
        if byte_at(s, self.at) == b'E' {
            return self.enclosing_ended::<G>(s, mark, from);
        }
        self.enclosing_parameters::<G>(s, mark, from)
    }

    /// The name of an instance of a function template that contains a type is read. The instance's
    /// return type follows, and is not written. The types of the instance's parameters may name the
    /// instance's own arguments, unless the symbol is long or the instance is among the types of
    /// another function: candidates are visited where the instance ends.
    // <bare-function-type> ::= <return type> <parameter type>+
    pub(crate) fn enclosing_instance<G: Grammar>(
        &mut self,
        s: &[u8],
        mark: Mark,
        encoding: u16,
        from: u32,
    ) -> Option<Step>
        requires fits { IsReadable s.now }
        requires named { IsInstanceNamed (symbol_by G.IS_WIDE G.IS_BARE G.IS_BRIEF s.now) self.old mark encoding from }
        ensures { IfSome result (IsWriting (symbol_by G.IS_WIDE G.IS_BARE G.IS_BRIEF s.now) self.new) }
    {
        let Some(behind) = builtin_end(s, self.at) else {
            if self.has_scope || s.len() > LONGEST_GONE_OVER {
                return None;
            }
            return self.instance_front::<G>(s, mark, encoding, from);
        };
        if self.has_scope || s.len() > LONGEST_GONE_OVER || byte_at(s, behind) == b'v' {
            self.at = behind;
            return self.enclosing_parameters::<G>(s, mark, from);
        }
        self.instance_parameters::<G>(s, mark, encoding, from, behind)
    }

    /// Reads the return type of an instance that contains a type, if it is a builtin type.
    // <bare-function-type> ::= <return type> <parameter type>+
    fn instance_parameters<G: Grammar>(
        &mut self,
        s: &[u8],
        mark: Mark,
        encoding: u16,
        from: u32,
        behind: usize,
    ) -> Option<Step>
        requires named { IsInstanceNamed (symbol_by G.IS_WIDE G.IS_BARE G.IS_BRIEF s.now) self.old mark encoding from }
        requires outside { self.old.has_scope ≡ false }
        requires returned { IsBuiltinAt s.now self.old.at behind }
        ensures { IfSome result (IsWriting (symbol_by G.IS_WIDE G.IS_BARE G.IS_BRIEF s.now) self.new) }
    {
        self.at = behind;
        self.has_scope = true;
        let to = self.text.end();
        let argument = Arguments {
            encoding,
            ..self.argument
        };
        self.instance_opened::<G>(s, mark, from, to, argument)
    }

    /// Expects the return type of an instance that contains a type, if it isn't a builtin type.
    // <bare-function-type> ::= <return type> <parameter type>+
    fn instance_front<G: Grammar>(
        &mut self,
        _s: &[u8],
        mark: Mark,
        encoding: u16,
        from: u32,
    ) -> Option<Step>
        requires named { IsInstanceNamed (symbol_by G.IS_WIDE G.IS_BARE G.IS_BRIEF _s.now) self.old mark encoding from }
        requires outside { self.old.has_scope ≡ false }
        ensures { IfSome result (IsWriting (symbol_by G.IS_WIDE G.IS_BARE G.IS_BRIEF _s.now) self.new) }
    {
        self.has_scope = true;
        let to = self.text.end();
        let argument = Arguments {
            encoding,
            ..self.argument
        };
        self.waiting.push(Open::EnclosingFront {
            mark,
            from,
            to,
            argument,
        })?;
        Some(Step::Type)
    }

    /// The return type of an instance that contains a type is read and not shown: the instance's
    /// parameters follow.
    // <bare-function-type> ::= <return type> <parameter type>+
    pub(crate) fn enclosing_front<G: Grammar>(
        &mut self,
        s: &[u8],
        mark: Mark,
        from: u32,
        to: u32,
        argument: Arguments,
    ) -> Option<Step>
        requires fits { IsReadable s.now }
        requires read { IsEnclosingFrontRead (symbol_by G.IS_WIDE G.IS_BARE G.IS_BRIEF s.now) self.old mark from to argument }
        ensures { IfSome result (IsWriting (symbol_by G.IS_WIDE G.IS_BARE G.IS_BRIEF s.now) self.new) }
    {
        let _open = self.waiting.pop();
        self.leave_out(to)?;
        self.instance_opened::<G>(s, mark, from, to, argument)
    }

    /// Reads the parameters of an instance that contains a type, up to the first type in them.
    // <bare-function-type> ::= <parameter type>+
    #[inline(always)]
    fn instance_opened<G: Grammar>(
        &mut self,
        _s: &[u8],
        mark: Mark,
        from: u32,
        to: u32,
        argument: Arguments,
    ) -> Option<Step>
        requires awaits { AwaitsLedParameters (symbol_by G.IS_WIDE G.IS_BARE G.IS_BRIEF _s.now) self.old 6 mark argument
            (λ scope. IsScopedWithin (symbol_by G.IS_WIDE G.IS_BARE G.IS_BRIEF _s.now) scope from to argument)
            (λ scope waits. TypeWithin (symbol_by G.IS_WIDE G.IS_BARE G.IS_BRIEF _s.now) (below (symbol_by G.IS_WIDE G.IS_BARE G.IS_BRIEF _s.now) no_scope waits)) }
        ensures { IfSome result (IsWriting (symbol_by G.IS_WIDE G.IS_BARE G.IS_BRIEF _s.now) self.new) }
    {
        self.push_byte(b'(')?;
        self.waiting.push(Open::EnclosingInstance {
            mark,
            from,
            to,
            argument,
        })?;
        Some(Step::Type)
    }

    /// A parameter of an instance that contains a type is read: another one follows, or the
    /// contained type. Once all are read, the instance's own arguments can't be named any more.
    // <bare-function-type> ::= <parameter type>+
    pub(crate) fn instance_parameter<G: Grammar>(
        &mut self,
        s: &[u8],
        mark: Mark,
        from: u32,
        to: u32,
    ) -> Option<Step>
        requires fits { IsReadable s.now }
        requires read { IsInstanceParameterRead (symbol_by G.IS_WIDE G.IS_BARE G.IS_BRIEF s.now) self.old mark from to }
        ensures { IfSome result (IsWriting (symbol_by G.IS_WIDE G.IS_BARE G.IS_BRIEF s.now) self.new) }
    {
        if byte_at(s, self.at) != b'E' {
            self.push_pair(b',', b' ')?;
            return Some(Step::Type);
        }
        let _open = self.waiting.pop();
        self.waiting.push(Open::Enclosing { mark, from, to })?;
        self.end_scope();
        self.enclosing_parameter::<G>(s, mark, from, to)
    }

    /// Reads the parameters of a function that contains a type, up to the first type in them. If
    /// only the names of functions are shown, a symbol in which the function has parameters has to
    /// be short: where the parameters end, their text is removed, and so are the texts of
    /// candidates in it.
    // <bare-function-type> ::= <parameter type>+ | v
    fn enclosing_parameters<G: Grammar>(&mut self, s: &[u8], mark: Mark, from: u32) -> Option<Step>
        requires fits { IsReadable s.now }
        requires awaits { AwaitsEnclosingParameters (symbol_by G.IS_WIDE G.IS_BARE G.IS_BRIEF s.now) self.old mark from }
        ensures { IfSome result (IsWriting (symbol_by G.IS_WIDE G.IS_BARE G.IS_BRIEF s.now) self.new) }
    {
        let behind = byte_at(s, self.at.checked_add(1)?);
        if byte_at(s, self.at) == b'v' && behind == b'E' {
            self.at = self.at.checked_add(1)?;
            if G::IS_BARE {
                return self.enclosed::<G>(s, from);
            }
            self.push_pair(b'(', b')')?;
            return self.enclosing_ended::<G>(s, mark, from);
        }
        if G::IS_BARE && s.len() > LONGEST_GONE_OVER {
            return None;
        }
        let to = self.text.end();
        self.push_byte(b'(')?;
        self.waiting.push(Open::Enclosing { mark, from, to })?;
        Some(Step::Type)
    }

    /// A parameter of a function that contains a type is read: another one follows, or the
    /// contained type. If only the names of functions are shown, what follows the name is removed.
    // <bare-function-type> ::= <parameter type>+
    pub(crate) fn enclosing_parameter<G: Grammar>(
        &mut self,
        s: &[u8],
        mark: Mark,
        from: u32,
        to: u32,
    ) -> Option<Step>
        requires fits { IsReadable s.now }
        requires read { IsEnclosingParameterRead (symbol_by G.IS_WIDE G.IS_BARE G.IS_BRIEF s.now) self.old mark from to }
        ensures { IfSome result (IsWriting (symbol_by G.IS_WIDE G.IS_BARE G.IS_BRIEF s.now) self.new) }
    {
        if byte_at(s, self.at) != b'E' {
            self.push_pair(b',', b' ')?;
            return Some(Step::Type);
        }
        // a lone void is no parameter
        if self.text.as_slice().ends_with(b"(void") {
            return None;
        }
        let _open = self.waiting.pop();
        if G::IS_BARE {
            // nothing is removed while types may name arguments: the arguments' texts stay where
            // they are
            if self.has_scope {
                return None;
            }
            self.leave_out(to)?;
            return self.enclosed::<G>(s, from);
        }
        self.push_byte(b')')?;
        self.enclosing_ended::<G>(s, mark, from)
    }

    /// Writes the qualifiers of a function that contains a type.
    fn enclosing_ended<G: Grammar>(&mut self, s: &[u8], mark: Mark, from: u32) -> Option<Step>
        requires fits { IsReadable s.now }
        requires read { IsEnclosingRead (symbol_by G.IS_WIDE G.IS_BARE G.IS_BRIEF s.now) self.old mark from }
        ensures { IfSome result (IsWriting (symbol_by G.IS_WIDE G.IS_BARE G.IS_BRIEF s.now) self.new) }
    {
        self.push_mark(mark)?;
        self.enclosed::<G>(s, from)
    }

    /// Reads the E after the function that contains a type.
    // <local-name> ::= Z <function encoding> E <entity name> [<discriminator>]
    fn enclosed<G: Grammar>(&mut self, s: &[u8], from: u32) -> Option<Step>
        requires fits { IsReadable s.now }
        requires read { IsEnclosingRead (symbol_by G.IS_WIDE G.IS_BARE G.IS_BRIEF s.now) self.old marks.Plain from }
        ensures { IfSome result (IsWriting (symbol_by G.IS_WIDE G.IS_BARE G.IS_BRIEF s.now) self.new) }
    {
        if byte_at(s, self.at) != b'E' {
            return None;
        }
        self.at = self.at.checked_add(1)?;
        if byte_at(s, self.at) != b'U' {
            return self.enclosed_named::<G>(s, from);
        }
        let behind = byte_at(s, self.at.checked_add(2)?);
        if behind == b'v' {
            return self.enclosed_named::<G>(s, from);
        }
        self.begin_lambda::<G>(s, from)
    }

    /// Reads the name of a type that is in a function.
    // <local-name> ::= Z <function encoding> E <entity name> [<discriminator>]
    fn enclosed_named<G: Grammar>(&mut self, s: &[u8], from: u32) -> Option<Step>
        requires fits { IsReadable s.now }
        requires awaits { AwaitsTypeName (symbol_by G.IS_WIDE G.IS_BARE G.IS_BRIEF s.now) self.old from }
        ensures { IfSome result (IsWriting (symbol_by G.IS_WIDE G.IS_BARE G.IS_BRIEF s.now) self.new) }
    {
        self.push_pair(b':', b':')?;
        self.enclosed_piece::<G>(s)?;
        self.discriminator(s)?;
        self.add_candidate(from, false, false)?;
        Some(Step::Value {
            is_reference: false,
            is_dependent: false,
        })
    }

    // <unqualified-name> ::= <source-name> | <unnamed-type-name>
    #[inline(always)]
    pub(crate) fn enclosed_piece<G: Grammar>(&mut self, s: &[u8]) -> Option<()>
        requires { IsReadable s.now }
        ensures { OnSome result ((p : Term) × (n : List ℕ) × IsPieceAt (symbol_by G.IS_WIDE G.IS_BARE G.IS_BRIEF s.now) self.old.at p self.new.at × PrintsPiece (detail_by G.IS_BARE G.IS_BRIEF) p n × Reads self.old self.new n) }
    {
        if byte_at(s, self.at) == b'U' {
            return self.lambda::<G>(s);
        }
        self.name(s)
    }
}
