// Addresses of functions, which are arguments of a name.

ghost use Rattle.std.specs.Prelude.{◌≡◌, true, codes};
ghost use Rattle.std.specs.Option.{IfSome};
ghost use Rattle.cpp_direct.specs.Names.{IsReadable};
ghost use Rattle.cpp_direct.specs.declared.open.Mark.TheVariants as marks;
ghost use Rattle.cpp_direct.specs.Holes.{StandsAt};
ghost use Rattle.cpp_direct.specs.WriterInvariant.{IsWriting};
ghost use Rattle.cpp_direct.specs.MidStepOfAddresses.{AwaitsAddressedParameters, AwaitsArgumentOfName, IsAddressNamed, IsAddressedFrontRead, IsAddressedParameterRead, IsAddressedRead};
ghost use Rattle.cpp_direct.specs.Symbol.{symbol_by};

use crate::direct::Direct;
use crate::enclosing::LONGEST_GONE_OVER;
use crate::grammar::Grammar;
use crate::marks::mark_at;
use crate::open::{Arguments, Mark, Open, Purpose, Step};
use crate::tokens::byte_at;

/// The bytes before the parts of a function's nested name, in the address of the function.
// <template-arg> ::= X ad L _Z N
const ADDRESS: &[u8] = b"XadL_ZN";

/// Whether the address of a function that has a nested name begins at a place.
fn is_address_at(s: &[u8], at: usize) -> bool
    ensures { result ≡ true → StandsAt s.now at (codes "XadL_ZN") }
{
    match s.get(at..) {
        Some(bytes) => bytes.starts_with(ADDRESS),
        None => false,
    }
}

impl Direct {
    /// Reads an argument of a name up to the first type in it, once the entry that accepts a type
    /// is open. In the wide grammar the argument may be the address of a function.
    // <template-arg> ::= <type> | X <expression> E
    #[inline(always)]
    pub(crate) fn argument_at<G: Grammar>(&mut self, s: &[u8]) -> Option<Step>
        requires fits { IsReadable s.now }
        requires awaits { AwaitsArgumentOfName (symbol_by G.IS_WIDE G.IS_BARE G.IS_BRIEF s.now) self.old }
        ensures { IfSome result (IsWriting (symbol_by G.IS_WIDE G.IS_BARE G.IS_BRIEF s.now) self.new) }
    {
        if G::IS_WIDE && byte_at(s, self.at) == b'X' {
            return self.begin_address::<G>(s);
        }
        Some(Step::Type)
    }

    /// Reads the first bytes of the address of a function, up to the function's name. A long symbol
    /// is given up, since all candidates are visited where the function's return type ends, and
    /// where the function ends.
    // <expression> ::= ad L <mangled-name> E
    #[inline(never)]
    fn begin_address<G: Grammar>(&mut self, s: &[u8]) -> Option<Step>
        requires fits { IsReadable s.now }
        requires awaits { AwaitsArgumentOfName (symbol_by G.IS_WIDE G.IS_BARE G.IS_BRIEF s.now) self.old }
        ensures { IfSome result (IsWriting (symbol_by G.IS_WIDE G.IS_BARE G.IS_BRIEF s.now) self.new) }
    {
        if s.len() > LONGEST_GONE_OVER {
            return None;
        }
        if !is_address_at(s, self.at) {
            return None;
        }
        let encoding = self.at.checked_add(6)?;
        self.push_byte(b'&')?;
        self.waiting.push(Open::Address {
            encoding: encoding as u16,
        })?;
        let place = mark_at(s, encoding.checked_add(1)?)?;
        self.at = place.end;
        self.nest_at::<G>(s, Purpose::Address { mark: place.mark })
    }

    /// The name of a function whose address is an argument is read. The function's return type or
    /// its parameters follow, and their types may name the function's own arguments.
    // <encoding> ::= <function name> <bare-function-type>
    #[inline(never)]
    pub(crate) fn addressed_named<G: Grammar>(&mut self, s: &[u8], mark: Mark) -> Option<Step>
        requires fits { IsReadable s.now }
        requires named { IsAddressNamed (symbol_by G.IS_WIDE G.IS_BARE G.IS_BRIEF s.now) self.old mark }
        ensures { IfSome result (IsWriting (symbol_by G.IS_WIDE G.IS_BARE G.IS_BRIEF s.now) self.new) }
    {
        let Open::Address { encoding } = self.waiting.pop()? else {
            return None;
        };
        // the address of data, or of a function among the types of another function
        if self.has_scope || byte_at(s, self.at) == b'E' {
            return None;
        }
        self.has_scope = true;
        let to = self.text.end();
        let argument = Arguments {
            encoding,
            ..self.noted()
        };
        if !self.is_function_instance() {
            return self.addressed_parameters::<G>(s, mark, to, argument);
        }
        self.waiting
            .push(Open::AddressedFront { mark, to, argument })?;
        Some(Step::Type)
    }

    /// The return type of a function whose address is an argument is read and not shown: the
    /// function's parameters follow.
    // <bare-function-type> ::= <return type> <parameter type>+
    pub(crate) fn addressed_front<G: Grammar>(
        &mut self,
        s: &[u8],
        mark: Mark,
        to: u32,
        argument: Arguments,
    ) -> Option<Step>
        requires fits { IsReadable s.now }
        requires read { IsAddressedFrontRead (symbol_by G.IS_WIDE G.IS_BARE G.IS_BRIEF s.now) self.old mark to argument }
        ensures { IfSome result (IsWriting (symbol_by G.IS_WIDE G.IS_BARE G.IS_BRIEF s.now) self.new) }
    {
        let _open = self.waiting.pop();
        self.leave_out(to)?;
        self.addressed_parameters::<G>(s, mark, to, argument)
    }

    /// Reads the parameters of a function whose address is an argument, up to the first type in
    /// them.
    // <bare-function-type> ::= <parameter type>+ | v
    fn addressed_parameters<G: Grammar>(
        &mut self,
        s: &[u8],
        mark: Mark,
        to: u32,
        argument: Arguments,
    ) -> Option<Step>
        requires fits { IsReadable s.now }
        requires awaits { AwaitsAddressedParameters (symbol_by G.IS_WIDE G.IS_BARE G.IS_BRIEF s.now) self.old mark to argument }
        ensures { IfSome result (IsWriting (symbol_by G.IS_WIDE G.IS_BARE G.IS_BRIEF s.now) self.new) }
    {
        let behind = byte_at(s, self.at.checked_add(1)?);
        if byte_at(s, self.at) == b'v' && behind == b'E' {
            self.at = self.at.checked_add(1)?;
            if G::IS_BARE {
                return self.addressed::<G>(s);
            }
            self.push_pair(b'(', b')')?;
            return self.addressed_marked::<G>(s, mark);
        }
        self.push_byte(b'(')?;
        self.waiting.push(Open::Addressed { mark, to, argument })?;
        Some(Step::Type)
    }

    /// A parameter of a function whose address is an argument is read: another one follows, or the
    /// function's end. Where only the names of functions are shown, what follows the name is
    /// removed.
    // <bare-function-type> ::= <parameter type>+
    pub(crate) fn addressed_parameter<G: Grammar>(
        &mut self,
        s: &[u8],
        mark: Mark,
        to: u32,
    ) -> Option<Step>
        requires fits { IsReadable s.now }
        requires read { IsAddressedParameterRead (symbol_by G.IS_WIDE G.IS_BARE G.IS_BRIEF s.now) self.old mark to }
        ensures { IfSome result (IsWriting (symbol_by G.IS_WIDE G.IS_BARE G.IS_BRIEF s.now) self.new) }
    {
        if byte_at(s, self.at) != b'E' {
            self.push_pair(b',', b' ')?;
            return Some(Step::Type);
        }
        // a lone void is no parameter
        if self.text.as_slice().ends_with(b"(void") {
            return None;
        }
        let _open = self.waiting.pop();
        if G::IS_BARE {
            self.leave_out(to)?;
            return self.addressed::<G>(s);
        }
        self.push_byte(b')')?;
        self.addressed_marked::<G>(s, mark)
    }

    /// Writes the qualifiers of a function whose address is an argument.
    fn addressed_marked<G: Grammar>(&mut self, s: &[u8], mark: Mark) -> Option<Step>
        requires read { IsAddressedRead (symbol_by G.IS_WIDE G.IS_BARE G.IS_BRIEF s.now) self.old mark }
        ensures { IfSome result (IsWriting (symbol_by G.IS_WIDE G.IS_BARE G.IS_BRIEF s.now) self.new) }
    {
        self.push_mark(mark)?;
        self.addressed::<G>(s)
    }

    /// Reads the E after a function whose address is an argument of a name, and the E after the
    /// address. The function's own arguments can't be named any more.
    // <template-arg> ::= X ad L <mangled-name> E E
    fn addressed<G: Grammar>(&mut self, s: &[u8]) -> Option<Step>
        requires read { IsAddressedRead (symbol_by G.IS_WIDE G.IS_BARE G.IS_BRIEF s.now) self.old marks.Plain }
        ensures { IfSome result (IsWriting (symbol_by G.IS_WIDE G.IS_BARE G.IS_BRIEF s.now) self.new) }
    {
        let behind = self.at.checked_add(1)?;
        if byte_at(s, self.at) != b'E' || byte_at(s, behind) != b'E' {
            return None;
        }
        self.at = behind.checked_add(1)?;
        self.end_scope();
        Some(Step::Value {
            is_reference: false,
            is_dependent: false,
        })
    }
}
