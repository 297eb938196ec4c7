// Function types, and pointers to them, as elements of lists, as parameters and in special names.

ghost use Rattle.std.specs.Prelude.{◌≡◌, ◌∷◌, [], reverse, true, if◌then◌else◌};
ghost use Rattle.std.specs.Option.{IfSome};
ghost use Rattle.cpp_direct.specs.Names.{IsReadable};
ghost use Rattle.cpp_direct.specs.declared.open.Step.TheVariants as steps;
ghost use Rattle.cpp_direct.specs.Holes.{StandsAt};
ghost use Rattle.cpp_direct.specs.WriterInvariant.{IsWriting, TakesFunction};
ghost use Rattle.cpp_direct.specs.MidStep.{AwaitsParameter, AwaitsSignature, IsElementPassed, IsFunctionRead, IsReturned};
ghost use Rattle.cpp_direct.specs.Symbol.{symbol_by};

use crate::direct::Direct;
use crate::grammar::Grammar;
use crate::open::{Open, Step};
use crate::tokens::byte_at;

impl Direct {
    /// Whether the innermost entry accepts a type that prints on both sides of a name: whether it
    /// waits for an element, for a parameter, or for the type that a special object belongs to.
    pub(crate) fn takes_element(&self) -> bool
        ensures { result ≡ true → TakesFunction (reverse self.now.waiting.list.items) }
    {
        match self.waiting.as_slice().last() {
            Some(Open::TypeArguments { .. }) => true,
            Some(Open::NestArguments { .. }) => true,
            Some(Open::FirstArguments { .. }) => true,
            Some(Open::NameArguments { .. }) => true,
            Some(Open::LevelArguments { .. }) => true,
            Some(Open::Pack) => true,
            Some(Open::Element { .. }) => true,
            Some(Open::Parameters { .. }) => true,
            Some(Open::Enclosing { .. }) => true,
            Some(Open::EnclosingInstance { .. }) => true,
            Some(Open::Special) => true,
            _ => false,
        }
    }

    /// Begins a function type, or a pointer to one, as an element, as a parameter, or as the type
    /// that a special object belongs to.
    // <function-type> ::= F <bare-function-type> E
    #[inline(never)]
    pub(crate) fn begin_function<G: Grammar>(&mut self, s: &[u8], is_pointer: bool) -> Option<Step>
        requires fits { IsReadable s.now }
        requires letters { StandsAt s.now self.old.at (if is_pointer then 80 ∷ 70 ∷ [] else 70 ∷ []) }
        requires writing { IsWriting (symbol_by G.IS_WIDE G.IS_BARE G.IS_BRIEF s.now) self.old steps.Type }
        ensures { IfSome result (IsWriting (symbol_by G.IS_WIDE G.IS_BARE G.IS_BRIEF s.now) self.new) }
    {
        if !self.takes_element() {
            return None;
        }
        self.at = self.at.checked_add(if is_pointer { 2 } else { 1 })?;
        self.waiting.push(Open::Returned { is_pointer })?;
        Some(Step::Type)
    }

    /// The return type of a function type is read: the parameters follow.
    // <bare-function-type> ::= <return type> <parameter type>+
    pub(crate) fn returned<G: Grammar>(&mut self, s: &[u8], is_pointer: bool) -> Option<Step>
        requires fits { IsReadable s.now }
        requires returned { IsReturned (symbol_by G.IS_WIDE G.IS_BARE G.IS_BRIEF s.now) self.old is_pointer }
        ensures { IfSome result (IsWriting (symbol_by G.IS_WIDE G.IS_BARE G.IS_BRIEF s.now) self.new) }
    {
        let _open = self.waiting.pop();
        self.push(if is_pointer { b" (*)(" } else { b" (" })?;
        self.waiting.push(Open::Signature { is_pointer })?;
        self.first_parameter::<G>(s, is_pointer)
    }

    /// Reads the first parameter of a function type, unless it is a lone void, which is no parameter.
    // <bare-function-type> ::= <return type> v
    fn first_parameter<G: Grammar>(&mut self, s: &[u8], is_pointer: bool) -> Option<Step>
        requires fits { IsReadable s.now }
        requires awaits { AwaitsSignature (symbol_by G.IS_WIDE G.IS_BARE G.IS_BRIEF s.now) self.old is_pointer true }
        ensures { IfSome result (IsWriting (symbol_by G.IS_WIDE G.IS_BARE G.IS_BRIEF s.now) self.new) }
    {
        let behind = byte_at(s, self.at.checked_add(1)?);
        if byte_at(s, self.at) == b'v' && behind == b'E' {
            self.at = self.at.checked_add(2)?;
            return self.function_ended::<G>(s, is_pointer);
        }
        self.parameter_at::<G>(s, is_pointer, true)
    }

    /// Reads a parameter of a function type up to the first type in it, or the end of the function type.
    // <bare-function-type> ::= <return type> <parameter type>+
    pub(crate) fn parameter_at<G: Grammar>(
        &mut self,
        s: &[u8],
        is_pointer: bool,
        is_first: bool,
    ) -> Option<Step>
        requires fits { IsReadable s.now }
        requires awaits { AwaitsSignature (symbol_by G.IS_WIDE G.IS_BARE G.IS_BRIEF s.now) self.old is_pointer is_first }
        ensures { IfSome result (IsWriting (symbol_by G.IS_WIDE G.IS_BARE G.IS_BRIEF s.now) self.new) }
    {
        if byte_at(s, self.at) == b'E' {
            // a lone void is no parameter
            if self.text.as_slice().ends_with(b"(void") {
                return None;
            }
            self.at = self.at.checked_add(1)?;
            return self.function_ended::<G>(s, is_pointer);
        }
        if !is_first {
            self.push_pair(b',', b' ')?;
        }
        self.parameter::<G>(s, is_pointer)
    }

    /// Reads a parameter of a function type up to the first type in it.
    // <type> ::= R <type> | O <type>
    fn parameter<G: Grammar>(&mut self, s: &[u8], _is_pointer: bool) -> Option<Step>
        requires { AwaitsParameter (symbol_by G.IS_WIDE G.IS_BARE G.IS_BRIEF s.now) self.old _is_pointer }
        ensures { IfSome result (IsWriting (symbol_by G.IS_WIDE G.IS_BARE G.IS_BRIEF s.now) self.new) }
    {
        let from = self.text.end();
        let byte = byte_at(s, self.at);
        if byte == b'R' {
            return self.open_type(Open::Lvalue { from }, Step::Type);
        }
        if byte == b'O' {
            return self.open_type(Open::Rvalue { from }, Step::Type);
        }
        if byte == 0 {
            return None;
        }
        Some(Step::Type)
    }

    /// Writes the end of a function type, and forwards it.
    // <function-type> ::= F <bare-function-type> E
    fn function_ended<G: Grammar>(&mut self, s: &[u8], is_pointer: bool) -> Option<Step>
        requires fits { IsReadable s.now }
        requires ended { IsFunctionRead (symbol_by G.IS_WIDE G.IS_BARE G.IS_BRIEF s.now) self.old is_pointer }
        ensures { IfSome result (IsWriting (symbol_by G.IS_WIDE G.IS_BARE G.IS_BRIEF s.now) self.new) }
    {
        self.push_byte(b')')?;
        self.add_hidden(is_pointer)?;
        let _open = self.waiting.pop();
        self.pass_element::<G>(s, false)
    }

    /// Forwards a type that prints on both sides of a name to the entry that accepts it. A
    /// reference that is an element of a pack becomes known.
    pub(crate) fn pass_element<G: Grammar>(&mut self, s: &[u8], is_reference: bool) -> Option<Step>
        requires fits { IsReadable s.now }
        requires passed { IsElementPassed (symbol_by G.IS_WIDE G.IS_BARE G.IS_BRIEF s.now) self.old is_reference }
        ensures { IfSome result (IsWriting (symbol_by G.IS_WIDE G.IS_BARE G.IS_BRIEF s.now) self.new) }
    {
        match *self.waiting.as_slice().last()? {
            Open::Parameters {
                mark,
                start,
                argument,
            } => self.parameter_ended::<G>(s, mark, start, argument),
            Open::Enclosing { mark, from, to } => self.enclosing_parameter::<G>(s, mark, from, to),
            Open::EnclosingInstance { mark, from, to, .. } => self.instance_parameter::<G>(
                s, mark, from, to,
            ),
            Open::Special => self.finish::<G>(s),
            Open::Element {
                from,
                number,
                known,
            } => {
                if !is_reference {
                    return None;
                }
                self.element_ended::<G>(s, from, number, known, true)
            }
            _ => Some(Step::List { is_first: false }),
        }
    }
}
