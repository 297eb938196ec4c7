// A symbol from its first byte to its last.

ghost use Rattle.std.specs.Prelude.{◌≡◌, ◌≢◌, ◌≤◌, ◌+◌, ◌∷◌, ℕ, [], length, true, false};
ghost use Rattle.std.specs.Option.{IfSome, OnSome};
ghost use Rattle.cpp_direct.specs.declared.open.Mark.TheVariants as marks;
ghost use Rattle.cpp_direct.specs.Holes.{StandsAt};
ghost use Rattle.cpp_direct.specs.Names.{IsReadable};
ghost use Rattle.cpp_direct.specs.WriterInvariant.{IsWriting, encoding_place};
ghost use Rattle.cpp_direct.specs.Bytes.{is_local, is_guard};
ghost use Rattle.cpp_direct.specs.MidStep.{IsFresh, AwaitsEncoding, AwaitsName, IsNameEnded, IsNameScoped, IsFrontRead, AwaitsParameters, AreParametersRead, IsEncodingEnded, IsFunctionEnded, IsSymbolEnded};
ghost use Rattle.cpp_direct.specs.Symbol.{symbol_by};

use crate::direct::Direct;
use crate::grammar::Grammar;
use crate::marks::mark_at;
use crate::open::{Arguments, MOST_KNOWN, Mark, Nest, Open, Purpose, Step};
use crate::tokens::{byte_at, is_guard, is_local, is_suffix, may_end};

/// The value before the first nested name.
pub const NO_NEST: Nest = Nest {
    from: 0,
    class_from: 0,
    class_to: 0,
    purpose: Purpose::Type,
    is_listed: false,
    has_class: false,
    is_instance: false,
    is_dependent: false,
};

/// No known argument.
pub const NOWHERE: Arguments = Arguments {
    from: 0,
    ends: [0; MOST_KNOWN],
    references: [false; MOST_KNOWN],
    count: 0,
    encoding: 0,
    has_pack: false,
    before: 0,
    elements: 0,
};

/// Whether a function whose name is written from a place on may have a return type. After a thunk's
/// text it may not, since that text would have to be moved.
fn has_front(s: &[u8], from: u32) -> bool
    ensures { result ≡ true → is_local s.now ≡ false → from ≡ 0 }
{
    if is_local(s) {
        return true;
    }
    from == 0
}

/// The place of the encoding whose name is written from here on, or 0 if a text precedes the name.
fn encoding_place(s: &[u8], from: u32) -> u16
    ensures first { result ≢ 0 → from ≡ 0 }
    ensures is { result ≢ 0 → result ≡ encoding_place s.now }
{
    if from != 0 {
        return 0;
    }
    if is_local(s) {
        return 3;
    }
    2
}

impl Direct {
    /// Takes a step: reads on, and writes the text of what it read, or gives the symbol up.
    #[inline(always)]
    pub fn take<G: Grammar>(&mut self, s: &[u8], step: Step) -> Option<Step>
        requires fits { IsReadable s.now }
        requires writing { IsWriting (symbol_by G.IS_WIDE G.IS_BARE G.IS_BRIEF s.now) self.old step }
        ensures { IfSome result (IsWriting (symbol_by G.IS_WIDE G.IS_BARE G.IS_BRIEF s.now) self.new) }
    {
        let read = self.read::<G>(s, step)?;
        let named = self.go_through::<G>(s, read)?;
        let passed = self.pass_on::<G>(s, named)?;
        self.list_on::<G>(s, passed)
    }

    /// Reads a type up to the first type in it, or what follows a piece of a nested name, if either
    /// comes next.
    #[inline(always)]
    fn read<G: Grammar>(&mut self, s: &[u8], step: Step) -> Option<Step>
        requires fits { IsReadable s.now }
        requires writing { IsWriting (symbol_by G.IS_WIDE G.IS_BARE G.IS_BRIEF s.now) self.old step }
        ensures { IfSome result (IsWriting (symbol_by G.IS_WIDE G.IS_BARE G.IS_BRIEF s.now) self.new) }
    {
        match step {
            Step::Type => self.type_at::<G>(s, false),
            Step::Plain => self.type_at::<G>(s, true),
            Step::Rest => self.rest_at::<G>(s),
            Step::Tail => self.tail_at::<G>(s),
            Step::Ended => None,
            _ => Some(step),
        }
    }

    /// Reads components of a nested name, if they come next.
    #[inline(always)]
    fn go_through<G: Grammar>(&mut self, s: &[u8], step: Step) -> Option<Step>
        requires fits { IsReadable s.now }
        requires writing { IsWriting (symbol_by G.IS_WIDE G.IS_BARE G.IS_BRIEF s.now) self.old step }
        ensures { IfSome result (IsWriting (symbol_by G.IS_WIDE G.IS_BARE G.IS_BRIEF s.now) self.new) }
    {
        match step {
            Step::Component => self.components_at::<G>(s),
            _ => Some(step),
        }
    }

    /// Forwards a type to the entry that waits for it, if one was read.
    #[inline(always)]
    fn pass_on<G: Grammar>(&mut self, s: &[u8], step: Step) -> Option<Step>
        requires fits { IsReadable s.now }
        requires writing { IsWriting (symbol_by G.IS_WIDE G.IS_BARE G.IS_BRIEF s.now) self.old step }
        ensures { IfSome result (IsWriting (symbol_by G.IS_WIDE G.IS_BARE G.IS_BRIEF s.now) self.new) }
    {
        match step {
            Step::Value {
                is_reference,
                is_dependent,
            } => self.pass::<G>(s, is_reference, is_dependent),
            _ => Some(step),
        }
    }

    /// Reads an argument, an element of a pack or the end of a list, if one of them comes next.
    #[inline(always)]
    fn list_on<G: Grammar>(&mut self, s: &[u8], step: Step) -> Option<Step>
        requires fits { IsReadable s.now }
        requires writing { IsWriting (symbol_by G.IS_WIDE G.IS_BARE G.IS_BRIEF s.now) self.old step }
        ensures { IfSome result (IsWriting (symbol_by G.IS_WIDE G.IS_BARE G.IS_BRIEF s.now) self.new) }
    {
        match step {
            Step::List { is_first } => self.list_at::<G>(s, is_first),
            _ => Some(step),
        }
    }

    /// Reads the first bytes of a symbol, once the lists have been prepared, or gives it up.
    // <mangled-name> ::= _Z <encoding>
    pub fn begin<G: Grammar>(&mut self, s: &[u8]) -> Option<Step>
        requires fits { IsReadable s.now }
        requires fresh { IsFresh self.old }
        ensures { IfSome result (IsWriting (symbol_by G.IS_WIDE G.IS_BARE G.IS_BRIEF s.now) self.new) }
    {
        if byte_at(s, 0) != b'_' || byte_at(s, 1) != b'Z' {
            return None;
        }
        if is_local(s) {
            return self.begin_local::<G>(s);
        }
        if is_guard(s) {
            return self.begin_object::<G>(s);
        }
        let letter = byte_at(s, 2);
        if letter == b'G' {
            return self.begin_clone::<G>(s);
        }
        if letter != b'T' {
            self.at = 2;
            return self.begin_encoding::<G>(s);
        }
        match byte_at(s, 3) {
            b'h' => self.begin_thunk::<G>(s),
            b'v' => self.begin_virtual_thunk::<G>(s),
            b'C' => self.begin_table::<G>(s),
            _ => self.begin_special::<G>(s),
        }
    }

    /// The first bytes of an encoding.
    // <encoding> ::= <function name> <bare-function-type> | <data name>
    #[inline(always)]
    pub(crate) fn begin_encoding<G: Grammar>(&mut self, s: &[u8]) -> Option<Step>
        requires fits { IsReadable s.now }
        requires awaits { AwaitsEncoding (symbol_by G.IS_WIDE G.IS_BARE G.IS_BRIEF s.now) self.old }
        ensures { IfSome result (IsWriting (symbol_by G.IS_WIDE G.IS_BARE G.IS_BRIEF s.now) self.new) }
    {
        match byte_at(s, self.at) {
            b'N' => self.begin_nested::<G>(s),
            b'L' => {
                self.at = self.at.checked_add(1)?;
                self.begin_name::<G>(s, true)
            }
            b'S' => self.begin_in_std::<G>(s),
            b'a'..=b'z' => self.begin_operator::<G>(s),
            _ => self.begin_name::<G>(s, false),
        }
    }

    // <special-name> ::= TV <type> | TT <type> | TI <type> | TS <type>
    #[inline(never)]
    fn begin_special<G: Grammar>(&mut self, s: &[u8]) -> Option<Step>
        requires fits { IsReadable s.now }
        requires fresh { IsFresh self.old }
        requires starts { StandsAt s.now 0 (95 ∷ 90 ∷ []) }
        requires apart { is_local s.now ≡ false }
        requires other { is_guard s.now ≡ false }
        requires letter { StandsAt s.now 2 (84 ∷ []) }
        ensures { IfSome result (IsWriting (symbol_by G.IS_WIDE G.IS_BARE G.IS_BRIEF s.now) self.new) }
    {
        let letter = byte_at(s, 3);
        // <special-name> ::= TA <template-arg>, which goes the general way
        if letter == b'A' {
            return None;
        }
        // no symbol has an M after its T: the M in the table of texts belongs to GI, a module's
        // initializer
        if letter == b'M' {
            return None;
        }
        let text = cpp_layout::special_text(letter);
        if text.is_empty() {
            return None;
        }
        self.push(text)?;
        self.at = 4;
        self.waiting.push(Open::Special)?;
        Some(Step::Type)
    }

    // <nested-name> ::= N [<CV-qualifiers>] [<ref-qualifier>] <prefix> <unqualified-name> E
    #[inline(always)]
    pub(crate) fn begin_nested<G: Grammar>(&mut self, s: &[u8]) -> Option<Step>
        requires fits { IsReadable s.now }
        requires awaits { AwaitsName (symbol_by G.IS_WIDE G.IS_BARE G.IS_BRIEF s.now) self.old }
        requires letter { StandsAt s.now self.old.at (78 ∷ []) }
        ensures { IfSome result (IsWriting (symbol_by G.IS_WIDE G.IS_BARE G.IS_BRIEF s.now) self.new) }
    {
        self.at = self.at.checked_add(1)?;
        let place = mark_at(s, self.at)?;
        self.at = place.end;
        self.nest_at::<G>(s, Purpose::Name { mark: place.mark })
    }

    /// The name of an encoding is read: the function's types follow, or nothing.
    // <encoding> ::= <function name> <bare-function-type> | <data name>
    pub(crate) fn name_ended<G: Grammar>(
        &mut self,
        s: &[u8],
        mark: Mark,
        is_instance: bool,
        argument: Arguments,
        from: u32,
    ) -> Option<Step>
        requires fits { IsReadable s.now }
        requires ended { IsNameEnded (symbol_by G.IS_WIDE G.IS_BARE G.IS_BRIEF s.now) self.old mark is_instance argument from }
        ensures { IfSome result (IsWriting (symbol_by G.IS_WIDE G.IS_BARE G.IS_BRIEF s.now) self.new) }
    {
        if may_end(byte_at(s, self.at)) {
            return self.end::<G>(s, mark);
        }
        let argument = self.begin_scope(s, argument, from)?;
        if is_instance {
            return self.begin_front::<G>(s, mark, argument, from);
        }
        let start = self.start::<G>();
        self.begin_parameters::<G>(s, mark, start, argument)
    }

    /// The arguments of the symbol's own name, which the symbol's types may name, are known from
    /// here on. A symbol has only one such name.
    #[inline(always)]
    fn begin_scope(&mut self, s: &[u8], argument: Arguments, from: u32) -> Option<Arguments>
        ensures is { IfSome result (λ a. (a ≡ record argument { encoding = a.encoding }) × (a.encoding ≢ 0 → (from ≡ 0) × (a.encoding ≡ encoding_place s.now))) }
        ensures first { IfSome result (λ a. self.old.has_scope ≡ false) }
        ensures same { OnSome result (self.new ≡ record self.old { has_scope = true }) }
    {
        if self.has_scope {
            return None;
        }
        self.has_scope = true;
        Some(Arguments {
            encoding: encoding_place(s, from),
            ..argument
        })
    }

    /// Where the text of a function that has no return type begins, once its name is written; or
    /// where the text ends, if only the names of functions are shown.
    #[inline(always)]
    fn start<G: Grammar>(&self) -> u32
        ensures whole { G.IS_BARE ≡ false → result ≡ 0 }
        ensures bare { G.IS_BARE ≡ true → result ≡ length self.now.text.list.items }
    {
        if G::IS_BARE {
            return self.text.end();
        }
        0
    }

    /// Expects the return type of a function, which is written after the function's name. After the
    /// return type the name is written once more.
    // <bare-function-type> ::= <return type> <parameter type>+
    #[inline(never)]
    fn begin_front<G: Grammar>(
        &mut self,
        s: &[u8],
        mark: Mark,
        argument: Arguments,
        from: u32,
    ) -> Option<Step>
        requires fits { IsReadable s.now }
        requires scoped { IsNameScoped (symbol_by G.IS_WIDE G.IS_BARE G.IS_BRIEF s.now) self.old mark true argument from }
        ensures { IfSome result (IsWriting (symbol_by G.IS_WIDE G.IS_BARE G.IS_BRIEF s.now) self.new) }
    {
        if !has_front(s, from) {
            return None;
        }
        let start = self.text.end();
        self.waiting.push(Open::Front {
            mark,
            start,
            argument,
        })?;
        Some(Step::Type)
    }

    /// The return type of a function is read: the function's parameters follow.
    // <bare-function-type> ::= <return type> <parameter type>+
    #[inline(never)]
    pub(crate) fn front_ended<G: Grammar>(
        &mut self,
        s: &[u8],
        mark: Mark,
        start: u32,
        argument: Arguments,
    ) -> Option<Step>
        requires fits { IsReadable s.now }
        requires ended { IsFrontRead (symbol_by G.IS_WIDE G.IS_BARE G.IS_BRIEF s.now) self.old mark start argument }
        ensures { IfSome result (IsWriting (symbol_by G.IS_WIDE G.IS_BARE G.IS_BRIEF s.now) self.new) }
    {
        if may_end(byte_at(s, self.at)) {
            return None;
        }
        let _open = self.waiting.pop();
        if G::IS_BARE {
            return self.begin_parameters::<G>(s, mark, start, argument);
        }
        if is_local(s) {
            return self.front_hidden::<G>(s, mark, start, argument);
        }
        self.push_byte(b' ')?;
        self.repeat(0, start)?;
        self.begin_parameters::<G>(s, mark, start, argument)
    }

    /// A function that contains a local entity doesn't show its return type: the text begins after
    /// that type.
    #[inline(never)]
    fn front_hidden<G: Grammar>(
        &mut self,
        s: &[u8],
        mark: Mark,
        start: u32,
        argument: Arguments,
    ) -> Option<Step>
        requires fits { IsReadable s.now }
        requires local { is_local s.now ≡ true }
        requires whole { G.IS_BARE ≡ false }
        requires ended { IsFrontRead (symbol_by G.IS_WIDE G.IS_BARE G.IS_BRIEF s.now) self.old mark start argument }
        ensures { IfSome result (IsWriting (symbol_by G.IS_WIDE G.IS_BARE G.IS_BRIEF s.now) self.new) }
    {
        let begins = self.text.end();
        self.repeat(0, start)?;
        self.begin_parameters::<G>(s, mark, begins, argument)
    }

    /// Reads the parameters of a function up to the first type in them. The function's text begins
    /// at a place.
    // <bare-function-type> ::= <parameter type>+ | v
    #[inline(always)]
    fn begin_parameters<G: Grammar>(
        &mut self,
        s: &[u8],
        mark: Mark,
        start: u32,
        argument: Arguments,
    ) -> Option<Step>
        requires fits { IsReadable s.now }
        requires awaits { AwaitsParameters (symbol_by G.IS_WIDE G.IS_BARE G.IS_BRIEF s.now) self.old mark start argument }
        ensures { IfSome result (IsWriting (symbol_by G.IS_WIDE G.IS_BARE G.IS_BRIEF s.now) self.new) }
    {
        let byte = byte_at(s, self.at);
        self.push_byte(b'(')?;
        let behind = byte_at(s, self.at.checked_add(1)?);
        if byte == b'v' && may_end(behind) {
            self.at = self.at.checked_add(1)?;
            return self.close::<G>(s, mark, start);
        }
        self.waiting.push(Open::Parameters {
            mark,
            start,
            argument,
        })?;
        self.next_parameter::<G>(s, true, mark, start, argument)
    }

    /// A parameter is read: another one follows, or the end of the encoding.
    #[inline(always)]
    pub(crate) fn parameter_ended<G: Grammar>(
        &mut self,
        s: &[u8],
        mark: Mark,
        start: u32,
        argument: Arguments,
    ) -> Option<Step>
        requires fits { IsReadable s.now }
        requires ended { AreParametersRead (symbol_by G.IS_WIDE G.IS_BARE G.IS_BRIEF s.now) self.old 3 false mark start argument }
        ensures { IfSome result (IsWriting (symbol_by G.IS_WIDE G.IS_BARE G.IS_BRIEF s.now) self.new) }
    {
        if !may_end(byte_at(s, self.at)) {
            return self.next_parameter::<G>(s, false, mark, start, argument);
        }
        self.close_parameters::<G>(s, mark, start, argument)
    }

    /// The end of an encoding is reached after a parameter.
    // <bare-function-type> ::= <parameter type>+
    #[inline(always)]
    pub(crate) fn close_parameters<G: Grammar>(
        &mut self,
        s: &[u8],
        mark: Mark,
        start: u32,
        _argument: Arguments,
    ) -> Option<Step>
        requires fits { IsReadable s.now }
        requires ended { (extra : ℕ) × (extra ≤ 6) × AreParametersRead (symbol_by G.IS_WIDE G.IS_BARE G.IS_BRIEF s.now) self.old extra false mark start _argument }
        ensures { IfSome result (IsWriting (symbol_by G.IS_WIDE G.IS_BARE G.IS_BRIEF s.now) self.new) }
    {
        // a lone void is no parameter
        if self.text.as_slice().ends_with(b"(void") {
            return None;
        }
        self.close::<G>(s, mark, start)
    }

    /// A function is read, and written except for its last bracket. Where only the names of functions are shown, what follows
    /// its name is removed.
    pub(crate) fn close<G: Grammar>(&mut self, s: &[u8], mark: Mark, start: u32) -> Option<Step>
        requires fits { IsReadable s.now }
        requires ended { IsFunctionEnded (symbol_by G.IS_WIDE G.IS_BARE G.IS_BRIEF s.now) self.old mark start }
        ensures { IfSome result (IsWriting (symbol_by G.IS_WIDE G.IS_BARE G.IS_BRIEF s.now) self.new) }
    {
        if G::IS_BARE {
            self.keep(s, start);
            return self.encoded::<G>(s);
        }
        self.push_byte(b')')?;
        self.cut(s, start)?;
        self.end::<G>(s, mark)
    }

    /// The end of an encoding, once its text is written without its qualifier: a local entity
    /// follows, or the end of the symbol.
    #[inline(always)]
    pub(crate) fn end<G: Grammar>(&mut self, s: &[u8], mark: Mark) -> Option<Step>
        requires fits { IsReadable s.now }
        requires ended { IsEncodingEnded (symbol_by G.IS_WIDE G.IS_BARE G.IS_BRIEF s.now) self.old mark }
        ensures { IfSome result (IsWriting (symbol_by G.IS_WIDE G.IS_BARE G.IS_BRIEF s.now) self.new) }
    {
        self.push_mark(mark)?;
        self.encoded::<G>(s)
    }

    /// The end of an encoding, once its text is written: a local entity follows, or the end of the
    /// symbol.
    #[inline(always)]
    fn encoded<G: Grammar>(&mut self, s: &[u8]) -> Option<Step>
        requires fits { IsReadable s.now }
        requires ended { IsEncodingEnded (symbol_by G.IS_WIDE G.IS_BARE G.IS_BRIEF s.now) self.old marks.Plain }
        ensures { IfSome result (IsWriting (symbol_by G.IS_WIDE G.IS_BARE G.IS_BRIEF s.now) self.new) }
    {
        if is_local(s) {
            return self.entity::<G>(s);
        }
        self.finish::<G>(s)
    }

    /// The end of a symbol, after the text of its encoding.
    // <mangled-name> ::= _Z <encoding> . <vendor-specific suffix>
    pub(crate) fn finish<G: Grammar>(&mut self, s: &[u8]) -> Option<Step>
        requires { IsSymbolEnded (symbol_by G.IS_WIDE G.IS_BARE G.IS_BRIEF s.now) self.old }
        ensures { IfSome result (IsWriting (symbol_by G.IS_WIDE G.IS_BARE G.IS_BRIEF s.now) self.new) }
    {
        let suffix = s.get(self.at..)?;
        if suffix.is_empty() {
            return Some(Step::Ended);
        }
        if !is_suffix(suffix) {
            return None;
        }
        self.push(b" (")?;
        self.push(suffix)?;
        self.push(b")")?;
        Some(Step::Ended)
    }
}
