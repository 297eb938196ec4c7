// The arguments of a name, whose texts become known as they are read.

ghost use Rattle.std.specs.Prelude.{◌≡◌, ◌+◌, ◌∷◌, [], List, reverse, true, false, Some};
ghost use Rattle.std.specs.Option.{IfSome};
ghost use Rattle.cpp_direct.specs.declared.direct.Direct.{Direct};
ghost use Rattle.cpp_direct.specs.declared.open.Arguments.{Arguments};
ghost use Rattle.cpp_direct.specs.Names.{IsReadable};
ghost use Rattle.cpp_direct.specs.declared.open.Step.TheVariants as steps;
ghost use Rattle.cpp_direct.specs.Holes.{StandsAt};
ghost use Rattle.cpp_direct.specs.WriterInvariant.{EndsNamed, IsKnown, IsSingle, IsWriting, begin_by, place_of};
ghost use Rattle.cpp_direct.specs.MidStep.{AwaitsArgumentNumber, AwaitsKnownArgument, IsArgumentRead, KnowsMore};
ghost use Rattle.cpp_direct.specs.Symbol.{symbol_by};

use crate::direct::Direct;
use crate::grammar::Grammar;
use crate::lists::{is_enumerator_at, is_plain_literal_at};
use crate::open::{Argument, Arguments, MOST_KNOWN, Open, Purpose, Step};
use crate::symbols::NOWHERE;
use crate::tokens::byte_at;

impl Arguments {
    /// Where the text of the argument with this number begins, if the arguments before it are
    /// known. A comma and a space separate neighbouring texts.
    fn begin(&self, number: u8) -> Option<u16>
        ensures { IfSome result (λ from. from ≡ begin_by self.now.from self.now.ends number) }
    {
        let Some(before) = number.checked_sub(1) else {
            return Some(self.from);
        };
        self.ends.get(before as usize)?.checked_add(2)
    }

    /// The argument with this number, if it is known.
    pub(crate) fn at(&self, number: u8) -> Option<Argument>
        ensures known { IfSome result (λ p. IsKnown self.now number) }
        ensures is { IfSome result (λ p. p ≡ place_of self.now number) }
    {
        if number >= self.count {
            return None;
        }
        Some(Argument {
            from: self.begin(number)?,
            to: *self.ends.get(number as usize)?,
            is_reference: *self.references.get(number as usize)?,
        })
    }

    /// The argument with this number, if it is known and is no element of the pack.
    pub(crate) fn single(&self, number: u8) -> Option<Argument>
        ensures known { IfSome result (λ p. IsSingle self.now number) }
        ensures is { IfSome result (λ p. p ≡ place_of self.now number) }
    {
        if self.has_pack && number >= self.before {
            return None;
        }
        self.at(number)
    }

    /// The known arguments, with one more if those before it are known. The new argument has this
    /// number, and its text is between two places.
    fn with(self, number: u8, from: u32, to: u32, is_reference: bool) -> Arguments
        ensures more { KnowsMore self result number from to is_reference }
        ensures rest { (result.before ≡ self.before) × (result.has_pack ≡ self.has_pack) }
    {
        let place = number as usize;
        if number != self.count || place >= MOST_KNOWN || from > 65_535 || to > 65_535 {
            return self;
        }
        let mut more = Arguments {
            count: number + 1,
            ..self
        };
        more.ends[place] = to as u16;
        more.references[place] = is_reference;
        if number == 0 {
            more.from = from as u16;
            return more;
        }
        match self.begin(number) {
            Some(begin) if begin as u32 == from => more,
            _ => self,
        }
    }
}

/// Whether a function type or an array, or a pointer or reference to one, is at a place: such types occur only as elements.
fn is_element_at(s: &[u8], at: usize) -> bool {
    match byte_at(s, at) {
        b'F' | b'A' => true,
        b'P' | b'R' => match s.get(at..) {
            Some([_, behind, ..]) => *behind == b'F' || *behind == b'A',
            _ => false,
        },
        _ => false,
    }
}

/// Likewise, except for a reference to an array, which may be known as an element of a pack.
fn is_unknown_at(s: &[u8], at: usize) -> bool {
    match s.get(at..) {
        Some([b'R', b'A', ..]) => false,
        _ => is_element_at(s, at),
    }
}

impl Direct {
    /// Whether the innermost open arguments are those of a function's name.
    #[inline(always)]
    fn is_named(&self) -> bool
        ensures { result ≡ true → EndsNamed (reverse self.now.waiting.list.items) }
    {
        match self.waiting.as_slice().last() {
            Some(Open::NestArguments { nest }) => match nest.purpose {
                Purpose::Type => false,
                _ => true,
            },
            Some(Open::NameArguments { .. }) => true,
            _ => false,
        }
    }

    /// The first element of a list is a type. If the list has the arguments of a name, T_ denotes this type.
    // <template-args> ::= I <template-arg>* E
    #[inline(always)]
    pub(crate) fn first_type<G: Grammar>(&mut self, s: &[u8]) -> Option<Step>
        requires fits { IsReadable s.now }
        requires writing { IsWriting (symbol_by G.IS_WIDE G.IS_BARE G.IS_BRIEF s.now) self.old (steps.List true) }
        ensures { IfSome result (IsWriting (symbol_by G.IS_WIDE G.IS_BARE G.IS_BRIEF s.now) self.new) }
    {
        if !self.is_named() {
            return Some(Step::Type);
        }
        if is_element_at(s, self.at) {
            return Some(Step::Type);
        }
        let from = self.text.end();
        self.waiting.push(Open::Argument {
            from,
            number: 0,
            known: NOWHERE,
        })?;
        self.argument_at::<G>(s)
    }

    /// The first element of a list is a literal. If the list has the arguments of a name, later
    /// arguments become known, too.
    // <template-args> ::= I <template-arg>* E
    #[inline(never)]
    pub(crate) fn first_literal<G: Grammar>(&mut self, s: &[u8]) -> Option<Step>
        requires fits { IsReadable s.now }
        requires letter { StandsAt s.now self.old.at (76 ∷ []) }
        requires writing { IsWriting (symbol_by G.IS_WIDE G.IS_BARE G.IS_BRIEF s.now) self.old (steps.List true) }
        ensures { IfSome result (IsWriting (symbol_by G.IS_WIDE G.IS_BARE G.IS_BRIEF s.now) self.new) }
    {
        if !self.is_named() {
            return self.literal::<G>(s);
        }
        if is_enumerator_at(s, self.at) {
            return self.first_enumerator::<G>(s);
        }
        let from = self.text.end();
        self.waiting.push(Open::Argument {
            from,
            number: 0,
            known: NOWHERE,
        })?;
        self.plain_literal::<G>(s)?;
        self.argument_ended::<G>(s, from, 0, NOWHERE, false)
    }

    /// The first argument of a list is a pack that isn't empty. If the list has the arguments of a
    /// name, the elements of the pack become known, unless the first is a literal, a function type
    /// or an array.
    // <template-arg> ::= J <template-arg>* E
    #[inline(never)]
    pub(crate) fn first_pack<G: Grammar>(&mut self, s: &[u8]) -> Option<Step>
        requires fits { IsReadable s.now }
        requires letter { StandsAt s.now self.old.at (74 ∷ []) }
        requires writing { IsWriting (symbol_by G.IS_WIDE G.IS_BARE G.IS_BRIEF s.now) self.old (steps.List true) }
        ensures { IfSome result (IsWriting (symbol_by G.IS_WIDE G.IS_BARE G.IS_BRIEF s.now) self.new) }
    {
        if !self.is_named() {
            return self.begin_pack::<G>(s);
        }
        let behind = self.at.checked_add(1)?;
        if byte_at(s, behind) == b'L' || is_unknown_at(s, behind) {
            return self.begin_pack::<G>(s);
        }
        self.at = behind;
        let from = self.text.end();
        self.waiting.push(Open::Pack)?;
        self.waiting.push(Open::Element {
            from,
            number: 0,
            known: NOWHERE,
        })?;
        Some(Step::Type)
    }

    /// An argument of a name, or an element of a pack among the arguments, is read after n others:
    /// the place of its text becomes known.
    #[inline(always)]
    fn note_argument<G: Grammar>(
        &mut self,
        _s: &[u8],
        _is_pack: bool,
        from: u32,
        number: u8,
        known: Arguments,
        is_reference: bool,
    ) -> Arguments
        requires read { IsArgumentRead (symbol_by G.IS_WIDE G.IS_BARE G.IS_BRIEF _s.now) self.old _is_pack from number known is_reference }
        ensures { AwaitsKnownArgument (symbol_by G.IS_WIDE G.IS_BARE G.IS_BRIEF _s.now) self.new _is_pack number result }
    {
        let _entry = self.waiting.pop();
        let to = self.text.end();
        known.with(number, from, to, is_reference)
    }

    /// An element of a pack is read, after n arguments of a name: other elements follow, or the end
    /// of the pack and then the end of the arguments.
    // <template-arg> ::= J <template-arg>* E
    pub(crate) fn element_ended<G: Grammar>(
        &mut self,
        s: &[u8],
        from: u32,
        number: u8,
        known: Arguments,
        is_reference: bool,
    ) -> Option<Step>
        requires fits { IsReadable s.now }
        requires read { IsArgumentRead (symbol_by G.IS_WIDE G.IS_BARE G.IS_BRIEF s.now) self.old true from number known is_reference }
        ensures { IfSome result (IsWriting (symbol_by G.IS_WIDE G.IS_BARE G.IS_BRIEF s.now) self.new) }
    {
        let more = self.note_argument::<G>(s, true, from, number, known, is_reference);
        let byte = byte_at(s, self.at);
        // a literal isn't known, nor is what follows it
        if byte == b'L' || is_unknown_at(s, self.at) {
            return Some(Step::List { is_first: false });
        }
        if byte != b'E' {
            return self.next_element::<G>(s, number, more);
        }
        let behind = self.at.checked_add(1)?;
        if byte_at(s, behind) != b'E' {
            return Some(Step::List { is_first: false });
        }
        let _pack = self.waiting.pop();
        self.at = behind.checked_add(1)?;
        let elements = number.checked_add(1)?.checked_sub(more.before)?;
        self.close_list::<G>(
            s,
            Arguments {
                has_pack: true,
                elements,
                ..more
            },
        )
    }

    /// An element of a pack comes next, after n others.
    // <template-arg> ::= J <template-arg>* E
    fn next_element<G: Grammar>(&mut self, s: &[u8], before: u8, known: Arguments) -> Option<Step>
        requires fits { IsReadable s.now }
        requires awaits { AwaitsKnownArgument (symbol_by G.IS_WIDE G.IS_BARE G.IS_BRIEF s.now) self.old true before known }
        ensures { IfSome result (IsWriting (symbol_by G.IS_WIDE G.IS_BARE G.IS_BRIEF s.now) self.new) }
    {
        self.push_pair(b',', b' ')?;
        let from = self.text.end();
        let number = before.checked_add(1)?;
        self.waiting.push(Open::Element {
            from,
            number,
            known,
        })?;
        Some(Step::Type)
    }

    /// An argument of a name is read, after n others: more arguments follow, or their end. Literals
    /// are read at once.
    // <template-args> ::= I <template-arg>* E
    pub(crate) fn argument_ended<G: Grammar>(
        &mut self,
        s: &[u8],
        from: u32,
        number: u8,
        known: Arguments,
        is_reference: bool,
    ) -> Option<Step>
        requires fits { IsReadable s.now }
        requires read { IsArgumentRead (symbol_by G.IS_WIDE G.IS_BARE G.IS_BRIEF s.now) self.old false from number known is_reference }
        ensures { IfSome result (IsWriting (symbol_by G.IS_WIDE G.IS_BARE G.IS_BRIEF s.now) self.new) }
    {
        let mut more = self.note_argument::<G>(s, false, from, number, known, is_reference);
        let mut last = number;
        'literals: for _ in 0..MOST_KNOWN {
            if !is_plain_literal_at(s, self.at) {
                return self.argument_known::<G>(s, last, more);
            }
            more = self.next_literal::<G>(s, last, more)?;
            last = last.checked_add(1)?;
        }
        Some(Step::List { is_first: false })
    }

    /// The arguments of a name are known, up to the last one that was read: more arguments follow,
    /// or their end.
    // <template-args> ::= I <template-arg>* E
    #[inline(always)]
    fn argument_known<G: Grammar>(&mut self, s: &[u8], last: u8, known: Arguments) -> Option<Step>
        requires fits { IsReadable s.now }
        requires awaits { AwaitsKnownArgument (symbol_by G.IS_WIDE G.IS_BARE G.IS_BRIEF s.now) self.old false last known }
        ensures { IfSome result (IsWriting (symbol_by G.IS_WIDE G.IS_BARE G.IS_BRIEF s.now) self.new) }
    {
        let byte = byte_at(s, self.at);
        if byte == b'L' {
            return self.next_enumerator::<G>(s, last, known);
        }
        // a function type or an array isn't known, nor is what follows it
        if is_element_at(s, self.at) {
            return Some(Step::List { is_first: false });
        }
        if byte == b'J' {
            return self.next_pack::<G>(s, last, known);
        }
        if byte != b'E' {
            return self.next_argument::<G>(s, last, known);
        }
        self.at = self.at.checked_add(1)?;
        self.close_list::<G>(s, known)
    }

    /// A literal of a builtin type comes next, after n + 1 arguments of a name: it becomes known, too.
    // <template-arg> ::= <expr-primary>
    #[inline(never)]
    fn next_literal<G: Grammar>(
        &mut self,
        s: &[u8],
        last: u8,
        known: Arguments,
    ) -> Option<Arguments>
        requires fits { IsReadable s.now }
        requires letter { StandsAt s.now self.old.at (76 ∷ []) }
        requires awaits { AwaitsKnownArgument (symbol_by G.IS_WIDE G.IS_BARE G.IS_BRIEF s.now) self.old false last known }
        ensures { IfSome result (AwaitsKnownArgument (symbol_by G.IS_WIDE G.IS_BARE G.IS_BRIEF s.now) self.new false (last + 1)) }
    {
        self.push_pair(b',', b' ')?;
        let from = self.text.end();
        let number = last.checked_add(1)?;
        self.waiting.push(Open::Argument {
            from,
            number,
            known,
        })?;
        self.plain_literal::<G>(s)?;
        Some(self.note_argument::<G>(s, false, from, number, known, false))
    }

    /// The first argument of a name is an enumerator: reads the enumerator up to the first type in
    /// the enumerator's type.
    // <expr-primary> ::= L <type> <value number> E
    #[inline(never)]
    fn first_enumerator<G: Grammar>(&mut self, s: &[u8]) -> Option<Step>
        requires fits { IsReadable s.now }
        requires letter { StandsAt s.now self.old.at (76 ∷ []) }
        requires named { EndsNamed (reverse self.old.waiting.list.items) }
        requires writing { IsWriting (symbol_by G.IS_WIDE G.IS_BARE G.IS_BRIEF s.now) self.old (steps.List true) }
        ensures { IfSome result (IsWriting (symbol_by G.IS_WIDE G.IS_BARE G.IS_BRIEF s.now) self.new) }
    {
        let from = self.text.end();
        self.at = self.at.checked_add(1)?;
        self.push_byte(b'(')?;
        self.waiting.push(Open::ArgumentEnumerator {
            from,
            number: 0,
            known: NOWHERE,
        })?;
        self.named_type::<G>(s)
    }

    /// An enumerator comes next, after n + 1 arguments of a name: reads the enumerator up to the first type in the enumerator's type.
    // <expr-primary> ::= L <type> <value number> E
    #[inline(never)]
    fn next_enumerator<G: Grammar>(&mut self, s: &[u8], last: u8, known: Arguments) -> Option<Step>
        requires fits { IsReadable s.now }
        requires letter { StandsAt s.now self.old.at (76 ∷ []) }
        requires awaits { AwaitsKnownArgument (symbol_by G.IS_WIDE G.IS_BARE G.IS_BRIEF s.now) self.old false last known }
        ensures { IfSome result (IsWriting (symbol_by G.IS_WIDE G.IS_BARE G.IS_BRIEF s.now) self.new) }
    {
        self.push_pair(b',', b' ')?;
        let from = self.text.end();
        let number = last.checked_add(1)?;
        self.at = self.at.checked_add(1)?;
        self.push_byte(b'(')?;
        self.waiting.push(Open::ArgumentEnumerator {
            from,
            number,
            known,
        })?;
        self.named_type::<G>(s)
    }

    /// Reads the number of an enumerator that is an argument of a name, after the enumerator's
    /// type.
    // <expr-primary> ::= L <type> <value number> E
    #[inline(never)]
    pub(crate) fn argument_enumerator<G: Grammar>(
        &mut self,
        s: &[u8],
        from: u32,
        number: u8,
        known: Arguments,
    ) -> Option<Step>
        requires fits { IsReadable s.now }
        requires awaits { AwaitsArgumentNumber (symbol_by G.IS_WIDE G.IS_BARE G.IS_BRIEF s.now) self.old from number known }
        ensures { IfSome result (IsWriting (symbol_by G.IS_WIDE G.IS_BARE G.IS_BRIEF s.now) self.new) }
    {
        if self.ends_as_integer() {
            return None;
        }
        let _open = self.waiting.pop();
        self.push_byte(b')')?;
        self.number(s)?;
        self.literal_ended(s)?;
        self.waiting.push(Open::Argument {
            from,
            number,
            known,
        })?;
        self.argument_ended::<G>(s, from, number, known, false)
    }

    /// An argument of a name comes next, after n others.
    // <template-args> ::= I <template-arg>* E
    fn next_argument<G: Grammar>(&mut self, s: &[u8], before: u8, known: Arguments) -> Option<Step>
        requires fits { IsReadable s.now }
        requires awaits { AwaitsKnownArgument (symbol_by G.IS_WIDE G.IS_BARE G.IS_BRIEF s.now) self.old false before known }
        ensures { IfSome result (IsWriting (symbol_by G.IS_WIDE G.IS_BARE G.IS_BRIEF s.now) self.new) }
    {
        self.push_pair(b',', b' ')?;
        let from = self.text.end();
        let number = before.checked_add(1)?;
        self.waiting.push(Open::Argument {
            from,
            number,
            known,
        })?;
        self.argument_at::<G>(s)
    }

    /// A pack comes next, after n + 1 arguments of a name.
    // <template-arg> ::= J <template-arg>* E
    #[inline(never)]
    fn next_pack<G: Grammar>(&mut self, s: &[u8], last: u8, known: Arguments) -> Option<Step>
        requires fits { IsReadable s.now }
        requires letter { StandsAt s.now self.old.at (74 ∷ []) }
        requires awaits { AwaitsKnownArgument (symbol_by G.IS_WIDE G.IS_BARE G.IS_BRIEF s.now) self.old false last known }
        ensures { IfSome result (IsWriting (symbol_by G.IS_WIDE G.IS_BARE G.IS_BRIEF s.now) self.new) }
    {
        let behind = self.at.checked_add(1)?;
        let byte = byte_at(s, behind);
        if byte == b'E' {
            return self.last_pack_empty::<G>(s, last, known);
        }
        // a literal isn't known, nor is what follows it
        if byte == b'L' || is_unknown_at(s, behind) {
            return Some(Step::List { is_first: false });
        }
        self.push_pair(b',', b' ')?;
        self.at = behind;
        let from = self.text.end();
        let number = last.checked_add(1)?;
        self.waiting.push(Open::Pack)?;
        self.waiting.push(Open::Element {
            from,
            number,
            known: Arguments {
                before: number,
                ..known
            },
        })?;
        Some(Step::Type)
    }

    /// An empty pack comes next, after n + 1 arguments of a name. It is the last one, or unknown arguments follow.
    // <template-arg> ::= J <template-arg>* E
    fn last_pack_empty<G: Grammar>(&mut self, s: &[u8], last: u8, known: Arguments) -> Option<Step>
        requires fits { IsReadable s.now }
        requires letters { StandsAt s.now self.old.at (74 ∷ 69 ∷ []) }
        requires awaits { AwaitsKnownArgument (symbol_by G.IS_WIDE G.IS_BARE G.IS_BRIEF s.now) self.old false last known }
        ensures { IfSome result (IsWriting (symbol_by G.IS_WIDE G.IS_BARE G.IS_BRIEF s.now) self.new) }
    {
        let end = self.at.checked_add(2)?;
        if byte_at(s, end) != b'E' {
            return Some(Step::List { is_first: false });
        }
        self.at = end.checked_add(1)?;
        let before = last.checked_add(1)?;
        self.close_list::<G>(
            s,
            Arguments {
                has_pack: true,
                before,
                elements: 0,
                ..known
            },
        )
    }
}
