// The types that name arguments of a function's template.

ghost use Rattle.std.specs.Prelude.{◌≡◌, ◌≢◌, ◌≤◌, ◌+◌, ◌∷◌, ◌++◌, [], List, length, replicate, reverse, true, false, Some};
ghost use Rattle.std.specs.Option.{OnSome, IfSome};
ghost use Rattle.cpp_grammar.specs.Term.{Term};
ghost use Rattle.sym_print.specs.declared.detail.Detail.{Detail};
ghost use Rattle.cpp_direct.specs.declared.direct.Direct.{Direct};
ghost use Rattle.cpp_direct.specs.declared.open.Arguments.{Arguments};
ghost use Rattle.cpp_direct.specs.Names.{IsReadable};
ghost use Rattle.cpp_direct.specs.Prints.{IsMarkedBy, pattern_letters};
ghost use Rattle.cpp_direct.specs.Holes.{StandsAt};
ghost use Rattle.cpp_direct.specs.WriterInvariant.{IsPackOf, IsWriting, argument_of, arguments_in, is_type, is_within_type};
ghost use Rattle.cpp_direct.specs.MidStep.{AwaitsNextArgument, AwaitsType, AreParametersRead, IsNamedAgain, AreExpanded, comma_text, expansion_letters, separator, most_by_digit, parameter_digits};
ghost use Rattle.cpp_direct.specs.Symbol.{symbol_by};
ghost use Rattle.cpp_direct.specs.Written.{Writes, hidden};

use crate::direct::Direct;
use crate::grammar::Grammar;
use crate::open::{Arguments, Candidate, Mark, Open, Pattern, Purpose, Step};
use crate::tokens::{byte_at, may_end};
use crate::types::dependent;

/// The number that follows the T of a parameter, one digit at most, and the place after it.
#[derive(Clone, Copy)]
struct ParameterNumber {
    number: u8,
    end: usize,
}

// <template-param> ::= T_ | T <parameter-2 non-negative number> _
fn parameter_number(s: &[u8], at: usize) -> Option<ParameterNumber>
    ensures stands { IfSome result (λ n. StandsAt s.now at (parameter_digits n.number ++ 95 ∷ [])) }
    ensures end { IfSome result (λ n. n.end ≡ at + length (parameter_digits n.number ++ 95 ∷ [])) }
    ensures few { IfSome result (λ n. n.number ≤ most_by_digit) }
{
    let behind = at.checked_add(1)?;
    let byte = byte_at(s, at);
    if byte == b'_' {
        return Some(ParameterNumber {
            number: 0,
            end: behind,
        });
    }
    if byte < b'0' || byte > b'9' || byte_at(s, behind) != b'_' {
        return None;
    }
    Some(ParameterNumber {
        number: byte - b'0' + 1,
        end: behind.checked_add(1)?,
    })
}

/// The most levels of types, that is, marks and arguments of types, around a type that names an argument of the function's template.
const MOST_LEVELS: usize = 16;

/// Whether what an entry waits for is within a type: the entry is a mark, or has the arguments of a
/// type.
fn is_within_type(entry: Open) -> bool
    ensures { result ≡ is_within_type entry }
{
    match entry {
        Open::Pointer { .. } => true,
        Open::Lvalue { .. } => true,
        Open::Rvalue { .. } => true,
        Open::Const { .. } => true,
        Open::TypeArguments { .. } => true,
        Open::NestArguments { nest } => is_type(nest.purpose),
        Open::FirstArguments { nest } => is_type(nest.purpose),
        Open::LevelArguments { .. } => true,
        _ => false,
    }
}

/// Whether a nested name is read as a type.
fn is_type(purpose: Purpose) -> bool
    ensures { result ≡ is_type purpose }
{
    match purpose {
        Purpose::Type => true,
        _ => false,
    }
}

/// The arguments that types may name in what an entry waits for.
fn arguments_in(entry: Open) -> Option<Arguments>
    ensures { result ≡ arguments_in entry }
{
    match entry {
        Open::Front { argument, .. } => Some(argument),
        Open::Parameters { argument, .. } => Some(argument),
        Open::EnclosingFront { argument, .. } => Some(argument),
        Open::EnclosingInstance { argument, .. } => Some(argument),
        Open::AddressedFront { argument, .. } => Some(argument),
        Open::Addressed { argument, .. } => Some(argument),
        _ => None,
    }
}

/// A pattern, and the place after its letters.
#[derive(Clone, Copy)]
struct PatternPlace {
    pattern: Pattern,
    end: usize,
}

/// The pattern before a parameter.
fn pattern_at(s: &[u8], at: usize) -> Option<PatternPlace>
    ensures stands { IfSome result (λ p. StandsAt s.now at (pattern_letters p.pattern)) }
    ensures end { IfSome result (λ p. p.end ≡ at + length (pattern_letters p.pattern)) }
{
    let behind = at.checked_add(1)?;
    match byte_at(s, at) {
        // <type> ::= O <type>
        b'O' => Some(PatternPlace {
            pattern: Pattern::Rvalue,
            end: behind,
        }),
        // <type> ::= R <type>
        b'R' => {
            // <CV-qualifiers> ::= [r] [V] [K]
            if byte_at(s, behind) != b'K' {
                return Some(PatternPlace {
                    pattern: Pattern::Lvalue,
                    end: behind,
                });
            }
            let end = behind.checked_add(1)?;
            Some(PatternPlace {
                pattern: Pattern::ConstLvalue,
                end,
            })
        }
        _ => Some(PatternPlace {
            pattern: Pattern::Same,
            end: at,
        }),
    }
}

/// A parameter that expands a pack, the argument with this number, and the place after it.
#[derive(Clone, Copy)]
struct Expansion {
    pattern: Pattern,
    number: u8,
    end: usize,
}

/// The expansion that is at a place.
// <type> ::= Dp <type>
fn expansion_at(s: &[u8], at: usize) -> Option<Expansion>
    ensures stands { IfSome result (λ e. StandsAt s.now at (expansion_letters e.pattern e.number)) }
    ensures end { IfSome result (λ e. e.end ≡ at + length (expansion_letters e.pattern e.number)) }
    ensures few { IfSome result (λ e. e.number ≤ most_by_digit) }
{
    let second = at.checked_add(1)?;
    if byte_at(s, at) != b'D' || byte_at(s, second) != b'p' {
        return None;
    }
    let read = pattern_at(s, second.checked_add(1)?)?;
    // <template-param> ::= T_ | T <parameter-2 non-negative number> _
    if byte_at(s, read.end) != b'T' {
        return None;
    }
    let named = parameter_number(s, read.end.checked_add(1)?)?;
    Some(Expansion {
        pattern: read.pattern,
        number: named.number,
        end: named.end,
    })
}

/// What a pattern adds after the text of a type. If the type is a reference, the kind of reference
/// isn't known.
fn marks_of(pattern: Pattern, is_reference: bool) -> Option<&'static [u8]>
    ensures { IfSome result (λ marks. IsMarkedBy pattern is_reference marks.now) }
{
    match pattern {
        Pattern::Same => Some(b""),
        Pattern::Rvalue => {
            if is_reference {
                return Some(b"");
            }
            Some(b"&&")
        }
        Pattern::Lvalue => {
            if is_reference {
                return None;
            }
            Some(b"&")
        }
        Pattern::ConstLvalue => {
            if is_reference {
                return None;
            }
            Some(b" const&")
        }
    }
}

impl Direct {
    /// A parameter of a function comes next: writes what precedes it, or reads the expansion of a pack.
    #[inline(always)]
    pub(crate) fn next_parameter<G: Grammar>(
        &mut self,
        s: &[u8],
        is_first: bool,
        mark: Mark,
        start: u32,
        argument: Arguments,
    ) -> Option<Step>
        requires fits { IsReadable s.now }
        requires awaits { AreParametersRead (symbol_by G.IS_WIDE G.IS_BARE G.IS_BRIEF s.now) self.old 3 is_first mark start argument }
        ensures { IfSome result (IsWriting (symbol_by G.IS_WIDE G.IS_BARE G.IS_BRIEF s.now) self.new) }
    {
        if argument.has_pack {
            return self.expansion::<G>(s, is_first, mark, start, argument);
        }
        self.separate(is_first)?;
        Some(Step::Type)
    }

    /// Writes what precedes an element of a list: a comma and a space, unless it is the first.
    #[inline(always)]
    fn separate(&mut self, is_first: bool) -> Option<()>
        ensures { OnSome result (Writes self.old self.new (separator is_first)) }
    {
        if is_first {
            return Some(());
        }
        self.push_pair(b',', b' ')
    }

    /// The last parameter may expand the pack among the arguments of the function's template. The
    /// expansion of an empty pack isn't written.
    // <type> ::= Dp <type>
    #[inline(never)]
    fn expansion<G: Grammar>(
        &mut self,
        s: &[u8],
        is_first: bool,
        mark: Mark,
        start: u32,
        argument: Arguments,
    ) -> Option<Step>
        requires fits { IsReadable s.now }
        requires has_pack { argument.has_pack ≡ true }
        requires awaits { AreParametersRead (symbol_by G.IS_WIDE G.IS_BARE G.IS_BRIEF s.now) self.old 3 is_first mark start argument }
        ensures { IfSome result (IsWriting (symbol_by G.IS_WIDE G.IS_BARE G.IS_BRIEF s.now) self.new) }
    {
        let Some(read) = expansion_at(s, self.at) else {
            self.separate(is_first)?;
            return Some(Step::Type);
        };
        if read.number != argument.before || !may_end(byte_at(s, read.end)) {
            return None;
        }
        self.at = read.end;
        if argument.elements == 0 {
            self.add_expansion(read.pattern)?;
            return self.close::<G>(s, mark, start);
        }
        self.separate(is_first)?;
        self.expand_all(argument, read.pattern)?;
        self.add_expansion(read.pattern)?;
        self.close_parameters::<G>(s, mark, start, argument)
    }

    /// Writes what a pattern makes of each element of a pack.
    // <type> ::= Dp <type>
    fn expand_all(&mut self, argument: Arguments, pattern: Pattern) -> Option<()>
        requires pack { (detail : Detail) × (ts : List Term) × IsPackOf detail self.old.text.list.items argument ts }
        ensures { OnSome result ((detail : Detail) (ts : List Term) → IsPackOf detail self.old.text.list.items argument ts
            → AreExpanded detail pattern self.old self.new ts argument.elements) }
    {
        'elements: for number in 0..argument.elements {
            self.expand(argument, pattern, number)?;
        }
        Some(())
    }

    /// Writes what precedes the element with this number in a list.
    fn comma(&mut self, number: u8) -> Option<()>
        ensures { OnSome result (Writes self.old self.new (comma_text number)) }
    {
        match number {
            0 => self.push(b""),
            _ => self.push(b", "),
        }
    }

    /// Writes what a pattern makes of the element of a pack with this number, after those before it.
    // <type> ::= Dp <type>
    fn expand(&mut self, argument: Arguments, pattern: Pattern, number: u8) -> Option<()>
        requires before { (detail : Detail) × (before : Direct) × (ts : List Term) × IsPackOf detail before.text.list.items argument ts × AreExpanded detail pattern before self.old ts number }
        ensures { OnSome result ((detail : Detail) (before : Direct) (ts : List Term) → IsPackOf detail before.text.list.items argument ts
            → AreExpanded detail pattern before self.old ts number → AreExpanded detail pattern before self.new ts (number + 1)) }
    {
        let place = argument.at(argument.before.checked_add(number)?)?;
        let marks = marks_of(pattern, place.is_reference)?;
        self.comma(number)?;
        self.repeat(place.from as u32, place.to as u32)?;
        self.push(marks)
    }

    /// The parameter of an expansion, what its pattern makes of the parameter, and the expansion
    /// become candidates. Their texts are nowhere.
    fn add_expansion(&mut self, pattern: Pattern) -> Option<()>
        ensures candidates { OnSome result (self.new.candidates.list.items ≡ self.old.candidates.list.items ++ replicate (2 + length (pattern_letters pattern)) hidden) }
        ensures text { self.new.text ≡ self.old.text }
        ensures open { self.new.waiting ≡ self.old.waiting }
        ensures nest { self.new.nest ≡ self.old.nest }
        ensures scope { self.new.has_scope ≡ self.old.has_scope }
        ensures at { self.new.at ≡ self.old.at }
    {
        self.add_hidden(true)?;
        match pattern {
            Pattern::Same => Some(()),
            Pattern::Lvalue => self.add_hidden(false),
            Pattern::ConstLvalue => self.add_hidden(true),
            Pattern::Rvalue => self.add_hidden(false),
        }
    }

    /// The arguments that types may name at this place, unless too many levels of types are around
    /// it.
    fn argument(&self) -> Option<Arguments>
        ensures { IfSome result (λ a. argument_of (reverse self.now.waiting.list.items) ≡ Some a) }
    {
        let mut open = self.waiting.as_slice();
        let mut left = MOST_LEVELS;
        'levels: while left > 0 {
            let (last, rest) = open.split_last()?;
            if !is_within_type(*last) {
                return arguments_in(*last);
            }
            open = rest;
            left -= 1;
        }
        None
    }

    // <template-param> ::= T_ | T <parameter-2 non-negative number> _
    #[inline(never)]
    pub(crate) fn template_parameter<G: Grammar>(&mut self, s: &[u8]) -> Option<Step>
        requires fits { IsReadable s.now }
        requires letter { StandsAt s.now self.old.at (84 ∷ []) }
        requires awaits { AwaitsType (symbol_by G.IS_WIDE G.IS_BARE G.IS_BRIEF s.now) self.old }
        ensures { IfSome result (IsWriting (symbol_by G.IS_WIDE G.IS_BARE G.IS_BRIEF s.now) self.new) }
    {
        let read = parameter_number(s, self.at.checked_add(1)?)?;
        let named = self.argument()?;
        // a pack is named only in what is expanded
        let argument = named.single(read.number)?;
        if named.encoding == 0 {
            return None;
        }
        self.at = read.end;
        self.repeat(argument.from as u32, argument.to as u32)?;
        self.add_argument(argument)?;
        Some(Step::Value {
            is_reference: argument.is_reference,
            is_dependent: true,
        })
    }

    /// Reads an argument that is a parameter as an expression. Only the wide grammar has such
    /// arguments.
    // <template-arg> ::= X <expression> E
    // <expression> ::= <template-param>
    #[inline(never)]
    pub(crate) fn parameter_argument<G: Grammar>(&mut self, s: &[u8]) -> Option<Step>
        requires fits { IsReadable s.now }
        requires wide { G.IS_WIDE ≡ true }
        requires letter { StandsAt s.now self.old.at (88 ∷ []) }
        requires awaits { AwaitsNextArgument (symbol_by G.IS_WIDE G.IS_BARE G.IS_BRIEF s.now) self.old }
        ensures { IfSome result (IsWriting (symbol_by G.IS_WIDE G.IS_BARE G.IS_BRIEF s.now) self.new) }
    {
        let behind = self.at.checked_add(1)?;
        if byte_at(s, behind) != b'T' {
            return None;
        }
        let read = parameter_number(s, behind.checked_add(1)?)?;
        if byte_at(s, read.end) != b'E' {
            return None;
        }
        let named = self.argument()?;
        let argument = named.single(read.number)?;
        if named.encoding == 0 {
            return None;
        }
        self.at = read.end.checked_add(1)?;
        self.repeat(argument.from as u32, argument.to as u32)?;
        let entry = dependent(self.waiting.pop()?)?;
        self.waiting.push(entry)?;
        Some(Step::List { is_first: false })
    }

    /// Reads an rvalue reference, up to the first type in it. An rvalue reference to an argument
    /// that is itself a reference is that argument.
    // <type> ::= O <type>
    #[inline(never)]
    pub(crate) fn rvalue_at<G: Grammar>(&mut self, s: &[u8]) -> Option<Step>
        requires fits { IsReadable s.now }
        requires letter { StandsAt s.now self.old.at (79 ∷ []) }
        requires awaits { AwaitsType (symbol_by G.IS_WIDE G.IS_BARE G.IS_BRIEF s.now) self.old }
        ensures { IfSome result (IsWriting (symbol_by G.IS_WIDE G.IS_BARE G.IS_BRIEF s.now) self.new) }
    {
        let from = self.text.end();
        let behind = self.at.checked_add(1)?;
        if byte_at(s, behind) != b'T' {
            return self.open_type(Open::Rvalue { from }, Step::Type);
        }
        let read = parameter_number(s, behind.checked_add(1)?)?;
        let named = self.argument()?;
        let argument = named.single(read.number)?;
        if named.encoding == 0 {
            return None;
        }
        if !argument.is_reference {
            return self.open_type(Open::Rvalue { from }, Step::Type);
        }
        self.at = read.end;
        self.repeat(argument.from as u32, argument.to as u32)?;
        self.add_candidate(from, true, true)?;
        self.add_candidate(from, true, true)?;
        Some(Step::Value {
            is_reference: true,
            is_dependent: true,
        })
    }

    /// Whether a nested name that is read for this purpose may name the arguments that types may
    /// name here: only a type may.
    pub(crate) fn may_depend(&self, purpose: Purpose) -> bool
        ensures is_type { result ≡ true → is_type purpose ≡ true }
        ensures named { result ≡ true → (a : Arguments) × (argument_of (reverse self.now.waiting.list.items) ≡ Some a) × (a.encoding ≢ 0) }
    {
        if !is_type(purpose) {
            return false;
        }
        match self.argument() {
            Some(named) => named.encoding != 0,
            None => false,
        }
    }

    /// Among the types of a function, a substitution repeats a type that names arguments of the
    /// function's template.
    // <substitution> ::= S <seq-id> _ | S_
    #[inline(never)]
    pub(crate) fn dependent_again<G: Grammar>(
        &mut self,
        _s: &[u8],
        candidate: Candidate,
    ) -> Option<Step>
        requires fits { IsReadable _s.now }
        requires again { IsNamedAgain (symbol_by G.IS_WIDE G.IS_BARE G.IS_BRIEF _s.now) self.old candidate }
        ensures { IfSome result (IsWriting (symbol_by G.IS_WIDE G.IS_BARE G.IS_BRIEF _s.now) self.new) }
    {
        let named = self.argument()?;
        // in another encoding the candidate isn't the same type
        if named.encoding == 0 {
            return None;
        }
        self.repeat(candidate.from, candidate.to)?;
        Some(Step::Value {
            is_reference: candidate.is_reference,
            is_dependent: true,
        })
    }
}
