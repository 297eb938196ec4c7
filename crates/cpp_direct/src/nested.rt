// Nested names.

ghost use Rattle.std.specs.Prelude.{◌≡◌, ℕ, ◌+◌, ◌∷◌, ◌&&◌, [], true, false};
ghost use Rattle.std.specs.Option.{IfSome, OnSome};
ghost use Rattle.cpp_direct.specs.Names.{IsConstructorDigit, IsDestructorDigit, IsReadable};
ghost use Rattle.cpp_direct.specs.declared.open.Open.TheVariants as opens;
ghost use Rattle.cpp_direct.specs.declared.open.Purpose.TheVariants as purposes;
ghost use Rattle.cpp_direct.specs.declared.open.Step.TheVariants as steps;
ghost use Rattle.cpp_direct.specs.Holes.{StandsAt};
ghost use Rattle.cpp_direct.specs.WriterInvariant.{IsWriting, nowhere};
ghost use Rattle.cpp_direct.specs.MidStep.{AwaitsNest, AwaitsClass, IsNestKnown, IsNestNamed, IsOperatorRead};
ghost use Rattle.cpp_direct.specs.Symbol.{detail_by, symbol_by};
ghost use Rattle.cpp_direct.specs.Written.{OpensArguments};

use crate::direct::Direct;
use crate::grammar::Grammar;
use crate::open::{Arguments, Nest, Open, Purpose, Step};
use crate::symbols::NOWHERE;
use crate::tokens::byte_at;

/// The length of `std::`, which precedes the name of the class in the text of each abbreviation.
const STD_LENGTH: u32 = 5;

/// The first piece of a nested name, if it is a candidate already and its class is unknown.
#[inline(always)]
fn listed_nest(from: u32, purpose: Purpose, is_dependent: bool) -> Nest
    ensures { result ≡ record { from = from; class_from = from; class_to = from; purpose = purpose; is_listed = true; has_class = false; is_instance = false; is_dependent = is_dependent } }
{
    Nest {
        from,
        class_from: from,
        class_to: from,
        purpose,
        is_listed: true,
        has_class: false,
        is_instance: false,
        is_dependent,
    }
}

/// Whether a byte is the digit of a constructor.
// <ctor-dtor-name> ::= C1 | C2 | C3, and by the wide grammar C4 | C5
#[inline(always)]
fn is_constructor_digit<G: Grammar>(digit: u8) -> bool
    ensures { result ≡ true → IsConstructorDigit G.IS_WIDE digit }
{
    if digit < b'1' {
        return false;
    }
    if digit <= b'3' {
        return true;
    }
    G::IS_WIDE && digit <= b'5'
}

/// Whether a byte is the digit of a destructor.
// <ctor-dtor-name> ::= D0 | D1 | D2, and by the wide grammar D4 | D5
#[inline(always)]
fn is_destructor_digit<G: Grammar>(digit: u8) -> bool
    ensures { result ≡ true → IsDestructorDigit G.IS_WIDE digit }
{
    if digit < b'0' {
        return false;
    }
    if digit <= b'2' {
        return true;
    }
    G::IS_WIDE && b'4' <= digit && digit <= b'5'
}

/// The most components of a nested name that one step reads.
const COMPONENTS_AT_ONCE: usize = 16;

impl Direct {
    /// Reads the first piece of a nested name.
    // <prefix> ::= <unqualified-name> | <substitution>
    pub(crate) fn nest_at<G: Grammar>(&mut self, s: &[u8], purpose: Purpose) -> Option<Step>
        requires fits { IsReadable s.now }
        requires awaits { AwaitsNest (symbol_by G.IS_WIDE G.IS_BARE G.IS_BRIEF s.now) self.old purpose }
        ensures { IfSome result (IsWriting (symbol_by G.IS_WIDE G.IS_BARE G.IS_BRIEF s.now) self.new) }
    {
        if byte_at(s, self.at) == b'S' {
            return self.nest_with_s::<G>(s, purpose);
        }
        let from = self.text.end();
        self.name(s)?;
        self.nest = Nest {
            from,
            class_from: from,
            class_to: self.text.end(),
            purpose,
            is_listed: false,
            has_class: true,
            is_instance: false,
            is_dependent: false,
        };
        self.rest_at::<G>(s)
    }

    // <substitution> ::= S <seq-id> _ | S_ | St | Sa | Ss | Sb | Si | So | Sd
    fn nest_with_s<G: Grammar>(&mut self, s: &[u8], purpose: Purpose) -> Option<Step>
        requires fits { IsReadable s.now }
        requires letter { StandsAt s.now self.old.at (83 ∷ []) }
        requires awaits { AwaitsNest (symbol_by G.IS_WIDE G.IS_BARE G.IS_BRIEF s.now) self.old purpose }
        ensures { IfSome result (IsWriting (symbol_by G.IS_WIDE G.IS_BARE G.IS_BRIEF s.now) self.new) }
    {
        let from = self.text.end();
        self.at = self.at.checked_add(1)?;
        let letter = byte_at(s, self.at);
        if letter == b't' {
            return self.nest_in_std::<G>(s, purpose);
        }
        let text = cpp_layout::abbreviation_text(letter);
        if text.is_empty() {
            let candidate = self.substitution(s)?;
            if candidate.is_reference {
                return None;
            }
            if candidate.is_dependent && !self.may_depend(purpose) {
                return None;
            }
            self.repeat(candidate.from, candidate.to)?;
            self.nest = listed_nest(from, purpose, candidate.is_dependent);
            return self.nest_known::<G>(s);
        }
        self.at = self.at.checked_add(1)?;
        self.push(text)?;
        self.nest = Nest {
            class_from: from.checked_add(STD_LENGTH)?,
            class_to: self.text.end(),
            has_class: true,
            ..listed_nest(from, purpose, false)
        };
        self.nest_known::<G>(s)
    }

    /// A substituted name is read, at the front of a nested one. In the wide grammar a type may end
    /// after the arguments of this name.
    // <nested-name> ::= N <substitution> <template-args> E
    #[inline(always)]
    fn nest_known<G: Grammar>(&mut self, s: &[u8]) -> Option<Step>
        requires fits { IsReadable s.now }
        requires known { IsNestKnown (symbol_by G.IS_WIDE G.IS_BARE G.IS_BRIEF s.now) self.old }
        ensures { IfSome result (IsWriting (symbol_by G.IS_WIDE G.IS_BARE G.IS_BRIEF s.now) self.new) }
    {
        if G::IS_WIDE
            && let Purpose::Type = self.nest.purpose
            && byte_at(s, self.at) == b'I'
        {
            return self.open_nest::<G>();
        }
        self.rest_at::<G>(s)
    }

    /// Reads a name in std at the front of a nested name, after the S.
    // <prefix> ::= St <unqualified-name>
    fn nest_in_std<G: Grammar>(&mut self, s: &[u8], purpose: Purpose) -> Option<Step>
        requires fits { IsReadable s.now }
        requires awaits { (before : ℕ) × (before + 1 ≡ self.old.at) × StandsAt s.now before (83 ∷ 116 ∷ [])
            × AwaitsNest (symbol_by G.IS_WIDE G.IS_BARE G.IS_BRIEF s.now) (record self.old { at = before }) purpose }
        ensures { IfSome result (IsWriting (symbol_by G.IS_WIDE G.IS_BARE G.IS_BRIEF s.now) self.new) }
    {
        let from = self.text.end();
        self.at = self.at.checked_add(1)?;
        self.push(b"std::")?;
        let class_from = self.text.end();
        self.name(s)?;
        self.nest = Nest {
            from,
            class_from,
            class_to: self.text.end(),
            purpose,
            is_listed: false,
            has_class: true,
            is_instance: false,
            is_dependent: false,
        };
        self.nest_named::<G>(s)
    }

    /// The name of a component is read. Arguments may follow it; in the wide grammar a tag may precede the arguments.
    // <unqualified-name> ::= <unqualified-name> <abi-tags>
    #[inline(always)]
    fn nest_named<G: Grammar>(&mut self, s: &[u8]) -> Option<Step>
        requires fits { IsReadable s.now }
        requires named { IsNestNamed (symbol_by G.IS_WIDE G.IS_BARE G.IS_BRIEF s.now) self.old }
        ensures { IfSome result (IsWriting (symbol_by G.IS_WIDE G.IS_BARE G.IS_BRIEF s.now) self.new) }
    {
        if G::IS_WIDE && byte_at(s, self.at) == b'B' {
            self.tag(s)?;
            return self.nest_tagged::<G>(s);
        }
        self.nest_tagged::<G>(s)
    }

    /// The name of a component is read, with its tag. Arguments may follow it.
    // <prefix> ::= <template-prefix> <template-args>
    #[inline(always)]
    fn nest_tagged<G: Grammar>(&mut self, s: &[u8]) -> Option<Step>
        requires { IsNestNamed (symbol_by G.IS_WIDE G.IS_BARE G.IS_BRIEF s.now) self.old }
        ensures { IfSome result (IsWriting (symbol_by G.IS_WIDE G.IS_BARE G.IS_BRIEF s.now) self.new) }
    {
        if byte_at(s, self.at) != b'I' {
            return Some(Step::Tail);
        }
        self.add_candidate(self.nest.from, false, self.nest.is_dependent)?;
        self.open_nest::<G>()
    }

    /// Opens the arguments of a component, or of a name in std or a substitution.
    #[inline(always)]
    fn open_nest<G: Grammar>(&mut self) -> Option<Step>
        ensures { IfSome result (λ next. (next ≡ steps.List true) × OpensArguments (detail_by G.IS_BARE G.IS_BRIEF) self.old self.new (opens.NestArguments self.old.nest)) }
    {
        self.open_arguments::<G>(Open::NestArguments { nest: self.nest })
    }

    /// Opens the arguments of a nested name's first piece.
    #[inline(always)]
    fn open_first<G: Grammar>(&mut self) -> Option<Step>
        ensures { IfSome result (λ next. (next ≡ steps.List true) × OpensArguments (detail_by G.IS_BARE G.IS_BRIEF) self.old self.new (opens.FirstArguments self.old.nest)) }
    {
        self.open_arguments::<G>(Open::FirstArguments { nest: self.nest })
    }

    /// Reads what follows the first piece of a nested name, up to the component after it.
    #[inline(always)]
    pub(crate) fn rest_at<G: Grammar>(&mut self, s: &[u8]) -> Option<Step>
        requires fits { IsReadable s.now }
        requires writing { IsWriting (symbol_by G.IS_WIDE G.IS_BARE G.IS_BRIEF s.now) self.old steps.Rest }
        ensures { IfSome result (IsWriting (symbol_by G.IS_WIDE G.IS_BARE G.IS_BRIEF s.now) self.new) }
    {
        self.add_unless(self.nest.is_listed, self.nest.from, self.nest.is_dependent)?;
        if byte_at(s, self.at) == b'I' {
            return self.open_first::<G>();
        }
        Some(Step::Component)
    }

    /// Reads the end of a nested name, or expects another component of it.
    #[inline(always)]
    pub(crate) fn tail_at<G: Grammar>(&mut self, s: &[u8]) -> Option<Step>
        requires fits { IsReadable s.now }
        requires writing { IsWriting (symbol_by G.IS_WIDE G.IS_BARE G.IS_BRIEF s.now) self.old steps.Tail }
        ensures { IfSome result (IsWriting (symbol_by G.IS_WIDE G.IS_BARE G.IS_BRIEF s.now) self.new) }
    {
        if byte_at(s, self.at) == b'E' {
            return self.nest_ended::<G>(s);
        }
        self.go_on::<G>(s)?;
        Some(Step::Component)
    }

    /// What was read of a nested name becomes a candidate, since a component follows.
    #[inline(always)]
    fn go_on<G: Grammar>(&mut self, _s: &[u8]) -> Option<()>
        requires { IsWriting (symbol_by G.IS_WIDE G.IS_BARE G.IS_BRIEF _s.now) self.old steps.Tail }
        ensures { OnSome result (IsWriting (symbol_by G.IS_WIDE G.IS_BARE G.IS_BRIEF _s.now) self.new steps.Component) }
    {
        self.add_unless(self.nest.is_listed, self.nest.from, self.nest.is_dependent)?;
        Some(())
    }

    /// Reads components of a nested name, up to arguments or its end.
    // <prefix> ::= <prefix> <unqualified-name>
    #[inline(always)]
    pub(crate) fn components_at<G: Grammar>(&mut self, s: &[u8]) -> Option<Step>
        requires fits { IsReadable s.now }
        requires writing { IsWriting (symbol_by G.IS_WIDE G.IS_BARE G.IS_BRIEF s.now) self.old steps.Component }
        ensures { IfSome result (IsWriting (symbol_by G.IS_WIDE G.IS_BARE G.IS_BRIEF s.now) self.new) }
    {
        for _ in 0..COMPONENTS_AT_ONCE {
            match self.component_at::<G>(s)? {
                Step::Tail => {}
                other => return Some(other),
            }
            if byte_at(s, self.at) == b'E' {
                return self.nest_ended::<G>(s);
            }
            self.go_on::<G>(s)?;
        }
        Some(Step::Component)
    }

    /// Whether the nested name ends in arguments of a function other than a constructor or a
    /// destructor.
    pub(crate) fn is_function_instance(&self) -> bool
        ensures { result ≡ self.now.nest.is_instance && self.now.nest.has_class }
    {
        self.nest.is_instance && self.nest.has_class
    }

    /// The arguments that the nested name ends in, as far as they are known.
    pub(crate) fn noted(&self) -> Arguments
        ensures known { self.now.nest.is_instance ≡ true → result ≡ self.now.argument }
        ensures none { self.now.nest.is_instance ≡ false → result ≡ nowhere }
    {
        if self.nest.is_instance {
            return self.argument;
        }
        NOWHERE
    }

    /// Reads the E of a nested name.
    #[inline(always)]
    fn nest_ended<G: Grammar>(&mut self, s: &[u8]) -> Option<Step>
        requires fits { IsReadable s.now }
        requires end { StandsAt s.now self.old.at (69 ∷ []) }
        requires writing { IsWriting (symbol_by G.IS_WIDE G.IS_BARE G.IS_BRIEF s.now) self.old steps.Tail }
        ensures { IfSome result (IsWriting (symbol_by G.IS_WIDE G.IS_BARE G.IS_BRIEF s.now) self.new) }
    {
        match self.nest.purpose {
            Purpose::Type => self.nest_type_ended::<G>(s),
            _ => self.nest_name_ended::<G>(s),
        }
    }

    /// Reads the E of a nested name that is a type.
    // <class-enum-type> ::= <name>
    #[inline(always)]
    fn nest_type_ended<G: Grammar>(&mut self, _s: &[u8]) -> Option<Step>
        requires end { StandsAt _s.now self.old.at (69 ∷ []) }
        requires purpose { self.old.nest.purpose ≡ purposes.Type }
        requires writing { IsWriting (symbol_by G.IS_WIDE G.IS_BARE G.IS_BRIEF _s.now) self.old steps.Tail }
        ensures { IfSome result (IsWriting (symbol_by G.IS_WIDE G.IS_BARE G.IS_BRIEF _s.now) self.new) }
    {
        self.at = self.at.checked_add(1)?;
        self.add_unless(self.nest.is_listed, self.nest.from, self.nest.is_dependent)?;
        Some(Step::Value {
            is_reference: false,
            is_dependent: self.nest.is_dependent,
        })
    }

    /// Reads the E of a nested name that is the name of a function or of data.
    #[inline(always)]
    fn nest_name_ended<G: Grammar>(&mut self, s: &[u8]) -> Option<Step>
        requires fits { IsReadable s.now }
        requires end { StandsAt s.now self.old.at (69 ∷ []) }
        requires writing { IsWriting (symbol_by G.IS_WIDE G.IS_BARE G.IS_BRIEF s.now) self.old steps.Tail }
        ensures { IfSome result (IsWriting (symbol_by G.IS_WIDE G.IS_BARE G.IS_BRIEF s.now) self.new) }
    {
        self.at = self.at.checked_add(1)?;
        match self.nest.purpose {
            Purpose::Type => None,
            Purpose::Name { mark } => {
                let argument = self.noted();
                let is_function = self.is_function_instance();
                self.name_ended::<G>(s, mark, is_function, argument, self.nest.from)
            }
            Purpose::Enclosing { mark, encoding } => {
                if self.is_function_instance() {
                    return self.enclosing_instance::<G>(s, mark, encoding, self.nest.from);
                }
                self.enclosing_named::<G>(s, mark, self.nest.from)
            }
            Purpose::Address { mark } => self.addressed_named::<G>(s, mark),
        }
    }

    /// Reads a component of a nested name.
    // <unqualified-name> ::= <source-name> | <operator-name> | <ctor-dtor-name>
    #[inline(always)]
    fn component_at<G: Grammar>(&mut self, s: &[u8]) -> Option<Step>
        requires fits { IsReadable s.now }
        requires writing { IsWriting (symbol_by G.IS_WIDE G.IS_BARE G.IS_BRIEF s.now) self.old steps.Component }
        ensures { IfSome result (IsWriting (symbol_by G.IS_WIDE G.IS_BARE G.IS_BRIEF s.now) self.new) }
    {
        match byte_at(s, self.at) {
            b'C' => self.constructor::<G>(s),
            b'D' => self.destructor::<G>(s),
            b'L' => self.source::<G>(s, true),
            b'U' => self.begin_component::<G>(s),
            b'a'..=b'z' => self.operator::<G>(s),
            _ => self.source::<G>(s, false),
        }
    }

    // <unqualified-name> ::= <source-name>
    #[inline(always)]
    fn source<G: Grammar>(&mut self, s: &[u8], is_internal: bool) -> Option<Step>
        requires fits { IsReadable s.now }
        requires letter { is_internal ≡ true → StandsAt s.now self.old.at (76 ∷ []) }
        requires writing { IsWriting (symbol_by G.IS_WIDE G.IS_BARE G.IS_BRIEF s.now) self.old steps.Component }
        ensures { IfSome result (IsWriting (symbol_by G.IS_WIDE G.IS_BARE G.IS_BRIEF s.now) self.new) }
    {
        if is_internal {
            self.at = self.at.checked_add(1)?;
        }
        self.push_pair(b':', b':')?;
        let class_from = self.text.end();
        self.name(s)?;
        self.nest = Nest {
            class_from,
            class_to: self.text.end(),
            is_listed: false,
            has_class: true,
            is_instance: false,
            ..self.nest
        };
        self.nest_named::<G>(s)
    }

    // <unqualified-name> ::= <operator-name>
    #[inline(never)]
    fn operator<G: Grammar>(&mut self, s: &[u8]) -> Option<Step>
        requires fits { IsReadable s.now }
        requires writing { IsWriting (symbol_by G.IS_WIDE G.IS_BARE G.IS_BRIEF s.now) self.old steps.Component }
        ensures { IfSome result (IsWriting (symbol_by G.IS_WIDE G.IS_BARE G.IS_BRIEF s.now) self.new) }
    {
        if self.nest.is_dependent {
            return None;
        }
        self.push_pair(b':', b':')?;
        let class_from = self.text.end();
        if !self.operator_name(s)? {
            return self.operator_ended::<G>(s);
        }
        self.nest = Nest {
            class_from,
            class_to: self.text.end(),
            is_listed: false,
            has_class: true,
            is_instance: false,
            ..self.nest
        };
        self.nest_named::<G>(s)
    }

    /// Reads the E of a nested name after an operator that takes no arguments.
    fn operator_ended<G: Grammar>(&mut self, s: &[u8]) -> Option<Step>
        requires fits { IsReadable s.now }
        requires read { IsOperatorRead (symbol_by G.IS_WIDE G.IS_BARE G.IS_BRIEF s.now) self.old }
        ensures { IfSome result (IsWriting (symbol_by G.IS_WIDE G.IS_BARE G.IS_BRIEF s.now) self.new) }
    {
        if byte_at(s, self.at) != b'E' {
            return None;
        }
        self.at = self.at.checked_add(1)?;
        match self.nest.purpose {
            Purpose::Name { mark } => self.name_ended::<G>(s, mark, false, NOWHERE, self.nest.from),
            _ => None,
        }
    }

    // <ctor-dtor-name> ::= C1 | C2 | C3, and by the wide grammar C4 | C5
    #[inline(never)]
    fn constructor<G: Grammar>(&mut self, s: &[u8]) -> Option<Step>
        requires fits { IsReadable s.now }
        requires letter { StandsAt s.now self.old.at (67 ∷ []) }
        requires writing { IsWriting (symbol_by G.IS_WIDE G.IS_BARE G.IS_BRIEF s.now) self.old steps.Component }
        ensures { IfSome result (IsWriting (symbol_by G.IS_WIDE G.IS_BARE G.IS_BRIEF s.now) self.new) }
    {
        self.at = self.at.checked_add(1)?;
        let digit = byte_at(s, self.at);
        if !is_constructor_digit::<G>(digit) || !self.nest.has_class || self.nest.is_dependent {
            return None;
        }
        self.at = self.at.checked_add(1)?;
        self.push(b"::")?;
        self.class_again::<G>(s)
    }

    // <ctor-dtor-name> ::= D0 | D1 | D2, and by the wide grammar D4 | D5
    #[inline(never)]
    fn destructor<G: Grammar>(&mut self, s: &[u8]) -> Option<Step>
        requires fits { IsReadable s.now }
        requires letter { StandsAt s.now self.old.at (68 ∷ []) }
        requires writing { IsWriting (symbol_by G.IS_WIDE G.IS_BARE G.IS_BRIEF s.now) self.old steps.Component }
        ensures { IfSome result (IsWriting (symbol_by G.IS_WIDE G.IS_BARE G.IS_BRIEF s.now) self.new) }
    {
        self.at = self.at.checked_add(1)?;
        let digit = byte_at(s, self.at);
        if !is_destructor_digit::<G>(digit) || !self.nest.has_class || self.nest.is_dependent {
            return None;
        }
        self.at = self.at.checked_add(1)?;
        self.push(b"::~")?;
        self.class_again::<G>(s)
    }

    /// Writes the name of the class again, as the name of its constructor or destructor.
    #[inline(always)]
    fn class_again<G: Grammar>(&mut self, s: &[u8]) -> Option<Step>
        requires fits { IsReadable s.now }
        requires awaits { AwaitsClass (symbol_by G.IS_WIDE G.IS_BARE G.IS_BRIEF s.now) self.old }
        ensures { IfSome result (IsWriting (symbol_by G.IS_WIDE G.IS_BARE G.IS_BRIEF s.now) self.new) }
    {
        self.repeat(self.nest.class_from, self.nest.class_to)?;
        self.nest = Nest {
            is_listed: false,
            has_class: false,
            is_instance: false,
            ..self.nest
        };
        self.nest_named::<G>(s)
    }
}
