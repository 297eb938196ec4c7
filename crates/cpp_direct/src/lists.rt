// Template arguments.

ghost use Rattle.std.specs.Prelude.{◌≡◌, ◌∷◌, [], ◌⊎◌, ◌+◌, ℕ, List, Bool, length, nat_eq, true, false};
ghost use Rattle.std.specs.Option.{OnSome, IfSome};
ghost use Rattle.cpp_grammar.specs.Parts.{is_plain_integer};
ghost use Rattle.cpp_grammar.specs.Term.{builtin};
ghost use Rattle.cpp_grammar.specs.Values as values;
ghost use Rattle.cpp_grammar.specs.Values.{signed_digits};
ghost use Rattle.cpp_direct.specs.Names.{IsReadable};
ghost use Rattle.cpp_direct.specs.declared.open.Step.TheVariants as steps;
ghost use Rattle.cpp_direct.specs.Holes.{StandsAt};
ghost use Rattle.cpp_direct.specs.HolesOfLists.{IsDigitsAt, minus_sign};
ghost use Rattle.cpp_direct.specs.ItemBytes.{is_integer_letter};
ghost use Rattle.cpp_direct.specs.WriterInvariant.{IsWriting};
ghost use Rattle.cpp_direct.specs.MidStep.{EndsOtherwise, IsListEnded, AwaitsNextArgument, AwaitsNumber, IsLiteralRead, truth_text, number_text, integer_text};
ghost use Rattle.cpp_direct.specs.Written.{Reads};
ghost use Rattle.cpp_direct.specs.Symbol.{symbol_by};

use crate::direct::Direct;
use crate::grammar::Grammar;
use crate::letters::is_integer_letter;
use crate::open::{Arguments, Mark, Nest, Open, Step};
use crate::symbols::NOWHERE;
use crate::tokens::byte_at;
use sym_core::{NumberKind, find_number};

/// Digits without leading zeros, 0 for zero.
pub fn normal(digits: &[u8]) -> &[u8]
    ensures { result.now ≡ values.normal digits.now }
{
    let mut at = 0;
    'zeros: while at + 1 < digits.len() {
        if digits[at] != b'0' {
            return &digits[at..];
        }
        at += 1;
    }
    &digits[at..]
}

/// Whether the digits are just a 0.
#[tactic(auto, unfolding(cpp_grammar::specs::Values::is_zero))]
#[inline(always)]
fn is_zero(digits: &[u8]) -> bool
    ensures { result ≡ values.is_zero digits.now }
{
    match digits {
        [digit] => *digit == b'0',
        _ => false,
    }
}

/// Whether the integers of the type with this letter omit the type.
#[tactic(auto, unfolding(cpp_grammar::specs::Parts::is_plain_integer))]
#[inline(always)]
fn is_plain_letter(letter: u8) -> bool
    ensures { result ≡ is_plain_integer (builtin (letter ∷ [])) }
{
    match letter {
        b'i' => true,
        b'j' => true,
        b'l' => true,
        b'm' => true,
        b'x' => true,
        b'y' => true,
        _ => false,
    }
}

/// Whether the literal at a place is an enumerator: its type has a name.
pub fn is_enumerator_at(s: &[u8], at: usize) -> bool {
    match s.get(at..) {
        Some([_, behind, ..]) => match *behind {
            b'N' | b'S' | b'1'..=b'9' => true,
            _ => false,
        },
        _ => false,
    }
}

/// Whether a literal of a builtin type is at a place.
pub fn is_plain_literal_at(s: &[u8], at: usize) -> bool
    ensures { result ≡ true → StandsAt s.now at (76 ∷ []) }
{
    byte_at(s, at) == b'L' && !is_enumerator_at(s, at)
}

impl Direct {
    /// Reads an argument or an element of a pack up to the first type in it, or reads the end of
    /// the list.
    // <template-args> ::= I <template-arg>* E
    pub(crate) fn list_at<G: Grammar>(&mut self, s: &[u8], is_first: bool) -> Option<Step>
        requires fits { IsReadable s.now }
        requires writing { IsWriting (symbol_by G.IS_WIDE G.IS_BARE G.IS_BRIEF s.now) self.old (steps.List is_first) }
        ensures { IfSome result (IsWriting (symbol_by G.IS_WIDE G.IS_BARE G.IS_BRIEF s.now) self.new) }
    {
        let byte = byte_at(s, self.at);
        if byte == b'E' {
            return self.list_ended::<G>(s, is_first);
        }
        if byte == b'J' {
            let behind = byte_at(s, self.at.checked_add(1)?);
            if behind == b'E' {
                return self.empty_pack::<G>(s, is_first);
            }
            if is_first {
                return self.first_pack::<G>(s);
            }
        }
        if !is_first {
            self.push_pair(b',', b' ')?;
        }
        if G::IS_WIDE && byte == b'X' {
            match byte_at(s, self.at.checked_add(1)?) {
                b's' => return self.begin_level::<G>(s),
                b'T' => return self.parameter_argument::<G>(s),
                _ => {}
            }
        }
        match byte {
            b'L' => {
                if is_first {
                    return self.first_literal::<G>(s);
                }
                self.literal::<G>(s)
            }
            b'J' => self.begin_pack::<G>(s),
            _ => {
                if is_first {
                    return self.first_type::<G>(s);
                }
                Some(Step::Type)
            }
        }
    }

    // <template-arg> ::= J <template-arg>* E
    #[inline(always)]
    pub(crate) fn begin_pack<G: Grammar>(&mut self, s: &[u8]) -> Option<Step>
        requires letter { StandsAt s.now self.old.at (74 ∷ []) }
        requires awaits { AwaitsNextArgument (symbol_by G.IS_WIDE G.IS_BARE G.IS_BRIEF s.now) self.old }
        ensures { IfSome result (IsWriting (symbol_by G.IS_WIDE G.IS_BARE G.IS_BRIEF s.now) self.new) }
    {
        match *self.waiting.as_slice().last()? {
            Open::Pack => None,
            _ => self.open_type(Open::Pack, Step::List { is_first: true }),
        }
    }

    /// Reads an empty pack, which isn't written, at the end of arguments.
    // <template-arg> ::= J <template-arg>* E
    #[inline(never)]
    fn empty_pack<G: Grammar>(&mut self, s: &[u8], is_first: bool) -> Option<Step>
        requires fits { IsReadable s.now }
        requires letters { StandsAt s.now self.old.at (74 ∷ 69 ∷ []) }
        requires writing { IsWriting (symbol_by G.IS_WIDE G.IS_BARE G.IS_BRIEF s.now) self.old (steps.List is_first) }
        ensures { IfSome result (IsWriting (symbol_by G.IS_WIDE G.IS_BARE G.IS_BRIEF s.now) self.new) }
    {
        self.at = self.at.checked_add(2)?;
        if byte_at(s, self.at) != b'E' {
            return None;
        }
        self.at = self.at.checked_add(1)?;
        match *self.waiting.as_slice().last()? {
            Open::Pack => None,
            _ => self.close_list::<G>(
                s,
                Arguments {
                    has_pack: is_first,
                    ..NOWHERE
                },
            ),
        }
    }

    /// Reads the E of arguments or of a pack.
    #[inline(always)]
    fn list_ended<G: Grammar>(&mut self, s: &[u8], is_first: bool) -> Option<Step>
        requires fits { IsReadable s.now }
        requires letter { StandsAt s.now self.old.at (69 ∷ []) }
        requires writing { IsWriting (symbol_by G.IS_WIDE G.IS_BARE G.IS_BRIEF s.now) self.old (steps.List is_first) }
        ensures { IfSome result (IsWriting (symbol_by G.IS_WIDE G.IS_BARE G.IS_BRIEF s.now) self.new) }
    {
        self.at = self.at.checked_add(1)?;
        match *self.waiting.as_slice().last()? {
            Open::Pack => {
                // an empty pack, with no comma before it, denotes nothing
                if is_first {
                    return None;
                }
                let _open = self.waiting.pop();
                Some(Step::List { is_first: false })
            }
            _ => self.close_list::<G>(s, NOWHERE),
        }
    }

    /// Ends arguments. Some of them may be known.
    pub(crate) fn close_list<G: Grammar>(&mut self, s: &[u8], argument: Arguments) -> Option<Step>
        requires fits { IsReadable s.now }
        requires ended { IsListEnded (symbol_by G.IS_WIDE G.IS_BARE G.IS_BRIEF s.now) self.old argument }
        ensures { IfSome result (IsWriting (symbol_by G.IS_WIDE G.IS_BARE G.IS_BRIEF s.now) self.new) }
    {
        self.end_arguments::<G>()?;
        self.argument = argument;
        match self.waiting.pop()? {
            Open::TypeArguments { from, is_dependent } => {
                self.add_candidate(from, false, is_dependent)?;
                Some(Step::Value {
                    is_reference: false,
                    is_dependent,
                })
            }
            Open::NestArguments { nest } => {
                self.nest = Nest {
                    is_listed: false,
                    is_instance: true,
                    ..nest
                };
                self.tail_at::<G>(s)
            }
            Open::FirstArguments { nest } => {
                self.add_candidate(nest.from, false, nest.is_dependent)?;
                self.nest = nest;
                Some(Step::Component)
            }
            Open::NameArguments { from } => {
                self.name_ended::<G>(s, Mark::Plain, true, argument, from)
            }
            Open::LevelArguments { is_dependent } => self.level_ended::<G>(s, is_dependent),
            _ => None,
        }
    }

    // <expr-primary> ::= L <type> <value number> E | Lb0E | Lb1E
    pub(crate) fn literal<G: Grammar>(&mut self, s: &[u8]) -> Option<Step>
        requires fits { IsReadable s.now }
        requires letter { StandsAt s.now self.old.at (76 ∷ []) }
        requires awaits { AwaitsNextArgument (symbol_by G.IS_WIDE G.IS_BARE G.IS_BRIEF s.now) self.old }
        ensures { IfSome result (IsWriting (symbol_by G.IS_WIDE G.IS_BARE G.IS_BRIEF s.now) self.new) }
    {
        if !is_enumerator_at(s, self.at) {
            self.plain_literal::<G>(s)?;
            return Some(Step::List { is_first: false });
        }
        self.at = self.at.checked_add(1)?;
        self.push(b"(")?;
        self.waiting.push(Open::Enumerator)?;
        self.named_type::<G>(s)
    }

    /// Reads a literal of a builtin type.
    // <expr-primary> ::= L <type> <value number> E | Lb0E | Lb1E
    pub(crate) fn plain_literal<G: Grammar>(&mut self, s: &[u8]) -> Option<()>
        requires fits { IsReadable s.now }
        requires letter { StandsAt s.now self.old.at (76 ∷ []) }
        ensures { OnSome result (IsLiteralRead (symbol_by G.IS_WIDE G.IS_BARE G.IS_BRIEF s.now) self.old self.new) }
    {
        self.at = self.at.checked_add(1)?;
        if byte_at(s, self.at) == b'b' {
            self.boolean(s)?;
            self.literal_ended(s)?;
            return Some(());
        }
        self.integer(s)?;
        self.literal_ended(s)?;
        Some(())
    }

    /// Whether the written text ends in the name of a type whose integers omit the type, after a
    /// bracket or a blank.
    pub(crate) fn ends_as_integer(&self) -> bool
        ensures { result ≡ false → EndsOtherwise self.now.text.list.items }
    {
        if self.text.as_slice().ends_with(b"(int") {
            return true;
        }
        if self.text.as_slice().ends_with(b" int") {
            return true;
        }
        if self.text.as_slice().ends_with(b"(long") {
            return true;
        }
        if self.text.as_slice().ends_with(b" long") {
            return true;
        }
        false
    }

    /// Reads the number of an enumerator, after its type.
    // <expr-primary> ::= L <type> <value number> E
    pub(crate) fn enumerator<G: Grammar>(&mut self, s: &[u8]) -> Option<Step>
        requires fits { IsReadable s.now }
        requires awaits { AwaitsNumber (symbol_by G.IS_WIDE G.IS_BARE G.IS_BRIEF s.now) self.old }
        ensures { IfSome result (IsWriting (symbol_by G.IS_WIDE G.IS_BARE G.IS_BRIEF s.now) self.new) }
    {
        if self.ends_as_integer() {
            return None;
        }
        let _open = self.waiting.pop();
        self.push(b")")?;
        self.number(s)?;
        self.literal_ended(s)?;
        Some(Step::List { is_first: false })
    }

    /// Reads the end of a literal.
    #[inline(always)]
    pub(crate) fn literal_ended(&mut self, s: &[u8]) -> Option<()>
        ensures { OnSome result (StandsAt s.now self.old.at (69 ∷ []) × (self.new.at ≡ self.old.at + 1) × Reads self.old self.new []) }
    {
        if byte_at(s, self.at) != b'E' {
            return None;
        }
        self.at = self.at.checked_add(1)?;
        Some(())
    }

    /// Reads a truth value with its type; the writer is at the letter of the type.
    fn boolean(&mut self, s: &[u8]) -> Option<()>
        requires { StandsAt s.now self.old.at (98 ∷ []) }
        ensures { OnSome result ((digit : ℕ) × ((digit ≡ 48) ⊎ (digit ≡ 49)) × StandsAt s.now self.old.at (98 ∷ digit ∷ [])
            × (self.new.at ≡ self.old.at + 2) × Reads self.old self.new (truth_text (nat_eq digit 49))) }
    {
        self.at = self.at.checked_add(1)?;
        let digit = byte_at(s, self.at);
        self.at = self.at.checked_add(1)?;
        match digit {
            b'0' => self.push(b"false"),
            b'1' => self.push(b"true"),
            _ => None,
        }
    }

    /// Reads an integer with its type; the writer is at the letter of the type.
    fn integer(&mut self, s: &[u8]) -> Option<()>
        requires { IsReadable s.now }
        ensures { OnSome result ((letter : ℕ) × (is_negative : Bool) × (digits : List ℕ) × (is_integer_letter letter ≡ true)
            × StandsAt s.now self.old.at (letter ∷ minus_sign is_negative)
            × IsDigitsAt s.now (self.old.at + 1 + length (minus_sign is_negative)) digits self.new.at
            × Reads self.old self.new (integer_text letter (signed_digits is_negative digits))) }
    {
        let letter = byte_at(s, self.at);
        if !is_integer_letter(letter) {
            return None;
        }
        self.at = self.at.checked_add(1)?;
        if is_plain_letter(letter) {
            self.number(s)?;
            return self.push(cpp_layout::ending_text(letter));
        }
        self.push(b"(")?;
        self.push(cpp_layout::builtin_text(letter))?;
        self.push(b")")?;
        self.number(s)
    }

    // <number> ::= [n] <non-negative decimal integer>
    pub(crate) fn number(&mut self, s: &[u8]) -> Option<()>
        requires { IsReadable s.now }
        ensures { OnSome result ((is_negative : Bool) × (digits : List ℕ) × StandsAt s.now self.old.at (minus_sign is_negative)
            × IsDigitsAt s.now (self.old.at + length (minus_sign is_negative)) digits self.new.at
            × Reads self.old self.new (number_text (signed_digits is_negative digits))) }
    {
        if byte_at(s, self.at) == b'n' {
            self.at = self.at.checked_add(1)?;
            return self.digits(s, true);
        }
        self.digits(s, false)
    }

    /// Reads the digits of a number after its sign, and writes both.
    // <non-negative decimal integer>
    fn digits(&mut self, s: &[u8], is_negative: bool) -> Option<()>
        requires { IsReadable s.now }
        ensures { OnSome result ((digits : List ℕ) × IsDigitsAt s.now self.old.at digits self.new.at
            × Reads self.old self.new (number_text (signed_digits is_negative digits))) }
    {
        if self.at > s.len() {
            return None;
        }
        let place = find_number(s, self.at, NumberKind::Digits).ok()?;
        let digits = normal(&s[place.from..place.to]);
        self.at = place.end;
        if !is_negative {
            return self.push(digits);
        }
        if is_zero(digits) {
            return self.push(digits);
        }
        self.push(b"-")?;
        self.push(digits)
    }
}
