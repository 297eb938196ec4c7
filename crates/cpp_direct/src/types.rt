// Types.

ghost use Rattle.std.specs.Prelude.{◌≡◌, ◌≢◌, ◌+◌, ◌-◌, ◌∷◌, [], length, slice_get, Some, Bool, true, false, if◌then◌else◌};
ghost use Rattle.std.specs.Option.{IfSome};
ghost use Rattle.cpp_direct.specs.Names.{IsReadable};
ghost use Rattle.cpp_direct.specs.declared.open.Step.TheVariants as steps;
ghost use Rattle.cpp_direct.specs.declared.open.Purpose.TheVariants as purposes;
ghost use Rattle.cpp_direct.specs.Holes.{StandsAt};
ghost use Rattle.cpp_direct.specs.WriterInvariant.{IsWriting};
ghost use Rattle.cpp_direct.specs.MidStep.{AwaitsType, AwaitsNamedType, IsTypeNamed, AwaitsMark, IsDependentNow, IsPassedClosed};
ghost use Rattle.cpp_direct.specs.Symbol.{symbol_by};

use crate::direct::Direct;
use crate::grammar::Grammar;
use crate::letters::is_builtin_with_d;
use crate::open::{Access, Nest, Open, Purpose, Step};
use crate::tokens::byte_at;

/// Whether an array begins after the byte at a place.
#[inline(always)]
fn is_array_behind(s: &[u8], at: usize) -> bool
    ensures { result ≡ true → StandsAt s.now (at + 1) (65 ∷ []) }
{
    match at.checked_add(1) {
        Some(behind) => byte_at(s, behind) == b'A',
        None => false,
    }
}

/// The entry for arguments once one of them names an argument of the function's template, if
/// arguments of that entry may name any.
pub fn dependent(entry: Open) -> Option<Open>
    ensures { IfSome result (IsDependentNow entry) }
{
    match entry {
        Open::TypeArguments { from, .. } => Some(Open::TypeArguments {
            from,
            is_dependent: true,
        }),
        Open::NestArguments { nest } => Some(Open::NestArguments {
            nest: dependent_nest(nest)?,
        }),
        Open::FirstArguments { nest } => Some(Open::FirstArguments {
            nest: dependent_nest(nest)?,
        }),
        Open::LevelArguments { .. } => Some(Open::LevelArguments { is_dependent: true }),
        _ => None,
    }
}

/// Likewise for a nested name that is a type.
fn dependent_nest(nest: Nest) -> Option<Nest>
    ensures { IfSome result (λ new. (nest.purpose ≡ purposes.Type) × (new ≡ record nest { is_dependent = true })) }
{
    match nest.purpose {
        Purpose::Type => Some(Nest {
            is_dependent: true,
            ..nest
        }),
        _ => None,
    }
}

impl Direct {
    /// Reads a type, up to the first type in it.
    // <type> ::= <builtin-type> | <qualified-type> | <class-enum-type> | P <type> | R <type> | O <type> | <substitution>
    #[inline(always)]
    pub(crate) fn type_at<G: Grammar>(&mut self, s: &[u8], is_plain: bool) -> Option<Step>
        requires fits { IsReadable s.now }
        requires writing { IsWriting (symbol_by G.IS_WIDE G.IS_BARE G.IS_BRIEF s.now) self.old (if is_plain then steps.Plain else steps.Type) }
        ensures { IfSome result (IsWriting (symbol_by G.IS_WIDE G.IS_BARE G.IS_BRIEF s.now) self.new) }
    {
        let from = self.text.end();
        match byte_at(s, self.at) {
            b'P' => self.pointer_at::<G>(s, is_plain),
            b'F' => {
                if is_plain {
                    return None;
                }
                self.begin_function::<G>(s, false)
            }
            b'R' => {
                if !is_plain && is_array_behind(s, self.at) {
                    return self.begin_array::<G>(s, Access::Lvalue);
                }
                self.open_type(Open::Lvalue { from }, Step::Type)
            }
            b'A' => {
                if is_plain {
                    return None;
                }
                self.begin_array::<G>(s, Access::Plain)
            }
            b'O' => self.rvalue_at::<G>(s),
            b'K' => {
                if is_plain {
                    return None;
                }
                self.open_type(Open::Const { from }, Step::Plain)
            }
            b'N' => self.nested_type::<G>(s),
            b'S' | b'Z' | b'1'..=b'9' => self.named_type::<G>(s),
            b'D' => self.builtin_with_d::<G>(s),
            b'T' => self.template_parameter::<G>(s),
            letter => self.builtin::<G>(s, letter),
        }
    }

    /// Reads a pointer, up to the first type in it.
    // <type> ::= P <type>
    #[inline(always)]
    fn pointer_at<G: Grammar>(&mut self, s: &[u8], is_plain: bool) -> Option<Step>
        requires fits { IsReadable s.now }
        requires letter { StandsAt s.now self.old.at (80 ∷ []) }
        requires awaits { AwaitsType (symbol_by G.IS_WIDE G.IS_BARE G.IS_BRIEF s.now) self.old }
        requires writing { IsWriting (symbol_by G.IS_WIDE G.IS_BARE G.IS_BRIEF s.now) self.old (if is_plain then steps.Plain else steps.Type) }
        ensures { IfSome result (IsWriting (symbol_by G.IS_WIDE G.IS_BARE G.IS_BRIEF s.now) self.new) }
    {
        if !is_plain && byte_at(s, self.at.checked_add(1)?) == b'F' {
            return self.begin_function::<G>(s, true);
        }
        if !is_plain && is_array_behind(s, self.at) {
            return self.begin_array::<G>(s, Access::Pointer);
        }
        let from = self.text.end();
        self.open_type(Open::Pointer { from }, Step::Type)
    }

    /// Reads a type that is a name, up to the first type in it.
    // <class-enum-type> ::= <name>
    pub(crate) fn named_type<G: Grammar>(&mut self, s: &[u8]) -> Option<Step>
        requires fits { IsReadable s.now }
        requires awaits { AwaitsNamedType (symbol_by G.IS_WIDE G.IS_BARE G.IS_BRIEF s.now) self.old }
        ensures { IfSome result (IsWriting (symbol_by G.IS_WIDE G.IS_BARE G.IS_BRIEF s.now) self.new) }
    {
        let from = self.text.end();
        match byte_at(s, self.at) {
            b'N' => self.nested_type::<G>(s),
            b'S' => self.type_with_s::<G>(s),
            b'Z' => self.begin_enclosing::<G>(s),
            _ => {
                self.name(s)?;
                self.type_named::<G>(s, from, false, false)
            }
        }
    }

    // <class-enum-type> ::= <nested-name>
    #[inline(always)]
    fn nested_type<G: Grammar>(&mut self, s: &[u8]) -> Option<Step>
        requires fits { IsReadable s.now }
        requires letter { StandsAt s.now self.old.at (78 ∷ []) }
        requires awaits { AwaitsNamedType (symbol_by G.IS_WIDE G.IS_BARE G.IS_BRIEF s.now) self.old }
        ensures { IfSome result (IsWriting (symbol_by G.IS_WIDE G.IS_BARE G.IS_BRIEF s.now) self.new) }
    {
        self.at = self.at.checked_add(1)?;
        self.nest_at::<G>(s, Purpose::Type)
    }

    // <builtin-type> ::= v | w | b | ..
    #[inline(always)]
    fn builtin<G: Grammar>(&mut self, _s: &[u8], letter: u8) -> Option<Step>
        requires letter { letter ≢ 0 → StandsAt _s.now self.old.at (letter ∷ []) }
        requires awaits { AwaitsType (symbol_by G.IS_WIDE G.IS_BARE G.IS_BRIEF _s.now) self.old }
        ensures { IfSome result (IsWriting (symbol_by G.IS_WIDE G.IS_BARE G.IS_BRIEF _s.now) self.new) }
    {
        let text = cpp_layout::builtin_text(letter);
        if text.is_empty() {
            return None;
        }
        self.at = self.at.checked_add(1)?;
        self.push(text)?;
        Some(Step::Value {
            is_reference: false,
            is_dependent: false,
        })
    }

    // <builtin-type> ::= Di | Ds | Du | Da | Dc | Dn
    #[inline(never)]
    fn builtin_with_d<G: Grammar>(&mut self, s: &[u8]) -> Option<Step>
        requires letter { StandsAt s.now self.old.at (68 ∷ []) }
        requires awaits { AwaitsType (symbol_by G.IS_WIDE G.IS_BARE G.IS_BRIEF s.now) self.old }
        ensures { IfSome result (IsWriting (symbol_by G.IS_WIDE G.IS_BARE G.IS_BRIEF s.now) self.new) }
    {
        self.at = self.at.checked_add(1)?;
        let letter = byte_at(s, self.at);
        if !is_builtin_with_d(letter) {
            return None;
        }
        self.at = self.at.checked_add(1)?;
        self.push(cpp_layout::builtin_with_d_text(letter))?;
        Some(Step::Value {
            is_reference: false,
            is_dependent: false,
        })
    }

    // <substitution> ::= S <seq-id> _ | S_ | St | Sa | Ss | Sb | Si | So | Sd
    fn type_with_s<G: Grammar>(&mut self, s: &[u8]) -> Option<Step>
        requires fits { IsReadable s.now }
        requires letter { StandsAt s.now self.old.at (83 ∷ []) }
        requires awaits { AwaitsNamedType (symbol_by G.IS_WIDE G.IS_BARE G.IS_BRIEF s.now) self.old }
        ensures { IfSome result (IsWriting (symbol_by G.IS_WIDE G.IS_BARE G.IS_BRIEF s.now) self.new) }
    {
        let from = self.text.end();
        self.at = self.at.checked_add(1)?;
        let letter = byte_at(s, self.at);
        if letter == b't' {
            self.at = self.at.checked_add(1)?;
            self.push(b"std::")?;
            self.name(s)?;
            return self.type_named::<G>(s, from, false, false);
        }
        let text = cpp_layout::abbreviation_text(letter);
        if !text.is_empty() {
            self.at = self.at.checked_add(1)?;
            self.push(text)?;
            return self.type_named::<G>(s, from, true, false);
        }
        let candidate = self.substitution(s)?;
        if candidate.is_dependent {
            return self.dependent_again::<G>(s, candidate);
        }
        self.repeat(candidate.from, candidate.to)?;
        self.type_named::<G>(s, from, true, candidate.is_reference)
    }

    /// The name of a type is read. Arguments may follow it.
    // <class-enum-type> ::= <name> | <template-template-param> <template-args>
    #[inline(always)]
    fn type_named<G: Grammar>(
        &mut self,
        s: &[u8],
        from: u32,
        is_listed: bool,
        is_reference: bool,
    ) -> Option<Step>
        requires { IsTypeNamed (symbol_by G.IS_WIDE G.IS_BARE G.IS_BRIEF s.now) self.old from is_listed is_reference }
        ensures { IfSome result (IsWriting (symbol_by G.IS_WIDE G.IS_BARE G.IS_BRIEF s.now) self.new) }
    {
        self.add_unless(is_listed, from, false)?;
        if byte_at(s, self.at) != b'I' {
            return Some(Step::Value {
                is_reference,
                is_dependent: false,
            });
        }
        if is_reference {
            return None;
        }
        self.open_arguments::<G>(Open::TypeArguments {
            from,
            is_dependent: false,
        })
    }

    /// Forwards a type to the entry that waits for it.
    pub(crate) fn pass<G: Grammar>(
        &mut self,
        s: &[u8],
        is_reference: bool,
        is_dependent: bool,
    ) -> Option<Step>
        requires fits { IsReadable s.now }
        requires writing { IsWriting (symbol_by G.IS_WIDE G.IS_BARE G.IS_BRIEF s.now) self.old (steps.Value is_reference is_dependent) }
        ensures { IfSome result (IsWriting (symbol_by G.IS_WIDE G.IS_BARE G.IS_BRIEF s.now) self.new) }
    {
        let entry = *self.waiting.as_slice().last()?;
        match entry {
            Open::Pointer { .. } | Open::Lvalue { .. } | Open::Rvalue { .. } | Open::Const { .. } =>
                self.pass_to_mark::<G>(s, entry, is_reference, is_dependent),
            Open::Parameters {
                mark,
                start,
                argument,
            } => self.parameter_ended::<G>(s, mark, start, argument),
            Open::Front {
                mark,
                start,
                argument,
            } => self.front_ended::<G>(s, mark, start, argument),
            _ => {
                if is_dependent {
                    return self.pass_dependent::<G>(s);
                }
                self.pass_closed::<G>(s, entry, is_reference)
            }
        }
    }

    /// Forwards a type that names no argument of the function's template.
    #[inline(always)]
    fn pass_closed<G: Grammar>(&mut self, s: &[u8], entry: Open, is_reference: bool) -> Option<Step>
        requires fits { IsReadable s.now }
        requires writing { IsWriting (symbol_by G.IS_WIDE G.IS_BARE G.IS_BRIEF s.now) self.old (steps.Value is_reference false) }
        requires waits { slice_get self.old.waiting.list.items (length self.old.waiting.list.items - 1) ≡ Some entry }
        requires others { IsPassedClosed entry }
        ensures { IfSome result (IsWriting (symbol_by G.IS_WIDE G.IS_BARE G.IS_BRIEF s.now) self.new) }
    {
        match entry {
            Open::Returned { is_pointer } => self.returned::<G>(s, is_pointer),
            Open::Signature { is_pointer } => self.parameter_at::<G>(s, is_pointer, false),
            Open::Array { access, from, to } => self.array_ended::<G>(s, access, from, to),
            Open::Enclosing { mark, from, to } => self.enclosing_parameter::<G>(s, mark, from, to),
            Open::EnclosingInstance { mark, from, to, .. } => self.instance_parameter::<G>(
                s, mark, from, to,
            ),
            Open::EnclosingFront {
                mark,
                from,
                to,
                argument,
            } => self.enclosing_front::<G>(s, mark, from, to, argument),
            Open::Lambda { from, holder } => self.lambda_parameter::<G>(s, from, holder),
            Open::Member { mark, to } => self.member_parameter::<G>(s, mark, to),
            Open::AddressedFront { mark, to, argument } => self.addressed_front::<G>(
                s, mark, to, argument,
            ),
            Open::Addressed { mark, to, .. } => self.addressed_parameter::<G>(s, mark, to),
            Open::Address { .. } => None,
            Open::Special => self.finish::<G>(s),
            Open::Derived => self.derived_ended::<G>(s),
            Open::Base { to } => self.base_ended::<G>(s, to),
            Open::Enumerator => self.enumerator::<G>(s),
            Open::ArgumentEnumerator { .. } | Open::Argument { .. } | Open::Element { .. } =>
                self.pass_to_argument::<G>(s, entry, is_reference),
            _ => Some(Step::List { is_first: false }),
        }
    }

    /// Forwards a type that names no argument of the function's template. The entry that waits for
    /// the type is one for an argument of a name, or for an element of a pack.
    #[inline(always)]
    fn pass_to_argument<G: Grammar>(
        &mut self,
        s: &[u8],
        entry: Open,
        is_reference: bool,
    ) -> Option<Step>
        requires fits { IsReadable s.now }
        requires writing { IsWriting (symbol_by G.IS_WIDE G.IS_BARE G.IS_BRIEF s.now) self.old (steps.Value is_reference false) }
        requires waits { slice_get self.old.waiting.list.items (length self.old.waiting.list.items - 1) ≡ Some entry }
        ensures { IfSome result (IsWriting (symbol_by G.IS_WIDE G.IS_BARE G.IS_BRIEF s.now) self.new) }
    {
        match entry {
            Open::ArgumentEnumerator {
                from,
                number,
                known,
            } => self.argument_enumerator::<G>(s, from, number, known),
            Open::Argument {
                from,
                number,
                known,
            } => self.argument_ended::<G>(s, from, number, known, is_reference),
            Open::Element {
                from,
                number,
                known,
            } => self.element_ended::<G>(s, from, number, known, is_reference),
            _ => None,
        }
    }

    /// Forwards a type that names arguments of the function's template to the waiting entry.
    // <template-arg> ::= <type>
    #[inline(never)]
    fn pass_dependent<G: Grammar>(&mut self, s: &[u8]) -> Option<Step>
        requires fits { IsReadable s.now }
        requires writing { (is_reference : Bool) × IsWriting (symbol_by G.IS_WIDE G.IS_BARE G.IS_BRIEF s.now) self.old (steps.Value is_reference true) }
        ensures { IfSome result (IsWriting (symbol_by G.IS_WIDE G.IS_BARE G.IS_BRIEF s.now) self.new) }
    {
        let entry = *self.waiting.as_slice().last()?;
        match entry {
            Open::EnclosingInstance { mark, from, to, .. } => self.instance_parameter::<G>(
                s, mark, from, to,
            ),
            Open::AddressedFront { mark, to, argument } => self.addressed_front::<G>(
                s, mark, to, argument,
            ),
            Open::Addressed { mark, to, .. } => self.addressed_parameter::<G>(s, mark, to),
            Open::EnclosingFront {
                mark,
                from,
                to,
                argument,
            } => self.enclosing_front::<G>(s, mark, from, to, argument),
            _ => self.note_dependent::<G>(s),
        }
    }

    /// One of the arguments of a type names arguments of the function's template.
    // <template-arg> ::= <type>
    #[inline(always)]
    fn note_dependent<G: Grammar>(&mut self, _s: &[u8]) -> Option<Step>
        requires writing { (is_reference : Bool) × IsWriting (symbol_by G.IS_WIDE G.IS_BARE G.IS_BRIEF _s.now) self.old (steps.Value is_reference true) }
        ensures { IfSome result (IsWriting (symbol_by G.IS_WIDE G.IS_BARE G.IS_BRIEF _s.now) self.new) }
    {
        let entry = dependent(self.waiting.pop()?)?;
        self.waiting.push(entry)?;
        Some(Step::List { is_first: false })
    }

    /// Forwards a type to the mark that waits for it.
    #[inline(always)]
    fn pass_to_mark<G: Grammar>(
        &mut self,
        s: &[u8],
        entry: Open,
        is_reference: bool,
        is_dependent: bool,
    ) -> Option<Step>
        requires fits { IsReadable s.now }
        requires writing { IsWriting (symbol_by G.IS_WIDE G.IS_BARE G.IS_BRIEF s.now) self.old (steps.Value is_reference is_dependent) }
        requires waits { slice_get self.old.waiting.list.items (length self.old.waiting.list.items - 1) ≡ Some entry }
        ensures { IfSome result (IsWriting (symbol_by G.IS_WIDE G.IS_BARE G.IS_BRIEF s.now) self.new) }
    {
        match entry {
            Open::Pointer { from } => self.mark::<G>(s, b"*", from, false, is_dependent),
            Open::Lvalue { from } => {
                if is_reference {
                    return None;
                }
                self.mark::<G>(s, b"&", from, true, is_dependent)
            }
            Open::Rvalue { from } => {
                if is_reference {
                    return None;
                }
                self.mark::<G>(s, b"&&", from, true, is_dependent)
            }
            Open::Const { from } => {
                if is_reference {
                    return None;
                }
                self.mark::<G>(s, b" const", from, false, is_dependent)
            }
            _ => None,
        }
    }

    /// Ends a type with a mark.
    #[inline(always)]
    fn mark<G: Grammar>(
        &mut self,
        _s: &[u8],
        mark: &[u8],
        from: u32,
        is_reference: bool,
        is_dependent: bool,
    ) -> Option<Step>
        requires { AwaitsMark (symbol_by G.IS_WIDE G.IS_BARE G.IS_BRIEF _s.now) self.old mark.now from is_reference is_dependent }
        ensures { IfSome result (IsWriting (symbol_by G.IS_WIDE G.IS_BARE G.IS_BRIEF _s.now) self.new) }
    {
        let _open = self.waiting.pop();
        self.push_short(mark)?;
        self.add_candidate(from, is_reference, is_dependent)?;
        Some(Step::Value {
            is_reference,
            is_dependent,
        })
    }
}
