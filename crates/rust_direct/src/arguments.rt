// Arguments of paths.

ghost use Rattle.std.specs.Prelude.{◌≢◌, ◌∷◌, []};
ghost use Rattle.std.specs.Option.{IfSome, OnSome};
ghost use Rattle.sym_core.specs.Number.{FitsSymbol};
ghost use Rattle.sym_direct.specs.Holes.{StandsAt};
ghost use Rattle.rust_direct.specs.declared.open.Step.TheVariants as steps;
ghost use Rattle.rust_direct.specs.declared.open.Open.TheVariants as opens;
ghost use Rattle.rust_direct.specs.Prints.{opening, closing};
ghost use Rattle.rust_direct.specs.Written.{Writes};
ghost use Rattle.rust_direct.specs.WriterInvariant.{IsWriting};
ghost use Rattle.rust_direct.specs.Awaits.{AwaitsArgument, Receives};

use crate::direct::Direct;
use crate::open::{Forms, Open, Step, form_of, has_form, is_type};
use crate::showing::Showing;
use sym_direct::{CLOSES, OPENS, byte_at};

impl Direct {
    /// The path before arguments is read.
    // <path> = "I" <path> {<generic-arg>} "E"
    pub(crate) fn generic_ended<S: Showing>(
        &mut self,
        _s: &[u8],
        from: usize,
        forms: Forms,
        is_value: bool,
        place: usize,
    ) -> Option<Step>
        requires { Receives S.IS_BRIEF _s.now self.old (opens.Generic is_value place) from forms }
        ensures { IfSome result (IsWriting S.IS_BRIEF _s.now self.new) }
    {
        if !has_form(is_value, forms) {
            return None;
        }
        self.push_opening::<S>(is_value)?;
        self.waiting.push(Open::Argument {
            place,
            from,
            is_value,
        })?;
        Some(Step::Arguments { is_first: true })
    }

    /// Writes the text before arguments, or a mark if they aren't to be shown.
    #[inline(always)]
    fn push_opening<S: Showing>(&mut self, is_value: bool) -> Option<()>
        ensures { OnSome result (Writes self.old self.new (opening S.IS_BRIEF is_value)) }
    {
        if S::IS_BRIEF {
            return self.push_byte(OPENS);
        }
        if is_value {
            return self.push(b"::<");
        }
        self.push_byte(b'<')
    }

    /// Writes the text after arguments.
    #[inline(always)]
    fn push_closing<S: Showing>(&mut self) -> Option<()>
        ensures { OnSome result (Writes self.old self.new (closing S.IS_BRIEF)) }
    {
        if S::IS_BRIEF {
            return self.push_byte(CLOSES);
        }
        self.push_byte(b'>')
    }

    /// Reads an argument, or the end of arguments.
    // <path> = "I" <path> {<generic-arg>} "E"
    pub(crate) fn argument_at<S: Showing>(&mut self, s: &[u8], is_first: bool) -> Option<Step>
        requires fits { FitsSymbol s.now }
        requires writing { IsWriting S.IS_BRIEF s.now self.old (steps.Arguments is_first) }
        ensures { IfSome result (IsWriting S.IS_BRIEF s.now self.new) }
    {
        let byte = byte_at(s, self.at);
        if byte == b'E' {
            return self.arguments_ended::<S>(s, is_first);
        }
        if is_first {
            return self.next_argument::<S>(s, byte, true);
        }
        self.push_pair(b',', b' ')?;
        self.next_argument::<S>(s, byte, false)
    }

    /// Reads an argument, up to the first type in it.
    // <generic-arg> = <lifetime> | <type> | "K" <const>
    #[inline(always)]
    fn next_argument<S: Showing>(&mut self, s: &[u8], byte: u8, is_first: bool) -> Option<Step>
        requires fits { FitsSymbol s.now }
        requires letter { byte ≢ 0 → StandsAt s.now self.old.at (byte ∷ []) }
        requires awaits { AwaitsArgument S.IS_BRIEF s.now self.old is_first }
        ensures { IfSome result (IsWriting S.IS_BRIEF s.now self.new) }
    {
        if byte == b'L' {
            return self.lifetime_argument::<S>(s, is_first);
        }
        if byte == b'K' {
            return self.constant_argument::<S>(s, is_first);
        }
        Some(Step::Type)
    }

    /// Reads an erased lifetime among arguments; gives the symbol up at any other lifetime.
    // <generic-arg> = <lifetime>
    fn lifetime_argument<S: Showing>(&mut self, s: &[u8], _is_first: bool) -> Option<Step>
        requires letter { StandsAt s.now self.old.at (76 ∷ []) }
        requires awaits { AwaitsArgument S.IS_BRIEF s.now self.old _is_first }
        ensures { IfSome result (IsWriting S.IS_BRIEF s.now self.new) }
    {
        let digits = self.at.checked_add(1)?;
        if byte_at(s, digits) != b'_' {
            return None;
        }
        self.at = digits.checked_add(1)?;
        self.push_pair(b'\'', b'_')?;
        Some(Step::Arguments { is_first: false })
    }

    /// The E of arguments.
    // <path> = "I" <path> {<generic-arg>} "E"
    fn arguments_ended<S: Showing>(&mut self, s: &[u8], _is_first: bool) -> Option<Step>
        requires letter { StandsAt s.now self.old.at (69 ∷ []) }
        requires writing { IsWriting S.IS_BRIEF s.now self.old (steps.Arguments _is_first) }
        ensures { IfSome result (IsWriting S.IS_BRIEF s.now self.new) }
    {
        match self.waiting.pop()? {
            Open::Argument {
                place,
                from,
                is_value,
            } => {
                self.at = self.at.checked_add(1)?;
                self.push_closing::<S>()?;
                let forms = form_of(is_value);
                self.ended::<S>(s, place, from, forms, forms)
            }
            _ => None,
        }
    }

    /// An argument that is a type is read.
    // <generic-arg> = <type>
    pub(crate) fn argument_ended<S: Showing>(
        &mut self,
        _s: &[u8],
        _here: usize,
        forms: Forms,
        place: usize,
        from: usize,
        is_value: bool,
    ) -> Option<Step>
        requires { Receives S.IS_BRIEF _s.now self.old (opens.Argument place from is_value) _here forms }
        ensures { IfSome result (IsWriting S.IS_BRIEF _s.now self.new) }
    {
        if !is_type(forms) {
            return None;
        }
        self.waiting.push(Open::Argument {
            place,
            from,
            is_value,
        })?;
        Some(Step::Arguments { is_first: false })
    }
}
