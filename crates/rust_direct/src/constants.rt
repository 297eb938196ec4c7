// Constants, and arrays that have one.

ghost use Rattle.std.specs.Prelude.{◌≡◌, ◌∷◌, ◌&&◌, [], nat_lt, true};
ghost use Rattle.std.specs.Option.{IfSome};
ghost use Rattle.sym_core.specs.Number.{FitsSymbol};
ghost use Rattle.sym_direct.specs.Holes.{StandsAt};
ghost use Rattle.rust_direct.specs.declared.open.Open.TheVariants as opens;
ghost use Rattle.rust_direct.specs.Constants.{is_signed, is_unsigned, sign_text, BeginsInteger, WritesConstant};
ghost use Rattle.rust_direct.specs.WriterInvariant.{IsWriting};
ghost use Rattle.rust_direct.specs.Awaits.{Awaits, AwaitsArgument, Receives};

use crate::direct::Direct;
use crate::open::{Forms, Open, Step, is_type};
use crate::showing::Showing;
use crate::tokens::hex_at;
use sym_direct::byte_at;

/// Whether a letter is that of an integer type with a sign.
#[tactic(auto, unfolding(crate::specs::Constants::is_signed))]
fn is_signed(letter: u8) -> bool
    ensures { result ≡ is_signed letter }
{
    match letter {
        b'a' => true,
        b'i' => true,
        b'l' => true,
        b'n' => true,
        b's' => true,
        b'x' => true,
        _ => false,
    }
}

/// Whether a letter is that of an integer type without a sign.
#[tactic(auto, unfolding(crate::specs::Constants::is_unsigned))]
fn is_unsigned(letter: u8) -> bool
    ensures { result ≡ is_unsigned letter }
{
    match letter {
        b'h' => true,
        b'j' => true,
        b'm' => true,
        b'o' => true,
        b't' => true,
        b'y' => true,
        _ => false,
    }
}

impl Direct {
    /// A constant among arguments.
    // <generic-arg> = "K" <const>
    pub(crate) fn constant_argument<S: Showing>(
        &mut self,
        s: &[u8],
        _is_first: bool,
    ) -> Option<Step>
        requires fits { FitsSymbol s.now }
        requires letter { StandsAt s.now self.old.at (75 ∷ []) }
        requires awaits { AwaitsArgument S.IS_BRIEF s.now self.old _is_first }
        ensures { IfSome result (IsWriting S.IS_BRIEF s.now self.new) }
    {
        let place = self.at.checked_add(1)?;
        let from = self.text.len();
        let end = self.constant_at(s, place)?;
        self.note(place, from, Forms::Unnamed)?;
        self.at = end;
        Some(Step::Arguments { is_first: false })
    }

    // <type> = "A" <type> <const>
    pub(crate) fn begin_array<S: Showing>(&mut self, s: &[u8]) -> Option<Step>
        requires letter { StandsAt s.now self.old.at (65 ∷ []) }
        requires awaits { Awaits S.IS_BRIEF s.now self.old true }
        ensures { IfSome result (IsWriting S.IS_BRIEF s.now self.new) }
    {
        let place = self.at;
        let from = self.text.len();
        self.at = place.checked_add(1)?;
        self.push_byte(b'[')?;
        self.waiting.push(Open::Array { place, from })?;
        Some(Step::Type)
    }

    /// The type of an array is read, and its size follows.
    // <type> = "A" <type> <const>
    pub(crate) fn array_ended<S: Showing>(
        &mut self,
        s: &[u8],
        _here: usize,
        forms: Forms,
        place: usize,
        from: usize,
    ) -> Option<Step>
        requires fits { FitsSymbol s.now }
        requires arrives { Receives S.IS_BRIEF s.now self.old (opens.Array place from) _here forms }
        ensures { IfSome result (IsWriting S.IS_BRIEF s.now self.new) }
    {
        if !is_type(forms) {
            return None;
        }
        let size = self.at;
        self.push_pair(b';', b' ')?;
        let begins = self.text.len();
        let end = self.constant_at(s, size)?;
        self.note(size, begins, Forms::Unnamed)?;
        self.at = end;
        self.push_byte(b']')?;
        self.ended::<S>(s, place, from, Forms::Typed, Forms::Typed)
    }

    /// Reads and writes the constant at a place, and answers the place after it.
    // <const> = <type> <const-data> | "p"
    fn constant_at(&mut self, s: &[u8], at: usize) -> Option<usize>
        requires { FitsSymbol s.now }
        ensures { IfSome result (WritesConstant s.now self.old self.new at) }
    {
        let letter = byte_at(s, at);
        if is_unsigned(letter) {
            let digits = at.checked_add(1)?;
            return self.integer_at(s, at, digits, false);
        }
        if is_signed(letter) {
            return self.signed_at(s, at, letter);
        }
        match letter {
            b'b' => self.bool_at(s, at),
            b'p' => self.placeholder_at(s, at),
            _ => None,
        }
    }

    /// An integer of a type that has a sign.
    // <const-data> = ["n"] {<hex-digit>} "_"
    fn signed_at(&mut self, s: &[u8], at: usize, _letter: u8) -> Option<usize>
        requires fits { FitsSymbol s.now }
        requires signed { is_signed _letter ≡ true }
        requires letter { StandsAt s.now at (_letter ∷ []) }
        ensures { IfSome result (WritesConstant s.now self.old self.new at) }
    {
        let behind = at.checked_add(1)?;
        if byte_at(s, behind) == b'n' {
            let digits = behind.checked_add(1)?;
            return self.integer_at(s, at, digits, true);
        }
        self.integer_at(s, at, behind, false)
    }

    /// The digits of an integer.
    // <const-data> = ["n"] {<hex-digit>} "_"
    fn integer_at(&mut self, s: &[u8], _at: usize, digits: usize, minus: bool) -> Option<usize>
        requires fits { FitsSymbol s.now }
        requires begins { BeginsInteger s.now _at digits minus }
        ensures { IfSome result (WritesConstant s.now self.old self.new _at) }
    {
        let (value, end) = hex_at(s, digits)?;
        self.push(sign_of(minus, value))?;
        self.push_decimal(value)?;
        Some(end)
    }

    // <const-data> = "0_" | "1_"
    fn bool_at(&mut self, s: &[u8], at: usize) -> Option<usize>
        requires letter { StandsAt s.now at (98 ∷ []) }
        ensures { IfSome result (WritesConstant s.now self.old self.new at) }
    {
        let digit = at.checked_add(1)?;
        let mark = digit.checked_add(1)?;
        if byte_at(s, mark) != b'_' {
            return None;
        }
        let end = mark.checked_add(1)?;
        if byte_at(s, digit) == b'0' {
            self.push(b"false")?;
            return Some(end);
        }
        if byte_at(s, digit) != b'1' {
            return None;
        }
        self.push(b"true")?;
        Some(end)
    }

    // <const> = "p"
    fn placeholder_at(&mut self, _s: &[u8], at: usize) -> Option<usize>
        requires letter { StandsAt _s.now at (112 ∷ []) }
        ensures { IfSome result (WritesConstant _s.now self.old self.new at) }
    {
        let end = at.checked_add(1)?;
        self.push_byte(b'_')?;
        Some(end)
    }
}

/// The sign of an integer. Zero has none.
#[inline(always)]
fn sign_of(minus: bool, value: u64) -> &'static [u8]
    ensures { result.now ≡ sign_text (minus && nat_lt 0 value) }
{
    if minus && value > 0 { b"-" } else { b"" }
}
