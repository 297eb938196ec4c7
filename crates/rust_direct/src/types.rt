// Types.

ghost use Rattle.std.specs.Prelude.{◌≡◌, ◌≢◌, ◌∷◌, [], true};
ghost use Rattle.std.specs.Option.{IfSome};
ghost use Rattle.sym_core.specs.Number.{FitsSymbol};
ghost use Rattle.sym_direct.specs.Holes.{StandsAt};
ghost use Rattle.rust_tree.specs.Shown.{basic_text};
ghost use Rattle.rust_direct.specs.declared.open.Step.TheVariants as steps;
ghost use Rattle.rust_direct.specs.WriterInvariant.{IsWriting};
ghost use Rattle.rust_direct.specs.Awaits.{Awaits};

use crate::direct::Direct;
use crate::open::{Forms, Step, is_type};
use crate::showing::Showing;
use crate::tokens::number_at;
use sym_direct::byte_at;

/// The text of the basic type of a letter.
#[tactic(auto, unfolding(rust_tree::specs::Shown::basic_text))]
fn basic_text(letter: u8) -> &'static [u8]
    ensures { result.now ≡ basic_text letter }
{
    match letter {
        b'a' => b"i8",
        b'b' => b"bool",
        b'c' => b"char",
        b'd' => b"f64",
        b'e' => b"str",
        b'f' => b"f32",
        b'h' => b"u8",
        b'i' => b"isize",
        b'j' => b"usize",
        b'l' => b"i32",
        b'm' => b"u32",
        b'n' => b"i128",
        b'o' => b"u128",
        b'p' => b"_",
        b's' => b"i16",
        b't' => b"u16",
        b'u' => b"()",
        b'v' => b"...",
        b'x' => b"i64",
        b'y' => b"u64",
        b'z' => b"!",
        _ => b"",
    }
}

impl Direct {
    /// Reads a type, up to the first type in it. A crate, an impl or a trait is no type of any program: as a type, it is left to
    /// the general way.
    // <type> = <basic-type> | <path> | "S" <type> | "T" {<type>} "E" | "R" [<lifetime>] <type> | "Q" [<lifetime>] <type> | "P" <type>
    //        | "O" <type> | <backref> | ..
    pub(crate) fn type_at<S: Showing>(&mut self, s: &[u8]) -> Option<Step>
        requires fits { FitsSymbol s.now }
        requires writing { IsWriting S.IS_BRIEF s.now self.old steps.Type }
        ensures { IfSome result (IsWriting S.IS_BRIEF s.now self.new) }
    {
        match byte_at(s, self.at) {
            b'N' => {
                self.begin_nest::<S>(s)?;
                Some(Step::Path { is_value: false })
            }
            b'I' => {
                self.begin_generic::<S>(s, false)?;
                Some(Step::Path { is_value: false })
            }
            b'R' => self.begin_shared::<S>(s),
            b'Q' => self.begin_mutable::<S>(s),
            b'P' => self.begin_const::<S>(s),
            b'O' => self.begin_mut::<S>(s),
            b'S' => self.begin_slice::<S>(s),
            b'T' => self.begin_tuple::<S>(s),
            b'B' => self.type_again::<S>(s),
            b'A' => self.begin_array::<S>(s),
            b'D' => self.begin_dyn::<S>(s),
            letter => self.basic::<S>(s, letter),
        }
    }

    // <basic-type> = "a" | "b" | ..
    #[inline(always)]
    fn basic<S: Showing>(&mut self, s: &[u8], letter: u8) -> Option<Step>
        requires letter { letter ≢ 0 → StandsAt s.now self.old.at (letter ∷ []) }
        requires awaits { Awaits S.IS_BRIEF s.now self.old true }
        ensures { IfSome result (IsWriting S.IS_BRIEF s.now self.new) }
    {
        let text = basic_text(letter);
        if text.is_empty() {
            return None;
        }
        let place = self.at;
        let from = self.text.len();
        self.at = place.checked_add(1)?;
        self.push(text)?;
        self.ended::<S>(s, place, from, Forms::Typed, Forms::Typed)
    }

    // <type> = <backref>
    fn type_again<S: Showing>(&mut self, s: &[u8]) -> Option<Step>
        requires fits { FitsSymbol s.now }
        requires letter { StandsAt s.now self.old.at (66 ∷ []) }
        requires awaits { Awaits S.IS_BRIEF s.now self.old true }
        ensures { IfSome result (IsWriting S.IS_BRIEF s.now self.new) }
    {
        let place = self.at;
        let from = self.text.len();
        let (number, end) = number_at(s, place.checked_add(1)?)?;
        let note = self.noted((number as usize).checked_add(2)?)?;
        if !is_type(note.forms) {
            return None;
        }
        self.repeat(note)?;
        self.at = end;
        self.ended::<S>(s, place, from, note.forms, Forms::Typed)
    }
}
