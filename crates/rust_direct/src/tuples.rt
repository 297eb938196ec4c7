// Tuples.

ghost use Rattle.std.specs.Prelude.{◌≡◌, ◌∷◌, [], true};
ghost use Rattle.std.specs.Option.{IfSome};
ghost use Rattle.sym_direct.specs.Holes.{StandsAt};
ghost use Rattle.rust_direct.specs.declared.open.Open.TheVariants as opens;
ghost use Rattle.rust_direct.specs.WriterInvariant.{IsWriting, tuple_end};
ghost use Rattle.rust_direct.specs.Awaits.{Awaits, Receives};

use crate::direct::Direct;
use crate::open::{Forms, Open, Step, is_type};
use crate::showing::Showing;
use sym_direct::byte_at;

/// What closes a tuple after its first type, and after another one.
#[inline(always)]
fn tuple_end(is_first: bool) -> &'static [u8]
    ensures { result.now ≡ tuple_end is_first }
{
    if is_first { b",)" } else { b")" }
}

impl Direct {
    /// The first type of a tuple follows: a tuple without types is given up.
    // <type> = "T" {<type>} "E"
    pub(crate) fn begin_tuple<S: Showing>(&mut self, s: &[u8]) -> Option<Step>
        requires letter { StandsAt s.now self.old.at (84 ∷ []) }
        requires awaits { Awaits S.IS_BRIEF s.now self.old true }
        ensures { IfSome result (IsWriting S.IS_BRIEF s.now self.new) }
    {
        let place = self.at;
        let from = self.text.len();
        let behind = place.checked_add(1)?;
        self.push_open(
            b"(",
            Open::Tuple {
                place,
                from,
                is_first: true,
            },
            behind,
        )?;
        Some(Step::Type)
    }

    /// A type of a tuple is read: another one follows, or the E.
    // <type> = "T" {<type>} "E"
    pub(crate) fn element_ended<S: Showing>(
        &mut self,
        s: &[u8],
        here: usize,
        forms: Forms,
        place: usize,
        from: usize,
        is_first: bool,
    ) -> Option<Step>
        requires { Receives S.IS_BRIEF s.now self.old (opens.Tuple place from is_first) here forms }
        ensures { IfSome result (IsWriting S.IS_BRIEF s.now self.new) }
    {
        if !is_type(forms) {
            return None;
        }
        if byte_at(s, self.at) == b'E' {
            return self.tuple_ended::<S>(s, here, forms, place, from, is_first);
        }
        self.push_pair(b',', b' ')?;
        self.waiting.push(Open::Tuple {
            place,
            from,
            is_first: false,
        })?;
        Some(Step::Type)
    }

    /// The E of a tuple.
    // <type> = "T" {<type>} "E"
    fn tuple_ended<S: Showing>(
        &mut self,
        s: &[u8],
        _here: usize,
        forms: Forms,
        place: usize,
        from: usize,
        is_first: bool,
    ) -> Option<Step>
        requires letter { StandsAt s.now self.old.at (69 ∷ []) }
        requires arrives { Receives S.IS_BRIEF s.now self.old (opens.Tuple place from is_first) _here forms }
        ensures { IfSome result (IsWriting S.IS_BRIEF s.now self.new) }
    {
        if !is_type(forms) {
            return None;
        }
        self.at = self.at.checked_add(1)?;
        self.push(tuple_end(is_first))?;
        self.ended::<S>(s, place, from, Forms::Typed, Forms::Typed)
    }
}
