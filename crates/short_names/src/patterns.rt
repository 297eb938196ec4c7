// Patterns of the table.
ghost use Rattle.std.specs.Prelude.{◌≡◌, ◌≢◌, ◌<◌, ◌++◌, ◌∷◌, [], ℕ, List, MatchOption, nat_eq};
ghost use Rattle.std.specs.Cmp.Lexicographic.{pointwise};
ghost use Rattle.short_names.specs.Patterns.{ticks, bit, filled};
ghost use Rattle.short_names.specs.Texts.{text_of};

use crate::table::{Place, TEXTS};

/// The texts that fill the holes of a pattern.
#[derive(Clone, Copy)]
pub(crate) struct Holes<'a> {
    /// The first two arguments; a missing one is empty.
    pub first: &'a [u8],
    pub second: &'a [u8],
    /// The `std::` of the name.
    pub whole: &'a [u8],
}

/// A text of the table.
#[tactic(auto, unfolding(crate::specs::Texts::text_of))]
pub(crate) fn text_at(place: Place) -> &'static [u8]
    ensures { result.now ≡ text_of place }
{
    let from = place.from as usize;
    let to = place.to as usize;
    if from <= to && to <= TEXTS.len() {
        &TEXTS[from..to]
    } else {
        &[]
    }
}

/// The type that counts ticks.
fn ticks(whole: &[u8]) -> &'static [u8]
    ensures { result.now ≡ ticks whole.now }
{
    if whole.len() == 5 {
        b"long"
    } else {
        b"long long"
    }
}

/// The text that fills a hole, which is a byte below 4 of a pattern.
#[inline(always)]
fn filling<'a>(holes: Holes<'a>, hole: u8) -> &'a [u8]
    requires { hole < 4 }
    ensures { result.now ≡ bit holes.entry.first.now holes.entry.second.now holes.entry.whole.now hole }
{
    if hole == 0 {
        holes.first
    } else if hole == 1 {
        holes.second
    } else if hole == 2 {
        holes.whole
    } else {
        ticks(holes.whole)
    }
}

/// What is left of a text after the bytes that a byte of a pattern denotes; none where the text doesn't begin with them.
#[inline(always)]
fn behind<'a>(text: &'a [u8], holes: Holes<'_>, byte: u8) -> Option<&'a [u8]>
    ensures { MatchOption result ((rest : List ℕ) → text.now ≢ bit holes.entry.first.now holes.entry.second.now holes.entry.whole.now byte ++ rest)
        (λ rest. text.now ≡ bit holes.entry.first.now holes.entry.second.now holes.entry.whole.now byte ++ rest.now) }
{
    if byte < 4 {
        let part = filling(holes, byte);
        return text.strip_prefix(part);
    }
    match text {
        [] => None,
        [first, rest @ ..] => { if *first == byte { Some(rest) } else { None } }
    }
}

/// Whether a text is a pattern with its holes filled.
pub(crate) fn is_filled(text: &[u8], pattern: &[u8], holes: Holes<'_>) -> bool
    ensures { result ≡ pointwise nat_eq text.now (filled holes.entry.first.now holes.entry.second.now holes.entry.whole.now pattern.now) }
{
    let mut rest = text;
    let mut at = 0;
    'pattern: while at < pattern.len() {
        match behind(rest, holes, pattern[at]) {
            Some(others) => rest = others,
            None => return false,
        }
        at += 1;
    }
    rest.is_empty()
}
