// Places in the stretches of a run, and the front of a text in which no word begins.
ghost use Rattle.std.specs.Prelude.{◌≡◌, ◌+◌, ◌-◌, ◌<◌, ◌≤◌, length, take, drop, slice_index, true, false, not};
ghost use Rattle.std.specs.List.{list_all};
ghost use Rattle.sym_filter.specs.Lanes.{is_no_mark};
ghost use Rattle.sym_filter.specs.Places.{START, begins_within, closes, in_stretch, is_divider, may_begin, place_after, place_of, stretch_after};
ghost use Rattle.sym_filter.specs.Plain.{is_plain};

use crate::kinds::Letters;
use crate::lanes::{BLOCK, LANES, block_has_no_mark, lanes_before_mark};
use crate::words::{closes, is_byte_of};

/// The first byte of a stretch. A stretch is a run, or, where words begin within runs, a longest part of a run that is ASCII.
#[derive(Clone, Copy, Debug, PartialEq, Eq)]
pub enum Stretch {
    /// The stretch has no byte yet.
    Empty,
    /// A dot, with which the names of sections begin.
    Section,
    /// Any other byte.
    Other,
}

/// A place in a stretch: how the stretch begins, and the last byte before the place, or 0.
#[derive(Clone, Copy, Debug, PartialEq, Eq)]
pub struct Place {
    pub stretch: Stretch,
    pub last: u8,
}

/// Where a stretch begins.
pub const START: Place = Place {
    stretch: Stretch::Empty,
    last: 0,
};

impl Place {
    /// The place after a byte.
    #[inline]
    pub(crate) fn after(self, letters: Letters, byte: u8) -> Place
        ensures { result ≡ place_after letters self byte }
    {
        if in_stretch(letters, byte) {
            Place {
                stretch: self.stretch.after(byte),
                last: byte,
            }
        } else {
            START
        }
    }

    /// Whether a word may begin here.
    #[inline]
    fn may_begin(self, letters: Letters) -> bool
        ensures { result ≡ may_begin letters self }
    {
        match self.stretch {
            Stretch::Empty => true,
            Stretch::Section => begins_within(letters) && is_divider(self.last),
            Stretch::Other => begins_within(letters) && is_divider(self.last),
        }
    }
}

impl Stretch {
    /// The stretch with one more byte.
    fn after(self, byte: u8) -> Stretch
        ensures { result ≡ stretch_after self byte }
    {
        match self {
            Stretch::Empty => {
                if byte == b'.' {
                    Stretch::Section
                } else {
                    Stretch::Other
                }
            }
            Stretch::Section => Stretch::Section,
            Stretch::Other => Stretch::Other,
        }
    }
}

/// Whether words begin within runs.
#[inline(always)]
pub(crate) fn begins_within(letters: Letters) -> bool
    ensures { result ≡ begins_within letters }
{
    match letters {
        Letters::Any => false,
        Letters::Ascii => false,
        Letters::Within => true,
    }
}

/// Whether a byte separates parts of names, so that a word may begin after it.
pub(crate) fn is_divider(byte: u8) -> bool
    ensures { result ≡ is_divider byte }
{
    byte == b'.' || byte == b'$'
}

/// Whether a byte belongs to a stretch.
fn in_stretch(letters: Letters, byte: u8) -> bool
    ensures { result ≡ in_stretch letters byte }
{
    match letters {
        Letters::Any => is_byte_of(Letters::Any, byte),
        Letters::Ascii => is_byte_of(Letters::Ascii, byte),
        Letters::Within => is_byte_of(Letters::Ascii, byte),
    }
}

/// The front of a text that can be passed on as it is, and the place after it.
#[derive(Clone, Copy, Debug, PartialEq, Eq)]
pub(crate) struct Front {
    pub length: usize,
    pub place: Place,
}

/// The front of a text at a place, up to the first `_` that begins a word.
#[inline(always)]
pub(crate) fn plain_front(letters: Letters, text: &[u8], place: Place) -> Front
    ensures within { result.length ≤ length text.now }
    ensures plain { is_plain letters place (take result.length text.now) ≡ true }
    ensures place { result.place ≡ place_of letters place (take result.length text.now) }
    ensures open { result.length < length text.now → may_begin letters result.place ≡ true }
    ensures stops { result.length < length text.now → slice_index text.now result.length ≡ 95 }
{
    let mut length = 0;
    'bytes: while length < text.len() {
        if text[length] == b'_' && is_open(letters, text, length, place) {
            return Front {
                length,
                place: place_at(letters, text, length, place),
            };
        }
        length += 1;
        length += before_mark(&text[length..]);
    }
    Front {
        length,
        place: place_at(letters, text, length, place),
    }
}

/// How many bytes at the front of a text are no `_`, or fewer: bytes are tested sixteen at a time.
#[inline(always)]
fn before_mark(text: &[u8]) -> usize
    ensures within { result ≤ length text.now }
    ensures no_mark { list_all is_no_mark (take result text.now) ≡ true }
{
    if text.len() < LANES {
        return 0;
    }
    let first = lanes_before_mark(text, 0);
    if first < LANES || text.len() < 2 * LANES {
        return first;
    }
    let second = lanes_before_mark(text, LANES);
    if second < LANES {
        return LANES + second;
    }
    blocks_before_mark(text)
}

/// How many bytes at the front of a text are in blocks of 64 bytes that have no `_`. In a list of symbols, and in the lines of `nm`, each
/// block has an `_`.
fn blocks_before_mark(text: &[u8]) -> usize
    requires long { 32 ≤ length text.now }
    requires begins { list_all is_no_mark (take 32 text.now) ≡ true }
    ensures within { result ≤ length text.now }
    ensures no_mark { list_all is_no_mark (take result text.now) ≡ true }
{
    let mut length = 2 * LANES;
    'steps: while text.len() - length >= BLOCK {
        if !block_has_no_mark(text, length) {
            return length;
        }
        length += BLOCK;
    }
    length
}

/// Whether a word may begin at a place of a text, given the byte before the place.
fn is_open(letters: Letters, text: &[u8], at: usize, place: Place) -> bool
    requires { at ≤ length text.now }
    ensures { result ≡ may_begin letters (place_of letters place (take at text.now)) }
{
    if at == 0 {
        return place.may_begin(letters);
    }
    !closes(letters, text[at - 1])
}

/// The place after a text that begins at a place.
#[inline(always)]
fn place_at(letters: Letters, text: &[u8], at: usize, place: Place) -> Place
    requires { at ≤ length text.now }
    ensures { result ≡ place_of letters place (take at text.now) }
{
    if at == 0 {
        return place;
    }
    if !in_stretch(letters, text[at - 1]) {
        return START;
    }
    place_in_stretch(letters, text, at, place)
}

/// The place after a text that begins at a place, by the bytes of the last stretch alone.
// out of line, so that the other cases pay nothing for it
#[inline(never)]
fn place_in_stretch(letters: Letters, text: &[u8], at: usize, place: Place) -> Place
    requires { at ≤ length text.now }
    ensures { result ≡ place_of letters place (take at text.now) }
{
    let mut next = stretch_start(letters, text, at);
    let mut here = if next == 0 { place } else { START };
    'bytes: while next < at {
        here = here.after(letters, text[next]);
        next += 1;
    }
    here
}

/// The beginning of the stretch that ends before a place of a text, or 0.
fn stretch_start(letters: Letters, text: &[u8], at: usize) -> usize
    requires { at ≤ length text.now }
    ensures within { result ≤ at }
    ensures before { 0 < result → in_stretch letters (slice_index text.now (result - 1)) ≡ false }
{
    let mut start = at;
    'bytes: while start > 0 {
        if !in_stretch(letters, text[start - 1]) {
            return start;
        }
        start -= 1;
    }
    0
}
