// Where in a word the name of a symbol begins.
ghost use Rattle.std.specs.Prelude.{◌≡◌, ◌≤◌, true, false, length, take, drop};
ghost use Rattle.sym_filter.specs.Marks.{before_mark, begins_name, from_mark, front_length, is_mark, is_taken};

use crate::kinds::{Kind, Lang, Letters, kind_by_beginning};
use crate::places::{Place, Stretch, is_divider};

/// Where the name of the first symbol begins in a word that is held from a place on, or where the word ends.
#[inline(always)]
pub(crate) fn mark_in(word: &[u8], place: Place) -> usize
    ensures within { result ≤ length word.now }
    ensures before { before_mark place word.now ≡ take result word.now }
    ensures from { from_mark place word.now ≡ drop result word.now }
{
    if begins_with_name(place, word) {
        return 0;
    }
    mark_behind(word, place)
}

/// Whether a word begins with the name of a symbol, by the two bytes with which most names of symbols begin.
#[inline(always)]
fn begins_with_name(place: Place, word: &[u8]) -> bool
    ensures { result ≡ true → from_mark place word.now ≡ word.now }
{
    match place.stretch {
        Stretch::Empty => match word {
            [b'_', b'Z', ..] => true,
            [b'_', b'R', ..] => true,
            _ => false,
        },
        Stretch::Section => false,
        Stretch::Other => false,
    }
}

/// As `mark_in`, for any word: it looks at each place.
#[inline(never)]
fn mark_behind(word: &[u8], place: Place) -> usize
    ensures within { result ≤ length word.now }
    ensures before { before_mark place word.now ≡ take result word.now }
    ensures from { from_mark place word.now ≡ drop result word.now }
{
    let mut place = place;
    let mut at = 0;
    'bytes: while at < word.len() {
        let name = at + front_length(&word[at..]);
        if is_mark(place, &word[name..]) {
            return name;
        }
        place = place.after(Letters::Within, word[at]);
        at += 1;
    }
    at
}

/// How many bytes compilers and linkers have put before a symbol: for an import's address, and for a function that runs when a
/// program starts or ends.
#[inline(always)]
fn front_length(word: &[u8]) -> usize
    ensures length { result ≡ front_length word.now }
    ensures within { result ≤ length word.now }
{
    if !may_have_front(word) {
        return 0;
    }
    length_of_front(word)
}

/// Whether the second byte of a word is that of something put before a symbol. Most words begin with `_Z` or `_R`, and have no such byte.
#[inline(always)]
fn may_have_front(word: &[u8]) -> bool
    ensures { result ≡ false → front_length word.now ≡ 0 }
{
    word.len() > 1 && (word[1] == b'_' || word[1] == b'G')
}

/// As `front_length`, but it compares all of what may come before a symbol.
#[inline(never)]
fn length_of_front(word: &[u8]) -> usize
    ensures length { result ≡ front_length word.now }
    ensures within { result ≤ length word.now }
{
    if word.starts_with(b"__imp_") {
        6
    } else if word.starts_with(b"_GLOBAL__sub_I_") {
        15
    } else if word.starts_with(b"_GLOBAL__sub_D_") {
        15
    } else if word.starts_with(b"_GLOBAL__I_") {
        11
    } else if word.starts_with(b"_GLOBAL__D_") {
        11
    } else {
        0
    }
}

/// Whether the name of a symbol begins at a place with these bytes.
fn is_mark(place: Place, rest: &[u8]) -> bool
    ensures { result ≡ is_mark place rest.now }
{
    match kind_by_beginning(rest) {
        None => false,
        Some(kind) => is_taken(place, kind, rest),
    }
}

/// Whether a symbol of a kind may begin at a place. Within a name that isn't a section's, such as a member's name in source code, the
/// symbol's third byte has to be one with which the names of symbols begin.
fn is_taken(place: Place, kind: Kind, rest: &[u8]) -> bool
    ensures { result ≡ is_taken place.stretch place.last kind rest.now }
{
    match place.stretch {
        Stretch::Empty => true,
        Stretch::Section => is_divider(place.last),
        Stretch::Other => {
            let third = rest.get(kind.skip as usize + 2).copied().unwrap_or(0);
            place.last == b'.' && begins_name(kind.lang, third)
        }
    }
}

/// Whether a byte after `_Z` or `_R` is one with which a name, a number or a special name of C++, or a path of Rust begins.
fn begins_name(lang: Lang, byte: u8) -> bool
    ensures { result ≡ begins_name lang byte }
{
    match lang {
        Lang::Cpp => byte.is_ascii_uppercase() || byte.is_ascii_digit(),
        Lang::Rust => {
            byte == b'I' || byte == b'M' || byte == b'N' || byte == b'X' || byte == b'Y'
        }
    }
}
