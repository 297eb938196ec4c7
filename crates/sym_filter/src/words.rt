// Words found in a text that comes in any pieces.
ghost use Rattle.std.specs.Prelude.{◌≡◌, ◌+◌, ◌^◌, ◌<◌, ◌≤◌, ℕ, List, [], ◌++◌, length, take, drop, slice_index, true, false, replicate, OnOk, IfOk, Some, is_some, OnErr, if◌then◌else◌};
ghost use Rattle.std.specs.List.{list_all};
ghost use Rattle.sym_filter.specs.Bytes.{is_byte_of};
ghost use Rattle.sym_filter.specs.Runs.{is_begun, answers_at, name_in, text_for, within, word_of, word_or_text, written, IsTally};
ghost use Rattle.sym_filter.specs.Entries.{left_at_end, left_of, newlines_in};
ghost use Rattle.sym_filter.specs.Kinds.{kind_of};
ghost use Rattle.sym_filter.specs.Held.{IsHeld};
ghost use Rattle.sym_filter.specs.Marks.{before_mark, from_mark};
ghost use Rattle.sym_filter.specs.Places.{START, closes, may_begin};
ghost use Rattle.sym_filter.specs.declared.kinds.Letters.TheVariants.{Ascii};
ghost use Rattle.sym_filter.specs.declared.kinds.TheConstants.{LONGEST_WORD};

use crate::demangler::{Demangled, Demangler};
use crate::kinds::{Kind, LONGEST_WORD, Letters, kind_of};
use crate::lanes::{LANES, lanes_front};
use crate::marks::mark_in;
use crate::places::{Place, START, begins_within, plain_front};
use crate::tries::push_tries;
use std::alloc::{AllocError, Global};
use sym_core::Refusal;

/// How many words name symbols, how many of them are replaced by a text, and how many aren't.
#[derive(Clone, Copy, Debug, PartialEq, Eq)]
pub struct Tally {
    pub words: u64,
    pub replaced: u64,
    pub refused: u64,
}

impl Tally {
    ghost use Rattle.sym_filter.specs.Runs.{tally_counted};

    /// Counts a word that has a text or none.
    fn count(&mut self, has_text: bool)
        ensures { self.new ≡ tally_counted has_text self.old }
    {
        self.words = self.words.saturating_add(1);
        if has_text {
            self.replaced = self.replaced.saturating_add(1);
        } else {
            self.refused = self.refused.saturating_add(1);
        }
    }
}

// For each byte, the runs to which it belongs. 3, runs of all letters: ASCII letters, digits, `_`. 2, likewise,
// but a word may begin after it within a run: `.` and `$`. 1, only runs of any letters: all bytes from
// 0x80. 0, no runs: any other byte.
static RUN_BYTES: [u8; 256] = *b"\
    00000000000000000000000000000000\
    00002000000000203333333333000000\
    03333333333333333333333333300003\
    03333333333333333333333333300000\
    11111111111111111111111111111111\
    11111111111111111111111111111111\
    11111111111111111111111111111111\
    11111111111111111111111111111111";

/// Whether the byte belongs to runs, where words have these letters.
#[inline]
pub fn is_byte_of(letters: Letters, byte: u8) -> bool
    ensures { result ≡ is_byte_of letters byte }
{
    let least = match letters {
        Letters::Any => b'1',
        Letters::Ascii => b'2',
        Letters::Within => b'1',
    };
    RUN_BYTES[byte as usize] >= least
}

/// Whether no word begins right after the byte, where words have these letters.
#[inline]
pub(crate) fn closes(letters: Letters, byte: u8) -> bool
    ensures { result ≡ closes letters byte }
{
    let least = match letters {
        Letters::Any => b'1',
        Letters::Ascii => b'2',
        Letters::Within => b'3',
    };
    RUN_BYTES[byte as usize] >= least
}

/// How many bytes at the front of a text belong to runs of ASCII letters, or fewer: bytes are tested sixteen at a time.
#[inline(always)]
fn lanes_run(text: &[u8]) -> usize
    ensures within { result ≤ length text.now }
    ensures in_run { list_all (is_byte_of Ascii) (take result text.now) ≡ true }
{
    let mut length = 0;
    'lanes: while text.len() - length >= LANES {
        let front = lanes_front(text, length);
        length += front;
        if front < LANES {
            return length;
        }
    }
    length
}

/// How many bytes at the front of a text belong to runs.
pub(crate) fn run_front(letters: Letters, text: &[u8]) -> usize
    ensures within { result ≤ length text.now }
    ensures in_run { list_all (is_byte_of letters) (take result text.now) ≡ true }
    ensures stops { result < length text.now → is_byte_of letters (slice_index text.now result) ≡ false }
{
    // most calls are at the end of a run
    if text.is_empty() || !is_byte_of(letters, text[0]) {
        return 0;
    }
    let mut length = lanes_run(text);
    'bytes: while length < text.len() {
        if !is_byte_of(letters, text[length]) {
            return length;
        }
        length += 1;
    }
    length
}

/// How many bytes of a text were taken, and what follows the bytes that were appended for them: dots, and then the
/// taken bytes themselves, if they stay.
#[derive(Clone, Copy, Debug, PartialEq, Eq)]
pub struct Taken {
    pub dots: u128,
    pub count: usize,
    pub stay: bool,
    /// How many of the last appended bytes are a word that names a symbol and has no text.
    pub left: usize,
}

/// The dots after the word of a run that was ended, and how many of the last appended bytes are that word, if it names
/// a symbol and has no text.
#[derive(Clone, Copy, Debug, PartialEq, Eq)]
pub struct Ended {
    pub dots: u128,
    pub left: usize,
}

/// What a filter holds of a text, and where the filter is in the text.
#[derive(Drop)]
pub struct Words {
    letters: Letters,
    // the run from its word on, up to its last byte that is no dot; no bytes where no word has begun or the run is
    // passed on
    held: Vec<u8>,
    // the dots after the held bytes
    dots: u128,
    // the place of the first byte that is held, or of the next byte if none is held
    place: Place,
    // the run's word is too long to name a symbol: the run is passed on to its end
    past: bool,
    tally: Tally,
    ghost is_held: { IsHeld letters held.items dots past place },
    ghost is_counted: { IsTally tally },
}

impl Words {
    ghost use Rattle.sym_filter.specs.CarriedEntries.{TakesEntries};
    ghost use Rattle.sym_filter.specs.Words.{held_of, following, Takes};
    ghost use Rattle.sym_filter.specs.Runs.{Answering, tally_with_word};

    /// The beginning of a text whose words have these letters.
    pub fn new(alloc: Global, letters: Letters) -> Words
        ensures letters { result.letters ≡ letters }
        ensures holds_nothing { held_of result ≡ [] }
        ensures no_dots { result.dots ≡ 0 }
        ensures start { result.place ≡ START }
        ensures not_past { result.past ≡ false }
        ensures nothing_counted { result.tally ≡ record { words = 0; replaced = 0; refused = 0 } }
    {
        let tally = Tally {
            words: 0,
            replaced: 0,
            refused: 0,
        };
        Words {
            letters,
            held: Vec::new(alloc),
            dots: 0,
            place: START,
            past: false,
            tally,
        }
    }

    pub fn tally(&self) -> Tally
        ensures { result ≡ self.now.tally }
    {
        self.tally
    }

    /// The letters of the filter's words.
    pub fn letters(&self) -> Letters
        ensures { result ≡ self.now.letters }
    {
        self.letters
    }

    /// Lets the demangler read the bytes that have arrived of the held word, if it names a symbol.
    pub fn read_ahead<D: Demangler>(&self, demangler: &D, lists: &mut D::Lists) {
        if let Some(kind) = kind_of(&self.held) {
            demangler.read_ahead(lists, kind.lang, kind.symbol_of(&self.held));
        }
    }

    /// Takes bytes from the front of a text, appends the part of the filtered text that they decide, and answers what follows that part.
    // in a program with two reports this function was a call of its own, and took a tenth of the filter's instructions over a log
    #[inline(always)]
    pub fn take<D: Demangler>(
        &mut self,
        demangler: &D,
        lists: &mut D::Lists,
        text: &[u8],
        out: &mut Vec<u8>,
    ) -> Result<Taken, AllocError>
        requires some { 0 < length text.now }
        requires dots { self.old.dots + length text.now < 2 ^ 128 }
        ensures within { IfOk result (λ taken. (0 < taken.count) × (taken.count ≤ length text.now)) }
        ensures takes { IfOk result (λ taken. (bytes : List ℕ) × (out.new.items ≡ out.old.items ++ bytes)
            × Takes (D.answer demangler.now) self.old self.new (take taken.count text.now)
            (bytes ++ following taken (take taken.count text.now))) }
        ensures held { IfOk result (λ taken. taken.stay ≡ false → out.new.items ≡ out.old.items) }
        ensures entries { IfOk result (λ taken. (taken.left ≤ length out.new.items) × TakesEntries (D.answer demangler.now) self.old self.new
            (take taken.count text.now) (left_at_end taken.left out.new.items ++ newlines_in (take taken.count text.now))) }
    {
        if self.held.is_empty() && self.dots == 0 {
            if self.past {
                return Ok(self.pass(text));
            }
            let front = plain_front(self.letters, text, self.place);
            if front.length > 0 {
                self.place = front.place;
                return Ok(Taken {
                    dots: 0,
                    count: front.length,
                    stay: true,
                    left: 0,
                });
            }
        }
        let count = run_front(self.letters, text);
        if count == 0 {
            let ended = self.end_word(demangler, lists, out)?;
            return Ok(Taken {
                dots: ended.dots,
                count: 1,
                stay: true,
                left: ended.left,
            });
        }
        let taken = self.hold(&text[..count], out)?;
        Ok(taken)
    }

    /// Takes a part of a run that is passed on to its end, or the byte that ends it.
    #[inline(never)]
    fn pass(&mut self, text: &[u8]) -> Taken
        requires some { 0 < length text.now }
        requires past { self.old.past ≡ true }
        ensures stays { result.stay ≡ true }
        ensures within { (0 < result.count) × (result.count ≤ length text.now) }
        ensures takes { (answers : Answering) → Takes answers self.old self.new (take result.count text.now)
            (following result (take result.count text.now)) }
        ensures entries { (result.left ≡ 0) × ((answers : Answering) → TakesEntries answers self.old self.new (take result.count text.now)
            (newlines_in (take result.count text.now))) }
    {
        let count = run_front(self.letters, text);
        if count == 0 {
            self.past = false;
            self.place = START;
            return Taken {
                dots: 0,
                count: 1,
                stay: true,
                left: 0,
            };
        }
        Taken {
            dots: 0,
            count,
            stay: true,
            left: 0,
        }
    }

    /// Holds a part of a run, or passes the run on where it is too long for a word that names a symbol.
    // As calls of their own, this function and `put_after` took 1 % of the filter's instructions over a list of symbols.
    #[inline(always)]
    fn hold(&mut self, part: &[u8], out: &mut Vec<u8>) -> Result<Taken, AllocError>
        requires in_run { list_all (is_byte_of self.old.letters) part.now ≡ true }
        requires begins { is_begun (held_of self.old ++ part.now) ≡ true }
        requires holds { (self.old.past ≡ false) × (may_begin self.old.letters self.old.place ≡ true) }
        requires dots { self.old.dots + length part.now < 2 ^ 128 }
        ensures letters { OnOk result (self.new.letters ≡ self.old.letters) }
        ensures same { OnOk result (self.new.tally ≡ self.old.tally) }
        ensures place { OnOk result (self.new.place ≡ self.old.place) }
        ensures dots { OnOk result (self.new.dots ≤ self.old.dots + length part.now) }
        ensures count { IfOk result (λ taken. taken.count ≡ length part.now) }
        ensures none_left { IfOk result (λ taken. taken.left ≡ 0) }
        ensures held { IfOk result (λ taken. taken.stay ≡ false → (self.new.past ≡ false) × (taken.dots ≡ 0)
            × (held_of self.new ≡ held_of self.old ++ part.now) × (out.new.items ≡ out.old.items)) }
        ensures passes { IfOk result (λ taken. taken.stay ≡ true → (self.new.past ≡ true)
            × (taken.dots ≡ self.old.dots) × (out.new.items ≡ out.old.items ++ self.old.held.items)
            × (LONGEST_WORD < length (word_of (held_of self.old ++ part.now)))) }
    {
        let end = word_end(part);
        let dots = self.dots;
        if end == 0 {
            self.dots = dots + part.len() as u128;
            return Ok(Taken {
                dots: 0,
                count: part.len(),
                stay: false,
                left: 0,
            });
        }
        let room = LONGEST_WORD - self.held.len();
        if dots + end as u128 > room as u128 {
            out.extend_from_slice(&self.held)?;
            self.held.clear();
            self.dots = 0;
            self.past = true;
            return Ok(Taken {
                dots,
                count: part.len(),
                stay: true,
                left: 0,
            });
        }
        push_word(&mut self.held, dots as usize, &part[..end])?;
        self.dots = (part.len() - end) as u128;
        Ok(Taken {
            dots: 0,
            count: part.len(),
            stay: false,
            left: 0,
        })
    }

    /// Ends the run that is held: appends the text for its word, or the word itself, and counts the word if it names a symbol. Answers how
    /// many dots come after the word.
    #[inline(always)]
    pub fn end_word<D: Demangler>(
        &mut self,
        demangler: &D,
        lists: &mut D::Lists,
        out: &mut Vec<u8>,
    ) -> Result<Ended, AllocError>
        ensures letters { OnOk result (self.new.letters ≡ self.old.letters) }
        ensures text { OnOk result (out.new.items ≡ out.old.items
            ++ written self.old.letters (D.answer demangler.now) self.old.place self.old.held.items) }
        ensures counts { OnOk result (self.new.tally ≡ tally_with_word (answers_at self.old.letters (D.answer demangler.now)) self.old.tally
            (name_in self.old.letters self.old.place self.old.held.items)) }
        ensures dots { IfOk result (λ ended. ended.dots ≡ self.old.dots) }
        ensures left { IfOk result (λ ended. (ended.left ≤ length out.new.items) × (left_at_end ended.left out.new.items
            ≡ left_of (answers_at self.old.letters (D.answer demangler.now)) (name_in self.old.letters self.old.place self.old.held.items))) }
        ensures ends { OnOk result ((held_of self.new ≡ []) × (self.new.dots ≡ 0) × (self.new.place ≡ START)) }
        ensures past { OnOk result (self.new.past ≡ self.old.past) }
        ensures same { OnErr result (self.new ≡ self.old) }
    {
        if begins_within(self.letters) {
            let ended = self.end_within(demangler, lists, out)?;
            return Ok(ended);
        }
        let dots = self.dots;
        let left = match kind_of(&self.held) {
            Some(kind) => {
                let has_text = push_text(demangler, lists, &self.held, kind, out)?;
                self.tally.count(has_text);
                left_bytes(&self.held, has_text)
            }
            None => {
                out.extend_from_slice(&self.held)?;
                0
            }
        };
        self.held.clear();
        self.dots = 0;
        self.place = START;
        Ok(Ended { dots, left })
    }

    /// Ends the segment of a text, and with it the run that is held, as `end_word` does.
    pub fn end_segment<D: Demangler>(
        &mut self,
        demangler: &D,
        lists: &mut D::Lists,
        out: &mut Vec<u8>,
    ) -> Result<Ended, AllocError>
        ensures letters { OnOk result (self.new.letters ≡ self.old.letters) }
        ensures text { OnOk result (out.new.items ≡ out.old.items
            ++ written self.old.letters (D.answer demangler.now) self.old.place self.old.held.items) }
        ensures counts { OnOk result (self.new.tally ≡ tally_with_word (answers_at self.old.letters (D.answer demangler.now)) self.old.tally
            (name_in self.old.letters self.old.place self.old.held.items)) }
        ensures dots { IfOk result (λ ended. ended.dots ≡ self.old.dots) }
        ensures left { IfOk result (λ ended. (ended.left ≤ length out.new.items) × (left_at_end ended.left out.new.items
            ≡ left_of (answers_at self.old.letters (D.answer demangler.now)) (name_in self.old.letters self.old.place self.old.held.items))) }
        ensures begins { OnOk result ((held_of self.new ≡ []) × (self.new.dots ≡ 0) × (self.new.place ≡ START) × (self.new.past ≡ false)) }
    {
        let ended = self.end_word(demangler, lists, out)?;
        self.past = false;
        Ok(ended)
    }

    /// Ends the run that is held where words begin within runs.
    // out of line, so that filters whose words don't begin within runs pay nothing for it
    #[inline(never)]
    fn end_within<D: Demangler>(
        &mut self,
        demangler: &D,
        lists: &mut D::Lists,
        out: &mut Vec<u8>,
    ) -> Result<Ended, AllocError>
        ensures letters { OnOk result (self.new.letters ≡ self.old.letters) }
        ensures text { OnOk result (out.new.items ≡ out.old.items
            ++ before_mark self.old.place self.old.held.items
            ++ word_or_text (within (D.answer demangler.now)) (from_mark self.old.place self.old.held.items)) }
        ensures counts { OnOk result (self.new.tally
            ≡ tally_with_word (within (D.answer demangler.now)) self.old.tally (from_mark self.old.place self.old.held.items)) }
        ensures dots { IfOk result (λ ended. ended.dots ≡ self.old.dots) }
        ensures left { IfOk result (λ ended. (ended.left ≤ length out.new.items) × (left_at_end ended.left out.new.items
            ≡ left_of (within (D.answer demangler.now)) (from_mark self.old.place self.old.held.items))) }
        ensures ends { OnOk result ((held_of self.new ≡ []) × (self.new.dots ≡ 0) × (self.new.place ≡ START)) }
        ensures past { OnOk result (self.new.past ≡ self.old.past) }
        ensures same { OnErr result (self.new ≡ self.old) }
    {
        let dots = self.dots;
        let at = mark_in(&self.held, self.place);
        push_front(out, &self.held[..at])?;
        let name = &self.held[at..];
        let left = if let Some(kind) = kind_of(name) {
            let has_text = push_tries(demangler, lists, name, kind, out)?;
            self.tally.count(has_text);
            left_bytes(name, has_text)
        } else {
            out.extend_from_slice(name)?;
            0
        };
        self.held.clear();
        self.dots = 0;
        self.place = START;
        Ok(Ended { dots, left })
    }
}

/// Appends the bytes before the name of a symbol. Most often there are none.
#[inline(always)]
fn push_front(out: &mut Vec<u8>, front: &[u8]) -> Result<(), AllocError>
    ensures { OnOk result (out.new.items ≡ out.old.items ++ front.now) }
{
    if front.is_empty() {
        return Ok(());
    }
    out.extend_from_slice(front)
}

/// How many bytes of a word are left: all of them, unless the word has a text.
#[inline(always)]
fn left_bytes(word: &[u8], has_text: bool) -> usize
    ensures { result ≡ (if has_text then 0 else length word.now) }
{
    if has_text { 0 } else { word.len() }
}

/// Appends the text of a word's symbol, or the word if the symbol has no text, and answers whether the symbol has one.
fn push_text<D: Demangler>(
    demangler: &D,
    lists: &mut D::Lists,
    word: &[u8],
    kind: Kind,
    out: &mut Vec<u8>,
) -> Result<bool, AllocError>
    requires { kind_of word.now ≡ Some kind }
    ensures text { OnOk result (out.new.items ≡ out.old.items ++ word_or_text (D.answer demangler.now) word.now) }
    ensures has_text { IfOk result (λ has_text. has_text ≡ is_some (text_for (D.answer demangler.now) word.now)) }
{
    match demangler.append(lists, kind, kind.symbol_of(word), out) {
        Ok(()) => return Ok(true),
        Err(refusal) => match refusal {
            Refusal::Memory => return Err(AllocError),
            _ => {}
        },
    }
    out.extend_from_slice(word)?;
    Ok(false)
}

/// The place after the last byte of a run's part that is no dot, 0 if all bytes are dots.
pub(crate) fn word_end(part: &[u8]) -> usize
    ensures within { result ≤ length part.now }
    ensures word { take result part.now ≡ word_of part.now }
{
    let mut end = part.len();
    while end > 0 {
        if part[end - 1] != b'.' {
            return end;
        }
        end -= 1;
    }
    0
}

/// Appends dots and a part of a word after them, or nothing.
#[inline(always)]
fn push_word(held: &mut Vec<u8>, dots: usize, part: &[u8]) -> Result<(), AllocError>
    requires { length held.old.items + dots + length part.now ≤ LONGEST_WORD }
    ensures ok { OnOk result (held.new.items ≡ held.old.items ++ replicate dots 46 ++ part.now) }
    ensures unchanged { OnErr result (held.new.items ≡ held.old.items) }
{
    let len = held.len();
    held.resize(len + dots, b'.')?;
    if held.extend_from_slice(part).is_err() {
        held.truncate(len);
        return Err(AllocError);
    }
    Ok(())
}
