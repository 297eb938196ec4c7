// A filtered text, which is kept up to the length of a buffer, and counted beyond it.
ghost use Rattle.std.specs.Prelude.{◌≡◌, ◌+◌, ◌^◌, ◌≤◌, ◌<◌, ℕ, List, [], false, length, take, replicate, OnOk, IfOk};
ghost use Rattle.sym_filter.specs.Carried.{TakesText};
ghost use Rattle.sym_filter.specs.Places.{START};
ghost use Rattle.sym_filter.specs.Runs.{filtered_at, tally_at};
ghost use Rattle.sym_filter.specs.Words.{following, held_of, rest_after, tally_after, Takes};
ghost use Rattle.sym_calls.specs.Counted.{Adds, Holds};

use std::alloc::{AllocError, Global};
use sym_filter::escapes::{Escape, first_segment};
use sym_filter::words::{Taken, Words};
use sym_filter::{Demangler, Letters, Tally};

/// How many bytes a text has, and the text itself, if it has at most n bytes.
#[derive(Drop)]
pub(crate) struct Counted {
    pub(crate) list: Vec<u8>,
    pub(crate) most: usize,
    pub(crate) count: usize,
}

impl Counted {
    /// An empty text.
    fn new(alloc: Global, most: usize) -> Counted
        ensures { Holds result most [] }
    {
        Counted {
            list: Vec::new(alloc),
            most,
            count: 0,
        }
    }

    /// Takes bytes, and keeps them if there is room for all bytes so far.
    fn add(&mut self, bytes: &[u8]) -> Result<(), AllocError>
        ensures { OnOk result (Adds self.old self.new bytes.now) }
    {
        let Some(count) = self.count.checked_add(bytes.len()) else {
            return Err(AllocError);
        };
        if count <= self.most {
            self.list.extend_from_slice(bytes)?;
        }
        self.count = count;
        Ok(())
    }

    /// Takes dots.
    fn add_dots(&mut self, dots: u128) -> Result<(), AllocError>
        ensures { OnOk result (Adds self.old self.new (replicate dots 46)) }
    {
        for _ in 0..dots {
            self.add(b".")?;
        }
        Ok(())
    }

    /// Takes what follows taken bytes: dots, and the bytes themselves if these stay.
    fn add_following(&mut self, taken: Taken, bytes: &[u8]) -> Result<(), AllocError>
        ensures { OnOk result (Adds self.old self.new (following taken bytes.now)) }
    {
        self.add_dots(taken.dots)?;
        if !taken.stay {
            return Ok(());
        }
        self.add(bytes)?;
        Ok(())
    }
}

/// The filtered text of a text in memory, if the filtered text has at most n bytes, and how many bytes it has. Apart from the words and the
/// demangler's lists, no more is held than n bytes and one word's text.
///
/// # Errors
///
/// An error where memory runs out.
pub(crate) fn filter_counted<D: Demangler>(
    alloc: Global,
    demangler: &D,
    letters: Letters,
    text: &[u8],
    most: usize,
) -> Result<(Counted, Tally), AllocError>
    ensures holds { IfOk result (λ told. Holds told.0 most (filtered_at letters (D.answer demangler.now) text.now)) }
    ensures tally { IfOk result (λ told. told.1 ≡ tally_at letters (D.answer demangler.now) text.now) }
{
    let mut words = Words::new(alloc, letters);
    let mut escape = Escape::Outside;
    let mut lists = demangler.lists(alloc)?;
    let mut out = Vec::new(alloc);
    let mut kept = Counted::new(alloc, most);
    let mut at = 0;
    while at < text.len() {
        let rest = &text[at..];
        let count = take_segment(
            demangler,
            &mut lists,
            &mut words,
            &mut escape,
            rest,
            &mut out,
            &mut kept,
        )?;
        at += count;
    }
    end_segment(demangler, &mut lists, &mut words, &mut out, &mut kept)?;
    Ok((kept, words.tally()))
}

/// Takes bytes from the front of a text: up to the end of its first escape, or all if it has none. Keeps what these bytes make of the filtered
/// text, and answers how many bytes were taken.
fn take_segment<D: Demangler>(
    demangler: &D,
    lists: &mut D::Lists,
    words: &mut Words,
    escape: &mut Escape,
    text: &[u8],
    out: &mut Vec<u8>,
    kept: &mut Counted,
) -> Result<usize, AllocError>
    requires nothing_waits { out.old.items ≡ [] }
    requires room { words.old.dots + length text.now < 2 ^ 128 }
    requires some { 0 < length text.now }
    ensures within { IfOk result (λ count. (0 < count) × (count ≤ length text.now)) }
    ensures ok { IfOk result (λ count. (bytes : List ℕ)
        × TakesText (D.answer demangler.now) words.old words.new escape.old escape.new (take count text.now) bytes
        × Adds kept.old kept.new bytes) }
    ensures nothing_waits { OnOk result (out.new.items ≡ []) }
{
    let segment = first_segment(words.letters(), text, *escape);
    let front = &text[..segment.length];
    take_words(demangler, lists, words, front, out, kept)?;
    *escape = segment.escape;
    if !segment.ends {
        return Ok(segment.length);
    }
    end_segment(demangler, lists, words, out, kept)?;
    Ok(segment.length)
}

/// Takes a part of a segment, and keeps what that part makes of the filtered text.
fn take_words<D: Demangler>(
    demangler: &D,
    lists: &mut D::Lists,
    words: &mut Words,
    piece: &[u8],
    out: &mut Vec<u8>,
    kept: &mut Counted,
) -> Result<(), AllocError>
    requires nothing_waits { out.old.items ≡ [] }
    requires room { words.old.dots + length piece.now < 2 ^ 128 }
    ensures ok { OnOk result ((bytes : List ℕ) × Takes (D.answer demangler.now) words.old words.new piece.now bytes
        × Adds kept.old kept.new bytes) }
    ensures nothing_waits { OnOk result (out.new.items ≡ []) }
{
    let mut at = 0;
    while at < piece.len() {
        let rest = &piece[at..];
        let taken = words.take(demangler, lists, rest, out)?;
        kept.add(out)?;
        out.clear();
        kept.add_following(taken, &rest[..taken.count])?;
        at += taken.count;
    }
    Ok(())
}

/// Keeps what the end of a segment adds to the filtered text.
fn end_segment<D: Demangler>(
    demangler: &D,
    lists: &mut D::Lists,
    words: &mut Words,
    out: &mut Vec<u8>,
    kept: &mut Counted,
) -> Result<(), AllocError>
    requires nothing_waits { out.old.items ≡ [] }
    ensures ok { OnOk result (Adds kept.old kept.new (rest_after (D.answer demangler.now) words.old [])) }
    ensures nothing_waits { OnOk result (out.new.items ≡ []) }
    ensures counts { OnOk result (words.new.tally ≡ tally_after (D.answer demangler.now) words.old []) }
    ensures begins { OnOk result ((held_of words.new ≡ []) × (words.new.dots ≡ 0) × (words.new.place ≡ START) × (words.new.past ≡ false)) }
    ensures letters { OnOk result (words.new.letters ≡ words.old.letters) }
{
    let ended = words.end_segment(demangler, lists, out)?;
    kept.add(out)?;
    out.clear();
    kept.add_dots(ended.dots)?;
    Ok(())
}
