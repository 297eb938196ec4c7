// The texts of many names, with one set of lists for all of them.
ghost use Rattle.std.specs.Prelude.{◌≡◌, ◌≤◌, length, true};
ghost use Rattle.sym_languages.specs.Languages.{answers_by};
ghost use Rattle.sym_short.specs.Rewriting.{answers_as};
ghost use Rattle.sym_calls.specs.Calls.{asked_of};
ghost use Rattle.sym_calls.specs.Texts.{AreTold, IsTold, TextsEndAs, are_ends, placed};

use crate::flags::{Asked, asked_of};
use crate::outcome::{ENDS, FLAGS, OK, Outcome};
use crate::text::{name_with, or_type};
use std::alloc::Global;
use sym_filter::Demangler;
use sym_languages::languages::{Cpp, Lists};
use sym_languages::{Abi, Wide};
use sym_short::{Rewriting, RewritingLists, Shortening, Texts};

/// Whether ends increase, from 0 to at most the length of a text.
fn are_ends(ends: &[usize], len: usize) -> bool
    ensures { result ≡ are_ends 0 len ends.now }
{
    let mut from = 0;
    for end in ends {
        if *end < from {
            return false;
        }
        from = *end;
    }
    from <= len
}

/// Writes the text of one name among many to the front of the rest of the buffer.
fn told_of<D: Demangler>(
    alloc: Global,
    demangler: &D,
    lists: &mut D::Lists,
    text: &mut Vec<u8>,
    asked: Asked,
    name: &[u8],
    buffer: &mut [u8],
) -> Outcome
    ensures told { IsTold (D.answer demangler.now) asked name.now buffer.old result buffer.new }
    ensures within { placed result ≤ length buffer.new }
{
    let outcome = name_with(demangler, lists, text, asked, name, buffer);
    or_type(alloc, demangler, asked, name, buffer, outcome)
}

/// How many bytes of the buffer a name's text took.
fn placed(outcome: Outcome) -> usize
    ensures { result ≡ placed outcome }
{
    if outcome.status == OK {
        outcome.length
    } else {
        0
    }
}

/// Writes the texts of names to the buffer, one after the other, and sets the outcome of each.
fn tell_each<D: Demangler>(
    alloc: Global,
    demangler: &D,
    mut lists: D::Lists,
    asked: Asked,
    names: &[u8],
    ends: &[usize],
    buffer: &mut [u8],
    outcomes: &mut [Outcome],
) -> u32
    requires ends { are_ends 0 (length names.now) ends.now ≡ true }
    requires outcomes { length outcomes.old ≡ length ends.now }
    ensures told { AreTold (D.answer demangler.now) asked names.now 0 ends.now buffer.old buffer.new outcomes.new }
    ensures status { result ≡ 0 }
{
    let mut text = Vec::new(alloc);
    let mut from = 0;
    let mut at = 0;
    'each: for (i, end) in ends.iter().enumerate() {
        let name = &names[from..*end];
        let outcome = told_of(
            alloc,
            demangler,
            &mut lists,
            &mut text,
            asked,
            name,
            &mut buffer[at..],
        );
        outcomes[i] = outcome;
        at += placed(outcome);
        from = *end;
    }
    OK
}

/// Writes the texts of names in the same way, as short texts if these are requested.
fn tell_as<D: Demangler + Copy + Drop>(
    alloc: Global,
    demangler: D,
    lists: D::Lists,
    asked: Asked,
    names: &[u8],
    ends: &[usize],
    buffer: &mut [u8],
    outcomes: &mut [Outcome],
) -> u32
    requires ends { are_ends 0 (length names.now) ends.now ≡ true }
    requires outcomes { length outcomes.old ≡ length ends.now }
    ensures told { AreTold (answers_as asked.texts asked.legacy (D.answer demangler)) asked names.now 0 ends.now buffer.old buffer.new outcomes.new }
    ensures status { result ≡ 0 }
{
    match asked.texts {
        Texts::Whole => tell_each(
            alloc, &demangler, lists, asked, names, ends, buffer, outcomes,
        ),
        Texts::Short { keeps_inline } => {
            let short = Rewriting {
                demangler,
                rewrite: Shortening {
                    keeps_inline,
                    reads_paths: asked.legacy,
                },
            };
            let lists = RewritingLists::new(alloc, lists);
            tell_each(alloc, &short, lists, asked, names, ends, buffer, outcomes)
        }
    }
}

/// Writes the texts of names in the same way, as requested and with a grammar of C++.
fn tell_in<C: Cpp>(
    alloc: Global,
    cpp: C,
    asked: Asked,
    limit: u32,
    names: &[u8],
    ends: &[usize],
    buffer: &mut [u8],
    outcomes: &mut [Outcome],
) -> u32
    requires ends { are_ends 0 (length names.now) ends.now ≡ true }
    requires outcomes { length outcomes.old ≡ length ends.now }
    ensures told { AreTold (answers_as asked.texts asked.legacy (answers_by C.mangled asked.legacy limit asked.detail)) asked names.now 0 ends.now buffer.old buffer.new outcomes.new }
    ensures status { result ≡ 0 }
{
    if asked.legacy {
        return tell_as(
            alloc,
            asked.with_legacy(limit, cpp),
            Lists::new(alloc),
            asked,
            names,
            ends,
            buffer,
            outcomes,
        );
    }
    tell_as(
        alloc,
        asked.languages(limit, cpp),
        Lists::new(alloc),
        asked,
        names,
        ends,
        buffer,
        outcomes,
    )
}

/// Writes the texts of many names to the buffer, one after the other, and sets for each name the outcome that `text_of` would give. Name i
/// is in `names` from the end of the name before it (0 for the first) to `ends[i]`. A name whose text is longer than the rest of the buffer
/// gets the size that it needs, and the names after it may still have room.
///
/// It answers 0 where each name got its outcome, `FLAGS` where one of the flags doesn't exist, and `ENDS` where the ends decrease, pass the
/// length of `names`, or are fewer or more than the outcomes. With `FLAGS` and `ENDS` nothing is written. A lack of memory is reported for
/// each name that it affects.
#[tactic(auto, unfolding(crate::specs::Texts::TextsEndAs))]
pub fn texts_of(
    alloc: Global,
    names: &[u8],
    ends: &[usize],
    limit: u32,
    flags: u32,
    buffer: &mut [u8],
    outcomes: &mut [Outcome],
) -> u32
    ensures { TextsEndAs (asked_of flags) limit names.now ends.now buffer.old buffer.new outcomes.old outcomes.new result }
{
    let Some(asked) = asked_of(flags) else {
        return FLAGS;
    };
    if outcomes.len() != ends.len() {
        return ENDS;
    }
    if !are_ends(ends, names.len()) {
        return ENDS;
    }
    if asked.wide {
        return tell_in(alloc, Wide, asked, limit, names, ends, buffer, outcomes);
    }
    tell_in(alloc, Abi, asked, limit, names, ends, buffer, outcomes)
}
