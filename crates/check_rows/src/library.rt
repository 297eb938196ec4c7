// Checks of the static library's calls: each of their statuses, and each call with buffers of no byte, of too few, of just enough and of more.

use crate::answer::Verdict;
use crate::row::Row;
use std::alloc::{AllocError, Global};
use sym_calls::flags::{
    ASCII_WORDS, BRIEF, LEGACY, NO_PARAMETERS, TYPES, UNDERSCORE, WIDE, WITHIN,
};
use sym_calls::outcome::{
    BAD_REFERENCE, BAD_VALUE, BUFFER, ENDS, FLAGS, MALFORMED, MEMORY, NO_SPELLING, NO_SYMBOL, OK,
    SIZE, TOO_LONG,
};
use sym_calls::{
    Outcome, SymbolCounts, TextTally, counts_of, filter_of, press_of, text_of, texts_of,
};
use sym_command::{Asked as Shown, Filtering};
use sym_core::{Counts, Refusal};
use sym_filter::{Demangled, Letters};
use sym_print::Detail;

/// What is in a buffer before a call writes to it.
pub const UNWRITTEN: u8 = 0xa5;

/// The value of each number before a call sets it.
pub const UNTOLD: u32 = 0xa5a5_a5a5;

/// The answer that a row gives for a name that is no symbol and can't be a type.
const NO_NAME: &[u8] = b"not a symbol";

/// A number that is no flag.
const NO_FLAG: u32 = 1_024;

/// A call that writes to a buffer.
#[derive(Clone, Copy)]
enum Call {
    Text,
    Filter,
    Press,
}

/// A call with its arguments, except for the buffer.
#[derive(Clone, Copy)]
struct Asked<'a> {
    call: Call,
    bytes: &'a [u8],
    /// The underscore that a row has before its symbol, if there is one.
    front: &'a [u8],
    limit: u32,
    flags: u32,
}

impl<'a> Asked<'a> {
    fn new(call: Call, bytes: &'a [u8], limit: u32, flags: u32) -> Asked<'a> {
        Asked {
            call,
            bytes,
            front: b"",
            limit,
            flags,
        }
    }
}

/// The flags for a detail, for a grammar of C++, and for legacy Rust names as paths or as C++.
fn flags_of(detail: Detail, wide: bool, legacy: bool) -> u32 {
    let shown = match detail {
        Detail::Full => 0,
        Detail::Brief => BRIEF,
        Detail::NoParameters => NO_PARAMETERS,
        Detail::BriefNoParameters => BRIEF | NO_PARAMETERS,
    };
    let read = if wide { WIDE } else { 0 };
    let paths = if legacy { LEGACY } else { 0 };
    shown | read | paths
}

/// Whether nothing was written to a buffer.
pub fn is_unwritten(buffer: &[u8]) -> bool {
    buffer.iter().all(|byte| *byte == UNWRITTEN)
}

/// A tally that no call has set.
fn untallied() -> TextTally {
    TextTally {
        words: UNTOLD as u64,
        replaced: UNTOLD as u64,
        refused: UNTOLD as u64,
    }
}

/// Whether a tally is set exactly if the status is 0, and its number of words is the sum of those that were replaced and those that weren't.
fn is_tallied(status: u32, tally: TextTally) -> bool {
    let untold = UNTOLD as u64;
    if status == OK {
        tally.words == tally.replaced.wrapping_add(tally.refused)
    } else {
        tally.words == untold && tally.replaced == untold && tally.refused == untold
    }
}

/// Makes a call with a buffer.
fn outcome_of(verdict: &mut Verdict, asked: Asked<'_>, buffer: &mut [u8]) -> Outcome {
    let Asked {
        call,
        bytes,
        limit,
        flags,
        ..
    } = asked;
    let alloc = verdict.alloc;
    let outcome = match call {
        Call::Text => text_of(alloc, bytes, limit, flags, buffer),
        Call::Filter => {
            let mut tally = untallied();
            let outcome = filter_of(alloc, bytes, limit, flags, buffer, &mut tally);
            verdict.require(is_tallied(outcome.status, tally));
            outcome
        }
        Call::Press => press_of(alloc, bytes, flags, buffer),
    };
    if outcome.status == MEMORY {
        verdict.lack();
    }
    outcome
}

/// Checks that a call has this status, sets nothing else, and writes nothing.
fn ask_status(verdict: &mut Verdict, asked: Asked<'_>, status: u32) {
    let mut buffer = [UNWRITTEN; 8];
    let outcome = outcome_of(verdict, asked, &mut buffer);
    verdict.require(
        outcome.status == status
            && outcome.length == 0
            && outcome.offset == 0
            && is_unwritten(&buffer),
    );
}

/// The refusal that a status and an offset denote for a symbol after this many bytes, if they denote one.
fn refusal_of(outcome: Outcome, skipped: u32) -> Option<Refusal> {
    let at = outcome.offset.wrapping_sub(skipped);
    match outcome.status {
        MALFORMED => Some(Refusal::Malformed { at }),
        BAD_REFERENCE => Some(Refusal::BadReference { at }),
        BAD_VALUE => Some(Refusal::BadValue { at }),
        TOO_LONG if outcome.offset == 0 => Some(Refusal::TooLong),
        _ => None,
    }
}

/// Checks that a call with a buffer either writes its text, which has this length, or says that the buffer is too small. The rest of the
/// buffer has to stay unwritten.
fn ask_to_write(verdict: &mut Verdict, asked: Asked<'_>, room: usize, len: usize, wanted: &[u8]) {
    let Ok(mut buffer) = vec![in verdict.alloc; UNWRITTEN; room] else {
        verdict.lack();
        return;
    };
    let outcome = outcome_of(verdict, asked, &mut buffer);
    verdict.require(outcome.length == len && outcome.offset == 0);
    if outcome.status == OK && len <= buffer.len() {
        let (written, rest) = buffer.split_at(len);
        verdict.require(is_unwritten(rest));
        let text = match asked.call {
            Call::Press => written.strip_prefix(asked.front).unwrap_or_default(),
            Call::Text | Call::Filter => written,
        };
        verdict.text(text, wanted);
        return;
    }
    verdict.require(outcome.status == BUFFER && room < len && is_unwritten(&buffer));
}

/// Checks the answer of a call, which is a text or a refusal. The call has to write the text to a buffer of its length, no more bytes to a
/// larger buffer, and none to a buffer that is a byte smaller.
fn ask_call(verdict: &mut Verdict, asked: Asked<'_>, wanted: &[u8]) {
    let first = outcome_of(verdict, asked, &mut []);
    if first.status == OK || first.status == BUFFER {
        let len = first.length;
        ask_to_write(verdict, asked, len.saturating_sub(1), len, wanted);
        ask_to_write(verdict, asked, len, len, wanted);
        ask_to_write(verdict, asked, len.saturating_add(2), len, wanted);
        return;
    }
    let skipped = if asked.front.is_empty() { 0 } else { 1 };
    match refusal_of(first, skipped) {
        Some(refusal) => verdict.refusal(refusal, wanted),
        None => verdict.require(false),
    }
    let mut buffer = [UNWRITTEN; 8];
    let again = outcome_of(verdict, asked, &mut buffer);
    let is_same = again.status == first.status && again.offset == first.offset;
    let is_alone = first.length == 0 && again.length == 0;
    verdict.require(is_same && is_alone && is_unwritten(&buffer));
}

/// A name after an underscore.
fn underscored(alloc: Global, name: &[u8]) -> Result<Vec<u8>, AllocError> {
    let mut longer = Vec::from_slice(alloc, b"_")?;
    longer.extend_from_slice(name)?;
    Ok(longer)
}

/// Checks a call's answer for a name, as it is and after an underscore that the flag allows. The call has to find no symbol
/// after an underscore that no flag allows, nor in the name without its first byte.
fn ask_for_name(verdict: &mut Verdict, asked: Asked<'_>, wanted: &[u8]) {
    let name = asked.bytes;
    let Ok(longer) = underscored(verdict.alloc, name) else {
        verdict.lack();
        return;
    };
    let flags = asked.flags | UNDERSCORE;
    let after = Asked {
        bytes: &longer,
        front: b"_",
        flags,
        ..asked
    };
    let unasked = Asked {
        bytes: &longer,
        ..asked
    };
    let rest = Asked {
        bytes: name.get(1..).unwrap_or_default(),
        flags,
        ..asked
    };
    ask_call(verdict, asked, wanted);
    ask_call(verdict, after, wanted);
    ask_status(verdict, unasked, NO_SYMBOL);
    ask_status(verdict, rest, NO_SYMBOL);
}

/// Whether a name begins like a symbol.
fn is_named(name: &[u8]) -> bool {
    name.starts_with(b"_Z") || name.starts_with(b"_R")
}

/// Counts that no call has set.
fn uncounted() -> SymbolCounts {
    SymbolCounts {
        rows: UNTOLD,
        nodes: UNTOLD,
        steps: UNTOLD,
    }
}

/// Whether no call has set the counts.
fn is_uncounted(counts: SymbolCounts) -> bool {
    counts.rows == UNTOLD && counts.nodes == UNTOLD && counts.steps == UNTOLD
}

/// Whether the counting call sets these counts for a symbol.
fn are_put(outcome: Outcome, counts: SymbolCounts, wanted: Counts) -> bool {
    let is_told = outcome.status == OK && outcome.offset == 0;
    let are_same = counts.rows == wanted.rows
        && counts.nodes == wanted.nodes
        && counts.steps == wanted.steps;
    is_told && are_same
}

/// Checks the counting call: it has to report what a demangler answered, the counts of a symbol or the reason why the symbol isn't read.
pub fn ask_library_to_count(verdict: &mut Verdict, row: Row<'_>, answer: Demangled) {
    let s = row.s;
    let mut counts = uncounted();
    let flags = flags_of(Detail::Full, row.wide, false);
    let outcome = counts_of(verdict.alloc, s, flags, &mut counts);
    if outcome.status == MEMORY {
        verdict.lack();
    }
    let holds = match answer {
        Demangled::Text(wanted) => are_put(outcome, counts, wanted),
        Demangled::TooLong(wanted) => are_put(outcome, counts, wanted),
        Demangled::Refused(refusal) => {
            let is_nameless = !is_named(s) && outcome.status == NO_SYMBOL;
            let is_told = refusal_of(outcome, 0) == Some(refusal);
            is_uncounted(counts) && (is_nameless || is_told)
        }
    };
    verdict.require(holds);
}

/// The outcome of one of many names before a call sets it.
fn untold() -> Outcome {
    Outcome {
        length: UNTOLD as usize,
        offset: UNTOLD,
        status: UNTOLD,
    }
}

/// Whether no call has set the outcome of one of many names.
fn is_untold(outcome: Outcome) -> bool {
    outcome.status == UNTOLD && outcome.offset == UNTOLD && outcome.length == UNTOLD as usize
}

/// Checks that the call over many names has this status, sets no outcome and writes nothing.
fn ask_status_of_all(
    verdict: &mut Verdict,
    names: &[u8],
    ends: &[usize],
    outcomes: &mut [Outcome],
    flags: u32,
    wanted: u32,
) {
    let mut buffer = [UNWRITTEN; 8];
    let alloc = verdict.alloc;
    let status = texts_of(alloc, names, ends, u32::MAX, flags, &mut buffer, outcomes);
    let nothing = outcomes.iter().all(|outcome| is_untold(*outcome));
    verdict.require(status == wanted && nothing && is_unwritten(&buffer));
}

/// Checks that the call over many names refuses wrong ends and a number that is no flag. Ends are wrong if there are fewer or more of them
/// than outcomes, if they decrease, or if they lie past the names.
fn ask_with_wrong_ends(verdict: &mut Verdict, s: &[u8], flags: u32) {
    let len = s.len();
    let past = len.saturating_add(1);
    let mut one = [untold(); 1];
    let mut two = [untold(); 2];
    ask_status_of_all(verdict, s, &[len], &mut two, flags, ENDS);
    ask_status_of_all(verdict, s, &[len, len], &mut one, flags, ENDS);
    ask_status_of_all(verdict, s, &[past], &mut one, flags, ENDS);
    ask_status_of_all(verdict, s, &[1, 0], &mut two, flags, ENDS);
    ask_status_of_all(verdict, s, &[len], &mut one, NO_FLAG, FLAGS);
}

/// Checks that the call over one name, with the same rest of the buffer, agrees with the call over many names on that name.
fn ask_alone(verdict: &mut Verdict, asked: Asked<'_>, told: Outcome, left: &[u8]) {
    let Ok(mut buffer) = vec![in verdict.alloc; UNWRITTEN; left.len()] else {
        verdict.lack();
        return;
    };
    let one = outcome_of(verdict, asked, &mut buffer);
    if told.status == MEMORY {
        verdict.lack();
    }
    verdict.require(
        told.status == one.status && told.length == one.length && told.offset == one.offset,
    );
    if told.status == OK {
        let text = left.get(..told.length).unwrap_or_default();
        verdict.require(buffer.starts_with(text));
    }
}

/// Checks that the call over one name agrees with the call over many names on each of these names.
fn ask_each_alone(
    verdict: &mut Verdict,
    names: &[&[u8]],
    limit: u32,
    flags: u32,
    buffer: &[u8],
    outcomes: &[Outcome],
) {
    let mut left = buffer;
    for (name, told) in names.iter().zip(outcomes) {
        ask_alone(
            verdict,
            Asked::new(Call::Text, name, limit, flags),
            *told,
            left,
        );
        if told.status == OK {
            left = left.get(told.length..).unwrap_or_default();
        }
    }
    verdict.require(is_unwritten(left));
}

/// Names one after the other, and a buffer of this length after them.
fn joined(alloc: Global, names: &[&[u8]], room: usize) -> Result<Vec<u8>, AllocError> {
    let mut all = Vec::new(alloc);
    for name in names {
        all.extend_from_slice(name)?;
    }
    let len = all.len().saturating_add(room);
    all.resize(len, UNWRITTEN)?;
    Ok(all)
}

/// Checks that the call over many names, with a buffer of this length, agrees with the call over one name on each of three names.
fn ask_together(verdict: &mut Verdict, names: [&[u8]; 3], limit: u32, flags: u32, room: usize) {
    let Ok(mut all) = joined(verdict.alloc, &names, room) else {
        verdict.lack();
        return;
    };
    let [first, second, third] = names;
    let second_end = first.len().saturating_add(second.len());
    let end = second_end.saturating_add(third.len());
    let ends = [first.len(), second_end, end];
    let mut outcomes = [untold(); 3];
    let middle = end.min(all.len());
    let (bytes, buffer) = all.split_at_mut(middle);
    let alloc = verdict.alloc;
    let status = texts_of(alloc, bytes, &ends, limit, flags, buffer, &mut outcomes);
    verdict.require(status == OK);
    ask_each_alone(verdict, &names, limit, flags, buffer, &outcomes);
}

/// Checks the call over many names with one name given twice: with room for its text, and with a byte too few.
fn ask_twice(verdict: &mut Verdict, asked: Asked<'_>) {
    let Asked {
        bytes,
        limit,
        flags,
        ..
    } = asked;
    let first = outcome_of(verdict, asked, &mut []);
    let enough = first.length.saturating_mul(2);
    let names: [&[u8]; 3] = [bytes, b"", bytes];
    ask_together(verdict, names, limit, flags, enough);
    ask_together(verdict, names, limit, flags, enough.saturating_sub(1));
}

/// Checks that the counting call has this status and sets nothing.
fn ask_status_of_counting(verdict: &mut Verdict, s: &[u8], flags: u32, status: u32) {
    let mut counts = uncounted();
    let outcome = counts_of(verdict.alloc, s, flags, &mut counts);
    verdict.require(outcome.status == status && outcome.offset == 0 && is_uncounted(counts));
}

/// Checks that the calls refuse a number that is no flag.
fn ask_with_wrong_flags(verdict: &mut Verdict, s: &[u8]) {
    let limit = u32::MAX;
    ask_status(verdict, Asked::new(Call::Text, s, limit, NO_FLAG), FLAGS);
    ask_status(verdict, Asked::new(Call::Filter, s, limit, NO_FLAG), FLAGS);
    ask_status(verdict, Asked::new(Call::Press, s, limit, NO_FLAG), FLAGS);
    ask_status_of_counting(verdict, s, NO_FLAG, FLAGS);
}

/// Checks each call of the static library that gives a symbol's text. A name that doesn't begin like a symbol has to be reported as such.
pub fn ask_library(verdict: &mut Verdict, row: Row<'_>) {
    let flags = flags_of(row.detail, row.wide, row.legacy);
    let asked = Asked::new(Call::Text, row.s, row.limit, flags);
    if !is_named(row.s) {
        ask_status(verdict, asked, NO_SYMBOL);
        return;
    }
    ask_for_name(verdict, asked, row.wanted);
    ask_twice(verdict, asked);
    ask_with_wrong_flags(verdict, row.s);
    ask_with_wrong_ends(verdict, row.s, flags);
}

/// Checks the spelling that the static library's call for pressing answers.
pub fn ask_library_to_press(verdict: &mut Verdict, s: &[u8], wanted: &[u8]) {
    ask_library_to_press_by(verdict, s, 0, wanted);
}

/// Checks the spelling that the call for pressing answers with C++ by the wide grammar.
pub fn ask_library_to_press_wide(verdict: &mut Verdict, s: &[u8], wanted: &[u8]) {
    ask_library_to_press_by(verdict, s, WIDE, wanted);
}

/// Checks the spelling that the call for pressing answers with these flags.
fn ask_library_to_press_by(verdict: &mut Verdict, s: &[u8], flags: u32, wanted: &[u8]) {
    let asked = Asked::new(Call::Press, s, 0, flags);
    if is_named(s) {
        ask_for_name(verdict, asked, wanted);
    } else {
        ask_status(verdict, asked, NO_SYMBOL);
    }
}

/// Checks that the static library's call for pressing reports that a symbol of the wide grammar has no spelling.
pub fn ask_library_unspelled(verdict: &mut Verdict, s: &[u8]) {
    ask_status(verdict, Asked::new(Call::Press, s, 0, WIDE), NO_SPELLING);
}

/// Checks the static library's call that filters a text, as a command line without pressing requests it.
pub fn ask_library_to_filter(
    verdict: &mut Verdict,
    text: &[u8],
    filtering: Filtering,
    wanted: &[u8],
) {
    let is_wide = match filtering.asked {
        Shown::Text => false,
        Shown::WideText => true,
        Shown::Pressed => return,
        Shown::WidePressed => return,
    };
    let shown = flags_of(filtering.detail, is_wide, filtering.legacy);
    let flags = match filtering.letters {
        Letters::Any => shown,
        Letters::Ascii => shown | ASCII_WORDS,
        Letters::Within => shown | WITHIN,
    };
    let asked = Asked::new(Call::Filter, text, filtering.limit, flags);
    ask_call(verdict, asked, wanted);
}

/// Checks that each call of the static library that reads a symbol reports that this one has too many bytes.
pub fn ask_oversize(verdict: &mut Verdict, s: &[u8]) {
    let limit = u32::MAX;
    ask_status(verdict, Asked::new(Call::Text, s, limit, 0), SIZE);
    ask_status(verdict, Asked::new(Call::Text, s, limit, UNDERSCORE), SIZE);
    ask_status(verdict, Asked::new(Call::Press, s, limit, 0), SIZE);
    ask_status_of_counting(verdict, s, 0, SIZE);
    let names: [&[u8]; 3] = [b"_Z1fv", s, b"_Z1gv"];
    ask_together(verdict, names, limit, 0, 6);
}

/// Checks a type's text, or the reason why it has none, by the calls over one name and over many names. Each call has to say that the name
/// is no symbol where types aren't requested or can't be read.
pub fn ask_library_for_type(verdict: &mut Verdict, name: &[u8], limit: u32, wanted: &[u8]) {
    let asked = Asked::new(Call::Text, name, limit, TYPES);
    let wide = Asked {
        flags: TYPES | WIDE | LEGACY | UNDERSCORE,
        ..asked
    };
    let unasked = Asked {
        flags: WIDE,
        ..asked
    };
    let pressed = Asked {
        call: Call::Press,
        ..asked
    };
    if wanted == NO_NAME {
        ask_status(verdict, asked, NO_SYMBOL);
        ask_status(verdict, wide, NO_SYMBOL);
    } else {
        ask_call(verdict, asked, wanted);
        ask_call(verdict, wide, wanted);
    }
    ask_twice(verdict, asked);
    ask_status(verdict, unasked, NO_SYMBOL);
    ask_status(verdict, pressed, NO_SYMBOL);
    ask_status_of_counting(verdict, name, TYPES, NO_SYMBOL);
}

/// Checks that the static library's calls for names report that this name doesn't begin like a symbol.
pub fn ask_nameless(verdict: &mut Verdict, word: &[u8]) {
    let asked = Asked::new(Call::Text, word, u32::MAX, UNDERSCORE);
    ask_status(verdict, asked, NO_SYMBOL);
    let pressed = Asked {
        call: Call::Press,
        ..asked
    };
    ask_status(verdict, pressed, NO_SYMBOL);
}
