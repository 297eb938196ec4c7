// The static library's call for a name's text with its parts: with no room, with too little, with just enough and with more.

use crate::answer::Verdict;
use crate::library::{UNTOLD, UNWRITTEN, is_unwritten};
use crate::row::LIMIT;
use sym_calls::flags::{LEGACY, UNDERSCORE, WIDE};
use sym_calls::outcome::{BUFFER, MEMORY, OK};
use sym_calls::{NameFound, NamePart, Outcome, parts_of};
use symbol_parts::{Parsed, Part};

/// A part that no call has set.
fn unset() -> NamePart {
    NamePart {
        role: UNTOLD,
        start: UNTOLD,
        length: UNTOLD,
        from: UNTOLD,
        to: UNTOLD,
    }
}

/// Whether no call has set a part.
fn is_unset(part: &NamePart) -> bool {
    part.role == UNTOLD
        && part.start == UNTOLD
        && part.length == UNTOLD
        && part.from == UNTOLD
        && part.to == UNTOLD
}

/// Whether no call has set parts.
fn are_unset(parts: &[NamePart]) -> bool {
    parts.iter().all(is_unset)
}

/// Whether a call has set this part.
fn is_set(told: NamePart, part: Part) -> bool {
    told.role == part.role.number()
        && told.start == part.start
        && told.length == part.length
        && told.from == part.from
        && told.to == part.to
}

/// Whether a call has set these parts at the front, and no others.
fn are_set(told: &[NamePart], parts: &[Part]) -> bool {
    let count = parts.len();
    if count > told.len() {
        return false;
    }
    let (front, rest) = told.split_at(count);
    let are_same = front
        .iter()
        .zip(parts.iter())
        .all(|(told, part)| is_set(*told, *part));
    are_same && are_unset(rest)
}

/// Whether a text is at the front of a buffer, and the rest unwritten.
fn is_written(buffer: &[u8], text: &[u8]) -> bool {
    match buffer.strip_prefix(text) {
        Some(rest) => is_unwritten(rest),
        None => false,
    }
}

/// Whether the call reported what a name is, how long its text is, and how many parts the text has.
fn is_told(outcome: Outcome, found: NameFound, parsed: &Parsed) -> bool {
    outcome.length == parsed.text.len()
        && outcome.offset == 0
        && found.count == parsed.parts.len()
        && found.kind == parsed.kind.number()
        && found.mangling != 0
}

/// Checks the call with a buffer of this many bytes, and room for this many parts.
fn ask_with_room(verdict: &mut Verdict, name: &[u8], parsed: &Parsed, room: usize, places: usize) {
    let alloc = verdict.alloc;
    let (Ok(mut buffer), Ok(mut told)) = (
        vec![in alloc; UNWRITTEN; room],
        vec![in alloc; unset(); places],
    ) else {
        verdict.lack();
        return;
    };
    let mut found = NameFound {
        count: 0,
        kind: UNTOLD,
        mangling: UNTOLD,
    };
    let flags = WIDE | LEGACY | UNDERSCORE;
    let outcome = parts_of(
        alloc,
        name,
        LIMIT,
        flags,
        &mut buffer,
        &mut told,
        &mut found,
    );
    if outcome.status == MEMORY {
        verdict.lack();
        return;
    }
    verdict.require(is_told(outcome, found, parsed));
    let have_room = parsed.text.len() <= room && parsed.parts.len() <= places;
    verdict.require(outcome.status == if have_room { OK } else { BUFFER });
    if have_room {
        verdict.require(is_written(&buffer, &parsed.text) && are_set(&told, &parsed.parts));
    } else {
        verdict.require(is_unwritten(&buffer) && are_unset(&told));
    }
}

/// Checks the call that gives a name's parts, for a name that has these parts. The call has to write the parts and the text where there is
/// room for both, and nothing where one byte or one part is missing.
pub fn ask_library_for_parts(verdict: &mut Verdict, name: &[u8], parsed: &Parsed) {
    let room = parsed.text.len();
    let places = parsed.parts.len();
    ask_with_room(verdict, name, parsed, 0, 0);
    ask_with_room(verdict, name, parsed, room, places);
    ask_with_room(
        verdict,
        name,
        parsed,
        room.saturating_add(2),
        places.saturating_add(1),
    );
    ask_with_room(verdict, name, parsed, room.saturating_sub(1), places);
    ask_with_room(verdict, name, parsed, room, places.saturating_sub(1));
}
