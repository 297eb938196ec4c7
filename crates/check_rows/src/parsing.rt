// Rows `parts`: what a symbol is, and the parts of its text.

use crate::answer::Verdict;
use crate::named::ask_library_for_parts;
use crate::row::{LIMIT, Row};
use std::alloc::{AllocError, Global};
use sym_core::{Refusal, fits};
use sym_languages::{Languages, Legacy, Wide};
use sym_print::Detail;
use symbol_parts::{Parsed, Parser, Part};

/// Parts as a row has them.
fn spelled_parts(alloc: Global, parts: &[Part]) -> Result<Vec<u8>, AllocError> {
    let mut spelled = Vec::new(alloc);
    for part in parts {
        if !spelled.is_empty() {
            spelled.push(b' ')?;
        }
        let Part {
            role,
            start,
            length,
            from,
            to,
        } = *part;
        spelled.extend_from_slice(role.name().as_bytes())?;
        let stretch = format!(in alloc; ":{start}+{length}@{from}-{to}")?;
        spelled.extend_from_slice(stretch.as_bytes())?;
    }
    Ok(spelled)
}

/// Notes whether a symbol is of the kind that a row says, and has the row's text and parts.
fn require_parsed(verdict: &mut Verdict, parsed: &Parsed, row: Row<'_>, kind: &[u8], parts: &[u8]) {
    verdict.text(&parsed.text, row.wanted);
    verdict.require(parsed.kind.name().as_bytes() == kind);
    match spelled_parts(verdict.alloc, &parsed.parts) {
        Ok(spelled) => verdict.require(spelled.as_slice() == parts),
        Err(_) => verdict.lack(),
    }
}

/// Checks what a word's symbol is, its text and the text's parts, by the wide grammar and with legacy Rust names as paths. The static
/// library's call has to report the same for the word.
pub fn ask_parts(verdict: &mut Verdict, word: &[u8], row: Row<'_>, kind: &[u8], parts: &[u8]) {
    if !fits(row.s) {
        verdict.require(false);
        return;
    }
    let parser = Legacy {
        languages: Languages {
            limit: LIMIT,
            detail: Detail::Full,
            cpp: Wide,
        },
    };
    match parser.parse(verdict.alloc, row.kind, row.s) {
        Ok(parsed) => {
            require_parsed(verdict, &parsed, row, kind, parts);
            ask_library_for_parts(verdict, word, &parsed);
        }
        Err(Refusal::Memory) => verdict.lack(),
        Err(_) => verdict.require(false),
    }
}
