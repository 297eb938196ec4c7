// Parts of a word's text, from the parts of its symbol's text.

ghost use Rattle.std.specs.Prelude.{◌≡◌, IfOk, Ok, map};
ghost use Rattle.symbol_parts.specs.Parsed.{found, part_behind, parsed_behind};

use crate::parsed::Parsed;
use std::alloc::{AllocError, Global};
use sym_parts::Part;

/// A part of a word's text, made of the part of its symbol's text. The word has `skip` bytes before its symbol.
#[tactic(auto, unfolding(crate::specs::Parsed::part_behind))]
fn part_behind(skip: u32, part: &Part) -> Part
    ensures { result ≡ part_behind skip part.now }
{
    Part {
        role: part.role,
        start: part.start,
        length: part.length,
        from: part.from.saturating_add(skip),
        to: part.to.saturating_add(skip),
    }
}

/// The parts of a word's text, made of the parts of its symbol's text. The word has `skip` bytes before its symbol.
fn parts_behind(alloc: Global, skip: u32, parts: &[Part]) -> Result<Vec<Part>, AllocError>
    ensures { IfOk result (λ list. list.items ≡ map (part_behind skip) parts.now) }
{
    parts
        .iter()
        .map(|part| part_behind(skip, part))
        .collect(alloc)
}

/// What is known of a word, by what was found of its symbol. The word has `skip` bytes before its symbol.
///
/// # Errors
///
/// `AllocError` where memory runs out.
pub(crate) fn parsed_behind(alloc: Global, skip: u32, parsed: Parsed) -> Result<Parsed, AllocError>
    ensures { IfOk result (λ behind. Ok (found behind) ≡ parsed_behind skip (Ok (found parsed))) }
{
    let Parsed { text, kind, parts } = parsed;
    let parts = parts_behind(alloc, skip, &parts)?;
    Ok(Parsed { text, kind, parts })
}
