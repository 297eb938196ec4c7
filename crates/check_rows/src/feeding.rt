// Readers that are fed in pieces, step by step.

ghost use Rattle.std.specs.Prelude.{◌≡◌, true, IfOk, IfSome};

use std::alloc::Global;
use sym_core::Refusal;
use sym_shape::{Grammar, Reader};

/// The most steps that a symbol of this length may take, those of its reader and those of its linker together.
pub fn most_steps(len: usize) -> usize {
    len.saturating_mul(32).saturating_add(48)
}

/// Whether a reader refuses as soon as its bytes show the reason, given how many bytes it had
/// before and after the last piece.
fn is_prompt(refusal: Refusal, before: u32, len: u32, ended: bool) -> bool {
    match refusal {
        Refusal::Malformed { at } => before <= at && (at < len || ended),
        Refusal::Memory => true,
        _ => false,
    }
}

/// Feeds one piece to a reader that has taken this many steps, and steps until the piece is consumed. Answers the count of
/// steps by then, or none if a step is wrong.
fn feed<G: Grammar>(
    reader: &mut Reader<G>,
    grammar: &G,
    piece: &[u8],
    taken: usize,
) -> Result<Option<usize>, Refusal> {
    let before = reader.len();
    if reader.ended() || before > 8_000_000 || piece.len() > 8_000_000 {
        return Ok(None);
    }
    reader.feed(piece)?;
    let most = most_steps(reader.len() as usize);
    for taken in taken..=most {
        if reader.steps() as usize != taken {
            return Ok(None);
        }
        match reader.step(grammar) {
            Ok(true) => {
                let uncounted = reader.steps() as usize == taken;
                return Ok(uncounted.then_some(taken));
            }
            Ok(false) => {}
            Err(refusal) => {
                let again = reader.step(grammar) == Err(refusal);
                let counted = reader.steps() as usize == taken.saturating_add(1) && taken < most;
                if again && counted && is_prompt(refusal, before, reader.len(), reader.ended()) {
                    return Err(refusal);
                }
                return Ok(None);
            }
        }
    }
    Ok(None)
}

/// Feeds pieces to a reader, and then ends its input.
fn feed_all<G: Grammar>(
    reader: &mut Reader<G>,
    grammar: &G,
    pieces: &[&[u8]],
) -> Result<bool, Refusal> {
    let mut taken = 0;
    for piece in pieces {
        if piece.is_empty() {
            continue;
        }
        match feed(reader, grammar, piece, taken)? {
            Some(count) => taken = count,
            None => return Ok(false),
        }
    }
    let last = feed(reader, grammar, b"", taken)?;
    Ok(last.is_some())
}

/// A reader that was fed these pieces to the end; none if the reader took a wrong step.
pub fn fed<G: Grammar>(
    alloc: Global,
    grammar: &G,
    pieces: &[&[u8]],
) -> Result<Option<Reader<G>>, Refusal>
    ensures { IfOk result (λ reader. IfSome reader (λ r. r.ended ≡ true)) }
{
    let mut reader = Reader::new(alloc, grammar)?;
    if !feed_all(&mut reader, grammar, pieces)? {
        return Ok(None);
    }
    if reader.ended() {
        Ok(Some(reader))
    } else {
        Ok(None)
    }
}
