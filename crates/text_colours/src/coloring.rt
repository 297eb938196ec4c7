// Texts with their parts in their styles.
ghost use Rattle.std.specs.Prelude.{◌≡◌, ◌++◌, ◌+◌, ◌-◌, ◌<◌, ◌≤◌, ◌^◌, take, drop, length, IfOk, OnOk};
ghost use Rattle.sym_parts.specs.Placed.{end_of};
ghost use Rattle.text_colours.specs.Colored.{colored, has_style, place_after, shows, slice, written};

use crate::styles::{PLAIN, style_of};
use std::alloc::{AllocError, Global};
use sym_parts::{Part, Role};

/// A text with its parts in their styles. A part within a part that has a style is shown in that style.
pub fn colored(alloc: Global, text: &[u8], parts: &[Part]) -> Result<Vec<u8>, AllocError>
    ensures { IfOk result (λ all. all.items ≡ colored text.now parts.now) }
{
    let mut out = Vec::new(alloc);
    let mut place = 0;
    'parts: for part in parts {
        place = push_part(text, place, *part, &mut out)?;
    }
    out.extend_from_slice(slice(text, place, text.len()))?;
    Ok(out)
}

/// Appends what is written for a part, after the text up to a place. Answers the place up to which the text is written then.
fn push_part(text: &[u8], place: usize, part: Part, out: &mut Vec<u8>) -> Result<usize, AllocError>
    ensures place { IfOk result (λ next. next ≡ place_after place part) }
    ensures text { OnOk result (out.new.items ≡ out.old.items ++ written text.now place part) }
{
    if !shows(place, part) {
        return Ok(place);
    }
    let start = part.start as usize;
    let end = end_of(part);
    out.extend_from_slice(slice(text, place, start))?;
    out.extend_from_slice(style_of(part.role))?;
    out.extend_from_slice(slice(text, start, end))?;
    out.extend_from_slice(PLAIN)?;
    Ok(end)
}

/// Whether a part is shown in its style: the part has a style, isn't empty, and none of it was written yet.
fn shows(place: usize, part: Part) -> bool
    ensures { result ≡ shows place part }
{
    has_style(part.role) && (0 < part.length && place <= part.start as usize)
}

/// Whether parts of a role have a style of their own.
fn has_style(role: Role) -> bool
    ensures { result ≡ has_style role }
{
    !style_of(role).is_empty()
}

/// The place after a part.
fn end_of(part: Part) -> usize
    ensures { result ≡ end_of part }
{
    part.start as usize + part.length as usize
}

/// The bytes of a text from one place to another, as far as the text has them.
fn slice(text: &[u8], from: usize, to: usize) -> &[u8]
    ensures { result.now ≡ slice text.now from to }
{
    let end = to.min(text.len());
    if from >= end {
        return &[];
    }
    &text[from..end]
}
