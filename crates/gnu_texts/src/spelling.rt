// Texts as GNU's demangler spells them.
ghost use Rattle.std.specs.Prelude.{◌≡◌, ◌++◌, OnOk};
ghost use Rattle.gnu_texts.specs.Spelling.{gnu_text};

use crate::piece::piece_at;
use std::alloc::AllocError;

/// Appends a text of a C++ name as GNU's demangler spells it.
///
/// # Errors
///
/// `AllocError` if the list can't grow.
pub fn append_spelled(text: &[u8], out: &mut Vec<u8>) -> Result<(), AllocError>
    ensures { OnOk result (out.new.items ≡ out.old.items ++ gnu_text text.now) }
{
    let mut at = 0;
    let mut last = 0;
    'pieces: while at < text.len() {
        let rest = &text[at..];
        let piece = piece_at(last, rest);
        piece.append(rest, out)?;
        last = piece.last(rest);
        at += piece.size(rest);
    }
    Ok(())
}
