// Suffixes that compilers add to symbols.
ghost use Rattle.std.specs.Prelude.{◌≡◌, ◌≤◌, ◌<◌, ◌++◌, length, true, OnOk};
ghost use Rattle.std.specs.List.{list_all};
ghost use Rattle.short_names.specs.Runs.{is_letter};
ghost use Rattle.gnu_texts.specs.Clones.{is_suffix, begins_part, letter_bytes, clones};

use short_names::is_letter;
use std::alloc::AllocError;

/// Whether all bytes of a text are letters.
fn are_letters(text: &[u8]) -> bool
    ensures { result ≡ list_all is_letter text.now }
{
    let mut at = 0;
    'bytes: while at < text.len() {
        if !is_letter(text[at]) {
            return false;
        }
        at += 1;
    }
    true
}

/// Whether a text is a suffix in parentheses, with a blank before them.
#[tactic(auto, unfolding(crate::specs::Clones::is_suffix))]
pub(crate) fn is_suffix(text: &[u8]) -> bool
    ensures suffix { result ≡ is_suffix text.now }
    ensures some { result ≡ true → 3 ≤ length text.now }
{
    text.starts_with(b" (.") && text.ends_with(b")") && are_letters(&text[2..text.len() - 1])
}

/// Whether a text begins with a part of a suffix: with a dot that no digit follows.
#[tactic(auto, unfolding(crate::specs::Clones::begins_part))]
fn begins_part(text: &[u8]) -> bool
    ensures { result ≡ begins_part text.now }
{
    match text {
        [b'.', next, ..] => !next.is_ascii_digit(),
        [b'.'] => true,
        _ => false,
    }
}

/// Appends what is written for a byte of a suffix that isn't the suffix's first.
fn append_letter(text: &[u8], out: &mut Vec<u8>) -> Result<(), AllocError>
    requires { 0 < length text.now }
    ensures { OnOk result (out.new.items ≡ out.old.items ++ letter_bytes text.now) }
{
    if begins_part(text) {
        return out.extend_from_slice(b"] [clone .");
    }
    out.push(text[0])?;
    Ok(())
}

/// Appends what is written for a suffix, which begins with a dot.
pub(crate) fn append_clones(suffix: &[u8], out: &mut Vec<u8>) -> Result<(), AllocError>
    ensures { OnOk result (out.new.items ≡ out.old.items ++ clones suffix.now) }
{
    out.extend_from_slice(b" [clone .")?;
    let mut at = 1;
    'bytes: while at < suffix.len() {
        append_letter(&suffix[at..], out)?;
        at += 1;
    }
    out.push(b']')?;
    Ok(())
}
