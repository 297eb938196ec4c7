// The text of a path.
#![tactic(auto)]

ghost use Rattle.std.specs.Prelude.{◌≡◌, ◌≤◌, ◌<◌, ◌+◌, ◌*◌, ◌++◌, ◌⊎◌, ℕ, List, [], length, Ok, Err, Some, IfOk, IfErr, OnOk, OnErr, vec_len, vec_capacity};
ghost use Rattle.sym_core.specs.declared.refusal.Refusal.TheVariants.{Memory};
ghost use Rattle.sym_print.specs.Unshared.{text_of, cost_of, cost_of_parts};
ghost use Rattle.rust_legacy.specs.Path.{AreNames, IsPlaced, Path, legacy_of};
ghost use Rattle.rust_legacy.specs.Text.{front_at, legacy_text, name_parts, names_parts, shown_name, shown_path, suffix_parts};
ghost use Rattle.rust_legacy.specs.Tokens.{texts_of};
ghost use Rattle.rust_legacy.specs.Writing.{IsRefused, IsWritten, Keeps};

use crate::path::{PathPlace, name_at};
use crate::tokens::{pay, write, write_token};
use sym_core::Refusal;

/// Writes bytes token by token, each token as an item, and answers what is left to spend.
fn write_tokens(limit: u32, bytes: &[u8], out: &mut Vec<u8>) -> Result<u32, Refusal>
    requires { 0 < length bytes.now }
    ensures ok { IfOk result (λ now. IsWritten limit now (text_of (name_parts (texts_of bytes.now))) (cost_of (name_parts (texts_of bytes.now))) out.old.items out.new.items) }
    ensures err { IfErr result (λ e. IsRefused e limit (text_of (name_parts (texts_of bytes.now))) (cost_of (name_parts (texts_of bytes.now))) out.old) }
    ensures keeps { Keeps out.old out.new }
{
    let mut left = limit;
    let mut at = 0;
    while at < bytes.len() {
        left = pay(left, 1)?;
        let (now, size) = write_token(left, &bytes[at..], out)?;
        left = now;
        at += size;
    }
    Ok(left)
}

/// Writes a name as an item, and answers what is left to spend.
fn write_name(left: u32, name: &[u8], out: &mut Vec<u8>) -> Result<u32, Refusal>
    requires { 0 < length name.now }
    ensures ok { IfOk result (λ now. IsWritten left now (text_of (shown_name name.now)) (cost_of (shown_name name.now)) out.old.items out.new.items) }
    ensures err { IfErr result (λ e. IsRefused e left (text_of (shown_name name.now)) (cost_of (shown_name name.now)) out.old) }
    ensures keeps { Keeps out.old out.new }
{
    if name.starts_with(b"_$") {
        return write_tokens(left, &name[1..], out);
    }
    write_tokens(left, name, out)
}

/// Writes what precedes the name at a place, and answers what is left to spend.
#[inline(always)]
fn write_front(left: u32, at: usize, out: &mut Vec<u8>) -> Result<u32, Refusal>
    ensures ok { IfOk result (λ now. IsWritten left now (front_at at) (length (front_at at)) out.old.items out.new.items) }
    ensures err { IfErr result (λ e. IsRefused e left (front_at at) (length (front_at at)) out.old) }
    ensures keeps { Keeps out.old out.new }
{
    if at <= 3 {
        return Ok(left);
    }
    write(left, b"::", out)
}

/// Writes the names of a path as nested items (a name, and an item of the names after it), and
/// answers what is left to spend.
fn write_names(limit: u32, symbol: &[u8], hash: usize, out: &mut Vec<u8>) -> Result<u32, Refusal>
    requires within { hash ≤ length symbol.now }
    requires names { (names : List (List ℕ)) × AreNames symbol.now 3 hash names × (0 < length names) }
    ensures ok { (names : List (List ℕ)) → AreNames symbol.now 3 hash names → 0 < length names → IfOk result (λ now. IsWritten limit now (text_of (names_parts [] names)) (cost_of (names_parts [] names)) out.old.items out.new.items) }
    ensures err { (names : List (List ℕ)) → AreNames symbol.now 3 hash names → 0 < length names → IfErr result (λ e. IsRefused e limit (text_of (names_parts [] names)) (cost_of (names_parts [] names)) out.old) }
    ensures keeps { Keeps out.old out.new }
{
    let mut left = limit;
    let mut at = 3;
    while at < hash {
        let Some(name) = name_at(symbol, at) else {
            unreachable!();
        };
        left = pay(left, 1)?;
        left = write_front(left, at, out)?;
        left = write_name(left, &symbol[name.from..name.to], out)?;
        at = name.to;
    }
    Ok(left)
}

/// Writes a suffix in parentheses, if there is one, and answers what is left to spend.
fn write_suffix(left: u32, suffix: &[u8], out: &mut Vec<u8>) -> Result<u32, Refusal>
    ensures ok { IfOk result (λ now. IsWritten left now (text_of (suffix_parts suffix.now)) (cost_of_parts (suffix_parts suffix.now)) out.old.items out.new.items) }
    ensures err { IfErr result (λ e. IsRefused e left (text_of (suffix_parts suffix.now)) (cost_of_parts (suffix_parts suffix.now)) out.old) }
    ensures keeps { Keeps out.old out.new }
{
    if suffix.is_empty() {
        return Ok(left);
    }
    let left = write(left, b" (", out)?;
    let left = write(left, suffix, out)?;
    write(left, b")", out)
}

/// Writes a path, and answers what is left to spend.
fn write_path(
    limit: u32,
    symbol: &[u8],
    place: PathPlace,
    out: &mut Vec<u8>,
) -> Result<u32, Refusal>
    requires { IsPlaced symbol.now place }
    ensures ok { (path : Path) → legacy_of symbol.now ≡ Some path → IfOk result (λ now. IsWritten limit now (text_of (shown_path path)) (cost_of (shown_path path)) out.old.items out.new.items) }
    ensures err { (path : Path) → legacy_of symbol.now ≡ Some path → IfErr result (λ e. IsRefused e limit (text_of (shown_path path)) (cost_of (shown_path path)) out.old) }
    ensures keeps { Keeps out.old out.new }
{
    let left = pay(limit, 1)?;
    let left = write_names(left, symbol, place.hash, out)?;
    write_suffix(left, &symbol[place.end..], out)
}

/// Appends the text of a legacy name, if it costs at most the limit. The name's path is at a place that `path_of` found.
///
/// The call spends the text's cost, and each turn of its loops spends at least 1.
///
/// # Errors
///
/// `TooLong` where the text costs more, and `Memory` where the list had no room for it and couldn't grow; the list is then as it was.
pub fn push_text(
    symbol: &[u8],
    place: PathPlace,
    limit: u32,
    out: &mut Vec<u8>,
) -> Result<(), Refusal>
    requires { IsPlaced symbol.now place }
    ensures text { OnOk result ((text : List ℕ) × (legacy_text limit symbol.now ≡ Some (Ok text)) × (out.new.items ≡ out.old.items ++ text)) }
    ensures refused { IfErr result (λ e. (e ≡ Memory) ⊎ (legacy_text limit symbol.now ≡ Some (Err e))) }
    ensures same { OnErr result (out.new.items ≡ out.old.items) }
    ensures full { result ≡ Err Memory → (path : Path) → legacy_of symbol.now ≡ Some path → vec_capacity out.old < vec_len out.old + length (text_of (shown_path path)) }
    ensures few { OnOk result (2 * vec_len out.new ≤ 2 * vec_len out.old + 3 * length symbol.now) }
    ensures capacity { vec_capacity out.old ≤ vec_capacity out.new }
{
    let len = out.len();
    match write_path(limit, symbol, place, out) {
        Ok(_) => Ok(()),
        Err(refusal) => {
            out.truncate(len);
            Err(refusal)
        }
    }
}
