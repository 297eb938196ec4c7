// The text list: names and decimals as they are printed.
#![tactic(auto)]

ghost use Rattle.std.specs.Prelude.{◌≡◌, ℕ, ◌+◌, ◌*◌, ◌<◌, ◌≤◌, ◌^◌, ◌++◌, ◌≢◌, length, slice_index, chars, vec_len, vec_capacity, string_bytes, Some, None, IfOk, IfErr, OnErr, MatchOption, ◌⊎◌};
ghost use Rattle.std.specs.List.{list_all};
ghost use Rattle.unicode_ident.specs.Ident.{is_xid_continue};
ghost use Rattle.sym_core.specs.Printed.{signed_text, hyphenated, decoded_name, printed_name, IsDecoded};
ghost use Rattle.sym_core.specs.Token.{AreNameBytes};

use crate::{NameClass, Refusal, Span};
use idna::{Errors, punycode};
use itoa::Buffer;
use std::alloc::Global;

/// The longest Punycode name that is decoded, in bytes.
const MOST_CODED: usize = 2_000;

/// Appends three texts, and answers their span.
fn append(out: &mut Vec<u8>, front: &[u8], text: &[u8], back: &[u8]) -> Result<Span, Refusal>
    requires { vec_len out.old + (length front.now + (length text.now + length back.now)) < 2 ^ 32 }
    ensures text { IfOk result (λ _. out.new.items ≡ out.old.items ++ (front.now ++ (text.now ++ back.now))) }
    ensures span { IfOk result (λ span. (span.from ≡ vec_len out.old) × (span.to ≡ vec_len out.new)) }
    ensures width { IfOk result (λ span. span.to ≡ span.from + (length front.now + (length text.now + length back.now))) }
    ensures same { OnErr result (out.new.items ≡ out.old.items) }
    ensures memory { IfErr result (λ r. r ≡ Refusal.Memory) }
    ensures full { OnErr result (vec_capacity out.old < vec_len out.old + (length front.now + (length text.now + length back.now))) }
    ensures capacity { vec_capacity out.old ≤ vec_capacity out.new }
    ensures stays { OnErr result (vec_capacity out.new ≡ vec_capacity out.old) }
{
    let from = out.len();
    out.reserve(front.len() + text.len() + back.len())?;
    out.extend_from_slice(front)?;
    out.extend_from_slice(text)?;
    out.extend_from_slice(back)?;
    Ok(Span {
        from: from as u32,
        to: out.len() as u32,
    })
}

/// Appends a decimal, after a minus where one is requested, and answers its span in the list.
///
/// # Errors
///
/// `Memory` where the list has no room for the text and can't grow; the list then stays as it was.
pub fn push_decimal(
    _alloc: Global,
    value: u128,
    minus: bool,
    out: &mut Vec<u8>,
) -> Result<Span, Refusal>
    requires { vec_len out.old + 40 < 2 ^ 32 }
    ensures text { IfOk result (λ _. out.new.items ≡ out.old.items ++ signed_text minus value) }
    ensures span { IfOk result (λ span. (span.from ≡ vec_len out.old) × (span.to ≡ vec_len out.new)) }
    ensures same { OnErr result (out.new.items ≡ out.old.items) }
    ensures few { IfOk result (λ span. span.to ≤ span.from + 40) }
    ensures memory { IfErr result (λ r. r ≡ Refusal.Memory) }
    ensures full { OnErr result (vec_capacity out.old < vec_len out.old + length (signed_text minus value)) }
    ensures capacity { vec_capacity out.old ≤ vec_capacity out.new }
    ensures stays { OnErr result (vec_capacity out.new ≡ vec_capacity out.old) }
{
    let mut buffer = Buffer::new();
    let digits = buffer.format(value);
    let sign: &[u8] = if minus { b"-" } else { b"" };
    append(out, sign, digits.as_bytes(), b"")
}

/// The place of the last underscore.
fn last_underscore(bytes: &[u8]) -> Option<usize>
    ensures { MatchOption result ((k : ℕ) → k < length bytes.now → slice_index bytes.now k ≢ 95) (λ i. (i < length bytes.now) × (slice_index bytes.now i ≡ 95) × ((k : ℕ) → i < k → k < length bytes.now → slice_index bytes.now k ≢ 95)) }
{
    bytes.iter().rposition(|byte| *byte == b'_')
}

/// The name with its last underscore as a hyphen, as Punycode has it.
fn coded_name(alloc: Global, bytes: &[u8]) -> Result<Vec<u8>, Refusal>
    ensures name { IfOk result (λ coded. coded.items ≡ hyphenated bytes.now) }
    ensures memory { IfErr result (λ r. r ≡ Refusal.Memory) }
{
    let mut coded = Vec::from_slice(alloc, bytes)?;
    if let Some(i) = last_underscore(bytes) {
        coded[i] = b'-';
    }
    Ok(coded)
}

/// Whether each character may be in an identifier.
fn is_identifier(text: &str) -> bool
    ensures { result ≡ list_all is_xid_continue (chars text.now) }
{
    text.chars().all(unicode_ident::is_xid_continue)
}

/// The text that a Punycode name denotes, if the name isn't too long to be decoded and its text is an identifier.
fn decoded(alloc: Global, bytes: &[u8]) -> Result<Option<String>, Refusal>
    requires { AreNameBytes NameClass.Rust bytes.now }
    ensures text { IfOk result (λ found. MatchOption found (decoded_name bytes.now ≡ None) (λ text. decoded_name bytes.now ≡ Some (string_bytes text))) }
    ensures memory { IfErr result (λ r. r ≡ Refusal.Memory) }
    ensures short { OnErr result (length bytes.now ≤ 2000) }
{
    if bytes.len() > MOST_CODED {
        return Ok(None);
    }
    let coded = coded_name(alloc, bytes)?;
    let Ok(coded) = str::from_utf8(&coded) else {
        unreachable!();
    };
    let text = match punycode::decode_to_string(alloc, coded) {
        Ok(text) => text,
        Err(Errors::Invalid) => return Ok(None),
        Err(Errors::OutOfMemory) => return Err(Refusal::Memory),
    };
    if is_identifier(&text) {
        Ok(Some(text))
    } else {
        Ok(None)
    }
}

/// Appends what a Rust name prints, and answers its span in the list.
///
/// A name with a `u` mark (`puny`) is decoded by RFC 3492, its last `_` read as the delimiter. Where that fails, or gives
/// a character that can't be in an identifier, or the name is longer than 2,000 bytes, `punycode{bytes}` is printed.
///
/// # Errors
///
/// `Memory` where a list couldn't grow; `out` is then as it was.
pub fn push_name(
    alloc: Global,
    bytes: &[u8],
    puny: bool,
    out: &mut Vec<u8>,
) -> Result<Span, Refusal>
    requires name { AreNameBytes NameClass.Rust bytes.now }
    requires room { vec_len out.old + 4 * length bytes.now + 10 < 2 ^ 32 }
    ensures text { IfOk result (λ _. out.new.items ≡ out.old.items ++ printed_name puny bytes.now) }
    ensures span { IfOk result (λ span. (span.from ≡ vec_len out.old) × (span.to ≡ vec_len out.new)) }
    ensures same { OnErr result (out.new.items ≡ out.old.items) }
    ensures few { IfOk result (λ span. span.to ≤ span.from + 4 * length bytes.now + 8) }
    ensures memory { IfErr result (λ r. r ≡ Refusal.Memory) }
    // No room for the text, unless the name is to be decoded, which takes memory of its own.
    ensures full { OnErr result (IsDecoded puny bytes.now ⊎ (vec_capacity out.old < vec_len out.old + length (printed_name puny bytes.now))) }
    ensures capacity { vec_capacity out.old ≤ vec_capacity out.new }
    ensures stays { OnErr result (vec_capacity out.new ≡ vec_capacity out.old) }
{
    if !puny || bytes.is_empty() {
        return append(out, b"", bytes, b"");
    }
    match decoded(alloc, bytes)? {
        Some(text) => append(out, b"", text.as_bytes(), b""),
        None => append(out, b"punycode{", bytes, b"}"),
    }
}
