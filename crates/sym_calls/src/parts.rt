// The text of one name with its parts.
ghost use Rattle.std.specs.Prelude.{◌≡◌, ◌≤◌, ◌&&◌, ◌++◌, IfOk, Some, drop, length, map, nat_le, not};
ghost use Rattle.sym_core.specs.Number.{FitsSymbol};
ghost use Rattle.symbol_parts.specs.Parsed.{found as found_of, parsed_by};
ghost use Rattle.text_details.specs.Manglings.{mangling_number, mangling_of};
ghost use Rattle.sym_calls.specs.Calls.{asked_of};
ghost use Rattle.sym_calls.specs.Parts.{PartsEndAs, both_written, is_whole, name_parts_told, none_found, numbered, parsed_told, parts_ending, parts_told, reported};

use crate::flags::{Asked, asked_of};
use crate::outcome::{BUFFER, FLAGS, OK, Outcome, alone, no_memory, of_refusal};
use std::alloc::{AllocError, Global};
use sym_filter::Kind;
use sym_languages::languages::Cpp;
use sym_languages::{Abi, Wide};
use sym_parts::Part;
use sym_short::Texts;
use symbol_parts::{Marked, Parsed, Parser};
use text_details::mangling_of;

/// A part of a text: the number of its role, its stretch of the text's bytes, and the stretch of the name's bytes that spells it.
#[repr(C)]
#[derive(Clone, Copy)]
pub struct NamePart {
    pub role: u32,
    pub start: u32,
    pub length: u32,
    pub from: u32,
    pub to: u32,
}

/// What is reported of a name that has a text: how many parts the text has, what the name is, and how it is mangled, as the numbers of
/// `NameKind` and `Mangling`. Where the name has no text these are 0.
#[repr(C)]
#[derive(Clone, Copy)]
pub struct NameFound {
    pub count: usize,
    pub kind: u32,
    pub mangling: u32,
}

/// Nothing is reported.
fn none_found() -> NameFound
    ensures { result ≡ none_found }
{
    NameFound {
        count: 0,
        kind: 0,
        mangling: 0,
    }
}

/// A part, with its role as a number.
#[tactic(auto, unfolding(crate::specs::Parts::numbered))]
fn numbered(part: &Part) -> NamePart
    ensures { result ≡ numbered part.now }
{
    NamePart {
        role: part.role.number(),
        start: part.start,
        length: part.length,
        from: part.from,
        to: part.to,
    }
}

/// Parts, with their roles as numbers.
fn all_numbered(alloc: Global, parts: &[Part]) -> Result<Vec<NamePart>, AllocError>
    ensures { IfOk result (λ list. list.items ≡ map numbered parts.now) }
{
    parts.iter().map(|part| numbered(part)).collect(alloc)
}

/// What is reported of a name with a text.
fn reported(parsed: &Parsed, mangling: u32) -> NameFound
    ensures { result ≡ reported (found_of parsed.now) mangling }
{
    NameFound {
        count: parsed.parts.len(),
        kind: parsed.kind.number(),
        mangling,
    }
}

/// How many bytes a text has.
fn length_of(parsed: &Parsed) -> usize
    ensures { result ≡ length (found_of parsed.now).text }
{
    parsed.text.len()
}

/// Whether a text fits into a buffer, and its parts fit into the caller's parts.
fn have_room(parsed: &Parsed, buffer: &[u8], parts: &[NamePart]) -> bool
    ensures { result ≡ (nat_le (length (found_of parsed.now).text) (length buffer.now) && nat_le (length (found_of parsed.now).parts) (length parts.now)) }
{
    parsed.text.len() <= buffer.len() && parsed.parts.len() <= parts.len()
}

/// Puts a text at the front of the buffer.
fn put_text(text: &[u8], buffer: &mut [u8])
    requires { length text.now ≤ length buffer.old }
    ensures { buffer.new ≡ text.now ++ drop (length text.now) buffer.old }
{
    buffer[..text.len()].copy_from_slice(text);
}

/// Puts parts at the front of the caller's parts.
fn put_parts(list: &[NamePart], parts: &mut [NamePart])
    requires { length list.now ≤ length parts.old }
    ensures { parts.new ≡ list.now ++ drop (length list.now) parts.old }
{
    parts[..list.len()].copy_from_slice(list);
}

/// Writes a text to the front of the buffer and its parts to the front of the caller's parts, or says how large both have to be.
fn write_both(
    alloc: Global,
    parsed: &Parsed,
    mangling: u32,
    buffer: &mut [u8],
    parts: &mut [NamePart],
    found: &mut NameFound,
) -> Outcome
    requires { found.old ≡ none_found }
    ensures { PartsEndAs (both_written (found_of parsed.now) mangling buffer.old parts.old) buffer.old parts.old (parts_ending result buffer.new parts.new found.new) }
{
    let length = length_of(parsed);
    let told = reported(parsed, mangling);
    if !have_room(parsed, buffer, parts) {
        *found = told;
        return Outcome {
            length,
            offset: 0,
            status: BUFFER,
        };
    }
    let Ok(list) = all_numbered(alloc, &parsed.parts) else {
        return no_memory();
    };
    put_text(&parsed.text, buffer);
    put_parts(&list, parts);
    *found = told;
    Outcome {
        length,
        offset: 0,
        status: OK,
    }
}

/// Writes the text of a symbol with its parts.
fn parts_of_symbol<P: Parser>(
    alloc: Global,
    parser: &P,
    legacy: bool,
    kind: Kind,
    symbol: &[u8],
    buffer: &mut [u8],
    parts: &mut [NamePart],
    found: &mut NameFound,
) -> Outcome
    requires fits { FitsSymbol symbol.now }
    requires none { found.old ≡ none_found }
    ensures { PartsEndAs (parsed_told (P.parsed parser.now kind symbol.now) (mangling_number (mangling_of legacy kind.lang symbol.now)) kind.skip buffer.old parts.old) buffer.old parts.old (parts_ending result buffer.new parts.new found.new) }
{
    match parser.parse(alloc, kind, symbol) {
        Ok(parsed) => {
            let mangling = mangling_of(legacy, kind.lang, symbol).number();
            write_both(alloc, &parsed, mangling, buffer, parts, found)
        }
        Err(refusal) => of_refusal(refusal, kind.skip, buffer),
    }
}

/// Writes the text of a name's symbol with its parts.
fn parts_by<P: Parser>(
    alloc: Global,
    parser: &P,
    asked: Asked,
    name: &[u8],
    buffer: &mut [u8],
    parts: &mut [NamePart],
    found: &mut NameFound,
) -> Outcome
    requires { found.old ≡ none_found }
    ensures { PartsEndAs (name_parts_told (P.parsed parser.now) asked name.now buffer.old parts.old) buffer.old parts.old (parts_ending result buffer.new parts.new found.new) }
{
    match asked.named(name) {
        Ok(kind) => {
            let symbol = &name[kind.skip as usize..];
            parts_of_symbol(
                alloc,
                parser,
                asked.legacy,
                kind,
                symbol,
                buffer,
                parts,
                found,
            )
        }
        Err(status) => alone(status),
    }
}

/// Writes the text of a name's symbol with its parts, with a grammar of C++.
fn parts_in<C: Cpp + Marked>(
    alloc: Global,
    cpp: C,
    asked: Asked,
    limit: u32,
    name: &[u8],
    buffer: &mut [u8],
    parts: &mut [NamePart],
    found: &mut NameFound,
) -> Outcome
    requires { found.old ≡ none_found }
    ensures { PartsEndAs (name_parts_told (parsed_by C.over C.marking asked.legacy limit asked.detail) asked name.now buffer.old parts.old) buffer.old parts.old (parts_ending result buffer.new parts.new found.new) }
{
    if asked.legacy {
        let legacy = asked.with_legacy(limit, cpp);
        return parts_by(alloc, &legacy, asked, name, buffer, parts, found);
    }
    let languages = asked.languages(limit, cpp);
    parts_by(alloc, &languages, asked, name, buffer, parts, found)
}

/// Whether texts are whole.
#[tactic(auto, unfolding(crate::specs::Parts::is_whole))]
fn is_whole(texts: Texts) -> bool
    ensures { result ≡ is_whole texts }
{
    match texts {
        Texts::Whole => true,
        _ => false,
    }
}

/// Whether there are parts for what flags request: neither short texts nor types have any.
fn have_parts(asked: Asked) -> bool
    ensures { result ≡ (is_whole asked.texts && not asked.types) }
{
    is_whole(asked.texts) && !asked.types
}

/// Writes the text of a name's symbol with its parts, as requested.
fn parts_asked(
    alloc: Global,
    asked: Asked,
    limit: u32,
    name: &[u8],
    buffer: &mut [u8],
    parts: &mut [NamePart],
    found: &mut NameFound,
) -> Outcome
    requires { found.old ≡ none_found }
    ensures { PartsEndAs (parts_told (Some asked) limit name.now buffer.old parts.old) buffer.old parts.old (parts_ending result buffer.new parts.new found.new) }
{
    if !have_parts(asked) {
        return alone(FLAGS);
    }
    if asked.wide {
        return parts_in(alloc, Wide, asked, limit, name, buffer, parts, found);
    }
    parts_in(alloc, Abi, asked, limit, name, buffer, parts, found)
}

/// Writes the text of a name's symbol to the front of the buffer and the text's parts to the front of the caller's parts, if the text costs
/// at most the limit and both have room. Then it reports what the name is, and how many parts there are. Otherwise the outcome says why
/// nothing is written, and buffer and parts stay as they are. Short texts and types have no parts: their flags are refused.
pub fn parts_of(
    alloc: Global,
    name: &[u8],
    limit: u32,
    flags: u32,
    buffer: &mut [u8],
    parts: &mut [NamePart],
    found: &mut NameFound,
) -> Outcome
    ensures { PartsEndAs (parts_told (asked_of flags) limit name.now buffer.old parts.old) buffer.old parts.old (parts_ending result buffer.new parts.new found.new) }
{
    *found = none_found();
    match asked_of(flags) {
        None => alone(FLAGS),
        Some(asked) => parts_asked(alloc, asked, limit, name, buffer, parts, found),
    }
}
