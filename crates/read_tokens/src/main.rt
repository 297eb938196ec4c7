//! Reads numbers and names, one on each line of standard input, and prints for each what the calls
//! of `sym_core` answer. A line has a word for what the text is, the place of the number or name,
//! and the text, with blanks between them.
#![tactic(auto)]

ghost use Rattle.std.specs.Prelude.{◌≤◌, length};
ghost use Rattle.sym_core.specs.Number.{FitsSymbol};

use std::alloc::Global;
use std::io::{self, Read};
use std::str;
use sym_core::{
    NameClass, NumberKind, are_digits, are_name_bytes, find_name, find_number, fits, length_of,
    number, push_decimal, push_name, value10, value16, value36, value62,
};

/// The longest symbol that is put together, in bytes.
const MOST: usize = 20_000_000;

/// The kind of number that a word names.
fn kind_of(word: &[u8]) -> Option<NumberKind> {
    match word {
        b"length" => Some(NumberKind::Length),
        b"decimal" => Some(NumberKind::Decimal),
        b"seq36" => Some(NumberKind::Seq36),
        b"base62" => Some(NumberKind::Base62),
        b"hex" => Some(NumberKind::Hex),
        b"digits" => Some(NumberKind::Digits),
        _ => None,
    }
}

/// The class of names that a word names.
fn class_of(word: &[u8]) -> Option<NameClass> {
    match word {
        b"cpp" => Some(NameClass::Cpp),
        b"rust" => Some(NameClass::Rust),
        _ => None,
    }
}

/// The number of these decimal digits.
fn count_of(digits: &[u8]) -> Option<usize> {
    match str::from_utf8(digits) {
        Ok(digits) => digits.parse::<usize>().ok(),
        Err(_) => None,
    }
}

/// The value of the number at a place.
fn value_at(s: &[u8], at: usize, kind: NumberKind) -> Option<u128>
    requires fits { FitsSymbol s.now }
    requires within { at ≤ length s.now }
{
    let span = number(s, at, kind).ok()?;
    let digits = &s[span.from as usize..span.to as usize];
    match kind {
        NumberKind::Decimal => value10(digits).map(u128::from),
        NumberKind::Seq36 => value36(digits).map(u128::from),
        NumberKind::Base62 => value62(digits).map(u128::from),
        NumberKind::Hex => value16(digits),
        NumberKind::Length => Some(u128::from(length_of(digits))),
        NumberKind::Digits => None,
    }
}

/// Prints where the number at a place is, its value, and whether all bytes from there are digits.
fn show_number(rt: &impl Print, s: &[u8], at: usize, kind: NumberKind) -> io::Result<()>
    requires fits { FitsSymbol s.now }
    requires within { at ≤ length s.now }
{
    match find_number(s, at, kind) {
        Ok(place) => print!(rt;
            "digits {} to {}, all to {}",
            place.from, place.to, place.end
        )?,
        Err(bad) => print!(rt; "no number, bad at {bad}")?,
    }
    match value_at(s, at, kind) {
        Some(value) => print!(rt; "; value {value}")?,
        None => print!(rt; "; no value")?,
    }
    println!(rt; "; digits alone: {}", are_digits(kind, &s[at..]))
}

/// Prints where the name at a place is, and whether all bytes from there may be in a name.
fn show_name(rt: &impl Print, s: &[u8], at: usize, names: NameClass) -> io::Result<()>
    requires fits { FitsSymbol s.now }
    requires within { at ≤ length s.now }
{
    match find_name(s, at, names) {
        Ok(place) => print!(rt; "name {} to {}, all to {}", place.from, place.to, place.end)?,
        Err(bad) => print!(rt; "no name, bad at {bad}")?,
    }
    println!(rt; "; of a name alone: {}", are_name_bytes(names, &s[at..]))
}

/// Prints a text.
fn show_text(rt: &impl Print, text: &[u8]) -> io::Result<()> {
    match str::from_utf8(text) {
        Ok(text) => println!(rt; "text {text}"),
        Err(_) => println!(rt; "no text"),
    }
}

/// Prints the text of a Rust name, decoded where it has a `u` mark.
fn show_decoded(rt: &impl Print, alloc: Global, name: &[u8], puny: bool) -> io::Result<()>
    requires { FitsSymbol name.now }
{
    let mut text = Vec::new(alloc);
    if !are_name_bytes(NameClass::Rust, name) {
        return println!(rt; "no name");
    }
    match push_name(alloc, name, puny, &mut text) {
        Ok(_) => show_text(rt, &text),
        Err(_) => println!(rt; "out of memory"),
    }
}

/// Prints the decimal of a number in base 16, which is pushed twice, and the spans of both
/// decimals.
fn show_decimal(rt: &impl Print, alloc: Global, s: &[u8], minus: bool) -> io::Result<()>
    requires { FitsSymbol s.now }
{
    let mut text = Vec::new(alloc);
    let Some(value) = value_at(s, 0, NumberKind::Hex) else {
        return println!(rt; "no value");
    };
    for _ in 0..2 {
        if text.len() > 100 {
            return println!(rt; "too long");
        }
        match push_decimal(alloc, value, minus, &mut text) {
            Ok(span) => print!(rt; "from {} to {}; ", span.from, span.to)?,
            Err(_) => return println!(rt; "out of memory"),
        }
    }
    show_text(rt, &text)
}

/// Prints whether a symbol of this length can be read.
fn show_fit(rt: &impl Print, alloc: Global, digits: &[u8]) -> io::Result<()> {
    let mut symbol = Vec::new(alloc);
    match count_of(digits) {
        Some(count) if count <= MOST => symbol.resize(count, b'i')?,
        _ => return println!(rt; "no count"),
    }
    println!(rt; "fits: {}", fits(&symbol))
}

/// Prints what is answered for one line.
fn show(rt: &impl Print, alloc: Global, word: &[u8], place: &[u8], text: &[u8]) -> io::Result<()> {
    let at = count_of(place).unwrap_or(0);
    if !fits(text) || at > text.len() {
        return println!(rt; "no place");
    }
    if let Some(kind) = kind_of(word) {
        return show_number(rt, text, at, kind);
    }
    if let Some(names) = class_of(word) {
        return show_name(rt, text, at, names);
    }
    match word {
        b"plain" => show_decoded(rt, alloc, text, false),
        b"puny" => show_decoded(rt, alloc, text, true),
        b"plus" => show_decimal(rt, alloc, text, false),
        b"minus" => show_decimal(rt, alloc, text, true),
        b"fits" => show_fit(rt, alloc, text),
        _ => println!(rt; "no word"),
    }
}

fn main(rt: HostRuntime) -> io::Result<()> {
    let alloc = rt.alloc();
    let mut input = Vec::new(alloc);
    rt.reader().read_to_end(&mut input)?;
    for line in input.split(|byte| *byte == b'\n') {
        let mut fields = line.splitn(3, |byte| *byte == b' ');
        if let (Some(word), Some(place), Some(text)) = (
            fields.next(),
            fields.next(),
            fields.next(),
        ) {
            show(&rt, alloc, word, place, text)?;
        }
    }
    Ok(())
}
