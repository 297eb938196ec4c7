// Checks of a symbol by the demanglers of both languages, with either grammar of C++, and by the calls of each mangling.

ghost use Rattle.sym_core.specs.Number.{FitsSymbol};

use crate::answer::{Verdict, spelled};
use crate::calls::{ask, ask_in_pieces, ask_mangling};
use crate::library::{ask_library, ask_library_to_count, ask_library_to_press};
use crate::row::{Row, TOO_LONG};
use rust_v0::V0;
use std::alloc::Global;
use sym_core::{Refusal, fits};
use sym_filter::{Demangled, Demangler, Lang};
use sym_languages::languages::{Cpp, Lists};
use sym_languages::{Abi, Languages, Legacy, Pressing, Wide, WidePressing};

/// The lists of each grammar of C++, with those of Rust.
#[derive(Drop)]
pub struct AllLists {
    pub abi: Lists<Abi>,
    pub wide: Lists<Wide>,
}

impl AllLists {
    pub fn new(alloc: Global) -> AllLists {
        AllLists {
            abi: Lists::new(alloc),
            wide: Lists::new(alloc),
        }
    }
}

/// The answer of the demangler that also reads legacy Rust names, for a symbol's text.
fn ask_legacy<C: Cpp>(
    verdict: &mut Verdict,
    languages: Languages<C>,
    lists: &mut Lists<C>,
    row: Row<'_>,
) -> Demangled
    requires { FitsSymbol row.s.now }
{
    ask(verdict, &Legacy { languages }, lists, row)
}

/// The answer of the demangler of both languages, with a grammar of C++, for a symbol's text.
fn ask_by<C: Cpp>(verdict: &mut Verdict, lists: &mut Lists<C>, row: Row<'_>) -> Demangled
    requires { FitsSymbol row.s.now }
{
    let languages = Languages {
        limit: row.limit,
        detail: row.detail,
        cpp: C::grammar(),
    };
    if row.legacy {
        return ask_legacy(verdict, languages, lists, row);
    }
    ask(verdict, &languages, lists, row)
}

/// The answer of the demangler of both languages for a symbol's text.
pub fn ask_demangler(verdict: &mut Verdict, lists: &mut AllLists, row: Row<'_>) -> Demangled
    requires { FitsSymbol row.s.now }
{
    if row.wide {
        return ask_by(verdict, &mut lists.wide, row);
    }
    ask_by(verdict, &mut lists.abi, row)
}

/// Checks a symbol's text by each call of its mangling, with C++ by a row's grammar.
fn ask_mangling_of(verdict: &mut Verdict, lists: &mut AllLists, row: Row<'_>)
    requires { FitsSymbol row.s.now }
{
    match row.kind.lang {
        Lang::Rust => ask_mangling::<V0>(verdict, &mut lists.abi.rust, row),
        Lang::Cpp => {
            if row.wide {
                ask_mangling::<Wide>(verdict, &mut lists.wide.cpp, row);
            } else {
                ask_mangling::<Abi>(verdict, &mut lists.abi.cpp, row);
            }
        }
    }
}

/// Checks a symbol's text by each call.
pub fn ask_each(verdict: &mut Verdict, lists: &mut AllLists, row: Row<'_>) {
    if !fits(row.s) {
        verdict.require(false);
        return;
    }
    let answer = ask_demangler(verdict, lists, row);
    ask_library(verdict, row);
    ask_library_to_count(verdict, row, answer);
    if row.legacy {
        return;
    }
    ask_mangling_of(verdict, lists, row);
}

/// Checks the text of a symbol that is fed in two pieces, cut at each place in turn.
pub fn ask_cut(verdict: &mut Verdict, row: Row<'_>) {
    match row.kind.lang {
        Lang::Rust => ask_in_pieces::<V0>(verdict, row),
        Lang::Cpp => {
            if row.wide {
                ask_in_pieces::<Wide>(verdict, row);
            } else {
                ask_in_pieces::<Abi>(verdict, row);
            }
        }
    }
}

/// A symbol's pressed spelling, as a row spells it.
fn pressed(alloc: Global, lists: &mut Lists<Abi>, row: Row<'_>) -> Result<Vec<u8>, Refusal>
    requires { FitsSymbol row.s.now }
{
    let mut pressed = Vec::new(alloc);
    Pressing.append(lists, row.kind, row.s, &mut pressed)?;
    Ok(spelled(alloc, &pressed)?)
}

/// Checks a symbol's spelling by the demangler that presses.
pub fn ask_pressed(verdict: &mut Verdict, lists: &mut Lists<Abi>, row: Row<'_>)
    requires { FitsSymbol row.s.now }
{
    ask(verdict, &Pressing, lists, row);
}

/// Checks a symbol's spelling with C++ by the wide grammar. For a symbol that has no spelling, the answer is that it is too long.
pub fn ask_wide_pressed(verdict: &mut Verdict, lists: &mut Lists<Wide>, row: Row<'_>)
    requires { FitsSymbol row.s.now }
{
    ask(verdict, &WidePressing, lists, row);
}

/// Checks pressing a symbol that has no text: it is refused for the same reason, unless the symbol is read and only its text is too long.
pub fn ask_unpressed(verdict: &mut Verdict, lists: &mut Lists<Abi>, row: Row<'_>) {
    if !fits(row.s) {
        verdict.require(false);
        return;
    }
    if row.wanted == TOO_LONG {
        match pressed(verdict.alloc, lists, row) {
            Ok(pressed) => {
                let read = Row {
                    wanted: &pressed,
                    ..row
                };
                ask_pressed(verdict, lists, read);
            }
            // no row has an empty reason
            Err(refusal) => verdict.refusal(refusal, b""),
        }
        return;
    }
    ask_pressed(verdict, lists, row);
    ask_library_to_press(verdict, row.s, row.wanted);
}
