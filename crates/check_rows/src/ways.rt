// Rows `way`: whether a symbol's text is written by the short way.

ghost use Rattle.sym_core.specs.Number.{FitsSymbol};

use crate::answer::Verdict;
use crate::mangling::Calls;
use crate::row::LIMIT;
use itanium::{Abi, Wide, write_less};
use rust_short_way::{write, write_brief};
use rust_v0::V0;
use std::alloc::Global;
use sym_core::fits;
use sym_print::Detail;

/// What a row has where the short way writes the text.
const SHORT: &[u8] = b"short";

/// What a row has where the short way leaves the symbol to the general way.
const GENERAL: &[u8] = b"general";

/// Whether the short way writes a C++ symbol, by the wide grammar or by the ABI's.
fn is_short_in_cpp(alloc: Global, s: &[u8], is_wide: bool, detail: Detail) -> bool
    requires { FitsSymbol s.now }
{
    let mut writer = itanium::Writer::new(alloc);
    write_less(&mut writer, s, LIMIT, is_wide, detail)
}

/// Whether the short way writes a Rust symbol, in full or without generic arguments.
fn is_short_in_rust(alloc: Global, s: &[u8], detail: Detail) -> bool
    requires { FitsSymbol s.now }
{
    let mut writer = rust_short_way::Writer::new(alloc);
    match detail {
        Detail::Brief => write_brief(&mut writer, s, LIMIT),
        _ => write(&mut writer, s, LIMIT),
    }
}

/// Checks which way writes the text of a symbol, by a mangling; the symbol has to have a text.
fn ask_way_by<M: Calls>(
    verdict: &mut Verdict,
    s: &[u8],
    detail: Detail,
    is_short: bool,
    wanted: &[u8],
)
    requires { FitsSymbol s.now }
{
    verdict.require(M::demangle_as(verdict.alloc, s, LIMIT, detail).is_ok());
    let way = if is_short { SHORT } else { GENERAL };
    verdict.require(way == wanted);
}

/// Checks which way writes the text of a symbol in a detail, by the grammar of this name.
pub fn ask_way(verdict: &mut Verdict, grammar: &[u8], s: &[u8], detail: Detail, wanted: &[u8]) {
    if !fits(s) {
        verdict.require(false);
        return;
    }
    let alloc = verdict.alloc;
    match grammar {
        b"abi" => {
            let is_short = is_short_in_cpp(alloc, s, false, detail);
            ask_way_by::<Abi>(verdict, s, detail, is_short, wanted);
        }
        b"wide" => {
            let is_short = is_short_in_cpp(alloc, s, true, detail);
            ask_way_by::<Wide>(verdict, s, detail, is_short, wanted);
        }
        b"rust" => {
            let is_short = is_short_in_rust(alloc, s, detail);
            ask_way_by::<V0>(verdict, s, detail, is_short, wanted);
        }
        _ => verdict.require(false),
    }
}
