// The lengths of the texts that the names of a path show.
#![tactic(auto)]

ghost use Rattle.std.specs.Prelude.{◌≡◌, ◌<◌, ◌≤◌, ◌^◌, List, length, ℕ};
ghost use Rattle.sym_print.specs.Unshared.{text_of};
ghost use Rattle.rust_legacy.specs.Path.{AreNames};
ghost use Rattle.rust_legacy.specs.Text.{names_parts};
ghost use Rattle.legacy_parts.specs.Measures.{AreFitting, AreMeasured};
ghost use Rattle.legacy_parts.specs.Roles.{shown};

use rust_legacy::path::name_at;
use rust_legacy::text_length;

/// How many bytes of text the first and the last of a path's names have, and how many bytes precede the text of the last one.
#[derive(Clone, Copy)]
pub(crate) struct Names {
    pub(crate) first: u32,
    pub(crate) last: u32,
    pub(crate) place: u32,
}

/// Measures the names of a path, which end at the length of its hash.
pub(crate) fn measured(symbol: &[u8], hash: usize) -> Names
    requires within { hash ≤ length symbol.now }
    requires names { (names : List (List ℕ)) × AreNames symbol.now 3 hash names × (0 < length names) }
    requires fits { (names : List (List ℕ)) → AreNames symbol.now 3 hash names → AreFitting names }
    ensures { (names : List (List ℕ)) → AreNames symbol.now 3 hash names → AreMeasured names result }
{
    let Some(name) = name_at(symbol, 3) else {
        unreachable!();
    };
    let first = text_length(&symbol[name.from..name.to]) as u32;
    let mut last = first;
    let mut place = 0;
    let mut at = name.to;
    'names: while at < hash {
        let Some(name) = name_at(symbol, at) else {
            unreachable!();
        };
        place += last + 2;
        last = text_length(&symbol[name.from..name.to]) as u32;
        at = name.to;
    }
    Names { first, last, place }
}
