// Parts of the texts of legacy Rust names.

ghost use Rattle.std.specs.Prelude.{◌≡◌, ◌⊎◌, Err, IfErr, IfOk, Ok, Some};
ghost use Rattle.sym_core.specs.Number.{FitsSymbol};
ghost use Rattle.sym_core.specs.declared.refusal.Refusal.TheVariants.{Memory};
ghost use Rattle.rust_legacy.specs.Path.{IsPlaced, Path, legacy_of};
ghost use Rattle.symbol_parts.specs.Parsed.{found, path_parsed};

use crate::behind::parsed_behind;
use crate::marked::Marked;
use crate::parsed::Parsed;
use crate::parser::Parser;
use legacy_parts::LegacyName;
use rust_legacy::{PathPlace, path_of};
use std::alloc::Global;
use sym_core::Refusal;
use sym_filter::Kind;
use sym_languages::Legacy;
use sym_languages::languages::Cpp;

/// The text of a legacy name's path with its parts, if the text costs at most the limit.
fn parse_path(alloc: Global, symbol: &[u8], place: PathPlace, limit: u32) -> Result<Parsed, Refusal>
    requires placed { IsPlaced symbol.now place }
    requires fits { FitsSymbol symbol.now }
    ensures ok { (path : Path) → legacy_of symbol.now ≡ Some path → IfOk result (λ p. path_parsed limit symbol.now path ≡ Ok (found p)) }
    ensures err { (path : Path) → legacy_of symbol.now ≡ Some path → IfErr result (λ e. (e ≡ Memory) ⊎ (path_parsed limit symbol.now path ≡ Err e)) }
{
    let name = legacy_parts::parse(alloc, symbol, place, limit)?;
    let LegacyName { text, kind, parts } = name;
    Ok(Parsed { text, kind, parts })
}

impl<C: Cpp + Marked> Parser for Legacy<C> {
    ghost use Rattle.symbol_parts.specs.Parsed.{language_parsed_by, legacy_parsed, parsed_behind};
    ghost use Rattle.symbol_parts.specs.ParsedLaws.{legacy_name_text};

    ghost parsed = { λ legacy kind symbol. parsed_behind kind.skip (legacy_parsed legacy.languages.limit symbol (language_parsed_by C.over C.marking legacy.languages.limit legacy.languages.detail kind.lang symbol)) };

    ghost same = { λ legacy kind symbol bytes. legacy_name_text C.mangled C.over C.marking C.answers legacy.languages.limit legacy.languages.detail kind symbol bytes };

    fn parse(&self, alloc: Global, kind: Kind, symbol: &[u8]) -> Result<Parsed, Refusal> {
        let Some(place) = path_of(symbol) else {
            return self.languages.parse(alloc, kind, symbol);
        };
        let parsed = parse_path(alloc, symbol, place, self.languages.limit)?;
        Ok(parsed_behind(alloc, kind.skip, parsed)?)
    }
}
