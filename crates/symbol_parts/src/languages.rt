// Parts of the texts of both languages.

ghost use Rattle.std.specs.Prelude.{◌≡◌, ◌⊎◌, Err, IfErr, IfOk, Ok};
ghost use Rattle.sym_core.specs.Number.{FitsSymbol};
ghost use Rattle.sym_core.specs.declared.refusal.Refusal.TheVariants.{Memory};
ghost use Rattle.symbol_parts.specs.Parsed.{found, language_parsed_by};

use crate::behind::parsed_behind;
use crate::marked::Marked;
use crate::parsed::Parsed;
use crate::parser::Parser;
use crate::reading::parse_as;
use rust_v0::V0;
use std::alloc::Global;
use sym_core::Refusal;
use sym_filter::{Kind, Lang};
use sym_languages::Languages;
use sym_languages::languages::Cpp;
use sym_print::Detail;

/// The text of a symbol of a language with its parts, if the text costs at most the limit.
fn parse_lang<C: Cpp + Marked>(
    alloc: Global,
    lang: Lang,
    symbol: &[u8],
    limit: u32,
    detail: Detail,
) -> Result<Parsed, Refusal>
    requires { FitsSymbol symbol.now }
    ensures ok { IfOk result (λ p. language_parsed_by C.over C.marking limit detail lang symbol.now ≡ Ok (found p)) }
    ensures err { IfErr result (λ e. (e ≡ Memory) ⊎ (language_parsed_by C.over C.marking limit detail lang symbol.now ≡ Err e)) }
{
    match lang {
        Lang::Cpp => parse_as::<C>(alloc, symbol, limit, detail),
        Lang::Rust => parse_as::<V0>(alloc, symbol, limit, detail),
    }
}

impl<C: Cpp + Marked> Parser for Languages<C> {
    ghost use Rattle.symbol_parts.specs.Parsed.{language_parsed_by, parsed_behind};
    ghost use Rattle.symbol_parts.specs.ParsedLaws.{language_text};

    ghost parsed = { λ languages kind symbol. parsed_behind kind.skip (language_parsed_by C.over C.marking languages.limit languages.detail kind.lang symbol) };

    ghost same = { λ languages kind symbol bytes. language_text C.mangled C.over C.marking C.answers languages.limit languages.detail kind symbol bytes };

    fn parse(&self, alloc: Global, kind: Kind, symbol: &[u8]) -> Result<Parsed, Refusal> {
        let parsed = parse_lang::<C>(alloc, kind.lang, symbol, self.limit, self.detail)?;
        Ok(parsed_behind(alloc, kind.skip, parsed)?)
    }
}
