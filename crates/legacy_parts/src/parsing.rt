// The text of a legacy name with its parts.
#![tactic(auto)]

ghost use Rattle.std.specs.Prelude.{◌≡◌, ◌⊎◌, Err, IfErr, IfOk, Some};
ghost use Rattle.sym_core.specs.Number.{FitsSymbol};
ghost use Rattle.sym_core.specs.declared.refusal.Refusal.TheVariants.{Memory};
ghost use Rattle.sym_print.specs.Answer.{text_within};
ghost use Rattle.rust_legacy.specs.Path.{IsPlaced, Path, legacy_of};
ghost use Rattle.rust_legacy.specs.Text.{shown_path};
ghost use Rattle.legacy_parts.specs.Parsed.{IsParsed};

use crate::kinds::kind_of;
use crate::listing::stretches_in;
use crate::spelled::spelling_in;
use rust_legacy::{PathPlace, push_text};
use std::alloc::Global;
use sym_core::Refusal;
use sym_parts::{NameKind, Part, with_bytes};

/// The text of a legacy name, what the name is, and the parts of the text.
#[derive(Drop)]
pub struct LegacyName {
    pub text: Vec<u8>,
    pub kind: NameKind,
    /// The parts, in the order of their starts; any two parts are apart, or one is within the
    /// other. The hash, which isn't in the text, is last.
    pub parts: Vec<Part>,
}

/// The text of a legacy name with its parts, if the text costs at most the limit. The name's path
/// is at a place that `path_of` found.
///
/// # Errors
///
/// `TooLong` exactly where the text costs more, `Memory` where a list couldn't grow.
pub fn parse(
    alloc: Global,
    symbol: &[u8],
    place: PathPlace,
    limit: u32,
) -> Result<LegacyName, Refusal>
    requires placed { IsPlaced symbol.now place }
    requires fits { FitsSymbol symbol.now }
    ensures ok { (path : Path) → legacy_of symbol.now ≡ Some path → IfOk result (IsParsed limit symbol.now path) }
    ensures err { (path : Path) → legacy_of symbol.now ≡ Some path → IfErr result (λ e. (e ≡ Memory) ⊎ (text_within limit (shown_path path) ≡ Err e)) }
{
    let mut text = Vec::new(alloc);
    push_text(symbol, place, limit, &mut text)?;
    let stretches = stretches_in(alloc, symbol, place, &text)?;
    let spelling = spelling_in(alloc, symbol, place)?;
    let parts = with_bytes(alloc, &stretches, &spelling, text.len() as u32)?;
    let kind = kind_of(symbol, place, &text);
    Ok(LegacyName { text, kind, parts })
}
