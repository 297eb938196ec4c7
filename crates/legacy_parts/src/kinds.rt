// What a legacy name is.
#![tactic(auto)]

ghost use Rattle.std.specs.Prelude.{◌≡◌, ◌<◌, ◌^◌, Some, codes, length};
ghost use Rattle.rust_legacy.specs.Path.{IsPlaced, Path, legacy_of};
ghost use Rattle.legacy_parts.specs.Kinds.{is_closure, kind_of_path};
ghost use Rattle.legacy_parts.specs.Measures.{IsTextOf};

use crate::names::measured;
use rust_legacy::PathPlace;
use sym_parts::NameKind;

/// Whether the text of a name is `{{closure}}`.
fn is_closure(text: &[u8]) -> bool
    ensures { result ≡ is_closure text.now }
{
    text.len() == 11 && text.starts_with(b"{{closure}}")
}

/// What a legacy name is, by its text. The name's path is at a place that `path_of` found. The call takes no memory.
pub(crate) fn kind_of(symbol: &[u8], place: PathPlace, text: &[u8]) -> NameKind
    requires placed { IsPlaced symbol.now place }
    requires text { IsTextOf symbol.now text.now }
    requires fits { length text.now < 2 ^ 32 }
    ensures { (path : Path) → legacy_of symbol.now ≡ Some path → result ≡ kind_of_path path }
{
    let names = measured(symbol, place.hash);
    let base = &text[names.place as usize..];
    if is_closure(&base[..names.last as usize]) {
        return NameKind::Closure;
    }
    NameKind::Value
}
