// Which texts are rewritten as those of C++ symbols.
ghost use Rattle.std.specs.Prelude.{◌≡◌, is_some};
ghost use Rattle.rust_legacy.specs.Path.{legacy_of};
ghost use Rattle.sym_short.specs.Rewriting.{rewrites};

use rust_legacy::path_of;
use sym_filter::Lang;

/// Whether a symbol is a legacy Rust name, which denotes a path.
fn is_path(symbol: &[u8]) -> bool
    ensures { result ≡ is_some (legacy_of symbol.now) }
{
    match path_of(symbol) {
        Some(_) => true,
        None => false,
    }
}

/// Whether the text of a symbol is rewritten as that of a C++ symbol. A legacy Rust name that is read as a path keeps its text.
pub(crate) fn rewrites(reads_paths: bool, lang: Lang, symbol: &[u8]) -> bool
    ensures { result ≡ rewrites reads_paths lang symbol.now }
{
    match lang {
        Lang::Cpp => !(reads_paths && is_path(symbol)),
        Lang::Rust => false,
    }
}
