// How symbols are mangled.
ghost use Rattle.std.specs.Prelude.{◌≡◌, is_some};
ghost use Rattle.rust_legacy.specs.Path.{legacy_of};
ghost use Rattle.text_details.specs.Manglings.{language_of, mangling_name, mangling_number, mangling_of};

use rust_legacy::path_of;
use sym_filter::Lang;

/// How a name is mangled.
#[derive(Clone, Copy, Debug, PartialEq, Eq)]
pub enum Mangling {
    /// C++ by the Itanium ABI.
    Itanium,
    /// Rust by RFC 2603.
    RustV0,
    /// Rust's older names, which are C++ names with a hash.
    RustLegacy,
}

impl Mangling {
    /// The language of a name with this mangling.
    pub fn language(self) -> &'static str
        ensures { result.now ≡ language_of self }
    {
        match self {
            Mangling::Itanium => "c++",
            Mangling::RustV0 => "rust",
            Mangling::RustLegacy => "rust",
        }
    }

    /// The mangling's name.
    pub fn name(self) -> &'static str
        ensures { result.now ≡ mangling_name self }
    {
        match self {
            Mangling::Itanium => "itanium",
            Mangling::RustV0 => "rust-v0",
            Mangling::RustLegacy => "rust-legacy",
        }
    }

    /// The mangling's number, from 1 on. The number stays the same from one version to the next.
    pub fn number(self) -> u32
        ensures { result ≡ mangling_number self }
    {
        match self {
            Mangling::Itanium => 1,
            Mangling::RustV0 => 2,
            Mangling::RustLegacy => 3,
        }
    }
}

/// The mangling of a symbol. A legacy Rust name is a C++ symbol, too; its mangling is Rust's only if the name is read as a path.
pub fn mangling_of(reads_paths: bool, lang: Lang, symbol: &[u8]) -> Mangling
    ensures { result ≡ mangling_of reads_paths lang symbol.now }
{
    match lang {
        Lang::Cpp => {
            if reads_paths && is_legacy(symbol) {
                return Mangling::RustLegacy;
            }
            Mangling::Itanium
        }
        Lang::Rust => Mangling::RustV0,
    }
}

/// Whether a symbol is a legacy Rust name.
fn is_legacy(symbol: &[u8]) -> bool
    ensures { result ≡ is_some (legacy_of symbol.now) }
{
    match path_of(symbol) {
        Some(_) => true,
        None => false,
    }
}
