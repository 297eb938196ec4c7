// Which mangled names are read.
ghost use Rattle.std.specs.Prelude.{◌≡◌};
ghost use Rattle.demangle_names.specs.Style.{IsStyle, leaves_out, reads_paths};

use rust_legacy::path_of;
use sym_filter::Lang;

/// Which mangled names are read. Rust's older names are also names of C++: each style except `Nothing` reads them, and `GnuV3` reads them as names of C++.
#[derive(Clone, Copy, Debug, PartialEq, Eq)]
pub enum Style {
    /// `auto`: all names.
    Auto,
    /// `gnu-v3`: names of C++.
    GnuV3,
    /// `rust`: names of Rust.
    Rust,
    /// `none`: no names.
    Nothing,
}

impl Style {
    /// Whether a symbol of a mangling is left out.
    pub fn leaves_out(self, lang: Lang, symbol: &[u8]) -> bool
        ensures { result ≡ leaves_out self lang symbol.now }
    {
        match self {
            Style::Auto => false,
            Style::GnuV3 => match lang {
                Lang::Cpp => false,
                Lang::Rust => true,
            },
            Style::Rust => match lang {
                Lang::Cpp => match path_of(symbol) {
                    Some(_) => false,
                    None => true,
                },
                Lang::Rust => false,
            },
            Style::Nothing => true,
        }
    }

    /// Whether legacy Rust names are read as paths.
    pub fn reads_paths(self) -> bool
        ensures { result ≡ reads_paths self }
    {
        match self {
            Style::Auto => true,
            Style::GnuV3 => false,
            Style::Rust => true,
            Style::Nothing => true,
        }
    }
}

/// The style with this name, which an option gives.
pub fn style_of(name: &str) -> Option<Style>
    ensures { IsStyle name.now result }
{
    match name {
        "auto" => Some(Style::Auto),
        "gnu-v3" => Some(Style::GnuV3),
        "rust" => Some(Style::Rust),
        "none" => Some(Style::Nothing),
        _ => None,
    }
}
