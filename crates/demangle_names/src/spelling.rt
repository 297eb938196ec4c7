// How texts are spelled.
ghost use Rattle.std.specs.Prelude.{◌≡◌};
ghost use Rattle.demangle_names.specs.Spelling.{IsSpelling};

/// How texts of C++ names are spelled.
#[derive(Clone, Copy, Debug, PartialEq, Eq)]
pub enum Spelling {
    /// `plain`: as this project spells them.
    Plain,
    /// `gnu`: as GNU's demangler spells them, which `c++filt` uses.
    Gnu,
}

/// The spelling with this name, which an option gives.
pub fn spelling_of(name: &str) -> Option<Spelling>
    ensures { IsSpelling name.now result }
{
    match name {
        "plain" => Some(Spelling::Plain),
        "gnu" => Some(Spelling::Gnu),
        _ => None,
    }
}
