// Which texts of C++ symbols are written.
ghost use Rattle.std.specs.Prelude.{◌≡◌};
ghost use Rattle.sym_short.specs.Rewriting.{texts_by};

/// Which texts of C++ symbols are written.
#[derive(Clone, Copy, Debug, PartialEq, Eq)]
pub enum Texts {
    /// Whole ones.
    Whole,
    /// Short texts, with the inline namespaces of `std` or without them.
    Short { keeps_inline: bool },
}

/// The texts that two flags request. The second has no effect without the first.
pub fn texts_of(short: bool, keeps_inline: bool) -> Texts
    ensures { result ≡ texts_by short keeps_inline }
{
    if short {
        Texts::Short { keeps_inline }
    } else {
        Texts::Whole
    }
}
