// When texts are coloured.
ghost use Rattle.std.specs.Prelude.{◌≡◌};
ghost use Rattle.demangle_names.specs.Coloring.{IsColoring, colors};

/// When the parts of texts are coloured.
#[derive(Clone, Copy, Debug, PartialEq, Eq)]
pub enum Coloring {
    /// `auto`: where the texts are written to a terminal.
    Auto,
    /// `always`.
    Always,
    /// `never`.
    Never,
}

impl Coloring {
    /// Whether texts are coloured, by whether they are written to a terminal.
    pub fn colors(self, terminal: bool) -> bool
        ensures { result ≡ colors self terminal }
    {
        match self {
            Coloring::Auto => terminal,
            Coloring::Always => true,
            Coloring::Never => false,
        }
    }
}

/// The colouring with this name, which an option gives.
pub fn coloring_of(name: &str) -> Option<Coloring>
    ensures { IsColoring name.now result }
{
    match name {
        "auto" => Some(Coloring::Auto),
        "always" => Some(Coloring::Always),
        "never" => Some(Coloring::Never),
        _ => None,
    }
}
