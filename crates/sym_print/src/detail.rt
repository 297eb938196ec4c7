// How much of a symbol is printed.
#![tactic(auto)]

ghost use Rattle.std.specs.Prelude.{◌≡◌};
ghost use Rattle.sym_print.specs.Details.{has_arguments, has_parameters};

/// How much of a symbol is printed.
#[derive(Clone, Copy, Debug, PartialEq, Eq)]
pub enum Detail {
    /// All of it.
    Full,
    /// Names without their template or generic arguments.
    Brief,
    /// Each C++ function by its name only, with its template arguments: without its return type, its parameters and the
    /// qualifiers after them. This includes an enclosing function, the target of a thunk and a function in template arguments;
    /// types of functions are whole, and so is anything else.
    NoParameters,
    /// Likewise, and names without their template or generic arguments.
    BriefNoParameters,
}

impl Detail {
    /// Whether names have their template and generic arguments.
    #[inline(always)]
    pub fn has_arguments(self) -> bool
        ensures { result ≡ has_arguments self }
    {
        match self {
            Detail::Full => true,
            Detail::Brief => false,
            Detail::NoParameters => true,
            Detail::BriefNoParameters => false,
        }
    }

    /// Whether functions have their parameters, and what surrounds the parameters.
    #[inline(always)]
    pub fn has_parameters(self) -> bool
        ensures { result ≡ has_parameters self }
    {
        match self {
            Detail::Full => true,
            Detail::Brief => true,
            Detail::NoParameters => false,
            Detail::BriefNoParameters => false,
        }
    }
}
