// How much of a symbol is shown.

ghost use Rattle.std.specs.Prelude.{Bool, true, false};

/// How much of a symbol is shown.
pub trait Showing {
    /// Whether names are shown without their generic arguments.
    const IS_BRIEF: bool;

    ghost IS_BRIEF: { Bool };
}

/// All of the symbol is shown.
pub struct Whole;

impl Showing for Whole {
    const IS_BRIEF: bool = false;

    ghost IS_BRIEF = { false };
}

/// Names are shown without their generic arguments.
pub struct Brief;

impl Showing for Brief {
    const IS_BRIEF: bool = true;

    ghost IS_BRIEF = { true };
}
