// How a symbol is read and shown.

ghost use Rattle.std.specs.Prelude.{Bool};

/// A grammar of C++ symbols, and how much of a symbol is shown.
pub trait Grammar {
    /// Whether the grammar is the wide one: it also has what compilers write in addition to the
    /// ABI's symbols.
    const IS_WIDE: bool;

    /// Whether only the names of functions are shown.
    const IS_BARE: bool;

    /// Whether names are shown without their template arguments.
    const IS_BRIEF: bool;

    ghost IS_WIDE: { Bool };

    ghost IS_BARE: { Bool };

    ghost IS_BRIEF: { Bool };
}

/// A grammar, the wide one or the ABI's, and how much is shown: functions by their names only or
/// whole, and names without their template arguments or with them.
pub struct Shown<const WIDE: bool, const BARE: bool, const BRIEF: bool>;

impl<const WIDE: bool, const BARE: bool, const BRIEF: bool> Grammar for Shown<WIDE, BARE, BRIEF> {
    const IS_WIDE: bool = WIDE;

    const IS_BARE: bool = BARE;

    const IS_BRIEF: bool = BRIEF;

    ghost IS_WIDE = { WIDE };

    ghost IS_BARE = { BARE };

    ghost IS_BRIEF = { BRIEF };
}
