// The forms in which a node is shown.
#![tactic(auto)]

ghost use Rattle.std.specs.Prelude.{◌≡◌};
ghost use Rattle.rust_tree.specs.Forms.{form_of};

/// Which part of a node is shown, and how.
#[derive(Clone, Copy, Debug, PartialEq, Eq)]
pub enum Form {
    /// The symbol with its suffix.
    Root,
    /// A path whose arguments follow `::`.
    ValuePath,
    /// A path whose arguments follow it directly.
    PlainPath,
    /// A type, or a path that is used as a type.
    Ty,
    Constant,
    /// Arguments from the first one on.
    FirstArgument,
    /// Arguments from a later one on.
    MoreArguments,
    /// The lifetime at the front of arguments.
    Lifetime,
    FirstType,
    MoreTypes,
    /// A function's type without its binder.
    Signature,
    /// The names of a binder's lifetimes, from one on.
    Names,
    FirstBound,
    MoreBounds,
    /// The path and the bindings at the front of bounds.
    Bound,
    FirstBinding,
    MoreBindings,
}

impl Form {
    /// The number of the form in an item.
    pub fn number(self) -> u32
        ensures { form_of result ≡ self }
    {
        match self {
            Form::Root => 0,
            Form::ValuePath => 1,
            Form::PlainPath => 2,
            Form::Ty => 3,
            Form::Constant => 4,
            Form::FirstArgument => 5,
            Form::MoreArguments => 6,
            Form::Lifetime => 7,
            Form::FirstType => 8,
            Form::MoreTypes => 9,
            Form::Signature => 10,
            Form::Names => 11,
            Form::FirstBound => 12,
            Form::MoreBounds => 13,
            Form::Bound => 14,
            Form::FirstBinding => 15,
            Form::MoreBindings => 16,
        }
    }

    /// The form with a number; `MoreBindings` where no form has that number.
    pub fn of(number: u32) -> Form
        ensures { result ≡ form_of number }
    {
        match number {
            0 => Form::Root,
            1 => Form::ValuePath,
            2 => Form::PlainPath,
            3 => Form::Ty,
            4 => Form::Constant,
            5 => Form::FirstArgument,
            6 => Form::MoreArguments,
            7 => Form::Lifetime,
            8 => Form::FirstType,
            9 => Form::MoreTypes,
            10 => Form::Signature,
            11 => Form::Names,
            12 => Form::FirstBound,
            13 => Form::MoreBounds,
            14 => Form::Bound,
            15 => Form::FirstBinding,
            _ => Form::MoreBindings,
        }
    }
}
