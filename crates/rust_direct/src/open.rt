// The open entries, and what comes next.

ghost use Rattle.std.specs.Prelude.{◌≡◌};
ghost use Rattle.rust_direct.specs.PrintsInForm.{has_form, is_path, is_type, form_of};

/// What was read at a place, by the forms in which its text is right.
#[derive(Clone, Copy)]
pub enum Forms {
    /// a path that looks the same after a value and in a type
    Alike,
    /// a path as it follows a value: `Vec::<u8>`
    Valued,
    /// a path as it is in a type: `Vec<u8>`
    Plain,
    /// a type
    Typed,
    /// something that no reference may name
    Unnamed,
}

/// Whether the text is right for a path in one form: after a value, or elsewhere.
#[inline(always)]
pub fn has_form(is_value: bool, forms: Forms) -> bool
    ensures { result ≡ has_form is_value forms }
{
    match forms {
        Forms::Alike => true,
        Forms::Valued => is_value,
        Forms::Plain => !is_value,
        Forms::Typed => false,
        Forms::Unnamed => false,
    }
}

/// Whether the text is that of a path.
#[inline(always)]
pub fn is_path(forms: Forms) -> bool
    ensures { result ≡ is_path forms }
{
    match forms {
        Forms::Alike => true,
        Forms::Valued => true,
        Forms::Plain => true,
        Forms::Typed => false,
        Forms::Unnamed => false,
    }
}

/// Whether the text is that of a type.
#[inline(always)]
pub fn is_type(forms: Forms) -> bool
    ensures { result ≡ is_type forms }
{
    match forms {
        Forms::Alike => true,
        Forms::Valued => false,
        Forms::Plain => true,
        Forms::Typed => true,
        Forms::Unnamed => false,
    }
}

/// The form in which a path with arguments is written.
#[inline(always)]
pub fn form_of(is_value: bool) -> Forms
    ensures { result ≡ form_of is_value }
{
    if is_value {
        Forms::Valued
    } else {
        Forms::Plain
    }
}

/// What a reference may name: the place of its text in the shown or in the hidden text.
#[derive(Clone, Copy)]
pub struct Note {
    pub from: usize,
    pub to: usize,
    pub forms: Forms,
    pub is_aside: bool,
}

/// What follows the type or the path that an entry waits for.
#[derive(Clone, Copy)]
pub enum Closing {
    Nothing,
    Bracket,
    Angle,
}

/// The entries that wait for the path or the type that is being read.
#[derive(Clone, Copy)]
pub enum Open {
    /// the symbol waits for its path
    Symbol,
    /// the symbol waits for the path of the instantiating crate
    Other,
    /// a path in a namespace waits for its parent
    Nest {
        letter: u8,
        place: usize,
    },
    /// a path with arguments waits for the path before them
    Generic {
        is_value: bool,
        place: usize,
    },
    /// arguments wait for a type
    Argument {
        place: usize,
        from: usize,
        is_value: bool,
    },
    /// an inherent impl waits for its path
    Impl {
        place: usize,
    },
    /// an impl of a trait waits for its path
    TraitImpl {
        place: usize,
    },
    /// an inherent impl that isn't shown itself waits for its path
    InnerImpl {
        place: usize,
    },
    /// an impl of a trait that isn't shown itself waits for its path
    InnerTraitImpl {
        place: usize,
    },
    /// a reference, a pointer, a slice or an impl waits for its type
    Wrap {
        place: usize,
        from: usize,
        closing: Closing,
    },
    /// an implemented trait waits for the type that implements it
    Implementing {
        place: usize,
        from: usize,
    },
    /// an implemented trait waits for the trait
    Implemented {
        place: usize,
        from: usize,
    },
    /// a tuple waits for a type
    Tuple {
        place: usize,
        from: usize,
        is_first: bool,
    },
    /// a `dyn` waits for the path of a bound
    Dyn {
        place: usize,
        from: usize,
    },
    /// an array waits for the type of its elements
    Array {
        place: usize,
        from: usize,
    },
}

/// What comes next.
#[derive(Clone, Copy)]
pub enum Step {
    /// a path
    Path { is_value: bool },
    /// a type
    Type,
    /// a path or a type whose text begins at a place was read
    Value { from: usize, forms: Forms },
    /// an argument or the end of arguments
    Arguments { is_first: bool },
    /// all is read
    Ended,
}
