// The open entries around what is being read, and what comes next.

/// What a substitution may name, as a span of the text so far. A candidate that ends before it
/// begins has no text.
#[derive(Clone, Copy)]
pub struct Candidate {
    pub from: u32,
    pub to: u32,
    pub is_reference: bool,
    /// The candidate names arguments of the function's template: it has this text only among the
    /// types of that function.
    pub is_dependent: bool,
}

/// Which candidates lose their text.
#[derive(Clone, Copy)]
pub enum Hiding {
    /// those that end after this place
    After { to: u32 },
    /// those that name arguments of the function's template
    Dependent,
    /// all of them
    All,
}

/// An argument of a name, or an element of a pack, and where its text is in the written text.
#[derive(Clone, Copy)]
pub struct Argument {
    pub from: u16,
    pub to: u16,
    pub is_reference: bool,
}

/// How many arguments of a name may be known, counting the elements of a pack in place of the pack.
pub const MOST_KNOWN: usize = 8;

/// The qualifiers of a member function: const, and the ref-qualifier `&` or `&&`.
#[derive(Clone, Copy)]
pub enum Mark {
    Plain,
    Const,
    Lvalue,
    ConstLvalue,
    Rvalue,
    ConstRvalue,
}

/// The first arguments of a name, as far as they are known. If one of them is a pack, the pack's
/// elements are in its place. A comma and a space separate neighbouring texts.
#[derive(Clone, Copy)]
pub struct Arguments {
    /// the place of the encoding whose types may name the arguments, 0 if the place isn't known
    pub encoding: u16,
    /// where the text of the first argument begins
    pub from: u16,
    /// where the text of each argument ends
    pub ends: [u16; MOST_KNOWN],
    /// whether each argument is a reference
    pub references: [bool; MOST_KNOWN],
    /// how many arguments are known
    pub count: u8,
    /// whether the last argument is a pack
    pub has_pack: bool,
    /// how many arguments precede the pack
    pub before: u8,
    /// how many elements the pack has
    pub elements: u8,
}

/// What an expansion makes of each type of the pack.
#[derive(Clone, Copy)]
pub enum Pattern {
    /// the type itself
    Same,
    Lvalue,
    /// an lvalue reference to the type, which is made const
    ConstLvalue,
    Rvalue,
}

/// What a nested name is read as.
#[derive(Clone, Copy)]
pub enum Purpose {
    /// a type
    Type,
    /// the name of the encoding; if this is a member function, the function has these qualifiers
    Name { mark: Mark },
    /// the name of a function that contains a type; the function has these qualifiers, and its
    /// encoding begins at this place
    Enclosing { mark: Mark, encoding: u16 },
    /// the name of a function whose address is an argument; the function has these qualifiers
    Address { mark: Mark },
}

/// What a lambda with parameters is a part of.
#[derive(Clone, Copy)]
pub enum Holder {
    /// a function that contains the lambda, which is a type
    Function,
    /// a nested name, which is read for this purpose
    Name { purpose: Purpose },
    /// the name of the lambda's member function, which has these qualifiers, in a function that
    /// contains the lambda
    Member { mark: Mark },
}

/// A nested name so far: where its text is, and the class name that a constructor would repeat.
#[derive(Clone, Copy)]
pub struct Nest {
    pub from: u32,
    pub class_from: u32,
    pub class_to: u32,
    pub purpose: Purpose,
    /// The nested name is a candidate already.
    pub is_listed: bool,
    /// The last piece is the name of a class.
    pub has_class: bool,
    /// The nested name ends in arguments. If they are those of a constructor or a destructor,
    /// `has_class` is false.
    pub is_instance: bool,
    /// The nested name names arguments of the function's template.
    pub is_dependent: bool,
}

/// How an array is read: plain, or after a pointer or an lvalue reference.
#[derive(Clone, Copy)]
pub enum Access {
    Plain,
    Pointer,
    Lvalue,
}

/// The open entries, by what each expects.
#[derive(Clone, Copy)]
pub enum Open {
    Pointer {
        from: u32,
    },
    Lvalue {
        from: u32,
    },
    Rvalue {
        from: u32,
    },
    Const {
        from: u32,
    },
    /// the arguments of a type, and whether one of them names an argument of the function's template
    TypeArguments {
        from: u32,
        is_dependent: bool,
    },
    /// the arguments of a component, or of a name in std, in a nested name
    NestArguments {
        nest: Nest,
    },
    /// the arguments of a nested name's first piece, with a component after them
    FirstArguments {
        nest: Nest,
    },
    /// the arguments of a name of an encoding
    NameArguments {
        from: u32,
    },
    /// the arguments of a template, where a member of the instance is an element of what was opened
    /// before; and whether one of the arguments names an argument of the function's template
    LevelArguments {
        is_dependent: bool,
    },
    /// the return type of a function: it is written from this place on, after the function's name
    /// and what precedes the name
    Front {
        mark: Mark,
        start: u32,
        argument: Arguments,
    },
    /// the parameters of a function: the function's text begins at this place, or ends there if
    /// only the names of functions are shown
    Parameters {
        mark: Mark,
        start: u32,
        argument: Arguments,
    },
    /// the return type of an instance of a function template that contains a type: the contained
    /// type's text begins at `from`, with the instance's name, and this name ends at `to`
    EnclosingFront {
        mark: Mark,
        from: u32,
        to: u32,
        argument: Arguments,
    },
    /// the parameters of a function that contains a type: the contained type's text begins at
    /// `from`, with the function's name, and this name ends at `to`
    Enclosing {
        mark: Mark,
        from: u32,
        to: u32,
    },
    /// the parameters of an instance of a function template that contains a type: their types may
    /// name the instance's arguments
    EnclosingInstance {
        mark: Mark,
        from: u32,
        to: u32,
        argument: Arguments,
    },
    /// the name of a function whose address is an argument; the function's encoding begins at this
    /// place
    Address {
        encoding: u16,
    },
    /// the return type of a function whose address is an argument; the function's name ends at this
    /// place
    AddressedFront {
        mark: Mark,
        to: u32,
        argument: Arguments,
    },
    /// the parameters of a function whose address is an argument
    Addressed {
        mark: Mark,
        to: u32,
        argument: Arguments,
    },
    /// the parameters of a lambda, which is a part of `holder`; the text of what contains the
    /// lambda begins at this place
    Lambda {
        from: u32,
        holder: Holder,
    },
    /// the parameters of a function that is a member of a local entity; the function's name ends at
    /// this place
    Member {
        mark: Mark,
        to: u32,
    },
    /// the type that a special object belongs to
    Special,
    /// the derived class of a construction table
    Derived,
    /// the base class of a construction table, after the text of the derived class, which ends at
    /// this place
    Base {
        to: u32,
    },
    /// the return type of a function type that is an element or a parameter, plain or after a pointer
    Returned {
        is_pointer: bool,
    },
    /// the parameters of a function type that is an element or a parameter, plain or after a
    /// pointer
    Signature {
        is_pointer: bool,
    },
    /// the type of an array's elements, where the array is an element or a parameter; the digits of its size are between these
    /// places of the symbol
    Array {
        access: Access,
        from: u32,
        to: u32,
    },
    /// an argument of a name: `number` others precede it, and its text begins at this place
    Argument {
        from: u32,
        number: u8,
        known: Arguments,
    },
    /// an enumerator that is an argument of a name: its type, then its number; the argument's text
    /// begins at this place
    ArgumentEnumerator {
        from: u32,
        number: u8,
        known: Arguments,
    },
    /// the elements of a pack, which is an argument of what was opened before
    Pack,
    /// an element of a pack among the arguments of a name: `number` arguments and elements precede
    /// it, and its text begins at this place
    Element {
        from: u32,
        number: u8,
        known: Arguments,
    },
    /// an enumerator, an element of what was opened before: its type, then its number
    Enumerator,
}

/// What comes next.
#[derive(Clone, Copy)]
pub enum Step {
    /// a type
    Type,
    /// a type after a const
    Plain,
    /// a type was read; it may be a reference, and may name arguments of the function's template
    Value {
        is_reference: bool,
        is_dependent: bool,
    },
    /// an argument or an element of a pack, or the end of the list
    List {
        is_first: bool,
    },
    /// a component, or the arguments of the first piece of a nested name
    Rest,
    /// a component, or the end of a nested name
    Tail,
    /// a component
    Component,
    /// all is read
    Ended,
}
