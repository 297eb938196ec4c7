// The nodes of a symbol. A node names its parts by their numbers, which are smaller than its own.

use sym_core::Span;

/// A name: its bytes in the symbol and, where it is in Punycode, the span of its printed text in the text list.
#[derive(Clone, Copy)]
pub struct Name {
    pub bytes: Span,
    pub decoded: Option<Span>,
}

/// The most lifetimes of a binder.
pub const MOST_BOUND: u64 = 1_000;

/// How a function is called.
#[derive(Clone, Copy)]
pub enum Abi {
    Rust,
    C,
    Named(Name),
}

/// A node. A lifetime is 0 where it is erased; a disambiguator or a binder is 0 where there is none.
#[derive(Clone, Copy)]
pub enum Node {
    Path(Path),
    Arguments(Arguments),
    Ty(Ty),
    Types(Types),
    Bounds(Bounds),
    Bindings(Bindings),
    Constant(Constant),
    Symbol(Whole),
}

/// A path. Its types are nodes of types or of paths.
#[derive(Clone, Copy)]
pub enum Path {
    Crate {
        name: Name,
        disambiguator: u64,
    },
    InherentImpl {
        disambiguator: u64,
        path: u32,
        self_type: u32,
    },
    TraitImpl {
        disambiguator: u64,
        path: u32,
        self_type: u32,
        implemented: u32,
    },
    TraitDefinition {
        self_type: u32,
        implemented: u32,
    },
    Nested {
        namespace: u8,
        parent: u32,
        name: Name,
        disambiguator: u64,
    },
    Generic {
        parent: u32,
        arguments: u32,
    },
}

/// The arguments of a generic path, from one of them on.
#[derive(Clone, Copy)]
pub enum Arguments {
    None,
    Lifetime { lifetime: u64, rest: u32 },
    Constant { constant: u32, rest: u32 },
    Ty { argument: u32, rest: u32 },
}

/// A type that isn't a path. A basic type is its letter.
#[derive(Clone, Copy)]
pub enum Ty {
    Basic(u8),
    Array {
        element: u32,
        size: u32,
    },
    Slice(u32),
    Tuple(u32),
    SharedReference {
        lifetime: u64,
        referent: u32,
    },
    MutableReference {
        lifetime: u64,
        referent: u32,
    },
    ConstPointer(u32),
    MutPointer(u32),
    Function {
        binder: u16,
        is_unsafe: bool,
        abi: Abi,
        parameters: u32,
        returned: u32,
    },
    Dyn {
        binder: u16,
        bounds: u32,
        lifetime: u64,
    },
}

/// The types of a list, from one of them on.
#[derive(Clone, Copy)]
pub enum Types {
    None,
    More { first: u32, rest: u32 },
}

/// The bounds of a `dyn`, from one of them on.
#[derive(Clone, Copy)]
pub enum Bounds {
    None,
    More { path: u32, bindings: u32, rest: u32 },
}

/// The bindings of a bound, from one of them on.
#[derive(Clone, Copy)]
pub enum Bindings {
    None,
    More {
        name: Name,
        bound_type: u32,
        rest: u32,
    },
}

/// A constant. The digits of an integer are hexadecimal, without leading zeros, and its printed text is in the text list.
#[derive(Clone, Copy)]
pub enum Constant {
    Integer {
        letter: u8,
        minus: bool,
        digits: Span,
        printed: Span,
    },
    Boolean(bool),
    Character(u32),
    Placeholder,
}

/// A whole symbol. Its suffix has its dot.
#[derive(Clone, Copy)]
pub struct Whole {
    pub path: u32,
    pub instantiating: Option<u32>,
    pub suffix: Span,
}

/// A node in a table, and the number of enclosing bound lifetimes that close its tree. It takes 56 bytes.
#[derive(Clone, Copy)]
pub struct Entry {
    pub node: Node,
    pub need: u64,
}

const _: () = prove!(std::mem::size_of::<Entry>() == 56);
