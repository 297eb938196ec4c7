// The productions of trees, and which numbers, texts and parts the view of a node has for each.
//
// Numbers that a production doesn't mention are 0, and texts that it doesn't mention have no bytes; no production has a second text. A type
// that is a part is the node of a type or of a path. The text of a name is what the symbol spells and not what the name prints.

/// A crate. Numbers: its disambiguator, 0 where it has none. Texts: its name, which isn't in Punycode. Parts: none.
pub const CRATE_ROOT: u16 = 0;

/// A crate whose name is in Punycode, otherwise as `CRATE_ROOT`.
pub const PUNYCODE_CRATE_ROOT: u16 = 1;

/// An inherent implementation. Numbers: its disambiguator, 0 where it has none. Parts: its path and its type.
pub const INHERENT_IMPL: u16 = 2;

/// An implementation of a trait. Numbers: its disambiguator, 0 where it has none. Parts: its path, its type and the
/// path of the trait.
pub const TRAIT_IMPL: u16 = 3;

/// A trait as a type implements it. Parts: the type and the path of the trait.
pub const TRAIT_DEFINITION: u16 = 4;

/// A path after another one. Numbers: the letter of its namespace, and its disambiguator, 0 where it has none. Texts:
/// its name, which isn't in Punycode. Parts: the path before it.
pub const NESTED: u16 = 5;

/// A path whose name is in Punycode after another one, otherwise as `NESTED`.
pub const PUNYCODE_NESTED: u16 = 6;

/// A path with arguments. Parts: the path and the arguments.
pub const GENERIC: u16 = 7;

/// The end of arguments. Parts: none.
pub const NO_ARGUMENTS: u16 = 8;

/// A lifetime before other arguments. Numbers: the lifetime, 0 where it is erased, 1 for the innermost that is bound.
/// Parts: the arguments after it.
pub const LIFETIME_ARGUMENT: u16 = 9;

/// A constant before other arguments. Parts: the constant and the arguments after it.
pub const CONSTANT_ARGUMENT: u16 = 10;

/// A type before other arguments. Parts: the type and the arguments after it.
pub const TYPE_ARGUMENT: u16 = 11;

/// A basic type. Numbers: its letter. Parts: none.
pub const BASIC: u16 = 12;

/// A path as a type. Parts: the path. No node has this production, since the node of a path denotes it as a type too.
pub const PATH_TYPE: u16 = 13;

/// An array. Parts: the type of its elements, and the constant that is its size.
pub const ARRAY: u16 = 14;

/// A slice. Parts: the type of its elements.
pub const SLICE: u16 = 15;

/// A tuple. Parts: its types.
pub const TUPLE: u16 = 16;

/// A shared reference. Numbers: its lifetime, 0 where it is erased or there is none. Parts: the type that it refers to.
pub const SHARED_REFERENCE: u16 = 17;

/// A mutable reference, otherwise as `SHARED_REFERENCE`.
pub const MUTABLE_REFERENCE: u16 = 18;

/// A constant pointer. Parts: the type that it points to.
pub const CONST_POINTER: u16 = 19;

/// A mutable pointer. Parts: the type that it points to.
pub const MUT_POINTER: u16 = 20;

/// A function's type, of Rust's ABI. Numbers: how many lifetimes it binds, and 1 where it is unsafe. Parts: the types
/// of its parameters, and the type of its result.
pub const FUNCTION: u16 = 21;

/// A function's type of the C ABI, spelled as a letter; otherwise as `FUNCTION`.
pub const C_FUNCTION: u16 = 22;

/// A function's type of an ABI that is spelled as a name. Texts: that name, which isn't in Punycode. Otherwise as
/// `FUNCTION`.
pub const ABI_FUNCTION: u16 = 23;

/// A function's type of an ABI whose name is in Punycode, otherwise as `ABI_FUNCTION`.
pub const PUNYCODE_ABI_FUNCTION: u16 = 24;

/// A `dyn` type. Numbers: how many lifetimes it binds, and its own lifetime, 0 where that is erased. Parts: its bounds.
pub const DYN: u16 = 25;

/// The end of a list of types. Parts: none.
pub const NO_TYPES: u16 = 26;

/// A type before others. Parts: the type and the types after it.
pub const MORE_TYPES: u16 = 27;

/// The end of bounds. Parts: none.
pub const NO_BOUNDS: u16 = 28;

/// A bound before others. Parts: its path, its bindings and the bounds after it.
pub const MORE_BOUNDS: u16 = 29;

/// The end of bindings. Parts: none.
pub const NO_BINDINGS: u16 = 30;

/// A binding before others. Texts: its name, which isn't in Punycode. Parts: its type and the bindings after it.
pub const MORE_BINDINGS: u16 = 31;

/// A binding whose name is in Punycode before others, otherwise as `MORE_BINDINGS`.
pub const PUNYCODE_MORE_BINDINGS: u16 = 32;

/// An integer. Numbers: the letter of its type, and 1 where it is negative. Texts: its hexadecimal digits without zeros
/// in front, none for zero. Parts: none.
pub const INTEGER: u16 = 33;

/// A truth value. Numbers: 1 where it is true. Parts: none.
pub const BOOLEAN: u16 = 34;

/// A character. Numbers: the character. Parts: none.
pub const CHARACTER: u16 = 35;

/// A constant that isn't known. Parts: none.
pub const PLACEHOLDER: u16 = 36;

/// A whole symbol. Texts: its suffix with the dot. Parts: its path and, where there is one, the path of the instantiating
/// crate.
pub const SYMBOL: u16 = 37;
