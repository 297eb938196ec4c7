// The productions of trees: what the view of a node has for each.
//
// What a production doesn't mention is 0, no bytes or no part. A letter is its byte. Qualifiers are one number, the sum of 1 for restrict,
// 2 for volatile and 4 for const. A mark is 0 for none, 1 for &, 2 for && and 3 for an explicit object. An offset has a 1 among the numbers
// if it is negative, and its digits without zeros in front among the texts.

/// No tree: what takes the place of a return type that a function doesn't have.
pub const ABSENT: u16 = 0;

/// The end of a list.
pub const NIL: u16 = 1;

/// An element before others. Parts: the element and the elements after it.
pub const LIST: u16 = 2;

/// A whole symbol. Texts: its suffix with the dot. Parts: its encoding.
pub const SYMBOL: u16 = 3;

/// A function. Numbers: its qualifiers and its mark. Parts: its name, its return type and its parameters.
pub const FUNCTION: u16 = 4;

/// A variable or another thing without parameters. Numbers: the qualifiers and the mark of its name. Parts: its name.
pub const OBJECT: u16 = 5;

/// A special object that belongs to a type. Numbers: the last letter of its code. Parts: the type.
pub const SPECIAL: u16 = 6;

/// The guard of a variable. Numbers: the qualifiers and the mark of the name. Parts: the name.
pub const GUARD: u16 = 7;

/// A thunk that adjusts one pointer by an offset. Numbers and texts: the offset. Parts: its encoding.
pub const THUNK: u16 = 8;

/// A thunk that adjusts one pointer by an offset, and by another offset that is in a table. Numbers and texts: the two offsets. Parts: its
/// encoding.
pub const TABLE_THUNK: u16 = 9;

/// A thunk that adjusts two pointers, each by an offset. Numbers and texts: the two offsets. Parts: its encoding.
pub const COVARIANT_THUNK: u16 = 10;

/// A thunk that adjusts two pointers, one of them or both by an offset and by another offset that is in a table. Its three or four offsets
/// are what `call_offsets` answers. Parts: its encoding.
pub const WIDE_THUNK: u16 = 11;

/// A template with arguments. Parts: the template and the list of the arguments.
pub const INSTANCE: u16 = 12;

/// A name in a function or an initializer. Parts: the encoding that contains it, and the name, whose prefix is that encoding.
pub const LOCAL: u16 = 13;

/// A name in a function or an initializer that has several entities with this name. Texts: the
/// digits of its discriminator. Otherwise as `LOCAL`.
pub const NUMBERED_LOCAL: u16 = 14;

/// An abbreviation of a name in std. Numbers: its letter.
pub const ABBREVIATION: u16 = 15;

/// A parameter of a template. Numbers: its number, counted from 0. Its argument isn't a part.
pub const PARAMETER: u16 = 16;

/// A builtin type of one letter. Numbers: the letter.
pub const BUILTIN: u16 = 17;

/// A builtin type of a D and a letter. Numbers: the letter.
pub const BUILTIN_WITH_D: u16 = 18;

/// A type of a vendor. Texts: its name.
pub const VENDOR: u16 = 19;

/// A pointer. Parts: the type that it points to.
pub const POINTER: u16 = 20;

/// A reference to an lvalue. Parts: the type that it refers to.
pub const LVALUE: u16 = 21;

/// A reference to an rvalue. Parts: the type that it refers to.
pub const RVALUE: u16 = 22;

/// An array. Texts: the digits of its length, or no digits if it has no length. Parts: the type of its elements.
pub const ARRAY: u16 = 23;

/// A pointer to a member. Parts: the class and the type of the member.
pub const MEMBER_POINTER: u16 = 24;

/// A function's type. Numbers: the sum of 1 if it is a function of C and 2 if it is noexcept; and its mark. Parts: its return type and its
/// parameters.
pub const FUNCTION_TYPE: u16 = 25;

/// A type under qualifiers. Numbers: the qualifiers. Parts: the type.
pub const QUALIFIED: u16 = 26;

/// A vector. Texts: the digits of its length. Parts: the type of its elements.
pub const VECTOR: u16 = 27;

/// A complex type. Parts: the type of its two halves.
pub const COMPLEX: u16 = 28;

/// A pattern that is expanded. Parts: the pattern.
pub const EXPANSION: u16 = 29;

/// An integer. Numbers: 1 where it is negative. Texts: its digits without zeros in front. Parts: its type.
pub const INTEGER: u16 = 30;

/// A truth value. Numbers: 1 where it is true.
pub const BOOLEAN: u16 = 31;

/// The null pointer.
pub const NULL_POINTER: u16 = 32;

/// A function or a variable as an argument. Parts: its encoding.
pub const ENCODING_LITERAL: u16 = 33;

/// The address of a function or a variable as an argument. Parts: its encoding.
pub const ADDRESS_OF: u16 = 34;

/// A pack of arguments. Parts: the list of its elements.
pub const PACK: u16 = 35;

/// A name in no scope. Numbers: 1 where it is internal. Texts: the name.
pub const SOURCE: u16 = 36;

/// An operator in no scope. Numbers: the two letters of its code.
pub const OPERATOR: u16 = 37;

/// The operator of a literal, in no scope. Texts: its name.
pub const LITERAL_OPERATOR: u16 = 38;

/// A constructor in no scope. Numbers: its digit, as a letter.
pub const CONSTRUCTOR: u16 = 39;

/// A destructor in no scope. Numbers: its digit, as a letter.
pub const DESTRUCTOR: u16 = 40;

/// A lambda in no scope. Numbers: its number as it is printed. Parts: the list of its parameters.
pub const LAMBDA: u16 = 41;

/// An unnamed type in no scope. Numbers: its number as it is printed.
pub const UNNAMED: u16 = 42;

/// A string literal.
pub const STRING_LITERAL: u16 = 43;

/// A name without a piece, which denotes nothing that is spelled.
pub const NO_PIECE: u16 = 44;

/// A name in std, otherwise as `SOURCE`. The next eight are also in std; each is otherwise as the one that it is named after.
pub const STD_SOURCE: u16 = 45;

/// As `OPERATOR`, in std.
pub const STD_OPERATOR: u16 = 46;

/// As `LITERAL_OPERATOR`, in std.
pub const STD_LITERAL_OPERATOR: u16 = 47;

/// As `CONSTRUCTOR`, in std.
pub const STD_CONSTRUCTOR: u16 = 48;

/// As `DESTRUCTOR`, in std.
pub const STD_DESTRUCTOR: u16 = 49;

/// As `LAMBDA`, in std.
pub const STD_LAMBDA: u16 = 50;

/// As `UNNAMED`, in std.
pub const STD_UNNAMED: u16 = 51;

/// As `STRING_LITERAL`, in std.
pub const STD_STRING_LITERAL: u16 = 52;

/// As `NO_PIECE`, in std.
pub const STD_NO_PIECE: u16 = 53;

/// A name in a prefix, which is a name, a parameter, or the encoding around a local entity. Parts: the prefix. Otherwise as `SOURCE`. The
/// next eight are also in a prefix, which is their first part; each is otherwise as the one that it is named after.
pub const NESTED_SOURCE: u16 = 54;

/// As `OPERATOR`, in a prefix.
pub const NESTED_OPERATOR: u16 = 55;

/// As `LITERAL_OPERATOR`, in a prefix.
pub const NESTED_LITERAL_OPERATOR: u16 = 56;

/// As `CONSTRUCTOR`, in a prefix.
pub const NESTED_CONSTRUCTOR: u16 = 57;

/// As `DESTRUCTOR`, in a prefix.
pub const NESTED_DESTRUCTOR: u16 = 58;

/// As `LAMBDA`, in a prefix: its parameters are the second part.
pub const NESTED_LAMBDA: u16 = 59;

/// As `UNNAMED`, in a prefix.
pub const NESTED_UNNAMED: u16 = 60;

/// As `STRING_LITERAL`, in a prefix.
pub const NESTED_STRING_LITERAL: u16 = 61;

/// As `NO_PIECE`, in a prefix.
pub const NESTED_NO_PIECE: u16 = 62;

/// A tree that no node denotes: a piece of a name by itself, a name of what isn't a piece, a builtin type of another code. Parts: the tree
/// itself. No node has this production.
pub const NO_NODE: u16 = 63;

/// A special name that is about a name, except that of a guard variable. Numbers: the last letter of its code, and the number of the name's
/// qualifiers plus eight times the name's mark. Parts: the name. Only symbols of the wide grammar have it.
pub const OF_NAME: u16 = 64;

/// The virtual table of a base class while an object of a class derived from it is constructed. Texts: the digits of the base
/// class' offset. Parts: the derived class and the base class. Only symbols of the wide grammar have it.
pub const CONSTRUCTION: u16 = 65;

/// A data member or a variable, as the prefix of what is in its initializer. Parts: its name. Only symbols of the wide grammar
/// have it.
pub const HOLDER: u16 = 66;

/// A floating type of n bits. Numbers: the byte after the digits of n, `_`, `x` or `b`. Texts: the digits. Only symbols of the
/// wide grammar have it.
pub const SIZED_FLOAT: u16 = 67;

/// A name with a tag. Numbers: 1 where it is that of a constructor or a destructor. Texts: the tag. Parts: the name without it.
/// Only symbols of the wide grammar have it.
pub const TAGGED: u16 = 68;

/// A conversion to a type, in no scope. Parts: the type. Only symbols of the wide grammar have this production and the next two.
pub const CONVERSION: u16 = 69;

/// As `CONVERSION`, in std.
pub const STD_CONVERSION: u16 = 70;

/// As `CONVERSION`, in a prefix: its type is the second part.
pub const NESTED_CONVERSION: u16 = 71;

/// A function as it is within a transaction, or as it is without one. Numbers: the letter of its code, t or n. Parts: the
/// encoding. Only symbols of the wide grammar have it.
pub const CLONE: u16 = 72;

/// The entity of a local name that is in a default argument. Texts: the digits that say in which default argument. Parts: the entity. Only
/// symbols of the wide grammar have it.
pub const OF_DEFAULT: u16 = 73;

/// A lambda whose signature names parameters of its own, in no scope, otherwise as `LAMBDA`. Only symbols of the wide grammar have this
/// production and the next two.
pub const GENERIC_LAMBDA: u16 = 74;

/// As `GENERIC_LAMBDA`, in std.
pub const STD_GENERIC_LAMBDA: u16 = 75;

/// As `GENERIC_LAMBDA`, in a prefix: its parameters are the second part.
pub const NESTED_GENERIC_LAMBDA: u16 = 76;

/// An array whose length is a parameter. Parts: the parameter and the type of its elements.
pub const BOUNDED: u16 = 77;

/// A placeholder type constrained by a concept. Numbers: the last letter of its code, k for `auto` and K for `decltype(auto)`. Parts: the
/// concept. Only symbols of the wide grammar have it.
pub const CONSTRAINED: u16 = 78;

/// A constructor that is inherited, in no scope. Numbers: its digit, as a letter. Parts: the base class that it is inherited from. Only
/// symbols of the wide grammar have this production and the next two.
pub const INHERITING: u16 = 79;

/// As `INHERITING`, in std.
pub const STD_INHERITING: u16 = 80;

/// As `INHERITING`, in a prefix: its base class is the second part.
pub const NESTED_INHERITING: u16 = 81;

/// The type of an expression. Parts: the expression. Only symbols of the wide grammar have this production and the next two.
pub const DECLTYPE: u16 = 82;

/// An operation of an expression. Numbers: the two letters of its operator. Parts: its operands; a missing one is absent, and
/// the second may be a list.
pub const OPERATION: u16 = 83;

/// A parameter of the function whose types it occurs in, as an expression. Texts: the digits of its number.
pub const FUNCTION_PARAMETER: u16 = 84;

/// An enumeration without a name, in no scope. Texts: its first enumerator. Parts: its underlying type. Only symbols of the wide grammar
/// have this production and the next two.
pub const ENUMERATION: u16 = 85;

/// As `ENUMERATION`, in std.
pub const STD_ENUMERATION: u16 = 86;

/// As `ENUMERATION`, in a prefix: its type is the second part.
pub const NESTED_ENUMERATION: u16 = 87;

/// A structured binding, in no scope. Parts: the list of its names. Only symbols of the wide grammar have this production and the next two.
pub const BINDINGS: u16 = 88;

/// As `BINDINGS`, in std.
pub const STD_BINDINGS: u16 = 89;

/// As `BINDINGS`, in a prefix: its names are the second part.
pub const NESTED_BINDINGS: u16 = 90;

/// The signature of a lambda that declares parameters. Parts: the list of their declarations, and
/// the list of its types. Only symbols of the wide grammar have it.
pub const DECLARING: u16 = 91;
