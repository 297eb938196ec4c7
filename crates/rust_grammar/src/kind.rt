// The kinds of the grammar (its nonterminals), by number (RFC 2603, "Syntax of mangled names"). Kind 0 is that of whole symbols.

/// `<symbol-name>`: a whole symbol.
pub const SYMBOL: u16 = 0;

/// `<path>`.
pub const PATH: u16 = 1;

/// `[<instantiating-crate>]`: a path, or none.
pub const OTHER_PATH: u16 = 2;

/// `[<vendor-specific-suffix>]`: a suffix with its dot, or none.
pub const SUFFIX: u16 = 3;

/// The first byte of a suffix after its dot.
pub const SUFFIX_BYTE: u16 = 4;

/// The other bytes of a suffix.
pub const SUFFIX_REST: u16 = 5;

/// `<namespace>`: its letter.
pub const NAMESPACE: u16 = 6;

/// `[<disambiguator>]`.
pub const DISAMBIGUATOR: u16 = 7;

/// `<identifier>`: a name with a disambiguator or none.
pub const IDENTIFIER: u16 = 8;

/// `<undisambiguated-identifier>`: a name.
pub const NAME: u16 = 9;

/// `{<generic-arg>}`: the arguments of a generic path.
pub const ARGUMENTS: u16 = 10;

/// `<type>`.
pub const TYPE: u16 = 11;

/// `{<type>} "E"`: types up to their `E`.
pub const TYPES: u16 = 12;

/// `[<lifetime>]`.
pub const SOME_LIFETIME: u16 = 13;

/// `<lifetime>`.
pub const LIFETIME: u16 = 14;

/// `[<binder>]`.
pub const BINDER: u16 = 15;

/// `["U"]`: the mark of an unsafe function, or none.
pub const UNSAFE: u16 = 16;

/// `["K" <abi>]`.
pub const ABI: u16 = 17;

/// `<abi>`.
pub const ABI_NAME: u16 = 18;

/// `{<dyn-trait>} "E"`: the bounds of a `dyn` type.
pub const BOUNDS: u16 = 19;

/// `{<dyn-trait-assoc-binding>}`: the bindings of a bound.
pub const BINDINGS: u16 = 20;

/// `<const>`.
pub const CONSTANT: u16 = 21;

/// `["n"]`: a minus, or none.
pub const MINUS: u16 = 22;

/// The data of a bool constant, `0` or `1`.
pub const TRUTH: u16 = 23;
