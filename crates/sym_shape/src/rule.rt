// Rules of a grammar, and the rows of a shape.
use sym_core::NumberKind;

/// One symbol of a rule: another kind, a token, or a fixed byte.
#[derive(Clone, Copy, Debug, PartialEq, Eq)]
pub enum Sym {
    Kind(u16),
    Name,
    Number(NumberKind),
    Byte(u8),
}

/// A rule of a grammar: a byte of a class and at most five symbols, or a chain of at most three symbols that takes no byte.
#[derive(Clone, Copy, Debug, PartialEq, Eq)]
pub struct Rule {
    /// The rule's number in rows, below 65,535.
    pub number: u16,
    /// Whether the rule takes the byte that chose it.
    pub eats: bool,
    /// How many symbols the rule has, which are the first of `symbols`.
    pub count: u8,
    pub symbols: [Sym; 5],
}

/// A rule, a chain or a token of a symbol. Places are numbers of bytes, counted from the symbol's first.
#[derive(Clone, Copy, Debug, PartialEq, Eq)]
pub struct Row {
    /// The number of the rule, or `TOKEN`.
    pub rule: u16,
    /// How many symbols of the enclosing rule follow the one that this row was read for.
    pub after: u8,
    /// Where the bytes of its subtree begin: the own bytes of a name, or the digits of a number.
    pub from: u32,
    /// Where these bytes end.
    pub to: u32,
    /// The number of the row after the subtree.
    pub end: u32,
}

/// The rule number in the row of a token.
pub const TOKEN: u16 = 65535;
