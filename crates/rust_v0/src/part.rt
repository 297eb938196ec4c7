// What the parts of a rule denote, in terms of nodes.

ghost use Rattle.std.specs.Prelude.{◌≡◌};
ghost use Rattle.rust_v0.specs.CodeSemantics as semantics;

use rust_tree::node::{Abi, Name};
use sym_core::{Refusal, Span};

/// An integer of at most 128 bits: its digits in the symbol, without leading zeros, and its decimal in the text list.
#[derive(Clone, Copy)]
pub struct Integer {
    pub minus: bool,
    pub digits: Span,
    pub printed: Span,
}

/// What a part of a symbol denotes. Paths, types, constants and lists are given by their nodes.
#[derive(Clone, Copy)]
pub enum Part {
    /// A number, or none where it is beyond 64 bits.
    Number(Option<u64>),
    /// An integer, or none where it is beyond 128 bits.
    Integer(Option<Integer>),
    Letter(u8),
    Name(Name),
    Identifier { name: Name, disambiguator: u64 },
    Disambiguator(u64),
    Binder(u16),
    Lifetime(u64),
    Unsafe,
    Abi(Abi),
    Truth(bool),
    Minus,
    Path(u32),
    Type(u32),
    Constant(u32),
    Arguments(u32),
    Types(u32),
    Bounds(u32),
    Bindings(u32),
    Suffix(Span),
    SuffixRest,
    Symbol(u32),
}

/// A part that denotes a node which was just added. Unlike `Part`, it is small enough to be passed in registers.
#[derive(Clone, Copy)]
pub enum Added {
    Path(u32),
    Type(u32),
    Constant(u32),
    Arguments(u32),
    Types(u32),
    Bounds(u32),
    Bindings(u32),
    Symbol(u32),
}

/// The part of an added node.
pub fn part_of(added: Added) -> Part
    ensures { result ≡ semantics.part_of added }
{
    match added {
        Added::Path(node) => Part::Path(node),
        Added::Type(node) => Part::Type(node),
        Added::Constant(node) => Part::Constant(node),
        Added::Arguments(node) => Part::Arguments(node),
        Added::Types(node) => Part::Types(node),
        Added::Bounds(node) => Part::Bounds(node),
        Added::Bindings(node) => Part::Bindings(node),
        Added::Symbol(node) => Part::Symbol(node),
    }
}

/// The refusal of parts that no well shaped symbol has.
pub const NO_SUCH_PARTS: Refusal = Refusal::Malformed { at: 0 };
