//! A small grammar in the manner of Rust's symbols, to show how one is written: paths, types with lifetimes, arrays, and lists
//! of types.
#![tactic(auto)]

use sym_core::{NameClass, NumberKind};
use sym_shape::{ByteRange, Choice, END, Grammar, Rule, Sym, choose, symbol_at};

#[cfg(test)]
mod tests;

const SYMBOL: u16 = 0;

const PATH: u16 = 1;

const TYPE: u16 = 2;

const TYPES: u16 = 3;

const LIFE: u16 = 4;

/// Fills the places of symbols that a rule doesn't have.
const NO: Sym = END;

/// Fills the places of ranges that a choice doesn't have.
const NONE: ByteRange = ByteRange { from: 0, to: 0 };

const UNDERSCORE: ByteRange = ByteRange {
    from: b'_',
    to: b'_',
};

const B: ByteRange = ByteRange {
    from: b'B',
    to: b'B',
};

const B_OR_C: ByteRange = ByteRange {
    from: b'B',
    to: b'C',
};

const C: ByteRange = ByteRange {
    from: b'C',
    to: b'C',
};

const E: ByteRange = ByteRange {
    from: b'E',
    to: b'E',
};

const H: ByteRange = ByteRange {
    from: b'h',
    to: b'h',
};

const I: ByteRange = ByteRange {
    from: b'I',
    to: b'I',
};

const L: ByteRange = ByteRange {
    from: b'L',
    to: b'L',
};

const R: ByteRange = ByteRange {
    from: b'R',
    to: b'R',
};

/// The start kind, as the symbols of a rule.
const START: [Sym; 5] = [Sym::Kind(SYMBOL), NO, NO, NO, NO];

const WHOLE: [Sym; 5] = [Sym::Byte(b'T'), Sym::Kind(PATH), NO, NO, NO];

const CRATE: [Sym; 5] = [Sym::Name, NO, NO, NO, NO];

const GENERIC: [Sym; 5] = [Sym::Kind(PATH), Sym::Kind(TYPES), NO, NO, NO];

const LETTER: [Sym; 5] = [NO, NO, NO, NO, NO];

const REFERENCE: [Sym; 5] = [Sym::Kind(LIFE), Sym::Kind(TYPE), NO, NO, NO];

const ARRAY: [Sym; 5] = [
    Sym::Number(NumberKind::Digits),
    Sym::Byte(b'_'),
    Sym::Kind(TYPE),
    NO,
    NO,
];

const NAMED: [Sym; 5] = [Sym::Kind(PATH), NO, NO, NO, NO];

const LAST: [Sym; 5] = [NO, NO, NO, NO, NO];

const MORE: [Sym; 5] = [Sym::Kind(TYPE), Sym::Kind(TYPES), NO, NO, NO];

const LIFETIME: [Sym; 5] = [Sym::Number(NumberKind::Base62), NO, NO, NO, NO];

/// "_T" and a path.
pub const SYMBOL_RULES: [Choice; 1] = [Choice {
    ranges: 1,
    bytes: [UNDERSCORE, NONE, NONE, NONE],
    rule: Rule {
        number: 0,
        eats: true,
        count: 2,
        symbols: WHOLE,
    },
}];

/// "C" and a name, or "I", a path and a list of types.
pub const PATH_RULES: [Choice; 2] = [
    Choice {
        ranges: 1,
        bytes: [C, NONE, NONE, NONE],
        rule: Rule {
            number: 1,
            eats: true,
            count: 1,
            symbols: CRATE,
        },
    },
    Choice {
        ranges: 1,
        bytes: [I, NONE, NONE, NONE],
        rule: Rule {
            number: 2,
            eats: true,
            count: 2,
            symbols: GENERIC,
        },
    },
];

/// A basic letter; "R", a lifetime or none, and a type; "B", a length, "_" and a type; or a path.
pub const TYPE_RULES: [Choice; 4] = [
    Choice {
        ranges: 1,
        bytes: [H, NONE, NONE, NONE],
        rule: Rule {
            number: 3,
            eats: true,
            count: 0,
            symbols: LETTER,
        },
    },
    Choice {
        ranges: 1,
        bytes: [R, NONE, NONE, NONE],
        rule: Rule {
            number: 4,
            eats: true,
            count: 2,
            symbols: REFERENCE,
        },
    },
    Choice {
        ranges: 1,
        bytes: [B, NONE, NONE, NONE],
        rule: Rule {
            number: 5,
            eats: true,
            count: 3,
            symbols: ARRAY,
        },
    },
    Choice {
        ranges: 2,
        bytes: [C, I, NONE, NONE],
        rule: Rule {
            number: 6,
            eats: false,
            count: 1,
            symbols: NAMED,
        },
    },
];

/// An "E", or a type and more.
pub const TYPES_RULES: [Choice; 2] = [
    Choice {
        ranges: 1,
        bytes: [E, NONE, NONE, NONE],
        rule: Rule {
            number: 7,
            eats: true,
            count: 0,
            symbols: LAST,
        },
    },
    Choice {
        ranges: 4,
        bytes: [B_OR_C, I, R, H],
        rule: Rule {
            number: 8,
            eats: false,
            count: 2,
            symbols: MORE,
        },
    },
];

/// "L" and a number, or nothing.
pub const LIFE_RULES: [Choice; 1] = [Choice {
    ranges: 1,
    bytes: [L, NONE, NONE, NONE],
    rule: Rule {
        number: 9,
        eats: true,
        count: 1,
        symbols: LIFETIME,
    },
}];

/// The symbols of all rules by their numbers, after the start kind.
static SYMBOLS: [[Sym; 5]; 11] = [
    START, WHOLE, CRATE, GENERIC, LETTER, REFERENCE, ARRAY, NAMED, LAST, MORE, LIFETIME,
];

/// How many symbols follow each symbol, up to an end.
static AFTER: [u8; 55] = [
    0, 0, 0, 0, 2, 1, 0, 0, 0, 1, 0, 0, 0, 0, 2, 1, 0, 0, 0, 0, 0, 0, 0, 0, 2, 1, 0, 0, 0, 3, 2, 1,
    0, 0, 1, 0, 0, 0, 0, 0, 0, 0, 0, 0, 2, 1, 0, 0, 0, 1, 0, 0, 0, 0, 0,
];

/// The grammar.
pub struct Paths;

impl Grammar for Paths {
    ghost use Rattle.std.specs.Prelude.{refl};
    ghost use Rattle.sym_core.specs.declared.NameClass.TheVariants.{Rust};
    ghost use Rattle.sym_shape.specs.Listing.{listed_in};
    ghost use Rattle.sym_shape.specs.Sheet.{table_of};
    ghost use Rattle.sym_shape.specs.SheetLaws.{lawful_sheet};
    ghost use Rattle.example_grammar.specs.Paths.{blank, sheet, symbols};

    ghost table = { table_of blank sheet Rust };

    ghost listed = { listed_in symbols };

    ghost start = { refl };

    fn rule(&self, kind: u16, byte: u8) -> Option<Rule> {
        match kind {
            SYMBOL => choose(&SYMBOL_RULES, byte),
            PATH => choose(&PATH_RULES, byte),
            TYPE => choose(&TYPE_RULES, byte),
            TYPES => choose(&TYPES_RULES, byte),
            LIFE => choose(&LIFE_RULES, byte),
            _ => None,
        }
    }

    fn place(&self, kind: u16, byte: u8) -> u32 {
        match self.rule(kind, byte) {
            Some(rule) => u32::from(rule.number) * 5 + 5,
            None => 0,
        }
    }

    fn symbol(&self, place: u32) -> Option<Sym> {
        symbol_at(SYMBOLS.as_flattened(), place)
    }

    fn after(&self, place: u32) -> u8 {
        AFTER[place as usize]
    }

    fn may_be_empty(&self, kind: u16) -> bool {
        kind == LIFE
    }

    fn name_class(&self) -> NameClass {
        NameClass::Rust
    }

    ghost lawful = { lawful_sheet blank sheet Rust refl };
}
