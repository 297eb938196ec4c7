// The fixed texts of parts, by their numbers.
#![tactic(auto)]

ghost use Rattle.std.specs.Prelude.{◌≡◌};
ghost use Rattle.rust_tree.specs.Texts.{fixed_text};

use crate::basic_types::basic_text;

pub const COLONS: u16 = 0;

pub const LESS: u16 = 1;

pub const GREATER: u16 = 2;

pub const AS: u16 = 3;

pub const COLONS_BRACE: u16 = 4;

pub const CLOSURE: u16 = 5;

pub const SHIM: u16 = 6;

pub const COLON: u16 = 7;

pub const NUMBER_SIGN: u16 = 8;

pub const RIGHT_BRACE: u16 = 9;

pub const COLONS_LESS: u16 = 10;

pub const COMMA: u16 = 11;

pub const LEFT_BRACKET: u16 = 12;

pub const SEMICOLON: u16 = 13;

pub const RIGHT_BRACKET: u16 = 14;

pub const LEFT: u16 = 15;

pub const RIGHT: u16 = 16;

pub const COMMA_RIGHT: u16 = 17;

pub const AND: u16 = 18;

pub const AND_MUT: u16 = 19;

pub const BLANK: u16 = 20;

pub const MUT: u16 = 21;

pub const CONST_POINTER: u16 = 22;

pub const MUT_POINTER: u16 = 23;

pub const FOR: u16 = 24;

pub const GREATER_BLANK: u16 = 25;

pub const FN: u16 = 26;

pub const UNSAFE_FN: u16 = 27;

pub const EXTERN: u16 = 28;

pub const UNSAFE_EXTERN: u16 = 29;

pub const C: u16 = 30;

pub const QUOTE_FN: u16 = 31;

pub const ARROW: u16 = 32;

pub const DYN: u16 = 33;

pub const PLUS: u16 = 34;

pub const EQUALS: u16 = 35;

pub const TRUE: u16 = 36;

pub const FALSE: u16 = 37;

pub const UNDERSCORE: u16 = 38;

pub const BLANK_LEFT: u16 = 39;

/// The text of a number. The number of a basic type's text is the type's letter.
#[tactic(auto, unfolding(crate::specs::Texts::fixed_text))]
#[inline(always)]
pub fn fixed_text(number: u16) -> &'static [u8]
    ensures { result.now ≡ fixed_text number }
{
    match number {
        COLONS => b"::",
        LESS => b"<",
        GREATER => b">",
        AS => b" as ",
        COLONS_BRACE => b"::{",
        CLOSURE => b"closure",
        SHIM => b"shim",
        COLON => b":",
        NUMBER_SIGN => b"#",
        RIGHT_BRACE => b"}",
        COLONS_LESS => b"::<",
        COMMA => b", ",
        LEFT_BRACKET => b"[",
        SEMICOLON => b"; ",
        RIGHT_BRACKET => b"]",
        LEFT => b"(",
        RIGHT => b")",
        COMMA_RIGHT => b",)",
        AND => b"&",
        AND_MUT => b"&mut ",
        BLANK => b" ",
        MUT => b" mut ",
        CONST_POINTER => b"*const ",
        MUT_POINTER => b"*mut ",
        FOR => b"for<",
        GREATER_BLANK => b"> ",
        FN => b"fn(",
        UNSAFE_FN => b"unsafe fn(",
        EXTERN => b"extern \"",
        UNSAFE_EXTERN => b"unsafe extern \"",
        C => b"C",
        QUOTE_FN => b"\" fn(",
        ARROW => b" -> ",
        DYN => b"dyn ",
        PLUS => b" + ",
        EQUALS => b" = ",
        TRUE => b"true",
        FALSE => b"false",
        UNDERSCORE => b"_",
        BLANK_LEFT => b" (",
        _ => basic_text(number),
    }
}
