// The parts of constants.
#![tactic(auto)]

ghost use Rattle.std.specs.Prelude.{◌≡◌, ◌+◌, ◌<◌, ◌≤◌, ◌++◌, slice_get, codes, false, drop};
ghost use Rattle.sym_print.specs.Held.{Held};
ghost use Rattle.sym_print.specs.Unshared.{Unshared};
ghost use Rattle.sym_print.specs.Building.{◌then◌};
ghost use Rattle.rust_tree.specs.Symbol as tree;
ghost use Rattle.rust_tree.specs.Nodes.{IsConstant, constant_in};
ghost use Rattle.rust_tree.specs.Shown.{constant_parts, character_text};
ghost use Rattle.rust_tree.specs.Layout.{trees_of, Shows};
ghost use Rattle.std.specs.Fmt.{digits, digit_glyph};

use crate::context::Context;
use crate::node::Constant;
use crate::symbol::Symbol;
use crate::texts;
use sym_print::PartList;

impl Symbol {
    /// The parts of a constant.
    pub(crate) fn fill_constant<S: PartList<Context>>(&self, parts: &mut S, node: u32)
        requires constant { (k : tree.Constant) × IsConstant (trees_of self.now) node k }
        requires room { 8 ≤ S.room parts.old }
        ensures shows { Shows self.now (S.held parts.old) (S.held parts.new) (constant_parts (constant_in (slice_get (trees_of self.now) node))) }
        ensures room { S.room parts.old ≤ S.room parts.new + 8 }
    {
        match self.constant(node) {
            Constant::Integer { printed, .. } => self.push_printed(parts, printed),
            Constant::Boolean(truth) => self.push_either(parts, truth, texts::TRUE, texts::FALSE),
            Constant::Character(character) => self.push_character(parts, character),
            Constant::Placeholder => self.push_text(parts, texts::UNDERSCORE),
        }
    }

    /// Adds a character between quotes.
    fn push_character<S: PartList<Context>>(&self, parts: &mut S, character: u32)
        requires { 1 ≤ S.room parts.old }
        ensures shows { (below : Held Context) (so_far : Unshared) → Shows self.now below (S.held parts.old) so_far
            → Shows self.now below (S.held parts.new) (character_text character then so_far) }
        ensures room { S.room parts.old ≤ S.room parts.new + 1 }
    {
        if character == 39 {
            self.push_own(parts, b"'\\''", b"", b"");
        } else if character == 92 {
            self.push_own(parts, b"'\\\\'", b"", b"");
        } else if character < 32 {
            self.push_escaped(parts, character);
        } else if character <= 126 {
            self.push_own(parts, b"'", &[character as u8], b"'");
        } else {
            self.push_escaped(parts, character);
        }
    }

    /// Adds a character by its number, in hexadecimal digits.
    fn push_escaped<S: PartList<Context>>(&self, parts: &mut S, character: u32)
        requires { 1 ≤ S.room parts.old }
        ensures shows { (below : Held Context) (so_far : Unshared) → Shows self.now below (S.held parts.old) so_far
            → Shows self.now below (S.held parts.new) (codes "'\\u{" ++ digits 16 false character ++ codes "}'" then so_far) }
        ensures room { S.room parts.old ≤ S.room parts.new + 1 }
    {
        let mut digits = [0; 8];
        let from = write_hexadecimal(&mut digits, character);
        self.push_own(parts, b"'\\u{", &digits[from..], b"}'");
    }
}

/// Writes the hexadecimal digits of a number at the end of a list, and answers where they begin.
fn write_hexadecimal(list: &mut [u8; 8], number: u32) -> usize
    ensures within { result ≤ 8 }
    ensures digits { drop result list.new ≡ digits 16 false number }
{
    let mut from = 8;
    let mut rest = number;
    'digits: while rest >= 16 {
        from -= 1;
        list[from] = hexadecimal_digit(rest % 16);
        rest /= 16;
    }
    from -= 1;
    list[from] = hexadecimal_digit(rest);
    from
}

/// The hexadecimal digit of a number below 16.
fn hexadecimal_digit(digit: u32) -> u8
    requires { digit < 16 }
    ensures { result ≡ digit_glyph false digit }
{
    if digit < 10 {
        b'0' + digit as u8
    } else {
        b'a' + (digit - 10) as u8
    }
}
