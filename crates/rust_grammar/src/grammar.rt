// The grammar of Rust v0 symbols, in the form that the reader of shapes expects.

use crate::table;
use sym_core::NameClass;
use sym_shape::grammar::Grammar;
use sym_shape::rule::{Rule, Sym};

/// The grammar of Rust v0 symbols.
#[derive(Clone, Copy, Debug)]
pub struct V0;

impl Grammar for V0 {
    ghost use Rattle.std.specs.Prelude.{refl};
    ghost use Rattle.rust_grammar.specs.Listed.{v0_listed};
    ghost use Rattle.rust_grammar.specs.Rules.{v0_table};
    ghost use Rattle.rust_grammar.specs.TableLaws as laws;

    ghost table = { v0_table };

    ghost listed = { v0_listed };

    ghost start = { refl };

    #[inline(always)]
    fn rule(&self, kind: u16, byte: u8) -> Option<Rule> {
        table::rule(kind, byte)
    }

    #[inline(always)]
    fn place(&self, kind: u16, byte: u8) -> u32 {
        table::place(kind, byte)
    }

    #[inline(always)]
    fn symbol(&self, place: u32) -> Option<Sym> {
        table::symbol(place)
    }

    #[inline(always)]
    fn after(&self, place: u32) -> u8 {
        table::after(place)
    }

    #[inline(always)]
    fn may_be_empty(&self, kind: u16) -> bool {
        table::may_be_empty(kind)
    }

    #[inline(always)]
    fn name_class(&self) -> NameClass {
        NameClass::Rust
    }

    ghost lawful = { laws.lawful };
}
