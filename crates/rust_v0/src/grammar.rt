// The grammar of Rust v0 symbols, in the form that the reader of shapes expects.

use sym_core::NameClass;
use sym_shape::grammar::Grammar;
use sym_shape::rule::{Rule, Sym};

/// The grammar of Rust v0 symbols, that of [`rust_grammar::V0`].
#[derive(Clone, Copy, Debug)]
pub struct V0;

impl Grammar for V0 {
    ghost use Rattle.std.specs.Prelude.{refl};
    ghost use Rattle.rust_grammar.specs.Listed.{v0_listed};
    ghost use Rattle.rust_grammar.specs.Rules.{v0_table};
    ghost use Rattle.rust_grammar.specs.TableLaws.{lawful};

    ghost table = { v0_table };

    ghost listed = { v0_listed };

    ghost start = { refl };

    #[inline(always)]
    fn rule(&self, kind: u16, byte: u8) -> Option<Rule> {
        rust_grammar::V0.rule(kind, byte)
    }

    #[inline(always)]
    fn place(&self, kind: u16, byte: u8) -> u32 {
        rust_grammar::V0.place(kind, byte)
    }

    #[inline(always)]
    fn symbol(&self, place: u32) -> Option<Sym> {
        rust_grammar::V0.symbol(place)
    }

    #[inline(always)]
    fn after(&self, place: u32) -> u8 {
        rust_grammar::V0.after(place)
    }

    #[inline(always)]
    fn may_be_empty(&self, kind: u16) -> bool {
        rust_grammar::V0.may_be_empty(kind)
    }

    #[inline(always)]
    fn name_class(&self) -> NameClass {
        rust_grammar::V0.name_class()
    }

    ghost lawful = { lawful };
}
