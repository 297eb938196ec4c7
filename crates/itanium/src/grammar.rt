// The grammar of C++ symbols, as the reader of shapes takes it.

use sym_core::NameClass;
use sym_shape::grammar::Grammar;
use sym_shape::rule::{Rule, Sym};

/// The grammar of C++ symbols (Itanium C++ ABI 5.1), as [`cpp_grammar::Abi`] has it.
#[derive(Clone, Copy, Debug)]
pub struct Abi;

impl Grammar for Abi {
    ghost use Rattle.std.specs.Prelude.{refl};
    ghost use Rattle.cpp_grammar.specs.Table.{abi, abi_listed};
    ghost use Rattle.cpp_grammar.specs.TableLaws.{lawful};

    ghost table = { abi };

    ghost listed = { abi_listed };

    ghost start = { refl };

    #[inline(always)]
    fn rule(&self, kind: u16, byte: u8) -> Option<Rule> {
        cpp_grammar::Abi.rule(kind, byte)
    }

    #[inline(always)]
    fn place(&self, kind: u16, byte: u8) -> u32 {
        cpp_grammar::Abi.place(kind, byte)
    }

    #[inline(always)]
    fn symbol(&self, place: u32) -> Option<Sym> {
        cpp_grammar::Abi.symbol(place)
    }

    #[inline(always)]
    fn after(&self, place: u32) -> u8 {
        cpp_grammar::Abi.after(place)
    }

    #[inline(always)]
    fn may_be_empty(&self, kind: u16) -> bool {
        cpp_grammar::Abi.may_be_empty(kind)
    }

    #[inline(always)]
    fn name_class(&self) -> NameClass {
        cpp_grammar::Abi.name_class()
    }

    ghost lawful = { lawful };
}

/// The grammar of C++ symbols with the forms that compilers write in addition to the ABI's, as [`cpp_grammar::Wide`] has it.
#[derive(Clone, Copy, Debug)]
pub struct Wide;

impl Grammar for Wide {
    ghost use Rattle.std.specs.Prelude.{refl};
    ghost use Rattle.cpp_grammar.specs.Table.{wide, abi_listed};
    ghost use Rattle.cpp_grammar.specs.TableLaws.{wide_lawful};

    ghost table = { wide };

    ghost listed = { abi_listed };

    ghost start = { refl };

    #[inline(always)]
    fn rule(&self, kind: u16, byte: u8) -> Option<Rule> {
        cpp_grammar::Wide.rule(kind, byte)
    }

    #[inline(always)]
    fn place(&self, kind: u16, byte: u8) -> u32 {
        cpp_grammar::Wide.place(kind, byte)
    }

    #[inline(always)]
    fn symbol(&self, place: u32) -> Option<Sym> {
        cpp_grammar::Wide.symbol(place)
    }

    #[inline(always)]
    fn after(&self, place: u32) -> u8 {
        cpp_grammar::Wide.after(place)
    }

    #[inline(always)]
    fn may_be_empty(&self, kind: u16) -> bool {
        cpp_grammar::Wide.may_be_empty(kind)
    }

    #[inline(always)]
    fn name_class(&self) -> NameClass {
        cpp_grammar::Wide.name_class()
    }

    ghost lawful = { wide_lawful };
}
