// The grammar of C++ symbols.
ghost use Rattle.std.specs.Prelude.{◌≡◌, ◌<◌, refl};
ghost use Rattle.cpp_grammar.specs.Table.{abi, abi_listed};
ghost use Rattle.cpp_grammar.specs.TableLaws.{lawful};

use crate::kind::{kind_of, may_be_empty};
use crate::table;
use sym_core::NameClass;
use sym_shape::{Grammar, Rule, Sym};

/// The grammar of C++ symbols (Itanium C++ ABI 5.1).
pub struct Abi;

/// Whether a kind may be empty.
fn is_optional(kind: u16) -> bool
    requires { kind < abi.kinds }
    ensures { result ≡ abi.may_be_empty kind }
{
    match kind_of(kind) {
        Some(kind) => may_be_empty(kind),
        None => false,
    }
}

impl Grammar for Abi {
    ghost table = { abi };

    ghost listed = { abi_listed };

    ghost start = { refl };

    fn rule(&self, kind: u16, byte: u8) -> Option<Rule> {
        table::rule(kind, byte)
    }

    fn place(&self, kind: u16, byte: u8) -> u32 {
        table::place(kind, byte)
    }

    fn symbol(&self, place: u32) -> Option<Sym> {
        table::symbol(place)
    }

    fn after(&self, place: u32) -> u8 {
        table::after(place)
    }

    fn may_be_empty(&self, kind: u16) -> bool {
        is_optional(kind)
    }

    fn name_class(&self) -> NameClass {
        NameClass::Cpp
    }

    ghost lawful = { lawful };
}
