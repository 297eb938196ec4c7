// The wide grammar of C++ symbols.
ghost use Rattle.std.specs.Prelude.{◌≡◌, ◌<◌, refl};
ghost use Rattle.cpp_grammar.specs.Table.{wide, abi_listed};
ghost use Rattle.cpp_grammar.specs.TableLaws.{wide_lawful};

use crate::kind::{kind_of, may_be_empty};
use crate::{table, wide_table};
use sym_core::NameClass;
use sym_shape::{Grammar, Rule, Sym};

/// The grammar of [`Abi`](crate::Abi), with what compilers write in addition to the symbols of the ABI's chapter.
///
/// - Names: constructors and destructors with the digits 4 and 5, inherited constructors, conversions to types, friends, ABI
///   tags, functions with an explicit object, nested names that are a substitution and its arguments, what is in the
///   initializer of a data member, in a default argument or in the type of an expression, names that are attached to modules,
///   enumerations without a name, structured bindings.
/// - Special names: construction vtables, template parameter objects, initializers of modules, the routines of thread-local
///   variables, transaction clones.
/// - Types: decimal, half and sized floats, integers of any width, elements of a pack, `auto`
///   constrained by a concept, types of expressions, arrays whose length is an expression.
/// - Arguments: a first one that is a pack and begins with an I, declarations and constraints of
///   arguments, parameters of a level, expressions, literals of floating and of qualified types.
pub struct Wide;

/// Whether a kind may be empty.
fn is_optional(kind: u16) -> bool
    requires { kind < wide.kinds }
    ensures { result ≡ wide.may_be_empty kind }
{
    match kind_of(kind) {
        Some(kind) => may_be_empty(kind),
        None => false,
    }
}

impl Grammar for Wide {
    ghost table = { wide };

    ghost listed = { abi_listed };

    ghost start = { refl };

    fn rule(&self, kind: u16, byte: u8) -> Option<Rule> {
        wide_table::rule(kind, byte)
    }

    fn place(&self, kind: u16, byte: u8) -> u32 {
        wide_table::place(kind, byte)
    }

    fn symbol(&self, place: u32) -> Option<Sym> {
        table::symbol(place)
    }

    fn after(&self, place: u32) -> u8 {
        table::after(place)
    }

    fn may_be_empty(&self, kind: u16) -> bool {
        is_optional(kind)
    }

    fn name_class(&self) -> NameClass {
        NameClass::Cpp
    }

    ghost lawful = { wide_lawful };
}
