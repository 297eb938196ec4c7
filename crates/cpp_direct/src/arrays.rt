// Arrays, pointers and references to them: as elements of lists, as parameters, in special names.

ghost use Rattle.std.specs.Prelude.{◌≡◌, length};
ghost use Rattle.std.specs.Option.{IfSome};
ghost use Rattle.cpp_direct.specs.Names.{IsReadable};
ghost use Rattle.cpp_direct.specs.declared.open.Step.TheVariants as steps;
ghost use Rattle.cpp_direct.specs.Holes.{StandsAt};
ghost use Rattle.cpp_direct.specs.HolesOfArrays.{access_letters, array_opening, is_lvalue, is_marked};
ghost use Rattle.cpp_direct.specs.WriterInvariant.{IsWriting};
ghost use Rattle.cpp_direct.specs.Symbol.{symbol_by};
ghost use Rattle.cpp_direct.specs.MidStep.{IsArrayRead};

use crate::direct::Direct;
use crate::grammar::Grammar;
use crate::lists::normal;
use crate::open::{Access, Open, Step};
use sym_core::{NumberKind, find_number};

/// How many letters precede an array's size.
fn letters(access: Access) -> usize
    ensures { result ≡ length (access_letters access) }
{
    match access {
        Access::Plain => 1,
        Access::Pointer => 2,
        Access::Lvalue => 2,
    }
}

/// What is between the text of the elements' type and the size.
fn array_opening(access: Access) -> &'static [u8]
    ensures { result.now ≡ array_opening access }
{
    match access {
        Access::Plain => b" [",
        Access::Pointer => b" (*)[",
        Access::Lvalue => b" (&)[",
    }
}

/// Whether the array is accessed by a pointer or a reference.
fn is_marked(access: Access) -> bool
    ensures { result ≡ is_marked access }
{
    match access {
        Access::Plain => false,
        Access::Pointer => true,
        Access::Lvalue => true,
    }
}

/// Whether the array is accessed by a reference.
fn is_lvalue(access: Access) -> bool
    ensures { result ≡ is_lvalue access }
{
    match access {
        Access::Plain => false,
        Access::Pointer => false,
        Access::Lvalue => true,
    }
}

impl Direct {
    /// Begins an array, or a pointer or reference to one, as an element, as a parameter, or as the
    /// type that a special object belongs to.
    // <array-type> ::= A [<array bound number>] _ <element type>
    #[inline(never)]
    pub(crate) fn begin_array<G: Grammar>(&mut self, s: &[u8], access: Access) -> Option<Step>
        requires fits { IsReadable s.now }
        requires letters { StandsAt s.now self.old.at (access_letters access) }
        requires writing { IsWriting (symbol_by G.IS_WIDE G.IS_BARE G.IS_BRIEF s.now) self.old steps.Type }
        ensures { IfSome result (IsWriting (symbol_by G.IS_WIDE G.IS_BARE G.IS_BRIEF s.now) self.new) }
    {
        if !self.takes_element() {
            return None;
        }
        let at = self.at.checked_add(letters(access))?;
        if at > s.len() {
            return None;
        }
        let place = find_number(s, at, NumberKind::Decimal).ok()?;
        self.at = place.end;
        self.waiting.push(Open::Array {
            access,
            from: place.from as u32,
            to: place.to as u32,
        })?;
        Some(Step::Type)
    }

    /// The type of an array's elements is read: writes the array's size, and forwards the array.
    // <array-type> ::= A [<array bound number>] _ <element type>
    pub(crate) fn array_ended<G: Grammar>(
        &mut self,
        s: &[u8],
        access: Access,
        from: u32,
        to: u32,
    ) -> Option<Step>
        requires fits { IsReadable s.now }
        requires read { IsArrayRead (symbol_by G.IS_WIDE G.IS_BARE G.IS_BRIEF s.now) self.old access from to }
        ensures { IfSome result (IsWriting (symbol_by G.IS_WIDE G.IS_BARE G.IS_BRIEF s.now) self.new) }
    {
        let _open = self.waiting.pop();
        self.push(array_opening(access))?;
        self.push(normal(&s[from as usize..to as usize]))?;
        self.push_byte(b']')?;
        self.add_hidden(is_marked(access))?;
        self.pass_element::<G>(s, is_lvalue(access))
    }
}
