// The qualifiers of member functions.

ghost use Rattle.std.specs.Prelude.{◌≡◌, ◌+◌, ◌∷◌, []};
ghost use Rattle.std.specs.Option.{OnSome, IfSome};
ghost use Rattle.cpp_direct.specs.Holes.{StandsAt};
ghost use Rattle.cpp_direct.specs.Marks.{IsMarkPlace, mark_text};
ghost use Rattle.cpp_direct.specs.Written.{Writes};

use crate::direct::Direct;
use crate::open::Mark;
use crate::tokens::byte_at;

/// The qualifiers that are at a place, and the place after them.
#[derive(Clone, Copy)]
pub struct MarkPlace {
    pub mark: Mark,
    pub end: usize,
}

/// The qualifiers of a member function.
// [<CV-qualifiers>] [<ref-qualifier>]
#[inline(always)]
pub fn mark_at(s: &[u8], at: usize) -> Option<MarkPlace>
    ensures { IfSome result (IsMarkPlace s.now at) }
{
    match byte_at(s, at) {
        b'K' => const_mark_at(s, at, at.checked_add(1)?),
        b'R' => Some(MarkPlace {
            mark: Mark::Lvalue,
            end: at.checked_add(1)?,
        }),
        b'O' => Some(MarkPlace {
            mark: Mark::Rvalue,
            end: at.checked_add(1)?,
        }),
        _ => Some(MarkPlace {
            mark: Mark::Plain,
            end: at,
        }),
    }
}

/// The qualifiers of a const member function.
// <CV-qualifiers> [<ref-qualifier>]
#[inline(always)]
fn const_mark_at(s: &[u8], _at: usize, behind: usize) -> Option<MarkPlace>
    requires letter { StandsAt s.now _at (75 ∷ []) }
    requires behind { behind ≡ _at + 1 }
    ensures { IfSome result (IsMarkPlace s.now _at) }
{
    match byte_at(s, behind) {
        b'R' => Some(MarkPlace {
            mark: Mark::ConstLvalue,
            end: behind.checked_add(1)?,
        }),
        b'O' => Some(MarkPlace {
            mark: Mark::ConstRvalue,
            end: behind.checked_add(1)?,
        }),
        _ => Some(MarkPlace {
            mark: Mark::Const,
            end: behind,
        }),
    }
}

impl Direct {
    /// Writes the qualifiers of a function.
    #[inline(always)]
    pub(crate) fn push_mark(&mut self, mark: Mark) -> Option<()>
        ensures { OnSome result (Writes self.old self.new (mark_text mark)) }
    {
        match mark {
            Mark::Plain => Some(()),
            Mark::Const => self.push(b" const"),
            Mark::Lvalue => self.push(b" &"),
            Mark::ConstLvalue => self.push(b" const &"),
            Mark::Rvalue => self.push(b" &&"),
            Mark::ConstRvalue => self.push(b" const &&"),
        }
    }
}
