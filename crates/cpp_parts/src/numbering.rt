// Numbers of the elements of lists.
#![tactic(auto)]

ghost use Rattle.std.specs.Prelude.{◌≡◌, ◌+◌, ◌<◌, ◌≤◌, ◌^◌};
ghost use Rattle.cpp_parts.specs.Roles.{next, ordinal_of};
ghost use Rattle.cpp_parts.specs.Tasks.{count_of};

use sym_parts::Ordinal;

/// How elements are numbered, with the number of the next element.
#[derive(Clone, Copy)]
pub(crate) enum Numbering {
    /// As items of a list, from 0 on.
    Items(u32),
    /// As elements of an item, from 1 on.
    Elements(u32, u32),
    /// All elements have one number.
    Alike(Ordinal),
}

/// The ordinal of the next element.
#[tactic(auto, unfolding(crate::specs::Roles::ordinal_of))]
pub(crate) fn ordinal_of(numbering: Numbering) -> Ordinal
    ensures { result ≡ ordinal_of numbering }
{
    match numbering {
        Numbering::Items(item) => Ordinal { item, element: 0 },
        Numbering::Elements(item, element) => Ordinal { item, element },
        Numbering::Alike(ordinal) => ordinal,
    }
}

/// The numbers of the elements after the next one.
#[tactic(auto, unfolding(crate::specs::Roles::next, crate::specs::Tasks::count_of))]
pub(crate) fn next(numbering: Numbering) -> Numbering
    requires { count_of numbering + 1 < 2 ^ 32 }
    ensures is { result ≡ next numbering }
    ensures few { count_of result ≤ count_of numbering + 1 }
{
    match numbering {
        Numbering::Items(item) => Numbering::Items(item + 1),
        Numbering::Elements(item, element) => Numbering::Elements(item, element + 1),
        Numbering::Alike(ordinal) => Numbering::Alike(ordinal),
    }
}
