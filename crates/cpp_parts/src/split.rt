// Parts, split into the first one and the others.
#![tactic(auto)]

ghost use Rattle.std.specs.Prelude.{◌≡◌, ℕ, ◌≤◌};
ghost use Rattle.cpp_parts.specs.Tasks.{IsSplit, ArePayable};

use cpp_layout::{Context, Symbol};
use sym_print::{Item, Part};

/// Parts: none, a text before others, or an item before others.
#[derive(Clone, Copy)]
pub(crate) enum Split<'a> {
    Nothing,
    Text(Part<Context>, &'a [Part<Context>]),
    Item(Item<Context>, &'a [Part<Context>]),
}

/// Splits the parts of an item, or the last few of them, into the first one and the others.
pub(crate) fn first_of<'a>(_y: &Symbol, parts: &'a [Part<Context>], _most: u32) -> Split<'a>
    requires { ArePayable _y.now _most parts.now }
    ensures { IsSplit _y.now _most parts.now result }
{
    match parts.split_first() {
        None => Split::Nothing,
        Some((first, rest)) => match first {
            Part::Sub(item) => Split::Item(*item, rest),
            _ => Split::Text(*first, rest),
        },
    }
}
