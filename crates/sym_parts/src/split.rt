// Parts of an item, split into the first one and the others.
#![tactic(auto)]

ghost use Rattle.std.specs.Prelude.{◌≡◌, ℕ, ◌≤◌};
ghost use Rattle.sym_parts.specs.Split.{IsSplit, ArePayable};

use sym_print::{Item, Layout, Part};

/// Parts: none, a text before others, or an item before others.
pub enum Split<'a, C> {
    Nothing,
    Text(&'a Part<C>, &'a [Part<C>]),
    Item(&'a Item<C>, &'a [Part<C>]),
}

/// Splits the parts of an item, or the last few of them, into the first one and the others.
pub fn first_of<'a, Y: Layout>(_y: &Y, parts: &'a [Part<Y::Ctx>], _most: u32) -> Split<'a, Y::Ctx>
    requires { ArePayable (Y.unshared _y.now) (Y.bytes_of _y.now) (Y.may_come _y.now) _most parts.now }
    ensures { IsSplit (Y.unshared _y.now) (Y.bytes_of _y.now) (Y.may_come _y.now) _most parts.now result }
{
    match parts.split_first() {
        None => Split::Nothing,
        Some((first, rest)) => match first {
            Part::Sub(item) => Split::Item(item, rest),
            _ => Split::Text(first, rest),
        },
    }
}
