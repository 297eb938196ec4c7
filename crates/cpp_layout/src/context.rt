// The context that an item carries in addition to its node.

#![tactic(auto)]

ghost use Rattle.std.specs.Prelude.{◌≡◌, None, Some};
ghost use Rattle.cpp_tree.specs.Nodes.{under_kept};

use cpp_tree::node::under_of;
use sym_print::Detail;

/// An index into packs, how much is shown, and what replaces the free parameters' own arguments, if
/// anything does: one argument, or a list with an argument for each.
#[derive(Clone, Copy, Debug, PartialEq, Eq)]
pub struct Context {
    pub index: Option<u32>,
    pub detail: Detail,
    pub argument: Option<u32>,
}

/// A node that isn't an alias, and its context.
#[derive(Clone, Copy, Debug)]
pub struct Place {
    pub node: u32,
    pub ctx: Context,
}

/// 0 for none; otherwise the index or the node, plus 1.
fn number_of(value: Option<u32>) -> u64 {
    match value {
        None => 0,
        Some(number) => number as u64 + 1,
    }
}

impl Context {
    /// The context of the parts of an encoding: it has no index, and its parameters have their own arguments.
    pub fn closed(detail: Detail) -> Context
        ensures { result ≡ record { index = None; detail = detail; argument = None } }
    {
        Context {
            index: None,
            detail,
            argument: None,
        }
    }

    /// The context of an encoding's types: it has no index, and its argument is the one that the word `under` names, if there is one.
    pub fn of_types(detail: Detail, under: u32) -> Context
        ensures { result ≡ record { index = None; detail = detail; argument = under_kept under } }
    {
        Context {
            index: None,
            detail,
            argument: under_of(under),
        }
    }

    /// A number that tells contexts apart by the argument, and by the index if the index is below 65,535.
    pub(crate) fn number(self) -> u64 {
        number_of(self.index).wrapping_add(number_of(self.argument) << 16)
    }

    /// The same context, except that each parameter has this argument.
    pub fn under(self, argument: u32) -> Context
        ensures { result ≡ record { index = self.index; detail = self.detail; argument = Some argument } }
    {
        Context {
            argument: Some(argument),
            ..self
        }
    }

    /// The same context, except that each parameter has its own argument.
    pub fn of_its_own(self) -> Context
        ensures { result ≡ record { index = self.index; detail = self.detail; argument = None } }
    {
        Context {
            argument: None,
            ..self
        }
    }
}
