// The pieces of a symbol that are taken apart later.

use rust_tree::Context;
use sym_print::Item;

/// A piece that is taken apart later. An item comes with the node of its path.
#[derive(Clone, Copy)]
pub(crate) enum Apart {
    /// The path of a name, before this many lists of arguments.
    Name(u32, u32, Item<Context>),
    /// The path that a name is in, before this many lists of arguments.
    Scope(u32, u32, Item<Context>),
    /// The arguments of a list from a given one on, by the numbers of the list and of that
    /// argument.
    Elements(u32, u32, Item<Context>),
}
