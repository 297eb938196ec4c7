// The context that an item carries in addition to its node.

use sym_print::Detail;

/// How many lifetimes are bound around an item, and how much of it is shown.
#[derive(Clone, Copy, Debug, PartialEq, Eq)]
pub struct Context {
    pub bound: u64,
    pub detail: Detail,
}
