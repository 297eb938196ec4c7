// The counts of a symbol that is read.

/// How much work reading a symbol was: the rows of its shape, the nodes of the table in which its parts are shared, and the
/// counted steps of the reader and the linker.
#[derive(Clone, Copy, Debug, PartialEq, Eq)]
pub struct Counts {
    pub rows: u32,
    pub nodes: u32,
    pub steps: u32,
}
