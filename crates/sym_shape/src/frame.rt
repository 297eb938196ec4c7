// Rules that are being read.

/// A rule whose symbols are being read: where the next one is in the grammar's list, and the number of the rule's row.
#[derive(Clone, Copy, Debug)]
pub struct Frame {
    pub place: u32,
    pub row: u32,
}
