// The lists of a writer.

use crate::open::{Note, Open};
use sym_direct::Bounded;

/// The lists of a writer, used for one text after another.
#[derive(Drop)]
pub struct Direct {
    pub(crate) text: Bounded<u8>,
    pub(crate) aside: Bounded<u8>,
    pub(crate) is_aside: bool,
    pub(crate) notes: Bounded<Note>,
    pub(crate) numbers: Vec<u16>,
    pub(crate) waiting: Bounded<Open>,
    pub(crate) at: usize,
}
