//! What pressed spellings are made of, in any mangling: the bytes of a spelling with the components that it spells out,
//! digits, and the numbers of nodes.
#![tactic(auto)]

mod digits;
mod firsts;
mod numbers;

pub use digits::push_digits;
pub use firsts::{Firsts, Marked, text_mark};
pub use numbers::Numbers;
