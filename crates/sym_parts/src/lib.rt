//! The parts of a text: the stretches of a name's text that are its scope, its arguments, its parameters and so on.
#![tactic(auto)]

mod bytes;
mod kind;
mod laws;
mod lengths;
mod part;
mod plain;
mod role;
mod spelling;
mod split;
mod stretch;
mod stretches;
mod task;

pub use bytes::with_bytes;
pub use kind::NameKind;
pub use laws::{
    bytes_are_within, marks_list_the_stretches, parts_are_placed, parts_are_stretches,
    stretches_are_few, stretches_are_placed, unprinted_parts_are_last,
};
pub use lengths::{length_of, length_of_all, length_of_part};
pub use part::Part;
pub use plain::{push_alone, push_plain, push_whole};
pub use role::Role;
pub use spelling::{Item, ONLY, Ordinal, Span, Spelled, Spelling};
pub use split::{Split, first_of};
pub use stretch::Stretch;
pub use stretches::Stretches;
pub use task::{Task, Tasks};
