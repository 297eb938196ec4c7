//! A counted printer over any layout: it prints an item's text if the text costs at most a limit.
#![tactic(auto)]

mod detail;
mod entries;
mod layout;
mod meter;
mod notes;
mod part_list;
mod printer;
mod sharing;

pub use detail::Detail;
pub use layout::{Item, Layout, Part, Run};
pub use part_list::{PartList, push_reversed};
pub use printer::{Printer, print};
