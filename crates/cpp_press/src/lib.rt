//! The pressed spelling of a C++ symbol: the symbol's tree is written again, and each repeated component is a reference to the first one.
#![tactic(auto)]

mod components;
mod details;
mod numbering;
mod pressing;

pub use numbering::{have_one_tree, numbers};
pub use pressing::press_cpp;
