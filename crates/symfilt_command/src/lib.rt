//! The program symfilt: a command line over words, an input and outputs, and its status.
#![tactic(auto)]

mod command;
mod process;

pub use command::{filter_asked, run, run_over, run_to};
pub use process::program;
