//! What the programs' command lines consist of: options and what these request, the lines of each word, complaints and statuses.
#![tactic(auto)]

mod command;
mod lines;
mod options;
mod outcome;
mod page;
mod process;

pub use command::{ANSWERED, FAULT, WRONG_USE, answer_words, refuse_with};
pub use lines::reason;
pub use options::{
    Asked, Options, detail_of, filtering_of, flag, found_in, has_flag, limit, limit_of, options_of,
    symbols_of, with_flag, with_short,
};
pub use outcome::{Filtering, Run};
pub use process::{called_with, fault};
