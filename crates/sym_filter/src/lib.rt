//! Which words of a text are mangled symbols, and the text with each of them replaced by what a demangler gives for it.
#![tactic(auto)]

pub mod demangler;
pub mod escapes;
mod filtering;
pub mod kinds;
mod lanes;
mod laws;
mod marks;
pub mod places;
mod prompt;
pub mod reports;
pub mod standard;
pub mod streams;
mod tries;
pub mod words;

pub use demangler::{Demangled, Demangler};
pub use filtering::{filter_promptly, filter_telling, filter_with, filter_words};
pub use kinds::{Kind, Lang, Letters, kind_of};
pub use laws::{filtered_by_joins, filtered_by_splits, replaced_alike, tries_decide};
pub use prompt::PromptSource;
pub use reports::{Quiet, Report};
pub use standard::{ListSink, ReaderSource, WriterSink};
pub use streams::{FilterFault, Sink, Source, write_all, write_out};
pub use words::Tally;
