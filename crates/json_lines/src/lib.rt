//! Lines of JSON that say what mangled names are: an object for each name, and for each word of a text that names a symbol.
#![tactic(auto)]

mod lines;
mod meanings;
mod names;
mod parts;
mod strings;
mod texts;
mod unanswered;

pub use lines::{lines_are_objects, strings_are_escaped};
pub use meanings::Meaning;
pub use names::answer_objects;
pub use text_details::Mangling;
pub use texts::{Objects, tell_objects};
