//! What the program `demangle` writes for names, with any demangler: the names' lines, the texts of types, texts within strings of JSON,
//! the manglings that a style reads, and the statuses.
#![tactic(auto)]

mod coloring;
mod escaping;
mod names;
mod options;
mod reasons;
mod sayings;
mod spelling;
mod status;
mod style;

pub use coloring::{Coloring, coloring_of};
pub use escaping::{
    escaped_reads_back, escaped_stays_within, push_escaped, replaced_keeps_strings,
};
pub use names::answer_names;
pub use options::Options;
pub use reasons::Reasons;
pub use sayings::{Said, Says, WordReport};
pub use spelling::{Spelling, spelling_of};
pub use status::{DONE, status_of};
pub use style::{Style, style_of};
