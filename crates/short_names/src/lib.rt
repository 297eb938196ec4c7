//! Texts of C++ names without what the library's templates have by default, and with the usual names of their instances.
#![tactic(auto)]

mod closing;
mod elements;
mod finding;
mod inlines;
mod laws;
mod names;
mod patterns;
mod runs;
mod short;
mod table;
mod writing;

pub use laws::{
    alike_texts_are_alike, short_texts_are_no_longer, texts_without_rows_stay,
    texts_without_std_stay,
};
pub use runs::{has_std, is_letter};
pub use short::Short;
