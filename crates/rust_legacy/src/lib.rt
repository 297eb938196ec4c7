//! Rust's legacy names: which symbols are legacy names, and which path each of them denotes.
#![tactic(auto)]

mod escapes;
mod laws;
mod measure;
pub mod path;
mod text;
mod tokens;

pub use laws::legacy_texts_are_short;
pub use measure::text_length;
pub use path::{PathPlace, is_path, names_of, path_of};
pub use text::push_text;
