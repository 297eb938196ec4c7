//! Texts of C++ names as GNU's demangler, which is that of `c++filt`, spells them.
#![tactic(auto)]

mod clones;
mod laws;
mod names;
mod piece;
mod spelling;

pub use laws::{spelled_texts_are_bounded, spelled_texts_keep_bytes};
pub use spelling::append_spelled;
