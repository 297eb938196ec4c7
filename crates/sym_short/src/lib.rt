//! A demangler in front of another, which rewrites its texts, and what makes texts of C++ symbols short or spells them as GNU's demangler does.
#![tactic(auto)]

mod cpp;
mod gnu;
mod rewriting;
mod shortening;
mod texts;

pub use gnu::Gnu;
pub use rewriting::{Rewrites, Rewriting, RewritingLists};
pub use shortening::Shortening;
pub use texts::{Texts, texts_of};
