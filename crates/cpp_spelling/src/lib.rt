//! How each tree of a C++ symbol is spelled, as texts and trees in order, which are its tasks; and which bytes each text has.
#![tactic(auto)]

pub mod names;
pub mod steps;
pub mod stored;
pub mod task;
pub mod texts;
pub mod types;
