//! The reading of C++ symbols by which the short way goes, and that it says what the grammars say.
#![tactic(auto)]

mod laws;

pub use laws::short_readings_stay;
