//! Which bytes of a C++ symbol spell which part of its text, by the rows of its shape.
#![tactic(auto)]

mod lists;
mod names;
mod outline;
mod sort;
mod sorts;
mod sought;
mod spelled;

pub use spelled::spelling;
