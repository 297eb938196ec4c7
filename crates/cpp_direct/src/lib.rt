//! The text of a C++ symbol, written while its bytes are read.
//!
//! Symbols of common parts are read this way, by either grammar: functions and variables, classes, template arguments and types. What is
//! left to the general way is listed in docs/ARCHITECTURE.md ("The short ways"). A symbol with any of that is given up, and is read by its
//! grammar: no answer depends on this crate. The crate writes a text step by step; `itanium` (`short_way`) takes the steps, within the
//! bounds that `itanium` sets.
#![tactic(auto)]

mod addresses;
mod arrays;
mod clones;
mod constructions;
mod direct;
mod enclosing;
mod functions;
mod grammar;
mod guards;
mod known;
mod lambdas;
mod letters;
mod levels;
mod lists;
mod locals;
mod marks;
mod member_functions;
mod names;
mod nested;
mod open;
mod parameters;
mod symbols;
mod thunks;
mod tokens;
mod types;
mod unscoped;
mod writing;

pub use direct::Direct;
pub use grammar::{Grammar, Shown};
pub use names::are_name_bytes;
pub use open::Step;
