//! The text of a Rust symbol, written while its bytes are read.
//!
//! Symbols made of common parts are read this way: paths, impls, closures, and types that bind no lifetime. docs/ARCHITECTURE.md ("The
//! short ways") lists what is left to the general way. A symbol with any of these is given up, and is read by its grammar. No answer
//! depends on this crate: `rust_short_way` takes its steps, and `rust_v0` may leave it out.
#![tactic(auto)]

mod arguments;
mod bounds;
mod constants;
mod direct;
mod hashes;
mod impls;
mod inner;
mod lanes;
mod names;
mod open;
mod paths;
mod showing;
mod specials;
mod symbols;
mod tokens;
mod traits;
mod tuples;
mod types;
mod values;
mod wraps;
mod writing;

pub use direct::Direct;
pub use open::Step;
pub use showing::{Brief, Showing, Whole};
