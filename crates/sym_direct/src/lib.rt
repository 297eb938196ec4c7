//! What both short ways rest on: what a symbol's open rules still need while the symbol is read from left to right, in
//! any language, and lists that grow up to a bound.
#![tactic(auto)]

mod bounded;
mod bytes;

pub use bounded::{Bounded, CLOSES, OPENS};
pub use bytes::byte_at;
