//! The demangler over C++ and Rust, the demanglers before it for legacy Rust names and for pressed spellings, and the filter over it.
#![tactic(auto)]

mod alike;
mod counted;
mod filtering;
pub mod languages;
mod laws;
pub mod legacy;
pub mod pressing;

pub use filtering::{filter, filter_as};
pub use itanium::{Abi, Wide};
pub use languages::Languages;
pub use laws::{pressed_is_short, reading_is_pressed};
pub use legacy::{Legacy, may_be_legacy};
pub use pressing::{Pressing, WidePressing};
