//! C++ symbols spelled again with each repeated part as a reference, so that symbols of one thing have the same bytes. This crate defines
//! the pressed spelling and says what holds of it; `cpp_press` writes it.
#![tactic(auto)]

mod laws;

pub use laws::{
    components_are_apart, components_are_few, pressed_is_read, pressed_is_short, pressed_once,
    pressed_tells_apart, repeated_components_have_reasons, subtrees_are_read, trees_are_compared,
};
