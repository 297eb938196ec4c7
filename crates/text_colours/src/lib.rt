//! Texts of names in which a terminal shows the parts in different styles: the name itself is bold, arguments and parameters are dim.
#![tactic(auto)]

mod coloring;
mod laws;
mod rewriting;
mod styles;

pub use coloring::colored;
pub use laws::{colors_are_those_of_marks, colors_change_no_text};
pub use rewriting::Coloring;
