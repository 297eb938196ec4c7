//! What a Rust symbol denotes: its nodes, which share their parts, and how they are shown.
#![tactic(auto)]

mod basic_types;
mod bounds;
mod constants;
pub mod context;
pub mod form;
mod laws;
mod layout;
mod lists;
pub mod node;
pub mod nodes;
mod paths;
mod push;
mod symbol;
mod texts;
pub mod tree_production;
mod types;
mod view;

pub use context::Context;
pub use laws::{equal_trees_have_equal_views, fields_make_the_tree};
pub use nodes::Nodes;
pub use sym_print::Detail;
pub use symbol::Symbol;
pub use view::Node;
