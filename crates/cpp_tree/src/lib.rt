//! What a C++ symbol denotes: its nodes, which share parts; what is noted of the nodes' trees; and the view of each node, which is a
//! production, numbers, texts and parts.
#![tactic(auto)]

mod compact;
mod elements;
mod heads;
mod laws;
pub mod node;
pub mod nodes;
mod notes;
pub mod tree_production;
pub mod view;
mod words;

pub use laws::{
    equal_trees_have_equal_views, fields_make_the_tree, open_trees_have_free_parameters,
};
pub use nodes::Nodes;
pub use view::Node;
