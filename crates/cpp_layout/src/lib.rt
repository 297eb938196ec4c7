//! How C++ symbols are shown: their nodes as items, and the parts of these items.
#![tactic(auto)]

mod arguments;
mod codes;
pub mod context;
mod declared;
mod encodings;
mod form;
mod left;
mod lists;
mod names;
mod numbered;
mod operation_rows;
mod parts;
mod print;
mod printed;
mod qualified;
mod right;
mod runs;
mod symbol;
mod texts;
mod types;

pub use codes::{
    abbreviation_text, builtin_text, builtin_with_d_text, ending_text, is_angle_code,
    operator_text, special_text,
};
pub use context::Context;
pub use cpp_tree::node::{Adjustment, Signed, Thunk};
pub use cpp_tree::{Node, equal_trees_have_equal_views, fields_make_the_tree, tree_production};
pub use names::name_text;
pub use numbered::special_front;
pub use sym_print::Detail;
pub use symbol::Symbol;
