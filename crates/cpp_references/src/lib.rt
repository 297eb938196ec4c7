//! What substitutions and template parameters name at their places in a C++ symbol, over the symbol's nodes: the candidates of
//! substitutions (ABI 5.1.10), the arguments of a scope (ABI 5.1.4), and the lengths of packs under an expansion.
#![tactic(auto)]

pub mod again;
pub mod around;
pub mod candidates;
pub mod elsewhere;
pub mod packs;
pub mod parameters;
