//! Which node each back reference of a Rust symbol names: the node that ended at the named place, if it needs no more lifetimes than are
//! bound (RFC 2603).
#![tactic(auto)]

pub mod named;
pub mod targets;
