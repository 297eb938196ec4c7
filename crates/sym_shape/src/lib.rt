//! A pushdown parser for any LL(1) grammar over bytes.
//!
//! A grammar is a table of rules (`Grammar`). The reader takes a symbol's bytes whole (`read`) or in pieces (`Reader`). It answers a row
//! for each rule, chain and token of the one tree that spells them (`Shape`), or their first bad byte. It keeps a list of the rules that
//! are being read and never recurses; its steps and rows are bounded by the bytes.
#![tactic(auto)]

mod choosing;
mod frame;
pub mod grammar;
pub mod laws;
mod listing;
mod parse;
pub mod reader;
pub mod rule;
pub mod shape;
pub mod sheet;

pub use choosing::choose;
pub use grammar::Grammar;
pub use laws::{
    change_is_found_behind, each_is_decided, front_is_cut_off, grown_keeps, one_bad_byte, one_tree,
};
pub use listing::{END, letter_in, place_of, symbol_at, symbols_from};
pub use reader::Reader;
pub use rule::{Row, Rule, Sym, TOKEN};
pub use shape::{Shape, read, read_into};
pub use sheet::{ByteRange, Choice};
