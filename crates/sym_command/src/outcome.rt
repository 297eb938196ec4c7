// What a command line requests of the program.
use crate::options::Asked;
use sym_filter::Letters;
use sym_print::Detail;
use sym_short::Texts;

/// What the program has to do: end with a status, or filter standard input.
#[derive(Clone, Copy, Debug, PartialEq, Eq)]
pub enum Run {
    Done(u8),
    Filter(Filtering),
}

/// How standard input is filtered: what replaces each symbol in it, and whether legacy Rust names have the texts of
/// their paths.
#[derive(Clone, Copy, Debug, PartialEq, Eq)]
pub struct Filtering {
    pub limit: u32,
    pub detail: Detail,
    pub texts: Texts,
    pub letters: Letters,
    pub asked: Asked,
    pub legacy: bool,
}
