// What is requested for names.
use crate::spelling::Spelling;
use crate::style::Style;
use sym_print::Detail;
use sym_short::Texts;

/// How names are answered.
#[derive(Clone, Copy, Debug, PartialEq, Eq)]
pub struct Options {
    /// The greatest cost of a text.
    pub limit: u32,
    pub detail: Detail,
    pub style: Style,
    /// Which texts of C++ symbols are written.
    pub texts: Texts,
    /// How texts of C++ symbols are spelled.
    pub spelling: Spelling,
    /// Whether the parts of texts are coloured.
    pub colors: bool,
    /// Whether texts are escaped for strings of JSON.
    pub escape: bool,
    /// Whether names are answered by objects of JSON.
    pub json: bool,
    /// Whether names are read as types, too.
    pub types: bool,
    /// Whether the reasons why names stay are written.
    pub why: bool,
    /// Whether the status is 1 where a name stays.
    pub strict: bool,
}
