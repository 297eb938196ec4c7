// The library's example: the text of a symbol, and its line.

ghost use Rattle.sym_core.specs.Number.{FitsSymbol};

use crate::answer::Verdict;
use crate::row::Row;
use example_demangle::{lines, text};
use std::alloc::Global;
use sym_core::Refusal;
use sym_print::Detail;

/// The limit of the example.
const LIMIT: u32 = 1_000_000;

/// The line of a symbol without its newline.
fn line_of(alloc: Global, s: &[u8]) -> Result<Vec<u8>, Refusal> {
    let mut line = lines(alloc, &[s])?;
    line.pop();
    Ok(line)
}

/// Checks the example's text of a Rust symbol that has a text.
pub fn ask_example(verdict: &mut Verdict, row: Row<'_>)
    requires { FitsSymbol row.s.now }
{
    if row.limit > LIMIT {
        return;
    }
    match row.detail {
        Detail::Full => verdict.says(text(verdict.alloc, row.s), row.wanted),
        Detail::Brief => verdict.says(line_of(verdict.alloc, row.s), row.wanted),
        _ => {}
    }
}
