// Which bytes of a v0 symbol spell which part of its text.
#![tactic(auto)]

ghost use Rattle.std.specs.Prelude.{◌≡◌, ◌<◌, IfErr, IfOk, length};
ghost use Rattle.std.specs.List.{All};
ghost use Rattle.sym_core.specs.declared.refusal.Refusal.{Refusal};
ghost use Rattle.rust_spelled.specs.Spelling.{spans_of, spelling_of};

use crate::lists::{Lists, lists_of};
use crate::parts::{push_name, push_rest};
use crate::paths::{first_named, paths_of, root_of};
use crate::root::{others, push_root};
use crate::rows::behind;
use std::alloc::Global;
use sym_core::Refusal;
use sym_parts::{Spelled, Spelling};
use sym_shape::Row;

/// The parts that come once in a name with these paths.
///
/// # Errors
///
/// `Memory` where the list couldn't grow.
#[tactic(auto, unfolding(crate::specs::Spelling::spans_of))]
fn spans_of(
    alloc: Global,
    symbol: &[u8],
    rows: &[Row],
    paths: &[usize],
) -> Result<Vec<Spelled>, Refusal>
    requires { All (λ path. path < length rows.now) paths.now }
    ensures spans { IfOk result (λ spans. spans.items ≡ spans_of symbol.now rows.now paths.now) }
    ensures refusals { IfErr result (λ refusal. refusal ≡ Refusal.Memory) }
{
    let mut spans = Vec::new(alloc);
    push_name(&mut spans, rows, first_named(symbol, rows, paths))?;
    push_root(&mut spans, rows, root_of(paths))?;
    push_rest(&mut spans, rows, behind(rows, 1))?;
    Ok(spans)
}

/// Which bytes of a v0 symbol spell which part of its text, by the rows of its shape: places count from the symbol's first byte.
///
/// A name's scope is its parent, and its base is what follows the parent (RFC 2603, `<path>`). A path that shows no name is passed over:
/// its parent is the name's path. Lists of generic arguments are in the order of the symbol's `I`s, and so are their arguments. The crate
/// that an instantiation is in (`<instantiating-crate>`) is among the parts, but isn't in the text.
///
/// # Errors
///
/// `Memory` where a list couldn't grow, or would have 2^32 elements.
#[tactic(auto, unfolding(crate::specs::Spelling::spelling_of))]
pub fn spelling(alloc: Global, symbol: &[u8], rows: &[Row]) -> Result<Spelling, Refusal>
    ensures spelling { IfOk result (λ spelling. spelling ≡ spelling_of symbol.now rows.now) }
    ensures refusals { IfErr result (λ refusal. refusal ≡ Refusal.Memory) }
{
    let paths = paths_of(alloc, rows)?;
    let spans = spans_of(alloc, symbol, rows, &paths)?;
    let found = lists_of(alloc, rows, &paths)?;
    let Lists {
        lists,
        items,
        elements,
    } = found;
    Ok(Spelling {
        others: others(rows, root_of(&paths)),
        spans,
        specials: Vec::new(alloc),
        tags: Vec::new(alloc),
        argument_lists: lists,
        arguments: items,
        parameters: Vec::new(alloc),
        elements,
    })
}
