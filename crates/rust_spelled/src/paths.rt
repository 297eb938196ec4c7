// The paths of a symbol's name.
#![tactic(auto)]

ghost use Rattle.std.specs.Prelude.{◌≡◌, ◌<◌, ◌≤◌, IfErr, IfOk, IfSome, length, ℕ};
ghost use Rattle.std.specs.List.{All};
ghost use Rattle.sym_core.specs.declared.refusal.Refusal.{Refusal};
ghost use Rattle.rust_spelled.specs.Paths.{first_named, is_named_by, is_shown, parent_by, paths_of, root_of};
ghost use Rattle.rust_spelled.specs.Rows.{production_at};

use crate::rows::{production_at, row_at};
use rust_grammar::production::Production;
use std::alloc::Global;
use sym_core::Refusal;
use sym_room::push_within;
use sym_shape::Row;

/// The least byte that is a lower-case letter.
const LOWER_CASE: u8 = b'a';

/// The parent of a path: the path that it is in or adds arguments to (RFC 2603, `<path>`).
#[tactic(auto, unfolding(crate::specs::Paths::parent_by))]
fn parent_of(rows: &[Row], path: usize) -> Option<usize>
    requires { path < length rows.now }
    ensures { result ≡ parent_by (production_at rows.now path) path }
{
    match production_at(rows, path) {
        Some(Production::Nested) => Some(path + 2),
        Some(Production::Generic) => Some(path + 1),
        _ => None,
    }
}

/// The paths of a symbol's name: the symbol's, its parent, and so on, up to the crate or impl that the name begins with.
///
/// # Errors
///
/// `Memory` where the list couldn't grow.
pub(crate) fn paths_of(alloc: Global, rows: &[Row]) -> Result<Vec<usize>, Refusal>
    ensures paths { IfOk result (λ paths. paths.items ≡ paths_of rows.now) }
    ensures within { IfOk result (λ paths. All (λ path. path < length rows.now) paths.items) }
    ensures refusals { IfErr result (λ refusal. refusal ≡ Refusal.Memory) }
{
    let mut paths = Vec::new(alloc);
    let mut next = Some(1);
    let mut left = rows.len();
    'paths: while left > 0 {
        let Some(path) = next else {
            return Ok(paths);
        };
        if path >= rows.len() {
            return Ok(paths);
        }
        push_within(&mut paths, path)?;
        next = parent_of(rows, path);
        left -= 1;
    }
    Ok(paths)
}

/// The last path.
#[tactic(auto, unfolding(crate::specs::Paths::root_of))]
pub(crate) fn root_of(paths: &[usize]) -> usize
    ensures path { result ≡ root_of paths.now }
    ensures within { (n : ℕ) → All (λ path. path < n) paths.now → result ≤ n }
{
    match paths.last() {
        Some(path) => *path,
        None => 0,
    }
}

/// Whether a path's name is shown: it has bytes, or its namespace isn't a lower-case letter.
#[tactic(auto, unfolding(crate::specs::Paths::is_shown))]
fn is_shown(symbol: &[u8], rows: &[Row], path: usize) -> bool
    requires { path < length rows.now }
    ensures { result ≡ is_shown symbol.now rows.now path }
{
    let namespace = row_at(rows, path + 1).from as usize;
    let letter = match symbol.get(namespace) {
        Some(letter) => *letter,
        None => 0,
    };
    let end = row_at(rows, path).end as usize;
    let name = row_at(rows, end.saturating_sub(1));
    letter < LOWER_CASE || name.from < name.to
}

/// Whether a path adds a name to its parent's text.
#[tactic(auto, unfolding(crate::specs::Paths::is_named_by))]
fn is_named(symbol: &[u8], rows: &[Row], path: usize) -> bool
    requires { path < length rows.now }
    ensures { result ≡ is_named_by (production_at rows.now path) symbol.now rows.now path }
{
    match production_at(rows, path) {
        Some(Production::Nested) => is_shown(symbol, rows, path),
        _ => false,
    }
}

/// The first path that adds a name.
pub(crate) fn first_named(symbol: &[u8], rows: &[Row], paths: &[usize]) -> Option<usize>
    requires { All (λ path. path < length rows.now) paths.now }
    ensures named { result ≡ first_named symbol.now rows.now paths.now }
    ensures within { IfSome result (λ path. path < length rows.now) }
{
    for path in paths {
        if is_named(symbol, rows, *path) {
            return Some(*path);
        }
    }
    None
}
