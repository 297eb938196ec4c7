// The lists of a name's generic arguments.
#![tactic(auto)]

ghost use Rattle.std.specs.Prelude.{◌≡◌, ◌<◌, ◌++◌, ◌∷◌, [], IfErr, IfOk, OnOk, length, map};
ghost use Rattle.std.specs.List.{All, flat_map};
ghost use Rattle.sym_core.specs.declared.refusal.Refusal.{Refusal};
ghost use Rattle.rust_spelled.specs.Arguments.{arguments_of, generics, is_generic, item_of, items_of, list_of};
ghost use Rattle.rust_spelled.specs.Rows.{production_at};

use crate::arguments::push_arguments;
use crate::rows::{behind, production_at, row_at, span, span_at};
use rust_grammar::production::Production;
use std::alloc::Global;
use sym_core::Refusal;
use sym_parts::{Item, Span};
use sym_room::push_within;
use sym_shape::Row;

/// Lists of arguments: the bytes and the item of each list, and the arguments of all lists.
#[derive(Drop)]
pub(crate) struct Lists {
    pub(crate) lists: Vec<Span>,
    pub(crate) items: Vec<Item>,
    pub(crate) elements: Vec<Span>,
}

/// Whether a path has arguments.
#[tactic(auto, unfolding(crate::specs::Arguments::is_generic))]
fn is_generic(rows: &[Row], path: usize) -> bool
    ensures { result ≡ is_generic (production_at rows.now path) }
{
    match production_at(rows, path) {
        Some(Production::Generic) => true,
        _ => false,
    }
}

/// The list of a generic path's arguments. An empty list is where the path ends.
#[tactic(auto, unfolding(crate::specs::Arguments::list_of))]
fn list_of(rows: &[Row], path: usize) -> Span
    requires { path < length rows.now }
    ensures { result ≡ list_of rows.now path }
{
    let first = behind(rows, path + 1);
    let row = row_at(rows, path);
    if first < row.end as usize {
        return span_at(rows, first);
    }
    span(row.to, row.to)
}

/// The number of elements of a list.
///
/// # Errors
///
/// `Memory` where the list has 2^32 elements or more.
fn count_of(elements: &[Span]) -> Result<u32, Refusal>
    ensures count { IfOk result (λ count. count ≡ length elements.now) }
    ensures refusals { IfErr result (λ refusal. refusal ≡ Refusal.Memory) }
{
    let count = elements.len();
    if count > u32::MAX as usize {
        return Err(Refusal::Memory);
    }
    Ok(count as u32)
}

/// Adds the list of a generic path with its arguments.
///
/// # Errors
///
/// `Memory` where a list couldn't grow, or would have 2^32 elements.
fn push_list(found: &mut Lists, rows: &[Row], path: usize) -> Result<(), Refusal>
    requires { path < length rows.now }
    ensures lists { OnOk result (found.new.lists.items ≡ found.old.lists.items ++ list_of rows.now path ∷ []) }
    ensures items { OnOk result (found.new.items.items ≡ found.old.items.items ++ item_of rows.now (length found.old.elements.items) path ∷ []) }
    ensures elements { OnOk result (found.new.elements.items ≡ found.old.elements.items ++ arguments_of rows.now path) }
    ensures refusals { IfErr result (λ refusal. refusal ≡ Refusal.Memory) }
{
    let span = list_of(rows, path);
    let first = count_of(&found.elements)?;
    push_arguments(&mut found.elements, rows, path)?;
    let count = count_of(&found.elements)? - first;
    push_within(&mut found.lists, span)?;
    push_within(&mut found.items, Item { span, first, count })?;
    Ok(())
}

/// The lists of those paths that have arguments.
///
/// # Errors
///
/// `Memory` where a list couldn't grow, or would have 2^32 elements.
pub(crate) fn lists_of(alloc: Global, rows: &[Row], paths: &[usize]) -> Result<Lists, Refusal>
    requires { All (λ path. path < length rows.now) paths.now }
    ensures lists { IfOk result (λ found. found.lists.items ≡ map (list_of rows.now) (generics rows.now paths.now)) }
    ensures items { IfOk result (λ found. found.items.items ≡ items_of rows.now 0 (generics rows.now paths.now)) }
    ensures elements { IfOk result (λ found. found.elements.items ≡ flat_map (arguments_of rows.now) (generics rows.now paths.now)) }
    ensures refusals { IfErr result (λ refusal. refusal ≡ Refusal.Memory) }
{
    let mut found = Lists {
        lists: Vec::new(alloc),
        items: Vec::new(alloc),
        elements: Vec::new(alloc),
    };
    for path in paths {
        if !is_generic(rows, *path) {
            continue;
        }
        push_list(&mut found, rows, *path)?;
    }
    Ok(found)
}
