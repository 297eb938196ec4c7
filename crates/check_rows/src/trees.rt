// The trees of a symbol's nodes: the tree of each node is put together from those of its parts.

ghost use Rattle.std.specs.Prelude.{◌+◌, ◌<◌, ◌≤◌, length};
ghost use Rattle.sym_core.specs.declared.TheConstants.{MOST_BYTES};
ghost use Rattle.sym_core.specs.Number.{FitsSymbol};
ghost use Rattle.cpp_tree.specs.Nodes.{IsAdjustmentWithin, IsWithin};
ghost use Rattle.cpp_tree.specs.Views.{IsKnownThunk};

use crate::answer::Verdict;
use crate::row::Row;
use itanium::{Adjustment, Signed, Thunk};
use std::alloc::{AllocError, Global};
use sym_core::{Refusal, fits};
use sym_filter::Lang;

/// Appends bytes in square brackets, if there are any.
fn push_text(text: &[u8], tree: &mut Vec<u8>) -> Result<(), AllocError> {
    if text.is_empty() {
        return Ok(());
    }
    tree.push(b'[')?;
    tree.extend_from_slice(text)?;
    tree.push(b']')?;
    Ok(())
}

/// Appends a node before its parts: its production, its numbers unless both are 0, and its texts.
fn push_node(
    alloc: Global,
    production: u16,
    numbers: [u64; 2],
    texts: [&[u8]; 2],
    tree: &mut Vec<u8>,
) -> Result<(), AllocError> {
    let [first, second] = numbers;
    let head = if first == 0 && second == 0 {
        format!(in alloc; "{production}")?
    } else {
        format!(in alloc; "{production}:{first},{second}")?
    };
    tree.extend_from_slice(head.as_bytes())?;
    for text in texts {
        push_text(text, tree)?;
    }
    Ok(())
}

/// Appends the tree of a node's part, found by its number in `trees`, at the part's place among the
/// parts.
fn push_part(
    trees: &[Vec<u8>],
    part: u32,
    place: u32,
    tree: &mut Vec<u8>,
) -> Result<(), AllocError> {
    tree.push(if place == 0 { b'(' } else { b' ' })?;
    if let Some(part) = trees.get(part as usize) {
        tree.extend_from_slice(part)?;
    }
    Ok(())
}

/// Ends a node of this many parts.
fn end_node(parts: u32, tree: &mut Vec<u8>) -> Result<(), AllocError> {
    if parts == 0 {
        return Ok(());
    }
    tree.push(b')')?;
    Ok(())
}

/// The tree with this number, or nothing.
fn tree_at(alloc: Global, trees: &[Vec<u8>], number: u32) -> Result<Vec<u8>, AllocError> {
    match trees.get(number as usize) {
        Some(tree) => Vec::from_slice(alloc, tree),
        None => Ok(Vec::new(alloc)),
    }
}

/// Appends an offset, after a minus if it is negative.
fn push_offset(
    symbol: &itanium::Symbol,
    offset: Signed,
    tree: &mut Vec<u8>,
) -> Result<(), AllocError>
    requires { IsWithin offset.digits symbol.now.bytes }
{
    if offset.negative {
        tree.push(b'-')?;
    }
    tree.extend_from_slice(symbol.bytes_of(offset.digits))
}

/// Appends the offsets that adjust a pointer, in braces.
fn push_adjustment(
    symbol: &itanium::Symbol,
    adjustment: Adjustment,
    tree: &mut Vec<u8>,
) -> Result<(), AllocError>
    requires { IsAdjustmentWithin symbol.now.bytes adjustment }
{
    tree.push(b'{')?;
    match adjustment {
        Adjustment::NonVirtual(offset) => push_offset(symbol, offset, tree)?,
        Adjustment::ByTable(first, second) => {
            push_offset(symbol, first, tree)?;
            tree.push(b',')?;
            push_offset(symbol, second, tree)?;
        }
    }
    tree.push(b'}')?;
    Ok(())
}

/// Appends what a thunk adjusts.
fn push_offsets(
    symbol: &itanium::Symbol,
    thunk: Option<Thunk>,
    tree: &mut Vec<u8>,
) -> Result<(), AllocError>
    requires { IsKnownThunk symbol.now.bytes thunk }
{
    match thunk {
        None => Ok(()),
        Some(Thunk::Adjusting(object)) => push_adjustment(symbol, object, tree),
        Some(Thunk::Covariant(object, returned)) => {
            push_adjustment(symbol, object, tree)?;
            push_adjustment(symbol, returned, tree)
        }
    }
}

/// Appends the tree of a node of a C++ symbol to those of the nodes before it.
fn push_cpp_tree(
    alloc: Global,
    symbol: &itanium::Symbol,
    node: u32,
    trees: &mut Vec<Vec<u8>>,
) -> Result<(), AllocError>
    requires { node < length symbol.now.table.nodes }
{
    let view = symbol.node(node);
    let [first, second] = view.texts;
    let texts = [symbol.bytes_of(first), symbol.bytes_of(second)];
    let mut tree = Vec::new(alloc);
    push_node(alloc, view.production, view.numbers, texts, &mut tree)?;
    push_offsets(symbol, symbol.call_offsets(node), &mut tree)?;
    for place in 0..view.parts {
        push_part(trees, symbol.part(node, place), place, &mut tree)?;
    }
    end_node(view.parts, &mut tree)?;
    trees.push(tree)?;
    Ok(())
}

/// The tree of a C++ symbol.
fn cpp_tree(alloc: Global, s: &[u8]) -> Result<Vec<u8>, Refusal>
    requires { FitsSymbol s.now }
{
    let symbol = itanium::read(alloc, s)?;
    let mut trees = Vec::new(alloc);
    for node in 0..symbol.counts().nodes {
        push_cpp_tree(alloc, &symbol, node, &mut trees)?;
    }
    Ok(tree_at(alloc, &trees, symbol.root_node())?)
}

/// Appends the tree of a node of a Rust symbol to those of the nodes before it.
fn push_rust_tree(
    alloc: Global,
    symbol: &rust_v0::Symbol,
    node: u32,
    trees: &mut Vec<Vec<u8>>,
) -> Result<(), AllocError>
    requires { node < length symbol.now.table.nodes }
{
    let view = symbol.node(node);
    let [first, second] = view.texts;
    let texts = [symbol.bytes_of(first), symbol.bytes_of(second)];
    let mut tree = Vec::new(alloc);
    push_node(alloc, view.production, view.numbers, texts, &mut tree)?;
    for place in 0..view.parts {
        push_part(trees, symbol.part(node, place), place, &mut tree)?;
    }
    end_node(view.parts, &mut tree)?;
    trees.push(tree)?;
    Ok(())
}

/// The tree of a Rust symbol.
fn rust_tree(alloc: Global, symbol: &rust_v0::Symbol) -> Result<Vec<u8>, AllocError> {
    let mut trees = Vec::new(alloc);
    for node in 0..symbol.counts().nodes {
        push_rust_tree(alloc, symbol, node, &mut trees)?;
    }
    tree_at(alloc, &trees, symbol.root_node())
}

/// The tree of a Rust symbol that is read whole.
fn tree_of_whole(alloc: Global, s: &[u8]) -> Result<Vec<u8>, Refusal>
    requires { FitsSymbol s.now }
{
    let symbol = rust_v0::read(alloc, s)?;
    Ok(rust_tree(alloc, &symbol)?)
}

/// The tree of a Rust symbol that comes in two pieces, as the library's example reads it.
fn tree_of_pieces(alloc: Global, first: &[u8], second: &[u8]) -> Result<Vec<u8>, Refusal>
    requires some { 0 < length first.now }
    requires more { 0 < length second.now }
    requires room { length first.now + length second.now ≤ MOST_BYTES }
{
    let symbol = example_demangle::in_pieces(alloc, first, second)?;
    Ok(rust_tree(alloc, &symbol)?)
}

/// Checks a symbol's tree, in which each node has the trees of its parts; or checks the reason why the symbol isn't read.
pub fn ask_tree(verdict: &mut Verdict, row: Row<'_>) {
    let Row { s, wanted, .. } = row;
    if !fits(s) || s.len() < 2 {
        verdict.require(false);
        return;
    }
    let alloc = verdict.alloc;
    match row.kind.lang {
        Lang::Cpp => verdict.says(cpp_tree(alloc, s), wanted),
        Lang::Rust => {
            verdict.says(tree_of_whole(alloc, s), wanted);
            let (first, second) = s.split_at(s.len() / 2);
            verdict.says(tree_of_pieces(alloc, first, second), wanted);
        }
    }
}
