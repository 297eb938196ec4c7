// Which bytes of a legacy name spell which part of its text.
#![tactic(auto)]

ghost use Rattle.std.specs.Prelude.{◌≡◌, ◌+◌, ◌<◌, ◌≤◌, ◌^◌, ◌++◌, ◌∷◌, [], List, ℕ, Some, IfErr, IfOk, OnOk, length};
ghost use Rattle.sym_core.specs.Number.{FitsSymbol};
ghost use Rattle.sym_core.specs.declared.refusal.Refusal.{Refusal};
ghost use Rattle.rust_legacy.specs.Path.{AreNames, IsPlaced, Path, legacy_of};
ghost use Rattle.legacy_parts.specs.Spelled.{last_at, size_at, spelled, spelling_of_path};

use rust_legacy::PathPlace;
use rust_legacy::path::name_at;
use std::alloc::Global;
use sym_core::Refusal;
use sym_parts::{Role, Span, Spelled, Spelling};
use sym_room::push_within;

/// How many bytes `_ZN` has; the first name comes after them.
const FIRST: usize = 3;

/// How many bytes the name at a place takes, with its length.
#[tactic(auto, unfolding(crate::specs::Spelled::size_at))]
fn size_at(symbol: &[u8], at: usize) -> usize
    requires { at ≤ length symbol.now }
    ensures size { result ≡ size_at symbol.now at }
    ensures within { at + result ≤ length symbol.now }
{
    match name_at(symbol, at) {
        Some(name) => name.to - at,
        None => 0,
    }
}

/// Where the last name of a path begins. The names end at the length of the path's hash.
fn last_at(symbol: &[u8], hash: usize) -> usize
    requires within { hash ≤ length symbol.now }
    requires names { (names : List (List ℕ)) × AreNames symbol.now 3 hash names }
    ensures within { result ≤ hash }
    ensures last { (names : List (List ℕ)) → AreNames symbol.now 3 hash names → result ≡ last_at symbol.now 3 names }
{
    let mut last = FIRST;
    let mut at = FIRST;
    'names: while at < hash {
        last = at;
        at += size_at(symbol, at);
    }
    last
}

/// Adds a part.
///
/// # Errors
///
/// `Memory`.
fn push_part(parts: &mut Vec<Spelled>, role: Role, from: usize, to: usize) -> Result<(), Refusal>
    requires from { from < 2 ^ 32 }
    requires to { to < 2 ^ 32 }
    ensures parts { OnOk result (parts.new.items ≡ parts.old.items ++ spelled role from to ∷ []) }
    ensures refusals { IfErr result (λ refusal. refusal ≡ Refusal.Memory) }
{
    let span = Span {
        from: from as u32,
        to: to as u32,
    };
    push_within(parts, Spelled { role, span })?;
    Ok(())
}

/// Which bytes spell the parts of a legacy name's text. The name's path is at a place that `path_of` found.
///
/// # Errors
///
/// `Memory` where the list couldn't grow.
pub(crate) fn spelling_in(
    alloc: Global,
    symbol: &[u8],
    place: PathPlace,
) -> Result<Spelling, Refusal>
    requires placed { IsPlaced symbol.now place }
    requires fits { FitsSymbol symbol.now }
    ensures spelling { (path : Path) → legacy_of symbol.now ≡ Some path → IfOk result (λ spelling. spelling ≡ spelling_of_path symbol.now path) }
    ensures refusals { IfErr result (λ refusal. refusal ≡ Refusal.Memory) }
{
    let first = FIRST + size_at(symbol, FIRST);
    let last = last_at(symbol, place.hash);
    let mut spans = Vec::new(alloc);
    push_part(&mut spans, Role::Scope, FIRST, last)?;
    push_part(&mut spans, Role::Crate, FIRST, first)?;
    push_part(&mut spans, Role::Impl, FIRST, first)?;
    push_part(&mut spans, Role::Base, last, place.hash)?;
    push_part(&mut spans, Role::Suffix, place.end, symbol.len())?;
    push_part(&mut spans, Role::Hash, place.hash, place.end - 1)?;
    Ok(Spelling {
        others: Span {
            from: FIRST as u32,
            to: place.hash as u32,
        },
        spans,
        specials: Vec::new(alloc),
        tags: Vec::new(alloc),
        argument_lists: Vec::new(alloc),
        arguments: Vec::new(alloc),
        parameters: Vec::new(alloc),
        elements: Vec::new(alloc),
    })
}
