// Which bytes of a C++ symbol spell which part of its text.
#![tactic(auto)]

ghost use Rattle.std.specs.Prelude.{◌≡◌, ℕ, IfErr, IfOk};
ghost use Rattle.std.specs.List.{All};
ghost use Rattle.sym_core.specs.declared.refusal.Refusal.{Refusal};
ghost use Rattle.sym_parts.specs.Within.{IsWithin};
ghost use Rattle.cpp_spelled.specs.Spelled.{spelling_of};
ghost use Rattle.cpp_spelled.specs.Within.{IsRowWithin};

use crate::lists::{all_alone, arguments_in, bytes_of_all, words_in};
use crate::names::{base_in, object_in, once_in, without_return};
use crate::outline::{from_first, from_last, outline_of};
use crate::sought::{ARGUMENT_LIST, COMPONENT, ELEMENT, OBJECT, PARAMETER, TAG};
use std::alloc::Global;
use sym_core::Refusal;
use sym_parts::Spelling;
use sym_shape::Row;

/// What spells each part of a symbol's text, by the symbol's rows.
///
/// # Errors
///
/// `Memory`.
#[tactic(auto, unfolding(crate::specs::Spelled::spelling_in, crate::specs::Spelled::rest_of))]
fn by_outline(alloc: Global, rows: &[Row], returns: bool) -> Result<Spelling, Refusal>
    ensures spelling { IfOk result (λ found. found ≡ spelling_of rows.now returns) }
    ensures refusals { IfErr result (λ refusal. refusal ≡ Refusal.Memory) }
{
    let outline = outline_of(alloc, rows)?;
    let name = from_last(COMPONENT, &outline);
    let rest = match name {
        [_, rest @ ..] => rest,
        _ => name,
    };
    let others = base_in(&outline, name);
    let types = bytes_of_all(alloc, PARAMETER, &outline)?;
    let object = object_in(from_first(OBJECT, &outline));
    let mut tags = bytes_of_all(alloc, TAG, rest)?;
    tags.reverse();
    Ok(Spelling {
        others,
        spans: once_in(alloc, &outline, name, others, &types, returns)?,
        specials: words_in(alloc, object.from, &outline)?,
        tags,
        argument_lists: bytes_of_all(alloc, ARGUMENT_LIST, rest)?,
        arguments: arguments_in(alloc, rest)?,
        parameters: all_alone(alloc, without_return(returns, &types))?,
        elements: bytes_of_all(alloc, ELEMENT, rest)?,
    })
}

/// What spells each part of a symbol's text, by the symbol's rows under the grammar of the ABI or under the wide one. `returns` says
/// whether the function has a return type. Rows don't show this for a name that ends in a substitution and `<template-args>`.
///
/// The base is the last component without its tags and arguments. The scope is what precedes it: from the first component of the
/// `<nested-name>` on, or from the `<encoding>` that a `<local-name>` is in. A `<substitution>` that is a whole name is both scope and
/// base. The arguments are the `<template-arg>`s. The parameters are the `<type>`s of the `<bare-function-type>`, including a lone `v`,
/// which spells no part of the text. The words of a `<special-name>` are spelled by what precedes the `<encoding>`, the `<type>` or the
/// `<name>` that it belongs to.
///
/// # Errors
///
/// `Memory`.
pub fn spelling(alloc: Global, rows: &[Row], returns: bool) -> Result<Spelling, Refusal>
    ensures spelling { IfOk result (λ found. found ≡ spelling_of rows.now returns) }
    ensures within { (n : ℕ) → All (IsRowWithin n) rows.now → IfOk result (λ found. IsWithin n found) }
    ensures refusals { IfErr result (λ refusal. refusal ≡ Refusal.Memory) }
{
    let found = by_outline(alloc, rows, returns)?;
    Ok(found)
}
