// The parts of a legacy name's text, as stretches of the text.
#![tactic(auto)]

ghost use Rattle.std.specs.Prelude.{◌≡◌, ◌+◌, ◌<◌, ◌≤◌, ◌⊎◌, ◌^◌, ◌++◌, ◌∷◌, [], Some, IfErr, IfOk, OnOk, List, codes, length, ℕ};
ghost use Rattle.sym_core.specs.declared.refusal.Refusal.{Refusal};
ghost use Rattle.rust_legacy.specs.Path.{IsPlaced, Path, legacy_of};
ghost use Rattle.sym_parts.specs.Marked.{stretches_of};
ghost use Rattle.sym_parts.specs.Plain.{only};
ghost use Rattle.sym_parts.specs.declared.role.Role.TheVariants as roles;
ghost use Rattle.legacy_parts.specs.Measures.{IsTextOf, parts_by, suffix_part};
ghost use Rattle.legacy_parts.specs.Roles.{path_marked, root_role};

use crate::names::{Names, measured};
use rust_legacy::PathPlace;
use std::alloc::Global;
use sym_core::Refusal;
use sym_parts::{ONLY, Role, Stretch, Stretches};

/// How many bytes two colons have.
const COLONS: u32 = 2;

/// The role of a scope's first name, by the text.
fn root_of(text: &[u8]) -> Role
    ensures { result ≡ root_role text.now }
{
    if text.starts_with(b"<") {
        return Role::Impl;
    }
    Role::Crate
}

/// Adds the last name as a part.
///
/// # Errors
///
/// `Memory`.
fn push_base(found: &mut Stretches, length: u32) -> Result<(), Refusal>
    requires { found.old.place + length < 2 ^ 32 }
    ensures parts { OnOk result (found.new.stretches ≡ found.old.stretches ++ record { role = roles.Base; ordinal = only; start = found.old.place; length = length } ∷ []) }
    ensures place { OnOk result (found.new.place ≡ found.old.place + length) }
    ensures refusals { IfErr result (λ refusal. refusal ≡ Refusal.Memory) }
{
    found.begin(Role::Base, ONLY, length)?;
    found.skip(length);
    Ok(())
}

/// Adds the parts of measured names to an empty list.
///
/// # Errors
///
/// `Memory`.
fn push_names(found: &mut Stretches, root: Role, names: Names) -> Result<(), Refusal>
    requires begins { found.old ≡ record { stretches = []; place = 0 } }
    requires colons { names.place ≡ 0 ⊎ 2 ≤ names.place }
    requires fits { names.place + names.last < 2 ^ 32 }
    ensures parts { OnOk result (found.new.stretches ≡ parts_by root names) }
    ensures place { OnOk result (found.new.place ≡ names.place + names.last) }
    ensures refusals { IfErr result (λ refusal. refusal ≡ Refusal.Memory) }
{
    if names.place == 0 {
        return push_base(found, names.last);
    }
    found.begin(Role::Scope, ONLY, names.place - COLONS)?;
    found.begin(root, ONLY, names.first)?;
    found.skip(names.place);
    push_base(found, names.last)
}

/// Adds the part of a suffix of this many bytes, if there is one.
///
/// # Errors
///
/// `Memory`.
fn push_suffix(found: &mut Stretches, count: u32) -> Result<(), Refusal>
    requires { count ≡ 0 ⊎ found.old.place + 2 < 2 ^ 32 }
    ensures parts { OnOk result (found.new.stretches ≡ found.old.stretches ++ suffix_part found.old.place count) }
    ensures refusals { IfErr result (λ refusal. refusal ≡ Refusal.Memory) }
{
    if count == 0 {
        return Ok(());
    }
    found.skip(2);
    found.begin(Role::Suffix, ONLY, count)
}

/// The stretches of the text of a legacy name. The name's path is at a place that `path_of` found.
///
/// # Errors
///
/// `Memory` where the list couldn't grow.
pub(crate) fn stretches_in(
    alloc: Global,
    symbol: &[u8],
    place: PathPlace,
    text: &[u8],
) -> Result<Vec<Stretch>, Refusal>
    requires placed { IsPlaced symbol.now place }
    requires text { IsTextOf symbol.now text.now }
    requires fits { length text.now < 2 ^ 32 }
    ensures stretches { (path : Path) → legacy_of symbol.now ≡ Some path → IfOk result (λ found. found.items ≡ stretches_of (path_marked path)) }
    ensures refusals { IfErr result (λ refusal. refusal ≡ Refusal.Memory) }
{
    let mut found = Stretches::new(alloc);
    push_names(&mut found, root_of(text), measured(symbol, place.hash))?;
    push_suffix(&mut found, (symbol.len() - place.end) as u32)?;
    Ok(found.into_list())
}
