// The parts of a name that come once.
#![tactic(auto)]

ghost use Rattle.std.specs.Prelude.{◌≡◌, ◌∷◌, ◌++◌, ◌<◌, [], IfErr, OnOk, length, IfSome};
ghost use Rattle.sym_core.specs.declared.refusal.Refusal.{Refusal};
ghost use Rattle.rust_spelled.specs.Parts.{name_spelled, rest_spelled, spelled, suffix_spelled};
ghost use Rattle.rust_spelled.specs.Rows.{production_at};

use crate::rows::{behind, production_at, row_at, span, span_at};
use rust_grammar::production::Production;
use sym_core::Refusal;
use sym_parts::{Role, Span, Spelled};
use sym_room::push_within;
use sym_shape::Row;

/// Adds a part.
///
/// # Errors
///
/// `Memory` where the list couldn't grow.
pub(crate) fn push_part(parts: &mut Vec<Spelled>, role: Role, span: Span) -> Result<(), Refusal>
    ensures parts { OnOk result (parts.new.items ≡ parts.old.items ++ spelled role span ∷ []) }
    ensures refusals { IfErr result (λ refusal. refusal ≡ Refusal.Memory) }
{
    push_within(parts, Spelled { role, span })?;
    Ok(())
}

/// Adds the scope and the base of a path that adds a name: the path's parent, and what follows the
/// parent.
///
/// # Errors
///
/// `Memory` where the list couldn't grow.
#[tactic(auto, unfolding(crate::specs::Parts::name_spelled))]
pub(crate) fn push_name(
    parts: &mut Vec<Spelled>,
    rows: &[Row],
    named: Option<usize>,
) -> Result<(), Refusal>
    requires { IfSome named (λ path. path < length rows.now) }
    ensures parts { OnOk result (parts.new.items ≡ parts.old.items ++ name_spelled rows.now named) }
    ensures refusals { IfErr result (λ refusal. refusal ≡ Refusal.Memory) }
{
    let Some(path) = named else {
        return Ok(());
    };
    let parent = row_at(rows, path + 2);
    push_part(parts, Role::Scope, span(parent.from, parent.to))?;
    let base = span(parent.to, row_at(rows, path).to);
    push_part(parts, Role::Base, base)
}

/// Adds the suffix, if the row with this number is one.
///
/// # Errors
///
/// `Memory` where the list couldn't grow.
#[tactic(auto, unfolding(crate::specs::Parts::suffix_spelled))]
fn push_suffix(parts: &mut Vec<Spelled>, rows: &[Row], number: usize) -> Result<(), Refusal>
    ensures parts { OnOk result (parts.new.items ≡ parts.old.items ++ suffix_spelled (production_at rows.now number) rows.now number) }
    ensures refusals { IfErr result (λ refusal. refusal ≡ Refusal.Memory) }
{
    match production_at(rows, number) {
        Some(Production::Suffix) => push_part(parts, Role::Suffix, span_at(rows, number)),
        _ => Ok(()),
    }
}

/// Adds what follows the symbol's path: the path of the instantiating crate, and the suffix (RFC 2603, `<symbol-name>`).
///
/// # Errors
///
/// `Memory` where the list couldn't grow.
#[tactic(auto, unfolding(crate::specs::Parts::rest_spelled))]
pub(crate) fn push_rest(
    parts: &mut Vec<Spelled>,
    rows: &[Row],
    number: usize,
) -> Result<(), Refusal>
    ensures parts { OnOk result (parts.new.items ≡ parts.old.items ++ rest_spelled rows.now number) }
    ensures refusals { IfErr result (λ refusal. refusal ≡ Refusal.Memory) }
{
    if row_at(rows, number).after != 1 {
        return push_suffix(parts, rows, number);
    }
    push_part(parts, Role::InstantiatingCrate, span_at(rows, number))?;
    push_suffix(parts, rows, behind(rows, number))
}
