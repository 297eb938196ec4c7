// The crate or impl that a name begins with.
#![tactic(auto)]

ghost use Rattle.std.specs.Prelude.{◌≡◌, ◌+◌, ◌++◌, ◌≤◌, IfErr, OnOk, length};
ghost use Rattle.sym_core.specs.declared.refusal.Refusal.{Refusal};
ghost use Rattle.rust_spelled.specs.Parts.{impl_of_trait, impl_of_type, impl_path_by, impl_type, root_spelled};
ghost use Rattle.rust_spelled.specs.Rows.{production_at};
ghost use Rattle.rust_spelled.specs.Spelling.{others_by};

use crate::parts::push_part;
use crate::rows::{behind, production_at, span_at};
use rust_grammar::production::Production;
use sym_core::Refusal;
use sym_parts::{Role, Span, Spelled};
use sym_shape::Row;

/// The row of an impl's path, which may follow a disambiguator (RFC 2603, `<impl-path>`).
#[tactic(auto, unfolding(crate::specs::Parts::impl_path_by))]
fn impl_path(rows: &[Row], root: usize) -> usize
    requires { root ≤ length rows.now }
    ensures { result ≡ impl_path_by (production_at rows.now (root + 1)) rows.now root }
{
    match production_at(rows, root + 1) {
        Some(Production::Disambiguator) => behind(rows, root + 1),
        _ => root + 1,
    }
}

/// The row of an impl's self type, which follows the impl's path.
fn impl_type(rows: &[Row], root: usize) -> usize
    requires { root ≤ length rows.now }
    ensures { result ≡ impl_type rows.now root }
{
    behind(rows, impl_path(rows, root))
}

/// Adds an impl, and its self type, which is at this row.
///
/// # Errors
///
/// `Memory` where the list couldn't grow.
#[tactic(auto, unfolding(crate::specs::Parts::impl_of_type))]
fn push_impl_of_type(
    parts: &mut Vec<Spelled>,
    rows: &[Row],
    root: usize,
    self_type: usize,
) -> Result<(), Refusal>
    ensures parts { OnOk result (parts.new.items ≡ parts.old.items ++ impl_of_type rows.now root self_type) }
    ensures refusals { IfErr result (λ refusal. refusal ≡ Refusal.Memory) }
{
    push_part(parts, Role::Impl, span_at(rows, root))?;
    push_part(parts, Role::SelfType, span_at(rows, self_type))
}

/// Adds an impl, its self type, which is at this row, and its trait, which follows the type.
///
/// # Errors
///
/// `Memory` where the list couldn't grow.
#[tactic(auto, unfolding(crate::specs::Parts::impl_of_trait))]
fn push_impl_of_trait(
    parts: &mut Vec<Spelled>,
    rows: &[Row],
    root: usize,
    self_type: usize,
) -> Result<(), Refusal>
    ensures parts { OnOk result (parts.new.items ≡ parts.old.items ++ impl_of_trait rows.now root self_type) }
    ensures refusals { IfErr result (λ refusal. refusal ≡ Refusal.Memory) }
{
    push_impl_of_type(parts, rows, root, self_type)?;
    push_part(parts, Role::Trait, span_at(rows, behind(rows, self_type)))
}

/// Adds the crate or impl that a name begins with (RFC 2603, `<path>`).
///
/// # Errors
///
/// `Memory` where the list couldn't grow.
#[tactic(auto, unfolding(crate::specs::Parts::root_spelled))]
pub(crate) fn push_root(parts: &mut Vec<Spelled>, rows: &[Row], root: usize) -> Result<(), Refusal>
    requires { root ≤ length rows.now }
    ensures parts { OnOk result (parts.new.items ≡ parts.old.items ++ root_spelled (production_at rows.now root) rows.now root) }
    ensures refusals { IfErr result (λ refusal. refusal ≡ Refusal.Memory) }
{
    match production_at(rows, root) {
        Some(Production::Crate) => push_part(parts, Role::Crate, span_at(rows, root)),
        Some(Production::InherentImpl) => {
            push_impl_of_type(parts, rows, root, impl_type(rows, root))
        }
        Some(Production::TraitImpl) => {
            push_impl_of_trait(parts, rows, root, impl_type(rows, root))
        }
        Some(Production::TraitDefinition) => push_impl_of_trait(parts, rows, root, root + 1),
        _ => Ok(()),
    }
}

/// The bytes that spell the parts that are in none of the lists: the reference that a name begins with, or the symbol's path.
#[tactic(auto, unfolding(crate::specs::Spelling::others_by))]
pub(crate) fn others(rows: &[Row], root: usize) -> Span
    ensures { result ≡ others_by (production_at rows.now root) rows.now root }
{
    match production_at(rows, root) {
        Some(Production::PathReference) => span_at(rows, root),
        _ => span_at(rows, 1),
    }
}
