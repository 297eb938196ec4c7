// The parts of the open rules, as a language puts them.

ghost use Rattle.std.specs.Prelude.{◌≡◌, ◌+◌, ◌<◌, ◌≤◌, ◌++◌, ◌∷◌, [], length, take, vec_capacity, IfErr, OnOk, OnErr};
ghost use Rattle.sym_core.specs.declared.refusal.Refusal.TheVariants as refusals;

use sym_core::Refusal;

/// Puts a part after the others.
///
/// # Errors
///
/// `Memory` where the list couldn't grow.
#[inline(always)]
pub fn push_part<P: Copy>(parts: &mut Vec<P>, part: P) -> Result<(), Refusal>
    ensures items { OnOk result (parts.new.items ≡ parts.old.items ++ part ∷ []) }
    ensures memory { IfErr result (λ e. e ≡ refusals.Memory) }
    ensures same { OnErr result (parts.new.items ≡ parts.old.items) }
    ensures keeps { vec_capacity parts.old ≤ vec_capacity parts.new }
    ensures full { OnErr result (vec_capacity parts.old < length parts.old.items + 1) }
{
    parts.reserve(1)?;
    parts.push_reserved(part);
    Ok(())
}

/// Puts a part in the place of those from the base on.
///
/// # Errors
///
/// `Memory` where the list couldn't grow.
#[inline(always)]
pub fn put<P: Copy>(parts: &mut Vec<P>, base: usize, part: P) -> Result<(), Refusal>
    requires { base ≤ length parts.old.items }
    ensures items { OnOk result (parts.new.items ≡ take base parts.old.items ++ part ∷ []) }
    ensures memory { IfErr result (λ e. e ≡ refusals.Memory) }
    ensures rest { OnErr result (length parts.new.items ≡ base) }
    ensures keeps { vec_capacity parts.old ≤ vec_capacity parts.new }
    ensures full { OnErr result (vec_capacity parts.old < base + 1) }
{
    parts.truncate(base);
    push_part(parts, part)
}
