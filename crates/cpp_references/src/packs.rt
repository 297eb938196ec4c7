// The length of the packs under an expansion.

ghost use Rattle.std.specs.Prelude.{◌≡◌, List, IfErr};
ghost use Rattle.sym_core.specs.declared.refusal.Refusal.TheVariants as refusals;
ghost use Rattle.cpp_term.specs.References.{with_packs};
ghost use Rattle.cpp_term.specs.Values as values;
ghost use Rattle.cpp_references.specs.References.{packs_read};

use sym_core::Refusal;

/// The length of the packs under an expansion, after a tree that holds packs of this length.
///
/// # Errors
///
/// `BadReference` at the place, if the tree holds packs outside an expansion, or packs of another length than the earlier packs.
#[tactic(auto, unfolding(cpp_term::specs::References::with_packs, crate::specs::References::packs_read))]
pub fn with_packs(
    place: u32,
    in_expansion: bool,
    own: Option<u32>,
    packs: Option<u32>,
) -> Result<Option<u32>, Refusal>
    ensures is { (state : values.State) → with_packs place in_expansion own (record state { packs = packs }) ≡ packs_read state result }
    ensures refused { IfErr result (λ e. e ≡ refusals.Memory → ⊥) }
{
    match own {
        None => Ok(packs),
        Some(m) => {
            if !in_expansion {
                return Err(Refusal::BadReference { at: place });
            }
            match packs {
                None => Ok(Some(m)),
                Some(n) => {
                    if m == n {
                        return Ok(Some(n));
                    }
                    Err(Refusal::BadReference { at: place })
                }
            }
        }
    }
}
