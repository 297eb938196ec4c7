// What back references to paths, types and constants name.

ghost use Rattle.std.specs.Prelude.{◌≡◌, ◌≢◌, Option, Ok, Err, IfErr, nat_le, slice_get, Some, if◌then◌else◌, ℕ, List};
ghost use Rattle.sym_core.specs.declared.refusal.Refusal.TheVariants as refusals;
ghost use Rattle.rust_tree.specs.Tree.{Tree, need_of_tree};
ghost use Rattle.rust_tree.specs.Nodes.{IsTable, trees};
ghost use Rattle.rust_grammar.specs.Unfold.{At};
ghost use Rattle.rust_grammar.specs.Value.{Value};
ghost use Rattle.rust_references.specs.Targets.{IsNoted};
ghost use Rattle.rust_references.specs.Named.{NamesPath, NamesType, NamesConstant};

use crate::targets::Target;
use rust_tree::Nodes;
use sym_core::Refusal;

/// The path that a reference names: the path that has ended at the named place. `bound` is the
/// number of bound lifetimes.
///
/// # Errors
///
/// `BadReference` at the reference's place, if no path has ended at the named place or if the path needs more lifetimes.
pub fn path_named(nodes: &Nodes, found: Target, place: u32, bound: u64) -> Result<u32, Refusal>
    ensures names { (at : At) (known : Option Value) → at.place ≡ place → at.bound ≡ bound → IsTable at.symbol nodes.now
        → IsNoted (trees at.symbol nodes.now.nodes) found known → NamesPath (trees at.symbol nodes.now.nodes) found at known result }
    ensures never { IfErr result (λ e. e ≢ refusals.Memory) }
{
    match found {
        Target::Path(node) => closed(nodes, node, place, bound),
        Target::Nothing | Target::Type(_) | Target::Constant(_) => {
            Err(Refusal::BadReference { at: place })
        }
    }
}

/// The type that a reference names, which may have ended as a path. `bound` is the number of bound lifetimes.
///
/// # Errors
///
/// `BadReference` at the reference's place, if no type or path has ended at the named place, or if this type or path needs more lifetimes.
pub fn type_named(nodes: &Nodes, found: Target, place: u32, bound: u64) -> Result<u32, Refusal>
    ensures names { (at : At) (known : Option Value) → at.place ≡ place → at.bound ≡ bound → IsTable at.symbol nodes.now
        → IsNoted (trees at.symbol nodes.now.nodes) found known → NamesType (trees at.symbol nodes.now.nodes) found at known result }
    ensures never { IfErr result (λ e. e ≢ refusals.Memory) }
{
    match found {
        Target::Path(node) => closed(nodes, node, place, bound),
        Target::Type(node) => closed(nodes, node, place, bound),
        Target::Nothing | Target::Constant(_) => Err(Refusal::BadReference { at: place }),
    }
}

/// The constant that a reference at a place names. It needs no lifetimes.
///
/// # Errors
///
/// `BadReference` at the reference's place, if no constant has ended at the named place.
pub fn constant_named(found: Target, place: u32) -> Result<u32, Refusal>
    ensures names { (all : List Tree) (at : At) (known : Option Value) → at.place ≡ place → IsNoted all found known → NamesConstant all found at known result }
    ensures never { IfErr result (λ e. e ≢ refusals.Memory) }
{
    match found {
        Target::Constant(node) => Ok(node),
        Target::Nothing | Target::Path(_) | Target::Type(_) => {
            Err(Refusal::BadReference { at: place })
        }
    }
}

/// A node, if its tree needs no more lifetimes than are bound.
fn closed(nodes: &Nodes, node: u32, place: u32, bound: u64) -> Result<u32, Refusal>
    ensures closes { (s : List ℕ) (t : Tree) → IsTable s nodes.now → slice_get (trees s nodes.now.nodes) node ≡ Some t
        → result ≡ (if nat_le (need_of_tree t) bound then Ok node else Err (refusals.BadReference place)) }
    ensures never { IfErr result (λ e. e ≢ refusals.Memory) }
{
    if nodes.need(node) > bound {
        return Err(Refusal::BadReference { at: place });
    }
    Ok(node)
}
