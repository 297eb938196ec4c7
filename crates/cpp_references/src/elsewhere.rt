// The arguments here for the free parameters of a tree that was made elsewhere: in another
// encoding, or in the signature of a lambda.

ghost use Rattle.std.specs.Prelude.{◌≡◌, ◌+◌, ◌<◌, ◌^◌, Some, List, length, IfOk, IfErr};
ghost use Rattle.sym_core.specs.declared.refusal.Refusal.TheVariants as refusals;
ghost use Rattle.cpp_term.specs.Values as values;
ghost use Rattle.cpp_term.specs.Reargued.{reargued};
ghost use Rattle.cpp_term.specs.Rescoping.{in_scope, under_scope, restated};
ghost use Rattle.cpp_term.specs.Scope.{pack_length};
ghost use Rattle.cpp_term.specs.Term.{Term};
ghost use Rattle.cpp_tree.specs.Nodes.{over, tree_at, IsTable};
ghost use Rattle.cpp_references.specs.Around.{trees_in, around_of, IsClosed, IsKeptThere};
ghost use Rattle.cpp_references.specs.References.{argument_read};

use crate::around::Surroundings;
use crate::packs::with_packs;
use crate::parameters::{argument, count};
use cpp_tree::Nodes;
use cpp_tree::node::{Free, Placed};
use cpp_tree::nodes::AUTO;
use sym_core::Refusal;

/// The length of the packs that a tree's parameters name with this argument.
fn packs_with(nodes: &Nodes, symbol: &[u8], node: u32, argument: u32) -> Option<u32>
    requires table { IsTable (over symbol.now nodes.now) }
    requires node { node < length nodes.now.nodes }
    requires argument { argument < length nodes.now.nodes }
    requires room { length nodes.now.nodes + 1 < 2 ^ 32 }
    ensures { result ≡ pack_length (reargued (Some (tree_at (trees_in symbol.now nodes.now) argument)) (tree_at (trees_in symbol.now nodes.now) node)) }
{
    let tree = Placed {
        node,
        under: Some(argument),
    };
    nodes.packs(symbol, tree)
}

/// For a tree that was made elsewhere and has one free parameter: the argument in this scope with the parameter's number, and the length of
/// the expansion's packs once the tree is read.
///
/// # Errors
///
/// `BadReference` if there is no scope here, if the scope has no argument of that number or that argument is a list, or if the tree has
/// packs under the argument and is outside an expansion or after packs of another length.
#[tactic(auto, unfolding(crate::specs::References::argument_read, crate::specs::Around::around_of))]
fn argument_by(
    nodes: &Nodes,
    symbol: &[u8],
    kept: Surroundings,
    place: u32,
    node: u32,
    number: u32,
    packs: Option<u32>,
) -> Result<(u32, Option<u32>), Refusal>
    requires table { IsTable (over symbol.now nodes.now) }
    requires kept { IsKeptThere (length nodes.now.nodes) kept }
    requires closed { IsClosed (around_of (trees_in symbol.now nodes.now) kept) }
    requires below { node < length nodes.now.nodes }
    requires room { length nodes.now.nodes + 1 < 2 ^ 32 }
    ensures is { (state : values.State) → in_scope (around_of (trees_in symbol.now nodes.now) kept) place (tree_at (trees_in symbol.now nodes.now) node) number (record state { packs = packs })
        ≡ argument_read (trees_in symbol.now nodes.now) (tree_at (trees_in symbol.now nodes.now) node) state result }
    ensures there { IfOk result (λ r. r.0 < length nodes.now.nodes) }
    ensures bad { IfErr result (λ e. e ≡ refusals.Memory → ⊥) }
{
    let Some(scope) = kept.in_scope() else {
        return Err(Refusal::BadReference { at: place });
    };
    if number >= count(nodes, symbol, scope) {
        return Err(Refusal::BadReference { at: place });
    }
    let argument = argument(nodes, symbol, scope, number);
    if nodes.is_list(symbol, argument) {
        return Err(Refusal::BadReference { at: place });
    }
    let own = packs_with(nodes, symbol, node, argument);
    match with_packs(place, kept.in_expansion, own, packs) {
        Ok(packs) => Ok((argument, packs)),
        Err(e) => Err(e),
    }
}

/// The scope for a tree that was made elsewhere and has several free parameters, by the greatest of their numbers.
///
/// # Errors
///
/// `BadReference` if there is no scope here, or if the scope has no argument of that number or has
/// a pack among its arguments.
#[tactic(auto, unfolding(crate::specs::References::argument_read, crate::specs::Around::around_of))]
fn scope_by(
    nodes: &Nodes,
    symbol: &[u8],
    kept: Surroundings,
    place: u32,
    greatest: u32,
    packs: Option<u32>,
) -> Result<(u32, Option<u32>), Refusal>
    requires table { IsTable (over symbol.now nodes.now) }
    requires kept { IsKeptThere (length nodes.now.nodes) kept }
    ensures is { (t : Term) (state : values.State) → under_scope (around_of (trees_in symbol.now nodes.now) kept) place t greatest (record state { packs = packs })
        ≡ argument_read (trees_in symbol.now nodes.now) t state result }
    ensures there { IfOk result (λ r. r.0 < length nodes.now.nodes) }
    ensures bad { IfErr result (λ e. e ≡ refusals.Memory → ⊥) }
{
    let Some(scope) = kept.in_scope() else {
        return Err(Refusal::BadReference { at: place });
    };
    if greatest >= count(nodes, symbol, scope) {
        return Err(Refusal::BadReference { at: place });
    }
    if nodes.has_pack(symbol, scope) {
        return Err(Refusal::BadReference { at: place });
    }
    Ok((scope, packs))
}

/// What replaces the free parameters of a tree that was made elsewhere: one argument, or the scope, which has an argument for each; and the
/// length of the expansion's packs once the tree is read.
///
/// # Errors
///
/// Outside the signature of a lambda, `BadReference` if no parameter is free in the tree; if one is
/// free, as `argument_by` answers; if several are, as `scope_by` answers.
#[tactic(auto, unfolding(crate::specs::References::argument_read, crate::specs::Around::around_of))]
pub fn argument_here(
    nodes: &Nodes,
    symbol: &[u8],
    kept: Surroundings,
    place: u32,
    node: u32,
    packs: Option<u32>,
) -> Result<(u32, Option<u32>), Refusal>
    requires table { IsTable (over symbol.now nodes.now) }
    requires kept { IsKeptThere (length nodes.now.nodes) kept }
    requires closed { IsClosed (around_of (trees_in symbol.now nodes.now) kept) }
    requires below { node < length nodes.now.nodes }
    requires room { length nodes.now.nodes + 1 < 2 ^ 32 }
    ensures is { (state : values.State) → restated (around_of (trees_in symbol.now nodes.now) kept) place (tree_at (trees_in symbol.now nodes.now) node) (record state { packs = packs })
        ≡ argument_read (trees_in symbol.now nodes.now) (tree_at (trees_in symbol.now nodes.now) node) state result }
    ensures there { IfOk result (λ r. r.0 < length nodes.now.nodes) }
    ensures bad { IfErr result (λ e. e ≡ refusals.Memory → ⊥) }
{
    if kept.in_lambda() {
        return Ok((AUTO, packs));
    }
    match nodes.free(symbol, node) {
        Free::One(number) => argument_by(nodes, symbol, kept, place, node, number, packs),
        Free::Several(greatest) => scope_by(nodes, symbol, kept, place, greatest, packs),
        Free::None => Err(Refusal::BadReference { at: place }),
    }
}
