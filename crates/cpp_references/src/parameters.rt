// What the template parameters of a scope name.

ghost use Rattle.std.specs.Prelude.{◌≡◌, ℕ, ◌<◌, ◌≤◌, ◌^◌, MatchOption, false, List, length, IfOk, IfErr};
ghost use Rattle.sym_core.specs.Value.{counted_value};
ghost use Rattle.sym_core.specs.declared.NumberKind.TheVariants as kinds;
ghost use Rattle.sym_core.specs.declared.refusal.Refusal.TheVariants as refusals;
ghost use Rattle.cpp_term.specs.Between.{closed_arguments, argument_at};
ghost use Rattle.cpp_term.specs.References.{parameter_named};
ghost use Rattle.cpp_term.specs.Scope.{is_open, count, element};
ghost use Rattle.cpp_term.specs.Term as term;
ghost use Rattle.cpp_term.specs.Values as values;
ghost use Rattle.cpp_tree.specs.Nodes.{over, tree_at, bytes_at, IsBelow, IsWithin, tree_if_there, IsAliasBelow, IsTable};
ghost use Rattle.cpp_references.specs.Around.{trees_in, tree_of_node, around_of, IsClosed, IsKeptThere};
ghost use Rattle.cpp_references.specs.References.{parameter_read};

use crate::around::Surroundings;
use crate::packs::with_packs;
use cpp_tree::Nodes;
use cpp_tree::node::{Node, Placed};
use sym_core::{Refusal, Span, value10};

/// The number of an element among n.
fn below(counted: Option<u64>, count: u32) -> Option<u32>
    ensures { (k : ℕ) → MatchOption counted (2 ^ 64 ≤ k) (λ v. v ≡ k) → MatchOption result (count ≤ k) (λ n. (n ≡ k) × (n < count)) }
{
    match counted {
        Some(number) => {
            if number >= u64::from(count) {
                return None;
            }
            Some(number as u32)
        }
        None => None,
    }
}

/// How many elements a list has.
pub fn count(nodes: &Nodes, symbol: &[u8], list: u32) -> u32
    requires table { IsTable (over symbol.now nodes.now) }
    requires below { list < length nodes.now.nodes }
    ensures { result ≡ count (tree_at (trees_in symbol.now nodes.now) list) }
{
    nodes.entry(list).count
}

/// The arguments that a name ends in, or none if a parameter is free in the name. In the name of an encoding, no parameter is free.
pub fn closed_arguments(nodes: &Nodes, symbol: &[u8], name: u32) -> Option<u32>
    requires table { IsTable (over symbol.now nodes.now) }
    requires below { name < length nodes.now.nodes }
    ensures is { tree_if_there (trees_in symbol.now nodes.now) result ≡ closed_arguments (tree_at (trees_in symbol.now nodes.now) name) }
    ensures there { IsAliasBelow (length nodes.now.nodes) result }
{
    if nodes.is_open(symbol, name) {
        return None;
    }
    match nodes.entry(name).arguments {
        Some(arguments) => Some(nodes.closed_node(symbol, arguments)),
        None => None,
    }
}

/// The argument of this number among those of a scope.
pub fn argument(nodes: &Nodes, symbol: &[u8], scope: u32, number: u32) -> u32
    requires table { IsTable (over symbol.now nodes.now) }
    requires below { scope < length nodes.now.nodes }
    requires closed { is_open (tree_at (trees_in symbol.now nodes.now) scope) ≡ false }
    ensures tree { tree_at (trees_in symbol.now nodes.now) result ≡ element (tree_at (trees_in symbol.now nodes.now) scope) number }
    ensures below { result < length nodes.now.nodes }
{
    let list = Placed {
        node: scope,
        under: None,
    };
    let argument = nodes.element(symbol, list, number);
    nodes.closed_node(symbol, argument)
}

/// The parameter with these digits and the argument that it names, and the length of the packs once the parameter is named.
///
/// # Errors
///
/// `BadReference` if the parameter names no argument of the scope, names a pack outside an expansion, or names a pack of another length
/// than the earlier ones.
#[tactic(auto, unfolding(cpp_term::specs::References::parameter_named, crate::specs::Around::around_of, crate::specs::References::parameter_read))]
#[inline(always)]
pub fn named_parameter(
    nodes: &Nodes,
    symbol: &[u8],
    kept: Surroundings,
    place: u32,
    digits: Span,
    packs: Option<u32>,
) -> Result<(Node, Option<u32>), Refusal>
    requires table { IsTable (over symbol.now nodes.now) }
    requires kept { IsKeptThere (length nodes.now.nodes) kept }
    requires closed { IsClosed (around_of (trees_in symbol.now nodes.now) kept) }
    requires digits { IsWithin digits symbol.now }
    ensures is { (state : values.State) → parameter_named (around_of (trees_in symbol.now nodes.now) kept) place (counted_value kinds.Decimal (bytes_at symbol.now digits)) (record state { packs = packs })
        ≡ parameter_read (around_of (trees_in symbol.now nodes.now) kept) symbol.now nodes.now state result }
    ensures tree { IfOk result (λ named. tree_of_node symbol.now nodes.now named.0 ≡ term.parameter (counted_value kinds.Decimal (bytes_at symbol.now digits)) (argument_at (around_of (trees_in symbol.now nodes.now) kept) (counted_value kinds.Decimal (bytes_at symbol.now digits)))) }
    ensures there { IfOk result (λ named. IsBelow symbol.now (length nodes.now.thunks) (length nodes.now.nodes) named.0) }
    ensures bad { IfErr result (λ e. e ≡ refusals.Memory → ⊥) }
{
    let Some(scope) = kept.in_scope() else {
        return Err(Refusal::BadReference { at: place });
    };
    let count = count(nodes, symbol, scope);
    let counted = value10(&symbol[digits.from as usize..digits.to as usize]);
    let Some(number) = below(counted, count) else {
        return Err(Refusal::BadReference { at: place });
    };
    let argument = argument(nodes, symbol, scope, number);
    let own = nodes.length_if_pack(symbol, argument);
    match with_packs(place, kept.in_expansion, own, packs) {
        Ok(packs) => Ok((Node::Parameter { number, argument }, packs)),
        Err(e) => Err(e),
    }
}
