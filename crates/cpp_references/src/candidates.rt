// The trees that substitutions may name, and what a substitution names (ABI 5.1.10).

ghost use Rattle.std.specs.Prelude.{◌≡◌, ℕ, ◌-◌, ◌<◌, ◌≤◌, ◌^◌, MatchOption, ◌&&◌, ◌||◌, not, nat_eq, List, length, slice_get, IfSome, IfOk, IfErr};
ghost use Rattle.sym_core.specs.Value.{counted_value};
ghost use Rattle.sym_core.specs.declared.NumberKind.TheVariants as kinds;
ghost use Rattle.sym_core.specs.declared.refusal.Refusal.TheVariants as refusals;
ghost use Rattle.cpp_term.specs.References.{substituted, is_function_type, is_module};
ghost use Rattle.cpp_term.specs.Scope.{pack_length};
ghost use Rattle.cpp_term.specs.Values as values;
ghost use Rattle.cpp_tree.specs.Nodes.{over, tree_at, bytes_at, IsWithin, IsTable};
ghost use Rattle.cpp_grammar.specs.Rescoping.{is_by_all, is_by_newer, is_by_some, joined};
ghost use Rattle.cpp_references.specs.Around.{counted_of, trees_in, is_lambda, around_of, candidates_of, AreNodesThere};
ghost use Rattle.cpp_references.specs.References.{maybe_candidate, node_read, function_node, module_node};

use crate::again::opened;
use crate::around::Surroundings;
use crate::packs::with_packs;
use cpp_tree::Nodes;
use cpp_tree::node::Node;
use sym_core::{Refusal, Span, value36};

/// By which compilers a candidate is counted.
#[derive(Clone, Copy)]
pub enum Counted {
    /// By all.
    ByAll,
    /// By those since GCC 13 and Clang 13.
    ByNewer,
    /// By GCC alone.
    ByGcc,
    /// By Clang alone.
    ByClang,
    /// By some compilers that the reading doesn't know.
    BySome,
}

/// A tree that a substitution may name, where the encoding that it was made in begins, and whether
/// it was made in the signature of a lambda.
#[derive(Clone, Copy)]
pub struct Candidate {
    pub node: u32,
    pub encoding: u32,
    /// The place of the candidate whose number in the longer list is this entry's own place, if
    /// there is one.
    pub longer: usize,
    /// The place of the candidate whose number in the shorter list is this entry's own place, if
    /// there is one.
    pub shorter: usize,
    pub in_lambda: bool,
    pub counted: Counted,
}

impl Counted {
    /// Whether all compilers count the candidate.
    #[tactic(auto, unfolding(crate::specs::Around::counted_of, cpp_grammar::specs::Rescoping::is_by_all))]
    #[inline(always)]
    pub fn is_by_all(self) -> bool
        ensures { result ≡ is_by_all (counted_of self) }
    {
        match self {
            Counted::ByAll => true,
            Counted::ByNewer => false,
            Counted::ByGcc => false,
            Counted::ByClang => false,
            Counted::BySome => false,
        }
    }

    /// Whether compilers since GCC 13 and Clang 13 count the candidate.
    #[tactic(auto, unfolding(crate::specs::Around::counted_of, cpp_grammar::specs::Rescoping::is_by_newer))]
    pub fn is_by_newer(self) -> bool
        ensures { result ≡ is_by_newer (counted_of self) }
    {
        match self {
            Counted::ByAll => false,
            Counted::ByNewer => true,
            Counted::ByGcc => false,
            Counted::ByClang => false,
            Counted::BySome => false,
        }
    }

    /// Whether some compilers that the reading doesn't know count the candidate.
    #[tactic(auto, unfolding(crate::specs::Around::counted_of, cpp_grammar::specs::Rescoping::is_by_some))]
    pub fn is_by_some(self) -> bool
        ensures { result ≡ is_by_some (counted_of self) }
    {
        match self {
            Counted::ByAll => false,
            Counted::ByNewer => false,
            Counted::ByGcc => false,
            Counted::ByClang => false,
            Counted::BySome => true,
        }
    }

    /// Which compilers count the longer list once it has one more candidate, which these other
    /// compilers count.
    #[tactic(auto, unfolding(crate::specs::Around::counted_of, cpp_grammar::specs::Rescoping::joined))]
    pub fn joined(self, other: Counted) -> Counted
        ensures { counted_of result ≡ joined (counted_of self) (counted_of other) }
    {
        match self {
            Counted::ByAll => other,
            Counted::ByNewer => match other {
                Counted::ByAll => Counted::ByNewer,
                Counted::ByNewer => Counted::ByNewer,
                Counted::ByGcc => Counted::BySome,
                Counted::ByClang => Counted::BySome,
                Counted::BySome => Counted::BySome,
            },
            Counted::ByGcc => match other {
                Counted::ByAll => Counted::ByGcc,
                Counted::ByNewer => Counted::BySome,
                Counted::ByGcc => Counted::ByGcc,
                Counted::ByClang => Counted::BySome,
                Counted::BySome => Counted::BySome,
            },
            Counted::ByClang => match other {
                Counted::ByAll => Counted::ByClang,
                Counted::ByNewer => Counted::BySome,
                Counted::ByGcc => Counted::BySome,
                Counted::ByClang => Counted::ByClang,
                Counted::BySome => Counted::BySome,
            },
            Counted::BySome => Counted::BySome,
        }
    }
}

/// The candidate of a number.
pub fn numbered(candidates: &[Candidate], counted: Option<u64>) -> Option<Candidate>
    ensures { (k : ℕ) → MatchOption counted (2 ^ 64 ≤ k) (λ v. v ≡ k) → result ≡ slice_get candidates.now k }
{
    match counted {
        Some(number) => match candidates.get(number as usize) {
            Some(candidate) => Some(*candidate),
            None => None,
        },
        None => None,
    }
}

/// The candidate that these digits name: no digits name the first, and 0 names the next.
pub fn named(candidates: &[Candidate], symbol: &[u8], digits: Span) -> Option<Candidate>
    requires digits { IsWithin digits symbol.now }
    ensures { result ≡ slice_get candidates.now (counted_value kinds.Seq36 (bytes_at symbol.now digits)) }
{
    numbered(
        candidates,
        value36(&symbol[digits.from as usize..digits.to as usize]),
    )
}

/// Whether a tree may not be named here, since it has free parameters and was made elsewhere.
fn is_foreign(kept: Surroundings, is_open: bool, encoding: u32) -> bool
    ensures { result ≡ (is_open && (is_lambda kept.scope || not (nat_eq encoding kept.encoding))) }
{
    is_open && (kept.in_lambda() || encoding != kept.encoding)
}

/// The length of the packs that the parameters of a node's tree name.
fn pack_length(nodes: &Nodes, symbol: &[u8], node: u32) -> Option<u32>
    requires table { IsTable (over symbol.now nodes.now) }
    requires below { node < length nodes.now.nodes }
    ensures { result ≡ pack_length (tree_at (trees_in symbol.now nodes.now) node) }
{
    nodes.entry(node).packs
}

/// Whether a node is a module's name.
#[tactic(auto, unfolding(crate::specs::References::module_node))]
fn names_module(node: Node) -> bool
    ensures { result ≡ module_node node }
{
    match node {
        Node::Operation { first, .. } => first == b'W',
        _ => false,
    }
}

/// Whether a node's tree is a module's name, which a substitution names only before a component of a nested name.
pub fn is_module(nodes: &Nodes, symbol: &[u8], node: u32) -> bool
    requires table { IsTable (over symbol.now nodes.now) }
    requires below { node < length nodes.now.nodes }
    ensures { result ≡ is_module (tree_at (trees_in symbol.now nodes.now) node) }
{
    names_module(opened(nodes, symbol, node).node)
}

/// What a substitution of this candidate names, and the length of the packs after it.
///
/// # Errors
///
/// `BadReference` if there is no candidate, or if the candidate is a module, has free parameters of another encoding or in the signature of
/// a lambda, or holds packs outside an expansion or of another length than the earlier ones.
#[tactic(auto, unfolding(cpp_term::specs::References::substituted, crate::specs::References::packs_read, crate::specs::References::maybe_candidate, crate::specs::References::node_read, crate::specs::Around::around_of))]
pub fn substituted(
    nodes: &Nodes,
    symbol: &[u8],
    kept: Surroundings,
    place: u32,
    candidate: Option<Candidate>,
    packs: Option<u32>,
) -> Result<(u32, Option<u32>), Refusal>
    requires table { IsTable (over symbol.now nodes.now) }
    requires there { IfSome candidate (λ c. c.node < length nodes.now.nodes) }
    ensures is { (state : values.State) → substituted (around_of (trees_in symbol.now nodes.now) kept) place (maybe_candidate (trees_in symbol.now nodes.now) candidate) (record state { packs = packs }) ≡ node_read (trees_in symbol.now nodes.now) state result }
    ensures there { IfOk result (λ named. named.0 < length nodes.now.nodes) }
    ensures bad { IfErr result (λ e. e ≡ refusals.Memory → ⊥) }
{
    let Some(c) = candidate else {
        return Err(Refusal::BadReference { at: place });
    };
    if is_module(nodes, symbol, c.node) {
        return Err(Refusal::BadReference { at: place });
    }
    if is_foreign(kept, nodes.is_open(symbol, c.node), c.encoding) {
        return Err(Refusal::BadReference { at: place });
    }
    let own = pack_length(nodes, symbol, c.node);
    match with_packs(place, kept.in_expansion, own, packs) {
        Ok(packs) => Ok((c.node, packs)),
        Err(e) => Err(e),
    }
}

/// What a substitution names, by the place where its digits begin, and the length of the packs after it.
///
/// # Errors
///
/// `BadReference` one byte before the place, at the `S`, where `substituted` refuses the candidate that the digits name.
pub fn substitution(
    nodes: &Nodes,
    symbol: &[u8],
    kept: Surroundings,
    place: u32,
    candidates: &[Candidate],
    digits: Span,
    packs: Option<u32>,
) -> Result<(u32, Option<u32>), Refusal>
    requires table { IsTable (over symbol.now nodes.now) }
    requires there { AreNodesThere (length nodes.now.nodes) candidates.now }
    requires digits { IsWithin digits symbol.now }
    ensures is { (state : values.State) → substituted (around_of (trees_in symbol.now nodes.now) kept) (place - 1) (slice_get (candidates_of (trees_in symbol.now nodes.now) candidates.now) (counted_value kinds.Seq36 (bytes_at symbol.now digits))) (record state { packs = packs })
        ≡ node_read (trees_in symbol.now nodes.now) state result }
    ensures there { IfOk result (λ named. named.0 < length nodes.now.nodes) }
    ensures bad { IfErr result (λ e. e ≡ refusals.Memory → ⊥) }
{
    let candidate = named(candidates, symbol, digits);
    substituted(
        nodes,
        symbol,
        kept,
        place.saturating_sub(1),
        candidate,
        packs,
    )
}

/// Whether a node is the type of a function.
#[tactic(auto, unfolding(crate::specs::References::function_node))]
fn is_function(node: Node) -> bool
    ensures { result ≡ function_node node }
{
    match node {
        Node::FunctionType { .. } => true,
        _ => false,
    }
}

/// Whether a node's tree is the type of a function, which is no candidate under qualifiers.
pub fn is_function_type(nodes: &Nodes, symbol: &[u8], node: u32) -> bool
    requires table { IsTable (over symbol.now nodes.now) }
    requires below { node < length nodes.now.nodes }
    ensures { result ≡ is_function_type (tree_at (trees_in symbol.now nodes.now) node) }
{
    is_function(opened(nodes, symbol, node).node)
}
