// What surrounds the next part of a rule.

ghost use Rattle.std.specs.Prelude.{◌≡◌, ℕ, ◌<◌, List, length, None, true, false};
ghost use Rattle.cpp_term.specs.Term as term;
ghost use Rattle.cpp_term.specs.Values as values;
ghost use Rattle.cpp_grammar.specs.Values as plain;
ghost use Rattle.cpp_term.specs.Rescoping.{in_constraint_of, in_literal, passed_over};
ghost use Rattle.cpp_term.specs.Between.{in_signature, under_expansion, after, inside};
ghost use Rattle.cpp_tree.specs.Nodes.{tree_at, tree_if_there, IsAliasBelow};
ghost use Rattle.cpp_link.specs.Parts.{arguments_in, is_lambda, showing_in, around_of, IsKeptThere};

use crate::linked::Linked;
use crate::part::{Naming, Scope, Surroundings};

/// What parameters name in the signature of a lambda: nothing. A signature within something that isn't shown isn't shown either.
#[tactic(auto, unfolding(crate::specs::Parts::arguments_in, crate::specs::Parts::is_lambda, crate::specs::Parts::showing_in))]
#[inline(always)]
fn in_signature_of(scope: Scope) -> Scope
    ensures nothing { (node : ℕ) → arguments_in result node ≡ None }
    ensures lambda { is_lambda result ≡ true }
    ensures showing { showing_in result ≡ showing_in scope }
{
    match scope {
        Scope::Nothing => Scope::Lambda,
        Scope::Lambda => Scope::Lambda,
        Scope::Constraint => Scope::Constraint,
        Scope::Literal => Scope::Literal,
        Scope::Arguments => Scope::Lambda,
    }
}

impl Linked {
    /// What surrounds a part of an encoding that begins at this place, where parameters name these
    /// arguments.
    #[tactic(auto, unfolding(crate::specs::Parts::around_of, crate::specs::Parts::arguments_in, crate::specs::Parts::is_lambda, crate::specs::Parts::showing_in, crate::specs::Parts::prefix_in, crate::specs::Parts::prefix_of, cpp_tree::specs::Nodes::tree_if_there))]
    #[inline(always)]
    pub(crate) fn in_encoding(
        &self,
        kept: Surroundings,
        place: u32,
        scope: Option<u32>,
    ) -> Surroundings
        requires scope { IsAliasBelow (length self.now.nodes.nodes) scope }
        ensures around { (ts : List term.Term) → around_of ts result ≡ record { scope = tree_if_there ts scope; encoding = place; in_lambda = false; in_expansion = false; prefix = values.outermost; showing = plain.shown } }
        ensures there { IsKeptThere (length self.now.nodes.nodes) result }
    {
        let mut then = kept;
        then.encoding = place;
        then.scope = Scope::Nothing;
        then.naming = Naming::Outermost;
        then.in_expansion = false;
        if let Some(arguments) = scope {
            then.arguments = arguments;
            then.scope = Scope::Arguments;
        }
        then
    }

    /// What surrounds a part after this name.
    #[tactic(auto, unfolding(crate::specs::Parts::around_of, crate::specs::Parts::prefix_in, crate::specs::Parts::prefix_of, cpp_term::specs::Between::after))]
    #[inline(always)]
    pub(crate) fn behind_name(&self, kept: Surroundings, node: u32, listed: bool) -> Surroundings
        requires kept { IsKeptThere (length self.now.nodes.nodes) kept }
        requires node { node < length self.now.nodes.nodes }
        ensures around { (ts : List term.Term) → around_of ts result ≡ after (tree_at ts node) listed (around_of ts kept) }
        ensures there { IsKeptThere (length self.now.nodes.nodes) result }
    {
        let mut then = kept;
        then.name = node;
        then.naming = if listed {
            Naming::Listed
        } else {
            Naming::Unlisted
        };
        then
    }

    /// What surrounds a part in the signature of a lambda.
    #[tactic(auto, unfolding(crate::specs::Parts::around_of, crate::specs::Parts::arguments_in, crate::specs::Parts::is_lambda, crate::specs::Parts::showing_in, crate::specs::Parts::prefix_in, crate::specs::Parts::prefix_of, cpp_tree::specs::Nodes::tree_if_there, cpp_term::specs::Between::in_signature))]
    #[inline(always)]
    pub(crate) fn in_signature(&self, kept: Surroundings) -> Surroundings
        ensures around { (ts : List term.Term) → around_of ts result ≡ in_signature (around_of ts kept) }
        ensures there { IsKeptThere (length self.now.nodes.nodes) result }
    {
        let mut then = kept;
        then.scope = in_signature_of(kept.scope);
        then.naming = Naming::Outermost;
        then
    }

    /// What surrounds a part in a constraint.
    #[tactic(auto, unfolding(crate::specs::Parts::around_of, crate::specs::Parts::arguments_in, crate::specs::Parts::is_lambda, crate::specs::Parts::showing_in, crate::specs::Parts::prefix_in, crate::specs::Parts::prefix_of, cpp_tree::specs::Nodes::tree_if_there, cpp_term::specs::Rescoping::in_constraint_of))]
    #[inline(always)]
    pub(crate) fn in_constraint(&self, kept: Surroundings) -> Surroundings
        ensures around { (ts : List term.Term) → around_of ts result ≡ in_constraint_of (around_of ts kept) }
        ensures there { IsKeptThere (length self.now.nodes.nodes) result }
    {
        let mut then = kept;
        then.scope = Scope::Constraint;
        then.naming = Naming::Outermost;
        then
    }

    /// What surrounds the encoding that a literal denotes.
    #[inline(always)]
    pub(crate) fn in_literal(&self, kept: Surroundings) -> Surroundings
        requires kept { IsKeptThere (length self.now.nodes.nodes) kept }
        ensures around { (ts : List term.Term) → around_of ts result ≡ in_literal (around_of ts kept) }
        ensures there { IsKeptThere (length self.now.nodes.nodes) result }
    {
        if !kept.is_unseen() {
            return kept;
        }
        let mut then = kept;
        then.scope = Scope::Literal;
        then
    }

    /// What surrounds the parts of an encoding that begins at this place and that a literal in a
    /// constraint denotes.
    #[tactic(auto, unfolding(crate::specs::Parts::around_of, crate::specs::Parts::arguments_in, crate::specs::Parts::is_lambda, crate::specs::Parts::showing_in, crate::specs::Parts::prefix_in, crate::specs::Parts::prefix_of, cpp_tree::specs::Nodes::tree_if_there, cpp_term::specs::Rescoping::passed_over))]
    #[inline(always)]
    pub(crate) fn passed_over(&self, kept: Surroundings, place: u32) -> Surroundings
        ensures around { (ts : List term.Term) → around_of ts result ≡ passed_over place }
        ensures there { IsKeptThere (length self.now.nodes.nodes) result }
    {
        let mut then = kept;
        then.encoding = place;
        then.scope = Scope::Constraint;
        then.naming = Naming::Outermost;
        then.in_expansion = false;
        then
    }

    /// What surrounds a part under an expansion.
    #[tactic(auto, unfolding(crate::specs::Parts::around_of, cpp_term::specs::Between::under_expansion))]
    #[inline(always)]
    pub(crate) fn under_expansion(&self, kept: Surroundings) -> Surroundings
        requires kept { IsKeptThere (length self.now.nodes.nodes) kept }
        ensures around { (ts : List term.Term) → around_of ts result ≡ under_expansion (around_of ts kept) }
        ensures there { IsKeptThere (length self.now.nodes.nodes) result }
    {
        let mut then = kept;
        then.in_expansion = true;
        then
    }

    /// What surrounds a part where no name has begun.
    #[tactic(auto, unfolding(crate::specs::Parts::around_of, crate::specs::Parts::prefix_in, crate::specs::Parts::prefix_of, cpp_term::specs::Between::inside))]
    #[inline(always)]
    pub(crate) fn inside(&self, kept: Surroundings) -> Surroundings
        requires kept { IsKeptThere (length self.now.nodes.nodes) kept }
        ensures around { (ts : List term.Term) → around_of ts result ≡ inside (around_of ts kept) }
        ensures there { IsKeptThere (length self.now.nodes.nodes) result }
    {
        let mut then = kept;
        then.naming = Naming::Outermost;
        then
    }
}
