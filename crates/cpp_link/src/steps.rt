// What is done before the next part of a rule.

ghost use Rattle.std.specs.Prelude.{◌≡◌, ℕ, ◌<◌, List, length, true, false, None, Ok, ◌∷◌, [], IfOk, IfErr};
ghost use Rattle.sym_core.specs.declared.refusal.Refusal.TheVariants as refusals;
ghost use Rattle.sym_link.specs.Driving.{Fails};
ghost use Rattle.cpp_term.specs.Term as term;
ghost use Rattle.cpp_grammar.specs.declared.production.Production.TheVariants as productions;
ghost use Rattle.cpp_term.specs.Values as values;
ghost use Rattle.cpp_term.specs.Values.{State, tree_of, piece_of, text_of, prefix_tree};
ghost use Rattle.cpp_term.specs.Scope.{is_structor};
ghost use Rattle.cpp_term.specs.Between.{between, no_items, applied, named_so_far, with_tag};
ghost use Rattle.cpp_term.specs.References.{with_prefix, with_type};
ghost use Rattle.cpp_tree.specs.Nodes as nodes;
ghost use Rattle.cpp_tree.specs.Nodes.{over, tree_at, bytes_at, IsWithin, IsPieceBelow, IsAliasBelow, IsBelow, IsTable};
ghost use Rattle.cpp_references.specs.declared.around.Surroundings.{Surroundings};
ghost use Rattle.cpp_link.specs.declared.part.Part.TheVariants as variants;
ghost use Rattle.cpp_link.specs.declared.part.Step.{Step};
ghost use Rattle.cpp_link.specs.Parts.{trees_in, tree_of_node, value_in, values_in, prefix_of, name_of, around_of, IsClosed, IsThere, AreThere, IsPrefixThere, IsKeptThere, IsStepThere};
ghost use Rattle.cpp_grammar.specs.Values.{by_all};
ghost use Rattle.cpp_link.specs.Reads.{with_candidate, goes_on};
ghost use Rattle.cpp_link.specs.Stepping.{IsStepOf, nodes_of_step};
ghost use Rattle.cpp_link.specs.Closes.{pack_makes};
ghost use Rattle.cpp_link.specs.NodeCount.{makes_before, one_if_arguments};

use crate::linked::Linked;
use crate::part::{Naming, Part, Step, Surroundings};
use crate::values::{is_listed, list_of, node_of, piece_of, text_of};
use cpp_grammar::production::Production;
use cpp_references::again::opened;
use cpp_tree::node::{Node, Piece};
use cpp_tree::nodes::{ABSENT, NO_ELEMENTS};
use sym_core::{Refusal, Span};

/// The candidate that the name so far becomes.
#[tactic(auto, unfolding(crate::specs::Parts::around_of, crate::specs::Parts::prefix_in, crate::specs::Parts::prefix_of, crate::specs::Reads::with_candidate, cpp_term::specs::References::with_prefix, cpp_term::specs::Values::prefix_tree, cpp_term::specs::Values::prefix_listed))]
fn prefix_candidate(kept: Surroundings) -> Option<u32>
    ensures is { (ts : List term.Term) (state : State) → with_prefix (around_of ts kept) state ≡ with_candidate by_all (around_of ts kept) ts result state }
    ensures there { (n : ℕ) → IsPrefixThere n (name_of kept) → IsAliasBelow n result }
{
    match kept.naming {
        Naming::Outermost => None,
        Naming::Unlisted => Some(kept.name),
        Naming::Listed => None,
    }
}

impl Linked {
    /// Nothing is done, and these are the surroundings of the next part.
    #[inline(always)]
    pub(crate) fn go(&self, then: Surroundings) -> Step
        ensures { result ≡ Step.Go None then self.now.packs }
    {
        Step::Go {
            candidate: None,
            then,
            packs: self.packs,
        }
    }

    /// A name is made of this node.
    #[inline(always)]
    pub(crate) fn named(&self, node: Node) -> Step
        ensures { result ≡ Step.Made node false true false self.now.packs }
    {
        Step::Made {
            node,
            listed: false,
            is_name: true,
            is_candidate: false,
            packs: self.packs,
        }
    }

    /// A name is made of this node, which is no candidate.
    #[inline(always)]
    pub(crate) fn listed_name(&self, node: Node) -> Step
        ensures { result ≡ Step.Made node true true false self.now.packs }
    {
        Step::Made {
            node,
            listed: true,
            is_name: true,
            is_candidate: false,
            packs: self.packs,
        }
    }

    /// The node of a part.
    #[inline(always)]
    pub fn node(&self, symbol: &[u8], part: Part) -> u32
        requires table { IsTable (over symbol.now self.now.nodes) }
        requires there { IsThere symbol.now (length self.now.nodes.nodes) part }
        ensures is { tree_at (trees_in symbol.now self.now.nodes) result ≡ tree_of (value_in symbol.now self.now.nodes part) }
        ensures there { result < length self.now.nodes.nodes }
    {
        node_of(part)
    }

    /// The candidate that the name so far becomes.
    #[inline(always)]
    pub(crate) fn prefix_candidate(&self, symbol: &[u8], kept: Surroundings) -> Option<u32>
        requires kept { IsKeptThere (length self.now.nodes.nodes) kept }
        ensures is { (state : State) → with_prefix (around_of (trees_in symbol.now self.now.nodes) kept) state ≡ with_candidate by_all (around_of (trees_in symbol.now self.now.nodes) kept) (trees_in symbol.now self.now.nodes) result state }
        ensures there { IsAliasBelow (length self.now.nodes.nodes) result }
    {
        prefix_candidate(kept)
    }

    /// The candidate that a type becomes.
    #[tactic(auto, unfolding(crate::specs::Reads::with_candidate, cpp_term::specs::References::with_type))]
    pub fn type_candidate(&self, symbol: &[u8], kept: Surroundings, part: Part) -> Option<u32>
        requires table { IsTable (over symbol.now self.now.nodes) }
        requires there { IsThere symbol.now (length self.now.nodes.nodes) part }
        ensures is { (state : State) → with_type (around_of (trees_in symbol.now self.now.nodes) kept) (value_in symbol.now self.now.nodes part) state ≡ with_candidate by_all (around_of (trees_in symbol.now self.now.nodes) kept) (trees_in symbol.now self.now.nodes) result state }
        ensures there { IsAliasBelow (length self.now.nodes.nodes) result }
    {
        if is_listed(part) {
            return None;
        }
        Some(self.node(symbol, part))
    }

    /// The node of the name so far.
    #[tactic(auto, unfolding(crate::specs::Parts::prefix_in, crate::specs::Parts::prefix_of, cpp_term::specs::Values::prefix_tree))]
    #[inline(always)]
    pub(crate) fn prefix_node(&self, symbol: &[u8], kept: Surroundings) -> u32
        requires table { IsTable (over symbol.now self.now.nodes) }
        requires prefix { IsPrefixThere (length self.now.nodes.nodes) (name_of kept) }
        ensures is { tree_at (trees_in symbol.now self.now.nodes) result ≡ prefix_tree (prefix_of (trees_in symbol.now self.now.nodes) (name_of kept)) }
        ensures there { result < length self.now.nodes.nodes }
    {
        match kept.naming {
            Naming::Outermost => ABSENT,
            Naming::Unlisted => kept.name,
            Naming::Listed => kept.name,
        }
    }

    /// Whether a name is that of a constructor or a destructor.
    fn is_structor(&self, symbol: &[u8], name: u32) -> bool
        requires table { IsTable (over symbol.now self.now.nodes) }
        requires name { name < length self.now.nodes.nodes }
        ensures { result ≡ is_structor (tree_at (trees_in symbol.now self.now.nodes) name) }
    {
        opened(&self.nodes, symbol, name).node.is_structor()
    }

    /// The list in a part.
    #[inline(always)]
    pub(crate) fn list_in(&self, symbol: &[u8], part: Part) -> u32
        requires table { IsTable (over symbol.now self.now.nodes) }
        requires there { IsThere symbol.now (length self.now.nodes.nodes) part }
        ensures is { tree_at (trees_in symbol.now self.now.nodes) result ≡ no_items (value_in symbol.now self.now.nodes part) }
        ensures there { result < length self.now.nodes.nodes }
    {
        list_of(part)
    }

    /// The piece of a name in a part.
    #[inline(always)]
    pub(crate) fn piece_in(&self, symbol: &[u8], part: Part) -> Piece
        requires there { IsThere symbol.now (length self.now.nodes.nodes) part }
        ensures is { nodes.piece_of symbol.now (trees_in symbol.now self.now.nodes) result ≡ piece_of (value_in symbol.now self.now.nodes part) }
        ensures there { IsPieceBelow symbol.now (length self.now.nodes.nodes) result }
    {
        piece_of(part)
    }

    /// The text in a part.
    #[inline(always)]
    pub(crate) fn text_in(&self, symbol: &[u8], part: Part) -> Span
        requires there { IsThere symbol.now (length self.now.nodes.nodes) part }
        ensures is { bytes_at symbol.now result ≡ text_of (value_in symbol.now self.now.nodes part) }
        ensures there { IsWithin result symbol.now }
    {
        text_of(part)
    }

    /// A pack of the elements in a part. The empty pack exists already.
    #[tactic(auto, unfolding(crate::specs::Closes::pack_makes, cpp_term::specs::Between::no_items, cpp_term::specs::Values::tree_of, crate::specs::Parts::value_of, cpp_tree::specs::Nodes::tree_of, crate::specs::Reads::goes_on, crate::specs::Reads::behind_first, crate::specs::Reads::named_if, crate::specs::Reads::appended_if, crate::specs::NodeCount::makes_before, crate::specs::NodeCount::pack_before, crate::specs::NodeCount::one_if_there, cpp_term::specs::Values::is_there))]
    #[inline(always)]
    fn pack(&self, symbol: &[u8], elements: Part) -> Step
        requires table { IsTable (over symbol.now self.now.nodes) }
        requires there { IsThere symbol.now (length self.now.nodes.nodes) elements }
        ensures is { (kept : Surroundings) (v : values.Value) (state : values.State) → goes_on symbol.now self.now.nodes kept (v ∷ []) state self.now.packs result
            ≡ Ok (record { values = values.tree (term.pack (no_items (value_in symbol.now self.now.nodes elements))) true ∷ []; context = around_of (trees_in symbol.now self.now.nodes) kept; state = record state { packs = self.now.packs } }) }
        ensures there { IsStepThere symbol.now (length self.now.nodes.thunks) (length self.now.nodes.nodes) result }
        ensures made { nodes_of_step result ≡ pack_makes elements }
        ensures of { IsStepOf productions.PackArgument 1 result }
        ensures makes { nodes_of_step result ≡ makes_before productions.PackArgument (value_in symbol.now self.now.nodes elements ∷ []) }
    {
        match elements {
            Part::Nothing => Step::Named {
                node: NO_ELEMENTS,
                listed: true,
                is_name: false,
            },
            _ => Step::Made {
                node: Node::Pack(self.list_in(symbol, elements)),
                listed: true,
                is_name: false,
                is_candidate: false,
                packs: self.packs,
            },
        }
    }

    /// The name so far with one more tag.
    #[tactic(auto, unfolding(cpp_term::specs::Between::with_tag, cpp_tree::specs::Nodes::tree_of, cpp_tree::specs::Nodes::IsBelow))]
    pub(crate) fn tagged(&self, symbol: &[u8], kept: Surroundings, tag: Span) -> Node
        requires table { IsTable (over symbol.now self.now.nodes) }
        requires kept { IsKeptThere (length self.now.nodes.nodes) kept }
        requires tag { IsWithin tag symbol.now }
        ensures is { tree_of_node symbol.now self.now.nodes result ≡ with_tag (prefix_tree (prefix_of (trees_in symbol.now self.now.nodes) (name_of kept))) (bytes_at symbol.now tag) }
        ensures there { IsBelow symbol.now (length self.now.nodes.thunks) (length self.now.nodes.nodes) result }
    {
        let name = self.prefix_node(symbol, kept);
        Node::Tagged {
            of_structor: self.is_structor(symbol, name),
            name,
            tag,
        }
    }

    /// What is done once a name in std is read, with what may follow it: its arguments, or the name itself with tags.
    #[tactic(auto, unfolding(cpp_term::specs::Between::named_so_far, cpp_term::specs::Between::applied, cpp_term::specs::Values::tree_of, cpp_term::specs::Values::is_there, cpp_tree::specs::Nodes::tree_of, crate::specs::Parts::value_of, crate::specs::Reads::goes_on, crate::specs::Reads::behind_first, crate::specs::Reads::named_if, crate::specs::Reads::appended_if, crate::specs::Owed::made_before, crate::specs::NodeCount::one_if_arguments, crate::specs::NodeCount::one_if_there))]
    pub(crate) fn std_name(&self, symbol: &[u8], name: u32, behind: Part) -> Step
        requires table { IsTable (over symbol.now self.now.nodes) }
        requires name { name < length self.now.nodes.nodes }
        requires behind { IsThere symbol.now (length self.now.nodes.nodes) behind }
        ensures is { (kept : Surroundings) (v : values.Value) (state : values.State) → named_so_far (around_of (trees_in symbol.now self.now.nodes) kept) (applied (tree_at (trees_in symbol.now self.now.nodes) name) (value_in symbol.now self.now.nodes behind)) (value_in symbol.now self.now.nodes behind ∷ []) (record state { packs = self.now.packs })
            ≡ goes_on symbol.now self.now.nodes kept (v ∷ value_in symbol.now self.now.nodes behind ∷ []) state self.now.packs result }
        ensures there { IsStepThere symbol.now (length self.now.nodes.thunks) (length self.now.nodes.nodes) result }
        ensures of { IsStepOf productions.NestStd 2 result }
        ensures makes { nodes_of_step result ≡ one_if_arguments (value_in symbol.now self.now.nodes behind) }
    {
        match behind {
            Part::Nothing => Step::Named {
                node: name,
                listed: false,
                is_name: true,
            },
            Part::Named { node, .. } => Step::Named {
                node,
                listed: false,
                is_name: true,
            },
            _ => self.named(Node::Instance {
                template: name,
                arguments: self.node(symbol, behind),
            }),
        }
    }

    /// What is done before the first part.
    ///
    /// # Errors
    ///
    /// `BadReference` at the arguments of an inherited constructor or of a concept, at what a lambda declares, and at a constraint: the
    /// ABI's grammar has none of these.
    #[tactic(auto, unfolding(cpp_term::specs::Between::between))]
    #[inline(always)]
    fn step_begin(
        &self,
        symbol: &[u8],
        production: Production,
        place: u32,
        kept: Surroundings,
    ) -> Result<Step, Refusal>
        requires table { IsTable (over symbol.now self.now.nodes) }
        requires kept { IsKeptThere (length self.now.nodes.nodes) kept }
        ensures is { IfOk result (λ step. (state : values.State) → between production (around_of (trees_in symbol.now self.now.nodes) kept) place [] (record state { packs = self.now.packs }) ≡ goes_on symbol.now self.now.nodes kept [] state self.now.packs step) }
        ensures refused { IfErr result (λ e. (state : values.State) → Fails e (between production (around_of (trees_in symbol.now self.now.nodes) kept) place [] (record state { packs = self.now.packs }))) }
        ensures there { IfOk result (λ step. IsStepThere symbol.now (length self.now.nodes.thunks) (length self.now.nodes.nodes) step) }
        ensures of { (held : ℕ) → IfOk result (λ step. IsStepOf production held step) }
        ensures makes { IfOk result (λ step. nodes_of_step step ≡ makes_before production []) }
        ensures bad { IfErr result (λ e. e ≡ refusals.Memory → ⊥) }
    {
        match production {
            Production::HeldArguments => Err(Refusal::BadReference { at: place }),
            Production::DeclaredFirst => Err(Refusal::BadReference { at: place }),
            Production::Constraint => Err(Refusal::BadReference { at: place }),
            _ => Ok(self.step_first(symbol, production, place, kept)),
        }
    }

    /// What is done before the second part.
    ///
    /// # Errors
    ///
    /// The errors of a parameter, and `BadReference` at an `M` and at a module that an `S` names: the ABI's grammar has neither.
    #[tactic(auto, unfolding(cpp_term::specs::Between::between, cpp_term::specs::Between::index_of, cpp_term::specs::Between::parameter_so_far, cpp_term::specs::Between::argument_so_far, cpp_term::specs::Between::listed_so_far, cpp_term::specs::References::parameter_named))]
    #[inline(always)]
    fn step_behind_first(
        &self,
        symbol: &[u8],
        production: Production,
        place: u32,
        kept: Surroundings,
        first: Part,
    ) -> Result<Step, Refusal>
        requires table { IsTable (over symbol.now self.now.nodes) }
        requires kept { IsKeptThere (length self.now.nodes.nodes) kept }
        requires closed { IsClosed (around_of (trees_in symbol.now self.now.nodes) kept) }
        requires first { IsThere symbol.now (length self.now.nodes.nodes) first }
        ensures is { IfOk result (λ step. (state : values.State) → between production (around_of (trees_in symbol.now self.now.nodes) kept) place (value_in symbol.now self.now.nodes first ∷ []) (record state { packs = self.now.packs })
            ≡ goes_on symbol.now self.now.nodes kept (value_in symbol.now self.now.nodes first ∷ []) state self.now.packs step) }
        ensures refused { IfErr result (λ e. (state : values.State) → Fails e (between production (around_of (trees_in symbol.now self.now.nodes) kept) place (value_in symbol.now self.now.nodes first ∷ []) (record state { packs = self.now.packs }))) }
        ensures there { IfOk result (λ step. IsStepThere symbol.now (length self.now.nodes.thunks) (length self.now.nodes.nodes) step) }
        ensures of { IfOk result (λ step. IsStepOf production 1 step) }
        ensures makes { IfOk result (λ step. nodes_of_step step ≡ makes_before production (value_in symbol.now self.now.nodes first ∷ [])) }
        ensures pack { production ≡ productions.PackArgument → IfOk result (λ step. nodes_of_step step ≡ pack_makes first) }
        ensures bad { IfErr result (λ e. e ≡ refusals.Memory → ⊥) }
    {
        match production {
            Production::Parameter => {
                let digits = self.text_in(symbol, first);
                self.parameter(symbol, kept, place, digits)
            }
            Production::NestParameter => {
                let digits = self.text_in(symbol, first);
                self.parameter(symbol, kept, place, digits)
            }
            Production::ParameterArgument => {
                let digits = self.text_in(symbol, first);
                self.parameter(symbol, kept, place.saturating_sub(1), digits)
            }
            Production::ParameterExpression => {
                let digits = self.text_in(symbol, first);
                self.parameter_argument(symbol, kept, place.saturating_sub(1), digits)
            }
            Production::PackArgument => Ok(self.pack(symbol, first)),
            Production::Holder => Err(Refusal::BadReference { at: place }),
            Production::NamedModule => Err(Refusal::BadReference { at: place }),
            _ => Ok(self.step_second(symbol, production, place, kept, first)),
        }
    }

    /// What is done before the next part of a production that begins at a place, after these parts.
    ///
    /// # Errors
    ///
    /// Those of a parameter.
    #[inline(always)]
    pub fn step(
        &self,
        symbol: &[u8],
        production: Production,
        place: u32,
        kept: Surroundings,
        parts: &[Part],
    ) -> Result<Step, Refusal>
        requires table { IsTable (over symbol.now self.now.nodes) }
        requires kept { IsKeptThere (length self.now.nodes.nodes) kept }
        requires closed { IsClosed (around_of (trees_in symbol.now self.now.nodes) kept) }
        requires there { AreThere symbol.now (length self.now.nodes.nodes) parts.now }
        ensures is { IfOk result (λ step. (state : values.State) → between production (around_of (trees_in symbol.now self.now.nodes) kept) place (values_in symbol.now self.now.nodes parts.now) (record state { packs = self.now.packs })
            ≡ goes_on symbol.now self.now.nodes kept (values_in symbol.now self.now.nodes parts.now) state self.now.packs step) }
        ensures refused { IfErr result (λ e. (state : values.State) → Fails e (between production (around_of (trees_in symbol.now self.now.nodes) kept) place (values_in symbol.now self.now.nodes parts.now) (record state { packs = self.now.packs }))) }
        ensures there { IfOk result (λ step. IsStepThere symbol.now (length self.now.nodes.thunks) (length self.now.nodes.nodes) step) }
        ensures of { IfOk result (λ step. IsStepOf production (length parts.now) step) }
        ensures makes { IfOk result (λ step. nodes_of_step step ≡ makes_before production (values_in symbol.now self.now.nodes parts.now)) }
        ensures pack { production ≡ productions.PackArgument → parts.now ≡ variants.Nothing ∷ [] → IfOk result (λ step. nodes_of_step step ≡ 0) }
        ensures bad { IfErr result (λ e. e ≡ refusals.Memory → ⊥) }
    {
        if parts.is_empty() {
            return self.step_begin(symbol, production, place, kept);
        }
        let first = self.given(symbol, parts, 0);
        if parts.len() == 1 {
            return self.step_behind_first(symbol, production, place, kept, first);
        }
        let second = self.given(symbol, parts, 1);
        if parts.len() == 2 {
            return Ok(self.step_third(symbol, production, place, kept, first, second));
        }
        let third = self.given(symbol, parts, 2);
        if parts.len() == 3 {
            return Ok(self.step_fourth(symbol, production, place, kept, first, second, third));
        }
        Ok(self.step_later(symbol, production, place, kept, first))
    }
}
