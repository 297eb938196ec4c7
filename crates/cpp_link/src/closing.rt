// What follows a rule: types become candidates.

ghost use Rattle.std.specs.Prelude.{◌≡◌, ℕ, List, length, false};
ghost use Rattle.cpp_grammar.specs.Values.{by_all};
ghost use Rattle.cpp_term.specs.Values as values;
ghost use Rattle.cpp_term.specs.Values.{State};
ghost use Rattle.cpp_term.specs.References.{with_unqualified};
ghost use Rattle.cpp_term.specs.Unfolding as unfolding_;
ghost use Rattle.cpp_tree.specs.Nodes.{over, IsAliasBelow, IsTable};
ghost use Rattle.cpp_link.specs.LinkReading.{link_meaning};
ghost use Rattle.cpp_link.specs.Parts.{trees_in, value_in, values_in, packs_of, around_of, IsThere, AreThere};
ghost use Rattle.cpp_link.specs.Reads.{with_candidate};

use crate::linked::Linked;
use crate::part::{AfterRule, Part, Surroundings};
use cpp_grammar::production::Production;
use cpp_references::candidates::is_function_type;

impl Linked {
    /// The candidate that a type becomes under qualifiers.
    #[tactic(auto, unfolding(crate::specs::Reads::with_candidate, cpp_term::specs::References::with_unqualified))]
    fn unqualified_candidate(&self, symbol: &[u8], kept: Surroundings, part: Part) -> Option<u32>
        requires table { IsTable (over symbol.now self.now.nodes) }
        requires there { IsThere symbol.now (length self.now.nodes.nodes) part }
        ensures is { (state : State) → with_unqualified (around_of (trees_in symbol.now self.now.nodes) kept) (value_in symbol.now self.now.nodes part) state ≡ with_candidate by_all (around_of (trees_in symbol.now self.now.nodes) kept) (trees_in symbol.now self.now.nodes) result state }
        ensures there { IsAliasBelow (length self.now.nodes.nodes) result }
    {
        let node = self.node(symbol, part);
        if is_function_type(&self.nodes, symbol, node) {
            return None;
        }
        self.type_candidate(symbol, kept, part)
    }

    /// What follows a production, given its parts and the part that it became.
    #[tactic(auto, unfolding(cpp_term::specs::Unfolding::behind, crate::specs::LinkReading::link_meaning, crate::specs::Reads::with_candidate))]
    #[inline(always)]
    pub fn after_rule(
        &self,
        symbol: &[u8],
        production: Production,
        byte: u8,
        kept: Surroundings,
        parts: &[Part],
        made: Part,
    ) -> AfterRule
        requires table { IsTable (over symbol.now self.now.nodes) }
        requires there { AreThere symbol.now (length self.now.nodes.nodes) parts.now }
        requires made { IsThere symbol.now (length self.now.nodes.nodes) made }
        requires value { (place : ℕ) × (value_in symbol.now self.now.nodes made ≡ link_meaning symbol.now production byte place (around_of (trees_in symbol.now self.now.nodes) kept) (values_in symbol.now self.now.nodes parts.now)) }
        ensures is { (began : State) (state : values.State) → began.packs ≡ packs_of kept
            → unfolding_.behind production byte (around_of (trees_in symbol.now self.now.nodes) kept) began (values_in symbol.now self.now.nodes parts.now) (record state { packs = self.now.packs })
            ≡ with_candidate by_all (around_of (trees_in symbol.now self.now.nodes) kept) (trees_in symbol.now self.now.nodes) result.candidate (record state { packs = result.packs }) }
        ensures there { IsAliasBelow (length self.now.nodes.nodes) result.candidate }
    {
        match production {
            Production::RestrictType
            | Production::VolatileType
            | Production::ConstType
            | Production::VolatileLiteral
            | Production::ConstLiteral
            | Production::ReferenceType
            | Production::ConvertedConst
            | Production::ConvertedPointer
            | Production::ConvertedReference => AfterRule {
                candidate: Some(self.node(symbol, made)),
                packs: self.packs,
            },
            Production::PlainType
            | Production::PlainArgument
            | Production::ArgumentWithT
            | Production::FirstParameter
            | Production::TypeWithD
            | Production::ItemWithD
            | Production::ConvertedType
            | Production::ConvertedDecltype
            | Production::DestroyedType => AfterRule {
                candidate: self.type_candidate(symbol, kept, self.given(symbol, parts, 0)),
                packs: self.packs,
            },
            Production::QualifiedPlain | Production::PlainWithD | Production::QualifiedLiteral =>
                AfterRule {
                    candidate: self.unqualified_candidate(
                        symbol,
                        kept,
                        self.given(symbol, parts, 0),
                    ),
                    packs: self.packs,
                },
            Production::Expansion
            | Production::ExpandExpression
            | Production::PackSize
            | Production::FoldPack
            | Production::TypePack => AfterRule {
                candidate: None,
                packs: kept.packs(),
            },
            _ => AfterRule {
                candidate: None,
                packs: self.packs,
            },
        }
    }
}
