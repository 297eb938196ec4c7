// Linking a symbol by the wide grammar: the parameters in a lambda's signature are the lambda's own; a lambda with such parameters is a
// piece of another sort; and a substitution denotes its tree with the arguments that are meant where the substitution occurs.

ghost use Rattle.std.specs.Prelude.{◌≡◌, ℕ, ◌-◌, ◌<◌, ◌≤◌, ◌^◌, ◌∷◌, [], MatchOption, not, ◌&&◌, ◌||◌, List, length, true, false, Ok, IfOk, IfErr};
ghost use Rattle.sym_core.specs.Value.{counted_value};
ghost use Rattle.sym_core.specs.declared.NumberKind.TheVariants as kinds;
ghost use Rattle.sym_core.specs.declared.refusal.Refusal.TheVariants as refusals;
ghost use Rattle.sym_link.specs.Driving.{Fails};
ghost use Rattle.sym_link.specs.Linking.{HasRoom, owed_behind};
ghost use Rattle.sym_link.specs.Threads.{IsOpenAt};
ghost use Rattle.sym_link.specs.Unfold.{found};
ghost use Rattle.cpp_grammar.specs.declared.production.Production.TheVariants as productions;
ghost use Rattle.cpp_grammar.specs.declared.production.Production.{Production as Production-type};
ghost use Rattle.cpp_grammar.specs.Rescoping.{is_by_all, generic_number};
ghost use Rattle.cpp_grammar.specs.Unfolding.{production_at};
ghost use Rattle.cpp_term.specs.Values as values;
ghost use Rattle.cpp_term.specs.Rescoping.{name_around, types_around, is_foreign, module_named, restated, numbered, is_declaring, as_generic_lambda, with_holder, counted_held, with_held, between_wide};
ghost use Rattle.cpp_tree.specs.Nodes.{over, tree_at, bytes_at, piece_of, IsAliasBelow, IsPieceBelow, IsWithin, IsTable};
ghost use Rattle.cpp_link.specs.Grows.{HasPlace};
ghost use Rattle.cpp_link.specs.LinkRescoping.{is_parameter, is_parameter_argument, steps_apart, with_mark, going_marked, generic_read, number_in, named_by, substituted_nodes, wide_ends, wide_view};
ghost use Rattle.cpp_link.specs.Making.{state_of};
ghost use Rattle.cpp_link.specs.NodeCount.{makes_before};
ghost use Rattle.cpp_link.specs.Parts.{trees_in, value_in, values_in, is_lambda, is_literal, around_of, candidate_of, candidates_of, IsClosed, IsThere, AreThere, AreCandidatesThere, IsKeptThere, IsStepThere};
ghost use Rattle.cpp_link.specs.Progress.{Advances, Begins, Finishes, MakesPart};
ghost use Rattle.cpp_references.specs.Around.{counted_of};
ghost use Rattle.cpp_term.specs.References.{is_module};
ghost use Rattle.cpp_term.specs.Scope.{is_open};
ghost use Rattle.cpp_term.specs.Term.{Term};
ghost use Rattle.cpp_term.specs.Values.{prefix_tree, prefix_listed, tree_of};
ghost use Rattle.cpp_link.specs.Reads.{held_node, constructor_by, with_marks, goes_on};
ghost use Rattle.cpp_link.specs.Stepping.{IsStepOf, nodes_of_step};
ghost use Rattle.cpp_link.specs.View.{IsPaid, IsWhole, cpp_view};

use crate::counting::{Counted, Expected};
use crate::dispatch::production_of;
use crate::linked::Linked;
use crate::part::{Candidate, Marks, NO_MARKS, Naming, Part, Step, Surroundings};
use cpp_grammar::production::Production;
use cpp_references::again::opened;
use cpp_references::candidates::{is_module, substituted};
use cpp_references::elsewhere::argument_here;
use cpp_references::parameters::closed_arguments;
use cpp_tree::node::{Node, Piece};
use cpp_tree::nodes::{ABSENT, AUTO};
use std::alloc::Global;
use sym_core::{Refusal, Span, value10};
use sym_link::language::Frame;
use sym_link::parts::put;
use sym_shape::rule::Row;

/// What is linked of a symbol that the wide grammar reads.
#[derive(Drop)]
pub struct Rescoping {
    pub linked: Linked,
}

impl Rescoping {
    /// Nothing is linked.
    pub fn new(alloc: Global) -> Rescoping {
        Rescoping {
            linked: Linked::new(alloc),
        }
    }
}

/// Which compilers count a name that arguments follow: a base class that is nested or has arguments, or a concept's name.
#[tactic(auto, unfolding(crate::specs::Reads::held_node, cpp_references::specs::Around::counted_of))]
fn held_node(node: Node) -> Counted
    ensures { counted_of result ≡ held_node node }
{
    match node {
        Node::Within { .. } => Counted::ByGcc,
        Node::Instance { .. } => Counted::ByGcc,
        Node::Alone(_) => Counted::ByClang,
        Node::InStd(_) => Counted::ByClang,
        _ => Counted::BySome,
    }
}

/// The node of an inherited constructor among the candidates, if GCC counts its base class.
#[tactic(auto, unfolding(crate::specs::Reads::constructor_by, cpp_references::specs::Around::counted_of))]
fn constructor_by(by: Counted) -> Option<u32>
    ensures { result ≡ constructor_by (counted_of by) }
{
    match by {
        Counted::ByAll => None,
        Counted::ByNewer => None,
        Counted::ByGcc => Some(ABSENT),
        Counted::ByClang => None,
        Counted::BySome => None,
    }
}

/// The marks of a name with its `M`: the name becomes a candidate with the `M`, and before that without the `M`, unless it has become one
/// as a prefix.
fn holder_marks(kept: Surroundings, name: u32) -> Marks
    ensures is { (ts : List Term) (state : values.State) → with_marks (around_of ts kept) ts result state ≡ with_holder (around_of ts kept) (tree_at ts name) state }
    ensures first { (n : ℕ) → name < n → IsAliasBelow n result.first }
    ensures second { (n : ℕ) → name < n → IsAliasBelow n result.second }
{
    match kept.naming {
        Naming::Outermost => Marks {
            first: Some(name),
            first_by: Counted::ByAll,
            second: Some(name),
            second_by: Counted::ByNewer,
        },
        Naming::Unlisted => Marks {
            first: None,
            first_by: Counted::ByAll,
            second: Some(name),
            second_by: Counted::ByNewer,
        },
        Naming::Listed => Marks {
            first: Some(name),
            first_by: Counted::ByAll,
            second: Some(name),
            second_by: Counted::ByNewer,
        },
    }
}

/// Whether a production is a parameter in an expression.
#[tactic(auto, unfolding(crate::specs::LinkRescoping::is_parameter_argument))]
fn is_parameter_argument(production: Production) -> bool
    ensures { result ≡ is_parameter_argument production }
{
    match production {
        Production::ParameterExpression => true,
        _ => false,
    }
}

/// The number of a lambda's own parameter: a number of more than 32 bits becomes the greatest one
/// of 32 bits.
#[tactic(auto, unfolding(cpp_grammar::specs::Rescoping::generic_number))]
fn generic_number(counted: Option<u64>) -> u32
    ensures { (k : ℕ) → MatchOption counted (2 ^ 64 ≤ k) (λ v. v ≡ k) → result ≡ generic_number k }
{
    match counted {
        Some(number) => {
            if number > u64::from(u32::MAX) {
                return u32::MAX;
            }
            number as u32
        }
        None => u32::MAX,
    }
}

impl Linked {
    /// The rule of a row begins, where not all compilers count alike. If the rule is that of a nested name or of a type under qualifiers,
    /// what its `S` may name is noted.
    ///
    /// # Errors
    ///
    /// The errors of `begin_rule`.
    #[inline(never)]
    fn begin_apart(
        &mut self,
        symbol: &[u8],
        rows: &[Row],
        context: Surroundings,
        row: Row,
    ) -> Result<Surroundings, Refusal>
        requires place { row.from < length symbol.now }
        requires end { row.end ≤ length rows.now }
        requires apart { is_by_all (counted_of self.old.candidates.by) ≡ false }
        ensures { Begins (wide_view symbol.now) symbol.now rows.now self.old self.new context row result }
    {
        match production_of(row.rule) {
            // <template-prefix> ::= <substitution>
            Production::NestTemplate => {
                self.counting.expected = Expected::PrefixAt(row.from.saturating_sub(1));
                Ok(context.with_packs(self.packs))
            }
            // <type> ::= <CV-qualifiers> <type>
            Production::QualifiedPlain => {
                self.counting.expected = Expected::QualifiedAt(row.from);
                Ok(context.with_packs(self.packs))
            }
            // <bare-function-type> ::= <type> <bare-function-type>
            Production::Items => {
                self.counting = self.counting.expecting_item(context, row.from);
                Ok(context.with_packs(self.packs))
            }
            // <prefix> ::= <prefix> <unqualified-name>
            Production::NestNext => {
                self.counting = self.counting.calling();
                Ok(context.with_packs(self.packs))
            }
            // <nested-name> ::= N .. E
            Production::NestEnd => {
                self.counting = self.counting.ending();
                Ok(context.with_packs(self.packs))
            }
            _ => self.begin_rule(symbol, rows, context, row),
        }
    }

    /// Likewise. The values that the call passes through memory are made only where the call is
    /// made.
    ///
    /// # Errors
    ///
    /// The errors of `begin_rule`.
    #[inline(always)]
    fn begin_by_call(
        &mut self,
        symbol: &[u8],
        rows: &[Row],
        context: Surroundings,
        row: Row,
    ) -> Result<Surroundings, Refusal>
        requires place { row.from < length symbol.now }
        requires end { row.end ≤ length rows.now }
        requires apart { is_by_all (counted_of self.old.candidates.by) ≡ false }
        ensures { Begins (wide_view symbol.now) symbol.now rows.now self.old self.new context row result }
    {
        match self.begin_apart(symbol, rows, context, row) {
            Ok(kept) => Ok(kept),
            Err(refusal) => Err(refusal),
        }
    }

    /// The rule of a row begins, in these surroundings.
    ///
    /// # Errors
    ///
    /// The errors of `begin_rule`.
    #[inline(always)]
    pub(crate) fn begin_wide(
        &mut self,
        symbol: &[u8],
        rows: &[Row],
        context: Surroundings,
        row: Row,
    ) -> Result<Surroundings, Refusal>
        requires place { row.from < length symbol.now }
        requires end { row.end ≤ length rows.now }
        ensures { Begins (wide_view symbol.now) symbol.now rows.now self.old self.new context row result }
    {
        if self.candidates.is_one_list() {
            return self.begin_rule(symbol, rows, context, row);
        }
        self.begin_by_call(symbol, rows, context, row)
    }

    /// A lambda's own parameter, in its signature, with these digits (ABI 5.1.8). It may be passed as an argument.
    #[tactic(auto, unfolding(crate::specs::LinkRescoping::generic_read, cpp_term::specs::Rescoping::generic_so_far, cpp_term::specs::Between::listed_so_far, crate::specs::Reads::goes_on, crate::specs::Reads::behind_first, crate::specs::Reads::named_if, crate::specs::Reads::appended_if, cpp_tree::specs::Nodes::tree_of))]
    fn generic(&self, symbol: &[u8], kept: Surroundings, digits: Span, is_argument: bool) -> Step
        requires table { IsTable (over symbol.now self.now.nodes) }
        requires digits { IsWithin digits symbol.now }
        ensures is { (v : values.Value) (state : values.State) → generic_read is_argument (around_of (trees_in symbol.now self.now.nodes) kept) (counted_value kinds.Decimal (bytes_at symbol.now digits)) (record state { packs = self.now.packs })
            ≡ goes_on symbol.now self.now.nodes kept (v ∷ []) state self.now.packs result }
        ensures there { IsStepThere symbol.now (length self.now.nodes.thunks) (length self.now.nodes.nodes) result }
        ensures of { (production : Production-type) → is_parameter production ≡ true → IsStepOf production 1 result }
        ensures makes { (production : Production-type) (known : List values.Value) → is_parameter production ≡ true → length known ≡ 1 → nodes_of_step result ≡ makes_before production known }
    {
        let counted = value10(&symbol[digits.from as usize..digits.to as usize]);
        let node = Node::Parameter {
            number: generic_number(counted),
            argument: AUTO,
        };
        if is_argument {
            return Step::Made {
                node,
                listed: true,
                is_name: false,
                is_candidate: false,
                packs: self.packs,
            };
        }
        Step::Made {
            node,
            listed: true,
            is_name: true,
            is_candidate: true,
            packs: self.packs,
        }
    }

    /// Whether an encoding is passed over and this name, which is the encoding's, has free
    /// parameters.
    fn goes_on_open(&self, symbol: &[u8], kept: Surroundings, name: u32) -> bool
        requires table { IsTable (over symbol.now self.now.nodes) }
        requires below { name < length self.now.nodes.nodes }
        ensures { result ≡ (is_literal kept.scope && is_open (tree_at (trees_in symbol.now self.now.nodes) name)) }
    {
        kept.is_passed_over() && self.nodes.is_open(symbol, name)
    }

    /// The surroundings of the next part of an encoding, after these parts. The encoding begins at this place, in a lambda's signature or
    /// in a constraint.
    #[inline(never)]
    fn in_encoding_apart(
        &self,
        symbol: &[u8],
        place: u32,
        kept: Surroundings,
        parts: &[Part],
    ) -> Surroundings
        requires table { IsTable (over symbol.now self.now.nodes) }
        requires kept { IsKeptThere (length self.now.nodes.nodes) kept }
        requires there { AreThere symbol.now (length self.now.nodes.nodes) parts.now }
        ensures name { length parts.now ≡ 0 → around_of (trees_in symbol.now self.now.nodes) result ≡ name_around (around_of (trees_in symbol.now self.now.nodes) kept) place }
        ensures types { length parts.now ≡ 1 → around_of (trees_in symbol.now self.now.nodes) result ≡ types_around (around_of (trees_in symbol.now self.now.nodes) kept) place (tree_of (values.part (values_in symbol.now self.now.nodes parts.now) 0)) }
        ensures there { IsKeptThere (length self.now.nodes.nodes) result }
    {
        if parts.is_empty() {
            if kept.is_passed_over() {
                return self.passed_over(kept, place);
            }
            return self.in_encoding(kept, place, None);
        }
        let name = self.node(symbol, self.given(symbol, parts, 0));
        if self.goes_on_open(symbol, kept, name) {
            return self.passed_over(kept, place);
        }
        self.in_encoding(kept, place, closed_arguments(&self.nodes, symbol, name))
    }

    /// What only the wide reading does before the next part, apart from the marks: at a parameter, what a lambda declares, a constraint, an
    /// encoding, a name with its `M`, arguments after a base class or a concept's name, or a module.
    ///
    /// # Errors
    ///
    /// `BadReference` at the `M` after arguments, and at an `S` that is read as a module but doesn't name one in both lists.
    fn step_apart(
        &self,
        symbol: &[u8],
        production: Production,
        place: u32,
        kept: Surroundings,
        parts: &[Part],
    ) -> Result<Step, Refusal>
        requires table { IsTable (over symbol.now self.now.nodes) }
        requires kept { IsKeptThere (length self.now.nodes.nodes) kept }
        requires there { AreThere symbol.now (length self.now.nodes.nodes) parts.now }
        requires candidates { AreCandidatesThere (length self.now.nodes.nodes) self.now.candidates }
        requires apart { steps_apart production (is_lambda kept.scope) (length parts.now) ≡ true }
        ensures is { IfOk result (λ step. (state : values.State) → state.candidates ≡ candidates_of (trees_in symbol.now self.now.nodes) self.now.candidates.list.items → between_wide production (around_of (trees_in symbol.now self.now.nodes) kept) place (values_in symbol.now self.now.nodes parts.now) (record state { packs = self.now.packs })
            ≡ going_marked production (around_of (trees_in symbol.now self.now.nodes) kept) (goes_on symbol.now self.now.nodes kept (values_in symbol.now self.now.nodes parts.now) state self.now.packs step)) }
        ensures refused { IfErr result (λ e. (state : values.State) → state.candidates ≡ candidates_of (trees_in symbol.now self.now.nodes) self.now.candidates.list.items → Fails e (between_wide production (around_of (trees_in symbol.now self.now.nodes) kept) place (values_in symbol.now self.now.nodes parts.now) (record state { packs = self.now.packs }))) }
        ensures there { IfOk result (λ step. IsStepThere symbol.now (length self.now.nodes.thunks) (length self.now.nodes.nodes) step) }
        ensures of { IfOk result (λ step. IsStepOf production (length parts.now) step) }
        ensures makes { IfOk result (λ step. nodes_of_step step ≡ makes_before production (values_in symbol.now self.now.nodes parts.now)) }
        ensures bad { IfErr result (λ e. e ≡ refusals.Memory → ⊥) }
    {
        match production {
            // <data-member-prefix> ::= <prefix> M
            Production::Holder => {
                let name = self.prefix_node(symbol, kept);
                if self.is_instance(symbol, name) {
                    return Err(Refusal::BadReference { at: place });
                }
                Ok(self.listed_name(Node::Holder(name)))
            }
            // <template-args> ::= I <template-arg>* E, of a constructor that is inherited, or of a concept
            Production::HeldArguments => Ok(self.go(self.inside(kept))),
            // <lambda-sig> ::= <template-param-decl> <lambda-sig>
            Production::DeclaredFirst => Ok(self.go(kept)),
            // Q <constraint-expression>
            Production::Constraint => Ok(self.go(self.in_constraint(kept))),
            // <expr-primary> ::= L <mangled-name> E
            Production::EncodingLiteral => Ok(self.go(self.in_literal(kept))),
            // <encoding> ::= <name> <bare-function-type>
            Production::Encoding => Ok(self.go(self.in_encoding_apart(symbol, place, kept, parts))),
            // <module-name> ::= <substitution>
            Production::NamedModule => {
                let at = place.saturating_sub(1);
                let digits = self.text(symbol, parts, 0);
                let Some(node) = self.named_module(symbol, digits) else {
                    return Err(Refusal::BadReference { at });
                };
                Ok(Step::Named {
                    node,
                    listed: true,
                    is_name: true,
                })
            }
            // <template-param> ::= T_ | T <parameter number> _
            _ => {
                let digits = self.text(symbol, parts, 0);
                let is_argument = is_parameter_argument(production);
                Ok(self.generic(symbol, kept, digits, is_argument))
            }
        }
    }

    /// Whether a node's tree is a module's name. A module's name has no free parameters.
    fn is_closed_module(&self, symbol: &[u8], node: u32) -> bool
        requires table { IsTable (over symbol.now self.now.nodes) }
        requires below { node < length self.now.nodes.nodes }
        ensures { result ≡ (is_module (tree_at (trees_in symbol.now self.now.nodes) node) && not (is_open (tree_at (trees_in symbol.now self.now.nodes) node))) }
    {
        is_module(&self.nodes, symbol, node) && !self.nodes.is_open(symbol, node)
    }

    /// The module that these digits name, if they name one in both lists.
    fn named_module(&self, symbol: &[u8], digits: Span) -> Option<u32>
        requires table { IsTable (over symbol.now self.now.nodes) }
        requires digits { IsWithin digits symbol.now }
        requires candidates { AreCandidatesThere (length self.now.nodes.nodes) self.now.candidates }
        ensures is { (state : values.State) → state.candidates ≡ candidates_of (trees_in symbol.now self.now.nodes) self.now.candidates.list.items → MatchOption result (module_named (counted_value kinds.Seq36 (bytes_at symbol.now digits)) state ≡ None) (λ node. module_named (counted_value kinds.Seq36 (bytes_at symbol.now digits)) state ≡ Some (tree_at (trees_in symbol.now self.now.nodes) node)) }
        ensures there { IsAliasBelow (length self.now.nodes.nodes) result }
    {
        match self.named_by_both(symbol, digits) {
            Some(candidate) => {
                if self.is_closed_module(symbol, candidate.node) {
                    return Some(candidate.node);
                }
                None
            }
            None => None,
        }
    }

    /// The marks of a name that arguments follow: a base class, with the constructor that is inherited from it, or a concept's name.
    fn held_marks(&self, symbol: &[u8], kept: Surroundings) -> Marks
        requires table { IsTable (over symbol.now self.now.nodes) }
        requires kept { IsKeptThere (length self.now.nodes.nodes) kept }
        ensures is { (state : values.State) → with_marks (around_of (trees_in symbol.now self.now.nodes) kept) (trees_in symbol.now self.now.nodes) result state
            ≡ with_held (prefix_listed (around_of (trees_in symbol.now self.now.nodes) kept).prefix) (around_of (trees_in symbol.now self.now.nodes) kept) (prefix_tree (around_of (trees_in symbol.now self.now.nodes) kept).prefix) state }
        ensures first { IsAliasBelow (length self.now.nodes.nodes) result.first }
        ensures second { IsAliasBelow (length self.now.nodes.nodes) result.second }
    {
        match kept.naming {
            Naming::Outermost => NO_MARKS,
            Naming::Unlisted => {
                let by = self.held_by(symbol, kept.name);
                Marks {
                    first: Some(kept.name),
                    first_by: by,
                    second: constructor_by(by),
                    second_by: Counted::ByGcc,
                }
            }
            Naming::Listed => NO_MARKS,
        }
    }

    /// Which compilers count a name that arguments follow.
    fn held_by(&self, symbol: &[u8], node: u32) -> Counted
        requires table { IsTable (over symbol.now self.now.nodes) }
        requires below { node < length self.now.nodes.nodes }
        ensures { counted_of result ≡ counted_held (tree_at (trees_in symbol.now self.now.nodes) node) }
    {
        held_node(opened(&self.nodes, symbol, node).node)
    }

    /// What becomes a candidate before the next part: a name with its `M`, a base class with its constructor, or a concept's name.
    fn marked(
        &self,
        symbol: &[u8],
        production: Production,
        kept: Surroundings,
        parts: &[Part],
    ) -> Marks
        requires table { IsTable (over symbol.now self.now.nodes) }
        requires kept { IsKeptThere (length self.now.nodes.nodes) kept }
        requires there { AreThere symbol.now (length self.now.nodes.nodes) parts.now }
        ensures is { (state : values.State) → with_marks (around_of (trees_in symbol.now self.now.nodes) kept) (trees_in symbol.now self.now.nodes) result state
            ≡ with_mark production (around_of (trees_in symbol.now self.now.nodes) kept) (values_in symbol.now self.now.nodes parts.now) state }
        ensures first { IsAliasBelow (length self.now.nodes.nodes) result.first }
        ensures second { IsAliasBelow (length self.now.nodes.nodes) result.second }
    {
        match production {
            // <data-member-prefix> ::= <prefix> M
            Production::Holder => {
                let name = self.node(symbol, self.given(symbol, parts, 0));
                holder_marks(kept, name)
            }
            // <template-args> ::= I <template-arg>* E, of a constructor that is inherited, or of a concept
            Production::HeldArguments => self.held_marks(symbol, kept),
            _ => NO_MARKS,
        }
    }

    /// What only the wide reading does before the next part of the frame's rule, and the surroundings of that part.
    ///
    /// # Errors
    ///
    /// The errors of `step_apart`, and `Memory` where a list couldn't grow.
    #[tactic(auto, using(crate::proofs::Viewing::own_there, crate::proofs::Viewing::open_kept))]
    #[inline(never)]
    pub(crate) fn before_apart(
        &mut self,
        symbol: &[u8],
        frame: &Frame<Surroundings>,
        parts: &mut Vec<Part>,
    ) -> Result<Surroundings, Refusal>
        requires apart { steps_apart (production_at frame.now.rule) (is_lambda frame.now.kept.scope) (length parts.old.items - frame.now.base) ≡ true }
        requires room { HasRoom (cpp_view symbol.now) symbol.now self.old (owed_behind (cpp_view symbol.now) frame.now parts.old.items) }
        requires open { IsOpenAt (cpp_view symbol.now) symbol.now self.old frame.now parts.old.items }
        requires base { frame.now.base ≤ length parts.old.items }
        ensures { Advances (wide_view symbol.now) symbol.now self.old self.new frame.now parts.old parts.new result }
    {
        let own = &parts[frame.base..];
        let production = production_of(frame.rule);
        let step = self.step_apart(symbol, production, frame.place, frame.kept, own)?;
        let then = self.take_step(symbol, frame.kept, frame.base, step, parts)?;
        let marks = self.marked(symbol, production, frame.kept, &parts[frame.base..]);
        self.append_marks(symbol, frame.kept, marks)?;
        Ok(then)
    }

    /// Whether a candidate's free parameters may denote other arguments here than where it was made.
    #[tactic(auto, unfolding(cpp_term::specs::Rescoping::is_foreign, crate::specs::Parts::around_of))]
    fn is_foreign(&self, symbol: &[u8], kept: Surroundings, candidate: Candidate) -> bool
        requires table { IsTable (over symbol.now self.now.nodes) }
        requires below { candidate.node < length self.now.nodes.nodes }
        ensures { result ≡ is_foreign (around_of (trees_in symbol.now self.now.nodes) kept) (candidate_of (trees_in symbol.now self.now.nodes) candidate) }
    {
        let elsewhere = candidate.in_lambda || candidate.encoding != kept.encoding;
        self.nodes.is_open(symbol, candidate.node) && (kept.in_lambda() || elsewhere)
    }

    /// A tree that was made elsewhere, with the arguments that are meant here. It becomes an alias with another argument, which is one more
    /// node whatever the tree is.
    ///
    /// # Errors
    ///
    /// The errors of `argument_here`, and `Memory` where the nodes couldn't grow.
    fn restate(
        &mut self,
        symbol: &[u8],
        kept: Surroundings,
        place: u32,
        node: u32,
    ) -> Result<Part, Refusal>
        requires whole { IsWhole symbol.now self.old }
        requires paid { IsPaid self.old }
        requires below { node < length self.old.nodes.nodes }
        requires kept { IsKeptThere (length self.old.nodes.nodes) kept }
        requires closed { IsClosed (around_of (trees_in symbol.now self.old.nodes) kept) }
        requires room { HasPlace symbol.now self.old.nodes 2 }
        ensures is { IfOk result (λ made. restated (around_of (trees_in symbol.now self.old.nodes) kept) place (tree_at (trees_in symbol.now self.old.nodes) node) (state_of symbol.now self.old) ≡ Ok (found (value_in symbol.now self.new.nodes made) (state_of symbol.now self.new))) }
        ensures refused { IfErr result (λ e. Fails e (restated (around_of (trees_in symbol.now self.old.nodes) kept) place (tree_at (trees_in symbol.now self.old.nodes) node) (state_of symbol.now self.old))) }
        ensures made { MakesPart symbol.now self.old self.new 2 1 result }
    {
        match argument_here(&self.nodes, symbol, kept, place, node, self.packs) {
            Ok((argument, packs)) => {
                let again = Node::Reargued {
                    tree: node,
                    argument,
                };
                let node = self.add(symbol, again)?;
                self.packs = packs;
                Ok(Part::Tree { node, listed: true })
            }
            Err(e) => Err(e),
        }
    }

    /// A substitution closes: its part is the candidate that it names, with the arguments that are meant here (ABI 5.1.10).
    ///
    /// # Errors
    ///
    /// `BadReference` one byte before the place, at the `S`, where compilers don't all name the same candidate by the number, or where the
    /// substitution may not name that candidate; `Memory` where the nodes couldn't grow.
    pub(crate) fn substitute_rescoped(
        &mut self,
        symbol: &[u8],
        place: u32,
        kept: Surroundings,
        parts: &[Part],
    ) -> Result<Part, Refusal>
        requires whole { IsWhole symbol.now self.old }
        requires paid { IsPaid self.old }
        requires there { AreThere symbol.now (length self.old.nodes.nodes) parts.now }
        requires kept { IsKeptThere (length self.old.nodes.nodes) kept }
        requires closed { IsClosed (around_of (trees_in symbol.now self.old.nodes) kept) }
        requires room { HasPlace symbol.now self.old.nodes 2 }
        ensures is { IfOk result (λ made. numbered (around_of (trees_in symbol.now self.old.nodes) kept) (place - 1) (number_in (values_in symbol.now self.old.nodes parts.now)) (state_of symbol.now self.old) ≡ Ok (found (value_in symbol.now self.new.nodes made) (state_of symbol.now self.new))) }
        ensures refused { IfErr result (λ e. Fails e (numbered (around_of (trees_in symbol.now self.old.nodes) kept) (place - 1) (number_in (values_in symbol.now self.old.nodes parts.now)) (state_of symbol.now self.old))) }
        ensures made { MakesPart symbol.now self.old self.new 2 (substituted_nodes (around_of (trees_in symbol.now self.old.nodes) kept) (named_by place (state_of symbol.now self.old) (values_in symbol.now self.old.nodes parts.now))) result }
    {
        let at = place.saturating_sub(1);
        let (named, lists) = self.named_by_lists(symbol, at, self.text(symbol, parts, 0));
        self.counting.lists = lists;
        let Some(candidate) = named else {
            return Err(Refusal::BadReference { at });
        };
        if self.is_foreign(symbol, kept, candidate) {
            return self.restate(symbol, kept, at, candidate.node);
        }
        match substituted(&self.nodes, symbol, kept, at, Some(candidate), self.packs) {
            Ok((node, packs)) => {
                self.packs = packs;
                Ok(Part::Tree { node, listed: true })
            }
            Err(e) => Err(e),
        }
    }

    /// The frame's rule, a substitution, closes: what it denotes takes the place of its part.
    ///
    /// # Errors
    ///
    /// The errors of `substitute_rescoped`, and `Memory` where the list of parts couldn't grow.
    #[tactic(auto, using(crate::proofs::Viewing::own_there))]
    pub(crate) fn finish_substitution(
        &mut self,
        symbol: &[u8],
        frame: &Frame<Surroundings>,
        parts: &mut Vec<Part>,
    ) -> Result<(), Refusal>
        requires substitution { production_at frame.now.rule ≡ productions.Substitution }
        requires room { HasRoom (cpp_view symbol.now) symbol.now self.old (owed_behind (cpp_view symbol.now) frame.now parts.old.items) }
        requires open { IsOpenAt (cpp_view symbol.now) symbol.now self.old frame.now parts.old.items }
        requires base { frame.now.base ≤ length parts.old.items }
        ensures { Finishes (wide_view symbol.now) (wide_ends symbol.now self.old frame.now.place frame.now.kept) symbol.now self.old self.new frame.now parts.old parts.new result }
    {
        let made = self.substitute_rescoped(symbol, frame.place, frame.kept, &parts[frame.base..])?;
        put(parts, frame.base, made)
    }

    /// Whether a signature has parameters of a lambda's own: it declares some, or some are free in it.
    fn has_own(&self, symbol: &[u8], parameters: u32) -> bool
        requires table { IsTable (over symbol.now self.now.nodes) }
        requires below { parameters < length self.now.nodes.nodes }
        ensures { result ≡ (is_declaring (tree_at (trees_in symbol.now self.now.nodes) parameters) || is_open (tree_at (trees_in symbol.now self.now.nodes) parameters)) }
    {
        match opened(&self.nodes, symbol, parameters).node {
            Node::Declaring { .. } => true,
            _ => self.nodes.is_open(symbol, parameters),
        }
    }

    /// The piece itself; but a lambda whose signature declares parameters or has free ones becomes one with parameters of its
    /// own (ABI 5.1.8).
    // <closure-type-name> ::= Ul <lambda-sig> E [ <nonnegative number> ] _
    #[tactic(auto, unfolding(cpp_tree::specs::Nodes::piece_of))]
    fn piece_as_generic_lambda(&self, symbol: &[u8], piece: Piece) -> Piece
        requires table { IsTable (over symbol.now self.now.nodes) }
        requires there { IsPieceBelow symbol.now (length self.now.nodes.nodes) piece }
        ensures is { values.piece (piece_of symbol.now (trees_in symbol.now self.now.nodes) result) ≡ as_generic_lambda (values.piece (piece_of symbol.now (trees_in symbol.now self.now.nodes) piece)) }
        ensures there { IsPieceBelow symbol.now (length self.now.nodes.nodes) result }
    {
        match piece {
            Piece::Lambda { parameters, number } => {
                if self.has_own(symbol, parameters) {
                    return Piece::GenericLambda { parameters, number };
                }
                piece
            }
            _ => piece,
        }
    }

    /// The part itself; or, for a piece, what `piece_as_generic_lambda` answers.
    #[tactic(auto, unfolding(crate::specs::Parts::value_of))]
    fn as_generic_lambda(&self, symbol: &[u8], part: Part) -> Part
        requires table { IsTable (over symbol.now self.now.nodes) }
        requires there { IsThere symbol.now (length self.now.nodes.nodes) part }
        ensures value { value_in symbol.now self.now.nodes result ≡ as_generic_lambda (value_in symbol.now self.now.nodes part) }
        ensures there { IsThere symbol.now (length self.now.nodes.nodes) result }
    {
        match part {
            Part::Piece(piece) => Part::Piece(self.piece_as_generic_lambda(symbol, piece)),
            _ => part,
        }
    }

    /// The frame's rule, a lambda, closes: its meaning takes the place of its parts.
    ///
    /// # Errors
    ///
    /// `Memory` where a list couldn't grow.
    #[tactic(auto, using(crate::proofs::Viewing::own_there, crate::proofs::Viewing::open_whole, crate::proofs::Viewing::open_kept))]
    pub(crate) fn finish_lambda(
        &mut self,
        symbol: &[u8],
        frame: &Frame<Surroundings>,
        parts: &mut Vec<Part>,
    ) -> Result<(), Refusal>
        requires lambda { production_at frame.now.rule ≡ productions.Lambda }
        requires room { HasRoom (cpp_view symbol.now) symbol.now self.old (owed_behind (cpp_view symbol.now) frame.now parts.old.items) }
        requires open { IsOpenAt (cpp_view symbol.now) symbol.now self.old frame.now parts.old.items }
        requires base { frame.now.base ≤ length parts.old.items }
        requires place { frame.now.place < length symbol.now }
        ensures { Finishes (wide_view symbol.now) (wide_ends symbol.now self.old frame.now.place frame.now.kept) symbol.now self.old self.new frame.now parts.old parts.new result }
    {
        let made = self.make_rare(
            symbol,
            Production::Lambda,
            frame.place,
            frame.kept,
            &parts[frame.base..],
        )?;
        put(parts, frame.base, self.as_generic_lambda(symbol, made))
    }
}
