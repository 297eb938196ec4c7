// What is done before the second part of a parameter: the tree that the parameter names takes the place of the first part.

ghost use Rattle.std.specs.Prelude.{◌≡◌, List, length, IfOk, IfErr, ◌∷◌, []};
ghost use Rattle.sym_core.specs.Value.{counted_value};
ghost use Rattle.sym_core.specs.declared.NumberKind.TheVariants as kinds;
ghost use Rattle.sym_core.specs.declared.refusal.Refusal.TheVariants as refusals;
ghost use Rattle.sym_link.specs.Driving.{Fails};
ghost use Rattle.cpp_term.specs.Between.{parameter_so_far, argument_so_far};
ghost use Rattle.cpp_term.specs.Values as values;
ghost use Rattle.cpp_tree.specs.Nodes.{over, bytes_at, IsWithin, IsTable};
ghost use Rattle.cpp_link.specs.Parts.{trees_in, around_of, IsClosed, IsKeptThere, IsStepThere};
ghost use Rattle.cpp_link.specs.Stepping.{nodes_of_step};
ghost use Rattle.cpp_link.specs.Reads.{goes_on};

use crate::linked::Linked;
use crate::part::{Step, Surroundings};
use cpp_references::parameters::named_parameter;
use sym_core::{Refusal, Span};

impl Linked {
    /// What a parameter names by these digits, and the length of the packs after it.
    ///
    /// # Errors
    ///
    /// The errors of `named_parameter`.
    pub fn parameter(
        &self,
        symbol: &[u8],
        kept: Surroundings,
        place: u32,
        digits: Span,
    ) -> Result<Step, Refusal>
        requires table { IsTable (over symbol.now self.now.nodes) }
        requires kept { IsKeptThere (length self.now.nodes.nodes) kept }
        requires closed { IsClosed (around_of (trees_in symbol.now self.now.nodes) kept) }
        requires digits { IsWithin digits symbol.now }
        ensures is { IfOk result (λ step. (v : values.Value) (state : values.State) → parameter_so_far (around_of (trees_in symbol.now self.now.nodes) kept) place (counted_value kinds.Decimal (bytes_at symbol.now digits)) [] (record state { packs = self.now.packs })
            ≡ goes_on symbol.now self.now.nodes kept (v ∷ []) state self.now.packs step) }
        ensures refused { IfErr result (λ e. (state : values.State) → Fails e (parameter_so_far (around_of (trees_in symbol.now self.now.nodes) kept) place (counted_value kinds.Decimal (bytes_at symbol.now digits)) [] (record state { packs = self.now.packs }))) }
        ensures there { IfOk result (λ step. IsStepThere symbol.now (length self.now.nodes.thunks) (length self.now.nodes.nodes) step) }
        ensures one { IfOk result (λ step. nodes_of_step step ≡ 1) }
        ensures bad { IfErr result (λ e. e ≡ refusals.Memory → ⊥) }
    {
        match named_parameter(&self.nodes, symbol, kept, place, digits, self.packs) {
            Ok((node, packs)) => Ok(Step::Made {
                node,
                listed: true,
                is_name: true,
                is_candidate: true,
                packs,
            }),
            Err(e) => Err(e),
        }
    }

    /// Likewise where the parameter is itself an argument, or the length of an array: it is no name to continue, and no
    /// candidate.
    ///
    /// # Errors
    ///
    /// The errors of `named_parameter`.
    pub fn parameter_argument(
        &self,
        symbol: &[u8],
        kept: Surroundings,
        place: u32,
        digits: Span,
    ) -> Result<Step, Refusal>
        requires table { IsTable (over symbol.now self.now.nodes) }
        requires kept { IsKeptThere (length self.now.nodes.nodes) kept }
        requires closed { IsClosed (around_of (trees_in symbol.now self.now.nodes) kept) }
        requires digits { IsWithin digits symbol.now }
        ensures is { IfOk result (λ step. (v : values.Value) (state : values.State) → argument_so_far (around_of (trees_in symbol.now self.now.nodes) kept) place (counted_value kinds.Decimal (bytes_at symbol.now digits)) (record state { packs = self.now.packs })
            ≡ goes_on symbol.now self.now.nodes kept (v ∷ []) state self.now.packs step) }
        ensures refused { IfErr result (λ e. (state : values.State) → Fails e (argument_so_far (around_of (trees_in symbol.now self.now.nodes) kept) place (counted_value kinds.Decimal (bytes_at symbol.now digits)) (record state { packs = self.now.packs }))) }
        ensures there { IfOk result (λ step. IsStepThere symbol.now (length self.now.nodes.thunks) (length self.now.nodes.nodes) step) }
        ensures one { IfOk result (λ step. nodes_of_step step ≡ 1) }
        ensures bad { IfErr result (λ e. e ≡ refusals.Memory → ⊥) }
    {
        match named_parameter(&self.nodes, symbol, kept, place, digits, self.packs) {
            Ok((node, packs)) => Ok(Step::Made {
                node,
                listed: true,
                is_name: false,
                is_candidate: false,
                packs,
            }),
            Err(e) => Err(e),
        }
    }
}
