// Closing literals in constraints, and encodings that are passed over there: if an encoding's name has free parameters, the part that is
// made is that name.

ghost use Rattle.std.specs.Prelude.{◌≡◌, ℕ, ◌<◌, ◌≤◌, List, length, true};
ghost use Rattle.sym_link.specs.Linking.{HasRoom, owed_behind};
ghost use Rattle.sym_link.specs.Threads.{IsOpenAt};
ghost use Rattle.cpp_grammar.specs.declared.production.Production.TheVariants as productions;
ghost use Rattle.cpp_grammar.specs.Unfolding.{production_at};
ghost use Rattle.cpp_term.specs.Values as values;
ghost use Rattle.cpp_tree.specs.Nodes.{over, IsAliasBelow, IsTable};
ghost use Rattle.cpp_link.specs.LinkRescoping.{IsOpenName, name_or, wide_ends, wide_view};
ghost use Rattle.cpp_link.specs.Parts.{trees_in, value_of, values_in, is_constraint, is_literal, IsThere, AreThere};
ghost use Rattle.cpp_link.specs.Progress.{Finishes};
ghost use Rattle.cpp_term.specs.Scope.{is_open};
ghost use Rattle.cpp_term.specs.Term.{Term};
ghost use Rattle.cpp_term.specs.Values.{tree_of};
ghost use Rattle.cpp_link.specs.View.{cpp_view};

use crate::linked::Linked;
use crate::part::{Part, Surroundings};
use cpp_grammar::production::Production;
use sym_core::Refusal;
use sym_link::language::Frame;
use sym_link::parts::put;

/// This name, or the part if there is no name.
#[tactic(auto, unfolding(crate::specs::Parts::value_of, crate::specs::LinkRescoping::name_or))]
fn name_or(name: Option<u32>, part: Part) -> Part
    ensures is { (s : List ℕ) (ts : List Term) → value_of s ts result ≡ name_or ts name (value_of s ts part) }
    ensures there { (s : List ℕ) (n : ℕ) → IsAliasBelow n name → IsThere s n part → IsThere s n result }
{
    match name {
        Some(node) => Part::Tree { node, listed: true },
        None => part,
    }
}

impl Linked {
    /// The name in the part with this number, if that name has free parameters.
    fn open_name(&self, symbol: &[u8], parts: &[Part], number: usize) -> Option<u32>
        requires table { IsTable (over symbol.now self.now.nodes) }
        requires there { AreThere symbol.now (length self.now.nodes.nodes) parts.now }
        ensures is { IsOpenName (trees_in symbol.now self.now.nodes) (tree_of (values.part (values_in symbol.now self.now.nodes parts.now) number)) result }
        ensures there { IsAliasBelow (length self.now.nodes.nodes) result }
    {
        let name = self.node(symbol, self.given(symbol, parts, number));
        if self.nodes.is_open(symbol, name) {
            return Some(name);
        }
        None
    }

    /// The frame's rule, an encoding that is passed over, closes: its meaning takes the place of its parts. If the encoding's name has free
    /// parameters, the meaning is that name.
    ///
    /// # Errors
    ///
    /// `Memory` where a list couldn't grow.
    #[tactic(auto, using(crate::proofs::Viewing::own_there, crate::proofs::Viewing::open_whole, crate::proofs::Viewing::open_kept))]
    #[inline(never)]
    fn finish_passed_over(
        &mut self,
        symbol: &[u8],
        frame: &Frame<Surroundings>,
        parts: &mut Vec<Part>,
    ) -> Result<(), Refusal>
        requires encoding { production_at frame.now.rule ≡ productions.Encoding }
        requires passed { is_literal frame.now.kept.scope ≡ true }
        requires room { HasRoom (cpp_view symbol.now) symbol.now self.old (owed_behind (cpp_view symbol.now) frame.now parts.old.items) }
        requires open { IsOpenAt (cpp_view symbol.now) symbol.now self.old frame.now parts.old.items }
        requires base { frame.now.base ≤ length parts.old.items }
        requires place { frame.now.place < length symbol.now }
        ensures { Finishes (wide_view symbol.now) (wide_ends symbol.now self.old frame.now.place frame.now.kept) symbol.now self.old self.new frame.now parts.old parts.new result }
    {
        let own = &parts[frame.base..];
        let name = self.open_name(symbol, own, 0);
        let made = self.close_production(
            symbol,
            Production::Encoding,
            frame.place,
            frame.kept,
            own,
        )?;
        put(parts, frame.base, name_or(name, made))
    }

    /// The frame's rule, an encoding, closes.
    ///
    /// # Errors
    ///
    /// `Memory` where a list couldn't grow.
    #[inline(always)]
    pub(crate) fn finish_encoding(
        &mut self,
        symbol: &[u8],
        frame: &Frame<Surroundings>,
        parts: &mut Vec<Part>,
    ) -> Result<(), Refusal>
        requires encoding { production_at frame.now.rule ≡ productions.Encoding }
        requires room { HasRoom (cpp_view symbol.now) symbol.now self.old (owed_behind (cpp_view symbol.now) frame.now parts.old.items) }
        requires open { IsOpenAt (cpp_view symbol.now) symbol.now self.old frame.now parts.old.items }
        requires base { frame.now.base ≤ length parts.old.items }
        requires place { frame.now.place < length symbol.now }
        ensures { Finishes (wide_view symbol.now) (wide_ends symbol.now self.old frame.now.place frame.now.kept) symbol.now self.old self.new frame.now parts.old parts.new result }
    {
        if frame.kept.is_passed_over() {
            return self.finish_passed_over(symbol, frame, parts);
        }
        self.finish_rule(symbol, frame, parts)
    }

    /// The frame's rule, a literal in a constraint that denotes an encoding, closes: its meaning takes the place of its parts. If
    /// the encoding is a name with free parameters, the meaning is that name.
    ///
    /// # Errors
    ///
    /// `Memory` where a list couldn't grow.
    #[tactic(auto, using(crate::proofs::Viewing::own_there, crate::proofs::Viewing::open_whole, crate::proofs::Viewing::open_kept))]
    #[inline(never)]
    fn finish_unseen(
        &mut self,
        symbol: &[u8],
        frame: &Frame<Surroundings>,
        parts: &mut Vec<Part>,
    ) -> Result<(), Refusal>
        requires literal { production_at frame.now.rule ≡ productions.EncodingLiteral }
        requires unseen { is_constraint frame.now.kept.scope ≡ true }
        requires room { HasRoom (cpp_view symbol.now) symbol.now self.old (owed_behind (cpp_view symbol.now) frame.now parts.old.items) }
        requires open { IsOpenAt (cpp_view symbol.now) symbol.now self.old frame.now parts.old.items }
        requires base { frame.now.base ≤ length parts.old.items }
        requires place { frame.now.place < length symbol.now }
        ensures { Finishes (wide_view symbol.now) (wide_ends symbol.now self.old frame.now.place frame.now.kept) symbol.now self.old self.new frame.now parts.old parts.new result }
    {
        let own = &parts[frame.base..];
        let name = self.open_name(symbol, own, 1);
        let made = self.make_rare(
            symbol,
            Production::EncodingLiteral,
            frame.place,
            frame.kept,
            own,
        )?;
        put(parts, frame.base, name_or(name, made))
    }

    /// The frame's rule, a literal that denotes an encoding, closes.
    ///
    /// # Errors
    ///
    /// `Memory` where a list couldn't grow.
    #[inline(always)]
    pub(crate) fn finish_literal(
        &mut self,
        symbol: &[u8],
        frame: &Frame<Surroundings>,
        parts: &mut Vec<Part>,
    ) -> Result<(), Refusal>
        requires literal { production_at frame.now.rule ≡ productions.EncodingLiteral }
        requires room { HasRoom (cpp_view symbol.now) symbol.now self.old (owed_behind (cpp_view symbol.now) frame.now parts.old.items) }
        requires open { IsOpenAt (cpp_view symbol.now) symbol.now self.old frame.now parts.old.items }
        requires base { frame.now.base ≤ length parts.old.items }
        requires place { frame.now.place < length symbol.now }
        ensures { Finishes (wide_view symbol.now) (wide_ends symbol.now self.old frame.now.place frame.now.kept) symbol.now self.old self.new frame.now parts.old parts.new result }
    {
        if frame.kept.is_unseen() {
            return self.finish_unseen(symbol, frame, parts);
        }
        self.finish_rule(symbol, frame, parts)
    }
}
