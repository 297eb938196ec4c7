// The four moments at which the driver calls Rust's language: at the root, and where a rule opens, a token is taken and a rule
// closes.

ghost use Rattle.std.specs.Bool.{OnTrue, OnFalse};
ghost use Rattle.std.specs.Prelude.{◌≡◌, ◌≢◌, IfErr, ℕ, ◌+◌, ◌<◌, ◌≤◌, ◌∷◌, [], List, length, drop, slice_index, Some, true, OnOk, OnErr};
ghost use Rattle.sym_core.specs.Number.{FitsSymbol};
ghost use Rattle.sym_core.specs.declared.refusal.Refusal.TheVariants as refusals;
ghost use Rattle.sym_link.specs.Linking.{HasRoom, TakesToken, ClosesRule, Adds, AddsFew, Pays, KeepsRoom, NeedsRoom, TokenNeedsRoom, owed_behind, owed_next};
ghost use Rattle.rust_tree.specs.declared.node.Name.{Name};
ghost use Rattle.rust_v0.specs.declared.part.Part.{Part};
ghost use Rattle.rust_v0.specs.RustNodes.{v0_view};
ghost use Rattle.rust_v0.specs.NodeCount.{made_by};
ghost use Rattle.rust_grammar.specs.Productions.{production_of, is_reference, makes_part};
ghost use Rattle.rust_v0.specs.CodeOperands as operands;
ghost use Rattle.rust_v0.specs.Tokens as tokens;
ghost use Rattle.rust_v0.specs.CodeSemantics as semantics;

use crate::nodes::{BoundLifetimes, RustNodes};
use crate::part::{NO_SUCH_PARTS, Part, part_of};
use crate::semantics::{Site, crate_root, makes_part, nested, part_by};
use crate::tokens::{TokenSort, sort_of};
use rust_grammar::production::{Production, numbered};
use rust_tree::node::Node;
use sym_core::{Refusal, Span};
use sym_link::language::{Frame, Linking};
use sym_link::parts::{push_part, put};
use sym_shape::rule::Row;

/// The number of the rule of a function's type.
const FUNCTION: u16 = Production::Function as u16;

/// The number of the rule of a `dyn` type.
const DYN: u16 = Production::Dyn as u16;

/// Whether a rule may begin with a binder. This is tested at each rule that opens. Testing the
/// rule's number takes two comparisons; a match on the production would take twice as many
/// instructions.
fn may_bind(rule: u16) -> bool
    ensures { OnFalse result ((bound : ℕ) (parts : List Part) → operands.bound_behind (production_of rule) bound parts ≡ bound) }
{
    rule == FUNCTION || rule == DYN
}

/// How many lifetimes are bound around the next part of a frame's rule, given the parts from the
/// frame's base on: a binder of a function's type holds for all parts after it, a binder of a `dyn`
/// type only for its bounds.
#[inline(always)]
fn bound_behind(frame: Frame<BoundLifetimes>, parts: &[Part]) -> u64
    requires { frame.base ≤ length parts.now }
    ensures { result ≡ operands.bound_behind (production_of frame.rule) frame.kept.bound (drop frame.base parts.now) }
{
    let bound = frame.kept.bound;
    if !may_bind(frame.rule) {
        return bound;
    }
    match numbered(frame.rule) {
        Some(Production::Function) => match &parts[frame.base..] {
            [Part::Binder(lifetimes), ..] => bound.saturating_add(u64::from(*lifetimes)),
            _ => bound,
        },
        Some(Production::Dyn) => match &parts[frame.base..] {
            [Part::Binder(lifetimes)] => bound.saturating_add(u64::from(*lifetimes)),
            _ => bound,
        },
        _ => bound,
    }
}

/// The symbol's length.
fn end_of(symbol: &[u8]) -> u32
    requires { FitsSymbol symbol.now }
    ensures { result ≡ length symbol.now }
{
    symbol.len() as u32
}

/// Where the rule of a frame is.
#[inline(always)]
fn site_of(symbol: &[u8], frame: Frame<BoundLifetimes>) -> Site
    requires fits { FitsSymbol symbol.now }
    requires place { frame.place < length symbol.now }
    ensures place { result.place ≡ frame.place }
    ensures byte { result.byte ≡ slice_index symbol.now frame.place }
    ensures end { result.end ≡ length symbol.now }
    ensures bound { result.bound ≡ frame.kept.bound }
{
    Site {
        place: frame.place,
        byte: symbol[frame.place as usize],
        end: end_of(symbol),
        bound: frame.kept.bound,
    }
}

/// Whether the production is that of a reference.
fn is_reference(production: Production) -> bool
    ensures { result ≡ is_reference production }
{
    matches!(
        production,
        Production::PathReference | Production::TypeReference | Production::ConstantReference
    )
}

/// Whether the parts are one name.
fn is_name(parts: &[Part]) -> bool
    ensures { OnTrue result ((name : Name) × (parts.now ≡ Part.Name name ∷ [])) }
{
    matches!(parts, [Part::Name(_)])
}

impl RustNodes {
    /// Takes a token of a sort in the rule of a frame.
    #[inline(always)]
    fn take_as(
        &mut self,
        symbol: &[u8],
        sort: TokenSort,
        frame: Frame<BoundLifetimes>,
        parts: &mut Vec<Part>,
        row: Row,
    ) -> Result<(), Refusal>
        requires sort { sort ≡ tokens.sort_of (production_of frame.rule) }
        requires room { HasRoom (v0_view symbol.now) symbol.now self.old (owed_behind (v0_view symbol.now) frame parts.old.items) }
        requires base { frame.base ≤ length parts.old.items }
        requires from { row.from ≤ row.to }
        requires to { row.to ≤ length symbol.now }
        ensures takes { TakesToken (v0_view symbol.now) symbol.now self.old self.new frame parts.old.items parts.new.items row result }
        ensures adds { OnOk result (Adds (v0_view symbol.now) self.old self.new (owed_behind (v0_view symbol.now) frame parts.old.items) (owed_behind (v0_view symbol.now) frame parts.new.items)) }
        ensures few { OnErr result (AddsFew (v0_view symbol.now) self.old self.new frame parts.old.items) }
        ensures none { OnOk result (length self.new.nodes.nodes ≡ length self.old.nodes.nodes) }
        ensures pays { OnOk result ((at : ℕ) → at ≤ row.from → (length parts.old.items ≡ frame.base → at ≤ frame.place)
            → Pays (v0_view symbol.now) self.old self.new at row.to) }
        ensures keeps { KeepsRoom (v0_view symbol.now) self.old self.new parts.old parts.new }
        ensures full { TokenNeedsRoom (v0_view symbol.now) symbol.now self.old self.new frame parts.old parts.new row result }
    {
        let own = Span {
            from: row.from,
            to: row.to,
        };
        let part = self.token_part(symbol, sort, frame.place, &parts[frame.base..], own)?;
        push_part(parts, part)?;
        Ok(())
    }

    /// Takes a token in the rule of a frame.
    #[inline(never)]
    fn take_any(
        &mut self,
        symbol: &[u8],
        frame: Frame<BoundLifetimes>,
        parts: &mut Vec<Part>,
        row: Row,
    ) -> Result<(), Refusal>
        requires room { HasRoom (v0_view symbol.now) symbol.now self.old (owed_behind (v0_view symbol.now) frame parts.old.items) }
        requires base { frame.base ≤ length parts.old.items }
        requires from { row.from ≤ row.to }
        requires to { row.to ≤ length symbol.now }
        ensures takes { TakesToken (v0_view symbol.now) symbol.now self.old self.new frame parts.old.items parts.new.items row result }
        ensures adds { OnOk result (Adds (v0_view symbol.now) self.old self.new (owed_behind (v0_view symbol.now) frame parts.old.items) (owed_behind (v0_view symbol.now) frame parts.new.items)) }
        ensures few { OnErr result (AddsFew (v0_view symbol.now) self.old self.new frame parts.old.items) }
        ensures none { OnOk result (length self.new.nodes.nodes ≡ length self.old.nodes.nodes) }
        ensures pays { OnOk result ((at : ℕ) → at ≤ row.from → (length parts.old.items ≡ frame.base → at ≤ frame.place)
            → Pays (v0_view symbol.now) self.old self.new at row.to) }
        ensures keeps { KeepsRoom (v0_view symbol.now) self.old self.new parts.old parts.new }
        ensures full { TokenNeedsRoom (v0_view symbol.now) symbol.now self.old self.new frame parts.old parts.new row result }
    {
        self.take_as(symbol, sort_of(frame.rule), frame, parts, row)
    }

    /// Takes a token in the rule of a frame by a call. The call gets its own copies of the frame
    /// and the row, so that the originals stay in registers. The copies are made in this function,
    /// since in `token` they would be cleared at each token, even where the call isn't made.
    #[inline(always)]
    fn take_rare(
        &mut self,
        symbol: &[u8],
        frame: Frame<BoundLifetimes>,
        parts: &mut Vec<Part>,
        row: Row,
    ) -> Result<(), Refusal>
        requires room { HasRoom (v0_view symbol.now) symbol.now self.old (owed_behind (v0_view symbol.now) frame parts.old.items) }
        requires base { frame.base ≤ length parts.old.items }
        requires from { row.from ≤ row.to }
        requires to { row.to ≤ length symbol.now }
        ensures takes { TakesToken (v0_view symbol.now) symbol.now self.old self.new frame parts.old.items parts.new.items row result }
        ensures adds { OnOk result (Adds (v0_view symbol.now) self.old self.new (owed_behind (v0_view symbol.now) frame parts.old.items) (owed_behind (v0_view symbol.now) frame parts.new.items)) }
        ensures few { OnErr result (AddsFew (v0_view symbol.now) self.old self.new frame parts.old.items) }
        ensures none { OnOk result (length self.new.nodes.nodes ≡ length self.old.nodes.nodes) }
        ensures pays { OnOk result ((at : ℕ) → at ≤ row.from → (length parts.old.items ≡ frame.base → at ≤ frame.place)
            → Pays (v0_view symbol.now) self.old self.new at row.to) }
        ensures keeps { KeepsRoom (v0_view symbol.now) self.old self.new parts.old parts.new }
        ensures full { TokenNeedsRoom (v0_view symbol.now) symbol.now self.old self.new frame parts.old parts.new row result }
    {
        self.take_any(symbol, Frame { ..frame }, parts, Row { ..row })
    }

    /// Closes the rule of a frame. Its production makes a part of the rule's parts, and no node.
    #[inline(always)]
    fn close_part(
        &mut self,
        symbol: &[u8],
        production: Production,
        frame: Frame<BoundLifetimes>,
        parts: &mut Vec<Part>,
    ) -> Result<(), Refusal>
        requires production { production_of frame.rule ≡ Some production }
        requires part { makes_part production ≡ true }
        requires room { HasRoom (v0_view symbol.now) symbol.now self.old (owed_behind (v0_view symbol.now) frame parts.old.items) }
        requires base { frame.base ≤ length parts.old.items }
        requires place { frame.place < length symbol.now }
        ensures closes { ClosesRule (v0_view symbol.now) symbol.now self.old self.new frame parts.old.items parts.new.items result }
        ensures adds { OnOk result (Adds (v0_view symbol.now) self.old self.new (owed_behind (v0_view symbol.now) frame parts.old.items) 0) }
        ensures few { AddsFew (v0_view symbol.now) self.old self.new frame parts.old.items }
        ensures made { OnOk result (length self.new.nodes.nodes ≡ length self.old.nodes.nodes + made_by frame.rule) }
        ensures pays { OnOk result ((at : ℕ) → Pays (v0_view symbol.now) self.old self.new at at) }
        ensures keeps { KeepsRoom (v0_view symbol.now) self.old self.new parts.old parts.new }
        ensures full { NeedsRoom (v0_view symbol.now) self.old self.new parts.old parts.new result }
    {
        let site = site_of(symbol, frame);
        let part = part_by(production, site, &parts[frame.base..])?;
        put(parts, frame.base, part)
    }

    /// Closes the rule of a frame, with the node that was made of the rule's parts.
    #[inline(always)]
    fn close_node(
        &mut self,
        _symbol: &[u8],
        made: Result<Node, Refusal>,
        frame: Frame<BoundLifetimes>,
        parts: &mut Vec<Part>,
    ) -> Result<(), Refusal>
        requires made { semantics.IsMadeBy made frame.rule (drop frame.base parts.old.items) }
        requires never { IfErr made (λ e. e ≢ refusals.Memory) }
        requires room { HasRoom (v0_view _symbol.now) _symbol.now self.old (owed_behind (v0_view _symbol.now) frame parts.old.items) }
        requires base { frame.base ≤ length parts.old.items }
        requires place { frame.place < length _symbol.now }
        ensures closes { ClosesRule (v0_view _symbol.now) _symbol.now self.old self.new frame parts.old.items parts.new.items result }
        ensures adds { OnOk result (Adds (v0_view _symbol.now) self.old self.new (owed_behind (v0_view _symbol.now) frame parts.old.items) 0) }
        ensures few { AddsFew (v0_view _symbol.now) self.old self.new frame parts.old.items }
        ensures made { OnOk result (length self.new.nodes.nodes ≡ length self.old.nodes.nodes + made_by frame.rule) }
        ensures pays { OnOk result ((at : ℕ) → Pays (v0_view _symbol.now) self.old self.new at at) }
        ensures keeps { KeepsRoom (v0_view _symbol.now) self.old self.new parts.old parts.new }
        ensures full { NeedsRoom (v0_view _symbol.now) self.old self.new parts.old parts.new result }
    {
        let added = self.add_made(frame.place, made)?;
        put(parts, frame.base, part_of(added))
    }

    /// Closes the rule of a frame.
    #[inline(never)]
    fn close_any(
        &mut self,
        symbol: &[u8],
        frame: Frame<BoundLifetimes>,
        parts: &mut Vec<Part>,
    ) -> Result<(), Refusal>
        requires room { HasRoom (v0_view symbol.now) symbol.now self.old (owed_behind (v0_view symbol.now) frame parts.old.items) }
        requires base { frame.base ≤ length parts.old.items }
        requires place { frame.place < length symbol.now }
        ensures closes { ClosesRule (v0_view symbol.now) symbol.now self.old self.new frame parts.old.items parts.new.items result }
        ensures adds { OnOk result (Adds (v0_view symbol.now) self.old self.new (owed_behind (v0_view symbol.now) frame parts.old.items) 0) }
        ensures few { AddsFew (v0_view symbol.now) self.old self.new frame parts.old.items }
        ensures made { OnOk result (length self.new.nodes.nodes ≡ length self.old.nodes.nodes + made_by frame.rule) }
        ensures pays { OnOk result ((at : ℕ) → Pays (v0_view symbol.now) self.old self.new at at) }
        ensures keeps { KeepsRoom (v0_view symbol.now) self.old self.new parts.old parts.new }
        ensures full { NeedsRoom (v0_view symbol.now) self.old self.new parts.old parts.new result }
    {
        let Some(production) = numbered(frame.rule) else {
            return Err(NO_SUCH_PARTS);
        };
        let site = site_of(symbol, frame);
        let own = &parts[frame.base..];
        if is_reference(production) {
            let part = self.reference(production, site, own)?;
            return put(parts, frame.base, part);
        }
        if makes_part(production) {
            let part = part_by(production, site, own)?;
            return put(parts, frame.base, part);
        }
        let added = self.add_by(production, site, own)?;
        put(parts, frame.base, part_of(added))
    }

    /// Closes the rule of a frame by a call. The call gets its own copy of the frame, so that the
    /// original stays in registers. The copy is made in this function, as in `take_rare`.
    #[inline(always)]
    fn close_rare(
        &mut self,
        symbol: &[u8],
        frame: Frame<BoundLifetimes>,
        parts: &mut Vec<Part>,
    ) -> Result<(), Refusal>
        requires room { HasRoom (v0_view symbol.now) symbol.now self.old (owed_behind (v0_view symbol.now) frame parts.old.items) }
        requires base { frame.base ≤ length parts.old.items }
        requires place { frame.place < length symbol.now }
        ensures closes { ClosesRule (v0_view symbol.now) symbol.now self.old self.new frame parts.old.items parts.new.items result }
        ensures adds { OnOk result (Adds (v0_view symbol.now) self.old self.new (owed_behind (v0_view symbol.now) frame parts.old.items) 0) }
        ensures few { AddsFew (v0_view symbol.now) self.old self.new frame parts.old.items }
        ensures made { OnOk result (length self.new.nodes.nodes ≡ length self.old.nodes.nodes + made_by frame.rule) }
        ensures pays { OnOk result ((at : ℕ) → Pays (v0_view symbol.now) self.old self.new at at) }
        ensures keeps { KeepsRoom (v0_view symbol.now) self.old self.new parts.old parts.new }
        ensures full { NeedsRoom (v0_view symbol.now) self.old self.new parts.old parts.new result }
    {
        self.close_any(symbol, Frame { ..frame }, parts)
    }

    /// Takes a token in the rule of a frame. Names and base-62 numbers are taken in the driver's loop, other tokens by a call.
    #[inline(always)]
    fn take_token(
        &mut self,
        symbol: &[u8],
        frame: Frame<BoundLifetimes>,
        parts: &mut Vec<Part>,
        row: Row,
    ) -> Result<(), Refusal>
        requires room { HasRoom (v0_view symbol.now) symbol.now self.old (owed_behind (v0_view symbol.now) frame parts.old.items) }
        requires base { frame.base ≤ length parts.old.items }
        requires from { row.from ≤ row.to }
        requires to { row.to ≤ length symbol.now }
        ensures takes { TakesToken (v0_view symbol.now) symbol.now self.old self.new frame parts.old.items parts.new.items row result }
        ensures adds { OnOk result (Adds (v0_view symbol.now) self.old self.new (owed_behind (v0_view symbol.now) frame parts.old.items) (owed_behind (v0_view symbol.now) frame parts.new.items)) }
        ensures few { OnErr result (AddsFew (v0_view symbol.now) self.old self.new frame parts.old.items) }
        ensures none { OnOk result (length self.new.nodes.nodes ≡ length self.old.nodes.nodes) }
        ensures pays { OnOk result ((at : ℕ) → at ≤ row.from → (length parts.old.items ≡ frame.base → at ≤ frame.place)
            → Pays (v0_view symbol.now) self.old self.new at row.to) }
        ensures keeps { KeepsRoom (v0_view symbol.now) self.old self.new parts.old parts.new }
        ensures full { TokenNeedsRoom (v0_view symbol.now) symbol.now self.old self.new frame parts.old parts.new row result }
    {
        match sort_of(frame.rule) {
            TokenSort::PlainName => {
                self.take_as(symbol, TokenSort::PlainName, frame, parts, row)
            }
            TokenSort::CountedNumber => {
                self.take_as(symbol, TokenSort::CountedNumber, frame, parts, row)
            }
            _ => self.take_rare(symbol, frame, parts, row),
        }
    }

    /// Closes the rule of a frame. The five commonest productions close in the driver's loop,
    /// others by a call. Both look the production up by the rule's number, which takes one
    /// comparison. Passing the production would take a register of the loop, and 2.4 % more
    /// instructions over real symbols.
    #[inline(always)]
    fn close_rule(
        &mut self,
        symbol: &[u8],
        frame: Frame<BoundLifetimes>,
        parts: &mut Vec<Part>,
    ) -> Result<(), Refusal>
        requires room { HasRoom (v0_view symbol.now) symbol.now self.old (owed_behind (v0_view symbol.now) frame parts.old.items) }
        requires base { frame.base ≤ length parts.old.items }
        requires place { frame.place < length symbol.now }
        ensures closes { ClosesRule (v0_view symbol.now) symbol.now self.old self.new frame parts.old.items parts.new.items result }
        ensures adds { OnOk result (Adds (v0_view symbol.now) self.old self.new (owed_behind (v0_view symbol.now) frame parts.old.items) 0) }
        ensures few { AddsFew (v0_view symbol.now) self.old self.new frame parts.old.items }
        ensures made { OnOk result (length self.new.nodes.nodes ≡ length self.old.nodes.nodes + made_by frame.rule) }
        ensures pays { OnOk result ((at : ℕ) → Pays (v0_view symbol.now) self.old self.new at at) }
        ensures keeps { KeepsRoom (v0_view symbol.now) self.old self.new parts.old parts.new }
        ensures full { NeedsRoom (v0_view symbol.now) self.old self.new parts.old parts.new result }
    {
        match numbered(frame.rule) {
            // the rule means this name, which stays as its part
            Some(Production::PlainName) if is_name(&parts[frame.base..]) => Ok(()),
            Some(Production::Namespace) => {
                self.close_part(symbol, Production::Namespace, frame, parts)
            }
            Some(Production::DisambiguatedIdentifier) => {
                self.close_part(symbol, Production::DisambiguatedIdentifier, frame, parts)
            }
            Some(Production::Crate) => {
                let made = crate_root(&parts[frame.base..]);
                self.close_node(symbol, made, frame, parts)
            }
            Some(Production::Nested) => {
                let made = nested(&parts[frame.base..]);
                self.close_node(symbol, made, frame, parts)
            }
            _ => self.close_rare(symbol, frame, parts),
        }
    }
}

impl Linking for RustNodes {
    ghost use Rattle.std.specs.Prelude.{◌≡◌, ℕ, ◌<◌, ◌≤◌, length, OnOk, OnErr};
    ghost use Rattle.sym_link.specs.Linking.{HasRoom, IsOpen, OpensRoot, Opens, TakesToken, ClosesRule, Adds, AddsFew, Pays, KeepsRoom, NeedsRoom, TokenNeedsRoom, owed_behind, owed_next};
    ghost use Rattle.sym_link.specs.Room.{KeepRoom, OnlyForRoom};
    ghost use Rattle.sym_link.specs.Tally.{Tally};
    ghost use Rattle.rust_grammar.specs.Value.{Value, State};
    ghost use Rattle.rust_v0.specs.NodeCount.{v0_counted};
    ghost use Rattle.rust_v0.specs.LanguageLaws.{v0_counted_laws};

    type Part = Part;

    type Kept = BoundLifetimes;

    ghost Value = { Value };

    ghost State = { Tally State };

    ghost Context = { ℕ };

    ghost view = { v0_counted };

    fn root(&mut self, symbol: &[u8], _rows: &[Row], row: Row) -> Result<BoundLifetimes, Refusal>
        requires room { HasRoom (v0_counted symbol.now) symbol.now self.old 0 }
        requires end { row.end ≤ length _rows.now }
        ensures opens { OpensRoot (v0_counted symbol.now) symbol.now _rows.now self.old self.new row result }
        ensures adds { OnOk result (Adds (v0_counted symbol.now) self.old self.new 0 0) }
        ensures few { OnErr result ((v0_counted symbol.now).size self.new ≤ (v0_counted symbol.now).size self.old) }
        ensures pays { OnOk result (Pays (v0_counted symbol.now) self.old self.new 0 0) }
        ensures keeps { KeepRoom ((v0_counted symbol.now).lists self.old) ((v0_counted symbol.now).lists self.new) }
        ensures full { OnlyForRoom ⊥ ((v0_counted symbol.now).lists self.old) ((v0_counted symbol.now).lists self.new) result }
    {
        Ok(BoundLifetimes { bound: 0 })
    }

    fn enter(
        &mut self,
        symbol: &[u8],
        _rows: &[Row],
        frame: &Frame<BoundLifetimes>,
        parts: &mut Vec<Part>,
        row: Row,
    ) -> Result<BoundLifetimes, Refusal>
        requires room { HasRoom (v0_counted symbol.now) symbol.now self.old (owed_behind (v0_counted symbol.now) frame.now parts.old.items) }
        requires open { IsOpen (v0_counted symbol.now) symbol.now self.old frame.now parts.old.items }
        requires base { frame.now.base ≤ length parts.old.items }
        requires place { row.from < length symbol.now }
        requires end { row.end ≤ length _rows.now }
        ensures opens { Opens (v0_counted symbol.now) symbol.now _rows.now self.old self.new frame.now parts.old.items parts.new.items row result }
        ensures adds { OnOk result (Adds (v0_counted symbol.now) self.old self.new (owed_behind (v0_counted symbol.now) frame.now parts.old.items) (owed_next (v0_counted symbol.now) frame.now parts.new.items)) }
        ensures few { OnErr result (AddsFew (v0_counted symbol.now) self.old self.new frame.now parts.old.items) }
        ensures pays { OnOk result ((at : ℕ) → at ≤ row.from → Pays (v0_counted symbol.now) self.old self.new at row.from) }
        ensures keeps { KeepsRoom (v0_counted symbol.now) self.old self.new parts.old parts.new }
        ensures full { NeedsRoom (v0_counted symbol.now) self.old self.new parts.old parts.new result }
    {
        let bound = bound_behind(*frame, parts);
        Ok(BoundLifetimes { bound })
    }

    #[inline(always)]
    fn token(
        &mut self,
        symbol: &[u8],
        frame: &Frame<BoundLifetimes>,
        parts: &mut Vec<Part>,
        row: Row,
    ) -> Result<(), Refusal>
        requires room { HasRoom (v0_counted symbol.now) symbol.now self.old (owed_behind (v0_counted symbol.now) frame.now parts.old.items) }
        requires open { IsOpen (v0_counted symbol.now) symbol.now self.old frame.now parts.old.items }
        requires base { frame.now.base ≤ length parts.old.items }
        requires from { row.from ≤ row.to }
        requires to { row.to ≤ length symbol.now }
        ensures takes { TakesToken (v0_counted symbol.now) symbol.now self.old self.new frame.now parts.old.items parts.new.items row result }
        ensures adds { OnOk result (Adds (v0_counted symbol.now) self.old self.new (owed_behind (v0_counted symbol.now) frame.now parts.old.items) (owed_behind (v0_counted symbol.now) frame.now parts.new.items)) }
        ensures few { OnErr result (AddsFew (v0_counted symbol.now) self.old self.new frame.now parts.old.items) }
        ensures pays { OnOk result ((at : ℕ) → at ≤ row.from → (length parts.old.items ≡ frame.now.base → at ≤ frame.now.place)
            → Pays (v0_counted symbol.now) self.old self.new at row.to) }
        ensures keeps { KeepsRoom (v0_counted symbol.now) self.old self.new parts.old parts.new }
        ensures full { TokenNeedsRoom (v0_counted symbol.now) symbol.now self.old self.new frame.now parts.old parts.new row result }
    {
        self.take_token(symbol, *frame, parts, row)
    }

    #[inline(always)]
    fn close(
        &mut self,
        symbol: &[u8],
        frame: &Frame<BoundLifetimes>,
        parts: &mut Vec<Part>,
    ) -> Result<(), Refusal>
        requires room { HasRoom (v0_counted symbol.now) symbol.now self.old (owed_behind (v0_counted symbol.now) frame.now parts.old.items) }
        requires open { IsOpen (v0_counted symbol.now) symbol.now self.old frame.now parts.old.items }
        requires base { frame.now.base ≤ length parts.old.items }
        requires place { frame.now.place < length symbol.now }
        ensures closes { ClosesRule (v0_counted symbol.now) symbol.now self.old self.new frame.now parts.old.items parts.new.items result }
        ensures adds { OnOk result (Adds (v0_counted symbol.now) self.old self.new (owed_behind (v0_counted symbol.now) frame.now parts.old.items) 0) }
        ensures few { AddsFew (v0_counted symbol.now) self.old self.new frame.now parts.old.items }
        ensures pays { OnOk result ((at : ℕ) → Pays (v0_counted symbol.now) self.old self.new at at) }
        ensures keeps { KeepsRoom (v0_counted symbol.now) self.old self.new parts.old parts.new }
        ensures full { NeedsRoom (v0_counted symbol.now) self.old self.new parts.old parts.new result }
    {
        self.close_rule(symbol, *frame, parts)
    }

    ghost laws = { v0_counted_laws };
}
