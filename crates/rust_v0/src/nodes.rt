// The table of the nodes that a symbol is linked to: how it begins, what is added where a rule closes, and what references
// denote.

ghost use Rattle.std.specs.Prelude.{◌≡◌, ◌≢◌, ℕ, ◌+◌, ◌<◌, ◌≤◌, ◌++◌, ◌^◌, List, [], length, get_or, slice_index, Some, Option, slice_set, replicate, true, false, Ok, IfOk, OnOk, IfErr};
ghost use Rattle.sym_core.specs.declared.refusal.Refusal.TheVariants as refusals;
ghost use Rattle.rust_references.specs.declared.targets.Target.TheVariants as target;
ghost use Rattle.rust_references.specs.Targets.{IsNoted};
ghost use Rattle.rust_v0.specs.Made.{Made};
ghost use Rattle.rust_v0.specs.PartValues.{IsNumber, IsPart};
ghost use Rattle.rust_grammar.specs.Unfold.{At, Meaning, meaning, refers_to_path, refers_to_type, refers_to_constant, as_path, as_type, as_constant};
ghost use Rattle.rust_grammar.specs.Value.{Value};
ghost use Rattle.rust_grammar.specs.Productions.{is_reference, makes_part};
ghost use Rattle.rust_v0.specs.CodeSemantics as semantics;
ghost use Rattle.rust_v0.specs.CodeSemantics.{Outcome, of_node};
ghost use Rattle.rust_v0.specs.Made.{MadeGives, ground};
ghost use Rattle.rust_v0.specs.RustNodes.{v0_view, Keeps, AddsOne, IsPaid, first_nodes, refers_by};
ghost use Rattle.sym_link.specs.Linking.{Gives};
ghost use Rattle.sym_link.specs.Driving.{AreAll};
ghost use Rattle.sym_core.specs.Number.{FitsSymbol};
ghost use Rattle.rust_tree.specs.Nodes.{trees};

use crate::operands::number;
use crate::part::{Added, NO_SUCH_PARTS, Part};
use crate::semantics::{
    Site, array, binding, bool_constant, char_constant, const_pointer, constant_argument,
    crate_root, dyn_type, function, generic, inherent_impl, lifetime_argument, more_bounds,
    more_types, mut_pointer, mutable_reference, nested, shared_reference, signed_constant, slice,
    symbol, trait_definition, trait_impl, tuple, type_argument, unsigned_constant,
};
use rust_grammar::production::Production;
use rust_references::named::{constant_named, path_named, type_named};
use rust_references::targets::Target;
use rust_tree::Nodes;
use rust_tree::node::{Arguments, Bindings, Bounds, Constant, Node, Ty, Types};
use std::alloc::Global;
use sym_core::Refusal;

/// What is kept for an open rule: how many lifetimes are bound around it.
#[derive(Clone, Copy)]
pub struct BoundLifetimes {
    pub bound: u64,
}

/// The nodes of a symbol that is being linked, and what a back reference to each of its places denotes.
#[derive(Drop)]
pub struct RustNodes {
    pub nodes: Nodes,
    pub targets: Vec<Target>,
    pub alloc: Global,
}

/// The targets of places at which nothing has ended, added at once.
const NO_TARGETS: [Target; 64] = [Target::Nothing; 64];

/// Adds places for targets, up to this place.
pub fn reach(targets: &mut Vec<Target>, place: usize) -> Result<(), Refusal>
    requires { place < 2 ^ 32 }
    ensures more { (k : ℕ) × (targets.new.items ≡ targets.old.items ++ replicate k target.Nothing) }
    ensures there { OnOk result (place < length targets.new.items) }
    ensures memory { IfErr result (λ e. e ≡ refusals.Memory) }
{
    while targets.len() <= place {
        targets.extend_from_slice(&NO_TARGETS)?;
    }
    Ok(())
}

/// The target of a reference by its number, which counts the bytes after `_R`: what began at that place and has ended.
fn referred(targets: &[Target], number: Option<u64>) -> Target
    ensures { (n : ℕ) → IsNumber number n → result ≡ get_or targets.now (n + 2) target.Nothing }
{
    let Some(n) = number else {
        return Target::Nothing;
    };
    if n >= targets.len() as u64 {
        return Target::Nothing;
    }
    match targets.get(n as usize + 2) {
        Some(target) => *target,
        None => Target::Nothing,
    }
}

/// Notes the ending of what began at a place.
fn note(targets: &mut Vec<Target>, place: u32, target: Target)
    ensures length { length targets.new.items ≡ length targets.old.items }
    ensures noted { place < length targets.old.items → targets.new.items ≡ slice_set targets.old.items place target }
{
    if (place as usize) < targets.len() {
        targets[place as usize] = target;
    }
}

/// A node as a part, and as a target where references may name it.
fn placed(node: Node, number: u32) -> (Added, Option<Target>)
    ensures { result ≡ semantics.placed node number }
{
    match node {
        Node::Path(_) => (Added::Path(number), Some(Target::Path(number))),
        Node::Ty(_) => (Added::Type(number), Some(Target::Type(number))),
        Node::Constant(_) => (Added::Constant(number), Some(Target::Constant(number))),
        Node::Arguments(_) => (Added::Arguments(number), None),
        Node::Types(_) => (Added::Types(number), None),
        Node::Bounds(_) => (Added::Bounds(number), None),
        Node::Bindings(_) => (Added::Bindings(number), None),
        Node::Symbol(_) => (Added::Symbol(number), None),
    }
}

impl RustNodes {
    /// A table without nodes, which no symbol can be linked with before `restart`. The call takes no memory.
    pub fn idle(alloc: Global) -> RustNodes {
        RustNodes {
            nodes: Nodes::new(alloc),
            targets: Vec::new(alloc),
            alloc,
        }
    }

    /// Forgets the symbol, and begins another one with empty lists, and a text list with only the decimal of zero. The memory
    /// of the lists is kept.
    ///
    /// # Errors
    ///
    /// `Memory` where a list couldn't grow.
    pub fn restart(&mut self, symbol: &[u8]) -> Result<(), Refusal>
        requires { FitsSymbol symbol.now }
        ensures keeps { OnOk result (Keeps symbol.now self.new []) }
        ensures paid { OnOk result (IsPaid self.new 0) }
        ensures first { OnOk result (length self.new.nodes.nodes ≡ first_nodes) }
        ensures memory { IfErr result (λ e. e ≡ refusals.Memory) }
    {
        self.nodes.clear();
        self.targets.clear();
        reach(&mut self.targets, symbol.len())?;
        self.nodes.push(Node::Arguments(Arguments::None))?;
        self.nodes.push(Node::Bounds(Bounds::None))?;
        self.nodes.push(Node::Bindings(Bindings::None))?;
        self.nodes.push_decimal(self.alloc, 0, false)?;
        Ok(())
    }

    /// A table for a symbol, of empty lists, and a text list with only the decimal of zero.
    ///
    /// # Errors
    ///
    /// `Memory` where a list couldn't grow.
    pub fn new(alloc: Global, symbol: &[u8]) -> Result<RustNodes, Refusal>
        requires { FitsSymbol symbol.now }
        ensures keeps { IfOk result (λ linked. Keeps symbol.now linked []) }
        ensures paid { IfOk result (λ linked. IsPaid linked 0) }
        ensures first { IfOk result (λ linked. length linked.nodes.nodes ≡ first_nodes) }
        ensures memory { IfErr result (λ e. e ≡ refusals.Memory) }
    {
        let mut linked = RustNodes::idle(alloc);
        linked.restart(symbol)?;
        Ok(linked)
    }

    /// Adds a node that began at a place.
    // The node is stored as it is made, in 56 bytes with its need. In 32 bytes, with large numbers
    // and decoded names in a list of their own, it would be taken apart here, and real symbols
    // would take a tenth to a quarter more instructions.
    #[inline(always)]
    fn add(&mut self, place: u32, node: Node) -> Result<Added, Refusal>
        requires room { length self.old.nodes.nodes + 1 < 2 ^ 32 }
        ensures gives { (at : At) (read : Meaning) → at.place ≡ place → place < length self.old.targets.items → Keeps at.symbol self.old at.ended
            → MadeGives at.symbol self.old.nodes at (Ok (Made.Node node)) read → Gives (v0_view at.symbol) self.new (semantics.as_part result) read }
        ensures adds { AddsOne self.old self.new result }
        ensures more { OnOk result (length self.new.nodes.nodes ≡ length self.old.nodes.nodes + 1) }
    {
        let number = self.nodes.push(node)?;
        let (added, target) = placed(node, number);
        if let Some(target) = target {
            note(&mut self.targets, place, target);
        }
        Ok(added)
    }

    /// What a path's reference denotes.
    fn refer_to_path(&mut self, place: u32, bound: u64, found: Target) -> Result<Part, Refusal>
        ensures gives { (at : At) (known : Option Value) → at.place ≡ place → at.bound ≡ bound → place < length self.old.targets.items → Keeps at.symbol self.old at.ended
            → IsNoted (trees at.symbol self.old.nodes.nodes) found known → Gives (v0_view at.symbol) self.new result (refers_to_path at (as_path known)) }
        ensures nodes { self.new.nodes ≡ self.old.nodes }
        ensures places { length self.new.targets.items ≡ length self.old.targets.items }
        ensures never { IfErr result (λ e. e ≢ refusals.Memory) }
    {
        let node = path_named(&self.nodes, found, place, bound)?;
        note(&mut self.targets, place, found);
        Ok(Part::Path(node))
    }

    /// What a type's reference denotes: a type, or a path.
    fn refer_to_type(&mut self, place: u32, bound: u64, found: Target) -> Result<Part, Refusal>
        ensures gives { (at : At) (known : Option Value) → at.place ≡ place → at.bound ≡ bound → place < length self.old.targets.items → Keeps at.symbol self.old at.ended
            → IsNoted (trees at.symbol self.old.nodes.nodes) found known → Gives (v0_view at.symbol) self.new result (refers_to_type at (as_type known)) }
        ensures nodes { self.new.nodes ≡ self.old.nodes }
        ensures places { length self.new.targets.items ≡ length self.old.targets.items }
        ensures never { IfErr result (λ e. e ≢ refusals.Memory) }
    {
        let node = type_named(&self.nodes, found, place, bound)?;
        note(&mut self.targets, place, found);
        Ok(Part::Type(node))
    }

    /// What a constant's reference denotes.
    fn refer_to_constant(&mut self, place: u32, found: Target) -> Result<Part, Refusal>
        ensures gives { (at : At) (known : Option Value) → at.place ≡ place → place < length self.old.targets.items → Keeps at.symbol self.old at.ended
            → IsNoted (trees at.symbol self.old.nodes.nodes) found known → Gives (v0_view at.symbol) self.new result (refers_to_constant at (as_constant known)) }
        ensures nodes { self.new.nodes ≡ self.old.nodes }
        ensures places { length self.new.targets.items ≡ length self.old.targets.items }
        ensures never { IfErr result (λ e. e ≢ refusals.Memory) }
    {
        let node = constant_named(found, place)?;
        note(&mut self.targets, place, found);
        Ok(Part::Constant(node))
    }

    /// What a reference at a place means, from what it names.
    fn refer_as(
        &mut self,
        production: Production,
        place: u32,
        bound: u64,
        found: Target,
    ) -> Result<Part, Refusal>
        ensures gives { (at : At) (known : Option Value) → is_reference production ≡ true → at.place ≡ place → at.bound ≡ bound → place < length self.old.targets.items
            → Keeps at.symbol self.old at.ended → IsNoted (trees at.symbol self.old.nodes.nodes) found known → Gives (v0_view at.symbol) self.new result (refers_by production at known) }
        ensures nodes { self.new.nodes ≡ self.old.nodes }
        ensures places { length self.new.targets.items ≡ length self.old.targets.items }
        ensures never { IfErr result (λ e. e ≢ refusals.Memory) }
    {
        match production {
            Production::PathReference => self.refer_to_path(place, bound, found),
            Production::TypeReference => self.refer_to_type(place, bound, found),
            Production::ConstantReference => self.refer_to_constant(place, found),
            _ => Err(NO_SUCH_PARTS),
        }
    }

    /// What a reference with these parts means.
    pub fn reference(
        &mut self,
        production: Production,
        site: Site,
        parts: &[Part],
    ) -> Result<Part, Refusal>
        ensures gives { (at : At) (known : List Value) → is_reference production ≡ true → at.place ≡ site.place → at.bound ≡ site.bound
            → site.place < length self.old.targets.items → Keeps at.symbol self.old at.ended
            → AreAll (IsPart (ground at.symbol self.old.nodes)) parts.now known
            → Gives (v0_view at.symbol) self.new result (meaning production at known) }
        ensures nodes { self.new.nodes ≡ self.old.nodes }
        ensures places { length self.new.targets.items ≡ length self.old.targets.items }
        ensures never { IfErr result (λ e. e ≢ refusals.Memory) }
    {
        let (found, _) = number(parts)?;
        let target = referred(&self.targets, found);
        self.refer_as(production, site.place, site.bound, target)
    }

    /// Adds the node that a rule at a place has made, if it made one.
    #[inline(always)]
    pub fn add_made(&mut self, place: u32, made: Result<Node, Refusal>) -> Result<Added, Refusal>
        requires room { length self.old.nodes.nodes + 1 < 2 ^ 32 }
        requires never { IfErr made (λ e. e ≢ refusals.Memory) }
        ensures gives { (at : At) (read : Meaning) (meant : Outcome) → of_node made ≡ meant → at.place ≡ place → place < length self.old.targets.items → Keeps at.symbol self.old at.ended
            → MadeGives at.symbol self.old.nodes at meant read → Gives (v0_view at.symbol) self.new (semantics.as_part result) read }
        ensures adds { AddsOne self.old self.new result }
        ensures more { OnOk result (length self.new.nodes.nodes ≡ length self.old.nodes.nodes + 1) }
    {
        match made {
            Ok(node) => self.add(place, node),
            Err(refusal) => Err(refusal),
        }
    }

    /// Adds the node that a rule makes of these parts.
    #[inline(always)]
    pub fn add_by(
        &mut self,
        production: Production,
        site: Site,
        parts: &[Part],
    ) -> Result<Added, Refusal>
        requires room { length self.old.nodes.nodes + 1 < 2 ^ 32 }
        ensures gives { (at : At) (read : Meaning) → is_reference production ≡ false → makes_part production ≡ false
            → at.place ≡ site.place → site.byte ≡ slice_index at.symbol at.place → site.place < length self.old.targets.items → Keeps at.symbol self.old at.ended
            → MadeGives at.symbol self.old.nodes at (semantics.made production at.symbol at.place at.bound parts.now) read → Gives (v0_view at.symbol) self.new (semantics.as_part result) read }
        ensures adds { AddsOne self.old self.new result }
        ensures more { OnOk result (length self.new.nodes.nodes ≡ length self.old.nodes.nodes + 1) }
    {
        let place = site.place;
        match production {
            Production::Symbol => self.add_made(place, symbol(parts)),
            Production::Crate => self.add_made(place, crate_root(parts)),
            Production::InherentImpl => self.add_made(place, inherent_impl(parts)),
            Production::TraitImpl => self.add_made(place, trait_impl(parts)),
            Production::TraitDefinition => self.add_made(place, trait_definition(parts)),
            Production::Nested => self.add_made(place, nested(parts)),
            Production::Generic => self.add_made(place, generic(parts)),
            Production::LifetimeArgument => self.add_made(place, lifetime_argument(parts)),
            Production::ConstantArgument => self.add_made(place, constant_argument(parts)),
            Production::TypeArgument => self.add_made(place, type_argument(parts)),
            Production::BasicType => self.add(place, Node::Ty(Ty::Basic(site.byte))),
            Production::Array => self.add_made(place, array(parts)),
            Production::Slice => self.add_made(place, slice(parts)),
            Production::Tuple => self.add_made(place, tuple(parts)),
            Production::SharedReference => self.add_made(place, shared_reference(parts)),
            Production::MutableReference => self.add_made(place, mutable_reference(parts)),
            Production::ConstPointer => self.add_made(place, const_pointer(parts)),
            Production::MutPointer => self.add_made(place, mut_pointer(parts)),
            Production::Function => self.add_made(place, function(parts)),
            Production::Dyn => self.add_made(place, dyn_type(parts)),
            Production::TypesEnd => self.add(place, Node::Types(Types::None)),
            Production::TypesMore => self.add_made(place, more_types(parts)),
            Production::BoundsMore => self.add_made(place, more_bounds(parts)),
            Production::Binding => self.add_made(place, binding(parts)),
            Production::SignedConstant => self.add_made(
                place,
                signed_constant(place, site.byte, parts),
            ),
            Production::UnsignedConstant => self.add_made(
                place,
                unsigned_constant(place, site.byte, parts),
            ),
            Production::BoolConstant => self.add_made(place, bool_constant(parts)),
            Production::CharConstant => self.add_made(place, char_constant(place, parts)),
            Production::Placeholder => self.add(place, Node::Constant(Constant::Placeholder)),
            _ => Err(NO_SUCH_PARTS),
        }
    }
}
