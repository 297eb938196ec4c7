// What a type or a list is under an argument: its head, the length of its packs, whether it prints nothing.
#![tactic(auto)]

ghost use Rattle.std.specs.Prelude.{◌≡◌, ◌<◌, ◌+◌, ◌^◌, length};
ghost use Rattle.cpp_grammar.specs.Items as heads;
ghost use Rattle.cpp_term.specs.Items as items;
ghost use Rattle.cpp_grammar.specs.Items.{collapsed};
ghost use Rattle.cpp_term.specs.Items.{class_of, plain_class, element_head};
ghost use Rattle.cpp_term.specs.Scope.{pack_length};
ghost use Rattle.cpp_tree.specs.Nodes.{over, trees, tree_under, class_is, IsClassBelow, IsPlacedBelow, IsTable, head_of};
ghost use Rattle.cpp_tree.specs.Notes.{packs_by, empty_by, class_by};

use crate::node::{ByArgument, Head, HeadClass, HeadFrom, Placed};
use crate::nodes::Nodes;

impl Nodes {
    /// The class of the head of a type.
    #[inline(always)]
    fn class(&self, symbol: &[u8], ty: Placed) -> HeadClass
        requires table { IsTable (over symbol.now self.now) }
        requires ty { IsPlacedBelow (length self.now.nodes) ty }
        requires room { length self.now.nodes + 1 < 2 ^ 32 }
        ensures class { class_is (trees (over symbol.now self.now)) result ≡ class_of (tree_under (trees (over symbol.now self.now)) ty) }
        ensures below { IsClassBelow (length self.now.nodes) result }
    {
        let held = self.entry(ty.node);
        match ty.under {
            None => held.class,
            Some(argument) => {
                let given = self.given_alone(symbol, argument, held.free);
                chosen(
                    held.by_argument.head,
                    held.class,
                    self.given_class(symbol, given),
                )
            }
        }
    }

    /// The head of a type without an index.
    fn plain_head(&self, symbol: &[u8], ty: Placed) -> Head
        requires table { IsTable (over symbol.now self.now) }
        requires ty { IsPlacedBelow (length self.now.nodes) ty }
        requires room { length self.now.nodes + 1 < 2 ^ 32 }
        ensures { head_of result ≡ plain_class (class_of (tree_under (trees (over symbol.now self.now)) ty)) }
    {
        match self.class(symbol, ty) {
            HeadClass::Known(head) => head,
            HeadClass::OfElement(_) => Head::Plain,
            HeadClass::CollapsedOfElement(_) => Head::Rvalue,
        }
    }

    /// The head of a list's element at an index.
    fn element_head(&self, symbol: &[u8], index: Option<u32>, elements: Placed) -> Head
        requires table { IsTable (over symbol.now self.now) }
        requires elements { IsPlacedBelow (length self.now.nodes) elements }
        requires room { length self.now.nodes + 1 < 2 ^ 32 }
        ensures { head_of result ≡ element_head index (tree_under (trees (over symbol.now self.now)) elements) }
    {
        match index {
            Some(i) => self.plain_head(symbol, self.element(symbol, elements, i)),
            None => Head::Plain,
        }
    }

    /// The head of a type at an index.
    pub fn head(&self, symbol: &[u8], index: Option<u32>, ty: Placed) -> Head
        requires table { IsTable (over symbol.now self.now) }
        requires ty { IsPlacedBelow (length self.now.nodes) ty }
        requires room { length self.now.nodes + 1 < 2 ^ 32 }
        ensures { head_of result ≡ items.head (record { index = index }) (tree_under (trees (over symbol.now self.now)) ty) }
    {
        match self.class(symbol, ty) {
            HeadClass::Known(head) => head,
            HeadClass::OfElement(elements) => self.element_head(symbol, index, elements),
            HeadClass::CollapsedOfElement(elements) => {
                collapsed(self.element_head(symbol, index, elements))
            }
        }
    }

    /// The length of the packs of a tree, if it has some.
    #[inline(always)]
    pub fn packs(&self, symbol: &[u8], tree: Placed) -> Option<u32>
        requires table { IsTable (over symbol.now self.now) }
        requires tree { IsPlacedBelow (length self.now.nodes) tree }
        requires room { length self.now.nodes + 1 < 2 ^ 32 }
        ensures { result ≡ pack_length (tree_under (trees (over symbol.now self.now)) tree) }
    {
        let held = self.entry(tree.node);
        match tree.under {
            None => held.packs,
            Some(argument) => packs_by(
                held.by_argument.is_bare,
                self.given_packs(symbol, argument),
            ),
        }
    }

    /// Whether a tree prints nothing.
    #[inline(always)]
    pub fn prints_nothing(&self, symbol: &[u8], tree: Placed) -> bool
        requires table { IsTable (over symbol.now self.now) }
        requires tree { IsPlacedBelow (length self.now.nodes) tree }
        requires room { length self.now.nodes + 1 < 2 ^ 32 }
        ensures { (c : items.Context) → result ≡ items.is_empty c (tree_under (trees (over symbol.now self.now)) tree) }
    {
        let held = self.entry(tree.node);
        match tree.under {
            None => held.is_empty,
            Some(argument) => empty_by(
                is_none(self.given_packs(symbol, argument)),
                held.by_argument,
            ),
        }
    }
}

/// The length of the packs of a tree with another argument.
#[tactic(auto, unfolding(crate::specs::Notes::packs_by))]
fn packs_by(is_bare: bool, given: Option<u32>) -> Option<u32>
    ensures { result ≡ packs_by is_bare given }
{
    if is_bare { given } else { None }
}

/// Whether packs have no elements.
#[tactic(auto, unfolding(cpp_grammar::specs::Items::is_none_of))]
fn is_none(packs: Option<u32>) -> bool
    ensures { result ≡ heads.is_none_of packs }
{
    match packs {
        None => false,
        Some(count) => count == 0,
    }
}

/// Whether a tree with another argument prints nothing.
#[inline(always)]
#[tactic(auto, unfolding(crate::specs::Notes::empty_by))]
pub(crate) fn empty_by(none: bool, held: ByArgument) -> bool
    ensures { result ≡ empty_by none held }
{
    if none {
        held.empty_with
    } else {
        held.empty_without
    }
}

/// The head of a type with another argument, by the type's own head and the head that a parameter
/// has with this argument.
#[tactic(auto, unfolding(crate::specs::Notes::class_by, crate::specs::Notes::collapses))]
fn chosen(from: HeadFrom, own: HeadClass, given: HeadClass) -> HeadClass
    ensures { result ≡ class_by from own given }
{
    match from {
        HeadFrom::Own => own,
        HeadFrom::Argument => given,
        HeadFrom::Collapsed => match given {
            HeadClass::Known(Head::Lvalue) => HeadClass::Known(Head::Lvalue),
            HeadClass::Known(_) => HeadClass::Known(Head::Rvalue),
            HeadClass::OfElement(elements) => HeadClass::CollapsedOfElement(elements),
            HeadClass::CollapsedOfElement(elements) => HeadClass::CollapsedOfElement(elements),
        },
    }
}

/// The head of an rvalue reference to a type with this head.
#[tactic(auto, unfolding(crate::specs::Nodes::head_of, cpp_grammar::specs::Items::collapsed))]
fn collapsed(head: Head) -> Head
    ensures { head_of result ≡ collapsed (head_of head) }
{
    match head {
        Head::Lvalue => Head::Lvalue,
        _ => Head::Rvalue,
    }
}

impl Nodes {
    /// Whether a type is a function or an array at an index.
    pub fn is_function(&self, symbol: &[u8], ty: Placed, index: Option<u32>) -> bool
        requires table { IsTable (over symbol.now self.now) }
        requires ty { IsPlacedBelow (length self.now.nodes) ty }
        requires room { length self.now.nodes + 1 < 2 ^ 32 }
        ensures { result ≡ heads.is_funarr (items.head (record { index = index }) (tree_under (trees (over symbol.now self.now)) ty)) }
    {
        is_function(self.head(symbol, index, ty))
    }

    /// Whether a type is a reference at an index.
    pub fn is_reference(&self, symbol: &[u8], ty: Placed, index: Option<u32>) -> bool
        requires table { IsTable (over symbol.now self.now) }
        requires ty { IsPlacedBelow (length self.now.nodes) ty }
        requires room { length self.now.nodes + 1 < 2 ^ 32 }
        ensures { result ≡ heads.is_reference (items.head (record { index = index }) (tree_under (trees (over symbol.now self.now)) ty)) }
    {
        is_reference(self.head(symbol, index, ty))
    }
}

/// Whether the head is that of a function or an array.
#[tactic(auto, unfolding(crate::specs::Nodes::head_of, cpp_grammar::specs::Items::is_funarr))]
fn is_function(head: Head) -> bool
    ensures { result ≡ heads.is_funarr (head_of head) }
{
    match head {
        Head::FunctionOrArray => true,
        _ => false,
    }
}

/// Whether the head is that of a reference.
#[tactic(auto, unfolding(crate::specs::Nodes::head_of, cpp_grammar::specs::Items::is_reference))]
fn is_reference(head: Head) -> bool
    ensures { result ≡ heads.is_reference (head_of head) }
{
    match head {
        Head::Lvalue => true,
        Head::Rvalue => true,
        _ => false,
    }
}
