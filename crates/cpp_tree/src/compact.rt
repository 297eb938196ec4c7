// Entries in few bytes, as a table holds them.
#![tactic(auto)]

ghost use Rattle.std.specs.Prelude.{◌≡◌};
ghost use Rattle.cpp_tree.specs.Compact.{packs_kept, placed_kept, class_kept, arguments_kept, untagged_kept, returns_kept, count_kept, run_kept, has_pack_kept, free_kept, entry_of};
ghost use Rattle.cpp_tree.specs.Nodes.{by_none};
ghost use Rattle.cpp_tree.specs.Notes.{bare_entry};

use crate::node::{ByArgument, Entry, Free, Head, HeadClass, HeadFrom, Node, Placed, under_of};

/// What the two words next to a node record. For a type: a list of elements. For a name: its
/// arguments, or the name without its tags, each with the argument that it is under. For a list:
/// its count, its run, and whether it has a pack among its elements.
#[derive(Clone, Copy)]
pub enum TypeHead {
    Plain,
    FunctionOrArray,
    Lvalue,
    Rvalue,
    OfElement,
    CollapsedOfElement,
    Arguments,
    ReturningArguments,
    Tagged,
    Elements,
    ElementsWithPack,
}

/// How many parameters are free. The number of the only one, or the greatest of several, is kept apart: an enum that holds the
/// number would make an entry 56 bytes.
#[derive(Clone, Copy)]
pub enum FreeCount {
    None,
    One,
    Several,
}

/// An entry in 48 bytes: the two words are shared by what no node has at once (the arguments of a name, the name under its
/// tags, the elements of a list, the head of a type).
#[derive(Clone, Copy)]
pub struct Compact {
    pub node: Node,
    /// The length of the packs plus one, or 0 for no packs.
    pub packs: u32,
    pub first: u32,
    pub second: u32,
    /// The number of the free parameter if there is one, and the greatest if there are several.
    pub number: u32,
    pub free: FreeCount,
    pub is_empty: bool,
    pub words: TypeHead,
    pub by_argument: ByArgument,
}

const _: () = prove!(std::mem::size_of::<Compact>() == 48);

/// The length of the packs.
#[inline(always)]
#[tactic(auto, unfolding(crate::specs::Compact::packs_kept))]
pub(crate) fn packs(kept: u32) -> Option<u32>
    ensures { result ≡ packs_kept kept }
{
    if kept == 0 { None } else { Some(kept - 1) }
}

/// The tree of the node in the first word, under the argument in the second.
#[inline(always)]
fn placed(first: u32, second: u32) -> Placed
    ensures { result ≡ placed_kept first second }
{
    Placed {
        node: first,
        under: under_of(second),
    }
}

/// The head of a type.
#[inline(always)]
#[tactic(auto, unfolding(crate::specs::Compact::class_kept))]
pub(crate) fn class(words: TypeHead, first: u32, second: u32) -> HeadClass
    ensures { result ≡ class_kept words first second }
{
    match words {
        TypeHead::FunctionOrArray => HeadClass::Known(Head::FunctionOrArray),
        TypeHead::Lvalue => HeadClass::Known(Head::Lvalue),
        TypeHead::Rvalue => HeadClass::Known(Head::Rvalue),
        TypeHead::OfElement => HeadClass::OfElement(placed(first, second)),
        TypeHead::CollapsedOfElement => HeadClass::CollapsedOfElement(placed(first, second)),
        _ => HeadClass::Known(Head::Plain),
    }
}

/// The arguments that a name ends in.
#[inline(always)]
#[tactic(auto, unfolding(crate::specs::Compact::arguments_kept))]
fn arguments(words: TypeHead, first: u32, second: u32) -> Option<Placed>
    ensures { result ≡ arguments_kept words first second }
{
    match words {
        TypeHead::Arguments => Some(placed(first, second)),
        TypeHead::ReturningArguments => Some(placed(first, second)),
        _ => None,
    }
}

/// The name under the tags of a name.
#[inline(always)]
#[tactic(auto, unfolding(crate::specs::Compact::untagged_kept))]
fn untagged(words: TypeHead, first: u32, second: u32) -> Option<Placed>
    ensures { result ≡ untagged_kept words first second }
{
    match words {
        TypeHead::Tagged => Some(placed(first, second)),
        _ => None,
    }
}

/// Whether a function with such a name has its return type before its parameters.
#[inline(always)]
#[tactic(auto, unfolding(crate::specs::Compact::returns_kept))]
fn returns(words: TypeHead) -> bool
    ensures { result ≡ returns_kept words }
{
    match words {
        TypeHead::ReturningArguments => true,
        _ => false,
    }
}

/// How many elements a list has.
#[inline(always)]
#[tactic(auto, unfolding(crate::specs::Compact::count_kept))]
fn count(words: TypeHead, first: u32) -> u32
    ensures { result ≡ count_kept words first }
{
    match words {
        TypeHead::Elements => first,
        TypeHead::ElementsWithPack => first,
        _ => 0,
    }
}

/// How many nodes right before a cell are the later cells of its list.
#[inline(always)]
#[tactic(auto, unfolding(crate::specs::Compact::run_kept))]
fn run(words: TypeHead, second: u32) -> u32
    ensures { result ≡ run_kept words second }
{
    match words {
        TypeHead::Elements => second,
        TypeHead::ElementsWithPack => second,
        _ => 0,
    }
}

/// Whether a list has a pack among its elements.
#[inline(always)]
#[tactic(auto, unfolding(crate::specs::Compact::has_pack_kept))]
fn has_pack(words: TypeHead) -> bool
    ensures { result ≡ has_pack_kept words }
{
    match words {
        TypeHead::ElementsWithPack => true,
        _ => false,
    }
}

/// The free parameters.
#[inline(always)]
#[tactic(auto, unfolding(crate::specs::Compact::free_kept))]
fn free_parameters(kept: FreeCount, number: u32) -> Free
    ensures { result ≡ free_kept kept number }
{
    match kept {
        FreeCount::None => Free::None,
        FreeCount::One => Free::One(number),
        FreeCount::Several => Free::Several(number),
    }
}

impl Compact {
    /// The entry that is kept.
    #[inline(always)]
    pub(crate) fn entry(self) -> Entry
        ensures { result ≡ entry_of self }
    {
        Entry {
            node: self.node,
            packs: packs(self.packs),
            free: free_parameters(self.free, self.number),
            is_empty: self.is_empty,
            by_argument: self.by_argument,
            class: class(self.words, self.first, self.second),
            arguments: arguments(self.words, self.first, self.second),
            untagged: untagged(self.words, self.first, self.second),
            returns: returns(self.words),
            count: count(self.words, self.first),
            run: run(self.words, self.second),
            has_pack: has_pack(self.words),
        }
    }
}

/// What another argument changes in a tree without free parameters.
#[inline(always)]
pub(crate) fn by_none(empty: bool) -> ByArgument
    ensures { result ≡ by_none empty }
{
    ByArgument {
        is_bare: false,
        head: HeadFrom::Own,
        empty_with: empty,
        empty_without: empty,
    }
}

/// A node with nothing noted.
#[inline(always)]
#[tactic(auto, unfolding(crate::specs::Compact::packs_kept, crate::specs::Compact::class_kept, crate::specs::Compact::arguments_kept, crate::specs::Compact::untagged_kept, crate::specs::Compact::returns_kept, crate::specs::Compact::count_kept, crate::specs::Compact::run_kept, crate::specs::Compact::has_pack_kept, crate::specs::Compact::free_kept))]
pub(crate) fn bare(node: Node, is_empty: bool) -> Compact
    ensures { entry_of result ≡ bare_entry node is_empty }
{
    Compact {
        node,
        packs: 0,
        first: 0,
        second: 0,
        number: 0,
        free: FreeCount::None,
        is_empty,
        words: TypeHead::Plain,
        by_argument: by_none(is_empty),
    }
}
