// What is noted of a node, derived from what is noted of its parts: what another argument changes in its tree, and what its two words
// record.
#![tactic(auto)]

ghost use Rattle.std.specs.Prelude.{◌≡◌, ℕ, Bool, Some, Option, false, not};
ghost use Rattle.cpp_tree.specs.declared.node.Node.{Node};
ghost use Rattle.cpp_tree.specs.declared.node.Free.{Free};
ghost use Rattle.cpp_tree.specs.declared.node.ByArgument.{ByArgument};
ghost use Rattle.cpp_tree.specs.Compact.{class_kept, arguments_kept, returns_kept, kept, with_elements, with_head, with_arguments};
ghost use Rattle.cpp_tree.specs.Notes.{itself, passed, joined, of_cell, of_head, collapses_from, collapses, is_structor_node};

use crate::compact::TypeHead;
use crate::node::{ByArgument, HeadFrom, Node};

/// What another argument changes in a tree with one part: its packs.
#[inline(always)]
#[tactic(auto, unfolding(crate::specs::Notes::passed))]
pub(crate) fn passed(part: ByArgument) -> ByArgument
    ensures { result ≡ passed part }
{
    ByArgument {
        is_bare: part.is_bare,
        head: HeadFrom::Own,
        empty_with: false,
        empty_without: false,
    }
}

/// What another argument changes in a tree with two parts.
#[inline(always)]
#[tactic(auto, unfolding(crate::specs::Notes::joined))]
pub(crate) fn joined(one: ByArgument, other: ByArgument) -> ByArgument
    ensures { result ≡ joined one other }
{
    ByArgument {
        is_bare: one.is_bare | other.is_bare,
        head: HeadFrom::Own,
        empty_with: false,
        empty_without: false,
    }
}

/// What another argument changes in a cell of a list.
#[inline(always)]
pub(crate) fn of_cell(one: ByArgument, other: ByArgument) -> ByArgument
    ensures { result ≡ of_cell one other }
{
    ByArgument {
        is_bare: one.is_bare | other.is_bare,
        head: HeadFrom::Own,
        empty_with: one.empty_with & other.empty_with,
        empty_without: one.empty_without & other.empty_without,
    }
}

/// What another argument changes in a type that has its head from a part.
#[inline(always)]
pub(crate) fn of_head(head: HeadFrom, part: ByArgument) -> ByArgument
    ensures { result ≡ of_head head part }
{
    ByArgument {
        is_bare: part.is_bare,
        head,
        empty_with: false,
        empty_without: false,
    }
}

/// Where the head of an rvalue reference to a type comes from.
#[inline(always)]
#[tactic(auto, unfolding(crate::specs::Notes::collapses_from))]
pub(crate) fn collapsed_from(head: HeadFrom) -> HeadFrom
    ensures { result ≡ collapses_from head }
{
    match head {
        HeadFrom::Own => HeadFrom::Own,
        _ => HeadFrom::Collapsed,
    }
}

/// What two words record of an rvalue reference to a type.
#[inline(always)]
#[tactic(auto, unfolding(crate::specs::Compact::class_kept, crate::specs::Compact::arguments_kept, crate::specs::Compact::untagged_kept, crate::specs::Compact::returns_kept, crate::specs::Compact::count_kept, crate::specs::Compact::run_kept, crate::specs::Compact::has_pack_kept, crate::specs::Notes::collapses))]
pub(crate) fn collapsed(words: TypeHead) -> TypeHead
    ensures { (n : Node) (packs : Option ℕ) (free : Free) (is_empty : Bool) (l : ByArgument) (first second : ℕ) → kept n packs free is_empty l result first second ≡ with_head n packs free is_empty l (collapses (class_kept words first second)) }
{
    match words {
        TypeHead::Lvalue => TypeHead::Lvalue,
        TypeHead::OfElement => TypeHead::CollapsedOfElement,
        TypeHead::CollapsedOfElement => TypeHead::CollapsedOfElement,
        _ => TypeHead::Rvalue,
    }
}

/// What two words record of a type that has the head of another type.
#[inline(always)]
#[tactic(auto, unfolding(crate::specs::Compact::class_kept, crate::specs::Compact::arguments_kept, crate::specs::Compact::untagged_kept, crate::specs::Compact::returns_kept, crate::specs::Compact::count_kept, crate::specs::Compact::run_kept, crate::specs::Compact::has_pack_kept))]
pub(crate) fn of_type(words: TypeHead) -> TypeHead
    ensures { (n : Node) (packs : Option ℕ) (free : Free) (is_empty : Bool) (l : ByArgument) (first second : ℕ) → kept n packs free is_empty l result first second ≡ with_head n packs free is_empty l (class_kept words first second) }
{
    match words {
        TypeHead::Arguments => TypeHead::Plain,
        TypeHead::ReturningArguments => TypeHead::Plain,
        TypeHead::Tagged => TypeHead::Plain,
        TypeHead::Elements => TypeHead::Plain,
        TypeHead::ElementsWithPack => TypeHead::Plain,
        _ => words,
    }
}

/// What two words record of a name that ends in another name.
#[inline(always)]
#[tactic(auto, unfolding(crate::specs::Compact::class_kept, crate::specs::Compact::arguments_kept, crate::specs::Compact::untagged_kept, crate::specs::Compact::returns_kept, crate::specs::Compact::count_kept, crate::specs::Compact::run_kept, crate::specs::Compact::has_pack_kept))]
pub(crate) fn of_name(words: TypeHead) -> TypeHead
    ensures { (n : Node) (packs : Option ℕ) (free : Free) (l : ByArgument) (first second : ℕ) → kept n packs free false l result first second ≡ with_arguments n packs free l (arguments_kept words first second) (returns_kept words) }
{
    match words {
        TypeHead::Arguments => TypeHead::Arguments,
        TypeHead::ReturningArguments => TypeHead::ReturningArguments,
        _ => TypeHead::Plain,
    }
}

/// What two words record of an instance of a template.
#[inline(always)]
#[tactic(auto, unfolding(crate::specs::Nodes::under_kept, crate::specs::Compact::class_kept, crate::specs::Compact::arguments_kept, crate::specs::Compact::untagged_kept, crate::specs::Compact::returns_kept, crate::specs::Compact::count_kept, crate::specs::Compact::run_kept, crate::specs::Compact::has_pack_kept))]
pub(crate) fn of_instance(template: Node) -> TypeHead
    ensures { (n : Node) (packs : Option ℕ) (free : Free) (l : ByArgument) (first : ℕ) → kept n packs free false l result first 0 ≡ with_arguments n packs free l (Some (itself first)) (not (is_structor_node template)) }
{
    if template.is_structor() {
        TypeHead::Arguments
    } else {
        TypeHead::ReturningArguments
    }
}

/// What two words record of the elements of a list, by whether a pack is among them.
#[inline(always)]
#[tactic(auto, unfolding(crate::specs::Compact::class_kept, crate::specs::Compact::arguments_kept, crate::specs::Compact::untagged_kept, crate::specs::Compact::returns_kept, crate::specs::Compact::count_kept, crate::specs::Compact::run_kept, crate::specs::Compact::has_pack_kept))]
pub(crate) fn of_elements(has_pack: bool) -> TypeHead
    ensures { (n : Node) (packs : Option ℕ) (free : Free) (is_empty : Bool) (l : ByArgument) (first second : ℕ) → kept n packs free is_empty l result first second ≡ with_elements n packs free is_empty l first second has_pack }
{
    if has_pack {
        TypeHead::ElementsWithPack
    } else {
        TypeHead::Elements
    }
}
