// The sorts of names, encodings and elements, by their nodes.
#![tactic(auto)]

ghost use Rattle.std.specs.Prelude.{◌≡◌, ◌<◌, ◌≤◌, ℕ, length, MatchOption, Some, None};
ghost use Rattle.sym_print.specs.Unshared.{Unshared};
ghost use Rattle.cpp_tree.specs.Views.{plain_tree};
ghost use Rattle.cpp_layout.specs.Layout.{table_of};
ghost use Rattle.cpp_grammar.specs.Parts.{entity_of};
ghost use Rattle.cpp_parts.specs.Roles.{is_absent, name, encoding, element_of, rest_of, within, inside};
ghost use Rattle.cpp_parts.specs.Tasks.{count_of};
ghost use Rattle.cpp_parts.specs.Sorts.{name_by, encoding_by, AreNamesBelow, AreTypesBelow};

use crate::numbering::{Numbering, ordinal_of};
use cpp_layout::{Symbol, tree_production as production};

/// The sort of a name, with the nodes whose parts are listed.
#[derive(Clone, Copy)]
pub(crate) enum NameSort {
    /// A template and its arguments.
    Instance(u32, u32),
    /// A name before a tag.
    Tagged(u32),
    /// The entity of a local name, or a name that holds an initializer.
    Inner(u32),
    Abbreviation,
    Other,
}

/// The sort of an encoding.
#[derive(Clone, Copy)]
pub(crate) enum EncodingSort {
    /// A function: its name, its parameters, and whether it has no return type.
    Function(u32, u32, bool),
    /// A variable: its name.
    Variable(u32),
    /// A thunk or a clone: its target.
    Target(u32),
    Other,
}

/// The entity of a local name, without its default argument, which isn't printed.
fn entity_node(y: &Symbol, entity: u32) -> u32
    requires { entity < length y.now.table.nodes }
    ensures is { plain_tree (table_of y.now) result ≡ entity_of (plain_tree (table_of y.now) entity) }
    ensures below { result < length y.now.table.nodes }
{
    if y.node(entity).production == production::OF_DEFAULT {
        return y.part(entity, 0);
    }
    entity
}

/// The sort of a name.
pub(crate) fn name_sort(y: &Symbol, node: u32) -> NameSort
    requires { node < length y.now.table.nodes }
    ensures is { (tags : ℕ) (printed : Unshared) → name tags (plain_tree (table_of y.now) node) printed ≡ name_by y.now tags result printed }
    ensures below { AreNamesBelow (length y.now.table.nodes) result }
{
    let found = y.node(node).production;
    if found == production::INSTANCE {
        return NameSort::Instance(y.part(node, 0), y.part(node, 1));
    }
    if found == production::TAGGED {
        return NameSort::Tagged(y.part(node, 0));
    }
    if found == production::LOCAL {
        return NameSort::Inner(entity_node(y, y.part(node, 1)));
    }
    if found == production::NUMBERED_LOCAL {
        return NameSort::Inner(entity_node(y, y.part(node, 1)));
    }
    if found == production::HOLDER {
        return NameSort::Inner(y.part(node, 0));
    }
    if found == production::ABBREVIATION {
        return NameSort::Abbreviation;
    }
    NameSort::Other
}

/// Whether a function has no return type.
fn returns_nothing(y: &Symbol, returned: u32) -> bool
    requires { returned < length y.now.table.nodes }
    ensures { result ≡ is_absent (plain_tree (table_of y.now) returned) }
{
    if y.node(returned).production == production::ABSENT {
        return true;
    }
    false
}

/// The sort of an encoding.
pub(crate) fn encoding_sort(y: &Symbol, node: u32) -> EncodingSort
    requires { node < length y.now.table.nodes }
    ensures is { (specials : ℕ) (printed : Unshared) → encoding specials (plain_tree (table_of y.now) node) printed ≡ encoding_by y.now specials result printed }
    ensures below { AreTypesBelow (length y.now.table.nodes) result }
{
    let found = y.node(node).production;
    if found == production::FUNCTION {
        let nothing = returns_nothing(y, y.part(node, 1));
        return EncodingSort::Function(y.part(node, 0), y.part(node, 2), nothing);
    }
    if found == production::OBJECT {
        return EncodingSort::Variable(y.part(node, 0));
    }
    if found == production::THUNK {
        return EncodingSort::Target(y.part(node, 0));
    }
    if found == production::TABLE_THUNK {
        return EncodingSort::Target(y.part(node, 0));
    }
    if found == production::COVARIANT_THUNK {
        return EncodingSort::Target(y.part(node, 0));
    }
    if found == production::WIDE_THUNK {
        return EncodingSort::Target(y.part(node, 0));
    }
    if found == production::CLONE {
        return EncodingSort::Target(y.part(node, 0));
    }
    EncodingSort::Other
}

/// The first element of a list, or a pattern that is expanded.
pub(crate) fn element_node(y: &Symbol, node: u32) -> u32
    requires { node < length y.now.table.nodes }
    ensures is { plain_tree (table_of y.now) result ≡ element_of (plain_tree (table_of y.now) node) }
    ensures below { result < length y.now.table.nodes }
{
    if y.node(node).production == production::LIST {
        return y.part(node, 0);
    }
    node
}

/// The list after its first element, or the pattern again.
pub(crate) fn rest_node(y: &Symbol, node: u32) -> u32
    requires { node < length y.now.table.nodes }
    ensures is { plain_tree (table_of y.now) result ≡ rest_of (plain_tree (table_of y.now) node) }
    ensures below { result < length y.now.table.nodes }
{
    if y.node(node).production == production::LIST {
        return y.part(node, 1);
    }
    node
}

/// Where an element's own elements are: in the list of a pack, or in a pattern that is expanded.
pub(crate) fn node_within(y: &Symbol, node: u32) -> Option<u32>
    requires { node < length y.now.table.nodes }
    ensures is { MatchOption result (within (plain_tree (table_of y.now) node) ≡ None) (λ inner. within (plain_tree (table_of y.now) node) ≡ Some (plain_tree (table_of y.now) inner)) }
    ensures below { MatchOption result (Unit {0}) (λ inner. inner < length y.now.table.nodes) }
{
    let found = y.node(node).production;
    if found == production::PACK {
        return Some(y.part(node, 0));
    }
    if found == production::EXPANSION {
        return Some(y.part(node, 0));
    }
    None
}

/// How the elements of an element are numbered, by how the element itself is numbered.
#[tactic(auto, unfolding(crate::specs::Tasks::count_of))]
pub(crate) fn numbering_within(y: &Symbol, node: u32, numbering: Numbering) -> Numbering
    requires { node < length y.now.table.nodes }
    ensures is { result ≡ inside numbering (plain_tree (table_of y.now) node) }
    ensures few { count_of result ≤ 1 }
{
    let ordinal = ordinal_of(numbering);
    match numbering {
        Numbering::Items(item) => {
            if y.node(node).production == production::PACK {
                return Numbering::Elements(item, 1);
            }
            Numbering::Alike(ordinal)
        }
        _ => Numbering::Alike(ordinal),
    }
}
