// Sorts of paths, by the nodes of their trees.
#![tactic(auto)]

ghost use Rattle.std.specs.Prelude.{◌≡◌, ◌<◌, length};
ghost use Rattle.rust_parts.specs.Roles.{whole_of};
ghost use Rattle.rust_parts.specs.Sorts.{IsSort, path_at};

use rust_tree::{Symbol, tree_production};

/// The sort of a path.
#[derive(Clone, Copy)]
pub(crate) enum PathSort {
    Crate,
    /// A name after its parent.
    Nested(u32),
    /// Arguments after a path.
    Generic(u32),
    Implementation,
}

/// The sort of a path.
pub(crate) fn path_sort(y: &Symbol, node: u32) -> PathSort
    requires { node < length y.now.table.nodes }
    ensures { IsSort y.now node result }
{
    let found = y.node(node).production;
    if found == tree_production::NESTED {
        return PathSort::Nested(y.part(node, 0));
    }
    if found == tree_production::PUNYCODE_NESTED {
        return PathSort::Nested(y.part(node, 0));
    }
    if found == tree_production::GENERIC {
        return PathSort::Generic(y.part(node, 0));
    }
    if found == tree_production::INHERENT_IMPL {
        return PathSort::Implementation;
    }
    if found == tree_production::TRAIT_IMPL {
        return PathSort::Implementation;
    }
    if found == tree_production::TRAIT_DEFINITION {
        return PathSort::Implementation;
    }
    PathSort::Crate
}

/// The node of a symbol's path.
pub(crate) fn root_path(y: &Symbol) -> u32
    ensures path { path_at y.now result ≡ (whole_of y.now).path }
    ensures below { result < length y.now.table.nodes }
{
    y.part(y.root_node(), 0)
}
