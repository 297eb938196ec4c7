// The production that a node denotes, where the node may be an alias.

ghost use Rattle.std.specs.Prelude.{◌≡◌, ◌<◌, length, false};
ghost use Rattle.cpp_term.specs.Reargued.{reargued};
ghost use Rattle.cpp_tree.specs.Nodes.{over, tree_at, is_again, IsBelow, tree_if_there, IsAliasBelow, IsTable};
ghost use Rattle.cpp_references.specs.Around.{trees_in, tree_of_node};

use cpp_tree::Nodes;
use cpp_tree::node::{Node, Placed};

/// A node that isn't an alias, and the argument under which its parts are re-read.
#[derive(Clone, Copy)]
pub struct OpenedNode {
    pub node: Node,
    pub under: Option<u32>,
}

/// The production that a node denotes: for an alias, that of its tree.
pub fn opened(nodes: &Nodes, symbol: &[u8], node: u32) -> OpenedNode
    requires table { IsTable (over symbol.now nodes.now) }
    requires below { node < length nodes.now.nodes }
    ensures tree { tree_at (trees_in symbol.now nodes.now) node ≡ reargued (tree_if_there (trees_in symbol.now nodes.now) result.under) (tree_of_node symbol.now nodes.now result.node) }
    ensures own { is_again result.node ≡ false }
    ensures below { IsBelow symbol.now (length nodes.now.thunks) (length nodes.now.nodes) result.node }
    ensures there { IsAliasBelow (length nodes.now.nodes) result.under }
{
    let settled = nodes.settled(symbol, Placed { node, under: None });
    OpenedNode {
        node: nodes.node(symbol, settled.node),
        under: settled.under,
    }
}
