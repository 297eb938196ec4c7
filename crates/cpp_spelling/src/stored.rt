// The node of a tree.
#![tactic(auto)]

ghost use Rattle.std.specs.Prelude.{◌≡◌, ◌<◌, length, false};
ghost use Rattle.cpp_tree.specs.Nodes.{is_again, IsTable};
ghost use Rattle.cpp_layout.specs.Layout.{table_of};
ghost use Rattle.cpp_spelling.specs.Tasks.{plain_at, node_tree, IsMade};

use cpp_layout::Symbol;
use cpp_tree::node::Node;

/// What the tree of a node is made of, where parameters are only their numbers. The tree of an alias is the one that it denotes.
pub fn stored(symbol: &Symbol, node: u32) -> Node
    requires table { IsTable (table_of symbol.now) }
    requires node { node < length symbol.now.table.nodes }
    ensures tree { plain_at symbol.now node ≡ node_tree symbol.now result }
    ensures own { is_again result ≡ false }
    ensures below { IsMade symbol.now result }
{
    let is = symbol.entry(node).node;
    match is {
        Node::Reargued { tree, .. } => symbol.entry(tree).node,
        _ => is,
    }
}
