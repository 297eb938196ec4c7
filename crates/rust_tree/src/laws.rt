// What holds of trees, their fields and their views.
ghost use Rattle.std.specs.Prelude.{◌≡◌, ℕ, List};
ghost use Rattle.rust_tree.specs.Tree.{Tree};
ghost use Rattle.rust_tree.specs.Fields.{fields_of, tree_from};
ghost use Rattle.rust_tree.specs.Views.{IsView, AreAlike};
ghost use Rattle.rust_tree.specs.declared.view.Node.{Node};

/// A tree can be made from its production, its numbers, its texts and the trees of its parts.
pub fn fields_make_the_tree()
    ensures { (one : Tree) → tree_from (fields_of one) ≡ one }
{}

/// Trees are equal exactly where their views are alike, whether they are of one symbol or of two.
pub fn equal_trees_have_equal_views()
    ensures equal { (s t : List ℕ) (first second : Node) (one other : Tree) → IsView s first (fields_of one) → IsView t second (fields_of other)
        → AreAlike s t first second one other → one ≡ other }
    ensures alike { (s t : List ℕ) (first second : Node) (one other : Tree) → IsView s first (fields_of one) → IsView t second (fields_of other)
        → one ≡ other → AreAlike s t first second one other }
{}
