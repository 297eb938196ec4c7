// What holds of trees, their fields and their views.
ghost use Rattle.std.specs.Prelude.{◌≡◌, ℕ, List};
ghost use Rattle.cpp_grammar.specs.Term.{Term};
ghost use Rattle.cpp_term.specs.Term as noted;
ghost use Rattle.cpp_term.specs.Scope.{is_open, free_in};
ghost use Rattle.cpp_tree.specs.Fields.{fields_of, offsets_of, tree_from};
ghost use Rattle.cpp_tree.specs.Nodes.{has_free};
ghost use Rattle.cpp_tree.specs.Views.{IsView, AreAlike};
ghost use Rattle.cpp_tree.specs.declared.view.Node.{Node};

/// A tree is its production over its numbers, its texts and the trees of its parts, and for a thunk
/// of more than two offsets also over the offsets.
pub fn fields_make_the_tree()
    ensures { (one : Term) → tree_from (fields_of one) (offsets_of one) ≡ one }
{}

/// Trees are equal exactly where their views are alike, whether they are of one symbol or of two.
pub fn equal_trees_have_equal_views()
    ensures equal { (s t : List ℕ) (first second : Node) (one other : Term) → IsView s first (fields_of one) → IsView t second (fields_of other)
        → AreAlike s t first second one other → one ≡ other }
    ensures alike { (s t : List ℕ) (first second : Node) (one other : Term) → IsView s first (fields_of one) → IsView t second (fields_of other)
        → one ≡ other → AreAlike s t first second one other }
{}

/// A tree is open exactly where parameters are free in it.
pub fn open_trees_have_free_parameters()
    ensures { (t : noted.Term) → is_open t ≡ has_free (free_in t) }
{}
