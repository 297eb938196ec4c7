// What holds of the marks of each symbol's text.
#![tactic(auto)]

ghost use Rattle.std.specs.Prelude.{◌≡◌, ◌≤◌, length};
ghost use Rattle.rust_tree.specs.Symbol as tree;
ghost use Rattle.sym_print.specs.Unshared.{Unshared, steps_of_parts, text_of};
ghost use Rattle.sym_parts.specs.Marked as marks;
ghost use Rattle.sym_parts.specs.Marked.{stretches_of};
ghost use Rattle.sym_parts.specs.Placed.{AreStretchesPlaced};
ghost use Rattle.rust_parts.specs.Roles.{symbol_marked};

/// A marked text without its marks is the printed text.
pub fn marks_change_no_text()
    ensures { (s : tree.Symbol) (printed : Unshared) → marks.text_of (symbol_marked s printed) ≡ text_of printed }
{}

/// The stretches are slices of what is printed, in the order of their starts; two stretches are
/// apart, or one is within the other.
pub fn stretches_are_placed()
    ensures { (s : tree.Symbol) (printed : Unshared) → AreStretchesPlaced (length (text_of printed)) (stretches_of (symbol_marked s printed)) }
{}

/// There are at most as many stretches as printing the symbol takes steps.
pub fn stretches_are_few()
    ensures { (s : tree.Symbol) (printed : Unshared) → length (stretches_of (symbol_marked s printed)) ≤ steps_of_parts printed }
{}
