// What holds of the marks of each path's text.
#![tactic(auto)]

ghost use Rattle.std.specs.Prelude.{◌≡◌, ◌≤◌, List, Some, length, ℕ};
ghost use Rattle.rust_legacy.specs.Path.{Path, legacy_of};
ghost use Rattle.rust_legacy.specs.Text.{shown_path};
ghost use Rattle.sym_print.specs.Unshared.{text_of};
ghost use Rattle.sym_parts.specs.Marked as marks;
ghost use Rattle.sym_parts.specs.Marked.{stretches_of};
ghost use Rattle.sym_parts.specs.Placed.{AreStretchesPlaced};
ghost use Rattle.sym_parts.specs.Within.{IsWithin};
ghost use Rattle.legacy_parts.specs.Spelled.{spelling_of_path};
ghost use Rattle.legacy_parts.specs.Roles.{path_marked};

/// The marked text of a path without its marks is the path's text.
pub fn marks_change_no_text()
    ensures { (path : Path) → marks.text_of (path_marked path) ≡ text_of (shown_path path) }
{}

/// The parts are slices of the text, in the order of their starts; any two of them are apart, or
/// one is within the other.
pub fn stretches_are_placed()
    ensures { (path : Path) → AreStretchesPlaced (length (text_of (shown_path path))) (stretches_of (path_marked path)) }
{}

/// There are at most four parts.
pub fn stretches_are_few()
    ensures { (path : Path) → length (stretches_of (path_marked path)) ≤ 4 }
{}

/// What spells the parts of a legacy name's text is within the symbol.
pub fn spelling_is_within()
    ensures { (symbol : List ℕ) (path : Path) → legacy_of symbol ≡ Some path → IsWithin (length symbol) (spelling_of_path symbol path) }
{}
