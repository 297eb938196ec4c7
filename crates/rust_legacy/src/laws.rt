// What follows from the definition of legacy names.
#![tactic(auto)]

ghost use Rattle.std.specs.Prelude.{◌≡◌, ◌*◌, ◌≤◌, ℕ, List, length, Some};
ghost use Rattle.sym_print.specs.Unshared.{cost_of, text_of};
ghost use Rattle.rust_legacy.specs.Path.{Path, legacy_of};
ghost use Rattle.rust_legacy.specs.Text.{shown_path};

/// The text of a legacy name of n bytes has at most 3 n / 2 bytes, and costs at most 5 n / 2.
pub fn legacy_texts_are_short()
    ensures text { (s : List ℕ) (path : Path) → legacy_of s ≡ Some path → 2 * length (text_of (shown_path path)) ≤ 3 * length s }
    ensures cost { (s : List ℕ) (path : Path) → legacy_of s ≡ Some path → 2 * cost_of (shown_path path) ≤ 5 * length s }
{}
