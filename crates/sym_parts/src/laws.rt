// What holds of the stretches and the parts of each marked text.
#![tactic(auto)]

ghost use Rattle.std.specs.Prelude.{◌≡◌, ℕ, ◌≤◌, length, List};
ghost use Rattle.sym_parts.specs.Marked.{Marked, done, text, marked, text_of, stretches_of, marks_in};
ghost use Rattle.sym_parts.specs.Placed.{ArePlaced, AreStretchesPlaced};
ghost use Rattle.sym_parts.specs.Spelling.{Spelling, part_of, parts_spelled, unprinted};
ghost use Rattle.sym_parts.specs.Within.{IsAsStretch, IsSpelledWithin, IsUnprinted, IsWithin};
ghost use Rattle.sym_parts.specs.declared.spelling.Spelled.{Spelled};
ghost use Rattle.sym_parts.specs.declared.stretch.Stretch.{Stretch};
ghost use Rattle.std.specs.List.{All};
ghost use Rattle.sym_parts.specs.Marks.{marks_of, stretches_at};
ghost use Rattle.sym_parts.specs.declared.role.Role.{Role};

/// The stretches of a marked text are slices of it, in the order of their starts; any two are apart, or one is within the other.
pub fn stretches_are_placed()
    ensures { (m : Marked) → AreStretchesPlaced (length (text_of m)) (stretches_of m) }
{}

/// There is a stretch for each mark.
pub fn stretches_are_few()
    ensures { (m : Marked) → length (stretches_of m) ≡ marks_in m }
{}

/// The marks of a text, taken in turn, give its stretches.
pub fn marks_list_the_stretches()
    ensures { (m : Marked) → stretches_at 0 (marks_of m) ≡ stretches_of m }
{}

/// The part of a stretch has the stretch's role, place and length.
pub fn parts_are_stretches()
    ensures { (s : Spelling) (stretch : Stretch) → IsAsStretch stretch (part_of s stretch) }
{}

/// Parts that aren't in the text are at its end, without a byte of it.
pub fn unprinted_parts_are_last()
    ensures { (end : ℕ) (spans : List Spelled) → All (IsUnprinted end) (unprinted end spans) }
{}

/// Whatever spells them, the parts of a marked text are slices of the text, in the order of their starts; any two are apart, or one is
/// within the other.
pub fn parts_are_placed()
    ensures { (s : Spelling) (m : Marked) → ArePlaced (length (text_of m)) (parts_spelled s (length (text_of m)) (stretches_of m)) }
{}

/// If all spans of a spelling are within a symbol, so are the bytes of each part.
pub fn bytes_are_within()
    ensures { (symbol : ℕ) (s : Spelling) (length : ℕ) (stretches : List Stretch) → IsWithin symbol s → All (IsSpelledWithin symbol) (parts_spelled s length stretches) }
{}
