// What the short way's reading doesn't refuse is what the grammar says.
ghost use Rattle.std.specs.Prelude.{◌≡◌, Bool, Ok};
ghost use Rattle.sym_shape.specs.Tree.{Tree};
ghost use Rattle.cpp_grammar.specs.Term.{Term};
ghost use Rattle.cpp_short_reading.specs.Reading.{unfold_by, unfold_own};

/// A shape that denotes a tree by the short way's reading denotes the same tree by the grammar's own
/// reading: the wide one's, or the ABI's. The short way's reading refuses more than the wide one.
pub fn short_readings_stay()
    ensures { (is_wide : Bool) (shape : Tree) (t : Term) → unfold_by is_wide shape ≡ Ok t → unfold_own is_wide shape ≡ Ok t }
{}
