// What holds of each spelling.
#![tactic(auto)]

ghost use Rattle.std.specs.Prelude.{◌≤◌, ℕ, List};
ghost use Rattle.std.specs.List.{All};
ghost use Rattle.sym_shape.specs.declared.rule.Row.{Row};
ghost use Rattle.sym_parts.specs.Within.{IsWithin};
ghost use Rattle.rust_spelled.specs.Spelling.{spelling_of};

/// If the bytes of all rows are within a symbol, so are the bytes of all parts.
pub fn spelling_is_within()
    ensures { (n : ℕ) (symbol : List ℕ) (rows : List Row) → All (λ row. (row.from ≤ n) × (row.to ≤ n)) rows → IsWithin n (spelling_of symbol rows) }
{}
