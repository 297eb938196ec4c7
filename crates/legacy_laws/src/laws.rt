// Legacy Rust names, read as C++ symbols.
#![tactic(auto)]

ghost use Rattle.std.specs.Prelude.{◌≡◌, ℕ, List, Some, Ok};
ghost use Rattle.sym_demangle.specs.Mangled.{IsReading};
ghost use Rattle.cpp_grammar.specs.Mangled.{cpp_mangled, wide_mangled};
ghost use Rattle.cpp_grammar.specs.Term.{Term};
ghost use Rattle.rust_legacy.specs.Path.{Path, legacy_of};

/// Each legacy name is a symbol of C++, by both grammars: it is read as data with a nested name, and not refused.
pub fn legacy_names_are_read()
    ensures abi { (s : List ℕ) (path : Path) → legacy_of s ≡ Some path → (t : Term) × IsReading cpp_mangled s (Ok t) }
    ensures wide { (s : List ℕ) (path : Path) → legacy_of s ≡ Some path → (t : Term) × IsReading wide_mangled s (Ok t) }
{}
