// The linker's counts of each production are those in the production's row.
ghost use Rattle.std.specs.Prelude.{◌≡◌, List, length};
ghost use Rattle.cpp_grammar.specs.declared.production.Production.{Production};
ghost use Rattle.cpp_grammar.specs.Row.{before_part, most_at_end, most_before, quiet_before};
ghost use Rattle.cpp_grammar.specs.Rows.{row_of};
ghost use Rattle.cpp_term.specs.Values.{Value};
ghost use Rattle.cpp_link.specs.NodeCount.{makes_at_end, makes_before};
ghost use Rattle.cpp_link.specs.Owed.{made_at_end};
ghost use Rattle.cpp_link.specs.Tables.{quiet_parts};
ghost use Rattle.cpp_link.specs.RowNodes.{nodes_at_end, nodes_before};

/// A production's row says how many of its parts have nothing done before them, how many nodes it
/// makes before each part and at its end, and how many it makes at most.
pub fn counts_are_rows()
    ensures quiet { (p : Production) → quiet_parts p ≡ quiet_before (row_of p) }
    ensures most { (p : Production) → made_at_end p ≡ most_at_end (row_of p).form }
    ensures before { (p : Production) (known : List Value) → makes_before p known ≡ nodes_before (before_part (row_of p) (length known)) known }
    ensures at_end { (p : Production) (known : List Value) → makes_at_end p known ≡ nodes_at_end (row_of p).form known }
{}
