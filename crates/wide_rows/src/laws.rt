// Rows that are computed.
ghost use Rattle.std.specs.Prelude.{◌≡◌, true};
ghost use Rattle.wide_rows.specs.Reader.{are_right_wide};
ghost use Rattle.wide_rows.specs.Rows.{rows_0, rows_1, rows_2};

/// Each of these symbols has the text and the cost of its row by the definitions of the wide grammar. The symbols take each production that
/// the grammar of the ABI doesn't have.
pub fn symbols_are_read()
    ensures first { are_right_wide rows_0 ≡ true }
    ensures second { are_right_wide rows_1 ≡ true }
    ensures third { are_right_wide rows_2 ≡ true }
{}
