// What holds of the trees of every grammar.
ghost use Rattle.std.specs.Prelude.{◌≡◌, ◌≤◌, ℕ, ◌<◌, List, take, slice_set, length};
ghost use Rattle.sym_shape.specs.Table.{Table};
ghost use Rattle.sym_shape.specs.Tree.{Tree, IsTree, spell, AreRowsOf, IsMalformed, IsFirstBad, IsWellShaped};
ghost use Rattle.sym_shape.specs.Decided.{AreBytes, Decided};
ghost use Rattle.sym_shape.specs.Grown.{GrowsInto};
ghost use Rattle.sym_shape.specs.declared.rule.Sym.TheVariants.{Kind};
ghost use Rattle.sym_shape.specs.declared.rule.Row.{Row};

use crate::grammar::Grammar;

/// There is at most one tree of the start kind that spells a symbol.
pub fn one_tree<G: Grammar>()
    ensures { (a b : Tree) → IsTree G.table (Kind 0) a → IsTree G.table (Kind 0) b → spell a ≡ spell b → a ≡ b }
{}

/// Each list of bytes is a well shaped symbol, or has a first bad byte.
pub fn each_is_decided<G: Grammar>()
    ensures { (s : List ℕ) → AreBytes s → Decided G.table s }
{}

/// A symbol has at most one first bad byte, and none where it is well shaped.
pub fn one_bad_byte<G: Grammar>()
    ensures same { (s : List ℕ) (a b : ℕ) → IsMalformed G.table s a → IsMalformed G.table s b → a ≡ b }
    ensures apart { (s : List ℕ) (at : ℕ) → IsWellShaped G.table s → IsMalformed G.table s at → ⊥ }
{}

/// If a front of a well shaped symbol isn't well shaped itself, it is only cut off: its first bad byte is at its length.
pub fn front_is_cut_off<G: Grammar>()
    ensures first { (s : List ℕ) (n : ℕ) → IsWellShaped G.table s → IsFirstBad G.table (take n s) (length (take n s)) }
    ensures only { (s : List ℕ) (n at : ℕ) → IsWellShaped G.table s → IsFirstBad G.table (take n s) at → at ≡ length (take n s) }
{}

/// If one byte of a well shaped symbol is changed, the first bad byte isn't before the changed one.
pub fn change_is_found_behind<G: Grammar>()
    ensures { (s : List ℕ) (p byte at : ℕ) → p < length s → IsWellShaped G.table s → IsMalformed G.table (slice_set s p byte) at → p ≤ at }
{}

/// If every tree of a table is also a tree of this grammar, the table's symbols have the same rows by this grammar, and no first bad byte
/// comes earlier.
pub fn grown_keeps<G: Grammar>()
    ensures rows { (old : Table) (s : List ℕ) (rows : List Row) → GrowsInto old G.table → AreRowsOf old s rows → AreRowsOf G.table s rows }
    ensures same { (old : Table) (s : List ℕ) (rows others : List Row) → GrowsInto old G.table → AreRowsOf old s rows → AreRowsOf G.table s others → others ≡ rows }
    ensures places { (old : Table) (s : List ℕ) (before after : ℕ) → GrowsInto old G.table → IsFirstBad old s before → IsFirstBad G.table s after → before ≤ after }
{}
