// What holds of every C++ symbol.
ghost use Rattle.std.specs.Prelude.{◌≤◌, ◌≡◌, ◌↔◌, ℕ, List, length, Result, Ok};
ghost use Rattle.sym_print.specs.declared.detail.Detail.{Detail};
ghost use Rattle.sym_print.specs.Unfold.{RanksBelow};
ghost use Rattle.sym_shape.specs.Decided.{AreBytes};
ghost use Rattle.sym_shape.specs.Grown.{GrowsInto};
ghost use Rattle.sym_shape.specs.Tree.{Tree, IsTree, AreRowsOf, IsFirstBad};
ghost use Rattle.sym_shape.specs.declared.rule.Sym.TheVariants.{Kind};
ghost use Rattle.sym_shape.specs.declared.rule.Row.{Row};
ghost use Rattle.sym_demangle.specs.Mangled.{RefusesBadTokens, StandsFor, IsAnswer, answer};
ghost use Rattle.cpp_grammar.specs.KindNumbers.{MAYBE_ARGUMENTS, ARGUMENTS_ALONE, NEST_REST, NEST_REST_ALONE, ARGUMENT_LIST, ARGUMENTS_FIRST};
ghost use Rattle.cpp_grammar.specs.Mangled.{cpp_mangled, wide_mangled};
ghost use Rattle.cpp_grammar.specs.Closed.{ScopesAreClosed};
ghost use Rattle.cpp_grammar.specs.Items.{Item};
ghost use Rattle.cpp_grammar.specs.Parts.{parts};
ghost use Rattle.cpp_grammar.specs.Ranks.{rank};
ghost use Rattle.cpp_grammar.specs.Table.{abi, abi_before, wide};
ghost use Rattle.cpp_grammar.specs.Term.{Term};
ghost use Rattle.cpp_grammar.specs.Rescoping.{unfold_wide};
ghost use Rattle.cpp_grammar.specs.Unfolding.{unfold_cpp};

use crate::abi::Abi;
use crate::wide::Wide;
use sym_shape::grown_keeps;

/// Each tree of the earlier grammar, which had no vector, noexcept function or complex types, is a tree of [`Abi`](crate::Abi).
/// So a symbol that was well shaped keeps its rows, and the first bad byte of any other symbol isn't earlier.
pub fn earlier_trees_stay()
    ensures trees { GrowsInto abi_before abi }
    ensures rows { (s : List ℕ) (before now : List Row) → AreRowsOf abi_before s before → AreRowsOf abi s now → now ≡ before }
    ensures places { (s : List ℕ) (before now : ℕ) → IsFirstBad abi_before s before → IsFirstBad abi s now → before ≤ now }
{
    grown_keeps::<Abi>();
}

/// Each tree of [`Abi`](crate::Abi) is one of [`Wide`](crate::Wide): the ABI's grammar is the wide
/// grammar without the forms that the wide grammar marks as its own. So a symbol that is well
/// shaped by `Abi` has the same rows by `Wide`, and the first bad byte of any other symbol isn't
/// earlier by `Wide`.
pub fn abi_trees_stay()
    ensures trees { GrowsInto abi wide }
    ensures rows { (s : List ℕ) (before now : List Row) → AreRowsOf abi s before → AreRowsOf wide s now → now ≡ before }
    ensures places { (s : List ℕ) (before now : ℕ) → IsFirstBad abi s before → IsFirstBad wide s now → before ≤ now }
{
    grown_keeps::<Wide>();
}

/// What follows a parameter or a substitution has kinds of its own, since [`Wide`](crate::Wide) has no tags there. In
/// [`Abi`](crate::Abi) these have the same trees as the kinds of what follows other names.
pub fn no_tags_in_abi()
    ensures arguments { (shape : Tree) → IsTree abi (Kind MAYBE_ARGUMENTS) shape → IsTree abi (Kind ARGUMENTS_ALONE) shape }
    ensures arguments_behind_names { (shape : Tree) → IsTree abi (Kind ARGUMENTS_ALONE) shape → IsTree abi (Kind MAYBE_ARGUMENTS) shape }
    ensures rests { (shape : Tree) → IsTree abi (Kind NEST_REST) shape → IsTree abi (Kind NEST_REST_ALONE) shape }
    ensures rests_behind_names { (shape : Tree) → IsTree abi (Kind NEST_REST_ALONE) shape → IsTree abi (Kind NEST_REST) shape }
{}

/// A list of arguments from the first one on has a kind of its own, since in [`Wide`](crate::Wide) the first argument may be a
/// pack that begins with an I. In [`Abi`](crate::Abi) both kinds have the same trees.
pub fn no_first_packs_in_abi()
    ensures first { (shape : Tree) → IsTree abi (Kind ARGUMENT_LIST) shape → IsTree abi (Kind ARGUMENTS_FIRST) shape }
    ensures others { (shape : Tree) → IsTree abi (Kind ARGUMENTS_FIRST) shape → IsTree abi (Kind ARGUMENT_LIST) shape }
{}

/// The wide grammar's reading differs from the ABI's reading only where the ABI's reading refuses a
/// shape: a lambda's signature may name the lambda's own parameters; a substitution may name a
/// module, or a tree whose parameters had another meaning where it was made; and a name may have an
/// `M`. A shape that denotes a tree by the ABI's reading denotes the same tree by the wide reading.
pub fn abi_meanings_stay()
    ensures { (shape : Tree) (t : Term) → IsTree wide (Kind 0) shape → unfold_cpp shape ≡ Ok t → unfold_wide shape ≡ Ok t }
{}

/// A symbol that denotes a tree in [`Abi`](crate::Abi) denotes the same tree in
/// [`Wide`](crate::Wide), and has the same answer there. A symbol that `Abi` refuses for a reference
/// may have a text in `Wide`.
pub fn abi_answers_stay()
    ensures reads { (s : List ℕ) (t : Term) → StandsFor cpp_mangled s (Ok t) → StandsFor wide_mangled s (Ok t) }
    ensures answers { (detail : Detail) (s : List ℕ) (limit : ℕ) (t : Term) → AreBytes s → StandsFor cpp_mangled s (Ok t) → answer wide_mangled detail s limit ≡ answer cpp_mangled detail s limit }
    ensures texts { (detail : Detail) (s text : List ℕ) (limit : ℕ) → IsAnswer cpp_mangled detail s limit (Ok text) → IsAnswer wide_mangled detail s limit (Ok text) }
{}

/// In the tree that a symbol denotes, the arguments that are the scope of an encoding have no free parameters.
pub fn scopes_are_closed()
    ensures wide { (shape : Tree) (t : Term) → IsTree wide (Kind 0) shape → unfold_wide shape ≡ Ok t → ScopesAreClosed t }
    ensures abi { (shape : Tree) (t : Term) → IsTree abi (Kind 0) shape → unfold_cpp shape ≡ Ok t → ScopesAreClosed t }
{}

/// Each item has at most eight parts, and each item among them has a smaller rank, so printing ends.
pub fn parts_are_few_and_smaller()
    ensures few { (detail : Detail) (item : Item) → length (parts detail item) ≤ 8 }
    ensures smaller { (detail : Detail) (item : Item) → RanksBelow rank (rank item) (parts detail item) }
{}

/// A well shaped symbol that can't be read is refused only for a bad reference, or for a number
/// that is out of range.
pub fn refuses_bad_tokens()
    ensures abi { RefusesBadTokens cpp_mangled }
    ensures wide { RefusesBadTokens wide_mangled }
{}
