// Manglings whose texts have parts.

ghost use Rattle.std.specs.Prelude.{◌≡◌, ◌<◌, ◌≤◌, ◌⊎◌, Err, IfErr, IfOk, List, Ok, OnOk, length, ℕ};
ghost use Rattle.sym_core.specs.declared.refusal.Refusal.{Refusal as Refusal-type};
ghost use Rattle.sym_core.specs.declared.refusal.Refusal.TheVariants as refusals;
ghost use Rattle.sym_print.specs.Unshared.{Unshared, cost_of, text_of};
ghost use Rattle.sym_print.specs.declared.detail.Detail.{Detail as Detail-type};
ghost use Rattle.sym_demangle.specs.Mangled.{IsReading, Mangled, answer};
ghost use Rattle.sym_parts.specs.Marked as marks;
ghost use Rattle.sym_parts.specs.Marked.{stretches_of};
ghost use Rattle.sym_parts.specs.Within.{IsWithin};
ghost use Rattle.sym_parts.specs.declared.stretch.Stretch.{Stretch as Stretch-type};
ghost use Rattle.sym_shape.specs.Tree.{AreRowsOf};
ghost use Rattle.sym_shape.specs.declared.rule.Row.{Row};
ghost use Rattle.symbol_parts.specs.Parsed.{Marking, returns};

use itanium::{Abi, Wide, WideSymbol};
use rust_v0::V0;
use std::alloc::Global;
use sym_core::Refusal;
use sym_demangle::Mangling;
use sym_parts::{NameKind, Role, Spelling, Stretch};
use sym_print::Detail;
use sym_shape::Row;

/// A mangling whose texts have parts.
pub trait Marked: Mangling {
    // the trees that its symbols denote, the tree of a symbol that was read, and the mangling over these trees
    ghost Tree: { Type 0 };

    ghost tree_of: { Self.Symbol → Tree };

    ghost over: { Mangled Tree };

    // how a printed text is marked, what a symbol is, and which of its bytes spell which parts
    ghost marking: { Marking Tree };

    /// What a symbol is.
    fn kind_of(symbol: &Self::Symbol) -> NameKind
        ensures { result ≡ marking.kind (tree_of symbol.now) };

    /// The stretches of a symbol's text, in a detail, that are the text's parts, if the text costs at most the limit.
    ///
    /// # Errors
    ///
    /// `TooLong` exactly where the text costs more, `Memory` where a list couldn't grow.
    fn stretches_as(
        alloc: Global,
        symbol: &Self::Symbol,
        limit: u32,
        detail: Detail,
    ) -> Result<Vec<Stretch>, Refusal>
        ensures stretches { IfOk result (λ stretches. stretches.items ≡ stretches_of (marking.marked (tree_of symbol.now) (over.shown detail (tree_of symbol.now)))) }
        ensures within { OnOk result (cost_of (over.shown detail (tree_of symbol.now)) ≤ limit) }
        ensures refusals { IfErr result (λ r. (r ≡ refusals.TooLong) ⊎ (r ≡ refusals.Memory)) }
        ensures too_long { result ≡ Err refusals.TooLong → limit < cost_of (over.shown detail (tree_of symbol.now)) };

    /// Which bytes of a symbol spell which parts of its text, by the rows of its shape and the stretches of the text.
    ///
    /// # Errors
    ///
    /// `Memory` where a list couldn't grow.
    fn spelling_of(
        alloc: Global,
        symbol: &[u8],
        rows: &[Row],
        stretches: &[Stretch],
    ) -> Result<Spelling, Refusal>
        ensures spelling { IfOk result (λ spelling. spelling ≡ marking.spelled symbol.now rows.now stretches.now) }
        ensures refusals { IfErr result (λ r. r ≡ refusals.Memory) };

    // marks don't change a text, and the bytes that spell parts are within the symbol
    ghost marks_only: { (tree : Tree) (printed : Unshared) → marks.text_of (marking.marked tree printed) ≡ text_of printed };

    ghost spelled_within: { (s : List ℕ) (rows : List Row) → AreRowsOf over.table s rows → (stretches : List Stretch-type) → IsWithin (length s) (marking.spelled s rows stretches) };

    // the mangling over these trees is this mangling: it reads, shows and answers the same
    ghost same_table: { Self.mangled.table ≡ over.table };

    ghost reads: { (s : List ℕ) (symbol : Self.Symbol) → IsReading Self.mangled s (Ok (Self.whole_of symbol)) → IsReading over s (Ok (tree_of symbol)) };

    ghost refuses: { (s : List ℕ) (refusal : Refusal-type) → IsReading Self.mangled s (Err refusal) → IsReading over s (Err refusal) };

    ghost shows: { (detail : Detail-type) (symbol : Self.Symbol) → Self.mangled.shown detail (Self.whole_of symbol) ≡ over.shown detail (tree_of symbol) };

    ghost answers: { (detail : Detail-type) (s : List ℕ) (limit : ℕ) → answer over detail s limit ≡ answer Self.mangled detail s limit };
}

/// Whether one of the stretches is a return type.
fn returns(stretches: &[Stretch]) -> bool
    ensures { result ≡ returns stretches.now }
{
    stretches.iter().any(|stretch| stretch.role.number() == Role::ReturnType.number())
}

impl Marked for Abi {
    ghost use Rattle.std.specs.Prelude.{refl};
    ghost use Rattle.cpp_grammar.specs.Mangled.{cpp_mangled};
    ghost use Rattle.cpp_grammar.specs.Term.{Term};
    ghost use Rattle.cpp_layout.specs.Layout.{whole_of};
    ghost use Rattle.symbol_parts.specs.Parsed.{cpp_marking};
    ghost use Rattle.symbol_parts.specs.Spellings.{cpp_marks_only, cpp_spelled_within};

    ghost Tree = { Term };

    ghost tree_of = { whole_of };

    ghost over = { cpp_mangled };

    ghost marking = { cpp_marking };

    ghost marks_only = { λ tree printed. cpp_marks_only tree printed };

    ghost spelled_within = { λ s rows is stretches. cpp_spelled_within cpp_mangled.table s rows is stretches };

    ghost same_table = { refl };

    ghost reads = { λ s symbol is. is };

    ghost refuses = { λ s refusal is. is };

    ghost shows = { λ detail symbol. refl };

    ghost answers = { λ detail s limit. refl };

    fn kind_of(symbol: &itanium::Symbol) -> NameKind {
        cpp_parts::kind_of(symbol)
    }

    fn stretches_as(
        alloc: Global,
        symbol: &itanium::Symbol,
        limit: u32,
        detail: Detail,
    ) -> Result<Vec<Stretch>, Refusal> {
        cpp_parts::stretches_as(alloc, symbol, limit, detail)
    }

    fn spelling_of(
        alloc: Global,
        _symbol: &[u8],
        rows: &[Row],
        stretches: &[Stretch],
    ) -> Result<Spelling, Refusal> {
        cpp_spelled::spelling(alloc, rows, returns(stretches))
    }
}

impl Marked for Wide {
    ghost use Rattle.std.specs.Prelude.{refl};
    ghost use Rattle.cpp_grammar.specs.Mangled.{wide_mangled};
    ghost use Rattle.cpp_grammar.specs.Term.{Term};
    ghost use Rattle.cpp_layout.specs.Layout.{whole_of};
    ghost use Rattle.symbol_parts.specs.Parsed.{cpp_marking};
    ghost use Rattle.symbol_parts.specs.Spellings.{cpp_marks_only, cpp_spelled_within};

    ghost Tree = { Term };

    ghost tree_of = { whole_of };

    ghost over = { wide_mangled };

    ghost marking = { cpp_marking };

    ghost marks_only = { λ tree printed. cpp_marks_only tree printed };

    ghost spelled_within = { λ s rows is stretches. cpp_spelled_within wide_mangled.table s rows is stretches };

    ghost same_table = { refl };

    ghost reads = { λ s symbol is. is };

    ghost refuses = { λ s refusal is. is };

    ghost shows = { λ detail symbol. refl };

    ghost answers = { λ detail s limit. refl };

    fn kind_of(symbol: &WideSymbol) -> NameKind {
        cpp_parts::kind_of(symbol.plain())
    }

    fn stretches_as(
        alloc: Global,
        symbol: &WideSymbol,
        limit: u32,
        detail: Detail,
    ) -> Result<Vec<Stretch>, Refusal> {
        cpp_parts::stretches_as(alloc, symbol.plain(), limit, detail)
    }

    fn spelling_of(
        alloc: Global,
        _symbol: &[u8],
        rows: &[Row],
        stretches: &[Stretch],
    ) -> Result<Spelling, Refusal> {
        cpp_spelled::spelling(alloc, rows, returns(stretches))
    }
}

impl Marked for V0 {
    ghost use Rattle.std.specs.Prelude.{refl};
    ghost use Rattle.rust_grammar.specs.Mangled.{v0_mangled};
    ghost use Rattle.rust_tree.specs.Symbol as tree;
    ghost use Rattle.rust_v0.specs.Whole.{whole_of};
    ghost use Rattle.symbol_parts.specs.Parsed.{v0_marking};
    ghost use Rattle.symbol_parts.specs.Spellings.{v0_marks_only, v0_spelled_within};

    ghost Tree = { tree.Symbol };

    ghost tree_of = { whole_of };

    ghost over = { v0_mangled };

    ghost marking = { v0_marking };

    ghost marks_only = { λ tree printed. v0_marks_only tree printed };

    ghost spelled_within = { λ s rows is stretches. v0_spelled_within v0_mangled.table s rows is stretches };

    ghost same_table = { refl };

    ghost reads = { λ s symbol is. is };

    ghost refuses = { λ s refusal is. is };

    ghost shows = { λ detail symbol. refl };

    ghost answers = { λ detail s limit. refl };

    fn kind_of(symbol: &rust_v0::Symbol) -> NameKind {
        rust_parts::kind_of(symbol)
    }

    fn stretches_as(
        alloc: Global,
        symbol: &rust_v0::Symbol,
        limit: u32,
        detail: Detail,
    ) -> Result<Vec<Stretch>, Refusal> {
        rust_parts::stretches_as(alloc, symbol, limit, detail)
    }

    fn spelling_of(
        alloc: Global,
        symbol: &[u8],
        rows: &[Row],
        _stretches: &[Stretch],
    ) -> Result<Spelling, Refusal> {
        rust_spelled::spelling(alloc, symbol, rows)
    }
}
