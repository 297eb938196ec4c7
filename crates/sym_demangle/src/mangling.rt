// What a mangling gives the linker, and what it makes of a linked symbol.

ghost use Rattle.std.specs.Prelude.{◌≡◌, ℕ, List, OnOk, IfErr, Ok, true};
ghost use Rattle.sym_core.specs.Number.{FitsSymbol};
ghost use Rattle.sym_core.specs.declared.refusal.Refusal.{Refusal};
ghost use Rattle.sym_core.specs.declared.refusal.Refusal.TheVariants as refusals;
ghost use Rattle.sym_print.specs.declared.layout.Part.TheVariants as part;
ghost use Rattle.sym_shape.specs.Grown.{GrowsInto};
ghost use Rattle.sym_shape.specs.Tree.{Tree, IsTree, spell};
ghost use Rattle.sym_shape.specs.declared.rule.Sym.TheVariants.{Kind};
ghost use Rattle.sym_link.specs.Driving.{Fails};
ghost use Rattle.sym_link.specs.Following.{meaning_of};
ghost use Rattle.sym_demangle.specs.Mangled.{Mangled, IsAnswer, RefusesBadTokens};
ghost use Rattle.sym_demangle.specs.Standing.{Begins, CountsNodes, IsLinked};

use std::alloc::Global;
use sym_core::Refusal;
use sym_link::language::Linking;
use sym_print::{Detail, Item, Layout};
use sym_shape::grammar::Grammar;

/// A mangling: its grammar, the nodes that are made of a shape's rows, and the symbol that these yield.
pub trait Mangling: Grammar + Copy {
    /// The nodes of a symbol that is being linked.
    type Linked: Linking + Drop;

    /// A symbol that was read.
    type Symbol: Layout + Drop;

    /// The lists of the short way, which writes the text of a symbol of common parts while reading it.
    type Direct: Drop;

    // what a symbol denotes
    ghost Whole: { Type 0 };

    ghost mangled: { Mangled Whole };

    // the tree of a symbol that was read, its bytes, and the numbers of its rows, of the steps that
    // reading took, and of its nodes
    ghost whole_of: { Self.Symbol → Whole };

    ghost bytes_of: { Self.Symbol → List ℕ };

    ghost rows_of: { Self.Symbol → ℕ };

    ghost steps_of: { Self.Symbol → ℕ };

    ghost nodes_of: { Self.Symbol → ℕ };

    // whether a symbol of a shape has this many nodes
    ghost are_nodes: { Tree → ℕ → Type 0 };

    // the text that was written last
    ghost written: { Self.Direct → List ℕ };

    // how many nodes a table has, and how many of them it has before the first step
    ghost count_of: { Self.Linked → ℕ };

    ghost first_nodes: { ℕ };

    /// The mangling.
    fn grammar() -> Self;

    /// A table without nodes. Making it takes no memory.
    fn idle(alloc: Global) -> Self::Linked;

    /// Forgets the symbol, and begins another one. The memory of the lists is kept.
    fn restart(linked: &mut Self::Linked, symbol: &[u8]) -> Result<(), Refusal>
        requires { FitsSymbol symbol.now }
        ensures begins { OnOk result (Begins (Self.Linked.view symbol.now) linked.new) }
        ensures memory { IfErr result (λ e. e ≡ refusals.Memory) };

    /// The symbol that was linked. Making it takes no memory.
    fn finish(
        bytes: Vec<u8>,
        linked: &mut Self::Linked,
        parts: &[<Self::Linked as Linking>::Part],
        rows: u32,
        steps: u32,
    ) -> Self::Symbol
        requires { (shape : Tree) × IsLinked mangled.table (Self.Linked.view bytes.items) bytes.items linked.old parts.now rows steps shape }
        ensures bytes { bytes_of result ≡ bytes.items }
        ensures whole { (shape : Tree) → IsLinked mangled.table (Self.Linked.view bytes.items) bytes.items linked.old parts.now rows steps shape → Ok (whole_of result) ≡ mangled.unfolded shape }
        ensures rows { rows_of result ≡ rows }
        ensures steps { steps_of result ≡ steps }
        ensures nodes { (shape : Tree) → IsLinked mangled.table (Self.Linked.view bytes.items) bytes.items linked.old parts.now rows steps shape → are_nodes shape (nodes_of result) };

    /// The item of a whole symbol in a detail.
    fn root(symbol: &Self::Symbol, detail: Detail) -> Item<<Self::Symbol as Layout>::Ctx>
        ensures may_come { Self.Symbol.may_come symbol.now (part.Sub result) }
        ensures shows { Self.Symbol.unshared symbol.now result ≡ mangled.shown detail (whole_of symbol.now) };

    /// Takes back the lists of a symbol, which are its nodes and its bytes, and answers the bytes. This takes no memory.
    fn recycle(linked: &mut Self::Linked, symbol: Self::Symbol) -> Vec<u8>;

    /// The lists of the short way. Making them takes no memory.
    fn direct(alloc: Global) -> Self::Direct;

    /// Writes the text of a symbol in a detail, if the short way can read the symbol and its text costs at most the limit. Answers whether
    /// the text was written. Where it wasn't, nothing is known of the symbol.
    fn write(direct: &mut Self::Direct, symbol: &[u8], limit: u32, detail: Detail) -> bool
        requires { FitsSymbol symbol.now }
        ensures { result ≡ true → IsAnswer mangled detail symbol.now limit (Ok (written direct.new)) };

    /// The text that was written last.
    fn text(direct: &Self::Direct) -> &[u8]
        ensures { result.now ≡ written direct.now };

    /// A well shaped symbol is refused only for a bad token.
    fn refuses_bad_tokens()
        ensures { RefusesBadTokens mangled };

    ghost table_is: { Self.table ≡ mangled.table };

    ghost counts_nodes: { (s : List ℕ) → CountsNodes (Self.Linked.view s) count_of first_nodes };

    // Nodes can be made of each tree of the mangling's table. Their own table may have more trees.
    ghost view_table: { (s : List ℕ) → GrowsInto mangled.table (Self.Linked.view s).table };

    // if the meaning of a symbol's shape is a refusal, the shape denotes that refusal
    ghost fails: { (shape : Tree) (refusal : Refusal) → IsTree mangled.table (Kind 0) shape → Fails refusal (meaning_of (Self.Linked.view (spell shape)) shape) → Fails refusal (mangled.unfolded shape) };
}
