// Rust's mangling, in the form that the demangler expects.

ghost use Rattle.std.specs.Prelude.{◌≡◌, ℕ, ◌∷◌, [], length, OnOk, IfErr, Ok, true};
ghost use Rattle.sym_core.specs.Number.{FitsSymbol};
ghost use Rattle.sym_core.specs.declared.refusal.Refusal.TheVariants as refusals;
ghost use Rattle.sym_print.specs.declared.layout.Part.TheVariants as parts;
ghost use Rattle.sym_shape.specs.Tree.{Tree};
ghost use Rattle.sym_demangle.specs.Standing.{Begins, IsLinked};
ghost use Rattle.rust_tree.specs.Layout.{MayCome, unshared_of};
ghost use Rattle.rust_tree.specs.Shown.{symbol_parts};
ghost use Rattle.rust_grammar.specs.Rules.{v0_table};
ghost use Rattle.rust_v0.specs.declared.part.Part.TheVariants as part;
ghost use Rattle.rust_grammar.specs.Mangled.{IsAnswer};
ghost use Rattle.rust_v0.specs.NodeCount.{v0_counted, nodes_of_shape};
ghost use Rattle.rust_v0.specs.Whole.{whole_of};
ghost use Rattle.rust_grammar.specs.Unfold.{unfolded};

use crate::grammar::V0;
use crate::nodes::RustNodes;
use crate::part::Part;
use rust_short_way::{Writer, write, write_brief};
use rust_tree::{Context, Detail, Nodes, Symbol};
use std::alloc::Global;
use std::mem;
use sym_core::Refusal;
use sym_demangle::Mangling;
use sym_print::Item;

/// The node of a whole symbol, which the one part denotes.
fn whole_node(parts: &[Part]) -> u32
    requires { (node : ℕ) × (parts.now ≡ part.Symbol node ∷ []) }
    ensures { parts.now ≡ part.Symbol result ∷ [] }
{
    match parts {
        [Part::Symbol(node)] => *node,
        _ => unreachable!(),
    }
}

impl Mangling for V0 {
    ghost use Rattle.std.specs.Prelude.{length, refl};
    ghost use Rattle.rust_tree.specs.Symbol as tree;
    ghost use Rattle.rust_grammar.specs.Mangled.{v0_mangled};
    ghost use Rattle.rust_v0.specs.Whole.{v0_fails, v0_counts, node_count, whole_of};
    ghost use Rattle.rust_v0.specs.RustNodes as nodes;
    ghost use Rattle.rust_v0.specs.NodeCount as count;

    type Linked = RustNodes;

    type Symbol = Symbol;

    type Direct = Writer;

    ghost Whole = { tree.Symbol };

    ghost mangled = { v0_mangled };

    ghost whole_of = { whole_of };

    ghost bytes_of = { λ y. y.bytes };

    ghost rows_of = { λ y. y.rows };

    ghost steps_of = { λ y. y.steps };

    ghost nodes_of = { λ y. length y.table.nodes };

    ghost are_nodes = { count.are_nodes };

    ghost written = { λ direct. direct.lists.text.list.items };

    ghost count_of = { node_count };

    ghost first_nodes = { nodes.first_nodes };

    fn grammar() -> V0 {
        V0
    }

    fn idle(alloc: Global) -> RustNodes {
        RustNodes::idle(alloc)
    }

    fn restart(linked: &mut RustNodes, symbol: &[u8]) -> Result<(), Refusal>
        requires { FitsSymbol symbol.now }
        ensures begins { OnOk result (Begins (v0_counted symbol.now) linked.new) }
        ensures memory { IfErr result (λ e. e ≡ refusals.Memory) }
    {
        linked.restart(symbol)
    }

    fn finish(
        bytes: Vec<u8>,
        linked: &mut RustNodes,
        parts: &[Part],
        rows: u32,
        steps: u32,
    ) -> Symbol
        requires { (shape : Tree) × IsLinked v0_table (v0_counted bytes.items) bytes.items linked.old parts.now rows steps shape }
        ensures bytes { result.bytes ≡ bytes.items }
        ensures whole { (shape : Tree) → IsLinked v0_table (v0_counted bytes.items) bytes.items linked.old parts.now rows steps shape → Ok (whole_of result) ≡ unfolded shape }
        ensures rows { result.rows ≡ rows }
        ensures steps { result.steps ≡ steps }
        ensures nodes { (shape : Tree) → IsLinked v0_table (v0_counted bytes.items) bytes.items linked.old parts.now rows steps shape → length result.table.nodes ≡ nodes_of_shape shape }
    {
        let root = whole_node(parts);
        let nodes = mem::replace(&mut linked.nodes, Nodes::new(linked.alloc));
        Symbol::new(bytes, nodes, root, rows, steps)
    }

    fn root(symbol: &Symbol, detail: Detail) -> Item<Context>
        ensures may_come { MayCome symbol.now (parts.Sub result) }
        ensures shows { unshared_of symbol.now result ≡ symbol_parts detail (whole_of symbol.now) }
    {
        symbol.root_as(detail)
    }

    fn recycle(linked: &mut RustNodes, symbol: Symbol) -> Vec<u8> {
        let (bytes, nodes) = symbol.into_lists();
        linked.nodes = nodes;
        bytes
    }

    fn direct(alloc: Global) -> Writer {
        Writer::new(alloc)
    }

    #[inline(always)]
    fn write(direct: &mut Writer, symbol: &[u8], limit: u32, detail: Detail) -> bool
        requires { FitsSymbol symbol.now }
        ensures { result ≡ true → IsAnswer detail symbol.now limit (Ok direct.new.lists.text.list.items) }
    {
        match detail {
            Detail::Full => write(direct, symbol, limit),
            Detail::Brief => write_brief(direct, symbol, limit),
            // a symbol has no parameters, and is the same without them
            _ => false,
        }
    }

    #[inline(always)]
    fn text(direct: &Writer) -> &[u8]
        ensures { result.now ≡ direct.now.lists.text.list.items }
    {
        direct.text()
    }

    fn refuses_bad_tokens() {}

    ghost table_is = { refl };

    ghost counts_nodes = { v0_counts };

    ghost view_table = { λ s tree is. is };

    ghost fails = { v0_fails };
}
