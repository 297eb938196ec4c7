// C++'s mangling, as the demangler takes it.

ghost use Rattle.std.specs.Prelude.{◌≡◌, ℕ, ◌*◌, ◌+◌, ◌≤◌, ◌∷◌, [], length, Bool, OnOk, IfErr, Result, Ok, true};
ghost use Rattle.sym_core.specs.Number.{FitsSymbol};
ghost use Rattle.sym_core.specs.declared.refusal.Refusal.{Refusal};
ghost use Rattle.sym_core.specs.declared.refusal.Refusal.TheVariants as refusals;
ghost use Rattle.sym_print.specs.declared.layout.Part.TheVariants as parts;
ghost use Rattle.sym_shape.specs.Tree.{Tree};
ghost use Rattle.sym_demangle.specs.Standing.{Begins, IsLinked};
ghost use Rattle.cpp_grammar.specs.Mangled.{IsAnswer};
ghost use Rattle.cpp_grammar.specs.Table.{abi};
ghost use Rattle.cpp_grammar.specs.Term.{Term};
ghost use Rattle.cpp_grammar.specs.Answer.{shown, root_item};
ghost use Rattle.cpp_grammar.specs.Unfolding.{unfold_cpp};
ghost use Rattle.cpp_layout.specs.Layout.{MayBeAsked, unshared_of, whole_of};
ghost use Rattle.cpp_link.specs.declared.part.Part.TheVariants as part;
ghost use Rattle.cpp_link.specs.NodeCount.{cpp_counted, nodes_of_shape};
ghost use Rattle.itanium.specs.Whole.{HasWhole};

use crate::grammar::Abi;
use crate::short_way::{write, write_less};
use crate::writer::Writer;
use cpp_layout::{Context, Detail, Symbol};
use cpp_link::linked::Linked;
use cpp_link::part::Part;
use cpp_tree::Nodes;
use std::alloc::Global;
use std::mem;
use sym_core::Refusal;
use sym_demangle::Mangling;
use sym_print::Item;

/// The node of a whole symbol, which the one part denotes.
fn whole_node(parts: &[Part]) -> u32
    requires { (node : ℕ) × (listed : Bool) × (parts.now ≡ part.Tree node listed ∷ []) }
    ensures { (listed : Bool) × (parts.now ≡ part.Tree result listed ∷ []) }
{
    match parts {
        [Part::Tree { node, .. }] => *node,
        _ => unreachable!(),
    }
}

/// The symbol that was linked.
#[inline]
pub(crate) fn finished(
    bytes: Vec<u8>,
    linked: &mut Linked,
    parts: &[Part],
    rows: u32,
    steps: u32,
) -> Symbol
    requires whole { (read : Result Term Refusal) × HasWhole bytes.items read linked.old parts.now }
    requires fits { FitsSymbol bytes.items }
    requires few { rows ≤ 4 * length bytes.items + 4 }
    requires each { rows ≤ steps }
    requires most { steps ≤ 32 * length bytes.items + 48 }
    ensures bytes { result.bytes ≡ bytes.items }
    ensures whole { (read : Result Term Refusal) → HasWhole bytes.items read linked.old parts.now → Ok (whole_of result) ≡ read }
    ensures rows { result.rows ≡ rows }
    ensures steps { result.steps ≡ steps }
    ensures nodes { result.table.nodes ≡ linked.old.nodes.nodes }
{
    let root = whole_node(parts);
    let empty = Nodes::new(*bytes.allocator());
    let nodes = mem::replace(&mut linked.nodes, empty);
    Symbol::new(bytes, nodes, root, rows, steps)
}

impl Mangling for Abi {
    ghost use Rattle.std.specs.Prelude.{length, refl};
    ghost use Rattle.cpp_grammar.specs.Mangled.{cpp_mangled};
    ghost use Rattle.cpp_grammar.specs.Term.{Term};
    ghost use Rattle.cpp_layout.specs.Layout.{whole_of};
    ghost use Rattle.cpp_link.specs.NodeCount.{are_nodes};
    ghost use Rattle.itanium.specs.Counting as counting;
    ghost use Rattle.itanium.specs.Counting.{cpp_counts, node_count};
    ghost use Rattle.itanium.specs.Failing.{abi_grows, abi_fails};

    type Linked = Linked;

    type Symbol = Symbol;

    type Direct = Writer;

    ghost Whole = { Term };

    ghost mangled = { cpp_mangled };

    ghost whole_of = { whole_of };

    ghost bytes_of = { λ y. y.bytes };

    ghost rows_of = { λ y. y.rows };

    ghost steps_of = { λ y. y.steps };

    ghost nodes_of = { λ y. length y.table.nodes };

    ghost are_nodes = { are_nodes };

    ghost written = { λ direct. direct.lists.text.list.items };

    ghost count_of = { node_count };

    ghost first_nodes = { counting.first_nodes };

    fn grammar() -> Abi {
        Abi
    }

    fn idle(alloc: Global) -> Linked {
        Linked::new(alloc)
    }

    fn restart(linked: &mut Linked, _symbol: &[u8]) -> Result<(), Refusal>
        requires { FitsSymbol _symbol.now }
        ensures begins { OnOk result (Begins (cpp_counted _symbol.now) linked.new) }
        ensures memory { IfErr result (λ e. e ≡ refusals.Memory) }
    {
        linked.restart()?;
        Ok(())
    }

    fn finish(bytes: Vec<u8>, linked: &mut Linked, parts: &[Part], rows: u32, steps: u32) -> Symbol
        requires { (shape : Tree) × IsLinked abi (cpp_counted bytes.items) bytes.items linked.old parts.now rows steps shape }
        ensures bytes { result.bytes ≡ bytes.items }
        ensures whole { (shape : Tree) → IsLinked abi (cpp_counted bytes.items) bytes.items linked.old parts.now rows steps shape → Ok (whole_of result) ≡ unfold_cpp shape }
        ensures rows { result.rows ≡ rows }
        ensures steps { result.steps ≡ steps }
        ensures nodes { (shape : Tree) → IsLinked abi (cpp_counted bytes.items) bytes.items linked.old parts.now rows steps shape → length result.table.nodes ≡ nodes_of_shape shape }
    {
        finished(bytes, linked, parts, rows, steps)
    }

    fn root(symbol: &Symbol, detail: Detail) -> Item<Context>
        ensures may_come { MayBeAsked symbol.now (parts.Sub result) }
        ensures shows { unshared_of symbol.now result ≡ shown detail (root_item (whole_of symbol.now)) }
    {
        symbol.root_as(detail)
    }

    fn recycle(linked: &mut Linked, symbol: Symbol) -> Vec<u8> {
        let (bytes, nodes) = symbol.into_lists();
        linked.nodes = nodes;
        bytes
    }

    fn direct(alloc: Global) -> Writer {
        Writer::new(alloc)
    }

    #[inline(always)]
    fn write(direct: &mut Writer, symbol: &[u8], limit: u32, detail: Detail) -> bool
        requires { FitsSymbol symbol.now }
        ensures { result ≡ true → IsAnswer detail symbol.now limit (Ok direct.new.lists.text.list.items) }
    {
        match detail {
            Detail::Full => write(direct, symbol, limit, false, detail),
            _ => write_less(direct, symbol, limit, false, detail),
        }
    }

    #[inline(always)]
    fn text(direct: &Writer) -> &[u8]
        ensures { result.now ≡ direct.now.lists.text.list.items }
    {
        direct.text()
    }

    fn refuses_bad_tokens() {
        cpp_grammar::refuses_bad_tokens();
    }

    ghost table_is = { refl };

    ghost counts_nodes = { cpp_counts };

    ghost view_table = { λ s tree is. abi_grows tree is };

    ghost fails = { abi_fails };
}
