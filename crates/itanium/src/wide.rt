// C++'s mangling over the wide grammar, as the demangler takes it.

ghost use Rattle.std.specs.Prelude.{◌≡◌, length, OnOk, IfErr, Ok, true};
ghost use Rattle.sym_core.specs.Number.{FitsSymbol};
ghost use Rattle.sym_core.specs.declared.refusal.Refusal.TheVariants as refusals;
ghost use Rattle.sym_print.specs.declared.layout.Part.TheVariants as parts;
ghost use Rattle.sym_shape.specs.Tree.{Tree};
ghost use Rattle.sym_demangle.specs.Mangled.{IsAnswer};
ghost use Rattle.sym_demangle.specs.Standing.{Begins, IsLinked};
ghost use Rattle.cpp_grammar.specs.Mangled.{wide_mangled};
ghost use Rattle.cpp_grammar.specs.Table.{wide};
ghost use Rattle.cpp_grammar.specs.Answer.{shown, root_item};
ghost use Rattle.cpp_grammar.specs.Rescoping.{unfold_wide};
ghost use Rattle.cpp_layout.specs.Layout.{MayBeAsked, unshared_of, whole_of};
ghost use Rattle.cpp_link.specs.LinkRescoping.{wide_counted, wide_nodes_of_shape};

use crate::grammar::Wide;
use crate::mangling::finished;
use crate::short_way::{write, write_less};
use crate::wide_symbol::WideSymbol;
use crate::writer::Writer;
use cpp_layout::{Context, Detail};
use cpp_link::part::Part;
use cpp_link::rescoping::Rescoping;
use std::alloc::Global;
use sym_core::Refusal;
use sym_demangle::Mangling;
use sym_print::Item;

impl Mangling for Wide {
    ghost use Rattle.std.specs.Prelude.{length, refl};
    ghost use Rattle.cpp_grammar.specs.Mangled.{wide_mangled};
    ghost use Rattle.cpp_grammar.specs.Term.{Term};
    ghost use Rattle.cpp_layout.specs.Layout.{whole_of};
    ghost use Rattle.cpp_link.specs.LinkRescoping.{are_wide_nodes};
    ghost use Rattle.itanium.specs.Counting as counting;
    ghost use Rattle.itanium.specs.Counting.{wide_counts, wide_node_count};
    ghost use Rattle.itanium.specs.Failing.{wide_fails};

    type Linked = Rescoping;

    type Symbol = WideSymbol;

    type Direct = Writer;

    ghost Whole = { Term };

    ghost mangled = { wide_mangled };

    ghost whole_of = { whole_of };

    ghost bytes_of = { λ y. y.bytes };

    ghost rows_of = { λ y. y.rows };

    ghost steps_of = { λ y. y.steps };

    ghost nodes_of = { λ y. length y.table.nodes };

    ghost are_nodes = { are_wide_nodes };

    ghost written = { λ direct. direct.lists.text.list.items };

    ghost count_of = { wide_node_count };

    ghost first_nodes = { counting.first_nodes };

    fn grammar() -> Wide {
        Wide
    }

    fn idle(alloc: Global) -> Rescoping {
        Rescoping::new(alloc)
    }

    fn restart(linked: &mut Rescoping, _symbol: &[u8]) -> Result<(), Refusal>
        requires { FitsSymbol _symbol.now }
        ensures begins { OnOk result (Begins (wide_counted _symbol.now) linked.new) }
        ensures memory { IfErr result (λ e. e ≡ refusals.Memory) }
    {
        linked.linked.restart()?;
        Ok(())
    }

    fn finish(
        bytes: Vec<u8>,
        linked: &mut Rescoping,
        parts: &[Part],
        rows: u32,
        steps: u32,
    ) -> WideSymbol
        requires { (shape : Tree) × IsLinked wide (wide_counted bytes.items) bytes.items linked.old parts.now rows steps shape }
        ensures bytes { result.bytes ≡ bytes.items }
        ensures whole { (shape : Tree) → IsLinked wide (wide_counted bytes.items) bytes.items linked.old parts.now rows steps shape → Ok (whole_of result) ≡ unfold_wide shape }
        ensures rows { result.rows ≡ rows }
        ensures steps { result.steps ≡ steps }
        ensures nodes { (shape : Tree) → IsLinked wide (wide_counted bytes.items) bytes.items linked.old parts.now rows steps shape → length result.table.nodes ≡ wide_nodes_of_shape shape }
    {
        WideSymbol::new(finished(bytes, &mut linked.linked, parts, rows, steps))
    }

    fn root(symbol: &WideSymbol, detail: Detail) -> Item<Context>
        ensures may_come { MayBeAsked symbol.now (parts.Sub result) }
        ensures shows { unshared_of symbol.now result ≡ shown detail (root_item (whole_of symbol.now)) }
    {
        symbol.root_as(detail)
    }

    fn recycle(linked: &mut Rescoping, symbol: WideSymbol) -> Vec<u8> {
        let (bytes, nodes) = symbol.into_lists();
        linked.linked.nodes = nodes;
        bytes
    }

    fn direct(alloc: Global) -> Writer {
        Writer::new(alloc)
    }

    #[inline(always)]
    fn write(direct: &mut Writer, symbol: &[u8], limit: u32, detail: Detail) -> bool
        requires { FitsSymbol symbol.now }
        ensures { result ≡ true → IsAnswer wide_mangled detail symbol.now limit (Ok direct.new.lists.text.list.items) }
    {
        match detail {
            Detail::Full => write(direct, symbol, limit, true, detail),
            _ => write_less(direct, symbol, limit, true, detail),
        }
    }

    #[inline(always)]
    fn text(direct: &Writer) -> &[u8]
        ensures { result.now ≡ direct.now.lists.text.list.items }
    {
        direct.text()
    }

    fn refuses_bad_tokens() {
        cpp_grammar::refuses_bad_tokens();
    }

    ghost table_is = { refl };

    ghost counts_nodes = { wide_counts };

    ghost view_table = { λ s tree is. is };

    ghost fails = { wide_fails };
}
