// The details of a node: what it has apart from its production and its parts.
#![tactic(auto)]

ghost use Rattle.std.specs.Prelude.{◌≡◌, ◌<◌, length};
ghost use Rattle.cpp_tree.specs.Nodes.{IsWithin};
ghost use Rattle.cpp_tree.specs.Fields.{bit, offsets_of};
ghost use Rattle.cpp_tree.specs.Views.{IsView, AreWithin, IsKnownThunk, fields_at, offsets_in, plain_tree};
ghost use Rattle.cpp_layout.specs.Layout.{table_of};
ghost use Rattle.cpp_press.specs.Details.{fields_told, offsets_told, told_in};

use cpp_layout::Symbol;
use cpp_tree::Node;
use cpp_tree::node::{Adjustment, Signed, Thunk};
use cpp_tree::tree_production::WIDE_THUNK;
use sym_core::Span;

/// The numbers and texts of a node: those of its view, or a thunk's offsets, which the view leaves out.
#[derive(Clone, Copy)]
pub struct Details {
    pub numbers: [u64; 4],
    pub texts: [Span; 4],
}

/// No bytes.
const NO_TEXT: Span = Span { from: 0, to: 0 };

/// The number of an offset that is absent.
const NO_OFFSET: u64 = 2;

/// The number of an offset: 1 with a minus, 0 without.
#[tactic(auto, unfolding(cpp_tree::specs::Fields::bit))]
fn sign(offset: Signed) -> u64
    ensures { result ≡ bit offset.negative }
{
    if offset.negative { 1 } else { 0 }
}

/// The offsets by which a thunk adjusts its object, and any offsets by which it adjusts its result.
#[inline(never)]
#[tactic(auto, unfolding(crate::specs::Details::offsets_told, cpp_tree::specs::Nodes::thunk_of, cpp_tree::specs::Nodes::adjustment_of))]
fn offsets_of_thunk(symbol: &Symbol, thunk: Option<Thunk>) -> Details
    requires { IsKnownThunk symbol.now.bytes thunk }
    ensures told { told_in symbol.now.bytes result ≡ offsets_told (offsets_in symbol.now.bytes thunk) }
    ensures texts { AreWithin symbol.now.bytes result.texts }
{
    match thunk {
        None => Details {
            numbers: [NO_OFFSET; 4],
            texts: [NO_TEXT; 4],
        },
        Some(Thunk::Adjusting(object)) => match object {
            Adjustment::NonVirtual(a) => Details {
                numbers: [sign(a), NO_OFFSET, NO_OFFSET, NO_OFFSET],
                texts: [a.digits, NO_TEXT, NO_TEXT, NO_TEXT],
            },
            Adjustment::ByTable(a, b) => Details {
                numbers: [sign(a), sign(b), NO_OFFSET, NO_OFFSET],
                texts: [a.digits, b.digits, NO_TEXT, NO_TEXT],
            },
        },
        Some(Thunk::Covariant(object, returned)) => match object {
            Adjustment::NonVirtual(a) => match returned {
                Adjustment::NonVirtual(c) => Details {
                    numbers: [sign(a), NO_OFFSET, sign(c), NO_OFFSET],
                    texts: [a.digits, NO_TEXT, c.digits, NO_TEXT],
                },
                Adjustment::ByTable(c, d) => Details {
                    numbers: [sign(a), NO_OFFSET, sign(c), sign(d)],
                    texts: [a.digits, NO_TEXT, c.digits, d.digits],
                },
            },
            Adjustment::ByTable(a, b) => match returned {
                Adjustment::NonVirtual(c) => Details {
                    numbers: [sign(a), sign(b), sign(c), NO_OFFSET],
                    texts: [a.digits, b.digits, c.digits, NO_TEXT],
                },
                Adjustment::ByTable(c, d) => Details {
                    numbers: [sign(a), sign(b), sign(c), sign(d)],
                    texts: [a.digits, b.digits, c.digits, d.digits],
                },
            },
        },
    }
}

/// The details of a node with this view.
#[tactic(auto, unfolding(crate::specs::Details::fields_told))]
pub fn details_of(symbol: &Symbol, node: u32, view: Node) -> Details
    requires node { node < length symbol.now.table.nodes }
    requires view { IsView symbol.now.bytes view (fields_at (table_of symbol.now) node) }
    requires texts { AreWithin symbol.now.bytes view.texts }
    ensures told { told_in symbol.now.bytes result ≡ fields_told (fields_at (table_of symbol.now) node) (offsets_of (plain_tree (table_of symbol.now) node)) }
    ensures texts { AreWithin symbol.now.bytes result.texts }
{
    if view.production == WIDE_THUNK {
        return offsets_of_thunk(symbol, symbol.call_offsets(node));
    }
    let [first, second] = view.numbers;
    let [text, other] = view.texts;
    Details {
        numbers: [first, second, 0, 0],
        texts: [text, other, NO_TEXT, NO_TEXT],
    }
}
