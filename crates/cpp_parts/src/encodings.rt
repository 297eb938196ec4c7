// Tasks for encodings.
#![tactic(auto)]

ghost use Rattle.std.specs.Prelude.{◌≡◌, ◌+◌, ◌*◌, ◌<◌, ◌≤◌, ◌-◌, ℕ, List, [], ◌∷◌, length, take, drop, OnOk, IfErr, false};
ghost use Rattle.sym_core.specs.declared.refusal.Refusal.{Refusal};
ghost use Rattle.sym_print.specs.declared.layout.Part.{Part};
ghost use Rattle.sym_print.specs.Joined.{IsText};
ghost use Rattle.sym_print.specs.Unshared.{Unshared, item, bytes, text_of, cost_of, cost_of_parts, steps_of, steps_of_parts};
ghost use Rattle.cpp_tree.specs.Views.{plain_tree};
ghost use Rattle.cpp_layout.specs.Layout.{table_of, unshared_of, bytes_of_part, MayBeAsked};
ghost use Rattle.sym_parts.specs.Marked.{Marked, text, marked, ◌before◌};
ghost use Rattle.sym_parts.specs.Plain.{suffixed};
ghost use Rattle.cpp_parts.specs.Roles.{called, returning, special_name, encoding, symbol_marked};
ghost use Rattle.cpp_grammar.specs.Term.{symbol};
ghost use Rattle.cpp_parts.specs.Sorts.{encoding_by};
ghost use Rattle.cpp_parts.specs.declared.sorts.EncodingSort.{EncodingSort};
ghost use Rattle.cpp_parts.specs.Tasks.{ArePayable, IsPayable, printed_by, Grows};

use crate::lengths::length_of;
use crate::lists::push_parameters;
use crate::plain::{push_alone, push_behind, push_plain, push_whole, push_words};
use crate::sorts::{EncodingSort, encoding_sort};
use crate::split::{Split, first_of};
use crate::task::{Task, Tasks};
use cpp_layout::{Context, Symbol, tree_production};
use sym_core::Refusal;
use sym_parts::{ONLY, Role};
use sym_print::{Item, Layout, Part};

/// The name of a function, and its parameters.
///
/// # Errors
///
/// `Memory`.
pub(crate) fn push_called(
    y: &Symbol,
    tasks: &mut Tasks,
    name: u32,
    parameters: u32,
    parts: &[Part<Context>],
    most: u32,
) -> Result<(), Refusal>
    requires name { name < length y.now.table.nodes }
    requires parameters { parameters < length y.now.table.nodes }
    requires paid { ArePayable y.now most parts.now }
    ensures grows { OnOk result (Grows y.now most tasks.old tasks.new (called (plain_tree (table_of y.now) name) (plain_tree (table_of y.now) parameters) (printed_by y.now parts.now)) (4 * steps_of_parts (printed_by y.now parts.now) + 3)) }
    ensures refusals { IfErr result (λ refusal. refusal ≡ Refusal.Memory) }
{
    match first_of(y, parts, most) {
        Split::Nothing => push_plain(y, tasks, parts, most),
        Split::Text(_, _) => push_plain(y, tasks, parts, most),
        Split::Item(inner, rest) => {
            push_parameters(y, tasks, parameters, rest, most)?;
            tasks.push(Task::Name(0, name, inner))
        }
    }
}

/// A function with a return type. The item of the return type comes first.
///
/// # Errors
///
/// `Memory`.
pub(crate) fn push_returning(
    y: &Symbol,
    tasks: &mut Tasks,
    name: u32,
    parameters: u32,
    left: Item<Context>,
    rest: &[Part<Context>],
    parts: &[Part<Context>],
    most: u32,
) -> Result<(), Refusal>
    requires name { name < length y.now.table.nodes }
    requires parameters { parameters < length y.now.table.nodes }
    requires is { printed_by y.now parts.now ≡ item (unshared_of y.now left) (printed_by y.now rest.now) }
    requires left { IsPayable y.now most left }
    requires rest { ArePayable y.now most rest.now }
    requires paid { ArePayable y.now most parts.now }
    ensures grows { OnOk result (Grows y.now most tasks.old tasks.new (returning false (plain_tree (table_of y.now) name) (plain_tree (table_of y.now) parameters) (printed_by y.now parts.now)) (4 * steps_of_parts (printed_by y.now parts.now) + 3)) }
    ensures refusals { IfErr result (λ refusal. refusal ≡ Refusal.Memory) }
{
    match first_of(y, rest, most) {
        Split::Nothing => push_called(y, tasks, name, parameters, parts, most),
        Split::Item(_, _) => push_called(y, tasks, name, parameters, parts, most),
        Split::Text(blank, others) => {
            let before = length_of(y, tasks.allocator(), &Part::Sub(left), most)?;
            let between = length_of(y, tasks.allocator(), &blank, most)?;
            push_called(y, tasks, name, parameters, others, most)?;
            tasks.push(Task::Skip(between))?;
            push_alone(y, tasks, Role::ReturnType, ONLY, before, most)
        }
    }
}

/// A function, perhaps with a return type.
///
/// # Errors
///
/// `Memory`.
pub(crate) fn push_function(
    y: &Symbol,
    tasks: &mut Tasks,
    name: u32,
    parameters: u32,
    nothing: bool,
    parts: &[Part<Context>],
    most: u32,
) -> Result<(), Refusal>
    requires name { name < length y.now.table.nodes }
    requires parameters { parameters < length y.now.table.nodes }
    requires paid { ArePayable y.now most parts.now }
    ensures grows { OnOk result (Grows y.now most tasks.old tasks.new (returning nothing (plain_tree (table_of y.now) name) (plain_tree (table_of y.now) parameters) (printed_by y.now parts.now)) (4 * steps_of_parts (printed_by y.now parts.now) + 3)) }
    ensures refusals { IfErr result (λ refusal. refusal ≡ Refusal.Memory) }
{
    if nothing {
        return push_called(y, tasks, name, parameters, parts, most);
    }
    match first_of(y, parts, most) {
        Split::Nothing => push_called(y, tasks, name, parameters, parts, most),
        Split::Text(_, _) => push_called(y, tasks, name, parameters, parts, most),
        Split::Item(left, rest) => {
            push_returning(y, tasks, name, parameters, left, rest, parts, most)
        }
    }
}

/// A special name, after the words of this many other special names: its own words, and what it belongs to.
///
/// # Errors
///
/// `Memory`.
pub(crate) fn push_special(
    y: &Symbol,
    tasks: &mut Tasks,
    specials: u32,
    parts: &[Part<Context>],
    most: u32,
) -> Result<(), Refusal>
    requires { ArePayable y.now most parts.now }
    ensures grows { OnOk result (Grows y.now most tasks.old tasks.new (special_name specials (printed_by y.now parts.now)) (4 * steps_of_parts (printed_by y.now parts.now) + 3)) }
    ensures refusals { IfErr result (λ refusal. refusal ≡ Refusal.Memory) }
{
    match first_of(y, parts, most) {
        Split::Nothing => push_plain(y, tasks, parts, most),
        Split::Item(_, _) => push_plain(y, tasks, parts, most),
        Split::Text(text, rest) => {
            let count = length_of(y, tasks.allocator(), &text, most)?;
            push_whole(y, tasks, Role::Object, ONLY, rest, most)?;
            push_words(y, tasks, specials, count, most)
        }
    }
}

/// A variable: its name, and what follows the name.
///
/// # Errors
///
/// `Memory`.
pub(crate) fn push_variable(
    y: &Symbol,
    tasks: &mut Tasks,
    specials: u32,
    name: u32,
    parts: &[Part<Context>],
    most: u32,
) -> Result<(), Refusal>
    requires name { name < length y.now.table.nodes }
    requires paid { ArePayable y.now most parts.now }
    ensures grows { OnOk result (Grows y.now most tasks.old tasks.new (encoding_by y.now specials (EncodingSort.Variable name) (printed_by y.now parts.now)) (4 * steps_of_parts (printed_by y.now parts.now) + 3)) }
    ensures refusals { IfErr result (λ refusal. refusal ≡ Refusal.Memory) }
{
    match first_of(y, parts, most) {
        Split::Nothing => push_special(y, tasks, specials, parts, most),
        Split::Text(_, _) => push_special(y, tasks, specials, parts, most),
        Split::Item(inner, rest) => {
            push_behind(y, tasks, rest, most)?;
            tasks.push(Task::Name(0, name, inner))
        }
    }
}

/// A thunk or a clone, after the words of this many special names: its words, and its target.
///
/// # Errors
///
/// `Memory`.
pub(crate) fn push_target(
    y: &Symbol,
    tasks: &mut Tasks,
    specials: u32,
    target: u32,
    parts: &[Part<Context>],
    most: u32,
) -> Result<(), Refusal>
    requires target { target < length y.now.table.nodes }
    requires specials { specials + cost_of_parts (printed_by y.now parts.now) < most }
    requires paid { ArePayable y.now most parts.now }
    ensures grows { OnOk result (Grows y.now most tasks.old tasks.new (encoding_by y.now specials (EncodingSort.Target target) (printed_by y.now parts.now)) (4 * steps_of_parts (printed_by y.now parts.now) + 3)) }
    ensures refusals { IfErr result (λ refusal. refusal ≡ Refusal.Memory) }
{
    match first_of(y, parts, most) {
        Split::Nothing => push_special(y, tasks, specials, parts, most),
        Split::Item(_, _) => push_special(y, tasks, specials, parts, most),
        Split::Text(text, rest) => match first_of(y, rest, most) {
            Split::Nothing => push_special(y, tasks, specials, parts, most),
            Split::Text(_, _) => push_special(y, tasks, specials, parts, most),
            Split::Item(inner, others) => {
                let count = length_of(y, tasks.allocator(), &text, most)?;
                push_plain(y, tasks, others, most)?;
                tasks.push(Task::Encoding(specials + 1, target, inner))?;
                push_words(y, tasks, specials, count, most)
            }
        },
    }
}

/// An encoding, after the words of this many special names.
///
/// # Errors
///
/// `Memory`.
pub(crate) fn push_encoding(
    y: &Symbol,
    tasks: &mut Tasks,
    specials: u32,
    node: u32,
    parts: &[Part<Context>],
    most: u32,
) -> Result<(), Refusal>
    requires node { node < length y.now.table.nodes }
    requires specials { specials + cost_of_parts (printed_by y.now parts.now) < most }
    requires paid { ArePayable y.now most parts.now }
    ensures grows { OnOk result (Grows y.now most tasks.old tasks.new (encoding specials (plain_tree (table_of y.now) node) (printed_by y.now parts.now)) (4 * steps_of_parts (printed_by y.now parts.now) + 3)) }
    ensures refusals { IfErr result (λ refusal. refusal ≡ Refusal.Memory) }
{
    match encoding_sort(y, node) {
        EncodingSort::Function(name, parameters, nothing) => {
            push_function(y, tasks, name, parameters, nothing, parts, most)
        }
        EncodingSort::Variable(name) => push_variable(y, tasks, specials, name, parts, most),
        EncodingSort::Target(target) => push_target(y, tasks, specials, target, parts, most),
        EncodingSort::Other => push_special(y, tasks, specials, parts, most),
    }
}

/// The suffix of a clone, in parentheses.
///
/// # Errors
///
/// `Memory`.
pub(crate) fn push_suffixed(
    y: &Symbol,
    tasks: &mut Tasks,
    parts: &[Part<Context>],
    most: u32,
) -> Result<(), Refusal>
    requires { ArePayable y.now most parts.now }
    ensures grows { OnOk result (Grows y.now most tasks.old tasks.new (suffixed (printed_by y.now parts.now)) (4 * steps_of_parts (printed_by y.now parts.now) + 3)) }
    ensures refusals { IfErr result (λ refusal. refusal ≡ Refusal.Memory) }
{
    match first_of(y, parts, most) {
        Split::Nothing => push_plain(y, tasks, parts, most),
        Split::Item(_, _) => push_plain(y, tasks, parts, most),
        Split::Text(opening, rest) => match first_of(y, rest, most) {
            Split::Nothing => push_plain(y, tasks, parts, most),
            Split::Item(_, _) => push_plain(y, tasks, parts, most),
            Split::Text(suffix, others) => {
                let before = length_of(y, tasks.allocator(), &opening, most)?;
                let length = length_of(y, tasks.allocator(), &suffix, most)?;
                push_plain(y, tasks, others, most)?;
                push_alone(y, tasks, Role::Suffix, ONLY, length, most)?;
                tasks.push(Task::Skip(before))
            }
        },
    }
}

/// A whole symbol, by the node of its encoding.
///
/// # Errors
///
/// `Memory`.
pub(crate) fn push_root(
    y: &Symbol,
    tasks: &mut Tasks,
    _node: u32,
    inner: u32,
    parts: &[Part<Context>],
    most: u32,
) -> Result<(), Refusal>
    requires inner { inner < length y.now.table.nodes }
    requires is { (suffix : List ℕ) × (plain_tree (table_of y.now) _node ≡ symbol (plain_tree (table_of y.now) inner) suffix) }
    requires paid { ArePayable y.now most parts.now }
    ensures grows { OnOk result (Grows y.now most tasks.old tasks.new (symbol_marked (plain_tree (table_of y.now) _node) (printed_by y.now parts.now)) (4 * steps_of_parts (printed_by y.now parts.now) + 3)) }
    ensures refusals { IfErr result (λ refusal. refusal ≡ Refusal.Memory) }
{
    match first_of(y, parts, most) {
        Split::Nothing => push_plain(y, tasks, parts, most),
        Split::Text(_, _) => push_plain(y, tasks, parts, most),
        Split::Item(item, rest) => {
            push_suffixed(y, tasks, rest, most)?;
            tasks.push(Task::Encoding(0, inner, item))
        }
    }
}

/// A whole symbol.
///
/// # Errors
///
/// `Memory`.
pub(crate) fn push_symbol(
    y: &Symbol,
    tasks: &mut Tasks,
    node: u32,
    parts: &[Part<Context>],
    most: u32,
) -> Result<(), Refusal>
    requires node { node < length y.now.table.nodes }
    requires paid { ArePayable y.now most parts.now }
    ensures grows { OnOk result (Grows y.now most tasks.old tasks.new (symbol_marked (plain_tree (table_of y.now) node) (printed_by y.now parts.now)) (4 * steps_of_parts (printed_by y.now parts.now) + 3)) }
    ensures refusals { IfErr result (λ refusal. refusal ≡ Refusal.Memory) }
{
    let found = y.node(node).production;
    if found == tree_production::SYMBOL {
        return push_root(y, tasks, node, y.part(node, 0), parts, most);
    }
    push_plain(y, tasks, parts, most)
}
