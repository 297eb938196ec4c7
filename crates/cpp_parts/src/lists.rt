// Tasks for lists, and for lists in brackets.
#![tactic(auto)]

ghost use Rattle.std.specs.Prelude.{◌≡◌, ◌+◌, ◌*◌, ◌<◌, ◌≤◌, ◌-◌, ℕ, List, [], ◌∷◌, length, take, drop, OnOk, IfErr, Some};
ghost use Rattle.sym_core.specs.declared.refusal.Refusal.{Refusal};
ghost use Rattle.sym_print.specs.declared.layout.Part.{Part};
ghost use Rattle.sym_print.specs.Joined.{IsText};
ghost use Rattle.sym_print.specs.Unshared.{Unshared, item, bytes, text_of, cost_of, cost_of_parts, steps_of, steps_of_parts};
ghost use Rattle.cpp_tree.specs.Views.{plain_tree};
ghost use Rattle.cpp_layout.specs.Layout.{table_of, unshared_of, bytes_of_part, MayBeAsked};
ghost use Rattle.sym_parts.specs.Marked.{Marked, text, marked, ◌before◌};
ghost use Rattle.sym_parts.specs.Marked as marks;
ghost use Rattle.sym_parts.specs.Plain.{plain};
ghost use Rattle.cpp_parts.specs.Roles.{elements, elements_after, element, element_of, rest_of, within, inside, ordinal_of, in_brackets, parameters, arguments};
ghost use Rattle.cpp_parts.specs.Sorts.{elements_here};
ghost use Rattle.cpp_parts.specs.Tasks.{count_of};
ghost use Rattle.cpp_parts.specs.Tasks.{ArePayable, IsPayable, printed_by, Grows};

use crate::lengths::length_of;
use crate::numbering::{Numbering, next, ordinal_of};
use crate::plain::{push_behind, push_plain};
use crate::sorts::{element_node, node_within, numbering_within, rest_node};
use crate::split::{Split, first_of};
use crate::task::{Task, Tasks};
use cpp_layout::{Context, Symbol};
use sym_core::Refusal;
use sym_parts::{ONLY, Ordinal, Role};
use sym_print::{Item, Layout, Part};

/// An element of a list, by what it prints left and right.
///
/// # Errors
///
/// `Memory`.
pub(crate) fn push_lone(
    y: &Symbol,
    tasks: &mut Tasks,
    role: Role,
    ordinal: Ordinal,
    left: Item<Context>,
    right: Item<Context>,
    most: u32,
) -> Result<(), Refusal>
    requires left { IsPayable y.now most left }
    requires right { IsPayable y.now most right }
    requires paid { cost_of (unshared_of y.now left) + cost_of (unshared_of y.now right) ≤ most }
    ensures grows { OnOk result (Grows y.now most tasks.old tasks.new (marked role ordinal (text (text_of (unshared_of y.now left)) (text (text_of (unshared_of y.now right)) marks.done)) marks.done) 3) }
    ensures refusals { IfErr result (λ refusal. refusal ≡ Refusal.Memory) }
{
    let before = length_of(y, tasks.allocator(), &Part::Sub(left), most)?;
    let after = length_of(y, tasks.allocator(), &Part::Sub(right), most)?;
    tasks.push(Task::Skip(after))?;
    tasks.push(Task::Skip(before))?;
    tasks.push(Task::Begin(role, ordinal, before + after))
}

/// A list's element that has elements of its own, if the element prints only these.
///
/// # Errors
///
/// `Memory`.
pub(crate) fn push_element_within(
    y: &Symbol,
    tasks: &mut Tasks,
    role: Role,
    own: Numbering,
    inner: Numbering,
    node: u32,
    left: Item<Context>,
    right: Item<Context>,
    most: u32,
) -> Result<(), Refusal>
    requires node { node < length y.now.table.nodes }
    requires few { count_of inner ≤ 1 }
    requires left { IsPayable y.now most left }
    requires right { IsPayable y.now most right }
    requires paid { cost_of (unshared_of y.now left) + cost_of (unshared_of y.now right) ≤ most }
    ensures grows { OnOk result (Grows y.now most tasks.old tasks.new (element role own inner (Some (plain_tree (table_of y.now) node)) (unshared_of y.now left) (unshared_of y.now right)) (4 * steps_of (unshared_of y.now left))) }
    ensures refusals { IfErr result (λ refusal. refusal ≡ Refusal.Memory) }
{
    let ordinal = ordinal_of(own);
    let parts = y.parts(left);
    let behind = y.parts(right);
    match first_of(y, &parts, most) {
        Split::Nothing => push_lone(y, tasks, role, ordinal, left, right, most),
        Split::Text(_, _) => push_lone(y, tasks, role, ordinal, left, right, most),
        Split::Item(list, rest) => match first_of(y, rest, most) {
            Split::Text(_, _) => push_lone(y, tasks, role, ordinal, left, right, most),
            Split::Item(_, _) => push_lone(y, tasks, role, ordinal, left, right, most),
            Split::Nothing => match first_of(y, &behind, most) {
                Split::Text(_, _) => push_lone(y, tasks, role, ordinal, left, right, most),
                Split::Item(_, _) => push_lone(y, tasks, role, ordinal, left, right, most),
                Split::Nothing => tasks.push(Task::Elements(role, inner, node, list)),
            },
        },
    }
}

/// An element of a list, or the elements of that element.
///
/// # Errors
///
/// `Memory`.
pub(crate) fn push_element(
    y: &Symbol,
    tasks: &mut Tasks,
    role: Role,
    numbering: Numbering,
    node: u32,
    left: Item<Context>,
    right: Item<Context>,
    most: u32,
) -> Result<(), Refusal>
    requires node { node < length y.now.table.nodes }
    requires left { IsPayable y.now most left }
    requires right { IsPayable y.now most right }
    requires paid { cost_of (unshared_of y.now left) + cost_of (unshared_of y.now right) ≤ most }
    ensures grows { OnOk result (Grows y.now most tasks.old tasks.new (element role numbering (inside numbering (plain_tree (table_of y.now) node)) (within (plain_tree (table_of y.now) node)) (unshared_of y.now left) (unshared_of y.now right)) (4 * steps_of (unshared_of y.now left))) }
    ensures refusals { IfErr result (λ refusal. refusal ≡ Refusal.Memory) }
{
    match node_within(y, node) {
        None => push_lone(y, tasks, role, ordinal_of(numbering), left, right, most),
        Some(inner) => {
            let numbers = numbering_within(y, node, numbering);
            push_element_within(y, tasks, role, numbering, numbers, inner, left, right, most)
        }
    }
}

/// The elements after an element.
///
/// # Errors
///
/// `Memory`.
pub(crate) fn push_elements_after(
    y: &Symbol,
    tasks: &mut Tasks,
    role: Role,
    numbering: Numbering,
    node: u32,
    parts: &[Part<Context>],
    most: u32,
) -> Result<(), Refusal>
    requires node { node < length y.now.table.nodes }
    requires numbers { count_of numbering + cost_of_parts (printed_by y.now parts.now) ≤ most }
    requires paid { ArePayable y.now most parts.now }
    ensures grows { OnOk result (Grows y.now most tasks.old tasks.new (elements_after role numbering (plain_tree (table_of y.now) node) (printed_by y.now parts.now)) (4 * steps_of_parts (printed_by y.now parts.now) + 3)) }
    ensures refusals { IfErr result (λ refusal. refusal ≡ Refusal.Memory) }
{
    match first_of(y, parts, most) {
        Split::Nothing => push_plain(y, tasks, parts, most),
        Split::Text(_, _) => push_plain(y, tasks, parts, most),
        Split::Item(others, rest) => {
            push_plain(y, tasks, rest, most)?;
            tasks.push(Task::Elements(role, numbering, node, others))
        }
    }
}

/// The elements of a list from a given one on, if an item comes first.
///
/// # Errors
///
/// `Memory`.
pub(crate) fn push_elements_from(
    y: &Symbol,
    tasks: &mut Tasks,
    role: Role,
    numbering: Numbering,
    node: u32,
    left: Item<Context>,
    rest: &[Part<Context>],
    parts: &[Part<Context>],
    most: u32,
) -> Result<(), Refusal>
    requires node { node < length y.now.table.nodes }
    requires is { printed_by y.now parts.now ≡ item (unshared_of y.now left) (printed_by y.now rest.now) }
    requires left { IsPayable y.now most left }
    requires fits { cost_of (unshared_of y.now left) + cost_of_parts (printed_by y.now rest.now) ≤ most }
    requires rest { ArePayable y.now most rest.now }
    requires numbers { count_of numbering + cost_of_parts (printed_by y.now parts.now) < most }
    requires paid { ArePayable y.now most parts.now }
    ensures grows { OnOk result (Grows y.now most tasks.old tasks.new (elements_here role numbering (plain_tree (table_of y.now) node) (printed_by y.now parts.now)) (4 * steps_of_parts (printed_by y.now parts.now) + 3)) }
    ensures refusals { IfErr result (λ refusal. refusal ≡ Refusal.Memory) }
{
    match first_of(y, rest, most) {
        Split::Nothing => tasks.push(Task::Elements(
            role,
            next(numbering),
            rest_node(y, node),
            left,
        )),
        Split::Text(_, _) => push_plain(y, tasks, parts, most),
        Split::Item(right, others) => {
            push_elements_after(
                y,
                tasks,
                role,
                next(numbering),
                rest_node(y, node),
                others,
                most,
            )?;
            push_element(
                y,
                tasks,
                role,
                numbering,
                element_node(y, node),
                left,
                right,
                most,
            )
        }
    }
}

/// The elements of a list from a given one on, without a comma before it.
///
/// # Errors
///
/// `Memory`.
pub(crate) fn push_elements_here(
    y: &Symbol,
    tasks: &mut Tasks,
    role: Role,
    numbering: Numbering,
    node: u32,
    parts: &[Part<Context>],
    most: u32,
) -> Result<(), Refusal>
    requires node { node < length y.now.table.nodes }
    requires numbers { count_of numbering + cost_of_parts (printed_by y.now parts.now) < most }
    requires paid { ArePayable y.now most parts.now }
    ensures grows { OnOk result (Grows y.now most tasks.old tasks.new (elements_here role numbering (plain_tree (table_of y.now) node) (printed_by y.now parts.now)) (4 * steps_of_parts (printed_by y.now parts.now) + 3)) }
    ensures refusals { IfErr result (λ refusal. refusal ≡ Refusal.Memory) }
{
    match first_of(y, parts, most) {
        Split::Nothing => push_plain(y, tasks, parts, most),
        Split::Text(_, _) => push_plain(y, tasks, parts, most),
        Split::Item(left, rest) => {
            push_elements_from(y, tasks, role, numbering, node, left, rest, parts, most)
        }
    }
}

/// The elements of a list from a given one on.
///
/// # Errors
///
/// `Memory`.
pub(crate) fn push_elements(
    y: &Symbol,
    tasks: &mut Tasks,
    role: Role,
    numbering: Numbering,
    node: u32,
    parts: &[Part<Context>],
    most: u32,
) -> Result<(), Refusal>
    requires node { node < length y.now.table.nodes }
    requires numbers { count_of numbering + cost_of_parts (printed_by y.now parts.now) < most }
    requires paid { ArePayable y.now most parts.now }
    ensures grows { OnOk result (Grows y.now most tasks.old tasks.new (elements role numbering (plain_tree (table_of y.now) node) (printed_by y.now parts.now)) (4 * steps_of_parts (printed_by y.now parts.now) + 3)) }
    ensures refusals { IfErr result (λ refusal. refusal ≡ Refusal.Memory) }
{
    match first_of(y, parts, most) {
        Split::Nothing => push_plain(y, tasks, parts, most),
        Split::Item(_, _) => push_elements_here(y, tasks, role, numbering, node, parts, most),
        Split::Text(comma, rest) => {
            push_elements_here(y, tasks, role, numbering, node, rest, most)?;
            let length = length_of(y, tasks.allocator(), &comma, most)?;
            tasks.push(Task::Skip(length))
        }
    }
}

/// A list in brackets, by the item of the list and the closing bracket. The opening bracket has this many bytes.
///
/// # Errors
///
/// `Memory`.
pub(crate) fn push_listed(
    y: &Symbol,
    tasks: &mut Tasks,
    of_list: Role,
    of_element: Role,
    node: u32,
    count: u32,
    list: Item<Context>,
    close: Part<Context>,
    parts: &[Part<Context>],
    most: u32,
) -> Result<(), Refusal>
    requires node { node < length y.now.table.nodes }
    requires list { IsPayable y.now most list }
    requires close { MayBeAsked y.now close }
    requires is_text { IsText close }
    requires paid { ArePayable y.now most parts.now }
    requires fits { count + cost_of (unshared_of y.now list) + length (bytes_of_part y.now close) + cost_of_parts (printed_by y.now parts.now) ≤ most }
    ensures grows { OnOk result ((opening : List ℕ) → length opening ≡ count → Grows y.now most tasks.old tasks.new (in_brackets of_list of_element (plain_tree (table_of y.now) node) opening (item (unshared_of y.now list) (bytes (bytes_of_part y.now close) (printed_by y.now parts.now)))) (4 * steps_of (unshared_of y.now list) + 4 * steps_of_parts (printed_by y.now parts.now) + 6)) }
    ensures refusals { IfErr result (λ refusal. refusal ≡ Refusal.Memory) }
{
    let inside = length_of(y, tasks.allocator(), &Part::Sub(list), most)?;
    let closing = length_of(y, tasks.allocator(), &close, most)?;
    push_behind(y, tasks, parts, most)?;
    tasks.push(Task::Skip(closing))?;
    tasks.push(Task::Elements(of_element, Numbering::Items(0), node, list))?;
    tasks.push(Task::Skip(count))?;
    tasks.push(Task::Begin(of_list, ONLY, count + inside + closing))
}

/// Brackets without a list. The opening bracket has this many bytes.
///
/// # Errors
///
/// `Memory`.
pub(crate) fn push_empty(
    y: &Symbol,
    tasks: &mut Tasks,
    of_list: Role,
    _of_element: Role,
    _node: u32,
    count: u32,
    close: Part<Context>,
    parts: &[Part<Context>],
    most: u32,
) -> Result<(), Refusal>
    requires close { MayBeAsked y.now close }
    requires is_text { IsText close }
    requires paid { ArePayable y.now most parts.now }
    requires fits { count + length (bytes_of_part y.now close) + cost_of_parts (printed_by y.now parts.now) ≤ most }
    ensures grows { OnOk result ((opening : List ℕ) → length opening ≡ count → Grows y.now most tasks.old tasks.new (in_brackets of_list _of_element (plain_tree (table_of y.now) _node) opening (bytes (bytes_of_part y.now close) (printed_by y.now parts.now))) (4 * steps_of_parts (printed_by y.now parts.now) + 6)) }
    ensures refusals { IfErr result (λ refusal. refusal ≡ Refusal.Memory) }
{
    let closing = length_of(y, tasks.allocator(), &close, most)?;
    push_behind(y, tasks, parts, most)?;
    tasks.push(Task::Skip(closing))?;
    tasks.push(Task::Skip(count))?;
    tasks.push(Task::Begin(of_list, ONLY, count + closing))
}

/// Bytes, and what is printed after them, without a mark.
///
/// # Errors
///
/// `Memory`.
pub(crate) fn push_unlisted(
    y: &Symbol,
    tasks: &mut Tasks,
    count: u32,
    parts: &[Part<Context>],
    most: u32,
) -> Result<(), Refusal>
    requires { ArePayable y.now most parts.now }
    ensures grows { OnOk result ((b : List ℕ) → length b ≡ count → Grows y.now most tasks.old tasks.new (text b (plain (printed_by y.now parts.now))) 2) }
    ensures refusals { IfErr result (λ refusal. refusal ≡ Refusal.Memory) }
{
    push_plain(y, tasks, parts, most)?;
    tasks.push(Task::Skip(count))
}

/// A list in brackets. The opening bracket has this many bytes.
///
/// # Errors
///
/// `Memory`.
pub(crate) fn push_brackets(
    y: &Symbol,
    tasks: &mut Tasks,
    of_list: Role,
    of_element: Role,
    node: u32,
    count: u32,
    parts: &[Part<Context>],
    most: u32,
) -> Result<(), Refusal>
    requires node { node < length y.now.table.nodes }
    requires paid { ArePayable y.now most parts.now }
    requires fits { count + cost_of_parts (printed_by y.now parts.now) ≤ most }
    ensures grows { OnOk result ((opening : List ℕ) → length opening ≡ count → Grows y.now most tasks.old tasks.new (in_brackets of_list of_element (plain_tree (table_of y.now) node) opening (printed_by y.now parts.now)) (4 * steps_of_parts (printed_by y.now parts.now) + 4)) }
    ensures refusals { IfErr result (λ refusal. refusal ≡ Refusal.Memory) }
{
    match first_of(y, parts, most) {
        Split::Nothing => push_unlisted(y, tasks, count, parts, most),
        Split::Text(close, rest) => {
            push_empty(
                y, tasks, of_list, of_element, node, count, close, rest, most,
            )
        }
        Split::Item(list, rest) => match first_of(y, rest, most) {
            Split::Text(close, others) => push_listed(
                y, tasks, of_list, of_element, node, count, list, close, others, most,
            ),
            Split::Nothing => push_unlisted(y, tasks, count, parts, most),
            Split::Item(_, _) => push_unlisted(y, tasks, count, parts, most),
        },
    }
}

/// The parameters of a function.
///
/// # Errors
///
/// `Memory`.
pub(crate) fn push_parameters(
    y: &Symbol,
    tasks: &mut Tasks,
    node: u32,
    parts: &[Part<Context>],
    most: u32,
) -> Result<(), Refusal>
    requires node { node < length y.now.table.nodes }
    requires paid { ArePayable y.now most parts.now }
    ensures grows { OnOk result (Grows y.now most tasks.old tasks.new (parameters (plain_tree (table_of y.now) node) (printed_by y.now parts.now)) (4 * steps_of_parts (printed_by y.now parts.now) + 3)) }
    ensures refusals { IfErr result (λ refusal. refusal ≡ Refusal.Memory) }
{
    match first_of(y, parts, most) {
        Split::Nothing => push_plain(y, tasks, parts, most),
        Split::Item(_, _) => push_plain(y, tasks, parts, most),
        Split::Text(opening, rest) => {
            let count = length_of(y, tasks.allocator(), &opening, most)?;
            push_brackets(
                y,
                tasks,
                Role::Parameters,
                Role::Parameter,
                node,
                count,
                rest,
                most,
            )
        }
    }
}

/// The arguments of a template. A blank before the bracket is in no part.
///
/// # Errors
///
/// `Memory`.
pub(crate) fn push_arguments(
    y: &Symbol,
    tasks: &mut Tasks,
    node: u32,
    parts: &[Part<Context>],
    most: u32,
) -> Result<(), Refusal>
    requires node { node < length y.now.table.nodes }
    requires paid { ArePayable y.now most parts.now }
    ensures grows { OnOk result (Grows y.now most tasks.old tasks.new (arguments (plain_tree (table_of y.now) node) (printed_by y.now parts.now)) (4 * steps_of_parts (printed_by y.now parts.now) + 3)) }
    ensures refusals { IfErr result (λ refusal. refusal ≡ Refusal.Memory) }
{
    match first_of(y, parts, most) {
        Split::Nothing => push_plain(y, tasks, parts, most),
        Split::Item(_, _) => push_plain(y, tasks, parts, most),
        Split::Text(opening, rest) => {
            let count = length_of(y, tasks.allocator(), &opening, most)?;
            let bracket = count.min(1);
            let (list, element) = (Role::GenericArguments, Role::GenericArgument);
            push_brackets(y, tasks, list, element, node, bracket, rest, most)?;
            tasks.push(Task::Skip(count - bracket))
        }
    }
}
