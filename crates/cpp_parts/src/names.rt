// Tasks for names.
#![tactic(auto)]

ghost use Rattle.std.specs.Prelude.{◌≡◌, ◌+◌, ◌*◌, ◌<◌, ◌≤◌, ◌-◌, ℕ, List, [], ◌∷◌, length, take, drop, OnOk, IfErr};
ghost use Rattle.sym_core.specs.declared.refusal.Refusal.{Refusal};
ghost use Rattle.sym_print.specs.declared.layout.Part.{Part};
ghost use Rattle.sym_print.specs.Joined.{IsText};
ghost use Rattle.sym_print.specs.Unshared.{Unshared, item, bytes, text_of, cost_of, cost_of_parts, steps_of, steps_of_parts};
ghost use Rattle.cpp_tree.specs.Views.{plain_tree};
ghost use Rattle.cpp_layout.specs.Layout.{table_of, unshared_of, bytes_of_part, MayBeAsked};
ghost use Rattle.sym_parts.specs.Marked.{Marked, text, marked, ◌before◌};
ghost use Rattle.sym_parts.specs.Plain.{whole};
ghost use Rattle.cpp_parts.specs.Roles.{are_colons, scoped, in_std, abbreviated, named, name};
ghost use Rattle.cpp_parts.specs.Sorts.{name_by, AreNamesBelow};
ghost use Rattle.cpp_parts.specs.Tasks.{ArePayable, IsPayable, printed_by, Grows};

use crate::lengths::{length_of, length_of_all};
use crate::lists::push_arguments;
use crate::plain::{push_alone, push_plain, push_whole};
use crate::sorts::{NameSort, name_sort};
use crate::split::{Split, first_of};
use crate::task::{Task, Tasks};
use cpp_layout::{Context, Symbol};
use sym_core::Refusal;
use sym_parts::{ONLY, Ordinal, Role};
use sym_print::{Item, Layout, Part};

/// Whether a text begins with a colon.
fn are_colons(y: &Symbol, text: &Part<Context>) -> bool
    requires may_come { MayBeAsked y.now text.now }
    requires is_text { IsText text.now }
    ensures { result ≡ are_colons (bytes_of_part y.now text.now) }
{
    match y.bytes(text).split_first() {
        None => false,
        Some((first, _)) => *first == b':',
    }
}

/// A scope, two colons and a base.
///
/// # Errors
///
/// `Memory`.
pub(crate) fn push_scoped(
    y: &Symbol,
    tasks: &mut Tasks,
    scope: Item<Context>,
    colons: Part<Context>,
    parts: &[Part<Context>],
    most: u32,
) -> Result<(), Refusal>
    requires scope { IsPayable y.now most scope }
    requires colons { MayBeAsked y.now colons }
    requires is_text { IsText colons }
    requires fits { length (bytes_of_part y.now colons) + cost_of_parts (printed_by y.now parts.now) ≤ most }
    requires paid { ArePayable y.now most parts.now }
    ensures grows { OnOk result (Grows y.now most tasks.old tasks.new (scoped (text_of (unshared_of y.now scope)) (bytes_of_part y.now colons) (printed_by y.now parts.now)) 6) }
    ensures refusals { IfErr result (λ refusal. refusal ≡ Refusal.Memory) }
{
    let outer = length_of(y, tasks.allocator(), &Part::Sub(scope), most)?;
    let between = length_of(y, tasks.allocator(), &colons, most)?;
    let inner = length_of_all(y, tasks.allocator(), parts, most)?;
    let front = between.min(2);
    tasks.push(Task::Skip(inner))?;
    tasks.push(Task::Skip(between - front))?;
    tasks.push(Task::Begin(Role::Base, ONLY, between - front + inner))?;
    tasks.push(Task::Skip(front))?;
    push_alone(y, tasks, Role::Scope, ONLY, outer, most)
}

/// The text of std with its colons, and a base.
///
/// # Errors
///
/// `Memory`.
pub(crate) fn push_in_std(
    y: &Symbol,
    tasks: &mut Tasks,
    std: Part<Context>,
    parts: &[Part<Context>],
    most: u32,
) -> Result<(), Refusal>
    requires std { MayBeAsked y.now std }
    requires is_text { IsText std }
    requires fits { length (bytes_of_part y.now std) ≤ most }
    requires paid { ArePayable y.now most parts.now }
    ensures grows { OnOk result (Grows y.now most tasks.old tasks.new (in_std (bytes_of_part y.now std) (printed_by y.now parts.now)) 5) }
    ensures refusals { IfErr result (λ refusal. refusal ≡ Refusal.Memory) }
{
    let length = length_of(y, tasks.allocator(), &std, most)?;
    let front = length.min(3);
    push_whole(y, tasks, Role::Base, ONLY, parts, most)?;
    tasks.push(Task::Skip(length - front))?;
    push_alone(y, tasks, Role::Scope, ONLY, front, most)
}

/// An abbreviation, by its text and what follows the text.
///
/// # Errors
///
/// `Memory`.
pub(crate) fn push_abbreviation(
    y: &Symbol,
    tasks: &mut Tasks,
    text: Part<Context>,
    parts: &[Part<Context>],
    most: u32,
) -> Result<(), Refusal>
    requires text { MayBeAsked y.now text }
    requires is_text { IsText text }
    requires fits { length (bytes_of_part y.now text) + cost_of_parts (printed_by y.now parts.now) ≤ most }
    requires paid { ArePayable y.now most parts.now }
    ensures grows { OnOk result (Grows y.now most tasks.old tasks.new (abbreviated (bytes (bytes_of_part y.now text) (printed_by y.now parts.now))) 6) }
    ensures refusals { IfErr result (λ refusal. refusal ≡ Refusal.Memory) }
{
    let length = length_of(y, tasks.allocator(), &text, most)?;
    let inner = length_of_all(y, tasks.allocator(), parts, most)?;
    let front = length.min(3);
    let between = (length - front).min(2);
    let back = length - front - between;
    tasks.push(Task::Skip(inner))?;
    tasks.push(Task::Skip(back))?;
    tasks.push(Task::Begin(Role::Base, ONLY, back + inner))?;
    tasks.push(Task::Skip(between))?;
    push_alone(y, tasks, Role::Scope, ONLY, front, most)
}

/// A name without arguments that begins with an item. The item is a scope if a text with colons is next.
///
/// # Errors
///
/// `Memory`.
pub(crate) fn push_named_item(
    y: &Symbol,
    tasks: &mut Tasks,
    scope: Item<Context>,
    rest: &[Part<Context>],
    parts: &[Part<Context>],
    most: u32,
) -> Result<(), Refusal>
    requires is { printed_by y.now parts.now ≡ item (unshared_of y.now scope) (printed_by y.now rest.now) }
    requires scope { IsPayable y.now most scope }
    requires rest { ArePayable y.now most rest.now }
    requires paid { ArePayable y.now most parts.now }
    ensures grows { OnOk result (Grows y.now most tasks.old tasks.new (named (printed_by y.now parts.now)) (4 * steps_of_parts (printed_by y.now parts.now) + 3)) }
    ensures refusals { IfErr result (λ refusal. refusal ≡ Refusal.Memory) }
{
    match first_of(y, rest, most) {
        Split::Nothing => push_whole(y, tasks, Role::Base, ONLY, parts, most),
        Split::Item(_, _) => push_whole(y, tasks, Role::Base, ONLY, parts, most),
        Split::Text(colons, others) => {
            if are_colons(y, &colons) {
                return push_scoped(y, tasks, scope, colons, others, most);
            }
            push_whole(y, tasks, Role::Base, ONLY, parts, most)
        }
    }
}

/// A name without arguments that begins with a text. It is a name in std if only an item is next.
///
/// # Errors
///
/// `Memory`.
pub(crate) fn push_named_text(
    y: &Symbol,
    tasks: &mut Tasks,
    std: Part<Context>,
    rest: &[Part<Context>],
    parts: &[Part<Context>],
    most: u32,
) -> Result<(), Refusal>
    requires is { printed_by y.now parts.now ≡ bytes (bytes_of_part y.now std) (printed_by y.now rest.now) }
    requires std { MayBeAsked y.now std }
    requires is_text { IsText std }
    requires fits { length (bytes_of_part y.now std) ≤ most }
    requires rest { ArePayable y.now most rest.now }
    requires paid { ArePayable y.now most parts.now }
    ensures grows { OnOk result (Grows y.now most tasks.old tasks.new (named (printed_by y.now parts.now)) (4 * steps_of_parts (printed_by y.now parts.now) + 3)) }
    ensures refusals { IfErr result (λ refusal. refusal ≡ Refusal.Memory) }
{
    match first_of(y, rest, most) {
        Split::Nothing => push_whole(y, tasks, Role::Base, ONLY, parts, most),
        Split::Text(_, _) => push_whole(y, tasks, Role::Base, ONLY, parts, most),
        Split::Item(_, others) => match first_of(y, others, most) {
            Split::Nothing => push_in_std(y, tasks, std, rest, most),
            Split::Text(_, _) => push_whole(y, tasks, Role::Base, ONLY, parts, most),
            Split::Item(_, _) => push_whole(y, tasks, Role::Base, ONLY, parts, most),
        },
    }
}

/// A name without arguments, by what it prints.
///
/// # Errors
///
/// `Memory`.
pub(crate) fn push_named(
    y: &Symbol,
    tasks: &mut Tasks,
    parts: &[Part<Context>],
    most: u32,
) -> Result<(), Refusal>
    requires { ArePayable y.now most parts.now }
    ensures grows { OnOk result (Grows y.now most tasks.old tasks.new (named (printed_by y.now parts.now)) (4 * steps_of_parts (printed_by y.now parts.now) + 3)) }
    ensures refusals { IfErr result (λ refusal. refusal ≡ Refusal.Memory) }
{
    match first_of(y, parts, most) {
        Split::Nothing => push_whole(y, tasks, Role::Base, ONLY, parts, most),
        Split::Item(scope, rest) => push_named_item(y, tasks, scope, rest, parts, most),
        Split::Text(std, rest) => push_named_text(y, tasks, std, rest, parts, most),
    }
}

/// A name that begins with an item and is followed by this many of its tags.
///
/// # Errors
///
/// `Memory`.
pub(crate) fn push_name_of(
    y: &Symbol,
    tasks: &mut Tasks,
    tags: u32,
    sort: NameSort,
    inner: Item<Context>,
    rest: &[Part<Context>],
    parts: &[Part<Context>],
    most: u32,
) -> Result<(), Refusal>
    requires is { printed_by y.now parts.now ≡ item (unshared_of y.now inner) (printed_by y.now rest.now) }
    requires below { AreNamesBelow (length y.now.table.nodes) sort }
    requires inner { IsPayable y.now most inner }
    requires tags { tags + cost_of_parts (printed_by y.now parts.now) < most }
    requires rest { ArePayable y.now most rest.now }
    requires paid { ArePayable y.now most parts.now }
    ensures grows { OnOk result (Grows y.now most tasks.old tasks.new (name_by y.now tags sort (printed_by y.now parts.now)) (4 * steps_of_parts (printed_by y.now parts.now) + 3)) }
    ensures refusals { IfErr result (λ refusal. refusal ≡ Refusal.Memory) }
{
    match sort {
        NameSort::Instance(template, arguments) => {
            push_arguments(y, tasks, arguments, rest, most)?;
            tasks.push(Task::Name(tags, template, inner))
        }
        NameSort::Tagged(node) => {
            let ordinal = Ordinal {
                item: tags,
                element: 0,
            };
            push_whole(y, tasks, Role::AbiTag, ordinal, rest, most)?;
            tasks.push(Task::Name(tags + 1, node, inner))
        }
        NameSort::Inner(node) => {
            push_plain(y, tasks, rest, most)?;
            tasks.push(Task::Name(tags, node, inner))
        }
        NameSort::Abbreviation => push_whole(y, tasks, Role::Base, ONLY, parts, most),
        NameSort::Other => push_named(y, tasks, parts, most),
    }
}

/// A name that is followed by this many of its tags.
///
/// # Errors
///
/// `Memory`.
pub(crate) fn push_name(
    y: &Symbol,
    tasks: &mut Tasks,
    tags: u32,
    node: u32,
    parts: &[Part<Context>],
    most: u32,
) -> Result<(), Refusal>
    requires node { node < length y.now.table.nodes }
    requires tags { tags + cost_of_parts (printed_by y.now parts.now) < most }
    requires paid { ArePayable y.now most parts.now }
    ensures grows { OnOk result (Grows y.now most tasks.old tasks.new (name tags (plain_tree (table_of y.now) node) (printed_by y.now parts.now)) (4 * steps_of_parts (printed_by y.now parts.now) + 3)) }
    ensures refusals { IfErr result (λ refusal. refusal ≡ Refusal.Memory) }
{
    let sort = name_sort(y, node);
    match first_of(y, parts, most) {
        Split::Item(inner, rest) => push_name_of(y, tasks, tags, sort, inner, rest, parts, most),
        Split::Nothing => push_whole(y, tasks, Role::Base, ONLY, parts, most),
        Split::Text(text, rest) => match sort {
            NameSort::Abbreviation => push_abbreviation(y, tasks, text, rest, most),
            _ => push_named(y, tasks, parts, most),
        },
    }
}
