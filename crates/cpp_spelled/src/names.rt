// Which bytes spell the parts of a name that come once.
#![tactic(auto)]

ghost use Rattle.std.specs.Prelude.{◌≡◌, IfErr, IfOk};
ghost use Rattle.sym_core.specs.declared.refusal.Refusal.{Refusal};
ghost use Rattle.cpp_spelled.specs.Outline.{from_first};
ghost use Rattle.cpp_spelled.specs.Spelled as spelled;
ghost use Rattle.cpp_spelled.specs.Spelled.{once_in};
ghost use Rattle.cpp_spelled.specs.declared.sought.TheConstants.{SUFFIX, ENCODING, LOCAL, NESTED};

use crate::outline::{Reached, begin_or, from_first, span};
use crate::sought::{
    AFTER_BASE, BEGIN, ENCODING, IN_STD, LOCAL, NESTED, OBJECT, SUFFIX, TEMPORARY, WHOLE,
};
use std::alloc::Global;
use sym_core::Refusal;
use sym_parts::{Role, Span, Spelled};

/// What a special name belongs to.
#[tactic(auto, unfolding(crate::specs::Spelled::object_in))]
pub(crate) fn object_in(outline: &[Reached]) -> Span
    ensures { result ≡ spelled.object_in outline.now }
{
    match outline {
        [row, ..] => {
            if TEMPORARY.is(row.sort) {
                return span(row.first.from, row.first.to);
            }
            span(row.first.from, row.row.to)
        }
        _ => span(0, 0),
    }
}

/// Where the base begins.
#[tactic(auto, unfolding(crate::specs::Spelled::base_begin))]
fn base_begin(row: &Reached, outline: &[Reached]) -> u32
    ensures { result ≡ spelled.base_begin row.now outline.now }
{
    if IN_STD.is(row.sort) {
        return row.first.from;
    }
    if WHOLE.is(row.sort) {
        return begin_or(from_first(BEGIN, outline), row.row.from);
    }
    row.row.from
}

/// The base: the last component without its tags and arguments; for a special name, what it belongs to.
#[tactic(auto, unfolding(crate::specs::Spelled::base_in))]
pub(crate) fn base_in(outline: &[Reached], name: &[Reached]) -> Span
    ensures { result ≡ spelled.base_in outline.now name.now }
{
    match name {
        [row, rest @ ..] => span(
            base_begin(row, outline),
            begin_or(from_first(AFTER_BASE, rest), row.row.to),
        ),
        _ => object_in(from_first(OBJECT, outline)),
    }
}

/// Where the scope of a name that isn't local ends.
#[tactic(auto, unfolding(crate::specs::Spelled::scope_end))]
fn scope_end(name: &[Reached], base: Span) -> u32
    ensures { result ≡ spelled.scope_end name.now base }
{
    match name {
        [row, ..] => {
            if WHOLE.is(row.sort) {
                return base.to;
            }
            base.from
        }
        _ => base.from,
    }
}

/// Where the scope of a local name ends: before the base of its nested name, or otherwise at the end of the function.
#[tactic(auto, unfolding(crate::specs::Spelled::local_end))]
fn local_end(row: &Reached, begin: &[Reached], base: Span) -> u32
    ensures { result ≡ spelled.local_end row.now begin.now base }
{
    match begin {
        [_, ..] => base.from,
        _ => row.first.to,
    }
}

/// The scope: what precedes the base, from the name's first component on, or from the function that a local name is in.
#[tactic(auto, unfolding(crate::specs::Spelled::scope_in))]
fn scope_in(outline: &[Reached], name: &[Reached], base: Span) -> Span
    ensures { result ≡ spelled.scope_in (from_first LOCAL outline.now) outline.now name.now base }
{
    let begin = from_first(BEGIN, outline);
    match from_first(LOCAL, outline) {
        [row, ..] => span(row.first.from, local_end(row, begin, base)),
        _ => span(begin_or(begin, base.from), scope_end(name, base)),
    }
}

/// The qualifiers of a nested name: what precedes its first component.
#[tactic(auto, unfolding(crate::specs::Spelled::qualifiers_in))]
fn qualifiers_in(outline: &[Reached], base: Span) -> Span
    ensures { result ≡ spelled.qualifiers_in (from_first NESTED outline.now) outline.now base }
{
    match from_first(NESTED, outline) {
        [row, ..] => span(
            row.first.from,
            begin_or(from_first(BEGIN, outline), row.first.from),
        ),
        _ => base,
    }
}

/// The suffix.
#[tactic(auto, unfolding(crate::specs::Spelled::suffix_in))]
fn suffix_in(outline: &[Reached], base: Span) -> Span
    ensures { result ≡ spelled.suffix_in (from_first SUFFIX outline.now) base }
{
    match from_first(SUFFIX, outline) {
        [row, ..] => span(row.row.from, row.row.to),
        _ => base,
    }
}

/// The types of a function without its return type.
#[tactic(auto, unfolding(crate::specs::Spelled::without_return))]
pub(crate) fn without_return(returns: bool, types: &[Span]) -> &[Span]
    ensures { result.now ≡ spelled.without_return returns types.now }
{
    match types {
        [_, rest @ ..] => {
            if returns {
                return rest;
            }
            types
        }
        _ => types,
    }
}

/// The first of these spans; where there are none, the other span.
#[tactic(auto, unfolding(crate::specs::Spelled::first_or))]
fn first_or(types: &[Span], other: Span) -> Span
    ensures { result ≡ spelled.first_or types.now other }
{
    match types {
        [first, ..] => *first,
        _ => other,
    }
}

/// All the parameters, or the end of the function if there are none.
#[tactic(auto, unfolding(crate::specs::Spelled::parameters_in, crate::specs::Spelled::last_end))]
fn parameters_in(types: &[Span], outline: &[Reached], base: Span) -> Span
    ensures { result ≡ spelled.parameters_in types.now (from_first ENCODING outline.now) base }
{
    match types {
        [first, .., last] => span(first.from, last.to),
        [only] => span(only.from, only.to),
        _ => match from_first(ENCODING, outline) {
            [row, ..] => span(row.row.to, row.row.to),
            _ => base,
        },
    }
}

/// These bytes, or those of the base if there are none.
#[tactic(auto, unfolding(crate::specs::Spelled::or_base))]
fn or_base(span: Span, base: Span) -> Span
    ensures { result ≡ spelled.or_base span base }
{
    if span.from < span.to {
        return span;
    }
    base
}

/// The bytes that spell a part whose role comes once.
fn of_role(role: Role, span: Span) -> Spelled
    ensures { result ≡ record { role = role; span = span } }
{
    Spelled { role, span }
}

/// What spells the parts that come once, by a name's outline and by `name`, which is the outline from the
/// last component on.
///
/// # Errors
///
/// `Memory`.
#[tactic(auto, unfolding(crate::specs::Spelled::once_in))]
pub(crate) fn once_in(
    alloc: Global,
    outline: &[Reached],
    name: &[Reached],
    base: Span,
    types: &[Span],
    returns: bool,
) -> Result<Vec<Spelled>, Refusal>
    ensures spans { IfOk result (λ found. found.items ≡ once_in outline.now name.now base types.now returns) }
    ensures refusals { IfErr result (λ refusal. refusal ≡ Refusal.Memory) }
{
    let scope = or_base(scope_in(outline, name, base), base);
    let qualifiers = or_base(qualifiers_in(outline, base), base);
    let parameters = parameters_in(without_return(returns, types), outline, base);
    let object = object_in(from_first(OBJECT, outline));
    let spans = [
        of_role(Role::ReturnType, first_or(types, base)),
        of_role(Role::Scope, scope),
        of_role(Role::Qualifiers, qualifiers),
        of_role(Role::Parameters, parameters),
        of_role(Role::Object, object),
        of_role(Role::Suffix, suffix_in(outline, base)),
    ];
    Ok(Vec::from_array(alloc, spans)?)
}
