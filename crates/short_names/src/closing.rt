// What is written where a list after a name of the table is closed.
ghost use Rattle.std.specs.Prelude.{◌≡◌, ◌≤◌, ◌++◌, ℕ, List, length, take, drop, codes, true, IfOk, OnOk};
ghost use Rattle.short_names.specs.Closing.{EndsWithList, IsAnswered, IsList, IsString};
ghost use Rattle.short_names.specs.Short.{constructor, if_read_back, is_own, is_read_back, short_list};

use crate::elements::Elements;
use crate::names::{Named, before_constructor, class_of, ends_name, is_constructor, last_part};
use crate::patterns::text_at;
use crate::table::{ALIASES, Alias, Place, STD, STRING, STRING_LIST, STRING_TEMPLATE};
use std::alloc::AllocError;

/// Closes a list of a name of the table, given the places in a text where the list's bracket is and where its elements begin. Answers how
/// many of the bytes that follow the list are written with it.
pub(crate) fn close(
    text: &mut Vec<u8>,
    named: Named,
    bracket: usize,
    starts: &[usize],
    rest: &[u8],
) -> Result<usize, AllocError>
    requires { EndsWithList text.old.items named bracket starts.now }
    ensures { (before name : List ℕ) (elements : List (List ℕ)) → IsList text.old.items named bracket starts.now before name elements
        → IfOk result (λ size. IsAnswered text.new.items before rest.now (short_list named name elements rest.now) size) }
{
    let elements = Elements { text, starts };
    let holes = elements.holes(named);
    let left = elements.left(named, holes);
    let name = bracket - text_at(named.template.name).len();
    if let Some(alias) = read_back(elements.alias(named, holes, left), rest) {
        text.truncate(name);
        text.extend_from_slice(text_at(alias.name))?;
        let size = append_constructor(alias, rest, text)?;
        return Ok(size);
    }
    if elements.is_polymorphic(named, holes) {
        let end = elements.end(elements.without_defaults(named, holes, starts.len() - 1));
        text.truncate(end);
        insert_polymorphic(text, name)?;
        text.push(b'>')?;
        return Ok(0);
    }
    let end = elements.end(left);
    text.truncate(end);
    text.push(b'>')?;
    Ok(0)
}

/// A usual name, if it ends before the rest of the text and is read back as the same; else none.
fn read_back(alias: Option<Alias>, rest: &[u8]) -> Option<Alias>
    ensures { result ≡ if_read_back rest.now alias }
{
    let alias = alias?;
    if is_read_back(alias, rest) {
        Some(alias)
    } else {
        None
    }
}

/// Whether a usual name ends before the rest of the text, and is read back as the same.
fn is_read_back(alias: Alias, rest: &[u8]) -> bool
    ensures { result ≡ is_read_back rest.now alias }
{
    ends_name(rest) && is_own(alias, rest)
}

/// Whether a name of the table and the list that follows it become `std::string`. The list of `std::string` is the most frequent by far.
#[inline(always)]
pub(crate) fn is_string(whole: Place, row: usize, rest: &[u8]) -> bool
    ensures { result ≡ true → IsString whole row rest.now }
{
    if row != STRING_TEMPLATE || whole.from != STD.from || whole.to != STD.to {
        return false;
    }
    match rest.strip_prefix(&STRING_LIST) {
        Some(rest) => is_read_back(ALIASES[STRING], rest),
        None => false,
    }
}

/// Whether a usual name is read back as the same before what follows it: not where a constructor or destructor by the class's
/// name follows, unless the template has that name, too.
fn is_own(alias: Alias, rest: &[u8]) -> bool
    ensures { result ≡ is_own rest.now alias }
{
    if !rest.starts_with(b"::") {
        return true;
    }
    if is_constructor(rest, last_part(text_at(alias.template))) {
        return true;
    }
    !is_constructor(rest, class_of(alias))
}

/// If the template's name for a constructor or destructor follows a usual name, appends the class's name for it. Answers
/// how many bytes of the text this replaces.
pub(crate) fn append_constructor(
    alias: Alias,
    rest: &[u8],
    text: &mut Vec<u8>,
) -> Result<usize, AllocError>
    ensures { IfOk result (λ size. IsAnswered text.new.items text.old.items rest.now (constructor alias rest.now) size) }
{
    let class = last_part(text_at(alias.template));
    let front = before_constructor(rest, class);
    if front.is_empty() {
        return Ok(0);
    }
    text.extend_from_slice(front)?;
    text.extend_from_slice(class_of(alias))?;
    Ok(front.len() + class.len())
}

/// Puts `pmr::` before the name at a place of a text.
fn insert_polymorphic(text: &mut Vec<u8>, name: usize) -> Result<(), AllocError>
    requires { name ≤ length text.old.items }
    ensures { OnOk result (text.new.items ≡ take name text.old.items ++ codes "pmr::" ++ drop name text.old.items) }
{
    text.extend_from_slice(b"pmr::")?;
    text[name..].rotate_right(5);
    Ok(())
}
