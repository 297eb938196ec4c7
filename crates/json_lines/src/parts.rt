// The members of an object for the details of a text.
ghost use Rattle.std.specs.Prelude.{◌≡◌, ◌++◌, codes, true, false, OnOk};
ghost use Rattle.std.specs.List.{flat_map};
ghost use Rattle.json.specs.Json.{array, member, no_members, string};
ghost use Rattle.json.specs.Print.{print};
ghost use Rattle.json.specs.Tree.{json_tokens};
ghost use Rattle.sym_parts.specs.Words.{role_name};
ghost use Rattle.text_details.specs.Details.{details_in};
ghost use Rattle.json_lines.specs.Objects.{detail_members, part_items, part_object, two_numbers};
ghost use Rattle.json_lines.specs.Tokens.{later_part, members_text, parts_text};

use crate::lines::{push_name, push_number, push_word};
use crate::strings::push_string;
use std::alloc::AllocError;
use sym_parts::{Part, Role};
use text_details::Details;

/// Appends the members for details, where there are any.
pub(crate) fn push_details(details: &Option<Details>, out: &mut Vec<u8>) -> Result<(), AllocError>
    ensures { OnOk result (out.new.items ≡ out.old.items ++ members_text true (detail_members (details_in details.now))) }
{
    match details {
        None => Ok(()),
        Some(details) => {
            push_word("kind", details.kind.name(), out)?;
            push_parts(&details.parts, out)
        }
    }
}

/// Appends the member for the parts of a text, after other members.
fn push_parts(parts: &[Part], out: &mut Vec<u8>) -> Result<(), AllocError>
    ensures { OnOk result (out.new.items ≡ out.old.items ++ members_text true (member (codes "parts") (array (part_items parts.now)) no_members)) }
{
    push_name(true, "parts", out)?;
    out.push(b'[')?;
    push_items(parts, out)?;
    out.push(b']')?;
    Ok(())
}

/// Appends the objects of parts, with a comma between each two.
fn push_items(parts: &[Part], out: &mut Vec<u8>) -> Result<(), AllocError>
    ensures { OnOk result (out.new.items ≡ out.old.items ++ parts_text parts.now) }
{
    match parts {
        [] => Ok(()),
        [first, others @ ..] => {
            push_part(*first, out)?;
            push_later(others, out)
        }
    }
}

/// Appends the objects of parts, with a comma before each.
fn push_later(parts: &[Part], out: &mut Vec<u8>) -> Result<(), AllocError>
    ensures { OnOk result (out.new.items ≡ out.old.items ++ flat_map later_part parts.now) }
{
    'parts: for part in parts {
        push_next(*part, out)?;
    }
    Ok(())
}

/// Appends a comma, and the object of a part.
fn push_next(part: Part, out: &mut Vec<u8>) -> Result<(), AllocError>
    ensures { OnOk result (out.new.items ≡ out.old.items ++ later_part part) }
{
    out.push(b',')?;
    push_part(part, out)
}

/// Appends the object of a part.
fn push_part(part: Part, out: &mut Vec<u8>) -> Result<(), AllocError>
    ensures { OnOk result (out.new.items ≡ out.old.items ++ print (json_tokens (part_object part))) }
{
    out.push(b'{')?;
    push_role(part.role, out)?;
    push_two("start", part.start, "length", part.length, out)?;
    push_two("from", part.from, "to", part.to, out)?;
    out.push(b'}')?;
    Ok(())
}

/// Appends two members that are numbers, after other members.
fn push_two(
    first: &str,
    one: u32,
    second: &str,
    other: u32,
    out: &mut Vec<u8>,
) -> Result<(), AllocError>
    ensures { OnOk result (out.new.items ≡ out.old.items ++ members_text true (two_numbers first.now one second.now other no_members)) }
{
    push_number(true, first, u64::from(one), out)?;
    push_number(true, second, u64::from(other), out)
}

/// Appends the member for a part's role, which is the first.
fn push_role(role: Role, out: &mut Vec<u8>) -> Result<(), AllocError>
    ensures { OnOk result (out.new.items ≡ out.old.items ++ members_text false (member (codes "role") (string (role_name role)) no_members)) }
{
    push_name(false, "role", out)?;
    push_string(role.name().as_bytes(), out)
}
