// The lines of objects.
ghost use Rattle.std.specs.Prelude.{◌≡◌, ◌++◌, [], ◌∷◌, true, false, IfOk, OnOk};
ghost use Rattle.std.specs.Fmt.{decimal};
ghost use Rattle.json.specs.Json.{member, no_members, number, string};
ghost use Rattle.json.specs.Print.{print_from};
ghost use Rattle.json.specs.Token.{key};
ghost use Rattle.json_lines.specs.Meanings.{meaning_in};
ghost use Rattle.json_lines.specs.Objects.{LinesAreObjects, StringsAreEscaped, at_place, json_line, line_members, mangling_members, meaning_members, object_of, refusal_members, text_of, without_place};
ghost use Rattle.json_lines.specs.Tokens.{members_text};

use crate::meanings::Meaning;
use crate::parts::push_details;
use crate::strings::push_string;
use std::alloc::{AllocError, Global};
use sym_core::Refusal;
use text_details::Mangling;

/// The line of a name: its object and a newline. The object of a word of a text has the number of the word's line.
pub(crate) fn line_of(
    alloc: Global,
    line: Option<u64>,
    name: &[u8],
    meaning: &Meaning,
) -> Result<Vec<u8>, AllocError>
    ensures { IfOk result (λ bytes. bytes.items ≡ json_line (object_of line name.now (meaning_in meaning.now))) }
{
    let mut bytes = Vec::from_slice(alloc, b"{")?;
    push_line(line, &mut bytes)?;
    push_text(alloc, line.is_some(), "symbol", name, &mut bytes)?;
    push_meaning(alloc, meaning, &mut bytes)?;
    bytes.extend_from_slice(b"}\n")?;
    Ok(bytes)
}

/// Appends the member for the number of a word's line, if there is one.
fn push_line(line: Option<u64>, out: &mut Vec<u8>) -> Result<(), AllocError>
    ensures { OnOk result (out.new.items ≡ out.old.items ++ members_text false (line_members line)) }
{
    match line {
        None => Ok(()),
        Some(line) => push_number(false, "line", line, out),
    }
}

/// Appends the members that say what a name is.
fn push_meaning(alloc: Global, meaning: &Meaning, out: &mut Vec<u8>) -> Result<(), AllocError>
    ensures { OnOk result (out.new.items ≡ out.old.items ++ members_text true (meaning_members (meaning_in meaning.now))) }
{
    match meaning {
        Meaning::Text {
            text,
            mangling,
            details,
        } => {
            push_text(alloc, true, "text", text, out)?;
            push_mangling(*mangling, out)?;
            push_details(details, out)
        }
        Meaning::Refused(refusal) => push_refusal(*refusal, out),
        Meaning::NoSymbol => push_word("error", "not-a-symbol", out),
    }
}

/// Appends the members that say how a name is mangled.
fn push_mangling(mangling: Mangling, out: &mut Vec<u8>) -> Result<(), AllocError>
    ensures { OnOk result (out.new.items ≡ out.old.items ++ members_text true (mangling_members mangling no_members)) }
{
    push_word("language", mangling.language(), out)?;
    push_word("mangling", mangling.name(), out)
}

/// Appends the members that say why a symbol has no text.
fn push_refusal(refusal: Refusal, out: &mut Vec<u8>) -> Result<(), AllocError>
    ensures { OnOk result (out.new.items ≡ out.old.items ++ members_text true (refusal_members refusal)) }
{
    match refusal {
        Refusal::Malformed { at } => push_error("malformed", at, out),
        Refusal::BadReference { at } => push_error("bad-reference", at, out),
        Refusal::BadValue { at } => push_error("bad-value", at, out),
        Refusal::TooLong => push_word("error", "too-long", out),
        Refusal::Memory => Ok(()),
    }
}

/// Appends the members that say why a symbol has no text, and at which of its bytes.
fn push_error(reason: &str, at: u32, out: &mut Vec<u8>) -> Result<(), AllocError>
    ensures { OnOk result (out.new.items ≡ out.old.items ++ members_text true (at_place reason.now at)) }
{
    push_word("error", reason, out)?;
    push_number(true, "at", u64::from(at), out)
}

/// Appends a member for some bytes, after other members or as the first member.
fn push_text(
    alloc: Global,
    has_some: bool,
    name: &str,
    bytes: &[u8],
    out: &mut Vec<u8>,
) -> Result<(), AllocError>
    ensures { OnOk result (out.new.items ≡ out.old.items ++ members_text has_some (member name.now (text_of bytes.now) no_members)) }
{
    let text = String::from_utf8_lossy(alloc, bytes)?;
    push_name(has_some, name, out)?;
    push_string(text.as_bytes(), out)
}

/// Appends a member that is a word, after other members.
pub(crate) fn push_word(name: &str, word: &str, out: &mut Vec<u8>) -> Result<(), AllocError>
    ensures { OnOk result (out.new.items ≡ out.old.items ++ members_text true (member name.now (string word.now) no_members)) }
{
    push_name(true, name, out)?;
    push_string(word.as_bytes(), out)
}

/// Appends a member that is a number, after other members or as the first member.
pub(crate) fn push_number(
    has_some: bool,
    name: &str,
    value: u64,
    out: &mut Vec<u8>,
) -> Result<(), AllocError>
    ensures { OnOk result (out.new.items ≡ out.old.items ++ members_text has_some (member name.now (number (decimal value)) no_members)) }
{
    push_name(has_some, name, out)?;
    let digits = format!(in *out.allocator(); "{value}")?;
    out.extend_from_slice(digits.as_bytes())?;
    Ok(())
}

/// Appends the name of a member, after a comma if there are members before it.
pub(crate) fn push_name(has_some: bool, name: &str, out: &mut Vec<u8>) -> Result<(), AllocError>
    ensures { OnOk result (out.new.items ≡ out.old.items ++ print_from has_some (key name.now ∷ [])) }
{
    if has_some {
        out.push(b',')?;
    }
    push_string(name.as_bytes(), out)?;
    out.push(b':')?;
    Ok(())
}

/// A law of the definitions: a reader of JSON gets the object from its line, whatever the bytes of a name and of its text are.
pub fn lines_are_objects()
    ensures { LinesAreObjects }
{}

/// A law of the definitions: `--json` and `--escape` write a text within a string in the same way.
pub fn strings_are_escaped()
    ensures { StringsAreEscaped }
{}
