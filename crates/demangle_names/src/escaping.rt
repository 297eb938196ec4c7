// Texts within strings of JSON.
ghost use Rattle.std.specs.Prelude.{◌≡◌, ◌++◌, ℕ, List, OnOk, OnErr};
ghost use Rattle.demangle_names.specs.Escaped.{escaped, escaped_byte};
ghost use Rattle.demangle_names.specs.Strings.{KeepsStrings, ReadsBack, StaysWithin};

use std::alloc::AllocError;

/// Appends a text as a string of JSON has it: with a backslash before each quote and backslash. Appends nothing where
/// memory runs out.
pub fn push_escaped(text: &[u8], out: &mut Vec<u8>) -> Result<(), AllocError>
    ensures pushed { OnOk result (out.new.items ≡ out.old.items ++ escaped text.now) }
    ensures same { OnErr result (out.new.items ≡ out.old.items) }
{
    let len = out.len();
    'bytes: for byte in text {
        if push_byte(*byte, out).is_err() {
            out.truncate(len);
            return Err(AllocError);
        }
    }
    Ok(())
}

/// Appends a byte as a string of JSON has it. Where memory runs out, perhaps only a beginning of the escaped byte is appended.
fn push_byte(byte: u8, out: &mut Vec<u8>) -> Result<(), AllocError>
    ensures pushed { OnOk result (out.new.items ≡ out.old.items ++ escaped_byte byte) }
    ensures front { OnErr result ((front : List ℕ) × (out.new.items ≡ out.old.items ++ front)) }
{
    if byte == b'"' || byte == b'\\' {
        out.push(b'\\')?;
    }
    out.push(byte)?;
    Ok(())
}

/// An escaped text within a string means the text: a reader of JSON gets it back.
pub fn escaped_reads_back()
    ensures { ReadsBack }
{}

/// An escaped text ends no string, and doesn't escape the byte after the text.
pub fn escaped_stays_within()
    ensures { StaysWithin }
{}

/// Where an escaped text replaces a word of a string in a line of JSON, the bytes after it are in strings or outside of them as before.
pub fn replaced_keeps_strings()
    ensures { KeepsStrings }
{}
