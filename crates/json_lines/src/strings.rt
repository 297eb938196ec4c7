// Strings of JSON.
ghost use Rattle.std.specs.Prelude.{◌≡◌, ◌++◌, ◌<◌, OnOk};
ghost use Rattle.std.specs.Char.{digit_char};
ghost use Rattle.json.specs.Print.{escape, escape_byte, quoted};
ghost use Rattle.json_lines.specs.Tokens.{code_escape};

use demangle_names::push_escaped;
use std::alloc::AllocError;

/// Appends the string of a text. If memory runs out, only a beginning of the string may have been appended.
pub(crate) fn push_string(text: &[u8], out: &mut Vec<u8>) -> Result<(), AllocError>
    ensures { OnOk result (out.new.items ≡ out.old.items ++ quoted text.now) }
{
    out.push(b'"')?;
    push_bytes(text, out)?;
    out.push(b'"')?;
    Ok(())
}

/// Appends a text as it is written in a string.
fn push_bytes(text: &[u8], out: &mut Vec<u8>) -> Result<(), AllocError>
    ensures { OnOk result (out.new.items ≡ out.old.items ++ escape text.now) }
{
    'bytes: for byte in text {
        push_byte(*byte, out)?;
    }
    Ok(())
}

/// Appends a byte as it is written in a string.
fn push_byte(byte: u8, out: &mut Vec<u8>) -> Result<(), AllocError>
    ensures { OnOk result (out.new.items ≡ out.old.items ++ escape_byte byte) }
{
    if byte < 0x20 {
        return push_control(byte, out);
    }
    push_escaped(&[byte], out)
}

/// Appends a control character as it is written in a string.
fn push_control(byte: u8, out: &mut Vec<u8>) -> Result<(), AllocError>
    requires { byte < 32 }
    ensures { OnOk result (out.new.items ≡ out.old.items ++ escape_byte byte) }
{
    match byte {
        8 => out.extend_from_slice(b"\\b"),
        b'\t' => out.extend_from_slice(b"\\t"),
        b'\n' => out.extend_from_slice(b"\\n"),
        12 => out.extend_from_slice(b"\\f"),
        b'\r' => out.extend_from_slice(b"\\r"),
        _ => push_code(byte, out),
    }
}

/// Appends the number of a control character in hexadecimal digits, as an escape.
fn push_code(byte: u8, out: &mut Vec<u8>) -> Result<(), AllocError>
    requires { byte < 32 }
    ensures { OnOk result (out.new.items ≡ out.old.items ++ code_escape byte) }
{
    out.extend_from_slice(b"\\u00")?;
    out.push(hexadecimal(byte / 16))?;
    out.push(hexadecimal(byte % 16))?;
    Ok(())
}

/// A hexadecimal digit.
fn hexadecimal(digit: u8) -> u8
    requires { digit < 16 }
    ensures { result ≡ digit_char digit }
{
    if digit < 10 {
        return b'0' + digit;
    }
    b'a' - 10 + digit
}
