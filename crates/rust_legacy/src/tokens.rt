// Tokens of names, as they are written.
#![tactic(auto)]

ghost use Rattle.std.specs.Prelude.{◌≡◌, ◌≤◌, ◌<◌, ◌+◌, length, IfOk, IfErr};
ghost use Rattle.std.specs.List.{prefix_len};
ghost use Rattle.sym_core.specs.declared.refusal.Refusal.TheVariants.{TooLong};
ghost use Rattle.rust_legacy.specs.Tokens.{is_plain, token_of};
ghost use Rattle.rust_legacy.specs.Writing.{IsRefused, IsWritten, Keeps};

use crate::escapes::escape_at;
use sym_core::Refusal;

/// What is left to spend once a cost is paid.
#[inline(always)]
pub fn pay(left: u32, cost: usize) -> Result<u32, Refusal>
    ensures ok { IfOk result (λ now. now + cost ≡ left) }
    ensures err { IfErr result (λ e. (e ≡ TooLong) × (left < cost)) }
{
    if cost > left as usize {
        return Err(Refusal::TooLong);
    }
    Ok(left - cost as u32)
}

/// Pays for bytes and writes them, and answers what is left to spend.
#[inline(always)]
pub fn write(left: u32, bytes: &[u8], out: &mut Vec<u8>) -> Result<u32, Refusal>
    ensures ok { IfOk result (λ now. IsWritten left now bytes.now (length bytes.now) out.old.items out.new.items) }
    ensures err { IfErr result (λ e. IsRefused e left bytes.now (length bytes.now) out.old) }
    ensures keeps { Keeps out.old out.new }
{
    let left = pay(left, bytes.len())?;
    out.extend_from_slice(bytes)?;
    Ok(left)
}

/// How many of the first bytes are neither dots nor dollars.
pub fn plain_in(bytes: &[u8]) -> usize
    ensures count { result ≡ prefix_len is_plain bytes.now }
    ensures within { result ≤ length bytes.now }
{
    let mut at = 0;
    while at < bytes.len() && bytes[at] != b'.' && bytes[at] != b'$' {
        at += 1;
    }
    at
}

/// Writes the first token of bytes, and answers what is left to spend and how many bytes denote the token.
pub fn write_token(left: u32, bytes: &[u8], out: &mut Vec<u8>) -> Result<(u32, usize), Refusal>
    requires { 0 < length bytes.now }
    ensures ok { IfOk result (λ r. IsWritten left r.0 (token_of bytes.now).text (length (token_of bytes.now).text) out.old.items out.new.items) }
    ensures size { IfOk result (λ r. r.1 ≡ (token_of bytes.now).size) }
    ensures within { IfOk result (λ r. (r.1 ≤ length bytes.now) × (0 < r.1)) }
    ensures err { IfErr result (λ e. IsRefused e left (token_of bytes.now).text (length (token_of bytes.now).text) out.old) }
    ensures keeps { Keeps out.old out.new }
{
    if bytes.starts_with(b"..") {
        return Ok((write(left, b"::", out)?, 2));
    }
    if bytes.starts_with(b".") {
        return Ok((write(left, b".", out)?, 1));
    }
    if bytes.starts_with(b"$") {
        let Some(escape) = escape_at(bytes) else {
            return Ok((write(left, bytes, out)?, bytes.len()));
        };
        let mut room = [0; 4];
        let text = escape.code.encode_utf8(&mut room);
        return Ok((write(left, text.as_bytes(), out)?, escape.size));
    }
    let size = plain_in(bytes);
    Ok((write(left, &bytes[..size], out)?, size))
}
