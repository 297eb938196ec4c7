// How long the text of a name is.
#![tactic(auto)]

ghost use Rattle.std.specs.Prelude.{◌≡◌, ◌≤◌, ◌<◌, length};
ghost use Rattle.sym_print.specs.Unshared.{text_of};
ghost use Rattle.rust_legacy.specs.Text.{name_parts, shown_name};
ghost use Rattle.rust_legacy.specs.Tokens.{texts_of, token_of};

use crate::escapes::escape_at;
use crate::tokens::plain_in;

/// The length of the text of the first token, and how many bytes denote the token.
fn token_length(bytes: &[u8]) -> (usize, usize)
    requires { 0 < length bytes.now }
    ensures length { result.0 ≡ length (token_of bytes.now).text }
    ensures size { result.1 ≡ (token_of bytes.now).size }
    ensures within { (result.1 ≤ length bytes.now) × (0 < result.1) }
{
    if bytes.starts_with(b"..") {
        return (2, 2);
    }
    if bytes.starts_with(b".") {
        return (1, 1);
    }
    if bytes.starts_with(b"$") {
        let Some(escape) = escape_at(bytes) else {
            return (bytes.len(), bytes.len());
        };
        let mut room = [0; 4];
        return (escape.code.encode_utf8(&mut room).len(), escape.size);
    }
    let size = plain_in(bytes);
    (size, size)
}

/// How many bytes the texts of all tokens in `bytes` have.
fn tokens_length(bytes: &[u8]) -> usize
    ensures { result ≡ length (text_of (name_parts (texts_of bytes.now))) }
{
    let mut length = 0;
    let mut at = 0;
    'tokens: while at < bytes.len() {
        let (text, size) = token_length(&bytes[at..]);
        length += text;
        at += size;
    }
    length
}

/// How many bytes the text of a name has. It takes a turn for each token, and writes nothing.
pub fn text_length(name: &[u8]) -> usize
    ensures { result ≡ length (text_of (shown_name name.now)) }
{
    if name.starts_with(b"_$") {
        return tokens_length(&name[1..]);
    }
    tokens_length(name)
}
