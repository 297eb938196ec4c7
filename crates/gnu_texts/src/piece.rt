// The pieces of a text that GNU's demangler spells in its own way.
ghost use Rattle.std.specs.Prelude.{◌≡◌, ◌≤◌, ◌<◌, ◌+◌, ◌++◌, ◌∷◌, [], length, drop, OnOk};
ghost use Rattle.gnu_texts.specs.Names.{name_of, written_of, member_bytes};
ghost use Rattle.gnu_texts.specs.Pieces.{sign_size, operator_size, is_spaced, is_plain, piece_at, size_of, bytes_of, last_of, IsPiece};

use crate::clones::{append_clones, is_suffix};
use crate::names::{Name, member_front, name_at};
use short_names::is_letter;
use std::alloc::AllocError;

/// A piece of a text.
#[derive(Clone, Copy, Debug, PartialEq, Eq)]
pub(crate) enum Piece {
    /// An operator's name with a sign that isn't a bracket.
    Operator { size: usize },
    /// A name that is written differently, and the number of bytes between it and its constructor's or destructor's name, or 0.
    Named { name: Name, front: usize },
    /// A suffix.
    Suffix,
    /// A bracket before which a blank is written.
    Spaced,
    /// Any other byte.
    Byte,
}

/// The length of the operator's sign that a text begins with, if the sign has a byte that looks like a bracket.
#[tactic(auto, unfolding(crate::specs::Pieces::sign_size))]
fn sign_size(text: &[u8]) -> usize
    ensures size { result ≡ sign_size text.now }
    ensures within { result ≤ length text.now }
    ensures few { result ≤ 3 }
{
    if text.starts_with(b"<=>") {
        3
    } else if text.starts_with(b"->") || text.starts_with(b">>") || text.starts_with(b"()") {
        2
    } else if text.starts_with(b">") {
        1
    } else {
        0
    }
}

/// How many bytes the word `operator` and a sign that `sign_size` counts take at the front of a
/// text, or 0.
#[tactic(auto, unfolding(crate::specs::Pieces::operator_size))]
fn operator_size(last: u8, text: &[u8]) -> usize
    ensures size { result ≡ operator_size last text.now }
    ensures within { result ≤ length text.now }
{
    if is_letter(last) || !text.starts_with(b"operator") {
        return 0;
    }
    let sign = sign_size(&text[8..]);
    if sign == 0 { 0 } else { 8 + sign }
}

/// Whether a text begins with a bracket before which a blank is written.
#[tactic(auto, unfolding(crate::specs::Pieces::is_spaced))]
fn is_spaced(last: u8, text: &[u8]) -> bool
    ensures { result ≡ is_spaced last text.now }
{
    (last == b'>' && text.starts_with(b">")) || (last == b')' && text.starts_with(b"["))
}

/// Whether a byte begins no piece but itself.
#[inline(always)]
#[tactic(auto, unfolding(crate::specs::Pieces::is_plain))]
fn is_plain(byte: u8) -> bool
    ensures { result ≡ is_plain byte }
{
    !(byte == b'o' || byte == b's' || byte == b' ' || byte == b'>' || byte == b'[')
}

/// The piece with which a text begins, after a byte.
#[inline(always)]
#[tactic(auto, unfolding(crate::specs::Pieces::piece_at, crate::specs::Pieces::IsPiece))]
pub(crate) fn piece_at(last: u8, text: &[u8]) -> Piece
    requires { 0 < length text.now }
    ensures piece { result ≡ piece_at last text.now }
    ensures whole { IsPiece result text.now }
{
    if is_plain(text[0]) {
        return Piece::Byte;
    }
    let operator = operator_size(last, text);
    if operator > 0 {
        return Piece::Operator { size: operator };
    }
    if let Some(name) = name_at(last, text) {
        let behind = 5 + name.text().len();
        return Piece::Named {
            name,
            front: member_front(name, &text[behind..]),
        };
    }
    if is_suffix(text) {
        Piece::Suffix
    } else if is_spaced(last, text) {
        Piece::Spaced
    } else {
        Piece::Byte
    }
}

/// Appends a byte.
#[inline(always)]
fn append_byte(byte: u8, out: &mut Vec<u8>) -> Result<(), AllocError>
    ensures { OnOk result (out.new.items ≡ out.old.items ++ byte ∷ []) }
{
    out.push(byte)?;
    Ok(())
}

/// Appends a blank and a byte.
fn append_spaced(byte: u8, out: &mut Vec<u8>) -> Result<(), AllocError>
    ensures { OnOk result (out.new.items ≡ out.old.items ++ 32 ∷ byte ∷ []) }
{
    out.push(b' ')?;
    out.push(byte)?;
    Ok(())
}

/// Appends what is written for a name with which a text begins, and for the constructor or destructor after it.
fn append_name(name: Name, front: usize, text: &[u8], out: &mut Vec<u8>) -> Result<(), AllocError>
    requires { 5 + length (name_of name) + front ≤ length text.now }
    ensures { OnOk result (out.new.items ≡ out.old.items ++ written_of name ++ member_bytes name front (drop (5 + length (name_of name)) text.now)) }
{
    out.extend_from_slice(name.written())?;
    if front > 0 {
        let behind = 5 + name.text().len();
        out.extend_from_slice(&text[behind..behind + front])?;
        out.extend_from_slice(b"basic_")?;
        out.extend_from_slice(name.text())?;
    }
    Ok(())
}

impl Piece {
    /// How many bytes of the text the piece has.
    #[inline(always)]
    #[tactic(auto, unfolding(crate::specs::Pieces::size_of, crate::specs::Pieces::IsPiece))]
    pub(crate) fn size(self, text: &[u8]) -> usize
        requires { IsPiece self text.now }
        ensures size { result ≡ size_of self text.now }
        ensures within { result ≤ length text.now }
        ensures some { 0 < result }
    {
        match self {
            Piece::Operator { size } => size,
            Piece::Named { name, front: 0 } => 5 + name.text().len(),
            Piece::Named { name, front } => 5 + name.text().len() + front + name.text().len(),
            Piece::Suffix => text.len(),
            Piece::Spaced => 1,
            Piece::Byte => 1,
        }
    }

    /// The byte that counts as the piece's last: 0 after an operator's sign, so no blank is written.
    #[inline(always)]
    #[tactic(auto, unfolding(crate::specs::Pieces::last_of))]
    pub(crate) fn last(self, text: &[u8]) -> u8
        requires { 0 < length text.now }
        ensures { result ≡ last_of self text.now }
    {
        match self {
            Piece::Operator { .. } => 0,
            Piece::Named { name, front: 0 } => name.end(),
            Piece::Named { .. } => b'g',
            Piece::Suffix => b']',
            Piece::Spaced => text[0],
            Piece::Byte => text[0],
        }
    }

    /// Appends what is written for the piece.
    #[inline(always)]
    #[tactic(auto, unfolding(crate::specs::Pieces::bytes_of, crate::specs::Pieces::IsPiece))]
    pub(crate) fn append(self, text: &[u8], out: &mut Vec<u8>) -> Result<(), AllocError>
        requires { IsPiece self text.now }
        ensures { OnOk result (out.new.items ≡ out.old.items ++ bytes_of self text.now) }
    {
        match self {
            Piece::Operator { size } => out.extend_from_slice(&text[..size]),
            Piece::Named { name, front } => append_name(name, front, text, out),
            Piece::Suffix => append_clones(&text[2..text.len() - 1], out),
            Piece::Spaced => append_spaced(text[0], out),
            Piece::Byte => append_byte(text[0], out),
        }
    }
}
