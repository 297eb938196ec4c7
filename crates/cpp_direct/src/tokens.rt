// The bytes of a symbol.

ghost use Rattle.std.specs.Prelude.{◌≡◌, ◌≢◌, ◌≤◌, ◌∷◌, [], ℕ, List, length, slice_get, true, Some};
ghost use Rattle.std.specs.List.{AllByRecursion};
ghost use Rattle.std.specs.Option.{OnSome, IfSome};
ghost use Rattle.sym_core.specs.Number.{is_digit_of};
ghost use Rattle.sym_core.specs.Value.{counted_value};
ghost use Rattle.sym_core.specs.declared.NumberKind.{NumberKind};
ghost use Rattle.cpp_grammar.specs.Parts.{source_text};
ghost use Rattle.cpp_direct.specs.Names.{IsReadable, tag_text};
ghost use Rattle.cpp_direct.specs.Bytes.{is_local, is_guard, short_numbers};
ghost use Rattle.cpp_direct.specs.Holes.{StandsAt, IsNameAt, IsSeqAt, IsTagAt};
ghost use Rattle.cpp_direct.specs.HolesOfLists.{IsSuffix};
ghost use Rattle.cpp_direct.specs.ItemBytes.{is_suffix_byte};
ghost use Rattle.cpp_direct.specs.Written.{Reads};

use crate::direct::Direct;
use crate::names::{is_digit, name_at};
use crate::open::Candidate;
use sym_core::{NumberKind, find_number, value36};

/// The byte at a place, or 0 after the end.
#[inline(always)]
pub fn byte_at(s: &[u8], at: usize) -> u8
    ensures { result ≢ 0 → StandsAt s.now at (result ∷ []) }
{
    if at < s.len() { s[at] } else { 0 }
}

/// Whether a symbol has a Z or GVZ after its _Z: it may name a local entity, or the guard variable of one.
#[inline(always)]
#[tactic(auto, unfolding(crate::specs::Bytes::is_local))]
pub fn is_local(s: &[u8]) -> bool
    ensures { result ≡ is_local s.now }
{
    match s {
        [_, _, b'Z', ..] => true,
        [_, _, b'G', b'V', b'Z', ..] => true,
        _ => false,
    }
}

/// Whether a symbol has GV after its _Z: it may name a guard variable.
#[inline(always)]
#[tactic(auto, unfolding(crate::specs::Bytes::is_guard))]
pub fn is_guard(s: &[u8]) -> bool
    ensures { result ≡ is_guard s.now }
{
    match s {
        [_, _, b'G', b'V', ..] => true,
        _ => false,
    }
}

/// Whether no twenty digits are side by side in a symbol.
#[inline(never)]
pub fn are_numbers_short(s: &[u8]) -> bool
    ensures { result ≡ true → short_numbers 0 s.now ≡ true }
{
    let mut run: usize = 0;
    let mut at = 0;
    'bytes: while at < s.len() {
        if is_digit(s[at]) {
            if run >= 19 {
                return false;
            }
            run += 1;
        } else {
            run = 0;
        }
        at += 1;
    }
    true
}

/// Whether an encoding may end before a byte, which is 0 where the symbol ends.
#[inline(always)]
pub fn may_end(byte: u8) -> bool {
    byte == 0 || byte == b'.' || byte == b'E'
}

/// Whether a byte may be in a suffix.
#[tactic(auto, unfolding(crate::specs::ItemBytes::is_suffix_byte, cpp_grammar::specs::Grammar::among))]
fn is_suffix_byte(byte: u8) -> bool
    ensures { result ≡ is_suffix_byte byte }
{
    match byte {
        b'0'..=b'9' => true,
        b'A'..=b'Z' => true,
        b'a'..=b'z' => true,
        b'$' | b'.' | b'_' => true,
        _ => false,
    }
}

/// Whether each byte may be in a suffix.
fn are_suffix_bytes(bytes: &[u8]) -> bool
    ensures { result ≡ true → AllByRecursion (λ b. is_suffix_byte b ≡ true) bytes.now }
{
    bytes.iter().all(|byte| is_suffix_byte(*byte))
}

/// Whether the bytes are a dot and at least one byte of a suffix.
pub fn is_suffix(bytes: &[u8]) -> bool
    ensures { result ≡ true → IsSuffix bytes.now }
{
    if byte_at(bytes, 0) != b'.' || bytes.len() < 2 {
        return false;
    }
    are_suffix_bytes(&bytes[1..])
}

/// The number of a substitution, and the place after it.
#[derive(Clone, Copy)]
struct SeqPlace {
    index: usize,
    end: usize,
}

/// Whether a byte is a digit of the number of a substitution.
#[inline(always)]
fn is_seq_digit(byte: u8) -> bool
    ensures { result ≡ is_digit_of NumberKind.Seq36 byte }
{
    is_digit(byte) || (b'A' <= byte && byte <= b'Z')
}

/// The number of a substitution that has only this digit.
#[inline(always)]
fn value_by_digit(digit: u8) -> usize
    ensures { result ≡ counted_value NumberKind.Seq36 (digit ∷ []) }
{
    if b'0' <= digit && digit <= b'9' {
        return (digit - b'0') as usize + 1;
    }
    digit.saturating_sub(b'A' - 10) as usize + 1
}

/// The number of a substitution that is at a place.
// <seq-id> ::= <0-9A-Z>+
#[inline(always)]
fn seq_at(s: &[u8], at: usize) -> Option<SeqPlace>
    requires { IsReadable s.now }
    ensures { IfSome result (λ place. (digits : List ℕ) × IsSeqAt s.now at digits place.end × (place.index ≡ counted_value NumberKind.Seq36 digits)) }
{
    let digit = byte_at(s, at);
    let behind = at.checked_add(1)?;
    if digit == b'_' {
        return Some(SeqPlace {
            index: 0,
            end: behind,
        });
    }
    if byte_at(s, behind) != b'_' {
        return long_seq_at(s, at);
    }
    if !is_seq_digit(digit) {
        return None;
    }
    let end = behind.checked_add(1)?;
    Some(SeqPlace {
        index: value_by_digit(digit),
        end,
    })
}

/// Likewise if the number has more than one digit.
#[inline(never)]
fn long_seq_at(s: &[u8], at: usize) -> Option<SeqPlace>
    requires fits { IsReadable s.now }
    ensures { IfSome result (λ place. (digits : List ℕ) × IsSeqAt s.now at digits place.end × (place.index ≡ counted_value NumberKind.Seq36 digits)) }
{
    if at > s.len() {
        return None;
    }
    let place = find_number(s, at, NumberKind::Seq36).ok()?;
    let index = value36(&s[place.from..place.to])?;
    Some(SeqPlace {
        index: index as usize,
        end: place.end,
    })
}

impl Direct {
    /// Reads a name and writes its text.
    // <source-name> ::= <positive length number> <identifier>
    #[inline(always)]
    pub(crate) fn name(&mut self, s: &[u8]) -> Option<()>
        requires { IsReadable s.now }
        ensures { OnSome result ((name : List ℕ) × IsNameAt s.now self.old.at name self.new.at × (name ≢ []) × Reads self.old self.new (source_text name)) }
    {
        let place = name_at(s, self.at)?;
        self.at = place.to;
        self.push(cpp_layout::name_text(&s[place.from..place.to]))
    }

    /// Reads a tag after a name, and writes it.
    // <abi-tag> ::= B <source-name>
    #[inline(never)]
    pub(crate) fn tag(&mut self, s: &[u8]) -> Option<()>
        requires fits { IsReadable s.now }
        requires letter { StandsAt s.now self.old.at (66 ∷ []) }
        ensures { OnSome result ((tag : List ℕ) × IsTagAt s.now self.old.at tag self.new.at × Reads self.old self.new (tag_text tag)) }
    {
        self.at = self.at.checked_add(1)?;
        let place = name_at(s, self.at)?;
        self.push(b"[abi:")?;
        self.push(&s[place.from..place.to])?;
        self.push_byte(b']')?;
        self.at = place.to;
        Some(())
    }

    /// Reads the number of a substitution, and finds the candidate that it names, if the
    /// candidate's text is kept.
    // <substitution> ::= S <seq-id> _ | S_
    #[inline(always)]
    pub(crate) fn substitution(&mut self, s: &[u8]) -> Option<Candidate>
        requires { IsReadable s.now }
        ensures is { IfSome result (λ candidate. (digits : List ℕ) × IsSeqAt s.now self.old.at digits self.new.at
            × (slice_get self.old.candidates.list.items (counted_value NumberKind.Seq36 digits) ≡ Some candidate)) }
        ensures ordered { IfSome result (λ candidate. candidate.from ≤ candidate.to) }
        ensures same { OnSome result (Reads self.old self.new []) }
    {
        let place = seq_at(s, self.at)?;
        self.at = place.end;
        let candidate = self.candidates.as_slice().get(place.index)?;
        if candidate.to < candidate.from {
            return None;
        }
        Some(*candidate)
    }
}
