// The values of parts: each accessor has a value for each part.

ghost use Rattle.std.specs.Prelude.{◌≡◌, ℕ, ◌<◌, List, length, get_or, cond, nat_eq};
ghost use Rattle.cpp_term.specs.Term.{Term, absent, nil};
ghost use Rattle.cpp_term.specs.Values.{tree_of, piece_of, is_listed, qualifiers_of, ref_of, letter_of, is_there, mark_of, text_of, signed_of, adjustment_of, part};
ghost use Rattle.cpp_term.specs.Between.{no_items};
ghost use Rattle.cpp_tree.specs.Nodes as nodes;
ghost use Rattle.cpp_tree.specs.Nodes.{over, tree_at, bytes_at, IsWithin, IsPieceBelow, IsAdjustmentWithin, IsTable};
ghost use Rattle.cpp_link.specs.declared.part.Part.TheVariants as variants;
ghost use Rattle.cpp_link.specs.Parts.{trees_in, value_of, value_in, values_of, values_in, IsThere, AreThere};

use crate::linked::Linked;
use crate::part::Part;
use cpp_tree::node::{Adjustment, Mark, Piece, Qualifiers, Signed};
use cpp_tree::nodes::{ABSENT, NIL};
use sym_core::Span;

/// No bytes.
const NO_BYTES: Span = Span { from: 0, to: 0 };

/// The number without digits.
const NO_NUMBER: Signed = Signed {
    negative: false,
    digits: NO_BYTES,
};

/// A part of a rule by its number.
#[inline(always)]
pub fn part(parts: &[Part], k: usize) -> Part
    ensures at { result ≡ get_or parts.now k variants.Nothing }
    ensures value { (s : List ℕ) (ts : List Term) → value_of s ts result ≡ part (values_of s ts parts.now) k }
    ensures there { (s : List ℕ) (n : ℕ) → AreThere s n parts.now → IsThere s n result }
{
    match parts.get(k) {
        Some(part) => *part,
        None => Part::Nothing,
    }
}

/// The node of a part.
#[tactic(auto, unfolding(crate::specs::Parts::value_of, cpp_term::specs::Values::tree_of))]
#[inline(always)]
pub fn node_of(part: Part) -> u32
    ensures tree { (s : List ℕ) (ts : List Term) → tree_at ts 0 ≡ absent → tree_at ts result ≡ tree_of (value_of s ts part) }
    ensures there { (s : List ℕ) (n : ℕ) → 0 < n → IsThere s n part → result < n }
{
    match part {
        Part::Tree { node, .. } => node,
        Part::Named { node, .. } => node,
        Part::Signature { list, .. } => list,
        Part::Pair { left, .. } => left,
        _ => ABSENT,
    }
}

/// The piece of a name in a part.
#[tactic(auto, unfolding(crate::specs::Parts::value_of, cpp_term::specs::Values::piece_of, cpp_tree::specs::Nodes::piece_of))]
#[inline(always)]
pub fn piece_of(part: Part) -> Piece
    ensures piece { (s : List ℕ) (ts : List Term) → nodes.piece_of s ts result ≡ piece_of (value_of s ts part) }
    ensures there { (s : List ℕ) (n : ℕ) → IsThere s n part → IsPieceBelow s n result }
{
    match part {
        Part::Piece(piece) => piece,
        Part::Letter(digit) => Piece::Destructor(digit),
        _ => Piece::Absent,
    }
}

/// The node of a list. A missing list is empty.
#[tactic(auto, unfolding(crate::specs::Parts::value_of, cpp_term::specs::Values::tree_of, cpp_term::specs::Between::no_items))]
#[inline(always)]
pub fn list_of(part: Part) -> u32
    ensures tree { (s : List ℕ) (ts : List Term) → tree_at ts 0 ≡ absent → tree_at ts 1 ≡ nil → tree_at ts result ≡ no_items (value_of s ts part) }
    ensures there { (s : List ℕ) (n : ℕ) → 1 < n → IsThere s n part → result < n }
{
    match part {
        Part::Nothing => NIL,
        Part::Tree { node, .. } => node,
        Part::Named { node, .. } => node,
        Part::Signature { list, .. } => list,
        Part::Pair { left, .. } => left,
        _ => ABSENT,
    }
}

/// Whether the tree is a candidate already, or never becomes one.
#[tactic(auto, unfolding(crate::specs::Parts::value_of, cpp_term::specs::Values::is_listed))]
#[inline(always)]
pub fn is_listed(part: Part) -> bool
    ensures { (s : List ℕ) (ts : List Term) → result ≡ is_listed (value_of s ts part) }
{
    match part {
        Part::Tree { listed, .. } => listed,
        _ => false,
    }
}

/// Whether the part is present.
#[tactic(auto, unfolding(crate::specs::Parts::value_of, cpp_term::specs::Values::is_there))]
#[inline(always)]
pub fn is_there(part: Part) -> bool
    ensures { (s : List ℕ) (ts : List Term) → result ≡ is_there (value_of s ts part) }
{
    match part {
        Part::Nothing => false,
        _ => true,
    }
}

/// The qualifiers of a name.
#[tactic(auto, unfolding(crate::specs::Parts::value_of, cpp_term::specs::Values::qualifiers_of))]
#[inline(always)]
pub fn qualifiers_of(part: Part) -> Qualifiers
    ensures { (s : List ℕ) (ts : List Term) → nodes.qualifiers_of result ≡ qualifiers_of (value_of s ts part) }
{
    match part {
        Part::Named { qualifiers, .. } => qualifiers,
        _ => Qualifiers {
            restrict: false,
            volatile: false,
            const_: false,
        },
    }
}

/// The mark of a name or a signature.
#[tactic(auto, unfolding(crate::specs::Parts::value_of, cpp_term::specs::Values::ref_of))]
#[inline(always)]
pub fn ref_of(part: Part) -> Mark
    ensures { (s : List ℕ) (ts : List Term) → nodes.mark_of result ≡ ref_of (value_of s ts part) }
{
    match part {
        Part::Named { mark, .. } => mark,
        Part::Signature { mark, .. } => mark,
        _ => Mark::Any,
    }
}

/// The letter of a part.
#[tactic(auto, unfolding(crate::specs::Parts::value_of, cpp_term::specs::Values::letter_of))]
#[inline(always)]
pub fn letter_of(part: Part) -> u8
    ensures { (s : List ℕ) (ts : List Term) → result ≡ letter_of (value_of s ts part) }
{
    match part {
        Part::Letter(byte) => byte,
        Part::Pair { letter, .. } => letter,
        _ => 0,
    }
}

/// The letter of a part, or this one if the part has none.
pub fn letter_or(part: Part, other: u8) -> u8
    ensures { (s : List ℕ) (ts : List Term) → result ≡ cond (nat_eq (letter_of (value_of s ts part)) 0) other (letter_of (value_of s ts part)) }
{
    let letter = letter_of(part);
    if letter == 0 { other } else { letter }
}

/// The mark R, O or H, or none.
#[tactic(auto, unfolding(crate::specs::Parts::value_of, cpp_term::specs::Values::mark_of))]
#[inline(always)]
pub fn mark_of(part: Part) -> Mark
    ensures { (s : List ℕ) (ts : List Term) → nodes.mark_of result ≡ mark_of (value_of s ts part) }
{
    match part {
        Part::Letter(byte) => {
            if byte == b'R' {
                return Mark::Lvalue;
            }
            if byte == b'H' {
                return Mark::ExplicitObject;
            }
            Mark::Rvalue
        }
        _ => Mark::Any,
    }
}

/// The bytes of a text.
#[tactic(auto, unfolding(crate::specs::Parts::value_of, cpp_term::specs::Values::text_of))]
#[inline(always)]
pub fn text_of(part: Part) -> Span
    ensures is { (s : List ℕ) (ts : List Term) → bytes_at s result ≡ text_of (value_of s ts part) }
    ensures there { (s : List ℕ) (n : ℕ) → IsThere s n part → IsWithin result s }
{
    match part {
        Part::Text(text) => text,
        _ => NO_BYTES,
    }
}

/// The number of a part.
#[tactic(auto, unfolding(crate::specs::Parts::value_of, cpp_term::specs::Values::signed_of))]
#[inline(always)]
pub fn signed_of(part: Part) -> Signed
    ensures is { (s : List ℕ) (ts : List Term) → nodes.signed_of s result ≡ signed_of (value_of s ts part) }
    ensures there { (s : List ℕ) (n : ℕ) → IsThere s n part → IsWithin result.digits s }
{
    match part {
        Part::Signed(number) => number,
        _ => NO_NUMBER,
    }
}

/// The adjustment of a part.
#[tactic(auto, unfolding(crate::specs::Parts::value_of, cpp_term::specs::Values::adjustment_of, cpp_tree::specs::Nodes::adjustment_of))]
#[inline(always)]
pub fn adjustment_of(part: Part) -> Adjustment
    ensures is { (s : List ℕ) (ts : List Term) → nodes.adjustment_of s result ≡ adjustment_of (value_of s ts part) }
    ensures there { (s : List ℕ) (n : ℕ) → IsThere s n part → IsAdjustmentWithin s result }
{
    match part {
        Part::Adjusted(adjustment) => adjustment,
        _ => Adjustment::NonVirtual(NO_NUMBER),
    }
}

impl Linked {
    /// The node of the part with this number.
    #[inline(always)]
    pub fn tree(&self, symbol: &[u8], parts: &[Part], k: usize) -> u32
        requires table { IsTable (over symbol.now self.now.nodes) }
        ensures is { tree_at (trees_in symbol.now self.now.nodes) result ≡ tree_of (part (values_in symbol.now self.now.nodes parts.now) k) }
        ensures there { AreThere symbol.now (length self.now.nodes.nodes) parts.now → result < length self.now.nodes.nodes }
    {
        node_of(part(parts, k))
    }

    /// The list in the part with this number.
    #[inline(always)]
    pub fn list(&self, symbol: &[u8], parts: &[Part], k: usize) -> u32
        requires table { IsTable (over symbol.now self.now.nodes) }
        ensures is { tree_at (trees_in symbol.now self.now.nodes) result ≡ no_items (part (values_in symbol.now self.now.nodes parts.now) k) }
        ensures there { AreThere symbol.now (length self.now.nodes.nodes) parts.now → result < length self.now.nodes.nodes }
    {
        list_of(part(parts, k))
    }

    /// The part with this number.
    #[inline(always)]
    pub fn given(&self, symbol: &[u8], parts: &[Part], k: usize) -> Part
        ensures at { result ≡ get_or parts.now k variants.Nothing }
        ensures is { value_in symbol.now self.now.nodes result ≡ (part (values_in symbol.now self.now.nodes parts.now) k) }
        ensures there { AreThere symbol.now (length self.now.nodes.nodes) parts.now → IsThere symbol.now (length self.now.nodes.nodes) result }
    {
        part(parts, k)
    }

    /// The piece of a name in the part with this number.
    pub fn piece(&self, symbol: &[u8], parts: &[Part], k: usize) -> Piece
        ensures is { nodes.piece_of symbol.now (trees_in symbol.now self.now.nodes) result ≡ piece_of (part (values_in symbol.now self.now.nodes parts.now) k) }
        ensures there { AreThere symbol.now (length self.now.nodes.nodes) parts.now → IsPieceBelow symbol.now (length self.now.nodes.nodes) result }
    {
        piece_of(part(parts, k))
    }

    /// The text of the part with this number.
    #[inline(always)]
    pub fn text(&self, symbol: &[u8], parts: &[Part], k: usize) -> Span
        ensures is { bytes_at symbol.now result ≡ text_of (part (values_in symbol.now self.now.nodes parts.now) k) }
        ensures there { AreThere symbol.now (length self.now.nodes.nodes) parts.now → IsWithin result symbol.now }
    {
        text_of(part(parts, k))
    }

    /// The letter of the part with this number.
    #[inline(always)]
    pub fn letter(&self, symbol: &[u8], parts: &[Part], k: usize) -> u8
        ensures { result ≡ letter_of (part (values_in symbol.now self.now.nodes parts.now) k) }
    {
        letter_of(part(parts, k))
    }

    /// Whether the part with this number is present.
    #[inline(always)]
    pub fn there(&self, symbol: &[u8], parts: &[Part], k: usize) -> bool
        ensures { result ≡ is_there (part (values_in symbol.now self.now.nodes parts.now) k) }
    {
        is_there(part(parts, k))
    }

    /// Whether the part with this number is a candidate already.
    #[inline(always)]
    pub fn listed(&self, symbol: &[u8], parts: &[Part], k: usize) -> bool
        ensures { result ≡ is_listed (part (values_in symbol.now self.now.nodes parts.now) k) }
    {
        is_listed(part(parts, k))
    }

    /// The qualifiers of the part with this number.
    #[inline(always)]
    pub fn qualifiers(&self, symbol: &[u8], parts: &[Part], k: usize) -> Qualifiers
        ensures { nodes.qualifiers_of result ≡ qualifiers_of (part (values_in symbol.now self.now.nodes parts.now) k) }
    {
        qualifiers_of(part(parts, k))
    }

    /// The mark of the name or the signature in the part with this number.
    #[inline(always)]
    pub fn reference(&self, symbol: &[u8], parts: &[Part], k: usize) -> Mark
        ensures { nodes.mark_of result ≡ ref_of (part (values_in symbol.now self.now.nodes parts.now) k) }
    {
        ref_of(part(parts, k))
    }

    /// The mark in the part with this number.
    #[inline(always)]
    pub fn mark(&self, symbol: &[u8], parts: &[Part], k: usize) -> Mark
        ensures { nodes.mark_of result ≡ mark_of (part (values_in symbol.now self.now.nodes parts.now) k) }
    {
        mark_of(part(parts, k))
    }

    /// The number in the part with this number.
    #[inline(always)]
    pub fn signed(&self, symbol: &[u8], parts: &[Part], k: usize) -> Signed
        ensures is { nodes.signed_of symbol.now result ≡ signed_of (part (values_in symbol.now self.now.nodes parts.now) k) }
        ensures there { AreThere symbol.now (length self.now.nodes.nodes) parts.now → IsWithin result.digits symbol.now }
    {
        signed_of(part(parts, k))
    }

    /// The adjustment in the part with this number.
    #[inline(always)]
    pub fn adjusted(&self, symbol: &[u8], parts: &[Part], k: usize) -> Adjustment
        ensures is { nodes.adjustment_of symbol.now result ≡ adjustment_of (part (values_in symbol.now self.now.nodes parts.now) k) }
        ensures there { AreThere symbol.now (length self.now.nodes.nodes) parts.now → IsAdjustmentWithin symbol.now result }
    {
        adjustment_of(part(parts, k))
    }
}
