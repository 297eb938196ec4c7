// The first among equal nodes.
#![tactic(auto)]

ghost use Rattle.std.specs.Prelude.{◌≡◌, ◌*◌, ◌<◌, ◌≤◌, [], ℕ, Some, None, cond, length, IfOk, IfErr, OnOk};
ghost use Rattle.std.specs.BTreeMap.{get, is_at};
ghost use Rattle.sym_core.specs.declared.Refusal.TheVariants.{Memory};
ghost use Rattle.sym_spell.specs.Firsts.{IsIndex, first_in, text_mark};

use std::alloc::Global;
use std::collections::BTreeMap;
use sym_core::Refusal;

/// A key with a mark, a number by which the key is looked for first.
pub trait Marked: Ord {
    ghost use Rattle.std.specs.Prelude.{◌≡◌, ◌^◌, ◌<◌, ℕ};
    ghost use Rattle.std.specs.declared.cmp.Ordering.TheVariants.{Equal};

    ghost mark_of: { Self → ℕ };

    /// The mark, which equal keys share.
    fn mark(&self) -> u64
        ensures { result ≡ mark_of self.now };

    ghost alike: { (a b : Self) → Self.cmp a b ≡ Equal → mark_of a ≡ mark_of b };
}

/// The mark of a text: its length, with its first, middle and last byte.
pub fn text_mark(text: &[u8]) -> u64
    ensures mark { result ≡ text_mark text.now }
    ensures small { result < 16777216 }
{
    let count = text.len();
    if count == 0 {
        return 0;
    }
    let first = text[0] as u64;
    let middle = text[count / 2] as u64;
    let last = text[count - 1] as u64;
    count as u64 % 65536 * 151 + first * 11 + middle * 37 + last * 83
}

/// How many places there are.
const PLACES: usize = 509;

/// A key, and the first node that has it.
#[derive(Drop)]
pub struct Seen<K> {
    pub key: K,
    pub node: u32,
}

/// The first nodes with each of some keys.
///
/// A key is at the place that its mark gives, or in a map if an earlier key has this place. The map orders
/// its keys and hashes none, so no choice of keys makes a look-up long.
#[derive(Drop)]
pub struct Firsts<K: Ord + Drop> {
    /// For each place, one more than the number of the key that is there, or 0 if no key is there.
    pub places: Vec<u16>,
    /// The keys at places, in the order of their numbers.
    pub seen: Vec<Seen<K>>,
    pub more: BTreeMap<K, u32>,
}

/// The first node with this key: the one that a map has for the key, or else this node, which the map has
/// from now on.
fn first_with<K: Ord + Drop>(
    nodes: &mut BTreeMap<K, u32>,
    key: K,
    node: u32,
) -> Result<u32, Refusal>
    ensures known { IfOk result (λ n. (m : ℕ) → get K.cmp nodes.old key ≡ Some m → (n ≡ m) × ((q : K) → get K.cmp nodes.new q ≡ get K.cmp nodes.old q)) }
    ensures fresh { IfOk result (λ n. get K.cmp nodes.old key ≡ None → (n ≡ node) × ((q : K) → get K.cmp nodes.new q ≡ cond (is_at (K.cmp key) q) (Some node) (get K.cmp nodes.old q))) }
    ensures memory { IfErr result (λ e. e ≡ Memory) }
{
    let first = nodes.entry(key)?.or_insert(node);
    Ok(*first)
}

impl<K: Marked + Drop> Firsts<K> {
    /// No keys, and room for this many.
    ///
    /// # Errors
    ///
    /// Only `Memory`.
    pub fn new(alloc: Global, count: usize) -> Result<Firsts<K>, Refusal>
        ensures none { IfOk result (λ made. (q : K) → first_in K.cmp K.mark_of made.places.items made.seen.items (get K.cmp made.more) q ≡ None) }
        ensures index { IfOk result (λ made. IsIndex K.mark_of made.places.items made.seen.items (get K.cmp made.more)) }
        ensures memory { IfErr result (λ e. e ≡ Memory) }
    {
        let places = vec![in alloc; 0u16; PLACES]?;
        let seen = Vec::with_capacity(alloc, if count < PLACES { count } else { PLACES })?;
        Ok(Firsts {
            places,
            seen,
            more: BTreeMap::new(alloc),
        })
    }

    /// The first node with this key: an earlier one, or else this node, which is known from now on.
    ///
    /// # Errors
    ///
    /// Only `Memory`.
    pub fn first_with(&mut self, key: K, node: u32) -> Result<u32, Refusal>
        requires index { IsIndex K.mark_of self.old.places.items self.old.seen.items (get K.cmp self.old.more) }
        ensures known { IfOk result (λ n. (m : ℕ) → first_in K.cmp K.mark_of self.old.places.items self.old.seen.items (get K.cmp self.old.more) key ≡ Some m → (n ≡ m) × ((q : K) → first_in K.cmp K.mark_of self.new.places.items self.new.seen.items (get K.cmp self.new.more) q ≡ first_in K.cmp K.mark_of self.old.places.items self.old.seen.items (get K.cmp self.old.more) q)) }
        ensures fresh { IfOk result (λ n. first_in K.cmp K.mark_of self.old.places.items self.old.seen.items (get K.cmp self.old.more) key ≡ None → (n ≡ node) × ((q : K) → first_in K.cmp K.mark_of self.new.places.items self.new.seen.items (get K.cmp self.new.more) q ≡ cond (is_at (K.cmp key) q) (Some node) (first_in K.cmp K.mark_of self.old.places.items self.old.seen.items (get K.cmp self.old.more) q))) }
        ensures index { OnOk result (IsIndex K.mark_of self.new.places.items self.new.seen.items (get K.cmp self.new.more)) }
        ensures memory { IfErr result (λ e. e ≡ Memory) }
    {
        let place = (key.mark() % PLACES as u64) as usize;
        let number = self.places[place] as usize;
        if number > 0 {
            let seen = &self.seen[number - 1];
            if seen.key == key {
                return Ok(seen.node);
            }
        } else if self.seen.len() < u16::MAX as usize {
            self.seen.push(Seen { key, node })?;
            self.places[place] = self.seen.len() as u16;
            return Ok(node);
        }
        let first = first_with(&mut self.more, key, node)?;
        Ok(first)
    }
}
