// Lists that grow up to a bound.

ghost use Rattle.std.specs.Prelude.{ℕ, get_or, ◌≡◌, ◌==◌, if◌then◌else◌, ◌+◌, ◌-◌, ◌≤◌, ◌∷◌, ◌++◌, ◌<◌, ◌^◌, [], length, take, drop, slice_set, vec_capacity};
ghost use Rattle.std.specs.Int.{trailing_zeros, w64};
ghost use Rattle.std.specs.Option.{OnSome, IfSome, option_to_list};
ghost use Rattle.sym_direct.specs.Marked.{visible, HasNoZero};

use std::alloc::Global;
use std::simd::prelude::*;

/// The least room for entries when a list first gets memory, and for bytes where bytes are added together: most symbols need no
/// more.
const ENTRIES_AT_ONCE: usize = 16;

const BYTES_AT_ONCE: usize = 128;

/// How many bytes are copied at once, if at most as many are added: most names are no longer.
const FEW_BYTES: usize = 16;

/// `FEW_BYTES`, and two bytes more.
const BEHIND_PAIR: usize = 18;

/// How many bytes of the list itself are copied at once, if at most as many are repeated.
const SOME_BYTES: usize = 32;

/// The mark before what is to be left out of a text.
pub const OPENS: u8 = 1;

/// The mark after what is to be left out of a text.
pub const CLOSES: u8 = 2;

/// A list that has at most this many entries at any time.
#[derive(Drop)]
pub struct Bounded<T> {
    list: Vec<T>,
    room: usize,
    // Entries up to this many need no more memory, so adding one is a comparison and a store. A call of `Vec::push` for
    // each byte took 6 % of a symbol's instructions.
    ready: usize,
    pub ghost fits: { length list.items ≤ room },
    pub ghost is_small: { room < 2 ^ 32 },
    ghost has_memory: { (length list.items ≤ ready) × (ready ≤ room) × (ready ≤ vec_capacity list) },
}

impl<T: Copy> Bounded<T> {
    /// A list without entries and without room.
    pub fn new(alloc: Global) -> Bounded<T> {
        Bounded {
            list: Vec::new(alloc),
            room: 0,
            ready: 0,
        }
    }

    /// Clears the list and reserves space for n entries.
    pub fn begin(&mut self, room: u32)
        ensures items { self.new.list.items ≡ [] }
        ensures room { self.new.room ≡ room }
    {
        self.list.clear();
        self.room = room as usize;
        self.ready = self.room.min(self.list.capacity());
    }

    /// Reserves memory for more entries, within the bound: for several at once, as far as the bound allows.
    #[inline(never)]
    fn make_ready(&mut self, more: usize, at_once: usize) -> Option<()>
        ensures ready { OnSome result (length self.new.list.items + more ≤ self.new.ready) }
        ensures items { self.new.list.items ≡ self.old.list.items }
        ensures room { self.new.room ≡ self.old.room }
    {
        let left = self.room - self.list.len();
        if more > left {
            return None;
        }
        self.list.reserve(more.max(at_once.min(left))).ok()?;
        self.ready = self.room.min(self.list.capacity());
        Some(())
    }

    /// How many entries the list has.
    #[inline(always)]
    pub fn len(&self) -> usize
        ensures { result ≡ length self.now.list.items }
    {
        self.list.len()
    }

    /// The place after the list's entries.
    #[inline(always)]
    pub fn end(&self) -> u32
        ensures { result ≡ length self.now.list.items }
    {
        self.list.len() as u32
    }

    /// The entries.
    #[inline(always)]
    pub fn as_slice(&self) -> &[T]
        ensures { result.now ≡ self.now.list.items }
    {
        &self.list
    }

    /// Adds an entry, if there is room for it.
    #[inline(always)]
    pub fn push(&mut self, entry: T) -> Option<()>
        ensures items { OnSome result (self.new.list.items ≡ self.old.list.items ++ entry ∷ []) }
        ensures room { self.new.room ≡ self.old.room }
    {
        if self.list.len() >= self.ready {
            self.make_ready(1, ENTRIES_AT_ONCE)?;
        }
        self.list.push_reserved(entry);
        Some(())
    }

    /// Removes the last entry.
    #[inline(always)]
    pub fn pop(&mut self) -> Option<T>
        ensures items { self.old.list.items ≡ self.new.list.items ++ option_to_list result }
        ensures rest { self.new.list.items ≡ take (length self.old.list.items - 1) self.old.list.items }
        ensures room { self.new.room ≡ self.old.room }
    {
        self.list.pop()
    }

    /// Puts an entry in the place of another one.
    #[inline(always)]
    pub fn put(&mut self, at: usize, entry: T)
        requires within { at < length self.old.list.items }
        ensures items { self.new.list.items ≡ slice_set self.old.list.items at entry }
        ensures room { self.new.room ≡ self.old.room }
    {
        self.list[at] = entry;
    }
}

impl Bounded<u8> {
    /// Adds bytes, if there is room for them.
    #[inline(always)]
    pub fn push_all(&mut self, bytes: &[u8]) -> Option<()>
        ensures items { OnSome result (self.new.list.items ≡ self.old.list.items ++ bytes.now) }
        ensures room { self.new.room ≡ self.old.room }
    {
        if bytes.len() > self.ready - self.list.len() {
            self.make_ready(bytes.len(), BYTES_AT_ONCE)?;
        }
        self.list.extend_from_slice(bytes).ok()
    }

    /// Adds the bytes from one place to another, if there is room for them. If they are few, bytes
    /// after them are copied, too, and removed again: no call is made for most names.
    #[inline(always)]
    pub fn push_part(&mut self, bytes: &[u8], from: usize, to: usize) -> Option<()>
        requires from { from ≤ to }
        requires to { to ≤ length bytes.now }
        ensures items { OnSome result (self.new.list.items ≡ self.old.list.items ++ take (to - from) (drop from bytes.now)) }
        ensures room { self.new.room ≡ self.old.room }
    {
        let end = self.list.len();
        if to - from > FEW_BYTES || bytes.len() - from < FEW_BYTES || self.ready - end < FEW_BYTES {
            return self.push_all(&bytes[from..to]);
        }
        self.list
            .extend_from_slice(&bytes[from..from + FEW_BYTES])
            .ok()?;
        self.list.truncate(end + (to - from));
        Some(())
    }

    /// Adds two bytes, if there is room for them.
    #[inline(always)]
    pub fn push_pair(&mut self, first: u8, second: u8) -> Option<()>
        ensures items { OnSome result (self.new.list.items ≡ self.old.list.items ++ first ∷ second ∷ []) }
        ensures room { self.new.room ≡ self.old.room }
    {
        if self.ready - self.list.len() < 2 {
            self.make_ready(2, BYTES_AT_ONCE)?;
        }
        self.list.push_reserved(first);
        self.list.push_reserved(second);
        Some(())
    }

    /// Adds two bytes, and after them the bytes from one place to another, if there is room for
    /// all. If these bytes are few, bytes after them are copied, too, and removed again: one write
    /// is enough for all.
    #[inline(always)]
    pub fn push_behind_pair(
        &mut self,
        first: u8,
        second: u8,
        bytes: &[u8],
        from: usize,
        to: usize,
    ) -> Option<()>
        requires from { from ≤ to }
        requires to { to ≤ length bytes.now }
        ensures items { OnSome result (self.new.list.items ≡ self.old.list.items ++ first ∷ second ∷ take (to - from) (drop from bytes.now)) }
        ensures room { self.new.room ≡ self.old.room }
    {
        let end = self.list.len();
        if to - from > FEW_BYTES
            || bytes.len() - from < FEW_BYTES
            || self.ready - end < BEHIND_PAIR
        {
            self.push_pair(first, second)?;
            return self.push_part(bytes, from, to);
        }
        let mut copied = [0; BEHIND_PAIR];
        copied[0] = first;
        copied[1] = second;
        copied[2..].copy_from_slice(&bytes[from..from + FEW_BYTES]);
        self.list.extend_from_slice(&copied).ok()?;
        self.list.truncate(end + 2 + (to - from));
        Some(())
    }

    /// Adds a copy of bytes that are in the list, if there is room for them.
    #[inline(always)]
    pub fn repeat(&mut self, from: usize, to: usize) -> Option<()>
        requires from { from ≤ to }
        requires to { to ≤ length self.old.list.items }
        ensures items { OnSome result (self.new.list.items ≡ self.old.list.items ++ take (to - from) (drop from self.old.list.items)) }
        ensures room { self.new.room ≡ self.old.room }
    {
        let end = self.list.len();
        if to - from <= SOME_BYTES && end - from >= SOME_BYTES && self.ready - end >= SOME_BYTES {
            return copy_some_to_end(&mut self.list, from, to);
        }
        self.repeat_any(from, to)
    }

    /// Likewise for any number of bytes of the list.
    // a separate function: otherwise even a few bytes would cost saving registers
    #[inline(never)]
    fn repeat_any(&mut self, from: usize, to: usize) -> Option<()>
        requires from { from ≤ to }
        requires to { to ≤ length self.old.list.items }
        ensures items { OnSome result (self.new.list.items ≡ self.old.list.items ++ take (to - from) (drop from self.old.list.items)) }
        ensures room { self.new.room ≡ self.old.room }
    {
        let end = self.list.len();
        if to - from > self.ready - end {
            self.make_ready(to - from, BYTES_AT_ONCE)?;
        }
        copy_to_end(&mut self.list, from, to)
    }

    /// Removes the marks and what is between them. Bytes with a 0 among them are given up.
    pub fn leave_out_marked(&mut self) -> Option<()>
        ensures items { OnSome result (self.new.list.items ≡ visible 0 self.old.list.items) }
        ensures plain { OnSome result (HasNoZero self.new.list.items) }
        ensures most { length self.new.list.items ≤ length self.old.list.items }
        ensures room { self.new.room ≡ self.old.room }
    {
        let kept = close_up(&mut self.list)?;
        self.list.truncate(kept);
        Some(())
    }

    /// Leaves only the first bytes of a list.
    #[inline(always)]
    pub fn keep_first(&mut self, count: usize)
        requires within { count ≤ length self.old.list.items }
        ensures items { self.new.list.items ≡ take count self.old.list.items }
        ensures room { self.new.room ≡ self.old.room }
    {
        self.list.truncate(count);
    }

    /// Removes the first bytes of a list.
    // `rotate_left` would clear kilobytes of the stack for the bytes that go to the end.
    pub fn drop_first(&mut self, count: usize)
        requires within { count ≤ length self.old.list.items }
        ensures items { self.new.list.items ≡ drop count self.old.list.items }
        ensures room { self.new.room ≡ self.old.room }
    {
        let left = self.list.len() - count;
        self.list.copy_within(count.., 0);
        self.list.truncate(left);
    }
}

/// Adds bytes of a list to its end.
fn copy_to_end(bytes: &mut Vec<u8>, from: usize, to: usize) -> Option<()>
    requires from { from ≤ to }
    requires to { to ≤ length bytes.old.items }
    ensures items { OnSome result (bytes.new.items ≡ bytes.old.items ++ take (to - from) (drop from bytes.old.items)) }
    ensures most { length bytes.new.items ≤ length bytes.old.items + (to - from) }
    ensures capacity { vec_capacity bytes.old ≤ vec_capacity bytes.new }
{
    let end = bytes.len();
    let longer = end.checked_add(to - from)?;
    bytes.resize(longer, 0).ok()?;
    let (written, copied) = bytes.split_at_mut(end);
    copied.copy_from_slice(&written[from..to]);
    Some(())
}

/// Adds a few bytes of a list to its end: bytes after them are copied with them, and removed again.
#[inline(always)]
fn copy_some_to_end(bytes: &mut Vec<u8>, from: usize, to: usize) -> Option<()>
    requires from { from ≤ to }
    requires few { to - from ≤ 32 }
    requires within { from + 32 ≤ length bytes.old.items }
    ensures items { OnSome result (bytes.new.items ≡ bytes.old.items ++ take (to - from) (drop from bytes.old.items)) }
    ensures most { length bytes.new.items ≤ length bytes.old.items + (to - from) }
    ensures capacity { vec_capacity bytes.old ≤ vec_capacity bytes.new }
{
    let end = bytes.len();
    let mut copied = [0; SOME_BYTES];
    copied.copy_from_slice(&bytes[from..from + SOME_BYTES]);
    bytes.extend_from_slice(&copied).ok()?;
    bytes.truncate(end + (to - from));
    Some(())
}

/// How many bytes are looked at together.
const LANES: usize = 16;

/// The lowest lane that is set, or the number of lanes where none is.
#[inline(always)]
fn first_lane(mask: u64) -> usize
    ensures { result ≡ (if mask == 0 then 16 else trailing_zeros w64 mask) }
{
    if mask == 0 {
        LANES
    } else {
        mask.trailing_zeros() as usize
    }
}

/// How many of the bytes that are looked at together come before the first mark or 0.
#[inline(always)]
fn lanes_before_mark(bytes: &[u8], at: usize) -> usize
    requires { at + 16 ≤ length bytes.now }
    ensures few { result ≤ 16 }
    ensures each { (k : ℕ) → at ≤ k → k < at + result → 2 < get_or bytes.now k 0 }
{
    let lanes = u8x16::from_slice(&bytes[at..]);
    first_lane(lanes.simd_le(u8x16::splat(CLOSES)).to_bitmask())
}

/// The place of the first mark or 0 from a place on, or the end of the bytes. Used where the bytes
/// are few.
#[inline(always)]
fn few_end(bytes: &[u8], from: usize) -> usize
    requires within { from ≤ length bytes.now }
    ensures after { from ≤ result }
    ensures within { result ≤ length bytes.now }
    ensures each { (k : ℕ) → from ≤ k → k < result → 2 < get_or bytes.now k 0 }
{
    let mut at = from;
    'bytes: while at < bytes.len() && bytes[at] > CLOSES {
        at += 1;
    }
    at
}

/// The place of the first mark or 0 from a place on, or the end.
#[inline(always)]
fn run_end(bytes: &[u8], from: usize) -> usize
    requires within { from ≤ length bytes.now }
    ensures after { from ≤ result }
    ensures within { result ≤ length bytes.now }
    ensures each { (k : ℕ) → from ≤ k → k < result → 2 < get_or bytes.now k 0 }
{
    let mut at = from;
    'lanes: while bytes.len() - at >= LANES {
        let size = lanes_before_mark(bytes, at);
        at += size;
        if size < LANES {
            return at;
        }
    }
    few_end(bytes, at)
}

/// Moves the bytes between two places to the end of the kept bytes, and answers how many bytes are
/// kept.
#[inline(always)]
fn keep_run(bytes: &mut [u8], kept: usize, at: usize, end: usize) -> usize
    requires kept { kept ≤ at }
    requires run { at ≤ end }
    requires within { end ≤ length bytes.old }
    ensures size { result ≡ kept + (end - at) }
    ensures front { take result bytes.new ≡ take kept bytes.old ++ take (end - at) (drop at bytes.old) }
    ensures rest { drop end bytes.new ≡ drop end bytes.old }
    ensures length { length bytes.new ≡ length bytes.old }
{
    if kept < at {
        bytes.copy_within(at..end, kept);
    }
    kept + (end - at)
}

/// Moves what isn't between marks to the front, and answers its length. If a 0 is among the bytes,
/// they are given up.
// The loop goes from mark to mark: byte by byte it took a tenth of what `demangle --brief` takes.
fn close_up(bytes: &mut [u8]) -> Option<usize>
    ensures size { IfSome result (λ kept. kept ≤ length bytes.old) }
    ensures front { IfSome result (λ kept. take kept bytes.new ≡ visible 0 bytes.old) }
    ensures plain { IfSome result (λ kept. HasNoZero (take kept bytes.new)) }
    ensures length { length bytes.new ≡ length bytes.old }
{
    let mut at = 0;
    let mut kept = 0;
    let mut depth: usize = 0;
    'runs: while at < bytes.len() {
        let end = run_end(bytes, at);
        if depth == 0 {
            kept = keep_run(bytes, kept, at, end);
        }
        if end == bytes.len() {
            return Some(kept);
        }
        let mark = bytes[end];
        if mark == OPENS {
            depth += 1;
        } else if mark == CLOSES {
            depth = depth.saturating_sub(1);
        } else {
            return None;
        }
        at = end + 1;
    }
    Some(kept)
}
