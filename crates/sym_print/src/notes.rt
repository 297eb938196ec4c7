// Notes of items that were written, so that their texts are copied where the same items come again.
#![tactic(auto)]

ghost use Rattle.std.specs.Prelude.{◌≡◌, ◌+◌, ◌-◌, ◌≤◌, ◌++◌, ◌⊎◌, ◌∷◌, [], length, take, vec_len, true, false, IfSome, IfNone};
ghost use Rattle.std.specs.List.{All, Contains};
ghost use Rattle.sym_print.specs.Noted.{EndsWith, EndsAt};
ghost use Rattle.sym_print.specs.declared.layout.Part.{Part};
ghost use Rattle.sym_print.specs.declared.notes.Note.{Note};

use crate::layout::{Item, Layout, Part};
use crate::sharing::Sharing;
use std::alloc::Global;

/// How many texts are known at a time, where a text isn't dear.
const PLACES: usize = 64;

/// The least cost of an item that is noted in a dear text: a cheaper item is printed as fast from its parts.
const LEAST_NOTED: u32 = 12;

/// How many notes are compared with an item at most: one for each bit of a key.
const MOST_COMPARED: u32 = 64;

/// Where the number of a context begins in a key, after those of the form and the node.
const CONTEXT_BIT: u32 = 29;

/// What a key is multiplied by: 2 ^ 64 divided by the golden ratio, as in Fibonacci hashing.
const SPREAD: u64 = 11400714819323198485;

/// A number that no note has.
const NONE: u32 = 4294967295;

/// An item that is written: where its text begins and ends, its cost, and its steps.
#[derive(Clone, Copy)]
pub(crate) struct Note<C> {
    pub(crate) item: Item<C>,
    pub(crate) from: u32,
    pub(crate) to: u32,
    pub(crate) cost: u32,
    pub(crate) steps: u64,
}

/// An item that is being written: how many entries are below its parts, and where its text, its cost and its steps begin.
#[derive(Clone, Copy)]
pub(crate) struct Begun<C> {
    pub(crate) item: Item<C>,
    pub(crate) below: usize,
    pub(crate) from: u32,
    pub(crate) spent: u32,
    pub(crate) steps: u64,
}

/// A note's key, and the numbers of the two notes that come after it: one for each value of the next bit of a key.
#[derive(Clone, Copy)]
struct Fork {
    key: u64,
    even: u32,
    odd: u32,
}

/// Where the note of a key is, or would be: the note's number, the note before it, and on which side of that earlier note it is.
#[derive(Clone, Copy)]
struct Spot {
    number: usize,
    before: usize,
    is_odd: bool,
}

/// The items that are written, and those that are being written, the innermost last.
///
/// Where a text isn't dear, only items that the layout chooses are known, each at the place of its node. In a dear text all items whose
/// node is shared are known. Their notes form a tree in which the bits of a key lead to the key's note, so no symbol can make a search
/// longer than `MOST_COMPARED`.
#[derive(Drop)]
pub(crate) struct Notes<C: Copy> {
    pub(crate) known: Vec<Note<C>>,
    pub(crate) begun: Vec<Begun<C>>,
    forks: Vec<Fork>,
    sharing: Sharing,
}

/// A number by which an item's note is found. Items of a symbol have different numbers, if the symbol's numbers fit in
/// their bits. The first bits depend on all others, so few items have the same first bits.
fn key_of<Y: Layout>(y: &Y, item: &Item<Y::Ctx>) -> u64 {
    let node = item.form as u64 % 32 + 32 * item.node as u64;
    let context = y.context_number(item.ctx) << CONTEXT_BIT;
    node.wrapping_add(context).wrapping_mul(SPREAD)
}

/// The spot on one side of a note.
#[inline(always)]
fn spot_after(fork: &Fork, before: usize, is_odd: bool) -> Spot {
    let number = if is_odd { fork.odd } else { fork.even };
    Spot {
        number: number as usize,
        before,
        is_odd,
    }
}

/// The innermost of the items that are being written.
#[inline(always)]
fn innermost<C: Copy>(begun: &[Begun<C>]) -> Option<&Begun<C>>
    ensures some { IfSome result (λ last. EndsWith begun.now last.now) }
    ensures none { IfNone result (begun.now ≡ []) }
{
    match begun {
        [.., last] => Some(last),
        [] => None,
    }
}

impl<C: Copy> Notes<C> {
    /// No notes. The call takes no memory.
    pub(crate) fn idle(alloc: Global) -> Notes<C> {
        Notes {
            known: Vec::new(alloc),
            begun: Vec::new(alloc),
            forks: Vec::new(alloc),
            sharing: Sharing::idle(alloc),
        }
    }

    /// Forgets everything. The memory of the lists is kept.
    pub(crate) fn clear(&mut self)
        ensures known { self.new.known.items ≡ [] }
        ensures begun { self.new.begun.items ≡ [] }
    {
        self.known.clear();
        self.begun.clear();
        self.forks.clear();
        self.sharing.clear();
    }

    /// Whether the innermost item that is being written is whole, when n entries are left.
    #[inline(always)]
    pub(crate) fn is_whole(&self, height: usize) -> bool
        ensures whole { result ≡ true → EndsAt height self.now.begun.items }
        ensures unmet { result ≡ false → EndsAt height self.now.begun.items → ⊥ }
    {
        match innermost(&self.begun) {
            Some(begun) => begun.below == height,
            None => false,
        }
    }

    /// Whether an item is to be noted: in a dear text, one whose node is known to be shared.
    #[inline(always)]
    pub(crate) fn are_for<Y: Layout<Ctx = C>>(&self, y: &Y, item: Item<C>, is_dear: bool) -> bool
        requires may_come { Y.may_come y.now (Part.Sub item) }
    {
        if is_dear {
            item.at == 0 && self.sharing.is_shared(item.node)
        } else {
            y.is_noted(item)
        }
    }

    /// Whether an item is neither to be noted, nor known, nor to be looked at.
    #[inline(always)]
    pub(crate) fn are_done_with<Y: Layout<Ctx = C>>(
        &self,
        y: &Y,
        item: Item<C>,
        is_dear: bool,
    ) -> bool
        requires may_come { Y.may_come y.now (Part.Sub item) }
    {
        if is_dear {
            self.sharing.is_plain(&item)
        } else {
            !y.is_noted(item)
        }
    }

    /// What is noted of an item.
    #[inline(always)]
    pub(crate) fn get<Y: Layout<Ctx = C>>(
        &self,
        y: &Y,
        item: Item<C>,
        is_dear: bool,
    ) -> Option<&Note<C>>
        ensures item { IfSome result (λ note. note.now.item ≡ item) }
        ensures known { IfSome result (λ note. Contains self.now.known.items note.now) }
    {
        let number = if is_dear {
            self.spot_of(key_of(y, &item)).number
        } else {
            item.node as usize % PLACES
        };
        let note = self.known.get(number)?;
        if y.is_same(&note.item, &item) {
            Some(note)
        } else {
            None
        }
    }

    /// Where the note with a key is, or would be, in a dear text.
    fn spot_of(&self, key: u64) -> Spot {
        let mut spot = Spot {
            number: 0,
            before: 0,
            is_odd: false,
        };
        let mut turned = key;
        for _ in 0..MOST_COMPARED {
            match self.forks.get(spot.number) {
                Some(fork) if fork.key != key => {
                    turned = turned.rotate_left(1);
                    spot = spot_after(fork, spot.number, turned % 2 == 1);
                }
                _ => return spot,
            }
        }
        spot
    }

    /// Notes an item: in a dear text beside the others, otherwise in place of another. Nothing is noted where there is
    /// no memory.
    pub(crate) fn add<Y: Layout<Ctx = C>>(&mut self, y: &Y, note: Note<C>, is_dear: bool)
        ensures known { All (λ n. (n ≡ note) ⊎ Contains self.old.known.items n) self.new.known.items }
        ensures begun { self.new.begun ≡ self.old.begun }
    {
        if is_dear {
            self.add_beside(y, note);
        } else {
            self.add_in_place(note);
        }
    }

    /// Notes an item in place of another.
    fn add_in_place(&mut self, note: Note<C>)
        ensures known { All (λ n. (n ≡ note) ⊎ Contains self.old.known.items n) self.new.known.items }
        ensures begun { self.new.begun ≡ self.old.begun }
    {
        let place = note.item.node as usize % PLACES;
        if place < self.known.len() {
            self.known[place] = note;
        } else {
            let _ = self.known.resize(place + 1, note);
        }
    }

    /// Notes an item beside the others, if it costs enough. Once a node has too many notes, none of its items is noted
    /// any more.
    fn add_beside<Y: Layout<Ctx = C>>(&mut self, y: &Y, note: Note<C>)
        ensures known { All (λ n. (n ≡ note) ⊎ Contains self.old.known.items n) self.new.known.items }
        ensures begun { self.new.begun ≡ self.old.begun }
    {
        if note.cost < LEAST_NOTED {
            return;
        }
        let key = key_of(y, &note.item);
        let spot = self.spot_of(key);
        let Ok(number) = u32::try_from(self.known.len()) else {
            return;
        };
        if spot.number < self.known.len() {
            self.sharing.give_up(note.item.node);
            return;
        }
        if self.known.reserve(1).is_err() || self.forks.reserve(1).is_err() {
            return;
        }
        self.lead(spot, number);
        let _ = self.forks.push(Fork {
            key,
            even: NONE,
            odd: NONE,
        });
        let _ = self.known.push(note);
    }

    /// Makes a spot the place of a note.
    fn lead(&mut self, spot: Spot, number: u32)
        ensures known { self.new.known ≡ self.old.known }
        ensures begun { self.new.begun ≡ self.old.begun }
    {
        if let Some(fork) = self.forks.get_mut(spot.before) {
            *fork = if spot.is_odd {
                Fork {
                    odd: number,
                    ..*fork
                }
            } else {
                Fork {
                    even: number,
                    ..*fork
                }
            };
        }
    }

    /// Looks at the parts of an item that was opened in a dear text, if no item of this node and form was looked at
    /// before.
    #[inline(always)]
    pub(crate) fn look(&mut self, item: &Item<C>, stack: &[Part<C>], below: usize, is_dear: bool)
        ensures known { self.new.known ≡ self.old.known }
        ensures begun { self.new.begun ≡ self.old.begun }
    {
        if is_dear && !self.sharing.knows(item.node, item.form) {
            if let Some(parts) = stack.get(below..) {
                self.sharing.look(item, parts);
            }
        }
    }

    /// Notes that an item is being written. Nothing is noted where there is no memory.
    pub(crate) fn begin(&mut self, begun: Begun<C>)
        ensures known { self.new.known ≡ self.old.known }
        ensures begun { (self.new.begun.items ≡ self.old.begun.items) ⊎ (self.new.begun.items ≡ self.old.begun.items ++ begun ∷ []) }
    {
        let _ = self.begun.push(begun);
    }
}
