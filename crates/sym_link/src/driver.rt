// A machine over the rows of a shape, for any language.

ghost use Rattle.std.specs.Prelude.{◌≡◌, ℕ, ◌+◌, ◌-◌, ◌*◌, ◌<◌, ◌≤◌, ◌++◌, ◌∷◌, [], List, length, take, Ok, Err, Some, None, true, Result, IfSome, IfNone, IfOk, IfErr, OnOk, vec_capacity};
ghost use Rattle.sym_shape.specs.Tree.{Tree};
ghost use Rattle.sym_link.specs.Reading.{Found};
ghost use Rattle.sym_link.specs.Stepping.{link_steps, waiting, starting};
ghost use Rattle.sym_link.specs.Following.{IsShape, Follows, FollowsAfter, FollowsOn, FollowsAlone, StaysWithin, EndsWith, CanClose, CanSettle, CanTake, CanBegin, CanMove, IsOnWay, Moves, CountsMove, Fits, IsDriving, IsStepTo, IsDone, meaning_of};
ghost use Rattle.sym_link.specs.Linking.{KeepsRoom, NeedsRoom, TokenTakesMemory, lists_with, KeepsAllRoom, NeedsSomeRoom};
ghost use Rattle.sym_link.specs.Room.{OnlyForRoom};

use crate::language::{Frame, Linking};
use std::alloc::Global;
use sym_core::Refusal;
use sym_shape::rule::{Row, TOKEN};

/// The frame of the innermost open rule.
#[inline(always)]
fn innermost<K: Copy>(frames: &[Frame<K>]) -> Option<&Frame<K>>
    ensures some { IfSome result (λ frame. EndsWith frames.now frame.now) }
    ensures none { IfNone result (frames.now ≡ []) }
{
    match frames {
        [.., last] => Some(last),
        [] => None,
    }
}

/// The frame of the innermost open rule, if there is one.
#[inline(always)]
fn top<K: Copy>(frames: &[Frame<K>]) -> &Frame<K>
    requires { 0 < length frames.now }
    ensures { EndsWith frames.now result.now }
{
    &frames[frames.len() - 1]
}

/// Removes the frame of the innermost open rule.
fn take_off<K: Copy>(frames: &mut Vec<Frame<K>>)
    ensures items { frames.new.items ≡ take (length frames.old.items - 1) frames.old.items }
    ensures keeps { vec_capacity frames.old ≤ vec_capacity frames.new }
{
    let _frame = frames.pop();
}

/// Closes the innermost rule, and leaves its frame to be removed.
#[inline(always)]
fn leave<L: Linking>(
    language: &mut L,
    symbol: &[u8],
    parts: &mut Vec<L::Part>,
    frame: &Frame<L::Kept>,
) -> Result<(), Refusal>
    requires { CanClose (L.view symbol.now) symbol.now language.old frame.now parts.old.items }
    ensures follows { (whole : Result (Found (List L.Value) L.State) Refusal) (shape : List Row) (lower : List (Frame L.Kept)) (next left : ℕ)
        → Follows (L.view symbol.now) symbol.now shape whole (waiting (left + 1)) language.old next (lower ++ frame.now ∷ []) parts.old.items → frame.now.end ≡ next
        → FollowsAfter (L.view symbol.now) symbol.now shape whole left language.new next lower parts.new.items result }
    ensures few { (L.view symbol.now).size language.new ≤ (L.view symbol.now).size language.old + 2 }
    ensures keeps { KeepsRoom (L.view symbol.now) language.old language.new parts.old parts.new }
    ensures full { NeedsRoom (L.view symbol.now) language.old language.new parts.old parts.new result }
{
    language.close(symbol, frame, parts)
}

/// Takes the token of a rule that has begun, if a token is its only row. Answers the number of the next row.
#[inline(always)]
fn take_alone<L: Linking>(
    language: &mut L,
    symbol: &[u8],
    rows: &[Row],
    next: u32,
    parts: &mut Vec<L::Part>,
    frame: Frame<L::Kept>,
) -> Result<u32, Refusal>
    requires { (lower : List (Frame L.Kept)) × CanSettle (L.view symbol.now) symbol.now rows.now language.old next lower frame parts.old.items }
    ensures follows { (whole : Result (Found (List L.Value) L.State) Refusal) (left most : ℕ) (lower : List (Frame L.Kept))
        → Follows (L.view symbol.now) symbol.now rows.now whole (starting left most) language.old next (lower ++ frame ∷ []) parts.old.items
        → FollowsAlone (L.view symbol.now) symbol.now rows.now whole left language.new lower frame parts.new.items result }
    ensures few { (whole : Result (Found (List L.Value) L.State) Refusal) (left most : ℕ) (lower : List (Frame L.Kept))
        → Follows (L.view symbol.now) symbol.now rows.now whole (starting left most) language.old next (lower ++ frame ∷ []) parts.old.items
        → StaysWithin (L.view symbol.now) language.new frame parts.new.items most result }
    ensures counts { IfOk result (λ behind. (next ≤ behind) × (behind ≤ next + 1)) }
    ensures keeps { KeepsRoom (L.view symbol.now) language.old language.new parts.old parts.new }
    ensures full { OnlyForRoom (TokenTakesMemory (L.view symbol.now) symbol.now) (lists_with (L.view symbol.now) language.old parts.old)
        (lists_with (L.view symbol.now) language.new parts.new) result }
{
    if frame.end == next + 1 && rows[next as usize].rule == TOKEN {
        language.token(symbol, &frame, parts, rows[next as usize])?;
        return Ok(next + 1);
    }
    Ok(next)
}

/// Pushes the new rule's frame. If no part of the rule has a row, the rule closes at once; if only
/// a token has one, the rule takes the token and closes. Answers the number of the next row.
// The function closes the rule in one place: `#[inline(always)]` holds only up to a size that
// counts what is inlined in turn. With two places, and four more productions in Rust's loop, this
// function stayed a call, and the filter took 19 % more instructions.
#[inline(always)]
fn close_lone_token<L: Linking>(
    language: &mut L,
    symbol: &[u8],
    rows: &[Row],
    next: u32,
    frames: &mut Vec<Frame<L::Kept>>,
    parts: &mut Vec<L::Part>,
    frame: Frame<L::Kept>,
) -> Result<u32, Refusal>
    requires { CanSettle (L.view symbol.now) symbol.now rows.now language.old next frames.old.items frame parts.old.items }
    ensures follows { (whole : Result (Found (List L.Value) L.State) Refusal) (left most : ℕ)
        → Follows (L.view symbol.now) symbol.now rows.now whole (starting left most) language.old next (frames.old.items ++ frame ∷ []) parts.old.items
        → FollowsOn (L.view symbol.now) symbol.now rows.now whole left language.new frames.new.items parts.new.items result }
    ensures few { (whole : Result (Found (List L.Value) L.State) Refusal) (left most : ℕ)
        → Follows (L.view symbol.now) symbol.now rows.now whole (starting left most) language.old next (frames.old.items ++ frame ∷ []) parts.old.items
        → (L.view symbol.now).size language.new ≤ most }
    ensures counts { IfOk result (λ behind. (2 * next + length frames.new.items ≤ 2 * behind + length frames.old.items + 1) × (behind ≤ next + 1)) }
    ensures keeps { KeepsAllRoom (L.view symbol.now) language.old language.new frames.old frames.new parts.old parts.new }
    ensures full { NeedsSomeRoom (L.view symbol.now) symbol.now language.old language.new frames.old frames.new parts.old parts.new result }
{
    let behind = take_alone(language, symbol, rows, next, parts, frame)?;
    if frame.end != behind {
        frames.push(frame)?;
        return Ok(behind);
    }
    language.close(symbol, &frame, parts)?;
    Ok(behind)
}

/// Takes the row of a token or a rule, which is in the innermost rule. Answers the number of the next row.
fn take<L: Linking>(
    language: &mut L,
    symbol: &[u8],
    rows: &[Row],
    next: u32,
    frames: &mut Vec<Frame<L::Kept>>,
    parts: &mut Vec<L::Part>,
) -> Result<u32, Refusal>
    requires { (left : ℕ)
        × ((frame : Frame L.Kept) → EndsWith frames.old.items frame → CanTake (L.view symbol.now) symbol.now rows.now (waiting (left + 1)) language.old next frames.old.items frame parts.old.items)
        × (0 < length frames.old.items) }
    ensures follows { (whole : Result (Found (List L.Value) L.State) Refusal) (left : ℕ)
        → Follows (L.view symbol.now) symbol.now rows.now whole (waiting (left + 1)) language.old next frames.old.items parts.old.items
        → FollowsOn (L.view symbol.now) symbol.now rows.now whole left language.new frames.new.items parts.new.items result }
    ensures few { (L.view symbol.now).size language.new ≤ (L.view symbol.now).size language.old + 2 }
    ensures counts { IfOk result (λ behind. (2 * next + length frames.new.items + 1 ≤ 2 * behind + length frames.old.items) × (behind ≤ next + 2)) }
    ensures more { next < length rows.now }
    ensures keeps { KeepsAllRoom (L.view symbol.now) language.old language.new frames.old frames.new parts.old parts.new }
    ensures full { NeedsSomeRoom (L.view symbol.now) symbol.now language.old language.new frames.old frames.new parts.old parts.new result }
{
    let frame = top(frames);
    let row = rows[next as usize];
    if row.rule == TOKEN {
        language.token(symbol, frame, parts, row)?;
        return Ok(next + 1);
    }
    let kept = language.enter(symbol, rows, frame, parts, row)?;
    let opened = Frame {
        rule: row.rule,
        place: row.from,
        end: row.end,
        base: parts.len(),
        kept,
    };
    close_lone_token(language, symbol, rows, next + 1, frames, parts, opened)
}

/// Takes the first row. Answers the number of the next row.
fn begin<L: Linking>(
    language: &mut L,
    symbol: &[u8],
    rows: &[Row],
    frames: &mut Vec<Frame<L::Kept>>,
    parts: &mut Vec<L::Part>,
) -> Result<u32, Refusal>
    requires { CanBegin (L.view symbol.now) symbol.now rows.now language.old 0 frames.old.items parts.old.items }
    ensures follows { (tree : Tree) (left : ℕ) → IsShape (L.view symbol.now).table symbol.now rows.now tree → link_steps tree ≡ left + 1
        → FollowsOn (L.view symbol.now) symbol.now rows.now (meaning_of (L.view symbol.now) tree) left language.new frames.new.items parts.new.items result }
    ensures few { (L.view symbol.now).size language.new ≤ (L.view symbol.now).size language.old + 2 }
    ensures counts { IfOk result (λ behind. (length frames.new.items + 1 ≤ 2 * behind) × (behind ≤ 2)) }
    ensures more { 0 < length rows.now }
    ensures keeps { KeepsAllRoom (L.view symbol.now) language.old language.new frames.old frames.new parts.old parts.new }
    ensures full { NeedsSomeRoom (L.view symbol.now) symbol.now language.old language.new frames.old frames.new parts.old parts.new result }
{
    let row = rows[0];
    let kept = language.root(symbol, rows, row)?;
    let opened = Frame {
        rule: row.rule,
        place: row.from,
        end: row.end,
        base: 0,
        kept,
    };
    close_lone_token(language, symbol, rows, 1, frames, parts, opened)
}

/// Takes the next row, and the token after it if the row's rule has no other row; or closes the
/// innermost rule after its last row. Answers the number of the next row, or none where nothing is
/// left to do.
fn advance<L: Linking>(
    language: &mut L,
    symbol: &[u8],
    rows: &[Row],
    next: u32,
    frames: &mut Vec<Frame<L::Kept>>,
    parts: &mut Vec<L::Part>,
) -> Result<Option<u32>, Refusal>
    requires { CanMove (L.view symbol.now) symbol.now rows.now language.old next frames.old.items parts.old.items }
    ensures moves { (tree : Tree) (taken : ℕ) → IsShape (L.view symbol.now).table symbol.now rows.now tree
        → IsOnWay (L.view symbol.now) symbol.now rows.now tree taken language.old next frames.old.items parts.old.items
        → Moves (L.view symbol.now) symbol.now rows.now tree taken language.new frames.new.items parts.new.items result }
    ensures few { (L.view symbol.now).size language.new ≤ (L.view symbol.now).size language.old + 2 }
    ensures counts { CountsMove (length rows.now) next (length frames.old.items) (length frames.new.items) result }
    // Nothing is left to do exactly where no rule is open any more, and then nothing is done.
    ensures over { frames.old.items ≡ [] → 0 < next → result ≡ Ok None }
    ensures none { result ≡ Ok None
        → (frames.old.items ≡ []) × (0 < next) × (language.new ≡ language.old) × (frames.new.items ≡ frames.old.items) × (parts.new.items ≡ parts.old.items) }
    ensures keeps { KeepsAllRoom (L.view symbol.now) language.old language.new frames.old frames.new parts.old parts.new }
    ensures full { NeedsSomeRoom (L.view symbol.now) symbol.now language.old language.new frames.old frames.new parts.old parts.new result }
{
    let Some(frame) = innermost(frames) else {
        if next > 0 {
            return Ok(None);
        }
        let behind = begin(language, symbol, rows, frames, parts)?;
        return Ok(Some(behind));
    };
    if frame.end == next {
        leave(language, symbol, parts, frame)?;
        take_off(frames);
        return Ok(Some(next));
    }
    let behind = take(language, symbol, rows, next, frames, parts)?;
    Ok(Some(behind))
}

/// The open rules and the parts of a symbol that is being linked. Its lists can be kept from symbol to symbol.
#[derive(Drop)]
pub struct Driver<L: Linking> {
    pub frames: Vec<Frame<L::Kept>>,
    pub parts: Vec<L::Part>,
    pub next: u32,
    pub steps: u32,
    pub refused: Option<Refusal>,
}

impl<L: Linking> Driver<L> {
    /// A driver before the first row.
    pub fn new(alloc: Global) -> Driver<L>
        ensures frames { result.frames.items ≡ [] }
        ensures parts { result.parts.items ≡ [] }
        ensures next { result.next ≡ 0 }
        ensures steps { result.steps ≡ 0 }
        ensures refused { result.refused ≡ None }
    {
        Driver {
            frames: Vec::new(alloc),
            parts: Vec::new(alloc),
            next: 0,
            steps: 0,
            refused: None,
        }
    }

    /// Forgets the symbol, and keeps the lists for the next one.
    pub fn reset(&mut self)
        ensures frames { self.new.frames.items ≡ [] }
        ensures parts { self.new.parts.items ≡ [] }
        ensures next { self.new.next ≡ 0 }
        ensures steps { self.new.steps ≡ 0 }
        ensures refused { self.new.refused ≡ None }
    {
        self.frames.clear();
        self.parts.clear();
        self.next = 0;
        self.steps = 0;
        self.refused = None;
    }

    /// How many steps were taken.
    pub fn steps(&self) -> u32
        ensures { result ≡ self.now.steps }
    {
        self.steps
    }

    /// Keeps a refusal, and the count of steps with the one that was refused.
    fn refuse(&mut self, steps: u32, refusal: Refusal)
        ensures frames { self.new.frames ≡ self.old.frames }
        ensures parts { self.new.parts ≡ self.old.parts }
        ensures next { self.new.next ≡ self.old.next }
        ensures steps { self.new.steps ≡ steps }
        ensures refused { self.new.refused ≡ Some refusal }
    {
        self.steps = steps;
        self.refused = Some(refusal);
    }

    /// Takes the next row, and the token after it if the row's rule has no other row; or closes the innermost rule. Either is counted as a
    /// step. Answers whether nothing was left to do; in that case nothing is done or counted.
    ///
    /// # Errors
    ///
    /// The refusal that the symbol means, or `Memory`; each later call refuses for the same reason.
    pub fn step(&mut self, language: &mut L, symbol: &[u8], rows: &[Row]) -> Result<bool, Refusal>
        requires fits { Fits symbol.now rows.now }
        requires driving { (tree : Tree) × IsShape (L.view symbol.now).table symbol.now rows.now tree
            × IsDriving (L.view symbol.now) symbol.now rows.now tree language.old self.old.steps self.old.refused self.old.next self.old.frames.items self.old.parts.items }
        ensures driving { (tree : Tree) → IsShape (L.view symbol.now).table symbol.now rows.now tree
            → IsDriving (L.view symbol.now) symbol.now rows.now tree language.old self.old.steps self.old.refused self.old.next self.old.frames.items self.old.parts.items
            → IsDriving (L.view symbol.now) symbol.now rows.now tree language.new self.new.steps self.new.refused self.new.next self.new.frames.items self.new.parts.items }
        ensures answers { (tree : Tree) → IsShape (L.view symbol.now).table symbol.now rows.now tree
            → IsDriving (L.view symbol.now) symbol.now rows.now tree language.old self.old.steps self.old.refused self.old.next self.old.frames.items self.old.parts.items
            → IsStepTo (L.view symbol.now) symbol.now rows.now tree language.new self.old.steps self.new.steps self.old.refused self.new.refused self.new.parts.items result }
        // A step that is counted adds at most two nodes, refused or not, and no other step adds
        // any.
        ensures nodes { (L.view symbol.now).size language.new + 2 * self.old.steps ≤ (L.view symbol.now).size language.old + 2 * self.new.steps }
        ensures language { result ≡ Ok true → language.new ≡ language.old }
        ensures frames { result ≡ Ok true → self.new.frames.items ≡ self.old.frames.items }
        ensures parts { result ≡ Ok true → self.new.parts.items ≡ self.old.parts.items }
        ensures next { result ≡ Ok true → self.new.next ≡ self.old.next }
        // Nothing is left to do exactly where no rule is open any more: a driver that has answered true answers true again.
        ensures over { self.old.refused ≡ None → self.old.frames.items ≡ [] → 0 < self.old.next → result ≡ Ok true }
        ensures closed { result ≡ Ok true → self.new.frames.items ≡ [] }
        ensures begun { result ≡ Ok true → 0 < self.new.next }
        ensures again { IfSome self.old.refused (λ refusal. (result ≡ Err refusal) × (language.new ≡ language.old)) }
        ensures keeps { KeepsAllRoom (L.view symbol.now) language.old language.new self.old.frames self.new.frames self.old.parts self.new.parts }
        // `Memory` is the first refusal only where a list had no room, or the symbol has a token that takes memory of its own.
        ensures full { self.old.refused ≡ None
            → NeedsSomeRoom (L.view symbol.now) symbol.now language.old language.new self.old.frames self.new.frames self.old.parts self.new.parts result }
    {
        if let Some(refusal) = self.refused {
            return Err(refusal);
        }
        let counted = self.steps + 1;
        let moved = advance(
            language,
            symbol,
            rows,
            self.next,
            &mut self.frames,
            &mut self.parts,
        );
        match moved {
            Ok(behind) => match behind {
                Some(next) => {
                    self.next = next;
                    self.steps = counted;
                    Ok(false)
                }
                None => Ok(true),
            },
            Err(refusal) => {
                self.refuse(counted, refusal);
                Err(refusal)
            }
        }
    }

    /// Steps until nothing is left to do, with the same outcome and count as one step after the other.
    ///
    /// # Errors
    ///
    /// Those of `step`.
    pub fn run(&mut self, language: &mut L, symbol: &[u8], rows: &[Row]) -> Result<(), Refusal>
        requires fits { Fits symbol.now rows.now }
        requires driving { (tree : Tree) × IsShape (L.view symbol.now).table symbol.now rows.now tree
            × IsDriving (L.view symbol.now) symbol.now rows.now tree language.old self.old.steps self.old.refused self.old.next self.old.frames.items self.old.parts.items }
        ensures driving { (tree : Tree) → IsShape (L.view symbol.now).table symbol.now rows.now tree
            → IsDriving (L.view symbol.now) symbol.now rows.now tree language.old self.old.steps self.old.refused self.old.next self.old.frames.items self.old.parts.items
            → IsDriving (L.view symbol.now) symbol.now rows.now tree language.new self.new.steps self.new.refused self.new.next self.new.frames.items self.new.parts.items }
        ensures done { (tree : Tree) → IsShape (L.view symbol.now).table symbol.now rows.now tree
            → IsDriving (L.view symbol.now) symbol.now rows.now tree language.old self.old.steps self.old.refused self.old.next self.old.frames.items self.old.parts.items
            → OnOk result (IsDone (L.view symbol.now) symbol.now rows.now (meaning_of (L.view symbol.now) tree) language.new self.new.parts.items) }
        // The steps are those of the tree, however many of them were taken before.
        ensures counted { (tree : Tree) → IsShape (L.view symbol.now).table symbol.now rows.now tree
            → IsDriving (L.view symbol.now) symbol.now rows.now tree language.old self.old.steps self.old.refused self.old.next self.old.frames.items self.old.parts.items
            → OnOk result (self.new.steps ≡ link_steps tree) }
        // Each of the steps adds at most two nodes, refused or not.
        ensures nodes { (L.view symbol.now).size language.new + 2 * self.old.steps ≤ (L.view symbol.now).size language.old + 2 * self.new.steps }
        ensures open { OnOk result (self.new.refused ≡ None) }
        ensures kept { IfErr result (λ refusal. self.new.refused ≡ Some refusal) }
        ensures again { IfSome self.old.refused (λ refusal. (result ≡ Err refusal) × (language.new ≡ language.old)) }
        ensures steps { self.old.steps ≤ self.new.steps }
        ensures keeps { KeepsAllRoom (L.view symbol.now) language.old language.new self.old.frames self.new.frames self.old.parts self.new.parts }
        // `Memory` is the first refusal only where a list had no room, or the symbol has a token that takes memory of its own.
        ensures full { self.old.refused ≡ None
            → NeedsSomeRoom (L.view symbol.now) symbol.now language.old language.new self.old.frames self.new.frames self.old.parts self.new.parts result }
    {
        if let Some(refusal) = self.refused {
            return Err(refusal);
        }
        let mut next = self.next;
        let mut steps = self.steps;
        'moves: loop {
            let moved = advance(
                language,
                symbol,
                rows,
                next,
                &mut self.frames,
                &mut self.parts,
            );
            match moved {
                Ok(behind) => match behind {
                    Some(place) => {
                        next = place;
                        steps += 1;
                    }
                    None => {
                        self.next = next;
                        self.steps = steps;
                        return Ok(());
                    }
                },
                Err(refusal) => {
                    self.refuse(steps + 1, refusal);
                    return Err(refusal);
                }
            }
        }
    }
}
