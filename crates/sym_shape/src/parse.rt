// The moves of the reader.
ghost use Rattle.std.specs.Prelude.{Some, Ok, ◌≡◌, ◌≢◌, ◌⊎◌, vec_capacity, ℕ, ◌+◌, ◌^◌, ◌∷◌, [], ◌++◌, ◌<◌, ◌≤◌, List, length, take, drop, false, ◌-◌, OnOk, OnErr, IfSome, MatchOption};
ghost use Rattle.std.specs.Bool.{OnTrue, OnFalse};
ghost use Rattle.sym_core.specs.Number.{FitsSymbol};
ghost use Rattle.sym_room.specs.Room.{IsGrown};
ghost use Rattle.sym_shape.specs.Reading.{entries_of, closed, IsKnown, IsByteAt, TakesNone, place_behind, place_row, lone_rows};
ghost use Rattle.sym_shape.specs.Table.{symbols_of};
ghost use Rattle.sym_shape.specs.Frame.{HasNext, HasLast, IsTaken};
ghost use Rattle.sym_shape.specs.declared.rule.Sym.{Sym};
ghost use Rattle.sym_shape.specs.Room.{KeepsRoom, StaysWithin, LacksRoom, room_of};
ghost use Rattle.sym_shape.specs.Reader.{IsParsing, IsStep, IsAdvance, IsBatch, IsRun, FindsToken, IsWholeToken, IsParse, HasRule, HasNoRule, HasAdvanced, to_do};

use crate::frame::Frame;
use crate::grammar::Grammar;
use crate::rule::{Row, Rule, Sym, TOKEN};
use std::alloc::Global;
use sym_core::{Refusal, TokenPlace, find_name, find_number};
use sym_room::make_room;

/// How far the reader has come: the rules that are being read, the uppermost apart from those below it, and the rows so far.
// The uppermost one stays in here. As one of the loop's values, packed into one register and taken
// apart at each move, it takes 1.5 % more instructions over real symbols.
#[derive(Drop)]
pub struct Parse {
    pub top: Frame,
    pub below: Vec<Frame>,
    pub rows: Vec<Row>,
    pub at: usize,
    pub steps: u32,
}

/// The place that moves have reached, and the steps that are counted.
#[derive(Clone, Copy)]
struct Progress {
    at: usize,
    steps: u32,
}

/// The next n steps, at a place.
fn further(progress: Progress, at: usize, steps: u32) -> Option<Progress>
    requires { progress.steps + steps < 2 ^ 32 }
    ensures { result ≡ Some (record { at = at; steps = progress.steps + steps }) }
{
    Some(Progress {
        at,
        steps: progress.steps + steps,
    })
}

/// The lowest frame, which expects only the start kind.
const LOWEST: Frame = Frame { place: 0, row: 0 };

/// Ends the row of a rule.
fn close_row(rows: &mut Vec<Row>, row: usize, at: u32)
    requires open { row < length rows.old.items }
    requires few { length rows.old.items < 2 ^ 32 }
    ensures items { rows.new.items ≡ closed rows.old.items row at (length rows.old.items) }
    ensures capacity { vec_capacity rows.new ≡ vec_capacity rows.old }
{
    let open = rows[row];
    rows[row] = Row {
        to: at,
        end: rows.len() as u32,
        ..open
    };
}

/// The uppermost of the frames below the top.
fn uppermost(below: &[Frame]) -> Option<Frame>
    ensures { MatchOption result (below.now ≡ []) (λ frame. HasLast below.now frame) }
{
    below.last().copied()
}

/// Removes the uppermost frame.
fn drop_uppermost(below: &mut Vec<Frame>)
    ensures items { below.new.items ≡ take (length below.old.items - 1) below.old.items }
    ensures capacity { vec_capacity below.new ≡ vec_capacity below.old }
{
    let _frame = below.pop();
}

/// The place after the byte that a rule takes, if it takes one.
fn behind(rule: &Rule, at: usize) -> usize
    requires { at + 1 < 2 ^ 32 }
    ensures { result ≡ place_behind rule.now at }
{
    if rule.eats { at + 1 } else { at }
}

/// Takes a rule whose symbols are at a place of the list, with n symbols of the top frame after the
/// rule's kind. The rule's frame is then on top, unless the rule is a leaf, whose row has ended.
#[inline(always)]
fn take_rule(
    below: &mut Vec<Frame>,
    rows: &mut Vec<Row>,
    top: &mut Frame,
    rule: &Rule,
    place: u32,
    after: u8,
    at: usize,
) -> Result<(), Refusal>
    requires few { length rows.old.items + 1 < 2 ^ 32 }
    requires at { at + 1 < 2 ^ 32 }
    ensures taken { OnOk result (IsTaken rule.now place after top.old at below.old.items rows.old.items top.new below.new.items rows.new.items) }
    ensures one { length rows.new.items ≤ length rows.old.items + 1 }
    ensures memory { OnErr result (result ≡ Err Refusal.Memory) }
    ensures keeps_rules { vec_capacity below.old ≤ vec_capacity below.new }
    ensures keeps_rows { vec_capacity rows.old ≤ vec_capacity rows.new }
    ensures rules_grown { IsGrown (vec_capacity below.old) (vec_capacity below.new) (length below.old.items + 1) }
    ensures rows_grown { IsGrown (vec_capacity rows.old) (vec_capacity rows.new) (length rows.old.items + 1) }
    ensures full { OnErr result ((vec_capacity rows.old < length rows.new.items + 1) ⊎ (vec_capacity below.old < length below.new.items + 1)) }
{
    let number = rows.len() as u32;
    let from = at as u32;
    make_room(rows, 1)?;
    if rule.count == 0 {
        rows.push_reserved(Row {
            rule: rule.number,
            after,
            from,
            to: behind(rule, at) as u32,
            end: number + 1,
        });
        return Ok(());
    }
    rows.push_reserved(Row {
        rule: rule.number,
        after,
        from,
        to: from,
        end: 0,
    });
    make_room(below, 1)?;
    below.push_reserved(*top);
    *top = Frame { place, row: number };
    Ok(())
}

/// Adds the row of a token that n symbols of its rule follow.
fn push_token(rows: &mut Vec<Row>, after: u8, place: TokenPlace) -> Result<(), Refusal>
    requires few { length rows.old.items + 1 < 2 ^ 32 }
    requires own { place.from < 2 ^ 32 }
    requires place { place.to < 2 ^ 32 }
    ensures row { OnOk result (rows.new.items ≡ rows.old.items ++ place_row after place (length rows.old.items) ∷ []) }
    ensures one { length rows.new.items ≤ length rows.old.items + 1 }
    ensures memory { OnErr result (result ≡ Err Refusal.Memory) }
    ensures keeps { vec_capacity rows.old ≤ vec_capacity rows.new }
    ensures grown { IsGrown (vec_capacity rows.old) (vec_capacity rows.new) (length rows.old.items + 1) }
    ensures full { OnErr result (vec_capacity rows.old < length rows.new.items + 1) }
{
    let end = rows.len() as u32 + 1;
    make_room(rows, 1)?;
    rows.push_reserved(Row {
        rule: TOKEN,
        after,
        from: place.from as u32,
        to: place.to as u32,
        end,
    });
    Ok(())
}

/// Adds the row of a rule whose only symbol is a token, and then the row of that token.
fn push_rule_with_token(
    rows: &mut Vec<Row>,
    rule: &Rule,
    after: u8,
    at: usize,
    place: TokenPlace,
) -> Result<(), Refusal>
    requires few { length rows.old.items + 2 < 2 ^ 32 }
    requires at { at < 2 ^ 32 }
    requires own { place.from < 2 ^ 32 }
    requires place { place.to < 2 ^ 32 }
    requires end { place.end < 2 ^ 32 }
    ensures rows { OnOk result (rows.new.items ≡ rows.old.items ++ lone_rows rule.now after at place (length rows.old.items)) }
    ensures same { OnErr result (rows.new.items ≡ rows.old.items) }
    ensures memory { OnErr result (result ≡ Err Refusal.Memory) }
    ensures keeps { vec_capacity rows.old ≤ vec_capacity rows.new }
    ensures grown { IsGrown (vec_capacity rows.old) (vec_capacity rows.new) (length rows.old.items + 2) }
    ensures full { OnErr result (vec_capacity rows.old < length rows.new.items + 2) }
{
    let end = rows.len() as u32 + 2;
    make_room(rows, 2)?;
    rows.push_reserved(Row {
        rule: rule.number,
        after,
        from: at as u32,
        to: place.end as u32,
        end,
    });
    rows.push_reserved(Row {
        rule: TOKEN,
        after: 0,
        from: place.from as u32,
        to: place.to as u32,
        end,
    });
    Ok(())
}

/// The byte at a place, if it is known.
fn next_byte(bytes: &[u8], at: usize) -> Option<u8>
    ensures { MatchOption result (length bytes.now ≤ at) (λ byte. IsByteAt bytes.now at byte) }
{
    if at < bytes.len() {
        Some(bytes[at])
    } else {
        None
    }
}

/// Whether more bytes may follow at a place.
fn may_go_on(at: usize, bytes: &[u8], ended: bool) -> bool
    ensures waits { OnTrue result (ended ≡ false) }
    ensures all { OnTrue result (length bytes.now ≤ at) }
    ensures known { OnFalse result (IsKnown ended bytes.now at) }
{
    !ended && at >= bytes.len()
}

/// The place of a token that a symbol expects, if the whole token is present.
#[inline(always)]
fn complete_token<G: Grammar>(
    grammar: &G,
    symbol: Sym,
    bytes: &[u8],
    at: usize,
    ended: bool,
) -> Option<TokenPlace>
    requires fits { FitsSymbol bytes.now }
    requires within { at ≤ length bytes.now }
    ensures { IfSome result (IsWholeToken G.table.names symbol ended bytes.now at) }
{
    let found = match symbol {
        Sym::Name => find_name(bytes, at, grammar.name_class()),
        Sym::Number(kind) => find_number(bytes, at, kind),
        _ => return None,
    };
    match found {
        Ok(place) if may_go_on(place.end, bytes, ended) => None,
        Ok(place) => Some(place),
        Err(_) => None,
    }
}

/// The only symbol of a rule, if the rule has just one and that is a token.
fn lone_token(rule: &Rule) -> Option<Sym>
    ensures { IfSome result (λ symbol. symbols_of rule.now ≡ symbol ∷ []) }
{
    if rule.count != 1 {
        return None;
    }
    // Names are by far the commonest.
    if matches!(rule.symbols[0], Sym::Name) {
        return Some(Sym::Name);
    }
    match rule.symbols[0] {
        Sym::Number(kind) => Some(Sym::Number(kind)),
        _ => None,
    }
}

/// The rule that a kind takes at a place, if it takes one at the byte there.
fn rule_at<G: Grammar>(grammar: &G, kind: u16, bytes: &[u8], at: usize) -> Option<Rule>
    requires { kind < G.table.kinds }
    ensures { MatchOption result (HasNoRule G.table kind bytes.now at) (HasRule G.table kind bytes.now at) }
{
    match next_byte(bytes, at) {
        Some(byte) => grammar.rule(kind, byte),
        None => None,
    }
}

impl Parse {
    /// Before the first step: the start kind is to be read. Making this state takes no memory.
    pub fn new(alloc: Global) -> Parse
        ensures todo { (listed : ℕ → List Sym) → to_do listed result ≡ entries_of (listed 0) }
        ensures rows { result.rows.items ≡ [] }
        ensures at { result.at ≡ 0 }
        ensures steps { result.steps ≡ 0 }
        ensures rules { result.below.items ≡ [] }
        ensures row_room { vec_capacity result.rows ≡ 0 }
        ensures rule_room { vec_capacity result.below ≡ 0 }
    {
        Parse {
            top: LOWEST,
            below: Vec::new(alloc),
            rows: Vec::new(alloc),
            at: 0,
            steps: 0,
        }
    }

    /// Begins another symbol with the existing lists.
    pub fn restart(&mut self)
        ensures todo { (listed : ℕ → List Sym) → to_do listed self.new ≡ entries_of (listed 0) }
        ensures rows { self.new.rows.items ≡ [] }
        ensures at { self.new.at ≡ 0 }
        ensures steps { self.new.steps ≡ 0 }
        ensures rules { self.new.below.items ≡ [] }
        ensures row_room { vec_capacity self.new.rows ≡ vec_capacity self.old.rows }
        ensures rule_room { vec_capacity self.new.below ≡ vec_capacity self.old.below }
    {
        self.top = LOWEST;
        self.below.clear();
        self.rows.clear();
        self.at = 0;
        self.steps = 0;
    }

    /// Steps until nothing is left to do with these bytes, or until one refuses.
    pub fn run<G: Grammar>(&mut self, grammar: &G, bytes: &[u8], ended: bool) -> Result<(), Refusal>
        requires fits { FitsSymbol bytes.now }
        requires parsing { IsParsing G.listed G.table ended bytes.now self.old }
        ensures runs { IsRun G.listed G.table ended bytes.now self.old self.new result }
        ensures keeps { KeepsRoom (room_of self.old) (room_of self.new) }
        ensures bounded { StaysWithin (length bytes.now) (room_of self.old) (room_of self.new) }
        ensures full { result ≡ Err Refusal.Memory → LacksRoom 2 (room_of self.old) (length self.new.rows.items) (length self.new.below.items) }
    {
        'steps: loop {
            self.run_batch(grammar, bytes, ended)?;
            match self.advance(grammar, bytes, ended) {
                Ok(true) => return Ok(()),
                Ok(false) => {}
                Err(refusal) => return Err(refusal),
            }
        }
    }

    /// Makes moves, with the state at hand, up to one that needs more bytes or may be refused. It
    /// refuses only for want of memory.
    fn run_batch<G: Grammar>(
        &mut self,
        grammar: &G,
        bytes: &[u8],
        ended: bool,
    ) -> Result<(), Refusal>
        requires fits { FitsSymbol bytes.now }
        requires parsing { IsParsing G.listed G.table ended bytes.now self.old }
        ensures moves { IsBatch G.listed G.table ended bytes.now self.old self.new result }
        ensures keeps { KeepsRoom (room_of self.old) (room_of self.new) }
        ensures bounded { StaysWithin (length bytes.now) (room_of self.old) (room_of self.new) }
        ensures full { result ≡ Err Refusal.Memory → LacksRoom 2 (room_of self.old) (length self.new.rows.items) (length self.new.below.items) }
    {
        let mut progress = Progress {
            at: self.at,
            steps: self.steps,
        };
        'moves: loop {
            let moved = match grammar.symbol(self.top.place) {
                None => Ok(self.leave_rule::<G>(progress, bytes, ended)),
                Some(symbol) => match symbol {
                    Sym::Kind(kind) => self.enter_kind(grammar, kind, progress, bytes, ended),
                    _ => self.pass_symbol(grammar, symbol, progress, bytes, ended),
                },
            };
            match moved {
                Ok(Some(further)) => progress = further,
                Ok(None) => break 'moves,
                Err(refusal) => {
                    self.steps = progress.steps + 1;
                    return Err(refusal);
                }
            }
        }
        self.at = progress.at;
        self.steps = progress.steps;
        Ok(())
    }

    /// Ends the row of a rule whose symbols are all read, unless the frame is the lowest.
    #[inline(always)]
    fn leave_rule<G: Grammar>(
        &mut self,
        progress: Progress,
        bytes: &[u8],
        ended: bool,
    ) -> Option<Progress>
        requires parsing { IsParse G.table ended bytes.now progress.steps progress.at (to_do G.listed self.old) self.old.rows.items }
        requires fits { FitsSymbol bytes.now }
        requires bare { G.listed self.old.top.place ≡ [] }
        ensures moves { HasAdvanced G.listed G.table ended bytes.now progress self.old self.new (Ok result) }
        ensures keeps { KeepsRoom (room_of self.old) (room_of self.new) }
        ensures bounded { StaysWithin (length bytes.now) (room_of self.old) (room_of self.new) }
    {
        match uppermost(&self.below) {
            Some(frame) => {
                let row = self.top.row as usize;
                self.top = frame;
                drop_uppermost(&mut self.below);
                close_row(&mut self.rows, row, progress.at as u32);
                further(progress, progress.at, 1)
            }
            None => None,
        }
    }

    /// Takes the rule of a kind, with its token if that is the rule's only symbol, or leaves the
    /// kind.
    #[inline(always)]
    fn enter_kind<G: Grammar>(
        &mut self,
        grammar: &G,
        kind: u16,
        progress: Progress,
        bytes: &[u8],
        ended: bool,
    ) -> Result<Option<Progress>, Refusal>
        requires parsing { IsParse G.table ended bytes.now progress.steps progress.at (to_do G.listed self.old) self.old.rows.items }
        requires fits { FitsSymbol bytes.now }
        requires next { HasNext G.listed self.old.top (Sym.Kind kind) }
        ensures moves { HasAdvanced G.listed G.table ended bytes.now progress self.old self.new result }
        ensures keeps { KeepsRoom (room_of self.old) (room_of self.new) }
        ensures bounded { StaysWithin (length bytes.now) (room_of self.old) (room_of self.new) }
        ensures full { result ≡ Err Refusal.Memory → LacksRoom 2 (room_of self.old) (length self.new.rows.items) (length self.new.below.items) }
    {
        let at = progress.at;
        match rule_at(grammar, kind, bytes, at) {
            Some(rule) => match lone_token(&rule) {
                Some(symbol) => {
                    match complete_token(grammar, symbol, bytes, behind(&rule, at), ended) {
                        Some(place) => {
                            let after = grammar.after(self.top.place);
                            push_rule_with_token(&mut self.rows, &rule, after, at, place)?;
                            self.top.place += 1;
                            Ok(further(progress, place.end, 3))
                        }
                        None => Ok(None),
                    }
                }
                None => {
                    let place = grammar.place(kind, bytes[at]);
                    let after = grammar.after(self.top.place);
                    self.top.place += 1;
                    take_rule(
                        &mut self.below,
                        &mut self.rows,
                        &mut self.top,
                        &rule,
                        place,
                        after,
                        at,
                    )?;
                    Ok(further(progress, behind(&rule, at), 1))
                }
            },
            None if may_go_on(at, bytes, ended) => Ok(None),
            None if grammar.may_be_empty(kind) => {
                self.top.place += 1;
                Ok(further(progress, at, 1))
            }
            None => Ok(None),
        }
    }

    /// Reads a fixed byte or a token at the place.
    #[inline(always)]
    fn pass_symbol<G: Grammar>(
        &mut self,
        grammar: &G,
        symbol: Sym,
        progress: Progress,
        bytes: &[u8],
        ended: bool,
    ) -> Result<Option<Progress>, Refusal>
        requires parsing { IsParse G.table ended bytes.now progress.steps progress.at (to_do G.listed self.old) self.old.rows.items }
        requires fits { FitsSymbol bytes.now }
        requires next { HasNext G.listed self.old.top symbol }
        ensures moves { HasAdvanced G.listed G.table ended bytes.now progress self.old self.new result }
        ensures keeps { KeepsRoom (room_of self.old) (room_of self.new) }
        ensures bounded { StaysWithin (length bytes.now) (room_of self.old) (room_of self.new) }
        ensures full { result ≡ Err Refusal.Memory → LacksRoom 2 (room_of self.old) (length self.new.rows.items) (length self.new.below.items) }
    {
        match symbol {
            Sym::Byte(byte) => match next_byte(bytes, progress.at) {
                Some(next) if next == byte => {
                    self.top.place += 1;
                    Ok(further(progress, progress.at + 1, 1))
                }
                _ => Ok(None),
            },
            _ => match complete_token(grammar, symbol, bytes, progress.at, ended) {
                Some(place) => {
                    push_token(&mut self.rows, grammar.after(self.top.place), place)?;
                    self.top.place += 1;
                    Ok(further(progress, place.end, 1))
                }
                None => Ok(None),
            },
        }
    }

    /// One step, counted unless it waits for bytes or all is read.
    #[inline(never)]
    pub fn advance<G: Grammar>(
        &mut self,
        grammar: &G,
        bytes: &[u8],
        ended: bool,
    ) -> Result<bool, Refusal>
        requires fits { FitsSymbol bytes.now }
        requires parsing { IsParsing G.listed G.table ended bytes.now self.old }
        ensures moves { IsAdvance G.listed G.table ended bytes.now self.old self.new result }
        ensures keeps { KeepsRoom (room_of self.old) (room_of self.new) }
        ensures bounded { StaysWithin (length bytes.now) (room_of self.old) (room_of self.new) }
        ensures full { result ≡ Err Refusal.Memory → LacksRoom 1 (room_of self.old) (length self.new.rows.items) (length self.new.below.items) }
    {
        let outcome = self.step(grammar, bytes, ended);
        match outcome {
            Ok(true) => Ok(true),
            Ok(false) => {
                self.steps += 1;
                Ok(false)
            }
            Err(refusal) => {
                self.steps += 1;
                Err(refusal)
            }
        }
    }

    /// The move that the top frame expects.
    fn step<G: Grammar>(&mut self, grammar: &G, bytes: &[u8], ended: bool) -> Result<bool, Refusal>
        requires fits { FitsSymbol bytes.now }
        requires parsing { IsParsing G.listed G.table ended bytes.now self.old }
        ensures moves { IsStep G.listed G.table ended bytes.now self.old self.new result }
        ensures keeps { KeepsRoom (room_of self.old) (room_of self.new) }
        ensures bounded { StaysWithin (length bytes.now) (room_of self.old) (room_of self.new) }
        ensures full { result ≡ Err Refusal.Memory → LacksRoom 1 (room_of self.old) (length self.new.rows.items) (length self.new.below.items) }
    {
        match grammar.symbol(self.top.place) {
            None => self.end_frame::<G>(bytes, ended),
            Some(Sym::Byte(byte)) => self.read_byte::<G>(byte, bytes, ended),
            Some(Sym::Kind(kind)) => self.read_kind(grammar, kind, bytes, ended),
            Some(Sym::Name) => {
                let found = find_name(bytes, self.at, grammar.name_class());
                self.read_token(grammar, Sym::Name, found, bytes, ended)
            }
            Some(Sym::Number(kind)) => {
                let found = find_number(bytes, self.at, kind);
                self.read_token(grammar, Sym::Number(kind), found, bytes, ended)
            }
        }
    }

    /// All symbols of the top frame are read: its row ends; or it is the lowest frame, and all is
    /// read unless more bytes follow.
    fn end_frame<G: Grammar>(&mut self, bytes: &[u8], ended: bool) -> Result<bool, Refusal>
        requires fits { FitsSymbol bytes.now }
        requires parsing { IsParsing G.listed G.table ended bytes.now self.old }
        requires bare { G.listed self.old.top.place ≡ [] }
        ensures moves { IsStep G.listed G.table ended bytes.now self.old self.new result }
        ensures keeps { KeepsRoom (room_of self.old) (room_of self.new) }
        ensures bounded { StaysWithin (length bytes.now) (room_of self.old) (room_of self.new) }
        ensures full { result ≢ Err Refusal.Memory }
    {
        match uppermost(&self.below) {
            Some(frame) => {
                close_row(&mut self.rows, self.top.row as usize, self.at as u32);
                drop_uppermost(&mut self.below);
                self.top = frame;
                Ok(false)
            }
            None => {
                if self.at == bytes.len() {
                    return Ok(true);
                }
                Err(Refusal::Malformed { at: self.at as u32 })
            }
        }
    }

    /// Reads a fixed byte.
    fn read_byte<G: Grammar>(
        &mut self,
        byte: u8,
        bytes: &[u8],
        ended: bool,
    ) -> Result<bool, Refusal>
        requires fits { FitsSymbol bytes.now }
        requires parsing { IsParsing G.listed G.table ended bytes.now self.old }
        requires next { HasNext G.listed self.old.top (Sym.Byte byte) }
        ensures moves { IsStep G.listed G.table ended bytes.now self.old self.new result }
        ensures keeps { KeepsRoom (room_of self.old) (room_of self.new) }
        ensures bounded { StaysWithin (length bytes.now) (room_of self.old) (room_of self.new) }
        ensures full { result ≢ Err Refusal.Memory }
    {
        let at = self.at;
        match next_byte(bytes, at) {
            None if !ended => Ok(true),
            None => Err(Refusal::Malformed { at: at as u32 }),
            Some(next) if next == byte => {
                self.top.place += 1;
                self.at += 1;
                Ok(false)
            }
            Some(_) => Err(Refusal::Malformed { at: at as u32 }),
        }
    }

    /// Reads a kind: the rule that its next byte chooses, or nothing.
    fn read_kind<G: Grammar>(
        &mut self,
        grammar: &G,
        kind: u16,
        bytes: &[u8],
        ended: bool,
    ) -> Result<bool, Refusal>
        requires fits { FitsSymbol bytes.now }
        requires parsing { IsParsing G.listed G.table ended bytes.now self.old }
        requires next { HasNext G.listed self.old.top (Sym.Kind kind) }
        ensures moves { IsStep G.listed G.table ended bytes.now self.old self.new result }
        ensures keeps { KeepsRoom (room_of self.old) (room_of self.new) }
        ensures bounded { StaysWithin (length bytes.now) (room_of self.old) (room_of self.new) }
        ensures full { result ≡ Err Refusal.Memory → LacksRoom 1 (room_of self.old) (length self.new.rows.items) (length self.new.below.items) }
    {
        match next_byte(bytes, self.at) {
            None if !ended => Ok(true),
            None => self.leave_kind(grammar, kind, bytes, ended),
            Some(next) => match grammar.rule(kind, next) {
                Some(rule) => {
                    let place = grammar.place(kind, next);
                    let after = grammar.after(self.top.place);
                    self.top.place += 1;
                    take_rule(
                        &mut self.below,
                        &mut self.rows,
                        &mut self.top,
                        &rule,
                        place,
                        after,
                        self.at,
                    )?;
                    self.at = behind(&rule, self.at);
                    Ok(false)
                }
                None => self.leave_kind(grammar, kind, bytes, ended),
            },
        }
    }

    /// Leaves a kind where no rule of it can be taken.
    fn leave_kind<G: Grammar>(
        &mut self,
        grammar: &G,
        kind: u16,
        bytes: &[u8],
        ended: bool,
    ) -> Result<bool, Refusal>
        requires fits { FitsSymbol bytes.now }
        requires parsing { IsParsing G.listed G.table ended bytes.now self.old }
        requires next { HasNext G.listed self.old.top (Sym.Kind kind) }
        requires none { TakesNone G.table kind ended (drop self.old.at bytes.now) }
        ensures moves { IsStep G.listed G.table ended bytes.now self.old self.new result }
        ensures keeps { KeepsRoom (room_of self.old) (room_of self.new) }
        ensures bounded { StaysWithin (length bytes.now) (room_of self.old) (room_of self.new) }
        ensures full { result ≢ Err Refusal.Memory }
    {
        if grammar.may_be_empty(kind) {
            self.top.place += 1;
            return Ok(false);
        }
        Err(Refusal::Malformed { at: self.at as u32 })
    }

    /// Reads a token, or says where it breaks off. A token that ends with the bytes may still
    /// continue.
    fn read_token<G: Grammar>(
        &mut self,
        grammar: &G,
        symbol: Sym,
        found: Result<TokenPlace, usize>,
        bytes: &[u8],
        ended: bool,
    ) -> Result<bool, Refusal>
        requires fits { FitsSymbol bytes.now }
        requires parsing { IsParsing G.listed G.table ended bytes.now self.old }
        requires next { HasNext G.listed self.old.top symbol }
        requires found { FindsToken G.table.names symbol bytes.now self.old.at found }
        ensures moves { IsStep G.listed G.table ended bytes.now self.old self.new result }
        ensures keeps { KeepsRoom (room_of self.old) (room_of self.new) }
        ensures bounded { StaysWithin (length bytes.now) (room_of self.old) (room_of self.new) }
        ensures full { result ≡ Err Refusal.Memory → LacksRoom 1 (room_of self.old) (length self.new.rows.items) (length self.new.below.items) }
    {
        match found {
            Ok(place) if may_go_on(place.end, bytes, ended) => Ok(true),
            Ok(place) => {
                push_token(&mut self.rows, grammar.after(self.top.place), place)?;
                self.top.place += 1;
                self.at = place.end;
                Ok(false)
            }
            Err(bad) if may_go_on(bad, bytes, ended) => Ok(true),
            Err(bad) => Err(Refusal::Malformed { at: bad as u32 }),
        }
    }
}
