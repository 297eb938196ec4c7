// The text and the candidates, as they grow.

ghost use Rattle.std.specs.Prelude.{◌≡◌, ◌-◌, ◌≤◌, ◌∷◌, [], length, take, drop, true, false, if◌then◌else◌};
ghost use Rattle.std.specs.Option.{OnSome, IfSome};
ghost use Rattle.cpp_direct.specs.declared.open.Step.TheVariants as steps;
ghost use Rattle.cpp_direct.specs.Symbol.{detail_by};
ghost use Rattle.cpp_direct.specs.WrittenParts.{closing_bracket};
ghost use Rattle.cpp_direct.specs.Written.{Writes, Cuts, Leaves, Lists, OpensEntry, OpensArguments, added, added_unless, with_argument, with_hidden, AreLeft, Stays};
ghost use Rattle.cpp_direct.specs.declared.open.Hiding.TheVariants as hidings;

use crate::direct::Direct;
use crate::grammar::Grammar;
use crate::open::{Argument, Candidate, Hiding, Open, Step};
use crate::tokens::is_local;
use sym_direct::{Bounded, CLOSES, OPENS};

/// A candidate whose text is nowhere: it ends before it begins.
const HIDDEN: Candidate = Candidate {
    from: 1,
    to: 0,
    is_reference: false,
    is_dependent: false,
};

impl Direct {
    /// Writes a text.
    #[inline(always)]
    pub(crate) fn push(&mut self, text: &[u8]) -> Option<()>
        ensures { OnSome result (Writes self.old self.new text.now) }
    {
        self.text.push_all(text)
    }

    /// Writes a byte.
    #[inline(always)]
    pub(crate) fn push_byte(&mut self, byte: u8) -> Option<()>
        ensures { OnSome result (Writes self.old self.new (byte ∷ [])) }
    {
        self.text.push(byte)
    }

    /// Writes two bytes.
    #[inline(always)]
    pub(crate) fn push_pair(&mut self, first: u8, second: u8) -> Option<()>
        ensures { OnSome result (Writes self.old self.new (first ∷ second ∷ [])) }
    {
        self.text.push_pair(first, second)
    }

    /// Writes a text that mostly has one byte or two.
    #[inline(always)]
    pub(crate) fn push_short(&mut self, text: &[u8]) -> Option<()>
        ensures { OnSome result (Writes self.old self.new text.now) }
    {
        match text {
            [byte] => self.push_byte(*byte),
            [first, second] => self.push_pair(*first, *second),
            _ => self.push(text),
        }
    }

    /// What is written from a place on becomes a candidate.
    #[inline(always)]
    pub(crate) fn add_candidate(
        &mut self,
        from: u32,
        is_reference: bool,
        is_dependent: bool,
    ) -> Option<()>
        ensures { OnSome result (Lists self.old self.new (added self.old from is_reference is_dependent)) }
    {
        let to = self.text.end();
        self.candidates.push(Candidate {
            from,
            to,
            is_reference,
            is_dependent,
        })
    }

    /// The text of an argument of the function's template becomes a candidate that names the
    /// argument.
    #[inline(always)]
    pub(crate) fn add_argument(&mut self, argument: Argument) -> Option<()>
        ensures candidates { OnSome result (self.new.candidates.list.items ≡ with_argument self.old argument) }
        ensures text { self.new.text ≡ self.old.text }
        ensures open { self.new.waiting ≡ self.old.waiting }
        ensures nest { self.new.nest ≡ self.old.nest }
        ensures scope { self.new.has_scope ≡ self.old.has_scope }
        ensures at { self.new.at ≡ self.old.at }
    {
        self.candidates.push(Candidate {
            from: argument.from as u32,
            to: argument.to as u32,
            is_reference: argument.is_reference,
            is_dependent: true,
        })
    }

    /// A function type becomes a candidate, and so does the pointer to it if there is one. Their
    /// texts are nowhere.
    pub(crate) fn add_hidden(&mut self, is_pointer: bool) -> Option<()>
        ensures candidates { OnSome result (self.new.candidates.list.items ≡ with_hidden self.old is_pointer) }
        ensures text { self.new.text ≡ self.old.text }
        ensures open { self.new.waiting ≡ self.old.waiting }
        ensures nest { self.new.nest ≡ self.old.nest }
        ensures scope { self.new.has_scope ≡ self.old.has_scope }
        ensures at { self.new.at ≡ self.old.at }
    {
        if is_pointer {
            self.candidates.push(HIDDEN)?;
        }
        self.candidates.push(HIDDEN)
    }

    /// What is written from a place on becomes a candidate, unless it is one already.
    #[inline(always)]
    pub(crate) fn add_unless(
        &mut self,
        is_listed: bool,
        from: u32,
        is_dependent: bool,
    ) -> Option<()>
        ensures { OnSome result (Lists self.old self.new (added_unless self.old is_listed from is_dependent)) }
    {
        if is_listed {
            return Some(());
        }
        self.add_candidate(from, false, is_dependent)
    }

    /// Writes a stretch of the text once more.
    #[inline(never)]
    pub(crate) fn repeat(&mut self, from: u32, to: u32) -> Option<()>
        requires from { from ≤ to }
        requires to { to ≤ length self.old.text.list.items }
        ensures { OnSome result (Writes self.old self.new (take (to - from) (drop from self.old.text.list.items))) }
    {
        self.text.repeat(from as usize, to as usize)
    }

    /// Removes what was written up to a place, if anything was. Then no candidates remain, except
    /// in the symbol of a local entity, where all of them become nowhere.
    #[inline(always)]
    pub(crate) fn cut(&mut self, s: &[u8], start: u32) -> Option<()>
        ensures { OnSome result (Cuts s.now self.old self.new start) }
    {
        if start == 0 {
            return Some(());
        }
        if start > self.text.end() {
            return None;
        }
        self.text.drop_first(start as usize);
        if is_local(s) {
            self.hide_all();
            return Some(());
        }
        self.candidates.begin(0);
        Some(())
    }

    /// Removes what was written after a place. No candidates remain, except in the symbol of a
    /// local entity, where all of them become nowhere.
    #[inline(always)]
    pub(crate) fn keep(&mut self, s: &[u8], end: u32)
        requires within { end ≤ length self.old.text.list.items }
        ensures { Leaves s.now self.old self.new end }
    {
        self.text.keep_first(end as usize);
        if is_local(s) {
            self.hide_all();
            return;
        }
        self.candidates.begin(0);
    }

    /// The texts of all candidates are nowhere from here on.
    #[inline(never)]
    fn hide_all(&mut self)
        ensures candidates { AreLeft hidings.All self.old.candidates.list.items self.new.candidates.list.items }
        ensures text { self.new.text ≡ self.old.text }
        ensures scope { self.new.has_scope ≡ self.old.has_scope }
        ensures at { self.new.at ≡ self.old.at }
    {
        hide(&mut self.candidates, Hiding::All);
    }

    /// Removes what was written after a place. Candidates that end after that place are then
    /// nowhere.
    pub(crate) fn leave_out(&mut self, to: u32) -> Option<()>
        requires within { to ≤ length self.old.text.list.items }
        ensures text { OnSome result (self.new.text.list.items ≡ take to self.old.text.list.items) }
        ensures candidates { OnSome result (AreLeft (hidings.After to) self.old.candidates.list.items self.new.candidates.list.items) }
        ensures open { OnSome result (self.new.waiting ≡ self.old.waiting) }
        ensures scope { OnSome result (self.new.has_scope ≡ self.old.has_scope) }
        ensures at { OnSome result (self.new.at ≡ self.old.at) }
    {
        self.text.keep_first(to as usize);
        hide(&mut self.candidates, Hiding::After { to });
        Some(())
    }

    /// The arguments that types may name can't be named any more. Candidates that name them lose
    /// their text.
    pub(crate) fn end_scope(&mut self)
        ensures candidates { AreLeft hidings.Dependent self.old.candidates.list.items self.new.candidates.list.items }
        ensures scope { self.new.has_scope ≡ false }
        ensures text { self.new.text ≡ self.old.text }
        ensures open { self.new.waiting ≡ self.old.waiting }
        ensures at { self.new.at ≡ self.old.at }
    {
        self.has_scope = false;
        hide(&mut self.candidates, Hiding::Dependent);
    }

    /// Opens an entry that waits for a type.
    #[inline(always)]
    pub(crate) fn open_type(&mut self, entry: Open, step: Step) -> Option<Step>
        ensures { IfSome result (λ next. (next ≡ step) × OpensEntry self.old self.new entry) }
    {
        self.at = self.at.checked_add(1)?;
        self.waiting.push(entry)?;
        Some(step)
    }

    /// Opens arguments, after a bracket, or after a mark where they are to be left out.
    // <template-args> ::= I <template-arg>* E
    #[inline(always)]
    pub(crate) fn open_arguments<G: Grammar>(&mut self, entry: Open) -> Option<Step>
        ensures { IfSome result (λ next. (next ≡ steps.List true) × OpensArguments (detail_by G.IS_BARE G.IS_BRIEF) self.old self.new entry) }
    {
        self.push_byte(if G::IS_BRIEF { OPENS } else { b'<' })?;
        self.open_type(entry, Step::List { is_first: true })
    }

    /// Ends arguments with a bracket, or with a mark where they are to be left out.
    #[inline(always)]
    pub(crate) fn end_arguments<G: Grammar>(&mut self) -> Option<()>
        ensures { OnSome result (Writes self.old self.new (closing_bracket (detail_by G.IS_BARE G.IS_BRIEF))) }
    {
        self.push_byte(if G::IS_BRIEF { CLOSES } else { b'>' })
    }
}

/// Whether a candidate keeps its text.
#[inline(always)]
fn stays(hiding: Hiding, candidate: Candidate) -> bool
    ensures { result ≡ true → Stays hiding candidate }
{
    match hiding {
        Hiding::After { to } => candidate.to <= to,
        Hiding::Dependent => !candidate.is_dependent,
        Hiding::All => false,
    }
}

/// The candidates that don't keep their texts become nowhere.
#[inline(always)]
fn hide(candidates: &mut Bounded<Candidate>, hiding: Hiding)
    ensures { AreLeft hiding candidates.old.list.items candidates.new.list.items }
{
    let mut at = 0;
    'candidates: while at < candidates.len() {
        if !stays(hiding, candidates.as_slice()[at]) {
            candidates.put(at, HIDDEN);
        }
        at += 1;
    }
}
