// The trees that a substitution may name, and their numbers in the two lists that compilers may have (ABI 5.1.10).

ghost use Rattle.std.specs.Prelude.{◌≡◌, ℕ, ◌<◌, ◌≤◌, ◌+◌, ◌∷◌, ◌++◌, [], MatchOption, List, length, vec_capacity, false, true, IfErr, OnOk, OnErr};
ghost use Rattle.sym_core.specs.declared.refusal.Refusal.TheVariants as refusals;
ghost use Rattle.cpp_grammar.specs.Rescoping.{is_by_all, is_by_newer};
ghost use Rattle.cpp_term.specs.Term.{Term};
ghost use Rattle.cpp_term.specs.Rescoping.{place_in};
ghost use Rattle.cpp_references.specs.Around.{candidates_of, counted_of, AreNodesThere};
ghost use Rattle.cpp_references.specs.declared.candidates.Counted.TheVariants as counts;
ghost use Rattle.cpp_link.specs.Counting.{marks, with_place, candidate_by, IsCounted, IsPushed, AreNumbered};

use crate::counting::Counted;
use crate::part::{Candidate, Surroundings};
use std::alloc::Global;
use sym_core::Refusal;
use sym_link::parts::push_part;

/// The trees that a substitution may name, in the order in which they were made. If n of them are
/// in the longer list, the first n entries hold their places; likewise for the shorter list.
#[derive(Drop)]
pub struct Candidates {
    pub list: Vec<Candidate>,
    /// The number of candidates that aren't in the longer list.
    pub not_longer: usize,
    /// The number of candidates that aren't in the shorter list.
    pub not_shorter: usize,
    /// Which compilers count the longer list.
    pub by: Counted,
}

/// Makes the entry with this number hold this place for the longer list.
fn place_longer(list: &mut Vec<Candidate>, number: usize, place: usize)
    requires number { number < length list.old.items }
    ensures items { list.new.items ≡ with_place false list.old.items number place }
    ensures room { vec_capacity list.new ≡ vec_capacity list.old }
{
    let candidate = list[number];
    list[number] = Candidate {
        longer: place,
        ..candidate
    };
}

/// Makes the entry with this number hold this place for the shorter list.
fn place_shorter(list: &mut Vec<Candidate>, number: usize, place: usize)
    requires number { number < length list.old.items }
    ensures items { list.new.items ≡ with_place true list.old.items number place }
    ensures room { vec_capacity list.new ≡ vec_capacity list.old }
{
    let candidate = list[number];
    list[number] = Candidate {
        shorter: place,
        ..candidate
    };
}

/// How many candidates the shorter list leaves out, if a name with its `M` follows a candidate that
/// these compilers count.
fn count_left_out(before: Counted) -> usize
    ensures { result ≡ elim (is_by_all (counted_of before)) [ true ↦ 2 | false ↦ 1 ] }
{
    if before.is_by_all() {
        return 2;
    }
    1
}

impl Candidates {
    /// A list without candidates.
    pub fn new(alloc: Global) -> Candidates {
        Candidates {
            list: Vec::new(alloc),
            not_longer: 0,
            not_shorter: 0,
            by: Counted::ByAll,
        }
    }

    /// Forgets the candidates, and keeps their memory.
    pub fn clear(&mut self)
        ensures items { self.new.list.items ≡ [] }
        ensures counted { IsCounted self.new }
    {
        self.list.clear();
        self.not_longer = 0;
        self.not_shorter = 0;
        self.by = Counted::ByAll;
    }

    /// Whether both lists are the same.
    #[inline(always)]
    pub fn is_one_list(&self) -> bool
        ensures { result ≡ is_by_all (counted_of self.now.by) }
    {
        self.by.is_by_all()
    }

    /// The last candidate, which all compilers count, is in both lists.
    fn number_in_both(&mut self, own: usize)
        requires pushed { IsPushed self.old own counts.ByAll }
        ensures { AreNumbered self.old self.new }
    {
        place_longer(&mut self.list, own - self.not_longer, own);
        place_shorter(&mut self.list, own - self.not_shorter, own);
    }

    /// The last candidate, a name with its `M`, takes the place of the one before it in the longer list, and the shorter list has
    /// neither of the two.
    fn number_holder(&mut self, own: usize)
        requires pushed { IsPushed self.old own counts.ByNewer }
        ensures { AreNumbered self.old self.new }
    {
        self.by = self.by.joined(Counted::ByNewer);
        if own == 0 {
            self.not_shorter = 1;
            return;
        }
        let before = self.list[own - 1].counted;
        self.not_longer += 1;
        self.not_shorter += count_left_out(before);
        place_longer(&mut self.list, own - self.not_longer, own);
    }

    /// The last candidate, which these compilers count, is in the longer list.
    fn number_in_longer(&mut self, own: usize, counted: Counted)
        requires pushed { IsPushed self.old own counted }
        requires some { is_by_all (counted_of counted) ≡ false }
        requires other { is_by_newer (counted_of counted) ≡ false }
        ensures { AreNumbered self.old self.new }
    {
        self.by = self.by.joined(counted);
        self.not_shorter += 1;
        place_longer(&mut self.list, own - self.not_longer, own);
    }

    /// The last candidate, which these compilers count, is numbered.
    fn number_apart(&mut self, own: usize, counted: Counted)
        requires pushed { IsPushed self.old own counted }
        ensures { AreNumbered self.old self.new }
    {
        match counted {
            Counted::ByAll => self.number_in_both(own),
            Counted::ByNewer => self.number_holder(own),
            Counted::ByGcc => self.number_in_longer(own, Counted::ByGcc),
            Counted::ByClang => self.number_in_longer(own, Counted::ByClang),
            Counted::BySome => self.number_in_longer(own, Counted::BySome),
        }
    }

    /// Likewise; where all compilers count alike, the candidate holds its own place.
    #[inline(always)]
    fn number(&mut self, own: usize, counted: Counted)
        requires pushed { IsPushed self.old own counted }
        ensures { AreNumbered self.old self.new }
    {
        if counted.is_by_all() && self.is_one_list() {
            return;
        }
        self.number_apart(own, counted);
    }

    /// A tree becomes a candidate, which is counted by these compilers.
    ///
    /// # Errors
    ///
    /// `Memory` where the list couldn't grow.
    #[inline(always)]
    pub(crate) fn push(
        &mut self,
        kept: Surroundings,
        node: u32,
        counted: Counted,
    ) -> Result<(), Refusal>
        requires counted { IsCounted self.old }
        ensures is { OnOk result ((ts : List Term) → candidates_of ts self.new.list.items ≡ candidates_of ts self.old.list.items ++ candidate_by ts kept node counted ∷ []) }
        ensures there { OnOk result ((n : ℕ) → AreNodesThere n self.old.list.items → node < n → AreNodesThere n self.new.list.items) }
        ensures counted { OnOk result (IsCounted self.new) }
        ensures memory { IfErr result (λ e. e ≡ refusals.Memory) }
        ensures keeps { vec_capacity self.old.list ≤ vec_capacity self.new.list }
        ensures full { OnErr result (vec_capacity self.old.list < length self.new.list.items + 1) }
    {
        let own = self.list.len();
        let candidate = Candidate {
            node,
            encoding: kept.encoding,
            longer: own,
            shorter: own,
            in_lambda: kept.in_lambda(),
            counted,
        };
        push_part(&mut self.list, candidate)?;
        self.number(own, counted);
        Ok(())
    }

    /// The place, among all candidates, of the candidate with this number in the longer list.
    pub(crate) fn longer_place(&self, number: u64) -> Option<usize>
        requires counted { IsCounted self.now }
        ensures { MatchOption result (length self.now.list.items ≤ place_in false (marks self.now.list.items) number) (λ place. (place ≡ place_in false (marks self.now.list.items) number) × (place < length self.now.list.items)) }
    {
        let count = self.list.len() - self.not_longer;
        if number < count as u64 {
            return Some(self.list[number as usize].longer);
        }
        None
    }

    /// The place, among all candidates, of the candidate with this number in the shorter list.
    pub(crate) fn shorter_place(&self, number: u64) -> Option<usize>
        requires counted { IsCounted self.now }
        ensures { MatchOption result (length self.now.list.items ≤ place_in true (marks self.now.list.items) number) (λ place. (place ≡ place_in true (marks self.now.list.items) number) × (place < length self.now.list.items)) }
    {
        let count = self.list.len() - self.not_shorter;
        if number < count as u64 {
            return Some(self.list[number as usize].shorter);
        }
        None
    }
}
