// What printing has cost, and what it may cost.
#![tactic(auto)]

ghost use Rattle.std.specs.Prelude.{◌≡◌, ◌+◌, ◌*◌, ◌<◌, ◌≤◌, nat_le};

/// What was spent of a limit, and in how many steps. The steps of texts that are joined are counted before the texts are paid for.
#[derive(Clone, Copy)]
pub(crate) struct Meter {
    pub(crate) spent: u32,
    pub(crate) limit: u32,
    pub(crate) steps: u64,
    ghost limit_fits: { limit ≤ 4294967295 },
    ghost within_limit: { spent ≤ limit },
    ghost steps_fit: { steps ≤ 2 * spent },
}

impl Meter {
    /// Nothing spent of `limit`, and no step.
    pub(crate) fn new(limit: u32) -> Meter
        ensures spent { result.spent ≡ 0 }
        ensures limit { result.limit ≡ limit }
        ensures steps { result.steps ≡ 0 }
    {
        Meter {
            spent: 0,
            limit,
            steps: 0,
        }
    }

    /// A copy whose limit allows at most `more` to be spent, and no more than this meter's limit allows.
    pub(crate) fn for_at_most(&self, more: u32) -> Meter
        ensures spent { result.spent ≡ self.now.spent }
        ensures limit { result.limit ≤ self.now.limit }
        ensures steps { result.steps ≡ self.now.steps }
    {
        let limit = self.spent.saturating_add(more);
        Meter {
            spent: self.spent,
            limit: if limit < self.limit {
                limit
            } else {
                self.limit
            },
            steps: self.steps,
        }
    }

    /// Takes over what another meter has spent, and how many steps it counted.
    pub(crate) fn follow(&mut self, other: &Meter)
        requires within { other.now.spent ≤ self.old.limit }
        ensures spent { self.new.spent ≡ other.now.spent }
        ensures limit { self.new.limit ≡ self.old.limit }
        ensures steps { self.new.steps ≡ other.now.steps }
    {
        *self = Meter {
            spent: other.spent,
            limit: self.limit,
            steps: other.steps,
        };
    }

    /// Whether `cost` can still be spent.
    pub(crate) fn affords(&self, cost: usize) -> bool
        ensures { result ≡ nat_le (self.now.spent + cost) self.now.limit }
    {
        cost <= (self.limit - self.spent) as usize
    }

    /// Spends `cost` in one step.
    pub(crate) fn pay(&mut self, cost: usize)
        requires some { 0 < cost }
        requires affords { self.old.spent + cost ≤ self.old.limit }
        ensures spent { self.new.spent ≡ self.old.spent + cost }
        ensures limit { self.new.limit ≡ self.old.limit }
        ensures steps { self.new.steps ≡ self.old.steps + 1 }
    {
        *self = Meter {
            spent: self.spent + cost as u32,
            limit: self.limit,
            steps: self.steps + 1,
        };
    }

    /// Lowers the count of steps to what was spent, if the count is greater.
    pub(crate) fn settle(&mut self)
        ensures spent { self.new.spent ≡ self.old.spent }
        ensures limit { self.new.limit ≡ self.old.limit }
        ensures paid { self.new.steps ≤ self.new.spent }
        ensures same { self.old.steps ≤ self.old.spent → self.new.steps ≡ self.old.steps }
    {
        *self = Meter {
            spent: self.spent,
            limit: self.limit,
            steps: if self.steps <= u64::from(self.spent) {
                self.steps
            } else {
                u64::from(self.spent)
            },
        };
    }

    /// Spends `cost` in n steps at once.
    pub(crate) fn pay_steps(&mut self, cost: u32, steps: u64)
        requires affords { self.old.spent + cost ≤ self.old.limit }
        requires fit { steps ≤ 2 * cost }
        ensures spent { self.new.spent ≡ self.old.spent + cost }
        ensures limit { self.new.limit ≡ self.old.limit }
        ensures steps { self.new.steps ≡ self.old.steps + steps }
    {
        *self = Meter {
            spent: self.spent + cost,
            limit: self.limit,
            steps: self.steps + steps,
        };
    }
}
