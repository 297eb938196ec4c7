// The components so far.
#![tactic(auto)]

ghost use Rattle.std.specs.Prelude.{◌≡◌, ◌+◌, cond, None, Some, OnOk, IfOk, IfErr};
ghost use Rattle.sym_core.specs.declared.Refusal.TheVariants.{Memory};
ghost use Rattle.cpp_press.specs.Places.{has_place, known_in, like, noted};
ghost use Rattle.cpp_press.specs.declared.components.Likeness.{Likeness};

use std::alloc::Global;
use std::collections::BTreeMap;
use sym_core::Refusal;

/// The likeness of a component: components with one likeness have one tree and, if it has free parameters, one
/// encoding.
#[derive(Clone, Copy, PartialEq, Eq, PartialOrd, Ord)]
pub struct Likeness {
    pub number: u32,
    pub encoding: u64,
}

/// How many components there are, and the number of the first component with each likeness.
#[derive(Drop)]
pub struct Components {
    /// The numbers of the first components that belong to no encoding, each at the number of its
    /// tree.
    pub closed: Vec<Option<u64>>,
    /// All other first components.
    pub first: BTreeMap<Likeness, u64>,
    pub count: u64,
}

impl Components {
    /// No components yet. The trees of components will have numbers below `numbers`.
    ///
    /// # Errors
    ///
    /// Only `Memory`.
    pub fn new(alloc: Global, numbers: usize) -> Result<Components, Refusal>
        ensures first { IfOk result (λ made. (q : Likeness) → known_in made q ≡ None) }
        ensures count { IfOk result (λ made. made.count ≡ 0) }
        ensures memory { IfErr result (λ e. e ≡ Memory) }
    {
        let closed = vec![in alloc; None; numbers]?;
        Ok(Components {
            closed,
            first: BTreeMap::new(alloc),
            count: 0,
        })
    }

    /// Whether the first component with a likeness is kept in `closed`, at the number of its tree.
    fn has_place(&self, likeness: Likeness) -> bool
        ensures { result ≡ has_place self.now.closed.items likeness }
    {
        likeness.encoding == 0 && (likeness.number as usize) < self.closed.len()
    }

    /// The number of the first component with a likeness.
    pub fn first(&self, likeness: Likeness) -> Option<u64>
        ensures { result ≡ known_in self.now likeness }
    {
        if self.has_place(likeness) {
            return self.closed[likeness.number as usize];
        }
        match self.first.get(&likeness) {
            Some(first) => Some(*first),
            None => None,
        }
    }

    /// Counts one more component, with this likeness.
    ///
    /// # Errors
    ///
    /// Only `Memory`.
    pub fn push(&mut self, likeness: Likeness) -> Result<(), Refusal>
        ensures first { OnOk result ((q : Likeness) → known_in self.new q ≡ noted (known_in self.old) likeness self.old.count q) }
        ensures count { OnOk result (self.new.count ≡ self.old.count + 1) }
        ensures memory { IfErr result (λ e. e ≡ Memory) }
    {
        let Some(next) = self.count.checked_add(1) else {
            return Err(Refusal::Memory);
        };
        if self.first(likeness).is_none() {
            self.note(likeness)?;
        }
        self.count = next;
        Ok(())
    }

    /// Notes the next component as the first with this likeness.
    fn note(&mut self, likeness: Likeness) -> Result<(), Refusal>
        ensures first { OnOk result ((q : Likeness) → known_in self.new q ≡ cond (like likeness q) (Some self.old.count) (known_in self.old q)) }
        ensures count { OnOk result (self.new.count ≡ self.old.count) }
        ensures memory { IfErr result (λ e. e ≡ Memory) }
    {
        if self.has_place(likeness) {
            self.closed[likeness.number as usize] = Some(self.count);
            return Ok(());
        }
        self.first.insert(likeness, self.count)?;
        Ok(())
    }
}
