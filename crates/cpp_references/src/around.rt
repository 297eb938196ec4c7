// What surrounds a part of a symbol: the name so far, what parameters name, packs.

ghost use Rattle.std.specs.Prelude.{◌≡◌, ℕ, List};
ghost use Rattle.cpp_term.specs.Term.{Term};
ghost use Rattle.cpp_references.specs.Around.{scope_of, is_lambda, is_constraint, is_literal, name_of, packs_of, around_of, IsKeptThere};

/// The name so far, and whether it is a candidate already or never becomes one.
#[derive(Clone, Copy)]
pub enum Prefix {
    Outermost,
    Behind { node: u32, listed: bool },
}

/// What parameters name: nothing; nothing in the signature of a lambda or in the declaration of an
/// argument; nothing in a constraint; nothing where a literal in a constraint begins an encoding;
/// or arguments.
#[derive(Clone, Copy)]
pub enum Scope {
    Nothing,
    Lambda,
    Constraint,
    Literal,
    Arguments,
}

/// Whether there is a name so far, and whether it is a candidate already or never becomes one.
#[derive(Clone, Copy)]
pub enum Naming {
    Outermost,
    Unlisted,
    Listed,
}

/// What surrounds a part, and the length that the packs had where its rule began.
///
/// The fields leave no gap in memory, since the struct is passed from call to call.
#[derive(Clone, Copy)]
pub struct Surroundings {
    /// The arguments that parameters name, if `scope` says that they name some.
    pub arguments: u32,
    /// The place where the innermost encoding begins.
    pub encoding: u32,
    /// The name so far, if `naming` says that there is one.
    pub name: u32,
    /// The length of the packs, if there are any.
    pub pack_length: u32,
    pub scope: Scope,
    pub naming: Naming,
    pub has_packs: bool,
    pub in_expansion: bool,
}

impl Surroundings {
    /// The arguments that parameters name.
    #[tactic(auto, unfolding(crate::specs::Around::arguments_in))]
    #[inline(always)]
    pub fn in_scope(self) -> Option<u32>
        ensures { result ≡ scope_of self }
    {
        match self.scope {
            Scope::Nothing => None,
            Scope::Lambda => None,
            Scope::Constraint => None,
            Scope::Literal => None,
            Scope::Arguments => Some(self.arguments),
        }
    }

    /// Whether the part is in the signature of a lambda, in the declaration of an argument, or in a
    /// constraint.
    #[tactic(auto, unfolding(crate::specs::Around::is_lambda))]
    #[inline(always)]
    pub fn in_lambda(self) -> bool
        ensures { result ≡ is_lambda self.scope }
    {
        match self.scope {
            Scope::Nothing => false,
            Scope::Lambda => true,
            Scope::Constraint => true,
            Scope::Literal => true,
            Scope::Arguments => false,
        }
    }

    /// Whether the part is in a constraint.
    #[tactic(auto, unfolding(crate::specs::Around::is_constraint))]
    #[inline(always)]
    pub fn is_unseen(self) -> bool
        ensures { result ≡ is_constraint self.scope }
    {
        match self.scope {
            Scope::Constraint => true,
            _ => false,
        }
    }

    /// Whether the encoding of a literal in a constraint begins here.
    #[tactic(auto, unfolding(crate::specs::Around::is_literal))]
    #[inline(always)]
    pub fn is_passed_over(self) -> bool
        ensures { result ≡ is_literal self.scope }
    {
        match self.scope {
            Scope::Literal => true,
            _ => false,
        }
    }

    /// The name so far.
    #[tactic(auto, unfolding(crate::specs::Around::prefix_in))]
    #[inline(always)]
    pub fn prefix(self) -> Prefix
        ensures { result ≡ name_of self }
    {
        let node = self.name;
        match self.naming {
            Naming::Outermost => Prefix::Outermost,
            Naming::Unlisted => Prefix::Behind {
                node,
                listed: false,
            },
            Naming::Listed => Prefix::Behind { node, listed: true },
        }
    }

    /// The length of the packs where the rule began.
    #[tactic(auto, unfolding(crate::specs::Around::packs_in))]
    #[inline(always)]
    pub fn packs(self) -> Option<u32>
        ensures { result ≡ packs_of self }
    {
        if self.has_packs {
            Some(self.pack_length)
        } else {
            None
        }
    }

    /// The same surroundings, for a rule that begins when the packs have this length.
    #[tactic(auto, unfolding(crate::specs::Around::around_of, crate::specs::Around::packs_in))]
    #[inline(always)]
    pub fn with_packs(self, packs: Option<u32>) -> Surroundings
        ensures around { (ts : List Term) → around_of ts result ≡ around_of ts self }
        ensures there { (n : ℕ) → IsKeptThere n self → IsKeptThere n result }
        ensures packs { packs_of result ≡ packs }
    {
        let mut kept = self;
        match packs {
            Some(pack_length) => {
                kept.pack_length = pack_length;
                kept.has_packs = true;
            }
            None => {
                kept.has_packs = false;
            }
        }
        kept
    }
}
