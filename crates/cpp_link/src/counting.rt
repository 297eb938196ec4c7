// Which candidates compilers count, where they differ (ABI 5.1.10).

ghost use Rattle.cpp_grammar.specs.Rescoping as rescoping;
ghost use Rattle.std.specs.Prelude.{◌≡◌, ◌||◌, not, nat_eq, List};
ghost use Rattle.cpp_term.specs.Term.{Term};
ghost use Rattle.cpp_term.specs.Rescoping.{expecting_item};
ghost use Rattle.cpp_references.specs.Around.{is_lambda, around_of};
ghost use Rattle.cpp_link.specs.Counting.{lists_of, expected_of, awaited_of, counting_of};

use crate::part::Surroundings;
pub use cpp_references::candidates::Counted;

/// The lists of candidates of the compilers that may have made the symbol: the longer one has the
/// candidates that some compiler counts, and the shorter one those that all compilers count.
#[derive(Clone, Copy)]
pub enum Lists {
    Both,
    Longer,
    Shorter,
    Neither,
}

/// The place of the last `S` with something known about what it names: the `S` begins a nested
/// name, is a type under qualifiers, or is a parameter type of a lambda's function, with this head.
#[derive(Clone, Copy)]
pub enum Expected {
    Anything,
    PrefixAt(u32),
    QualifiedAt(u32),
    ItemAt(u32, u8),
}

/// The heads of the next four types of the encoding that begins at this place; 0 for a type with an
/// unknown head. They are the heads of a lambda's types, and are awaited once the name continues
/// after the lambda.
#[derive(Clone, Copy)]
pub struct Awaited {
    pub encoding: u32,
    pub is_called: bool,
    pub first: u8,
    pub second: u8,
    pub third: u8,
    pub fourth: u8,
}

/// Which lists remain, what is expected, and what is awaited.
#[derive(Clone, Copy)]
pub struct Counting {
    pub lists: Lists,
    pub expected: Expected,
    pub awaited: Awaited,
}

/// Both lists remain, nothing is expected, and nothing is known of any type.
pub const NOTHING_COUNTED: Counting = Counting {
    lists: Lists::Both,
    expected: Expected::Anything,
    awaited: NOTHING_AWAITED,
};

/// Nothing is known of any type.
pub const NOTHING_AWAITED: Awaited = Awaited {
    encoding: 0,
    is_called: false,
    first: 0,
    second: 0,
    third: 0,
    fourth: 0,
};

impl Awaited {
    /// Whether no type is awaited in these surroundings.
    fn is_none_of(self, kept: Surroundings) -> bool
        ensures { result ≡ ((is_lambda kept.scope || not self.is_called) || not (nat_eq self.encoding kept.encoding)) }
    {
        kept.in_lambda() || !self.is_called || self.encoding != kept.encoding
    }

    /// What is awaited after the first of these types.
    #[tactic(auto, unfolding(cpp_grammar::specs::Rescoping::behind_first))]
    pub fn behind_first(self) -> Awaited
        ensures { awaited_of result ≡ rescoping.behind_first (awaited_of self) }
    {
        Awaited {
            encoding: self.encoding,
            is_called: self.is_called,
            first: self.second,
            second: self.third,
            third: self.fourth,
            fourth: 0,
        }
    }

    /// What is awaited when another type comes before these types.
    #[tactic(auto, unfolding(cpp_grammar::specs::Rescoping::behind_another))]
    pub fn behind_another(self) -> Awaited
        ensures { awaited_of result ≡ rescoping.behind_another (awaited_of self) }
    {
        Awaited {
            encoding: self.encoding,
            is_called: self.is_called,
            first: 0,
            second: self.first,
            third: self.second,
            fourth: self.third,
        }
    }
}

impl Counting {
    /// A type begins at this place in these surroundings: if types of its encoding are awaited, the
    /// first awaited head is expected.
    pub fn expecting_item(self, kept: Surroundings, place: u32) -> Counting
        ensures { (ts : List Term) → counting_of result ≡ expecting_item (around_of ts kept) place (counting_of self) }
    {
        if self.awaited.is_none_of(kept) {
            return self;
        }
        Counting {
            lists: self.lists,
            expected: Expected::ItemAt(place, self.awaited.first),
            awaited: self.awaited.behind_first(),
        }
    }

    /// A piece of a name begins: after a lambda, it names a function of the lambda.
    #[tactic(auto, unfolding(cpp_grammar::specs::Rescoping::calling))]
    pub fn calling(self) -> Counting
        ensures { counting_of result ≡ rescoping.calling (counting_of self) }
    {
        Counting {
            lists: self.lists,
            expected: self.expected,
            awaited: Awaited {
                is_called: true,
                ..self.awaited
            },
        }
    }

    /// A nested name ends: if it ends with a lambda, no types are awaited.
    #[tactic(auto, unfolding(cpp_grammar::specs::Rescoping::ending))]
    pub fn ending(self) -> Counting
        ensures { counting_of result ≡ rescoping.ending (counting_of self) }
    {
        if self.awaited.is_called {
            return self;
        }
        Counting {
            lists: self.lists,
            expected: self.expected,
            awaited: NOTHING_AWAITED,
        }
    }
}

impl Expected {
    /// Whether the `S` at this place is what a nested name begins with.
    #[tactic(auto, unfolding(crate::specs::Counting::expected_of, cpp_grammar::specs::Rescoping::is_prefix_at))]
    pub fn is_prefix_at(self, place: u32) -> bool
        ensures { result ≡ rescoping.is_prefix_at place (expected_of self) }
    {
        match self {
            Expected::Anything => false,
            Expected::PrefixAt(at) => at == place,
            Expected::QualifiedAt(_) => false,
            Expected::ItemAt(_, _) => false,
        }
    }

    /// Whether the `S` at this place is a type under qualifiers.
    #[tactic(auto, unfolding(crate::specs::Counting::expected_of, cpp_grammar::specs::Rescoping::is_qualified_at))]
    pub fn is_qualified_at(self, place: u32) -> bool
        ensures { result ≡ rescoping.is_qualified_at place (expected_of self) }
    {
        match self {
            Expected::Anything => false,
            Expected::PrefixAt(_) => false,
            Expected::QualifiedAt(at) => at == place,
            Expected::ItemAt(_, _) => false,
        }
    }

    /// The head of what the `S` at this place names, as far as it is known.
    #[tactic(auto, unfolding(crate::specs::Counting::expected_of, cpp_grammar::specs::Rescoping::head_at))]
    pub fn head_at(self, place: u32) -> u8
        ensures { result ≡ rescoping.head_at place (expected_of self) }
    {
        match self {
            Expected::Anything => 0,
            Expected::PrefixAt(_) => 0,
            Expected::QualifiedAt(_) => 0,
            Expected::ItemAt(at, head) => {
                if at == place {
                    return head;
                }
                0
            }
        }
    }
}

/// The lists that remain where the two lists name different candidates, by whether each candidate
/// fits.
#[tactic(auto, unfolding(crate::specs::Counting::lists_of, cpp_grammar::specs::Rescoping::left))]
pub fn left(lists: Lists, longer_fits: bool, shorter_fits: bool) -> Lists
    ensures { lists_of result ≡ rescoping.left (lists_of lists) longer_fits shorter_fits }
{
    match lists {
        Lists::Both => {
            if longer_fits {
                if shorter_fits {
                    return Lists::Neither;
                }
                return Lists::Longer;
            }
            if shorter_fits {
                return Lists::Shorter;
            }
            Lists::Neither
        }
        Lists::Longer => {
            if longer_fits {
                return Lists::Longer;
            }
            Lists::Neither
        }
        Lists::Shorter => {
            if shorter_fits {
                return Lists::Shorter;
            }
            Lists::Neither
        }
        Lists::Neither => Lists::Neither,
    }
}

/// Likewise; but if both candidates fit, the lists that remain depend on whether each candidate may
/// have the expected head.
#[tactic(auto, unfolding(crate::specs::Counting::lists_of, cpp_grammar::specs::Rescoping::left, cpp_grammar::specs::Rescoping::left_by))]
pub fn left_by(
    lists: Lists,
    longer_fits: bool,
    shorter_fits: bool,
    longer_has: bool,
    shorter_has: bool,
) -> Lists
    ensures { lists_of result ≡ rescoping.left_by (lists_of lists) longer_fits shorter_fits longer_has shorter_has }
{
    match lists {
        Lists::Both => {
            if longer_fits {
                if shorter_fits {
                    return left(Lists::Both, longer_has, shorter_has);
                }
                return Lists::Longer;
            }
            if shorter_fits {
                return Lists::Shorter;
            }
            Lists::Neither
        }
        Lists::Longer => left(Lists::Longer, longer_fits, shorter_fits),
        Lists::Shorter => left(Lists::Shorter, longer_fits, shorter_fits),
        Lists::Neither => Lists::Neither,
    }
}
