// What is sought in an outline.
#![tactic(auto)]

ghost use Rattle.std.specs.Prelude.{◌≡◌};
ghost use Rattle.cpp_spelled.specs.Sorts.{is};

use crate::sort::Sort;

/// What is sought in an outline: rows of a sort, or of the sorts from one to another.
#[derive(Clone, Copy)]
pub(crate) struct Sought {
    pub(crate) first: Sort,
    pub(crate) last: Sort,
}

impl Sought {
    /// Whether a row of this sort is sought.
    #[tactic(auto, unfolding(crate::specs::Sorts::is))]
    pub(crate) fn is(self, sort: Sort) -> bool
        ensures { result ≡ is self sort }
    {
        self.first.number() <= sort.number() && sort.number() <= self.last.number()
    }
}

/// Rows that are passed over with all rows within them.
pub(crate) const PASSED_OVER: Sought = Sought {
    first: Sort::Closed,
    last: Sort::Temporary,
};

pub(crate) const SUFFIX: Sought = Sought {
    first: Sort::Suffix,
    last: Sort::Suffix,
};

/// Special names without their `T` or `G`.
pub(crate) const OBJECT: Sought = Sought {
    first: Sort::Object,
    last: Sort::Temporary,
};

pub(crate) const SPECIAL: Sought = Sought {
    first: Sort::Special,
    last: Sort::Special,
};

/// Special names, functions and objects.
pub(crate) const ANY_ENCODING: Sought = Sought {
    first: Sort::Special,
    last: Sort::Encoding,
};

pub(crate) const ENCODING: Sought = Sought {
    first: Sort::Encoding,
    last: Sort::Encoding,
};

pub(crate) const LOCAL: Sought = Sought {
    first: Sort::Local,
    last: Sort::Local,
};

pub(crate) const NESTED: Sought = Sought {
    first: Sort::Nested,
    last: Sort::Nested,
};

pub(crate) const BEGIN: Sought = Sought {
    first: Sort::Begin,
    last: Sort::Begin,
};

/// Components; the last one contains the base.
pub(crate) const COMPONENT: Sought = Sought {
    first: Sort::Component,
    last: Sort::Whole,
};

pub(crate) const IN_STD: Sought = Sought {
    first: Sort::InStd,
    last: Sort::InStd,
};

pub(crate) const WHOLE: Sought = Sought {
    first: Sort::Whole,
    last: Sort::Whole,
};

pub(crate) const TEMPORARY: Sought = Sought {
    first: Sort::Temporary,
    last: Sort::Temporary,
};

/// What may follow the base.
pub(crate) const AFTER_BASE: Sought = Sought {
    first: Sort::Tag,
    last: Sort::End,
};

pub(crate) const TAG: Sought = Sought {
    first: Sort::Tag,
    last: Sort::Tag,
};

pub(crate) const ARGUMENT_LIST: Sought = Sought {
    first: Sort::ArgumentList,
    last: Sort::ArgumentList,
};

pub(crate) const ARGUMENT: Sought = Sought {
    first: Sort::Argument,
    last: Sort::Argument,
};

pub(crate) const ELEMENT: Sought = Sought {
    first: Sort::Element,
    last: Sort::Element,
};

pub(crate) const PARAMETER: Sought = Sought {
    first: Sort::Parameter,
    last: Sort::Parameter,
};
