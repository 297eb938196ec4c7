// How the rows of a shape relate to the parts of a name.
#![tactic(auto)]

ghost use Rattle.std.specs.Prelude.{◌≡◌};
ghost use Rattle.cpp_spelled.specs.Sorts.{number_of_sort};

/// How a row relates to the parts of a name, by its production. Sorts that are sought together follow one another.
#[derive(Clone, Copy)]
pub(crate) enum Sort {
    /// A type, a literal, a token, or another row that contains no part of the name.
    Closed,
    /// The suffix after the encoding.
    Suffix,
    /// A special name, without its `T` or `G`, that belongs to a type, a name, an argument or a module.
    Object,
    /// A special name that belongs to a temporary.
    Temporary,
    /// The symbol, a thunk, a clone, or another row around parts of the name.
    Opened,
    /// A special name.
    Special,
    /// The encoding of a function or an object.
    Encoding,
    /// A `<local-name>`.
    Local,
    /// A `<nested-name>`.
    Nested,
    /// What is after the qualifiers of a nested name, or an `<unscoped-name>` or a template that begins with an `S`.
    Begin,
    /// A component; without its tags and arguments it is the base.
    Component,
    /// An `St` and a component.
    InStd,
    /// A substitution, or an abbreviation of one, that is both the scope and the base.
    Whole,
    /// An `<abi-tag>`.
    Tag,
    /// `<template-args>`.
    ArgumentList,
    /// The `E` of a nested name.
    End,
    /// A `<template-arg>`, and those after it.
    Argument,
    /// A `<template-arg>` of a pack, and those after it.
    Element,
    /// A type of a `<bare-function-type>`, and those after it.
    Parameter,
}

impl Sort {
    /// The number of a sort, in the order of the sorts.
    #[tactic(auto, unfolding(crate::specs::Sorts::number_of_sort))]
    pub(crate) fn number(self) -> u8
        ensures { result ≡ number_of_sort self }
    {
        match self {
            Sort::Closed => 0,
            Sort::Suffix => 1,
            Sort::Object => 2,
            Sort::Temporary => 3,
            Sort::Opened => 4,
            Sort::Special => 5,
            Sort::Encoding => 6,
            Sort::Local => 7,
            Sort::Nested => 8,
            Sort::Begin => 9,
            Sort::Component => 10,
            Sort::InStd => 11,
            Sort::Whole => 12,
            Sort::Tag => 13,
            Sort::ArgumentList => 14,
            Sort::End => 15,
            Sort::Argument => 16,
            Sort::Element => 17,
            Sort::Parameter => 18,
        }
    }
}
