// Which bytes of a symbol spell which part of its text.
#![tactic(auto)]

use crate::role::Role;
use std::marker::Model;

/// Bytes of a symbol, from one place up to another. Both count from the symbol's first byte.
#[derive(Clone, Copy, Debug, PartialEq, Eq)]
pub struct Span {
    pub from: u32,
    pub to: u32,
}

/// The place of a part among the parts of its role, in the order in which the symbol spells them.
#[derive(Clone, Copy, Debug, PartialEq, Eq)]
pub struct Ordinal {
    /// The number of an item of a list, from 0.
    pub item: u32,
    /// The number of an element of that item, from 1; 0 for the item itself.
    pub element: u32,
}

/// The ordinal of a part that comes once.
pub const ONLY: Ordinal = Ordinal {
    item: 0,
    element: 0,
};

/// What spells a part of a role that comes once.
#[derive(Clone, Copy, Debug, PartialEq, Eq)]
pub struct Spelled {
    pub role: Role,
    pub span: Span,
}

/// What spells an item of a list, and its elements, if it has some: `count` of the spelling's elements, from number `first` on.
#[derive(Clone, Copy, Debug, PartialEq, Eq)]
pub struct Item {
    pub span: Span,
    pub first: u32,
    pub count: u32,
}

/// What spells the parts of a symbol's text.
#[derive(Drop)]
pub struct Spelling {
    /// What spells the parts in none of the lists below: the bytes of the name, or of the reference
    /// that denotes it.
    pub others: Span,
    /// Parts that come once.
    pub spans: Vec<Spelled>,
    /// The words of special names, the outermost first.
    pub specials: Vec<Span>,
    /// The tags of a name, the last one first.
    pub tags: Vec<Span>,
    /// Lists of generic arguments, the last one first.
    pub argument_lists: Vec<Span>,
    pub arguments: Vec<Item>,
    pub parameters: Vec<Item>,
    /// The elements of items.
    pub elements: Vec<Span>,
}

impl Model for Spelling {
    ghost use Rattle.sym_parts.specs.Spelling.{Spelling};

    ghost Value = { Spelling };

    ghost view = { λ s. record { others = s.others; spans = s.spans.items; specials = s.specials.items; tags = s.tags.items; argument_lists = s.argument_lists.items; arguments = s.arguments.items; parameters = s.parameters.items; elements = s.elements.items } };
}
