// What the parts of a symbol denote, in terms of nodes, and what is kept of their surroundings.

pub use cpp_references::around::{Naming, Prefix, Scope, Surroundings};
pub use cpp_references::candidates::Candidate;
use cpp_references::candidates::Counted;
use cpp_tree::node::{Adjustment, Mark, Node, Piece, Qualifiers, Signed, Thunk};
use sym_core::Span;

/// What a part of a symbol denotes. A tree is given by its node, and by whether it is a candidate already or never becomes one.
#[derive(Clone, Copy)]
pub enum Part {
    Nothing,
    Letter(u8),
    Text(Span),
    Signed(Signed),
    Adjusted(Adjustment),
    Tree {
        node: u32,
        listed: bool,
    },
    Piece(Piece),
    Named {
        node: u32,
        qualifiers: Qualifiers,
        mark: Mark,
    },
    Signature {
        list: u32,
        mark: Mark,
    },
    /// A letter and two trees; the second may be absent.
    Pair {
        letter: u8,
        left: u32,
        right: u32,
    },
}

/// Two trees, or fewer, that become candidates one after the other, and which compilers count each of them.
#[derive(Clone, Copy)]
pub struct Marks {
    pub first: Option<u32>,
    pub first_by: Counted,
    pub second: Option<u32>,
    pub second_by: Counted,
}

/// No trees.
pub const NO_MARKS: Marks = Marks {
    first: None,
    first_by: Counted::ByAll,
    second: None,
    second_by: Counted::ByAll,
};

/// What a production denotes: a part, or a part whose node isn't made yet.
#[derive(Clone, Copy)]
pub enum Outcome {
    Given(Part),
    There {
        node: u32,
        listed: bool,
    },
    Made {
        node: Node,
        listed: bool,
    },
    Entity {
        node: Node,
        qualifiers: Qualifiers,
        mark: Mark,
    },
    Items {
        node: Node,
        mark: Mark,
    },
    Thunk {
        thunk: Thunk,
        encoding: u32,
    },
    Character {
        letter: u8,
        value: Signed,
    },
    /// A pair with one tree still to be made: the right one, or the left one of a pair that has no
    /// right one.
    MadeOperand {
        letter: u8,
        left: Option<u32>,
        node: Node,
    },
    /// An element in parentheses, and those after it.
    Enclosed {
        first: u32,
        rest: u32,
    },
    /// A name with arguments.
    Applied {
        name: Node,
        arguments: u32,
    },
    Lambda {
        first: u32,
        rest: u32,
        number: u64,
    },
    /// A lambda that declares parameters of its own, and whose signature has no types.
    Declaring {
        heads: u32,
        number: u64,
    },
    /// A lambda that declares parameters of its own, and whose signature has types.
    DeclaringLambda {
        heads: u32,
        first: u32,
        rest: u32,
        number: u64,
    },
}

/// What is done before the next part of a rule: the state and the surroundings of the part.
#[derive(Clone, Copy)]
pub enum Step {
    /// A tree becomes a candidate, if one is given, and these are the surroundings of the part.
    Go {
        candidate: Option<u32>,
        then: Surroundings,
        packs: Option<u32>,
    },
    /// The first part is now this existing node. It may precede the next part as the name so far.
    Named {
        node: u32,
        listed: bool,
        is_name: bool,
    },
    /// A node is made, and becomes the first part. It may precede the next part as the name so far, and become a candidate.
    Made {
        node: Node,
        listed: bool,
        is_name: bool,
        is_candidate: bool,
        packs: Option<u32>,
    },
}

/// What follows a rule: a tree that becomes a candidate, if one does, and the length of the packs.
#[derive(Clone, Copy)]
pub struct AfterRule {
    pub candidate: Option<u32>,
    pub packs: Option<u32>,
}
