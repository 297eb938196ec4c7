// What a printer can print: items, each with at most eight parts.
#![tactic(auto)]

ghost use Rattle.std.specs.Prelude.{◌≡◌, ℕ, ◌+◌, ◌<◌, ◌≤◌, length, vec_len, vec_capacity, List, [], true, IfSome};
ghost use Rattle.std.specs.List.{All};

use arrayvec::ArrayVec;
use sym_core::Span;

/// A node of a symbol, seen in a form and a context.
///
/// Nodes are shared: the same node may be printed at many places, in other forms and contexts.
#[derive(Clone, Copy, Debug)]
pub struct Item<C> {
    /// The node's number in the symbol's table.
    pub node: u32,
    /// Which text of the node is meant, such as the part of a declarator left of the name. The layout assigns the
    /// numbers.
    pub form: u32,
    /// A place among the node's parts, for a form that prints the rest of a list.
    pub at: u32,
    /// What the node inherits, such as an index into a parameter pack or the number of lifetimes bound around it.
    pub ctx: C,
}

/// One part of an item's text: another item, or bytes.
#[derive(Clone, Copy, Debug)]
pub enum Part<C> {
    /// Another item.
    Sub(Item<C>),
    /// Bytes of the symbol.
    Symbol(Span),
    /// Bytes of the text list.
    List(Span),
    /// A fixed text, by its number.
    Fixed(u16),
    /// Bytes of its own, and how many of them count.
    Own([u8; 24], u8),
}

/// The end of a run of items that lie within one another, and what is written after it.
#[derive(Clone, Copy, Debug)]
pub struct Run<C> {
    /// The item at which the run ends.
    pub item: Item<C>,
    /// How many items are around it.
    pub levels: u32,
    /// The texts of the items around it, taken together.
    pub text: Option<Part<C>>,
}

impl<C> Default for Part<C> {
    ghost use Rattle.sym_print.specs.declared.layout.Part.{Part};

    /// What fills the unused places of a list of parts.
    fn default() -> Self
        ensures { result ≡ Part.Fixed 0 }
    {
        Part::Fixed(0)
    }
}

/// A value that can be printed item by item.
///
/// A layout denotes trees in which nothing is shared: `unshared` says what an item prints, all the way down. An item's text is that of its
/// parts in order. Its cost is 1, plus the lengths of its texts, plus the costs of the items among its parts. So text and cost are defined
/// if each item has a rank that is greater than those of the items among its parts; from the parts and the ranks, `specs/Unfold.antt`
/// defines what an item prints. The laws are clauses of the
/// methods: the parts that `fill` and `push_parts` answer are those of the tree, they may be asked for, there are at most eight, and no
/// text is empty. No method takes memory.
pub trait Layout {
    /// The context that an item carries besides its node, such as an index into a parameter pack.
    type Ctx: Copy;

    ghost use Rattle.sym_print.specs.declared.layout.Item.{Item};
    ghost use Rattle.sym_print.specs.declared.layout.Part.{Part};
    ghost use Rattle.sym_print.specs.Unshared.{Unshared};
    ghost use Rattle.sym_print.specs.Joined.{joined, IsText};
    ghost use Rattle.sym_print.specs.Stacked.{Stacked};
    ghost use Rattle.sym_print.specs.Runs.{IsRun};

    // the parts that this value may be asked for: an item's parts, or a text's bytes
    ghost may_come: { Self → Part Self.Ctx → Type 0 };

    // what an item prints, with nothing shared
    ghost unshared: { Self → Item Self.Ctx → Unshared };

    // the bytes of a part that is no item
    ghost bytes_of: { Self → Part Self.Ctx → List ℕ };

    /// Pushes the parts of an item, in order, onto a list that is empty.
    fn fill(&self, item: Item<Self::Ctx>, parts: &mut ArrayVec<Part<Self::Ctx>, 8>)
        requires may_come { may_come self.now (Part.Sub item) }
        requires empty { parts.old.items ≡ [] }
        ensures parts { unshared self.now item ≡ joined (unshared self.now) (bytes_of self.now) parts.new.items }
        ensures may_come { All (may_come self.now) parts.new.items };

    /// Pushes the parts of an item onto a stack that has room for eight, the first on top.
    ///
    /// A printer calls this. A layout builds the parts on the stack, the last one first, or moves what `fill` answers by `push_reversed`.
    // With a list between layout and stack the printer takes a third more instructions. Returning the first part, so that it
    // needn't be read again, is slower too: a part is too large to be returned in registers.
    fn push_parts(&self, item: Item<Self::Ctx>, stack: &mut Vec<Part<Self::Ctx>>)
        requires may_come { may_come self.now (Part.Sub item) }
        requires room { vec_len stack.old + 8 ≤ vec_capacity stack.old }
        ensures parts { Stacked (unshared self.now) (bytes_of self.now) (may_come self.now) stack.old.items stack.new.items (unshared self.now item) }
        ensures few { vec_len stack.new ≤ vec_len stack.old + 8 }
        ensures capacity { vec_capacity stack.new ≡ vec_capacity stack.old };

    /// The bytes of a part that is no item. There is at least one.
    fn bytes<'a>(&'a self, part: &'a Part<Self::Ctx>) -> &'a [u8]
        requires may_come { may_come self.now part.now }
        requires is_text { IsText part.now }
        ensures bytes { result.now ≡ bytes_of self.now part.now }
        ensures not_empty { 0 < length result.now };

    /// Whether the text of an item is noted once it is written, and copied from the note where the same item comes again. Any answer is
    /// right: for most items, printing the parts is as fast. In a dear text the printer decides by itself.
    fn is_noted(&self, _item: Item<Self::Ctx>) -> bool
        requires may_come { may_come self.now (Part.Sub _item) }
    {
        false
    }

    /// Whether two items are known to be the same one. If the answer is always false, a dear text is printed in as many
    /// steps as it costs.
    fn is_same(&self, _one: &Item<Self::Ctx>, _other: &Item<Self::Ctx>) -> bool
        ensures { result ≡ true → _one.now ≡ _other.now }
    {
        false
    }

    /// The run that begins at an item: items within one another, each of which consists of one item and at most one text after that item.
    /// The answer gives the item at which the run ends, how many items are around that last one, and their texts together. Either each of
    /// the items around it has a text, or none has one.
    ///
    /// The printer takes a run at once. If the answer is none, which is always right, the printer takes each item by itself. In a text that
    /// isn't dear, the printer asks only where `begins_run` says so.
    fn run(&self, item: Item<Self::Ctx>) -> Option<Run<Self::Ctx>>
        requires may_come { may_come self.now (Part.Sub item) }
        ensures run { IfSome result (λ run. IsRun (unshared self.now) (bytes_of self.now) (may_come self.now) item run) };

    /// Whether a run that begins at an item is taken at once even where the text isn't dear. Any answer is right. The method has to be
    /// fast, since it is called for most items.
    fn begins_run(&self, item: Item<Self::Ctx>) -> bool
        requires may_come { may_come self.now (Part.Sub item) };

    /// A number of a context, by which the notes of a node in a dear text are found.
    ///
    /// Any number is right, since `is_same` decides which note is an item's. Where contexts of one node have the same number, only some of
    /// the items are noted.
    #[inline(always)]
    fn context_number(&self, _ctx: Self::Ctx) -> u64 {
        0
    }

    /// The parts of an item, in order.
    final fn parts(&self, item: Item<Self::Ctx>) -> ArrayVec<Part<Self::Ctx>, 8>
        requires { may_come self.now (Part.Sub item) }
        ensures parts { unshared self.now item ≡ joined (unshared self.now) (bytes_of self.now) result.items }
        ensures may_come { All (may_come self.now) result.items }
    {
        let mut parts = ArrayVec::new();
        self.fill(item, &mut parts);
        parts
    }

    ghost use Rattle.std.specs.Mem.{type_size};
    ghost use Rattle.std.specs.Align.{type_align};

    // a context is small, so that eight parts fit in memory
    ghost small_context: { (type_size Self.Ctx.row ≤ 1024) × (type_align Self.Ctx.row ≤ 1024) };
}
