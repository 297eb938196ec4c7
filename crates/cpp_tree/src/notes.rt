// What is noted of a node.
#![tactic(auto)]

ghost use Rattle.std.specs.Prelude.{◌≡◌, ℕ, ◌+◌, ◌<◌, ◌^◌, ◌&&◌, ◌||◌, Bool, Some, None, Option, length, true, false, nat_eq, max, cond, not};
ghost use Rattle.cpp_grammar.specs.Items as heads;
ghost use Rattle.cpp_grammar.specs.Scope.{first_of};
ghost use Rattle.cpp_tree.specs.declared.node.Node.{Node};
ghost use Rattle.cpp_tree.specs.declared.node.Free.{Free};
ghost use Rattle.cpp_tree.specs.declared.node.HeadFrom.{HeadFrom};
ghost use Rattle.cpp_tree.specs.declared.node.ByArgument.{ByArgument};
ghost use Rattle.cpp_tree.specs.declared.compact.TypeHead.{TypeHead};
ghost use Rattle.cpp_tree.specs.Compact.{packs_kept, class_kept, arguments_kept, untagged_kept, returns_kept, placed_kept, free_kept, entry_of, kept, with_elements, with_head, with_arguments, with_tags, own_entry, restated_entry};
ghost use Rattle.cpp_tree.specs.Nodes.{over, entry_at, IsBelow, IsPieceBelow, IsTable};
ghost use Rattle.cpp_tree.specs.Notes.{itself, or_itself, by_argument_at, passed, joined, of_parameter, of_expansion, of_pack, of_cell, of_head, collapses_from, piece_by_argument, both_free, piece_frees, piece_packs, argument_packs, argument_class, shape_at, packs_by, empty_by, collapses, placed_under, is_structor_node, alone_at, noting};

use crate::compact::{Compact, FreeCount, TypeHead, bare, class, packs};
use crate::heads::empty_by;
use crate::node::{ByArgument, HeadClass, HeadFrom, Node, Piece, under_word};
use crate::nodes::Nodes;
use crate::words::{
    collapsed, collapsed_from, joined, of_cell, of_elements, of_head, of_instance, of_name,
    of_type, passed,
};

/// Two words: the first is a node, and the second the node of the argument under which it is, plus
/// one.
#[derive(Clone, Copy)]
struct Pair {
    first: u32,
    second: u32,
}

/// The name under the tags of a name, or the name itself.
#[inline(always)]
#[tactic(auto, unfolding(crate::specs::Nodes::under_kept, crate::specs::Compact::untagged_kept, crate::specs::Notes::or_itself))]
fn under_tags(held: Compact, name: u32) -> Pair
    ensures { placed_kept result.first result.second ≡ or_itself name (untagged_kept held.words held.first held.second) }
{
    match held.words {
        TypeHead::Tagged => Pair {
            first: held.first,
            second: held.second,
        },
        _ => Pair {
            first: name,
            second: 0,
        },
    }
}

/// What is noted of a node whose free parameters are those of one part.
#[inline(always)]
fn noted_over(
    node: Node,
    part: Compact,
    by_argument: ByArgument,
    words: TypeHead,
    first: u32,
    second: u32,
) -> Compact
    ensures { entry_of result ≡ kept node (packs_kept part.packs) (free_kept part.free part.number) false by_argument words first second }
{
    Compact {
        node,
        packs: part.packs,
        first,
        second,
        number: part.number,
        free: part.free,
        is_empty: false,
        words,
        by_argument,
    }
}

/// The length of packs in the first of two parts that has any.
#[inline(always)]
fn packs_of_two(one: Compact, other: Compact) -> u32
    ensures { packs_kept result ≡ first_of (packs_kept one.packs) (packs_kept other.packs) }
{
    if one.packs == 0 {
        other.packs
    } else {
        one.packs
    }
}

/// How many parameters are free, and the number of the only one or the greatest of several.
#[derive(Clone, Copy)]
struct Freed {
    free: FreeCount,
    number: u32,
}

/// Several parameters are free: the greatest number is the greater of these two.
#[inline(always)]
#[tactic(auto, unfolding(crate::specs::Compact::free_kept))]
fn several(one: u32, other: u32) -> Freed
    ensures { free_kept result.free result.number ≡ Free.Several (max one other) }
{
    Freed {
        free: FreeCount::Several,
        number: one.max(other),
    }
}

/// The free parameters: the one with this number, and those of a part.
#[inline(always)]
#[tactic(auto, unfolding(crate::specs::Compact::free_kept, crate::specs::Notes::both_free))]
fn free_beside(number: u32, part: Compact) -> Freed
    ensures { free_kept result.free result.number ≡ both_free (Free.One number) (free_kept part.free part.number) }
{
    match part.free {
        FreeCount::None => Freed {
            free: FreeCount::One,
            number,
        },
        FreeCount::One => {
            if number == part.number {
                return Freed {
                    free: FreeCount::One,
                    number,
                };
            }
            several(number, part.number)
        }
        FreeCount::Several => several(number, part.number),
    }
}

/// The free parameters: several with this greatest number, and those of a part.
#[inline(always)]
#[tactic(auto, unfolding(crate::specs::Compact::free_kept, crate::specs::Notes::both_free))]
fn several_beside(greatest: u32, part: Compact) -> Freed
    ensures { free_kept result.free result.number ≡ both_free (Free.Several greatest) (free_kept part.free part.number) }
{
    match part.free {
        FreeCount::None => Freed {
            free: FreeCount::Several,
            number: greatest,
        },
        FreeCount::One => several(greatest, part.number),
        FreeCount::Several => several(greatest, part.number),
    }
}

/// The free parameters of two parts.
#[inline(always)]
#[tactic(auto, unfolding(crate::specs::Compact::free_kept, crate::specs::Notes::both_free))]
fn free_in_two(one: Compact, other: Compact) -> Freed
    ensures { free_kept result.free result.number ≡ both_free (free_kept one.free one.number) (free_kept other.free other.number) }
{
    match one.free {
        FreeCount::None => Freed {
            free: other.free,
            number: other.number,
        },
        FreeCount::One => free_beside(one.number, other),
        FreeCount::Several => several_beside(one.number, other),
    }
}

/// Whether packs have no elements.
#[inline(always)]
#[tactic(auto, unfolding(crate::specs::Compact::packs_kept, cpp_grammar::specs::Items::is_none_of))]
fn has_no_elements(packs: u32) -> bool
    ensures { result ≡ heads.is_none_of (packs_kept packs) }
{
    packs == 1
}

/// What is noted of a node whose free parameters are those of two parts.
#[inline(always)]
fn noted_over_two(
    node: Node,
    one: Compact,
    other: Compact,
    is_empty: bool,
    by_argument: ByArgument,
    words: TypeHead,
    first: u32,
    second: u32,
) -> Compact
    ensures { entry_of result ≡ kept node (first_of (packs_kept one.packs) (packs_kept other.packs)) (both_free (free_kept one.free one.number) (free_kept other.free other.number)) is_empty by_argument words first second }
{
    let freed = free_in_two(one, other);
    Compact {
        node,
        packs: packs_of_two(one, other),
        first,
        second,
        number: freed.number,
        free: freed.free,
        is_empty,
        words,
        by_argument,
    }
}

/// What a parameter takes from its argument: the length of its packs plus one, or 0 for no packs,
/// and the head, if the words record it.
#[derive(Clone, Copy)]
struct Given {
    packs: u32,
    words: TypeHead,
    first: u32,
    second: u32,
}

/// The length of the packs of a tree with another argument.
#[inline(always)]
#[tactic(auto, unfolding(crate::specs::Compact::packs_kept, crate::specs::Notes::packs_by))]
fn packs_given(is_bare: bool, given: u32) -> u32
    ensures { packs_kept result ≡ packs_by is_bare (packs_kept given) }
{
    if is_bare { given } else { 0 }
}

/// The second word of an alias with this argument, if its head is that of its tree.
#[inline(always)]
#[tactic(auto, unfolding(crate::specs::Nodes::under_kept, crate::specs::Compact::class_kept, crate::specs::Compact::arguments_kept, crate::specs::Compact::untagged_kept, crate::specs::Compact::returns_kept, crate::specs::Compact::count_kept, crate::specs::Compact::run_kept, crate::specs::Compact::has_pack_kept, crate::specs::Notes::placed_under))]
fn second_under(held: Compact, argument: u32) -> u32
    requires { argument + 1 < 2 ^ 32 }
    ensures { (n : Node) (packs : Option ℕ) (free : Free) (is_empty : Bool) (l : ByArgument) → kept n packs free is_empty l held.words held.first result ≡ own_entry n packs free is_empty l held.words held.first held.second argument }
{
    match held.words {
        TypeHead::Arguments => argument + 1,
        TypeHead::ReturningArguments => argument + 1,
        TypeHead::Tagged => argument + 1,
        TypeHead::Elements => 0,
        TypeHead::ElementsWithPack => 0,
        _ => held.second,
    }
}

/// The entry of an alias with an argument, from that of the tree and what the argument gives.
#[inline(always)]
fn restated(
    node: Node,
    held: Compact,
    packs: u32,
    is_empty: bool,
    argument: u32,
    given: Given,
) -> Compact
    requires { argument + 1 < 2 ^ 32 }
    ensures { entry_of result ≡ restated_entry node (packs_kept packs) is_empty (entry_of held) argument (class_kept given.words given.first given.second) }
{
    match held.by_argument.head {
        HeadFrom::Own => Compact {
            node,
            packs,
            first: held.first,
            second: second_under(held, argument),
            number: held.number,
            free: held.free,
            is_empty,
            words: held.words,
            by_argument: held.by_argument,
        },
        HeadFrom::Argument => Compact {
            node,
            packs,
            first: given.first,
            second: given.second,
            number: held.number,
            free: held.free,
            is_empty,
            words: of_type(given.words),
            by_argument: held.by_argument,
        },
        HeadFrom::Collapsed => Compact {
            node,
            packs,
            first: given.first,
            second: given.second,
            number: held.number,
            free: held.free,
            is_empty,
            words: collapsed(given.words),
            by_argument: held.by_argument,
        },
    }
}

impl Nodes {
    /// What a parameter takes from its argument.
    #[inline(always)]
    fn given(&self, symbol: &[u8], argument: u32) -> Given
        requires table { IsTable (over symbol.now self.now) }
        requires argument { argument < length self.now.nodes }
        requires room { length self.now.nodes + 1 < 2 ^ 32 }
        ensures packs { packs_kept result.packs ≡ argument_packs self.now.nodes (shape_at self.now.nodes argument) }
        ensures class { class_kept result.words result.first result.second ≡ argument_class self.now.nodes argument }
    {
        let place = self.resolved(symbol, argument);
        match self.node(symbol, place.node) {
            Node::Pack(elements) => Given {
                packs: self.at(elements).entry().count + 1,
                words: TypeHead::OfElement,
                first: elements,
                second: under_word(place.under),
            },
            _ => {
                let held = self.at(argument);
                Given {
                    packs: 0,
                    words: held.words,
                    first: held.first,
                    second: held.second,
                }
            }
        }
    }

    /// The head of a parameter with this argument.
    #[inline(always)]
    pub(crate) fn given_class(&self, symbol: &[u8], argument: u32) -> HeadClass
        requires table { IsTable (over symbol.now self.now) }
        requires argument { argument < length self.now.nodes }
        requires room { length self.now.nodes + 1 < 2 ^ 32 }
        ensures { result ≡ argument_class self.now.nodes argument }
    {
        let given = self.given(symbol, argument);
        class(given.words, given.first, given.second)
    }

    /// The length of the packs of a parameter with this argument.
    #[inline(always)]
    pub(crate) fn given_packs(&self, symbol: &[u8], argument: u32) -> Option<u32>
        requires table { IsTable (over symbol.now self.now) }
        requires argument { argument < length self.now.nodes }
        requires room { length self.now.nodes + 1 < 2 ^ 32 }
        ensures { result ≡ argument_packs self.now.nodes (shape_at self.now.nodes argument) }
    {
        packs(self.given(symbol, argument).packs)
    }

    /// A name that is a piece without a prefix.
    #[inline(always)]
    #[tactic(auto, unfolding(crate::specs::Notes::piece_packs, crate::specs::Notes::piece_frees, crate::specs::Notes::piece_by_argument))]
    fn noted_piece(&self, symbol: &[u8], node: Node, piece: Piece) -> Compact
        requires below { IsPieceBelow symbol.now (length self.now.nodes) piece }
        ensures { entry_of result ≡ kept node (piece_packs self.now.nodes piece) (piece_frees self.now.nodes piece) false (piece_by_argument self.now.nodes piece) TypeHead.Plain 0 0 }
    {
        match piece {
            Piece::Lambda { parameters, .. } => self.noted_type(node, parameters, TypeHead::Plain),
            Piece::Inheriting { base, .. } => self.noted_type(node, base, TypeHead::Plain),
            Piece::Conversion(ty) => self.noted_type(node, ty, TypeHead::Plain),
            Piece::Enumeration { ty, .. } => self.noted_type(node, ty, TypeHead::Plain),
            Piece::Bindings(names) => self.noted_type(node, names, TypeHead::Plain),
            _ => bare(node, false),
        }
    }

    /// A name that is a piece after a prefix.
    #[inline(always)]
    #[tactic(auto, unfolding(crate::specs::Notes::piece_packs, crate::specs::Notes::piece_frees, crate::specs::Notes::piece_by_argument, crate::specs::Notes::joined, crate::specs::Notes::passed))]
    fn noted_within(&self, symbol: &[u8], node: Node, prefix: u32, piece: Piece) -> Compact
        requires prefix { prefix < length self.now.nodes }
        requires below { IsPieceBelow symbol.now (length self.now.nodes) piece }
        ensures { entry_of result ≡ kept node (first_of (entry_at self.now.nodes prefix).packs (piece_packs self.now.nodes piece)) (both_free (entry_at self.now.nodes prefix).free (piece_frees self.now.nodes piece)) false
            (joined (by_argument_at self.now.nodes prefix) (piece_by_argument self.now.nodes piece)) TypeHead.Plain 0 0 }
    {
        match piece {
            Piece::Lambda { parameters, .. } => {
                self.noted_types(node, prefix, parameters, TypeHead::Plain)
            }
            Piece::Inheriting { base, .. } => self.noted_types(node, prefix, base, TypeHead::Plain),
            Piece::Conversion(ty) => self.noted_types(node, prefix, ty, TypeHead::Plain),
            Piece::Enumeration { ty, .. } => self.noted_types(node, prefix, ty, TypeHead::Plain),
            Piece::Bindings(names) => self.noted_types(node, prefix, names, TypeHead::Plain),
            _ => self.noted_type(node, prefix, TypeHead::Plain),
        }
    }

    /// A parameter with its argument.
    #[inline(always)]
    fn noted_parameter(&self, symbol: &[u8], node: Node, number: u32, argument: u32) -> Compact
        requires table { IsTable (over symbol.now self.now) }
        requires argument { argument < length self.now.nodes }
        requires room { length self.now.nodes + 1 < 2 ^ 32 }
        ensures { entry_of result ≡ with_head node (argument_packs self.now.nodes (shape_at self.now.nodes argument)) (Free.One number) false of_parameter (argument_class self.now.nodes argument) }
    {
        let given = self.given(symbol, argument);
        Compact {
            node,
            packs: given.packs,
            first: given.first,
            second: given.second,
            number,
            free: FreeCount::One,
            is_empty: false,
            words: of_type(given.words),
            by_argument: ByArgument {
                is_bare: true,
                head: HeadFrom::Argument,
                empty_with: false,
                empty_without: false,
            },
        }
    }

    /// An alias with an argument.
    #[inline(always)]
    fn noted_again(&self, symbol: &[u8], node: Node, tree: u32, argument: u32) -> Compact
        requires table { IsTable (over symbol.now self.now) }
        requires tree { tree < length self.now.nodes }
        requires argument { argument < length self.now.nodes }
        requires room { length self.now.nodes + 1 < 2 ^ 32 }
        ensures { entry_of result ≡ restated_entry node (packs_by (by_argument_at self.now.nodes tree).is_bare (argument_packs self.now.nodes (shape_at self.now.nodes argument)))
            (empty_by (heads.is_none_of (argument_packs self.now.nodes (shape_at self.now.nodes argument))) (by_argument_at self.now.nodes tree)) (entry_at self.now.nodes tree) argument (argument_class self.now.nodes argument) }
    {
        let held = self.at(tree);
        let given = self.given(symbol, argument);
        let packs = packs_given(held.by_argument.is_bare, given.packs);
        let is_empty = empty_by(has_no_elements(given.packs), held.by_argument);
        restated(node, held, packs, is_empty, argument, given)
    }

    /// An expansion over a pattern.
    #[inline(always)]
    fn noted_expansion(&self, node: Node, pattern: u32) -> Compact
        requires pattern { pattern < length self.now.nodes }
        ensures { entry_of result ≡ kept node None (entry_at self.now.nodes pattern).free (heads.is_none_of (entry_at self.now.nodes pattern).packs) (of_expansion (by_argument_at self.now.nodes pattern)) TypeHead.Plain 0 0 }
    {
        let held = self.at(pattern);
        Compact {
            node,
            packs: 0,
            first: 0,
            second: 0,
            number: held.number,
            free: held.free,
            is_empty: has_no_elements(held.packs),
            words: TypeHead::Plain,
            by_argument: ByArgument {
                is_bare: false,
                head: HeadFrom::Own,
                empty_with: held.by_argument.is_bare,
                empty_without: false,
            },
        }
    }

    /// A pack of a list's elements.
    #[inline(always)]
    fn noted_pack(&self, node: Node, elements: u32) -> Compact
        requires elements { elements < length self.now.nodes }
        ensures { entry_of result ≡ kept node (entry_at self.now.nodes elements).packs (entry_at self.now.nodes elements).free (entry_at self.now.nodes elements).is_empty (of_pack (by_argument_at self.now.nodes elements)) TypeHead.Plain 0 0 }
    {
        let held = self.at(elements);
        Compact {
            node,
            packs: held.packs,
            first: 0,
            second: 0,
            number: held.number,
            free: held.free,
            is_empty: held.is_empty,
            words: TypeHead::Plain,
            by_argument: ByArgument {
                is_bare: held.by_argument.is_bare,
                head: HeadFrom::Own,
                empty_with: held.by_argument.empty_with,
                empty_without: held.by_argument.empty_without,
            },
        }
    }

    /// The run of the next cell to be added, whose rest is this node: how many nodes right before
    /// that cell are the later cells of its list.
    #[inline(always)]
    fn run_to(&self, rest: u32) -> u32
        requires rest { rest < length self.now.nodes }
        requires room { length self.now.nodes + 1 < 2 ^ 32 }
        requires run { (entry_at self.now.nodes rest).run + 1 < 2 ^ 32 }
        ensures { result ≡ cond (nat_eq (rest + 1) (length self.now.nodes)) ((entry_at self.now.nodes rest).run + 1) 0 }
    {
        if rest as usize + 1 == self.len() {
            self.at(rest).entry().run + 1
        } else {
            0
        }
    }

    /// Whether the tree of a node is an argument proper.
    #[inline(always)]
    fn is_alone(&self, symbol: &[u8], node: u32) -> bool
        requires table { IsTable (over symbol.now self.now) }
        requires node { node < length self.now.nodes }
        ensures { result ≡ alone_at self.now.nodes node }
    {
        let place = self.resolved(symbol, node);
        let is_argument = self.node(symbol, place.node).is_argument();
        is_argument & !self.entry(node).is_open()
    }

    /// A cell of a list.
    #[inline(always)]
    fn noted_cell(&self, symbol: &[u8], node: Node, first: u32, rest: u32) -> Compact
        requires table { IsTable (over symbol.now self.now) }
        requires first { first < length self.now.nodes }
        requires rest { rest < length self.now.nodes }
        requires room { length self.now.nodes + 1 < 2 ^ 32 }
        ensures { entry_of result ≡ with_elements node (first_of (entry_at self.now.nodes first).packs (entry_at self.now.nodes rest).packs) (both_free (entry_at self.now.nodes first).free (entry_at self.now.nodes rest).free)
            ((entry_at self.now.nodes first).is_empty && (entry_at self.now.nodes rest).is_empty) (of_cell (by_argument_at self.now.nodes first) (by_argument_at self.now.nodes rest)) ((entry_at self.now.nodes rest).count + 1) (cond (nat_eq (rest + 1) (length self.now.nodes)) ((entry_at self.now.nodes rest).run + 1) 0) (not (alone_at self.now.nodes first) || (entry_at self.now.nodes rest).has_pack) }
    {
        let one = self.at(first);
        let other = self.at(rest);
        let is_empty = one.is_empty & other.is_empty;
        let count = other.entry().count + 1;
        let is_alone = self.is_alone(symbol, first);
        let has_pack = other.entry().has_pack;
        let words = of_elements(!is_alone | has_pack);
        noted_over_two(
            node,
            one,
            other,
            is_empty,
            of_cell(one.by_argument, other.by_argument),
            words,
            count,
            self.run_to(rest),
        )
    }

    /// A node over a type, recorded by these words.
    #[inline(always)]
    fn noted_type(&self, node: Node, ty: u32, words: TypeHead) -> Compact
        requires { ty < length self.now.nodes }
        ensures { entry_of result ≡ kept node (entry_at self.now.nodes ty).packs (entry_at self.now.nodes ty).free false (passed (by_argument_at self.now.nodes ty)) words 0 0 }
    {
        let held = self.at(ty);
        noted_over(node, held, passed(held.by_argument), words, 0, 0)
    }

    /// A node over two types, recorded by these words.
    #[inline(always)]
    fn noted_types(&self, node: Node, one: u32, other: u32, words: TypeHead) -> Compact
        requires one { one < length self.now.nodes }
        requires other { other < length self.now.nodes }
        ensures { entry_of result ≡ kept node (first_of (entry_at self.now.nodes one).packs (entry_at self.now.nodes other).packs) (both_free (entry_at self.now.nodes one).free (entry_at self.now.nodes other).free) false (joined (by_argument_at self.now.nodes one) (by_argument_at self.now.nodes other)) words 0 0 }
    {
        let first = self.at(one);
        let second = self.at(other);
        noted_over_two(
            node,
            first,
            second,
            false,
            joined(first.by_argument, second.by_argument),
            words,
            0,
            0,
        )
    }

    /// A reference to an rvalue of a type.
    #[inline(always)]
    fn noted_rvalue(&self, node: Node, ty: u32) -> Compact
        requires { ty < length self.now.nodes }
        ensures { entry_of result ≡ with_head node (entry_at self.now.nodes ty).packs (entry_at self.now.nodes ty).free false (of_head (collapses_from (by_argument_at self.now.nodes ty).head) (by_argument_at self.now.nodes ty)) (collapses (entry_at self.now.nodes ty).class) }
    {
        let held = self.at(ty);
        let by_argument = of_head(collapsed_from(held.by_argument.head), held.by_argument);
        noted_over(
            node,
            held,
            by_argument,
            collapsed(held.words),
            held.first,
            held.second,
        )
    }

    /// A qualified type.
    #[inline(always)]
    fn noted_qualified(&self, node: Node, ty: u32) -> Compact
        requires { ty < length self.now.nodes }
        ensures { entry_of result ≡ with_head node (entry_at self.now.nodes ty).packs (entry_at self.now.nodes ty).free false (of_head (by_argument_at self.now.nodes ty).head (by_argument_at self.now.nodes ty)) (entry_at self.now.nodes ty).class }
    {
        let held = self.at(ty);
        let by_argument = of_head(held.by_argument.head, held.by_argument);
        noted_over(
            node,
            held,
            by_argument,
            of_type(held.words),
            held.first,
            held.second,
        )
    }

    /// A name in a function, or the entity that it names.
    #[inline(always)]
    fn noted_local(&self, node: Node, entity: u32) -> Compact
        requires { entity < length self.now.nodes }
        ensures { entry_of result ≡ with_arguments node (entry_at self.now.nodes entity).packs (entry_at self.now.nodes entity).free (passed (by_argument_at self.now.nodes entity)) (entry_at self.now.nodes entity).arguments (entry_at self.now.nodes entity).returns }
    {
        let held = self.at(entity);
        noted_over(
            node,
            held,
            passed(held.by_argument),
            of_name(held.words),
            held.first,
            held.second,
        )
    }

    /// A name with one more tag.
    #[inline(always)]
    fn noted_tagged(&self, node: Node, name: u32) -> Compact
        requires { name < length self.now.nodes }
        ensures { entry_of result ≡ with_tags node (entry_at self.now.nodes name).packs (entry_at self.now.nodes name).free (passed (by_argument_at self.now.nodes name)) (or_itself name (entry_at self.now.nodes name).untagged) }
    {
        let held = self.at(name);
        let under = under_tags(held, name);
        noted_over(
            node,
            held,
            passed(held.by_argument),
            TypeHead::Tagged,
            under.first,
            under.second,
        )
    }

    /// An instance of a template.
    #[inline(always)]
    fn noted_instance(&self, symbol: &[u8], node: Node, template: u32, arguments: u32) -> Compact
        requires table { IsTable (over symbol.now self.now) }
        requires template { template < length self.now.nodes }
        requires arguments { arguments < length self.now.nodes }
        ensures { entry_of result ≡ with_arguments node (first_of (entry_at self.now.nodes template).packs (entry_at self.now.nodes arguments).packs) (both_free (entry_at self.now.nodes template).free (entry_at self.now.nodes arguments).free)
            (joined (by_argument_at self.now.nodes template) (by_argument_at self.now.nodes arguments)) (Some (itself arguments)) (not (is_structor_node (shape_at self.now.nodes template))) }
    {
        let held = self.at(template);
        let other = self.at(arguments);
        let place = self.resolved(symbol, template);
        noted_over_two(
            node,
            held,
            other,
            false,
            joined(held.by_argument, other.by_argument),
            of_instance(self.node(symbol, place.node)),
            arguments,
            0,
        )
    }

    /// A node with what is noted of it.
    #[inline(always)]
    pub(crate) fn noted(&self, symbol: &[u8], node: Node) -> Compact
        requires table { IsTable (over symbol.now self.now) }
        requires below { IsBelow symbol.now (length self.now.thunks) (length self.now.nodes) node }
        requires room { length self.now.nodes + 1 < 2 ^ 32 }
        ensures { entry_of result ≡ noting self.now.nodes node }
    {
        match node {
            // Generated by tools/trees.py.
            Node::Nil => bare(node, true),
            Node::Alone(piece) => self.noted_piece(symbol, node, piece),
            Node::InStd(piece) => self.noted_piece(symbol, node, piece),
            Node::Within { prefix, piece } => self.noted_within(symbol, node, prefix, piece),
            Node::Instance {
                template,
                arguments,
            } => self.noted_instance(symbol, node, template, arguments),
            Node::Local { entity, .. } => self.noted_local(node, entity),
            Node::Holder(name) => self.noted_type(node, name, TypeHead::Plain),
            Node::Tagged { name, .. } => self.noted_tagged(node, name),
            Node::OfDefault { entity, .. } => self.noted_local(node, entity),
            Node::Parameter { number, argument } => {
                self.noted_parameter(symbol, node, number, argument)
            }
            Node::Declaring { heads, parameters } => {
                self.noted_types(node, heads, parameters, TypeHead::Plain)
            }
            Node::Constrained { concept, .. } => self.noted_type(node, concept, TypeHead::Plain),
            Node::Pointer(ty) => self.noted_type(node, ty, TypeHead::Plain),
            Node::Lvalue(ty) => self.noted_type(node, ty, TypeHead::Lvalue),
            Node::Rvalue(ty) => self.noted_rvalue(node, ty),
            Node::Array { element, .. } => {
                self.noted_type(node, element, TypeHead::FunctionOrArray)
            }
            Node::Bounded { bound, element } => {
                self.noted_types(node, bound, element, TypeHead::FunctionOrArray)
            }
            Node::MemberPointer { class, member } => {
                self.noted_types(node, class, member, TypeHead::Plain)
            }
            Node::FunctionType {
                returned,
                parameters,
                ..
            } => self.noted_types(node, returned, parameters, TypeHead::FunctionOrArray),
            Node::Qualified { ty, .. } => self.noted_qualified(node, ty),
            Node::Vector { element, .. } => self.noted_type(node, element, TypeHead::Plain),
            Node::Complex(ty) => self.noted_type(node, ty, TypeHead::Plain),
            Node::Decltype(expression) => self.noted_type(node, expression, TypeHead::Plain),
            Node::Expansion(pattern) => self.noted_expansion(node, pattern),
            Node::Integer { ty, .. } => self.noted_type(node, ty, TypeHead::Plain),
            Node::Operation { left, right, .. } => {
                self.noted_types(node, left, right, TypeHead::Plain)
            }
            Node::Pack(elements) => self.noted_pack(node, elements),
            Node::Cell { first, rest } => self.noted_cell(symbol, node, first, rest),
            Node::Reargued { tree, argument } => self.noted_again(symbol, node, tree, argument),
            _ => bare(node, false),
        }
    }
}
