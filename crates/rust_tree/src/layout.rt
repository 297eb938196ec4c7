// A symbol as a layout, and its text.
#![tactic(auto)]

ghost use Rattle.std.specs.Prelude.{◌≡◌, ◌+◌, ◌<◌, ◌≤◌, [], true, vec_len, vec_capacity, IfOk, IfErr, IfSome, OnOk, ◌⊎◌, Err};
ghost use Rattle.std.specs.List.{All};
ghost use Rattle.sym_core.specs.declared.Refusal.{Refusal};
ghost use Rattle.sym_print.specs.declared.layout.Part.{Part};
ghost use Rattle.sym_print.specs.declared.detail.Detail.{Detail};
ghost use Rattle.sym_print.specs.Unshared.{text_of, cost_of};
ghost use Rattle.sym_print.specs.Joined.{joined};
ghost use Rattle.sym_print.specs.Runs.{IsRun};
ghost use Rattle.sym_print.specs.Stacked.{Stacked};
ghost use Rattle.rust_tree.specs.Layout.{unshared_of, bytes_of_part, MayCome, Shows, shown_symbol};

use crate::context::Context;
use crate::form::Form;
use crate::symbol::Symbol;
use crate::texts;
use arrayvec::ArrayVec;
use sym_core::Refusal;
use sym_print::{Detail, Item, Layout, Part, PartList, Run, print};

impl Layout for Symbol {
    ghost use Rattle.std.proofs.Common.{lit≤};
    ghost use Rattle.rust_tree.specs.Layout.{unshared_of, bytes_of_part, MayCome};

    type Ctx = Context;

    ghost may_come = { MayCome };

    ghost unshared = { unshared_of };

    ghost bytes_of = { bytes_of_part };

    fn fill(&self, item: Item<Context>, parts: &mut ArrayVec<Part<Context>, 8>)
        requires may_come { MayCome self.now (Part.Sub item) }
        requires empty { parts.old.items ≡ [] }
        ensures parts { unshared_of self.now item ≡ joined (unshared_of self.now) (bytes_of_part self.now) parts.new.items }
        ensures may_come { All (MayCome self.now) parts.new.items }
    {
        self.add_parts(parts, item);
        parts.as_mut_slice().reverse();
    }

    #[inline(always)]
    fn push_parts(&self, item: Item<Context>, stack: &mut Vec<Part<Context>>)
        requires may_come { MayCome self.now (Part.Sub item) }
        requires room { vec_len stack.old + 8 ≤ vec_capacity stack.old }
        ensures parts { Stacked (unshared_of self.now) (bytes_of_part self.now) (MayCome self.now) stack.old.items stack.new.items (unshared_of self.now item) }
        ensures few { vec_len stack.new ≤ vec_len stack.old + 8 }
        ensures capacity { vec_capacity stack.new ≡ vec_capacity stack.old }
    {
        self.add_parts(stack, item);
    }

    /// No item is noted before the text becomes costly, since repeated parts of a Rust symbol are
    /// mostly short.
    #[inline(always)]
    fn is_noted(&self, _item: Item<Context>) -> bool
        requires may_come { MayCome self.now (Part.Sub _item) }
    {
        false
    }

    #[inline(always)]
    fn is_same(&self, one: &Item<Context>, other: &Item<Context>) -> bool
        ensures { result ≡ true → one.now ≡ other.now }
    {
        one.node == other.node
            && one.form == other.form
            && one.at == other.at
            && one.ctx == other.ctx
    }

    /// No run is looked for.
    #[inline(always)]
    fn begins_run(&self, _item: Item<Context>) -> bool
        requires may_come { MayCome self.now (Part.Sub _item) }
    {
        false
    }

    /// No items are taken at once: in a Rust symbol, few nested items have just one part each.
    fn run(&self, _item: Item<Context>) -> Option<Run<Context>>
        requires may_come { MayCome self.now (Part.Sub _item) }
        ensures run { IfSome result (λ run. IsRun (unshared_of self.now) (bytes_of_part self.now) (MayCome self.now) _item run) }
    {
        None
    }

    #[inline(always)]
    fn context_number(&self, ctx: Context) -> u64 {
        ctx.bound
    }

    #[inline(always)]
    fn bytes<'a>(&'a self, part: &'a Part<Context>) -> &'a [u8] {
        match part {
            Part::Symbol(span) => self.bytes_of(*span),
            Part::List(span) => self.printed_bytes(*span),
            Part::Fixed(number) => texts::fixed_text(*number),
            Part::Own(bytes, count) => &bytes[..*count as usize],
            Part::Sub(_) => b"",
        }
    }

    ghost small_context = { (lit≤ tt, lit≤ tt) };
}

impl Symbol {
    /// Adds the parts of an item, the first last.
    #[inline(always)]
    fn add_parts<S: PartList<Context>>(&self, parts: &mut S, item: Item<Context>)
        requires may_come { MayCome self.now (Part.Sub item) }
        requires room { 8 ≤ S.room parts.old }
        ensures shows { Shows self.now (S.held parts.old) (S.held parts.new) (unshared_of self.now item) }
        ensures room { S.room parts.old ≤ S.room parts.new + 8 }
    {
        let node = item.node;
        let ctx = item.ctx;
        match Form::of(item.form) {
            Form::Root => self.fill_symbol(parts, node, ctx),
            Form::ValuePath => self.fill_path(parts, node, true, ctx),
            Form::PlainPath => self.fill_path(parts, node, false, ctx),
            Form::Ty => self.fill_type(parts, node, ctx),
            Form::Constant => self.fill_constant(parts, node),
            Form::FirstArgument => self.fill_arguments(parts, node, true, ctx),
            Form::MoreArguments => self.fill_arguments(parts, node, false, ctx),
            Form::Lifetime => self.fill_lifetime(parts, node, ctx),
            Form::FirstType => self.fill_types(parts, node, true, ctx),
            Form::MoreTypes => self.fill_types(parts, node, false, ctx),
            Form::Signature => self.fill_signature(parts, node, ctx),
            Form::Names => self.fill_names(parts, node, item.at, ctx),
            Form::FirstBound => self.fill_bounds(parts, node, true, ctx),
            Form::MoreBounds => self.fill_bounds(parts, node, false, ctx),
            Form::Bound => self.fill_bound(parts, node, ctx),
            Form::FirstBinding => self.fill_bindings(parts, node, true, ctx),
            Form::MoreBindings => self.fill_bindings(parts, node, false, ctx),
        }
    }

    /// The item of the whole symbol, in full.
    pub fn root(&self) -> Item<Context>
        ensures may_come { MayCome self.now (Part.Sub result) }
        ensures shows { unshared_of self.now result ≡ shown_symbol Detail.Full self.now }
    {
        self.root_as(Detail::Full)
    }

    /// The item of the whole symbol in a detail.
    pub fn root_as(&self, detail: Detail) -> Item<Context>
        ensures may_come { MayCome self.now (Part.Sub result) }
        ensures shows { unshared_of self.now result ≡ shown_symbol detail self.now }
    {
        Item {
            node: self.root_node(),
            form: Form::Root.number(),
            at: 0,
            ctx: Context { bound: 0, detail },
        }
    }

    /// The text of the symbol, if it costs at most the limit.
    ///
    /// # Errors
    ///
    /// `TooLong` exactly where it costs more, `Memory` where a list couldn't grow.
    pub fn text(&self, limit: u32) -> Result<Vec<u8>, Refusal>
        ensures text { IfOk result (λ text. text.items ≡ text_of (shown_symbol Detail.Full self.now)) }
        ensures within { OnOk result (cost_of (shown_symbol Detail.Full self.now) ≤ limit) }
        ensures refusals { IfErr result (λ r. (r ≡ Refusal.TooLong) ⊎ (r ≡ Refusal.Memory)) }
        ensures too_long { result ≡ Err Refusal.TooLong → limit < cost_of (shown_symbol Detail.Full self.now) }
    {
        self.text_as(limit, Detail::Full)
    }

    /// The text of the symbol in a detail, if it costs at most the limit.
    ///
    /// # Errors
    ///
    /// `TooLong` exactly where it costs more, `Memory` where a list couldn't grow.
    pub fn text_as(&self, limit: u32, detail: Detail) -> Result<Vec<u8>, Refusal>
        ensures text { IfOk result (λ text. text.items ≡ text_of (shown_symbol detail self.now)) }
        ensures within { OnOk result (cost_of (shown_symbol detail self.now) ≤ limit) }
        ensures refusals { IfErr result (λ r. (r ≡ Refusal.TooLong) ⊎ (r ≡ Refusal.Memory)) }
        ensures too_long { result ≡ Err Refusal.TooLong → limit < cost_of (shown_symbol detail self.now) }
    {
        print(self.allocator(), self, self.root_as(detail), limit)
    }
}
