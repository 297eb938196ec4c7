// Texts and items that are pushed onto a list of parts, the last first.
#![tactic(auto)]

ghost use Rattle.std.specs.Prelude.{◌≡◌, ℕ, ◌+◌, ◌<◌, ◌≤◌, ◌++◌, [], List, length, slice_get, decimal, if◌then◌else◌, take};
ghost use Rattle.sym_print.specs.Held.{Held};
ghost use Rattle.sym_print.specs.Unshared.{Unshared};
ghost use Rattle.sym_print.specs.Building.{◌then◌, ◌also◌};
ghost use Rattle.rust_tree.specs.Nodes.{HasName, IsWithin, bytes_at, name_of, identifier_of};
ghost use Rattle.rust_tree.specs.Shown.{lifetime_text, numbered_lifetime, name_text, name_behind, namespace_text, special_name};
ghost use Rattle.rust_tree.specs.Texts.{fixed_text};
ghost use Rattle.rust_tree.specs.Layout.{trees_of, shown, HasForm, HasDepth, Shows, item_if, is_empty, IsOwn};

use crate::context::Context;
use crate::form::Form;
use crate::node::Name;
use crate::symbol::Symbol;
use crate::texts;
use itoa::Buffer;
use rust_lifetimes::from_outermost;
use sym_core::Span;
use sym_print::{Item, Part, PartList};

/// Writes a text at a place, and answers the place after it.
fn put(bytes: &mut [u8; 24], at: usize, text: &[u8]) -> usize
    requires { at + length text.now ≤ 24 }
    ensures place { result ≡ at + length text.now }
    ensures bytes { take result bytes.new ≡ take at bytes.old ++ text.now }
{
    let end = at + text.len();
    bytes[at..end].copy_from_slice(text);
    end
}

/// A part with bytes of its own: three texts, one after another.
pub(crate) fn own(front: &[u8], text: &[u8], back: &[u8]) -> Part<Context>
    requires { length front.now + (length text.now + length back.now) ≤ 24 }
    ensures { IsOwn result (front.now ++ (text.now ++ back.now)) }
{
    let mut bytes = [0; 24];
    let end = put(&mut bytes, 0, front);
    let end = put(&mut bytes, end, text);
    let end = put(&mut bytes, end, back);
    Part::Own(bytes, end as u8)
}

impl Symbol {
    /// Adds an item.
    #[inline(always)]
    pub(crate) fn push_item<S: PartList<Context>>(
        &self,
        parts: &mut S,
        node: u32,
        form: Form,
        at: u32,
        ctx: Context,
    )
        requires { 0 < S.room parts.old }
        ensures shows { (below : Held Context) (so_far : Unshared) → Shows self.now below (S.held parts.old) so_far
            → HasForm (trees_of self.now) node form → HasDepth form node ctx.bound
            → Shows self.now below (S.held parts.new) (shown form (slice_get (trees_of self.now) node) at ctx also so_far) }
        ensures room { S.room parts.new + 1 ≡ S.room parts.old }
    {
        parts.push_part(Part::Sub(Item {
            node,
            form: form.number(),
            at,
            ctx,
        }));
    }

    /// Adds a fixed text.
    #[inline(always)]
    pub(crate) fn push_text<S: PartList<Context>>(&self, parts: &mut S, number: u16)
        requires room { 0 < S.room parts.old }
        requires text { 0 < length (fixed_text number) }
        ensures shows { (below : Held Context) (so_far : Unshared) → Shows self.now below (S.held parts.old) so_far
            → Shows self.now below (S.held parts.new) (fixed_text number then so_far) }
        ensures room { S.room parts.new + 1 ≡ S.room parts.old }
    {
        parts.push_part(Part::Fixed(number));
    }

    /// Adds bytes of the symbol, if there are any.
    #[inline(always)]
    pub(crate) fn push_bytes<S: PartList<Context>>(&self, parts: &mut S, span: Span)
        requires { 0 < S.room parts.old }
        ensures shows { (below : Held Context) (so_far : Unshared) → Shows self.now below (S.held parts.old) so_far → IsWithin span self.now.bytes
            → Shows self.now below (S.held parts.new) (bytes_at self.now.bytes span then so_far) }
        ensures room { S.room parts.old ≤ S.room parts.new + 1 }
    {
        if span.from < span.to {
            parts.push_part(Part::Symbol(span));
        }
    }

    /// Adds bytes of the text list, if there are any.
    #[inline(always)]
    pub(crate) fn push_printed<S: PartList<Context>>(&self, parts: &mut S, span: Span)
        requires { 0 < S.room parts.old }
        ensures shows { (below : Held Context) (so_far : Unshared) → Shows self.now below (S.held parts.old) so_far → IsWithin span self.now.table.text
            → Shows self.now below (S.held parts.new) (bytes_at self.now.table.text span then so_far) }
        ensures room { S.room parts.old ≤ S.room parts.new + 1 }
    {
        if span.from < span.to {
            parts.push_part(Part::List(span));
        }
    }

    /// Adds what a name prints, if it prints something.
    #[inline(always)]
    pub(crate) fn push_name<S: PartList<Context>>(&self, parts: &mut S, name: Name)
        requires { 0 < S.room parts.old }
        ensures shows { (below : Held Context) (so_far : Unshared) → Shows self.now below (S.held parts.old) so_far
            → HasName self.now.bytes self.now.table.text name
            → Shows self.now below (S.held parts.new) (name_text (name_of self.now.bytes name) then so_far) }
        ensures room { S.room parts.old ≤ S.room parts.new + 1 }
    {
        match name.decoded {
            None => self.push_bytes(parts, name.bytes),
            Some(decoded) => self.push_printed(parts, decoded),
        }
    }

    /// Adds a part with bytes of its own: three texts, one after another.
    pub(crate) fn push_own<S: PartList<Context>>(
        &self,
        parts: &mut S,
        front: &[u8],
        text: &[u8],
        back: &[u8],
    )
        requires room { 0 < S.room parts.old }
        requires few { length front.now + (length text.now + length back.now) ≤ 24 }
        requires some { 0 < length front.now + (length text.now + length back.now) }
        ensures shows { (below : Held Context) (so_far : Unshared) → Shows self.now below (S.held parts.old) so_far
            → Shows self.now below (S.held parts.new) ((front.now ++ (text.now ++ back.now)) then so_far) }
        ensures room { S.room parts.new + 1 ≡ S.room parts.old }
    {
        parts.push_part(own(front, text, back));
    }

    /// Adds an item, if `any` is true.
    #[inline(always)]
    pub(crate) fn push_item_if<S: PartList<Context>>(
        &self,
        any: bool,
        parts: &mut S,
        node: u32,
        form: Form,
        ctx: Context,
    )
        requires { 1 ≤ S.room parts.old }
        ensures shows { (below : Held Context) (so_far : Unshared) → Shows self.now below (S.held parts.old) so_far → HasForm (trees_of self.now) node form → HasDepth form node ctx.bound
            → Shows self.now below (S.held parts.new) (item_if any (shown form (slice_get (trees_of self.now) node) 0 ctx) so_far) }
        ensures room { S.room parts.old ≤ S.room parts.new + 1 }
    {
        if any {
            self.push_item(parts, node, form, 0, ctx);
        }
    }

    /// Adds a separator, unless the next element is the first of its list.
    #[inline(always)]
    pub(crate) fn push_separator<S: PartList<Context>>(
        &self,
        parts: &mut S,
        first: bool,
        number: u16,
    )
        requires room { 1 ≤ S.room parts.old }
        requires text { 0 < length (fixed_text number) }
        ensures shows { (below : Held Context) (so_far : Unshared) → Shows self.now below (S.held parts.old) so_far
            → Shows self.now below (S.held parts.new) ((if first then [] else fixed_text number) then so_far) }
        ensures room { S.room parts.old ≤ S.room parts.new + 1 }
    {
        if !first {
            self.push_text(parts, number);
        }
    }

    /// Adds a decimal.
    pub(crate) fn push_decimal<S: PartList<Context>>(&self, parts: &mut S, number: u64)
        requires { 1 ≤ S.room parts.old }
        ensures shows { (below : Held Context) (so_far : Unshared) → Shows self.now below (S.held parts.old) so_far
            → Shows self.now below (S.held parts.new) (decimal number then so_far) }
        ensures room { S.room parts.old ≤ S.room parts.new + 1 }
    {
        let mut buffer = Buffer::new();
        let digits = buffer.format(number);
        self.push_own(parts, b"", digits.as_bytes(), b"");
    }

    /// Adds the name of a lifetime, the outermost bound one being number 0.
    pub(crate) fn push_numbered<S: PartList<Context>>(&self, parts: &mut S, number: u64)
        requires { 1 ≤ S.room parts.old }
        ensures shows { (below : Held Context) (so_far : Unshared) → Shows self.now below (S.held parts.old) so_far
            → Shows self.now below (S.held parts.new) (numbered_lifetime number then so_far) }
        ensures room { S.room parts.old ≤ S.room parts.new + 1 }
    {
        if number < 26 {
            self.push_own(parts, b"'", &[b'a' + number as u8], b"");
        } else {
            let mut buffer = Buffer::new();
            let digits = buffer.format(number);
            self.push_own(parts, b"'_", digits.as_bytes(), b"");
        }
    }

    /// Adds a lifetime that has `bound` lifetimes bound around it.
    pub(crate) fn push_lifetime<S: PartList<Context>>(
        &self,
        parts: &mut S,
        bound: u64,
        lifetime: u64,
    )
        requires { 1 ≤ S.room parts.old }
        ensures shows { (below : Held Context) (so_far : Unshared) → Shows self.now below (S.held parts.old) so_far
            → Shows self.now below (S.held parts.new) (lifetime_text bound lifetime then so_far) }
        ensures room { S.room parts.old ≤ S.room parts.new + 1 }
    {
        match lifetime {
            0 => self.push_own(parts, b"'_", b"", b""),
            _ => self.push_numbered(parts, from_outermost(bound, lifetime)),
        }
    }

    /// Adds a text and bytes of the symbol after it, unless there are no such bytes.
    #[inline(always)]
    pub(crate) fn push_bytes_behind<S: PartList<Context>>(
        &self,
        parts: &mut S,
        number: u16,
        span: Span,
    )
        requires room { 2 ≤ S.room parts.old }
        requires text { 0 < length (fixed_text number) }
        ensures shows { (below : Held Context) (so_far : Unshared) → Shows self.now below (S.held parts.old) so_far → IsWithin span self.now.bytes
            → Shows self.now below (S.held parts.new) (name_behind (fixed_text number) (bytes_at self.now.bytes span) so_far) }
        ensures room { S.room parts.old ≤ S.room parts.new + 2 }
    {
        if !prints_nothing(span) {
            self.push_bytes(parts, span);
            self.push_text(parts, number);
        }
    }

    /// Adds a text and bytes of the text list after it, unless there are no such bytes.
    #[inline(always)]
    pub(crate) fn push_printed_behind<S: PartList<Context>>(
        &self,
        parts: &mut S,
        number: u16,
        span: Span,
    )
        requires room { 2 ≤ S.room parts.old }
        requires text { 0 < length (fixed_text number) }
        ensures shows { (below : Held Context) (so_far : Unshared) → Shows self.now below (S.held parts.old) so_far → IsWithin span self.now.table.text
            → Shows self.now below (S.held parts.new) (name_behind (fixed_text number) (bytes_at self.now.table.text span) so_far) }
        ensures room { S.room parts.old ≤ S.room parts.new + 2 }
    {
        if !prints_nothing(span) {
            self.push_printed(parts, span);
            self.push_text(parts, number);
        }
    }

    /// Adds a text and a name after it, unless the name prints nothing.
    #[inline(always)]
    pub(crate) fn push_name_behind<S: PartList<Context>>(
        &self,
        parts: &mut S,
        number: u16,
        name: Name,
    )
        requires room { 2 ≤ S.room parts.old }
        requires text { 0 < length (fixed_text number) }
        ensures shows { (below : Held Context) (so_far : Unshared) → Shows self.now below (S.held parts.old) so_far → HasName self.now.bytes self.now.table.text name
            → Shows self.now below (S.held parts.new) (name_behind (fixed_text number) (name_text (name_of self.now.bytes name)) so_far) }
        ensures room { S.room parts.old ≤ S.room parts.new + 2 }
    {
        match name.decoded {
            None => self.push_bytes_behind(parts, number, name.bytes),
            Some(decoded) => self.push_printed_behind(parts, number, decoded),
        }
    }

    /// Adds the name of a namespace.
    pub(crate) fn push_namespace<S: PartList<Context>>(&self, parts: &mut S, namespace: u8)
        requires { 1 ≤ S.room parts.old }
        ensures shows { (below : Held Context) (so_far : Unshared) → Shows self.now below (S.held parts.old) so_far
            → Shows self.now below (S.held parts.new) (namespace_text namespace then so_far) }
        ensures room { S.room parts.old ≤ S.room parts.new + 1 }
    {
        match namespace {
            b'C' => self.push_text(parts, texts::CLOSURE),
            b'S' => self.push_text(parts, texts::SHIM),
            _ => self.push_own(parts, &[namespace], b"", b""),
        }
    }

    /// Adds a name in a namespace that is an upper-case letter.
    #[inline(never)]
    pub(crate) fn push_special<S: PartList<Context>>(
        &self,
        parts: &mut S,
        namespace: u8,
        name: Name,
        disambiguator: u64,
    )
        requires { 7 ≤ S.room parts.old }
        ensures shows { (below : Held Context) (so_far : Unshared) → Shows self.now below (S.held parts.old) so_far → HasName self.now.bytes self.now.table.text name
            → Shows self.now below (S.held parts.new) (special_name namespace (identifier_of self.now.bytes name disambiguator) so_far) }
        ensures room { S.room parts.old ≤ S.room parts.new + 7 }
    {
        self.push_text(parts, texts::RIGHT_BRACE);
        self.push_decimal(parts, disambiguator);
        self.push_text(parts, texts::NUMBER_SIGN);
        self.push_name_behind(parts, texts::COLON, name);
        self.push_namespace(parts, namespace);
        self.push_text(parts, texts::COLONS_BRACE);
    }
}

/// Whether a span prints nothing.
fn prints_nothing(span: Span) -> bool
    ensures { (bytes : List ℕ) → IsWithin span bytes → result ≡ is_empty (bytes_at bytes span) }
{
    span.from >= span.to
}
