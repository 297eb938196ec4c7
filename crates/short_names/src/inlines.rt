// Texts without the inline namespaces of `std`.
ghost use Rattle.std.specs.Prelude.{◌≡◌, ◌≤◌, ◌+◌, ◌++◌, ◌==◌, length, drop, true, false, None, not, OnOk, get_or};
ghost use Rattle.std.specs.List.{list_all};
ghost use Rattle.short_names.specs.Names.{row_in};
ghost use Rattle.short_names.specs.Inlines.{begins_low, inlines_size, front, inner, nested, has_inlines, without_inlines};

use crate::names::row_size;
use crate::runs::std_run;
use crate::table::{INLINE_FIRSTS, INLINE_THIRDS, INLINES, INNER_INLINES, INNERS, Place};
use std::alloc::AllocError;

/// The size of the inline namespaces with which a name begins.
fn inlines_size(rows: &[Place], name: &[u8]) -> usize
    requires { list_all begins_low rows.now ≡ true }
    ensures within { result ≤ length name.now }
    ensures size { result ≡ inlines_size rows.now 0 name.now }
{
    let mut size = 0;
    'names: while size < name.len() {
        if name[size] != b'_' {
            return size;
        }
        let next = row_size(rows, &name[size..]);
        if next == 0 {
            return size;
        }
        size += next;
    }
    size
}

/// Whether a name may begin with an inline namespace, or with a namespace that has some, by its
/// first byte and its third.
#[inline(always)]
fn may_have_inlines(name: &[u8]) -> bool
    ensures { result ≡ false → (row_in INLINES name.now ≡ None) × (row_in INNERS name.now ≡ None) }
{
    match name {
        [first, _, third, ..] => INLINE_FIRSTS[*first as usize] & INLINE_THIRDS[*third as usize]
            != 0,
        _ => false,
    }
}

/// Where inline namespaces are in a name after `std::`: at its front, and after a namespace that has some of its own.
#[derive(Clone, Copy)]
struct Inlines {
    front: usize,
    inner: usize,
    nested: usize,
}

/// No inline namespaces.
const NO_INLINES: Inlines = Inlines {
    front: 0,
    inner: 0,
    nested: 0,
};

impl Inlines {
    /// The inline namespaces of a name.
    #[inline(always)]
    fn of(name: &[u8]) -> Inlines
        ensures within { result.front + result.inner + result.nested ≤ length name.now }
        ensures front { result.front ≡ front name.now }
        ensures inner { result.inner ≡ inner name.now }
        ensures nested { result.nested ≡ nested name.now }
    {
        if may_have_inlines(name) {
            Inlines::read(name)
        } else {
            NO_INLINES
        }
    }

    /// The inline namespaces of a name that may have some.
    #[inline(never)]
    fn read(name: &[u8]) -> Inlines
        ensures within { result.front + result.inner + result.nested ≤ length name.now }
        ensures front { result.front ≡ front name.now }
        ensures inner { result.inner ≡ inner name.now }
        ensures nested { result.nested ≡ nested name.now }
    {
        let front = inlines_size(&INLINES, name);
        let inner = row_size(&INNERS, &name[front..]);
        let nested = if inner == 0 {
            0
        } else {
            inlines_size(&INNER_INLINES, &name[front + inner..])
        };
        Inlines {
            front,
            inner,
            nested,
        }
    }

    /// Whether there are inline namespaces.
    #[inline(always)]
    fn are_some(self) -> bool
        ensures { result ≡ not (self.front + self.nested == 0) }
    {
        self.front > 0 || self.nested > 0
    }
}

/// Whether a name after `std::` has inline namespaces.
#[inline(always)]
pub(crate) fn has_inlines(name: &[u8]) -> bool
    ensures { result ≡ has_inlines name.now }
{
    Inlines::of(name).are_some()
}

/// Appends a text without its inline namespaces.
pub(crate) fn append_without(text: &[u8], out: &mut Vec<u8>) -> Result<(), AllocError>
    ensures { OnOk result (out.new.items ≡ out.old.items ++ without_inlines false 0 text.now) }
{
    let mut copied = 0;
    let mut at = 0;
    'runs: while let Some(place) = std_run(text, at) {
        let name = place + 5;
        let inlines = Inlines::of(&text[name..]);
        let from = name + inlines.front;
        at = from + inlines.inner + inlines.nested;
        if inlines.are_some() {
            out.extend_from_slice(&text[copied..name])?;
            out.extend_from_slice(&text[from..from + inlines.inner])?;
            copied = at;
        }
    }
    out.extend_from_slice(&text[copied..])?;
    Ok(())
}
