// The texts and the notes, as they grow.

ghost use Rattle.std.specs.Prelude.{◌≡◌, ◌+◌, ◌-◌, ◌≤◌, ◌∷◌, ◌++◌, [], ℕ, suc, slice_get, Some, length};
ghost use Rattle.std.specs.Option.{OnSome, IfSome};
ghost use Rattle.rust_direct.specs.Written.{Writes, Opens, Notes, piece};
ghost use Rattle.rust_direct.specs.Notes.{home};
ghost use Rattle.rust_direct.specs.WriterInvariant.{IsWriting};
ghost use Rattle.rust_direct.specs.Awaits.{IsEnded};

use crate::direct::Direct;
use crate::open::{Forms, Note, Open, Step};
use crate::showing::Showing;

impl Direct {
    /// Writes a text.
    #[inline(always)]
    pub(crate) fn push(&mut self, text: &[u8]) -> Option<()>
        ensures { OnSome result (Writes self.old self.new text.now) }
    {
        self.text.push_all(text)
    }

    /// Writes the bytes from one place to another.
    #[inline(always)]
    pub(crate) fn push_part(&mut self, bytes: &[u8], from: usize, to: usize) -> Option<()>
        requires from { from ≤ to }
        requires to { to ≤ length bytes.now }
        ensures { OnSome result (Writes self.old self.new (piece bytes.now from to)) }
    {
        self.text.push_part(bytes, from, to)
    }

    /// Writes a name after colons: the bytes from one place to another.
    #[inline(always)]
    pub(crate) fn push_name(&mut self, bytes: &[u8], from: usize, to: usize) -> Option<()>
        requires from { from ≤ to }
        requires to { to ≤ length bytes.now }
        ensures { OnSome result (Writes self.old self.new (58 ∷ 58 ∷ piece bytes.now from to)) }
    {
        self.text.push_behind_pair(b':', b':', bytes, from, to)
    }

    /// Writes a byte.
    #[inline(always)]
    pub(crate) fn push_byte(&mut self, byte: u8) -> Option<()>
        ensures { OnSome result (Writes self.old self.new (byte ∷ [])) }
    {
        self.text.push(byte)
    }

    /// Writes two bytes.
    #[inline(always)]
    pub(crate) fn push_pair(&mut self, first: u8, second: u8) -> Option<()>
        ensures { OnSome result (Writes self.old self.new (first ∷ second ∷ [])) }
    {
        self.text.push_pair(first, second)
    }

    /// Writes a text, and continues at another place, where an entry waits.
    #[inline(always)]
    pub(crate) fn push_open(&mut self, text: &[u8], entry: Open, at: usize) -> Option<()>
        ensures { OnSome result (Opens self.old self.new text.now entry at) }
    {
        self.text.push_all(text)?;
        self.waiting.push(entry)?;
        self.at = at;
        Some(())
    }

    /// Notes the text from a place on as that of the path or type which began at a place of the symbol.
    #[inline(always)]
    pub(crate) fn note(&mut self, place: usize, from: usize, forms: Forms) -> Option<()>
        ensures { OnSome result (Notes self.old self.new place from forms) }
    {
        if place >= self.numbers.len() {
            return None;
        }
        let count = self.notes.len();
        if count >= u16::MAX as usize {
            return None;
        }
        let to = self.text.len();
        let is_aside = self.is_aside;
        self.notes.push(Note {
            from,
            to,
            forms,
            is_aside,
        })?;
        self.numbers[place] = (count + 1) as u16;
        Some(())
    }

    /// Notes and forwards a path or a type that began at a place and is read now.
    #[inline(always)]
    pub(crate) fn ended<S: Showing>(
        &mut self,
        _s: &[u8],
        place: usize,
        from: usize,
        noted: Forms,
        forms: Forms,
    ) -> Option<Step>
        requires { IsEnded S.IS_BRIEF _s.now self.old place from noted forms }
        ensures { IfSome result (IsWriting S.IS_BRIEF _s.now self.new) }
    {
        self.note(place, from, noted)?;
        Some(Step::Value { from, forms })
    }

    /// The note of a place, if there is one.
    pub(crate) fn noted(&self, place: usize) -> Option<Note>
        ensures { IfSome result (λ n. (k : ℕ) × (slice_get self.now.numbers.items place ≡ Some (suc k)) × (slice_get self.now.notes.list.items k ≡ Some n)) }
    {
        let number = *self.numbers.get(place)?;
        if number == 0 {
            return None;
        }
        self.notes.as_slice().get(number as usize - 1).copied()
    }

    /// Writes the text of a note once more.
    #[inline(always)]
    pub(crate) fn repeat(&mut self, note: Note) -> Option<()>
        ensures { OnSome result (Writes self.old self.new
            (piece (home self.old.is_aside note.is_aside self.old.text.list.items self.old.aside.list.items) note.from note.to)) }
    {
        if note.to < note.from {
            return None;
        }
        if note.is_aside == self.is_aside {
            if note.to > self.text.len() {
                return None;
            }
            return self.text.repeat(note.from, note.to);
        }
        if note.to > self.aside.len() {
            return None;
        }
        self.text
            .push_part(self.aside.as_slice(), note.from, note.to)
    }
}
