// A short text that is being written.
ghost use Rattle.std.specs.Prelude.{◌≡◌, ◌≤◌, ◌<◌, ◌++◌, ◌+◌, ◌-◌, ◌^◌, ◌∷◌, [], ℕ, List, length, take, drop, get_or, IfOk, OnOk, Bool, true, false, if◌then◌else◌};
ghost use Rattle.short_names.specs.Runs.{is_name_byte};
ghost use Rattle.short_names.specs.Short.{short};
ghost use Rattle.short_names.specs.Writing.{CanStep, CanChange, CanClose, IsAtMember, IsAtString, GoesFrom, StepsFrom, IsAt, IsPending, IsShortened, IsClosed, Goes};
ghost use Rattle.short_names.specs.Walk.{Written, is_opening, is_closing};
ghost use Rattle.short_names.specs.declared.writing.Bracket.{Bracket as Innermost};

use crate::closing::{append_constructor, close, is_string};
use crate::finding::first_change;
use crate::names::{Change, Named, change_at};
use crate::patterns::text_at;
use crate::runs::{is_name_byte, operator_size, run_at};
use crate::table::{ALIASES, Place, STRING, STRING_LIST};
use std::alloc::{AllocError, Global};

/// Whether a byte is an opening bracket.
fn is_opening(byte: u8) -> bool
    ensures { result ≡ is_opening byte }
{
    byte == b'<' || byte == b'(' || byte == b'[' || byte == b'{'
}

/// Whether a byte is a closing bracket other than a list's.
fn is_closing(byte: u8) -> bool
    ensures { result ≡ is_closing byte }
{
    byte == b')' || byte == b']' || byte == b'}'
}

/// An open bracket: whether it opens an argument list, the name of the table before that list, where the bracket is in the written text,
/// and how many elements began before it.
#[derive(Clone, Copy)]
pub(crate) struct Bracket {
    pub is_list: bool,
    pub named: Option<Listed>,
    pub place: usize,
    pub first: usize,
}

/// A name of the table before a list: its `std::`, and the row of its template.
#[derive(Clone, Copy)]
pub(crate) struct Listed {
    pub whole: Place,
    pub row: usize,
}

/// A short text that is being written, and the place that is reached in the text it is made of.
#[derive(Drop)]
pub(crate) struct Writing {
    /// The place that is reached in the text.
    pub at: usize,
    /// How much of the text was written or left out.
    pub copied: usize,
    /// What was written.
    pub out: Vec<u8>,
    /// The open brackets. The first is that of a list after a name of the table.
    pub brackets: Vec<Bracket>,
    /// Where the elements within open brackets begin, in the text that is written.
    pub starts: Vec<usize>,
}

impl Writing {
    /// A short text without memory so far.
    pub(crate) fn new(alloc: Global) -> Writing {
        Writing {
            at: 0,
            copied: 0,
            out: Vec::new(alloc),
            brackets: Vec::new(alloc),
            starts: Vec::new(alloc),
        }
    }

    /// Writes the short text of a text; answers whether its brackets pair.
    pub(crate) fn write(&mut self, text: &[u8]) -> Result<bool, AllocError>
        ensures { IfOk result (λ pairs. short text.now ≡ if pairs then self.new.out.items else text.now) }
    {
        self.clear();
        'pieces: while self.at < text.len() {
            if !self.step(text)? {
                return Ok(false);
            }
        }
        self.copy(text)?;
        Ok(self.brackets.is_empty())
    }

    /// Begins anew.
    fn clear(&mut self)
        ensures at { self.new.at ≡ 0 }
        ensures copied { self.new.copied ≡ 0 }
        ensures out { self.new.out.items ≡ [] }
        ensures brackets { self.new.brackets.items ≡ [] }
        ensures starts { self.new.starts.items ≡ [] }
    {
        self.at = 0;
        self.copied = 0;
        self.out.clear();
        self.brackets.clear();
        self.starts.clear();
    }

    /// Writes the part of the text that was looked at and isn't written yet.
    fn copy(&mut self, text: &[u8]) -> Result<(), AllocError>
        requires { (self.old.copied ≤ self.old.at) × (self.old.at ≤ length text.now) }
        ensures out { OnOk result (self.new.out.items ≡ self.old.out.items ++ take (self.old.at - self.old.copied) (drop self.old.copied text.now)) }
        ensures copied { OnOk result (self.new.copied ≡ self.old.at) }
        ensures at { self.new.at ≡ self.old.at }
        ensures brackets { self.new.brackets.items ≡ self.old.brackets.items }
        ensures starts { self.new.starts.items ≡ self.old.starts.items }
    {
        self.out.extend_from_slice(&text[self.copied..self.at])?;
        self.copied = self.at;
        Ok(())
    }

    /// Goes over the next piece of the text; answers whether brackets pair so far.
    fn step(&mut self, text: &[u8]) -> Result<bool, AllocError>
        requires { CanStep text.now self.old }
        ensures { StepsFrom text.now self.old self.new result }
    {
        if self.brackets.is_empty() {
            self.step_outside(text)?;
            return Ok(true);
        }
        let byte = text[self.at];
        if is_name_byte(byte) {
            self.step_run(text)?;
            return Ok(true);
        }
        self.step_sign(text, byte)
    }

    /// Goes over the next name that becomes or may become shorter, outside of brackets; if there is none, goes to the end of the text.
    fn step_outside(&mut self, text: &[u8]) -> Result<(), AllocError>
        requires { CanStep text.now self.old × (self.old.brackets.items ≡ []) }
        ensures { GoesFrom text.now self.old self.new result }
    {
        let Some(found) = first_change(&text[self.at..]) else {
            self.at = text.len();
            return Ok(());
        };
        self.at += found.at;
        self.change(text, found.size, found.change)?;
        Ok(())
    }

    /// Goes over a run of bytes of names, and what belongs to it.
    fn step_run(&mut self, text: &[u8]) -> Result<(), AllocError>
        requires { CanStep text.now self.old × (is_name_byte (get_or text.now self.old.at 0) ≡ true) × (0 < length self.old.brackets.items) }
        ensures { GoesFrom text.now self.old self.new result }
    {
        let rest = &text[self.at..];
        let run = run_at(rest);
        let size = run.len();
        if run.starts_with(b"std::") {
            let change = change_at(rest, run);
            self.change(text, size, change)?;
            return Ok(());
        }
        self.at += size + operator_size(run, &rest[size..]);
        Ok(())
    }

    /// Goes over a run of this size that begins with `std::`, and applies the change.
    fn change(&mut self, text: &[u8], size: usize, change: Change) -> Result<(), AllocError>
        requires { CanChange text.now self.old size change }
        ensures { GoesFrom text.now self.old self.new result }
    {
        match change {
            Change::Nothing => {
                let rest = &text[self.at..];
                self.at += size + operator_size(&rest[..size], &rest[size..]);
                Ok(())
            }
            Change::List { whole, row } => {
                if is_string(whole, row, &text[self.at + size..]) {
                    return self.write_string(text, size);
                }
                self.at += size;
                self.open_bracket(true, Some(Listed { whole, row }))?;
                Ok(())
            }
            Change::Member { row, size } => self.write_member(text, row, size),
        }
    }

    /// Writes `std::string` for a run of this size and the list that follows it, then the constructor or destructor after the list.
    fn write_string(&mut self, text: &[u8], size: usize) -> Result<(), AllocError>
        requires { IsAtString text.now self.old size }
        ensures { GoesFrom text.now self.old self.new result }
    {
        let alias = ALIASES[STRING];
        let end = self.at + size + STRING_LIST.len();
        self.at += size - text_at(alias.template).len();
        self.copy(text)?;
        self.out.extend_from_slice(text_at(alias.name))?;
        let more = append_constructor(alias, &text[end..], &mut self.out)?;
        self.at = end + more;
        self.copied = self.at;
        Ok(())
    }

    /// Writes a usual name that ends after some bytes, and the constructor or destructor after it.
    fn write_member(&mut self, text: &[u8], row: usize, size: usize) -> Result<(), AllocError>
        requires { IsAtMember text.now self.old row size }
        ensures { GoesFrom text.now self.old self.new result }
    {
        self.at += size;
        self.copy(text)?;
        let more = append_constructor(ALIASES[row], &text[self.at..], &mut self.out)?;
        self.at += more;
        self.copied = self.at;
        Ok(())
    }

    /// Goes over a byte that can't be in a name, within brackets; answers whether brackets pair so far.
    fn step_sign(&mut self, text: &[u8], byte: u8) -> Result<bool, AllocError>
        requires { CanStep text.now self.old × (byte ≡ get_or text.now self.old.at 0) × (is_name_byte byte ≡ false) × (0 < length self.old.brackets.items) }
        ensures { StepsFrom text.now self.old self.new result }
    {
        if is_opening(byte) {
            self.open_bracket(byte == b'<', None)?;
            return Ok(true);
        }
        if byte == b'>' {
            return self.close_list(text);
        }
        if is_closing(byte) {
            return Ok(self.close_group());
        }
        if byte == b',' {
            self.step_comma(text)?;
            return Ok(true);
        }
        if byte == b'-' {
            self.step_minus(text);
            return Ok(true);
        }
        self.at += 1;
        Ok(true)
    }

    /// Opens a bracket, with the name of the table before it, if there is one.
    fn open_bracket(&mut self, is_list: bool, named: Option<Listed>) -> Result<(), AllocError>
        requires { (self.old.copied ≤ self.old.at) × (self.old.at < 2 ^ 63) }
        ensures brackets { OnOk result (self.new.brackets.items ≡ self.old.brackets.items ++ record { is_list = is_list; named = named; place = length self.old.out.items + (self.old.at - self.old.copied); first = length self.old.starts.items } ∷ []) }
        ensures starts { OnOk result (self.new.starts.items ≡ self.old.starts.items ++ (length self.old.out.items + (self.old.at - self.old.copied) + 1) ∷ []) }
        ensures at { OnOk result (self.new.at ≡ self.old.at + 1) }
        ensures copied { self.new.copied ≡ self.old.copied }
        ensures out { self.new.out.items ≡ self.old.out.items }
    {
        let place = self.out.len() + (self.at - self.copied);
        let first = self.starts.len();
        self.brackets.push(Bracket {
            is_list,
            named,
            place,
            first,
        })?;
        self.starts.push(place + 1)?;
        self.at += 1;
        Ok(())
    }

    /// Closes a list; answers whether it was open.
    fn close_list(&mut self, text: &[u8]) -> Result<bool, AllocError>
        requires { CanStep text.now self.old × (get_or text.now self.old.at 0 ≡ 62) × (0 < length self.old.brackets.items) }
        ensures { StepsFrom text.now self.old self.new result }
    {
        let Some(list) = self.brackets.pop() else {
            return Ok(false);
        };
        if !list.is_list {
            return Ok(false);
        }
        if let Some(listed) = list.named {
            self.close_named(text, list, listed)?;
            self.starts.truncate(list.first);
            return Ok(true);
        }
        self.starts.truncate(list.first);
        self.at += 1;
        Ok(true)
    }

    /// Closes the list of a name of the table.
    fn close_named(&mut self, text: &[u8], list: Bracket, listed: Listed) -> Result<(), AllocError>
        requires { CanClose text.now self.old list listed }
        ensures { (before name : List ℕ) (elements : List (List ℕ)) → IsPending text.now self.old list listed before name elements → OnOk result (IsShortened text.now self.old self.new listed before name elements) }
    {
        self.copy(text)?;
        let named = Named::of_row(listed.whole, listed.row);
        let rest = &text[self.at + 1..];
        let size = close(
            &mut self.out,
            named,
            list.place,
            &self.starts[list.first..],
            rest,
        )?;
        self.at += 1 + size;
        self.copied = self.at;
        Ok(())
    }

    /// Closes the innermost bracket, if it isn't a list's; answers whether it did.
    fn close_group(&mut self) -> bool
        requires { self.old.at < 2 ^ 63 }
        ensures list { (around : List Innermost) (bracket : Innermost) → self.old.brackets.items ≡ around ++ bracket ∷ [] → bracket.is_list ≡ true → result ≡ false }
        ensures group { (around : List Innermost) (bracket : Innermost) → self.old.brackets.items ≡ around ++ bracket ∷ [] → bracket.is_list ≡ false → (result ≡ true) × IsClosed self.old self.new around bracket }
    {
        let Some(group) = self.brackets.pop() else {
            return false;
        };
        if group.is_list {
            return false;
        }
        self.starts.truncate(group.first);
        self.at += 1;
        true
    }

    /// Goes over a comma, which ends an element if a blank follows it.
    fn step_comma(&mut self, text: &[u8]) -> Result<(), AllocError>
        requires { CanStep text.now self.old × (get_or text.now self.old.at 0 ≡ 44) × (0 < length self.old.brackets.items) }
        ensures { GoesFrom text.now self.old self.new result }
    {
        if self.is_in_list() && text[self.at..].starts_with(b", ") {
            let start = self.out.len() + (self.at + 2 - self.copied);
            self.starts.push(start)?;
            self.at += 2;
            return Ok(());
        }
        self.at += 1;
        Ok(())
    }

    /// Whether the innermost bracket is that of a list.
    fn is_in_list(&self) -> bool
        ensures { (around : List Innermost) (bracket : Innermost) → self.now.brackets.items ≡ around ++ bracket ∷ [] → result ≡ bracket.is_list }
    {
        match self.brackets.last() {
            Some(bracket) => bracket.is_list,
            None => false,
        }
    }

    /// Goes over a minus, or an arrow.
    fn step_minus(&mut self, text: &[u8])
        requires { CanStep text.now self.old × (get_or text.now self.old.at 0 ≡ 45) × (0 < length self.old.brackets.items) }
        ensures { (written : Written) → IsAt text.now self.old written → Goes text.now self.old.at self.new }
    {
        if text[self.at..].starts_with(b"->") {
            self.at += 2;
        } else {
            self.at += 1;
        }
    }
}
