// What calls answer, in the words of a row, and whether each call answers what the row says.

use std::alloc::{AllocError, Global};
use sym_core::Refusal;

/// What is in a list before a call appends to it.
pub const BEFORE: &[u8] = b"> ";

/// Whether a row holds, judged by the calls made so far. If memory ran out, only the lack of memory
/// is recorded.
#[derive(Clone, Copy)]
pub struct Verdict {
    pub alloc: Global,
    pub failed: bool,
    pub lacked: bool,
}

impl Verdict {
    /// The verdict before any call.
    pub fn new(alloc: Global) -> Verdict {
        Verdict {
            alloc,
            failed: false,
            lacked: false,
        }
    }

    /// Records whether a required condition holds.
    pub fn require(&mut self, holds: bool) {
        if !holds {
            self.failed = true;
        }
    }

    /// Notes that memory ran out.
    pub fn lack(&mut self) {
        self.lacked = true;
    }

    /// Notes whether a text is the text that a row gives.
    pub fn text(&mut self, text: &[u8], wanted: &[u8]) {
        match spelled(self.alloc, text) {
            Ok(text) => self.require(text.as_slice() == wanted),
            Err(_) => self.lack(),
        }
    }

    /// Checks the row's reason for a refusal.
    pub fn refusal(&mut self, refusal: Refusal, wanted: &[u8]) {
        match reason(self.alloc, refusal) {
            Ok(reason) => self.require(reason.as_bytes() == wanted),
            Err(_) => self.lack(),
        }
    }

    /// Notes whether a call answers what the row says.
    pub fn says(&mut self, answer: Result<Vec<u8>, Refusal>, wanted: &[u8]) {
        match answer {
            Ok(text) => self.text(&text, wanted),
            Err(refusal) => self.refusal(refusal, wanted),
        }
    }

    /// Notes whether a call answers what the row says. `None` is the answer of a call that broke another promise.
    pub fn soundly_says(&mut self, answer: Result<Option<Vec<u8>>, Refusal>, wanted: &[u8]) {
        match answer {
            Ok(Some(text)) => self.text(&text, wanted),
            Ok(None) => self.require(false),
            Err(refusal) => self.refusal(refusal, wanted),
        }
    }

    /// Notes whether the bytes that a call appended to a list are those that the row gives. A call that refuses leaves the list as it was.
    pub fn appended(&mut self, answer: Result<(), Refusal>, list: &[u8], wanted: &[u8]) {
        let Some(text) = list.strip_prefix(BEFORE) else {
            self.require(false);
            return;
        };
        match answer {
            Ok(()) => self.text(text, wanted),
            Err(refusal) => {
                self.require(text.is_empty());
                self.refusal(refusal, wanted);
            }
        }
    }
}

/// Bytes as a row spells them: a backslash, a tab, a line's end and the byte 0xFF as two bytes each.
pub fn spelled(alloc: Global, bytes: &[u8]) -> Result<Vec<u8>, AllocError> {
    let mut spelled = Vec::new(alloc);
    for byte in bytes {
        match *byte {
            b'\\' => spelled.extend_from_slice(b"\\\\")?,
            b'\t' => spelled.extend_from_slice(b"\\t")?,
            b'\n' => spelled.extend_from_slice(b"\\n")?,
            0xff => spelled.extend_from_slice(b"\\f")?,
            byte => spelled.push(byte)?,
        }
    }
    Ok(spelled)
}

/// The bytes that a row spells.
pub fn unspelled(alloc: Global, field: &[u8]) -> Result<Vec<u8>, AllocError> {
    let mut bytes = Vec::new(alloc);
    let mut escapes = false;
    for byte in field {
        match (escapes, *byte) {
            (false, b'\\') => {}
            (true, b't') => bytes.push(b'\t')?,
            (true, b'n') => bytes.push(b'\n')?,
            (true, b'f') => bytes.push(0xff)?,
            (_, byte) => bytes.push(byte)?,
        }
        escapes = !escapes && *byte == b'\\';
    }
    Ok(bytes)
}

/// Why a symbol has no text. Lack of memory isn't such a reason.
fn reason(alloc: Global, refusal: Refusal) -> Result<String, AllocError> {
    match refusal {
        Refusal::Malformed { at } => format!(in alloc; "malformed at {at}"),
        Refusal::BadReference { at } => format!(in alloc; "bad reference at {at}"),
        Refusal::BadValue { at } => format!(in alloc; "bad value at {at}"),
        Refusal::TooLong => format!(in alloc; "too long"),
        Refusal::Memory => Err(AllocError),
    }
}
