// The words of a file that an argument `@FILE` names.
ghost use Rattle.std.specs.Prelude.{◌≡◌, IfOk, OnOk};
ghost use Rattle.demangle_command.specs.ArgumentFiles.{after_byte, ended, is_blank, is_quote, plain, pushed, quoted, reading_of, words_in, words_of};

use std::alloc::{AllocError, Global};
use std::mem;

/// The state of reading a file's words: the words so far, what was read of the next word, and what is open in that word.
#[derive(Drop)]
pub struct Reading {
    words: Vec<Vec<u8>>,
    word: Vec<u8>,
    // whether a word has begun, even if it has no bytes so far
    is_begun: bool,
    // the open quote, if there is one
    quote: Option<u8>,
    // whether the byte before is a backslash, so that the next byte is taken as it is
    escapes: bool,
}

/// The words of a file. Blanks separate them, but not within `'..'` or `".."`. After a backslash the next byte is taken as it is, also
/// within quotes.
pub fn words_in(alloc: Global, text: &[u8]) -> Result<Vec<Vec<u8>>, AllocError>
    ensures { IfOk result (λ words. words_of words ≡ words_in text.now) }
{
    let mut reading = Reading {
        words: Vec::new(alloc),
        word: Vec::new(alloc),
        is_begun: false,
        quote: None,
        escapes: false,
    };
    'bytes: for byte in text {
        reading.take(alloc, *byte)?;
    }
    reading.end_word(alloc)?;
    Ok(reading.words)
}

/// Whether a byte separates words.
fn is_blank(byte: u8) -> bool
    ensures { result ≡ is_blank byte }
{
    (b'\t'..=b'\r').contains(&byte) || byte == b' '
}

/// Whether a byte opens a quote.
fn is_quote(byte: u8) -> bool
    ensures { result ≡ is_quote byte }
{
    byte == b'\'' || byte == b'"'
}

impl Reading {
    /// Takes the next byte.
    fn take(&mut self, alloc: Global, byte: u8) -> Result<(), AllocError>
        ensures { OnOk result (reading_of self.new ≡ after_byte (reading_of self.old) byte) }
    {
        if self.escapes {
            return self.push(byte);
        }
        if byte == b'\\' {
            self.is_begun = true;
            self.escapes = true;
            return Ok(());
        }
        match self.quote {
            Some(quote) => self.take_quoted(quote, byte),
            None => self.take_plain(alloc, byte),
        }
    }

    /// Takes the next byte within a quote.
    fn take_quoted(&mut self, quote: u8, byte: u8) -> Result<(), AllocError>
        requires { (reading_of self.old).quote ≡ Some quote }
        ensures { OnOk result (reading_of self.new ≡ quoted quote (reading_of self.old) byte) }
    {
        if byte == quote {
            self.quote = None;
            return Ok(());
        }
        self.push(byte)
    }

    /// Takes the next byte outside of quotes.
    fn take_plain(&mut self, alloc: Global, byte: u8) -> Result<(), AllocError>
        ensures { OnOk result (reading_of self.new ≡ plain (reading_of self.old) byte) }
    {
        if is_quote(byte) {
            self.is_begun = true;
            self.quote = Some(byte);
            return Ok(());
        }
        if is_blank(byte) {
            return self.end_word(alloc);
        }
        self.push(byte)
    }

    /// Appends a byte to the word.
    fn push(&mut self, byte: u8) -> Result<(), AllocError>
        ensures { OnOk result (reading_of self.new ≡ pushed (reading_of self.old) byte) }
    {
        self.word.push(byte)?;
        self.is_begun = true;
        self.escapes = false;
        Ok(())
    }

    /// Ends the word, if one has begun.
    fn end_word(&mut self, alloc: Global) -> Result<(), AllocError>
        ensures { OnOk result (reading_of self.new ≡ ended (reading_of self.old)) }
    {
        if self.is_begun {
            let word = mem::replace(&mut self.word, Vec::new(alloc));
            self.words.push(word)?;
            self.is_begun = false;
        }
        Ok(())
    }
}
