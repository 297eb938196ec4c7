// Words, which are bytes, as the texts that the command line's parser takes.
ghost use Rattle.std.specs.Prelude.{◌≡◌, IfOk, None, OnOk, map, nat_lt, string_bytes};
ghost use Rattle.demangle_command.specs.Texts.{after_byte, bytes_of, decoding_of, first_taken, second_taken, text_of};

use std::alloc::{AllocError, Global};

/// The texts that the parser is given for words.
pub(crate) fn texts_of(alloc: Global, words: &[&[u8]]) -> Result<Vec<String>, AllocError>
    ensures { IfOk result (λ texts. map (λ text. string_bytes text) texts.items ≡ map text_of (map (λ word. word.now) words.now)) }
{
    let mut texts = Vec::with_capacity(alloc, words.len())?;
    'words: for word in words {
        let text = text_of(alloc, word)?;
        texts.push(text)?;
    }
    Ok(texts)
}

/// The text that the parser is given for a word: each byte becomes the character whose number is the byte.
fn text_of(alloc: Global, word: &[u8]) -> Result<String, AllocError>
    ensures { IfOk result (λ text. string_bytes text ≡ text_of word.now) }
{
    let mut text = String::new(alloc);
    'bytes: for byte in word {
        text.push(char::from(*byte))?;
    }
    Ok(text)
}

/// References to texts.
pub(crate) fn lent_texts(alloc: Global, texts: &[String]) -> Result<Vec<&str>, AllocError>
    ensures { IfOk result (λ lent. map (λ text. text.now) lent.items ≡ map string_bytes texts.now) }
{
    texts.iter().map(|text| text.as_str()).collect(alloc)
}

/// The words whose texts the parser has.
pub(crate) fn words_of(alloc: Global, texts: &[&str]) -> Result<Vec<Vec<u8>>, AllocError>
    ensures { IfOk result (λ words. map (λ word. word.items) words.items ≡ map bytes_of (map (λ text. text.now) texts.now)) }
{
    let mut words = Vec::with_capacity(alloc, texts.len())?;
    'texts: for text in texts {
        let word = bytes_of(alloc, text)?;
        words.push(word)?;
    }
    Ok(words)
}

/// References to words.
pub(crate) fn lent_words(alloc: Global, words: &[Vec<u8>]) -> Result<Vec<&[u8]>, AllocError>
    ensures { IfOk result (λ lent. map (λ word. word.now) lent.items ≡ map (λ word. word.items) words.now) }
{
    words.iter().map(|word| word.as_slice()).collect(alloc)
}

/// The word whose text the parser has.
pub(crate) fn bytes_of(alloc: Global, text: &str) -> Result<Vec<u8>, AllocError>
    ensures { IfOk result (λ bytes. bytes.items ≡ bytes_of text.now) }
{
    bytes_in(alloc, text.as_bytes())
}

/// The word whose text, as the parser has it, has these bytes.
fn bytes_in(alloc: Global, text: &[u8]) -> Result<Vec<u8>, AllocError>
    ensures { IfOk result (λ bytes. bytes.items ≡ bytes_of text.now) }
{
    let mut decoding = Decoding {
        bytes: Vec::new(alloc),
        lead: None,
    };
    'bytes: for byte in text {
        decoding.take(*byte)?;
    }
    Ok(decoding.bytes)
}

/// The state of reading a text: the word so far, and the first byte of a character whose second byte is still to come.
#[derive(Drop)]
pub struct Decoding {
    bytes: Vec<u8>,
    lead: Option<u8>,
}

impl Decoding {
    /// Takes the next byte.
    fn take(&mut self, byte: u8) -> Result<(), AllocError>
        ensures { OnOk result (decoding_of self.new ≡ after_byte (decoding_of self.old) byte) }
    {
        match self.lead {
            Some(lead) => self.take_second(lead, byte),
            None => self.take_first(byte),
        }
    }

    /// Takes the first byte of a character.
    fn take_first(&mut self, byte: u8) -> Result<(), AllocError>
        requires { (decoding_of self.old).lead ≡ None }
        ensures { OnOk result (decoding_of self.new ≡ first_taken (decoding_of self.old) byte) }
    {
        if is_ascii(byte) {
            self.bytes.push(byte)?;
            return Ok(());
        }
        self.lead = Some(byte);
        Ok(())
    }

    /// Takes the second byte of a character.
    fn take_second(&mut self, lead: u8, byte: u8) -> Result<(), AllocError>
        ensures { OnOk result (decoding_of self.new ≡ second_taken lead (decoding_of self.old) byte) }
    {
        self.bytes.push(lead % 4 * 64 + byte % 64)?;
        self.lead = None;
        Ok(())
    }
}

/// Whether a byte is a character by itself.
fn is_ascii(byte: u8) -> bool
    ensures { result ≡ nat_lt byte 128 }
{
    byte < 128
}
