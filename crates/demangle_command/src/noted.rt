// Streams of a process, which keep the reason of their last failure.
ghost use Rattle.std.specs.Prelude.{◌≡◌};

use std::io::{Error, Read, Result, Write};

/// A stream that keeps the reason of its last failure.
#[derive(Drop)]
pub struct Noted<S: Drop> {
    stream: S,
    error: Option<Error>,
}

impl<S: Drop> Noted<S> {
    pub fn new(stream: S) -> Noted<S>
        ensures { result.stream ≡ stream }
    {
        Noted {
            stream,
            error: None,
        }
    }

    /// The reason of the stream's last failure, if it has failed.
    pub fn error(&self) -> Option<Error>
        ensures { result ≡ self.now.error }
    {
        self.error
    }
}

impl<R: Read + Drop> Read for Noted<R> {
    ghost remaining = { λ noted. R.remaining noted.stream };

    fn read(&mut self, room: &mut [u8]) -> Result<usize> {
        match self.stream.read(room) {
            Ok(count) => Ok(count),
            Err(error) => {
                self.error = Some(error);
                Err(error)
            }
        }
    }
}

impl<W: Write + Drop> Write for Noted<W> {
    ghost contents = { λ noted. W.contents noted.stream };

    fn write(&mut self, bytes: &[u8]) -> Result<usize> {
        match self.stream.write(bytes) {
            Ok(count) => Ok(count),
            Err(error) => {
                self.error = Some(error);
                Err(error)
            }
        }
    }

    fn flush(&mut self) -> Result<()> {
        self.stream.flush()
    }
}
