// Sources and sinks over memory, whose cuts and failures are scripted.
ghost use Rattle.std.specs.Prelude.{◌≡◌, Some, []};

use std::alloc::Global;
use sym_filter::{Sink, Source};

/// What the next call of a stream over memory does.
#[derive(Clone, Copy, Debug, PartialEq, Eq)]
pub enum Call {
    // the most bytes that it moves
    Moves(usize),
    Fails,
}

/// Bytes that come as a script says. After the end of the script each read gives as many bytes as there is room for.
#[derive(Drop)]
pub struct ScriptedSource<'a> {
    bytes: &'a [u8],
    calls: &'a [Call],
    failures: u64,
    left: u64,
}

impl<'a> ScriptedSource<'a> {
    pub fn new(bytes: &'a [u8], calls: &'a [Call], left: u64) -> ScriptedSource<'a>
        ensures bytes { result.bytes.now ≡ bytes.entry.now }
        ensures calls { result.calls.now ≡ calls.entry.now }
        ensures left { result.left ≡ left }
        ensures no_failure { result.failures ≡ 0 }
    {
        ScriptedSource {
            bytes,
            calls,
            failures: 0,
            left,
        }
    }
}

impl Source for ScriptedSource<'_> {
    ghost coming = { λ source. Some source.bytes.now };

    ghost failure_count = { λ source. source.failures };

    ghost reads_left = { λ source. source.left };

    fn read(&mut self, room: &mut [u8]) -> Option<usize> {
        let mut most = usize::MAX;
        if let Some((call, calls)) = self.calls.split_first() {
            self.calls = calls;
            match call {
                Call::Moves(count) => most = (*count).max(1),
                Call::Fails => most = 0,
            }
        }
        if self.left == 0 || most == 0 {
            self.failures += 1;
            return None;
        }
        self.left -= 1;
        let count = most.min(room.len()).min(self.bytes.len());
        let (piece, rest) = self.bytes.split_at(count);
        room[..count].copy_from_slice(piece);
        self.bytes = rest;
        Some(count)
    }

    fn failures(&self) -> u64 {
        self.failures
    }

    fn left(&self) -> u64 {
        self.left
    }
}

/// A sink that takes bytes as a script says.
#[derive(Drop)]
pub struct ScriptedSink<'a> {
    bytes: Vec<u8>,
    calls: &'a [Call],
    failures: u64,
}

impl<'a> ScriptedSink<'a> {
    pub fn new(alloc: Global, calls: &'a [Call]) -> ScriptedSink<'a>
        ensures nothing_taken { result.bytes.items ≡ [] }
        ensures calls { result.calls.now ≡ calls.entry.now }
        ensures no_failure { result.failures ≡ 0 }
    {
        ScriptedSink {
            bytes: Vec::new(alloc),
            calls,
            failures: 0,
        }
    }

    /// The bytes taken so far.
    pub fn bytes(&self) -> &[u8]
        ensures { result.now ≡ self.now.bytes.items }
    {
        &self.bytes
    }
}

impl Sink for ScriptedSink<'_> {
    ghost taken = { λ sink. Some sink.bytes.items };

    ghost failure_count = { λ sink. sink.failures };

    fn write(&mut self, bytes: &[u8]) -> Option<usize> {
        let mut most = usize::MAX;
        if let Some((call, calls)) = self.calls.split_first() {
            self.calls = calls;
            match call {
                Call::Moves(count) => most = *count,
                Call::Fails => {
                    self.failures += 1;
                    return None;
                }
            }
        }
        let count = most.min(bytes.len());
        if self.bytes.extend_from_slice(&bytes[..count]).is_err() {
            self.failures += 1;
            return None;
        }
        if count == 0 && !bytes.is_empty() {
            self.failures += 1;
        }
        Some(count)
    }

    fn failures(&self) -> u64 {
        self.failures
    }
}
