//! Adapters over std's reader and writer. They tell nothing of the bytes, since no contract says what the outside gives.
ghost use Rattle.std.specs.Prelude.{◌≡◌, None};

use crate::{Failed, Sink, Source};
use std::io::{ErrorKind, Read, Write};

// How often a call is tried that a signal interrupted.
const TRIES: u32 = 65_536;

/// A source over a reader of std, as a file or standard input.
#[derive(Drop)]
pub struct StdSource<T> {
    inner: T,
    faults: u64,
}

impl<T: Read> StdSource<T> {
    /// A source over this reader.
    pub fn new(inner: T) -> StdSource<T>
        ensures inner { result.inner ≡ inner }
        ensures faults { result.faults ≡ 0 }
    {
        StdSource { inner, faults: 0 }
    }
}

impl<T: Read + Drop> Source for StdSource<T> {
    ghost left = { λ s. None };

    ghost source_faults = { λ s. s.faults };

    fn read(&mut self, buf: &mut [u8]) -> Result<usize, Failed> {
        for _ in 0..TRIES {
            match self.inner.read(buf) {
                Ok(n) => return Ok(n),
                Err(e) if e.kind() == ErrorKind::Interrupted => {}
                Err(_) => break,
            }
        }
        self.faults = self.faults.saturating_add(1);
        Err(Failed)
    }

    fn faults(&self) -> u64 {
        self.faults
    }
}

/// A sink over a writer of std, as a file or standard output. A writer that buffers is flushed by its owner.
#[derive(Drop)]
pub struct StdSink<T> {
    inner: T,
    faults: u64,
}

impl<T: Write> StdSink<T> {
    /// A sink over this writer.
    pub fn new(inner: T) -> StdSink<T>
        ensures inner { result.inner ≡ inner }
        ensures faults { result.faults ≡ 0 }
    {
        StdSink { inner, faults: 0 }
    }
}

impl<T: Write + Drop> Sink for StdSink<T> {
    ghost held = { λ s. None };

    ghost sink_faults = { λ s. s.faults };

    fn write(&mut self, bytes: &[u8]) -> Result<usize, Failed> {
        for _ in 0..TRIES {
            match self.inner.write(bytes) {
                Ok(0) if !bytes.is_empty() => break,
                Ok(n) => return Ok(n),
                Err(e) if e.kind() == ErrorKind::Interrupted => {}
                Err(_) => break,
            }
        }
        self.faults = self.faults.saturating_add(1);
        Err(Failed)
    }

    fn faults(&self) -> u64 {
        self.faults
    }
}
