//! Devices over the readers and writers of std. Each counts its failures in a number that wraps.

ghost use Rattle.std.specs.Prelude.{◌≡◌, false};

use crate::device::{DeviceFault, Input, Output};
use std::io::{Read, Write};

/// A reader as an input.
#[derive(Drop)]
pub struct ReadInput<R: Drop> {
    reader: R,
    failures: u64,
}

impl<R: Read + Drop> ReadInput<R> {
    pub fn new(reader: R) -> ReadInput<R>
        ensures { ⟦<ReadInput<R> as Input>⟧.left result ≡ R.remaining reader }
    {
        ReadInput {
            reader,
            failures: 0,
        }
    }

    /// The reader.
    pub fn into_inner(self) -> R
        ensures { R.remaining result ≡ ⟦<ReadInput<R> as Input>⟧.left self }
    {
        self.reader
    }
}

impl<R: Read + Drop> Input for ReadInput<R> {
    ghost left = { λ s. R.remaining s.reader };

    ghost failures = { λ s. s.failures };

    ghost is_steady = { λ _. false };

    fn read(&mut self, into: &mut [u8]) -> Result<usize, DeviceFault> {
        match self.reader.read(into) {
            Ok(count) => Ok(count),
            Err(_) => {
                self.failures = self.failures.wrapping_add(1);
                Err(DeviceFault)
            }
        }
    }
}

/// A writer as an output. A write that takes none of some bytes is a failure.
#[derive(Drop)]
pub struct WriteOutput<W: Drop> {
    writer: W,
    failures: u64,
}

impl<W: Write + Drop> WriteOutput<W> {
    pub fn new(writer: W) -> WriteOutput<W>
        ensures { ⟦<WriteOutput<W> as Output>⟧.written result ≡ W.contents writer }
    {
        WriteOutput {
            writer,
            failures: 0,
        }
    }

    /// The writer.
    pub fn into_inner(self) -> W
        ensures { W.contents result ≡ ⟦<WriteOutput<W> as Output>⟧.written self }
    {
        self.writer
    }
}

impl<W: Write + Drop> Output for WriteOutput<W> {
    ghost written = { λ s. W.contents s.writer };

    ghost failures = { λ s. s.failures };

    fn write(&mut self, bytes: &[u8]) -> Result<usize, DeviceFault> {
        match self.writer.write(bytes) {
            Ok(count) if count > 0 || bytes.is_empty() => Ok(count),
            _ => {
                self.failures = self.failures.wrapping_add(1);
                Err(DeviceFault)
            }
        }
    }
}
