//! An input with a buffer of fixed size.

use pb_wire::{DeviceFault, Input};
use std::marker::Model;

/// The bytes that are asked of the input at a time, and held at most: as many as a pipe holds.
const SIZE: usize = 65_536;

/// An input with a buffer. Its bytes are those that are held, and then those of the input, which is read only where none is held.
#[derive(Drop)]
pub struct BufferedInput<I: Drop> {
    input: I,
    bytes: [u8; SIZE],
    start: usize,
    end: usize,
}

impl<I: Drop> Model for BufferedInput<I> {
    ghost use Rattle.std.specs.Prelude.{◌≤◌, slice_range};
    ghost use Rattle.pb_input.specs.Buffered.{Buffered};

    ghost Value = { Buffered I };

    ghost view = { λ b. record { held = slice_range b.bytes b.start b.end; input = b.input } };

    ghost invariant = { λ b. (b.start ≤ b.end) × (b.end ≤ 65536) };
}

impl<I: Drop> BufferedInput<I> {
    ghost use Rattle.std.specs.Prelude.{◌≡◌, ◌≤◌, ◌++◌, [], length, take, drop, min};

    /// Nothing is held yet.
    pub fn new(input: I) -> BufferedInput<I>
        ensures { result ≡ record { held = []; input = input } }
    {
        BufferedInput {
            input,
            bytes: [0; SIZE],
            start: 0,
            end: 0,
        }
    }

    /// The input. Bytes that are held are lost.
    pub fn into_inner(self) -> I
        ensures { result ≡ self.input }
    {
        self.input
    }

    /// The bytes that are held.
    pub fn held(&self) -> &[u8]
        ensures { result.now ≡ self.now.held }
    {
        &self.bytes[self.start..self.end]
    }

    /// Takes this many of the bytes that are held.
    pub fn advance(&mut self, count: usize)
        requires { count ≤ length self.old.held }
        ensures held { self.new.held ≡ drop count self.old.held }
        ensures input { self.new.input ≡ self.old.input }
    {
        self.start += count;
    }

    /// Gives the first of the bytes that are held, as many as there is space for, and how many they are.
    fn give(&mut self, into: &mut [u8]) -> usize
        ensures count { result ≡ min (length self.old.held) (length into.old) }
        ensures given { self.old.held ≡ take result into.new ++ self.new.held }
        ensures input { self.new.input ≡ self.old.input }
    {
        let count = self.held().len().min(into.len());
        into[..count].copy_from_slice(&self.held()[..count]);
        self.advance(count);
        count
    }
}

impl<I: Input + Drop> BufferedInput<I> {
    ghost use Rattle.std.specs.Prelude.{◌≡◌, ◌≢◌, [], true, IsOk, OnOk, OnErr};
    ghost use Rattle.std.specs.Io.KnownBytes.{Consumes, IsAtEnd, Keeps};

    /// Holds what the input gives next, where nothing is held.
    fn fill(&mut self) -> Result<(), DeviceFault>
        requires { self.old.held ≡ [] }
        ensures filled { OnOk result
            (Consumes (I.left self.old.input) (I.left self.new.input) self.new.held) }
        ensures end { OnOk result (self.new.held ≡ [] → IsAtEnd (I.left self.new.input)) }
        ensures nothing { OnErr result (self.new.held ≡ []) }
        ensures left { OnErr result (Keeps (I.left self.old.input) (I.left self.new.input)) }
        ensures kept { OnOk result (I.failures self.new.input ≡ I.failures self.old.input) }
        ensures failed { OnErr result (I.failures self.new.input ≢ I.failures self.old.input) }
        ensures succeeds { I.is_steady self.old.input ≡ true → IsOk result }
        ensures steady { I.is_steady self.old.input ≡ true → I.is_steady self.new.input ≡ true }
    {
        self.start = 0;
        self.end = 0;
        self.end = self.input.read(&mut self.bytes)?;
        Ok(())
    }
}

impl<I: Input + Drop> Input for BufferedInput<I> {
    ghost use Rattle.pb_input.specs.Buffered.{left_of, of_input};

    ghost left = { λ s. left_of I.left s };

    ghost failures = { λ s. of_input I.failures s };

    ghost is_steady = { λ s. of_input I.is_steady s };

    /// Gives what is held, or where nothing is, what the input gives next.
    fn read(&mut self, into: &mut [u8]) -> Result<usize, DeviceFault> {
        if self.held().is_empty() {
            self.fill()?;
        }
        Ok(self.give(into))
    }
}
