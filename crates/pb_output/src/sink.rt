//! Output through a buffer of fixed size. The first failure of the output is kept, and nothing is written after it, so that putting needs no
//! answer but at its end.

ghost use Rattle.std.specs.Prelude.{◌≡◌, ◌+◌, ◌*◌, ◌≤◌, ◌++◌, [], false, true, length, Some, None, if◌then◌else◌};
ghost use Rattle.hex.specs.Hex.{encode_lower};
ghost use Rattle.pb_wire.specs.Varint.{shortest};

use crate::buffer::{MAX_VARINT, OutputBuffer, SIZE};
use pb_wire::{DeviceFault, Output, write_all};

/// The bytes that are put in hexadecimal at a time.
const CHUNK: usize = 1024;

/// Bytes on their way to an output, which each call that may write is passed. A contract sees the bytes that are held, how many
/// went out, and whether the output failed.
#[derive(Drop)]
pub struct Sink {
    /// What is pushed here follows what was put, also after a failure, where it is lost.
    pub held: OutputBuffer,
    sent: u64,
    failed: bool,
}

impl Sink {
    ghost use Rattle.pb_output.specs.Sink.{Finishes, Puts};

    /// Nothing is held yet.
    pub fn new() -> Sink
        ensures { result ≡ record { held = []; sent = 0; failed = false } }
    {
        Sink {
            held: OutputBuffer::new(),
            sent: 0,
            failed: false,
        }
    }

    /// Writes what is held. Where the output fails, what is held is lost.
    pub fn flush<O: Output>(&mut self, out: &mut O)
        ensures puts { Puts O.written O.failures out.old out.new self.old self.new [] }
        ensures empty { self.new.held ≡ [] }
    {
        if self.failed {
            self.held.clear();
            return;
        }
        self.write_held(out);
    }

    fn write_held<O: Output>(&mut self, out: &mut O)
        requires { self.old.failed ≡ false }
        ensures puts { Puts O.written O.failures out.old out.new self.old self.new [] }
        ensures empty { self.new.held ≡ [] }
    {
        let count = self.held.as_slice().len() as u64;
        let written = write_all(out, self.held.as_slice());
        self.held.clear();
        match written {
            Ok(()) => self.sent = self.sent.saturating_add(count),
            Err(fault) => {
                self.sent = self.sent.saturating_add(fault.written);
                self.failed = true;
            }
        }
    }

    /// Ends a text: writes what is held, and answers the first failure.
    pub fn finish<O: Output>(mut self, out: &mut O) -> Result<(), DeviceFault>
        ensures { Finishes O.written O.failures out.old out.new self result }
    {
        if self.failed {
            return Err(DeviceFault);
        }
        self.flush(out);
        if self.failed {
            Err(DeviceFault)
        } else {
            Ok(())
        }
    }

    /// Whether the output failed.
    pub fn has_failed(&self) -> bool
        ensures { result ≡ self.now.failed }
    {
        self.failed
    }

    /// Whether the output failed, and how many bytes went out before.
    pub fn failure(&self) -> Option<u64>
        ensures { result ≡ (if self.now.failed then Some self.now.sent else None) }
    {
        if self.failed { Some(self.sent) } else { None }
    }

    /// Sees that this many bytes more can be held.
    #[inline(always)]
    pub fn reserve<O: Output>(&mut self, out: &mut O, count: usize)
        requires { count ≤ SIZE }
        ensures fits { length self.new.held + count ≤ SIZE }
        ensures kept { Puts O.written O.failures out.old out.new self.old self.new [] }
    {
        if count > self.held.free() {
            self.flush(out);
        }
    }

    /// Puts bytes after those that were put before. Bytes that do not fit the buffer go out after those that it holds.
    pub fn put<O: Output>(&mut self, out: &mut O, bytes: &[u8])
        ensures { Puts O.written O.failures out.old out.new self.old self.new bytes.now }
    {
        if bytes.len() <= self.held.free() {
            self.held.push(bytes);
            return;
        }
        self.flush(out);
        self.put_first(out, bytes);
    }

    /// Puts bytes where none is held.
    fn put_first<O: Output>(&mut self, out: &mut O, bytes: &[u8])
        requires { self.old.held ≡ [] }
        ensures { Puts O.written O.failures out.old out.new self.old self.new bytes.now }
    {
        if self.failed {
            return;
        }
        if bytes.len() <= SIZE {
            self.held.push(bytes);
        } else {
            self.write_through(out, bytes);
        }
    }

    /// Writes bytes where none is held.
    fn write_through<O: Output>(&mut self, out: &mut O, bytes: &[u8])
        requires empty { self.old.held ≡ [] }
        requires open { self.old.failed ≡ false }
        ensures { Puts O.written O.failures out.old out.new self.old self.new bytes.now }
    {
        match write_all(out, bytes) {
            Ok(()) => self.sent = self.sent.saturating_add(bytes.len() as u64),
            Err(fault) => {
                self.sent = self.sent.saturating_add(fault.written);
                self.failed = true;
            }
        }
    }

    /// Puts a number as a varint, in its shortest spelling.
    #[inline(always)]
    pub fn put_varint<O: Output>(&mut self, out: &mut O, number: u64)
        ensures { Puts O.written O.failures out.old out.new self.old self.new (shortest number) }
    {
        self.reserve(out, MAX_VARINT);
        self.held.push_varint(number);
    }

    /// Puts two numbers as varints, one after the other.
    #[inline(always)]
    pub fn put_varints<O: Output>(&mut self, out: &mut O, first: u64, second: u64)
        ensures { Puts O.written O.failures out.old out.new self.old self.new (shortest first ++ shortest second) }
    {
        self.reserve(out, 2 * MAX_VARINT);
        self.held.push_varint(first);
        self.held.push_varint(second);
    }

    /// Puts a number as a varint, and a few bytes after it.
    #[inline(always)]
    pub fn put_varint_before<O: Output>(&mut self, out: &mut O, number: u64, bytes: &[u8])
        requires { length bytes.now ≤ MAX_VARINT }
        ensures { Puts O.written O.failures out.old out.new self.old self.new (shortest number ++ bytes.now) }
    {
        self.reserve(out, 2 * MAX_VARINT);
        self.held.push_varint(number);
        self.held.push(bytes);
    }

    /// Puts bytes in hexadecimal, in lower case.
    pub fn put_hex<O: Output>(&mut self, out: &mut O, bytes: &[u8])
        ensures { Puts O.written O.failures out.old out.new self.old self.new (encode_lower bytes.now) }
    {
        let mut done = 0;
        'chunks: while done < bytes.len() {
            if self.failed {
                return;
            }
            let end = bytes.len().min(done + CHUNK);
            self.put_chunk(out, &bytes[done..end]);
            done = end;
        }
    }

    fn put_chunk<O: Output>(&mut self, out: &mut O, bytes: &[u8])
        requires { length bytes.now ≤ CHUNK }
        ensures { Puts O.written O.failures out.old out.new self.old self.new (encode_lower bytes.now) }
    {
        self.reserve(out, 2 * bytes.len());
        self.held.push_hex(bytes);
    }
}
