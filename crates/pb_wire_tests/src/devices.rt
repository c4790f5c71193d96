//! Devices in memory and over std's readers and writers, each call of which fails in turn.

use pb_wire::{
    DeviceFault, FailurePlan, Input, MemInput, MemOutput, Output, ReadFault, ReadInput, WriteFault,
    WriteOutput, read_up_to, write_all,
};
use std::alloc::Global;
use std::io;
use std::io::{ErrorKind, Read, Write};
use std::test::Fail;

/// Reads these bytes two a call, one call failing after a number of others.
fn read_failing(alloc: Global, others: u64) -> Result<Vec<u8>, ReadFault> {
    let plan = FailurePlan {
        fails_after: Some(others),
    };
    let mut input = MemInput::new(b"abcde", 2, plan);
    read_up_to(alloc, &mut input, 9)
}

#[test]
fn reads(rt: HostRuntime) -> Result<(), Fail> {
    let alloc = rt.alloc();
    let mut input = MemInput::new(b"abcde", 2, FailurePlan::NEVER);
    let first = read_up_to(alloc, &mut input, 3)?;
    let others = read_up_to(alloc, &mut input, 9)?;
    assert!(rt; first.as_slice() == b"abc".as_slice() && others.as_slice() == b"de".as_slice());
    for call in 0..4 {
        assert!(rt; matches!(read_failing(alloc, call), Err(ReadFault::Device)));
    }
    let source: &[u8] = b"abc";
    let read = read_up_to(alloc, &mut ReadInput::new(source), 9)?;
    assert!(rt;
        read_failing(alloc, 4)?.as_slice() == b"abcde".as_slice()
            && read.as_slice() == b"abc".as_slice()
    );
    Ok(())
}

#[test]
fn writes(rt: HostRuntime) {
    let alloc = rt.alloc();
    for call in 0..3 {
        let plan = FailurePlan {
            fails_after: Some(call),
        };
        let mut output = MemOutput::new(alloc, 2, plan);
        let written = 2 * call;
        assert!(rt;
            write_all(&mut output, b"abcde") == Err(WriteFault { written })
                && output.bytes() == &b"abcd"[..written as usize]
        );
    }
    let mut output = MemOutput::new(alloc, 2, FailurePlan::NEVER);
    assert!(rt;
        write_all(&mut output, b"abcde") == Ok(()) && output.bytes() == b"abcde".as_slice()
    );
    let mut output = WriteOutput::new(Vec::new(alloc));
    assert!(rt; write_all(&mut output, b"abc") == Ok(()));
    assert!(rt; output.into_inner().as_slice() == b"abc".as_slice());
}

/// A reader or a writer whose first call fails, as one does that is interrupted. It counts its calls.
#[derive(Drop)]
struct FailsOnce<T> {
    inner: T,
    calls: u64,
}

impl<T> FailsOnce<T> {
    fn new(inner: T) -> FailsOnce<T> {
        FailsOnce { inner, calls: 0 }
    }

    fn count_call(&mut self) -> io::Result<()> {
        self.calls = self.calls.wrapping_add(1);
        if self.calls == 1 {
            return Err(io::Error::from(ErrorKind::Interrupted));
        }
        Ok(())
    }
}

impl<T: Read> Read for FailsOnce<T> {
    fn read(&mut self, into: &mut [u8]) -> io::Result<usize> {
        self.count_call()?;
        self.inner.read(into)
    }
}

impl<T: Write> Write for FailsOnce<T> {
    fn write(&mut self, bytes: &[u8]) -> io::Result<usize> {
        self.count_call()?;
        self.inner.write(bytes)
    }

    fn flush(&mut self) -> io::Result<()> {
        Ok(())
    }
}

/// A writer that takes nothing.
#[derive(Drop)]
struct TakesNone;

impl Write for TakesNone {
    fn write(&mut self, _: &[u8]) -> io::Result<usize> {
        Ok(0)
    }

    fn flush(&mut self) -> io::Result<()> {
        Ok(())
    }
}

/// A failed call is reported at once, and not tried again.
#[test]
fn reader_fails_once(rt: HostRuntime) {
    let source: &[u8] = b"abc";
    let mut input = ReadInput::new(FailsOnce::new(source));
    let mut buffer = [0; 9];
    let first = input.read(&mut buffer);
    let second = input.read(&mut buffer);
    let reader = input.into_inner();
    assert!(rt; first == Err(DeviceFault) && second == Ok(3) && reader.calls == 2);
    assert!(rt; &buffer[..3] == source && reader.inner.is_empty());
}

#[test]
fn writer_fails_once(rt: HostRuntime) {
    let mut output = WriteOutput::new(FailsOnce::new(Vec::new(rt.alloc())));
    let first = output.write(b"abc");
    let second = output.write(b"def");
    let writer = output.into_inner();
    assert!(rt; first == Err(DeviceFault) && second == Ok(3) && writer.calls == 2);
    assert!(rt; writer.inner.as_slice() == b"def".as_slice());
    let mut output = WriteOutput::new(TakesNone);
    assert!(rt; output.write(b"abc") == Err(DeviceFault) && output.write(b"") == Ok(0));
}
