//! Devices that fail in turn.

use super::sample::{Schema, closed_sample, holding, long, sample};
use pb_decode::DecodeError;
use pb_encode::{EncodeError, encode};
use pb_stream::{DelimitedReader, read_delimited, write_delimited};
use pb_value::DynamicMessage;
use pb_wire::{FailurePlan, Limits, MemInput, MemOutput};
use std::alloc::Global;
use std::test::Fail;

pub(crate) fn failing_after(calls: u64) -> FailurePlan {
    FailurePlan {
        fails_after: Some(calls),
    }
}

/// Whether a message is written as this frame where the write of one byte after a number of others fails, up to that byte.
fn is_cut(alloc: Global, message: &DynamicMessage<'_>, frame: &[u8], written: usize) -> bool {
    let mut output = MemOutput::new(alloc, 1, failing_after(written as u64));
    let cut = EncodeError::Device {
        written: written as u64,
    };
    write_delimited(message, &mut output) == Err(cut)
        && Some(output.bytes()) == frame.get(..written)
}

/// Whether a message is written as this frame, and cut where each write of one byte fails in turn.
fn is_written(alloc: Global, message: &DynamicMessage<'_>, frame: &[u8]) -> bool {
    for written in 0..frame.len() {
        if !is_cut(alloc, message, frame, written) {
            return false;
        }
    }
    let mut output = MemOutput::new(alloc, 1, FailurePlan::NEVER);
    write_delimited(message, &mut output) == Ok(()) && output.bytes() == frame
}

#[test]
fn writes(rt: HostRuntime) -> Result<(), Fail> {
    let alloc = rt.alloc();
    let schema = sample(alloc)?;
    let empty = DynamicMessage::new(alloc, &schema.pool, schema.kind);
    let full = holding(alloc, &schema, 150)?;
    assert!(rt;
        is_written(alloc, &empty, b"\x00") && is_written(alloc, &full, b"\x03\x08\x96\x01")
    );
    Ok(())
}

/// Frames of groups and closed enums in canonical form.
const CLOSED: &[&[u8]] = &[
    b"\x06\x1b\x08\x05\x1c\x20\x02",
    b"\x08\x2a\x02\x01\x02\x28\x07\x28\x09",
    b"\x02\x1b\x1c",
];

/// Whether the message of a frame is written as that frame.
pub(crate) fn is_written_back(alloc: Global, schema: &Schema, frame: &[u8]) -> Result<bool, Fail> {
    let mut input = MemInput::new(frame, 3, FailurePlan::NEVER);
    match read_delimited(alloc, &schema.pool, schema.kind, &mut input, Limits::FULL)? {
        None => Ok(false),
        Some(message) => Ok(is_written(alloc, &message, frame)),
    }
}

fn are_written_back(alloc: Global, schema: &Schema) -> Result<bool, Fail> {
    for frame in CLOSED {
        if !is_written_back(alloc, schema, frame)? {
            return Ok(false);
        }
    }
    Ok(true)
}

#[test]
fn writes_groups_and_closed_enums(rt: HostRuntime) -> Result<(), Fail> {
    let schema = closed_sample(rt.alloc())?;
    assert!(rt; are_written_back(rt.alloc(), &schema)?);
    Ok(())
}

/// Whether each failing read, in turn, is reported, and the reader is finished then.
fn is_told(alloc: Global, schema: &Schema, bytes: &[u8], calls: u64) -> bool {
    let mut input = MemInput::new(bytes, 1, failing_after(calls));
    let read = read_delimited(alloc, &schema.pool, schema.kind, &mut input, Limits::FULL);
    let input = MemInput::new(bytes, 1, failing_after(calls));
    let mut reader = DelimitedReader::new(alloc, &schema.pool, schema.kind, input, Limits::FULL);
    matches!(read, Err(DecodeError::Device))
        && matches!(reader.next(), Err(DecodeError::Device))
        && matches!(reader.next(), Err(DecodeError::Finished))
        && reader.taken() == 0
}

#[test]
fn reads(rt: HostRuntime) -> Result<(), Fail> {
    let alloc = rt.alloc();
    let schema = sample(alloc)?;
    let bytes = b"\x03\x08\x96\x01";
    assert!(rt; (0..4).all(|calls| is_told(alloc, &schema, bytes, calls)));
    Ok(())
}

/// How long the texts of the messages are that are written one after the other.
const LETTERS: &[usize] = &[0, 1, 125, 126, 127, 4090, 4095, 9000, 20_000];

fn write_messages(alloc: Global, schema: &Schema, output: &mut MemOutput) -> Result<(), Fail> {
    for letters in LETTERS {
        write_delimited(&long(alloc, schema, *letters)?, output)?;
    }
    Ok(())
}

/// Whether the next message has a string of `letters` letters.
fn is_next(
    alloc: Global,
    schema: &Schema,
    reader: &mut DelimitedReader<'_, MemInput<'_>>,
    letters: usize,
) -> Result<bool, Fail> {
    let wanted = encode(&long(alloc, schema, letters)?)?;
    match reader.next()? {
        None => Ok(false),
        Some(message) => Ok(encode(&message)?.as_slice() == wanted.as_slice()),
    }
}

/// Whether the messages are read back from what was written.
fn is_read_back(alloc: Global, schema: &Schema, written: &[u8]) -> Result<bool, Fail> {
    let input = MemInput::new(written, 1000, FailurePlan::NEVER);
    let mut reader = DelimitedReader::new(alloc, &schema.pool, schema.kind, input, Limits::FULL);
    for letters in LETTERS {
        if !is_next(alloc, schema, &mut reader, *letters)? {
            return Ok(false);
        }
    }
    Ok(reader.next()?.is_none() && reader.taken() == written.len() as u64)
}

#[test]
fn what_is_written_is_read(rt: HostRuntime) -> Result<(), Fail> {
    let alloc = rt.alloc();
    let schema = sample(alloc)?;
    let mut output = MemOutput::new(alloc, 1000, FailurePlan::NEVER);
    write_messages(alloc, &schema, &mut output)?;
    assert!(rt; is_read_back(alloc, &schema, output.bytes())?);
    Ok(())
}
