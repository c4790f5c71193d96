//! The rows of streams where each call of their device fails in turn, and where an allocation is refused, which `.ci/allocations` does.

use super::devices::{failing_after, is_written_back};
use super::frames::{CLOSED, ROWS, Refusal, Row, is_refusal};
use super::sample::{Schema, closed_sample, sample};
use pb_decode::DecodeError;
use pb_encode::{EncodeError, encode};
use pb_stream::{DelimitedReader, read_delimited, write_delimited};
use pb_value::DynamicMessage;
use pb_wire::{FailurePlan, Limits, MemInput, MemOutput, put_varint};
use std::alloc::Global;
use std::test::Fail;

type Answer<'p> = Result<Option<DynamicMessage<'p>>, DecodeError>;

/// Whether an answer is the message of these bytes, or none where the device failed. Out of memory is passed on.
fn is_message(alloc: Global, answer: Answer<'_>, text: &str) -> Result<Option<bool>, Fail> {
    match answer {
        Ok(Some(message)) => {
            let wanted = hex::decode(alloc, text)?;
            Ok(Some(encode(&message)?.as_slice() == wanted.as_slice()))
        }
        Err(DecodeError::Device) => Ok(None),
        Err(DecodeError::Memory) => Err(Fail::new("no memory")),
        _ => Ok(Some(false)),
    }
}

fn is_refused(error: &DecodeError, refusal: Option<&Refusal>) -> bool {
    match refusal {
        None => false,
        Some(refusal) => is_refusal(error, refusal),
    }
}

/// The same of the end of the frames, or of the refusal of the next one.
fn is_end(answer: Answer<'_>, refusal: Option<&Refusal>) -> Result<Option<bool>, Fail> {
    match answer {
        Ok(message) => Ok(Some(message.is_none() && refusal.is_none())),
        Err(DecodeError::Device) => Ok(None),
        Err(DecodeError::Memory) => Err(Fail::new("no memory")),
        Err(error) => Ok(Some(is_refused(&error, refusal))),
    }
}

/// The same of all that a reader gives.
fn is_given(
    alloc: Global,
    reader: &mut DelimitedReader<'_, MemInput<'_>>,
    row: &Row,
) -> Result<Option<bool>, Fail> {
    for (text, _) in row.messages {
        let is_next = is_message(alloc, reader.next(), text)?;
        if is_next != Some(true) {
            return Ok(is_next);
        }
    }
    is_end(reader.next(), row.refusal.as_ref())
}

/// The same of all frames that are read, each by a call.
fn is_taken(
    alloc: Global,
    schema: &Schema,
    input: &mut MemInput<'_>,
    row: &Row,
    limits: Limits,
) -> Result<Option<bool>, Fail> {
    for (text, _) in row.messages {
        let read = read_delimited(alloc, &schema.pool, schema.kind, input, limits);
        let is_next = is_message(alloc, read, text)?;
        if is_next != Some(true) {
            return Ok(is_next);
        }
    }
    let read = read_delimited(alloc, &schema.pool, schema.kind, input, limits);
    is_end(read, row.refusal.as_ref())
}

/// What a row's bytes are found to be, a byte a read, by the reader and by calls.
fn found(
    alloc: Global,
    schema: &Schema,
    row: &Row,
    bytes: &[u8],
    plan: FailurePlan,
) -> Result<(Option<bool>, Option<bool>), Fail> {
    let limits = Limits::new(row.most, 100).ok_or("limits")?;
    let mut input = MemInput::new(bytes, 1, plan);
    let taken = is_taken(alloc, schema, &mut input, row, limits)?;
    let input = MemInput::new(bytes, 1, plan);
    let mut reader = DelimitedReader::new(alloc, &schema.pool, schema.kind, input, limits);
    let given = is_given(alloc, &mut reader, row)?;
    if given.is_none() && !matches!(reader.next(), Err(DecodeError::Finished)) {
        return Ok((taken, Some(false)));
    }
    Ok((taken, given))
}

/// Whether the failure was reported, or the refusal before it.
fn is_failure(answer: Option<bool>, row: &Row) -> bool {
    match answer {
        None => true,
        Some(is_told) => is_told && row.refusal.is_some(),
    }
}

fn is_cut_at_each_read(alloc: Global, schema: &Schema, row: &Row) -> Result<bool, Fail> {
    let bytes = hex::decode(alloc, row.input)?;
    for calls in 0..=bytes.len() {
        let (taken, given) = found(alloc, schema, row, &bytes, failing_after(calls as u64))?;
        if !is_failure(taken, row) || !is_failure(given, row) {
            return Ok(false);
        }
    }
    Ok(true)
}

/// A message's bytes in their frame.
fn frame_of(alloc: Global, text: &str) -> Result<Vec<u8>, Fail> {
    let bytes = hex::decode(alloc, text)?;
    let length = put_varint(bytes.len() as u64);
    let mut frame = Vec::from_slice(alloc, length.as_slice())?;
    frame.extend_from_slice(&bytes)?;
    Ok(frame)
}

fn is_cut_at_each_write(alloc: Global, schema: &Schema, row: &Row) -> Result<bool, Fail> {
    for (text, _) in row.messages {
        if !is_written_back(alloc, schema, &frame_of(alloc, text)?)? {
            return Ok(false);
        }
    }
    Ok(true)
}

fn are_cut(alloc: Global, schema: &Schema, rows: &[Row]) -> Result<bool, Fail> {
    for row in rows {
        if !is_cut_at_each_read(alloc, schema, row)? || !is_cut_at_each_write(alloc, schema, row)? {
            return Ok(false);
        }
    }
    Ok(true)
}

/// Each read of a row, and each write of its messages, fails in turn.
#[test]
fn devices(rt: HostRuntime) -> Result<(), Fail> {
    let schema = sample(rt.alloc())?;
    let closed = closed_sample(rt.alloc())?;
    assert!(rt; are_cut(rt.alloc(), &schema, ROWS)? && are_cut(rt.alloc(), &closed, CLOSED)?);
    Ok(())
}

/// Whether a message is written as this frame, or out of memory is reported before anything is. The output in memory fails where it can't grow, after a
/// beginning that is counted.
fn is_sent(alloc: Global, message: &DynamicMessage<'_>, frame: &[u8]) -> bool {
    let mut output = MemOutput::new(alloc, 1_000_000, FailurePlan::NEVER);
    match write_delimited(message, &mut output) {
        Ok(()) => output.bytes() == frame,
        Err(EncodeError::TooLarge) => false,
        Err(EncodeError::Memory) => output.bytes().is_empty(),
        Err(EncodeError::Device { written }) => {
            written == output.bytes().len() as u64 && frame.starts_with(output.bytes())
        }
    }
}

fn is_sent_back(alloc: Global, schema: &Schema, frame: &[u8]) -> Result<bool, Fail> {
    let mut input = MemInput::new(frame, 100, FailurePlan::NEVER);
    match read_delimited(alloc, &schema.pool, schema.kind, &mut input, Limits::FULL)? {
        None => Ok(false),
        Some(message) => Ok(is_sent(alloc, &message, frame)),
    }
}

fn are_sent_back(alloc: Global, schema: &Schema, row: &Row) -> Result<bool, Fail> {
    for (text, _) in row.messages {
        if !is_sent_back(alloc, schema, &frame_of(alloc, text)?)? {
            return Ok(false);
        }
    }
    Ok(true)
}

fn is_whole(alloc: Global, schema: &Schema, row: &Row) -> Result<bool, Fail> {
    let bytes = hex::decode(alloc, row.input)?;
    let (taken, given) = found(alloc, schema, row, &bytes, FailurePlan::NEVER)?;
    let is_read = taken == Some(true) && given == Some(true);
    Ok(is_read && are_sent_back(alloc, schema, row)?)
}

fn are_whole(alloc: Global, schema: &Schema, rows: &[Row]) -> Result<bool, Fail> {
    for row in rows {
        if !is_whole(alloc, schema, row)? {
            return Ok(false);
        }
    }
    Ok(true)
}

#[test]
fn allocations(rt: HostRuntime) -> Result<(), Fail> {
    let schema = sample(rt.alloc())?;
    let closed = closed_sample(rt.alloc())?;
    assert!(rt; are_whole(rt.alloc(), &schema, ROWS)? && are_whole(rt.alloc(), &closed, CLOSED)?);
    Ok(())
}
