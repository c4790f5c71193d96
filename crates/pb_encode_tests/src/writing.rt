//! What each call answers for a message.

ghost use Rattle.std.specs.Prelude.{◌<◌};

use pb_encode::planning::plan;
use pb_encode::{EncodeError, encode, encode_to, encoded_len};
use pb_value::DynamicMessage;
use pb_wire::{FailurePlan, MemOutput};
use std::alloc::Global;
use std::test::Fail;

/// Whether just these bytes are sent, a number of them a call.
fn is_sent(
    alloc: Global,
    message: &DynamicMessage<'_>,
    bytes: &[u8],
    most: usize,
) -> Result<bool, EncodeError>
    requires { 0 < most }
{
    let mut output = MemOutput::new(alloc, most, FailurePlan::NEVER);
    encode_to(message, &mut output)?;
    Ok(output.bytes() == bytes)
}

/// Whether a plan writes these bytes, and has this number of entries.
fn is_planned(
    alloc: Global,
    message: &DynamicMessage<'_>,
    bytes: &[u8],
    entries: usize,
) -> Result<bool, EncodeError> {
    let mut output = MemOutput::new(alloc, 1_000_000, FailurePlan::NEVER);
    let plan = plan(message)?;
    plan.write_to(&mut output)?;
    let is_measured = plan.len() as usize == bytes.len() && plan.entries() == entries;
    Ok(is_measured && output.bytes() == bytes)
}

/// Whether every call gives these bytes or their length, and this number of entries.
pub(crate) fn is_written(
    alloc: Global,
    message: &DynamicMessage<'_>,
    bytes: &[u8],
    entries: usize,
) -> Result<bool, EncodeError> {
    Ok(
        encoded_len(message) == bytes.len() as u128
            && encode(message)?.as_slice() == bytes
            && is_sent(alloc, message, bytes, 1)?
            && is_planned(alloc, message, bytes, entries)?,
    )
}

/// How many bytes are written, a prefix of these, where the device fails after a number of calls. None where the call reports otherwise.
fn sent_before_failure(
    alloc: Global,
    message: &DynamicMessage<'_>,
    bytes: &[u8],
    most: usize,
    calls: u64,
) -> Option<usize>
    requires { 0 < most }
{
    let mut output = MemOutput::new(alloc, most, failing_after(calls));
    let told = encode_to(message, &mut output);
    let sent = output.bytes().len();
    let is_told = match told {
        Ok(()) => sent == bytes.len(),
        Err(error) => {
            error
                == EncodeError::Device {
                    written: sent as u64,
                }
        }
    };
    (is_told && bytes.starts_with(output.bytes())).then_some(sent)
}

/// Whether, with each write refused in turn, what went out is a beginning of the bytes and is counted.
pub(crate) fn is_cut(alloc: Global, message: &DynamicMessage<'_>, bytes: &[u8], most: usize) -> bool
    requires { 0 < most }
{
    for calls in 0..bytes.len() as u64 {
        match sent_before_failure(alloc, message, bytes, most, calls) {
            None => return false,
            Some(sent) if sent == bytes.len() => return true,
            Some(_) => {}
        }
    }
    true
}

/// Whether a plan, with the write of this byte refused, sends just the bytes before it.
fn is_plan_cut_at(
    alloc: Global,
    message: &DynamicMessage<'_>,
    bytes: &[u8],
    end: usize,
) -> Result<bool, EncodeError> {
    let written = end as u64;
    let mut output = MemOutput::new(alloc, 1, failing_after(written));
    let is_told = plan(message)?.write_to(&mut output) == Err(EncodeError::Device { written });
    Ok(is_told && Some(output.bytes()) == bytes.get(..end))
}

/// Whether, with the write of this byte refused, just the bytes before it went out.
fn is_cut_at(alloc: Global, message: &DynamicMessage<'_>, bytes: &[u8], end: usize) -> bool {
    let written = end as u64;
    let mut output = MemOutput::new(alloc, 1, failing_after(written));
    encode_to(message, &mut output) == Err(EncodeError::Device { written })
        && Some(output.bytes()) == bytes.get(..end)
        && is_plan_cut_at(alloc, message, bytes, end) == Ok(true)
}

/// Whether, with each write of one byte refused in turn, just the bytes before it went out.
pub(crate) fn is_cut_at_each_byte(
    alloc: Global,
    message: &DynamicMessage<'_>,
    bytes: &[u8],
) -> bool {
    for end in 0..bytes.len() {
        if !is_cut_at(alloc, message, bytes, end) {
            return false;
        }
    }
    true
}

fn is_encoded_or_memory(message: &DynamicMessage<'_>, bytes: &[u8]) -> bool {
    match encode(message) {
        Ok(text) => text.as_slice() == bytes,
        Err(error) => error == EncodeError::Memory,
    }
}

fn is_sent_or_memory(alloc: Global, message: &DynamicMessage<'_>, bytes: &[u8]) -> bool {
    let mut output = MemOutput::new(alloc, 1_000_000, FailurePlan::NEVER);
    match encode_to(message, &mut output) {
        Ok(()) => output.bytes() == bytes,
        Err(EncodeError::TooLarge) => false,
        Err(EncodeError::Memory) => output.bytes().is_empty(),
        // The output in memory fails where it can't grow.
        Err(EncodeError::Device { written }) => output.bytes().len() as u64 == written,
    }
}

fn is_planned_or_memory(
    alloc: Global,
    message: &DynamicMessage<'_>,
    bytes: &[u8],
    entries: usize,
) -> bool {
    match is_planned(alloc, message, bytes, entries) {
        Ok(is_right) => is_right,
        Err(error) => error != EncodeError::TooLarge,
    }
}

/// Whether each call gives the bytes, or fails because memory ran out with nothing more written than it reports.
pub(crate) fn is_written_or_memory(
    alloc: Global,
    message: &DynamicMessage<'_>,
    bytes: &[u8],
    entries: usize,
) -> bool {
    is_encoded_or_memory(message, bytes)
        && is_sent_or_memory(alloc, message, bytes)
        && is_planned_or_memory(alloc, message, bytes, entries)
        && encoded_len(message) == bytes.len() as u128
}

fn failing_after(calls: u64) -> FailurePlan {
    FailurePlan {
        fails_after: Some(calls),
    }
}
