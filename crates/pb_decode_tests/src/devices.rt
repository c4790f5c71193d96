//! Texts and frames from an input.

use super::answers::answer_text;
use super::sample::Schema;
use super::words::{bytes_of, is_number, word};
use pb_decode::{decode_frame, decode_from};
use pb_wire::{FailurePlan, Input, Limits, MemInput};
use std::test::Fail;

/// The answer where the input gives a byte a call, and fails by the plan.
fn read_text(
    schema: &Schema,
    limits: Limits,
    bytes: &[u8],
    plan: FailurePlan,
) -> Result<String, Fail> {
    let mut input = MemInput::new(bytes, 1, plan);
    let answer = decode_from(schema.alloc, &schema.pool, schema.kind, &mut input, limits);
    answer_text(schema.alloc, answer)
}

/// Whether the failure after this number of calls is reported, or the fault before it.
fn is_failure(answer: &str, calls: u64, expected: &str) -> bool {
    answer == "device" || calls > 0 && expected.starts_with('!') && answer == expected
}

fn failing_after(calls: u64) -> FailurePlan {
    FailurePlan {
        fails_after: Some(calls),
    }
}

fn is_cut(
    schema: &Schema,
    limits: Limits,
    bytes: &[u8],
    calls: u64,
    expected: &str,
) -> Result<bool, Fail> {
    let answer = read_text(schema, limits, bytes, failing_after(calls))?;
    Ok(is_failure(answer.as_str(), calls, expected))
}

/// Whether each failing read, in turn, is reported.
fn is_cut_at_each_read(
    schema: &Schema,
    limits: Limits,
    bytes: &[u8],
    expected: &str,
) -> Result<bool, Fail> {
    for calls in 0..=bytes.len() {
        if !is_cut(schema, limits, bytes, calls as u64, expected)? {
            return Ok(false);
        }
    }
    Ok(true)
}

fn is_whole(schema: &Schema, limits: Limits, bytes: &[u8], expected: &str) -> Result<bool, Fail> {
    let answer = read_text(schema, limits, bytes, FailurePlan::NEVER)?;
    Ok(answer.as_str() == expected)
}

/// Whether the answer is as expected from an input that gives a byte a call, and what is reported where a read fails.
pub(crate) fn is_read(schema: &Schema, limits: Limits, words: &str) -> Result<bool, Fail> {
    let (input, expected) = word(words);
    let bytes = bytes_of(schema.alloc, input)?;
    Ok(
        is_whole(schema, limits, &bytes, expected)?
            && is_cut_at_each_read(schema, limits, &bytes, expected)?,
    )
}

/// How many bytes an input has left, where they are few.
fn left_of(input: &mut MemInput<'_>) -> Result<usize, Fail> {
    let mut buffer = [0u8; 16];
    Ok(input.read(&mut buffer)?)
}

/// Whether the frame is answered as expected, just the frame is taken, and a failing read of it is reported.
pub(crate) fn is_framed(schema: &Schema, limits: Limits, words: &str) -> Result<bool, Fail> {
    let (start, words) = word(words);
    let (size, words) = word(words);
    let (input, words) = word(words);
    let (left, expected) = word(words);
    let start = start.parse::<u64>()?;
    let size = size.parse::<u32>()?;
    let bytes = bytes_of(schema.alloc, input)?;
    Ok(
        is_frame(schema, limits, start, size, &bytes, left, expected)?
            && is_frame_cut_at_each_read(schema, limits, start, size, &bytes, expected)?,
    )
}

/// The answer to a frame of an input.
fn frame_text(
    schema: &Schema,
    limits: Limits,
    start: u64,
    size: u32,
    input: &mut MemInput<'_>,
) -> Result<String, Fail> {
    if start > 10 || size > limits.max_bytes() {
        return Err(Fail::new("no frame"));
    }
    let answer = decode_frame(
        schema.alloc,
        &schema.pool,
        schema.kind,
        input,
        start,
        size,
        limits,
    );
    answer_text(schema.alloc, answer)
}

fn is_frame(
    schema: &Schema,
    limits: Limits,
    start: u64,
    size: u32,
    bytes: &[u8],
    left: &str,
    expected: &str,
) -> Result<bool, Fail> {
    let mut input = MemInput::new(bytes, 16, FailurePlan::NEVER);
    let answer = frame_text(schema, limits, start, size, &mut input)?;
    Ok(answer.as_str() == expected && is_number(left_of(&mut input)?, left)?)
}

fn is_frame_cut(
    schema: &Schema,
    limits: Limits,
    start: u64,
    size: u32,
    bytes: &[u8],
    calls: u64,
    expected: &str,
) -> Result<bool, Fail> {
    let mut input = MemInput::new(bytes, 1, failing_after(calls));
    let answer = frame_text(schema, limits, start, size, &mut input)?;
    Ok(is_failure(answer.as_str(), calls, expected))
}

/// Whether each failing read of a byte of the frame, in turn, is reported, and that of its end where the input is shorter.
fn is_frame_cut_at_each_read(
    schema: &Schema,
    limits: Limits,
    start: u64,
    size: u32,
    bytes: &[u8],
    expected: &str,
) -> Result<bool, Fail> {
    for calls in 0..=bytes.len() {
        let calls = calls as u64;
        if calls < u64::from(size)
            && !is_frame_cut(schema, limits, start, size, bytes, calls, expected)?
        {
            return Ok(false);
        }
    }
    Ok(true)
}
