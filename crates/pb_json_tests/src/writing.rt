//! What is written of a message.

use pb_json::{JsonError, JsonForm, write_json};
use pb_value::DynamicMessage;
use pb_wire::{FailurePlan, MemOutput};
use std::alloc::{AllocError, Global};

/// Whether these bytes are written.
pub(crate) fn is_written(
    alloc: Global,
    message: &DynamicMessage<'_>,
    form: JsonForm<'_>,
    json: &[u8],
) -> Result<bool, AllocError> {
    let mut output = MemOutput::new(alloc, 1_000_000, FailurePlan::NEVER);
    match write_json(&mut output, alloc, &message.view(), form) {
        Ok(()) => Ok(output.bytes() == json),
        Err(JsonError::Memory) => Err(AllocError),
        Err(_) => Ok(false),
    }
}

/// Whether an output that takes one byte a call, and fails after each number of calls in turn, gets just the bytes before.
pub(crate) fn is_cut(
    alloc: Global,
    message: &DynamicMessage<'_>,
    form: JsonForm<'_>,
    json: &[u8],
) -> bool {
    for calls in 0..json.len().min(100) as u64 {
        let plan = FailurePlan {
            fails_after: Some(calls),
        };
        let mut output = MemOutput::new(alloc, 1, plan);
        let answer = write_json(&mut output, alloc, &message.view(), form);
        let is_reported = matches!(answer, Err(JsonError::Output));
        if !is_reported || Some(output.bytes()) != json.get(..calls as usize) {
            return false;
        }
    }
    true
}
