//! Answers as text: `= ` and the canonical bytes of a message, `! ` and a fault's byte, path and cause, or why there is no
//! message else.

use pb_decode::DecodeError;
use pb_encode::encode;
use pb_value::DynamicMessage;
use pb_wire::{Cause, PathStep};
use std::alloc::{AllocError, Global};
use std::test::Fail;

/// The canonical bytes of a message.
fn message_text(alloc: Global, message: &DynamicMessage<'_>) -> Result<String, Fail> {
    let bytes = encode(message)?;
    if bytes.is_empty() {
        return Ok(String::from_str(alloc, "= -")?);
    }
    let digits = hex::encode(alloc, bytes.as_slice())?;
    Ok(format!(in alloc; "= {digits}")?)
}

/// Steps as `3[0].1[2]`, and `-` for none.
fn path_text(alloc: Global, path: &[PathStep]) -> Result<String, AllocError> {
    let mut text = String::new(alloc);
    for step in path {
        if !text.is_empty() {
            text.push('.')?;
        }
        let shown = format!(in alloc; "{}[{}]", step.number, step.occurrence)?;
        text.push_str(shown.as_str())?;
    }
    if text.is_empty() {
        text.push('-')?;
    }
    Ok(text)
}

fn fault_text(
    alloc: Global,
    byte: u64,
    path: &[PathStep],
    cause: Cause,
) -> Result<String, AllocError> {
    let path = path_text(alloc, path)?;
    format!(in alloc; "! {byte} {path} {cause}")
}

/// Why there is no message. Out of memory is passed on.
pub(crate) fn refusal_text(alloc: Global, error: DecodeError) -> Result<String, AllocError> {
    match error {
        DecodeError::Fault { byte, path, cause } => fault_text(alloc, byte, &path, cause),
        DecodeError::Memory => Err(AllocError),
        DecodeError::Device => String::from_str(alloc, "device"),
        DecodeError::Finished => String::from_str(alloc, "finished"),
    }
}

pub(crate) fn answer_text(
    alloc: Global,
    answer: Result<DynamicMessage<'_>, DecodeError>,
) -> Result<String, Fail> {
    match answer {
        Ok(message) => message_text(alloc, &message),
        Err(error) => Ok(refusal_text(alloc, error)?),
    }
}

/// Whether an answer is as expected.
pub(crate) fn is_answered(
    alloc: Global,
    answer: Result<DynamicMessage<'_>, DecodeError>,
    expected: &str,
) -> Result<bool, Fail> {
    Ok(answer_text(alloc, answer)?.as_str() == expected)
}

/// Whether an answer is as expected, or Memory.
pub(crate) fn is_answered_or_memory(
    alloc: Global,
    answer: Result<DynamicMessage<'_>, DecodeError>,
    expected: &str,
) -> Result<bool, Fail> {
    if matches!(answer, Err(DecodeError::Memory)) {
        return Ok(true);
    }
    is_answered(alloc, answer, expected)
}

/// Whether a refusal is as expected.
pub(crate) fn is_refused(alloc: Global, error: DecodeError, expected: &str) -> Result<bool, Fail> {
    Ok(refusal_text(alloc, error)?.as_str() == expected)
}
