//! Answers as words: a scalar, `-` for none, or `! ` and a fault's byte, path and cause.

use pb_decode::DecodeError;
use pb_find::ScalarRef;
use pb_wire::PathStep;
use std::alloc::{AllocError, Global};

/// Steps as `3[0].1[2]`, and `-` for none.
fn path_text(alloc: Global, path: &[PathStep]) -> Result<String, AllocError> {
    let mut text = String::new(alloc);
    for step in path {
        if !text.is_empty() {
            text.push('.')?;
        }
        let shown = format!(in alloc; "{}[{}]", step.number, step.occurrence)?;
        text.push_str(shown.as_str())?;
    }
    if text.is_empty() {
        text.push('-')?;
    }
    Ok(text)
}

/// Why there is no answer. Out of memory is handed on.
pub(crate) fn refusal_text(alloc: Global, error: DecodeError) -> Result<String, AllocError> {
    match error {
        DecodeError::Fault { byte, path, cause } => {
            let path = path_text(alloc, &path)?;
            format!(in alloc; "! {byte} {path} {cause}")
        }
        DecodeError::Memory => Err(AllocError),
        DecodeError::Device | DecodeError::Finished => String::from_str(alloc, "wrong error"),
    }
}

/// A scalar as `I32(5)`, and `-` for none.
fn scalar_text(alloc: Global, scalar: Option<ScalarRef<'_>>) -> Result<String, AllocError> {
    match scalar {
        Some(scalar) => format!(in alloc; "{scalar:?}"),
        None => String::from_str(alloc, "-"),
    }
}

pub(crate) fn answer_text(
    alloc: Global,
    answer: Result<Option<ScalarRef<'_>>, DecodeError>,
) -> Result<String, AllocError> {
    match answer {
        Ok(scalar) => scalar_text(alloc, scalar),
        Err(error) => refusal_text(alloc, error),
    }
}
