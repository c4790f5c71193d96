//! What is written of a message.

use crate::rows::ROWS;
use crate::schema::{message_of, pool};
use pb_schema::Pool;
use pb_text::{Characters, Layout, TextForm, UnknownRecords, write_text};
use pb_value::DynamicMessage;
use pb_wire::{FailurePlan, MemOutput};
use std::alloc::{AllocError, Global};
use std::test::Fail;

/// The form that letters name.
fn form_of(letters: &str) -> TextForm {
    let mut form = TextForm::PROTOC;
    if letters.contains('o') {
        form.layout = Layout::OneLine;
    }
    if letters.contains('u') {
        form.characters = Characters::Utf8;
    }
    if letters.contains('h') {
        form.unknown = UnknownRecords::Omitted;
    }
    form
}

/// Whether this text is written.
fn is_written(alloc: Global, message: &DynamicMessage<'_>, form: TextForm, text: &[u8]) -> bool {
    let mut output = MemOutput::new(alloc, 1_000_000, FailurePlan::NEVER);
    write_text(&mut output, &message.view(), form).is_ok() && output.bytes() == text
}

/// Whether an output that takes one byte a call, and fails after each number of calls in turn, gets just the
/// bytes before.
fn is_cut(alloc: Global, message: &DynamicMessage<'_>, form: TextForm, text: &[u8]) -> bool {
    for calls in 0..text.len().min(50) as u64 {
        let plan = FailurePlan {
            fails_after: Some(calls),
        };
        let mut output = MemOutput::new(alloc, 1, plan);
        let written = write_text(&mut output, &message.view(), form);
        if written.is_ok() || Some(output.bytes()) != text.get(..calls as usize) {
            return false;
        }
    }
    true
}

/// The text of a row, with line ends.
fn text_of(alloc: Global, text: &str) -> Result<Vec<u8>, AllocError> {
    let mut bytes = Vec::new(alloc);
    for byte in text.as_bytes() {
        bytes.push(if *byte == b'|' { b'\n' } else { *byte })?;
    }
    Ok(bytes)
}

/// Whether a message of these bytes has this text in this form, whole and cut.
fn has_text(alloc: Global, pool: &Pool, form: &str, bytes: &str, text: &str) -> Result<bool, Fail> {
    let message = message_of(alloc, pool, bytes)?;
    let form = form_of(form);
    let text = text_of(alloc, text)?;
    Ok(is_written(alloc, &message, form, &text) && is_cut(alloc, &message, form, &text))
}

/// Whether a row is right. One that is empty or begins with `#` is.
fn is_right(alloc: Global, pool: &Pool, row: &str) -> Result<bool, Fail> {
    if row.is_empty() || row.starts_with('#') {
        return Ok(true);
    }
    let (form, rest) = row.split_once(' ').ok_or("a row without bytes")?;
    let (bytes, text) = rest.split_once(' ').ok_or("a row without a text")?;
    has_text(alloc, pool, form, bytes, text)
}

/// The first row that is wrong.
fn wrong_row(alloc: Global, pool: &Pool) -> Result<Option<&'static str>, Fail> {
    for row in ROWS.lines() {
        if !is_right(alloc, pool, row)? {
            return Ok(Some(row));
        }
    }
    Ok(None)
}

#[test]
fn texts_are_those_of_libprotobuf(rt: HostRuntime) -> Result<(), Fail> {
    let alloc = rt.alloc();
    let pool = pool(alloc)?;
    let wrong = wrong_row(alloc, &pool)?;
    assert_eq!(rt; wrong, None);
    Ok(())
}
