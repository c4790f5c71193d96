//! Values as lines of tests show them.

use pb_json_text::{JsonForm, JsonMember, JsonValue};
use std::alloc::{AllocError, Global};

/// Writes a string: ASCII characters that need no escape as they are, others by their bytes.
fn show_string(out: &mut String, text: &str) -> Result<(), AllocError> {
    out.push('"')?;
    for &byte in text.as_bytes() {
        if (b' '..=b'~').contains(&byte) && byte != b'"' && byte != b'\\' {
            out.push(char::from(byte))?;
        } else {
            out.push('<')?;
            out.push(digit(byte / 16))?;
            out.push(digit(byte % 16))?;
            out.push('>')?;
        }
    }
    out.push('"')
}

fn digit(value: u8) -> char {
    if value < 10 {
        char::from(b'0' + value)
    } else if value < 16 {
        char::from(b'a' + (value - 10))
    } else {
        '?'
    }
}

fn show_digits(out: &mut String, digits: &[u8]) -> Result<(), AllocError> {
    for &digit in digits {
        out.push(char::from(digit))?;
    }
    Ok(())
}

fn show_place(alloc: Global, out: &mut String, at: usize) -> Result<(), AllocError> {
    let place = format!(in alloc; "{at} ")?;
    out.push_str(&place)
}

#[cycle(show)]
fn show_items(alloc: Global, out: &mut String, items: &[JsonValue]) -> Result<(), AllocError> {
    out.push('[')?;
    let mut first = true;
    for item in items {
        if !first {
            out.push_str(", ")?;
        }
        first = false;
        show_value(alloc, out, item)?;
    }
    out.push(']')
}

#[cycle(show)]
fn show_members(alloc: Global, out: &mut String, members: &[JsonMember]) -> Result<(), AllocError> {
    out.push('{')?;
    let mut first = true;
    for member in members {
        if !first {
            out.push_str(", ")?;
        }
        first = false;
        show_place(alloc, out, member.at)?;
        show_string(out, &member.name)?;
        out.push_str(": ")?;
        show_value(alloc, out, &member.value)?;
    }
    out.push('}')
}

#[cycle(show)]
fn show_value(alloc: Global, out: &mut String, value: &JsonValue) -> Result<(), AllocError> {
    show_place(alloc, out, value.at)?;
    match &value.form {
        JsonForm::Null => out.push_str("null"),
        JsonForm::Bool(truth) => out.push_str(if *truth { "true" } else { "false" }),
        JsonForm::Number(digits) => show_digits(out, digits),
        JsonForm::String(text) => show_string(out, text),
        JsonForm::Array(items) => show_items(alloc, out, items),
        JsonForm::Object(members) => show_members(alloc, out, members),
    }
}

/// The value on one line: each part after the byte where it begins.
pub(crate) fn show(alloc: Global, value: &JsonValue) -> Result<String, AllocError> {
    let mut out = String::new(alloc);
    show_value(alloc, &mut out, value)?;
    Ok(out)
}
