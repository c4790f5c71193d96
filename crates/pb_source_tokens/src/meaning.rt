//! What texts mean (Protocol Buffers Language Specification (Proto3), "String literals").

ghost use Rattle.std.specs.Prelude.{◌≡◌, ◌≢◌, ◌++◌, OnOk, encode_utf8, true};
ghost use Rattle.pb_source_tokens.specs.Texts.{escape_len, is_scalar, escape_meaning, meant_from, text_meaning};

use crate::text::{escape_len, is_plain, number_at, short_escape};
use std::alloc::AllocError;

/// Appends a character as UTF-8.
fn push_character(into: &mut Vec<u8>, number: u32) -> Result<(), AllocError>
    requires { is_scalar number ≡ true }
    ensures { OnOk result (into.new.items ≡ into.old.items ++ encode_utf8 number) }
{
    if let Some(character) = char::from_u32(number) {
        let mut buffer = [0; 4];
        let text = character.encode_utf8(&mut buffer);
        into.extend_from_slice(text.as_bytes())?;
    }
    Ok(())
}

/// Appends the bytes that an escape means, of which these bytes come after the `\`.
fn push_escape(into: &mut Vec<u8>, bytes: &[u8]) -> Result<(), AllocError>
    requires { escape_len bytes.now ≢ 0 }
    ensures { OnOk result (into.new.items ≡ into.old.items ++ escape_meaning bytes.now) }
{
    let byte = bytes[0];
    let after = &bytes[1..];
    if let Some(meant) = short_escape(byte) {
        into.push(meant)?;
        return Ok(());
    }
    if byte == b'x' || byte == b'X' {
        let (_, number) = number_at(16, 2, after);
        into.push(number as u8)?;
        return Ok(());
    }
    if byte == b'u' {
        let (_, number) = number_at(16, 4, after);
        push_character(into, number)?;
        return Ok(());
    }
    if byte == b'U' {
        let (_, number) = number_at(16, 8, after);
        push_character(into, number)?;
        return Ok(());
    }
    let (_, number) = number_at(8, 3, bytes);
    into.push((number % 256) as u8)?;
    Ok(())
}

/// Appends the bytes that the units at the front of a text with this quote mean.
fn push_units(into: &mut Vec<u8>, quote: u8, bytes: &[u8]) -> Result<(), AllocError>
    ensures { OnOk result (into.new.items ≡ into.old.items ++ meant_from quote 0 bytes.now) }
{
    let mut at = 0;
    while at < bytes.len() {
        if is_plain(quote, bytes[at]) {
            into.push(bytes[at])?;
            at += 1;
            continue;
        }
        if bytes[at] != b'\\' {
            return Ok(());
        }
        let after = &bytes[at + 1..];
        let len = escape_len(after);
        if len == 0 {
            return Ok(());
        }
        push_escape(into, after)?;
        at += 1 + len;
    }
    Ok(())
}

/// Appends the bytes that a string means, which has its quotes around it.
pub(crate) fn push_text(into: &mut Vec<u8>, text: &str) -> Result<(), AllocError>
    ensures { OnOk result (into.new.items ≡ into.old.items ++ text_meaning text.now) }
{
    let bytes = text.as_bytes();
    if !bytes.is_empty() {
        push_units(into, bytes[0], &bytes[1..])?;
    }
    Ok(())
}
