//! Strings (Text Format Language Specification, "String Literals").

ghost use Rattle.std.specs.Prelude.{◌≡◌, ◌≤◌, ◌<◌, ◌++◌, length, true, IfOk, IfErr, OnOk, encode_utf8};
ghost use Rattle.pb_text_tokens.specs.Strings.{Inside, IsWithin, is_scalar, bytes_of, meant_from, step_at, string_meaning, unit_meaning};

use crate::escape::{Escape, Meant, escape_of};
use crate::fault::TokenCause;
use crate::lexing::PieceFault;
use std::alloc::AllocError;

/// What there is at a place in a string: its closing quote, a character or escape of this many bytes, or
/// what no string has.
#[derive(Clone, Copy, PartialEq, Eq)]
pub(crate) enum Step {
    Close,
    Pass(usize),
    Stop(TokenCause),
}

/// What the bytes begin with, inside a string with this quote.
fn step_at(quote: u8, bytes: &[u8]) -> Step
    ensures is { result ≡ step_at quote bytes.now }
    ensures within { IsWithin bytes.now result }
{
    if bytes.is_empty() {
        return Step::Stop(TokenCause::OpenString);
    }
    let byte = bytes[0];
    if byte == quote {
        return Step::Close;
    }
    match byte {
        b'\\' => match escape_of(&bytes[1..]) {
            Some(escape) => Step::Pass(1 + escape.len),
            None => Step::Stop(TokenCause::BadEscape),
        },
        b'\n' => Step::Stop(TokenCause::OpenString),
        0 => Step::Stop(TokenCause::UnexpectedByte),
        _ => Step::Pass(1),
    }
}

/// How many bytes a string has after its first quote, its last one counted.
pub(crate) fn string_len(quote: u8, bytes: &[u8]) -> Result<usize, PieceFault>
    ensures inside { Inside quote bytes.now result }
    ensures within { IfOk result (λ n. n ≤ length bytes.now) }
    ensures bound { IfErr result (λ e. e.offset ≤ length bytes.now) }
{
    let mut at = 0;
    while at < bytes.len() {
        match step_at(quote, &bytes[at..]) {
            Step::Close => return Ok(at + 1),
            Step::Pass(len) => at += len,
            Step::Stop(cause) => return Err(PieceFault { offset: at, cause }),
        }
    }
    Err(PieceFault {
        offset: at,
        cause: TokenCause::OpenString,
    })
}

/// Appends a character as UTF-8.
fn push_character(into: &mut Vec<u8>, number: u32) -> Result<(), AllocError>
    ensures { OnOk result (into.new.items ≡ into.old.items ++ bytes_of (Meant.Character number)) }
{
    if let Some(character) = char::from_u32(number) {
        let mut buffer = [0; 4];
        let text = character.encode_utf8(&mut buffer);
        into.extend_from_slice(text.as_bytes())?;
    }
    Ok(())
}

/// Appends the bytes that an escape means.
fn push_meant(into: &mut Vec<u8>, meant: Meant) -> Result<(), AllocError>
    ensures { OnOk result (into.new.items ≡ into.old.items ++ bytes_of meant) }
{
    match meant {
        Meant::Byte(byte) => {
            into.push(byte)?;
            Ok(())
        }
        Meant::Character(number) => push_character(into, number),
    }
}

/// Appends what the character or the escape at the start means.
fn push_unit(into: &mut Vec<u8>, bytes: &[u8]) -> Result<(), AllocError>
    requires { 0 < length bytes.now }
    ensures { OnOk result (into.new.items ≡ into.old.items ++ unit_meaning bytes.now) }
{
    if bytes[0] != b'\\' {
        into.push(bytes[0])?;
        return Ok(());
    }
    match escape_of(&bytes[1..]) {
        Some(escape) => push_meant(into, escape.meant),
        None => Ok(()),
    }
}

/// Appends what the characters and escapes of a string mean, up to its closing quote.
fn push_units(into: &mut Vec<u8>, quote: u8, bytes: &[u8]) -> Result<(), AllocError>
    ensures { OnOk result (into.new.items ≡ into.old.items ++ meant_from quote 0 bytes.now) }
{
    let mut at = 0;
    while at < bytes.len() {
        let rest = &bytes[at..];
        let Step::Pass(len) = step_at(quote, rest) else {
            return Ok(());
        };
        push_unit(into, rest)?;
        at += len;
    }
    Ok(())
}

/// Appends the bytes that a string means, which has its quotes around it.
pub fn push_string(into: &mut Vec<u8>, text: &[u8]) -> Result<(), AllocError>
    ensures { OnOk result (into.new.items ≡ into.old.items ++ string_meaning text.now) }
{
    if text.is_empty() {
        return Ok(());
    }
    push_units(into, text[0], &text[1..])
}
