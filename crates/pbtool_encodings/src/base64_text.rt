//! Bytes as base64.

ghost use Rattle.std.specs.Prelude.{◌≡◌, ◌||◌, ◌≤◌, ◌<◌, ◌^◌, length, not, is_some, IfOk};
ghost use Rattle.std.specs.List.{filter, prefix_len};
ghost use Rattle.pb_json_scalars.specs.Base64.{symbol};
ghost use Rattle.pbtool_encodings.specs.Base64Text.{base64_text, fits};
ghost use Rattle.pbtool_encodings.specs.Blanks.{is_blank};
ghost use Rattle.pbtool_encodings.specs.Hexadecimal.{IsReadAs};

use crate::blanks::is_blank;
use crate::encoding::DecodeError;
use pb_json_scalars::read_base64;
use std::alloc::{AllocError, Global};

/// The bytes that a text encodes as base64 (RFC 4648), in either alphabet, with its padding or with none. Blanks are passed over.
pub(crate) fn read_base64_text(alloc: Global, text: &[u8]) -> Result<Vec<u8>, DecodeError>
    ensures { IsReadAs (base64_text text.now) result }
{
    let characters = without_blanks(alloc, text)?;
    match read_base64(alloc, &characters)? {
        Some(bytes) => Ok(bytes),
        None => Err(DecodeError::At(fitting(text))),
    }
}

/// The bytes that are no blanks.
fn without_blanks(alloc: Global, text: &[u8]) -> Result<Vec<u8>, AllocError>
    ensures { IfOk result (λ v. v.items ≡ filter (λ c. not (is_blank c)) text.now) }
{
    let mut others = Vec::with_capacity(alloc, text.len())?;
    for byte in text {
        if !is_blank(*byte) {
            others.push(*byte)?;
        }
    }
    Ok(others)
}

/// How many digits and blanks the text begins with.
fn fitting(text: &[u8]) -> usize
    ensures is { result ≡ prefix_len fits text.now }
    ensures within { result ≤ length text.now }
{
    for (at, byte) in text.iter().enumerate() {
        if !fits(*byte) {
            return at;
        }
    }
    text.len()
}

/// Whether a byte is a digit or a blank.
fn fits(byte: u8) -> bool
    ensures { result ≡ fits byte }
{
    is_blank(byte) || is_digit(byte)
}

/// Whether a byte is a digit of either alphabet.
fn is_digit(byte: u8) -> bool
    ensures { result ≡ is_some (symbol byte) }
{
    byte.is_ascii_alphanumeric() || byte == b'+' || byte == b'-' || byte == b'/' || byte == b'_'
}
