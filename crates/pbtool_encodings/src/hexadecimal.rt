//! Bytes as hexadecimal.

ghost use Rattle.std.specs.Prelude.{◌≡◌, ◌<◌, ◌≤◌, ◌^◌, length, IfSome};
ghost use Rattle.hex.specs.Hex.{hex_digit_value};
ghost use Rattle.pbtool_encodings.specs.Hexadecimal.{hexadecimal, IsReadAs};

use crate::blanks::is_blank;
use crate::encoding::DecodeError;
use std::alloc::Global;

/// The bytes whose digits a text has: two for each, and blanks before, between and after them.
pub(crate) fn read_hexadecimal(alloc: Global, text: &[u8]) -> Result<Vec<u8>, DecodeError>
    requires { length text.now < 2 ^ 63 }
    ensures { IsReadAs (hexadecimal text.now) result }
{
    let mut bytes = Vec::with_capacity(alloc, text.len() / 2)?;
    let mut at = 0;
    'pairs: while at < text.len() {
        if is_blank(text[at]) {
            at += 1;
            continue;
        }
        let Some(high) = digit(text[at]) else {
            return Err(DecodeError::At(at));
        };
        if at + 1 == text.len() {
            return Err(DecodeError::At(at + 1));
        }
        let Some(low) = digit(text[at + 1]) else {
            return Err(DecodeError::At(at + 1));
        };
        bytes.push(high * 16 + low)?;
        at += 2;
    }
    Ok(bytes)
}

/// The value of a digit.
fn digit(byte: u8) -> Option<u8>
    ensures is { result ≡ hex_digit_value byte }
    ensures small { IfSome result (λ d. d < 16) }
{
    match byte {
        b'0'..=b'9' => Some(byte - b'0'),
        b'A'..=b'F' => Some(byte - b'A' + 10),
        b'a'..=b'f' => Some(byte - b'a' + 10),
        _ => None,
    }
}
