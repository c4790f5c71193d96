//! Worked cases, each answered as its row says and as `decode` and `encode` say, and so is each change of a byte, and what `encode` writes of them.

ghost use Rattle.std.specs.Prelude.{◌<◌, length};

use super::rows::{GROUPS, KINDS, LISTS, MAPS, MESSAGES};
use super::sample::{Schema, sample};
use super::words::{bytes_of, word};
use pb_decode::DecodeError;
use pb_encode::encode;
use std::alloc::{AllocError, Global};
use std::test::Fail;

/// Whether bytes are answered as `decode` and `encode` say: canonical where they are what is written of their message. What is written is.
pub(crate) fn is_right(schema: &Schema, bytes: &[u8]) -> Result<bool, Fail> {
    let canonical = schema.is_canonical(bytes);
    match schema.decode(bytes) {
        Ok(message) => {
            let written = encode(&message)?;
            Ok(canonical == (written.as_slice() == bytes) && schema.is_canonical(&written))
        }
        Err(DecodeError::Memory) => Err(Fail::from(AllocError)),
        Err(_) => Ok(!canonical),
    }
}

/// What takes the place of a byte.
const CHANGES: &[u8] = b"\x00\x01\x02\x07\x08\x0a\x0b\x0c\x12\x13\x14\x1b\x22\x7f\x80\xff";

/// Whether so are they with another byte at an index.
fn is_right_with(schema: &Schema, bytes: &mut [u8], at: usize) -> Result<bool, Fail>
    requires { at < length bytes.old }
{
    let before = bytes[at];
    for byte in CHANGES {
        bytes[at] = *byte;
        if !is_right(schema, bytes)? {
            return Ok(false);
        }
    }
    bytes[at] = before;
    Ok(true)
}

/// Whether so are they with each change of one byte.
fn is_right_when_changed(schema: &Schema, bytes: &mut Vec<u8>) -> Result<bool, Fail> {
    for at in 0..bytes.len() {
        if at < bytes.len() {
            if !is_right_with(schema, bytes.as_mut_slice(), at)? {
                return Ok(false);
            }
        }
    }
    Ok(true)
}

/// Whether a row is answered as it says: `+` for a canonical encoding.
fn is_answered(schema: &Schema, row: &str) -> Result<bool, Fail> {
    let (input, wanted) = word(row);
    let mut bytes = bytes_of(schema.alloc, input)?;
    if schema.is_canonical(&bytes) != (wanted == "+") {
        return Ok(false);
    }
    Ok(is_right(schema, &bytes)? && is_right_when_changed(schema, &mut bytes)?)
}

/// The first row that is answered otherwise, or none.
fn first_wrong<'a>(schema: &Schema, rows: &'a str) -> Result<Option<&'a str>, Fail> {
    for row in rows.lines() {
        if !row.is_empty() && !is_answered(schema, row)? {
            return Ok(Some(row));
        }
    }
    Ok(None)
}

fn wrong_row(alloc: Global, name: &str, rows: &'static str) -> Result<Option<&'static str>, Fail> {
    let schema = sample(alloc, name)?;
    first_wrong(&schema, rows)
}

#[test]
fn messages(rt: HostRuntime) -> Result<(), Fail> {
    let wrong = wrong_row(rt.alloc(), "T", MESSAGES)?;
    assert!(rt; wrong.is_none(), "{wrong:?}");
    Ok(())
}

#[test]
fn kinds(rt: HostRuntime) -> Result<(), Fail> {
    let wrong = wrong_row(rt.alloc(), "F", KINDS)?;
    assert!(rt; wrong.is_none(), "{wrong:?}");
    Ok(())
}

#[test]
fn maps(rt: HostRuntime) -> Result<(), Fail> {
    let wrong = wrong_row(rt.alloc(), "M", MAPS)?;
    assert!(rt; wrong.is_none(), "{wrong:?}");
    Ok(())
}

#[test]
fn groups(rt: HostRuntime) -> Result<(), Fail> {
    let wrong = wrong_row(rt.alloc(), "Q", GROUPS)?;
    assert!(rt; wrong.is_none(), "{wrong:?}");
    Ok(())
}

#[test]
fn lists(rt: HostRuntime) -> Result<(), Fail> {
    let wrong = wrong_row(rt.alloc(), "L", LISTS)?;
    assert!(rt; wrong.is_none(), "{wrong:?}");
    Ok(())
}
