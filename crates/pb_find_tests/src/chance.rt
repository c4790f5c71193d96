//! Random messages: what `find` answers at each path to three levels, beside what `decode`, `message` and `get` do, and which faults
//! `find`, `validate` and `decode` report.

use super::answers::refusal_text;
use super::paths::is_found;
use super::random::{Parts, Random, encoding};
use super::sample::{Schema, sample};
use pb_decode::DecodeError;
use pb_value::MessageRef;
use pb_wire::Limits;
use std::alloc::Global;
use std::test::Fail;

/// Of the type `T`: each field, also with the default, with another wire type, and twice; unknown records and groups.
const PARTS_OF_T: Parts = Parts {
    records: &[
        b"\x08\x05",
        b"\x08\x00",
        b"\x08\x80\x01",
        b"\x0a\x01A",
        b"\x12\x01a",
        b"\x12\x00",
        b"\x12\x02\xc3\xa9",
        b"\x1a\x00",
        b"\x1a\x02\x08\x05",
        b"\x1a\x03\x12\x01b",
        b"\x1b\x08\x05\x1c",
        b"\x21\x00\x00\x00\x00\x00\x00\x00\x80",
        b"\x21\x00\x00\x00\x00\x00\x00\x00\x00",
        b"\x32\x02\x01\x02",
        b"\x30\x03",
        b"\x38\x05",
        b"\x38\x00",
        b"\x3a\x01A",
        b"\x42\x00",
        b"\x42\x02\x38\x01",
        b"\x42\x02\x08\x01",
        b"\x4a\x05\x0a\x01a\x10\x01",
        b"\x50\x01",
        b"\x50\x00",
        b"\x58\x03",
        b"\x62\x06\x08\x01\x12\x02\x08\x05",
        b"\x80\x07\x01",
        b"\xa3\x01\x08\x01\xa4\x01",
    ],
    messages: &[b"\x1a", b"\x1a", b"\x42", b"\x42", b"\x9a\x01"],
};

/// Of the type `Q`: numbers that its closed enum declares and others, groups, and the members of its oneofs.
const PARTS_OF_Q: Parts = Parts {
    records: &[
        b"\x08\x01",
        b"\x08\x07",
        b"\x13\x08\x05\x14",
        b"\x13\x14",
        b"\x13\x12\x04\x18\x01\x48\x05\x14",
        b"\x12\x02\x08\x01",
        b"\x18\x02",
        b"\x18\x07",
        b"\x20\x07",
        b"\x20\x00",
        b"\x2b\x08\x05\x2c",
        b"\x2b\x12\x02\x08\x01\x2c",
        b"\x2b\x2c",
        b"\x32\x01a",
        b"\x32\x00",
        b"\x3a\x00",
        b"\x3a\x02\x08\x01",
        b"\x40\x01",
        b"\x42\x03\x01\x07\x02",
        b"\x48\x05",
        b"\x4d\x01\x00\x00\x00",
        b"\x52\x01b",
        b"\x63\x08\x01\x64",
    ],
    messages: &[b"\x3a", b"\x3a", b"\x42"],
};

/// How paths in messages of the type `T` begin. Each number up to `MOST` follows.
const PREFIXES_OF_T: &[&[u32]] = &[&[], &[3], &[8], &[3, 3], &[3, 8], &[8, 3], &[8, 8]];

/// The same of the type `Q`.
const PREFIXES_OF_Q: &[&[u32]] = &[&[], &[2], &[5], &[7], &[2, 2], &[7, 5], &[7, 7]];

/// The greatest number in the paths.
const MOST: u32 = 12;

/// Whether `find` answers as look-ups do at each path that begins so.
fn is_found_after(
    schema: &Schema,
    bytes: &[u8],
    message: &MessageRef<'_>,
    prefix: &[u32],
) -> Result<bool, Fail> {
    let mut path = Vec::new(schema.alloc);
    path.extend_from_slice(prefix)?;
    path.push(0)?;
    for number in 0..=MOST {
        if let Some(last) = path.last_mut() {
            *last = number;
        }
        if !is_found(schema, bytes, message, &path)? {
            return Ok(false);
        }
    }
    Ok(true)
}

/// Whether it does at each path that begins as one of these.
fn is_found_at_paths(
    schema: &Schema,
    bytes: &[u8],
    message: &MessageRef<'_>,
    prefixes: &[&[u32]],
) -> Result<bool, Fail> {
    for prefix in prefixes {
        if !is_found_after(schema, bytes, message, prefix)? {
            return Ok(false);
        }
    }
    Ok(true)
}

/// Whether `find` and `validate` refuse bytes with these words.
fn is_refused(schema: &Schema, bytes: &[u8], refusal: &str) -> Result<bool, Fail> {
    let Err(found) = schema.find(bytes, Limits::FULL, &[3, 1]) else {
        return Ok(false);
    };
    let Err(validated) = schema.validate(bytes, Limits::FULL) else {
        return Ok(false);
    };
    Ok(
        refusal_text(schema.alloc, found)?.as_str() == refusal
            && refusal_text(schema.alloc, validated)?.as_str() == refusal,
    )
}

/// Whether bytes are answered as `decode` says.
fn is_as_decoded(schema: &Schema, bytes: &[u8], prefixes: &[&[u32]]) -> Result<bool, Fail> {
    let error = match schema.decode(bytes, Limits::FULL) {
        Ok(message) => return is_found_at_paths(schema, bytes, &message.view(), prefixes),
        Err(error) => error,
    };
    let refusal = refusal_text(schema.alloc, error)?;
    is_refused(schema, bytes, refusal.as_str())
}

/// How many encodings of each type are tried.
const COUNT: usize = 1000;

/// The first encoding that is answered otherwise, or none.
fn first_wrong(
    schema: &Schema,
    parts: &Parts,
    prefixes: &[&[u32]],
) -> Result<Option<Vec<u8>>, Fail> {
    let mut random = Random::new(60);
    for _ in 0..COUNT {
        let bytes = encoding(schema.alloc, &mut random, parts)?;
        if !is_as_decoded(schema, &bytes, prefixes)? {
            return Ok(Some(bytes));
        }
    }
    Ok(None)
}

fn wrong_encoding(
    alloc: Global,
    name: &str,
    parts: &Parts,
    prefixes: &[&[u32]],
) -> Result<Option<Vec<u8>>, Fail> {
    let schema = sample(alloc, name)?;
    first_wrong(&schema, parts, prefixes)
}

#[test]
fn random_messages(rt: HostRuntime) -> Result<(), Fail> {
    let wrong = wrong_encoding(rt.alloc(), "T", &PARTS_OF_T, PREFIXES_OF_T)?;
    assert!(rt; wrong.is_none(), "{wrong:?}");
    Ok(())
}

#[test]
fn random_messages_with_groups(rt: HostRuntime) -> Result<(), Fail> {
    let wrong = wrong_encoding(rt.alloc(), "Q", &PARTS_OF_Q, PREFIXES_OF_Q)?;
    assert!(rt; wrong.is_none(), "{wrong:?}");
    Ok(())
}
