//! What a lenient reader passes over.

ghost use Rattle.std.specs.Prelude.{◌<◌, length};

use crate::schema::pool;
use pb_encode::encode;
use pb_json_read::{JsonReadCause, JsonRules, read_json};
use pb_schema::{MessageId, Pool};
use std::alloc::{AllocError, Global};
use std::test::Fail;

/// A row: a text, and the bytes of the message that is read, worked out by hand. Python's protobuf 3.21 reads the first two so; the others are as in
/// the conformance suite's tests `IgnoreUnknownEnumStringValue`.
const ROWS: &str = "
{\"nope\":{\"a\":[1,{}]},\"intA\":1} | 0801
{\"innerC\":{\"nope\":1}} | 1a00
{\"colorT\":\"GREEN\"} | 
{\"colorsZ\":[\"RED\",\"GREEN\",\"BLUE\"]} | a201020105
{\"nulls\":{\"a\":\"NULL_VALUE\",\"b\":\"NONE\"}} | c202050a01611000
";

/// A row: a text in which two members have one key, and the byte of the second, counted by hand. Python's
/// protobuf refuses an object with a name that occurs twice. `NONE` is no value of the enum.
const TWICE: &str = "
{\"nulls\":{\"a\":\"NONE\",\"a\":\"NULL_VALUE\"}} | 21
{\"nulls\":{\"a\":\"NULL_VALUE\",\"a\":\"NONE\"}} | 27
{\"nulls\":{\"a\":\"NONE\",\"a\":\"NONE\"}} | 21
";

/// Whether a text is read as a message with this encoding.
fn is_read(
    alloc: Global,
    pool: &Pool,
    id: MessageId,
    text: &str,
    digits: &str,
) -> Result<bool, Fail>
    requires { id.0 < length pool.now.messages }
{
    match read_json(alloc, pool, id, text.as_bytes(), JsonRules::Lenient) {
        Ok(message) => Ok(hex::encode(alloc, &encode(&message)?)?.as_str() == digits),
        Err(error) if error.cause == JsonReadCause::OutOfMemory => Err(AllocError.into()),
        Err(_) => Ok(false),
    }
}

#[test]
fn lenient(rt: HostRuntime) -> Result<(), Fail> {
    let pool = pool(rt.alloc())?;
    let id = pool.message_by_name("t.M").ok_or("no type t.M")?;
    for row in ROWS.lines() {
        if let Some((text, digits)) = row.rsplit_once(" | ") {
            assert!(rt; is_read(rt.alloc(), &pool, id, text, digits)?, "{row}");
        }
    }
    Ok(())
}

/// Whether a text is refused for a name that occurs twice, at this byte.
fn is_repeated(
    alloc: Global,
    pool: &Pool,
    id: MessageId,
    text: &str,
    byte: usize,
) -> Result<bool, AllocError>
    requires { id.0 < length pool.now.messages }
{
    match read_json(alloc, pool, id, text.as_bytes(), JsonRules::Lenient) {
        Ok(_) => Ok(false),
        Err(error) if error.cause == JsonReadCause::OutOfMemory => Err(AllocError),
        Err(error) => Ok(error.cause == JsonReadCause::RepeatedName && error.byte == byte),
    }
}

#[test]
fn each_key_once(rt: HostRuntime) -> Result<(), Fail> {
    let pool = pool(rt.alloc())?;
    let id = pool.message_by_name("t.M").ok_or("no type t.M")?;
    for row in TWICE.lines() {
        if let Some((text, digits)) = row.rsplit_once(" | ") {
            let byte = digits.parse::<usize>().map_err(|_| "no byte")?;
            assert!(rt; is_repeated(rt.alloc(), &pool, id, text, byte)?, "{row}");
        }
    }
    Ok(())
}
