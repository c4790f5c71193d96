//! Messages, and what they are as JSON by the names that their set gives.

ghost use Rattle.std.specs.Prelude.{◌<◌, length};

use super::schema::{names, pool};
use pb_decode::decode;
use pb_encode::encode;
use pb_json::{JsonError, JsonForm, JsonNames, Layout, Names, write_json};
use pb_json_read::{JsonReadCause, JsonRules, read_json_by};
use pb_schema::{MessageId, Pool};
use pb_wire::{FailurePlan, Limits, MemOutput};
use std::alloc::{AllocError, Global};
use std::test::Fail;

/// A row: the bytes of a message of type `g.M`, its JSON as Python's protobuf 4.21 writes and reads it, and what it is of.
const ROWS: &str = "
1a0178 | {\"label\":\"x\"} | a name that is given
08011a02c3a9 | {\"aB\":1,\"label\":\"é\"} | names beside
22020802 | {\"in \\\"ner\\\"\\\\\":{\"number\":2}} | a name with escapes
2a070a016b12020803 | {\"@m\":{\"k\":{\"number\":3}}} | a map
32020102 | {\"Ünï\":[1,2]} | a list
3800 | {\"x\":false} | a member of a oneof
420171 | {\"zW\":\"q\"} | another member
4a1f0a17747970652e676f6f676c65617069732e636f6d2f672e4d12041a02696e | {\"box\":{\"@type\":\"type.googleapis.com/g.M\",\"label\":\"in\"}} | an Any
50045805 | {\"bC\":4,\"b_c\":5} | a name that another field is declared by
220512031a0179 | {\"in \\\"ner\\\"\\\\\":{\"back\":{\"label\":\"y\"}}} | nested messages
";

/// A row: a text, and the bytes of the message that Python's protobuf 4.21 reads it as; or nothing, where it is refused.
const READ: &str = "
{\"display_name\":\"x\"} | 1a0178
{\"displayName\":\"x\"} | 
{\"a_b\":1} | 0801
{\"b_c\":4} | 5804
{\"bC\":4} | 5004
{\"c_d\":4} | 5804
{\"cD\":4} | 
{\"x_y\":true} | 3801
{\"xY\":true} | 
{\"inner\":{\"nN\":2}} | 
{\"inner\":{\"n_n\":2}} | 22020802
";

fn is_written(
    alloc: Global,
    pool: &Pool,
    id: MessageId,
    names: &JsonNames,
    digits: &str,
    json: &str,
) -> Result<bool, Fail>
    requires { id.0 < length pool.now.messages }
{
    let bytes = hex::decode(alloc, digits)?;
    let message = decode(alloc, pool, id, &bytes, Limits::FULL)?;
    let form = JsonForm {
        names: Names::Given(names),
        layout: Layout::Compact,
    };
    let mut output = MemOutput::new(alloc, 1_000_000, FailurePlan::NEVER);
    match write_json(&mut output, alloc, &message.view(), form) {
        Ok(()) => Ok(output.bytes() == json.as_bytes()),
        Err(JsonError::Memory) => Err(AllocError.into()),
        Err(_) => Ok(false),
    }
}

/// Whether a text is read as a message with this encoding, or is refused where there is none.
fn is_read(
    alloc: Global,
    pool: &Pool,
    id: MessageId,
    names: &JsonNames,
    text: &str,
    digits: &str,
) -> Result<bool, Fail>
    requires { id.0 < length pool.now.messages }
{
    match read_json_by(alloc, pool, id, text.as_bytes(), JsonRules::Strict, names) {
        Ok(message) => Ok(hex::encode(alloc, &encode(&message)?)?.as_str() == digits),
        Err(error) if error.cause == JsonReadCause::OutOfMemory => Err(AllocError.into()),
        Err(error) => Ok(digits.is_empty() && error.cause == JsonReadCause::UnknownName),
    }
}

#[test]
fn rows(rt: HostRuntime) -> Result<(), Fail> {
    let pool = pool(rt.alloc())?;
    let names = names(rt.alloc(), &pool)?;
    let id = pool.message_by_name("g.M").ok_or("no type g.M")?;
    for row in ROWS.lines() {
        if let Some((digits, rest)) = row.split_once(" | ") {
            let (json, _what) = rest.rsplit_once(" | ").ok_or("no JSON")?;
            assert!(rt;
                is_written(rt.alloc(), &pool, id, &names, digits, json)?,
                "{row}"
            );
            assert!(rt;
                is_read(rt.alloc(), &pool, id, &names, json, digits)?,
                "{row}"
            );
        }
    }
    Ok(())
}

#[test]
fn read(rt: HostRuntime) -> Result<(), Fail> {
    let pool = pool(rt.alloc())?;
    let names = names(rt.alloc(), &pool)?;
    let id = pool.message_by_name("g.M").ok_or("no type g.M")?;
    for row in READ.lines() {
        if let Some((text, digits)) = row.rsplit_once(" | ") {
            assert!(rt;
                is_read(rt.alloc(), &pool, id, &names, text, digits)?,
                "{row}"
            );
        }
    }
    Ok(())
}
