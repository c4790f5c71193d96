//! Texts that are refused, and where.

ghost use Rattle.std.specs.Prelude.{◌<◌, length};

use crate::schema::pool;
use pb_json_read::{JsonReadCause, JsonRules, read_json};
use pb_schema::{MessageId, Pool};
use std::alloc::{AllocError, Global};
use std::test::Fail;

/// A row: a text, the byte and the cause. The byte is counted by hand. Python's protobuf 3.21 refuses each but four: an array in place of a message,
/// where the mapping has an object; padding alone, which is no base64 (RFC 4648); and two names of one field, which the conformance suite wants
/// refused. Those of types with a form of their own are refused by libprotobuf 3.21, but for a path with an underscore, an object as a ListValue and
/// an object as a wrapper.
const ROWS: &str = "
{ | 1 UnexpectedEnd
{\"intA\":1,} | 10 UnexpectedByte
[] | 0 BadValue
 null | 1 BadValue
{\"nope\":1} | 1 UnknownName
{\"intA\":1,\"nope\":{}} | 10 UnknownName
{\"intA\":1,\"int_a\":1} | 10 RepeatedName
{\"pickX\":1,\"pickY\":{}} | 11 SecondMember
{\"intA\":2147483648} | 8 BadValue
{\"intA\":\" 1\"} | 8 BadValue
{\"intA\":1.5} | 8 BadValue
{\"intA\":true} | 8 BadValue
{\"pickX\":-1} | 9 BadValue
{\"textB\":1} | 9 BadValue
{\"textB\":{}} | 9 BadValue
{\"flagP\":1} | 9 BadValue
{\"flagP\":\"true\"} | 9 BadValue
{\"rawS\":\"=\"} | 8 BadValue
{\"colorT\":\"GREEN\"} | 10 BadValue
{\"listF\":1} | 9 BadValue
{\"listF\":[1,null]} | 12 BadValue
{\"listF\":[1,{}]} | 12 BadValue
{\"innerC\":[]} | 10 BadValue
{\"innerC\":{\"innerC\":{\"intA\":\"x\"}}} | 28 BadValue
{\"mapM\":[]} | 8 BadValue
{\"mapM\":{\"a\":null}} | 13 BadValue
{\"byIdV\":{\"x\":{}}} | 10 BadKey
{\"byIdV\":{\"1\":{},\"1\":{}}} | 17 RepeatedName
{\"byFlagW\":{\"1\":\"\"}} | 12 BadKey
{\"time\":\"0000-12-31T23:59:59Z\"} | 8 BadValue
{\"time\":\"10000-01-01T00:00:00Z\"} | 8 BadValue
{\"time\":\"2000-02-30T00:00:00Z\"} | 8 BadValue
{\"time\":\"2000-02-29 12:00:00Z\"} | 8 BadValue
{\"time\":\"2000-02-29T12:00:00\"} | 8 BadValue
{\"time\":0} | 8 BadValue
{\"span\":\"315576000001s\"} | 8 BadValue
{\"span\":\"1\"} | 8 BadValue
{\"span\":1} | 8 BadValue
{\"mask\":\"a_b\"} | 8 BadValue
{\"mask\":[\"a\"]} | 8 BadValue
{\"structA\":[]} | 11 BadValue
{\"listC\":{}} | 9 BadValue
{\"i32Value\":{\"value\":1}} | 12 BadValue
{\"emptyValue\":[]} | 14 BadValue
{\"emptyValue\":{\"a\":1}} | 15 UnknownName
{\"any\":[]} | 7 BadValue
{\"any\":\"x\"} | 7 BadValue
{\"any\":{\"intA\":1}} | 7 BadValue
{\"any\":{\"@type\":1}} | 16 BadValue
{\"any\":{\"@type\":null}} | 16 BadValue
{\"any\":{\"@type\":\"\"}} | 16 BadValue
{\"any\":{\"@type\":\"\",\"value\":\"\"}} | 16 BadValue
{\"any\":{\"@type\":\"t.M\",\"intA\":1}} | 16 BadValue
{\"any\":{\"intA\":1,\"@type\":\"/t.None\"}} | 25 BadValue
{\"any\":{\"intA\":\"x\",\"@type\":\"/t.None\"}} | 27 BadValue
{\"any\":{\"@type\":\"/t.M\",\"@type\":\"/t.M\"}} | 23 RepeatedName
{\"any\":{\"@type\":\"/t.None\",\"@type\":\"/t.M\"}} | 26 RepeatedName
{\"any\":{\"@type\":\"/t.M\",\"nope\":1}} | 23 UnknownName
{\"any\":{\"@type\":\"/t.M\",\"value\":{}}} | 23 UnknownName
{\"any\":{\"intA\":1,\"@type\":\"/t.M\",\"int_a\":1}} | 32 RepeatedName
{\"any\":{\"pickX\":1,\"@type\":\"/t.M\",\"pickY\":{}}} | 33 SecondMember
{\"any\":{\"@type\":\"/t.M\",\"innerC\":{\"intA\":\"x\"}}} | 40 BadValue
{\"any\":{\"@type\":\"/t.M\",\"any\":{\"@type\":\"/t.M\",\"intA\":\"x\"}}} | 52 BadValue
{\"any\":{\"@type\":\"/google.protobuf.Duration\"}} | 7 BadValue
{\"any\":{\"@type\":\"/google.protobuf.Duration\",\"value\":null}} | 7 BadValue
{\"any\":{\"@type\":\"/google.protobuf.Duration\",\"value\":1}} | 52 BadValue
{\"any\":{\"@type\":\"/google.protobuf.Duration\",\"seconds\":1}} | 44 UnknownName
{\"any\":{\"value\":\"1s\",\"@type\":\"/google.protobuf.Duration\",\"value\":\"1s\"}} | 57 RepeatedName
{\"any\":{\"@type\":\"/google.protobuf.Empty\",\"value\":1}} | 49 BadValue
{\"any\":{\"@type\":\"/google.protobuf.Empty\",\"value\":{\"a\":1}}} | 50 UnknownName
{\"any\":{\"@type\":\"/google.protobuf.Empty\",\"a\":1}} | 41 UnknownName
";

/// What a text is refused with.
fn refusal(alloc: Global, pool: &Pool, id: MessageId, text: &str) -> Result<String, Fail>
    requires { id.0 < length pool.now.messages }
{
    match read_json(alloc, pool, id, text.as_bytes(), JsonRules::Strict) {
        Ok(_) => Ok(String::from_str(alloc, "read")?),
        Err(error) if error.cause == JsonReadCause::OutOfMemory => Err(AllocError.into()),
        Err(error) => Ok(format!(in alloc; "{} {}", error.byte, error.cause.name())?),
    }
}

#[test]
fn refusals(rt: HostRuntime) -> Result<(), Fail> {
    let pool = pool(rt.alloc())?;
    let id = pool.message_by_name("t.M").ok_or("no type t.M")?;
    for row in ROWS.lines() {
        if let Some((text, wanted)) = row.rsplit_once(" | ") {
            let given = refusal(rt.alloc(), &pool, id, text)?;
            assert!(rt; given.as_str() == wanted, "{row}: {given}");
        }
    }
    Ok(())
}

/// The JSON of a number of Anys, each with a message that has the next.
fn nested(alloc: Global, anys: usize) -> Result<String, AllocError> {
    let mut text = String::from_str(alloc, "{\"any\":{\"@type\":\"/t.M\"")?;
    for _ in 1..anys {
        text.push_str(",\"any\":{\"@type\":\"/t.M\"")?;
    }
    for _ in 0..anys {
        text.push_str("}")?;
    }
    text.push_str("}")?;
    Ok(text)
}

#[test]
fn anys_in_anys(rt: HostRuntime) -> Result<(), Fail> {
    let pool = pool(rt.alloc())?;
    let id = pool.message_by_name("t.M").ok_or("no type t.M")?;
    let deepest = refusal(rt.alloc(), &pool, id, nested(rt.alloc(), 50)?.as_str())?;
    assert!(rt; deepest.as_str() == "read", "{deepest}");
    let deeper = refusal(rt.alloc(), &pool, id, nested(rt.alloc(), 51)?.as_str())?;
    assert!(rt; deeper.as_str() == "0 TooDeep", "{deeper}");
    Ok(())
}
