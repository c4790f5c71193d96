//! What is answered to a request.

ghost use Rattle.std.specs.Prelude.{◌≡◌, ◌<◌, ℕ, List, length, IfErr, IfOk, MatchOption};
ghost use Rattle.pb_wire.specs.Fault.{fault};
ghost use Rattle.pb_schema.specs.Scalar.{text};
ghost use Rattle.pb_value.specs.Data.{scalar};
ghost use Rattle.pb_encode.specs.Encoding.{bytes_of};
ghost use Rattle.conformance.specs.FaultText.{fault_text};
ghost use Rattle.conformance.specs.Reply.{Asks, IsReply, IsReplyTo, IsTestOf, IsWritten, message_of, response, skipped, too_large};
ghost use Rattle.conformance.specs.declared.stop.Stop.TheVariants.{Memory};

use crate::fault_text::fault_text;
use crate::stop::Stop;
use pb_decode::{DecodeError, decode};
use pb_encode::{EncodeError, encode};
use pb_schema::{MessageId, Pool};
use pb_value::{Content, DynamicMessage, Value};
use pb_wire::{Cause, Limits, PathStep};
use std::alloc::Global;

/// The fields of a request.
const BINARY_PAYLOAD: u32 = 1;

const OUTPUT_FORMAT: u32 = 3;

const MESSAGE_TYPE: u32 = 4;

/// The binary form, among the formats.
const BINARY: i32 = 1;

/// The fields of a response, which has one of them.
const PARSE_ERROR: u32 = 1;

const RUNTIME_ERROR: u32 = 2;

const PAYLOAD: u32 = 3;

const SKIPPED: u32 = 5;

const SERIALIZE_ERROR: u32 = 6;

/// The one field of a response, and what it holds.
#[derive(Drop)]
pub struct Reply {
    pub field: u32,
    pub value: Value,
}

/// What is answered to the bytes of a request. `request` is the type of requests in the pool.
pub fn make_reply(
    alloc: Global,
    pool: &Pool,
    request: MessageId,
    bytes: &[u8],
) -> Result<Reply, Stop>
    requires { request.0 < length pool.now.messages }
    ensures made { IfOk result (λ r. IsReply pool.now request.0 bytes.now (message_of r)) }
    ensures memory { IfErr result (λ e. e ≡ Memory) }
{
    match decode(alloc, pool, request, bytes, Limits::FULL) {
        Ok(message) => reply_to(alloc, &message),
        Err(DecodeError::Fault { byte, path, cause }) => {
            tell_fault(alloc, RUNTIME_ERROR, byte, &path, cause)
        }
        Err(DecodeError::Memory | DecodeError::Device | DecodeError::Finished) => Err(Stop::Memory),
    }
}

/// What is answered to a request.
fn reply_to(alloc: Global, request: &DynamicMessage<'_>) -> Result<Reply, Stop>
    ensures made { IfOk result (λ r. IsReplyTo request.now.pool request.now.body (message_of r)) }
    ensures memory { IfErr result (λ e. e ≡ Memory) }
{
    let Some((name, given)) = asked(request) else {
        return skip(alloc);
    };
    let pool = request.pool();
    let Some(kind) = pool.message_by_name(name) else {
        return skip(alloc);
    };
    test(alloc, pool, kind, given)
}

/// The name of a type and the bytes of a message of it, where a request gives them in binary form and wants this form again.
fn asked<'m>(request: &'m DynamicMessage<'_>) -> Option<(&'m str, &'m [u8])>
    ensures { MatchOption result ((name given : List ℕ) → ¬ Asks request.now.body name given) (λ p. Asks request.now.body p.0.now p.1.now) }
{
    let Some(Content::One(Value::Enum(BINARY))) = request.get(OUTPUT_FORMAT) else {
        return None;
    };
    let Some(Content::One(Value::Text(name))) = request.get(MESSAGE_TYPE) else {
        return None;
    };
    let Some(Content::One(Value::Bytes(given))) = request.get(BINARY_PAYLOAD) else {
        return None;
    };
    Some((name.as_str(), given.as_slice()))
}

/// That another form is wanted, or another type, than what is tested.
fn skip(alloc: Global) -> Result<Reply, Stop>
    ensures made { IfOk result (λ r. message_of r ≡ skipped) }
    ensures memory { IfErr result (λ e. e ≡ Memory) }
{
    tell(
        alloc,
        SKIPPED,
        "only messages of the set are tested, in binary form",
    )
}

/// The canonical bytes of what bytes mean by a type, or why there are none.
fn test(alloc: Global, pool: &Pool, message_type: MessageId, bytes: &[u8]) -> Result<Reply, Stop>
    requires { message_type.0 < length pool.now.messages }
    ensures made { IfOk result (λ r. IsTestOf pool.now message_type.0 bytes.now (message_of r)) }
    ensures memory { IfErr result (λ e. e ≡ Memory) }
{
    match decode(alloc, pool, message_type, bytes, Limits::FULL) {
        Ok(message) => write(alloc, &message),
        Err(DecodeError::Fault { byte, path, cause }) => {
            tell_fault(alloc, PARSE_ERROR, byte, &path, cause)
        }
        Err(DecodeError::Memory | DecodeError::Device | DecodeError::Finished) => Err(Stop::Memory),
    }
}

/// The canonical bytes of a message, or that they are too many.
fn write(alloc: Global, message: &DynamicMessage<'_>) -> Result<Reply, Stop>
    ensures made { IfOk result (λ r. IsWritten (bytes_of message.now) (message_of r)) }
    ensures memory { IfErr result (λ e. e ≡ Memory) }
{
    match encode(message) {
        Ok(bytes) => Ok(Reply {
            field: PAYLOAD,
            value: Value::Bytes(bytes),
        }),
        Err(EncodeError::TooLarge) => make_too_large(alloc),
        Err(EncodeError::Memory | EncodeError::Device { .. }) => Err(Stop::Memory),
    }
}

/// That there are too many bytes to be written.
pub fn make_too_large(alloc: Global) -> Result<Reply, Stop>
    ensures made { IfOk result (λ r. message_of r ≡ too_large) }
    ensures memory { IfErr result (λ e. e ≡ Memory) }
{
    tell(
        alloc,
        SERIALIZE_ERROR,
        "there are more than 2147483647 bytes",
    )
}

/// A fault, in a field of the response.
fn tell_fault(
    alloc: Global,
    field: u32,
    byte: u64,
    path: &[PathStep],
    cause: Cause,
) -> Result<Reply, Stop>
    ensures made { IfOk result (λ r. message_of r ≡ response field (scalar (text (fault_text (fault byte path.now cause))))) }
    ensures memory { IfErr result (λ e. e ≡ Memory) }
{
    let text = fault_text(alloc, byte, path, cause)?;
    Ok(Reply {
        field,
        value: Value::Text(text),
    })
}

/// A text, in a field of the response.
fn tell(alloc: Global, field: u32, words: &str) -> Result<Reply, Stop>
    ensures made { IfOk result (λ r. message_of r ≡ response field (scalar (text words.now))) }
    ensures memory { IfErr result (λ e. e ≡ Memory) }
{
    let text = String::from_str(alloc, words)?;
    Ok(Reply {
        field,
        value: Value::Text(text),
    })
}
