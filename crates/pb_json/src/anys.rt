//! What a `google.protobuf.Any` holds.

ghost use Rattle.std.specs.Prelude.{◌≡◌, ◌<◌, length, option_map, IfOk, IfSome};
ghost use Rattle.pb_value.specs.View.{fields_view};
ghost use Rattle.pb_json.specs.Opening.{Opens};
ghost use Rattle.pb_json.specs.Anys.{any_message, is_unset, type_meant, typed};
ghost use Rattle.pb_json.specs.Held.{string_at};

use crate::held::{bytes_at, text_at};
use pb_decode::{DecodeError, decode};
use pb_schema::{MessageId, Pool};
use pb_value::{Content, DynamicMessage};
use pb_wire::Limits;
use std::alloc::{AllocError, Global};
use std::collections::BTreeMap;

/// The number of the field that holds the URL of the type.
const TYPE_URL: u32 = 1;

/// The number of the field that holds the bytes of the message.
pub(crate) const VALUE: u32 = 2;

/// The URL of the type of the message in an Any.
pub(crate) fn type_url(fields: &BTreeMap<u32, Content>) -> &str
    ensures { result.now ≡ string_at 1 (fields_view fields.now.entries) }
{
    text_at(fields, TYPE_URL)
}

/// Whether an Any holds nothing.
pub(crate) fn is_unset(fields: &BTreeMap<u32, Content>) -> bool
    ensures { result ≡ is_unset (fields_view fields.now.entries) }
{
    type_url(fields).is_empty() && bytes_at(fields, VALUE).is_empty()
}

/// The message in an Any of these fields. None where its URL names no type of the pool, or its bytes are no encoding of that type.
pub(crate) fn open_any<'p>(
    alloc: Global,
    pool: &'p Pool,
    fields: &BTreeMap<u32, Content>,
) -> Result<Option<DynamicMessage<'p>>, AllocError>
    ensures opened { IfOk result (λ o. option_map (λ m. (m.kind, m.body)) o ≡ any_message pool.now (fields_view fields.now.entries)) }
    ensures pool { IfOk result (λ o. IfSome o (λ m. m.pool ≡ pool.now)) }
{
    let Some(id) = type_meant(pool, type_url(fields)) else {
        return Ok(None);
    };
    open(alloc, pool, id, bytes_at(fields, VALUE))
}

/// The type that a URL names: that of the pool whose full name comes after the last slash.
pub fn type_meant(pool: &Pool, url: &str) -> Option<MessageId>
    ensures found { option_map (λ m. m.0) result ≡ type_meant pool.now url.now }
    ensures within { IfSome result (λ m. m.0 < length pool.now.messages) }
{
    match url.rsplit_once('/') {
        Some((_host, name)) => pool.message_by_name(name),
        None => None,
    }
}

/// The message of a type that bytes encode, within the greatest limits, or None where they encode none.
pub fn open<'p>(
    alloc: Global,
    pool: &'p Pool,
    id: MessageId,
    bytes: &[u8],
) -> Result<Option<DynamicMessage<'p>>, AllocError>
    requires { id.0 < length pool.now.messages }
    ensures opened { IfOk result (λ o. option_map (λ m. (m.kind, m.body)) o ≡ typed pool.now bytes.now id.0) }
    ensures pool { IfOk result (λ o. IfSome o (λ m. m.pool ≡ pool.now)) }
{
    opened(decode(alloc, pool, id, bytes, Limits::FULL))
}

/// What is opened, by what decoding answers: nothing of bytes with a fault.
fn opened(
    decoded: Result<DynamicMessage<'_>, DecodeError>,
) -> Result<Option<DynamicMessage<'_>>, AllocError>
    ensures { Opens decoded.entry result }
{
    match decoded {
        Ok(message) => Ok(Some(message)),
        Err(DecodeError::Fault { .. }) => Ok(None),
        Err(_) => Err(AllocError),
    }
}
