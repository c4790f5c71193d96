//! What a `google.protobuf.Any` holds: the URL of a type, and the encoding of a message of it.

ghost use Rattle.std.specs.Prelude.{◌≡◌, ◌<◌, ◌==◌, ◌&&◌, [], length, option_map, None, IfErr, IfOk};
ghost use Rattle.pb_schema.specs.Types.{message_fields};
ghost use Rattle.pb_schema.specs.Scalar.{bytes, text};
ghost use Rattle.pb_schema.specs.View.{field_view};
ghost use Rattle.pb_value.specs.Data.{fields_of, get_field};
ghost use Rattle.pb_value.specs.View.{body_view, content_view, value_view};
ghost use Rattle.pb_json_read.specs.Answers.{Answers};
ghost use Rattle.pb_json_read.specs.Anys.{any_fields, any_message, both_any, has_members, is_empty_type, message_held, message_in, message_of, value_field};
ghost use Rattle.pb_json_read.specs.Anys.{Encodes};
ghost use Rattle.pb_json_read.specs.Faults.{out_of_memory};
ghost use Rattle.pb_json_read.specs.Steps.{given};
ghost use Rattle.pb_json_read.specs.WellKnown.{takes};

use crate::construction::Parts;
use crate::depth::within_depth;
use crate::error::JsonReadError;
use crate::forms::is_single;
use crate::names::fields_of;
use pb_encode::{EncodeError, encode};
use pb_json::well_known::{is_plain, well_known};
use pb_schema::{Field, Kind, MessageId, Pool, Shape};
use pb_value::bodies::{empty_body, take_field};
use pb_value::{Body, Content, Value};
use std::alloc::{AllocError, Global};

/// The field that a message of a type with a form of its own is read as: `value`.
pub(crate) fn value_field(alloc: Global, id: MessageId) -> Result<Field, AllocError>
    ensures { IfOk result (λ f. field_view f ≡ value_field id.0) }
{
    Ok(Field {
        name: String::from_str(alloc, "value")?,
        number: 1,
        kind: Kind::Message(id),
        shape: Shape::Explicit,
    })
}

/// Whether a type is `google.protobuf.Empty`, as Google's file declares it: it has no fields.
pub(crate) fn is_empty_type(pool: &Pool, id: MessageId) -> bool
    requires { id.0 < length pool.now.messages }
    ensures { result ≡ is_empty_type pool.now id.0 }
{
    pool.message_name(id) == b"google.protobuf.Empty".as_slice() && has_no_fields(pool, id)
}

fn has_no_fields(pool: &Pool, id: MessageId) -> bool
    requires { id.0 < length pool.now.messages }
    ensures { result ≡ (length (message_fields pool.now id.0) == 0) }
{
    fields_of(pool, id).is_empty()
}

/// Whether the members of a message of a type are beside `@type`.
pub(crate) fn has_members(pool: &Pool, id: MessageId) -> bool
    requires { id.0 < length pool.now.messages }
    ensures { result ≡ has_members pool.now id.0 }
{
    is_plain(well_known(pool, id)) && !is_empty_type(pool, id)
}

/// The message that the field `value` holds, from an object that begins at this byte. It may be left out of
/// an Empty.
pub(crate) fn held_message(
    alloc: Global,
    body: Body,
    is_empty: bool,
    at: usize,
) -> Result<Body, JsonReadError>
    ensures { Answers body_view
        (λ r. r ≡ given at (message_held is_empty (get_field 1 (fields_of (body_view body)))))
        result }
{
    let mut body = body;
    match take_field(&mut body, 1) {
        Some(content) => message_in(content, at),
        None => without_message(alloc, is_empty, at),
    }
}

/// The message where there is no `value`.
fn without_message(alloc: Global, is_empty: bool, at: usize) -> Result<Body, JsonReadError>
    ensures { Answers body_view (λ r. r ≡ given at (message_held is_empty None)) result }
{
    if is_empty {
        Ok(empty_body(alloc))
    } else {
        Err(JsonReadError::bad_value(at))
    }
}

fn message_in(content: Content, at: usize) -> Result<Body, JsonReadError>
    ensures { Answers body_view (λ r. r ≡ given at (message_in (content_view content))) result }
{
    match content {
        Content::One(value) => message_of(value, at),
        Content::List(_) | Content::Map(_) => Err(JsonReadError::bad_value(at)),
    }
}

fn message_of(value: Value, at: usize) -> Result<Body, JsonReadError>
    ensures { Answers body_view (λ r. r ≡ given at (message_of (value_view value))) result }
{
    match value {
        Value::Message(body) => Ok(body),
        Value::I32(_) | Value::I64(_) | Value::U32(_) | Value::U64(_) | Value::Bool(_) => {
            Err(JsonReadError::bad_value(at))
        }
        Value::F32(_) | Value::F64(_) | Value::Enum(_) | Value::Text(_) | Value::Bytes(_) => {
            Err(JsonReadError::bad_value(at))
        }
    }
}

/// The canonical bytes of a message, from an object that begins at this byte.
pub(crate) fn encoded(
    alloc: Global,
    pool: &Pool,
    id: MessageId,
    body: Body,
    at: usize,
) -> Result<Vec<u8>, JsonReadError>
    requires { id.0 < length pool.now.messages }
    ensures { Answers (λ v. v.items) (Encodes pool.now id.0 at (body_view body)) result }
{
    let message = within_depth(alloc, pool, id, body, at)?;
    match encode(&message) {
        Ok(bytes) => Ok(bytes),
        Err(EncodeError::TooLarge) => Err(JsonReadError::bad_value(at)),
        Err(_) => Err(JsonReadError::out_of_memory()),
    }
}

/// The fields for URL and bytes, where the type declares them.
pub(crate) fn any_fields<'a>(pool: &'a Pool, id: MessageId) -> Option<(&'a Field, &'a Field)>
    requires { id.0 < length pool.now.messages }
    ensures { option_map (λ p. (field_view p.0.now, field_view p.1.now)) result
        ≡ any_fields (message_fields pool.now id.0) }
{
    let url = pool.field_by_number(id, 1)?;
    let value = pool.field_by_number(id, 2)?;
    both_any(url, value)
}

fn both_any<'a>(url: &'a Field, value: &'a Field) -> Option<(&'a Field, &'a Field)>
    ensures { option_map (λ p. (field_view p.0.now, field_view p.1.now)) result
        ≡ both_any (field_view url.now) (field_view value.now) }
{
    if takes_text(url) && takes_bytes(value) {
        Some((url, value))
    } else {
        None
    }
}

fn takes_text(field: &Field) -> bool
    ensures { result ≡ takes (field_view field.now) (text []) }
{
    is_single(field.shape) && matches!(field.kind, Kind::Text)
}

fn takes_bytes(field: &Field) -> bool
    ensures { result ≡ takes (field_view field.now) (bytes []) }
{
    is_single(field.shape) && matches!(field.kind, Kind::Bytes)
}

/// An Any by its fields for URL and bytes, and what they hold.
pub(crate) fn any_body(
    alloc: Global,
    url_field: &Field,
    bytes_field: &Field,
    url: &str,
    encoding: Vec<u8>,
) -> Result<Body, JsonReadError>
    ensures made { IfOk result (λ b. body_view b
        ≡ any_message (field_view url_field.now, field_view bytes_field.now) url.now encoding.items) }
    ensures memory { IfErr result (λ e. e ≡ out_of_memory) }
{
    let url = String::from_str(alloc, url)?;
    let mut parts = Parts::new(alloc);
    parts.put(
        url_field.shape,
        url_field.number,
        Content::One(Value::Text(url)),
    )?;
    parts.put(
        bytes_field.shape,
        bytes_field.number,
        Content::One(Value::Bytes(encoding)),
    )?;
    Ok(parts.body)
}
