//! Whether what a new type reads means the same as what an old message holds.

use pb_decode::decode;
use pb_schema::{Kind, MessageId, Pool};
use pb_value::{Body, Content, MapKey, Value};
use pb_wire::Limits;
use std::alloc::Global;
use std::test::Fail;

/// The integer that a value means.
fn integer(value: &Value) -> Option<i128> {
    match value {
        Value::I32(number) | Value::Enum(number) => Some(*number as i128),
        Value::I64(number) => Some(*number as i128),
        Value::U32(number) => Some(*number as i128),
        Value::U64(number) => Some(*number as i128),
        Value::Bool(value) => Some(if *value { 1 } else { 0 }),
        Value::F32(_) | Value::F64(_) | Value::Text(_) | Value::Bytes(_) | Value::Message(_) =>
            None,
    }
}

fn octets(value: &Value) -> Option<&[u8]> {
    match value {
        Value::Text(string) => Some(string.as_str().as_bytes()),
        Value::Bytes(bytes) => Some(bytes.as_slice()),
        _ => None,
    }
}

/// Whether bytes are an encoding of a message N.
fn encodes(alloc: Global, pool: &Pool, bytes: &[u8], body: &Body) -> bool {
    if pool.messages().len() < 2 {
        return false;
    }
    match decode(alloc, pool, MessageId(1), bytes, Limits::FULL) {
        Ok(message) => message.body() == body,
        Err(_) => false,
    }
}

fn same_value(alloc: Global, pool: &Pool, old: &Value, new: &Value) -> bool {
    if let (Some(old), Some(new)) = (integer(old), integer(new)) {
        return old == new;
    }
    if let (Some(old), Some(new)) = (octets(old), octets(new)) {
        return old == new;
    }
    match (old, new) {
        (Value::F32(old), Value::F32(new)) => old == new,
        (Value::F64(old), Value::F64(new)) => old == new,
        (Value::Message(old), Value::Message(new)) => old == new,
        (Value::Message(old), Value::Bytes(new)) => encodes(alloc, pool, new, old),
        _ => false,
    }
}

fn same_key(old: &MapKey, new: &MapKey) -> bool {
    match (old, new) {
        (MapKey::I32(old), MapKey::I32(new)) => old == new,
        (MapKey::I64(old), MapKey::I64(new)) => old == new,
        (MapKey::I32(old), MapKey::I64(new)) => *old as i64 == *new,
        (MapKey::Bool(old), MapKey::I32(new)) => *new == if *old { 1 } else { 0 },
        (MapKey::Bool(old), MapKey::Bool(new)) => old == new,
        (MapKey::Text(old), MapKey::Text(new)) => old == new,
        _ => false,
    }
}

fn same_content(alloc: Global, pool: &Pool, old: &Content, new: &Content) -> bool {
    match (old, new) {
        (Content::One(old), Content::One(new)) => same_value(alloc, pool, old, new),
        (Content::One(old), Content::List(new)) => {
            new.len() == 1 && same_value(alloc, pool, old, &new[0])
        }
        (Content::List(old), Content::List(new)) => {
            old.len() == new.len()
                && old
                    .iter()
                    .zip(new)
                    .all(|(old, new)| same_value(alloc, pool, old, new))
        }
        (Content::Map(old), Content::Map(new)) => {
            old.len() == new.len()
                && old.iter().zip(new).all(|(old, new)| {
                    same_key(old.0, new.0) && same_value(alloc, pool, old.1, new.1)
                })
        }
        _ => false,
    }
}

/// Whether the field of a number is of bytes.
fn is_of_bytes(pool: &Pool, number: u32) -> bool {
    if pool.messages().is_empty() {
        return false;
    }
    match pool.field_by_number(MessageId(0), number) {
        Some(field) => matches!(field.kind, Kind::Bytes),
        None => false,
    }
}

/// Whether a content is one value that is the default of its kind. A message without fields is so as bytes, of which it has none.
fn is_default(content: &Content, as_bytes: bool) -> bool {
    let Content::One(value) = content else {
        return false;
    };
    match value {
        Value::F32(bits) => *bits == 0,
        Value::F64(bits) => *bits == 0,
        Value::Message(body) => { as_bytes && body.fields.is_empty() && body.unknown.is_empty() }
        _ => integer(value) == Some(0) || matches!(octets(value), Some([])),
    }
}

/// Whether the new message has in the field of a number what the old one has. A default need not be set, as the presence of the fields goes.
pub(crate) fn reads_same(
    alloc: Global,
    old_pool: &Pool,
    new_pool: &Pool,
    bytes: &[u8],
    number: u32,
) -> Result<bool, Fail> {
    if old_pool.messages().is_empty() || new_pool.messages().is_empty() {
        return Err("no message".into());
    }
    let old = decode(alloc, old_pool, MessageId(0), bytes, Limits::FULL)?;
    let Ok(new) = decode(alloc, new_pool, MessageId(0), bytes, Limits::FULL) else {
        return Ok(false);
    };
    Ok(match (old.get(number), new.get(number)) {
        (None, None) => true,
        (Some(old), None) => {
            is_default(old, is_of_bytes(new_pool, number)) && new.body().unknown.is_empty()
        }
        (None, Some(_)) => false,
        (Some(old), Some(new)) => same_content(alloc, old_pool, old, new),
    })
}
