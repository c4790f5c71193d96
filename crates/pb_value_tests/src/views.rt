//! Messages inside others, seen in their place.

use super::sample::Schema;
use pb_schema::MessageId;
use pb_test_types::body_of;
use pb_value::{Content, DynamicMessage, MapKey, MessageRef, Value};
use std::alloc::{AllocError, Global};
use std::test::Fail;

/// What the field 1 of a message holds.
fn number_in(message: Option<MessageRef<'_>>) -> Option<i32> {
    match message?.get(1)? {
        Content::One(Value::I32(number)) => Some(*number),
        _ => None,
    }
}

/// The number in the message at an index of the list 19.
fn number_at(view: &MessageRef<'_>, index: usize) -> Option<i32> {
    number_in(view.message_at(19, index))
}

/// The number in the message under a key of the map 12.
fn number_under(view: &MessageRef<'_>, key: MapKey) -> Option<i32> {
    number_in(view.message_of(12, &key))
}

/// A field, and the number in the message that it holds.
const FIELDS: &[(u32, Option<i32>)] = &[
    (3, Some(5)),
    (1, None),
    (8, None),
    (12, None),
    (19, None),
    (99, None),
];

fn are_told(view: &MessageRef<'_>, rows: &[(u32, Option<i32>)]) -> bool {
    for (number, told) in rows {
        if number_in(view.message(*number)) != *told {
            return false;
        }
    }
    true
}

fn has_inner(view: &MessageRef<'_>) -> bool {
    are_told(view, FIELDS)
        && number_at(view, 0) == Some(7)
        && number_at(view, 1) == Some(8)
        && number_at(view, 2).is_none()
        && number_under(view, MapKey::U32(9)) == Some(6)
        && number_under(view, MapKey::U32(8)).is_none()
        && number_under(view, MapKey::I32(9)).is_none()
}

/// The same calls of the message itself.
fn has_inner_itself(message: &DynamicMessage<'_>) -> bool {
    number_in(message.message(3)) == Some(5)
        && number_in(message.message_at(19, 1)) == Some(8)
        && number_in(message.message_of(12, &MapKey::U32(9))) == Some(6)
}

pub(crate) fn are_inner_told(alloc: Global, schema: &Schema) -> Result<bool, Fail> {
    let message = schema.made(
        alloc,
        body_of(alloc, "3:m1=i5 12:{u9=m1=i6} 19:[m1=i7,m1=i8]")?,
    )?;
    Ok(has_inner(&message.view()) && has_inner_itself(&message))
}

fn has_groups(message: &DynamicMessage<'_>) -> bool {
    number_in(message.message(3)) == Some(5)
        && number_in(message.message(7)) == Some(6)
        && number_in(message.message_at(19, 1)) == Some(8)
        && message.message_at(19, 2).is_none()
        && message.message(4).is_none()
        && message.which_oneof(0) == Some(7)
}

pub(crate) fn are_groups_told(alloc: Global, schema: &Schema) -> Result<bool, Fail> {
    let message = schema.made(
        alloc,
        body_of(alloc, "3:m1=i5 4:e1 7:m1=i6 19:[m1=i7,m1=i8]")?,
    )?;
    Ok(has_groups(&message))
}

fn is_whole(view: &MessageRef<'_>, message: &DynamicMessage<'_>, message_type: MessageId) -> bool {
    view.body() == message.body()
        && view.message_type() == message_type
        && view.pool().messages().len() == 2
        && view.which_oneof(0) == Some(8)
        && view.has(2)
        && !view.has(7)
        && view.has(8)
        && !view.has(99)
}

pub(crate) fn is_whole_told(alloc: Global, schema: &Schema) -> Result<bool, Fail> {
    let message = schema.made(alloc, body_of(alloc, "2:tx 8:n1 99~v7")?)?;
    Ok(is_whole(&message.view(), &message, schema.kind))
}

fn shown(alloc: Global, message: &DynamicMessage<'_>) -> Result<String, AllocError> {
    format!(in alloc; "{message:?}")
}

fn shown_view(alloc: Global, message: &MessageRef<'_>) -> Result<String, AllocError> {
    format!(in alloc; "{message:?}")
}

fn is_shown(alloc: Global, message: &DynamicMessage<'_>, wanted: &str) -> Result<bool, Fail> {
    let told = shown(alloc, message)?;
    Ok(told.as_str() == wanted)
}

fn is_shown_inside(
    alloc: Global,
    message: &DynamicMessage<'_>,
    number: u32,
    wanted: &str,
) -> Result<bool, Fail> {
    let inner = message.message(number).ok_or("no message")?;
    let told = shown_view(alloc, &inner)?;
    Ok(told.as_str() == wanted)
}

const OUTER: &str =
    "DynamicMessage { type: a.b.T, body: Body { fields: {1: One(I32(5)), 20: One(Message(Body { fields: {}, unknown: [] }))}, unknown: [] } }";

const INNER: &str = "MessageRef { type: a.b.T.N, body: Body { fields: {}, unknown: [] } }";

/// A message prints the full name of its type, and its body.
pub(crate) fn are_shown(alloc: Global, schema: &Schema) -> Result<bool, Fail> {
    let message = schema.made(alloc, body_of(alloc, "1:i5 20:n0")?)?;
    Ok(is_shown(alloc, &message, OUTER)? && is_shown_inside(alloc, &message, 20, INNER)?)
}
