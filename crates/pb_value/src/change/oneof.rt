//! Which member of a oneof is set.

ghost use Rattle.std.specs.Prelude.{◌≡◌, ◌<◌, length};
ghost use Rattle.pb_schema.specs.Types.{message_fields, field_numbered};
ghost use Rattle.pb_value.specs.Oneof.{is_member_at, member_set};
ghost use Rattle.pb_value.specs.View.{fields_view};
ghost use Rattle.pb_value.specs.WellFormed.{HasOneMemberEach};

use crate::body::Content;
use crate::lookup::field_at;
use pb_schema::{MessageId, Pool, Shape};
use std::collections::BTreeMap;

/// Whether the field of a number is a member of the oneof with an index.
fn is_member(pool: &Pool, message_type: MessageId, number: u32, oneof: u32) -> bool
    requires { message_type.0 < length pool.now.messages }
    ensures { result ≡ is_member_at oneof (field_numbered number (message_fields pool.now message_type.0)) }
{
    match field_at(pool, message_type, number) {
        Some(field) => match field.shape {
            Shape::OneofMember(index) => oneof == index,
            _ => false,
        },
        None => false,
    }
}

/// The number of the member that is set, looked for among what is stored.
fn stored_member(
    pool: &Pool,
    message_type: MessageId,
    fields: &BTreeMap<u32, Content>,
    oneof: u32,
) -> Option<u32>
    requires { message_type.0 < length pool.now.messages }
    ensures { result ≡ member_set (message_fields pool.now message_type.0) oneof (fields_view fields.now.entries) }
{
    for (stored, _) in fields {
        if is_member(pool, message_type, *stored, oneof) {
            return Some(*stored);
        }
    }
    None
}

/// The number of the member that is set, looked for among the members.
fn listed_member(
    pool: &Pool,
    message_type: MessageId,
    fields: &BTreeMap<u32, Content>,
    oneof: u32,
) -> Option<u32>
    requires within { message_type.0 < length pool.now.messages }
    requires one_each { HasOneMemberEach (message_fields pool.now message_type.0) (fields_view fields.now.entries) }
    ensures { result ≡ member_set (message_fields pool.now message_type.0) oneof (fields_view fields.now.entries) }
{
    for number in pool.oneof_members(message_type, oneof) {
        if fields.contains_key(number) {
            return Some(*number);
        }
    }
    None
}

/// The number of the member that is set, of the oneof with an index. Looks at the fewer of the oneof's members and the stored fields.
pub(crate) fn set_member(
    pool: &Pool,
    message_type: MessageId,
    fields: &BTreeMap<u32, Content>,
    oneof: u32,
) -> Option<u32>
    requires within { message_type.0 < length pool.now.messages }
    requires one_each { HasOneMemberEach (message_fields pool.now message_type.0) (fields_view fields.now.entries) }
    ensures { result ≡ member_set (message_fields pool.now message_type.0) oneof (fields_view fields.now.entries) }
{
    if fields.len() < pool.oneof_members(message_type, oneof).len() {
        stored_member(pool, message_type, fields, oneof)
    } else {
        listed_member(pool, message_type, fields, oneof)
    }
}
