//! Which oneofs of a new type have at most one of several fields that an old message may set.

ghost use Rattle.std.specs.Prelude.{◌≡◌, ◌<◌, length, IfOk, IfSome, slice_get};
ghost use Rattle.pb_schema.specs.Rules.{NamesOneof};
ghost use Rattle.pb_schema.specs.Types.{message_fields};
ghost use Rattle.pb_compat.specs.Oneofs.{share_oneof as share, at_most_one as at_most, shapes_of, is_crowded, HasCrowds};
ghost use Rattle.pb_compat.specs.Fields.{is_in_crowd as in_crowd};

use pb_schema::{MessageId, Pool, Shape};
use std::alloc::{AllocError, Global};

/// Whether two fields of a message type, of these shapes, are members of one oneof.
pub(crate) fn share_oneof(shape: Shape, other: Shape) -> bool
    ensures { result ≡ share shape other }
{
    match (shape, other) {
        (Shape::OneofMember(a), Shape::OneofMember(b)) => a == b,
        _ => false,
    }
}

/// Whether a message sets at most one of its fields of some numbers.
fn at_most_one(pool: &Pool, message: MessageId, numbers: &[u32]) -> bool
    requires { message.0 < length pool.now.messages }
    ensures { result ≡ at_most (shapes_of (message_fields pool.now message.0) numbers.now) }
{
    let mut first = None;
    for number in numbers {
        let Some(field) = pool.field_by_number(message, *number) else {
            continue;
        };
        match first {
            None => first = Some(field.shape),
            Some(shape) => {
                if !share_oneof(shape, field.shape) {
                    return false;
                }
            }
        }
    }
    true
}

/// Of each oneof of the new type, whether an old message may set two fields that are now its members. In time by the members.
pub(crate) fn crowds(
    alloc: Global,
    old: &Pool,
    old_type: MessageId,
    new: &Pool,
    new_type: MessageId,
) -> Result<Vec<bool>, AllocError>
    requires old { old_type.0 < length old.now.messages }
    requires new { new_type.0 < length new.now.messages }
    ensures { IfOk result (λ v. HasCrowds old.now old_type.0 new.now new_type.0 v.items) }
{
    let mut crowded = Vec::new(alloc);
    for oneof in 0..new.messages()[new_type.0].oneofs.len() {
        let members = match u32::try_from(oneof) {
            Ok(oneof) => new.oneof_members(new_type, oneof),
            Err(_) => &[],
        };
        crowded.push(!at_most_one(old, old_type, members))?;
    }
    Ok(crowded)
}

/// Whether a field of the new type, of this shape, is a member of a crowded oneof.
pub(crate) fn is_in_crowd(
    old: &Pool,
    old_type: MessageId,
    new: &Pool,
    new_type: MessageId,
    crowded: &[bool],
    shape: Shape,
) -> bool
    requires within { new_type.0 < length new.now.messages }
    requires crowds { HasCrowds old.now old_type.0 new.now new_type.0 crowded.now }
    requires oneof { IfSome (slice_get new.now.messages new_type.0)
        (λ t. NamesOneof (length t.oneofs) shape) }
    ensures { result ≡ in_crowd
        (is_crowded (message_fields old.now old_type.0) (message_fields new.now new_type.0)) shape }
{
    match shape {
        Shape::OneofMember(oneof) => match crowded.get(oneof as usize) {
            Some(is_crowded) => *is_crowded,
            None => false,
        },
        Shape::Implicit | Shape::Explicit | Shape::List { packed: _ } | Shape::Map { key: _ } => {
            false
        }
    }
}
