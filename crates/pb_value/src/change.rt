//! Changes of what a body holds.

pub(crate) mod element;
pub(crate) mod insert;
pub(crate) mod oneof;
pub(crate) mod push;
pub(crate) mod remove;
pub(crate) mod set;

ghost use Rattle.std.specs.Prelude.{◌≡◌, ◌<◌, length, OnOk, OnErr, IfErr, Some, option_map};
ghost use Rattle.pb_schema.specs.Types.{message_fields};
ghost use Rattle.pb_value.specs.Data.{body, get_field, put_field, drop_field, fields_of};
ghost use Rattle.pb_value.specs.Change.{gives_way, stored_at, ChangesFields};
ghost use Rattle.pb_value.specs.WellFormed.{RisesFrom, HasOneMemberEach};
ghost use Rattle.pb_value.specs.View.{body_view, content_view, fields_view};
ghost use Rattle.pb_value.specs.declared.error.ValueError.TheVariants.{Memory};

use crate::body::{Body, Content};
use crate::change::oneof::set_member;
use crate::error::ValueError;
use crate::judge::is_absence;
use pb_schema::{MessageId, Pool, Shape};
use std::collections::BTreeMap;

/// Clears the field of a number.
pub(crate) fn clear_field(message: &mut Body, number: u32)
    ensures { ChangesFields (drop_field number) (body_view message.old) (body_view message.new) }
{
    drop(message.fields.remove(&number));
}

/// Puts a content at a number.
#[inline(always)]
pub fn put_field(message: &mut Body, number: u32, content: Content) -> Result<(), ValueError>
    ensures ok { OnOk result (ChangesFields (put_field number (content_view content)) (body_view message.old) (body_view message.new)) }
    ensures err { OnErr result (body_view message.new ≡ body_view message.old) }
    ensures memory { IfErr result (λ e. e ≡ Memory) }
    ensures rises { RisesFrom 0 (fields_of (body_view message.old)) }
{
    drop(message.fields.insert(number, content)?);
    Ok(())
}

/// Takes the content of a number out of a body.
#[inline(always)]
pub fn take_field(message: &mut Body, number: u32) -> Option<Content>
    ensures left { ChangesFields (drop_field number) (body_view message.old) (body_view message.new) }
    ensures taken { option_map content_view result ≡ get_field number (fields_of (body_view message.old)) }
{
    message.fields.remove(&number)
}

/// The member that gives way to the field of a number: the one of its oneof that is set.
#[inline(always)]
pub(crate) fn gives_way(
    pool: &Pool,
    message_type: MessageId,
    fields: &BTreeMap<u32, Content>,
    shape: Shape,
    number: u32,
) -> Option<u32>
    requires within { message_type.0 < length pool.now.messages }
    requires one_each { HasOneMemberEach (message_fields pool.now message_type.0) (fields_view fields.now.entries) }
    ensures { result ≡ gives_way (message_fields pool.now message_type.0) shape number (fields_view fields.now.entries) }
{
    let Shape::OneofMember(oneof) = shape else {
        return None;
    };
    let member = set_member(pool, message_type, fields, oneof)?;
    if member == number { None } else { Some(member) }
}

/// Stores a content at a field, or clears the field where an absent one is the same.
#[inline(always)]
pub fn store(
    pool: &Pool,
    message_type: MessageId,
    message: &mut Body,
    shape: Shape,
    number: u32,
    content: Content,
) -> Result<(), ValueError>
    requires within { message_type.0 < length pool.now.messages }
    requires one_each { HasOneMemberEach (message_fields pool.now message_type.0) (fields_of (body_view message.old)) }
    ensures ok { OnOk result (ChangesFields (stored_at (message_fields pool.now message_type.0) shape number (content_view content))
        (body_view message.old) (body_view message.new)) }
    ensures err { OnErr result (body_view message.new ≡ body_view message.old) }
    ensures memory { IfErr result (λ e. e ≡ Memory) }
{
    if is_absence(shape, &content) {
        clear_field(message, number);
        return Ok(());
    }
    let other = gives_way(pool, message_type, &message.fields, shape, number);
    put_field(message, number, content)?;
    if let Some(other) = other {
        clear_field(message, other);
    }
    Ok(())
}
