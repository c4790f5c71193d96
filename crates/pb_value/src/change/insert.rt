//! One entry of a map.

ghost use Rattle.std.specs.Prelude.{◌≡◌, ◌<◌, length, option_map, OnOk, OnErr, IfOk, IfErr, None, Some};
ghost use Rattle.pb_value.specs.Data.{fields_of, get_field, get_entry};
ghost use Rattle.pb_value.specs.Change.{ChangesFields, entries_of, inserted, insert_at, entry_at, insert_cause, IsEntry, FitsKeys};
ghost use Rattle.pb_value.specs.Cause.{IsRefusedBy};
ghost use Rattle.pb_value.specs.WellFormed.{IsWellFormed};
ghost use Rattle.pb_value.specs.View.{body_view, content_view, key_view, value_view};
ghost use Rattle.pb_value.specs.declared.error.ValueError.TheVariants.{Memory};

use crate::body::{Body, Content, MapKey, Value};
use crate::change::put_field;
use crate::error::ValueError;
use crate::judge::check::check_value;
use crate::judge::depth::{MAX_LEVELS, entry_within};
use crate::judge::{is_key_of, is_value_of};
use crate::lookup::field_at;
use pb_schema::{MessageId, Pool, Shape};
use std::alloc::Global;
use std::collections::BTreeMap;

/// Whether the map of a number can hold a value under a key.
pub(crate) fn check_entry(
    alloc: Global,
    pool: &Pool,
    message_type: MessageId,
    number: u32,
    key: &MapKey,
    value: &Value,
) -> Result<(), ValueError>
    requires { message_type.0 < length pool.now.messages }
    ensures judged { IsRefusedBy result (insert_cause pool.now message_type.0 number (key_view key.now) (value_view value.now)) }
    ensures fits { IfOk result (λ _. IsEntry pool.now message_type.0 number (key_view key.now) (value_view value.now)) }
{
    let Some(field) = field_at(pool, message_type, number) else {
        return Err(ValueError::NoSuchField);
    };
    if !is_key_of(field.shape, key) || !is_value_of(field.kind, value) {
        return Err(ValueError::WrongKind);
    }
    if !matches!(field.shape, Shape::Map { key: _ }) {
        return Err(ValueError::WrongShape);
    }
    check_value(alloc, pool, field.kind, value)?;
    if !entry_within(value, MAX_LEVELS) {
        return Err(ValueError::TooDeep);
    }
    Ok(())
}

/// A map of one entry.
fn map_of(alloc: Global, key: MapKey, value: Value) -> Result<Content, ValueError>
    ensures made { IfOk result (λ c. content_view c ≡ inserted (key_view key) (value_view value) None) }
    ensures memory { IfErr result (λ e. e ≡ Memory) }
{
    let mut map = BTreeMap::new(alloc);
    drop(map.insert(key, value)?);
    Ok(Content::Map(map))
}

/// Puts a value under a key of a map, and returns the value that the key had before. Content that is not a map becomes a map of one
/// entry; a field that was judged a map holds nothing else.
#[inline(always)]
fn put_under(
    alloc: Global,
    content: &mut Content,
    key: MapKey,
    value: Value,
) -> Result<Option<Value>, ValueError>
    requires { FitsKeys (key_view key) (entries_of (Some (content_view content.old))) }
    ensures ok { OnOk result (content_view content.new ≡ inserted (key_view key) (value_view value) (Some (content_view content.old))) }
    ensures stood { IfOk result (λ v. option_map value_view v ≡ get_entry (key_view key) (entries_of (Some (content_view content.old)))) }
    ensures err { OnErr result (content_view content.new ≡ content_view content.old) }
    ensures memory { IfErr result (λ e. e ≡ Memory) }
{
    match content {
        Content::Map(entries) => Ok(entries.insert(key, value)?),
        _ => {
            *content = map_of(alloc, key, value)?;
            Ok(None)
        }
    }
}

/// Puts a value under a key of the map of a number, and returns the value that the key had before. Without a map, the field then
/// holds a map of one entry.
#[inline(always)]
pub fn insert_entry(
    alloc: Global,
    message: &mut Body,
    number: u32,
    key: MapKey,
    value: Value,
) -> Result<Option<Value>, ValueError>
    requires { FitsKeys (key_view key) (entries_of (get_field number (fields_of (body_view message.old)))) }
    ensures ok { OnOk result (ChangesFields (insert_at number (key_view key) (value_view value)) (body_view message.old) (body_view message.new)) }
    ensures stood { IfOk result (λ v. option_map value_view v ≡ entry_at number (key_view key) (fields_of (body_view message.old))) }
    ensures err { OnErr result (body_view message.new ≡ body_view message.old) }
    ensures memory { IfErr result (λ e. e ≡ Memory) }
{
    match message.fields.get_mut(&number) {
        Some(content) => put_under(alloc, content, key, value),
        None => {
            let content = map_of(alloc, key, value)?;
            put_field(message, number, content)?;
            Ok(None)
        }
    }
}

/// Puts a value under a key of the map of a number of a well-formed message, as
/// [`DynamicMessage::insert`](crate::DynamicMessage::insert) does.
pub(crate) fn insert_value(
    alloc: Global,
    pool: &Pool,
    message_type: MessageId,
    message: &mut Body,
    number: u32,
    key: MapKey,
    value: Value,
) -> Result<Option<Value>, ValueError>
    requires within { message_type.0 < length pool.now.messages }
    requires well_formed { IsWellFormed pool.now message_type.0 (body_view message.old) }
    ensures ok { OnOk result (ChangesFields (insert_at number (key_view key) (value_view value))
        (body_view message.old) (body_view message.new)) }
    ensures taken { IfOk result (λ v. option_map value_view v
        ≡ entry_at number (key_view key) (fields_of (body_view message.old))) }
    ensures err { OnErr result (body_view message.new ≡ body_view message.old) }
    ensures judged { IsRefusedBy result
        (insert_cause pool.now message_type.0 number (key_view key) (value_view value)) }
    ensures well_formed { IsWellFormed pool.now message_type.0 (body_view message.new) }
{
    check_entry(alloc, pool, message_type, number, &key, &value)?;
    insert_entry(alloc, message, number, key, value)
}
