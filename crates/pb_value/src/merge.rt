//! One message over another.

ghost use Rattle.std.specs.Prelude.{◌≡◌, ◌<◌, ◌≤◌, ℕ, length, OnOk, IfErr, IfSome, Some};
ghost use Rattle.pb_schema.specs.declared.types.Kind.{Kind};
ghost use Rattle.pb_schema.specs.Types.{FieldView, message_fields, field_numbered};
ghost use Rattle.pb_schema.specs.Rules.{IsPool, NamesType};
ghost use Rattle.pb_value.specs.Data.{Message, one, list, map, message, fields_of, get_field, put_entries, holding_depth, message_depth};
ghost use Rattle.pb_value.specs.Change.{gives_way, drop_some, ChangesFields, entries_of, AreKeys};
ghost use Rattle.pb_value.specs.Inner.{only_datum};
ghost use Rattle.pb_value.specs.Merge.{both, put_merged, merged_in, merged_within};
ghost use Rattle.pb_value.specs.WellFormed.{CanStand, IsDatum, IsHeld, AreFields, HasOneMemberEach, IsBody};
ghost use Rattle.pb_value.specs.View.{content_view, body_view, values_view, entries_view};
ghost use Rattle.pb_value.specs.declared.error.ValueError.TheVariants.{Memory};

use crate::body::{Body, Content, MapKey, Value};
use crate::change::{clear_field, gives_way, put_field};
use crate::error::ValueError;
use crate::lookup::field_at;
use pb_schema::{Kind, MessageId, Pool, Shape};
use std::collections::BTreeMap;

/// Appends the elements of a list to those of a content. Content that is not a list is replaced.
fn join_list(content: &mut Content, mut other: Vec<Value>) -> Result<(), ValueError>
    ensures ok { OnOk result ((merge : ℕ → Message → Message → Message) (k : Kind) →
        content_view content.new ≡ both merge k (content_view content.old) (list (values_view other.items))) }
    ensures memory { IfErr result (λ e. e ≡ Memory) }
{
    match content {
        Content::List(values) => {
            values.append(&mut other)?;
            Ok(())
        }
        _ => {
            *content = Content::List(other);
            Ok(())
        }
    }
}

/// Puts the entries of a map over those of another.
fn put_entries(
    entries: &mut BTreeMap<MapKey, Value>,
    other: BTreeMap<MapKey, Value>,
) -> Result<(), ValueError>
    requires { (k : Kind) × AreKeys k (entries_view entries.old.entries) × AreKeys k (entries_view other.entries) }
    ensures ok { OnOk result (entries_view entries.new.entries ≡ put_entries (entries_view other.entries) (entries_view entries.old.entries)) }
    ensures memory { IfErr result (λ e. e ≡ Memory) }
{
    for (key, value) in other {
        drop(entries.insert(key, value)?);
    }
    Ok(())
}

/// Puts the entries of a map over those of a content. What is no map is replaced.
fn join_map(content: &mut Content, other: BTreeMap<MapKey, Value>) -> Result<(), ValueError>
    requires keys { (k : Kind) × AreKeys k (entries_of (Some (content_view content.old))) × AreKeys k (entries_view other.entries) }
    ensures ok { OnOk result ((merge : ℕ → Message → Message → Message) (k : Kind) →
        content_view content.new ≡ both merge k (content_view content.old) (map (entries_view other.entries))) }
    ensures memory { IfErr result (λ e. e ≡ Memory) }
{
    match content {
        Content::Map(entries) => put_entries(entries, other),
        _ => {
            *content = Content::Map(other);
            Ok(())
        }
    }
}

/// Clears the member that gives way to the field of a number, if one is set.
fn make_way(pool: &Pool, message_type: MessageId, message: &mut Body, shape: Shape, number: u32)
    requires within { message_type.0 < length pool.now.messages }
    requires one_each { HasOneMemberEach (message_fields pool.now message_type.0) (fields_of (body_view message.old)) }
    ensures { ChangesFields (λ fs. drop_some (gives_way (message_fields pool.now message_type.0) shape number fs) fs)
        (body_view message.old) (body_view message.new) }
{
    if let Some(member) = gives_way(pool, message_type, &message.fields, shape, number) {
        clear_field(message, member);
    }
}

/// Merges a message into a content. What is no message is replaced.
#[cycle(merge)]
fn merge_message(
    pool: &Pool,
    kind: Kind,
    content: &mut Content,
    other: Body,
) -> Result<(), ValueError>
    requires rules { IsPool pool.now }
    requires named { NamesType (length pool.now.messages) (length pool.now.enums) kind }
    requires own { IfSome (only_datum (content_view content.old)) (IsDatum pool.now kind) }
    requires other { IsDatum pool.now kind (message (body_view other)) }
    ensures ok { OnOk result ((levels : ℕ) → message_depth (body_view other) < levels →
        content_view content.new ≡ both (merged_within pool.now levels) kind (content_view content.old) (one (message (body_view other)))) }
    ensures memory { IfErr result (λ e. e ≡ Memory) }
{
    let Some(id) = kind.message() else {
        unreachable!();
    };
    match content {
        Content::One(Value::Message(message)) => merge_body(pool, id, message, other),
        _ => {
            *content = Content::One(Value::Message(other));
            Ok(())
        }
    }
}

/// Merges a content of a field into another.
#[cycle(merge)]
fn merge_content(
    pool: &Pool,
    shape: Shape,
    kind: Kind,
    content: &mut Content,
    other: Content,
) -> Result<(), ValueError>
    requires rules { IsPool pool.now }
    requires named { NamesType (length pool.now.messages) (length pool.now.enums) kind }
    requires own { IsHeld pool.now shape kind (content_view content.old) }
    requires other { IsHeld pool.now shape kind (content_view other) }
    ensures ok { OnOk result ((levels : ℕ) → holding_depth (content_view other) ≤ levels →
        content_view content.new ≡ both (merged_within pool.now levels) kind (content_view content.old) (content_view other)) }
    ensures memory { IfErr result (λ e. e ≡ Memory) }
{
    match other {
        Content::One(Value::Message(other)) => merge_message(pool, kind, content, other),
        Content::One(scalar) => {
            *content = Content::One(scalar);
            Ok(())
        }
        Content::List(other) => join_list(content, other),
        Content::Map(other) => join_map(content, other),
    }
}

/// Merges a content into that of a number.
#[cycle(merge)]
fn merge_at(
    pool: &Pool,
    shape: Shape,
    kind: Kind,
    message: &mut Body,
    number: u32,
    other: Content,
) -> Result<(), ValueError>
    requires rules { IsPool pool.now }
    requires named { NamesType (length pool.now.messages) (length pool.now.enums) kind }
    requires own { IfSome (get_field number (fields_of (body_view message.old))) (IsHeld pool.now shape kind) }
    requires other { IsHeld pool.now shape kind (content_view other) }
    ensures ok { OnOk result ((levels : ℕ) → holding_depth (content_view other) ≤ levels →
        ChangesFields (put_merged (merged_within pool.now levels) kind number (content_view other)) (body_view message.old) (body_view message.new)) }
    ensures memory { IfErr result (λ e. e ≡ Memory) }
{
    match message.fields.get_mut(&number) {
        Some(content) => merge_content(pool, shape, kind, content, other),
        None => put_field(message, number, other),
    }
}

/// Merges one field. The member of its oneof that is set gives way.
#[cycle(merge)]
fn merge_field(
    pool: &Pool,
    message_type: MessageId,
    message: &mut Body,
    number: u32,
    other: Content,
) -> Result<(), ValueError>
    requires rules { IsPool pool.now }
    requires within { message_type.0 < length pool.now.messages }
    requires own { AreFields pool.now (message_fields pool.now message_type.0) (fields_of (body_view message.old)) }
    requires one_each { HasOneMemberEach (message_fields pool.now message_type.0) (fields_of (body_view message.old)) }
    requires other { CanStand pool.now (message_fields pool.now message_type.0) number (content_view other) }
    ensures ok { OnOk result ((levels : ℕ) (f : FieldView) → holding_depth (content_view other) ≤ levels
        → field_numbered number (message_fields pool.now message_type.0) ≡ Some f
        → ChangesFields (merged_in (merged_within pool.now levels) (message_fields pool.now message_type.0) f (content_view other))
        (body_view message.old) (body_view message.new)) }
    ensures memory { IfErr result (λ e. e ≡ Memory) }
{
    let Some(field) = field_at(pool, message_type, number) else {
        unreachable!();
    };
    make_way(pool, message_type, message, field.shape, number);
    merge_at(pool, field.shape, field.kind, message, number, other)
}

/// Merges a message into another of its type.
#[cycle(merge)]
pub(crate) fn merge_body(
    pool: &Pool,
    message_type: MessageId,
    message: &mut Body,
    other: Body,
) -> Result<(), ValueError>
    requires rules { IsPool pool.now }
    requires within { message_type.0 < length pool.now.messages }
    requires own { IsBody pool.now message_type.0 (body_view message.old) }
    requires other { IsBody pool.now message_type.0 (body_view other) }
    ensures ok { OnOk result ((levels : ℕ) → message_depth (body_view other) < levels →
        body_view message.new ≡ merged_within pool.now levels message_type.0 (body_view message.old) (body_view other)) }
    ensures memory { IfErr result (λ e. e ≡ Memory) }
{
    let Body {
        fields,
        mut unknown,
    } = other;
    for (number, content) in fields {
        merge_field(pool, message_type, message, number, content)?;
    }
    message.unknown.append(&mut unknown)?;
    Ok(())
}
