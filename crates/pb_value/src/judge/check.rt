//! Whether bodies are well formed, and why not.

ghost use Rattle.std.specs.Prelude.{◌≡◌, ◌<◌, ℕ, length, true, false, not, Some, OnOk};
ghost use Rattle.std.specs.Ordering.{nat_cmp};
ghost use Rattle.std.specs.BTreeSet.{contains};
ghost use Rattle.pb_schema.specs.Types.{message_fields};
ghost use Rattle.pb_schema.specs.Rules.{NamesType};
ghost use Rattle.pb_value.specs.Judge.{has_shape};
ghost use Rattle.pb_value.specs.Cause.{content_cause, stored_cause, with_member, datum_cause, datums_cause, entries_cause, parts_cause};
ghost use Rattle.pb_value.specs.Cause.{held_cause, fields_cause, body_cause, message_cause, unless, is_second, Judges, JudgesOrFails};
ghost use Rattle.pb_value.specs.WellFormed.{IsOfShape, IsDatum, AreDatums, AreEntries, KeysRise, IsHeld, holds_declared};
ghost use Rattle.pb_value.specs.WellFormed.{AreFields, RisesFrom, HasOneMemberEach, IsBody, IsWellFormed};
ghost use Rattle.pb_value.specs.View.{value_view, content_view, body_view, values_view, entries_view, fields_view};
ghost use Rattle.pb_value.specs.declared.error.ValueError.TheVariants.{TwoMembers};

use crate::body::{Body, Content, MapKey, Value};
use crate::error::ValueError;
use crate::judge::declared::holds_declared;
use crate::judge::depth::{MAX_LEVELS, message_within};
use crate::judge::unknown::check_unknown;
use crate::judge::{has_shape, holds_kind, is_absence, is_key_of, is_value_of};
use crate::lookup::field_at;
use pb_schema::{Kind, MessageId, Pool, Shape};
use std::alloc::Global;
use std::collections::{BTreeMap, BTreeSet};

/// Whether a content is of a field's kind and shape. What its messages hold is not looked into.
pub(crate) fn check_content(shape: Shape, kind: Kind, content: &Content) -> Result<(), ValueError>
    ensures { Judges result (content_cause shape kind (content_view content.now)) (has_shape shape (content_view content.now) ≡ true) }
{
    if !holds_kind(shape, kind, content) {
        return Err(ValueError::WrongKind);
    }
    if !has_shape(shape, content) {
        return Err(ValueError::WrongShape);
    }
    Ok(())
}

/// Adds the oneof of a member to those that have one.
fn add_member(shape: Shape, members: &mut BTreeSet<u32>) -> Result<(), ValueError>
    ensures judged { JudgesOrFails result (unless (not (is_second shape (λ o. contains nat_cmp members.old o))) TwoMembers)
        (is_second shape (λ o. contains nat_cmp members.old o) ≡ false) }
    ensures added { OnOk result ((o : ℕ) → contains nat_cmp members.new o ≡ with_member shape (λ q. contains nat_cmp members.old q) o) }
{
    if let Shape::OneofMember(oneof) = shape {
        if !members.insert(oneof)? {
            return Err(ValueError::TwoMembers);
        }
    }
    Ok(())
}

/// Whether a content can be stored at a field beside the members of oneofs that were judged before it.
fn check_stored(
    shape: Shape,
    kind: Kind,
    content: &Content,
    members: &mut BTreeSet<u32>,
) -> Result<(), ValueError>
    ensures judged { JudgesOrFails result (stored_cause (λ o. contains nat_cmp members.old o) shape kind (content_view content.now))
        (IsOfShape shape (content_view content.now) × (is_second shape (λ o. contains nat_cmp members.old o) ≡ false)) }
    ensures added { OnOk result ((o : ℕ) → contains nat_cmp members.new o ≡ with_member shape (λ q. contains nat_cmp members.old q) o) }
{
    check_content(shape, kind, content)?;
    if is_absence(shape, content) {
        return Err(ValueError::DefaultStored);
    }
    add_member(shape, members)
}

/// Whether a value is a well-formed one of a kind.
#[cycle(check)]
pub(crate) fn check_value(
    alloc: Global,
    pool: &Pool,
    kind: Kind,
    value: &Value,
) -> Result<(), ValueError>
    requires { NamesType (length pool.now.messages) (length pool.now.enums) kind }
    ensures { JudgesOrFails result (datum_cause pool.now kind (value_view value.now)) (IsDatum pool.now kind (value_view value.now)) }
{
    if let Value::Message(message) = value {
        let Some(id) = kind.message() else {
            return Err(ValueError::WrongKind);
        };
        return check_body(alloc, pool, id, message);
    }
    if !is_value_of(kind, value) {
        return Err(ValueError::WrongKind);
    }
    Ok(())
}

#[cycle(check)]
fn check_values(
    alloc: Global,
    pool: &Pool,
    kind: Kind,
    values: &Vec<Value>,
) -> Result<(), ValueError>
    requires { NamesType (length pool.now.messages) (length pool.now.enums) kind }
    ensures { JudgesOrFails result (datums_cause pool.now kind (values_view values.now.items)) (AreDatums pool.now kind (values_view values.now.items)) }
{
    for value in values {
        check_value(alloc, pool, kind, value)?;
    }
    Ok(())
}

#[cycle(check)]
fn check_entries(
    alloc: Global,
    pool: &Pool,
    key_kind: Kind,
    kind: Kind,
    entries: &BTreeMap<MapKey, Value>,
) -> Result<(), ValueError>
    requires { NamesType (length pool.now.messages) (length pool.now.enums) kind }
    ensures { JudgesOrFails result (entries_cause pool.now key_kind kind (entries_view entries.now.entries))
        (AreEntries pool.now key_kind kind (entries_view entries.now.entries) × KeysRise (entries_view entries.now.entries)) }
{
    for (key, value) in entries {
        if !is_key_of(Shape::Map { key: key_kind }, key) {
            return Err(ValueError::WrongKind);
        }
        check_value(alloc, pool, kind, value)?;
    }
    Ok(())
}

/// Whether what a content holds is well formed.
#[cycle(check)]
fn check_parts(
    alloc: Global,
    pool: &Pool,
    shape: Shape,
    kind: Kind,
    content: &Content,
) -> Result<(), ValueError>
    requires { NamesType (length pool.now.messages) (length pool.now.enums) kind }
    ensures { JudgesOrFails result (parts_cause pool.now shape kind (content_view content.now)) (IsHeld pool.now shape kind (content_view content.now)) }
{
    match content {
        Content::One(value) => check_value(alloc, pool, kind, value),
        Content::List(values) => check_values(alloc, pool, kind, values),
        Content::Map(entries) => {
            let Shape::Map { key } = shape else {
                return Err(ValueError::WrongShape);
            };
            check_entries(alloc, pool, key, kind, entries)
        }
    }
}

/// Whether what a content holds is well formed, and each number one that its closed enum declares.
#[cycle(check)]
pub(crate) fn check_held(
    alloc: Global,
    pool: &Pool,
    shape: Shape,
    kind: Kind,
    content: &Content,
) -> Result<(), ValueError>
    requires { NamesType (length pool.now.messages) (length pool.now.enums) kind }
    ensures { JudgesOrFails result (held_cause pool.now shape kind (content_view content.now))
        (IsHeld pool.now shape kind (content_view content.now) × (holds_declared pool.now kind (content_view content.now) ≡ true)) }
{
    if !holds_declared(pool, kind, content) {
        return Err(ValueError::NoSuchValue);
    }
    check_parts(alloc, pool, shape, kind, content)
}

#[cycle(check)]
fn check_fields(
    alloc: Global,
    pool: &Pool,
    message_type: MessageId,
    fields: &BTreeMap<u32, Content>,
) -> Result<(), ValueError>
    requires { message_type.0 < length pool.now.messages }
    ensures { let all = message_fields pool.now message_type.0 in let fs = fields_view fields.now.entries in
        JudgesOrFails result (fields_cause pool.now all (λ o. false) fs) (AreFields pool.now all fs × RisesFrom 0 fs × HasOneMemberEach all fs) }
{
    let mut members = BTreeSet::new(alloc);
    for (number, content) in fields {
        let Some(field) = field_at(pool, message_type, *number) else {
            return Err(ValueError::NoSuchField);
        };
        check_stored(field.shape, field.kind, content, &mut members)?;
        check_held(alloc, pool, field.shape, field.kind, content)?;
    }
    Ok(())
}

/// Whether the parts of a body are well formed, at any depth.
#[cycle(check)]
fn check_body(
    alloc: Global,
    pool: &Pool,
    message_type: MessageId,
    body: &Body,
) -> Result<(), ValueError>
    requires { message_type.0 < length pool.now.messages }
    ensures { JudgesOrFails result (body_cause pool.now message_type.0 (body_view body.now)) (IsBody pool.now message_type.0 (body_view body.now)) }
{
    check_fields(alloc, pool, message_type, &body.fields)?;
    check_unknown(pool, message_type, &body.unknown)
}

/// Whether a body is a well-formed message of a type, and if not why.
pub(crate) fn check_message(
    alloc: Global,
    pool: &Pool,
    message_type: MessageId,
    body: &Body,
) -> Result<(), ValueError>
    requires { message_type.0 < length pool.now.messages }
    ensures { JudgesOrFails result (message_cause pool.now message_type.0 (body_view body.now)) (IsWellFormed pool.now message_type.0 (body_view body.now)) }
{
    check_body(alloc, pool, message_type, body)?;
    if !message_within(body, MAX_LEVELS) {
        return Err(ValueError::TooDeep);
    }
    Ok(())
}
