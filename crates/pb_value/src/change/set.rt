//! Setting a field.

ghost use Rattle.std.specs.Prelude.{◌≡◌, ◌<◌, ◌≤◌, length, true, nat_le, OnOk, OnErr, IfOk, IfErr};
ghost use Rattle.pb_schema.specs.Types.{message_fields};
ghost use Rattle.pb_schema.specs.Rules.{NamesType};
ghost use Rattle.pb_value.specs.Data.{Datum, one, fields_of, put_field, levels_of};
ghost use Rattle.pb_value.specs.Change.{set_at, set_cause, stored_at, Allowed, ChangesFields};
ghost use Rattle.pb_value.specs.Judge.{has_shape, is_value_of, IsWithin};
ghost use Rattle.pb_value.specs.Cause.{datum_cause, or_else, unless, IsRefusedBy, JudgesOrFails};
ghost use Rattle.pb_value.specs.WellFormed.{HasOneMemberEach, IsDatum, IsWellFormed, RisesFrom};
ghost use Rattle.pb_value.specs.View.{body_view, content_view, value_view};
ghost use Rattle.pb_value.specs.declared.error.ValueError.TheVariants.{Memory, TooDeep};

use crate::body::{Body, Content, Value};
use crate::change::{clear_field, gives_way, put_field, store};
use crate::error::ValueError;
use crate::judge::check::{check_content, check_held, check_value};
use crate::judge::declared::is_declared;
use crate::judge::depth::{MAX_LEVELS, content_within, value_within};
use crate::judge::{is_absent, is_value_of};
use crate::lookup::field_at;
use pb_schema::{Kind, MessageId, Pool, Shape};
use std::alloc::Global;

/// The shape of the field of a number, if a content can be set there.
fn check_set(
    alloc: Global,
    pool: &Pool,
    message_type: MessageId,
    number: u32,
    content: &Content,
) -> Result<Shape, ValueError>
    requires { message_type.0 < length pool.now.messages }
    ensures judged { IsRefusedBy result
        (set_cause pool.now message_type.0 number (content_view content.now)) }
    ensures fits { IfOk result
        (λ s. Allowed pool.now message_type.0 number s (content_view content.now)) }
{
    let Some(field) = field_at(pool, message_type, number) else {
        return Err(ValueError::NoSuchField);
    };
    check_content(field.shape, field.kind, content)?;
    check_held(alloc, pool, field.shape, field.kind, content)?;
    if !content_within(content, MAX_LEVELS) {
        return Err(ValueError::TooDeep);
    }
    Ok(field.shape)
}

/// Whether a field of a shape holds one value.
#[inline(always)]
fn holds_one(shape: Shape) -> bool
    ensures { (d : Datum) → result ≡ has_shape shape (one d) }
{
    match shape {
        Shape::Implicit | Shape::Explicit | Shape::OneofMember(_) => true,
        Shape::List { packed: _ } | Shape::Map { key: _ } => false,
    }
}

/// Whether a value that is of a kind is well formed inside, and nests at most 100 levels. Only a message has anything inside.
#[inline(always)]
fn check_inside(alloc: Global, pool: &Pool, kind: Kind, value: &Value) -> Result<(), ValueError>
    requires named { NamesType (length pool.now.messages) (length pool.now.enums) kind }
    requires of_kind { is_value_of kind (value_view value.now) ≡ true }
    requires in_range { IsWithin kind (value_view value.now) }
    ensures { JudgesOrFails result
        (or_else (datum_cause pool.now kind (value_view value.now))
        (unless (nat_le (levels_of (value_view value.now)) 100) TooDeep))
        (IsDatum pool.now kind (value_view value.now) × (levels_of (value_view value.now) ≤ 100)) }
{
    match value {
        Value::Message(_) => check_message_inside(alloc, pool, kind, value),
        _ => Ok(()),
    }
}

/// The same of any value.
fn check_message_inside(
    alloc: Global,
    pool: &Pool,
    kind: Kind,
    value: &Value,
) -> Result<(), ValueError>
    requires { NamesType (length pool.now.messages) (length pool.now.enums) kind }
    ensures { JudgesOrFails result
        (or_else (datum_cause pool.now kind (value_view value.now))
        (unless (nat_le (levels_of (value_view value.now)) 100) TooDeep))
        (IsDatum pool.now kind (value_view value.now) × (levels_of (value_view value.now) ≤ 100)) }
{
    check_value(alloc, pool, kind, value)?;
    if !value_within(value, MAX_LEVELS) {
        return Err(ValueError::TooDeep);
    }
    Ok(())
}

/// The shape of the field of a number, if one value can be set there.
#[inline(always)]
fn check_one(
    alloc: Global,
    pool: &Pool,
    message_type: MessageId,
    number: u32,
    value: &Value,
) -> Result<Shape, ValueError>
    requires { message_type.0 < length pool.now.messages }
    ensures judged { IsRefusedBy result
        (set_cause pool.now message_type.0 number (one (value_view value.now))) }
    ensures fits { IfOk result
        (λ s. Allowed pool.now message_type.0 number s (one (value_view value.now))) }
{
    let Some(field) = field_at(pool, message_type, number) else {
        return Err(ValueError::NoSuchField);
    };
    if !is_value_of(field.kind, value) {
        return Err(ValueError::WrongKind);
    }
    if !holds_one(field.shape) {
        return Err(ValueError::WrongShape);
    }
    if !is_declared(pool, field.kind, value) {
        return Err(ValueError::NoSuchValue);
    }
    check_inside(alloc, pool, field.kind, value)?;
    Ok(field.shape)
}

/// Puts one value in the place of a content.
#[inline(always)]
fn replace(content: &mut Content, value: Value)
    ensures { content_view content.new ≡ one (value_view value) }
{
    *content = Content::One(value);
}

/// Puts one value at a number. A content that is there already gives way without a second search.
#[inline(always)]
fn put_one(message: &mut Body, number: u32, value: Value) -> Result<(), ValueError>
    ensures ok { OnOk result (ChangesFields (put_field number (one (value_view value)))
        (body_view message.old) (body_view message.new)) }
    ensures err { OnErr result (body_view message.new ≡ body_view message.old) }
    ensures memory { IfErr result (λ e. e ≡ Memory) }
    ensures rises { RisesFrom 0 (fields_of (body_view message.old)) }
{
    match message.fields.get_mut(&number) {
        Some(content) => {
            replace(content, value);
            Ok(())
        }
        None => put_field(message, number, Content::One(value)),
    }
}

/// Stores one value at a field, or clears the field if an absent one is the same.
#[inline(always)]
fn store_one(
    pool: &Pool,
    message_type: MessageId,
    message: &mut Body,
    shape: Shape,
    number: u32,
    value: Value,
) -> Result<(), ValueError>
    requires within { message_type.0 < length pool.now.messages }
    requires one_each { HasOneMemberEach (message_fields pool.now message_type.0)
        (fields_of (body_view message.old)) }
    ensures ok { OnOk result (ChangesFields
        (stored_at (message_fields pool.now message_type.0) shape number (one (value_view value)))
        (body_view message.old) (body_view message.new)) }
    ensures err { OnErr result (body_view message.new ≡ body_view message.old) }
    ensures memory { IfErr result (λ e. e ≡ Memory) }
{
    if is_absent(shape, &value) {
        clear_field(message, number);
        return Ok(());
    }
    let other = gives_way(pool, message_type, &message.fields, shape, number);
    put_one(message, number, value)?;
    if let Some(other) = other {
        clear_field(message, other);
    }
    Ok(())
}

/// Sets the field of a number of a well-formed message to one value, as [`DynamicMessage::set`](crate::DynamicMessage::set) does.
pub(crate) fn set_value(
    alloc: Global,
    pool: &Pool,
    message_type: MessageId,
    message: &mut Body,
    number: u32,
    value: Value,
) -> Result<(), ValueError>
    requires within { message_type.0 < length pool.now.messages }
    requires well_formed { IsWellFormed pool.now message_type.0 (body_view message.old) }
    ensures ok { OnOk result (ChangesFields
        (set_at (message_fields pool.now message_type.0) number (one (value_view value)))
        (body_view message.old) (body_view message.new)) }
    ensures err { OnErr result (body_view message.new ≡ body_view message.old) }
    ensures judged { IsRefusedBy result
        (set_cause pool.now message_type.0 number (one (value_view value))) }
    ensures well_formed { IsWellFormed pool.now message_type.0 (body_view message.new) }
{
    let shape = check_one(alloc, pool, message_type, number, &value)?;
    store_one(pool, message_type, message, shape, number, value)
}

/// Sets the field of a number of a well-formed message, as [`DynamicMessage::set`](crate::DynamicMessage::set) does.
pub(crate) fn set_content(
    alloc: Global,
    pool: &Pool,
    message_type: MessageId,
    message: &mut Body,
    number: u32,
    content: Content,
) -> Result<(), ValueError>
    requires within { message_type.0 < length pool.now.messages }
    requires well_formed { IsWellFormed pool.now message_type.0 (body_view message.old) }
    ensures ok { OnOk result (ChangesFields
        (set_at (message_fields pool.now message_type.0) number (content_view content))
        (body_view message.old) (body_view message.new)) }
    ensures err { OnErr result (body_view message.new ≡ body_view message.old) }
    ensures judged { IsRefusedBy result
        (set_cause pool.now message_type.0 number (content_view content)) }
    ensures well_formed { IsWellFormed pool.now message_type.0 (body_view message.new) }
{
    match content {
        Content::One(value) => set_value(alloc, pool, message_type, message, number, value),
        several => {
            let shape = check_set(alloc, pool, message_type, number, &several)?;
            store(pool, message_type, message, shape, number, several)
        }
    }
}
