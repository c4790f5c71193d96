//! Whether a message has a JSON form.

ghost use Rattle.std.specs.Prelude.{◌≡◌, ◌<◌, length, option_map, true, None, Some, IfErr, IfOk};
ghost use Rattle.pb_schema.specs.Rules.{NamesType};
ghost use Rattle.pb_schema.specs.Types.{Types, message_fields};
ghost use Rattle.pb_value.specs.View.{body_view, content_view, entries_view, fields_view, value_view, values_view};
ghost use Rattle.pb_json.specs.Answers.{Judges, RefusedAs, RefusesWith};
ghost use Rattle.pb_json.specs.Refusals.{any_refused, below, datum_cause, datum_refused, datums_refused, double_cause, entries_refused, fields_refused};
ghost use Rattle.pb_json.specs.Refusals.{held_cause, here, holding_refused, message_refused, own_cause, refused, refused_here, value_cause};
ghost use Rattle.pb_json.specs.WellKnown.{declares_any};

use crate::anys::{VALUE, is_unset, open_any};
use crate::error::{JsonCause, JsonError, Refusal};
use crate::masks::mask_cause;
use crate::times::{duration_cause, timestamp_cause};
use crate::well_known::{WellKnown, well_known};
use pb_schema::{Kind, MessageId, Pool};
use pb_value::{Body, Content, DynamicMessage, MapKey, MessageRef, Value};
use std::alloc::Global;
use std::collections::BTreeMap;
use std::num::f64_from_bits_with_nan;

/// The levels of a message, 0 to 100.
pub(crate) const LEVELS: usize = 101;

/// Whether a message has a JSON form. Where a part of it has none, the answer says which.
///
/// Only the path of that part, and the message in an Any, take memory.
pub fn judge_json(alloc: Global, message: &MessageRef<'_>) -> Result<(), JsonError>
    ensures has_form { IfOk result (λ _. refused message.now ≡ None) }
    ensures failed { IfErr result (RefusedAs message.now) }
{
    let body = message.body();
    let pool = message.pool();
    let id = message.message_type();
    judge_message(alloc, pool, LEVELS, id, body)
}

/// A message that has no JSON form itself.
fn formless(alloc: Global, cause: JsonCause) -> JsonError
    ensures { (pool : Types) → RefusesWith pool (Some (here cause)) result }
{
    let path = Vec::new(alloc);
    JsonError::Refused(Refusal { path, cause })
}

/// What is refused in a message of at most this many levels.
#[cycle(judging)]
pub(crate) fn judge_message(
    alloc: Global,
    pool: &Pool,
    levels: usize,
    id: MessageId,
    body: &Body,
) -> Result<(), JsonError>
    requires within { id.0 < length pool.now.messages }
    ensures { Judges pool.now (message_refused pool.now levels id.0 (body_view body.now)) result }
{
    // Only a message in an Any is nested so deep.
    if levels == 0 {
        return Err(formless(alloc, JsonCause::Unsupported));
    }
    judge_here(alloc, pool, levels - 1, id, body)
}

/// What is refused in a message, in which messages of at most this many levels may be nested.
#[cycle(judging)]
fn judge_here(
    alloc: Global,
    pool: &Pool,
    levels: usize,
    id: MessageId,
    body: &Body,
) -> Result<(), JsonError>
    requires within { id.0 < length pool.now.messages }
    ensures { Judges pool.now (refused_here pool.now (message_refused pool.now levels) id.0 (body_view body.now)) result }
{
    let form = well_known(pool, id);
    if let Some(cause) = own_cause(form, &body.fields) {
        return Err(formless(alloc, cause));
    }
    match form {
        WellKnown::Any => judge_any(alloc, pool, levels, &body.fields),
        _ => judge_fields(alloc, pool, levels, id, &body.fields),
    }
}

/// What is refused in an Any.
#[cycle(judging)]
fn judge_any(
    alloc: Global,
    pool: &Pool,
    levels: usize,
    fields: &BTreeMap<u32, Content>,
) -> Result<(), JsonError>
    requires { declares_any pool.now ≡ true }
    ensures { Judges pool.now (any_refused pool.now (message_refused pool.now levels) (fields_view fields.now.entries)) result }
{
    if is_unset(fields) {
        return Ok(());
    }
    let opened = open_any(alloc, pool, fields)?;
    match opened {
        Some(message) => judge_opened(alloc, pool, levels, &message),
        None => Err(formless(alloc, JsonCause::Unsupported)),
    }
}

/// What is refused in the message in an Any.
#[cycle(judging)]
fn judge_opened(
    alloc: Global,
    pool: &Pool,
    levels: usize,
    message: &DynamicMessage<'_>,
) -> Result<(), JsonError>
    requires { message.now.pool ≡ pool.now }
    ensures { Judges pool.now (option_map (below 2) (message_refused pool.now levels message.now.kind message.now.body)) result }
{
    let id = message.message_type();
    let body = message.body();
    match judge_message(alloc, pool, levels, id, body) {
        Ok(()) => Ok(()),
        Err(error) => Err(error.below(VALUE)),
    }
}

#[cycle(judging)]
fn judge_fields(
    alloc: Global,
    pool: &Pool,
    levels: usize,
    id: MessageId,
    fields: &BTreeMap<u32, Content>,
) -> Result<(), JsonError>
    requires within { id.0 < length pool.now.messages }
    ensures { Judges pool.now
        (fields_refused pool.now (message_refused pool.now levels) (message_fields pool.now id.0) (fields_view fields.now.entries)) result }
{
    for (number, content) in fields {
        if let Some(field) = pool.field_by_number(id, *number) {
            if let Err(error) = judge_content(alloc, pool, levels, field.kind, content) {
                return Err(error.below(*number));
            }
        }
    }
    Ok(())
}

#[cycle(judging)]
fn judge_content(
    alloc: Global,
    pool: &Pool,
    levels: usize,
    kind: Kind,
    content: &Content,
) -> Result<(), JsonError>
    requires kind { NamesType (length pool.now.messages) (length pool.now.enums) kind }
    ensures { Judges pool.now (holding_refused pool.now (message_refused pool.now levels) kind (content_view content.now)) result }
{
    match content {
        Content::One(value) => judge_value(alloc, pool, levels, kind, value),
        Content::List(values) => judge_values(alloc, pool, levels, kind, values),
        Content::Map(entries) => judge_entries(alloc, pool, levels, kind, entries),
    }
}

#[cycle(judging)]
fn judge_values(
    alloc: Global,
    pool: &Pool,
    levels: usize,
    kind: Kind,
    values: &Vec<Value>,
) -> Result<(), JsonError>
    requires kind { NamesType (length pool.now.messages) (length pool.now.enums) kind }
    ensures { Judges pool.now (datums_refused pool.now (message_refused pool.now levels) kind (values_view values.now.items)) result }
{
    for value in values {
        judge_value(alloc, pool, levels, kind, value)?;
    }
    Ok(())
}

#[cycle(judging)]
fn judge_entries(
    alloc: Global,
    pool: &Pool,
    levels: usize,
    kind: Kind,
    entries: &BTreeMap<MapKey, Value>,
) -> Result<(), JsonError>
    requires kind { NamesType (length pool.now.messages) (length pool.now.enums) kind }
    ensures { Judges pool.now (entries_refused pool.now (message_refused pool.now levels) kind (entries_view entries.now.entries)) result }
{
    for (_key, value) in entries {
        judge_value(alloc, pool, levels, kind, value)?;
    }
    Ok(())
}

#[cycle(judging)]
fn judge_value(
    alloc: Global,
    pool: &Pool,
    levels: usize,
    kind: Kind,
    value: &Value,
) -> Result<(), JsonError>
    requires kind { NamesType (length pool.now.messages) (length pool.now.enums) kind }
    ensures { Judges pool.now (datum_refused pool.now (message_refused pool.now levels) kind (value_view value.now)) result }
{
    let Value::Message(body) = value else {
        return Ok(());
    };
    match kind.message() {
        Some(id) => judge_message(alloc, pool, levels, id, body),
        None => Ok(()),
    }
}

/// What is wrong with a message itself, apart from what it holds.
fn own_cause(form: WellKnown, fields: &BTreeMap<u32, Content>) -> Option<JsonCause>
    ensures { result ≡ own_cause form (fields_view fields.now.entries) }
{
    match form {
        WellKnown::Value => value_cause(fields),
        WellKnown::Timestamp => timestamp_cause(fields),
        WellKnown::Duration => duration_cause(fields),
        WellKnown::FieldMask => mask_cause(fields),
        WellKnown::Other | WellKnown::Wrapper | WellKnown::Struct | WellKnown::ListValue => None,
        WellKnown::Any => None,
    }
}

/// What is wrong with a `google.protobuf.Value` of these fields.
fn value_cause(fields: &BTreeMap<u32, Content>) -> Option<JsonCause>
    ensures { result ≡ value_cause (fields_view fields.now.entries) }
{
    match fields.first_key_value() {
        Some((_number, content)) => held_cause(content),
        None => Some(JsonCause::NoKind),
    }
}

fn held_cause(content: &Content) -> Option<JsonCause>
    ensures { result ≡ held_cause (content_view content.now) }
{
    match content {
        Content::One(value) => number_cause(value),
        Content::List(_) | Content::Map(_) => None,
    }
}

fn number_cause(value: &Value) -> Option<JsonCause>
    ensures { result ≡ datum_cause (value_view value.now) }
{
    match value {
        Value::F64(bits) => double_cause(*bits),
        Value::I32(_) | Value::I64(_) | Value::U32(_) | Value::U64(_) | Value::Bool(_) => None,
        Value::F32(_) | Value::Enum(_) | Value::Text(_) | Value::Bytes(_) | Value::Message(_) =>
            None,
    }
}

/// JSON has no NaN and no infinity.
fn double_cause(bits: u64) -> Option<JsonCause>
    ensures { result ≡ double_cause bits }
{
    if f64_from_bits_with_nan(bits).is_finite() {
        None
    } else {
        Some(JsonCause::NotFinite)
    }
}
