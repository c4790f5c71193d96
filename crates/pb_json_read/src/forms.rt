//! Types with a form of their own that is a string: times and field masks.

ghost use Rattle.std.specs.Prelude.{◌≡◌, ◌<◌, ◌&&◌, [], length, map, option_map, pos, string_bytes, Some, IfErr, IfOk, OnOk};
ghost use Rattle.pb_json_scalars.specs.Clock.{duration, timestamp};
ghost use Rattle.pb_json_scalars.specs.Paths.{mask_paths};
ghost use Rattle.pb_json_text.specs.View.{form_view};
ghost use Rattle.pb_schema.specs.Types.{message_fields};
ghost use Rattle.pb_schema.specs.View.{field_view};
ghost use Rattle.pb_schema.specs.Scalar.{int32, int64, text};
ghost use Rattle.pb_value.specs.Data.{Datum, datum, joined_datums, list, no_datums, one, scalar};
ghost use Rattle.pb_value.specs.Judge.{has_shape, is_scalar_of};
ghost use Rattle.pb_value.specs.View.{body_view, values_view};
ghost use Rattle.pb_json_read.specs.Answers.{Answers};
ghost use Rattle.pb_json_read.specs.Faults.{out_of_memory};
ghost use Rattle.pb_json_read.specs.Forms.{mask_message, time_message, time_parts};
ghost use Rattle.pb_json_read.specs.Steps.{given, nothing, with_held};
ghost use Rattle.pb_json_read.specs.WellKnown.{both_times, field_for, is_dynamic, is_sole, paths_field, string_meant, takes, texts, time_fields};

use crate::construction::Parts;
use crate::context::Context;
use crate::error::JsonReadError;
use pb_json::well_known::WellKnown;
use pb_json_scalars::{Time, read_duration, read_mask, read_timestamp};
use pb_json_text::{JsonForm, JsonValue};
use pb_schema::{Field, Kind, MessageId, Pool, Shape};
use pb_value::{Body, Content, Value};
use std::alloc::{AllocError, Global};

/// Whether a form is that of `google.protobuf.Value`.
pub(crate) fn is_dynamic(form: WellKnown) -> bool
    ensures { result ≡ is_dynamic form }
{
    matches!(form, WellKnown::Value)
}

/// Whether a message is what its field 1 holds.
pub(crate) fn is_sole(form: WellKnown) -> bool
    ensures { result ≡ is_sole form }
{
    match form {
        WellKnown::Wrapper | WellKnown::Struct | WellKnown::ListValue => true,
        WellKnown::Other | WellKnown::Value | WellKnown::Timestamp => false,
        WellKnown::Duration | WellKnown::FieldMask | WellKnown::Any => false,
    }
}

/// The number of the field that a Value has for a form.
pub(crate) fn field_for(form: &JsonForm) -> u32
    ensures { result ≡ field_for (form_view form.now) }
{
    match form {
        JsonForm::Null => 1,
        JsonForm::Number(_) => 2,
        JsonForm::String(_) => 3,
        JsonForm::Bool(_) => 4,
        JsonForm::Object(_) => 5,
        JsonForm::Array(_) => 6,
    }
}

/// The point in time that a JSON value means.
fn timestamp_meant(form: &JsonForm) -> Option<Time>
    ensures { result ≡ string_meant timestamp (form_view form.now) }
{
    match form {
        JsonForm::String(text) => read_timestamp(text.as_bytes()),
        _ => None,
    }
}

/// The length of time that a JSON value means.
fn duration_meant(form: &JsonForm) -> Option<Time>
    ensures { result ≡ string_meant duration (form_view form.now) }
{
    match form {
        JsonForm::String(text) => read_duration(text.as_bytes()),
        _ => None,
    }
}

/// A `google.protobuf.Timestamp`.
pub(crate) fn read_point(
    context: &Context<'_>,
    id: MessageId,
    value: &JsonValue,
) -> Result<Body, JsonReadError>
    requires { id.0 < length context.now.pool.now.messages }
    ensures { Answers body_view (λ o. o ≡ given value.now.at
        (time_message (time_fields (message_fields context.now.pool.now id.0))
        (string_meant timestamp (form_view value.now.form)))) result }
{
    read_time(context, id, timestamp_meant(&value.form), value.at)
}

/// A `google.protobuf.Duration`.
pub(crate) fn read_span(
    context: &Context<'_>,
    id: MessageId,
    value: &JsonValue,
) -> Result<Body, JsonReadError>
    requires { id.0 < length context.now.pool.now.messages }
    ensures { Answers body_view (λ o. o ≡ given value.now.at
        (time_message (time_fields (message_fields context.now.pool.now id.0))
        (string_meant duration (form_view value.now.form)))) result }
{
    read_time(context, id, duration_meant(&value.form), value.at)
}

/// A message of seconds and nanoseconds, from the value at this byte.
fn read_time(
    context: &Context<'_>,
    id: MessageId,
    time: Option<Time>,
    at: usize,
) -> Result<Body, JsonReadError>
    requires { id.0 < length context.now.pool.now.messages }
    ensures { Answers body_view (λ o. o ≡ given at
        (time_message (time_fields (message_fields context.now.pool.now id.0)) time)) result }
{
    let Some((seconds, nanos)) = time_fields(context.pool, id) else {
        return Err(JsonReadError::bad_value(at));
    };
    let Some(time) = time else {
        return Err(JsonReadError::bad_value(at));
    };
    put_time(context.alloc, seconds, nanos, time)
}

/// The fields for seconds and nanoseconds, where the type declares them.
fn time_fields<'a>(pool: &'a Pool, id: MessageId) -> Option<(&'a Field, &'a Field)>
    requires { id.0 < length pool.now.messages }
    ensures { option_map (λ p. (field_view p.0.now, field_view p.1.now)) result
        ≡ time_fields (message_fields pool.now id.0) }
{
    let seconds = pool.field_by_number(id, 1)?;
    let nanos = pool.field_by_number(id, 2)?;
    both_times(seconds, nanos)
}

fn both_times<'a>(seconds: &'a Field, nanos: &'a Field) -> Option<(&'a Field, &'a Field)>
    ensures { option_map (λ p. (field_view p.0.now, field_view p.1.now)) result
        ≡ both_times (field_view seconds.now) (field_view nanos.now) }
{
    if takes_seconds(seconds) && takes_nanos(nanos) {
        Some((seconds, nanos))
    } else {
        None
    }
}

fn takes_seconds(field: &Field) -> bool
    ensures { result ≡ takes (field_view field.now) (int64 (pos 0)) }
{
    is_single(field.shape) && is_int64(field.kind)
}

fn takes_nanos(field: &Field) -> bool
    ensures { result ≡ takes (field_view field.now) (int32 (pos 0)) }
{
    is_single(field.shape) && is_int32(field.kind)
}

fn put_time(
    alloc: Global,
    seconds: &Field,
    nanos: &Field,
    time: Time,
) -> Result<Body, JsonReadError>
    ensures made { IfOk result (λ b. body_view b
        ≡ (time_parts (field_view seconds.now) (field_view nanos.now) time).message) }
    ensures memory { IfErr result (λ e. e ≡ out_of_memory) }
{
    let mut parts = Parts::new(alloc);
    parts.put(
        seconds.shape,
        seconds.number,
        Content::One(Value::I64(time.seconds)),
    )?;
    parts.put(
        nanos.shape,
        nanos.number,
        Content::One(Value::I32(time.nanos)),
    )?;
    Ok(parts.body)
}

/// Whether a field holds one value.
pub(crate) fn is_single(shape: Shape) -> bool
    ensures { (x : Datum) → has_shape shape (one x) ≡ result }
{
    match shape {
        Shape::Implicit | Shape::Explicit | Shape::OneofMember(_) => true,
        Shape::List { packed: _ } | Shape::Map { key: _ } => false,
    }
}

fn is_int64(kind: Kind) -> bool
    ensures { result ≡ is_scalar_of kind (int64 (pos 0)) }
{
    matches!(kind, Kind::Int64 | Kind::Sint64 | Kind::Sfixed64)
}

fn is_int32(kind: Kind) -> bool
    ensures { result ≡ is_scalar_of kind (int32 (pos 0)) }
{
    matches!(kind, Kind::Int32 | Kind::Sint32 | Kind::Sfixed32)
}

/// A `google.protobuf.FieldMask`.
pub(crate) fn read_field_mask(
    context: &Context<'_>,
    id: MessageId,
    value: &JsonValue,
) -> Result<Body, JsonReadError>
    requires { id.0 < length context.now.pool.now.messages }
    ensures { Answers body_view (λ o. o ≡ given value.now.at
        (mask_message (paths_field (message_fields context.now.pool.now id.0))
        (string_meant mask_paths (form_view value.now.form)))) result }
{
    let Some(field) = paths_field(context.pool, id) else {
        return Err(JsonReadError::bad_value(value.at));
    };
    let Some(paths) = paths_meant(context.alloc, &value.form)? else {
        return Err(JsonReadError::bad_value(value.at));
    };
    put_paths(context.alloc, field, paths)
}

/// The field for the paths, where the type declares it.
fn paths_field(pool: &Pool, id: MessageId) -> Option<&Field>
    requires { id.0 < length pool.now.messages }
    ensures { option_map (λ f. field_view f.now) result
        ≡ paths_field (message_fields pool.now id.0) }
{
    let field = pool.field_by_number(id, 1)?;
    if is_text_list(field) {
        Some(field)
    } else {
        None
    }
}

fn is_text_list(field: &Field) -> bool
    ensures { result ≡ (has_shape field.now.shape (list no_datums) && is_scalar_of
        field.now.kind (text [])) }
{
    matches!(field.shape, Shape::List { packed: _ }) && matches!(field.kind, Kind::Text)
}

/// The paths that a JSON value means.
fn paths_meant(alloc: Global, form: &JsonForm) -> Result<Option<Vec<String>>, AllocError>
    ensures { IfOk result (λ read. option_map (λ v. map string_bytes v.items) read
        ≡ string_meant mask_paths (form_view form.now)) }
{
    match form {
        JsonForm::String(text) => read_mask(alloc, text.as_bytes()),
        _ => Ok(None),
    }
}

fn put_paths(alloc: Global, field: &Field, paths: Vec<String>) -> Result<Body, JsonReadError>
    ensures made { IfOk result (λ b. body_view b ≡ (with_held field.now.shape field.now.number
        (Some (list (texts (map string_bytes paths.items)))) nothing).message) }
    ensures memory { IfErr result (λ e. e ≡ out_of_memory) }
{
    let mut parts = Parts::new(alloc);
    parts.put(
        field.shape,
        field.number,
        Content::List(texts(alloc, &paths)?),
    )?;
    Ok(parts.body)
}

/// Strings as values.
fn texts(alloc: Global, strings: &Vec<String>) -> Result<Vec<Value>, AllocError>
    ensures { IfOk result (λ v. values_view v.items ≡ texts (map string_bytes strings.now.items)) }
{
    let mut values = Vec::new(alloc);
    for string in strings {
        push_text(alloc, &mut values, string.as_str())?;
    }
    Ok(values)
}

fn push_text(alloc: Global, values: &mut Vec<Value>, string: &str) -> Result<(), AllocError>
    ensures { OnOk result (values_view values.new.items
        ≡ joined_datums (values_view values.old.items)
        (datum (scalar (text string.now)) no_datums)) }
{
    values.push(Value::Text(String::from_str(alloc, string)?))?;
    Ok(())
}
