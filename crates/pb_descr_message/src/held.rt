//! What the fields of a message hold, by number.

ghost use Rattle.std.specs.Prelude.{◌≡◌, map, option_map};
ghost use Rattle.pb_value.specs.Data.{get_field, fields_of};
ghost use Rattle.pb_value.specs.View.{body_view, content_view, value_view};
ghost use Rattle.pb_descr_message.specs.Held.{fields_in, text_in, int_in, datum_at, data_at, text_at, int_at, bool_at, inside_at, name_at, number_at, mark_at};

use pb_value::{Body, Content, Value};

/// What a field of a body holds.
pub(crate) fn content_in(body: &Body, number: u32) -> Option<&Content>
    ensures { option_map (λ c. content_view c.now) result
        ≡ get_field number (fields_of (body_view body.now)) }
{
    body.fields.get(&number)
}

fn content_at(message: &Value, number: u32) -> Option<&Content>
    ensures { option_map (λ c. content_view c.now) result
        ≡ get_field number (fields_in (value_view message.now)) }
{
    match message {
        Value::Message(body) => body.fields.get(&number),
        _ => None,
    }
}

/// The one value of a field.
fn value_at(message: &Value, number: u32) -> Option<&Value>
    ensures { option_map (λ v. value_view v.now) result
        ≡ datum_at number (fields_in (value_view message.now)) }
{
    match content_at(message, number) {
        Some(Content::One(value)) => Some(value),
        _ => None,
    }
}

/// The values of a list.
pub fn values_at(message: &Value, number: u32) -> &[Value]
    ensures { map value_view result.now ≡ data_at number (fields_in (value_view message.now)) }
{
    match content_at(message, number) {
        Some(Content::List(values)) => values.as_slice(),
        _ => &[],
    }
}

/// The text that a value is.
pub(crate) fn text_in(value: &Value) -> Option<&str>
    ensures { option_map (λ s. s.now) result ≡ text_in (value_view value.now) }
{
    match value {
        Value::Text(text) => Some(text.as_str()),
        _ => None,
    }
}

/// The number that a value is.
pub(crate) fn int_in(value: &Value) -> Option<i32>
    ensures { result ≡ int_in (value_view value.now) }
{
    match value {
        Value::I32(number) => Some(*number),
        _ => None,
    }
}

pub(crate) fn text_at(message: &Value, number: u32) -> Option<&str>
    ensures { option_map (λ s. s.now) result ≡ text_at number (fields_in (value_view message.now)) }
{
    match value_at(message, number) {
        Some(value) => text_in(value),
        None => None,
    }
}

pub(crate) fn int_at(message: &Value, number: u32) -> Option<i32>
    ensures { result ≡ int_at number (fields_in (value_view message.now)) }
{
    match value_at(message, number) {
        Some(value) => int_in(value),
        None => None,
    }
}

pub(crate) fn bool_at(message: &Value, number: u32) -> Option<bool>
    ensures { result ≡ bool_at number (fields_in (value_view message.now)) }
{
    match value_at(message, number) {
        Some(Value::Bool(mark)) => Some(*mark),
        _ => None,
    }
}

/// A text, which is empty where it is missing.
pub(crate) fn name_at(message: &Value, number: u32) -> &str
    ensures { result.now ≡ name_at number (fields_in (value_view message.now)) }
{
    text_at(message, number).unwrap_or("")
}

/// A number, which is 0 where it is missing.
pub(crate) fn number_at(message: &Value, number: u32) -> i32
    ensures { result ≡ number_at number (fields_in (value_view message.now)) }
{
    int_at(message, number).unwrap_or(0)
}

/// A mark, which is false where it is missing.
pub(crate) fn mark_at(message: &Value, number: u32) -> bool
    ensures { result ≡ mark_at number (fields_in (value_view message.now)) }
{
    bool_at(message, number).unwrap_or(false)
}

/// A mark of the message that a field holds.
pub(crate) fn bool_inside(message: &Value, field: u32, number: u32) -> Option<bool>
    ensures { result ≡ bool_at number (inside_at field (fields_in (value_view message.now))) }
{
    match value_at(message, field) {
        Some(inside) => bool_at(inside, number),
        None => None,
    }
}
