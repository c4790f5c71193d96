//! What the fields of a descriptor's message hold, by number.

ghost use Rattle.std.specs.Prelude.{◌≡◌, map, option_map};
ghost use Rattle.pb_value.specs.View.{content_view, value_view};
ghost use Rattle.pb_wire.specs.Unknown.{records_of};
ghost use Rattle.pb_value.specs.Data.{get_field};
ghost use Rattle.pb_descr_message.specs.Held.{data_at, datum_at, fields_in, int_in, name_at, number_at, text_in};
ghost use Rattle.pb_json_names.specs.Name.{bytes_if, last_bytes, unknown_in};
ghost use Rattle.pb_wire.specs.Unknown.{payload_of};

use pb_value::{Content, Value};
use pb_wire::Unknown;

fn content_at(message: &Value, number: u32) -> Option<&Content>
    ensures { option_map (λ c. content_view c.now) result
        ≡ get_field number (fields_in (value_view message.now)) }
{
    match message {
        Value::Message(body) => body.fields.get(&number),
        _ => None,
    }
}

/// The one value of a field.
fn value_at(message: &Value, number: u32) -> Option<&Value>
    ensures { option_map (λ v. value_view v.now) result
        ≡ datum_at number (fields_in (value_view message.now)) }
{
    match content_at(message, number) {
        Some(Content::One(value)) => Some(value),
        _ => None,
    }
}

/// The values of a list.
pub(crate) fn values_at(message: &Value, number: u32) -> &[Value]
    ensures { map value_view result.now ≡ data_at number (fields_in (value_view message.now)) }
{
    match content_at(message, number) {
        Some(Content::List(values)) => values.as_slice(),
        _ => &[],
    }
}

fn text_in(value: &Value) -> Option<&str>
    ensures { option_map (λ s. s.now) result ≡ text_in (value_view value.now) }
{
    match value {
        Value::Text(text) => Some(text.as_str()),
        _ => None,
    }
}

fn int_in(value: &Value) -> Option<i32>
    ensures { result ≡ int_in (value_view value.now) }
{
    match value {
        Value::I32(number) => Some(*number),
        _ => None,
    }
}

/// A name, which is empty where it is missing.
pub(crate) fn name_at(message: &Value, number: u32) -> &str
    ensures { result.now ≡ name_at number (fields_in (value_view message.now)) }
{
    match value_at(message, number) {
        Some(value) => text_in(value).unwrap_or(""),
        None => "",
    }
}

/// A number, which is 0 where it is missing.
pub(crate) fn number_at(message: &Value, number: u32) -> i32
    ensures { result ≡ number_at number (fields_in (value_view message.now)) }
{
    match value_at(message, number) {
        Some(value) => int_in(value).unwrap_or(0),
        None => 0,
    }
}

/// The payload of the last unknown record of a number that has a length.
pub(crate) fn last_bytes(message: &Value, number: u32) -> Option<&[u8]>
    ensures { option_map (λ s. s.now) result ≡ last_bytes number
        (unknown_in (value_view message.now)) }
{
    match message {
        Value::Message(body) => last_of(body.unknown.as_slice(), number),
        _ => None,
    }
}

fn last_of(records: &[(u32, Unknown)], number: u32) -> Option<&[u8]>
    ensures { option_map (λ s. s.now) result ≡ last_bytes number (records_of records.now) }
{
    let mut last = None;
    for record in records {
        last = bytes_if(record.0 == number, &record.1).or(last);
    }
    last
}

/// The payload of a record, if it is looked for and has a length.
fn bytes_if(is: bool, unknown: &Unknown) -> Option<&[u8]>
    ensures { option_map (λ s. s.now) result ≡ bytes_if is (payload_of unknown.now) }
{
    if !is {
        return None;
    }
    match unknown {
        Unknown::Len(bytes) => Some(bytes.as_slice()),
        Unknown::Varint(_) | Unknown::I64(_) | Unknown::Group(_) | Unknown::I32(_) => None,
    }
}
