//! What a message has at a place.

ghost use Rattle.std.specs.Prelude.{◌≡◌, ◌∷◌, Some, option_map};
ghost use Rattle.pb_value.specs.Data.{fields_of, get_field, list, map, one};
ghost use Rattle.pb_value.specs.Inner.{inner_message, only_datum, type_named};
ghost use Rattle.pb_value.specs.View.{entries_view, value_view, values_view};
ghost use Rattle.pb_place.specs.At.{as_part, at, list_part, map_part, part_at, seen};
ghost use Rattle.pb_place.specs.Found.{found_view};
ghost use Rattle.pb_place.specs.declared.step.PlaceStep.TheVariants.{Field};

use crate::step::PlaceStep;
use pb_value::{Content, MapKey, MessageRef, Value};
use std::collections::BTreeMap;

/// What a message has at a place.
#[derive(Drop)]
pub enum Found<'a> {
    /// The message itself, or one inside it.
    Message(MessageRef<'a>),
    /// A value that is no message.
    Scalar(&'a Value),
    /// A list, which is never empty.
    List(&'a Vec<Value>),
    /// A map, which is never empty.
    Map(&'a BTreeMap<MapKey, Value>),
}

/// What a message has at a place. There is nothing where a field on the way is not set, a list is shorter, a map has no such key,
/// or a step does not fit what it is taken from.
#[cycle(at)]
pub fn at<'a>(message: MessageRef<'a>, place: &[PlaceStep]) -> Option<Found<'a>>
    ensures { option_map found_view result ≡ at place.now message.entry }
{
    let Some((step, rest)) = place.split_first() else {
        return Some(Found::Message(message));
    };
    let PlaceStep::Field(number) = step else {
        return None;
    };
    at_field(message, *number, rest)
}

/// What a message has at a place that begins with the field of a number.
#[cycle(at)]
fn at_field<'a>(message: MessageRef<'a>, number: u32, rest: &[PlaceStep]) -> Option<Found<'a>>
    ensures { option_map found_view result ≡ at (Field number ∷ rest.now) message.entry }
{
    match message.get(number)? {
        Content::One(value) => in_value(value, message_alone(message, number, value), rest),
        Content::List(values) => in_list(message, number, values, rest),
        Content::Map(entries) => in_map(message, number, entries, rest),
    }
}

/// The message that the field of a number holds, where this value is all that it holds. Only for a value that is a message is the field looked up
/// again.
fn message_alone<'a>(message: MessageRef<'a>, number: u32, value: &Value) -> Option<MessageRef<'a>>
    requires { get_field number (fields_of message.body) ≡ Some (one (value_view value.now)) }
    ensures { result ≡ inner_message only_datum number message.entry }
{
    match value {
        Value::Message(_) => message.message(number),
        _ => None,
    }
}

/// What a list has at a place, where the field of a number holds it.
#[cycle(at)]
fn in_list<'a>(
    message: MessageRef<'a>,
    number: u32,
    values: &'a Vec<Value>,
    place: &[PlaceStep],
) -> Option<Found<'a>>
    requires { get_field number (fields_of message.body)
        ≡ Some (list (values_view values.now.items)) }
    ensures { option_map found_view result ≡ option_map seen
        (part_at place.now (list_part message.entry.pool
        (type_named message.entry.pool message.entry.kind number) (values_view values.now.items))) }
{
    let Some((step, rest)) = place.split_first() else {
        return Some(Found::List(values));
    };
    let PlaceStep::Index(index) = step else {
        return None;
    };
    let value = values.get(*index)?;
    in_value(value, message.message_at(number, *index), rest)
}

/// What a map has at a place, where the field of a number holds it.
#[cycle(at)]
fn in_map<'a>(
    message: MessageRef<'a>,
    number: u32,
    entries: &'a BTreeMap<MapKey, Value>,
    place: &[PlaceStep],
) -> Option<Found<'a>>
    requires { get_field number (fields_of message.body)
        ≡ Some (map (entries_view entries.now.entries)) }
    ensures { option_map found_view result ≡ option_map seen
        (part_at place.now (map_part message.entry.pool
        (type_named message.entry.pool message.entry.kind number)
        (entries_view entries.now.entries))) }
{
    let Some((step, rest)) = place.split_first() else {
        return Some(Found::Map(entries));
    };
    let PlaceStep::Key(key) = step else {
        return None;
    };
    let value = entries.get(key)?;
    in_value(value, message.message_of(number, key), rest)
}

/// What a value has at a place, which is this message or no message.
#[cycle(at)]
fn in_value<'a>(
    value: &'a Value,
    message: Option<MessageRef<'a>>,
    place: &[PlaceStep],
) -> Option<Found<'a>>
    ensures { option_map found_view result ≡ option_map seen
        (part_at place.now (as_part message.entry (value_view value.now))) }
{
    match message {
        Some(message) => at(message, place),
        None if place.is_empty() => Some(Found::Scalar(value)),
        None => None,
    }
}
