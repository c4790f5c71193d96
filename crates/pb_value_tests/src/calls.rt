//! Each call once.

use super::sample::Schema;
use pb_schema::{EnumId, Kind, MessageId};
use pb_test_types::{body_of, key_of, value_of};
use pb_value::laws::{
    canonical_spelling, joined_records, key_order, merging, no_cause, one_value, reading_onto,
    round_trip, well_formed_values,
};
use pb_value::{Content, DynamicMessage, Value, ValueError, default_value};
use std::alloc::{AllocError, Global};
use std::test::Fail;

pub(crate) fn is_empty(schema: &Schema, message: &DynamicMessage<'_>) -> bool {
    message.body().fields.is_empty()
        && message.body().unknown.is_empty()
        && message.message_type() == schema.kind
        && message.pool().messages().len() == 2
        && message.which_oneof(0).is_none()
}

/// A field, and whether the message holds it.
const HELD: &[(u32, bool)] = &[(1, true), (7, false), (8, true), (99, false)];

fn are_held(message: &DynamicMessage<'_>, rows: &[(u32, bool)]) -> bool {
    for (number, is_there) in rows {
        if message.has(*number) != *is_there || message.get(*number).is_some() != *is_there {
            return false;
        }
    }
    true
}

fn is_number(content: Option<&Content>, wanted: i32) -> bool {
    match content {
        Some(Content::One(Value::I32(number))) => *number == wanted,
        _ => false,
    }
}

fn holds_a_number_and_a_member(message: &DynamicMessage<'_>) -> bool {
    are_held(message, HELD)
        && is_number(message.get(1), 5)
        && message.which_oneof(0) == Some(8)
        && message.which_oneof(1).is_none()
        && message.which_oneof(2).is_none()
}

pub(crate) fn is_held(alloc: Global, schema: &Schema) -> Result<bool, Fail> {
    let message = schema.made(alloc, body_of(alloc, "1:i5 8:n0")?)?;
    Ok(holds_a_number_and_a_member(&message))
}

/// A kind and its default.
const DEFAULTS: &[(Kind, Option<&str>)] = &[
    (Kind::Int32, Some("i0")),
    (Kind::Sint32, Some("i0")),
    (Kind::Sfixed32, Some("i0")),
    (Kind::Int64, Some("I0")),
    (Kind::Sint64, Some("I0")),
    (Kind::Sfixed64, Some("I0")),
    (Kind::Uint32, Some("u0")),
    (Kind::Fixed32, Some("u0")),
    (Kind::Uint64, Some("U0")),
    (Kind::Fixed64, Some("U0")),
    (Kind::Bool, Some("b0")),
    (Kind::Float, Some("f0")),
    (Kind::Double, Some("F0")),
    (Kind::Enum(EnumId(0)), Some("e0")),
    (Kind::Text, Some("t")),
    (Kind::Bytes, Some("x")),
    (Kind::Message(MessageId(0)), None),
    (Kind::Group(MessageId(0)), None),
    (Kind::ClosedEnum(EnumId(0)), None),
];

#[test]
fn defaults(rt: HostRuntime) -> Result<(), Fail> {
    for (kind, word) in DEFAULTS {
        let wanted = match word {
            Some(word) => Some(value_of(rt.alloc(), word)?),
            None => None,
        };
        assert!(rt; default_value(rt.alloc(), *kind) == wanted, "{kind:?}");
    }
    Ok(())
}

/// A cause, its number and its name.
const CAUSES: &[(ValueError, u8, &str)] = &[
    (ValueError::NoSuchField, 21, "NoSuchField"),
    (ValueError::WrongKind, 22, "WrongKind"),
    (ValueError::WrongShape, 23, "WrongShape"),
    (ValueError::DefaultStored, 24, "DefaultStored"),
    (ValueError::TwoMembers, 25, "TwoMembers"),
    (ValueError::KnownAsUnknown, 26, "KnownAsUnknown"),
    (ValueError::TooDeep, 27, "TooDeep"),
    (ValueError::Memory, 28, "Memory"),
    (ValueError::OtherType, 29, "OtherType"),
    (ValueError::NoSuchValue, 30, "NoSuchValue"),
];

#[test]
fn causes(rt: HostRuntime) -> Result<(), Fail> {
    for (cause, number, name) in CAUSES {
        let shown = format!(in rt.alloc(); "{cause}")?;
        assert!(rt;
            cause.number() == *number && cause.name() == *name && shown.as_str() == *name,
            "{name}"
        );
    }
    Ok(())
}

/// Numbers by value, false before true, texts by their bytes.
const KEYS: &[(&str, &str)] = &[
    ("i-1", "i0"),
    ("u9", "u10"),
    ("b0", "b1"),
    ("t", "ta"),
    ("tZ", "ta"),
    ("ta", "t\u{e9}"),
];

fn is_less(alloc: Global, low: &str, high: &str) -> Result<bool, Fail> {
    let less = key_of(alloc, low)?;
    let more = key_of(alloc, high)?;
    Ok(less < more && less != more && less == less)
}

fn is_key_shown(alloc: Global, key: &str, wanted: &str) -> Result<bool, Fail> {
    let shown = format!(in alloc; "{:?}", key_of(alloc, key)?)?;
    Ok(shown.as_str() == wanted)
}

#[test]
fn keys(rt: HostRuntime) -> Result<(), Fail> {
    for (low, high) in KEYS {
        let is_less = is_less(rt.alloc(), low, high)?;
        assert!(rt; is_less, "{low} {high}");
    }
    let is_shown = is_key_shown(rt.alloc(), "tk", "Text(\"k\")")?;
    assert!(rt; is_shown);
    Ok(())
}

fn long_list(alloc: Global, count: i32) -> Result<Content, AllocError> {
    let mut numbers = Vec::new(alloc);
    for number in 0..count {
        numbers.push(Value::I32(number))?;
    }
    Ok(Content::List(numbers))
}

fn is_list_of(content: Option<&Content>, count: i32) -> bool {
    match content {
        Some(Content::List(values)) => i32::try_from(values.len()) == Ok(count),
        _ => false,
    }
}

/// Whether a long list is set, cleared and dropped.
pub(crate) fn is_long_set(
    alloc: Global,
    message: &mut DynamicMessage<'_>,
    count: i32,
) -> Result<bool, ValueError> {
    message.set(6, long_list(alloc, count)?)?;
    let is_set = is_list_of(message.get(6), count);
    message.clear(6);
    Ok(is_set && !message.has(6))
}

#[test]
fn laws_hold() {
    one_value();
    canonical_spelling();
    key_order();
    no_cause();
    well_formed_values();
    round_trip();
    joined_records();
    reading_onto();
    merging();
}
