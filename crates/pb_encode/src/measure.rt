//! Measuring a message: how long its canonical form is, and the lengths that writing meets.

ghost use Rattle.std.specs.Prelude.{◌≡◌, ◌<◌, [], ◌∷◌, length, option_map, IfSome};
ghost use Rattle.pb_wire.specs.Record.{len};
ghost use Rattle.pb_wire.specs.Spell.{shortest_record, shortest_records};
ghost use Rattle.pb_schema.specs.Types.{Types, message_fields, field_numbered};
ghost use Rattle.pb_schema.specs.View.{field_view};
ghost use Rattle.pb_schema.specs.Rules.{IsPool, NamesType};
ghost use Rattle.pb_value.specs.Canon.{payload_of, canon_bytes, canon_each, canon_entries, canon_holding, canon_fields, packed_bytes};
ghost use Rattle.pb_value.specs.Canon.{key_kind, is_packed, sealed};
ghost use Rattle.pb_value.specs.RoundTrip.{CanonIsText, CanonIsTextOfOne};
ghost use Rattle.pb_value.specs.View.{key_view, value_view, values_view, entries_view, content_view, fields_view, body_view};
ghost use Rattle.pb_encode.specs.Sizes.{capped, entry_records, lengths_in_message, lengths_in_datum, lengths_in_each, lengths_in_entries};
ghost use Rattle.pb_encode.specs.Sizes.{lengths_in_holding, lengths_in_fields};
ghost use Rattle.pb_encode.specs.Measure.{Measures};
ghost use Rattle.pb_encode.specs.Encoding.{bytes_of};

use crate::lengths::Lengths;
use crate::scalar::{element_len, key_kind, key_payload, scalar_payload};
use crate::sizes::{group_len, record_len, sealed_len, unknowns_len};
use pb_schema::{Field, Kind, MessageId, Pool, Shape};
use pb_value::{Body, Content, DynamicMessage, MapKey, Value};
use std::alloc::AllocError;
use std::collections::BTreeMap;

/// The length of the canonical bytes of a message.
#[cycle(measure)]
pub(crate) fn message_len(
    pool: &Pool,
    message_type: MessageId,
    body: &Body,
    lengths: &mut Lengths,
) -> Result<u128, AllocError>
    requires { message_type.0 < length pool.now.messages }
    ensures { Measures lengths.old lengths.new result (lengths_in_message pool.now message_type.0 (body_view body.now))
        (length (canon_bytes pool.now message_type.0 (body_view body.now))) }
{
    let known = fields_len(pool, message_type, &body.fields, lengths)?;
    Ok(known.saturating_add(unknowns_len(&body.unknown)))
}

#[cycle(measure)]
fn fields_len(
    pool: &Pool,
    message_type: MessageId,
    fields: &BTreeMap<u32, Content>,
    lengths: &mut Lengths,
) -> Result<u128, AllocError>
    requires { message_type.0 < length pool.now.messages }
    ensures { let all = message_fields pool.now message_type.0 in let fs = fields_view fields.now.entries in
        Measures lengths.old lengths.new result (lengths_in_fields pool.now all fs)
        (length (shortest_records (canon_fields pool.now all fs))) }
{
    let mut total = 0u128;
    for (number, content) in fields {
        if let Some(field) = field_at(pool, message_type, *number) {
            total = total.saturating_add(content_len(pool, field, content, lengths)?);
        }
    }
    Ok(total)
}

/// The length of the records of a field.
#[cycle(measure)]
fn content_len(
    pool: &Pool,
    field: &Field,
    content: &Content,
    lengths: &mut Lengths,
) -> Result<u128, AllocError>
    requires { NamesType (length pool.now.messages) (length pool.now.enums) field.now.kind }
    ensures { let f = field_view field.now in let h = content_view content.now in
        Measures lengths.old lengths.new result (lengths_in_holding pool.now f h)
        (length (shortest_records (canon_holding pool.now f h))) }
{
    match content {
        Content::One(value) => value_len(pool, field.number, field.kind, value, lengths),
        Content::List(values) => {
            if is_packed(field.shape) {
                packed_len(field.number, field.kind, values, lengths)
            } else {
                values_len(pool, field, values, lengths)
            }
        }
        Content::Map(entries) => entries_len(pool, field, entries, lengths),
    }
}

/// The length of a record of a value.
#[cycle(measure)]
fn value_len(
    pool: &Pool,
    number: u32,
    kind: Kind,
    value: &Value,
    lengths: &mut Lengths,
) -> Result<u128, AllocError>
    requires { NamesType (length pool.now.messages) (length pool.now.enums) kind }
    ensures { let d = value_view value.now in
        Measures lengths.old lengths.new result (lengths_in_datum pool.now kind d)
        (length (shortest_record number (payload_of pool.now kind d))) }
{
    match value {
        Value::Message(body) => match kind {
            Kind::Message(id) => {
                let at = lengths.open()?;
                let size = message_len(pool, id, body, lengths)?;
                lengths.close(at, size);
                Ok(sealed_len(number, size))
            }
            Kind::Group(id) => {
                let inside = message_len(pool, id, body, lengths)?;
                Ok(group_len(number, inside))
            }
            _ => Ok(record_len(number, scalar_payload(kind, value))),
        },
        _ => Ok(record_len(number, scalar_payload(kind, value))),
    }
}

#[cycle(measure)]
fn values_len(
    pool: &Pool,
    field: &Field,
    values: &Vec<Value>,
    lengths: &mut Lengths,
) -> Result<u128, AllocError>
    requires { NamesType (length pool.now.messages) (length pool.now.enums) field.now.kind }
    ensures { let f = field_view field.now in let ds = values_view values.now.items in
        Measures lengths.old lengths.new result (lengths_in_each pool.now f.kind ds)
        (length (shortest_records (canon_each pool.now f ds))) }
{
    let mut total = 0u128;
    for value in values {
        total = total.saturating_add(value_len(pool, field.number, field.kind, value, lengths)?);
    }
    Ok(total)
}

#[cycle(measure)]
fn entries_len(
    pool: &Pool,
    field: &Field,
    entries: &BTreeMap<MapKey, Value>,
    lengths: &mut Lengths,
) -> Result<u128, AllocError>
    requires { NamesType (length pool.now.messages) (length pool.now.enums) field.now.kind }
    ensures { let f = field_view field.now in let es = entries_view entries.now.entries in
        Measures lengths.old lengths.new result (lengths_in_entries pool.now f es)
        (length (shortest_records (canon_entries pool.now f es))) }
{
    let mut total = 0u128;
    for (key, value) in entries {
        total = total.saturating_add(entry_len(pool, field, key, value, lengths)?);
    }
    Ok(total)
}

/// The length of a record of a map's entry.
#[cycle(measure)]
fn entry_len(
    pool: &Pool,
    field: &Field,
    key: &MapKey,
    value: &Value,
    lengths: &mut Lengths,
) -> Result<u128, AllocError>
    requires { NamesType (length pool.now.messages) (length pool.now.enums) field.now.kind }
    ensures { let f = field_view field.now in let rs = entry_records pool.now (key_kind f.shape f.kind) f.kind (key_view key.now) (value_view value.now) in
        Measures lengths.old lengths.new result (length (shortest_records rs) ∷ lengths_in_datum pool.now f.kind (value_view value.now))
        (length (shortest_record f.number (sealed rs))) }
{
    let at = lengths.open()?;
    let first = record_len(1, key_payload(key_kind(field.shape, field.kind), key));
    let second = value_len(pool, 2, field.kind, value, lengths)?;
    let size = first.saturating_add(second);
    lengths.close(at, size);
    Ok(sealed_len(field.number, size))
}

/// The length of a record of a packed list.
fn packed_len(
    number: u32,
    kind: Kind,
    values: &Vec<Value>,
    lengths: &mut Lengths,
) -> Result<u128, AllocError>
    ensures { let s = packed_bytes kind (values_view values.now.items) in
        Measures lengths.old lengths.new result (length s ∷ [])
        (length (shortest_record number (len s))) }
{
    let at = lengths.open()?;
    let size = elements_len(kind, values);
    lengths.close(at, size);
    Ok(sealed_len(number, size))
}

/// The length of the elements of a packed list.
fn elements_len(kind: Kind, values: &Vec<Value>) -> u128
    ensures { result ≡ capped (length (packed_bytes kind (values_view values.now.items))) }
{
    let mut total = 0u128;
    for value in values {
        total = total.saturating_add(element_len(kind, value));
    }
    total
}

/// The field of a number in a message type. The type that its kind names is one of the pool.
pub(crate) fn field_at(pool: &Pool, message_type: MessageId, number: u32) -> Option<&Field>
    requires { message_type.0 < length pool.now.messages }
    ensures found { option_map (λ f. field_view f.now) result ≡ field_numbered number (message_fields pool.now message_type.0) }
    ensures named { IfSome result (λ f. NamesType (length pool.now.messages) (length pool.now.enums) f.now.kind) }
    ensures rules { IsPool pool.now }
{
    pool.field_by_number(message_type, number)
}

pub(crate) fn is_packed(shape: Shape) -> bool
    ensures { result ≡ is_packed shape }
{
    match shape {
        Shape::List { packed } => packed,
        _ => false,
    }
}

/// How many bytes the canonical form of a message has, or the greatest number where it has more. Takes no memory, and time
/// in proportion to the message.
///
/// Where they are at most 2^31 - 1, those bytes are a text of the message within the greatest limits, and of no other.
pub fn encoded_len(message: &DynamicMessage) -> u128
    ensures text { (pool : Types) → IsPool pool → CanonIsText pool }
    ensures only { (pool : Types) → IsPool pool → CanonIsTextOfOne pool }
    ensures exact { result ≡ capped (length (bytes_of message.now)) }
{
    let mut lengths = Lengths {
        kept: false,
        table: Vec::new(message.alloc()),
    };
    let len = message_len(
        message.pool(),
        message.message_type(),
        message.body(),
        &mut lengths,
    );
    // Without a table nothing can be refused.
    len.unwrap_or(0)
}
