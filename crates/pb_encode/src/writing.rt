//! Writing a message to an output by the lengths that were measured. Each call returns the lengths after those that it used. After a
//! failure of the output each part that is open goes on to its next part at most.

ghost use Rattle.std.specs.Prelude.{◌≡◌, ◌<◌, ℕ, List, [], ◌∷◌, length};
ghost use Rattle.pb_wire.specs.Record.{len};
ghost use Rattle.pb_wire.specs.Spell.{shortest_record, shortest_records};
ghost use Rattle.pb_schema.specs.Types.{message_fields};
ghost use Rattle.pb_schema.specs.View.{field_view};
ghost use Rattle.pb_schema.specs.Rules.{NamesType};
ghost use Rattle.pb_value.specs.Canon.{payload_of, canon_bytes, canon_each, canon_entries, canon_holding, canon_fields, packed_bytes, key_kind, sealed};
ghost use Rattle.pb_value.specs.View.{key_view, value_view, values_view, entries_view, content_view, fields_view, body_view};
ghost use Rattle.pb_encode.specs.Sizes.{entry_records, lengths_in_message, lengths_in_datum, lengths_in_each, lengths_in_entries};
ghost use Rattle.pb_encode.specs.Sizes.{lengths_in_holding, lengths_in_fields};
ghost use Rattle.pb_encode.specs.Writing.{Writes};

use crate::measure::{field_at, is_packed};
use crate::putting::{put_elements, put_prefix, put_scalar, put_tag, put_unknowns};
use crate::scalar::{key_kind, key_payload, scalar_payload};
use pb_output::Sink;
use pb_schema::{Field, Kind, MessageId, Pool};
use pb_value::{Body, Content, MapKey, Value};
use pb_wire::Output;
use std::collections::BTreeMap;

/// The first of the lengths, and those after it.
fn next_length(lengths: &[u32]) -> (u32, &[u32])
    ensures { (n : ℕ) (more : List ℕ) → lengths.now ≡ n ∷ more → (result.0 ≡ n) × (result.1.now ≡ more) }
{
    if lengths.is_empty() {
        (0, lengths)
    } else {
        (lengths[0], &lengths[1..])
    }
}

/// Writes the canonical bytes of a message.
#[cycle(write)]
pub(crate) fn write_message<'l, O: Output>(
    sink: &mut Sink,
    out: &mut O,
    pool: &Pool,
    message_type: MessageId,
    body: &Body,
    lengths: &'l [u32],
) -> &'l [u32]
    requires { message_type.0 < length pool.now.messages }
    ensures { Writes O.written O.failures out.old out.new sink.old sink.new lengths.now result.now
        (lengths_in_message pool.now message_type.0 (body_view body.now)) (canon_bytes pool.now message_type.0 (body_view body.now)) }
{
    let next = write_fields(sink, out, pool, message_type, &body.fields, lengths);
    if sink.has_failed() {
        return next;
    }
    put_unknowns(sink, out, &body.unknown);
    next
}

#[cycle(write)]
fn write_fields<'l, O: Output>(
    sink: &mut Sink,
    out: &mut O,
    pool: &Pool,
    message_type: MessageId,
    fields: &BTreeMap<u32, Content>,
    lengths: &'l [u32],
) -> &'l [u32]
    requires { message_type.0 < length pool.now.messages }
    ensures { let all = message_fields pool.now message_type.0 in let fs = fields_view fields.now.entries in
        Writes O.written O.failures out.old out.new sink.old sink.new lengths.now result.now
        (lengths_in_fields pool.now all fs) (shortest_records (canon_fields pool.now all fs)) }
{
    let mut next = lengths;
    for (number, content) in fields {
        if sink.has_failed() {
            return next;
        }
        if let Some(field) = field_at(pool, message_type, *number) {
            next = write_content(sink, out, pool, field, content, next);
        }
    }
    next
}

#[cycle(write)]
fn write_content<'l, O: Output>(
    sink: &mut Sink,
    out: &mut O,
    pool: &Pool,
    field: &Field,
    content: &Content,
    lengths: &'l [u32],
) -> &'l [u32]
    requires { NamesType (length pool.now.messages) (length pool.now.enums) field.now.kind }
    ensures { let f = field_view field.now in let h = content_view content.now in
        Writes O.written O.failures out.old out.new sink.old sink.new lengths.now result.now
        (lengths_in_holding pool.now f h) (shortest_records (canon_holding pool.now f h)) }
{
    match content {
        Content::One(value) => {
            let next = write_value(sink, out, pool, field.number, field.kind, value, lengths);
            next
        }
        Content::List(values) => {
            if is_packed(field.shape) {
                let next = write_packed(sink, out, field.number, field.kind, values, lengths);
                next
            } else {
                let next = write_values(sink, out, pool, field, values, lengths);
                next
            }
        }
        Content::Map(entries) => {
            let next = write_entries(sink, out, pool, field, entries, lengths);
            next
        }
    }
}

#[cycle(write)]
fn write_value<'l, O: Output>(
    sink: &mut Sink,
    out: &mut O,
    pool: &Pool,
    number: u32,
    kind: Kind,
    value: &Value,
    lengths: &'l [u32],
) -> &'l [u32]
    requires { NamesType (length pool.now.messages) (length pool.now.enums) kind }
    ensures { let d = value_view value.now in
        Writes O.written O.failures out.old out.new sink.old sink.new lengths.now result.now
        (lengths_in_datum pool.now kind d) (shortest_record number (payload_of pool.now kind d)) }
{
    match value {
        Value::Message(body) => match kind {
            Kind::Message(id) => {
                let (size, inside) = next_length(lengths);
                put_prefix(sink, out, number, u64::from(size));
                let next = write_message(sink, out, pool, id, body, inside);
                next
            }
            Kind::Group(id) => {
                put_tag(sink, out, number, 3);
                let next = write_message(sink, out, pool, id, body, lengths);
                if sink.has_failed() {
                    return next;
                }
                put_tag(sink, out, number, 4);
                next
            }
            _ => {
                put_scalar(sink, out, number, scalar_payload(kind, value));
                lengths
            }
        },
        _ => {
            put_scalar(sink, out, number, scalar_payload(kind, value));
            lengths
        }
    }
}

#[cycle(write)]
fn write_values<'l, O: Output>(
    sink: &mut Sink,
    out: &mut O,
    pool: &Pool,
    field: &Field,
    values: &Vec<Value>,
    lengths: &'l [u32],
) -> &'l [u32]
    requires { NamesType (length pool.now.messages) (length pool.now.enums) field.now.kind }
    ensures { let f = field_view field.now in let ds = values_view values.now.items in
        Writes O.written O.failures out.old out.new sink.old sink.new lengths.now result.now
        (lengths_in_each pool.now f.kind ds) (shortest_records (canon_each pool.now f ds)) }
{
    let mut next = lengths;
    for value in values {
        if sink.has_failed() {
            return next;
        }
        next = write_value(sink, out, pool, field.number, field.kind, value, next);
    }
    next
}

#[cycle(write)]
fn write_entries<'l, O: Output>(
    sink: &mut Sink,
    out: &mut O,
    pool: &Pool,
    field: &Field,
    entries: &BTreeMap<MapKey, Value>,
    lengths: &'l [u32],
) -> &'l [u32]
    requires { NamesType (length pool.now.messages) (length pool.now.enums) field.now.kind }
    ensures { let f = field_view field.now in let es = entries_view entries.now.entries in
        Writes O.written O.failures out.old out.new sink.old sink.new lengths.now result.now
        (lengths_in_entries pool.now f es) (shortest_records (canon_entries pool.now f es)) }
{
    let mut next = lengths;
    for (key, value) in entries {
        if sink.has_failed() {
            return next;
        }
        next = write_entry(sink, out, pool, field, key, value, next);
    }
    next
}

#[cycle(write)]
fn write_entry<'l, O: Output>(
    sink: &mut Sink,
    out: &mut O,
    pool: &Pool,
    field: &Field,
    key: &MapKey,
    value: &Value,
    lengths: &'l [u32],
) -> &'l [u32]
    requires { NamesType (length pool.now.messages) (length pool.now.enums) field.now.kind }
    ensures { let f = field_view field.now in let rs = entry_records pool.now (key_kind f.shape f.kind) f.kind (key_view key.now) (value_view value.now) in
        Writes O.written O.failures out.old out.new sink.old sink.new lengths.now result.now
        (length (shortest_records rs) ∷ lengths_in_datum pool.now f.kind (value_view value.now)) (shortest_record f.number (sealed rs)) }
{
    let (size, inside) = next_length(lengths);
    put_prefix(sink, out, field.number, u64::from(size));
    put_scalar(
        sink,
        out,
        1,
        key_payload(key_kind(field.shape, field.kind), key),
    );
    let next = write_value(sink, out, pool, 2, field.kind, value, inside);
    next
}

fn write_packed<'l, O: Output>(
    sink: &mut Sink,
    out: &mut O,
    number: u32,
    kind: Kind,
    values: &Vec<Value>,
    lengths: &'l [u32],
) -> &'l [u32]
    ensures { let s = packed_bytes kind (values_view values.now.items) in
        Writes O.written O.failures out.old out.new sink.old sink.new lengths.now result.now
        (length s ∷ []) (shortest_record number (len s)) }
{
    let (size, next) = next_length(lengths);
    put_prefix(sink, out, number, u64::from(size));
    put_elements(sink, out, kind, values);
    next
}
