//! The records that lead to where bytes are refused, outermost first: their names, their types, and the bytes that they span.

ghost use Rattle.std.specs.Prelude.{◌≡◌, ◌++◌, ℕ, List, codes, decimal, option_map};
ghost use Rattle.pb_schema.specs.View.{field_view};
ghost use Rattle.pb_wire.specs.PathText.{step_text};
ghost use Rattle.pb_output.specs.Sink.{Puts};
ghost use Rattle.pbtool_explain.specs.Records.{IsFoundIn, payload_in, span_in};
ghost use Rattle.pbtool_explain.specs.Steps.{AreStepLines, entry_label, field_label, field_of, inside_entry, inside_field, inside_kind};
ghost use Rattle.pbtool_explain.specs.Steps.{bounds_text, label_of, parent_inside, span_of, span_text, start_text, step_line, type_label};

use crate::find::{Found, find_record};
use pb_listing::put_kind;
use pb_output::Sink;
use pb_schema::{Field, Kind, MessageId, Pool, Shape};
use pb_wire::{Output, PathStep};

/// What a record is in.
#[derive(Clone, Copy, Debug, PartialEq, Eq)]
pub enum Parent {
    /// Records of which no type is known.
    Untyped,
    /// A message of the type with this index in the pool.
    Message(MessageId),
    /// An entry of a map.
    Entry { key: Kind, value: Kind },
}

/// Bytes of a file: its path, which frame they are if it is a stream, at which byte of the file they begin, and from which of them on
/// there are records.
#[derive(Clone, Copy, Debug)]
pub struct Given<'a> {
    pub file: &'a str,
    pub frame: Option<u64>,
    pub offset: u64,
    pub bytes: &'a [u8],
    pub start: usize,
}

/// The bytes that a record spans: its first and its last, if it is known.
#[derive(Clone, Copy, Debug, PartialEq, Eq)]
struct Span {
    first: u64,
    last: Option<u64>,
}

/// Puts a line for each step of a path into what the bytes hold.
pub fn put_steps<O: Output>(
    sink: &mut Sink,
    out: &mut O,
    pool: &Pool,
    parent: Parent,
    given: Given<'_>,
    path: &[PathStep],
)
    ensures { (lines : List ℕ) × AreStepLines pool.now parent given.entry path.now lines
        × Puts O.written O.failures out.old out.new sink.old sink.new lines }
{
    let mut inside = parent;
    let mut at = Some(given.start);
    for step in path {
        let found = find_at(given.bytes, at, *step);
        put_step(
            sink,
            out,
            pool,
            inside,
            *step,
            find_span(given.offset, found),
        );
        inside = enter(pool, inside, step.number);
        at = payload_of(found);
    }
}

/// The record of a step in a payload that begins at an index, if that was found.
fn find_at(bytes: &[u8], at: Option<usize>, step: PathStep) -> Option<Found>
    ensures { IsFoundIn bytes.now at step result }
{
    find_record(bytes, at?, step)
}

fn payload_of(found: Option<Found>) -> Option<usize>
    ensures { result ≡ payload_in found }
{
    Some(found?.payload)
}

/// The bytes of a record, counted in the whole input.
fn find_span(offset: u64, found: Option<Found>) -> Option<Span>
    ensures { result ≡ span_in offset found }
{
    let found = found?;
    let last = match found.end {
        Some(end) => Some(offset.saturating_add(end as u64).saturating_sub(1)),
        None => None,
    };
    Some(Span {
        first: offset.saturating_add(found.start as u64),
        last,
    })
}

/// What the records are in that the record of this number holds.
fn enter(pool: &Pool, parent: Parent, number: u32) -> Parent
    ensures { result ≡ parent_inside pool.now parent number }
{
    match parent {
        Parent::Untyped => Parent::Untyped,
        Parent::Message(message_type) => match field_at(pool, message_type, number) {
            None => Parent::Untyped,
            Some(field) => field_parent(field),
        },
        Parent::Entry { key: _, value } => entry_parent(value, number),
    }
}

/// What the records are in that a field holds.
fn field_parent(field: &Field) -> Parent
    ensures { result ≡ inside_field (field_view field.now) }
{
    match field.shape {
        Shape::Map { key } => Parent::Entry {
            key,
            value: field.kind,
        },
        _ => kind_parent(field.kind),
    }
}

/// What the records are in that a part of an entry holds: its value has the number 2.
fn entry_parent(value: Kind, number: u32) -> Parent
    ensures { result ≡ inside_entry value number }
{
    if number == 2 {
        kind_parent(value)
    } else {
        Parent::Untyped
    }
}

/// What the records are in that a value of a kind holds.
fn kind_parent(kind: Kind) -> Parent
    ensures { result ≡ inside_kind kind }
{
    match kind {
        Kind::Message(inner) | Kind::Group(inner) => Parent::Message(inner),
        _ => Parent::Untyped,
    }
}

/// The field of a number in a message type; none where the pool has no such type.
fn field_at(pool: &Pool, message_type: MessageId, number: u32) -> Option<&Field>
    ensures { option_map (λ f. field_view f.now) result ≡ field_of pool.now message_type.0 number }
{
    if message_type.0 < pool.messages().len() {
        pool.field_by_number(message_type, number)
    } else {
        None
    }
}

/// The line of a step.
fn put_step<O: Output>(
    sink: &mut Sink,
    out: &mut O,
    pool: &Pool,
    parent: Parent,
    step: PathStep,
    span: Option<Span>,
)
    ensures { Puts O.written O.failures out.old out.new sink.old sink.new
        (step_line pool.now parent step span) }
{
    put_step_text(sink, out, step);
    put_label(sink, out, pool, parent, step.number);
    put_span(sink, out, span);
}

/// A step as the line of a refusal has it.
fn put_step_text<O: Output>(sink: &mut Sink, out: &mut O, step: PathStep)
    ensures { Puts O.written O.failures out.old out.new sink.old sink.new
        (codes "  " ++ step_text step) }
{
    sink.reserve(out, 64);
    sink.held.push(b"  ");
    sink.held.push_decimal(u64::from(step.number));
    sink.held.push(b"[");
    sink.held.push_decimal(u64::from(step.occurrence));
    sink.held.push(b"]");
}

/// The name and the type of the record of a number.
fn put_label<O: Output>(sink: &mut Sink, out: &mut O, pool: &Pool, parent: Parent, number: u32)
    ensures { Puts O.written O.failures out.old out.new sink.old sink.new
        (label_of pool.now parent number) }
{
    match parent {
        Parent::Untyped => {}
        Parent::Message(message_type) => {
            put_field(sink, out, pool, field_at(pool, message_type, number))
        }
        Parent::Entry { key, value } => put_entry_part(sink, out, pool, key, value, number),
    }
}

/// The name and the type of a field.
fn put_field<O: Output>(sink: &mut Sink, out: &mut O, pool: &Pool, field: Option<&Field>)
    ensures { Puts O.written O.failures out.old out.new sink.old sink.new
        (field_label pool.now (option_map (λ f. field_view f.now) field.entry)) }
{
    let Some(field) = field else {
        sink.put(out, b" unknown");
        return;
    };
    sink.put(out, b" ");
    sink.put(out, field.name.as_str().as_bytes());
    sink.put(out, b", ");
    put_type(sink, out, pool, field.shape, field.kind);
}

/// The type of a field's values, or of a map.
fn put_type<O: Output>(sink: &mut Sink, out: &mut O, pool: &Pool, shape: Shape, kind: Kind)
    ensures { Puts O.written O.failures out.old out.new sink.old sink.new
        (type_label pool.now shape kind) }
{
    match shape {
        Shape::Map { key } => {
            sink.put(out, b"map<");
            put_kind(sink, out, pool, key);
            sink.put(out, b", ");
            put_kind(sink, out, pool, kind);
            sink.put(out, b">");
        }
        _ => put_kind(sink, out, pool, kind),
    }
}

/// What the record of a number is in an entry of a map.
fn put_entry_part<O: Output>(
    sink: &mut Sink,
    out: &mut O,
    pool: &Pool,
    key: Kind,
    value: Kind,
    number: u32,
)
    ensures { Puts O.written O.failures out.old out.new sink.old sink.new
        (entry_label pool.now key value number) }
{
    if number == 1 {
        sink.put(out, b" key, ");
        put_kind(sink, out, pool, key);
    } else if number == 2 {
        sink.put(out, b" value, ");
        put_kind(sink, out, pool, value);
    } else {
        sink.put(out, b" unknown");
    }
}

/// The bytes that a record spans, and the end of the line.
fn put_span<O: Output>(sink: &mut Sink, out: &mut O, span: Option<Span>)
    ensures { Puts O.written O.failures out.old out.new sink.old sink.new (span_text span) }
{
    match span {
        None => sink.put(out, b"\n"),
        Some(span) => put_bytes(sink, out, span.first, span.last),
    }
}

/// The first of the bytes, and the last if it is known.
fn put_bytes<O: Output>(sink: &mut Sink, out: &mut O, first: u64, last: Option<u64>)
    ensures { Puts O.written O.failures out.old out.new sink.old sink.new (span_of first last) }
{
    match last {
        None => put_start(sink, out, first),
        Some(last) => put_bounds(sink, out, first, last),
    }
}

fn put_start<O: Output>(sink: &mut Sink, out: &mut O, first: u64)
    ensures { Puts O.written O.failures out.old out.new sink.old sink.new (start_text first) }
{
    sink.reserve(out, 64);
    sink.held.push(b": from byte ");
    sink.held.push_decimal(first);
    sink.held.push(b" on\n");
}

fn put_bounds<O: Output>(sink: &mut Sink, out: &mut O, first: u64, last: u64)
    ensures { Puts O.written O.failures out.old out.new sink.old sink.new (bounds_text first last) }
{
    sink.reserve(out, 128);
    sink.held.push(b": bytes ");
    sink.held.push_decimal(first);
    sink.held.push(b" to ");
    sink.held.push_decimal(last);
    sink.held.push(b"\n");
}
