//! The listing of a message by its pool.

ghost use Rattle.std.specs.Prelude.{◌++◌, ◌+◌, ◌<◌, ◌≤◌, suc, codes, length, MatchResult};
ghost use Rattle.pb_schema.specs.Kinds.{message_of_kind};
ghost use Rattle.pb_schema.specs.Rules.{NamesType};
ghost use Rattle.pb_schema.specs.Types.{message_fields};
ghost use Rattle.pb_schema.specs.View.{field_view};
ghost use Rattle.pb_value.specs.Data.{message_depth, fields_depth, holding_depth, datums_depth, entries_depth, levels_of};
ghost use Rattle.pb_value.specs.View.{body_view, content_view, entries_view, fields_view, value_view, values_view};
ghost use Rattle.pb_listing.specs.Label.{key_text, label_text};
ghost use Rattle.pb_listing.specs.Listing.{listing, listing_at};
ghost use Rattle.pb_listing.specs.ListingAs.{AreDatumLines, AreEachLines, AreEntriesLines, AreFieldsLines, AreHoldingLines};
ghost use Rattle.pb_listing.specs.ListingAs.{AreLinesInside, AreMessageLines, AreScalarLines, IsListing, IsListingAt};
ghost use Rattle.pb_listing.specs.Putting.{CutSome, PutsSome, SentSome};
ghost use Rattle.pb_listing.specs.RawListing.{indent, line};
ghost use Rattle.pb_output.specs.Sending.{Cut, Sent};
ghost use Rattle.pb_output.specs.Sink.{Puts};

use crate::context::Context;
use crate::form::FloatForm;
use crate::records::{DEEPEST, push_indent, put_end};
use crate::unknown::put_unknown;
use crate::values::{put_key, put_scalar};
use pb_output::Sink;
use pb_schema::{Field, Kind, MessageId};
use pb_value::{Body, Content, DynamicMessage, MapKey, Value};
use pb_wire::{DeviceFault, Output};
use std::collections::BTreeMap;

/// What comes before a value: the name of its field, and in a map the key.
#[derive(Clone, Copy)]
struct Label<'a> {
    name: &'a str,
    key: Option<&'a MapKey>,
}

/// Writes the listing of a message: its fields by rising number, and then its unknown records. Floats are listed by their bits. An
/// error says that the output failed, after a prefix of the listing.
pub fn write_message<O: Output>(
    out: &mut O,
    message: &DynamicMessage<'_>,
) -> Result<(), DeviceFault>
    ensures { MatchResult result
        (λ _. Sent O.written O.failures out.old out.new (listing message.now))
        (λ _. Cut O.written O.failures out.old out.new (listing message.now)) }
{
    write_message_as(out, message, FloatForm::Bits)
}

/// As `write_message`, with floats in a form.
pub fn write_message_as<O: Output>(
    out: &mut O,
    message: &DynamicMessage<'_>,
    floats: FloatForm,
) -> Result<(), DeviceFault>
    ensures { MatchResult result
        (λ _. SentSome O.written O.failures out.old out.new (IsListing floats message.now))
        (λ _. CutSome O.written O.failures out.old out.new (IsListing floats message.now)) }
{
    let mut sink = Sink::new();
    put_listing_as(&mut sink, out, 0, message, floats);
    sink.finish(out)
}

/// Puts the listing of a message at a level: 0 of a whole message, 1 of one in a frame. Floats are listed by their bits.
pub fn put_listing_at<O: Output>(
    sink: &mut Sink,
    out: &mut O,
    level: usize,
    message: &DynamicMessage<'_>,
)
    requires { level ≤ 1 }
    ensures { Puts O.written O.failures out.old out.new sink.old sink.new
        (listing_at level message.now) }
{
    put_listing_as(sink, out, level, message, FloatForm::Bits);
}

/// As `put_listing_at`, with floats in a form.
pub fn put_listing_as<O: Output>(
    sink: &mut Sink,
    out: &mut O,
    level: usize,
    message: &DynamicMessage<'_>,
    floats: FloatForm,
)
    requires { level ≤ 1 }
    ensures { PutsSome O.written O.failures out.old out.new sink.old sink.new
        (IsListingAt floats level message.now) }
{
    let context = Context {
        pool: message.pool(),
        floats,
    };
    put_message(
        sink,
        out,
        level,
        &context,
        message.message_type(),
        message.body(),
    );
}

/// The lines of a message at a level.
#[cycle(lines)]
fn put_message<O: Output>(
    sink: &mut Sink,
    out: &mut O,
    level: usize,
    context: &Context<'_>,
    message_type: MessageId,
    body: &Body,
)
    requires low { level ≤ 101 }
    requires within { message_type.0 < length context.now.pool.now.messages }
    ensures { level + message_depth (body_view body.now) ≤ 101
        → PutsSome O.written O.failures out.old out.new sink.old sink.new
        (AreMessageLines context.now.floats context.now.pool.now level message_type.0
        (body_view body.now)) }
{
    put_fields(sink, out, level, context, message_type, &body.fields);
    put_unknown(sink, out, level, &body.unknown);
}

#[cycle(lines)]
fn put_fields<O: Output>(
    sink: &mut Sink,
    out: &mut O,
    level: usize,
    context: &Context<'_>,
    message_type: MessageId,
    fields: &BTreeMap<u32, Content>,
)
    requires low { level ≤ 101 }
    requires within { message_type.0 < length context.now.pool.now.messages }
    ensures { level + fields_depth (fields_view fields.now.entries) ≤ 101
        → PutsSome O.written O.failures out.old out.new sink.old sink.new
        (AreFieldsLines context.now.floats context.now.pool.now level
        (message_fields context.now.pool.now message_type.0) (fields_view fields.now.entries)) }
{
    for (number, content) in fields {
        if context.is_over(sink) {
            return;
        }
        if let Some(field) = context.pool.field_by_number(message_type, *number) {
            put_content(sink, out, level, context, field, content);
        }
    }
}

#[cycle(lines)]
fn put_content<O: Output>(
    sink: &mut Sink,
    out: &mut O,
    level: usize,
    context: &Context<'_>,
    field: &Field,
    content: &Content,
)
    requires low { level ≤ 101 }
    requires kind { NamesType (length context.now.pool.now.messages)
        (length context.now.pool.now.enums) field.now.kind }
    ensures { level + holding_depth (content_view content.now) ≤ 101
        → PutsSome O.written O.failures out.old out.new sink.old sink.new
        (AreHoldingLines context.now.floats context.now.pool.now level (field_view field.now)
        (content_view content.now)) }
{
    let name = field.name.as_str();
    match content {
        Content::One(value) => {
            let label = Label { name, key: None };
            put_value(sink, out, level, context, field.kind, label, value);
        }
        Content::List(values) => put_values(sink, out, level, context, field.kind, name, values),
        Content::Map(entries) => put_entries(sink, out, level, context, field.kind, name, entries),
    }
}

/// The elements of a list.
#[cycle(lines)]
fn put_values<O: Output>(
    sink: &mut Sink,
    out: &mut O,
    level: usize,
    context: &Context<'_>,
    kind: Kind,
    name: &str,
    values: &Vec<Value>,
)
    requires low { level ≤ 101 }
    requires kind { NamesType (length context.now.pool.now.messages)
        (length context.now.pool.now.enums) kind }
    ensures { level + datums_depth (values_view values.now.items) ≤ 101
        → PutsSome O.written O.failures out.old out.new sink.old sink.new
        (AreEachLines context.now.floats context.now.pool.now level kind name.now
        (values_view values.now.items)) }
{
    for value in values {
        if context.is_over(sink) {
            return;
        }
        let label = Label { name, key: None };
        put_value(sink, out, level, context, kind, label, value);
    }
}

/// The entries of a map.
#[cycle(lines)]
fn put_entries<O: Output>(
    sink: &mut Sink,
    out: &mut O,
    level: usize,
    context: &Context<'_>,
    kind: Kind,
    name: &str,
    entries: &BTreeMap<MapKey, Value>,
)
    requires low { level ≤ 101 }
    requires kind { NamesType (length context.now.pool.now.messages)
        (length context.now.pool.now.enums) kind }
    ensures { level + entries_depth (entries_view entries.now.entries) ≤ 101
        → PutsSome O.written O.failures out.old out.new sink.old sink.new
        (AreEntriesLines context.now.floats context.now.pool.now level kind name.now
        (entries_view entries.now.entries)) }
{
    for (key, value) in entries {
        if context.is_over(sink) {
            return;
        }
        let label = Label {
            name,
            key: Some(key),
        };
        put_value(sink, out, level, context, kind, label, value);
    }
}

/// The lines of a value, after its label.
#[cycle(lines)]
fn put_value<O: Output>(
    sink: &mut Sink,
    out: &mut O,
    level: usize,
    context: &Context<'_>,
    kind: Kind,
    label: Label<'_>,
    value: &Value,
)
    requires low { level ≤ 101 }
    requires kind { NamesType (length context.now.pool.now.messages)
        (length context.now.pool.now.enums) kind }
    ensures { level + levels_of (value_view value.now) ≤ 101
        → PutsSome O.written O.failures out.old out.new sink.old sink.new
        (AreDatumLines context.now.floats context.now.pool.now level kind (label_text label.entry)
        (value_view value.now)) }
{
    let Value::Message(body) = value else {
        put_scalar_line(sink, out, level, context, kind, label, value);
        return;
    };
    put_start(sink, out, level, label);
    put_inside(sink, out, level, context, kind, body);
    put_end(sink, out, level);
}

/// The lines of a message of a kind, one level in.
#[cycle(lines)]
fn put_inside<O: Output>(
    sink: &mut Sink,
    out: &mut O,
    level: usize,
    context: &Context<'_>,
    kind: Kind,
    body: &Body,
)
    requires low { level ≤ 101 }
    requires kind { NamesType (length context.now.pool.now.messages)
        (length context.now.pool.now.enums) kind }
    ensures { level + suc (message_depth (body_view body.now)) ≤ 101
        → PutsSome O.written O.failures out.old out.new sink.old sink.new
        (AreLinesInside context.now.floats context.now.pool.now level (message_of_kind kind)
        (body_view body.now)) }
{
    let Some(id) = kind.message() else { return };
    // No message nests so deep.
    if level < DEEPEST {
        put_message(sink, out, level + 1, context, id, body);
    }
}

/// A line with a value that is no message.
fn put_scalar_line<O: Output>(
    sink: &mut Sink,
    out: &mut O,
    level: usize,
    context: &Context<'_>,
    kind: Kind,
    label: Label<'_>,
    value: &Value,
)
    requires low { level ≤ 101 }
    requires kind { NamesType (length context.now.pool.now.messages)
        (length context.now.pool.now.enums) kind }
    ensures { PutsSome O.written O.failures out.old out.new sink.old sink.new
        (AreScalarLines context.now.floats context.now.pool.now level kind (label_text label.entry)
        (value_view value.now)) }
{
    put_label(sink, out, level, label);
    sink.put(out, b": ");
    put_scalar(sink, out, context, kind, value);
    sink.put(out, b"\n");
}

/// The line before the lines of a message.
fn put_start<O: Output>(sink: &mut Sink, out: &mut O, level: usize, label: Label<'_>)
    requires { level ≤ 101 }
    ensures { Puts O.written O.failures out.old out.new sink.old sink.new (line level (label_text label.entry ++ codes " {")) }
{
    put_label(sink, out, level, label);
    sink.put(out, b" {\n");
}

/// A label, indented.
fn put_label<O: Output>(sink: &mut Sink, out: &mut O, level: usize, label: Label<'_>)
    requires { level ≤ 101 }
    ensures { Puts O.written O.failures out.old out.new sink.old sink.new
        (indent level ++ label_text label.entry) }
{
    sink.reserve(out, 202);
    push_indent(&mut sink.held, level);
    sink.put(out, label.name.as_bytes());
    put_bracketed(sink, out, label.key);
}

/// A key between brackets, if there is one.
fn put_bracketed<O: Output>(sink: &mut Sink, out: &mut O, key: Option<&MapKey>)
    ensures { Puts O.written O.failures out.old out.new sink.old sink.new (key_text key.entry) }
{
    let Some(key) = key else { return };
    sink.put(out, b"[");
    put_key(sink, out, key);
    sink.put(out, b"]");
}
