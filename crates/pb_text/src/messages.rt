//! A message in the text format.

ghost use Rattle.std.specs.Prelude.{◌≡◌, ◌++◌, ◌+◌, ◌*◌, ◌<◌, ◌≤◌, suc, length, MatchResult};
ghost use Rattle.pb_schema.specs.Kinds.{message_of_kind};
ghost use Rattle.pb_schema.specs.Rules.{NamesType};
ghost use Rattle.pb_schema.specs.Types.{message_fields};
ghost use Rattle.pb_schema.specs.View.{field_view};
ghost use Rattle.pb_value.specs.Data.{message_depth, fields_depth, holding_depth, datums_depth, entries_depth, levels_in_entry, levels_of};
ghost use Rattle.pb_value.specs.View.{body_view, content_view, entries_view, fields_view, key_view, value_view, values_view};
ghost use Rattle.pb_listing.specs.Putting.{CutSome, PutsSome, SentSome};
ghost use Rattle.pb_text.specs.Text.{AreDatumLines, AreEachLines, AreEntriesLines, AreFieldsLines, AreHoldingLines, AreInside, AreMessageLines};
ghost use Rattle.pb_text.specs.Text.{ArePairLines, AreScalarLines, IsKeyLine, IsText};

use crate::context::Context;
use crate::form::TextForm;
use crate::labels::label_of;
use crate::lines::{put_end, put_gap, put_indent, put_start};
use crate::unknown::put_unknown;
use crate::values::{put_key, put_scalar};
use pb_output::Sink;
use pb_schema::{Field, Kind, MessageId};
use pb_value::{Body, Content, MapKey, MessageRef, Value};
use pb_wire::{DeviceFault, Output};
use std::collections::BTreeMap;

/// The greatest level of a message's fields: each of at most 100 levels of messages adds one, or two in a
/// map.
const DEEPEST: usize = 202;

/// Writes a message in the text format, in a form: its fields by rising number, and then its unknown records.
/// An error says that the output failed, after a prefix of the text. No memory is allocated.
pub fn write_text<O: Output>(
    out: &mut O,
    message: &MessageRef<'_>,
    form: TextForm,
) -> Result<(), DeviceFault>
    ensures { MatchResult result
        (λ _. SentSome O.written O.failures out.old out.new (IsText form message.now))
        (λ _. CutSome O.written O.failures out.old out.new (IsText form message.now)) }
{
    let mut sink = Sink::new();
    put_text(&mut sink, out, message, form);
    sink.finish(out)
}

/// Puts a message in the text format, as `write_text` writes it.
pub fn put_text<O: Output>(sink: &mut Sink, out: &mut O, message: &MessageRef<'_>, form: TextForm)
    ensures { PutsSome O.written O.failures out.old out.new sink.old sink.new
        (IsText form message.now) }
{
    let context = Context {
        pool: message.pool(),
        form,
    };
    let id = message.message_type();
    put_message(sink, out, 0, &context, id, message.body());
}

/// The fields of a message at a level, and its unknown records.
#[cycle(lines)]
fn put_message<O: Output>(
    sink: &mut Sink,
    out: &mut O,
    level: usize,
    context: &Context<'_>,
    message_type: MessageId,
    body: &Body,
)
    requires low { level ≤ 202 }
    requires within { message_type.0 < length context.now.pool.now.messages }
    ensures { level + 2 * message_depth (body_view body.now) ≤ 202
        → PutsSome O.written O.failures out.old out.new sink.old sink.new
        (AreMessageLines context.now.form context.now.pool.now level message_type.0
        (body_view body.now)) }
{
    put_fields(sink, out, level, context, message_type, &body.fields);
    put_unknown(sink, out, level, context.form, &body.unknown);
}

#[cycle(lines)]
fn put_fields<O: Output>(
    sink: &mut Sink,
    out: &mut O,
    level: usize,
    context: &Context<'_>,
    message_type: MessageId,
    fields: &BTreeMap<u32, Content>,
)
    requires low { level ≤ 202 }
    requires within { message_type.0 < length context.now.pool.now.messages }
    ensures { level + 2 * fields_depth (fields_view fields.now.entries) ≤ 202
        → PutsSome O.written O.failures out.old out.new sink.old sink.new
        (AreFieldsLines context.now.form context.now.pool.now level
        (message_fields context.now.pool.now message_type.0) (fields_view fields.now.entries)) }
{
    for (number, content) in fields {
        if let Some(field) = context.pool.field_by_number(message_type, *number) {
            put_content(sink, out, level, context, field, content);
        }
    }
}

#[cycle(lines)]
fn put_content<O: Output>(
    sink: &mut Sink,
    out: &mut O,
    level: usize,
    context: &Context<'_>,
    field: &Field,
    content: &Content,
)
    requires low { level ≤ 202 }
    requires kind { NamesType (length context.now.pool.now.messages)
        (length context.now.pool.now.enums) field.now.kind }
    ensures { level + 2 * holding_depth (content_view content.now) ≤ 202
        → PutsSome O.written O.failures out.old out.new sink.old sink.new
        (AreHoldingLines context.now.form context.now.pool.now level (field_view field.now)
        (content_view content.now)) }
{
    let kind = field.kind;
    let label = label_of(context.pool, kind, field.name.as_str().as_bytes());
    match content {
        Content::One(value) => put_value(sink, out, level, context, kind, label, value),
        Content::List(values) => put_values(sink, out, level, context, kind, label, values),
        Content::Map(entries) => put_entries(sink, out, level, context, kind, label, entries),
    }
}

/// The elements of a list.
#[cycle(lines)]
fn put_values<O: Output>(
    sink: &mut Sink,
    out: &mut O,
    level: usize,
    context: &Context<'_>,
    kind: Kind,
    label: &[u8],
    values: &Vec<Value>,
)
    requires low { level ≤ 202 }
    requires kind { NamesType (length context.now.pool.now.messages)
        (length context.now.pool.now.enums) kind }
    ensures { level + 2 * datums_depth (values_view values.now.items) ≤ 202
        → PutsSome O.written O.failures out.old out.new sink.old sink.new
        (AreEachLines context.now.form context.now.pool.now level kind label.now
        (values_view values.now.items)) }
{
    for value in values {
        put_value(sink, out, level, context, kind, label, value);
    }
}

/// The entries of a map, each as a message with a key and a value.
#[cycle(lines)]
fn put_entries<O: Output>(
    sink: &mut Sink,
    out: &mut O,
    level: usize,
    context: &Context<'_>,
    kind: Kind,
    label: &[u8],
    entries: &BTreeMap<MapKey, Value>,
)
    requires low { level ≤ 202 }
    requires kind { NamesType (length context.now.pool.now.messages)
        (length context.now.pool.now.enums) kind }
    ensures { level + 2 * entries_depth (entries_view entries.now.entries) ≤ 202
        → PutsSome O.written O.failures out.old out.new sink.old sink.new
        (AreEntriesLines context.now.form context.now.pool.now level kind label.now
        (entries_view entries.now.entries)) }
{
    for (key, value) in entries {
        put_start(sink, out, context.form.layout, level, label);
        put_pair(sink, out, level, context, kind, key, value);
        put_end(sink, out, context.form.layout, level);
    }
}

/// The key and the value of an entry, one level in.
#[cycle(lines)]
fn put_pair<O: Output>(
    sink: &mut Sink,
    out: &mut O,
    level: usize,
    context: &Context<'_>,
    kind: Kind,
    key: &MapKey,
    value: &Value,
)
    requires low { level ≤ 202 }
    requires kind { NamesType (length context.now.pool.now.messages)
        (length context.now.pool.now.enums) kind }
    ensures { level + 2 * suc (levels_in_entry (value_view value.now)) ≤ 202
        → PutsSome O.written O.failures out.old out.new sink.old sink.new
        (ArePairLines context.now.form context.now.pool.now (suc level) kind (key_view key.now)
        (value_view value.now)) }
{
    // No message nests so deep.
    if level < DEEPEST {
        put_key_line(sink, out, level + 1, context, key);
        put_value(sink, out, level + 1, context, kind, b"value", value);
    }
}

/// A value after a label.
#[cycle(lines)]
fn put_value<O: Output>(
    sink: &mut Sink,
    out: &mut O,
    level: usize,
    context: &Context<'_>,
    kind: Kind,
    label: &[u8],
    value: &Value,
)
    requires low { level ≤ 202 }
    requires kind { NamesType (length context.now.pool.now.messages)
        (length context.now.pool.now.enums) kind }
    ensures { level + 2 * levels_of (value_view value.now) ≤ 202 + 1
        → PutsSome O.written O.failures out.old out.new sink.old sink.new
        (AreDatumLines context.now.form context.now.pool.now level kind label.now
        (value_view value.now)) }
{
    let Value::Message(body) = value else {
        put_scalar_line(sink, out, level, context, kind, label, value);
        return;
    };
    put_start(sink, out, context.form.layout, level, label);
    put_inside(sink, out, level, context, kind, body);
    put_end(sink, out, context.form.layout, level);
}

/// The fields of a message of a kind, one level in.
#[cycle(lines)]
fn put_inside<O: Output>(
    sink: &mut Sink,
    out: &mut O,
    level: usize,
    context: &Context<'_>,
    kind: Kind,
    body: &Body,
)
    requires low { level ≤ 202 }
    requires kind { NamesType (length context.now.pool.now.messages)
        (length context.now.pool.now.enums) kind }
    ensures { suc level + 2 * message_depth (body_view body.now) ≤ 202
        → PutsSome O.written O.failures out.old out.new sink.old sink.new
        (AreInside context.now.form context.now.pool.now level (message_of_kind kind)
        (body_view body.now)) }
{
    let Some(id) = kind.message() else { return };
    // No message nests so deep.
    if level < DEEPEST {
        put_message(sink, out, level + 1, context, id, body);
    }
}

/// A field with a value that is no message.
fn put_scalar_line<O: Output>(
    sink: &mut Sink,
    out: &mut O,
    level: usize,
    context: &Context<'_>,
    kind: Kind,
    label: &[u8],
    value: &Value,
)
    requires low { level ≤ 202 }
    requires kind { NamesType (length context.now.pool.now.messages)
        (length context.now.pool.now.enums) kind }
    ensures { PutsSome O.written O.failures out.old out.new sink.old sink.new
        (AreScalarLines context.now.form context.now.pool.now level kind label.now
        (value_view value.now)) }
{
    put_indent(sink, out, context.form.layout, level);
    sink.put(out, label);
    sink.put(out, b": ");
    put_scalar(sink, out, context, kind, value);
    put_gap(sink, out, context.form.layout);
}

/// The key of an entry.
fn put_key_line<O: Output>(
    sink: &mut Sink,
    out: &mut O,
    level: usize,
    context: &Context<'_>,
    key: &MapKey,
)
    requires { level ≤ 202 }
    ensures { PutsSome O.written O.failures out.old out.new sink.old sink.new
        (IsKeyLine context.now.form level (key_view key.now)) }
{
    put_indent(sink, out, context.form.layout, level);
    sink.put(out, b"key: ");
    put_key(sink, out, context.form.characters, key);
    put_gap(sink, out, context.form.layout);
}
