//! A message as JSON.

ghost use Rattle.std.specs.Prelude.{◌≡◌, ◌⊎◌, ◌+◌, ◌*◌, ◌<◌, ◌≤◌, false, codes, length, true, ℕ, List, None, Some, IfErr, IfOk, IfSome, OnOk};
ghost use Rattle.pb_schema.specs.Rules.{NamesType};
ghost use Rattle.pb_schema.specs.Types.{message_fields};
ghost use Rattle.pb_value.specs.View.{body_view, content_view, entries_view, fields_view, value_view, values_view};
ghost use Rattle.pb_json.specs.Answers.{FailsAs, IsJsonOf, Prints, RefusedAs, Whole};
ghost use Rattle.pb_json.specs.Anys.{any_json, members_or_value, tagged};
ghost use Rattle.pb_json.specs.Json.{array, member, no_members, object};
ghost use Rattle.pb_json.specs.JsonText.{AreMembers, IsJsonText};
ghost use Rattle.pb_json.specs.Mapping.{absent_json, datum_json, elements_json, entries_json, fields_json, holding_json, message_here, message_json};
ghost use Rattle.pb_json.specs.Mapping.{only_json, wrapper_default};
ghost use Rattle.pb_json.specs.WellKnown.{declares_any, is_plain, well_known as form_of};

use crate::anys::{is_unset, open_any, type_url};
use crate::context::{Context, Place};
use crate::error::JsonError;
use crate::form::JsonForm;
use crate::judging::{LEVELS, judge_json};
use crate::masks::put_mask;
use crate::names::{put_entry_start, put_field_start, put_type, put_value_start};
use crate::scalars::put_scalar;
use crate::strings::{put_closing, put_line, put_separator};
use crate::times::{put_duration, put_timestamp};
use crate::well_known::{WellKnown, declares_any, is_plain, well_known};
use pb_output::Sink;
use pb_schema::{Kind, MessageId, Pool};
use pb_value::{Body, Content, DynamicMessage, MapKey, MessageRef, Value, default_value};
use pb_wire::{FailurePlan, MemOutput, Output};
use std::alloc::{AllocError, Global};
use std::collections::BTreeMap;

/// Writes a message as JSON, in a form. Where a part of the message has no JSON form, the answer says which, and nothing is written.
///
/// A message of a pool that declares `google.protobuf.Any` is written in memory first, so nothing is written where that runs out.
pub fn write_json<O: Output>(
    out: &mut O,
    alloc: Global,
    message: &MessageRef<'_>,
    form: JsonForm<'_>,
) -> Result<(), JsonError>
    ensures written { OnOk result (Whole O.written O.failures out.old out.new form.entry message.now) }
    ensures failed { IfErr result (FailsAs O.written O.failures out.old out.new form.entry message.now) }
{
    let mut sink = Sink::new();
    put_json(&mut sink, out, alloc, message, form)?;
    match sink.finish(out) {
        Ok(()) => Ok(()),
        Err(_) => Err(JsonError::Output),
    }
}

/// Puts a message as JSON, as `write_json` writes it. Where a part of the message has no JSON form, the answer says which, and nothing is put.
pub fn put_json<O: Output>(
    sink: &mut Sink,
    out: &mut O,
    alloc: Global,
    message: &MessageRef<'_>,
    form: JsonForm<'_>,
) -> Result<(), JsonError>
    ensures put { OnOk result (Prints O.written O.failures out.old out.new sink.old sink.new (IsJsonOf form.entry message.now)) }
    ensures failed { IfErr result (λ e. RefusedAs message.now e × (out.new ≡ out.old) × (sink.new ≡ sink.old)) }
{
    judge_json(alloc, message)?;
    let body = message.body();
    let pool = message.pool();
    let id = message.message_type();
    let context = Context { alloc, pool, form };
    put_judged(sink, out, &context, id, body)?;
    Ok(())
}

/// A message that has a JSON form. Only one of types with Any takes memory.
fn put_judged<O: Output>(
    sink: &mut Sink,
    out: &mut O,
    context: &Context<'_>,
    id: MessageId,
    body: &Body,
) -> Result<(), AllocError>
    requires within { id.0 < length context.now.pool.now.messages }
    ensures put { OnOk result (Prints O.written O.failures out.old out.new sink.old sink.new
        (IsJsonText context.now.form.layout 0 (message_json context.now.pool.now context.now.form.names LEVELS id.0 (body_view body.now)))) }
    ensures memory { IfErr result (λ _. declares_any context.now.pool.now ≡ true) }
    ensures kept { IfErr result (λ _. (out.new ≡ out.old) × (sink.new ≡ sink.old)) }
{
    if declares_any(context.pool) {
        put_from_memory(sink, out, context, id, body)
    } else {
        put_at_once(sink, out, context, id, body);
        Ok(())
    }
}

/// A message of types without Any.
fn put_at_once<O: Output>(
    sink: &mut Sink,
    out: &mut O,
    context: &Context<'_>,
    id: MessageId,
    body: &Body,
)
    requires within { id.0 < length context.now.pool.now.messages }
    requires no_any { declares_any context.now.pool.now ≡ false }
    ensures { Prints O.written O.failures out.old out.new sink.old sink.new
        (IsJsonText context.now.form.layout 0 (message_json context.now.pool.now context.now.form.names LEVELS id.0 (body_view body.now))) }
{
    let at = Place {
        levels: LEVELS,
        indent: 0,
    };
    // Only the message in an Any takes memory.
    let _put = put_message(sink, out, context, at, id, body);
}

/// A message that is written in memory first.
fn put_from_memory<O: Output>(
    sink: &mut Sink,
    out: &mut O,
    context: &Context<'_>,
    id: MessageId,
    body: &Body,
) -> Result<(), AllocError>
    requires within { id.0 < length context.now.pool.now.messages }
    ensures put { OnOk result (Prints O.written O.failures out.old out.new sink.old sink.new
        (IsJsonText context.now.form.layout 0 (message_json context.now.pool.now context.now.form.names LEVELS id.0 (body_view body.now)))) }
    ensures memory { IfErr result (λ _. (out.new ≡ out.old) × (sink.new ≡ sink.old)) }
{
    let text = json_in_memory(context, id, body)?;
    sink.put(out, text.bytes());
    Ok(())
}

/// The JSON of a message, in memory.
fn json_in_memory(
    context: &Context<'_>,
    id: MessageId,
    body: &Body,
) -> Result<MemOutput, AllocError>
    requires within { id.0 < length context.now.pool.now.messages }
    ensures { IfOk result (λ text. (s : List ℕ) × (⟦<MemOutput as Output>⟧.written text ≡ Some s)
        × IsJsonText context.now.form.layout 0 (message_json context.now.pool.now context.now.form.names LEVELS id.0 (body_view body.now)) s) }
{
    let at = Place {
        levels: LEVELS,
        indent: 0,
    };
    let mut text = MemOutput::new(context.alloc, usize::MAX, FailurePlan::NEVER);
    let mut sink = Sink::new();
    put_message(&mut sink, &mut text, context, at, id, body)?;
    match sink.finish(&mut text) {
        Ok(()) => Ok(text),
        Err(_) => Err(AllocError),
    }
}

/// A message of at most as many levels as the place allows, at a place.
#[cycle(json)]
fn put_message<O: Output>(
    sink: &mut Sink,
    out: &mut O,
    context: &Context<'_>,
    at: Place,
    id: MessageId,
    body: &Body,
) -> Result<(), AllocError>
    requires line { at.indent + 2 * at.levels ≤ 202 }
    requires within { id.0 < length context.now.pool.now.messages }
    ensures put { OnOk result (Prints O.written O.failures out.old out.new sink.old sink.new
        (IsJsonText context.now.form.layout at.indent (message_json context.now.pool.now context.now.form.names at.levels id.0 (body_view body.now)))) }
    ensures memory { IfErr result (λ _. declares_any context.now.pool.now ≡ true) }
{
    // Only a message in an Any is nested so deep.
    if at.levels == 0 {
        sink.put(out, b"null");
        return Ok(());
    }
    let inside = Place {
        levels: at.levels - 1,
        indent: at.indent,
    };
    put_here(sink, out, context, inside, id, body)
}

/// A message, in which messages of at most as many levels as the place allows may be nested.
#[cycle(json)]
fn put_here<O: Output>(
    sink: &mut Sink,
    out: &mut O,
    context: &Context<'_>,
    at: Place,
    id: MessageId,
    body: &Body,
) -> Result<(), AllocError>
    requires line { at.indent + 2 * at.levels ≤ 200 }
    requires within { id.0 < length context.now.pool.now.messages }
    ensures put { OnOk result (Prints O.written O.failures out.old out.new sink.old sink.new
        (IsJsonText context.now.form.layout at.indent (message_here context.now.pool.now context.now.form.names
        (message_json context.now.pool.now context.now.form.names at.levels) id.0 (body_view body.now)))) }
    ensures memory { IfErr result (λ _. declares_any context.now.pool.now ≡ true) }
{
    match well_known(context.pool, id) {
        WellKnown::Other => put_object(sink, out, context, at, id, &body.fields),
        WellKnown::Timestamp => {
            put_timestamp(sink, out, &body.fields);
            Ok(())
        }
        WellKnown::Duration => {
            put_duration(sink, out, &body.fields);
            Ok(())
        }
        WellKnown::FieldMask => {
            put_mask(sink, out, &body.fields);
            Ok(())
        }
        WellKnown::Any => put_any(sink, out, context, at, &body.fields),
        WellKnown::Wrapper | WellKnown::Struct | WellKnown::ListValue | WellKnown::Value => {
            put_only(sink, out, context, at, id, &body.fields)
        }
    }
}

/// An object with a member for each field.
#[cycle(json)]
fn put_object<O: Output>(
    sink: &mut Sink,
    out: &mut O,
    context: &Context<'_>,
    at: Place,
    id: MessageId,
    fields: &BTreeMap<u32, Content>,
) -> Result<(), AllocError>
    requires line { at.indent + 2 * at.levels ≤ 200 }
    requires within { id.0 < length context.now.pool.now.messages }
    ensures put { OnOk result (Prints O.written O.failures out.old out.new sink.old sink.new
        (IsJsonText context.now.form.layout at.indent (object (fields_json context.now.pool.now context.now.form.names
        (message_json context.now.pool.now context.now.form.names at.levels) id.0 (fields_view fields.now.entries))))) }
    ensures memory { IfErr result (λ _. declares_any context.now.pool.now ≡ true) }
{
    sink.put(out, b"{");
    put_members(sink, out, context, at, id, fields, true)
}

/// A member for each field, and the end of the object.
#[cycle(json)]
fn put_members<O: Output>(
    sink: &mut Sink,
    out: &mut O,
    context: &Context<'_>,
    at: Place,
    id: MessageId,
    fields: &BTreeMap<u32, Content>,
    is_first: bool,
) -> Result<(), AllocError>
    requires line { at.indent + 2 * at.levels ≤ 200 }
    requires within { id.0 < length context.now.pool.now.messages }
    ensures put { OnOk result (Prints O.written O.failures out.old out.new sink.old sink.new
        (AreMembers context.now.form.layout at.indent is_first (fields_json context.now.pool.now context.now.form.names
        (message_json context.now.pool.now context.now.form.names at.levels) id.0 (fields_view fields.now.entries)))) }
    ensures memory { IfErr result (λ _. declares_any context.now.pool.now ≡ true) }
{
    let form = context.form;
    let line = Place {
        levels: at.levels,
        indent: at.indent + 1,
    };
    let mut is_first = is_first;
    for (number, content) in fields {
        if let Some(field) = context.pool.field_by_number(id, *number) {
            put_field_start(sink, out, form, line.indent, is_first, id, field);
            put_content(sink, out, context, line, field.kind, content)?;
            is_first = false;
        }
    }
    put_closing(sink, out, form.layout, at.indent, is_first, b"}");
    Ok(())
}

/// An Any.
#[cycle(json)]
fn put_any<O: Output>(
    sink: &mut Sink,
    out: &mut O,
    context: &Context<'_>,
    at: Place,
    fields: &BTreeMap<u32, Content>,
) -> Result<(), AllocError>
    requires line { at.indent + 2 * at.levels ≤ 200 }
    ensures { OnOk result (Prints O.written O.failures out.old out.new sink.old sink.new
        (IsJsonText context.now.form.layout at.indent (any_json context.now.pool.now
        (message_json context.now.pool.now context.now.form.names at.levels) (fields_view fields.now.entries)))) }
{
    if is_unset(fields) {
        sink.put(out, b"{}");
        return Ok(());
    }
    match open_any(context.alloc, context.pool, fields)? {
        Some(message) => put_opened(sink, out, context, at, type_url(fields), &message),
        None => {
            sink.put(out, b"null");
            Ok(())
        }
    }
}

/// The message in an Any, and the URL of its type.
#[cycle(json)]
fn put_opened<O: Output>(
    sink: &mut Sink,
    out: &mut O,
    context: &Context<'_>,
    at: Place,
    url: &str,
    message: &DynamicMessage<'_>,
) -> Result<(), AllocError>
    requires line { at.indent + 2 * at.levels ≤ 200 }
    requires same { message.now.pool ≡ context.now.pool.now }
    ensures { OnOk result (Prints O.written O.failures out.old out.new sink.old sink.new
        (IsJsonText context.now.form.layout at.indent (tagged url.now (members_or_value (is_plain (form_of context.now.pool.now message.now.kind))
        (message_json context.now.pool.now context.now.form.names at.levels message.now.kind message.now.body))))) }
{
    let layout = context.form.layout;
    let id = message.message_type();
    let body = message.body();
    put_type(sink, out, layout, at.indent + 1, url);
    match levels_in_members(context.pool, at.levels, id) {
        Some(levels) => {
            let inside = Place {
                levels,
                indent: at.indent,
            };
            put_members(sink, out, context, inside, id, &body.fields, false)
        }
        None => put_form(sink, out, context, at, id, body),
    }
}

/// The form of the message in an Any, as the last member.
#[cycle(json)]
fn put_form<O: Output>(
    sink: &mut Sink,
    out: &mut O,
    context: &Context<'_>,
    at: Place,
    id: MessageId,
    body: &Body,
) -> Result<(), AllocError>
    requires line { at.indent + 2 * at.levels ≤ 200 }
    requires within { id.0 < length context.now.pool.now.messages }
    ensures { OnOk result (Prints O.written O.failures out.old out.new sink.old sink.new
        (AreMembers context.now.form.layout at.indent false (member (codes "value") (message_json context.now.pool.now context.now.form.names
        at.levels id.0 (body_view body.now)) no_members))) }
{
    let layout = context.form.layout;
    let line = Place {
        levels: at.levels,
        indent: at.indent + 1,
    };
    put_value_start(sink, out, layout, line.indent);
    put_message(sink, out, context, line, id, body)?;
    put_closing(sink, out, layout, at.indent, false, b"}");
    Ok(())
}

/// The levels in the members of a message of a type, of at most this many levels, where it is written by its members.
fn levels_in_members(pool: &Pool, levels: usize, id: MessageId) -> Option<usize>
    requires { id.0 < length pool.now.messages }
    ensures some { IfSome result (λ n. (levels ≡ n + 1) × (is_plain (form_of pool.now id.0) ≡ true)) }
    ensures none { result ≡ None → (levels ≡ 0) ⊎ (is_plain (form_of pool.now id.0) ≡ false) }
{
    if levels == 0 {
        return None;
    }
    if is_plain(well_known(pool, id)) {
        Some(levels - 1)
    } else {
        None
    }
}

/// What the one field of a message holds, or what the type is without it.
#[cycle(json)]
fn put_only<O: Output>(
    sink: &mut Sink,
    out: &mut O,
    context: &Context<'_>,
    at: Place,
    id: MessageId,
    fields: &BTreeMap<u32, Content>,
) -> Result<(), AllocError>
    requires line { at.indent + 2 * at.levels ≤ 200 }
    requires within { id.0 < length context.now.pool.now.messages }
    ensures put { OnOk result (Prints O.written O.failures out.old out.new sink.old sink.new
        (IsJsonText context.now.form.layout at.indent (only_json context.now.pool.now context.now.form.names
        (message_json context.now.pool.now context.now.form.names at.levels) (form_of context.now.pool.now id.0)
        (message_fields context.now.pool.now id.0) (fields_view fields.now.entries)))) }
    ensures memory { IfErr result (λ _. declares_any context.now.pool.now ≡ true) }
{
    for (number, content) in fields {
        match context.pool.field_by_number(id, *number) {
            Some(field) => return put_content(sink, out, context, at, field.kind, content),
            None => {
                sink.put(out, b"null");
                return Ok(());
            }
        }
    }
    put_absent(sink, out, context, at.indent, id);
    Ok(())
}

/// What a type with a form of its own is where no field is set.
fn put_absent<O: Output>(
    sink: &mut Sink,
    out: &mut O,
    context: &Context<'_>,
    indent: usize,
    id: MessageId,
)
    requires within { id.0 < length context.now.pool.now.messages }
    ensures { Prints O.written O.failures out.old out.new sink.old sink.new
        (IsJsonText context.now.form.layout indent
        (absent_json context.now.pool.now (form_of context.now.pool.now id.0) (message_fields context.now.pool.now id.0))) }
{
    match well_known(context.pool, id) {
        WellKnown::Wrapper => put_default(sink, out, context, indent, id),
        WellKnown::Struct => sink.put(out, b"{}"),
        WellKnown::ListValue => sink.put(out, b"[]"),
        WellKnown::Value | WellKnown::Other | WellKnown::Any => sink.put(out, b"null"),
        WellKnown::Timestamp | WellKnown::Duration | WellKnown::FieldMask => sink.put(out, b"null"),
    }
}

/// The default of a wrapper's field.
fn put_default<O: Output>(
    sink: &mut Sink,
    out: &mut O,
    context: &Context<'_>,
    indent: usize,
    id: MessageId,
)
    requires within { id.0 < length context.now.pool.now.messages }
    ensures { Prints O.written O.failures out.old out.new sink.old sink.new
        (IsJsonText context.now.form.layout indent (wrapper_default context.now.pool.now (message_fields context.now.pool.now id.0))) }
{
    let Some(field) = context.pool.field_by_number(id, 1) else {
        sink.put(out, b"null");
        return;
    };
    match default_value(context.alloc, field.kind) {
        Some(value) => put_scalar(sink, out, context, indent, field.kind, &value),
        None => sink.put(out, b"null"),
    }
}

/// What a field holds.
#[cycle(json)]
fn put_content<O: Output>(
    sink: &mut Sink,
    out: &mut O,
    context: &Context<'_>,
    at: Place,
    kind: Kind,
    content: &Content,
) -> Result<(), AllocError>
    requires line { at.indent + 2 * at.levels ≤ 201 }
    requires kind { NamesType (length context.now.pool.now.messages) (length context.now.pool.now.enums) kind }
    ensures put { OnOk result (Prints O.written O.failures out.old out.new sink.old sink.new
        (IsJsonText context.now.form.layout at.indent (holding_json context.now.pool.now context.now.form.names
        (message_json context.now.pool.now context.now.form.names at.levels) kind (content_view content.now)))) }
    ensures memory { IfErr result (λ _. declares_any context.now.pool.now ≡ true) }
{
    match content {
        Content::One(value) => put_value(sink, out, context, at, kind, value),
        Content::List(values) => put_values(sink, out, context, at, kind, values),
        Content::Map(entries) => put_entries(sink, out, context, at, kind, entries),
    }
}

/// The elements of a list as an array.
#[cycle(json)]
fn put_values<O: Output>(
    sink: &mut Sink,
    out: &mut O,
    context: &Context<'_>,
    at: Place,
    kind: Kind,
    values: &Vec<Value>,
) -> Result<(), AllocError>
    requires line { at.indent + 2 * at.levels ≤ 201 }
    requires kind { NamesType (length context.now.pool.now.messages) (length context.now.pool.now.enums) kind }
    ensures put { OnOk result (Prints O.written O.failures out.old out.new sink.old sink.new
        (IsJsonText context.now.form.layout at.indent (array (elements_json context.now.pool.now context.now.form.names
        (message_json context.now.pool.now context.now.form.names at.levels) kind (values_view values.now.items))))) }
    ensures memory { IfErr result (λ _. declares_any context.now.pool.now ≡ true) }
{
    let layout = context.form.layout;
    let line = Place {
        levels: at.levels,
        indent: at.indent + 1,
    };
    sink.put(out, b"[");
    let mut is_first = true;
    for value in values {
        put_separator(sink, out, is_first);
        put_line(sink, out, layout, line.indent);
        put_value(sink, out, context, line, kind, value)?;
        is_first = false;
    }
    put_closing(sink, out, layout, at.indent, is_first, b"]");
    Ok(())
}

/// The entries of a map as an object.
#[cycle(json)]
fn put_entries<O: Output>(
    sink: &mut Sink,
    out: &mut O,
    context: &Context<'_>,
    at: Place,
    kind: Kind,
    entries: &BTreeMap<MapKey, Value>,
) -> Result<(), AllocError>
    requires line { at.indent + 2 * at.levels ≤ 201 }
    requires kind { NamesType (length context.now.pool.now.messages) (length context.now.pool.now.enums) kind }
    ensures put { OnOk result (Prints O.written O.failures out.old out.new sink.old sink.new
        (IsJsonText context.now.form.layout at.indent (object (entries_json context.now.pool.now context.now.form.names
        (message_json context.now.pool.now context.now.form.names at.levels) kind (entries_view entries.now.entries))))) }
    ensures memory { IfErr result (λ _. declares_any context.now.pool.now ≡ true) }
{
    let layout = context.form.layout;
    let line = Place {
        levels: at.levels,
        indent: at.indent + 1,
    };
    sink.put(out, b"{");
    let mut is_first = true;
    for (key, value) in entries {
        put_entry_start(sink, out, layout, line.indent, is_first, key);
        put_value(sink, out, context, line, kind, value)?;
        is_first = false;
    }
    put_closing(sink, out, layout, at.indent, is_first, b"}");
    Ok(())
}

/// A value of a kind.
#[cycle(json)]
fn put_value<O: Output>(
    sink: &mut Sink,
    out: &mut O,
    context: &Context<'_>,
    at: Place,
    kind: Kind,
    value: &Value,
) -> Result<(), AllocError>
    requires line { at.indent + 2 * at.levels ≤ 202 }
    requires kind { NamesType (length context.now.pool.now.messages) (length context.now.pool.now.enums) kind }
    ensures put { OnOk result (Prints O.written O.failures out.old out.new sink.old sink.new
        (IsJsonText context.now.form.layout at.indent (datum_json context.now.pool.now context.now.form.names
        (message_json context.now.pool.now context.now.form.names at.levels) kind (value_view value.now)))) }
    ensures memory { IfErr result (λ _. declares_any context.now.pool.now ≡ true) }
{
    let Value::Message(body) = value else {
        put_scalar(sink, out, context, at.indent, kind, value);
        return Ok(());
    };
    match kind.message() {
        Some(id) => put_message(sink, out, context, at, id, body),
        None => {
            sink.put(out, b"null");
            Ok(())
        }
    }
}
