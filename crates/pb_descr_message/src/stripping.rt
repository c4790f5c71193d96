//! Sets without what lenient reading leaves out: the messages of a set, changed in place.

ghost use Rattle.std.specs.Prelude.{◌≡◌, map, option_map};
ghost use Rattle.std.specs.List.{list_any};
ghost use Rattle.pb_value.specs.Data.{get_field, put_some, fields_of};
ghost use Rattle.pb_value.specs.Change.{ChangesFields};
ghost use Rattle.pb_value.specs.View.{body_view, content_view, value_view};
ghost use Rattle.pb_descr_message.specs.Held.{fields_in, data_at};
ghost use Rattle.pb_descr_message.specs.Without.{each_held, changed_at, is_required, is_enum_value, is_closed_entry, field_without, head_without};
ghost use Rattle.pb_descr_message.specs.Without.{message_without, inner_without, holding_without, file_without, without_parts};

use crate::declaring::{is_proto2, label_at};
use crate::held::{bool_inside, int_at, number_at, values_at};
use pb_value::bodies::take_field;
use pb_value::{Body, Content, Value};

/// The label of a field that has to be there.
const REQUIRED: i32 = 2;

/// The type number of an enum.
const ENUM: i32 = 14;

/// The field number of the value in the entry of a map.
const VALUE: i32 = 2;

/// Whether the label of a field is `required`.
pub(crate) fn is_required(field: &Value) -> bool
    ensures { result ≡ is_required (fields_in (value_view field.now)) }
{
    label_at(field) == REQUIRED
}

/// Whether a field of an entry is its value, and of an enum.
fn is_enum_value(field: &Value) -> bool
    ensures { result ≡ is_enum_value (value_view field.now) }
{
    if number_at(field, 3) != VALUE {
        return false;
    }
    match int_at(field, 5) {
        Some(number) => number == ENUM,
        None => false,
    }
}

/// Whether one of some fields is the value of an entry, and of an enum.
fn any_enum_value(fields: &[Value]) -> bool
    ensures { result ≡ list_any (λ field. is_enum_value (value_view field)) fields.now }
{
    fields.iter().any(|field| is_enum_value(field))
}

/// Whether the value of an entry is of an enum.
fn has_enum_value(entry: &Value) -> bool
    ensures { result ≡ list_any is_enum_value (data_at 2 (fields_in (value_view entry.now))) }
{
    any_enum_value(values_at(entry, 2))
}

/// Whether a message is the entry of a map of a closed enum.
pub(crate) fn is_closed_entry(message: &Value, proto2: bool) -> bool
    ensures { result ≡ is_closed_entry proto2 (fields_in (value_view message.now)) }
{
    bool_inside(message, 7, 7).unwrap_or(false) && proto2 && has_enum_value(message)
}

fn strip_field(field: &mut Value)
    ensures { value_view field.new ≡ field_without (value_view field.old) }
{
    let required = is_required(field);
    if let Value::Message(body) = field {
        if required {
            drop(take_field(body, 4));
        }
        drop(take_field(body, 7));
    }
}

fn strip_fields(fields: &mut [Value])
    ensures { map value_view fields.new ≡ map field_without (map value_view fields.old) }
{
    for field in fields.iter_mut() {
        strip_field(field);
    }
}

fn strip_field_list(content: &mut Content)
    ensures { content_view content.new ≡ each_held field_without (content_view content.old) }
{
    if let Content::List(fields) = content {
        strip_fields(fields);
    }
}

/// Strips the fields of a message.
fn strip_fields_in(message: &mut Body)
    ensures { ChangesFields (changed_at 2 field_without) (body_view message.old)
        (body_view message.new) }
{
    if let Some(content) = message.fields.get_mut(&2) {
        strip_field_list(content);
    }
}

/// Strips a message itself and its fields.
fn strip_head(message: &mut Body, closed: bool)
    ensures { ChangesFields (head_without closed) (body_view message.old) (body_view message.new) }
{
    if closed {
        drop(take_field(message, 7));
    }
    drop(take_field(message, 5));
    drop(take_field(message, 6));
    strip_fields_in(message);
}

#[cycle(strip)]
fn strip_message(message: &mut Value, proto2: bool)
    ensures { value_view message.new ≡ message_without proto2 (value_view message.old) }
{
    let closed = is_closed_entry(message, proto2);
    if let Value::Message(body) = message {
        strip_messages_in(body, 3, proto2);
        strip_head(body, closed);
    }
}

#[cycle(strip)]
fn strip_messages(messages: &mut [Value], proto2: bool)
    ensures { map value_view messages.new ≡ map (message_without proto2)
        (map value_view messages.old) }
{
    for message in messages.iter_mut() {
        strip_message(message, proto2);
    }
}

#[cycle(strip)]
fn strip_message_list(content: &mut Content, proto2: bool)
    ensures { content_view content.new ≡ holding_without proto2 (content_view content.old) }
{
    if let Content::List(messages) = content {
        strip_messages(messages, proto2);
    }
}

/// Strips the messages that a field of a message or a file holds.
#[cycle(strip)]
fn strip_messages_in(message: &mut Body, number: u32, proto2: bool)
    ensures { ChangesFields (λ fs. put_some number (inner_without proto2 number fs) fs)
        (body_view message.old) (body_view message.new) }
{
    if let Some(content) = message.fields.get_mut(&number) {
        strip_message_list(content, proto2);
    }
}

fn strip_file(file: &mut Value)
    ensures { value_view file.new ≡ file_without (value_view file.old) }
{
    let proto2 = is_proto2(file);
    if let Value::Message(body) = file {
        strip_messages_in(body, 4, proto2);
        drop(take_field(body, 7));
    }
}

fn strip_files(files: &mut [Value])
    ensures { map value_view files.new ≡ map file_without (map value_view files.old) }
{
    for file in files.iter_mut() {
        strip_file(file);
    }
}

fn strip_file_list(content: &mut Content)
    ensures { content_view content.new ≡ each_held file_without (content_view content.old) }
{
    if let Content::List(files) = content {
        strip_files(files);
    }
}

/// Takes out of a set what lenient reading leaves out.
pub fn strip_set(set: &mut Body)
    ensures { body_view set.new ≡ without_parts (body_view set.old) }
{
    if let Some(content) = set.fields.get_mut(&1) {
        strip_file_list(content);
    }
}
