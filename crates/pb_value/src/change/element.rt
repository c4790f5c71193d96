//! One element of a list: another value in its place, or one less.

ghost use Rattle.std.specs.Prelude.{◌≡◌, ◌<◌, length, IfOk, OnOk, OnErr, option_and_then, option_map};
ghost use Rattle.pb_value.specs.Cause.{IsRefusedBy};
ghost use Rattle.pb_value.specs.Change.{ChangesFields, push_cause, in_field, in_list};
ghost use Rattle.pb_value.specs.Change.{drop_nth, holds_empty_list, is_empty_list, put_datum, put_nth, take_nth};
ghost use Rattle.pb_value.specs.Data.{fields_of, get_field};
ghost use Rattle.pb_value.specs.Inner.{datum_at, nth_datum};
ghost use Rattle.pb_value.specs.View.{body_view, content_view, value_view, values_view};
ghost use Rattle.pb_value.specs.WellFormed.{IsWellFormed};

use crate::body::{Body, Content, Value};
use crate::change::clear_field;
use crate::change::push::check_element;
use crate::error::ValueError;
use pb_schema::{MessageId, Pool};
use std::alloc::Global;
use std::mem;

/// Puts a value in place of the element at an index. The answer is the one that was there.
fn put_in_list(values: &mut Vec<Value>, index: usize, value: Value) -> Option<Value>
    ensures left { values_view values.new.items
        ≡ put_datum index (value_view value) (values_view values.old.items) }
    ensures taken { option_map value_view result ≡ nth_datum (values_view values.old.items) index }
{
    match values.get_mut(index) {
        Some(element) => Some(mem::replace(element, value)),
        None => None,
    }
}

/// The same of a content that is a list.
fn put_in(content: &mut Content, index: usize, value: Value) -> Option<Value>
    ensures left { content_view content.new ≡ in_list (put_datum index (value_view value))
        (content_view content.old) }
    ensures taken { option_map value_view result ≡ datum_at index (content_view content.old) }
{
    match content {
        Content::List(values) => put_in_list(values, index, value),
        _ => None,
    }
}

/// The same of the list of a number.
fn put_element(body: &mut Body, number: u32, index: usize, value: Value) -> Option<Value>
    ensures left { ChangesFields (put_nth number index (value_view value)) (body_view body.old)
        (body_view body.new) }
    ensures taken { option_map value_view result
        ≡ option_and_then (datum_at index) (get_field number (fields_of (body_view body.old))) }
{
    match body.fields.get_mut(&number) {
        Some(content) => put_in(content, index, value),
        None => None,
    }
}

/// Takes the element at an index out of a list.
fn take_from_list(values: &mut Vec<Value>, index: usize) -> Option<Value>
    ensures left { values_view values.new.items ≡ drop_nth index (values_view values.old.items) }
    ensures taken { option_map value_view result ≡ nth_datum (values_view values.old.items) index }
{
    if index >= values.len() {
        return None;
    }
    Some(values.remove(index))
}

/// The same of a content that is a list.
fn take_from(content: &mut Content, index: usize) -> Option<Value>
    ensures left { content_view content.new ≡ in_list (drop_nth index) (content_view content.old) }
    ensures taken { option_map value_view result ≡ datum_at index (content_view content.old) }
{
    match content {
        Content::List(values) => take_from_list(values, index),
        _ => None,
    }
}

/// The same of the list of a number. The list that is left may be empty.
fn take_element(body: &mut Body, number: u32, index: usize) -> Option<Value>
    ensures left { ChangesFields (in_field (in_list (drop_nth index)) number) (body_view body.old)
        (body_view body.new) }
    ensures taken { option_map value_view result
        ≡ option_and_then (datum_at index) (get_field number (fields_of (body_view body.old))) }
{
    match body.fields.get_mut(&number) {
        Some(content) => take_from(content, index),
        None => None,
    }
}

/// Whether a content is an empty list.
fn is_empty_list(content: &Content) -> bool
    ensures { result ≡ is_empty_list (content_view content.now) }
{
    match content {
        Content::List(values) => values.is_empty(),
        _ => false,
    }
}

/// Whether the field of a number holds an empty list.
fn has_empty_list(body: &Body, number: u32) -> bool
    ensures { result ≡ holds_empty_list (get_field number (fields_of (body_view body.now))) }
{
    match body.fields.get(&number) {
        Some(content) => is_empty_list(content),
        None => false,
    }
}

/// Takes the element at an index out of the list of a number, and the list with it if no element is left. A well-formed message stays so.
pub(crate) fn remove_element(body: &mut Body, number: u32, index: usize) -> Option<Value>
    ensures left { ChangesFields (take_nth number index) (body_view body.old) (body_view body.new) }
    ensures taken { option_map value_view result
        ≡ option_and_then (datum_at index) (get_field number (fields_of (body_view body.old))) }
{
    let taken = take_element(body, number, index);
    if has_empty_list(body, number) {
        clear_field(body, number);
    }
    taken
}

/// Puts a value in place of the element at an index of the list of a number of a well-formed message, and returns the value that was there. Without
/// such an element nothing changes. The value is judged as by [`DynamicMessage::push`](crate::DynamicMessage::push).
pub(crate) fn set_element(
    alloc: Global,
    pool: &Pool,
    message_type: MessageId,
    message: &mut Body,
    number: u32,
    index: usize,
    value: Value,
) -> Result<Option<Value>, ValueError>
    requires within { message_type.0 < length pool.now.messages }
    requires well_formed { IsWellFormed pool.now message_type.0 (body_view message.old) }
    ensures ok { OnOk result (ChangesFields (put_nth number index (value_view value))
        (body_view message.old) (body_view message.new)) }
    ensures taken { IfOk result (λ v. option_map value_view v
        ≡ option_and_then (datum_at index) (get_field number (fields_of (body_view message.old)))) }
    ensures err { OnErr result (body_view message.new ≡ body_view message.old) }
    ensures judged { IsRefusedBy result
        (push_cause pool.now message_type.0 number (value_view value)) }
    ensures well_formed { IsWellFormed pool.now message_type.0 (body_view message.new) }
{
    check_element(alloc, pool, message_type, number, &value)?;
    Ok(put_element(message, number, index, value))
}
