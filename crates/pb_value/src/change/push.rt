//! One more element of a list.

ghost use Rattle.std.specs.Prelude.{◌≡◌, ◌<◌, length, OnOk, OnErr, IfOk, IfErr, None, Some};
ghost use Rattle.pb_value.specs.Change.{ChangesFields, pushed, push_at, push_cause, IsElement};
ghost use Rattle.pb_value.specs.Cause.{IsRefusedBy};
ghost use Rattle.pb_value.specs.WellFormed.{IsWellFormed};
ghost use Rattle.pb_value.specs.View.{body_view, content_view, value_view};
ghost use Rattle.pb_value.specs.declared.error.ValueError.TheVariants.{Memory};

use crate::body::{Body, Content, Value};
use crate::change::put_field;
use crate::error::ValueError;
use crate::judge::check::check_value;
use crate::judge::declared::is_declared;
use crate::judge::depth::{MAX_LEVELS, value_within};
use crate::judge::is_value_of;
use crate::lookup::field_at;
use pb_schema::{MessageId, Pool, Shape};
use std::alloc::Global;

/// Whether a value can be an element of the list of a number.
pub(crate) fn check_element(
    alloc: Global,
    pool: &Pool,
    message_type: MessageId,
    number: u32,
    value: &Value,
) -> Result<(), ValueError>
    requires { message_type.0 < length pool.now.messages }
    ensures judged { IsRefusedBy result (push_cause pool.now message_type.0 number (value_view value.now)) }
    ensures fits { IfOk result (λ _. IsElement pool.now message_type.0 number (value_view value.now)) }
{
    let Some(field) = field_at(pool, message_type, number) else {
        return Err(ValueError::NoSuchField);
    };
    if !is_value_of(field.kind, value) {
        return Err(ValueError::WrongKind);
    }
    if !matches!(field.shape, Shape::List { packed: _ }) {
        return Err(ValueError::WrongShape);
    }
    if !is_declared(pool, field.kind, value) {
        return Err(ValueError::NoSuchValue);
    }
    check_value(alloc, pool, field.kind, value)?;
    if !value_within(value, MAX_LEVELS) {
        return Err(ValueError::TooDeep);
    }
    Ok(())
}

/// A list of one.
fn list_of(alloc: Global, value: Value) -> Result<Content, ValueError>
    ensures made { IfOk result (λ c. content_view c ≡ pushed (value_view value) None) }
    ensures memory { IfErr result (λ e. e ≡ Memory) }
{
    let mut list = Vec::new(alloc);
    list.push(value)?;
    Ok(Content::List(list))
}

/// Puts a value at the end of a list. What is no list becomes a list of one; a field that was judged a list holds nothing else.
#[inline(always)]
fn append(alloc: Global, content: &mut Content, value: Value) -> Result<(), ValueError>
    ensures ok { OnOk result (content_view content.new ≡ pushed (value_view value) (Some (content_view content.old))) }
    ensures err { OnErr result (content_view content.new ≡ content_view content.old) }
    ensures memory { IfErr result (λ e. e ≡ Memory) }
{
    match content {
        Content::List(values) => {
            values.push(value)?;
            Ok(())
        }
        _ => {
            *content = list_of(alloc, value)?;
            Ok(())
        }
    }
}

/// Puts a value at the end of the list of a number. Where there is no list, the field then holds a list of one.
#[inline(always)]
pub fn push_element(
    alloc: Global,
    message: &mut Body,
    number: u32,
    value: Value,
) -> Result<(), ValueError>
    ensures ok { OnOk result (ChangesFields (push_at number (value_view value)) (body_view message.old) (body_view message.new)) }
    ensures err { OnErr result (body_view message.new ≡ body_view message.old) }
    ensures memory { IfErr result (λ e. e ≡ Memory) }
{
    match message.fields.get_mut(&number) {
        Some(content) => append(alloc, content, value),
        None => {
            let content = list_of(alloc, value)?;
            put_field(message, number, content)
        }
    }
}

/// Puts a value at the end of the list of a number of a well-formed message, as
/// [`DynamicMessage::push`](crate::DynamicMessage::push) does.
pub(crate) fn push_value(
    alloc: Global,
    pool: &Pool,
    message_type: MessageId,
    message: &mut Body,
    number: u32,
    value: Value,
) -> Result<(), ValueError>
    requires within { message_type.0 < length pool.now.messages }
    requires well_formed { IsWellFormed pool.now message_type.0 (body_view message.old) }
    ensures ok { OnOk result (ChangesFields (push_at number (value_view value))
        (body_view message.old) (body_view message.new)) }
    ensures err { OnErr result (body_view message.new ≡ body_view message.old) }
    ensures judged { IsRefusedBy result
        (push_cause pool.now message_type.0 number (value_view value)) }
    ensures well_formed { IsWellFormed pool.now message_type.0 (body_view message.new) }
{
    check_element(alloc, pool, message_type, number, &value)?;
    push_element(alloc, message, number, value)
}
