//! The rules of names.

ghost use Rattle.std.specs.Prelude.{◌↔◌, IsTrue, IfOk, map, string_bytes};
ghost use Rattle.std.specs.List.{AllByRecursion};
ghost use Rattle.pb_schema.specs.View.{message_view, enum_view, field_view};
ghost use Rattle.pb_schema.specs.Names.{is_word, names_of_field};
ghost use Rattle.pb_schema.specs.Rules.{AreWords, MessageIsOfWords, MessageNamesAreWords, EnumIsOfWords, EnumNamesAreWords};

use crate::names::entry_name;
use crate::names::words::is_word;
use crate::types::{EnumType, Field, MessageType, Shape};
use std::alloc::{AllocError, Global};

fn field_is_of_words(alloc: Global, field: &Field) -> Result<bool, AllocError>
    ensures { IfOk result (λ holds. IsTrue holds ↔ AreWords (names_of_field (field_view field.now))) }
{
    if !is_word(field.name.as_str().as_bytes()) {
        return Ok(false);
    }
    match field.shape {
        Shape::Map { key: _ } => {
            let entry = entry_name(alloc, field.name.as_str().as_bytes())?;
            Ok(is_word(&entry))
        }
        _ => Ok(true),
    }
}

fn fields_are_of_words(alloc: Global, fields: &[Field]) -> Result<bool, AllocError>
    ensures { IfOk result (λ holds. IsTrue holds ↔ AllByRecursion (λ f. AreWords (names_of_field f)) (map field_view fields.now)) }
{
    for field in fields {
        let holds = field_is_of_words(alloc, field)?;
        if !holds {
            return Ok(false);
        }
    }
    Ok(true)
}

fn are_words(names: &[String]) -> bool
    ensures { IsTrue result ↔ AreWords (map string_bytes names.now) }
{
    for name in names {
        if !is_word(name.as_str().as_bytes()) {
            return false;
        }
    }
    true
}

fn message_is_of_words(alloc: Global, message: &MessageType) -> Result<bool, AllocError>
    ensures { IfOk result (λ holds. IsTrue holds ↔ MessageIsOfWords (message_view message.now)) }
{
    let fields = fields_are_of_words(alloc, &message.fields)?;
    Ok(is_word(message.name.as_str().as_bytes()) && fields && are_words(&message.oneofs))
}

pub(crate) fn message_names_are_words(
    alloc: Global,
    messages: &[MessageType],
) -> Result<bool, AllocError>
    ensures { IfOk result (λ holds. IsTrue holds ↔ MessageNamesAreWords (map message_view messages.now)) }
{
    for message in messages {
        let holds = message_is_of_words(alloc, message)?;
        if !holds {
            return Ok(false);
        }
    }
    Ok(true)
}

fn values_are_of_words(values: &[(String, i32)]) -> bool
    ensures { IsTrue result ↔ AreWords (map (λ v. string_bytes v.0) values.now) }
{
    for value in values {
        if !is_word(value.0.as_str().as_bytes()) {
            return false;
        }
    }
    true
}

fn enum_is_of_words(entry: &EnumType) -> bool
    ensures { IsTrue result ↔ EnumIsOfWords (enum_view entry.now) }
{
    is_word(entry.name.as_str().as_bytes()) && values_are_of_words(&entry.values)
}

pub(crate) fn enum_names_are_words(enums: &[EnumType]) -> bool
    ensures { IsTrue result ↔ EnumNamesAreWords (map enum_view enums.now) }
{
    for entry in enums {
        if !enum_is_of_words(entry) {
            return false;
        }
    }
    true
}
