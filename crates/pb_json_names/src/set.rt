//! The names that the fields of a pool are given in JSON by a descriptor set.

ghost use Rattle.std.specs.Prelude.{◌≡◌, ◌<◌, ◌++◌, [], flat_map, length, map, option_map, string_bytes, IfOk, OnOk};
ghost use Rattle.pb_schema.specs.Names.{in_scope};
ghost use Rattle.pb_value.specs.View.{value_view};
ghost use Rattle.pb_descr_message.specs.Held.{data_at, fields_in};
ghost use Rattle.pb_json_names.specs.Adding.{Adds};
ghost use Rattle.pb_json_names.specs.Names.{field_named, fields_named, file_named, message_named, AreNamesOf};

use crate::held::{name_at, number_at, values_at};
use crate::name::{name_in, natural};
use pb_descr_message::descriptor_pool;
use pb_json::JsonNames;
use pb_json::anys::open;
use pb_schema::{MessageId, Pool};
use pb_value::Value;
use std::alloc::{AllocError, Global};

/// The set itself, the first message of the pool that sets are read by.
const SET: MessageId = MessageId(0);

/// The names that a descriptor set gives to the fields of a pool in JSON, by the option `json_name`.
///
/// A field is known by the full name of its message and by its number. The last name that it is given counts, unless that is its name in
/// lowerCamelCase, empty or no UTF-8. Bytes that are no set give no names.
pub fn names_of_set(alloc: Global, pool: &Pool, set: &[u8]) -> Result<JsonNames, AllocError>
    ensures { IfOk result (λ names. AreNamesOf pool.now set.now names) }
{
    let Ok(descriptors) = descriptor_pool(alloc) else {
        return Err(AllocError);
    };
    match open(alloc, &descriptors, SET, set)? {
        Some(message) => Ok(names_in(alloc, pool, &Value::Message(message.into_body()))?),
        None => Ok(JsonNames::none(alloc)),
    }
}

/// The names that a set's message gives.
fn names_in(alloc: Global, pool: &Pool, set: &Value) -> Result<JsonNames, AllocError>
    ensures { IfOk result (λ names.
        Adds (flat_map (file_named pool.now) (data_at 1 (fields_in (value_view set.now)))) []
        names) }
{
    let mut names = JsonNames::none(alloc);
    add_files(alloc, &mut names, pool, values_at(set, 1))?;
    Ok(names)
}

/// Adds the names that files give.
fn add_files(
    alloc: Global,
    names: &mut JsonNames,
    pool: &Pool,
    files: &[Value],
) -> Result<(), AllocError>
    ensures { OnOk result (Adds
        (flat_map (file_named pool.now) (map value_view files.now)) names.old names.new) }
{
    for file in files {
        add_messages(alloc, names, pool, name_at(file, 2), values_at(file, 4))?;
    }
    Ok(())
}

/// Adds the names that messages in a scope give, and the messages that are declared in these.
#[cycle(names)]
fn add_messages(
    alloc: Global,
    names: &mut JsonNames,
    pool: &Pool,
    scope: &str,
    messages: &[Value],
) -> Result<(), AllocError>
    ensures { OnOk result (Adds
        (flat_map (message_named pool.now scope.now) (map value_view messages.now)) names.old
        names.new) }
{
    for message in messages {
        add_message(alloc, names, pool, scope, message)?;
    }
    Ok(())
}

/// Adds the names that a message in a scope gives, and the messages that are declared in it.
#[cycle(names)]
fn add_message(
    alloc: Global,
    names: &mut JsonNames,
    pool: &Pool,
    scope: &str,
    message: &Value,
) -> Result<(), AllocError>
    ensures { OnOk result (Adds
        (message_named pool.now scope.now (value_view message.now)) names.old names.new) }
{
    let full = full_name(alloc, scope, name_at(message, 1))?;
    add_fields(alloc, names, pool, full.as_str(), values_at(message, 2))?;
    add_messages(alloc, names, pool, full.as_str(), values_at(message, 3))?;
    Ok(())
}

/// A name in a scope.
fn full_name(alloc: Global, scope: &str, name: &str) -> Result<String, AllocError>
    ensures { IfOk result (λ s. string_bytes s ≡ in_scope scope.now name.now) }
{
    if scope.is_empty() {
        return String::from_str(alloc, name);
    }
    let mut full = String::from_str(alloc, scope)?;
    full.push_str(".")?;
    full.push_str(name)?;
    Ok(full)
}

/// Adds the names that fields give, of the message of a full name.
fn add_fields(
    alloc: Global,
    names: &mut JsonNames,
    pool: &Pool,
    full: &str,
    fields: &[Value],
) -> Result<(), AllocError>
    ensures { OnOk result (Adds
        (fields_named pool.now full.now (map value_view fields.now)) names.old names.new) }
{
    match pool.message_by_name(full) {
        Some(message) => {
            add_fields_of(alloc, names, message, fields)?;
            Ok(())
        }
        None => Ok(()),
    }
}

/// Adds the names that fields give, of a message type.
fn add_fields_of(
    alloc: Global,
    names: &mut JsonNames,
    message: MessageId,
    fields: &[Value],
) -> Result<(), AllocError>
    ensures { OnOk result (Adds
        (flat_map (field_named message.0) (map value_view fields.now)) names.old names.new) }
{
    for field in fields {
        add_field(alloc, names, message, field)?;
    }
    Ok(())
}

/// Adds the name that a field of a message type gives, if it gives one.
fn add_field(
    alloc: Global,
    names: &mut JsonNames,
    message: MessageId,
    field: &Value,
) -> Result<(), AllocError>
    ensures { OnOk result (Adds
        (field_named message.0 (value_view field.now)) names.old names.new) }
{
    let Some(number) = natural(number_at(field, 3)) else {
        return Ok(());
    };
    let Some(name) = name_in(field) else {
        return Ok(());
    };
    names.give(message, number, String::from_str(alloc, name)?)?;
    Ok(())
}
