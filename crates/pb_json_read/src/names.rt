//! Which field the name of a member means.

ghost use Rattle.std.specs.Prelude.{◌≡◌, ◌<◌, length, map, option_map, slice_get, IfSome};
ghost use Rattle.std.specs.Str.{bytes_eq};
ghost use Rattle.pb_schema.specs.Rules.{IsFieldOf, IsPool};
ghost use Rattle.pb_schema.specs.Types.{message_fields};
ghost use Rattle.pb_schema.specs.View.{field_view};
ghost use Rattle.pb_json.specs.Given.{NamesGiven, name_given};
ghost use Rattle.pb_json.specs.JsonNames.{json_name};
ghost use Rattle.pb_json_read.specs.Names.{field_given, field_in_json, field_meant, is_given};
ghost use Rattle.pb_json_read.specs.NameTables.{AreFieldTables, IsFieldTable};

use crate::name_table::NameTable;
use crate::tables::Tables;
use pb_json::JsonNames;
use pb_json::names::is_camel;
use pb_schema::{Field, MessageId, Pool};

/// The field that a name means: the one that is given it, or that is declared by it, or else the first whose name in lowerCamelCase it is.
///
/// One look-up, where the message type has a table.
pub(crate) fn field_meant<'a>(
    names: &JsonNames,
    pool: &'a Pool,
    tables: &Tables,
    message: MessageId,
    name: &str,
) -> Option<&'a Field>
    requires within { message.0 < length pool.now.messages }
    requires tables { AreFieldTables pool.now names.now tables.now.fields }
    ensures found { option_map (λ f. field_view f.now) result ≡ field_meant names.now pool.now
        message.0 name.now }
    ensures rules { IfSome result (λ f. IsFieldOf pool.now message.0 (field_view f.now)) }
{
    match tables.fields.get(&message.0) {
        Some(table) => in_table(pool, table, message, name),
        None => walk(names, pool, message, name),
    }
}

/// The field that a name means, by the table of the message type.
fn in_table<'a>(
    pool: &'a Pool,
    table: &NameTable,
    message: MessageId,
    name: &str,
) -> Option<&'a Field>
    requires { message.0 < length pool.now.messages }
    ensures found { (names : NamesGiven)
        → IsFieldTable names message.0 (message_fields pool.now message.0) table.now
        → option_map (λ f. field_view f.now) result ≡ field_meant names pool.now
        message.0 name.now }
    ensures rules { (names : NamesGiven)
        → IsFieldTable names message.0 (message_fields pool.now message.0) table.now
        → IfSome result (λ f. IsFieldOf pool.now message.0 (field_view f.now)) }
{
    match table.get(name.as_bytes()) {
        Some(index) => field_at(pool, message, *index),
        None => None,
    }
}

/// The field of a message type at an index.
fn field_at(pool: &Pool, message: MessageId, index: usize) -> Option<&Field>
    requires { message.0 < length pool.now.messages }
    ensures found { option_map (λ f. field_view f.now) result ≡ slice_get
        (message_fields pool.now message.0) index }
    ensures rules { IsPool pool.now }
{
    fields_of(pool, message).get(index)
}

/// The fields of a message type.
pub(crate) fn fields_of(pool: &Pool, message: MessageId) -> &[Field]
    requires { message.0 < length pool.now.messages }
    ensures listed { map field_view result.now ≡ message_fields pool.now message.0 }
    ensures rules { IsPool pool.now }
{
    &pool.messages()[message.0].fields
}

/// The field that a name means, by a walk along the fields.
fn walk<'a>(names: &JsonNames, pool: &'a Pool, message: MessageId, name: &str) -> Option<&'a Field>
    requires { message.0 < length pool.now.messages }
    ensures found { option_map (λ f. field_view f.now) result ≡ field_meant names.now pool.now
        message.0 name.now }
    ensures rules { IfSome result (λ f. IsFieldOf pool.now message.0 (field_view f.now)) }
{
    if let Some(field) = given_in(names, pool, message, name) {
        return Some(field);
    }
    match pool.field_by_name(message, name) {
        Some(field) => Some(field),
        None => in_json(names, pool, message, name),
    }
}

/// The first field of a message type that is given a name.
fn given_in<'a>(
    names: &JsonNames,
    pool: &'a Pool,
    message: MessageId,
    name: &str,
) -> Option<&'a Field>
    requires { message.0 < length pool.now.messages }
    ensures found { option_map (λ f. field_view f.now) result ≡ field_given names.now message.0
        (message_fields pool.now message.0) name.now }
    ensures rules { IfSome result (λ f. IsFieldOf pool.now message.0 (field_view f.now)) }
{
    if names.is_empty() {
        return None;
    }
    find_given(names, message, fields_of(pool, message), name)
}

/// The first field of a message type whose name in JSON this is.
fn in_json<'a>(
    names: &JsonNames,
    pool: &'a Pool,
    message: MessageId,
    name: &str,
) -> Option<&'a Field>
    requires { message.0 < length pool.now.messages }
    ensures found { option_map (λ f. field_view f.now) result ≡ field_in_json names.now message.0
        (message_fields pool.now message.0) name.now }
    ensures rules { IfSome result (λ f. IsFieldOf pool.now message.0 (field_view f.now)) }
{
    find_in_json(names, message, fields_of(pool, message), name)
}

/// The first of some fields that is given a name.
fn find_given<'a>(
    names: &JsonNames,
    message: MessageId,
    fields: &'a [Field],
    name: &str,
) -> Option<&'a Field>
    ensures { option_map (λ f. field_view f.now) result ≡ field_given names.now message.0
        (map field_view fields.now) name.now }
{
    for field in fields {
        if is_given(names.given(message, field.number), name) {
            return Some(field);
        }
    }
    None
}

/// Whether this is the name that a field is given.
fn is_given(given: Option<&str>, name: &str) -> bool
    ensures { result ≡ is_given (option_map (λ s. s.now) given.entry) name.now }
{
    match given {
        Some(given) => given == name,
        None => false,
    }
}

/// The first of some fields whose name in JSON this is.
fn find_in_json<'a>(
    names: &JsonNames,
    message: MessageId,
    fields: &'a [Field],
    name: &str,
) -> Option<&'a Field>
    ensures { option_map (λ f. field_view f.now) result ≡ field_in_json names.now message.0
        (map field_view fields.now) name.now }
{
    for field in fields {
        if is_json_name(names, message, field, name) {
            return Some(field);
        }
    }
    None
}

/// Whether this is the name of a field in JSON.
fn is_json_name(names: &JsonNames, message: MessageId, field: &Field, name: &str) -> bool
    ensures { result ≡ bytes_eq (json_name names.now message.0 (field_view field.now)) name.now }
{
    match names.given(message, field.number) {
        Some(given) => given == name,
        None => is_camel(field.name.as_bytes(), name.as_bytes()),
    }
}
