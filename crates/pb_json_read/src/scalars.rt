//! What a JSON value means as a number, a string and the like.

ghost use Rattle.std.specs.Prelude.{◌≡◌, ◌<◌, ◌^◌, length, map, option_map, pos, string_bytes, FitsSigned, IfOk};
ghost use Rattle.std.specs.Float.{binary32, binary64};
ghost use Rattle.std.specs.Int.{w32, w64};
ghost use Rattle.pb_json_text.specs.Json.{null};
ghost use Rattle.pb_json_text.specs.View.{form_view};
ghost use Rattle.pb_schema.specs.EnumValues.{enum_values};
ghost use Rattle.pb_json_read.specs.Scalars.{IsBool, IsBytes, IsClosedEnumValue, IsEnumValue, IsFloat, IsInteger, IsNamed, IsOnly, IsString};
ghost use Rattle.pb_json_read.specs.NameTables.{IsValueTable};
ghost use Rattle.pb_json_read.specs.Scalars.{characters as characters_of, is_null_enum, number_named};

use crate::context::Context;
use crate::name_table::NameTable;
use pb_json_scalars::{
    read_base64, read_double, read_double_string, read_float, read_float_string, read_i32,
    read_i64, read_u32, read_u64,
};
use pb_json_text::JsonForm;
use pb_schema::{EnumId, Pool};
use std::alloc::{AllocError, Global};

/// The characters of a number, or of a string.
fn characters(form: &JsonForm) -> Option<&[u8]>
    ensures { option_map (λ s. s.now) result ≡ characters_of (form_view form.now) }
{
    match form {
        JsonForm::Number(digits) => Some(digits.as_slice()),
        JsonForm::String(text) => Some(text.as_bytes()),
        _ => None,
    }
}

/// The 32-bit signed integer that a value equals.
pub(crate) fn read_int32(form: &JsonForm) -> Option<i32>
    ensures { IsOnly (λ z. IsInteger (form_view form.now) z × FitsSigned w32 z) result }
{
    read_i32(characters(form)?)
}

/// The 64-bit signed integer that a value equals.
pub(crate) fn read_int64(form: &JsonForm) -> Option<i64>
    ensures { IsOnly (λ z. IsInteger (form_view form.now) z × FitsSigned w64 z) result }
{
    read_i64(characters(form)?)
}

/// The 32-bit unsigned integer that a value equals.
pub(crate) fn read_uint32(form: &JsonForm) -> Option<u32>
    ensures { IsOnly (λ n. IsInteger (form_view form.now) (pos n) × (n < 2 ^ 32)) result }
{
    read_u32(characters(form)?)
}

/// The 64-bit unsigned integer that a value equals.
pub(crate) fn read_uint64(form: &JsonForm) -> Option<u64>
    ensures { IsOnly (λ n. IsInteger (form_view form.now) (pos n) × (n < 2 ^ 64)) result }
{
    read_u64(characters(form)?)
}

pub(crate) fn read_bool(form: &JsonForm) -> Option<bool>
    ensures { IsOnly (IsBool (form_view form.now)) result }
{
    match form {
        JsonForm::Bool(is_true) => Some(*is_true),
        _ => None,
    }
}

/// The bits of a `float`.
pub(crate) fn read_float_bits(form: &JsonForm) -> Option<u32>
    ensures { IsOnly (IsFloat binary32 (form_view form.now)) result }
{
    match form {
        JsonForm::Number(digits) => read_float(digits),
        JsonForm::String(text) => read_float_string(text.as_bytes()),
        _ => None,
    }
}

/// The bits of a `double`.
pub(crate) fn read_double_bits(form: &JsonForm) -> Option<u64>
    ensures { IsOnly (IsFloat binary64 (form_view form.now)) result }
{
    match form {
        JsonForm::Number(digits) => read_double(digits),
        JsonForm::String(text) => read_double_string(text.as_bytes()),
        _ => None,
    }
}

pub(crate) fn read_text(alloc: Global, form: &JsonForm) -> Result<Option<String>, AllocError>
    ensures { IfOk result (λ read. IsOnly (IsString (form_view form.now))
        (option_map string_bytes read)) }
{
    let JsonForm::String(text) = form else {
        return Ok(None);
    };
    Ok(Some(String::from_str(alloc, text.as_str())?))
}

/// The bytes that a string of base64 encodes.
pub(crate) fn read_bytes(alloc: Global, form: &JsonForm) -> Result<Option<Vec<u8>>, AllocError>
    ensures { IfOk result (λ read. IsOnly (IsBytes (form_view form.now))
        (option_map (λ v. v.items) read)) }
{
    let JsonForm::String(text) = form else {
        return Ok(None);
    };
    let bytes = read_base64(alloc, text.as_bytes())?;
    Ok(bytes)
}

/// The number of the first value of an enum with a name.
fn number_named(values: &[(String, i32)], name: &str) -> Option<i32>
    ensures { result ≡ number_named name.now (map (λ v. (string_bytes v.0, v.1)) values.now) }
{
    for value in values {
        if value.0.as_str() == name {
            return Some(value.1);
        }
    }
    None
}

fn number_of(value: Option<&(String, i32)>) -> Option<i32>
    ensures { result ≡ option_map (λ v. v.now.1) value.entry }
{
    match value {
        Some(value) => Some(value.1),
        None => None,
    }
}

/// The number of the value of a name, by the table of its enum.
fn number_at(values: &[(String, i32)], table: &NameTable, name: &str) -> Option<i32>
    requires { IsValueTable (map (λ v. (string_bytes v.0, v.1)) values.now) table.now }
    ensures { result ≡ number_named name.now (map (λ v. (string_bytes v.0, v.1)) values.now) }
{
    match table.get(name.as_bytes()) {
        Some(index) => number_of(values.get(*index)),
        None => None,
    }
}

/// The number that a string means, where a value may have its name.
fn number_meant(named: Option<i32>, characters: &[u8]) -> Option<i32>
    ensures { IsOnly (IsNamed named characters.now) result }
{
    match named {
        Some(number) => Some(number),
        None => read_i32(characters),
    }
}

/// The values of an enum.
pub(crate) fn values_of(pool: &Pool, id: EnumId) -> &[(String, i32)]
    requires { id.0 < length pool.now.enums }
    ensures { map (λ v. (string_bytes v.0, v.1)) result.now ≡ enum_values pool.now id.0 }
{
    &pool.enums()[id.0].values
}

/// The number of the first value of an enum with a name. One look-up, where the enum has a table.
fn number_in(context: &Context<'_>, id: EnumId, name: &str) -> Option<i32>
    requires { id.0 < length context.now.pool.now.enums }
    ensures { result ≡ number_named name.now (enum_values context.now.pool.now id.0) }
{
    let values = values_of(context.pool, id);
    match context.tables.values.get(&id.0) {
        Some(table) => number_at(values, table, name),
        None => number_named(values, name),
    }
}

/// The number of an enum's value that a string means: by its name, or in digits.
fn read_enum_name(context: &Context<'_>, id: EnumId, name: &str) -> Option<i32>
    requires { id.0 < length context.now.pool.now.enums }
    ensures { IsOnly (IsNamed (number_named name.now (enum_values context.now.pool.now id.0))
        name.now) result }
{
    let named = number_in(context, id, name);
    number_meant(named, name.as_bytes())
}

/// Whether an enum is the one whose one value means null.
pub(crate) fn is_null_enum(pool: &Pool, id: EnumId) -> bool
    requires { id.0 < length pool.now.enums }
    ensures { result ≡ is_null_enum pool.now id.0 }
{
    pool.enum_name(id) == b"google.protobuf.NullValue".as_slice()
}

/// The number of the value that null means.
fn read_null(pool: &Pool, id: EnumId) -> Option<i32>
    requires { id.0 < length pool.now.enums }
    ensures { IsOnly (IsEnumValue pool.now id.0 null) result }
{
    if is_null_enum(pool, id) {
        Some(0)
    } else {
        None
    }
}

/// The number of an enum's value.
pub(crate) fn read_enum(context: &Context<'_>, id: EnumId, form: &JsonForm) -> Option<i32>
    requires { id.0 < length context.now.pool.now.enums }
    ensures { IsOnly (IsEnumValue context.now.pool.now id.0 (form_view form.now)) result }
{
    match form {
        JsonForm::Number(digits) => read_i32(digits),
        JsonForm::String(name) => read_enum_name(context, id, name.as_str()),
        JsonForm::Null => read_null(context.pool, id),
        JsonForm::Bool(_) | JsonForm::Array(_) | JsonForm::Object(_) => None,
    }
}

/// The number of a closed enum's value, which the enum declares.
pub(crate) fn read_closed_enum(context: &Context<'_>, id: EnumId, form: &JsonForm) -> Option<i32>
    requires { id.0 < length context.now.pool.now.enums }
    ensures { IsOnly (IsClosedEnumValue context.now.pool.now id.0 (form_view form.now)) result }
{
    let number = read_enum(context, id, form)?;
    if context.pool.declares(id, number) {
        Some(number)
    } else {
        None
    }
}
