//! Why the files of a set are not read: the first cause by declaration, and then by number.

ghost use Rattle.std.specs.Prelude.{◌≡◌, map, flat_map, is_some, slice_get};
ghost use Rattle.pb_value.specs.View.{value_view};
ghost use Rattle.pb_descr_message.specs.Held.{fields_in, text_at, int_at};
ghost use Rattle.pb_descr_message.specs.Reading.{is_proto2};
ghost use Rattle.pb_descr_message.specs.Causes.{is_label, has_bad_type, is_group, has_any, is_proto3, has_known_syntax, named_causes, type_causes, proto2_causes};
ghost use Rattle.pb_descr_message.specs.Causes.{field_causes, listed_causes, head_causes, message_causes, file_head_causes, file_causes, causes_from, Judges};

use crate::cause::DeclCause;
use crate::declaring::{OPTIONAL, REPEATED, is_proto2, label_at};
use crate::held::{int_at, name_at, text_at, values_at};
use pb_declarations::TypeCode;
use pb_value::Value;

/// The label of a field that has to be there.
const REQUIRED: i32 = 2;

/// The type number of a group.
const GROUP: i32 = 10;

fn is_label(label: i32) -> bool
    ensures { result ≡ is_label label }
{
    label == OPTIONAL || label == REQUIRED || label == REPEATED
}

fn has_any(message: &Value, number: u32) -> bool
    ensures { result ≡ has_any number (fields_in (value_view message.now)) }
{
    !values_at(message, number).is_empty()
}

fn has_text(message: &Value, number: u32) -> bool
    ensures { result ≡ is_some (text_at number (fields_in (value_view message.now))) }
{
    text_at(message, number).is_some()
}

/// Whether the type is none of the known ones, or there is neither a type nor a type name.
fn has_bad_type(field: &Value) -> bool
    ensures { let fs = fields_in (value_view field.now) in result
        ≡ has_bad_type (int_at 5 fs) (text_at 6 fs) }
{
    match int_at(field, 5) {
        Some(number) => TypeCode::from_number(number).is_none(),
        None => text_at(field, 6).is_none(),
    }
}

fn is_group(field: &Value) -> bool
    ensures { result ≡ is_group (int_at 5 (fields_in (value_view field.now))) }
{
    match int_at(field, 5) {
        Some(number) => number == GROUP,
        None => false,
    }
}

fn check_name(declared: &Value) -> Result<(), DeclCause>
    ensures { Judges result (named_causes (value_view declared.now)) }
{
    if name_at(declared, 1).is_empty() {
        return Err(DeclCause::MissingName);
    }
    Ok(())
}

/// Checks the label and the type of a field.
fn check_type(field: &Value) -> Result<(), DeclCause>
    ensures { Judges result (type_causes (fields_in (value_view field.now))) }
{
    if !is_label(label_at(field)) {
        return Err(DeclCause::BadLabel);
    }
    if has_bad_type(field) {
        return Err(DeclCause::BadTypeNumber);
    }
    Ok(())
}

/// Checks that a field has nothing that only proto2 has, but for a group in a file of proto2.
fn check_proto2(field: &Value, proto2: bool) -> Result<(), DeclCause>
    ensures { Judges result (proto2_causes proto2 (fields_in (value_view field.now))) }
{
    if has_text(field, 2) {
        return Err(DeclCause::Extension);
    }
    if label_at(field) == REQUIRED {
        return Err(DeclCause::Required);
    }
    if !proto2 && is_group(field) {
        return Err(DeclCause::Group);
    }
    if has_text(field, 7) {
        return Err(DeclCause::DefaultValue);
    }
    Ok(())
}

fn check_field(field: &Value, proto2: bool) -> Result<(), DeclCause>
    ensures { Judges result (field_causes proto2 (value_view field.now)) }
{
    check_name(field)?;
    check_type(field)?;
    check_proto2(field, proto2)?;
    Ok(())
}

fn check_fields(fields: &[Value], proto2: bool) -> Result<(), DeclCause>
    ensures { Judges result (flat_map (field_causes proto2) (map value_view fields.now)) }
{
    for field in fields {
        check_field(field, proto2)?;
    }
    Ok(())
}

/// Checks oneofs, values or methods.
fn check_names(declared: &[Value]) -> Result<(), DeclCause>
    ensures { Judges result (flat_map named_causes (map value_view declared.now)) }
{
    for named in declared {
        check_name(named)?;
    }
    Ok(())
}

/// Checks an enum with its values, or a service with its methods.
fn check_listed(declared: &Value) -> Result<(), DeclCause>
    ensures { Judges result (listed_causes (value_view declared.now)) }
{
    check_name(declared)?;
    check_names(values_at(declared, 2))?;
    Ok(())
}

/// Checks enums or services.
fn check_all_listed(declared: &[Value]) -> Result<(), DeclCause>
    ensures { Judges result (flat_map listed_causes (map value_view declared.now)) }
{
    for listed in declared {
        check_listed(listed)?;
    }
    Ok(())
}

/// Checks a message itself, its fields and its oneofs.
fn check_head(message: &Value, proto2: bool) -> Result<(), DeclCause>
    ensures { Judges result (head_causes proto2 (fields_in (value_view message.now))) }
{
    check_name(message)?;
    if has_any(message, 5) || has_any(message, 6) {
        return Err(DeclCause::Extension);
    }
    check_fields(values_at(message, 2), proto2)?;
    check_names(values_at(message, 8))?;
    Ok(())
}

#[cycle(check)]
fn check_message(message: &Value, proto2: bool) -> Result<(), DeclCause>
    ensures { Judges result (message_causes proto2 (value_view message.now)) }
{
    check_head(message, proto2)?;
    check_messages(values_at(message, 3), proto2)?;
    check_all_listed(values_at(message, 4))?;
    Ok(())
}

#[cycle(check)]
fn check_messages(messages: &[Value], proto2: bool) -> Result<(), DeclCause>
    ensures { Judges result (flat_map (message_causes proto2) (map value_view messages.now)) }
{
    for message in messages {
        check_message(message, proto2)?;
    }
    Ok(())
}

fn is_proto3(file: &Value) -> bool
    ensures { result ≡ is_proto3 (fields_in (value_view file.now)) }
{
    match text_at(file, 12) {
        Some(syntax) => syntax == "proto3",
        None => false,
    }
}

fn has_known_syntax(file: &Value) -> bool
    ensures { result ≡ has_known_syntax (fields_in (value_view file.now)) }
{
    is_proto3(file) || is_proto2(file)
}

/// Checks a file itself.
fn check_file_head(file: &Value) -> Result<(), DeclCause>
    ensures { Judges result (file_head_causes (fields_in (value_view file.now))) }
{
    check_name(file)?;
    if has_any(file, 7) {
        return Err(DeclCause::Extension);
    }
    if !has_known_syntax(file) {
        return Err(DeclCause::NotProto3);
    }
    Ok(())
}

fn check_file(file: &Value) -> Result<(), DeclCause>
    ensures { Judges result (file_causes (value_view file.now)) }
{
    check_file_head(file)?;
    let proto2 = is_proto2(file);
    check_messages(values_at(file, 4), proto2)?;
    check_all_listed(values_at(file, 5))?;
    check_all_listed(values_at(file, 6))?;
    Ok(())
}

/// The first cause that the files of a set show, with the index of its file.
pub fn first_cause(files: &[Value]) -> Option<(usize, DeclCause)>
    ensures { result ≡ slice_get (causes_from 0 (map value_view files.now)) 0 }
{
    for (index, file) in files.iter().enumerate() {
        if let Err(cause) = check_file(file) {
            return Some((index, cause));
        }
    }
    None
}
