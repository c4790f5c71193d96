//! The declarations of a set's messages.

ghost use Rattle.std.specs.Prelude.{◌≡◌, ℤ, ℕ, List, map, filter_map, option_map, option_and_then, string_bytes, IfOk};
ghost use Rattle.pb_value.specs.Data.{Datum};
ghost use Rattle.pb_value.specs.View.{value_view};
ghost use Rattle.pb_descr_message.specs.Held.{fields_in, data_at, text_in, int_in, text_at, int_at};
ghost use Rattle.pb_declarations.specs.Decls.{DeclaredField, DeclaredEnum, DeclaredMethod, DeclaredService, DeclaredFile};
ghost use Rattle.pb_declarations.specs.View.{field_view, numbered_view, enum_view, message_view, method_view, service_view, file_view};
ghost use Rattle.pb_declarations.specs.TypeNumbers.{type_of_number};
ghost use Rattle.pb_descr_message.specs.Reading.{range_in, label_at, field_in, value_in, enum_in};
ghost use Rattle.pb_descr_message.specs.Reading.{oneof_in, message_in, method_in, service_in, is_proto2, file_in};

use crate::held::{
    bool_inside, int_at, int_in, mark_at, name_at, number_at, text_at, text_in, values_at,
};
use pb_declarations::{
    EnumDecl, FieldDecl, FileDecl, MessageDecl, MethodDecl, ServiceDecl, TypeCode,
};
use pb_value::Value;
use std::alloc::{AllocError, Global};

/// The label of a field that is not repeated, also where none is given.
pub(crate) const OPTIONAL: i32 = 1;

/// The label of a field that is repeated.
pub(crate) const REPEATED: i32 = 3;

pub(crate) fn label_at(field: &Value) -> i32
    ensures { result ≡ label_at (fields_in (value_view field.now)) }
{
    int_at(field, 4).unwrap_or(OPTIONAL)
}

fn texts_in(alloc: Global, values: &[Value]) -> Result<Vec<String>, AllocError>
    ensures { IfOk result (λ v. map string_bytes v.items
        ≡ filter_map text_in (map value_view values.now)) }
{
    let mut texts = Vec::with_capacity(alloc, values.len())?;
    for value in values {
        if let Some(text) = text_in(value) {
            let owned = String::from_str(alloc, text)?;
            texts.push(owned)?;
        }
    }
    Ok(texts)
}

fn ints_in(alloc: Global, values: &[Value]) -> Result<Vec<i32>, AllocError>
    ensures { IfOk result (λ v. v.items ≡ filter_map int_in (map value_view values.now)) }
{
    let mut numbers = Vec::with_capacity(alloc, values.len())?;
    for value in values {
        if let Some(number) = int_in(value) {
            numbers.push(number)?;
        }
    }
    Ok(numbers)
}

/// What a value of a list declares.
pub trait Declared: Drop {
    ghost Tree: { Type 0 };

    ghost view: { Self → Tree };

    ghost given: { Datum → Tree };

    fn declared(alloc: Global, value: &Value) -> Result<Self, AllocError>
        ensures { IfOk result (λ d. view d ≡ given (value_view value.now)) };
}

/// What each value of a list declares.
pub fn list_in<T: Declared>(alloc: Global, values: &[Value]) -> Result<Vec<T>, AllocError>
    ensures { IfOk result (λ v. map T.view v.items ≡ map T.given (map value_view values.now)) }
{
    let mut decls = Vec::with_capacity(alloc, values.len())?;
    for value in values {
        let decl = T::declared(alloc, value)?;
        decls.push(decl)?;
    }
    Ok(decls)
}

/// The start and the end of a range.
impl Declared for (i32, i32) {
    ghost Tree = { ℤ × ℤ };

    ghost view = { λ r. r };

    ghost given = { range_in };

    fn declared(_alloc: Global, value: &Value) -> Result<(i32, i32), AllocError> {
        Ok((number_at(value, 1), number_at(value, 2)))
    }
}

fn type_name(alloc: Global, field: &Value) -> Result<Option<String>, AllocError>
    ensures { IfOk result (λ n. option_map string_bytes n
        ≡ text_at 6 (fields_in (value_view field.now))) }
{
    let Some(name) = text_at(field, 6) else {
        return Ok(None);
    };
    let owned = String::from_str(alloc, name)?;
    Ok(Some(owned))
}

fn type_code(field: &Value) -> Option<TypeCode>
    ensures { result ≡ option_and_then type_of_number
        (int_at 5 (fields_in (value_view field.now))) }
{
    match int_at(field, 5) {
        Some(number) => TypeCode::from_number(number),
        None => None,
    }
}

impl Declared for FieldDecl {
    ghost Tree = { DeclaredField };

    ghost view = { field_view };

    ghost given = { field_in };

    fn declared(alloc: Global, value: &Value) -> Result<FieldDecl, AllocError> {
        let name = String::from_str(alloc, name_at(value, 1))?;
        let type_name = type_name(alloc, value)?;
        Ok(FieldDecl {
            name,
            number: number_at(value, 3),
            repeated: label_at(value) == REPEATED,
            ty: type_code(value),
            type_name,
            packed: bool_inside(value, 8, 2),
            oneof: int_at(value, 9),
            proto3_optional: mark_at(value, 17),
        })
    }
}

/// The name of a oneof.
impl Declared for String {
    ghost Tree = { List ℕ };

    ghost view = { string_bytes };

    ghost given = { oneof_in };

    fn declared(alloc: Global, value: &Value) -> Result<String, AllocError> {
        String::from_str(alloc, name_at(value, 1))
    }
}

/// The name and the number of a value of an enum.
impl Declared for (String, i32) {
    ghost Tree = { List ℕ × ℤ };

    ghost view = { numbered_view };

    ghost given = { value_in };

    fn declared(alloc: Global, value: &Value) -> Result<(String, i32), AllocError> {
        let name = String::from_str(alloc, name_at(value, 1))?;
        Ok((name, number_at(value, 2)))
    }
}

impl Declared for EnumDecl {
    ghost Tree = { DeclaredEnum };

    ghost view = { enum_view };

    ghost given = { enum_in };

    fn declared(alloc: Global, value: &Value) -> Result<EnumDecl, AllocError> {
        let name = String::from_str(alloc, name_at(value, 1))?;
        let values = list_in(alloc, values_at(value, 2))?;
        let reserved = list_in(alloc, values_at(value, 4))?;
        let reserved_names = texts_in(alloc, values_at(value, 5))?;
        Ok(EnumDecl {
            name,
            values,
            allow_alias: bool_inside(value, 3, 2).unwrap_or(false),
            reserved,
            reserved_names,
        })
    }
}

/// A message beside the messages that are declared in it.
fn message_with(
    alloc: Global,
    message: &Value,
    messages: Vec<MessageDecl>,
) -> Result<MessageDecl, AllocError>
    requires { map message_view messages.items
        ≡ map message_in (data_at 3 (fields_in (value_view message.now))) }
    ensures { IfOk result (λ m. message_view m ≡ message_in (value_view message.now)) }
{
    let name = String::from_str(alloc, name_at(message, 1))?;
    let fields = list_in(alloc, values_at(message, 2))?;
    let enums = list_in(alloc, values_at(message, 4))?;
    let oneofs = list_in(alloc, values_at(message, 8))?;
    let reserved = list_in(alloc, values_at(message, 9))?;
    let reserved_names = texts_in(alloc, values_at(message, 10))?;
    Ok(MessageDecl {
        name,
        fields,
        messages,
        enums,
        oneofs,
        reserved,
        reserved_names,
        map_entry: bool_inside(message, 7, 7).unwrap_or(false),
    })
}

#[cycle(declare)]
fn message_decl(alloc: Global, message: &Value) -> Result<MessageDecl, AllocError>
    ensures { IfOk result (λ m. message_view m ≡ message_in (value_view message.now)) }
{
    let inner = message_decls(alloc, values_at(message, 3))?;
    message_with(alloc, message, inner)
}

#[cycle(declare)]
fn message_decls(alloc: Global, messages: &[Value]) -> Result<Vec<MessageDecl>, AllocError>
    ensures { IfOk result (λ v. map message_view v.items
        ≡ map message_in (map value_view messages.now)) }
{
    let mut decls = Vec::with_capacity(alloc, messages.len())?;
    for message in messages {
        let decl = message_decl(alloc, message)?;
        decls.push(decl)?;
    }
    Ok(decls)
}

impl Declared for MethodDecl {
    ghost Tree = { DeclaredMethod };

    ghost view = { method_view };

    ghost given = { method_in };

    fn declared(alloc: Global, value: &Value) -> Result<MethodDecl, AllocError> {
        let name = String::from_str(alloc, name_at(value, 1))?;
        let input = String::from_str(alloc, name_at(value, 2))?;
        let output = String::from_str(alloc, name_at(value, 3))?;
        Ok(MethodDecl {
            name,
            input,
            output,
            client_stream: mark_at(value, 5),
            server_stream: mark_at(value, 6),
        })
    }
}

impl Declared for ServiceDecl {
    ghost Tree = { DeclaredService };

    ghost view = { service_view };

    ghost given = { service_in };

    fn declared(alloc: Global, value: &Value) -> Result<ServiceDecl, AllocError> {
        let name = String::from_str(alloc, name_at(value, 1))?;
        let methods = list_in(alloc, values_at(value, 2))?;
        Ok(ServiceDecl { name, methods })
    }
}

/// Whether the syntax of a file is `proto2`, as it is where none is given.
pub(crate) fn is_proto2(file: &Value) -> bool
    ensures { result ≡ is_proto2 (fields_in (value_view file.now)) }
{
    let syntax = name_at(file, 12);
    syntax.is_empty() || syntax == "proto2"
}

impl Declared for FileDecl {
    ghost Tree = { DeclaredFile };

    ghost view = { file_view };

    ghost given = { file_in };

    fn declared(alloc: Global, value: &Value) -> Result<FileDecl, AllocError> {
        let name = String::from_str(alloc, name_at(value, 1))?;
        let package = String::from_str(alloc, name_at(value, 2))?;
        let imports = texts_in(alloc, values_at(value, 3))?;
        let public = ints_in(alloc, values_at(value, 10))?;
        let messages = message_decls(alloc, values_at(value, 4))?;
        let enums = list_in(alloc, values_at(value, 5))?;
        let services = list_in(alloc, values_at(value, 6))?;
        Ok(FileDecl {
            name,
            package,
            imports,
            public,
            messages,
            enums,
            services,
            proto2: is_proto2(value),
        })
    }
}
