//! What statements come to.

ghost use Rattle.std.specs.Prelude.{◌≡◌, ◌≤◌, ◌<◌, ◌++◌, ◌∷◌, [], ℕ, List, Bool, Option, None, Some};
ghost use Rattle.std.specs.Prelude.{codes, map, length, string_bytes, option_map, option_to_list, pos, IfOk, OnOk};
ghost use Rattle.pb_schema.specs.Names.{entry_name};
ghost use Rattle.pb_declarations.specs.View.{field_view, message_view};
ghost use Rattle.pb_declarations.specs.declared.decl.TypeCode.{TypeCode};
ghost use Rattle.pb_source_tokens.specs.Said.{a_scalar};
ghost use Rattle.pb_source_tokens.specs.PhraseView.{type_view};
ghost use Rattle.pb_source.specs.Meaning.{MessageStatement, FileStatement, entry_field, entry_of, map_field};
ghost use Rattle.pb_source.specs.Meaning.{fields_in, groups_in, in_oneof, with_own_oneofs, own_oneofs, message_of, public_from};
ghost use Rattle.pb_source.specs.StatementView.{map_view, member_view, message_statement_view, file_statement_view};
ghost use Rattle.pb_source.specs.PartsView.{with_own_oneof, IsCounted, OnePackage, HoldsSaid, FileHolds};

use crate::kind::Label;
use crate::parsing::fields::field_of;
use crate::parsing::statement::{FileSaid, MapSaid, MemberSaid, MessageSaid};
use pb_declarations::{EnumDecl, FieldDecl, MessageDecl, ServiceDecl, TypeCode};
use pb_schema::entry_name;
use pb_source_tokens::parsing::types::TypeSaid;
use std::alloc::{AllocError, Global};

/// What a message holds, whose statements are being read.
#[derive(Drop)]
pub(crate) struct MessageParts {
    pub fields: Vec<FieldDecl>,
    pub messages: Vec<MessageDecl>,
    pub enums: Vec<EnumDecl>,
    pub oneofs: Vec<String>,
    pub reserved: Vec<(i32, i32)>,
    pub reserved_names: Vec<String>,
}

impl MessageParts {
    pub(crate) fn new(alloc: Global) -> MessageParts
        ensures { HoldsSaid result [] }
    {
        MessageParts {
            fields: Vec::new(alloc),
            messages: Vec::new(alloc),
            enums: Vec::new(alloc),
            oneofs: Vec::new(alloc),
            reserved: Vec::new(alloc),
            reserved_names: Vec::new(alloc),
        }
    }
}

/// The name of a map's entry message.
fn entry_text(alloc: Global, name: &str) -> Result<String, AllocError>
    ensures { IfOk result (λ t. string_bytes t ≡ entry_name name.now) }
{
    let bytes = entry_name(alloc, name.as_bytes())?;
    match String::from_utf8(bytes) {
        Ok(text) => Ok(text),
        Err(_) => unreachable!(),
    }
}

/// A field of an entry message.
fn entry_field(
    alloc: Global,
    name: &str,
    number: u32,
    ty: TypeSaid,
) -> Result<FieldDecl, AllocError>
    requires { number ≤ 2147483647 }
    ensures { IfOk result (λ f. field_view f ≡ entry_field name.now number (type_view ty)) }
{
    let name = String::from_str(alloc, name)?;
    Ok(field_of(Label::Unlabelled, ty, name, number, None))
}

/// The fields of an entry message.
fn entry_fields(alloc: Global, key: TypeCode, value: TypeSaid) -> Result<Vec<FieldDecl>, AllocError>
    ensures { IfOk result (λ fs. map field_view fs.items ≡ entry_field (codes "key") 1 (a_scalar key) ∷ entry_field (codes "value") 2 (type_view value) ∷ []) }
{
    let key = entry_field(alloc, "key", 1, TypeSaid::Scalar(key))?;
    let value = entry_field(alloc, "value", 2, value)?;
    let mut fields = Vec::new(alloc);
    fields.push(key)?;
    fields.push(value)?;
    Ok(fields)
}

/// The entry message of a map.
fn entry_of(
    alloc: Global,
    name: &str,
    key: TypeCode,
    value: TypeSaid,
) -> Result<MessageDecl, AllocError>
    ensures { IfOk result (λ m. (number : ℕ) (packed : Option Bool)
        → message_view m ≡ entry_of (record { key = key; value = type_view value; name = name.now; number = number; packed = packed })) }
{
    let fields = entry_fields(alloc, key, value)?;
    let name = entry_text(alloc, name)?;
    Ok(MessageDecl {
        name,
        fields,
        messages: Vec::new(alloc),
        enums: Vec::new(alloc),
        oneofs: Vec::new(alloc),
        reserved: Vec::new(alloc),
        reserved_names: Vec::new(alloc),
        map_entry: true,
    })
}

/// A map's own field, whose type is named by the entry's name alone.
fn map_field(
    alloc: Global,
    name: String,
    number: u32,
    packed: Option<bool>,
) -> Result<FieldDecl, AllocError>
    requires { number ≤ 2147483647 }
    ensures { IfOk result (λ f. (key : TypeCode) (value : TypeSaid)
        → field_view f ≡ map_field (record { key = key; value = type_view value; name = string_bytes name; number = number; packed = packed })) }
{
    let entry = entry_text(alloc, name.as_str())?;
    Ok(FieldDecl {
        name,
        number: number as i32,
        repeated: true,
        ty: Some(TypeCode::Message),
        type_name: Some(entry),
        packed,
        oneof: None,
        proto3_optional: false,
    })
}

/// Puts a map's field and its entry message into a message.
fn add_map(alloc: Global, message: &mut MessageParts, map: MapSaid) -> Result<(), AllocError>
    requires { map.number ≤ 2147483647 }
    ensures { OnOk result ((ss : List MessageStatement) → HoldsSaid message.old ss → HoldsSaid message.new (ss ++ MessageStatement.a_map (map_view map) ∷ [])) }
{
    let MapSaid {
        key,
        value,
        name,
        number,
        packed,
    } = map;
    let entry = entry_of(alloc, name.as_str(), key, value)?;
    let field = map_field(alloc, name, number, packed)?;
    message.messages.push(entry)?;
    message.fields.push(field)?;
    Ok(())
}

/// The index after this many, of which a source has never as many as an index has numbers.
fn index_of(count: usize) -> Result<i32, AllocError>
    ensures { IfOk result (λ i. i ≡ pos count) }
{
    match i32::try_from(count) {
        Ok(index) => Ok(index),
        Err(_) => Err(AllocError),
    }
}

/// Puts the message of a group after others, if there is one.
fn add_group(messages: &mut Vec<MessageDecl>, group: Option<MessageDecl>) -> Result<(), AllocError>
    ensures { OnOk result (map message_view messages.new.items ≡ map message_view messages.old.items ++ option_to_list (option_map message_view group)) }
{
    if let Some(message) = group {
        messages.push(message)?;
    }
    Ok(())
}

/// Puts a field and the message of a group into a message.
fn add_member(message: &mut MessageParts, member: MemberSaid) -> Result<(), AllocError>
    ensures { OnOk result ((ss : List MessageStatement) → HoldsSaid message.old ss
        → HoldsSaid message.new (ss ++ MessageStatement.a_field (member_view member) ∷ [])) }
{
    let MemberSaid { field, group } = member;
    add_group(&mut message.messages, group)?;
    message.fields.push(field)?;
    Ok(())
}

/// Puts the fields of a oneof, before which there are this many others, after other fields, and the messages of its groups after other messages.
fn add_members(
    fields: &mut Vec<FieldDecl>,
    messages: &mut Vec<MessageDecl>,
    count: usize,
    members: Vec<MemberSaid>,
) -> Result<(), AllocError>
    ensures fields { OnOk result (map field_view fields.new.items
        ≡ map field_view fields.old.items ++ map (in_oneof count) (fields_in (map member_view members.items))) }
    ensures messages { OnOk result (map message_view messages.new.items ≡ map message_view messages.old.items ++ groups_in (map member_view members.items)) }
{
    let index = index_of(count)?;
    for member in members {
        let MemberSaid { mut field, group } = member;
        field.oneof = Some(index);
        add_group(messages, group)?;
        fields.push(field)?;
    }
    Ok(())
}

/// Puts a oneof and its fields into a message.
fn add_oneof(
    message: &mut MessageParts,
    name: String,
    members: Vec<MemberSaid>,
) -> Result<(), AllocError>
    ensures { OnOk result ((ss : List MessageStatement) → HoldsSaid message.old ss
        → HoldsSaid message.new (ss ++ MessageStatement.a_oneof (string_bytes name) (map member_view members.items) ∷ [])) }
{
    add_members(
        &mut message.fields,
        &mut message.messages,
        message.oneofs.len(),
        members,
    )?;
    message.oneofs.push(name)?;
    Ok(())
}

/// Puts what a statement says into a message.
pub(crate) fn add_statement(
    alloc: Global,
    message: &mut MessageParts,
    statement: MessageSaid,
) -> Result<(), AllocError>
    requires { IsCounted statement }
    ensures { OnOk result ((ss : List MessageStatement) → HoldsSaid message.old ss → HoldsSaid message.new (ss ++ message_statement_view statement ∷ [])) }
{
    match statement {
        MessageSaid::Nothing => Ok(()),
        MessageSaid::Field(member) => {
            add_member(message, member)?;
            Ok(())
        }
        MessageSaid::Map(map) => {
            add_map(alloc, message, map)?;
            Ok(())
        }
        MessageSaid::Oneof(name, members) => {
            add_oneof(message, name, members)?;
            Ok(())
        }
        MessageSaid::Message(inner) => {
            message.messages.push(inner)?;
            Ok(())
        }
        MessageSaid::Extend(mut groups) => {
            message.messages.append(&mut groups)?;
            Ok(())
        }
        MessageSaid::Enum(inner) => {
            message.enums.push(inner)?;
            Ok(())
        }
        MessageSaid::Ranges(mut ranges) => {
            message.reserved.append(&mut ranges)?;
            Ok(())
        }
        MessageSaid::Names(mut names) => {
            message.reserved_names.append(&mut names)?;
            Ok(())
        }
    }
}

/// The name of the oneof of an optional field.
fn own_oneof(alloc: Global, field: &str) -> Result<String, AllocError>
    ensures { IfOk result (λ t. string_bytes t ≡ 95 ∷ field.now) }
{
    let mut name = String::new(alloc);
    name.push('_')?;
    name.push_str(field)?;
    Ok(name)
}

/// Puts a field into a oneof of its own after the others, if it is optional.
fn add_own_oneof(
    alloc: Global,
    field: &mut FieldDecl,
    oneofs: &mut Vec<String>,
) -> Result<(), AllocError>
    ensures field { OnOk result (field_view field.new ≡ with_own_oneof (length oneofs.old.items) (field_view field.old)) }
    ensures oneofs { OnOk result (map string_bytes oneofs.new.items ≡ map string_bytes oneofs.old.items ++ own_oneofs (field_view field.old ∷ [])) }
{
    if field.proto3_optional {
        let name = own_oneof(alloc, field.name.as_str())?;
        let index = index_of(oneofs.len())?;
        oneofs.push(name)?;
        field.oneof = Some(index);
    }
    Ok(())
}

/// Puts each optional field into a oneof of its own, after the others.
fn add_own_oneofs(
    alloc: Global,
    fields: &mut Vec<FieldDecl>,
    oneofs: &mut Vec<String>,
) -> Result<(), AllocError>
    ensures fields { OnOk result (map field_view fields.new.items ≡ with_own_oneofs (length oneofs.old.items) (map field_view fields.old.items)) }
    ensures oneofs { OnOk result (map string_bytes oneofs.new.items ≡ map string_bytes oneofs.old.items ++ own_oneofs (map field_view fields.old.items)) }
{
    for i in 0..fields.len() {
        add_own_oneof(alloc, &mut fields[i], oneofs)?;
    }
    Ok(())
}

/// The message of this name with these parts.
pub(crate) fn message_of(
    alloc: Global,
    name: &str,
    parts: MessageParts,
) -> Result<MessageDecl, AllocError>
    ensures { IfOk result (λ m. (ss : List MessageStatement) → HoldsSaid parts ss → message_view m ≡ message_of name.now ss) }
{
    let mut fields = parts.fields;
    let mut oneofs = parts.oneofs;
    add_own_oneofs(alloc, &mut fields, &mut oneofs)?;
    let name = String::from_str(alloc, name)?;
    Ok(MessageDecl {
        name,
        fields,
        messages: parts.messages,
        enums: parts.enums,
        oneofs,
        reserved: parts.reserved,
        reserved_names: parts.reserved_names,
        map_entry: false,
    })
}

/// What a file holds, whose statements are being read.
#[derive(Drop)]
pub(crate) struct FileParts {
    pub package: String,
    pub imports: Vec<String>,
    pub public: Vec<i32>,
    pub messages: Vec<MessageDecl>,
    pub enums: Vec<EnumDecl>,
    pub services: Vec<ServiceDecl>,
}

impl FileParts {
    pub(crate) fn new(alloc: Global) -> FileParts
        ensures { FileHolds result [] }
    {
        FileParts {
            package: String::new(alloc),
            imports: Vec::new(alloc),
            public: Vec::new(alloc),
            messages: Vec::new(alloc),
            enums: Vec::new(alloc),
            services: Vec::new(alloc),
        }
    }
}

/// Puts the index after this many imports to those of public ones, if the next is public.
fn add_public(public: &mut Vec<i32>, is_public: bool, count: usize) -> Result<(), AllocError>
    ensures { OnOk result ((name : List ℕ) → public.new.items ≡ public.old.items ++ public_from count (FileStatement.an_import is_public name ∷ [])) }
{
    if is_public {
        let index = index_of(count)?;
        public.push(index)?;
    }
    Ok(())
}

/// Puts an import into a file.
fn add_import(file: &mut FileParts, is_public: bool, name: String) -> Result<(), AllocError>
    ensures { OnOk result ((ss : List FileStatement) → FileHolds file.old ss
        → FileHolds file.new (ss ++ FileStatement.an_import is_public (string_bytes name) ∷ [])) }
{
    add_public(&mut file.public, is_public, file.imports.len())?;
    file.imports.push(name)?;
    Ok(())
}

/// Puts what a statement says into a file, of which no package has been said where it says one.
pub(crate) fn add_file_statement(
    file: &mut FileParts,
    statement: FileSaid,
) -> Result<(), AllocError>
    ensures { OnOk result ((ss : List FileStatement) → FileHolds file.old ss → OnePackage (ss ++ file_statement_view statement ∷ [])
        → FileHolds file.new (ss ++ file_statement_view statement ∷ [])) }
{
    match statement {
        FileSaid::Nothing => Ok(()),
        FileSaid::Import(is_public, name) => {
            add_import(file, is_public, name)?;
            Ok(())
        }
        FileSaid::Package(name) => {
            file.package = name;
            Ok(())
        }
        FileSaid::Message(message) => {
            file.messages.push(message)?;
            Ok(())
        }
        FileSaid::Extend(mut groups) => {
            file.messages.append(&mut groups)?;
            Ok(())
        }
        FileSaid::Enum(decl) => {
            file.enums.push(decl)?;
            Ok(())
        }
        FileSaid::Service(service) => {
            file.services.push(service)?;
            Ok(())
        }
    }
}
