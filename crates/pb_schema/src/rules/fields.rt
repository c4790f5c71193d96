//! The rules of numbers, oneofs and the types of fields.

ghost use Rattle.std.specs.Prelude.{◌≡◌, ◌↔◌, false, IsTrue, IfOk, OnOk, map, option_map, slice_get};
ghost use Rattle.std.specs.List.{AllByRecursion};
ghost use Rattle.pb_schema.specs.View.{file_view, message_view, enum_view, field_view, types_of};
ghost use Rattle.pb_schema.specs.Names.{AllDiffer};
ghost use Rattle.pb_schema.specs.Imports.Sight.{KnowsSight, file_of_kind};
ghost use Rattle.pb_schema.specs.Loops.Members.{NotesMember, AreMembers};
ghost use Rattle.pb_schema.specs.Rules.{ImportsNameFiles, NumbersDiffer, TypeIsSeen, FieldsSeeTypes, TypesAreSeen};
ghost use Rattle.pb_schema.specs.Rules.{EachOneofHasMember, OneofsHaveMembers};

use crate::imports::sight::Sight;
use crate::types::{EnumId, EnumType, Field, FileInfo, Kind, MessageId, MessageType, Shape};
use indexmap::IndexSet;
use std::alloc::{AllocError, Global};

fn field_numbers_differ(alloc: Global, fields: &[Field]) -> Result<bool, AllocError>
    ensures { IfOk result (λ holds. IsTrue holds ↔ AllDiffer (map (λ f. f.number) (map field_view fields.now))) }
{
    let mut numbers: IndexSet<u32> = IndexSet::new(alloc);
    for field in fields {
        let is_new = numbers.insert(field.number)?;
        if !is_new {
            return Ok(false);
        }
    }
    Ok(true)
}

pub(crate) fn numbers_differ(alloc: Global, messages: &[MessageType]) -> Result<bool, AllocError>
    ensures { IfOk result (λ holds. IsTrue holds ↔ NumbersDiffer (map message_view messages.now)) }
{
    for message in messages {
        let holds = field_numbers_differ(alloc, &message.fields)?;
        if !holds {
            return Ok(false);
        }
    }
    Ok(true)
}

/// Sets the bit of the oneof that the shape is a member of.
fn note_member(members: &mut Vec<bool>, shape: Shape)
    ensures { NotesMember shape members.old.items members.new.items }
{
    if let Shape::OneofMember(index) = shape
        && (index as usize) < members.len()
    {
        members[index as usize] = true;
    }
}

/// A bit for each of this many oneofs, set where a field is a member.
fn members_of(alloc: Global, fields: &[Field], oneofs: usize) -> Result<Vec<bool>, AllocError>
    ensures { IfOk result (λ bits. AreMembers oneofs (map field_view fields.now) bits.items) }
{
    let mut members = vec![in alloc; false; oneofs]?;
    for field in fields {
        note_member(&mut members, field.shape);
    }
    Ok(members)
}

fn all_set(bits: &[bool]) -> bool
    ensures { IsTrue result ↔ AllByRecursion IsTrue bits.now }
{
    bits.iter().all(|bit| *bit)
}

fn each_oneof_has_member(alloc: Global, message: &MessageType) -> Result<bool, AllocError>
    ensures { IfOk result (λ holds. IsTrue holds ↔ EachOneofHasMember (message_view message.now)) }
{
    let members = members_of(alloc, &message.fields, message.oneofs.len())?;
    Ok(all_set(&members))
}

pub(crate) fn oneofs_have_members(
    alloc: Global,
    messages: &[MessageType],
) -> Result<bool, AllocError>
    ensures { IfOk result (λ holds. IsTrue holds ↔ OneofsHaveMembers (map message_view messages.now)) }
{
    for message in messages {
        let holds = each_oneof_has_member(alloc, message)?;
        if !holds {
            return Ok(false);
        }
    }
    Ok(true)
}

fn file_of_message(messages: &[MessageType], id: MessageId) -> Option<usize>
    ensures { result ≡ option_map (λ t. t.file) (slice_get (map message_view messages.now) id.0) }
{
    match messages.get(id.0) {
        Some(message) => Some(message.file),
        None => None,
    }
}

fn file_of_enum(enums: &[EnumType], id: EnumId) -> Option<usize>
    ensures { result ≡ option_map (λ t. t.file) (slice_get (map enum_view enums.now) id.0) }
{
    match enums.get(id.0) {
        Some(entry) => Some(entry.file),
        None => None,
    }
}

/// The file of the type that a kind names.
fn file_of_kind(messages: &[MessageType], enums: &[EnumType], kind: Kind) -> Option<usize>
    ensures { result ≡ file_of_kind (map message_view messages.now) (map enum_view enums.now) kind }
{
    if let Some(id) = kind.message() {
        return file_of_message(messages, id);
    }
    match kind.enum_id() {
        Some(id) => file_of_enum(enums, id),
        None => None,
    }
}

/// The type that a kind names is declared in a file that this one sees.
fn type_is_seen(
    files: &[FileInfo],
    messages: &[MessageType],
    enums: &[EnumType],
    sight: &mut Sight,
    file: usize,
    kind: Kind,
) -> Result<bool, AllocError>
    requires imports { ImportsNameFiles (map file_view files.now) }
    requires known { KnowsSight (map file_view files.now) sight.old }
    ensures seen { IfOk result (λ holds. IsTrue holds ↔ TypeIsSeen (types_of files.now messages.now enums.now) file kind) }
    ensures known { OnOk result (KnowsSight (map file_view files.now) sight.new) }
{
    match file_of_kind(messages, enums, kind) {
        Some(target) => sight.sees(files, file, target),
        None => Ok(true),
    }
}

/// The type of each field of a message is declared in a file that the message's file sees.
fn fields_see_types(
    files: &[FileInfo],
    messages: &[MessageType],
    enums: &[EnumType],
    sight: &mut Sight,
    message: &MessageType,
) -> Result<bool, AllocError>
    requires imports { ImportsNameFiles (map file_view files.now) }
    requires known { KnowsSight (map file_view files.now) sight.old }
    ensures seen { IfOk result (λ holds. IsTrue holds ↔
        FieldsSeeTypes (types_of files.now messages.now enums.now) message.now.file (map field_view message.now.fields.items)) }
    ensures known { OnOk result (KnowsSight (map file_view files.now) sight.new) }
{
    for field in &message.fields {
        let seen = type_is_seen(files, messages, enums, sight, message.file, field.kind)?;
        if !seen {
            return Ok(false);
        }
    }
    Ok(true)
}

pub(crate) fn types_are_seen(
    alloc: Global,
    files: &[FileInfo],
    messages: &[MessageType],
    enums: &[EnumType],
) -> Result<bool, AllocError>
    requires { ImportsNameFiles (map file_view files.now) }
    ensures { IfOk result (λ holds. IsTrue holds ↔ TypesAreSeen (types_of files.now messages.now enums.now)) }
{
    let mut sight = Sight::new(alloc, files)?;
    for message in messages {
        let seen = fields_see_types(files, messages, enums, &mut sight, message)?;
        if !seen {
            return Ok(false);
        }
    }
    Ok(true)
}
