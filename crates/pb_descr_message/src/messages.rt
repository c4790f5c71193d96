//! Messages and files, as they are written.

ghost use Rattle.std.specs.Prelude.{◌≡◌, ◌≤◌, map, option_map, IfOk, IfErr, OnOk};
ghost use Rattle.std.specs.List.{AllByRecursion};
ghost use Rattle.pb_value.specs.Data.{levels_of, datums_depth, datums_of, message_depth};
ghost use Rattle.pb_value.specs.View.{content_view, value_view, body_view};
ghost use Rattle.pb_declarations.specs.Decls.{inner_of, messages_of};
ghost use Rattle.pb_declarations.specs.Nests.{nests, all_nest};
ghost use Rattle.pb_declarations.specs.View.{message_view, file_view};
ghost use Rattle.pb_descr_message.specs.Writing.{a_list, package_text, syntax_text, message_body, message_bodies, file_body, set_body};
ghost use Rattle.pb_descr_message.specs.Sets.{CutAt};

use crate::bodies::{enums, fields, list_of, oneofs, options, ranges, texts};
use crate::contents::{body, list, message, text};
use crate::error::WriteSetError;
use pb_declarations::{FileDecl, MessageDecl};
use pb_value::{Body, Content, Value};
use std::alloc::{AllocError, Global};

/// The most levels that a file may take below its set, the file's own with them.
const FILE_LEVELS: u8 = 100;

/// A message beside the messages that are declared in it.
fn message_with(
    alloc: Global,
    declared: &MessageDecl,
    messages: Option<Content>,
) -> Result<Value, AllocError>
    requires { option_map content_view messages
        ≡ a_list (message_bodies (inner_of (message_view declared.now))) }
    ensures { IfOk result (λ v. value_view v ≡ message_body (message_view declared.now)) }
{
    let name = text(alloc, &declared.name)?;
    let fields = fields(alloc, &declared.fields)?;
    let enums = enums(alloc, &declared.enums)?;
    let options = options(alloc, 7, declared.map_entry)?;
    let oneofs = oneofs(alloc, &declared.oneofs)?;
    let reserved = ranges(alloc, &declared.reserved)?;
    let reserved_names = texts(alloc, &declared.reserved_names)?;
    message(
        alloc,
        [
            (1, Some(name)),
            (2, fields),
            (3, messages),
            (4, enums),
            (7, options),
            (8, oneofs),
            (9, reserved),
            (10, reserved_names),
        ],
    )
}

/// A message, if it takes at most `depth_left` levels, its own included.
#[cycle(messages)]
fn message_value(
    alloc: Global,
    declared: &MessageDecl,
    depth_left: u8,
) -> Result<Value, WriteSetError>
    ensures written { IfOk result (λ v. value_view v ≡ message_body (message_view declared.now)) }
    ensures within { OnOk result (nests (message_view declared.now) ≤ depth_left) }
    ensures refused { IfErr result
        (CutAt depth_left (levels_of (message_body (message_view declared.now)))) }
{
    if depth_left == 0 {
        return Err(WriteSetError::TooDeep);
    }
    let inner = message_values(alloc, &declared.messages, depth_left - 1)?;
    let value = message_with(alloc, declared, list(inner))?;
    Ok(value)
}

/// Messages, if each takes at most `depth_left` levels.
#[cycle(messages)]
fn message_values(
    alloc: Global,
    messages: &Vec<MessageDecl>,
    depth_left: u8,
) -> Result<Vec<Value>, WriteSetError>
    ensures written { IfOk result (λ v. map value_view v.items
        ≡ message_bodies (messages_of (map message_view messages.now.items))) }
    ensures within { OnOk result (all_nest (messages_of (map message_view messages.now.items))
        ≤ depth_left) }
    ensures refused { IfErr result
        (CutAt depth_left (datums_depth
        (datums_of (message_bodies (messages_of (map message_view messages.now.items)))))) }
{
    let mut values = Vec::with_capacity(alloc, messages.len())?;
    for declared in messages {
        let value = message_value(alloc, declared, depth_left)?;
        values.push(value)?;
    }
    Ok(values)
}

fn package_content(alloc: Global, name: &str) -> Result<Option<Content>, AllocError>
    ensures { IfOk result (λ c. option_map content_view c ≡ package_text name.now) }
{
    if name.is_empty() {
        return Ok(None);
    }
    let written = text(alloc, name)?;
    Ok(Some(written))
}

/// The syntax, but of a file of proto2, where none is written.
fn syntax_content(alloc: Global, proto2: bool) -> Result<Option<Content>, AllocError>
    ensures { IfOk result (λ c. option_map content_view c ≡ syntax_text proto2) }
{
    if proto2 {
        return Ok(None);
    }
    let written = text(alloc, "proto3")?;
    Ok(Some(written))
}

/// A file beside its messages.
fn file_with(alloc: Global, file: &FileDecl, messages: Option<Content>) -> Result<Value, AllocError>
    requires { option_map content_view messages
        ≡ a_list (message_bodies (file_view file.now).messages) }
    ensures { IfOk result (λ v. value_view v ≡ file_body (file_view file.now)) }
{
    let name = text(alloc, &file.name)?;
    let package = package_content(alloc, &file.package)?;
    let imports = list_of(alloc, &file.imports)?;
    let enums = list_of(alloc, &file.enums)?;
    let services = list_of(alloc, &file.services)?;
    let public = list_of(alloc, &file.public)?;
    let syntax = syntax_content(alloc, file.proto2)?;
    message(
        alloc,
        [
            (1, Some(name)),
            (2, package),
            (3, imports),
            (4, messages),
            (5, enums),
            (6, services),
            (10, public),
            (12, syntax),
        ],
    )
}

fn file_value(alloc: Global, file: &FileDecl) -> Result<Value, WriteSetError>
    ensures written { IfOk result (λ v. value_view v ≡ file_body (file_view file.now)) }
    ensures within { OnOk result (all_nest (file_view file.now).messages ≤ 99) }
    ensures refused { IfErr result
        (CutAt FILE_LEVELS (levels_of (file_body (file_view file.now)))) }
{
    let messages = message_values(alloc, &file.messages, FILE_LEVELS - 1)?;
    let value = file_with(alloc, file, list(messages))?;
    Ok(value)
}

fn file_values(alloc: Global, files: &[FileDecl]) -> Result<Vec<Value>, WriteSetError>
    ensures written { IfOk result (λ v. map value_view v.items
        ≡ map file_body (map file_view files.now)) }
    ensures within { OnOk result
        (AllByRecursion (λ f. all_nest f.messages ≤ 99) (map file_view files.now)) }
    ensures refused { IfErr result
        (CutAt FILE_LEVELS (datums_depth (datums_of (map file_body (map file_view files.now))))) }
{
    let mut values = Vec::with_capacity(alloc, files.len())?;
    for file in files {
        let value = file_value(alloc, file)?;
        values.push(value)?;
    }
    Ok(values)
}

/// The message that the files of a set are written as. It is not made where it would nest too deep.
pub fn set_body(alloc: Global, files: &[FileDecl]) -> Result<Body, WriteSetError>
    ensures written { IfOk result (λ b. body_view b ≡ set_body (map file_view files.now)) }
    ensures within { OnOk result (message_depth (set_body (map file_view files.now)) ≤ 102) }
    ensures refused { IfErr result
        (CutAt FILE_LEVELS (message_depth (set_body (map file_view files.now)))) }
{
    let files = file_values(alloc, files)?;
    let set = body(alloc, [(1, list(files))])?;
    Ok(set)
}
