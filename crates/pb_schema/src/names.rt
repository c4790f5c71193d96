//! The full names of what files declare.

pub(crate) mod declared;
pub(crate) mod set;
pub(crate) mod tree;
pub(crate) mod words;

ghost use Rattle.std.specs.Prelude.{◌≡◌, [], IfOk, map, length, string_bytes};
ghost use Rattle.pb_schema.specs.View.{file_view, message_view, enum_view, parent_view, bytes_of};
ghost use Rattle.pb_schema.specs.Nesting.{ParentsStandBefore};
ghost use Rattle.pb_schema.specs.Names.{raised, entry_name, in_scope, scope_by_names, enum_name_by, message_name};

use crate::names::set::scoped;
use crate::types::{EnumType, FileInfo, MessageId, MessageType};
use std::alloc::{AllocError, Global};

fn raised(raise: bool, byte: u8) -> u8
    ensures { result ≡ raised raise byte }
{
    if raise {
        byte.to_ascii_uppercase()
    } else {
        byte
    }
}

/// The simple name of the entry message of a map field with this name: the name without `_`, its first letter and each one after a
/// `_` made upper case, and `Entry` after it.
pub fn entry_name(alloc: Global, name: &[u8]) -> Result<Vec<u8>, AllocError>
    ensures { IfOk result (λ v. v.items ≡ entry_name name.now) }
{
    let mut entry = Vec::new(alloc);
    let mut raise = true;
    for byte in name {
        if *byte != b'_' {
            entry.push(raised(raise, *byte))?;
        }
        raise = *byte == b'_';
    }
    entry.extend_from_slice(b"Entry")?;
    Ok(entry)
}

/// The scope of what is declared in a message, or outside messages in a file.
fn scope<'a>(
    files: &'a [FileInfo],
    names: &'a [Vec<u8>],
    file: usize,
    parent: Option<MessageId>,
) -> &'a [u8]
    ensures { result.now ≡ scope_by_names (map file_view files.now) (bytes_of names.now) file (parent_view parent) }
{
    match parent {
        None => match files.get(file) {
            Some(file) => file.package.as_str().as_bytes(),
            None => &[],
        },
        Some(id) => match names.get(id.0) {
            Some(name) => name.as_slice(),
            None => &[],
        },
    }
}

/// The full name of a message, where those before have these names.
fn message_name(
    alloc: Global,
    files: &[FileInfo],
    names: &[Vec<u8>],
    message: &MessageType,
) -> Result<Vec<u8>, AllocError>
    ensures { IfOk result (λ v. v.items ≡
        in_scope (scope_by_names (map file_view files.now) (bytes_of names.now) message.now.file (parent_view message.now.parent))
        (string_bytes message.now.name)) }
{
    let around = scope(files, names, message.file, message.parent);
    scoped(alloc, around, message.name.as_str().as_bytes())
}

/// The full name of each enum, where the messages have these names.
pub(crate) fn enum_names(
    alloc: Global,
    files: &[FileInfo],
    names: &[Vec<u8>],
    enums: &[EnumType],
) -> Result<Vec<Vec<u8>>, AllocError>
    ensures { IfOk result (λ v. bytes_of v.items ≡ map (λ e. enum_name_by (map file_view files.now) (bytes_of names.now) e) (map enum_view enums.now)) }
{
    let mut enum_names: Vec<Vec<u8>> = Vec::new(alloc);
    for entry in enums {
        let name = enum_name(alloc, files, names, entry)?;
        enum_names.push(name)?;
    }
    Ok(enum_names)
}

fn enum_name(
    alloc: Global,
    files: &[FileInfo],
    names: &[Vec<u8>],
    entry: &EnumType,
) -> Result<Vec<u8>, AllocError>
    ensures { IfOk result (λ v. v.items ≡ enum_name_by (map file_view files.now) (bytes_of names.now) (enum_view entry.now)) }
{
    let around = scope(files, names, entry.file, entry.parent);
    scoped(alloc, around, entry.name.as_str().as_bytes())
}

/// The full name of each message.
pub(crate) fn message_names(
    alloc: Global,
    files: &[FileInfo],
    messages: &[MessageType],
) -> Result<Vec<Vec<u8>>, AllocError>
    requires { ParentsStandBefore (map message_view messages.now) (length messages.now) }
    ensures { IfOk result (λ v. bytes_of v.items ≡
        map (message_name (map file_view files.now) (map message_view messages.now)) (map message_view messages.now)) }
{
    let mut names: Vec<Vec<u8>> = Vec::new(alloc);
    for message in messages {
        let name = message_name(alloc, files, &names, message)?;
        names.push(name)?;
    }
    Ok(names)
}
