//! What a declaration that does not link looks for, or what is there already.

use crate::lines::{put, put_line};
use crate::near::is_near;
use crate::question::{Question, last_part};
use crate::types::{TypeNode, declared_types, full_name};
use pb_descr::{FieldDecl, FileDecl, MessageDecl, MethodDecl, ServiceDecl};
use pb_link::LinkCause;
use pb_wire::MemOutput;
use std::alloc::{AllocError, Global};

/// How many full names are made at most to find a type that a file does not see.
const MOST_TRIED: usize = 64;

/// A declaration that does not link: the name of its file, its full name, and the rule that it breaks.
#[derive(Clone, Copy)]
pub(crate) struct Unlinked<'a> {
    pub file: &'a str,
    pub full_name: &'a str,
    pub cause: LinkCause,
}

impl<'a> Unlinked<'a> {
    pub(crate) fn new(file: &'a str, full_name: &'a str, cause: LinkCause) -> Unlinked<'a> {
        Unlinked {
            file,
            full_name,
            cause,
        }
    }
}

/// Writes what a declaration of the file at an index looks for, or what is there already.
pub(crate) fn put_unlinked(
    alloc: Global,
    files: &[FileDecl],
    unlinked: Unlinked<'_>,
    lines: &mut MemOutput,
) {
    let Some(file) = file_named(files, unlinked.file) else {
        return;
    };
    match unlinked.cause {
        LinkCause::NotFound | LinkCause::NotAType => put_not_found(
            alloc, files, file, unlinked, lines,
        ),
        LinkCause::NotVisible => put_not_visible(alloc, files, file, unlinked, lines),
        LinkCause::NumberTaken => put_earlier(file, unlinked, lines),
        _ => {}
    }
}

/// The file of a name.
pub(crate) fn file_named<'f>(files: &'f [FileDecl], name: &str) -> Option<&'f FileDecl> {
    for file in files {
        if file.name.as_str() == name {
            return Some(file);
        }
    }
    None
}

/// The type that a field has by name, and the declared ones that it may mean; of a method both of its types.
fn put_not_found(
    alloc: Global,
    files: &[FileDecl],
    file: &FileDecl,
    unlinked: Unlinked<'_>,
    lines: &mut MemOutput,
) {
    if let Some(method) = method_at(file, unlinked.full_name) {
        put_wanted(method.input.as_str(), lines);
        put_wanted(method.output.as_str(), lines);
    } else if let Some(wanted) = type_at(file, unlinked.full_name) {
        put_wanted(wanted, lines);
        let _ = put_near(alloc, files, wanted, lines);
    }
}

fn put_wanted(name: &str, lines: &mut MemOutput) {
    put_line(lines, b"  looked for the type ", name.as_bytes(), b"");
}

/// Writes the declared types whose names are near a name. Without memory to find them, nothing is written.
fn put_near(
    alloc: Global,
    files: &[FileDecl],
    wanted: &str,
    lines: &mut MemOutput,
) -> Result<(), AllocError> {
    let types = declared_types(alloc, files)?;
    let name = last_part(wanted.as_bytes());
    let mut question = Question::new();
    for (index, node) in types.as_slice().iter().enumerate() {
        if !question.is_full() && is_near(name, node.name.as_bytes()) {
            let near = full_name(alloc, types.as_slice(), index)?;
            question.put(near.as_str().as_bytes(), lines);
        }
    }
    question.end(lines);
    Ok(())
}

/// The type that a field has by name, and the file that declares it.
fn put_not_visible(
    alloc: Global,
    files: &[FileDecl],
    file: &FileDecl,
    unlinked: Unlinked<'_>,
    lines: &mut MemOutput,
) {
    let Some(wanted) = type_at(file, unlinked.full_name) else {
        return;
    };
    put_wanted(wanted, lines);
    let _ = put_declaring(alloc, files, file, wanted, lines);
}

/// Writes which file declares a type that another file does not see. Without memory to find it, nothing is written.
fn put_declaring(
    alloc: Global,
    files: &[FileDecl],
    from: &FileDecl,
    wanted: &str,
    lines: &mut MemOutput,
) -> Result<(), AllocError> {
    let types = declared_types(alloc, files)?;
    let last = last_part(wanted.as_bytes());
    let mut tried: usize = 0;
    for (index, node) in types.as_slice().iter().enumerate() {
        if tried < MOST_TRIED && node.name.as_bytes() == last {
            let name = full_name(alloc, types.as_slice(), index)?;
            if ends_with_name(name.as_str(), wanted) {
                put_import(name.as_str(), node, from, lines);
                return Ok(());
            }
            tried = tried.saturating_add(1);
        }
    }
    Ok(())
}

/// Whether a full name ends with a name as a source writes it.
fn ends_with_name(full_name: &str, written: &str) -> bool {
    match written.strip_prefix('.') {
        Some(whole) => full_name == whole,
        None => full_name.ends_with(written),
    }
}

fn put_import(name: &str, node: &TypeNode<'_>, from: &FileDecl, lines: &mut MemOutput) {
    put(lines, b"  ");
    put(lines, name.as_bytes());
    put(lines, b" is in ");
    put(lines, node.file.name.as_str().as_bytes());
    put_line(
        lines,
        b", which ",
        from.name.as_str().as_bytes(),
        b" does not import",
    );
}

/// The first field of a message that has the number of a field after it.
fn put_earlier(file: &FileDecl, unlinked: Unlinked<'_>, lines: &mut MemOutput) {
    let Some(message) = message_around(file, unlinked.full_name) else {
        return;
    };
    let Some(field) = field_named(message, last_name(unlinked.full_name)) else {
        return;
    };
    for other in message.fields.as_slice() {
        if other.number == field.number {
            put_line(
                lines,
                b"  the number is that of ",
                other.name.as_str().as_bytes(),
                b"",
            );
            return;
        }
    }
}

/// An import that is not there.
pub(crate) fn put_missing(import: &str, end: &[u8], lines: &mut MemOutput) {
    put_line(lines, b"  the import ", import.as_bytes(), end);
}

/// The type that the field of a full name has by name, as it is written.
fn type_at<'f>(file: &'f FileDecl, full_name: &str) -> Option<&'f str> {
    let message = message_around(file, full_name)?;
    let field = field_named(message, last_name(full_name))?;
    match &field.type_name {
        Some(name) => Some(name.as_str()),
        None => None,
    }
}

/// The last part of a full name.
fn last_name(full_name: &str) -> &str {
    match full_name.rsplit_once('.') {
        Some((_, last)) => last,
        None => full_name,
    }
}

/// The innermost message type that a full name names, or that has what it names.
fn message_around<'f>(file: &'f FileDecl, full_name: &str) -> Option<&'f MessageDecl> {
    let mut messages = file.messages.as_slice();
    let mut innermost = None;
    for part in without_package(file.package.as_str(), full_name).split('.') {
        if let Some(message) = message_named(messages, part) {
            messages = message.messages.as_slice();
            innermost = Some(message);
        }
    }
    innermost
}

/// A full name without the package that it begins with.
pub(crate) fn without_package<'n>(package: &str, full_name: &'n str) -> &'n str {
    let Some(rest) = full_name.strip_prefix(package) else {
        return full_name;
    };
    match rest.strip_prefix('.') {
        Some(name) => name,
        None => rest,
    }
}

fn message_named<'f>(messages: &'f [MessageDecl], name: &str) -> Option<&'f MessageDecl> {
    for message in messages {
        if message.name.as_str() == name {
            return Some(message);
        }
    }
    None
}

/// The last field of a name, which is the one that is refused.
fn field_named<'f>(message: &'f MessageDecl, name: &str) -> Option<&'f FieldDecl> {
    let mut found = None;
    for field in message.fields.as_slice() {
        if field.name.as_str() == name {
            found = Some(field);
        }
    }
    found
}

/// The method of a full name.
fn method_at<'f>(file: &'f FileDecl, full_name: &str) -> Option<&'f MethodDecl> {
    let (service, method) = without_package(file.package.as_str(), full_name).split_once('.')?;
    method_named(service_named(file.services.as_slice(), service)?, method)
}

fn service_named<'f>(services: &'f [ServiceDecl], name: &str) -> Option<&'f ServiceDecl> {
    for service in services {
        if service.name.as_str() == name {
            return Some(service);
        }
    }
    None
}

/// The last method of a name, which is the one that is refused.
fn method_named<'f>(service: &'f ServiceDecl, name: &str) -> Option<&'f MethodDecl> {
    let mut found = None;
    for method in service.methods.as_slice() {
        if method.name.as_str() == name {
            found = Some(method);
        }
    }
    found
}
