//! Descriptor sets that are refused, and declarations that do not link.

use crate::declared::{Unlinked, file_named, put_missing, put_unlinked};
use crate::formats::Format;
use crate::lines::put_line;
use crate::set_causes::put_shown;
use crate::subject::{SetAt, Subject};
use pb_descr::{DeclCause, FileDecl, LenientSet, read_set, read_set_lenient};
use pb_link::LinkCause;
use pb_wire::{Limits, MemOutput, read_up_to};
use pbtool_files::{Files, Reading, read_file};
use std::alloc::Global;

/// How many bytes of a file are looked at to say what it looks like.
const FIRST: usize = 4096;

/// Writes the lines about a file of a descriptor set that is refused: its name, and the declaration that shows the cause.
pub(crate) fn explain_set_file<F: Files>(
    alloc: Global,
    subject: Subject<'_>,
    file: usize,
    cause: DeclCause,
    files: &mut F,
    lines: &mut MemOutput,
) {
    let Some(set) = subject.set() else {
        return;
    };
    let Ok(bytes) = read_file(alloc, Limits::FULL, set.file, files) else {
        return;
    };
    put_shown(alloc, set.reading, &bytes, file, cause, lines);
}

/// Writes the lines about a declaration of a set that does not link.
pub(crate) fn explain_unlinked_set<F: Files>(
    alloc: Global,
    set: SetAt<'_>,
    unlinked: Unlinked<'_>,
    files: &mut F,
    lines: &mut MemOutput,
) {
    let Ok(bytes) = read_file(alloc, Limits::FULL, set.file, files) else {
        return;
    };
    let Some(declared) = files_of(alloc, set.reading, &bytes) else {
        return;
    };
    if unlinked.cause == LinkCause::MissingImport {
        put_missing_file(declared.as_slice(), unlinked.file, lines);
    } else {
        put_unlinked(alloc, declared.as_slice(), unlinked, lines);
    }
}

/// Writes which import of a file the set does not have.
fn put_missing_file(files: &[FileDecl], name: &str, lines: &mut MemOutput) {
    let Some(file) = file_named(files, name) else {
        return;
    };
    for import in file.imports.as_slice() {
        if file_named(files, import.as_str()).is_none() {
            put_missing(import.as_str(), b" is not in the set", lines);
            return;
        }
    }
}

/// Writes what a file looks like that is given as a descriptor set, if it is of a form that is known.
pub(crate) fn put_format<F: Files>(
    alloc: Global,
    path: &str,
    files: &mut F,
    lines: &mut MemOutput,
) {
    let Ok(Some(mut input)) = files.open(path) else {
        return;
    };
    let Ok(first) = read_up_to(alloc, &mut input, FIRST) else {
        return;
    };
    if let Some(format) = Format::of(&first) {
        put_line(lines, b"  ", path.as_bytes(), format.advice());
    }
}

/// What a set declares.
fn files_of(alloc: Global, reading: Reading, set: &[u8]) -> Option<Vec<FileDecl>> {
    match reading {
        Reading::Strict => match read_set(alloc, set) {
            Ok(files) => Some(files),
            Err(_) => None,
        },
        Reading::Lenient => match read_set_lenient(alloc, set) {
            Ok(LenientSet { files, omitted: _ }) => Some(files),
            Err(_) => None,
        },
    }
}
