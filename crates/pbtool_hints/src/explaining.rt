//! The lines for a person about a refusal.

ghost use Rattle.pbtool_hints.specs.Lines.{AreLines};

use crate::bytes::{At, explain_frame, explain_message, explain_set_bytes};
use crate::declared::Unlinked;
use crate::frames::explain_frames;
use crate::lines::{lines_of, put};
use crate::sets::{explain_set_file, explain_unlinked_set};
use crate::sources::{explain_source, explain_unlinked_source, put_source};
use crate::subject::Subject;
use crate::unknown::explain_unknown_type;
use pb_source::SourceFault;
use pb_wire::{FailurePlan, Limits, MemOutput};
use pbtool_files::{Files, Refusal, read_file};
use std::alloc::Global;
use std::io;

/// The lines about a refusal, which follow its own line. Files are read again, up to the bytes that are shown; one that cannot be read again is
/// left out.
pub fn explain<F: Files>(
    alloc: Global,
    subject: Subject<'_>,
    refusal: &Refusal<'_>,
    files: &mut F,
) -> Vec<u8>
    ensures { AreLines result.items }
{
    let mut lines = MemOutput::new(alloc, usize::MAX, FailurePlan::NEVER);
    explain_refusal(alloc, subject, refusal, files, &mut lines);
    lines_of(alloc, lines.bytes())
}

/// Writes the lines about a refusal.
fn explain_refusal<F: Files>(
    alloc: Global,
    subject: Subject<'_>,
    refusal: &Refusal<'_>,
    files: &mut F,
    lines: &mut MemOutput,
) {
    match refusal {
        Refusal::Fault { .. }
        | Refusal::Frame { .. }
        | Refusal::Frames { .. }
        | Refusal::Set { .. } => explain_bytes(alloc, subject, refusal, files, lines),
        Refusal::SetFile { .. } | Refusal::Link { .. } => explain_declaration(
            alloc, subject, refusal, files, lines,
        ),
        Refusal::Source { .. } | Refusal::JsonText { .. } => explain_text(
            alloc, subject, refusal, files, lines,
        ),
        Refusal::Device(path) => explain_device(alloc, path, files, lines),
        Refusal::File(path) => explain_device(alloc, path.as_str(), files, lines),
        Refusal::UnknownType(name) => explain_unknown_type(alloc, subject, name, files, lines),
        Refusal::TooLarge
        | Refusal::FrameJson { .. }
        | Refusal::Json { .. }
        | Refusal::Breaks
        | Refusal::Memory => {}
    }
}

/// Writes the lines about bytes of messages or of a descriptor set that are refused.
fn explain_bytes<F: Files>(
    alloc: Global,
    subject: Subject<'_>,
    refusal: &Refusal<'_>,
    files: &mut F,
    lines: &mut MemOutput,
) {
    match refusal {
        Refusal::Fault { byte, path, cause } => {
            let at = At::new(*byte, path, *cause);
            explain_message(alloc, subject, at, files, lines)
        }
        Refusal::Frame {
            index,
            byte,
            path,
            cause,
        } => {
            let at = At::new(*byte, path, *cause);
            explain_frame(alloc, subject, *index, at, files, lines)
        }
        Refusal::Frames { .. } => explain_frames(alloc, subject, files, lines),
        Refusal::Set { byte, path, cause } => {
            let at = At::new(*byte, path, *cause);
            explain_set_bytes(alloc, subject, at, files, lines)
        }
        _ => {}
    }
}

/// Writes the lines about a file of a set that is refused, or a declaration that does not link.
fn explain_declaration<F: Files>(
    alloc: Global,
    subject: Subject<'_>,
    refusal: &Refusal<'_>,
    files: &mut F,
    lines: &mut MemOutput,
) {
    match refusal {
        Refusal::SetFile { file, cause } => explain_set_file(
            alloc, subject, *file, *cause, files, lines,
        ),
        Refusal::Link {
            file,
            full_name,
            cause,
        } => {
            let unlinked = Unlinked::new(file.as_str(), full_name.as_str(), *cause);
            explain_unlinked(alloc, subject, unlinked, files, lines)
        }
        _ => {}
    }
}

/// Writes the lines about a byte of a source or of JSON.
fn explain_text<F: Files>(
    alloc: Global,
    subject: Subject<'_>,
    refusal: &Refusal<'_>,
    files: &mut F,
    lines: &mut MemOutput,
) {
    match refusal {
        Refusal::Source { file, byte, cause } => {
            let fault = SourceFault {
                byte: *byte,
                cause: *cause,
            };
            explain_source(alloc, subject, file.as_str(), fault, files, lines)
        }
        Refusal::JsonText { byte, cause: _ } => explain_json_text(
            alloc, subject, *byte, files, lines,
        ),
        _ => {}
    }
}

/// Writes the lines about a declaration that does not link.
fn explain_unlinked<F: Files>(
    alloc: Global,
    subject: Subject<'_>,
    unlinked: Unlinked<'_>,
    files: &mut F,
    lines: &mut MemOutput,
) {
    match subject.set() {
        Some(set) => explain_unlinked_set(alloc, set, unlinked, files, lines),
        None => explain_unlinked_source(alloc, subject, unlinked, files, lines),
    }
}

/// Writes the lines about a byte of a file of JSON.
fn explain_json_text<F: Files>(
    alloc: Global,
    subject: Subject<'_>,
    byte: u64,
    files: &mut F,
    lines: &mut MemOutput,
) {
    let Subject::Messages {
        message_type: _,
        file,
    } = subject
    else {
        return;
    };
    let Ok(text) = read_file(alloc, Limits::FULL, file, files) else {
        return;
    };
    put_source(&text, byte, lines);
}

/// Says why the file of a path is refused: by the system's reason, or else by whether the file can be opened.
fn explain_device<F: Files>(alloc: Global, path: &str, files: &mut F, lines: &mut MemOutput) {
    if path == "-" {
        put(lines, b"  standard output takes no more\n");
        return;
    }
    if let Some(error) = files.reason(path) {
        put_reason(alloc, &error, lines);
        return;
    }
    match files.open(path) {
        Ok(Some(_)) => put(
            lines,
            b"  the file can be opened, but not read or written, as a folder\n",
        ),
        Ok(None) => put(lines, b"  no file has this path\n"),
        Err(_) => put(lines, b"  the file cannot be opened\n"),
    }
}

/// Writes the reason of the system.
fn put_reason(alloc: Global, error: &io::Error, lines: &mut MemOutput) {
    if let Ok(reason) = format!(in alloc; "  the system says: {error}\n") {
        put(lines, reason.as_str().as_bytes());
    }
}
