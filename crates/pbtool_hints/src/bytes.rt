//! Bytes that are refused, read again.

use crate::lines::shown_name;
use crate::sets::put_format;
use crate::subject::{Subject, TypeOf};
use pb_descr::descriptor_pool;
use pb_output::Sink;
use pb_schema::{MessageId, Pool};
use pb_stream::pass_frames;
use pb_wire::{Cause, Input, MemOutput, PathStep, read_up_to, read_varint};
use pbtool_explain::{Given, Parent, Refused, put_fault};
use pbtool_files::{Files, find_type};
use std::alloc::Global;

/// How many bytes are read from a refused one on, itself among them.
const AFTER: usize = 17;

/// Where bytes are refused: the byte, the steps to the open records, and the cause.
#[derive(Clone, Copy)]
pub(crate) struct At<'a> {
    pub byte: u64,
    pub path: &'a [PathStep],
    pub cause: Cause,
}

impl<'a> At<'a> {
    pub(crate) fn new(byte: u64, path: &'a [PathStep], cause: Cause) -> At<'a> {
        At { byte, path, cause }
    }
}

/// Bytes of a file, and where they begin in it: those of the frame of an index, or those from the first on.
#[derive(Drop)]
pub(crate) struct Part {
    frame: Option<u64>,
    offset: u64,
    bytes: Vec<u8>,
    start: usize,
}

impl Part {
    /// The bytes of a frame, which begin at an offset of the file.
    pub(crate) fn of_frame(index: u64, offset: u64, bytes: Vec<u8>) -> Part {
        let start = match read_varint(&bytes) {
            Ok((_, start)) => start,
            Err(_) => 0,
        };
        Part {
            frame: Some(index),
            offset,
            bytes,
            start,
        }
    }
}

/// The types that names are taken from, and what the first records are in.
#[derive(Drop)]
struct Types {
    pool: Pool,
    parent: Parent,
}

/// Writes the lines about bytes of a message that are refused.
pub(crate) fn explain_message<F: Files>(
    alloc: Global,
    subject: Subject<'_>,
    at: At<'_>,
    files: &mut F,
    lines: &mut MemOutput,
) {
    match subject {
        Subject::Records { file } => {
            let part = part_of(alloc, file, at.byte, files);
            put_part(untyped(alloc), file, part, at, lines);
        }
        Subject::Messages { message_type, file } => {
            let part = part_of(alloc, file, at.byte, files);
            let types = types_of(alloc, &message_type, files);
            put_part(types, file, part, at, lines);
        }
        Subject::Set { .. } | Subject::Sources { .. } => {}
    }
}

/// Writes the lines about a frame of a stream that is refused.
pub(crate) fn explain_frame<F: Files>(
    alloc: Global,
    subject: Subject<'_>,
    index: u64,
    at: At<'_>,
    files: &mut F,
    lines: &mut MemOutput,
) {
    let Subject::Messages { message_type, file } = subject else {
        return;
    };
    let part = frame_of(alloc, file, index, at.byte, files);
    let types = types_of(alloc, &message_type, files);
    put_part(types, file, part, at, lines);
}

/// Writes the lines about bytes of a descriptor set that are refused, first what its file looks like.
pub(crate) fn explain_set_bytes<F: Files>(
    alloc: Global,
    subject: Subject<'_>,
    at: At<'_>,
    files: &mut F,
    lines: &mut MemOutput,
) {
    let Some(set) = subject.set() else {
        return;
    };
    put_format(alloc, set.file, files, lines);
    let part = part_of(alloc, set.file, at.byte, files);
    put_part(set_types(alloc), set.file, part, at, lines);
}

/// The bytes of a file up to those after a refused one.
fn part_of<F: Files>(alloc: Global, file: &str, byte: u64, files: &mut F) -> Option<Part> {
    let Ok(Some(mut input)) = files.open(file) else {
        return None;
    };
    let Ok(bytes) = read_up_to(alloc, &mut input, limit_after(byte)) else {
        return None;
    };
    Some(Part {
        frame: None,
        offset: 0,
        bytes,
        start: 0,
    })
}

/// How many bytes are read where this one is refused.
pub(crate) fn limit_after(byte: u64) -> usize {
    (byte as usize).saturating_add(AFTER)
}

/// The bytes of a frame of a stream up to those after a refused one.
fn frame_of<F: Files>(
    alloc: Global,
    file: &str,
    index: u64,
    byte: u64,
    files: &mut F,
) -> Option<Part> {
    let Ok(Some(mut input)) = files.open(file) else {
        return None;
    };
    frame_in(alloc, index, byte, &mut input)
}

/// The same of an input.
fn frame_in<I: Input>(alloc: Global, index: u64, byte: u64, input: &mut I) -> Option<Part> {
    let Ok(Some(offset)) = pass_frames(input, index) else {
        return None;
    };
    let Ok(bytes) = read_up_to(alloc, input, limit_after(byte)) else {
        return None;
    };
    Some(Part::of_frame(index, offset, bytes))
}

/// The types of a descriptor set that is read again, and the message type of a name among them; without them nothing has a name.
fn types_of<F: Files>(alloc: Global, message_type: &TypeOf<'_>, files: &mut F) -> Option<Types> {
    match find_type(
        alloc,
        message_type.reading,
        message_type.set,
        message_type.name,
        files,
    ) {
        Ok((pool, id)) => Some(Types {
            pool,
            parent: Parent::Message(id),
        }),
        Err(_) => untyped(alloc),
    }
}

/// No types.
fn untyped(alloc: Global) -> Option<Types> {
    let Ok(pool) = Pool::from_parts(alloc, Vec::new(alloc), Vec::new(alloc), Vec::new(alloc)) else {
        return None;
    };
    Some(Types {
        pool,
        parent: Parent::Untyped,
    })
}

/// The types of a descriptor set itself.
fn set_types(alloc: Global) -> Option<Types> {
    let Ok(pool) = descriptor_pool(alloc) else {
        return None;
    };
    match pool.message_by_name("google.protobuf.FileDescriptorSet") {
        Some(id) => Some(Types {
            pool,
            parent: Parent::Message(id),
        }),
        None => None,
    }
}

/// Writes the lines about a byte of a part of a file, if the file and types could be read.
fn put_part(
    types: Option<Types>,
    file: &str,
    part: Option<Part>,
    at: At<'_>,
    lines: &mut MemOutput,
) {
    let Some(types) = types else {
        return;
    };
    let Some(part) = part else {
        return;
    };
    put_at(&types.pool, types.parent, file, &part, at, lines);
}

/// Writes the lines about a byte of a part of a file.
pub(crate) fn put_at(
    pool: &Pool,
    parent: Parent,
    file: &str,
    part: &Part,
    at: At<'_>,
    lines: &mut MemOutput,
) {
    let byte = at.byte as usize;
    if byte > part.bytes.len() || part.offset.checked_add(at.byte).is_none() {
        return;
    }
    let given = Given {
        file: shown_name(file),
        frame: part.frame,
        offset: part.offset,
        bytes: part.bytes.as_slice(),
        start: part.start,
    };
    let refused = Refused {
        byte,
        path: at.path,
        cause: at.cause,
    };
    let mut sink = Sink::new();
    put_fault(&mut sink, lines, pool, parent, given, refused);
    let _ = sink.finish(lines);
}
