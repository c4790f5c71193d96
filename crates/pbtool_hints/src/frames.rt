//! The frames of a stream that are refused, read again.

ghost use Rattle.std.specs.Prelude.{◌<◌, length};

use crate::bytes::{At, Part, limit_after, put_at};
use crate::subject::Subject;
use pb_schema::{MessageId, Pool};
use pb_stream::{NextFrame, Reason, next_frame};
use pb_wire::{Input, Limits, MemOutput, read_up_to};
use pbtool_explain::Parent;
use pbtool_files::{Files, find_type};
use std::alloc::Global;

/// How many bytes are passed over at a time.
const PIECE: usize = 65536;

/// The messages of a type that are read once more.
#[derive(Drop)]
struct Stream<'s> {
    alloc: Global,
    pool: &'s Pool,
    message_type: MessageId,
    file: &'s str,
    ghost typed: { message_type.0 < length pool.now.messages },
}

/// An input that is read on to what is shown of it: the bytes that were read last, and where in the input they begin.
#[derive(Drop)]
struct Window<I> {
    input: I,
    offset: u64,
    bytes: Vec<u8>,
}

/// Writes the lines about each frame of a stream that is refused. The file is read twice side by side: to find these frames, and for
/// their bytes.
pub(crate) fn explain_frames<F: Files>(
    alloc: Global,
    subject: Subject<'_>,
    files: &mut F,
    lines: &mut MemOutput,
) {
    let Subject::Messages { message_type, file } = subject else {
        return;
    };
    let Ok((pool, id)) = find_type(
        alloc,
        message_type.reading,
        message_type.set,
        message_type.name,
        files,
    ) else {
        return;
    };
    let Ok(Some(mut input)) = files.open(file) else {
        return;
    };
    let Ok(Some(again)) = files.open(file) else {
        return;
    };
    let stream = Stream {
        alloc,
        pool: &pool,
        message_type: id,
        file,
    };
    let mut window = Window {
        input: again,
        offset: 0,
        bytes: Vec::new(alloc),
    };
    put_refused(&stream, &mut input, &mut window, lines);
}

/// Writes the lines about the frames of an input that are refused.
fn put_refused<I: Input, J: Input + Drop>(
    stream: &Stream<'_>,
    input: &mut I,
    window: &mut Window<J>,
    lines: &mut MemOutput,
) {
    let mut offset: u64 = 0;
    for index in 0..u64::MAX {
        match next_frame(
            stream.alloc,
            stream.pool,
            stream.message_type,
            input,
            Limits::FULL,
        ) {
            Ok(
                NextFrame::Message {
                    message: _message,
                    size,
                },
            ) => {
                offset = offset.saturating_add(size);
            }
            Ok(NextFrame::Refused { reason, size }) => {
                put_frame(stream, index, offset, &reason, window, lines);
                offset = offset.saturating_add(size);
            }
            Ok(NextFrame::Cut { reason }) => {
                put_frame(stream, index, offset, &reason, window, lines);
                return;
            }
            Ok(NextFrame::End) => return,
            Err(_error) => return,
        }
    }
}

/// Writes the lines about the frame of an index, which begins at an offset.
fn put_frame<I: Input + Drop>(
    stream: &Stream<'_>,
    index: u64,
    offset: u64,
    reason: &Reason,
    window: &mut Window<I>,
    lines: &mut MemOutput,
) {
    let Some(bytes) = window.bytes_at(stream.alloc, offset, limit_after(reason.byte)) else {
        return;
    };
    let part = Part::of_frame(index, offset, bytes);
    let at = At::new(reason.byte, &reason.path, reason.cause);
    put_at(
        stream.pool,
        Parent::Message(stream.message_type),
        stream.file,
        &part,
        at,
        lines,
    );
}

impl<I: Input + Drop> Window<I> {
    /// The bytes from an offset on, this number of them or as many as there are. None where the offset is before the bytes that are
    /// held, or reading fails.
    fn bytes_at(&mut self, alloc: Global, offset: u64, count: usize) -> Option<Vec<u8>> {
        self.move_to(alloc, offset)?;
        let missing = count.saturating_sub(self.bytes.len());
        let Ok(more) = read_up_to(alloc, &mut self.input, missing) else {
            return None;
        };
        self.append(&more)?;
        self.first(alloc, count)
    }

    /// Drops the bytes before an offset, and reads on to it.
    fn move_to(&mut self, alloc: Global, offset: u64) -> Option<()> {
        let count = offset.checked_sub(self.offset)?;
        let held = self.bytes.len();
        let dropped = count.min(held as u64) as usize;
        let Ok(kept) = Vec::from_slice(alloc, &self.bytes[dropped.min(held)..]) else {
            return None;
        };
        self.bytes = kept;
        self.pass(alloc, count.saturating_sub(dropped as u64))?;
        self.offset = offset;
        Some(())
    }

    /// Reads over this number of bytes. None where there are fewer.
    fn pass(&mut self, alloc: Global, count: u64) -> Option<()> {
        let mut left = count;
        for _ in 0..count {
            if left == 0 {
                return Some(());
            }
            let piece = left.min(PIECE as u64);
            let Ok(passed) = read_up_to(alloc, &mut self.input, piece as usize) else {
                return None;
            };
            if (passed.len() as u64) < piece {
                return None;
            }
            left = left.saturating_sub(piece);
        }
        Some(())
    }

    fn append(&mut self, more: &[u8]) -> Option<()> {
        match self.bytes.extend_from_slice(more) {
            Ok(()) => Some(()),
            Err(_) => None,
        }
    }

    /// The first bytes that are held.
    fn first(&self, alloc: Global, count: usize) -> Option<Vec<u8>> {
        let shown = &self.bytes[..count.min(self.bytes.len())];
        match Vec::from_slice(alloc, shown) {
            Ok(bytes) => Some(bytes),
            Err(_) => None,
        }
    }
}
