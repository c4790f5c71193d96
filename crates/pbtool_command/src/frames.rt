//! The messages of a file, each after its length.

ghost use Rattle.std.specs.Prelude.{◌≡◌, ◌≢◌, ◌<◌, ◌⊎◌, [], false, length, true, IfErr, OnOk};
ghost use Rattle.pb_wire.specs.Limits.{full};
ghost use Rattle.pb_input.specs.Buffered.{left_of, of_input};
ghost use Rattle.pb_decode.specs.FromDevice.{TellsFailures};
ghost use Rattle.pbtool_files.specs.FileMap.{IsSaved, IsUnsaved};
ghost use Rattle.pbtool_command.specs.FramesAnswer.{AreFrameLines, are_json, frame_line};
ghost use Rattle.pb_json.specs.Answers.{RefusedAs};
ghost use Rattle.pb_listing.specs.Putting.{PutsSome};
ghost use Rattle.pb_output.specs.Sending.{Cut, Sent};
ghost use Rattle.pb_output.specs.Sink.{Puts};
ghost use Rattle.pbtool_command.specs.Steps.{Comes, NoFile, StreamAt, StreamBegun, StreamBegunAt, StreamOf};
ghost use Rattle.pbtool_command.specs.Streaming.{FramesBegunIn, FramesIn, IsToldOfFormless, IsToldOfFrame, PutsFrames, PutsNext, ReadsNext};
ghost use Rattle.pbtool_command.specs.ReadFailures.{NextCounts, StopCounts};
ghost use Rattle.pbtool_files.specs.Refusal.{KeepsFailures, names_device};

use crate::cleanup::{Cleanup, clean_up};
use crate::command::{FrameForm, Source};
use crate::form::put_json_line;
use crate::shown::Shown;
use pb_decode::DecodeError;
use pb_input::BufferedInput;
use pb_json::{JsonError, Layout};
use pb_listing::{FloatForm, put_listing_as};
use pb_output::Sink;
use pb_schema::{MessageId, Pool};
use pb_stream::DelimitedReader;
use pb_value::DynamicMessage;
use pb_wire::{Input, Limits, Output};
use pbtool_files::{Files, OUTPUT, Refusal, find_named_type, find_type, open_file};
use std::alloc::Global;

/// What comes of the frame that follows.
#[derive(Drop)]
enum Next<'a> {
    /// Its lines are put.
    Put,
    /// Nothing is left.
    End,
    /// It is refused.
    Refused(Refusal<'a>),
}

/// Shows the messages of a file up to its end or to what is no message. What was printed before a refusal stays.
pub fn frames<'a, F: Files, O: Output>(
    alloc: Global,
    cleanup: Cleanup,
    form: FrameForm,
    source: &Source<'a>,
    files: &mut F,
    out: &mut O,
) -> Result<(), Refusal<'a>>
    ensures comes { Comes (Sent O.written O.failures out.old out.new)
        (Cut O.written O.failures out.old out.new)
        (IsSaved F.contents files.old files.new)
        (IsUnsaved F.contents F.failures files.old files.new)
        (StreamOf F.contents F.is_steady files.old form source.now)
        (StreamBegun F.contents F.is_steady files.old form source.now) result }
    ensures kept { KeepsFailures F.failures files.old files.new result }
    ensures unfailing { F.is_steady files.old ≡ true → F.failures files.new ≡ F.failures files.old }
{
    match form {
        FrameForm::Listing(floats) => listed_frames(alloc, cleanup, floats, source, files, out),
        FrameForm::Json => json_frames(alloc, cleanup, source, files, out),
    }
}

/// Lists the messages of a file.
fn listed_frames<'a, F: Files, O: Output>(
    alloc: Global,
    cleanup: Cleanup,
    floats: FloatForm,
    source: &Source<'a>,
    files: &mut F,
    out: &mut O,
) -> Result<(), Refusal<'a>>
    ensures comes { Comes (Sent O.written O.failures out.old out.new)
        (Cut O.written O.failures out.old out.new)
        (IsSaved F.contents files.old files.new)
        (IsUnsaved F.contents F.failures files.old files.new)
        (StreamOf F.contents F.is_steady files.old (FrameForm.Listing floats) source.now)
        (StreamBegun F.contents F.is_steady files.old (FrameForm.Listing floats)
        source.now) result }
    ensures kept { KeepsFailures F.failures files.old files.new result }
    ensures unfailing { F.is_steady files.old ≡ true → F.failures files.new ≡ F.failures files.old }
{
    let (pool, kind) = find_type(alloc, source.reading, source.set, source.type_name, files)?;
    let shown = Shown::Listing(floats);
    let answer = frames_at(alloc, shown, &pool, kind, source.file, files, out);
    clean_up(pool, cleanup);
    answer
}

/// Writes the messages of a file as JSON, with the names that the set gives to fields.
fn json_frames<'a, F: Files, O: Output>(
    alloc: Global,
    cleanup: Cleanup,
    source: &Source<'a>,
    files: &mut F,
    out: &mut O,
) -> Result<(), Refusal<'a>>
    ensures comes { Comes (Sent O.written O.failures out.old out.new)
        (Cut O.written O.failures out.old out.new)
        (IsSaved F.contents files.old files.new)
        (IsUnsaved F.contents F.failures files.old files.new)
        (StreamOf F.contents F.is_steady files.old FrameForm.Json source.now)
        (StreamBegun F.contents F.is_steady files.old FrameForm.Json source.now) result }
    ensures kept { KeepsFailures F.failures files.old files.new result }
    ensures unfailing { F.is_steady files.old ≡ true → F.failures files.new ≡ F.failures files.old }
{
    let named = find_named_type(alloc, source.reading, source.set, source.type_name, files)?;
    let shown = Shown::Json(&named.names);
    let answer = frames_at(
        alloc,
        shown,
        &named.pool,
        named.message_type,
        source.file,
        files,
        out,
    );
    clean_up(named, cleanup);
    answer
}

/// Shows the messages of a type that the file at a path holds.
fn frames_at<'a, F: Files, O: Output>(
    alloc: Global,
    form: Shown<'_>,
    pool: &Pool,
    message_type: MessageId,
    path: &'a str,
    files: &mut F,
    out: &mut O,
) -> Result<(), Refusal<'a>>
    requires { message_type.0 < length pool.now.messages }
    ensures comes { Comes (Sent O.written O.failures out.old out.new)
        (Cut O.written O.failures out.old out.new)
        (IsSaved F.contents files.old files.new)
        (IsUnsaved F.contents F.failures files.old files.new)
        (StreamAt F.contents F.is_steady files.old form.entry pool.now
        message_type.0 path.entry.now)
        (StreamBegunAt F.contents F.is_steady files.old form.entry pool.now message_type.0
        path.entry.now) result }
    ensures kept { KeepsFailures F.failures files.old files.new result }
    ensures unfailing { F.is_steady files.old ≡ true → F.failures files.new ≡ F.failures files.old }
{
    let input = open_file(path, files)?;
    let buffered = BufferedInput::new(input);
    let mut reader = DelimitedReader::new(alloc, pool, message_type, buffered, Limits::FULL);
    write_frames(form, &mut reader, path, out)
}

/// Writes the lines of the frames that are left, and then reports why what follows them is refused, if it is.
fn write_frames<'a, I: Input + Drop, O: Output>(
    form: Shown<'_>,
    reader: &mut DelimitedReader<'_, BufferedInput<I>>,
    path: &'a str,
    out: &mut O,
) -> Result<(), Refusal<'a>>
    requires first { reader.old.taken ≡ 0 }
    requires open { reader.old.finished ≡ false }
    requires full { reader.old.limits ≡ full }
    ensures comes { Comes (Sent O.written O.failures out.old out.new)
        (Cut O.written O.failures out.old out.new) NoFile (λ _. ⊥)
        (FramesIn (left_of I.left) (of_input I.is_steady) reader.old.input form.entry
        path.entry.now reader.old.pool reader.old.kind)
        (FramesBegunIn (left_of I.left) (of_input I.is_steady) reader.old.input form.entry
        reader.old.pool reader.old.kind) result }
    ensures kept { KeepsFailures (λ r. of_input I.failures r.input) reader.old reader.new result }
    ensures failed { IfErr result (λ e. names_device e ≡ true
        → (of_input I.failures reader.new.input ≢ of_input I.failures reader.old.input)
        ⊎ (O.failures out.new ≢ O.failures out.old)) }
{
    let mut sink = Sink::new();
    let stop = put_frames(&mut sink, out, form, reader, path);
    let Ok(()) = sink.finish(out) else {
        return Err(Refusal::Device(OUTPUT));
    };
    match stop {
        None => Ok(()),
        Some(refusal) => Err(refusal),
    }
}

/// The lines of the frames that are left, and why what follows them is refused, if it is. Where the output fails, no more is read.
fn put_frames<'a, I: Input + Drop, O: Output>(
    sink: &mut Sink,
    out: &mut O,
    form: Shown<'_>,
    reader: &mut DelimitedReader<'_, BufferedInput<I>>,
    path: &'a str,
) -> Option<Refusal<'a>>
    requires first { reader.old.taken ≡ 0 }
    requires open { reader.old.finished ≡ false }
    requires full { reader.old.limits ≡ full }
    ensures puts { PutsFrames (left_of I.left) (of_input I.is_steady) reader.old.input
        O.written O.failures out.old out.new sink.old sink.new
        form.entry path.entry.now reader.old.pool reader.old.kind result }
    ensures reads { StopCounts (of_input I.failures reader.old.input)
        (of_input I.failures reader.new.input) result }
{
    for index in 0..u64::MAX {
        if sink.has_failed() {
            return None;
        }
        match put_next(sink, out, form, index, reader, path) {
            Next::Put => {}
            Next::End => return None,
            Next::Refused(refusal) => return Some(refusal),
        }
    }
    None
}

/// The lines of the next frame, which has this index.
fn put_next<'a, I: Input + Drop, O: Output>(
    sink: &mut Sink,
    out: &mut O,
    form: Shown<'_>,
    index: u64,
    reader: &mut DelimitedReader<'_, BufferedInput<I>>,
    path: &'a str,
) -> Next<'a>
    requires { reader.old.finished ≡ false }
    ensures puts { PutsNext O.written O.failures (left_of I.left) (of_input I.is_steady)
        out.old out.new sink.old sink.new
        reader.old reader.new form.entry index path.entry result }
    ensures reads { NextCounts (of_input I.failures reader.old.input)
        (of_input I.failures reader.new.input) result }
{
    let offset = reader.taken();
    match next_message(sink, out, reader) {
        Ok(None) => Next::End,
        Ok(Some(message)) => {
            let size = reader.taken() - offset;
            match put_frame(sink, out, form, index, offset, size, &message) {
                Ok(()) => Next::Put,
                Err(error) => Next::Refused(formless(index, error)),
            }
        }
        Err(error) => Next::Refused(refusal_at(index, path, error)),
    }
}

/// The next message. What was put is written before more of the input is waited for.
fn next_message<'p, I: Input + Drop, O: Output>(
    sink: &mut Sink,
    out: &mut O,
    reader: &mut DelimitedReader<'p, BufferedInput<I>>,
) -> Result<Option<DynamicMessage<'p>>, DecodeError>
    requires { reader.old.finished ≡ false }
    ensures puts { Puts O.written O.failures out.old out.new sink.old sink.new [] }
    ensures live { (reader.new.input.input ≡ reader.old.input.input) ⊎ (sink.new.held ≡ []) }
    ensures reads { ReadsNext (left_of I.left) (of_input I.is_steady) reader.old reader.new
        result }
    ensures failures { TellsFailures result (of_input I.failures reader.old.input)
        (of_input I.failures reader.new.input) }
{
    if let Some(message) = reader.next_held()? {
        let _body = message.body();
        return Ok(Some(message));
    }
    sink.flush(out);
    wait_for_message(sink, reader)
}

/// The next message of an input that may have to be waited for. All that was put is written.
fn wait_for_message<'p, I: Input + Drop>(
    _sink: &Sink,
    reader: &mut DelimitedReader<'p, BufferedInput<I>>,
) -> Result<Option<DynamicMessage<'p>>, DecodeError>
    requires live { _sink.now.held ≡ [] }
    requires open { reader.old.finished ≡ false }
    ensures reads { ReadsNext (left_of I.left) (of_input I.is_steady) reader.old reader.new
        result }
    ensures failures { TellsFailures result (of_input I.failures reader.old.input)
        (of_input I.failures reader.new.input) }
{
    match reader.next() {
        Ok(None) => Ok(None),
        Ok(Some(message)) => {
            let _body = message.body();
            Ok(Some(message))
        }
        Err(error) => Err(error),
    }
}

/// Puts what is printed of a frame. Where its message has no JSON form, nothing is put.
pub(crate) fn put_frame<O: Output>(
    sink: &mut Sink,
    out: &mut O,
    form: Shown<'_>,
    index: u64,
    offset: u64,
    size: u64,
    message: &DynamicMessage<'_>,
) -> Result<(), JsonError>
    ensures put { OnOk result (PutsSome O.written O.failures out.old out.new sink.old sink.new
        (AreFrameLines form.entry message.now.pool message.now.kind index offset size
        message.now.body)) }
    ensures failed { IfErr result (λ e. (are_json form.entry ≡ true) × RefusedAs message.now e
        × (out.new ≡ out.old) × (sink.new ≡ sink.old)) }
{
    match form {
        Shown::Listing(floats) => {
            put_listed(sink, out, floats, index, offset, size, message);
            Ok(())
        }
        Shown::Json(names) => put_json_line(sink, out, Layout::Compact, names, message),
    }
}

/// The line of a frame, and the listing of its message one level in.
fn put_listed<O: Output>(
    sink: &mut Sink,
    out: &mut O,
    floats: FloatForm,
    index: u64,
    offset: u64,
    size: u64,
    message: &DynamicMessage<'_>,
)
    ensures { PutsSome O.written O.failures out.old out.new sink.old sink.new
        (AreFrameLines (Shown.Listing floats) message.now.pool message.now.kind index offset size
        message.now.body) }
{
    put_frame_line(sink, out, index, offset, size);
    put_listing_as(sink, out, 1, message, floats);
}

fn put_frame_line<O: Output>(sink: &mut Sink, out: &mut O, index: u64, offset: u64, size: u64)
    ensures { Puts O.written O.failures out.old out.new sink.old sink.new
        (frame_line index offset size) }
{
    sink.reserve(out, 128);
    sink.held.push(b"frame ");
    sink.held.push_decimal(index);
    sink.held.push(b" at ");
    sink.held.push_decimal(offset);
    sink.held.push(b" size ");
    sink.held.push_decimal(size);
    sink.held.push(b"\n");
}

/// Why the frame of an index is refused.
fn refusal_at<'a>(index: u64, path: &'a str, error: DecodeError) -> Refusal<'a>
    ensures { IsToldOfFrame index path.entry error result }
{
    match error {
        DecodeError::Fault { byte, path, cause } => Refusal::Frame {
            index,
            byte,
            path,
            cause,
        },
        DecodeError::Device => Refusal::Device(path),
        DecodeError::Memory | DecodeError::Finished => Refusal::Memory,
    }
}

/// Why the frame of an index is refused whose message is not written as JSON.
fn formless<'a>(index: u64, error: JsonError) -> Refusal<'a>
    ensures { IsToldOfFormless index error result }
{
    match error {
        JsonError::Refused(refusal) => Refusal::FrameJson {
            index,
            path: refusal.path,
            cause: refusal.cause,
        },
        JsonError::Memory | JsonError::Output => Refusal::Memory,
    }
}
