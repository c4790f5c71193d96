//! All messages of a file, each after its length: those that are refused are reported, and the others shown.

ghost use Rattle.std.specs.Prelude.{◌≡◌, ◌≢◌, ◌+◌, ◌-◌, ◌++◌, ◌<◌, ◌≤◌, ◌⊎◌, ◌^◌, [], length, min, true, Err, IfErr, IfOk, IsErrOf, OnOk};
ghost use Rattle.pbtool_files.specs.FileMap.{IsSaved, IsUnsaved};
ghost use Rattle.pbtool_files.specs.Known.{OfInput};
ghost use Rattle.pbtool_files.specs.Refusal.{KeepsFailures, names_device, refusal_line};
ghost use Rattle.pbtool_files.specs.Report.{frame_fault_line, frame_json_line};
ghost use Rattle.pb_input.specs.Buffered.{Buffered, left_of, of_input};
ghost use Rattle.pb_wire.specs.Limits.{full};
ghost use Rattle.pb_stream.specs.Next.{IsNext, IsOfType, fault_of};
ghost use Rattle.pb_json.specs.declared.error.Refusal.{Refusal as JsonRefusal};
ghost use Rattle.pb_output.specs.Sending.{Cut, Sent};
ghost use Rattle.pb_output.specs.Sink.{Puts};
ghost use Rattle.pb_output.specs.declared.sink.Sink.{Sink as Sunk};
ghost use Rattle.pbtool_command.specs.AllFrames.{AllBegunBy, AllFramesBy};
ghost use Rattle.pbtool_command.specs.PassingOn.{Concludes, IsGoing, PutsAnswer, TurnIs};
ghost use Rattle.pbtool_command.specs.ReadFailures.{TurnCounts};
ghost use Rattle.pbtool_command.specs.Steps.{AllBegunAtPath, AllBegunOf, AllFramesAtPath, AllFramesOf, Comes, NoFile};

use crate::cleanup::{Cleanup, clean_up};
use crate::command::{FrameForm, Source};
use crate::frames::put_frame;
use crate::shown::Shown;
use pb_input::BufferedInput;
use pb_json::JsonError;
use pb_listing::FloatForm;
use pb_output::Sink;
use pb_schema::{MessageId, Pool};
use pb_stream::{NextFrame, Reason, next_frame, next_held_frame};
use pb_wire::{FailurePlan, Input, Limits, MemOutput, Output, ReadFault};
use pbtool_files::{Files, OUTPUT, Refusal, find_named_type, find_type, open_file};
use std::alloc::{AllocError, Global};

/// A stream of messages of a type, which are shown in a form: where it is read, and its file.
#[derive(Drop)]
struct Stream<'p, 'a> {
    alloc: Global,
    form: Shown<'p>,
    pool: &'p Pool,
    message_type: MessageId,
    path: &'a str,
    ghost typed: { message_type.0 < length pool.now.messages },
}

/// What was read of a stream so far: how many bytes, and how many frames that are refused, which these lines report.
#[derive(Drop)]
struct Progress {
    offset: u64,
    refused: u64,
    lines: Vec<u8>,
}

/// What comes of the frame that follows.
#[derive(Drop)]
enum Turn<'a> {
    /// It was shown, or reported and passed over.
    GoesOn,
    /// The stream is over: it has this number of frames.
    Ends(u64),
    /// Memory ran out, or the input failed.
    Stops(Refusal<'a>),
}

/// Shows the messages of a file up to its end, or to a frame whose end is not in it. Frames that are refused are passed over, and
/// reported when the last frame was read.
pub fn all_frames<'a, F: Files, O: Output>(
    alloc: Global,
    cleanup: Cleanup,
    form: FrameForm,
    source: &Source<'a>,
    files: &mut F,
    out: &mut O,
) -> Result<(), Refusal<'a>>
    ensures comes { Comes (Sent O.written O.failures out.old out.new)
        (Cut O.written O.failures out.old out.new)
        (IsSaved F.contents files.old files.new)
        (IsUnsaved F.contents F.failures files.old files.new)
        (AllFramesOf F.contents F.is_steady files.old form source.now)
        (AllBegunOf F.contents F.is_steady files.old form source.now) result }
    ensures kept { KeepsFailures F.failures files.old files.new result }
    ensures unfailing { F.is_steady files.old ≡ true → F.failures files.new ≡ F.failures files.old }
{
    match form {
        FrameForm::Listing(floats) => {
            all_frames_listed(alloc, cleanup, floats, source, files, out)
        }
        FrameForm::Json => all_frames_json(alloc, cleanup, source, files, out),
    }
}

/// Lists the messages of a file.
fn all_frames_listed<'a, F: Files, O: Output>(
    alloc: Global,
    cleanup: Cleanup,
    floats: FloatForm,
    source: &Source<'a>,
    files: &mut F,
    out: &mut O,
) -> Result<(), Refusal<'a>>
    ensures comes { Comes (Sent O.written O.failures out.old out.new)
        (Cut O.written O.failures out.old out.new)
        (IsSaved F.contents files.old files.new)
        (IsUnsaved F.contents F.failures files.old files.new)
        (AllFramesOf F.contents F.is_steady files.old (FrameForm.Listing floats) source.now)
        (AllBegunOf F.contents F.is_steady files.old (FrameForm.Listing floats) source.now) result }
    ensures kept { KeepsFailures F.failures files.old files.new result }
    ensures unfailing { F.is_steady files.old ≡ true → F.failures files.new ≡ F.failures files.old }
{
    let (pool, message_type) = find_type(
        alloc,
        source.reading,
        source.set,
        source.type_name,
        files,
    )?;
    let shown = Shown::Listing(floats);
    let answer = all_frames_at(alloc, shown, &pool, message_type, source.file, files, out);
    clean_up(pool, cleanup);
    answer
}

/// Writes the messages of a file as JSON, with the names that the set gives to fields.
fn all_frames_json<'a, F: Files, O: Output>(
    alloc: Global,
    cleanup: Cleanup,
    source: &Source<'a>,
    files: &mut F,
    out: &mut O,
) -> Result<(), Refusal<'a>>
    ensures comes { Comes (Sent O.written O.failures out.old out.new)
        (Cut O.written O.failures out.old out.new)
        (IsSaved F.contents files.old files.new)
        (IsUnsaved F.contents F.failures files.old files.new)
        (AllFramesOf F.contents F.is_steady files.old FrameForm.Json source.now)
        (AllBegunOf F.contents F.is_steady files.old FrameForm.Json source.now) result }
    ensures kept { KeepsFailures F.failures files.old files.new result }
    ensures unfailing { F.is_steady files.old ≡ true → F.failures files.new ≡ F.failures files.old }
{
    let named = find_named_type(alloc, source.reading, source.set, source.type_name, files)?;
    let shown = Shown::Json(&named.names);
    let answer = all_frames_at(
        alloc,
        shown,
        &named.pool,
        named.message_type,
        source.file,
        files,
        out,
    );
    clean_up(named, cleanup);
    answer
}

/// Shows the messages of a type that the file at a path holds.
fn all_frames_at<'a, F: Files, O: Output>(
    alloc: Global,
    form: Shown<'_>,
    pool: &Pool,
    message_type: MessageId,
    path: &'a str,
    files: &mut F,
    out: &mut O,
) -> Result<(), Refusal<'a>>
    requires { message_type.0 < length pool.now.messages }
    ensures comes { Comes (Sent O.written O.failures out.old out.new)
        (Cut O.written O.failures out.old out.new)
        (IsSaved F.contents files.old files.new)
        (IsUnsaved F.contents F.failures files.old files.new)
        (AllFramesAtPath F.contents F.is_steady files.old form.entry pool.now
        message_type.0 path.entry.now)
        (AllBegunAtPath F.contents F.is_steady files.old form.entry pool.now message_type.0
        path.entry.now) result }
    ensures kept { KeepsFailures F.failures files.old files.new result }
    ensures unfailing { F.is_steady files.old ≡ true → F.failures files.new ≡ F.failures files.old }
{
    let input = open_file(path, files)?;
    let mut buffered = BufferedInput::new(input);
    let stream = Stream {
        alloc,
        form,
        pool,
        message_type,
        path,
    };
    write_all_frames(&stream, &mut buffered, out)
}

/// Writes the lines of the frames of an input, and then reports those that are refused.
fn write_all_frames<'a, I: Input + Drop, O: Output>(
    stream: &Stream<'_, 'a>,
    input: &mut BufferedInput<I>,
    out: &mut O,
) -> Result<(), Refusal<'a>>
    ensures comes { Comes (Sent O.written O.failures out.old out.new)
        (Cut O.written O.failures out.old out.new) NoFile (λ _. ⊥)
        (AllFramesBy (OfInput (left_of I.left) (of_input I.is_steady) input.old) stream.now.form stream.now.path.now
        stream.now.pool.now stream.now.message_type.0)
        (AllBegunBy (OfInput (left_of I.left) (of_input I.is_steady) input.old) stream.now.form stream.now.pool.now
        stream.now.message_type.0) result }
    ensures kept { KeepsFailures (of_input I.failures) input.old input.new result }
    ensures failed { IfErr result (λ e. names_device e ≡ true
        → (of_input I.failures input.new ≢ of_input I.failures input.old)
        ⊎ (O.failures out.new ≢ O.failures out.old)) }
{
    let mut sink = Sink::new();
    let outcome = put_all_frames(&mut sink, out, stream, input);
    let Ok(()) = sink.finish(out) else {
        return Err(Refusal::Device(OUTPUT));
    };
    outcome
}

/// The lines of the frames of an input, and what is reported of them. Where the output fails, no more is read.
fn put_all_frames<'a, I: Input + Drop, O: Output>(
    sink: &mut Sink,
    out: &mut O,
    stream: &Stream<'_, 'a>,
    input: &mut BufferedInput<I>,
) -> Result<(), Refusal<'a>>
    ensures puts { PutsAnswer O.written O.failures out.old out.new sink.old sink.new
        (AllFramesBy (OfInput (left_of I.left) (of_input I.is_steady) input.old) stream.now.form stream.now.path.now
        stream.now.pool.now stream.now.message_type.0)
        (AllBegunBy (OfInput (left_of I.left) (of_input I.is_steady) input.old) stream.now.form stream.now.pool.now
        stream.now.message_type.0) result }
    ensures kept { KeepsFailures (of_input I.failures) input.old input.new result }
    ensures failed { IfErr result (λ e. names_device e ≡ true
        → of_input I.failures input.new ≢ of_input I.failures input.old) }
{
    let mut progress = Progress {
        offset: 0,
        refused: 0,
        lines: Vec::new(stream.alloc),
    };
    for index in 0..u64::MAX {
        if sink.has_failed() {
            return Ok(());
        }
        match put_turn(sink, out, stream, input, index, &mut progress) {
            Turn::GoesOn => {}
            Turn::Ends(count) => return progress.conclude(count),
            Turn::Stops(refusal) => return Err(refusal),
        }
    }
    progress.conclude(u64::MAX)
}

/// Puts the lines of the next frame, or reports it.
fn put_turn<'a, I: Input + Drop, O: Output>(
    sink: &mut Sink,
    out: &mut O,
    stream: &Stream<'_, 'a>,
    input: &mut BufferedInput<I>,
    index: u64,
    progress: &mut Progress,
) -> Turn<'a>
    requires more { index < 2 ^ 64 - 1 }
    requires few { progress.old.refused ≤ index }
    ensures puts { (d : O) (a : Sunk) (i : Buffered I)
        → IsGoing O.written O.failures (left_of I.left) (of_input I.is_steady) d out.old a sink.old i input.old
        stream.now.form stream.now.pool.now stream.now.message_type.0 index progress.old
        → TurnIs O.written O.failures (left_of I.left) (of_input I.is_steady) d out.new a sink.new i input.new
        stream.now.form stream.now.pool.now stream.now.message_type.0 index progress.new
        stream.now.path.now result }
    ensures reads { TurnCounts (of_input I.failures input.old) (of_input I.failures input.new) result }
{
    let offset = progress.offset;
    match take_frame(sink, out, stream, input) {
        Err(ReadFault::Device) => Turn::Stops(Refusal::Device(stream.path)),
        Err(ReadFault::Memory) => Turn::Stops(Refusal::Memory),
        Ok(NextFrame::End) => Turn::Ends(index),
        Ok(NextFrame::Message { message, size }) => {
            let _body = message.body();
            match put_frame(sink, out, stream.form, index, offset, size, &message) {
                Ok(()) => {
                    progress.offset = offset.saturating_add(size);
                    Turn::GoesOn
                }
                Err(error) => match progress.report_formless(stream.alloc, index, size, error) {
                    Ok(()) => Turn::GoesOn,
                    Err(refusal) => Turn::Stops(refusal),
                },
            }
        }
        Ok(NextFrame::Refused { reason, size }) => {
            match progress.report(stream.alloc, index, size, reason) {
                Ok(()) => Turn::GoesOn,
                Err(refusal) => Turn::Stops(refusal),
            }
        }
        Ok(NextFrame::Cut { reason }) => match progress.report(stream.alloc, index, 0, reason) {
            Ok(()) => Turn::Ends(index + 1),
            Err(refusal) => Turn::Stops(refusal),
        },
    }
}

/// Takes the next frame. What was put is written before more of the input is waited for.
fn take_frame<'p, I: Input + Drop, O: Output>(
    sink: &mut Sink,
    out: &mut O,
    stream: &Stream<'p, '_>,
    input: &mut BufferedInput<I>,
) -> Result<NextFrame<'p>, ReadFault>
    ensures puts { Puts O.written O.failures out.old out.new sink.old sink.new [] }
    ensures live { (input.new.input ≡ input.old.input) ⊎ (sink.new.held ≡ []) }
    ensures of_type { IfOk result (IsOfType stream.now.pool.now stream.now.message_type.0) }
    ensures next { IfOk result (IsNext stream.now.pool.now stream.now.message_type.0 full
        (left_of I.left input.old) (left_of I.left input.new)) }
    ensures kept { OnOk result (of_input I.failures input.new ≡ of_input I.failures input.old) }
    ensures failed { IsErrOf result ReadFault.Device
        → of_input I.failures input.new ≢ of_input I.failures input.old }
    ensures memory { IsErrOf result ReadFault.Memory
        → of_input I.failures input.new ≡ of_input I.failures input.old }
    ensures steady { of_input I.is_steady input.old ≡ true → result ≢ Err ReadFault.Device }
    ensures stays { of_input I.is_steady input.old ≡ true
        → of_input I.is_steady input.new ≡ true }
{
    let held = next_held_frame(
        stream.alloc,
        stream.pool,
        stream.message_type,
        input,
        Limits::FULL,
    )?;
    if let Some(next) = held {
        return Ok(next);
    }
    sink.flush(out);
    wait_for_frame(sink, stream, input)
}

/// Takes the next frame of an input that may have to be waited for. All that was put is written.
fn wait_for_frame<'p, I: Input + Drop>(
    _sink: &Sink,
    stream: &Stream<'p, '_>,
    input: &mut BufferedInput<I>,
) -> Result<NextFrame<'p>, ReadFault>
    requires { _sink.now.held ≡ [] }
    ensures of_type { IfOk result (IsOfType stream.now.pool.now stream.now.message_type.0) }
    ensures next { IfOk result (IsNext stream.now.pool.now stream.now.message_type.0 full
        (left_of I.left input.old) (left_of I.left input.new)) }
    ensures kept { OnOk result (of_input I.failures input.new ≡ of_input I.failures input.old) }
    ensures failed { IsErrOf result ReadFault.Device
        → of_input I.failures input.new ≢ of_input I.failures input.old }
    ensures memory { IsErrOf result ReadFault.Memory
        → of_input I.failures input.new ≡ of_input I.failures input.old }
    ensures steady { of_input I.is_steady input.old ≡ true → result ≢ Err ReadFault.Device }
    ensures stays { of_input I.is_steady input.old ≡ true
        → of_input I.is_steady input.new ≡ true }
{
    next_frame(
        stream.alloc,
        stream.pool,
        stream.message_type,
        input,
        Limits::FULL,
    )
}

impl Progress {
    /// Reports the frame of an index, which is refused and has this number of bytes.
    fn report<'a>(
        &mut self,
        alloc: Global,
        index: u64,
        size: u64,
        reason: Reason,
    ) -> Result<(), Refusal<'a>>
        requires { self.old.refused < 2 ^ 64 - 1 }
        ensures reported { OnOk result
            (self.new.lines.items ≡ self.old.lines.items ++ frame_fault_line index
            (fault_of reason)) }
        ensures refused { OnOk result (self.new.refused ≡ self.old.refused + 1) }
        ensures offset { OnOk result (self.new.offset ≡ min (self.old.offset + size) (2 ^ 64 - 1)) }
        ensures memory { IfErr result (λ e. e ≡ Refusal.Memory) }
    {
        let refusal = Refusal::Frame {
            index,
            byte: reason.byte,
            path: reason.path,
            cause: reason.cause,
        };
        self.pass_over(alloc, size, &refusal)
    }

    /// Reports the frame of an index, of this number of bytes, whose message is not written as JSON.
    fn report_formless<'a>(
        &mut self,
        alloc: Global,
        index: u64,
        size: u64,
        error: JsonError,
    ) -> Result<(), Refusal<'a>>
        requires { self.old.refused < 2 ^ 64 - 1 }
        ensures reported { OnOk result ((refusal : JsonRefusal)
            × (error ≡ JsonError.Refused refusal)
            × (self.new.lines.items ≡ self.old.lines.items ++ frame_json_line index
            refusal.path.items refusal.cause)) }
        ensures refused { OnOk result (self.new.refused ≡ self.old.refused + 1) }
        ensures offset { OnOk result (self.new.offset ≡ min (self.old.offset + size) (2 ^ 64 - 1)) }
        ensures memory { IfErr result (λ e. e ≡ Refusal.Memory) }
    {
        let JsonError::Refused(found) = error else {
            return Err(Refusal::Memory);
        };
        let refusal = Refusal::FrameJson {
            index,
            path: found.path,
            cause: found.cause,
        };
        self.pass_over(alloc, size, &refusal)
    }

    /// Passes over a frame of this number of bytes, and reports why it is refused.
    fn pass_over<'a>(
        &mut self,
        alloc: Global,
        size: u64,
        refusal: &Refusal<'_>,
    ) -> Result<(), Refusal<'a>>
        requires { self.old.refused < 2 ^ 64 - 1 }
        ensures reported { OnOk result
            (self.new.lines.items ≡ self.old.lines.items ++ refusal_line refusal.now) }
        ensures refused { OnOk result (self.new.refused ≡ self.old.refused + 1) }
        ensures offset { OnOk result (self.new.offset ≡ min (self.old.offset + size) (2 ^ 64 - 1)) }
        ensures memory { IfErr result (λ e. e ≡ Refusal.Memory) }
    {
        append_line(alloc, &mut self.lines, refusal)?;
        self.refused += 1;
        self.offset = self.offset.saturating_add(size);
        Ok(())
    }

    /// What is answered where this number of frames were read: that nothing is refused, or the reports.
    fn conclude<'a>(self, count: u64) -> Result<(), Refusal<'a>>
        ensures { Concludes self.lines.items self.refused count result }
    {
        if self.refused == 0 {
            return Ok(());
        }
        Err(Refusal::Frames {
            lines: self.lines,
            refused: self.refused,
            count,
        })
    }
}

/// Appends the line of a refusal.
fn append_line(alloc: Global, lines: &mut Vec<u8>, refusal: &Refusal<'_>) -> Result<(), AllocError>
    ensures { OnOk result (lines.new.items ≡ lines.old.items ++ refusal_line refusal.now) }
{
    let mut line = MemOutput::new(alloc, usize::MAX, FailurePlan::NEVER);
    let Ok(()) = refusal.write(&mut line) else {
        return Err(AllocError);
    };
    lines.extend_from_slice(line.bytes())
}
