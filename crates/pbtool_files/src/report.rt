//! Why a command is refused, and the line that reports it.

ghost use Rattle.std.specs.Prelude.{◌≡◌, ◌≤◌, ◌++◌, codes, decimal, flat_map, length, MatchResult};
ghost use Rattle.pb_wire.specs.Fault.{fault};
ghost use Rattle.pb_wire.specs.PathText.{dotted, path_text, step_text};
ghost use Rattle.pbtool_files.specs.Report.{cause_end, device_line, fault_line, fields_text, frame_fault_line, frame_json_line};
ghost use Rattle.pbtool_files.specs.Report.{frames_line, json_line, json_text_line, link_line};
ghost use Rattle.pbtool_files.specs.Report.{set_cause_line, set_fault_line, shown_name, source_line, type_line};
ghost use Rattle.pbtool_files.specs.Refusal.{refusal_line, refusal_status};
ghost use Rattle.pb_output.specs.Sending.{Cut, Sent, SentOrCut};
ghost use Rattle.pb_output.specs.Sink.{Puts};

use pb_descr::{DeclCause, DescrError};
use pb_json::JsonCause;
use pb_link::{LinkCause, LinkError};
use pb_output::Sink;
use pb_source_tokens::SourceCause;
use pb_wire::{Cause, DeviceFault, Output, PathStep, RawError};
use std::alloc::{AllocError, AllocFailed};

/// The name that a report gives standard output.
pub const OUTPUT: &str = "-";

/// Why a command is refused.
#[derive(Debug, Drop)]
pub enum Refusal<'a> {
    /// The bytes of a message: where they fail, the steps to the open records outermost first, and why.
    Fault {
        byte: u64,
        path: Vec<PathStep>,
        cause: Cause,
    },
    /// The bytes of a descriptor set.
    Set {
        byte: u64,
        path: Vec<PathStep>,
        cause: Cause,
    },
    /// A declaration of the file with this index in a descriptor set.
    SetFile {
        file: usize,
        cause: DeclCause,
    },
    /// The first rule that the files of a set break: the file, the full name of the declaration, and the rule's cause.
    Link {
        file: String,
        full_name: String,
        cause: LinkCause,
    },
    /// No message type has this name.
    UnknownType(&'a str),
    /// An encoding has more than 2^31 - 1 bytes.
    TooLarge,
    /// The frame of this index: where it fails, counted from its first byte.
    Frame {
        index: u64,
        byte: u64,
        path: Vec<PathStep>,
        cause: Cause,
    },
    /// The message of the frame of this index has a part without a JSON form: the numbers of the fields that lead to it, outermost first,
    /// and why.
    FrameJson {
        index: u64,
        path: Vec<u32>,
        cause: JsonCause,
    },
    /// Frames of a stream, after which the others were read: the lines that report them, how many they are, and of how many.
    Frames {
        lines: Vec<u8>,
        refused: u64,
        count: u64,
    },
    /// The source of this name: where it fails, and why.
    Source {
        file: String,
        byte: u64,
        cause: SourceCause,
    },
    /// The first part of a message that has no JSON form: the numbers of the fields that lead to it, outermost first, and why.
    Json {
        path: Vec<u32>,
        cause: JsonCause,
    },
    /// A JSON text that is not read as a message: where it fails, and the name of the cause.
    JsonText {
        byte: u64,
        cause: &'static str,
    },
    /// A difference between two sets breaks reading. Standard output has it, and there is no line.
    Breaks,
    /// The device of this path failed, or the file is not there.
    Device(&'a str),
    /// The same, of a path that was put together.
    File(String),
    /// Memory ran out.
    Memory,
}

impl From<RawError> for Refusal<'_> {
    ghost use Rattle.pbtool_files.specs.Refusal.{IsTold};

    ghost from_gives = { IsTold };

    fn from(error: RawError) -> Self {
        match error {
            RawError::Fault { byte, path, cause } => Refusal::Fault { byte, path, cause },
            RawError::Memory => Refusal::Memory,
        }
    }
}

impl From<DescrError> for Refusal<'_> {
    ghost use Rattle.pbtool_files.specs.Refusal.{IsToldOfSet};

    ghost from_gives = { IsToldOfSet };

    fn from(error: DescrError) -> Self {
        match error {
            DescrError::Fault { byte, path, cause } => Refusal::Set { byte, path, cause },
            DescrError::Decl { file, cause } => Refusal::SetFile { file, cause },
            DescrError::Memory => Refusal::Memory,
        }
    }
}

impl From<LinkError> for Refusal<'_> {
    ghost use Rattle.pbtool_files.specs.Refusal.{IsToldOfLink};

    ghost from_gives = { IsToldOfLink };

    fn from(error: LinkError) -> Self {
        match error {
            LinkError::Fault {
                file,
                full_name,
                cause,
            } => Refusal::Link {
                file,
                full_name,
                cause,
            },
            LinkError::Memory => Refusal::Memory,
        }
    }
}

impl From<AllocError> for Refusal<'_> {
    ghost use Rattle.pbtool_files.specs.declared.report.Refusal.TheVariants.{Memory};

    ghost from_gives = { λ _ e. e ≡ Memory };

    fn from(_: AllocError) -> Self {
        Refusal::Memory
    }
}

impl<T: Drop> From<AllocFailed<T>> for Refusal<'_> {
    ghost use Rattle.pbtool_files.specs.declared.report.Refusal.TheVariants.{Memory};

    ghost from_gives = { λ _ e. e ≡ Memory };

    fn from(_: AllocFailed<T>) -> Self {
        Refusal::Memory
    }
}

impl Refusal<'_> {
    /// The exit status: 1 where an input is refused, and 3 for devices and memory.
    pub fn status(&self) -> u8
        ensures { result ≡ refusal_status self.now }
    {
        match self {
            Refusal::Fault { .. }
            | Refusal::Set { .. }
            | Refusal::SetFile { .. }
            | Refusal::Link { .. }
            | Refusal::UnknownType(_)
            | Refusal::TooLarge
            | Refusal::Frame { .. }
            | Refusal::FrameJson { .. }
            | Refusal::Frames { .. }
            | Refusal::Source { .. }
            | Refusal::Json { .. }
            | Refusal::JsonText { .. }
            | Refusal::Breaks => 1,
            Refusal::Device(_) | Refusal::File(_) | Refusal::Memory => 3,
        }
    }

    /// Writes the line, and answers the exit status. A failure to write the line is not reported.
    pub fn tell<E: Output>(&self, err: &mut E) -> u8
        ensures status { result ≡ refusal_status self.now }
        ensures told { SentOrCut E.written E.failures err.old err.new (refusal_line self.now) }
    {
        let _ = self.write(err);
        self.status()
    }

    /// Writes the line.
    pub fn write<E: Output>(&self, err: &mut E) -> Result<(), DeviceFault>
        ensures { MatchResult result (λ _. Sent E.written E.failures err.old err.new (refusal_line self.now))
            (λ _. Cut E.written E.failures err.old err.new (refusal_line self.now)) }
    {
        let mut sink = Sink::new();
        put_refusal(&mut sink, err, self);
        sink.finish(err)
    }
}

fn put_refusal<O: Output>(sink: &mut Sink, out: &mut O, refusal: &Refusal<'_>)
    ensures { Puts O.written O.failures out.old out.new sink.old sink.new (refusal_line refusal.now) }
{
    match refusal {
        Refusal::Fault { byte, path, cause } => put_fault(sink, out, *byte, path, *cause),
        Refusal::Set { byte, path, cause } => put_set_fault(sink, out, *byte, path, *cause),
        Refusal::SetFile { file, cause } => put_set_cause(sink, out, *file, *cause),
        Refusal::Link {
            file,
            full_name,
            cause,
        } => put_link(sink, out, file.as_str(), full_name.as_str(), *cause),
        Refusal::UnknownType(name) => put_type(sink, out, name),
        Refusal::TooLarge => sink.put(out, b"output cause TooLarge\n"),
        Refusal::Frame {
            index,
            byte,
            path,
            cause,
        } => put_frame_fault(sink, out, *index, *byte, path, *cause),
        Refusal::FrameJson { index, path, cause } => {
            put_frame_json(sink, out, *index, path, *cause)
        }
        Refusal::Frames {
            lines,
            refused,
            count,
        } => put_frames(sink, out, lines, *refused, *count),
        Refusal::Source { file, byte, cause } => put_source(
            sink,
            out,
            file.as_str(),
            *byte,
            *cause,
        ),
        Refusal::Json { path, cause } => put_json(sink, out, path, *cause),
        Refusal::JsonText { byte, cause } => put_json_text(sink, out, *byte, cause),
        Refusal::Breaks => sink.put(out, b""),
        Refusal::Device(path) => put_device(sink, out, path),
        Refusal::File(path) => put_device(sink, out, path.as_str()),
        Refusal::Memory => sink.put(out, b"memory\n"),
    }
}

fn put_set_fault<O: Output>(
    sink: &mut Sink,
    out: &mut O,
    byte: u64,
    path: &[PathStep],
    cause: Cause,
)
    ensures { Puts O.written O.failures out.old out.new sink.old sink.new (set_fault_line (fault byte path.now cause)) }
{
    sink.put(out, b"set ");
    put_fault(sink, out, byte, path, cause);
}

fn put_set_cause<O: Output>(sink: &mut Sink, out: &mut O, file: usize, cause: DeclCause)
    ensures { Puts O.written O.failures out.old out.new sink.old sink.new (set_cause_line file cause) }
{
    sink.reserve(out, 64);
    sink.held.push(b"set file ");
    sink.held.push_decimal(file as u64);
    put_cause(sink, out, cause.name());
}

fn put_link<O: Output>(sink: &mut Sink, out: &mut O, file: &str, full_name: &str, cause: LinkCause)
    ensures { Puts O.written O.failures out.old out.new sink.old sink.new (link_line file.now full_name.now cause) }
{
    sink.put(out, b"link ");
    put_name(sink, out, file);
    sink.put(out, b" at ");
    put_name(sink, out, full_name);
    put_cause(sink, out, cause.name());
}

/// A name, or a dash where it is empty.
fn put_name<O: Output>(sink: &mut Sink, out: &mut O, name: &str)
    ensures { Puts O.written O.failures out.old out.new sink.old sink.new (shown_name name.now) }
{
    if name.is_empty() {
        sink.put(out, b"-")
    } else {
        sink.put(out, name.as_bytes())
    }
}

fn put_type<O: Output>(sink: &mut Sink, out: &mut O, name: &str)
    ensures { Puts O.written O.failures out.old out.new sink.old sink.new (type_line name.now) }
{
    sink.put(out, b"type ");
    sink.put(out, name.as_bytes());
    sink.put(out, b" unknown\n");
}

fn put_frame_fault<O: Output>(
    sink: &mut Sink,
    out: &mut O,
    index: u64,
    byte: u64,
    path: &[PathStep],
    cause: Cause,
)
    ensures { Puts O.written O.failures out.old out.new sink.old sink.new (frame_fault_line index (fault byte path.now cause)) }
{
    put_frame_index(sink, out, index);
    put_fault(sink, out, byte, path, cause);
}

/// What a line about a frame begins with.
fn put_frame_index<O: Output>(sink: &mut Sink, out: &mut O, index: u64)
    ensures { Puts O.written O.failures out.old out.new sink.old sink.new (codes "frame " ++ decimal index ++ codes " ") }
{
    sink.reserve(out, 32);
    sink.held.push(b"frame ");
    sink.held.push_decimal(index);
    sink.held.push(b" ");
}

fn put_frame_json<O: Output>(
    sink: &mut Sink,
    out: &mut O,
    index: u64,
    path: &[u32],
    cause: JsonCause,
)
    ensures { Puts O.written O.failures out.old out.new sink.old sink.new (frame_json_line index path.now cause) }
{
    put_frame_index(sink, out, index);
    put_json(sink, out, path, cause);
}

/// The lines of the frames that are refused, and then how many they are.
fn put_frames<O: Output>(sink: &mut Sink, out: &mut O, lines: &[u8], refused: u64, count: u64)
    ensures { Puts O.written O.failures out.old out.new sink.old sink.new (lines.now ++ frames_line refused count) }
{
    sink.put(out, lines);
    put_frames_line(sink, out, refused, count);
}

fn put_frames_line<O: Output>(sink: &mut Sink, out: &mut O, refused: u64, count: u64)
    ensures { Puts O.written O.failures out.old out.new sink.old sink.new (frames_line refused count) }
{
    sink.reserve(out, 128);
    sink.held.push(b"frames refused ");
    sink.held.push_decimal(refused);
    sink.held.push(b" of ");
    sink.held.push_decimal(count);
    sink.held.push(b"\n");
}

fn put_source<O: Output>(sink: &mut Sink, out: &mut O, file: &str, byte: u64, cause: SourceCause)
    ensures { Puts O.written O.failures out.old out.new sink.old sink.new (source_line file.now byte cause) }
{
    sink.put(out, b"source ");
    sink.put(out, file.as_bytes());
    put_at(sink, out, byte);
    put_cause(sink, out, cause.name());
}

fn put_at<O: Output>(sink: &mut Sink, out: &mut O, byte: u64)
    ensures { Puts O.written O.failures out.old out.new sink.old sink.new (codes " byte " ++ decimal byte) }
{
    sink.reserve(out, 32);
    sink.held.push(b" byte ");
    sink.held.push_decimal(byte);
}

fn put_fault<O: Output>(sink: &mut Sink, out: &mut O, byte: u64, path: &[PathStep], cause: Cause)
    ensures { Puts O.written O.failures out.old out.new sink.old sink.new
        (fault_line (fault byte path.now cause)) }
{
    put_byte(sink, out, byte);
    put_path(sink, out, path);
    put_cause(sink, out, cause.name());
}

/// What ends a line: the name of a cause.
fn put_cause<O: Output>(sink: &mut Sink, out: &mut O, name: &str)
    ensures { Puts O.written O.failures out.old out.new sink.old sink.new (cause_end name.now) }
{
    sink.put(out, b" cause ");
    sink.put(out, name.as_bytes());
    sink.put(out, b"\n");
}

fn put_byte<O: Output>(sink: &mut Sink, out: &mut O, byte: u64)
    ensures { Puts O.written O.failures out.old out.new sink.old sink.new
        (codes "byte " ++ decimal byte ++ codes " path ") }
{
    sink.reserve(out, 32);
    sink.held.push(b"byte ");
    sink.held.push_decimal(byte);
    sink.held.push(b" path ");
}

/// The steps joined by dots, or `-` where there are none.
fn put_path<O: Output>(sink: &mut Sink, out: &mut O, path: &[PathStep])
    ensures { Puts O.written O.failures out.old out.new sink.old sink.new (path_text path.now) }
{
    let Some((first, others)) = path.split_first() else {
        sink.put(out, b"-");
        return;
    };
    put_step(sink, out, b"", *first);
    put_steps(sink, out, others);
}

/// Each step after a dot.
fn put_steps<O: Output>(sink: &mut Sink, out: &mut O, steps: &[PathStep])
    ensures { Puts O.written O.failures out.old out.new sink.old sink.new (dotted steps.now) }
{
    for step in steps {
        if sink.has_failed() {
            return;
        }
        put_step(sink, out, b".", *step);
    }
}

fn put_step<O: Output>(sink: &mut Sink, out: &mut O, separator: &[u8], step: PathStep)
    requires { length separator.now ≤ 1 }
    ensures { Puts O.written O.failures out.old out.new sink.old sink.new
        (separator.now ++ step_text step) }
{
    sink.reserve(out, 64);
    sink.held.push(separator);
    sink.held.push_decimal(u64::from(step.number));
    sink.held.push(b"[");
    sink.held.push_decimal(u64::from(step.occurrence));
    sink.held.push(b"]");
}

fn put_json<O: Output>(sink: &mut Sink, out: &mut O, path: &[u32], cause: JsonCause)
    ensures { Puts O.written O.failures out.old out.new sink.old sink.new (json_line path.now cause) }
{
    sink.put(out, b"json path ");
    put_fields(sink, out, path);
    put_cause(sink, out, cause.name());
}

fn put_json_text<O: Output>(sink: &mut Sink, out: &mut O, byte: u64, cause: &str)
    ensures { Puts O.written O.failures out.old out.new sink.old sink.new (json_text_line byte cause.now) }
{
    sink.put(out, b"json");
    put_at(sink, out, byte);
    put_cause(sink, out, cause);
}

/// The numbers of fields joined by dots, or `-` where there are none.
fn put_fields<O: Output>(sink: &mut Sink, out: &mut O, path: &[u32])
    ensures { Puts O.written O.failures out.old out.new sink.old sink.new (fields_text path.now) }
{
    let Some((first, others)) = path.split_first() else {
        sink.put(out, b"-");
        return;
    };
    put_number(sink, out, b"", *first);
    put_numbers(sink, out, others);
}

/// Each number after a dot.
fn put_numbers<O: Output>(sink: &mut Sink, out: &mut O, numbers: &[u32])
    ensures { Puts O.written O.failures out.old out.new sink.old sink.new (flat_map (λ k. codes "." ++ decimal k) numbers.now) }
{
    for number in numbers {
        put_number(sink, out, b".", *number);
    }
}

fn put_number<O: Output>(sink: &mut Sink, out: &mut O, separator: &[u8], number: u32)
    requires { length separator.now ≤ 1 }
    ensures { Puts O.written O.failures out.old out.new sink.old sink.new (separator.now ++ decimal number) }
{
    sink.reserve(out, 32);
    sink.held.push(separator);
    sink.held.push_decimal(u64::from(number));
}

fn put_device<O: Output>(sink: &mut Sink, out: &mut O, path: &str)
    ensures { Puts O.written O.failures out.old out.new sink.old sink.new (device_line path.now) }
{
    sink.put(out, b"device ");
    sink.put(out, path.as_bytes());
    sink.put(out, b"\n");
}
