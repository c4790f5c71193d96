//! The bytes of an unknown record: a message if they are the encoding of one, else a string.

ghost use Rattle.std.specs.Prelude.{◌≡◌, ◌+◌, ◌-◌, ◌≤◌, ◌<◌, ◌++◌, List, codes, decimal, length, false, true};
ghost use Rattle.pb_wire.specs.Exact.{IsSomeText};
ghost use Rattle.pb_wire.specs.Record.{Record, group_of};
ghost use Rattle.pb_wire.specs.Record as wire;
ghost use Rattle.pb_wire.specs.Grammar.{IsText};
ghost use Rattle.pb_wire.specs.RecordIter.{seen};
ghost use Rattle.pb_wire.specs.Schema.{blank};
ghost use Rattle.pb_listing.specs.Borrowed.{IsBorrowed};
ghost use Rattle.pb_listing.specs.Putting.{PutsSome};
ghost use Rattle.pb_text.specs.Lines.{item};
ghost use Rattle.pb_text.specs.Strings.{escaped};
ghost use Rattle.pb_text.specs.Unknown.{AreRecordLines, AreRecordsLines, IsEmbedded, limits_with};
ghost use Rattle.pb_output.specs.Sink.{Puts};

use crate::form::{Characters, Layout};
use crate::lines::{put_end, put_gap, put_indent};
use crate::strings::put_quoted;
use crate::unknown::{
    put_eight_bytes_line, put_four_bytes_line, put_numbered_start, put_varint_line,
};
use crate::values::put_number;
use pb_output::Sink;
use pb_wire::{Limits, Output, Payload, RecordIter};

/// The lines of a payload, in which this many levels of messages are looked for.
#[cycle(embedded)]
pub(crate) fn put_payload<O: Output>(
    sink: &mut Sink,
    out: &mut O,
    level: usize,
    levels: usize,
    layout: Layout,
    number: u32,
    bytes: &[u8],
)
    requires low { level + levels ≤ 212 }
    requires few { levels ≤ 10 }
    ensures { PutsSome O.written O.failures out.old out.new sink.old sink.new
        (AreRecordLines layout levels level number (wire.len bytes.now)) }
{
    if is_embedded(bytes, levels) {
        put_numbered_start(sink, out, level, layout, number);
        put_embedded(sink, out, level + 1, levels, layout, bytes);
        put_end(sink, out, layout, level);
    } else {
        put_string_line(sink, out, level, layout, number, bytes);
    }
}

/// The lines of the records that the bytes encode, with at most this many levels of groups.
#[cycle(embedded)]
fn put_embedded<O: Output>(
    sink: &mut Sink,
    out: &mut O,
    level: usize,
    levels: usize,
    layout: Layout,
    bytes: &[u8],
)
    requires low { level + levels ≤ 213 }
    requires few { levels ≤ 10 }
    ensures { (rs : List Record) → IsText blank tt (limits_with levels) bytes.now rs
        → PutsSome O.written O.failures out.old out.new sink.old sink.new
        (AreRecordsLines layout (levels - 1) level (group_of rs)) }
{
    for item in RecordIter::new(bytes, Limits::FULL) {
        let Ok((number, payload)) = item else { break };
        put_embedded_record(sink, out, level, levels, layout, number, payload);
    }
}

#[cycle(embedded)]
fn put_embedded_record<O: Output>(
    sink: &mut Sink,
    out: &mut O,
    level: usize,
    levels: usize,
    layout: Layout,
    number: u32,
    payload: Payload<'_>,
)
    requires low { level + levels ≤ 213 }
    requires few { levels ≤ 10 }
    ensures { (r : Record) → IsBorrowed (100 - levels) r (number, seen payload.entry)
        → PutsSome O.written O.failures out.old out.new sink.old sink.new
        (AreRecordLines layout (levels - 1) level r.number r.payload) }
{
    match payload {
        Payload::Varint(value) => put_varint_line(sink, out, level, layout, number, value),
        Payload::I64(value) => put_eight_bytes_line(sink, out, level, layout, number, value),
        Payload::Len(bytes) if levels == 0 => {
            put_string_line(sink, out, level, layout, number, bytes)
        }
        Payload::Len(bytes) => put_payload(sink, out, level, levels - 1, layout, number, bytes),
        // No group nests so deep.
        Payload::Group(_) if levels == 0 => {}
        Payload::Group(inside) => {
            put_numbered_start(sink, out, level, layout, number);
            put_embedded(sink, out, level + 1, levels - 1, layout, inside);
            put_end(sink, out, layout, level);
        }
        Payload::I32(value) => put_four_bytes_line(sink, out, level, layout, number, value),
    }
}

/// Bytes as a string.
fn put_string_line<O: Output>(
    sink: &mut Sink,
    out: &mut O,
    level: usize,
    layout: Layout,
    number: u32,
    bytes: &[u8],
)
    requires { level ≤ 220 }
    ensures { Puts O.written O.failures out.old out.new sink.old sink.new
        (item layout level (decimal number ++ codes ": " ++ escaped bytes.now)) }
{
    put_indent(sink, out, layout, level);
    put_number(sink, out, number);
    sink.put(out, b": ");
    put_quoted(sink, out, Characters::Escaped, bytes);
    put_gap(sink, out, layout);
}

/// Whether bytes are printed as a message, where this many levels of messages are looked for.
fn is_embedded(bytes: &[u8], levels: usize) -> bool
    requires { levels ≤ 10 }
    ensures yes { result ≡ true → IsEmbedded levels bytes.now }
    ensures no { result ≡ false → ¬ IsEmbedded levels bytes.now }
{
    if levels == 0 {
        return false;
    }
    if bytes.is_empty() {
        return false;
    }
    match Limits::new(Limits::FULL.max_bytes(), levels as u8) {
        Some(limits) => are_records(bytes, limits),
        None => false,
    }
}

/// Whether the bytes encode a list of records within the limits.
fn are_records(bytes: &[u8], limits: Limits) -> bool
    ensures yes { result ≡ true → IsSomeText blank tt limits bytes.now }
    ensures no { result ≡ false → ¬ IsSomeText blank tt limits bytes.now }
{
    for item in RecordIter::new(bytes, limits) {
        let Ok(_) = item else { return false };
    }
    true
}
