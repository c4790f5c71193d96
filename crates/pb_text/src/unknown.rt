//! The unknown records of a message.

ghost use Rattle.std.specs.Prelude.{◌≡◌, ◌+◌, ◌-◌, ◌*◌, ◌≤◌, ◌++◌, codes, decimal, length};
ghost use Rattle.std.specs.Int.{to_be_bytes, w32, w64};
ghost use Rattle.hex.specs.Hex.{encode_lower};
ghost use Rattle.pb_wire.specs.Record.{depth, group_depth, group_of, records_depth};
ghost use Rattle.pb_wire.specs.Unknown.{payload_of, records_of};
ghost use Rattle.pb_listing.specs.Putting.{PutsSome};
ghost use Rattle.pb_text.specs.Lines.{item};
ghost use Rattle.pb_text.specs.Unknown.{AreRecordLines, AreRecordsLines, AreUnknownLines, numbered};
ghost use Rattle.pb_output.specs.Sink.{Puts};

use crate::embedded::put_payload;
use crate::form::{Layout, TextForm, UnknownRecords};
use crate::lines::{put_end, put_gap, put_indent};
use crate::values::{put_natural, put_number};
use pb_output::Sink;
use pb_wire::{Output, Unknown};

/// The levels of messages that are looked for in the bytes of an unknown record.
const LEVELS: usize = 10;

/// The greatest level of a group.
const DEEPEST: usize = 202;

/// The lines of unknown records, in a form.
pub(crate) fn put_unknown<O: Output>(
    sink: &mut Sink,
    out: &mut O,
    level: usize,
    form: TextForm,
    records: &[(u32, Unknown)],
)
    requires { level ≤ 202 }
    ensures { level + 2 * records_depth (records_of records.now) ≤ 202
        → PutsSome O.written O.failures out.old out.new sink.old sink.new
        (AreUnknownLines form level (records_of records.now)) }
{
    match form.unknown {
        UnknownRecords::ByNumber => put_records(sink, out, level, LEVELS, form.layout, records),
        UnknownRecords::Omitted => {}
    }
}

/// The lines of records, in whose bytes this many levels of messages are looked for.
#[cycle(unknown)]
fn put_records<O: Output>(
    sink: &mut Sink,
    out: &mut O,
    level: usize,
    levels: usize,
    layout: Layout,
    records: &[(u32, Unknown)],
)
    requires low { level ≤ 202 }
    requires few { levels ≤ 10 }
    ensures { level + 2 * group_depth (group_of (records_of records.now)) ≤ 202
        → PutsSome O.written O.failures out.old out.new sink.old sink.new
        (AreRecordsLines layout levels level (group_of (records_of records.now))) }
{
    for (number, payload) in records {
        put_record(sink, out, level, levels, layout, *number, payload);
    }
}

#[cycle(unknown)]
fn put_record<O: Output>(
    sink: &mut Sink,
    out: &mut O,
    level: usize,
    levels: usize,
    layout: Layout,
    number: u32,
    payload: &Unknown,
)
    requires low { level ≤ 202 }
    requires few { levels ≤ 10 }
    ensures { level + 2 * depth (payload_of payload.now) ≤ 202
        → PutsSome O.written O.failures out.old out.new sink.old sink.new
        (AreRecordLines layout levels level number (payload_of payload.now)) }
{
    match payload {
        Unknown::Varint(value) => put_varint_line(sink, out, level, layout, number, *value),
        Unknown::I64(value) => put_eight_bytes_line(sink, out, level, layout, number, *value),
        Unknown::Len(bytes) => put_payload(sink, out, level, levels, layout, number, bytes),
        // No message nests so deep.
        Unknown::Group(_) if level == DEEPEST => {}
        Unknown::Group(inside) => {
            put_numbered_start(sink, out, level, layout, number);
            put_records(sink, out, level + 1, below(levels), layout, inside);
            put_end(sink, out, layout, level);
        }
        Unknown::I32(value) => put_four_bytes_line(sink, out, level, layout, number, *value),
    }
}

/// A number, in decimal.
pub(crate) fn put_varint_line<O: Output>(
    sink: &mut Sink,
    out: &mut O,
    level: usize,
    layout: Layout,
    number: u32,
    value: u64,
)
    requires { level ≤ 220 }
    ensures { Puts O.written O.failures out.old out.new sink.old sink.new
        (item layout level (decimal number ++ codes ": " ++ decimal value)) }
{
    put_indent(sink, out, layout, level);
    put_number(sink, out, number);
    sink.put(out, b": ");
    put_natural(sink, out, value);
    put_gap(sink, out, layout);
}

/// One level less, if there is one.
pub(crate) fn below(levels: usize) -> usize
    ensures { result ≡ levels - 1 }
{
    levels.saturating_sub(1)
}

/// Eight bytes, in hexadecimal.
pub(crate) fn put_eight_bytes_line<O: Output>(
    sink: &mut Sink,
    out: &mut O,
    level: usize,
    layout: Layout,
    number: u32,
    value: u64,
)
    requires { level ≤ 220 }
    ensures { Puts O.written O.failures out.old out.new sink.old sink.new
        (item layout level (decimal number ++ codes ": 0x" ++ encode_lower (to_be_bytes w64 value))) }
{
    put_bits_line(sink, out, level, layout, number, &value.to_be_bytes());
}

/// Four bytes, in hexadecimal.
pub(crate) fn put_four_bytes_line<O: Output>(
    sink: &mut Sink,
    out: &mut O,
    level: usize,
    layout: Layout,
    number: u32,
    value: u32,
)
    requires { level ≤ 220 }
    ensures { Puts O.written O.failures out.old out.new sink.old sink.new
        (item layout level (decimal number ++ codes ": 0x" ++ encode_lower (to_be_bytes w32 value))) }
{
    put_bits_line(sink, out, level, layout, number, &value.to_be_bytes());
}

/// Bytes, the highest first, in hexadecimal.
fn put_bits_line<O: Output>(
    sink: &mut Sink,
    out: &mut O,
    level: usize,
    layout: Layout,
    number: u32,
    bytes: &[u8],
)
    requires { level ≤ 220 }
    ensures { Puts O.written O.failures out.old out.new sink.old sink.new
        (item layout level (decimal number ++ codes ": 0x" ++ encode_lower bytes.now)) }
{
    put_indent(sink, out, layout, level);
    put_number(sink, out, number);
    sink.put(out, b": 0x");
    sink.put_hex(out, bytes);
    put_gap(sink, out, layout);
}

/// What comes before the records of a group, or of a message.
pub(crate) fn put_numbered_start<O: Output>(
    sink: &mut Sink,
    out: &mut O,
    level: usize,
    layout: Layout,
    number: u32,
)
    requires { level ≤ 220 }
    ensures { Puts O.written O.failures out.old out.new sink.old sink.new
        (item layout level (decimal number ++ codes " {")) }
{
    put_indent(sink, out, layout, level);
    put_number(sink, out, number);
    sink.put(out, b" {");
    put_gap(sink, out, layout);
}
