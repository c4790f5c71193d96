//! The listing of the unknown records of a message.

ghost use Rattle.std.specs.Prelude.{◌+◌, ◌≤◌, length};
ghost use Rattle.pb_wire.specs.Record.{depth, group_depth, group_of, records_depth};
ghost use Rattle.pb_wire.specs.Unknown.{payload_of, records_of};
ghost use Rattle.pb_listing.specs.RawListing.{record_lines, group_lines};
ghost use Rattle.pb_listing.specs.Listing.{unknown_lines};
ghost use Rattle.pb_output.specs.Sink.{Puts};

use crate::records::{
    DEEPEST, put_end, put_fixed_line, put_group_start, put_len_line, put_varint_line,
};
use pb_output::Sink;
use pb_wire::{Output, Unknown};

/// The lines of unknown records, with a mark before the first of each.
pub(crate) fn put_unknown<O: Output>(
    sink: &mut Sink,
    out: &mut O,
    level: usize,
    records: &[(u32, Unknown)],
)
    requires { level ≤ 101 }
    ensures { level + records_depth (records_of records.now) ≤ 101
        → Puts O.written O.failures out.old out.new sink.old sink.new
        (unknown_lines level (records_of records.now)) }
{
    for (number, payload) in records {
        if sink.has_failed() {
            return;
        }
        put_unknown_record(sink, out, level, b"? ", *number, payload);
    }
}

/// The lines of the records of a group.
#[cycle(unknown)]
fn put_group<O: Output>(sink: &mut Sink, out: &mut O, level: usize, records: &[(u32, Unknown)])
    requires { level ≤ 101 }
    ensures { level + group_depth (group_of (records_of records.now)) ≤ 101
        → Puts O.written O.failures out.old out.new sink.old sink.new
        (group_lines level (group_of (records_of records.now))) }
{
    for (number, payload) in records {
        if sink.has_failed() {
            return;
        }
        put_unknown_record(sink, out, level, b"", *number, payload);
    }
}

/// The lines of a record, with a mark before the first.
#[cycle(unknown)]
fn put_unknown_record<O: Output>(
    sink: &mut Sink,
    out: &mut O,
    level: usize,
    mark: &[u8],
    number: u32,
    payload: &Unknown,
)
    requires low { level ≤ 101 }
    requires mark { length mark.now ≤ 2 }
    ensures { level + depth (payload_of payload.now) ≤ 101
        → Puts O.written O.failures out.old out.new sink.old sink.new
        (record_lines mark.now level number (payload_of payload.now)) }
{
    match payload {
        Unknown::Varint(value) => put_varint_line(sink, out, level, mark, number, *value),
        Unknown::I64(value) => {
            put_fixed_line(
                sink,
                out,
                level,
                mark,
                number,
                b" i64 ",
                &value.to_be_bytes(),
            )
        }
        Unknown::Len(bytes) => put_len_line(sink, out, level, mark, number, bytes),
        // No message nests so deep.
        Unknown::Group(_) if level == DEEPEST => {}
        Unknown::Group(inside) => {
            put_group_start(sink, out, level, mark, number);
            put_group(sink, out, level + 1, inside);
            put_end(sink, out, level);
        }
        Unknown::I32(value) => {
            put_fixed_line(
                sink,
                out,
                level,
                mark,
                number,
                b" i32 ",
                &value.to_be_bytes(),
            )
        }
    }
}
