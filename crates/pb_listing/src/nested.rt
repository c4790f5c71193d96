//! The listing of records where a payload that is a list of records itself is listed as a message.

ghost use Rattle.std.specs.Prelude.{◌≡◌, ◌+◌, ◌≤◌, ◌<◌, ◌++◌, List, codes, decimal, length, MatchResult, false, true};
ghost use Rattle.pb_wire.specs.Exact.{IsSomeText};
ghost use Rattle.pb_wire.specs.Record.{Record, group_of};
ghost use Rattle.pb_wire.specs.Grammar.{IsText};
ghost use Rattle.pb_wire.specs.Limits.{full};
ghost use Rattle.pb_wire.specs.RecordIter.{len, seen};
ghost use Rattle.pb_wire.specs.Schema.{blank};
ghost use Rattle.pb_listing.specs.Borrowed.{IsBorrowed, limits_inside};
ghost use Rattle.pb_listing.specs.NestedListing.{AreNestedLines, AreRecordLines, IsMessage, IsNestedListing};
ghost use Rattle.pb_listing.specs.Putting.{CutSome, PutsSome, SentSome};
ghost use Rattle.pb_listing.specs.RawListing.{line};
ghost use Rattle.pb_output.specs.Sink.{Puts};

use crate::records::{LINE, push_start, put_end, put_group_start, put_len_line, put_record_lines};
use pb_output::Sink;
use pb_wire::{DeviceFault, Limits, MAX_DEPTH, Output, Payload, RecordIter};

/// As `write_listing`, with each length-delimited payload that is a list of records itself, at least one, listed as a message: its
/// records one level in, between two lines. Messages and groups nest no deeper than `MAX_DEPTH` levels; a payload that would is
/// listed by its bytes.
///
/// A payload is read twice at each level that it is within, so the time is at most `2 * MAX_DEPTH` times that of reading the bytes
/// once. No memory is allocated.
pub fn write_nested<O: Output>(out: &mut O, bytes: &[u8]) -> Result<(), DeviceFault>
    ensures { (rs : List Record) → IsText blank tt full bytes.now rs
        → MatchResult result (λ _. SentSome O.written O.failures out.old out.new
        (IsNestedListing rs)) (λ _. CutSome O.written O.failures out.old out.new
        (IsNestedListing rs)) }
{
    let mut sink = Sink::new();
    put_nested(&mut sink, out, 0, bytes);
    sink.finish(out)
}

/// The lines of the records that the bytes encode, at a level.
#[cycle(nested)]
fn put_nested<O: Output>(sink: &mut Sink, out: &mut O, level: usize, bytes: &[u8])
    requires { level ≤ 100 }
    ensures { (rs : List Record) → IsText blank tt (limits_inside level) bytes.now rs
        → PutsSome O.written O.failures out.old out.new sink.old sink.new
        (AreNestedLines level (group_of rs)) }
{
    for item in RecordIter::new(bytes, Limits::FULL) {
        let Ok((number, payload)) = item else { break };
        put_nested_record(sink, out, level, number, payload);
    }
}

#[cycle(nested)]
fn put_nested_record<O: Output>(
    sink: &mut Sink,
    out: &mut O,
    level: usize,
    number: u32,
    payload: Payload<'_>,
)
    requires { level ≤ 100 }
    ensures { (r : Record) → IsBorrowed level r (number, seen payload.entry)
        → PutsSome O.written O.failures out.old out.new sink.old sink.new
        (AreRecordLines level r.number r.payload) }
{
    match payload {
        // No message nests so deep.
        Payload::Group(_) if level == MAX_DEPTH as usize => {}
        Payload::Group(inside) => {
            put_group_start(sink, out, level, b"", number);
            put_nested(sink, out, level + 1, inside);
            put_end(sink, out, level);
        }
        Payload::Len(bytes) => put_payload(sink, out, level, number, bytes),
        Payload::Varint(_) => put_record_lines(sink, out, level, number, payload),
        Payload::I64(_) => put_record_lines(sink, out, level, number, payload),
        Payload::I32(_) => put_record_lines(sink, out, level, number, payload),
    }
}

/// The lines of a length-delimited payload.
#[cycle(nested)]
fn put_payload<O: Output>(sink: &mut Sink, out: &mut O, level: usize, number: u32, bytes: &[u8])
    requires { level ≤ 100 }
    ensures { (r : Record) → IsBorrowed level r (number, len bytes.now)
        → PutsSome O.written O.failures out.old out.new sink.old sink.new
        (AreRecordLines level r.number r.payload) }
{
    if level == MAX_DEPTH as usize {
        put_len_line(sink, out, level, b"", number, bytes);
        return;
    }
    if is_message(bytes, level) {
        put_message_start(sink, out, level, number, bytes);
        put_nested(sink, out, level + 1, bytes);
        put_end(sink, out, level);
    } else {
        put_len_line(sink, out, level, b"", number, bytes);
    }
}

/// The line before the records of a payload.
fn put_message_start<O: Output>(
    sink: &mut Sink,
    out: &mut O,
    level: usize,
    number: u32,
    bytes: &[u8],
)
    requires { level ≤ 101 }
    ensures { Puts O.written O.failures out.old out.new sink.old sink.new
        (line level (decimal number ++ codes " len " ++ decimal (length bytes.now) ++ codes " {")) }
{
    sink.reserve(out, LINE);
    push_start(&mut sink.held, level, b"", number, b" len ");
    sink.held.push_decimal(bytes.len() as u64);
    sink.held.push(b" {\n");
}

/// Whether the payload of a record at a level is listed as a message.
fn is_message(bytes: &[u8], level: usize) -> bool
    requires { level < 100 }
    ensures yes { result ≡ true → IsMessage level bytes.now }
    ensures no { result ≡ false → ¬ IsMessage level bytes.now }
{
    if bytes.is_empty() {
        return false;
    }
    let levels_left = MAX_DEPTH - 1 - level as u8;
    match Limits::new(Limits::FULL.max_bytes(), levels_left) {
        Some(limits) => is_list_of_records(bytes, limits),
        None => false,
    }
}

/// Whether the bytes encode a list of records within the limits.
fn is_list_of_records(bytes: &[u8], limits: Limits) -> bool
    ensures yes { result ≡ true → IsSomeText blank tt limits bytes.now }
    ensures no { result ≡ false → ¬ IsSomeText blank tt limits bytes.now }
{
    for item in RecordIter::new(bytes, limits) {
        let Ok(_) = item else { return false };
    }
    true
}
