//! The shortest spelling of records, in hexadecimal.

ghost use Rattle.std.specs.Prelude.{◌+◌, ◌*◌, ◌≤◌, ◌<◌, ◌++◌, List, MatchResult};
ghost use Rattle.hex.specs.Hex.{encode_lower};
ghost use Rattle.pb_wire.specs.Record.{Record};
ghost use Rattle.pb_wire.specs.Grammar.{IsText};
ghost use Rattle.pb_wire.specs.Limits.{full};
ghost use Rattle.pb_wire.specs.RecordIter.{seen};
ghost use Rattle.pb_wire.specs.Schema.{blank};
ghost use Rattle.pb_wire.specs.Spell.{shortest_record, shortest_records};
ghost use Rattle.pb_wire.specs.Varint.{shortest};
ghost use Rattle.pb_listing.specs.RawListing.{line_feed};
ghost use Rattle.pb_listing.specs.Borrowed.{IsBorrowed, limits_inside};
ghost use Rattle.pb_output.specs.Sending.{Cut, Sent};
ghost use Rattle.pb_output.specs.Sink.{Puts};

use pb_output::Sink;
use pb_wire::{DeviceFault, Limits, MAX_DEPTH, Output, Payload, RecordIter, put_varint};

/// Writes the shortest spelling of the records that the bytes spell, as a line of hexadecimal. They are bytes that `judge_raw`
/// takes within `Limits::FULL`, as for `write_listing`. An error says that the output failed, after a beginning of the line.
pub fn write_shortest<O: Output>(out: &mut O, bytes: &[u8]) -> Result<(), DeviceFault>
    ensures { (rs : List Record) → IsText blank tt full bytes.now rs
        → MatchResult result (λ _. Sent O.written O.failures out.old out.new
        (encode_lower (shortest_records rs) ++ line_feed))
        (λ _. Cut O.written O.failures out.old out.new
        (encode_lower (shortest_records rs) ++ line_feed)) }
{
    let mut sink = Sink::new();
    put_records(&mut sink, out, 0, bytes);
    sink.put(out, b"\n");
    sink.finish(out)
}

/// The records that the bytes spell, at a level of groups.
#[cycle(shortest)]
fn put_records<O: Output>(sink: &mut Sink, out: &mut O, level: u8, bytes: &[u8])
    requires { level ≤ 100 }
    ensures { (rs : List Record) → IsText blank tt (limits_inside level) bytes.now rs
        → Puts O.written O.failures out.old out.new sink.old sink.new
        (encode_lower (shortest_records rs)) }
{
    for item in RecordIter::new(bytes, Limits::FULL) {
        if sink.has_failed() {
            break;
        }
        let Ok((number, payload)) = item else { break };
        put_record(sink, out, level, number, payload);
    }
}

#[cycle(shortest)]
fn put_record<O: Output>(sink: &mut Sink, out: &mut O, level: u8, number: u32, payload: Payload<'_>)
    requires { level ≤ 100 }
    ensures { (r : Record) → IsBorrowed level r (number, seen payload.entry)
        → Puts O.written O.failures out.old out.new sink.old sink.new
        (encode_lower (shortest_record r.number r.payload)) }
{
    match payload {
        Payload::Varint(value) => {
            put_tag(sink, out, number, 0);
            put_number(sink, out, value);
        }
        Payload::I64(value) => {
            put_tag(sink, out, number, 1);
            sink.put_hex(out, &value.to_le_bytes());
        }
        Payload::Len(bytes) => {
            put_tag(sink, out, number, 2);
            put_number(sink, out, bytes.len() as u64);
            sink.put_hex(out, bytes);
        }
        // No text nests so deep.
        Payload::Group(_) if level == MAX_DEPTH => {}
        Payload::Group(inside) => {
            put_tag(sink, out, number, 3);
            put_records(sink, out, level + 1, inside);
            put_tag(sink, out, number, 4);
        }
        Payload::I32(value) => {
            put_tag(sink, out, number, 5);
            sink.put_hex(out, &value.to_le_bytes());
        }
    }
}

/// A number as the shortest varint. Most numbers are one byte.
#[inline]
fn put_number<O: Output>(sink: &mut Sink, out: &mut O, number: u64)
    ensures { Puts O.written O.failures out.old out.new sink.old sink.new
        (encode_lower (shortest number)) }
{
    sink.reserve(out, 20);
    if number < 0x80 {
        sink.held.push_hex_byte(number as u8);
    } else {
        sink.held.push_hex(put_varint(number).as_slice());
    }
}

/// The tag of a number and a wire type.
#[inline]
fn put_tag<O: Output>(sink: &mut Sink, out: &mut O, number: u32, wire_type: u64)
    requires { wire_type < 6 }
    ensures { Puts O.written O.failures out.old out.new sink.old sink.new
        (encode_lower (shortest (8 * number + wire_type))) }
{
    put_number(sink, out, 8 * u64::from(number) + wire_type);
}
