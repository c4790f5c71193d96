//! The listing of records that no schema says anything of.

ghost use Rattle.std.specs.Prelude.{◌≡◌, ◌+◌, ◌*◌, ◌≤◌, ◌<◌, ◌++◌, List, [], codes, decimal, length, MatchResult};
ghost use Rattle.hex.specs.Hex.{encode_lower};
ghost use Rattle.pb_wire.specs.Record.{Record, group_of};
ghost use Rattle.pb_wire.specs.Grammar.{IsText};
ghost use Rattle.pb_wire.specs.Limits.{full};
ghost use Rattle.pb_wire.specs.RecordIter.{seen};
ghost use Rattle.pb_wire.specs.Schema.{blank};
ghost use Rattle.pb_listing.specs.RawListing.{indent, line, record_lines, group_lines, raw_listing, shown_bytes};
ghost use Rattle.pb_listing.specs.Borrowed.{IsBorrowed, limits_inside};
ghost use Rattle.pb_output.specs.Sending.{Cut, Sent};
ghost use Rattle.pb_output.specs.Sink.{Puts};

use pb_output::{OutputBuffer, Sink};
use pb_wire::{DeviceFault, Limits, MAX_DEPTH, Output, Payload, RecordIter};

/// Two spaces for each level: one for the frame that holds a message, and one for each level below it.
const INDENT: [u8; 202] = [b' '; 202];

/// The greatest level of a line: a frame's message is one level in, and there are at most 100 levels below a message.
pub(crate) const DEEPEST: usize = 101;

/// No line of a record is longer, but for the bytes of a payload: the indentation, a mark, two numbers of at most twenty
/// digits and a word.
pub(crate) const LINE: usize = 256;

/// Writes a line for each record that the bytes spell, groups nested. They are bytes that `judge_raw` takes within
/// `Limits::FULL`: of any others it writes the whole records before the first fault. An error says that the output failed, after
/// a beginning of the listing.
pub fn write_listing<O: Output>(out: &mut O, bytes: &[u8]) -> Result<(), DeviceFault>
    ensures { (rs : List Record) → IsText blank tt full bytes.now rs
        → MatchResult result (λ _. Sent O.written O.failures out.old out.new (raw_listing rs))
        (λ _. Cut O.written O.failures out.old out.new (raw_listing rs)) }
{
    let mut sink = Sink::new();
    put_listing(&mut sink, out, 0, bytes);
    sink.finish(out)
}

/// A line for each record that the bytes spell, at a level of groups.
#[cycle(listing)]
fn put_listing<O: Output>(sink: &mut Sink, out: &mut O, level: usize, bytes: &[u8])
    requires { level ≤ 100 }
    ensures { (rs : List Record) → IsText blank tt (limits_inside level) bytes.now rs
        → Puts O.written O.failures out.old out.new sink.old sink.new
        (group_lines level (group_of rs)) }
{
    for item in RecordIter::new(bytes, Limits::FULL) {
        if sink.has_failed() {
            break;
        }
        let Ok((number, payload)) = item else { break };
        put_record_lines(sink, out, level, number, payload);
    }
}

#[cycle(listing)]
pub(crate) fn put_record_lines<O: Output>(
    sink: &mut Sink,
    out: &mut O,
    level: usize,
    number: u32,
    payload: Payload<'_>,
)
    requires { level ≤ 100 }
    ensures { (r : Record) → IsBorrowed level r (number, seen payload.entry)
        → Puts O.written O.failures out.old out.new sink.old sink.new
        (record_lines [] level r.number r.payload) }
{
    match payload {
        Payload::Varint(value) => put_varint_line(sink, out, level, b"", number, value),
        Payload::I64(value) => {
            put_fixed_line(
                sink,
                out,
                level,
                b"",
                number,
                b" i64 ",
                &value.to_be_bytes(),
            )
        }
        Payload::Len(bytes) => put_len_line(sink, out, level, b"", number, bytes),
        // No text nests so deep.
        Payload::Group(_) if level == MAX_DEPTH as usize => {}
        Payload::Group(inside) => {
            put_group_start(sink, out, level, b"", number);
            put_listing(sink, out, level + 1, inside);
            put_end(sink, out, level);
        }
        Payload::I32(value) => {
            put_fixed_line(
                sink,
                out,
                level,
                b"",
                number,
                b" i32 ",
                &value.to_be_bytes(),
            )
        }
    }
}

#[inline]
pub(crate) fn put_varint_line<O: Output>(
    sink: &mut Sink,
    out: &mut O,
    level: usize,
    mark: &[u8],
    number: u32,
    value: u64,
)
    requires low { level ≤ 101 }
    requires mark { length mark.now ≤ 2 }
    ensures { Puts O.written O.failures out.old out.new sink.old sink.new
        (line level (mark.now ++ decimal number ++ codes " varint " ++ decimal value)) }
{
    sink.reserve(out, LINE);
    push_start(&mut sink.held, level, mark, number, b" varint ");
    sink.held.push_decimal(value);
    sink.held.push(b"\n");
}

/// A value of four or eight bytes, the highest first.
pub(crate) fn put_fixed_line<O: Output>(
    sink: &mut Sink,
    out: &mut O,
    level: usize,
    mark: &[u8],
    number: u32,
    word: &[u8],
    bytes: &[u8],
)
    requires low { level ≤ 101 }
    requires mark { length mark.now ≤ 2 }
    requires word { length word.now ≤ 8 }
    requires bytes { length bytes.now ≤ 8 }
    ensures { Puts O.written O.failures out.old out.new sink.old sink.new
        (line level (mark.now ++ decimal number ++ word.now ++ encode_lower bytes.now)) }
{
    sink.reserve(out, LINE);
    push_start(&mut sink.held, level, mark, number, word);
    sink.held.push_hex(bytes);
    sink.held.push(b"\n");
}

pub(crate) fn put_len_line<O: Output>(
    sink: &mut Sink,
    out: &mut O,
    level: usize,
    mark: &[u8],
    number: u32,
    bytes: &[u8],
)
    requires low { level ≤ 101 }
    requires mark { length mark.now ≤ 2 }
    ensures { Puts O.written O.failures out.old out.new sink.old sink.new
        (line level (mark.now ++ decimal number ++ codes " len " ++ decimal (length bytes.now)
        ++ shown_bytes bytes.now)) }
{
    sink.reserve(out, LINE);
    push_start(&mut sink.held, level, mark, number, b" len ");
    sink.held.push_decimal(bytes.len() as u64);
    put_shown_bytes(sink, out, bytes);
    sink.put(out, b"\n");
}

/// A space and the bytes in hexadecimal, where there are any.
fn put_shown_bytes<O: Output>(sink: &mut Sink, out: &mut O, bytes: &[u8])
    ensures { Puts O.written O.failures out.old out.new sink.old sink.new (shown_bytes bytes.now) }
{
    if bytes.is_empty() {
        return;
    }
    sink.put(out, b" ");
    sink.put_hex(out, bytes);
}

pub(crate) fn put_group_start<O: Output>(
    sink: &mut Sink,
    out: &mut O,
    level: usize,
    mark: &[u8],
    number: u32,
)
    requires low { level ≤ 101 }
    requires mark { length mark.now ≤ 2 }
    ensures { Puts O.written O.failures out.old out.new sink.old sink.new
        (line level (mark.now ++ decimal number ++ codes " group {")) }
{
    sink.reserve(out, LINE);
    push_start(&mut sink.held, level, mark, number, b" group {");
    sink.held.push(b"\n");
}

/// The line after the records of a group, or the lines of a message.
pub(crate) fn put_end<O: Output>(sink: &mut Sink, out: &mut O, level: usize)
    requires { level ≤ 101 }
    ensures { Puts O.written O.failures out.old out.new sink.old sink.new (line level (codes "}")) }
{
    sink.reserve(out, LINE);
    push_indent(&mut sink.held, level);
    sink.held.push(b"}\n");
}

/// What comes before a record's value.
#[inline]
pub(crate) fn push_start(
    buffer: &mut OutputBuffer,
    level: usize,
    mark: &[u8],
    number: u32,
    word: &[u8],
)
    requires low { level ≤ 101 }
    requires mark { length mark.now ≤ 2 }
    requires fits { length buffer.old + 224 + length word.now ≤ 4096 }
    ensures after { buffer.new
        ≡ buffer.old ++ (indent level ++ (mark.now ++ decimal number ++ word.now)) }
    ensures len { length buffer.new ≤ length buffer.old + 224 + length word.now }
{
    push_indent(buffer, level);
    buffer.push(mark);
    buffer.push_decimal(u64::from(number));
    buffer.push(word);
}

/// The spaces of a level. Most records are in no group.
#[inline]
pub(crate) fn push_indent(buffer: &mut OutputBuffer, level: usize)
    requires low { level ≤ 101 }
    requires fits { length buffer.old + 202 ≤ 4096 }
    ensures after { buffer.new ≡ buffer.old ++ indent level }
    ensures len { length buffer.new ≤ length buffer.old + 202 }
{
    if level > 0 {
        buffer.push(&INDENT[..2 * level]);
    }
}
