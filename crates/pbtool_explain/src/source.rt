//! Where a byte of a source is, by line and column.

ghost use Rattle.std.specs.Prelude.{◌≡◌, ◌+◌, ◌≤◌, drop, filter, length, take, MatchResult};
ghost use Rattle.pb_listing.specs.Putting.{CutSome, PutsSome, SentSome};
ghost use Rattle.pb_output.specs.Sink.{Puts};
ghost use Rattle.pbtool_explain.specs.Source.{IsLineRest, IsLineStart, IsShownAt, begins_character, blank, ends_line, feeds, mark_of, position_text};

use pb_output::Sink;
use pb_wire::{DeviceFault, Output};

/// A line of a source, by its number from 1 on, and the index of its first byte.
#[derive(Clone, Copy, Debug, PartialEq, Eq)]
pub struct Line {
    pub number: u64,
    pub start: usize,
}

/// The line that has an index of a source.
pub fn line_at(source: &[u8], at: usize) -> Line
    requires { at ≤ length source.now }
    ensures number { result.number ≡ feeds (take at source.now) + 1 }
    ensures start { IsLineStart (take at source.now) result.start }
{
    let before = &source[..at];
    Line {
        number: feeds_in(before) + 1,
        start: start_of_last(before),
    }
}

/// How many line feeds there are.
fn feeds_in(bytes: &[u8]) -> u64
    ensures count { result ≡ feeds bytes.now }
    ensures few { result ≤ length bytes.now }
{
    bytes.iter().filter(|byte| **byte == b'\n').count() as u64
}

/// The index of the first byte of the last line.
fn start_of_last(bytes: &[u8]) -> usize
    ensures { IsLineStart bytes.now result }
{
    let mut start = 0;
    for (index, byte) in bytes.iter().enumerate() {
        if *byte == b'\n' {
            start = index + 1;
        }
    }
    start
}

/// Writes the line and the column of an index, the line itself, and a mark under the character at the index. Where the output fails, a
/// beginning of that went out.
pub fn write_source_line<O: Output>(
    out: &mut O,
    source: &[u8],
    at: usize,
) -> Result<(), DeviceFault>
    requires { at ≤ length source.now }
    ensures { MatchResult result
        (λ _. SentSome O.written O.failures out.old out.new (IsShownAt source.now at))
        (λ _. CutSome O.written O.failures out.old out.new (IsShownAt source.now at)) }
{
    let mut sink = Sink::new();
    put_source_line(&mut sink, out, source, at);
    sink.finish(out)
}

/// Puts these lines.
pub fn put_source_line<O: Output>(sink: &mut Sink, out: &mut O, source: &[u8], at: usize)
    requires { at ≤ length source.now }
    ensures { PutsSome O.written O.failures out.old out.new sink.old sink.new
        (IsShownAt source.now at) }
{
    let line = line_at(source, at);
    let before = front_of_line(source, line.start, at);
    let rest = rest_of_line(&source[at..]);
    put_position(sink, out, line.number, column_of(before));
    sink.put(out, b"  ");
    sink.put(out, before);
    sink.put(out, rest);
    sink.put(out, b"\n  ");
    put_mark(sink, out, before);
}

/// The bytes of a line before an index.
fn front_of_line(source: &[u8], start: usize, at: usize) -> &[u8]
    requires within { at ≤ length source.now }
    requires before { start ≤ at }
    ensures { result.now ≡ drop start (take at source.now) }
{
    &source[start..at]
}

/// The column after these bytes of a line: the number of their characters, and 1.
fn column_of(before: &[u8]) -> u64
    ensures { result ≡ length (filter begins_character before.now) + 1 }
{
    characters_in(before) + 1
}

/// How many characters there are.
fn characters_in(bytes: &[u8]) -> u64
    ensures count { result ≡ length (filter begins_character bytes.now) }
    ensures few { result ≤ length bytes.now }
{
    bytes.iter().filter(|byte| begins(**byte)).count() as u64
}

/// Whether a byte of UTF-8 is the first of a character.
fn begins(byte: u8) -> bool
    ensures { result ≡ begins_character byte }
{
    byte < 0x80 || byte >= 0xc0
}

fn put_position<O: Output>(sink: &mut Sink, out: &mut O, line: u64, column: u64)
    ensures { Puts O.written O.failures out.old out.new sink.old sink.new
        (position_text line column) }
{
    sink.reserve(out, 128);
    sink.held.push(b"  line ");
    sink.held.push_decimal(line);
    sink.held.push(b" column ");
    sink.held.push_decimal(column);
    sink.held.push(b"\n");
}

/// The bytes up to the end of the line.
fn rest_of_line(rest: &[u8]) -> &[u8]
    ensures { IsLineRest rest.now result.now }
{
    for (index, byte) in rest.iter().enumerate() {
        if ends_line(*byte) {
            return &rest[..index];
        }
    }
    rest
}

/// Whether a byte is a line feed or a carriage return.
fn ends_line(byte: u8) -> bool
    ensures { result ≡ ends_line byte }
{
    byte == b'\n' || byte == b'\r'
}

/// A mark after as many spaces as the characters before it take, which keeps their tabs.
fn put_mark<O: Output>(sink: &mut Sink, out: &mut O, before: &[u8])
    ensures { Puts O.written O.failures out.old out.new sink.old sink.new (mark_of before.now) }
{
    for byte in before {
        sink.put(out, blank_of(*byte));
    }
    sink.put(out, b"^\n");
}

/// What takes the place of a byte before a mark.
fn blank_of(byte: u8) -> &'static [u8]
    ensures { result.now ≡ blank byte }
{
    if byte == b'\t' {
        b"\t"
    } else if begins(byte) {
        b" "
    } else {
        b""
    }
}
