//! The bytes around a position, in hexadecimal.

ghost use Rattle.std.specs.Prelude.{◌≡◌, ◌∷◌, ◌≤◌, [], length};
ghost use Rattle.pb_output.specs.Sink.{Puts};
ghost use Rattle.pbtool_explain.specs.Window.{hex_words, mark_before, mark_end, window_after, window_before, window_lines};

use pb_output::Sink;
use pb_wire::Output;

/// How many bytes are shown before a position, and how many after it.
const AROUND: usize = 16;

/// Spaces, as many as sixteen bytes take.
const BLANKS: &[u8] = b"                                                ";

/// Puts the bytes around a position in hexadecimal, sixteen before it and sixteen after it, or as many as there are, and below them a
/// mark under the one at the position. At the end of the bytes the mark is after the last.
pub fn put_window<O: Output>(sink: &mut Sink, out: &mut O, bytes: &[u8], at: usize)
    requires { at ≤ length bytes.now }
    ensures { Puts O.written O.failures out.old out.new sink.old sink.new
        (window_lines bytes.now at) }
{
    let before = bytes_before(bytes, at);
    let after = bytes_after(bytes, at);
    sink.put(out, b" ");
    put_hex_words(sink, out, before);
    put_hex_words(sink, out, after);
    sink.put(out, b"\n ");
    sink.put(out, blanks(before));
    sink.put(out, end_of_mark(after));
}

/// The bytes that are shown before a position.
fn bytes_before(bytes: &[u8], at: usize) -> &[u8]
    requires { at ≤ length bytes.now }
    ensures window { result.now ≡ window_before bytes.now at }
    ensures few { length result.now ≤ 16 }
{
    &bytes[at.saturating_sub(AROUND)..at]
}

/// The byte at a position, and those that are shown after it.
fn bytes_after(bytes: &[u8], at: usize) -> &[u8]
    requires { at ≤ length bytes.now }
    ensures { result.now ≡ window_after bytes.now at }
{
    let rest = &bytes[at..];
    &rest[..rest.len().min(AROUND + 1)]
}

/// Each byte after a space.
fn put_hex_words<O: Output>(sink: &mut Sink, out: &mut O, bytes: &[u8])
    ensures { Puts O.written O.failures out.old out.new sink.old sink.new (hex_words bytes.now) }
{
    for byte in bytes {
        put_hex_word(sink, out, *byte);
    }
}

fn put_hex_word<O: Output>(sink: &mut Sink, out: &mut O, byte: u8)
    ensures { Puts O.written O.failures out.old out.new sink.old sink.new (hex_words (byte ∷ [])) }
{
    sink.put(out, b" ");
    sink.put_hex(out, &[byte]);
}

/// As many spaces as the bytes take.
fn blanks(bytes: &[u8]) -> &'static [u8]
    requires { length bytes.now ≤ 16 }
    ensures { result.now ≡ mark_before bytes.now }
{
    &BLANKS[..3 * bytes.len()]
}

/// The mark under the first of these bytes, or at the end of all.
fn end_of_mark(after: &[u8]) -> &'static [u8]
    ensures { result.now ≡ mark_end after.now }
{
    if after.is_empty() {
        b" ^^ the end\n"
    } else {
        b" ^^\n"
    }
}
