//! The parts of JSON that hold no value: strings, commas and lines.

ghost use Rattle.std.specs.Prelude.{◌≡◌, ◌++◌, ◌≤◌, ◌*◌, [], codes, true};
ghost use Rattle.std.specs.List.{flat_map};
ghost use Rattle.pb_json.specs.JsonText.{closing_line, colon, escape_letter, in_quotes, new_line, separator, string_byte, string_text};
ghost use Rattle.pb_output.specs.Sink.{Puts};

use crate::form::Layout;
use pb_output::Sink;
use pb_wire::Output;

/// Two blanks for each level: a message is at most 101 levels deep, and each level has at most a member and an element.
const BLANKS: [u8; 512] = [b' '; 512];

/// The deepest line.
pub(crate) const MAX_INDENT: usize = 256;

/// A string between quotes.
pub(crate) fn put_string<O: Output>(sink: &mut Sink, out: &mut O, string: &[u8])
    ensures { Puts O.written O.failures out.old out.new sink.old sink.new (string_text string.now) }
{
    sink.put(out, b"\"");
    put_string_bytes(sink, out, string);
    sink.put(out, b"\"");
}

fn put_string_bytes<O: Output>(sink: &mut Sink, out: &mut O, string: &[u8])
    ensures { Puts O.written O.failures out.old out.new sink.old sink.new (flat_map string_byte string.now) }
{
    for byte in string {
        put_string_byte(sink, out, *byte);
    }
}

/// A byte of a string, with a backslash where it needs one.
#[inline]
pub(crate) fn put_string_byte<O: Output>(sink: &mut Sink, out: &mut O, byte: u8)
    ensures { Puts O.written O.failures out.old out.new sink.old sink.new (string_byte byte) }
{
    sink.reserve(out, 6);
    if let Some(letter) = escape_letter(byte) {
        sink.held.push(&[b'\\', letter]);
    } else if byte < 32 {
        sink.held.push(b"\\u00");
        sink.held.push_hex_byte(byte);
    } else {
        sink.held.push(&[byte]);
    }
}

/// The letter after the backslash, of a character that has a short escape.
fn escape_letter(byte: u8) -> Option<u8>
    ensures { result ≡ escape_letter byte }
{
    match byte {
        b'"' => Some(b'"'),
        b'\\' => Some(b'\\'),
        8 => Some(b'b'),
        12 => Some(b'f'),
        b'\n' => Some(b'n'),
        b'\r' => Some(b'r'),
        b'\t' => Some(b't'),
        _ => None,
    }
}

/// Bytes that need no escape, between quotes.
pub(crate) fn put_quoted<O: Output>(sink: &mut Sink, out: &mut O, bytes: &[u8])
    ensures { Puts O.written O.failures out.old out.new sink.old sink.new (in_quotes bytes.now) }
{
    sink.put(out, b"\"");
    sink.put(out, bytes);
    sink.put(out, b"\"");
}

/// The comma before all but the first.
pub(crate) fn put_separator<O: Output>(sink: &mut Sink, out: &mut O, is_first: bool)
    ensures { Puts O.written O.failures out.old out.new sink.old sink.new (separator is_first) }
{
    if !is_first {
        sink.put(out, b",");
    }
}

/// A line feed and the blanks of a level, where lines are indented.
pub(crate) fn put_line<O: Output>(sink: &mut Sink, out: &mut O, layout: Layout, indent: usize)
    requires { indent ≤ 256 }
    ensures { Puts O.written O.failures out.old out.new sink.old sink.new (new_line layout indent) }
{
    match layout {
        Layout::Compact => {}
        Layout::Indented => {
            sink.put(out, b"\n");
            sink.put(out, &BLANKS[..2 * indent]);
        }
    }
}

/// The end of an array or an object, on a line of its own where it holds something.
pub(crate) fn put_closing<O: Output>(
    sink: &mut Sink,
    out: &mut O,
    layout: Layout,
    indent: usize,
    is_empty: bool,
    bracket: &[u8],
)
    requires { indent ≤ 256 }
    ensures { Puts O.written O.failures out.old out.new sink.old sink.new (closing_line layout indent is_empty ++ bracket.now) }
{
    if !is_empty {
        put_line(sink, out, layout, indent);
    }
    sink.put(out, bracket);
}

/// Puts what separates a name from its value.
pub(crate) fn put_colon<O: Output>(sink: &mut Sink, out: &mut O, layout: Layout)
    ensures { Puts O.written O.failures out.old out.new sink.old sink.new (colon layout) }
{
    match layout {
        Layout::Compact => sink.put(out, b":"),
        Layout::Indented => sink.put(out, b": "),
    }
}
