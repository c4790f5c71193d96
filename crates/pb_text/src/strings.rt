//! Strings and bytes between quotes.

ghost use Rattle.std.specs.Prelude.{◌≡◌, ◌++◌, ◌∷◌, [], codes, take};
ghost use Rattle.std.specs.List.{flat_map};
ghost use Rattle.pb_text.specs.Strings.{escape_letter, is_plain, octal, quoted, string_byte};
ghost use Rattle.pb_output.specs.Sink.{Puts};

use crate::form::Characters;
use pb_output::Sink;
use pb_wire::Output;

/// A string between quotes.
pub(crate) fn put_quoted<O: Output>(
    sink: &mut Sink,
    out: &mut O,
    characters: Characters,
    bytes: &[u8],
)
    ensures { Puts O.written O.failures out.old out.new sink.old sink.new
        (quoted characters bytes.now) }
{
    sink.put(out, b"\"");
    put_string_bytes(sink, out, characters, bytes);
    sink.put(out, b"\"");
}

fn put_string_bytes<O: Output>(sink: &mut Sink, out: &mut O, characters: Characters, bytes: &[u8])
    ensures { Puts O.written O.failures out.old out.new sink.old sink.new
        (flat_map (string_byte characters) bytes.now) }
{
    for byte in bytes {
        put_string_byte(sink, out, characters, *byte);
    }
}

/// A byte of a string: as it is, or escaped.
#[inline]
fn put_string_byte<O: Output>(sink: &mut Sink, out: &mut O, characters: Characters, byte: u8)
    ensures { Puts O.written O.failures out.old out.new sink.old sink.new
        (string_byte characters byte) }
{
    sink.reserve(out, 4);
    if let Some(letter) = escape_letter(byte) {
        sink.held.push(&[b'\\', letter]);
    } else if is_plain(characters, byte) {
        sink.held.push(&[byte]);
    } else {
        sink.held.push(&[
            b'\\',
            b'0' + byte / 64,
            b'0' + byte / 8 % 8,
            b'0' + byte % 8,
        ]);
    }
}

/// The letter after the backslash, of a byte with a short escape.
#[inline]
fn escape_letter(byte: u8) -> Option<u8>
    ensures { result ≡ escape_letter byte }
{
    match byte {
        b'\n' => Some(b'n'),
        b'\r' => Some(b'r'),
        b'\t' => Some(b't'),
        b'"' | b'\'' | b'\\' => Some(byte),
        _ => None,
    }
}

/// Whether a byte without a short escape is written as it is.
#[inline]
fn is_plain(characters: Characters, byte: u8) -> bool
    ensures { result ≡ is_plain characters byte }
{
    match characters {
        Characters::Escaped => byte >= 32 && byte < 127,
        Characters::Utf8 => byte >= 32 && byte != 127,
    }
}
