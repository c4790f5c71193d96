//! Bytes of a message that are refused.

ghost use Rattle.std.specs.Prelude.{◌+◌, ◌≤◌, ◌<◌, ◌^◌, ◌++◌, codes, decimal, length, MatchResult};
ghost use Rattle.pb_listing.specs.Putting.{CutSome, PutsSome, SentSome};
ghost use Rattle.pb_output.specs.Sink.{Puts};
ghost use Rattle.pbtool_explain.specs.Explained.{IsExplained, frame_text, site_line};

use crate::expected::put_expected;
use crate::steps::{Given, Parent, put_steps};
use crate::window::put_window;
use pb_output::Sink;
use pb_schema::Pool;
use pb_wire::{Cause, DeviceFault, Output, PathStep};

/// Where bytes are refused, counted from the first of them, the steps to the open records outermost first, and why.
#[derive(Clone, Copy, Debug)]
pub struct Refused<'a> {
    pub byte: usize,
    pub path: &'a [PathStep],
    pub cause: Cause,
}

/// Writes the lines for a person about bytes that are refused: where the byte is in the file, the open records with their names, types and
/// bytes, what was expected, and the bytes around. Where the output fails, a beginning of them went out.
pub fn write_fault<O: Output>(
    out: &mut O,
    pool: &Pool,
    parent: Parent,
    given: Given<'_>,
    refused: Refused<'_>,
) -> Result<(), DeviceFault>
    requires within { refused.byte ≤ length given.bytes.now }
    requires small { given.offset + refused.byte < 2 ^ 64 }
    ensures { MatchResult result
        (λ _. SentSome O.written O.failures out.old out.new
        (IsExplained pool.now parent given.entry refused.entry))
        (λ _. CutSome O.written O.failures out.old out.new
        (IsExplained pool.now parent given.entry refused.entry)) }
{
    let mut sink = Sink::new();
    put_fault(&mut sink, out, pool, parent, given, refused);
    sink.finish(out)
}

/// Puts these lines.
pub fn put_fault<O: Output>(
    sink: &mut Sink,
    out: &mut O,
    pool: &Pool,
    parent: Parent,
    given: Given<'_>,
    refused: Refused<'_>,
)
    requires within { refused.byte ≤ length given.bytes.now }
    requires small { given.offset + refused.byte < 2 ^ 64 }
    ensures { PutsSome O.written O.failures out.old out.new sink.old sink.new
        (IsExplained pool.now parent given.entry refused.entry) }
{
    put_site(sink, out, given, refused.byte);
    put_steps(sink, out, pool, parent, given, refused.path);
    put_expected(sink, out, refused.cause);
    put_window(sink, out, given.bytes, refused.byte);
}

/// The line that says where a byte of what is given is in its file.
fn put_site<O: Output>(sink: &mut Sink, out: &mut O, given: Given<'_>, byte: usize)
    requires { given.offset + byte < 2 ^ 64 }
    ensures { Puts O.written O.failures out.old out.new sink.old sink.new
        (site_line given.entry byte) }
{
    put_byte(sink, out, given.offset + byte as u64);
    sink.put(out, given.file.as_bytes());
    match given.frame {
        None => sink.put(out, b"\n"),
        Some(index) => put_frame(sink, out, byte as u64, index, given.offset),
    }
}

fn put_byte<O: Output>(sink: &mut Sink, out: &mut O, byte: u64)
    ensures { Puts O.written O.failures out.old out.new sink.old sink.new
        (codes "  at byte " ++ decimal byte ++ codes " of ") }
{
    sink.reserve(out, 64);
    sink.held.push(b"  at byte ");
    sink.held.push_decimal(byte);
    sink.held.push(b" of ");
}

/// Which byte of which frame it is.
fn put_frame<O: Output>(sink: &mut Sink, out: &mut O, byte: u64, index: u64, offset: u64)
    ensures { Puts O.written O.failures out.old out.new sink.old sink.new
        (frame_text byte index offset) }
{
    sink.reserve(out, 128);
    sink.held.push(b": byte ");
    sink.held.push_decimal(byte);
    sink.held.push(b" of frame ");
    sink.held.push_decimal(index);
    sink.held.push(b", which begins at byte ");
    sink.held.push_decimal(offset);
    sink.held.push(b"\n");
}
