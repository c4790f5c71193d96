//! What was expected where bytes are refused.

ghost use Rattle.std.specs.Prelude.{◌≡◌};
ghost use Rattle.pb_output.specs.Sink.{Puts};
ghost use Rattle.pbtool_explain.specs.Expected.{expected_line, expected_of};

use pb_output::Sink;
use pb_wire::{Cause, Output};

/// Puts the line that says what was expected in place of a fault of this cause.
pub fn put_expected<O: Output>(sink: &mut Sink, out: &mut O, cause: Cause)
    ensures { Puts O.written O.failures out.old out.new sink.old sink.new (expected_line cause) }
{
    sink.put(out, b"  expected: ");
    sink.put(out, expected(cause).as_bytes());
    sink.put(out, b"\n");
}

/// What was expected, in a few words.
fn expected(cause: Cause) -> &'static str
    ensures { result.now ≡ expected_of cause }
{
    match cause {
        Cause::Truncated => "more bytes: the input ends inside a record",
        Cause::PastEnd => "a record that ends no later than its parent",
        Cause::VarintTooLong =>
            "a varint of at most ten bytes, whose last is below 80 in hexadecimal",
        Cause::TagTooLarge => "a tag below 2^32",
        Cause::NumberZero => "a field number above 0",
        Cause::BadType => "a wire type from 0 to 5",
        Cause::StrayEnd => "a record: no group is open that could end here",
        Cause::WrongEnd => "the end of the group that is open, with its field number",
        Cause::LengthTooLarge => "a length of at most 2147483647 bytes",
        Cause::BadText => "a string in UTF-8",
        Cause::TooDeep => "no message, map entry or group below 100 others",
        Cause::InputTooLarge => "at most 2147483647 bytes",
    }
}
