//! The beginnings and the ends of fields.

ghost use Rattle.std.specs.Prelude.{◌≤◌, ◌++◌, [], codes};
ghost use Rattle.pb_text.specs.Lines.{gap, indent, item};
ghost use Rattle.pb_output.specs.Sink.{Puts};

use crate::form::Layout;
use pb_output::Sink;
use pb_wire::Output;

/// Two blanks for each level.
const INDENT: [u8; 440] = [b' '; 440];

/// The blanks of a level.
pub(crate) fn put_indent<O: Output>(sink: &mut Sink, out: &mut O, layout: Layout, level: usize)
    requires { level ≤ 220 }
    ensures { Puts O.written O.failures out.old out.new sink.old sink.new (indent layout level) }
{
    match layout {
        Layout::Lines => sink.put(out, &INDENT[..2 * level]),
        Layout::OneLine => {}
    }
}

/// What comes after a field.
pub(crate) fn put_gap<O: Output>(sink: &mut Sink, out: &mut O, layout: Layout)
    ensures { Puts O.written O.failures out.old out.new sink.old sink.new (gap layout) }
{
    match layout {
        Layout::Lines => sink.put(out, b"\n"),
        Layout::OneLine => sink.put(out, b" "),
    }
}

/// What comes before the fields of a message: its label, and a brace.
pub(crate) fn put_start<O: Output>(
    sink: &mut Sink,
    out: &mut O,
    layout: Layout,
    level: usize,
    label: &[u8],
)
    requires { level ≤ 220 }
    ensures { Puts O.written O.failures out.old out.new sink.old sink.new
        (item layout level (label.now ++ codes " {")) }
{
    put_indent(sink, out, layout, level);
    sink.put(out, label);
    sink.put(out, b" {");
    put_gap(sink, out, layout);
}

/// What comes after the fields of a message.
pub(crate) fn put_end<O: Output>(sink: &mut Sink, out: &mut O, layout: Layout, level: usize)
    requires { level ≤ 220 }
    ensures { Puts O.written O.failures out.old out.new sink.old sink.new
        (item layout level (codes "}")) }
{
    put_indent(sink, out, layout, level);
    sink.put(out, b"}");
    put_gap(sink, out, layout);
}
