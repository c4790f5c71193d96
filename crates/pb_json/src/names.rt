//! The names of members.

ghost use Rattle.std.specs.Prelude.{◌≡◌, ◌==◌, ◌≤◌, ◌++◌, codes, false, true};
ghost use Rattle.std.specs.List.{flat_map};
ghost use Rattle.std.specs.Str.{bytes_eq};
ghost use Rattle.pb_schema.specs.View.{field_view};
ghost use Rattle.pb_value.specs.View.{key_view};
ghost use Rattle.pb_json.specs.JsonNames.{camel_bytes, cased, json_name, lower_camel, member_name};
ghost use Rattle.pb_json.specs.JsonText.{colon, member_start, new_line, separator, string_byte, string_text};
ghost use Rattle.pb_json.specs.Mapping.{key_name};
ghost use Rattle.pb_output.specs.Sink.{Puts};

use crate::form::{JsonForm, Layout, Names};
use crate::given::JsonNames;
use crate::strings::{put_colon, put_line, put_separator, put_string, put_string_byte};
use itoa::Buffer;
use pb_output::Sink;
use pb_schema::{Field, MessageId};
use pb_value::MapKey;
use pb_wire::Output;

/// Puts what comes before the value of a field: a comma, a line, the name and a colon.
pub(crate) fn put_field_start<O: Output>(
    sink: &mut Sink,
    out: &mut O,
    form: JsonForm<'_>,
    indent: usize,
    is_first: bool,
    message: MessageId,
    field: &Field,
)
    requires { indent ≤ 256 }
    ensures { Puts O.written O.failures out.old out.new sink.old sink.new
        (member_start form.entry.layout indent is_first (member_name form.entry.names message.0 (field_view field.now))) }
{
    put_separator(sink, out, is_first);
    put_line(sink, out, form.layout, indent);
    put_name(sink, out, form.names, message, field);
    put_colon(sink, out, form.layout);
}

/// The name of a field of a message type, in quotes.
fn put_name<O: Output>(
    sink: &mut Sink,
    out: &mut O,
    names: Names<'_>,
    message: MessageId,
    field: &Field,
)
    ensures { Puts O.written O.failures out.old out.new sink.old sink.new
        (string_text (member_name names.entry message.0 (field_view field.now))) }
{
    match names {
        Names::LowerCamel => put_camel(sink, out, field.name.as_bytes()),
        Names::Declared => put_string(sink, out, field.name.as_bytes()),
        Names::Given(given) => put_given(sink, out, given, message, field),
    }
}

/// The name of a field as a table gives it, or else without underscores, in quotes.
fn put_given<O: Output>(
    sink: &mut Sink,
    out: &mut O,
    names: &JsonNames,
    message: MessageId,
    field: &Field,
)
    ensures { Puts O.written O.failures out.old out.new sink.old sink.new
        (string_text (json_name names.now message.0 (field_view field.now))) }
{
    match names.given(message, field.number) {
        Some(name) => put_string(sink, out, name.as_bytes()),
        None => put_camel(sink, out, field.name.as_bytes()),
    }
}

/// A name without underscores, in quotes.
fn put_camel<O: Output>(sink: &mut Sink, out: &mut O, name: &[u8])
    ensures { Puts O.written O.failures out.old out.new sink.old sink.new (string_text (lower_camel name.now)) }
{
    sink.put(out, b"\"");
    put_camel_bytes(sink, out, name);
    sink.put(out, b"\"");
}

/// A name without underscores.
pub(crate) fn put_camel_bytes<O: Output>(sink: &mut Sink, out: &mut O, name: &[u8])
    ensures { Puts O.written O.failures out.old out.new sink.old sink.new (flat_map string_byte (lower_camel name.now)) }
{
    let mut raised = false;
    for byte in name {
        raised = put_camel_byte(sink, out, raised, *byte);
    }
}

/// A byte of a name, but for an underscore. The answer is whether it was one.
fn put_camel_byte<O: Output>(sink: &mut Sink, out: &mut O, raised: bool, byte: u8) -> bool
    ensures puts { Puts O.written O.failures out.old out.new sink.old sink.new (camel_bytes raised byte) }
    ensures underscore { result ≡ (byte == 95) }
{
    if byte == b'_' {
        return true;
    }
    put_string_byte(sink, out, cased(raised, byte));
    false
}

/// Whether a declared name in lowerCamelCase is the other name.
pub fn is_camel(declared: &[u8], name: &[u8]) -> bool
    ensures { result ≡ bytes_eq (lower_camel declared.now) name.now }
{
    let mut raised = false;
    let mut at = 0;
    for byte in declared {
        if *byte == b'_' {
            raised = true;
        } else {
            if at == name.len() || name[at] != cased(raised, *byte) {
                return false;
            }
            at += 1;
            raised = false;
        }
    }
    at == name.len()
}

/// A letter, in upper case where it is raised.
fn cased(raised: bool, byte: u8) -> u8
    ensures { result ≡ cased raised byte }
{
    if raised {
        byte.to_ascii_uppercase()
    } else {
        byte
    }
}

/// Puts what comes before the value of an entry.
pub(crate) fn put_entry_start<O: Output>(
    sink: &mut Sink,
    out: &mut O,
    layout: Layout,
    indent: usize,
    is_first: bool,
    key: &MapKey,
)
    requires { indent ≤ 256 }
    ensures { Puts O.written O.failures out.old out.new sink.old sink.new
        (member_start layout indent is_first (key_name (key_view key.now))) }
{
    put_separator(sink, out, is_first);
    put_line(sink, out, layout, indent);
    put_key(sink, out, key);
    put_colon(sink, out, layout);
}

/// A map's key as a string.
fn put_key<O: Output>(sink: &mut Sink, out: &mut O, key: &MapKey)
    ensures { Puts O.written O.failures out.old out.new sink.old sink.new (string_text (key_name (key_view key.now))) }
{
    match key {
        MapKey::I32(number) => put_string(sink, out, Buffer::new().format(*number).as_bytes()),
        MapKey::I64(number) => put_string(sink, out, Buffer::new().format(*number).as_bytes()),
        MapKey::U32(number) => put_string(sink, out, Buffer::new().format(*number).as_bytes()),
        MapKey::U64(number) => put_string(sink, out, Buffer::new().format(*number).as_bytes()),
        MapKey::Bool(true) => put_string(sink, out, b"true"),
        MapKey::Bool(false) => put_string(sink, out, b"false"),
        MapKey::Text(text) => put_string(sink, out, text.as_str().as_bytes()),
    }
}

/// Puts the start of an Any's object, and the URL of its type as the first member.
pub(crate) fn put_type<O: Output>(
    sink: &mut Sink,
    out: &mut O,
    layout: Layout,
    indent: usize,
    url: &str,
)
    requires { indent ≤ 256 }
    ensures { Puts O.written O.failures out.old out.new sink.old sink.new
        (codes "{" ++ (member_start layout indent true (codes "@type") ++ string_text url.now)) }
{
    sink.put(out, b"{");
    put_line(sink, out, layout, indent);
    put_string(sink, out, b"@type");
    put_colon(sink, out, layout);
    put_string(sink, out, url.as_bytes());
}

/// Puts what comes before the form of the message in an Any.
pub(crate) fn put_value_start<O: Output>(
    sink: &mut Sink,
    out: &mut O,
    layout: Layout,
    indent: usize,
)
    requires { indent ≤ 256 }
    ensures { Puts O.written O.failures out.old out.new sink.old sink.new (member_start layout indent false (codes "value")) }
{
    put_separator(sink, out, false);
    put_line(sink, out, layout, indent);
    put_string(sink, out, b"value");
    put_colon(sink, out, layout);
}
