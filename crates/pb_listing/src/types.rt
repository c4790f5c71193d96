//! The listing of what a pool declares: its files, its message types with their fields, and its enums with their values.

ghost use Rattle.std.specs.Prelude.{◌≡◌, ◌++◌, ◌<◌, [], codes, decimal, length, map, string_bytes, MatchResult};
ghost use Rattle.std.specs.Fmt.{signed_decimal};
ghost use Rattle.std.specs.List.{flat_map};
ghost use Rattle.pb_schema.specs.Names.{enum_names, message_names, name_at};
ghost use Rattle.pb_schema.specs.Kinds.{is_group};
ghost use Rattle.pb_schema.specs.View.{enum_view, field_view, file_view, message_view};
ghost use Rattle.pb_listing.specs.RawListing.{line_feed};
ghost use Rattle.pb_listing.specs.TypesListing.{enum_lines_at, enum_type_lines, file_line, file_name_at, group_word as group_word_of};
ghost use Rattle.pb_listing.specs.TypesListing.{kind_name_of, kind_text, lines_below};
ghost use Rattle.pb_listing.specs.TypesListing.{message_lines_at, message_type_lines, syntax_text, type_text, types_listing, value_line};
ghost use Rattle.pb_listing.specs.FieldOwner.{field_line_of};
ghost use Rattle.pb_output.specs.Sending.{Cut, Sent};
ghost use Rattle.pb_output.specs.Sink.{Puts};

use crate::values::{put_integer, put_natural};
use pb_output::Sink;
use pb_schema::{EnumId, EnumType, Field, FileInfo, Kind, MessageId, MessageType, Pool, Shape};
use pb_wire::{DeviceFault, Output};

/// Writes what a pool declares, one line for each file, message type, field, enum and value, in declaration order. An error says that
/// the output failed, after a beginning of the listing.
pub fn write_types<O: Output>(out: &mut O, pool: &Pool) -> Result<(), DeviceFault>
    ensures { MatchResult result
        (λ _. Sent O.written O.failures out.old out.new (types_listing pool.now))
        (λ _. Cut O.written O.failures out.old out.new (types_listing pool.now)) }
{
    let mut sink = Sink::new();
    put_types(&mut sink, out, pool);
    sink.finish(out)
}

/// Puts what a pool declares, one line for each thing, in declaration order.
pub fn put_types<O: Output>(sink: &mut Sink, out: &mut O, pool: &Pool)
    ensures { Puts O.written O.failures out.old out.new sink.old sink.new (types_listing pool.now) }
{
    put_files(sink, out, pool.files());
    put_message_types(sink, out, pool);
    put_enum_types(sink, out, pool);
}

fn put_files<O: Output>(sink: &mut Sink, out: &mut O, files: &[FileInfo])
    ensures { Puts O.written O.failures out.old out.new sink.old sink.new
        (flat_map file_line (map file_view files.now)) }
{
    for file in files {
        put_file(sink, out, file);
    }
}

fn put_file<O: Output>(sink: &mut Sink, out: &mut O, file: &FileInfo)
    ensures { Puts O.written O.failures out.old out.new sink.old sink.new
        (file_line (file_view file.now)) }
{
    sink.put(out, b"file ");
    sink.put(out, file.name.as_str().as_bytes());
    sink.put(
        out,
        if file.proto2 {
            b" proto2\n"
        } else {
            b" proto3\n"
        },
    );
}

fn put_message_types<O: Output>(sink: &mut Sink, out: &mut O, pool: &Pool)
    ensures { Puts O.written O.failures out.old out.new sink.old sink.new
        (lines_below (length pool.now.messages) (message_lines_at pool.now)) }
{
    for index in 0..pool.messages().len() {
        put_message_type(sink, out, pool, MessageId(index));
    }
}

/// Puts a message type with its fields, one line each.
pub fn put_message_type<O: Output>(sink: &mut Sink, out: &mut O, pool: &Pool, id: MessageId)
    requires { id.0 < length pool.now.messages }
    ensures { Puts O.written O.failures out.old out.new sink.old sink.new
        (message_lines_at pool.now id.0) }
{
    let full_name = pool.message_name(id);
    put_described(sink, out, pool, full_name, &pool.messages()[id.0]);
}

/// A message whose fields are listed: the pool, the full name of the message, and the names of its oneofs.
#[derive(Clone, Copy)]
struct Owner<'a> {
    pool: &'a Pool,
    full_name: &'a [u8],
    oneofs: &'a Vec<String>,
}

fn put_described<O: Output>(
    sink: &mut Sink,
    out: &mut O,
    pool: &Pool,
    full_name: &[u8],
    message_type: &MessageType,
)
    ensures { Puts O.written O.failures out.old out.new sink.old sink.new
        (message_type_lines pool.now full_name.now (message_view message_type.now)) }
{
    put_head(sink, out, pool, b"message ", full_name, message_type.file);
    let owner = Owner {
        pool,
        full_name,
        oneofs: &message_type.oneofs,
    };
    put_message_fields(sink, out, owner, message_type.fields.as_slice());
}

fn put_message_fields<O: Output>(sink: &mut Sink, out: &mut O, owner: Owner<'_>, fields: &[Field])
    ensures { Puts O.written O.failures out.old out.new sink.old sink.new
        (flat_map (field_line_of owner.entry) fields.now) }
{
    for field in fields {
        put_field(sink, out, owner, field);
    }
}

/// The line of a message type or of an enum: a word, its full name and its file.
fn put_head<O: Output>(
    sink: &mut Sink,
    out: &mut O,
    pool: &Pool,
    word: &[u8],
    full_name: &[u8],
    file: usize,
)
    ensures { Puts O.written O.failures out.old out.new sink.old sink.new
        (word.now ++ full_name.now ++ codes " " ++ file_name_at pool.now file ++ line_feed) }
{
    sink.put(out, word);
    sink.put(out, full_name);
    sink.put(out, b" ");
    sink.put(out, file_name(pool, file));
    sink.put(out, b"\n");
}

/// The name of the file at an index; of an index out of range nothing.
pub fn file_name(pool: &Pool, file: usize) -> &[u8]
    ensures { result.now ≡ file_name_at pool.now file }
{
    match pool.files().get(file) {
        Some(file) => file.name.as_str().as_bytes(),
        None => &[],
    }
}

fn put_field<O: Output>(sink: &mut Sink, out: &mut O, owner: Owner<'_>, field: &Field)
    ensures { Puts O.written O.failures out.old out.new sink.old sink.new
        (field_line_of owner.entry field.now) }
{
    sink.put(out, b"field ");
    sink.put(out, owner.full_name);
    sink.put(out, b".");
    sink.put(out, field.name.as_str().as_bytes());
    sink.put(out, b" ");
    put_natural(sink, out, u64::from(field.number));
    sink.put(out, b" ");
    put_type(sink, out, owner.pool, owner.oneofs, field.shape, field.kind);
    sink.put(out, b"\n");
}

/// The presence, oneof or label of a field, and its type.
fn put_type<O: Output>(
    sink: &mut Sink,
    out: &mut O,
    pool: &Pool,
    oneofs: &Vec<String>,
    shape: Shape,
    kind: Kind,
)
    ensures { Puts O.written O.failures out.old out.new sink.old sink.new
        (type_text pool.now (map string_bytes oneofs.now.items) shape kind) }
{
    match shape {
        Shape::Implicit => put_labelled(sink, out, b"implicit ", pool, kind),
        Shape::Explicit => put_labelled(sink, out, b"optional ", pool, kind),
        Shape::OneofMember(oneof) => {
            sink.put(out, b"oneof:");
            sink.put(out, oneof_name(oneofs, oneof));
            sink.put(out, b" ");
            put_kind(sink, out, pool, kind);
        }
        Shape::List { packed: false } => put_labelled(sink, out, b"repeated ", pool, kind),
        Shape::List { packed: true } => {
            put_labelled(sink, out, b"repeated ", pool, kind);
            sink.put(out, b" packed");
        }
        Shape::Map { key } => {
            put_labelled(sink, out, b"repeated map<", pool, key);
            sink.put(out, b", ");
            put_kind(sink, out, pool, kind);
            sink.put(out, b">");
        }
    }
}

/// A label and then a kind.
fn put_labelled<O: Output>(sink: &mut Sink, out: &mut O, label: &[u8], pool: &Pool, kind: Kind)
    ensures { Puts O.written O.failures out.old out.new sink.old sink.new
        (label.now ++ kind_text pool.now kind) }
{
    sink.put(out, label);
    put_kind(sink, out, pool, kind);
}

/// Puts a kind as sources name it, a message, a group or an enum by its full name, and a group after the word `group`.
pub fn put_kind<O: Output>(sink: &mut Sink, out: &mut O, pool: &Pool, kind: Kind)
    ensures { Puts O.written O.failures out.old out.new sink.old sink.new
        (kind_text pool.now kind) }
{
    sink.put(out, group_word(kind));
    sink.put(out, kind_name(pool, kind));
}

/// The word before the name of a group.
fn group_word(kind: Kind) -> &'static [u8]
    ensures { result.now ≡ group_word_of (is_group kind) }
{
    match kind {
        Kind::Group(_) => b"group ",
        _ => b"",
    }
}

/// The name of the oneof at an index; of an index out of range nothing.
fn oneof_name(oneofs: &Vec<String>, oneof: u32) -> &[u8]
    ensures { result.now ≡ name_at (map string_bytes oneofs.now.items) oneof }
{
    match oneofs.get(oneof as usize) {
        Some(name) => name.as_str().as_bytes(),
        None => &[],
    }
}

/// A kind as sources name it, a message, a group or an enum by its full name.
fn kind_name(pool: &Pool, kind: Kind) -> &[u8]
    ensures { result.now ≡ kind_name_of pool.now kind }
{
    match kind {
        Kind::Double => b"double",
        Kind::Float => b"float",
        Kind::Int64 => b"int64",
        Kind::Uint64 => b"uint64",
        Kind::Int32 => b"int32",
        Kind::Fixed64 => b"fixed64",
        Kind::Fixed32 => b"fixed32",
        Kind::Bool => b"bool",
        Kind::Text => b"string",
        Kind::Bytes => b"bytes",
        Kind::Uint32 => b"uint32",
        Kind::Sfixed32 => b"sfixed32",
        Kind::Sfixed64 => b"sfixed64",
        Kind::Sint32 => b"sint32",
        Kind::Sint64 => b"sint64",
        Kind::Enum(id) | Kind::ClosedEnum(id) => enum_name(pool, id),
        Kind::Message(id) | Kind::Group(id) => message_name(pool, id),
    }
}

/// The full name of a message type; of an index out of range nothing.
fn message_name(pool: &Pool, id: MessageId) -> &[u8]
    ensures { result.now ≡ name_at (message_names pool.now) id.0 }
{
    if id.0 < pool.messages().len() {
        pool.message_name(id)
    } else {
        &[]
    }
}

/// The full name of an enum; of an index out of range nothing.
fn enum_name(pool: &Pool, id: EnumId) -> &[u8]
    ensures { result.now ≡ name_at (enum_names pool.now) id.0 }
{
    if id.0 < pool.enums().len() {
        pool.enum_name(id)
    } else {
        &[]
    }
}

fn put_enum_types<O: Output>(sink: &mut Sink, out: &mut O, pool: &Pool)
    ensures { Puts O.written O.failures out.old out.new sink.old sink.new
        (lines_below (length pool.now.enums) (enum_lines_at pool.now)) }
{
    for index in 0..pool.enums().len() {
        put_enum_type(sink, out, pool, EnumId(index));
    }
}

/// Puts an enum with its values, one line each.
pub fn put_enum_type<O: Output>(sink: &mut Sink, out: &mut O, pool: &Pool, id: EnumId)
    requires { id.0 < length pool.now.enums }
    ensures { Puts O.written O.failures out.old out.new sink.old sink.new
        (enum_lines_at pool.now id.0) }
{
    let full_name = pool.enum_name(id);
    put_enumerated(sink, out, pool, full_name, &pool.enums()[id.0]);
}

fn put_enumerated<O: Output>(
    sink: &mut Sink,
    out: &mut O,
    pool: &Pool,
    full_name: &[u8],
    entry: &EnumType,
)
    ensures { Puts O.written O.failures out.old out.new sink.old sink.new
        (enum_type_lines pool.now full_name.now (enum_view entry.now)) }
{
    put_head(sink, out, pool, b"enum ", full_name, entry.file);
    put_enum_values(sink, out, full_name, entry.values.as_slice());
}

fn put_enum_values<O: Output>(
    sink: &mut Sink,
    out: &mut O,
    full_name: &[u8],
    values: &[(String, i32)],
)
    ensures { Puts O.written O.failures out.old out.new sink.old sink.new
        (flat_map (value_line full_name.now) (map (λ v. (string_bytes v.0, v.1)) values.now)) }
{
    for (name, number) in values {
        put_enum_value(sink, out, full_name, name, *number);
    }
}

fn put_enum_value<O: Output>(
    sink: &mut Sink,
    out: &mut O,
    full_name: &[u8],
    name: &String,
    number: i32,
)
    ensures { Puts O.written O.failures out.old out.new sink.old sink.new
        (value_line full_name.now (string_bytes name.now, number)) }
{
    sink.put(out, b"value ");
    sink.put(out, full_name);
    sink.put(out, b" ");
    sink.put(out, name.as_str().as_bytes());
    sink.put(out, b" ");
    put_number(sink, out, number);
    sink.put(out, b"\n");
}

/// The number of a value.
fn put_number<O: Output>(sink: &mut Sink, out: &mut O, number: i32)
    ensures { Puts O.written O.failures out.old out.new sink.old sink.new (signed_decimal number) }
{
    put_integer(sink, out, i64::from(number));
}
