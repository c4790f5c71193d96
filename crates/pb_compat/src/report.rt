//! How differences are printed.

ghost use Rattle.std.specs.Prelude.{◌≡◌, ◌++◌, codes, option_map};
ghost use Rattle.std.specs.Fmt.{WritesOnOk};
ghost use Rattle.pb_schema.specs.Kinds.{message_of_kind};
ghost use Rattle.pb_schema.specs.Names.{enum_names, message_names, name_at};
ghost use Rattle.pb_schema.specs.View.{field_view};
ghost use Rattle.pb_compat.specs.Lines.{change_text, difference_text, field_at, field_text, head_text, kind_name as name_of_kind, kind_text};
ghost use Rattle.pb_compat.specs.Lines.{kind_word as word_of_kind, names_text, oneof_word, optional_word, type_text, types_text};
ghost use Rattle.pb_compat.specs.Words.{severity_word};

use crate::difference::{ComparedTypes, Difference, Severity};
use pb_schema::{EnumId, Field, Kind, MessageId, Pool, Shape};
use std::fmt;

/// A difference with the pools that it is between, which prints as one line without its end: the field's full name, its number, what the
/// change does, and what the field is and was, as `shop.Order.price 4 breaks double was int64`.
#[derive(Drop)]
pub struct Report<'p> {
    old: &'p Pool,
    new: &'p Pool,
    old_type: MessageId,
    new_type: MessageId,
    difference: Difference,
}

impl ComparedTypes {
    ghost use Rattle.pb_compat.specs.Lines.{reported};

    /// A difference of these types as a line. The pools are those that were compared.
    pub fn report<'p>(&self, old: &'p Pool, new: &'p Pool, difference: Difference) -> Report<'p>
        ensures { reported result
            ≡ difference_text old.now new.now self.now.old.0 self.now.new.0 difference }
    {
        Report {
            old,
            new,
            old_type: self.old,
            new_type: self.new,
            difference,
        }
    }
}

/// The field of a number in a message type, if the pool has both.
fn field_of(pool: &Pool, message: MessageId, number: u32) -> Option<&Field>
    ensures { option_map (λ f. field_view f.now) result ≡ field_at pool.now message.0 number }
{
    if message.0 < pool.messages().len() {
        pool.field_by_number(message, number)
    } else {
        None
    }
}

/// The full name of a message type, which is in ASCII; nothing if the pool does not have the type.
pub(crate) fn message_name(pool: &Pool, message: MessageId) -> &str
    ensures { result.now ≡ name_at (message_names pool.now) message.0 }
{
    if message.0 >= pool.messages().len() {
        return "";
    }
    match simdutf8::basic::from_utf8(pool.message_name(message)) {
        Ok(name) => name,
        Err(_) => unreachable!(),
    }
}

/// The full name of an enum.
fn enum_name(pool: &Pool, entry: EnumId) -> &str
    ensures { result.now ≡ name_at (enum_names pool.now) entry.0 }
{
    if entry.0 >= pool.enums().len() {
        return "";
    }
    match simdutf8::basic::from_utf8(pool.enum_name(entry)) {
        Ok(name) => name,
        Err(_) => unreachable!(),
    }
}

/// The word before the name of a group or a closed enum.
fn kind_word(kind: Kind) -> &'static str
    ensures { result.now ≡ word_of_kind kind }
{
    match kind {
        Kind::Group(_) => "group ",
        Kind::ClosedEnum(_) => "closed ",
        _ => "",
    }
}

/// A kind as sources name it, a message, a group or an enum by its full name.
fn kind_name(pool: &Pool, kind: Kind) -> &str
    ensures { result.now ≡ name_of_kind pool.now kind }
{
    match kind {
        Kind::Double => "double",
        Kind::Float => "float",
        Kind::Int64 => "int64",
        Kind::Uint64 => "uint64",
        Kind::Int32 => "int32",
        Kind::Fixed64 => "fixed64",
        Kind::Fixed32 => "fixed32",
        Kind::Bool => "bool",
        Kind::Text => "string",
        Kind::Bytes => "bytes",
        Kind::Uint32 => "uint32",
        Kind::Sfixed32 => "sfixed32",
        Kind::Sfixed64 => "sfixed64",
        Kind::Sint32 => "sint32",
        Kind::Sint64 => "sint64",
        Kind::Enum(entry) | Kind::ClosedEnum(entry) => enum_name(pool, entry),
        Kind::Message(message) | Kind::Group(message) => message_name(pool, message),
    }
}

fn write_kind<W: fmt::Write>(f: &mut fmt::Formatter<W>, pool: &Pool, kind: Kind) -> fmt::Result
    ensures { WritesOnOk W.write_str_gives f.old result (kind_text pool.now kind) f.new }
{
    f.write_str(kind_word(kind))?;
    f.write_str(kind_name(pool, kind))
}

/// Writes a oneof of a message type.
fn write_oneof<W: fmt::Write>(
    f: &mut fmt::Formatter<W>,
    pool: &Pool,
    message: MessageId,
    oneof: u32,
) -> fmt::Result
    ensures { WritesOnOk W.write_str_gives f.old result
        (oneof_word pool.now message.0 oneof) f.new }
{
    let Some(message) = pool.messages().get(message.0) else {
        return Ok(());
    };
    let Some(name) = message.oneofs.get(oneof as usize) else {
        return Ok(());
    };
    write!(f, "oneof {name} ")
}

/// The word of a field that keeps whether it is set. A message needs none.
fn optional(kind: Kind) -> &'static str
    ensures { result.now ≡ optional_word (message_of_kind kind) }
{
    match kind.message() {
        Some(_) => "",
        None => "optional ",
    }
}

/// Writes what a field is: its kind, and before it `optional`, `repeated` or the oneof that it is in.
fn write_type<W: fmt::Write>(
    f: &mut fmt::Formatter<W>,
    pool: &Pool,
    message: MessageId,
    shape: Shape,
    kind: Kind,
) -> fmt::Result
    ensures { WritesOnOk W.write_str_gives f.old result
        (type_text pool.now message.0 shape kind) f.new }
{
    match shape {
        Shape::Implicit => write_kind(f, pool, kind),
        Shape::Explicit => {
            f.write_str(optional(kind))?;
            write_kind(f, pool, kind)
        }
        Shape::OneofMember(oneof) => {
            write_oneof(f, pool, message, oneof)?;
            write_kind(f, pool, kind)
        }
        Shape::List { packed: _ } => {
            f.write_str("repeated ")?;
            write_kind(f, pool, kind)
        }
        Shape::Map { key } => write_map(f, pool, key, kind),
    }
}

fn write_map<W: fmt::Write>(
    f: &mut fmt::Formatter<W>,
    pool: &Pool,
    key: Kind,
    kind: Kind,
) -> fmt::Result
    ensures { WritesOnOk W.write_str_gives f.old result
        (codes "map<" ++ kind_text pool.now key ++ codes ", " ++ kind_text pool.now kind
        ++ codes ">") f.new }
{
    f.write_str("map<")?;
    write_kind(f, pool, key)?;
    f.write_str(", ")?;
    write_kind(f, pool, kind)?;
    f.write_str(">")
}

/// Writes the full name of a field, its number, and what its change does.
fn write_head<W: fmt::Write>(
    f: &mut fmt::Formatter<W>,
    message: &str,
    field: &str,
    number: u32,
    word: &str,
) -> fmt::Result
    ensures { WritesOnOk W.write_str_gives f.old result
        (head_text message.now field.now number word.now) f.new }
{
    write!(f, "{message}.{field} {number} {word} ")
}

impl Report<'_> {
    /// The field that the new type has.
    fn new_field(&self) -> Option<&Field>
        ensures { option_map (λ f. field_view f.now) result
            ≡ field_at self.now.new.now self.now.new_type.0 self.now.difference.number }
    {
        field_of(self.new, self.new_type, self.difference.number)
    }

    /// Writes what the field is, and what it was.
    fn write_types<W: fmt::Write>(&self, f: &mut fmt::Formatter<W>, from: &Field) -> fmt::Result
        ensures { WritesOnOk W.write_str_gives f.old result
            (types_text self.now.old.now self.now.new.now self.now.old_type.0 self.now.new_type.0
            (field_view from.now)
            (field_at self.now.new.now self.now.new_type.0 self.now.difference.number)) f.new }
    {
        if let Some(to) = self.new_field() {
            write_type(f, self.new, self.new_type, to.shape, to.kind)?;
            f.write_str(" was ")?;
        }
        write_type(f, self.old, self.old_type, from.shape, from.kind)
    }

    /// Writes the field's name, and what it was.
    fn write_names<W: fmt::Write>(&self, f: &mut fmt::Formatter<W>, from: &Field) -> fmt::Result
        ensures { WritesOnOk W.write_str_gives f.old result (names_text (field_view from.now)
            (field_at self.now.new.now self.now.new_type.0 self.now.difference.number)) f.new }
    {
        if let Some(to) = self.new_field() {
            f.write_str(to.name.as_str())?;
            f.write_str(" was ")?;
        }
        f.write_str(from.name.as_str())
    }

    /// Writes the field's full name, its number, what the change does, and what it is.
    fn write_field<W: fmt::Write>(&self, f: &mut fmt::Formatter<W>, from: &Field) -> fmt::Result
        ensures { WritesOnOk W.write_str_gives f.old result
            (field_text self.now.old.now self.now.new.now self.now.old_type.0 self.now.new_type.0
            self.now.difference (field_view from.now)) f.new }
    {
        write_head(
            f,
            message_name(self.old, self.old_type),
            from.name.as_str(),
            self.difference.number,
            self.difference.severity.word(),
        )?;
        self.write_change(f, from)
    }

    /// Writes what the change is.
    fn write_change<W: fmt::Write>(&self, f: &mut fmt::Formatter<W>, from: &Field) -> fmt::Result
        ensures { WritesOnOk W.write_str_gives f.old result
            (change_text self.now.old.now self.now.new.now self.now.old_type.0 self.now.new_type.0
            self.now.difference.severity (field_view from.now)
            (field_at self.now.new.now self.now.new_type.0 self.now.difference.number)) f.new }
    {
        match self.difference.severity {
            Severity::Renames => self.write_names(f, from),
            _ => self.write_types(f, from),
        }
    }
}

impl Severity {
    /// The word of a line for it: `breaks`, `loses`, `presence`, `converts` or `renames`.
    pub fn word(self) -> &'static str
        ensures { result.now ≡ severity_word self }
    {
        match self {
            Severity::BreaksReading => "breaks",
            Severity::Loses => "loses",
            Severity::ChangesPresence => "presence",
            Severity::Converts => "converts",
            Severity::Renames => "renames",
        }
    }
}

impl fmt::Display for Report<'_> {
    ghost use Rattle.std.specs.Prelude.{Some};
    ghost use Rattle.pb_compat.specs.Lines.{reported};

    ghost output = { λ r. Some (reported r) };

    fn fmt<W: fmt::Write>(&self, f: &mut fmt::Formatter<W>) -> fmt::Result {
        let Some(from) = field_of(self.old, self.old_type, self.difference.number) else {
            return Ok(());
        };
        self.write_field(f, from)
    }
}
