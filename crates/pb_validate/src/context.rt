//! What holds records, and how a record of a number is read there.

ghost use Rattle.std.specs.Prelude.{◌≡◌};
ghost use Rattle.pb_schema.specs.Context.{message_in as message_read_in, read_singular, read_listed, read_shaped};
ghost use Rattle.pb_schema.specs.Context.{schema_of, group_in, group_of_field};
ghost use Rattle.pb_schema.specs.View.{field_view};
ghost use Rattle.pb_validate.specs.Contexts.{context_view, reading_view, IsIn, IsReadingIn};

use pb_schema::{Field, Kind, MessageId, Pool, Shape};

/// What holds records.
#[derive(Clone, Copy)]
pub(crate) enum Context {
    Message(MessageId),
    /// A map entry, with the kinds of its key and its value.
    Entry(Kind, Kind),
    /// A group that no schema knows.
    UnknownGroup,
}

/// One element of a packed list.
#[derive(Clone, Copy)]
pub(crate) enum Element {
    Varint,
    FourBytes,
    EightBytes,
}

/// How a length-delimited record is read.
#[derive(Clone, Copy)]
pub(crate) enum Reading {
    /// Its payload is not looked into.
    Unread,
    Text,
    /// Records one level down.
    Message(Context),
    /// Records at the level of what holds them: the message value of a map entry.
    SameLevel(Context),
    Packed(Element),
}

/// How a message payload is read in a context.
#[inline(always)]
fn message_in(context: Context, message: MessageId) -> Reading
    ensures { reading_view result ≡ message_read_in (context_view context) message.0 }
{
    match context {
        Context::Entry(_, _) => Reading::SameLevel(Context::Message(message)),
        _ => Reading::Message(Context::Message(message)),
    }
}

/// How a record of a field of one value is read.
#[inline(always)]
fn singular(context: Context, kind: Kind) -> Reading
    ensures { reading_view result ≡ read_singular (context_view context) kind }
{
    match kind {
        Kind::Text => Reading::Text,
        Kind::Message(message) => message_in(context, message),
        _ => Reading::Unread,
    }
}

/// How a record of a list is read: the numbers of a packed list are not.
#[inline(always)]
fn listed(context: Context, kind: Kind) -> Reading
    ensures { reading_view result ≡ read_listed (context_view context) kind }
{
    match kind {
        Kind::Text | Kind::Bytes | Kind::Message(_) | Kind::Group(_) => singular(context, kind),
        Kind::Double | Kind::Fixed64 | Kind::Sfixed64 => Reading::Packed(Element::EightBytes),
        Kind::Float | Kind::Fixed32 | Kind::Sfixed32 => Reading::Packed(Element::FourBytes),
        _ => Reading::Packed(Element::Varint),
    }
}

/// How a record of a field is read.
#[inline(always)]
fn of_field(context: Context, field: &Field) -> Reading
    ensures { reading_view result ≡ read_shaped (context_view context) (field_view field.now).shape (field_view field.now).kind }
{
    match field.shape {
        Shape::Map { key } => Reading::Message(Context::Entry(key, field.kind)),
        Shape::List { packed: _ } => listed(context, field.kind),
        _ => singular(context, field.kind),
    }
}

/// How a length-delimited record of a number is read in a context.
#[inline(always)]
pub(crate) fn reading_of(pool: &Pool, context: Context, number: u32) -> Reading
    requires { IsIn pool.now (context_view context) }
    ensures read { reading_view result ≡ (schema_of pool.now).reading (context_view context) number }
    ensures within { IsReadingIn pool.now (context_view context) (reading_view result) }
{
    match context {
        Context::Message(message) => match pool.field_by_number(message, number) {
            Some(field) => of_field(context, field),
            None => Reading::Unread,
        },
        Context::Entry(key, value) => match number {
            1 => singular(context, key),
            2 => singular(context, value),
            _ => Reading::Unread,
        },
        Context::UnknownGroup => Reading::Unread,
    }
}

/// What the group of a field holds.
#[inline(always)]
fn group_of(field: &Field) -> Context
    ensures { context_view result ≡ group_of_field (Some (field_view field.now)) }
{
    if let Shape::Map { key: _ } = field.shape {
        return Context::UnknownGroup;
    }
    match field.kind {
        Kind::Group(message) => Context::Message(message),
        _ => Context::UnknownGroup,
    }
}

/// What a group of a number in a context holds.
#[inline(always)]
pub(crate) fn group_context(pool: &Pool, context: Context, number: u32) -> Context
    requires { IsIn pool.now (context_view context) }
    ensures read { context_view result ≡ group_in pool.now (context_view context) number }
    ensures within { IsIn pool.now (context_view result) }
{
    match context {
        Context::Message(message) => match pool.field_by_number(message, number) {
            Some(field) => group_of(field),
            None => Context::UnknownGroup,
        },
        _ => Context::UnknownGroup,
    }
}
