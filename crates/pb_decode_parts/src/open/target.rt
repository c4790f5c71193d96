//! What a record is for, by its parent.

ghost use Rattle.std.specs.Prelude.{◌≡◌, true};
ghost use Rattle.pb_schema.specs.Fits.{fits_type};
ghost use Rattle.pb_schema.specs.View.{field_view};
ghost use Rattle.pb_decode_parts.specs.Open.Parents.{CanHold};
ghost use Rattle.pb_decode_parts.specs.Open.PartView.{part_view};
ghost use Rattle.pb_decode_parts.specs.Open.Targets.{OfField, OfEntry, Means, part_context};

use crate::{Part, Slot};
use pb_schema::{Field, Kind, MessageId, Pool, Shape, fits};

/// What becomes of a record's value.
#[derive(Clone, Copy)]
pub enum Target {
    /// The value of a field of one value.
    One(Kind, Shape),
    /// An element of a list.
    Element(Kind),
    /// The elements of a packed list.
    Packed(Kind),
    /// A message, which goes into a slot.
    Message(MessageId, Slot),
    /// The entry of a map with these kinds of key and value.
    Entry(Kind, Kind),
    /// The key of an entry.
    Key(Kind),
    /// The value of an entry.
    EntryValue(Kind),
    /// An unknown record.
    Unknown,
}

/// What a record is for that fits a field.
#[inline(always)]
fn of_field(field: &Field, number: u32, wire_type: u8) -> Target
    requires { fits_type (field_view field.now) wire_type ≡ true }
    ensures { OfField (field_view field.now) number wire_type result }
{
    match field.shape {
        Shape::Map { key } => Target::Entry(key, field.kind),
        Shape::List { packed: _ } => match field.kind.message() {
            Some(message) => Target::Message(message, Slot::List(number)),
            None if field.kind.wire_type() == wire_type => Target::Element(field.kind),
            None => Target::Packed(field.kind),
        },
        _ => match field.kind.message() {
            Some(message) => Target::Message(message, Slot::One(field.shape, number)),
            None => Target::One(field.kind, field.shape),
        },
    }
}

/// What a record of an entry is for.
#[inline(always)]
fn of_entry(key_kind: Kind, value_kind: Kind, number: u32, wire_type: u8) -> Target
    ensures { OfEntry key_kind value_kind number wire_type result }
{
    if number == 1 && key_kind.wire_type() == wire_type {
        Target::Key(key_kind)
    } else if number == 2 && value_kind.wire_type() == wire_type {
        match value_kind.message() {
            Some(message) => Target::Message(message, Slot::Entry),
            None => Target::EntryValue(value_kind),
        }
    } else {
        Target::Unknown
    }
}

/// What a record of a number and a wire type is for.
#[inline(always)]
pub fn target_of(pool: &Pool, part: &Part, number: u32, wire_type: u8) -> Target
    requires { CanHold pool.now (part_view part.now) }
    ensures { Means pool.now (part_context (part_view part.now)) number wire_type result }
{
    match part {
        Part::Message(kind, _) => match pool.field_by_number(*kind, number) {
            Some(field) if fits(field, wire_type) => of_field(field, number, wire_type),
            Some(_) => Target::Unknown,
            None => Target::Unknown,
        },
        Part::Entry(entry) => of_entry(entry.key_kind, entry.value_kind, number, wire_type),
        Part::Group(_) => Target::Unknown,
    }
}
