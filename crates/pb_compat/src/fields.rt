//! What the change of a field does.

ghost use Rattle.std.specs.Prelude.{◌≡◌, ◌≤◌, not};
ghost use Rattle.std.specs.Str.{bytes_eq};
ghost use Rattle.pb_schema.specs.View.{field_view};
ghost use Rattle.pb_compat.specs.Fields.{keeps_kind as keeps_value, keeps_others as keeps_rest, keeps_values as keeps_all, keeps_shape as keeps_form};
ghost use Rattle.pb_compat.specs.Fields.{presence as presence_of, changes_presence as presence_changes, kind_form as form_of_kind, shape_form as form_of_shape};
ghost use Rattle.pb_compat.specs.Fields.{keeps_field as keeps, is_same_form as same_form, change_of_field};

use crate::difference::Severity;
use crate::scalars::{keeps_scalars, undeclared};
use pb_schema::{Field, Kind, Pool, Shape};

/// Whether values of one kind are kept by another. What is in a message is not looked at.
pub(crate) fn keeps_kind(old: &Pool, new: &Pool, from: Kind, to: Kind) -> bool
    ensures { result ≡ keeps_value old.now new.now from to }
{
    match from {
        Kind::Message(_) => matches!(to, Kind::Message(_) | Kind::Bytes),
        Kind::Group(_) => matches!(to, Kind::Group(_)),
        Kind::Double
        | Kind::Float
        | Kind::Int64
        | Kind::Uint64
        | Kind::Int32
        | Kind::Fixed64
        | Kind::Fixed32
        | Kind::Bool
        | Kind::Text
        | Kind::Bytes
        | Kind::Uint32
        | Kind::Sfixed32
        | Kind::Sfixed64
        | Kind::Sint32
        | Kind::Sint64
        | Kind::Enum(_)
        | Kind::ClosedEnum(_) => keeps_scalars(old, new, from, to),
    }
}

/// Whether all values of one kind but its default are kept by another, of kinds that do not keep each other's values.
fn keeps_others(new: &Pool, from: Kind, to: Kind) -> bool
    ensures { result ≡ keeps_rest new.now from to }
{
    match (from, to) {
        (Kind::Bool, Kind::ClosedEnum(entry)) => new.declares(entry, 1),
        (Kind::Int32 | Kind::Enum(_), Kind::ClosedEnum(entry)) => undeclared(new, entry).is_none(),
        _ => false,
    }
}

/// Whether the values of a field are kept by the kind of another. With implicit presence a default is not written.
pub(crate) fn keeps_values(old: &Pool, new: &Pool, from: &Field, to: &Field) -> bool
    ensures { result ≡ keeps_all old.now new.now (field_view from.now) (field_view to.now) }
{
    keeps_kind(old, new, from.kind, to.kind)
        || matches!(from.shape, Shape::Implicit) && keeps_others(new, from.kind, to.kind)
}

/// Whether values in one shape are kept in another.
pub(crate) fn keeps_shape(old: &Pool, new: &Pool, from: Shape, to: Shape) -> bool
    ensures { result ≡ keeps_form old.now new.now from to }
{
    match from {
        Shape::Implicit | Shape::Explicit | Shape::OneofMember(_) => {
            !matches!(to, Shape::Map { key: _ })
        }
        Shape::List { packed: _ } => matches!(to, Shape::List { packed: _ }),
        Shape::Map { key } => match to {
            Shape::Map { key: other } => keeps_kind(old, new, key, other),
            Shape::Implicit | Shape::Explicit | Shape::OneofMember(_) | Shape::List { packed: _ } =>
                { false }
        },
    }
}

/// Whether one value counts as set also where it is the default.
fn presence(shape: Shape) -> Option<bool>
    ensures { result ≡ presence_of shape }
{
    match shape {
        Shape::Implicit => Some(false),
        Shape::Explicit | Shape::OneofMember(_) => Some(true),
        Shape::List { packed: _ } | Shape::Map { key: _ } => None,
    }
}

fn changes_presence(from: Option<bool>, to: Option<bool>) -> bool
    ensures { result ≡ presence_changes from to }
{
    match (from, to) {
        (Some(from), Some(to)) => from != to,
        _ => false,
    }
}

/// The number of a kind in descriptor.proto, and 19 for a closed enum.
fn kind_form(kind: Kind) -> u8
    ensures form { result ≡ form_of_kind kind }
    ensures small { result ≤ 19 }
{
    match kind {
        Kind::Double => 1,
        Kind::Float => 2,
        Kind::Int64 => 3,
        Kind::Uint64 => 4,
        Kind::Int32 => 5,
        Kind::Fixed64 => 6,
        Kind::Fixed32 => 7,
        Kind::Bool => 8,
        Kind::Text => 9,
        Kind::Group(_) => 10,
        Kind::Message(_) => 11,
        Kind::Bytes => 12,
        Kind::Uint32 => 13,
        Kind::Enum(_) => 14,
        Kind::Sfixed32 => 15,
        Kind::Sfixed64 => 16,
        Kind::Sint32 => 17,
        Kind::Sint64 => 18,
        Kind::ClosedEnum(_) => 19,
    }
}

fn shape_form(shape: Shape) -> u8
    ensures { result ≡ form_of_shape shape }
{
    match shape {
        Shape::Implicit => 0,
        Shape::Explicit => 1,
        Shape::OneofMember(_) => 2,
        Shape::List { packed: _ } => 3,
        Shape::Map { key } => 4 + kind_form(key),
    }
}

fn is_same_form(from: &Field, to: &Field) -> bool
    ensures { result ≡ same_form (field_view from.now) (field_view to.now) }
{
    kind_form(from.kind) == kind_form(to.kind) && shape_form(from.shape) == shape_form(to.shape)
}

/// Whether a field keeps the values of an old one. It may be a member of a crowded oneof.
fn keeps_field(old: &Pool, new: &Pool, crowded: bool, from: &Field, to: &Field) -> bool
    ensures { result ≡ keeps old.now new.now crowded (field_view from.now) (field_view to.now) }
{
    keeps_values(old, new, from, to) && keeps_shape(old, new, from.shape, to.shape) && !crowded
}

/// What the change of a field does, but for its name.
pub(crate) fn change_of(
    old: &Pool,
    new: &Pool,
    crowded: bool,
    from: &Field,
    to: &Field,
) -> Option<Severity>
    ensures { result ≡ change_of_field old.now new.now crowded (field_view from.now)
        (field_view to.now) }
{
    if !keeps_field(old, new, crowded, from, to) {
        Some(Severity::BreaksReading)
    } else if changes_presence(presence(from.shape), presence(to.shape)) {
        Some(Severity::ChangesPresence)
    } else if is_same_form(from, to) {
        None
    } else {
        Some(Severity::Converts)
    }
}

/// Whether a field has another name.
pub(crate) fn is_renamed(from: &Field, to: &Field) -> bool
    ensures { result ≡ not (bytes_eq (field_view from.now).name (field_view to.now).name) }
{
    from.name.as_str().as_bytes() != to.name.as_str().as_bytes()
}
