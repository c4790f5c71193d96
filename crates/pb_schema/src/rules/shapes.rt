//! The rules of single fields: numbers, keys, packed lists, presence, values of maps.

ghost use Rattle.std.specs.Prelude.{◌↔◌, IsTrue, map};
ghost use Rattle.pb_schema.specs.View.{message_view};
ghost use Rattle.pb_schema.specs.Rules.{IsFieldNumber, NumbersAreFieldNumbers, HasKeyKind, KeysAreKeyKinds, MayBePacked, PackedArePackable};
ghost use Rattle.pb_schema.specs.Rules.{MayBeImplicit, ImplicitAreScalars, MayBeValue, ValuesMayStand};

use crate::rules::each_field::{FieldRule, each_field};
use crate::types::{Field, Kind, MessageType, Shape};

struct HasFieldNumber;

impl FieldRule for HasFieldNumber {
    ghost Holds = { λ _ t f. IsFieldNumber f.number };

    fn holds(&self, _message: &MessageType, field: &Field) -> bool {
        matches!(field.number, 1..=18_999 | 20_000..=0x1fff_ffff)
    }
}

pub(crate) fn numbers_are_field_numbers(messages: &[MessageType]) -> bool
    ensures { IsTrue result ↔ NumbersAreFieldNumbers (map message_view messages.now) }
{
    each_field(&HasFieldNumber, messages)
}

struct KeyIsKeyKind;

impl FieldRule for KeyIsKeyKind {
    ghost Holds = { λ _ t f. HasKeyKind f.shape };

    fn holds(&self, _message: &MessageType, field: &Field) -> bool {
        match field.shape {
            Shape::Map { key } => key.is_key_kind(),
            Shape::Implicit | Shape::Explicit | Shape::OneofMember(_) | Shape::List { packed: _ } =>
                { true }
        }
    }
}

pub(crate) fn keys_are_key_kinds(messages: &[MessageType]) -> bool
    ensures { IsTrue result ↔ KeysAreKeyKinds (map message_view messages.now) }
{
    each_field(&KeyIsKeyKind, messages)
}

struct PackedIsPackable;

impl FieldRule for PackedIsPackable {
    ghost Holds = { λ _ t f. MayBePacked f.shape f.kind };

    fn holds(&self, _message: &MessageType, field: &Field) -> bool {
        match field.shape {
            Shape::List { packed } => !packed || field.kind.is_packable(),
            Shape::Implicit | Shape::Explicit | Shape::OneofMember(_) | Shape::Map { key: _ } => {
                true
            }
        }
    }
}

pub(crate) fn packed_are_packable(messages: &[MessageType]) -> bool
    ensures { IsTrue result ↔ PackedArePackable (map message_view messages.now) }
{
    each_field(&PackedIsPackable, messages)
}

struct ImplicitIsScalar;

impl FieldRule for ImplicitIsScalar {
    ghost Holds = { λ _ t f. MayBeImplicit f.shape f.kind };

    fn holds(&self, _message: &MessageType, field: &Field) -> bool {
        match (field.shape, field.kind) {
            (Shape::Implicit, Kind::Message(_)) => false,
            (Shape::Implicit, Kind::Group(_)) => false,
            _ => true,
        }
    }
}

pub(crate) fn implicit_are_scalars(messages: &[MessageType]) -> bool
    ensures { IsTrue result ↔ ImplicitAreScalars (map message_view messages.now) }
{
    each_field(&ImplicitIsScalar, messages)
}

struct ValueMayStand;

impl FieldRule for ValueMayStand {
    ghost Holds = { λ _ t f. MayBeValue f.shape f.kind };

    fn holds(&self, _message: &MessageType, field: &Field) -> bool {
        match field.shape {
            Shape::Map { key: _ } => !field.kind.is_of_proto2(),
            Shape::Implicit | Shape::Explicit | Shape::OneofMember(_) | Shape::List { packed: _ } =>
                { true }
        }
    }
}

pub(crate) fn values_may_stand(messages: &[MessageType]) -> bool
    ensures { IsTrue result ↔ ValuesMayStand (map message_view messages.now) }
{
    each_field(&ValueMayStand, messages)
}
