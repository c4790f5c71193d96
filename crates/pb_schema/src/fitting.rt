//! Which records fit a field.

ghost use Rattle.std.specs.Prelude.{◌≡◌};
ghost use Rattle.pb_schema.specs.View.{field_view};
ghost use Rattle.pb_schema.specs.Fits.{fits_type};

use crate::types::{Field, Shape};

/// A record of the field's number and of this wire type fits the field: the wire type is that of its kind. A length-delimited record
/// also fits a list of a packable kind, packed or not. A map is fitted by a length-delimited record alone.
#[inline(always)]
pub fn fits(field: &Field, wire_type: u8) -> bool
    ensures { result ≡ fits_type (field_view field.now) wire_type }
{
    match field.shape {
        Shape::Map { key: _ } => wire_type == 2,
        Shape::List { packed: _ } => {
            wire_type == field.kind.wire_type() || field.kind.is_packable() && wire_type == 2
        }
        Shape::Implicit | Shape::Explicit | Shape::OneofMember(_) => {
            wire_type == field.kind.wire_type()
        }
    }
}
