//! A step of a place.

use pb_value::MapKey;

/// A step of a place: from a message to what one of its fields holds, from a list to an element, from a map to the value under a key.
#[derive(Debug, PartialEq, Eq, Drop)]
pub enum PlaceStep {
    /// The field of a number, in a message.
    Field(u32),
    /// The element at an index, counted from 0, in a list.
    Index(usize),
    /// The value under a key, in a map.
    Key(MapKey),
}
