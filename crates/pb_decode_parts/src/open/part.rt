//! An open part, and what there is of it.

use crate::open::occurrences::Occurrences;
use pb_schema::{Kind, MessageId, Shape};
use pb_value::{Body, MapKey, Value};
use pb_wire::Unknown;

/// What there is of a map entry.
#[derive(Drop)]
pub struct Entry {
    pub key_kind: Kind,
    pub value_kind: Kind,
    pub key: Option<MapKey>,
    pub value: Option<Value>,
}

/// What there is of a message, of a map entry or of a group.
#[derive(Drop)]
pub enum Part {
    Message(MessageId, Body),
    Entry(Entry),
    Group(Vec<(u32, Unknown)>),
}

/// Where a part goes once it is whole.
#[derive(Clone, Copy)]
pub enum Slot {
    /// The field of one value with this number.
    One(Shape, u32),
    /// The end of the list of this number.
    List(u32),
    /// Under its key into the map of this number.
    Map(u32),
    /// The value of an entry.
    Entry,
    /// Among the unknown records, with this number.
    Unknown(u32),
}

/// What is kept of an open part beside what there is of it.
#[derive(Drop)]
pub struct Scope {
    /// How many levels may still be opened.
    pub depth_left: u8,
    /// The position where the part ends, if that is known.
    pub end: Option<u32>,
    /// How many whole records of each number are in it so far.
    pub occurrences: Occurrences,
}

/// A part in which another is open.
#[derive(Drop)]
pub struct Parent {
    pub part: Part,
    /// The number of the record that is open in it.
    pub number: u32,
    /// Where that goes.
    pub slot: Slot,
    /// Whether an end tag ends it.
    pub group: bool,
    pub scope: Scope,
}
