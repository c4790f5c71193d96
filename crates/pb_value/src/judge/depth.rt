//! How deep messages nest.

ghost use Rattle.std.specs.Prelude.{◌<◌, ◌↔◌, ◌≤◌, suc, IsTrue};
ghost use Rattle.pb_wire.specs.Record.{depth, records_depth};
ghost use Rattle.pb_wire.specs.Unknown.{payload_of, records_of};
ghost use Rattle.pb_value.specs.Data.{levels_of, levels_in_entry, datums_depth, entries_depth, holding_depth, message_depth};
ghost use Rattle.pb_value.specs.View.{value_view, content_view, body_view, values_view, entries_view};

use crate::body::{Body, Content, MapKey, Value};
use pb_wire::Unknown;
use std::collections::BTreeMap;

/// The most levels that are nested below a message.
pub const MAX_LEVELS: u8 = 100;

/// Whether the groups in some records nest at most `limit` deep.
#[cycle(records_within)]
pub(crate) fn records_within(records: &[(u32, Unknown)], limit: u8) -> bool
    ensures { IsTrue result ↔ (records_depth (records_of records.now) ≤ limit) }
{
    for (_, payload) in records {
        if !payload_within(payload, limit) {
            return false;
        }
    }
    true
}

#[cycle(records_within)]
fn payload_within(payload: &Unknown, limit: u8) -> bool
    ensures { IsTrue result ↔ (depth (payload_of payload.now) ≤ limit) }
{
    match payload {
        Unknown::Group(records) => limit > 0 && records_within(records, limit - 1),
        _ => true,
    }
}

/// Whether a message nests at most `limit` levels below itself.
#[cycle(within)]
pub(crate) fn message_within(message: &Body, limit: u8) -> bool
    ensures { IsTrue result ↔ (message_depth (body_view message.now) ≤ limit) }
{
    for (_, content) in &message.fields {
        if !content_within(content, limit) {
            return false;
        }
    }
    records_within(&message.unknown, limit)
}

/// Whether at most `limit` levels are nested below what a field holds.
#[cycle(within)]
pub fn content_within(content: &Content, limit: u8) -> bool
    ensures { IsTrue result ↔ (holding_depth (content_view content.now) ≤ limit) }
{
    match content {
        Content::One(value) => value_within(value, limit),
        Content::List(values) => values_within(values, limit),
        Content::Map(entries) => entries_within(entries, limit),
    }
}

/// Whether at most `limit` levels are nested below a value, the level of a message value itself among them.
#[cycle(within)]
pub fn value_within(value: &Value, limit: u8) -> bool
    ensures { IsTrue result ↔ (levels_of (value_view value.now) ≤ limit) }
{
    match value {
        Value::Message(message) => limit > 0 && message_within(message, limit - 1),
        _ => true,
    }
}

#[cycle(within)]
fn values_within(values: &Vec<Value>, limit: u8) -> bool
    ensures { IsTrue result ↔ (datums_depth (values_view values.now.items) ≤ limit) }
{
    for value in values {
        if !value_within(value, limit) {
            return false;
        }
    }
    true
}

#[cycle(within)]
fn entries_within(entries: &BTreeMap<MapKey, Value>, limit: u8) -> bool
    ensures { IsTrue result ↔ (entries_depth (entries_view entries.now.entries) ≤ limit) }
{
    for (_, value) in entries {
        if !entry_within(value, limit) {
            return false;
        }
    }
    true
}

/// Whether at most `limit` levels are nested below a map field by an entry with this value, the level of the entry itself among them.
#[cycle(within)]
pub fn entry_within(value: &Value, limit: u8) -> bool
    ensures { IsTrue result ↔ (suc (levels_in_entry (value_view value.now)) ≤ limit) }
{
    match value {
        Value::Message(message) => limit > 0 && message_within(message, limit - 1),
        _ => limit > 0,
    }
}
