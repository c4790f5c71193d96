//! What is whole goes where it belongs in its parent.

ghost use Rattle.std.specs.Prelude.{◌≡◌, ◌<◌, ◌-◌, ◌^◌, IsTrue, unwrap_or, option_map, OnOk};
ghost use Rattle.pb_wire.specs.Unknown.{records_of};
ghost use Rattle.pb_schema.specs.Kinds.{default_of, is_key_kind};
ghost use Rattle.pb_value.specs.View.{body_view, key_view, value_view};
ghost use Rattle.pb_value.specs.Value.{missing};
ghost use Rattle.pb_value.specs.Data.{empty};
ghost use Rattle.pb_decode_parts.specs.Open.Parents as parents;
ghost use Rattle.pb_decode_parts.specs.Open.Parents.{CanHold};
ghost use Rattle.pb_decode_parts.specs.Open.Occurrences.{counts_view};
ghost use Rattle.pb_decode_parts.specs.Open.PartView.{part_view, scope_view};
ghost use Rattle.pb_decode_parts.specs.Close.Closing.{FitsSlot, CanGoInto};
ghost use Rattle.pb_decode_parts.specs.Close.Closes.{Closes};

use crate::error::memory_alone;
use crate::values::put::put_unknown;
use crate::{Entry, Part, Put, Scope, Slot};
use pb_schema::{Kind, Pool};
use pb_value::bodies::{empty_body, insert_entry, push_element, store};
use pb_value::{Body, Content, MapKey, Value, default_value};
use pb_wire::Unknown;
use std::alloc::Global;

/// The key of an entry, which has this one or none: then it is the default of its kind.
pub fn key_or_default(alloc: Global, kind: Kind, key: Option<MapKey>) -> MapKey
    requires { IsTrue (is_key_kind kind) }
    ensures { key_view result ≡ unwrap_or (option_map key_view key) (default_of kind) }
{
    match key {
        Some(key) => key,
        None => match kind {
            Kind::Int32 | Kind::Sint32 | Kind::Sfixed32 => MapKey::I32(0),
            Kind::Int64 | Kind::Sint64 | Kind::Sfixed64 => MapKey::I64(0),
            Kind::Uint32 | Kind::Fixed32 => MapKey::U32(0),
            Kind::Uint64 | Kind::Fixed64 => MapKey::U64(0),
            Kind::Bool => MapKey::Bool(false),
            _ => MapKey::Text(String::new(alloc)),
        },
    }
}

/// The value of an entry, which has this one or none: then it is the default of its kind, or the empty message.
pub fn value_or_missing(alloc: Global, kind: Kind, value: Option<Value>) -> Value
    ensures { value_view result ≡ unwrap_or (option_map value_view value) (missing (λ _ _. empty) kind) }
{
    match value {
        Some(value) => value,
        None => match default_value(alloc, kind) {
            Some(value) => value,
            None => match kind {
                Kind::ClosedEnum(_) => Value::Enum(0),
                _ => Value::Message(empty_body(alloc)),
            },
        },
    }
}

/// Puts a message into a slot of its parent: the field of one value, the end of a list, or the value of an entry.
#[inline(always)]
pub fn put_message(alloc: Global, pool: &Pool, slot: Slot, outer: &mut Part, message: Body) -> Put
    requires { CanHold pool.now (part_view outer.old) }
    ensures { OnOk result (part_view outer.new ≡ parents.put_message pool.now slot (part_view outer.old) (body_view message)) }
{
    match outer {
        Part::Message(kind, body) => match slot {
            Slot::One(shape, number) => {
                let content = Content::One(Value::Message(message));
                store(pool, *kind, body, shape, number, content).map_err(memory_alone)
            }
            Slot::List(number) => {
                push_element(alloc, body, number, Value::Message(message)).map_err(memory_alone)
            }
            Slot::Map(_) | Slot::Entry | Slot::Unknown(_) => Ok(()),
        },
        Part::Entry(entry) => match slot {
            Slot::Entry => {
                entry.value = Some(Value::Message(message));
                Ok(())
            }
            Slot::One(_, _) | Slot::List(_) | Slot::Map(_) | Slot::Unknown(_) => Ok(()),
        },
        Part::Group(_) => Ok(()),
    }
}

/// Puts an entry into the map of its parent.
fn put_entry(alloc: Global, slot: Slot, outer: &mut Part, entry: Entry) -> Put
    requires key { IsTrue (is_key_kind entry.key_kind) }
    requires fits { FitsSlot slot (part_view outer.old) entry.key_kind (option_map key_view entry.key) }
    ensures { OnOk result (part_view outer.new
        ≡ parents.put_entry slot (part_view outer.old) entry.key_kind entry.value_kind (option_map key_view entry.key) (option_map value_view entry.value)) }
{
    let Entry {
        key_kind,
        value_kind,
        key,
        value,
    } = entry;
    let key = key_or_default(alloc, key_kind, key);
    let value = value_or_missing(alloc, value_kind, value);
    match outer {
        Part::Message(_, body) => match slot {
            Slot::Map(number) => {
                drop(insert_entry(alloc, body, number, key, value).map_err(memory_alone)?);
                Ok(())
            }
            Slot::One(_, _) | Slot::List(_) | Slot::Entry | Slot::Unknown(_) => Ok(()),
        },
        Part::Entry(_) | Part::Group(_) => Ok(()),
    }
}

/// Puts a group among the unknown records of its parent.
pub fn put_group(slot: Slot, outer: &mut Part, records: Vec<(u32, Unknown)>) -> Put
    ensures { OnOk result (part_view outer.new ≡ parents.put_group slot (part_view outer.old) (records_of records.items)) }
{
    match slot {
        Slot::Unknown(number) => put_unknown(outer, number, Unknown::Group(records)),
        Slot::One(_, _) | Slot::List(_) | Slot::Map(_) | Slot::Entry => Ok(()),
    }
}

/// Puts a part into its slot of its parent.
#[inline(always)]
fn put_part(alloc: Global, pool: &Pool, slot: Slot, outer: &mut Part, inner: Part) -> Put
    requires can { CanHold pool.now (part_view outer.old) }
    requires fits { CanGoInto slot (part_view outer.old) (part_view inner) }
    ensures { OnOk result (part_view outer.new ≡ parents.put_child pool.now slot (part_view outer.old) (part_view inner)) }
{
    match inner {
        Part::Message(_, message) => put_message(alloc, pool, slot, outer, message),
        Part::Entry(entry) => put_entry(alloc, slot, outer, entry),
        Part::Group(records) => put_group(slot, outer, records),
    }
}

/// Counts one more record of a number in a part.
#[inline(always)]
pub fn count_one(scope: &mut Scope, number: u32) -> Put
    requires { counts_view scope.old.occurrences number < 2 ^ 32 - 1 }
    ensures more { OnOk result (scope_view scope.new ≡ parents.one_more_in number (scope_view scope.old)) }
    ensures same_end { OnOk result (scope.new.end ≡ scope.old.end) }
{
    Ok(scope.occurrences.add(number)?)
}

/// A part whose known end is reached, or whose end tag is there, goes into its slot, and its record is counted: the reader is in
/// its parent.
pub fn close_part(
    alloc: Global,
    pool: &Pool,
    outer: &mut Part,
    scope: &mut Scope,
    number: u32,
    slot: Slot,
    inner: Part,
) -> Put
    requires can { CanHold pool.now (part_view outer.old) }
    requires fits { CanGoInto slot (part_view outer.old) (part_view inner) }
    requires few { counts_view scope.old.occurrences number < 2 ^ 32 - 1 }
    ensures same_end { OnOk result (scope.new.end ≡ scope.old.end) }
    ensures closes { Closes pool.now number slot (part_view inner) outer.old scope.old outer.new scope.new result }
{
    put_part(alloc, pool, slot, outer, inner)?;
    count_one(scope, number)
}
