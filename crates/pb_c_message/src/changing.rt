//! Changes of a message at a place that C says.

ghost use Rattle.std.specs.Prelude.{◌≡◌, [], ◌∷◌, List, None, Some, IfSome, is_some, map, option_map, MatchResult};
ghost use Rattle.pb_value.specs.Data.{one};
ghost use Rattle.pb_value.specs.View.{key_view, value_view};
ghost use Rattle.pb_place.specs.At.{message_part};
ghost use Rattle.pb_place.specs.Changed.{set, clear, push, insert, remove, set_element, remove_element, drop_unknown};
ghost use Rattle.pb_place.specs.Changed.{index_place, most_at, target, refusal, IsChangedAt};
ghost use Rattle.pb_place.specs.declared.error.ChangeError.TheVariants.{Absent};
ghost use Rattle.pb_place.specs.declared.step.PlaceStep.TheVariants.{Field};
ghost use Rattle.pb_c_message.specs.Places.{Bytes, field, places};
ghost use Rattle.pb_c_message.specs.Steps.{steps_held};
ghost use Rattle.pb_c_message.specs.NewValue.{value_said};
ghost use Rattle.pb_c_message.specs.Ends.{Ends, FieldEnds, ElementEnds, ByIndex, EntryRemoved, OrElse, Says};
ghost use Rattle.pb_c_message.specs.Ends.{entry_place, put_ends, ends_at, ends, IsEnded, IsFor};
ghost use Rattle.pb_c_message.specs.declared.changing.PlainChange.TheVariants as plain;
ghost use Rattle.pb_c_message.specs.declared.changing.Put.TheVariants as put;
ghost use Rattle.pb_c_message.specs.declared.unchanged.Unchanged.TheVariants.{BadPlace, BadValue, Refused};

use crate::finding::field_said;
use crate::miss::Miss;
use crate::new_value::value_of;
use crate::place::place_of;
use crate::steps::Steps;
use crate::unchanged::Unchanged;
use crate::value::PlainValue;
use pb_place::{
    ChangeError, PlaceStep, clear_at, drop_unknown_at, insert_at, push_at, remove_at,
    remove_element_at, set_element_at, set_value_at,
};
use pb_value::{DynamicMessage, MapKey, Value};
use std::alloc::Global;
use std::slice;

/// How a value is put at a place.
#[derive(Clone, Copy, Debug, PartialEq, Eq)]
pub enum Put {
    /// In the field that the place ends at, or in place of the element of a list that it ends at.
    Set,
    /// At the end of the list that the place ends at.
    Push,
    /// Under the key that the place ends at.
    Insert,
}

/// A change at a place.
#[derive(Clone, Copy, Debug, PartialEq, Eq)]
pub enum PlainChange {
    /// Puts a value there.
    Put(Put, PlainValue),
    /// Clears the field that the place ends at.
    Clear,
    /// Removes the entry of the key, or the element of a list, that the place ends at.
    Remove,
    /// Drops the unknown records of the message at the place.
    DropUnknown,
}

/// The steps of a place.
fn steps_of(alloc: Global, place: &[PlainValue], given: &[&[u8]]) -> Result<Steps, Unchanged>
    ensures { MatchResult result (λ p. Says given.now place.now (steps_held p))
        (IsFor BadPlace (places given.now place.now ≡ None)) }
{
    match place_of(alloc, place, given) {
        Ok(steps) => Ok(steps),
        Err(Miss::Memory) => Err(Unchanged::MEMORY),
        Err(_) => Err(Unchanged::BadPlace),
    }
}

/// The value that is said.
fn said(alloc: Global, value: PlainValue, given: &[&[u8]]) -> Result<Value, Unchanged>
    ensures { MatchResult result (λ v. value_said given.now value ≡ Some (value_view v))
        (IsFor BadValue (value_said given.now value ≡ None)) }
{
    match value_of(alloc, value, given) {
        Ok(value) => Ok(value),
        Err(Miss::Memory) => Err(Unchanged::MEMORY),
        Err(_) => Err(Unchanged::BadValue),
    }
}

/// The place of the map and the key of a place that ends at a key.
fn key_at_end(alloc: Global, place: Steps) -> Option<(Steps, MapKey)>
    ensures { option_map (λ q. (steps_held q.0, key_view q.1)) result
        ≡ entry_place (steps_held place) }
{
    let (parent, last) = place.split_last(alloc)?;
    match last {
        PlaceStep::Key(key) => Some((parent, key)),
        _ => None,
    }
}

/// Whether a place ends at an index.
fn ends_at_index(place: &[PlaceStep]) -> bool
    ensures { result ≡ is_some (index_place place.now) }
{
    let Some((step, _)) = place.split_last() else {
        return false;
    };
    match step {
        PlaceStep::Index(_) => true,
        _ => false,
    }
}

/// Sets the field that a place ends at.
fn set_field(
    message: &mut DynamicMessage<'_>,
    place: &[PlaceStep],
    value: Value,
) -> Result<(), Unchanged>
    ensures { IsEnded (FieldEnds place.now (set (one (value_view value))) message.old) message.old
        message.new result }
{
    match set_value_at(message, place, value) {
        Ok(()) => Ok(()),
        Err(cause) => Err(Unchanged::Refused(cause)),
    }
}

/// Puts a value in place of the element that a place ends at.
fn set_element(
    message: &mut DynamicMessage<'_>,
    place: &[PlaceStep],
    value: Value,
) -> Result<(), Unchanged>
    ensures { IsEnded (ElementEnds place.now (λ i. set_element i (value_view value)) message.old)
        message.old message.new result }
{
    match set_element_at(message, place, value) {
        Ok(_) => Ok(()),
        Err(cause) => Err(Unchanged::Refused(cause)),
    }
}

/// Puts a value in place of the element that a place ends at, or in the field that it ends at.
fn set(message: &mut DynamicMessage<'_>, place: &[PlaceStep], value: Value) -> Result<(), Unchanged>
    ensures { IsEnded (put_ends put.Set message.old place.now (value_view value)) message.old
        message.new result }
{
    if ends_at_index(place) {
        set_element(message, place, value)
    } else {
        set_field(message, place, value)
    }
}

/// Clears the field that a place ends at.
fn clear(message: &mut DynamicMessage<'_>, place: &[PlaceStep]) -> Result<(), Unchanged>
    ensures { IsEnded (FieldEnds place.now clear message.old) message.old message.new result }
{
    match clear_at(message, place) {
        Ok(()) => Ok(()),
        Err(cause) => Err(Unchanged::Refused(cause)),
    }
}

/// Puts a value at the end of the list that a place ends at.
fn push(
    message: &mut DynamicMessage<'_>,
    place: &[PlaceStep],
    value: Value,
) -> Result<(), Unchanged>
    ensures { IsEnded (FieldEnds place.now (push (value_view value)) message.old) message.old
        message.new result }
{
    match push_at(message, place, value) {
        Ok(()) => Ok(()),
        Err(cause) => Err(Unchanged::Refused(cause)),
    }
}

/// Puts a value under a key of the map that a place ends at.
fn insert(
    message: &mut DynamicMessage<'_>,
    place: &[PlaceStep],
    key: MapKey,
    value: Value,
) -> Result<(), Unchanged>
    ensures { IsEnded (FieldEnds place.now (insert (key_view key) (value_view value)) message.old)
        message.old message.new result }
{
    match insert_at(message, place, key, value) {
        Ok(_) => Ok(()),
        Err(cause) => Err(Unchanged::Refused(cause)),
    }
}

/// Removes the entry of a key from the map that a place ends at.
fn remove(
    message: &mut DynamicMessage<'_>,
    place: &[PlaceStep],
    key: MapKey,
) -> Result<(), Unchanged>
    ensures { IsEnded (FieldEnds place.now (remove (key_view key)) message.old) message.old
        message.new result }
{
    match remove_at(message, place, key) {
        Ok(_) => Ok(()),
        Err(cause) => Err(Unchanged::Refused(cause)),
    }
}

/// Removes the element that a place ends at.
fn remove_element(message: &mut DynamicMessage<'_>, place: &[PlaceStep]) -> Result<(), Unchanged>
    ensures { IsEnded (ElementEnds place.now remove_element message.old) message.old message.new
        result }
{
    match remove_element_at(message, place) {
        Ok(_) => Ok(()),
        Err(cause) => Err(Unchanged::Refused(cause)),
    }
}

/// Drops the unknown records of the message at a place.
fn drop_unknown(message: &mut DynamicMessage<'_>, place: &[PlaceStep]) -> Result<(), Unchanged>
    ensures { IsEnded (Ends (refusal (most_at place.now) drop_unknown
        (target place.now (message_part message.old)))
        (IsChangedAt place.now drop_unknown message.old)) message.old message.new result }
{
    match drop_unknown_at(message, place) {
        Ok(()) => Ok(()),
        Err(cause) => Err(Unchanged::Refused(cause)),
    }
}

/// Puts a value under the key that a place ends at.
#[inline(never)]
fn insert_at_end(
    message: &mut DynamicMessage<'_>,
    place: &mut Steps,
    value: Value,
) -> Result<(), Unchanged>
    ensures { IsEnded (OrElse (Refused Absent) (entry_place (steps_held place.old))
        (λ q. FieldEnds q.0 (insert q.1 (value_view value)) message.old)) message.old message.new
        result }
{
    match key_at_end(message.alloc(), place.take(message.alloc())) {
        Some((parent, key)) => insert(message, parent.as_slice(), key, value),
        None => Err(Unchanged::Refused(ChangeError::Absent)),
    }
}

/// Removes the entry of the key that a place ends at.
fn remove_entry(message: &mut DynamicMessage<'_>, place: &mut Steps) -> Result<(), Unchanged>
    ensures { IsEnded (EntryRemoved (steps_held place.old) message.old) message.old message.new result }
{
    match key_at_end(message.alloc(), place.take(message.alloc())) {
        Some((parent, key)) => remove(message, parent.as_slice(), key),
        None => Err(Unchanged::Refused(ChangeError::Absent)),
    }
}

/// Removes the element or the entry that a place ends at.
fn remove_at_end(message: &mut DynamicMessage<'_>, place: &mut Steps) -> Result<(), Unchanged>
    ensures { IsEnded (ByIndex (index_place (steps_held place.old))
        (ElementEnds (steps_held place.old) remove_element message.old)
        (EntryRemoved (steps_held place.old) message.old))
        message.old message.new result }
{
    if ends_at_index(place.as_slice()) {
        remove_element(message, place.as_slice())
    } else {
        remove_entry(message, place)
    }
}

/// Makes a change that brings a value.
fn put_value(
    message: &mut DynamicMessage<'_>,
    place: &mut Steps,
    how: Put,
    value: Value,
) -> Result<(), Unchanged>
    ensures { IsEnded (put_ends how message.old (steps_held place.old) (value_view value))
        message.old message.new result }
{
    match how {
        Put::Set => set(message, place.as_slice(), value),
        Put::Push => push(message, place.as_slice(), value),
        Put::Insert => insert_at_end(message, place, value),
    }
}

/// Makes a change that brings a value, which C says.
fn put_said(
    alloc: Global,
    message: &mut DynamicMessage<'_>,
    place: &mut Steps,
    given: &[&[u8]],
    how: Put,
    value: PlainValue,
) -> Result<(), Unchanged>
    ensures { IsEnded (OrElse BadValue (value_said given.now value)
        (put_ends how message.old (steps_held place.old))) message.old message.new result }
{
    match said(alloc, value, given) {
        Ok(value) => put_value(message, place, how, value),
        Err(unchanged) => Err(unchanged),
    }
}

/// Makes a change at a place.
fn change_at(
    alloc: Global,
    message: &mut DynamicMessage<'_>,
    place: &mut Steps,
    given: &[&[u8]],
    change: PlainChange,
) -> Result<(), Unchanged>
    ensures { IsEnded (ends_at given.now change message.old (steps_held place.old)) message.old
        message.new result }
{
    match change {
        PlainChange::Put(how, value) => put_said(alloc, message, place, given, how, value),
        PlainChange::Clear => clear(message, place.as_slice()),
        PlainChange::Remove => remove_at_end(message, place),
        PlainChange::DropUnknown => drop_unknown(message, place.as_slice()),
    }
}

/// The number of the field and its new value, if a change sets a field of the message itself.
#[inline(always)]
fn own_field(place: &[PlainValue], change: PlainChange) -> Option<(u32, PlainValue)>
    ensures at { IfSome result (λ q. (given : List Bytes)
        → places given place.now ≡ Some (field q.0 ∷ [])) }
    ensures set { IfSome result (λ q. change ≡ plain.Put put.Set q.1) }
{
    let [step] = place else {
        return None;
    };
    let PlainChange::Put(Put::Set, value) = change else {
        return None;
    };
    let number = field_said(*step)?;
    Some((number, value))
}

/// Sets a field of the message itself to a value that C says.
fn set_own(
    alloc: Global,
    message: &mut DynamicMessage<'_>,
    number: u32,
    given: &[&[u8]],
    value: PlainValue,
) -> Result<(), Unchanged>
    ensures { IsEnded (OrElse BadValue (value_said given.now value)
        (put_ends put.Set message.old (Field number ∷ []))) message.old message.new result }
{
    let step = PlaceStep::Field(number);
    match said(alloc, value, given) {
        Ok(value) => set_field(message, slice::from_ref(&step), value),
        Err(unchanged) => Err(unchanged),
    }
}

/// Makes a change at the place that the steps say.
fn change_there(
    alloc: Global,
    message: &mut DynamicMessage<'_>,
    place: &[PlainValue],
    given: &[&[u8]],
    change: PlainChange,
) -> Result<(), Unchanged>
    ensures ended { IsEnded (ends given.now place.now change message.old) message.old message.new
        result }
    ensures same_type { (message.new.pool ≡ message.old.pool)
        × (message.new.kind ≡ message.old.kind) }
{
    match steps_of(alloc, place, given) {
        Ok(mut steps) => change_at(alloc, message, &mut steps, given, change),
        Err(unchanged) => Err(unchanged),
    }
}

/// Makes a change at the place that the steps say, with strings and bytes from a list beside them.
///
/// The steps are judged first, then the value, and then the change, as by the calls of `pb_place`. A refused call changes nothing.
pub fn change(
    alloc: Global,
    message: &mut DynamicMessage<'_>,
    place: &[PlainValue],
    given: &[&[u8]],
    change: PlainChange,
) -> Result<(), Unchanged>
    ensures ended { IsEnded (ends given.now place.now change message.old) message.old message.new
        result }
    ensures same_type { (message.new.pool ≡ message.old.pool)
        × (message.new.kind ≡ message.old.kind) }
{
    match own_field(place, change) {
        Some((number, value)) => set_own(alloc, message, number, given, value),
        None => change_there(alloc, message, place, given, change),
    }
}
