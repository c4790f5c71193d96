//! Changes of the message at a place.

ghost use Rattle.std.specs.Prelude.{◌≡◌, IfOk, OnOk, OnErr, Some, option_and_then, option_map};
ghost use Rattle.pb_value.specs.Data.{one};
ghost use Rattle.pb_value.specs.View.{content_view, key_view, value_view};
ghost use Rattle.pb_place.specs.At.{message_part};
ghost use Rattle.pb_place.specs.Changed.{set, clear, push, insert, remove, set_element, remove_element, drop_unknown};
ghost use Rattle.pb_place.specs.Changed.{element_place, element_refusal, index_place, taken_element};
ghost use Rattle.pb_place.specs.Changed.{field_place, most_at, refusal, refusal_at, target, taken_at, taken_out};
ghost use Rattle.pb_place.specs.Changed.{IsChangedAt, IsElementChanged, IsFieldChanged, IsRefused, edited};
ghost use Rattle.pb_value.specs.Edit.{edit_of};

use crate::asking::is_set;
use crate::error::ChangeError;
use crate::pending::Pending;
use crate::step::PlaceStep;
use crate::walk::{Walk, into_well_formed};
use pb_value::bodies::{MAX_LEVELS, from_well_formed};
use pb_value::{Change, Content, DynamicMessage, MapKey, Value};
use std::mem;

/// How many levels may be added below the message at a place.
fn most_at(place: &[PlaceStep]) -> u8
    ensures { result ≡ most_at place.now }
{
    let mut left = MAX_LEVELS;
    for step in place {
        if let PlaceStep::Field(_) = step {
            left = left.saturating_sub(1);
        }
    }
    left
}

/// Makes a change in a message itself.
fn change_whole(
    message: &mut DynamicMessage<'_>,
    change: Change,
) -> Result<Option<Value>, ChangeError>
    ensures ok { OnOk result (message.new ≡ edited (edit_of change) message.old) }
    ensures out { IfOk result (λ v. option_map value_view v
        ≡ taken_out (edit_of change) message.old) }
    ensures err { OnErr result (message.new ≡ message.old) }
    ensures judged { IsRefused result (refusal 100 (edit_of change) (Some message.old)) }
{
    Ok(message.change(change)?)
}

/// Makes a change that is on its way to the message at a place, below which at most this many levels may be added.
fn walk_to(
    message: &mut DynamicMessage<'_>,
    place: &[PlaceStep],
    most: u8,
    pending: &mut Pending,
) -> Result<(), ChangeError>
    requires { most ≡ most_at place.now }
    ensures ok { OnOk result (IsChangedAt place.now (edit_of pending.old.change) message.old
        message.new) }
    ensures out { OnOk result (Some (option_map value_view pending.new.taken)
        ≡ option_map (taken_out (edit_of pending.old.change))
        (target place.now (message_part message.old))) }
    ensures err { OnErr result (message.new ≡ message.old) }
    ensures judged { IsRefused result
        (refusal most (edit_of pending.old.change) (target place.now (message_part message.old))) }
{
    let alloc = message.alloc();
    let pool = message.pool();
    let message_type = message.message_type();
    let walk = Walk { alloc, pool, most };
    let whole = mem::replace(message, DynamicMessage::new(alloc, pool, message_type));
    let mut body = into_well_formed(whole);
    let answer = walk.change_in(message_type, &mut body, place, pending);
    *message = from_well_formed(alloc, pool, message_type, body);
    answer
}

/// Makes a change in a message inside another, which is at a place in it.
#[inline(never)]
fn change_inside(
    message: &mut DynamicMessage<'_>,
    place: &[PlaceStep],
    change: Change,
) -> Result<Option<Value>, ChangeError>
    ensures ok { OnOk result (IsChangedAt place.now (edit_of change) message.old message.new) }
    ensures out { IfOk result (λ v. Some (option_map value_view v)
        ≡ option_map (taken_out (edit_of change)) (target place.now (message_part message.old))) }
    ensures err { OnErr result (message.new ≡ message.old) }
    ensures judged { IsRefused result
        (refusal (most_at place.now) (edit_of change) (target place.now (message_part message.old))) }
{
    let mut pending = Pending::of(change);
    walk_to(message, place, most_at(place), &mut pending)?;
    Ok(pending.taken)
}

/// Makes a change in the message at a place, and returns the value that it takes out.
///
/// That message is changed as by [`DynamicMessage::change`], and nothing else. The call is refused if the message is not there, or else
/// if it refuses the change, and last if the whole message would nest more than 100 levels deep. A refused call changes nothing.
pub fn change_at(
    message: &mut DynamicMessage<'_>,
    place: &[PlaceStep],
    change: Change,
) -> Result<Option<Value>, ChangeError>
    ensures ok { OnOk result (IsChangedAt place.now (edit_of change) message.old message.new) }
    ensures out { IfOk result (λ v. Some (option_map value_view v)
        ≡ option_map (taken_out (edit_of change)) (target place.now (message_part message.old))) }
    ensures err { OnErr result (message.new ≡ message.old) }
    ensures judged { IsRefused result
        (refusal (most_at place.now) (edit_of change) (target place.now (message_part message.old))) }
{
    if place.is_empty() {
        change_whole(message, change)
    } else {
        change_inside(message, place, change)
    }
}

/// The place of the message and the number of the field that a place ends at.
fn field_at_end(place: &[PlaceStep]) -> Option<(&[PlaceStep], u32)>
    ensures { option_map (λ q. (q.0.now, q.1)) result ≡ field_place place.now }
{
    let (step, parent) = place.split_last()?;
    match step {
        PlaceStep::Field(number) => Some((parent, *number)),
        _ => None,
    }
}

/// The place of the list and the index that a place ends at.
fn index_at_end(place: &[PlaceStep]) -> Option<(&[PlaceStep], usize)>
    ensures { option_map (λ q. (q.0.now, q.1)) result ≡ index_place place.now }
{
    let (step, list) = place.split_last()?;
    match step {
        PlaceStep::Index(index) => Some((list, *index)),
        _ => None,
    }
}

/// The place of a message, the number of its field that is a list, and the index of the element there, where a message has it at a place.
fn element_at_end<'a>(
    message: &DynamicMessage<'_>,
    place: &'a [PlaceStep],
) -> Option<((&'a [PlaceStep], u32), usize)>
    ensures { option_map (λ q. ((q.0.0.now, q.0.1), q.1)) result
        ≡ element_place place.now message.now }
{
    let (list, index) = index_at_end(place)?;
    if !is_set(message.view(), place) {
        return None;
    }
    let field = field_at_end(list)?;
    Some((field, index))
}

/// Sets the field of a number of a message to a content.
fn set_field(
    message: &mut DynamicMessage<'_>,
    number: u32,
    content: Content,
) -> Result<(), ChangeError>
    ensures ok { OnOk result (message.new ≡ edited
        (set (content_view content) number) message.old) }
    ensures err { OnErr result (message.new ≡ message.old) }
    ensures judged { IsRefused result
        (refusal 100 (set (content_view content) number) (Some message.old)) }
{
    Ok(message.set(number, content)?)
}

/// Sets the field that a place ends at to a content, in the message that the steps before it lead to.
///
/// That message is changed as by [`DynamicMessage::set`], and nothing else. The call is refused where the message is not there, or else
/// where `set` refuses the content, and last where the whole message would nest more than 100 levels deep. A refused call changes
/// nothing.
pub fn set_at(
    message: &mut DynamicMessage<'_>,
    place: &[PlaceStep],
    content: Content,
) -> Result<(), ChangeError>
    ensures ok { OnOk result (IsFieldChanged place.now
        (set (content_view content)) message.old message.new) }
    ensures err { OnErr result (message.new ≡ message.old) }
    ensures judged { IsRefused result
        (refusal_at place.now (set (content_view content)) message.old) }
{
    let Some((parent, number)) = field_at_end(place) else {
        return Err(ChangeError::Absent);
    };
    if parent.is_empty() {
        return set_field(message, number, content);
    }
    change_at(message, parent, Change::Set(number, content))?;
    Ok(())
}

/// Sets the field of a number of a message to one value.
fn set_value(message: &mut DynamicMessage<'_>, number: u32, value: Value) -> Result<(), ChangeError>
    ensures ok { OnOk result (message.new ≡ edited
        (set (one (value_view value)) number) message.old) }
    ensures err { OnErr result (message.new ≡ message.old) }
    ensures judged { IsRefused result
        (refusal 100 (set (one (value_view value)) number) (Some message.old)) }
{
    Ok(message.set_value(number, value)?)
}

/// Sets a field of a message inside another to one value.
#[inline(never)]
fn set_value_inside(
    message: &mut DynamicMessage<'_>,
    parent: &[PlaceStep],
    number: u32,
    value: Value,
) -> Result<(), ChangeError>
    ensures ok { OnOk result (IsChangedAt parent.now (set (one (value_view value)) number)
        message.old message.new) }
    ensures err { OnErr result (message.new ≡ message.old) }
    ensures judged { IsRefused result
        (refusal (most_at parent.now) (set (one (value_view value)) number)
        (target parent.now (message_part message.old))) }
{
    change_inside(message, parent, Change::Set(number, Content::One(value)))?;
    Ok(())
}

/// Sets the field that a place ends at to one value, as [`set_at`] does.
pub fn set_value_at(
    message: &mut DynamicMessage<'_>,
    place: &[PlaceStep],
    value: Value,
) -> Result<(), ChangeError>
    ensures ok { OnOk result (IsFieldChanged place.now
        (set (one (value_view value))) message.old message.new) }
    ensures err { OnErr result (message.new ≡ message.old) }
    ensures judged { IsRefused result
        (refusal_at place.now (set (one (value_view value))) message.old) }
{
    let Some((parent, number)) = field_at_end(place) else {
        return Err(ChangeError::Absent);
    };
    if parent.is_empty() {
        return set_value(message, number, value);
    }
    set_value_inside(message, parent, number, value)
}

/// Clears the field that a place ends at, in the message that the steps before it lead to.
///
/// That message is changed as by [`DynamicMessage::clear`], and nothing else. The call is refused where the message is not there.
pub fn clear_at(message: &mut DynamicMessage<'_>, place: &[PlaceStep]) -> Result<(), ChangeError>
    ensures ok { OnOk result (IsFieldChanged place.now clear message.old message.new) }
    ensures err { OnErr result (message.new ≡ message.old) }
    ensures judged { IsRefused result (refusal_at place.now clear message.old) }
{
    let Some((parent, number)) = field_at_end(place) else {
        return Err(ChangeError::Absent);
    };
    change_at(message, parent, Change::Clear(number))?;
    Ok(())
}

/// Puts a value at the end of the list at a place that ends at a field, in the message that the steps before it lead to.
///
/// That message is changed as by [`DynamicMessage::push`], and nothing else. The call is refused as [`set_at`] is.
pub fn push_at(
    message: &mut DynamicMessage<'_>,
    place: &[PlaceStep],
    value: Value,
) -> Result<(), ChangeError>
    ensures ok { OnOk result (IsFieldChanged place.now
        (push (value_view value)) message.old message.new) }
    ensures err { OnErr result (message.new ≡ message.old) }
    ensures judged { IsRefused result (refusal_at place.now (push (value_view value)) message.old) }
{
    let Some((parent, number)) = field_at_end(place) else {
        return Err(ChangeError::Absent);
    };
    change_at(message, parent, Change::Push(number, value))?;
    Ok(())
}

/// Puts a value under a key of the map at a place that ends at a field, in the message that the steps before it lead to. The answer is
/// the value that was under the key.
///
/// That message is changed as by [`DynamicMessage::insert`], and nothing else. The call is refused as [`set_at`] is.
pub fn insert_at(
    message: &mut DynamicMessage<'_>,
    place: &[PlaceStep],
    key: MapKey,
    value: Value,
) -> Result<Option<Value>, ChangeError>
    ensures ok { OnOk result (IsFieldChanged place.now
        (insert (key_view key) (value_view value)) message.old message.new) }
    ensures stood { IfOk result (λ v. Some (option_map value_view v)
        ≡ taken_at place.now (insert (key_view key) (value_view value)) message.old) }
    ensures err { OnErr result (message.new ≡ message.old) }
    ensures judged { IsRefused result
        (refusal_at place.now (insert (key_view key) (value_view value)) message.old) }
{
    let Some((parent, number)) = field_at_end(place) else {
        return Err(ChangeError::Absent);
    };
    change_at(message, parent, Change::Insert(number, key, value))
}

/// Removes the entry of a key from the map at a place that ends at a field, in the message that the steps before it lead to. The answer is
/// the value that was under the key. A map without entries is not set.
///
/// Nothing else changes, and nothing at all where there is no such entry. The call is refused where the message is not there.
pub fn remove_at(
    message: &mut DynamicMessage<'_>,
    place: &[PlaceStep],
    key: MapKey,
) -> Result<Option<Value>, ChangeError>
    ensures ok { OnOk result (IsFieldChanged place.now
        (remove (key_view key)) message.old message.new) }
    ensures stood { IfOk result (λ v. Some (option_map value_view v)
        ≡ taken_at place.now (remove (key_view key)) message.old) }
    ensures err { OnErr result (message.new ≡ message.old) }
    ensures judged { IsRefused result (refusal_at place.now (remove (key_view key)) message.old) }
{
    let Some((parent, number)) = field_at_end(place) else {
        return Err(ChangeError::Absent);
    };
    change_at(message, parent, Change::Remove(number, key))
}

/// Puts a value in place of the element of a list that a place ends at. The answer is the value that was there.
///
/// Nothing else changes. The call is refused where the message has no such element, or else where [`DynamicMessage::push`] refuses the value, and
/// last where the whole message would nest more than 100 levels deep. A refused call changes nothing.
pub fn set_element_at(
    message: &mut DynamicMessage<'_>,
    place: &[PlaceStep],
    value: Value,
) -> Result<Option<Value>, ChangeError>
    ensures ok { OnOk result (IsElementChanged place.now
        (λ i. set_element i (value_view value)) message.old message.new) }
    ensures stood { IfOk result (λ v. Some (option_map value_view v)
        ≡ taken_element place.now (λ i. set_element i (value_view value)) message.old) }
    ensures err { OnErr result (message.new ≡ message.old) }
    ensures judged { IsRefused result
        (element_refusal place.now (λ i. set_element i (value_view value)) message.old) }
{
    let Some(((parent, number), index)) = element_at_end(message, place) else {
        return Err(ChangeError::Absent);
    };
    change_at(message, parent, Change::SetElement(number, index, value))
}

/// Removes the element of a list that a place ends at, and the elements after it move up. The answer is the value that was there. A list without
/// elements is not set.
///
/// Nothing else changes. The call is refused where the message has no such element, and then changes nothing.
pub fn remove_element_at(
    message: &mut DynamicMessage<'_>,
    place: &[PlaceStep],
) -> Result<Option<Value>, ChangeError>
    ensures ok { OnOk result (IsElementChanged place.now remove_element message.old message.new) }
    ensures stood { IfOk result (λ v. Some (option_map value_view v)
        ≡ taken_element place.now remove_element message.old) }
    ensures err { OnErr result (message.new ≡ message.old) }
    ensures judged { IsRefused result (element_refusal place.now remove_element message.old) }
{
    let Some(((parent, number), index)) = element_at_end(message, place) else {
        return Err(ChangeError::Absent);
    };
    change_at(message, parent, Change::RemoveElement(number, index))
}

/// Drops the unknown records of the message at a place, and changes nothing else. The call is refused where no message is at the place.
pub fn drop_unknown_at(
    message: &mut DynamicMessage<'_>,
    place: &[PlaceStep],
) -> Result<(), ChangeError>
    ensures ok { OnOk result (IsChangedAt place.now drop_unknown message.old message.new) }
    ensures err { OnErr result (message.new ≡ message.old) }
    ensures judged { IsRefused result
        (refusal (most_at place.now) drop_unknown (target place.now (message_part message.old))) }
{
    change_at(message, place, Change::DropUnknown)?;
    Ok(())
}
