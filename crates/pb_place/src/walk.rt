//! The way to the message at a place, and its change there.

ghost use Rattle.std.specs.Prelude.{◌≡◌, ◌<◌, length, Some, IfSome, option_map};
ghost use Rattle.pb_value.specs.Data.{list, map, message, one};
ghost use Rattle.pb_value.specs.Inner.{type_named, IsPart};
ghost use Rattle.pb_value.specs.View.{body_view, content_view, entries_view, value_view, values_view};
ghost use Rattle.pb_value.specs.WellFormed.{IsWellFormed};
ghost use Rattle.pb_value.specs.Edit.{edit_of};
ghost use Rattle.pb_place.specs.Edits.{HoldsParts, IsWalked};

use crate::error::ChangeError;
use crate::pending::Pending;
use crate::step::PlaceStep;
use pb_schema::{MessageId, Pool};
use pb_value::{Body, Content, DynamicMessage, MapKey, Value};
use std::alloc::Global;
use std::collections::BTreeMap;

/// What stays the same on the way to a message.
#[derive(Drop)]
pub(crate) struct Walk<'p> {
    pub(crate) alloc: Global,
    pub(crate) pool: &'p Pool,
    /// The most levels that may be added below the message.
    pub(crate) most: u8,
}

/// The message type that the kind of the field of a number names.
fn type_named(pool: &Pool, message_type: MessageId, number: u32) -> Option<MessageId>
    requires { message_type.0 < length pool.now.messages }
    ensures named { option_map (λ m. m.0) result ≡ type_named pool.now message_type.0 number }
    ensures within { IfSome result (λ m. m.0 < length pool.now.messages) }
{
    pool.field_by_number(message_type, number)?.kind.message()
}

/// The body of a message, which is well formed.
pub(crate) fn into_well_formed(message: DynamicMessage<'_>) -> Body
    ensures held { body_view result ≡ message.entry.body }
    ensures well_formed { IsWellFormed message.entry.pool message.entry.kind (body_view result) }
{
    let _held = message.body();
    message.into_body()
}

impl Walk<'_> {
    /// Makes a change in the message at a place in a message.
    #[cycle(change)]
    pub(crate) fn change_in(
        &self,
        message_type: MessageId,
        body: &mut Body,
        place: &[PlaceStep],
        pending: &mut Pending,
    ) -> Result<(), ChangeError>
        requires within { message_type.0 < length self.now.pool.now.messages }
        requires well_formed { IsWellFormed self.now.pool.now message_type.0 (body_view body.old) }
        ensures { IsWalked self.now.pool.now self.now.most (Some message_type.0) place.now
            (edit_of pending.old.change) (one (message (body_view body.old)))
            (one (message (body_view body.new))) result pending.new.taken }
    {
        let Some((step, rest)) = place.split_first() else {
            return pending.make_within(self.alloc, self.pool, message_type, body, self.most);
        };
        let PlaceStep::Field(number) = step else {
            return Err(ChangeError::Absent);
        };
        let inner = type_named(self.pool, message_type, *number);
        match body.fields.get_mut(number) {
            Some(content) => self.change_content(inner, content, rest, pending),
            None => Err(ChangeError::Absent),
        }
    }

    /// Makes a change in the message at a place that begins at what a field holds.
    #[cycle(change)]
    fn change_content(
        &self,
        inner: Option<MessageId>,
        content: &mut Content,
        place: &[PlaceStep],
        pending: &mut Pending,
    ) -> Result<(), ChangeError>
        requires inner { IfSome inner (λ m. m.0 < length self.now.pool.now.messages) }
        requires parts { HoldsParts self.now.pool.now (option_map (λ m. m.0) inner)
            (content_view content.old) }
        ensures { IsWalked self.now.pool.now self.now.most (option_map (λ m. m.0) inner) place.now
            (edit_of pending.old.change) (content_view content.old)
            (content_view content.new) result pending.new.taken }
    {
        match content {
            Content::One(value) => self.change_value(inner, value, place, pending),
            Content::List(values) => self.change_list(inner, values, place, pending),
            Content::Map(entries) => self.change_map(inner, entries, place, pending),
        }
    }

    /// Makes a change in the message at a place that begins at a list.
    #[cycle(change)]
    fn change_list(
        &self,
        inner: Option<MessageId>,
        values: &mut Vec<Value>,
        place: &[PlaceStep],
        pending: &mut Pending,
    ) -> Result<(), ChangeError>
        requires inner { IfSome inner (λ m. m.0 < length self.now.pool.now.messages) }
        requires parts { HoldsParts self.now.pool.now (option_map (λ m. m.0) inner)
            (list (values_view values.old.items)) }
        ensures { IsWalked self.now.pool.now self.now.most (option_map (λ m. m.0) inner) place.now
            (edit_of pending.old.change) (list (values_view values.old.items))
            (list (values_view values.new.items)) result pending.new.taken }
    {
        let Some((step, rest)) = place.split_first() else {
            return Err(ChangeError::Absent);
        };
        let PlaceStep::Index(index) = step else {
            return Err(ChangeError::Absent);
        };
        match values.get_mut(*index) {
            Some(value) => self.change_value(inner, value, rest, pending),
            None => Err(ChangeError::Absent),
        }
    }

    /// Makes a change in the message at a place that begins at a map.
    #[cycle(change)]
    fn change_map(
        &self,
        inner: Option<MessageId>,
        entries: &mut BTreeMap<MapKey, Value>,
        place: &[PlaceStep],
        pending: &mut Pending,
    ) -> Result<(), ChangeError>
        requires inner { IfSome inner (λ m. m.0 < length self.now.pool.now.messages) }
        requires parts { HoldsParts self.now.pool.now (option_map (λ m. m.0) inner)
            (map (entries_view entries.old.entries)) }
        ensures { IsWalked self.now.pool.now self.now.most (option_map (λ m. m.0) inner) place.now
            (edit_of pending.old.change) (map (entries_view entries.old.entries))
            (map (entries_view entries.new.entries)) result pending.new.taken }
    {
        let Some((step, rest)) = place.split_first() else {
            return Err(ChangeError::Absent);
        };
        let PlaceStep::Key(key) = step else {
            return Err(ChangeError::Absent);
        };
        match entries.get_mut(key) {
            Some(value) => self.change_value(inner, value, rest, pending),
            None => Err(ChangeError::Absent),
        }
    }

    /// Makes a change in the message at a place that begins at a value.
    #[cycle(change)]
    fn change_value(
        &self,
        inner: Option<MessageId>,
        value: &mut Value,
        place: &[PlaceStep],
        pending: &mut Pending,
    ) -> Result<(), ChangeError>
        requires inner { IfSome inner (λ m. m.0 < length self.now.pool.now.messages) }
        requires part { IsPart self.now.pool.now (option_map (λ m. m.0) inner)
            (value_view value.old) }
        ensures { IsWalked self.now.pool.now self.now.most (option_map (λ m. m.0) inner) place.now
            (edit_of pending.old.change) (one (value_view value.old))
            (one (value_view value.new)) result pending.new.taken }
    {
        let Some(inner) = inner else {
            return Err(ChangeError::Absent);
        };
        match value {
            Value::Message(body) => self.change_in(inner, body, place, pending),
            _ => Err(ChangeError::Absent),
        }
    }
}
