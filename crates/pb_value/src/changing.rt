//! Changes of one message, as values.

ghost use Rattle.std.specs.Prelude.{◌≡◌, ◌<◌, ◌≤◌, ◌↔◌, [], length, IfOk, OnOk, OnErr, IsTrue, option_map};
ghost use Rattle.pb_value.specs.Cause.{IsRefusedBy};
ghost use Rattle.pb_value.specs.Data.{body, fields_of};
ghost use Rattle.pb_value.specs.Edit.{brings, dynamic, edit_cause, edit_of, edited, taken_out};
ghost use Rattle.pb_value.specs.View.{body_view, value_view};
ghost use Rattle.pb_value.specs.WellFormed.{IsWellFormed};

use crate::body::{Body, Content, MapKey, Value};
use crate::change::clear_field;
use crate::change::element::{remove_element, set_element};
use crate::change::insert::insert_value;
use crate::change::push::push_value;
use crate::change::remove::remove_entry;
use crate::change::set::set_content;
use crate::error::ValueError;
use crate::judge::depth::{content_within, entry_within, value_within};
use pb_schema::{MessageId, Pool};
use std::alloc::Global;

/// A change of one message.
#[derive(Drop)]
pub enum Change {
    /// Sets the field of a number.
    Set(u32, Content),
    /// Clears the field of a number.
    Clear(u32),
    /// Puts a value at the end of the list of a number.
    Push(u32, Value),
    /// Puts a value under a key of the map of a number.
    Insert(u32, MapKey, Value),
    /// Removes the value under a key from the map of a number, and the map if no entry is left.
    Remove(u32, MapKey),
    /// Puts a value in place of the element at an index of the list of a number.
    SetElement(u32, usize, Value),
    /// Removes the element at an index from the list of a number, and the list if no element is left.
    RemoveElement(u32, usize),
    /// Drops the unknown records.
    DropUnknown,
}

impl Change {
    /// Whether what the change brings nests at most `limit` levels below the message.
    pub fn brings_at_most(&self, limit: u8) -> bool
        ensures { IsTrue result ↔ (brings (edit_of self.now) ≤ limit) }
    {
        match self {
            Change::Set(_, content) => content_within(content, limit),
            Change::Clear(_) => true,
            Change::Remove(_, _) => true,
            Change::SetElement(_, _, value) => value_within(value, limit),
            Change::RemoveElement(_, _) => true,
            Change::DropUnknown => true,
            Change::Push(_, value) => value_within(value, limit),
            Change::Insert(_, _, value) => entry_within(value, limit),
        }
    }

    /// Makes the change in a well-formed message of a type, and returns the value that it takes out. A refused change changes nothing.
    pub fn make(
        self,
        alloc: Global,
        pool: &Pool,
        message_type: MessageId,
        message: &mut Body,
    ) -> Result<Option<Value>, ValueError>
        requires within { message_type.0 < length pool.now.messages }
        requires well_formed { IsWellFormed pool.now message_type.0 (body_view message.old) }
        ensures ok { OnOk result (body_view message.new
            ≡ (edited (edit_of self) (dynamic pool.now message_type.0 (body_view message.old))).body) }
        ensures out { IfOk result (λ v. option_map value_view v
            ≡ taken_out (edit_of self) (dynamic pool.now message_type.0 (body_view message.old))) }
        ensures err { OnErr result (body_view message.new ≡ body_view message.old) }
        ensures judged { IsRefusedBy result (edit_cause (edit_of self) pool.now message_type.0) }
        ensures well_formed { IsWellFormed pool.now message_type.0 (body_view message.new) }
    {
        match self {
            Change::Set(number, content) => {
                set_content(alloc, pool, message_type, message, number, content)?;
                Ok(None)
            }
            Change::Clear(number) => {
                clear_field(message, number);
                Ok(None)
            }
            Change::Push(number, value) => {
                push_value(alloc, pool, message_type, message, number, value)?;
                Ok(None)
            }
            Change::Insert(number, key, value) => {
                insert_value(alloc, pool, message_type, message, number, key, value)
            }
            Change::Remove(number, key) => Ok(remove_entry(message, number, &key)),
            Change::SetElement(number, index, value) => {
                set_element(alloc, pool, message_type, message, number, index, value)
            }
            Change::RemoveElement(number, index) => Ok(remove_element(message, number, index)),
            Change::DropUnknown => {
                drop_unknown(alloc, message);
                Ok(None)
            }
        }
    }
}

/// Drops the unknown records of a message.
pub(crate) fn drop_unknown(alloc: Global, message: &mut Body)
    ensures { body_view message.new ≡ body (fields_of (body_view message.old)) [] }
{
    message.unknown = Vec::new(alloc);
}
