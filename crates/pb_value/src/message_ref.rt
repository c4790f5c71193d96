//! Messages that are borrowed, whole or from inside others.

use crate::body::{Body, Content, MapKey, Value};
use crate::change::oneof::set_member;
use crate::full_name::FullName;
use crate::lookup::field_at;
use pb_schema::{MessageId, Pool};
use std::fmt;
use std::marker::Model;

/// A borrowed well-formed message of a type of a pool: a whole one, or one inside another. It takes no memory.
#[derive(Drop)]
pub struct MessageRef<'a> {
    pool: &'a Pool,
    kind: MessageId,
    body: &'a Body,
}

impl<'a> Model for MessageRef<'a> {
    ghost use Rattle.pb_value.specs.Dynamic.{Dynamic};
    ghost use Rattle.std.specs.Coded.{codes};
    ghost use Rattle.pb_value.specs.Code.{message_code};

    ghost Value = { Dynamic };

    ghost coded = { Prim.hlevel (codes, message_code) };

    ghost use Rattle.pb_value.specs.View.{body_view};
    ghost use Rattle.pb_value.specs.WellFormed.{IsWellFormed};
    ghost use Rattle.std.specs.Prelude.{length, ◌<◌};

    ghost view = { λ d. record { pool = d.pool.now; kind = d.kind.0; body = body_view d.body.now } };

    ghost invariant = { λ d. (d.kind.0 < length d.pool.now.messages) × IsWellFormed d.pool.now d.kind.0 (body_view d.body.now) };
}

impl<'a> MessageRef<'a> {
    ghost use Rattle.std.specs.Prelude.{◌≡◌, ◌<◌, length, option_map, is_some};
    ghost use Rattle.pb_schema.specs.Types.{message_fields};
    ghost use Rattle.pb_value.specs.Data.{fields_of, get_field};
    ghost use Rattle.pb_value.specs.Inner.{only_datum, datum_at, datum_under, inner_message};
    ghost use Rattle.pb_value.specs.Oneof.{member_set};
    ghost use Rattle.pb_value.specs.View.{body_view, content_view, key_view};
    ghost use Rattle.pb_value.specs.WellFormed.{IsWellFormed};

    /// The view of a message of a type.
    pub(crate) fn new(pool: &'a Pool, message_type: MessageId, body: &'a Body) -> MessageRef<'a>
        requires within { message_type.0 < length pool.now.messages }
        requires well_formed { IsWellFormed pool.now message_type.0 (body_view body.now) }
        ensures { result ≡ record { pool = pool.now; kind = message_type.0; body = body_view body.now } }
    {
        MessageRef {
            pool,
            kind: message_type,
            body,
        }
    }

    /// What the message holds.
    pub fn body(&self) -> &'a Body
        ensures held { body_view result.now ≡ self.now.body }
        ensures well_formed { IsWellFormed self.now.pool self.now.kind self.now.body }
    {
        self.body
    }

    /// The message's type, an index in its pool.
    pub fn message_type(&self) -> MessageId
        ensures named { result.0 ≡ self.now.kind }
        ensures within { result.0 < length self.now.pool.messages }
    {
        self.kind
    }

    /// The pool of the message's type.
    pub fn pool(&self) -> &'a Pool
        ensures { result.now ≡ self.now.pool }
    {
        self.pool
    }

    /// What the field of a number holds.
    pub fn get(&self, number: u32) -> Option<&'a Content>
        ensures { option_map (λ c. content_view c.now) result ≡ get_field number (fields_of self.now.body) }
    {
        self.body.fields.get(&number)
    }

    /// Whether the field of a number is set.
    pub fn has(&self, number: u32) -> bool
        ensures { result ≡ is_some (get_field number (fields_of self.now.body)) }
    {
        self.body.fields.contains_key(&number)
    }

    /// The number of the member of a oneof that is set. There is none where the type has no such oneof.
    pub fn which_oneof(&self, oneof: u32) -> Option<u32>
        ensures { result ≡ member_set (message_fields self.now.pool self.now.kind) oneof (fields_of self.now.body) }
    {
        set_member(self.pool, self.kind, &self.body.fields, oneof)
    }

    /// The message that the field of a number holds. There is none where the field is absent or holds something else.
    pub fn message(&self, number: u32) -> Option<MessageRef<'a>>
        ensures { result ≡ inner_message only_datum number self.now }
    {
        let value = only_value(self.get(number)?)?;
        as_message(self.pool, self.kind, number, value)
    }

    /// The message at an index, counted from 0, of the list that the field of a number holds.
    pub fn message_at(&self, number: u32, index: usize) -> Option<MessageRef<'a>>
        ensures { result ≡ inner_message (datum_at index) number self.now }
    {
        let value = value_at(self.get(number)?, index)?;
        as_message(self.pool, self.kind, number, value)
    }

    /// The message under a key of the map that the field of a number holds.
    pub fn message_of(&self, number: u32, key: &MapKey) -> Option<MessageRef<'a>>
        ensures { result ≡ inner_message (datum_under (key_view key.now)) number self.now }
    {
        let value = value_under(self.get(number)?, key)?;
        as_message(self.pool, self.kind, number, value)
    }
}

impl fmt::Debug for MessageRef<'_> {
    fn fmt<W: fmt::Write>(&self, f: &mut fmt::Formatter<W>) -> fmt::Result {
        print(f, "MessageRef", self)
    }
}

/// Prints a message as a struct of a name, with its type's full name and its body.
pub(crate) fn print<W: fmt::Write>(
    f: &mut fmt::Formatter<W>,
    name: &str,
    message: &MessageRef,
) -> fmt::Result {
    f.debug_struct(name)
        .field("type", &FullName::new(message.pool, message.kind))
        .field("body", message.body)
        .finish()
}

ghost use Rattle.std.specs.Prelude.{◌≡◌, ◌<◌, length, option_map, IfSome};
ghost use Rattle.pb_value.specs.Inner.{type_named, as_message, IsPart};
ghost use Rattle.pb_value.specs.Inner.{only_datum as only, datum_at as element, datum_under as under};
ghost use Rattle.pb_value.specs.View.{value_view, content_view as view_of_content, key_view as view_of_key};

/// The value of a content that is one.
fn only_value(content: &Content) -> Option<&Value>
    ensures { option_map (λ v. value_view v.now) result ≡ only (view_of_content content.now) }
{
    match content {
        Content::One(value) => Some(value),
        _ => None,
    }
}

/// The value at an index of a content that is a list.
fn value_at(content: &Content, index: usize) -> Option<&Value>
    ensures { option_map (λ v. value_view v.now) result ≡ element index (view_of_content content.now) }
{
    match content {
        Content::List(values) => values.get(index),
        _ => None,
    }
}

/// The value under a key of a content that is a map.
fn value_under<'a>(content: &'a Content, key: &MapKey) -> Option<&'a Value>
    ensures { option_map (λ v. value_view v.now) result ≡ under (view_of_key key.now) (view_of_content content.now) }
{
    match content {
        Content::Map(entries) => entries.get(key),
        _ => None,
    }
}

/// The message type that the kind of the field of a number names.
fn type_named(pool: &Pool, message_type: MessageId, number: u32) -> Option<MessageId>
    requires { message_type.0 < length pool.now.messages }
    ensures named { option_map (λ m. m.0) result ≡ type_named pool.now message_type.0 number }
    ensures within { IfSome result (λ m. m.0 < length pool.now.messages) }
{
    field_at(pool, message_type, number)?.kind.message()
}

/// A value that the field of a number holds, as a message.
fn as_message<'a>(
    pool: &'a Pool,
    message_type: MessageId,
    number: u32,
    value: &'a Value,
) -> Option<MessageRef<'a>>
    requires within { message_type.0 < length pool.now.messages }
    requires part { IsPart pool.now (type_named pool.now message_type.0 number) (value_view value.now) }
    ensures { result ≡ as_message pool.now (type_named pool.now message_type.0 number) (value_view value.now) }
{
    let Value::Message(body) = value else {
        return None;
    };
    let inner = type_named(pool, message_type, number)?;
    Some(MessageRef::new(pool, inner, body))
}
