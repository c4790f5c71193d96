//! Messages that are well formed by a pool.

use crate::body::{Body, Content, MapKey, Value};
use crate::change::clear_field;
use crate::change::element::{remove_element, set_element};
use crate::change::insert::insert_value;
use crate::change::oneof::set_member;
use crate::change::push::push_value;
use crate::change::remove::remove_entry;
use crate::change::set::{set_content, set_value};
use crate::changing::{Change, drop_unknown};
use crate::error::ValueError;
use crate::judge::check::check_message;
use crate::merge::merge_body;
use crate::message_ref::{MessageRef, print};
use pb_schema::{Kind, MessageId, Pool, Shape};
use std::alloc::Global;
use std::collections::BTreeMap;
use std::fmt;
use std::marker::Model;

/// A well-formed message of a type of a pool.
#[derive(Drop)]
pub struct DynamicMessage<'p> {
    alloc: Global,
    pool: &'p Pool,
    kind: MessageId,
    body: Body,
}

impl<'p> Model for DynamicMessage<'p> {
    ghost use Rattle.pb_value.specs.Dynamic.{Dynamic};
    ghost use Rattle.std.specs.Coded.{codes};
    ghost use Rattle.pb_value.specs.Code.{message_code};

    ghost Value = { Dynamic };

    ghost coded = { Prim.hlevel (codes, message_code) };

    ghost use Rattle.pb_value.specs.View.{body_view};
    ghost use Rattle.pb_value.specs.WellFormed.{IsWellFormed};
    ghost use Rattle.std.specs.Prelude.{length, ◌<◌};

    ghost view = { λ d. record { pool = d.pool.now; kind = d.kind.0; body = body_view d.body } };

    ghost invariant = { λ d. (d.kind.0 < length d.pool.now.messages) × IsWellFormed d.pool.now d.kind.0 (body_view d.body) };
}

impl<'p> DynamicMessage<'p> {
    ghost use Rattle.std.specs.Prelude.{◌≡◌, ◌<◌, length, option_and_then, option_map, is_some, IsTrue, IfOk, IfErr, OnOk, OnErr};
    ghost use Rattle.pb_schema.specs.Types.{message_fields};
    ghost use Rattle.pb_schema.specs.Rules.{IsPool};
    ghost use Rattle.std.specs.Bool.{Decides};
    ghost use Rattle.std.specs.Global.{Global};
    ghost use Rattle.pb_value.specs.Data.{empty, fields_of, get_field, drop_field, one};
    ghost use Rattle.pb_value.specs.Change.{set_at, set_cause, push_at, push_cause, insert_at, entry_at, insert_cause};
    ghost use Rattle.pb_value.specs.Change.{put_nth, remove_at, take_nth};
    ghost use Rattle.pb_value.specs.Edit.{edit_cause, edit_of, edited, taken_out};
    ghost use Rattle.pb_value.specs.Oneof.{member_set};
    ghost use Rattle.pb_value.specs.Inner.{only_datum, datum_at, datum_under, inner_message};
    ghost use Rattle.pb_value.specs.declared.error.ValueError.TheVariants.{Memory};
    ghost use Rattle.pb_value.specs.View.{body_view, content_view, key_view, value_view};
    ghost use Rattle.pb_value.specs.Dynamic.{Dynamic, with_changed, without_unknown, IsSameType};
    ghost use Rattle.pb_value.specs.Cause.{MergeFails};
    ghost use Rattle.pb_value.specs.Merge.{merged};
    ghost use Rattle.pb_value.specs.Joining.{JoinedIsText};
    ghost use Rattle.pb_value.specs.Cause.{message_cause, FailsWith, IsRefusedBy};
    ghost use Rattle.pb_value.specs.WellFormed.{IsWellFormed};

    /// The empty message of a type.
    pub fn new(alloc: Global, pool: &'p Pool, message_type: MessageId) -> DynamicMessage<'p>
        requires { message_type.0 < length pool.now.messages }
        ensures { result ≡ record { pool = pool.now; kind = message_type.0; body = empty } }
    {
        DynamicMessage {
            alloc,
            pool,
            kind: message_type,
            body: empty_body(alloc),
        }
    }

    /// The message of a body, where the body is a well-formed message of the type.
    ///
    /// Fields are judged by rising number, then the unknown records. At one field the least cause is reported, before the
    /// causes inside its messages. A second member of a oneof is reported at that member, and the depth last.
    pub fn from_body(
        alloc: Global,
        pool: &'p Pool,
        message_type: MessageId,
        body: Body,
    ) -> Result<DynamicMessage<'p>, ValueError>
        requires { message_type.0 < length pool.now.messages }
        ensures made { IfOk result (λ m. m ≡ record { pool = pool.now; kind = message_type.0; body = body_view body }) }
        ensures well_formed { IfOk result (λ m. IsWellFormed pool.now message_type.0 (body_view body)) }
        ensures refused { IfErr result (FailsWith (message_cause pool.now message_type.0 (body_view body))) }
        ensures accepts { IsWellFormed pool.now message_type.0 (body_view body) → IfErr result (λ e. e ≡ Memory) }
    {
        check_message(alloc, pool, message_type, &body)?;
        Ok(DynamicMessage {
            alloc,
            pool,
            kind: message_type,
            body,
        })
    }

    /// The message's body.
    pub fn into_body(self) -> Body
        ensures { body_view result ≡ self.entry.body }
    {
        self.body
    }

    /// What the message holds.
    pub fn body(&self) -> &Body
        ensures held { body_view result.now ≡ self.now.body }
        ensures well_formed { IsWellFormed self.now.pool self.now.kind self.now.body }
    {
        &self.body
    }

    /// The allocator that the message was made with, which is the one that there is.
    pub fn alloc(&self) -> Global
        ensures { (alloc : Global) → result ≡ alloc }
    {
        self.alloc
    }

    /// The message's type, an index in its pool.
    pub fn message_type(&self) -> MessageId
        ensures named { result.0 ≡ self.now.kind }
        ensures within { result.0 < length self.now.pool.messages }
    {
        self.kind
    }

    /// The pool of the message's type.
    pub fn pool(&self) -> &'p Pool
        ensures { result.now ≡ self.now.pool }
    {
        self.pool
    }

    /// What the field of a number holds.
    pub fn get(&self, number: u32) -> Option<&Content>
        ensures { option_map (λ c. content_view c.now) result ≡ get_field number (fields_of self.now.body) }
    {
        self.body.fields.get(&number)
    }

    /// The number of the member of a oneof that is set. There is none where the type has no such oneof.
    pub fn which_oneof(&self, oneof: u32) -> Option<u32>
        ensures { result ≡ member_set (message_fields self.now.pool self.now.kind) oneof (fields_of self.now.body) }
    {
        set_member(self.pool, self.kind, &self.body.fields, oneof)
    }

    /// The message as a borrowed view.
    pub fn view(&self) -> MessageRef<'_>
        ensures { result ≡ self.now }
    {
        MessageRef::new(self.pool, self.kind, &self.body)
    }

    /// The message that the field of a number holds. There is none where the field is absent or holds something else.
    pub fn message(&self, number: u32) -> Option<MessageRef<'_>>
        ensures { result ≡ inner_message only_datum number self.now }
    {
        self.view().message(number)
    }

    /// The message at an index, counted from 0, of the list that the field of a number holds.
    pub fn message_at(&self, number: u32, index: usize) -> Option<MessageRef<'_>>
        ensures { result ≡ inner_message (datum_at index) number self.now }
    {
        self.view().message_at(number, index)
    }

    /// The message under a key of the map that the field of a number holds.
    pub fn message_of(&self, number: u32, key: &MapKey) -> Option<MessageRef<'_>>
        ensures { result ≡ inner_message (datum_under (key_view key.now)) number self.now }
    {
        self.view().message_of(number, key)
    }

    /// Sets the field of a number. A default of implicit presence, an empty list and an empty map clear the field, and a member
    /// of a oneof takes the place of the one that is set. Nothing else changes, and nothing at all where the call fails.
    ///
    /// Only the content is judged: the least cause at the field is reported, before the causes inside its messages, and the
    /// depth last.
    pub fn set(&mut self, number: u32, content: Content) -> Result<(), ValueError>
        ensures ok { OnOk result (self.new ≡ with_changed self.old (set_at (message_fields self.old.pool self.old.kind) number (content_view content))) }
        ensures err { OnErr result (self.new ≡ self.old) }
        ensures judged { IsRefusedBy result (set_cause self.old.pool self.old.kind number (content_view content)) }
    {
        set_content(
            self.alloc,
            self.pool,
            self.kind,
            &mut self.body,
            number,
            content,
        )
    }

    /// Sets the field of a number to one value, as [`set`](DynamicMessage::set) does.
    pub fn set_value(&mut self, number: u32, value: Value) -> Result<(), ValueError>
        ensures ok { OnOk result (self.new ≡ with_changed self.old
            (set_at (message_fields self.old.pool self.old.kind) number (one (value_view value)))) }
        ensures err { OnErr result (self.new ≡ self.old) }
        ensures judged { IsRefusedBy result
            (set_cause self.old.pool self.old.kind number (one (value_view value))) }
    {
        set_value(
            self.alloc,
            self.pool,
            self.kind,
            &mut self.body,
            number,
            value,
        )
    }

    /// Puts a value at the end of the list of a number. Nothing else changes, and nothing at all where the call fails.
    ///
    /// Only the value is judged: the least cause at the field is reported, before the causes inside its messages, and the depth
    /// last. An element is stored also where it is its kind's default.
    pub fn push(&mut self, number: u32, value: Value) -> Result<(), ValueError>
        ensures ok { OnOk result (self.new ≡ with_changed self.old (push_at number (value_view value))) }
        ensures err { OnErr result (self.new ≡ self.old) }
        ensures judged { IsRefusedBy result (push_cause self.old.pool self.old.kind number (value_view value)) }
    {
        push_value(
            self.alloc,
            self.pool,
            self.kind,
            &mut self.body,
            number,
            value,
        )
    }

    /// Puts a value under a key of the map of a number, and returns the value that the key had before. Nothing else
    /// changes, and nothing at all where the call fails.
    ///
    /// The key and the value alone are judged, as by [`push`](DynamicMessage::push).
    pub fn insert(
        &mut self,
        number: u32,
        key: MapKey,
        value: Value,
    ) -> Result<Option<Value>, ValueError>
        ensures ok { OnOk result (self.new ≡ with_changed self.old (insert_at number (key_view key) (value_view value))) }
        ensures stood { IfOk result (λ v. option_map value_view v ≡ entry_at number (key_view key) (fields_of self.old.body)) }
        ensures err { OnErr result (self.new ≡ self.old) }
        ensures judged { IsRefusedBy result (insert_cause self.old.pool self.old.kind number (key_view key) (value_view value)) }
    {
        insert_value(
            self.alloc,
            self.pool,
            self.kind,
            &mut self.body,
            number,
            key,
            value,
        )
    }

    /// This message with another over it: scalars of the other where it has them, messages merged, lists joined, its entries put
    /// over those of this one, and its unknown records last. A member of a oneof that the other sets takes the place of
    /// another member (encoding guide, "Last One Wins", "Oneofs", "Maps").
    ///
    /// It is what the canonical forms of both decode to, one after the other, and is never too deep. Both messages are given up; a
    /// refused merge leaves neither. Types and pools are compared by value, in time linear in the pool; then it takes time linear in the
    /// parts of the other and logarithmic in those of this one, but for the search of the member that gives way.
    pub fn merge(self, other: DynamicMessage<'p>) -> Result<DynamicMessage<'p>, ValueError>
        ensures merged { IfOk result (λ m. m ≡ record self.entry { body = merged self.entry.pool self.entry.kind self.entry.body other.entry.body }) }
        ensures alike { IfOk result (λ _. IsSameType self.entry other.entry) }
        ensures refused { IfErr result (MergeFails self.entry other.entry) }
        ensures text { IfOk result (λ m. JoinedIsText self.entry.pool self.entry.kind self.entry.body other.entry.body m.body) }
    {
        if !self.is_alike(&other) {
            return Err(ValueError::OtherType);
        }
        self.merge_alike(other)
    }

    /// Whether another message is of the same type, and its pool holds the same.
    fn is_alike(&self, other: &DynamicMessage) -> bool
        ensures same { Decides result (IsSameType self.now other.now) }
        ensures rules { IsTrue result → IsPool self.now.pool }
    {
        if self.kind.0 != other.kind.0 {
            return false;
        }
        self.pool.equals(other.pool)
    }

    /// This message with another of its type over it.
    fn merge_alike(self, other: DynamicMessage<'p>) -> Result<DynamicMessage<'p>, ValueError>
        requires rules { IsPool self.pool }
        requires alike { IsSameType self other }
        ensures merged { IfOk result (λ m. m ≡ record self.entry { body = merged self.entry.pool self.entry.kind self.entry.body other.entry.body }) }
        ensures text { IfOk result (λ m. JoinedIsText self.entry.pool self.entry.kind self.entry.body other.entry.body m.body) }
        ensures memory { IfErr result (λ e. e ≡ Memory) }
    {
        let mut body = self.body;
        merge_body(self.pool, self.kind, &mut body, other.body)?;
        Ok(DynamicMessage {
            alloc: self.alloc,
            pool: self.pool,
            kind: self.kind,
            body,
        })
    }

    /// Clears the field of a number. Nothing else changes, and nothing at all where the type has no such field.
    pub fn clear(&mut self, number: u32)
        ensures { self.new ≡ with_changed self.old (drop_field number) }
    {
        clear_field(&mut self.body, number);
    }

    /// Removes the value under a key from the map of a number, and returns it. A map without entries is not set. Nothing else
    /// changes, and nothing at all if there is no such value.
    pub fn remove(&mut self, number: u32, key: &MapKey) -> Option<Value>
        ensures left { self.new ≡ with_changed self.old (remove_at number (key_view key.now)) }
        ensures taken { option_map value_view result
            ≡ option_and_then (datum_under (key_view key.now))
            (get_field number (fields_of self.old.body)) }
    {
        remove_entry(&mut self.body, number, key)
    }

    /// Puts a value in place of the element at an index, counted from 0, of the list of a number, and returns the value that was
    /// there. Nothing else changes, and nothing at all if there is no such element or the call fails.
    ///
    /// The value is judged as by [`push`](DynamicMessage::push).
    pub fn set_element(
        &mut self,
        number: u32,
        index: usize,
        value: Value,
    ) -> Result<Option<Value>, ValueError>
        ensures ok { OnOk result (self.new
            ≡ with_changed self.old (put_nth number index (value_view value))) }
        ensures taken { IfOk result (λ v. option_map value_view v
            ≡ option_and_then (datum_at index) (get_field number (fields_of self.old.body))) }
        ensures err { OnErr result (self.new ≡ self.old) }
        ensures judged { IsRefusedBy result
            (push_cause self.old.pool self.old.kind number (value_view value)) }
    {
        set_element(
            self.alloc,
            self.pool,
            self.kind,
            &mut self.body,
            number,
            index,
            value,
        )
    }

    /// Removes the element at an index, counted from 0, from the list of a number, and returns it. A list without elements is
    /// not set. Nothing else changes, and nothing at all if there is no such element.
    pub fn remove_element(&mut self, number: u32, index: usize) -> Option<Value>
        ensures left { self.new ≡ with_changed self.old (take_nth number index) }
        ensures taken { option_map value_view result
            ≡ option_and_then (datum_at index) (get_field number (fields_of self.old.body)) }
    {
        remove_element(&mut self.body, number, index)
    }

    /// Drops the unknown records, and changes nothing else.
    pub fn drop_unknown(&mut self)
        ensures { self.new ≡ without_unknown self.old }
    {
        drop_unknown(self.alloc, &mut self.body)
    }

    /// Makes a change, and returns the value that it takes out. Nothing changes if the call fails.
    pub fn change(&mut self, change: Change) -> Result<Option<Value>, ValueError>
        ensures ok { OnOk result (self.new ≡ edited (edit_of change) self.old) }
        ensures out { IfOk result (λ v. option_map value_view v
            ≡ taken_out (edit_of change) self.old) }
        ensures err { OnErr result (self.new ≡ self.old) }
        ensures judged { IsRefusedBy result
            (edit_cause (edit_of change) self.old.pool self.old.kind) }
    {
        change.make(self.alloc, self.pool, self.kind, &mut self.body)
    }

    /// Whether the field of a number is set.
    pub fn has(&self, number: u32) -> bool
        ensures { result ≡ is_some (get_field number (fields_of self.now.body)) }
    {
        self.body.fields.contains_key(&number)
    }
}

impl fmt::Debug for DynamicMessage<'_> {
    fn fmt<W: fmt::Write>(&self, f: &mut fmt::Formatter<W>) -> fmt::Result {
        print(f, "DynamicMessage", &self.view())
    }
}

ghost use Rattle.std.specs.Prelude.{◌≡◌, ◌<◌, length};
ghost use Rattle.pb_value.specs.Data.{empty};
ghost use Rattle.pb_value.specs.View.{body_view};
ghost use Rattle.pb_value.specs.WellFormed.{IsWellFormed};

/// The message of a body that the caller knows to be well formed: no rule is checked here.
pub fn from_well_formed<'p>(
    alloc: Global,
    pool: &'p Pool,
    message_type: MessageId,
    body: Body,
) -> DynamicMessage<'p>
    requires within { message_type.0 < length pool.now.messages }
    requires well_formed { IsWellFormed pool.now message_type.0 (body_view body) }
    ensures { result ≡ record { pool = pool.now; kind = message_type.0; body = body_view body } }
{
    DynamicMessage {
        alloc,
        pool,
        kind: message_type,
        body,
    }
}

/// The message without a field.
pub fn empty_body(alloc: Global) -> Body
    ensures { body_view result ≡ empty }
{
    Body {
        fields: BTreeMap::new(alloc),
        unknown: Vec::new(alloc),
    }
}

ghost use Rattle.std.specs.Prelude.{option_map};
ghost use Rattle.pb_value.specs.Oneof.{default_value};
ghost use Rattle.pb_value.specs.View.{value_view};

/// The default of a kind. A message and a closed enum have none.
pub fn default_value(alloc: Global, kind: Kind) -> Option<Value>
    ensures { option_map value_view result ≡ default_value kind }
{
    Some(match kind {
        Kind::Int32 | Kind::Sint32 | Kind::Sfixed32 => Value::I32(0),
        Kind::Int64 | Kind::Sint64 | Kind::Sfixed64 => Value::I64(0),
        Kind::Uint32 | Kind::Fixed32 => Value::U32(0),
        Kind::Uint64 | Kind::Fixed64 => Value::U64(0),
        Kind::Bool => Value::Bool(false),
        Kind::Float => Value::F32(0),
        Kind::Double => Value::F64(0),
        Kind::Enum(_) => Value::Enum(0),
        Kind::Text => Value::Text(String::new(alloc)),
        Kind::Bytes => Value::Bytes(Vec::new(alloc)),
        Kind::Message(_) | Kind::Group(_) | Kind::ClosedEnum(_) => return None,
    })
}
