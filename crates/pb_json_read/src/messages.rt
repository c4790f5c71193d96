//! A JSON value as a message of a type.

ghost use Rattle.std.specs.Prelude.{◌<◌, length, Some};
ghost use Rattle.pb_json_text.specs.View.{form_view, members_view};
ghost use Rattle.pb_schema.specs.Rules.{NamesType};
ghost use Rattle.pb_schema.specs.View.{field_view};
ghost use Rattle.pb_value.specs.View.{body_view};
ghost use Rattle.pb_json_read.specs.Answers.{Answers, Changes, named, parts_view};
ghost use Rattle.pb_json_read.specs.Names.{field_meant as meant};
ghost use Rattle.pb_json_read.specs.Reads.{ReadsMember, ReadsMemberHeld, ReadsMembers, ReadsMessage, ReadsObject};
ghost use Rattle.pb_json_read.specs.Steps.{Made, nothing};

use crate::absent::is_absent;
use crate::construction::Parts;
use crate::context::Context;
use crate::error::{JsonReadCause, JsonReadError, refused};
use crate::forms::{read_field_mask, read_point, read_span};
use crate::names::field_meant;
use crate::passing::unknown_name;
use pb_json::well_known::{WellKnown, well_known};
use pb_json_text::{JsonForm, JsonMember, JsonValue};
use pb_schema::{Field, MessageId};
use pb_value::{Body, Value};

impl Context<'_> {
    /// A message of a type, by the form that the type has.
    #[cycle(read)]
    pub(crate) fn read_message(
        &self,
        id: MessageId,
        value: &JsonValue,
    ) -> Result<Body, JsonReadError>
        requires { id.0 < length self.now.pool.now.messages }
        ensures { Answers body_view (ReadsMessage self.now.pool.now self.now.rules
            self.now.names.now id.0 value.now.at (form_view value.now.form)) result }
    {
        match well_known(self.pool, id) {
            WellKnown::Other => self.read_object(id, value),
            WellKnown::Wrapper => self.read_sole(id, value),
            WellKnown::Struct => self.read_sole(id, value),
            WellKnown::ListValue => self.read_sole(id, value),
            WellKnown::Value => self.read_dynamic(id, value),
            WellKnown::Timestamp => read_point(self, id, value),
            WellKnown::Duration => read_span(self, id, value),
            WellKnown::FieldMask => read_field_mask(self, id, value),
            WellKnown::Any => self.read_any(id, value),
        }
    }

    /// A message of a type that has no form of its own, from an object.
    #[cycle(read)]
    fn read_object(&self, id: MessageId, value: &JsonValue) -> Result<Body, JsonReadError>
        requires { id.0 < length self.now.pool.now.messages }
        ensures { Answers body_view (ReadsObject self.now.pool.now self.now.rules self.now.names.now
            id.0 value.now.at (form_view value.now.form)) result }
    {
        match &value.form {
            JsonForm::Object(members) => self.read_members(id, members),
            _ => Err(refused(value.at, JsonReadCause::BadValue)),
        }
    }

    /// The message of the members of an object.
    #[cycle(read)]
    fn read_members(&self, id: MessageId, members: &Vec<JsonMember>) -> Result<Body, JsonReadError>
        requires { id.0 < length self.now.pool.now.messages }
        ensures { Answers body_view
            (Made (ReadsMembers self.now.pool.now self.now.rules self.now.names.now
            (meant self.now.names.now self.now.pool.now id.0) nothing
            (members_view members.now.items)) (λ p. p.message)) result }
    {
        let mut parts = Parts::new(self.alloc);
        for member in members {
            self.read_member(id, &mut parts, member)?;
        }
        Ok(parts.body)
    }

    /// One more member.
    #[cycle(read)]
    pub(crate) fn read_member(
        &self,
        id: MessageId,
        parts: &mut Parts,
        member: &JsonMember,
    ) -> Result<(), JsonReadError>
        requires { id.0 < length self.now.pool.now.messages }
        ensures { Changes (parts_view parts.new)
            (ReadsMember self.now.pool.now self.now.rules self.now.names.now
            (meant self.now.names.now self.now.pool.now id.0 (named member.now).1)
            (named member.now) (parts_view parts.old)) result }
    {
        match field_meant(self.names, self.pool, self.tables, id, member.name.as_str()) {
            Some(field) => self.read_field(field, parts, member),
            None => unknown_name(self.rules, member.at),
        }
    }

    /// A member that names a field.
    #[cycle(read)]
    pub(crate) fn read_field(
        &self,
        field: &Field,
        parts: &mut Parts,
        member: &JsonMember,
    ) -> Result<(), JsonReadError>
        requires { NamesType (length self.now.pool.now.messages) (length self.now.pool.now.enums)
            field.now.kind }
        ensures { Changes (parts_view parts.new)
            (ReadsMember self.now.pool.now self.now.rules self.now.names.now
            (Some (field_view field.now))
            (named member.now) (parts_view parts.old)) result }
    {
        parts.note_number(field.number, member.at)?;
        if is_absent(self.pool, field.shape, field.kind, &member.value.form) {
            return Ok(());
        }
        self.read_held(field, parts, member)
    }

    /// A member that names a field, which is not absent.
    #[cycle(read)]
    fn read_held(
        &self,
        field: &Field,
        parts: &mut Parts,
        member: &JsonMember,
    ) -> Result<(), JsonReadError>
        requires { NamesType (length self.now.pool.now.messages) (length self.now.pool.now.enums)
            field.now.kind }
        ensures { Changes (parts_view parts.new)
            (ReadsMemberHeld self.now.pool.now self.now.rules self.now.names.now
            (field_view field.now)
            (named member.now) (parts_view parts.old)) result }
    {
        parts.note_shape(field.shape, member.at)?;
        match self.read_content(field.shape, field.kind, &member.value)? {
            Some(content) => parts.put(field.shape, field.number, content),
            None => Ok(()),
        }
    }
}
