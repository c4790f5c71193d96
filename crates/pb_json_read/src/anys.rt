//! A `google.protobuf.Any`, from an object with the members of the message in it.

ghost use Rattle.std.specs.Prelude.{◌≡◌, ◌<◌, length, option_map, IfSome, None, Some};
ghost use Rattle.pb_json_text.specs.View.{form_view, members_view};
ghost use Rattle.pb_schema.specs.Rules.{NamesType};
ghost use Rattle.pb_schema.specs.View.{field_view};
ghost use Rattle.pb_value.specs.View.{body_view};
ghost use Rattle.pb_json_read.specs.Answers.{Answers, Changes, named, parts_view};
ghost use Rattle.pb_json_read.specs.Anys.{any_message, beside};
ghost use Rattle.pb_json_read.specs.Names.{field_meant as meant};
ghost use Rattle.pb_json_read.specs.Reads.{AnyOf, BytesOf, InAnyOf, ReadsAnyObject, ReadsBeside, ReadsMember, ReadsMemberBeside};
ghost use Rattle.pb_json_read.specs.Steps.{Made, nothing};

use crate::construction::Parts;
use crate::context::Context;
use crate::encoded::{
    any_body, any_fields, encoded, has_members, held_message, is_empty_type, value_field,
};
use crate::error::JsonReadError;
use crate::passing::unknown_name;
use crate::tags::{find_tag, is_tag, read_untagged, url_meant};
use pb_json_text::{JsonForm, JsonMember, JsonValue};
use pb_schema::{Field, MessageId};
use pb_value::Body;

impl Context<'_> {
    /// A message of type `google.protobuf.Any`.
    #[cycle(read)]
    pub(crate) fn read_any(&self, id: MessageId, value: &JsonValue) -> Result<Body, JsonReadError>
        requires { id.0 < length self.now.pool.now.messages }
        ensures { Answers body_view (ReadsAnyObject self.now.pool.now self.now.rules
            self.now.names.now id.0 value.now.at (form_view value.now.form)) result }
    {
        match &value.form {
            JsonForm::Object(members) => self.read_any_members(id, value.at, members),
            _ => Err(JsonReadError::bad_value(value.at)),
        }
    }

    /// An Any from the members of an object, which begins at this byte.
    #[cycle(read)]
    fn read_any_members(
        &self,
        id: MessageId,
        at: usize,
        members: &Vec<JsonMember>,
    ) -> Result<Body, JsonReadError>
        requires { id.0 < length self.now.pool.now.messages }
        ensures { Answers body_view (AnyOf self.now.pool.now self.now.rules self.now.names.now at
            (members_view members.now.items) id.0) result }
    {
        let Some(fields) = any_fields(self.pool, id) else {
            return Err(JsonReadError::bad_value(at));
        };
        let Some(tag) = find_tag(members)? else {
            return read_untagged(self.alloc, at, members);
        };
        match url_meant(self.pool, tag) {
            Some((url, inner)) => self.read_named(fields.0, fields.1, at, members, url, inner),
            None => Err(JsonReadError::bad_value(tag.at)),
        }
    }

    /// An Any of a URL, which names this type.
    #[cycle(read)]
    fn read_named(
        &self,
        url_field: &Field,
        bytes_field: &Field,
        at: usize,
        members: &Vec<JsonMember>,
        url: &str,
        inner: MessageId,
    ) -> Result<Body, JsonReadError>
        requires { inner.0 < length self.now.pool.now.messages }
        ensures { Answers body_view
            (Made (BytesOf self.now.pool.now self.now.rules self.now.names.now at
            (members_view members.now.items) inner.0)
            (any_message (field_view url_field.now, field_view bytes_field.now) url.now)) result }
    {
        let bytes = self.read_encoded(at, members, inner)?;
        any_body(self.alloc, url_field, bytes_field, url, bytes)
    }

    /// The bytes of the message in an Any.
    #[cycle(read)]
    fn read_encoded(
        &self,
        at: usize,
        members: &Vec<JsonMember>,
        inner: MessageId,
    ) -> Result<Vec<u8>, JsonReadError>
        requires { inner.0 < length self.now.pool.now.messages }
        ensures { Answers (λ v. v.items) (BytesOf self.now.pool.now self.now.rules
            self.now.names.now at (members_view members.now.items) inner.0) result }
    {
        let body = self.read_in_any(at, members, inner)?;
        encoded(self.alloc, self.pool, inner, body, at)
    }

    /// The message in an Any.
    #[cycle(read)]
    fn read_in_any(
        &self,
        at: usize,
        members: &Vec<JsonMember>,
        inner: MessageId,
    ) -> Result<Body, JsonReadError>
        requires { inner.0 < length self.now.pool.now.messages }
        ensures { Answers body_view (InAnyOf self.now.pool.now self.now.rules self.now.names.now at
            (members_view members.now.items) inner.0) result }
    {
        if has_members(self.pool, inner) {
            self.read_beside(inner, None, members)
        } else {
            let field = value_field(self.alloc, inner)?;
            let body = self.read_beside(inner, Some(&field), members)?;
            held_message(self.alloc, body, is_empty_type(self.pool, inner), at)
        }
    }

    /// The message that the members beside `@type` give, of one field or of those of a type.
    #[cycle(read)]
    fn read_beside(
        &self,
        inner: MessageId,
        only: Option<&Field>,
        members: &Vec<JsonMember>,
    ) -> Result<Body, JsonReadError>
        requires within { inner.0 < length self.now.pool.now.messages }
        requires kind { IfSome only (λ f. NamesType (length self.now.pool.now.messages)
            (length self.now.pool.now.enums) f.now.kind) }
        ensures { Answers body_view
            (Made (ReadsBeside self.now.pool.now self.now.rules self.now.names.now
            (beside (option_map (λ f. field_view f.now) only.entry)
            (meant self.now.names.now self.now.pool.now inner.0)) nothing
            (members_view members.now.items))
            (λ p. p.message)) result }
    {
        let mut parts = Parts::new(self.alloc);
        for member in members {
            self.read_member_beside(inner, only, &mut parts, member)?;
        }
        Ok(parts.body)
    }

    /// One more member, unless it is `@type`.
    #[cycle(read)]
    fn read_member_beside(
        &self,
        inner: MessageId,
        only: Option<&Field>,
        parts: &mut Parts,
        member: &JsonMember,
    ) -> Result<(), JsonReadError>
        requires within { inner.0 < length self.now.pool.now.messages }
        requires kind { IfSome only (λ f. NamesType (length self.now.pool.now.messages)
            (length self.now.pool.now.enums) f.now.kind) }
        ensures { Changes (parts_view parts.new)
            (ReadsMemberBeside self.now.pool.now self.now.rules self.now.names.now
            (beside (option_map (λ f. field_view f.now) only.entry)
            (meant self.now.names.now self.now.pool.now inner.0))
            (named member.now) (parts_view parts.old)) result }
    {
        if is_tag(member.name.as_str()) {
            return Ok(());
        }
        match only {
            Some(field) => self.read_only(field, parts, member),
            None => self.read_member(inner, parts, member),
        }
    }

    /// One more member where there is one field.
    #[cycle(read)]
    fn read_only(
        &self,
        field: &Field,
        parts: &mut Parts,
        member: &JsonMember,
    ) -> Result<(), JsonReadError>
        requires { NamesType (length self.now.pool.now.messages) (length self.now.pool.now.enums)
            field.now.kind }
        ensures { Changes (parts_view parts.new)
            (ReadsMember self.now.pool.now self.now.rules self.now.names.now
            (beside (Some (field_view field.now)) (λ _. None) (named member.now).1)
            (named member.now) (parts_view parts.old)) result }
    {
        if field.name.as_str() == member.name.as_str() {
            self.read_field(field, parts, member)
        } else {
            unknown_name(self.rules, member.at)
        }
    }
}
