//! A `google.protobuf.Value`: any JSON value.

ghost use Rattle.std.specs.Prelude.{◌<◌, length, option_map, Some};
ghost use Rattle.pb_json_text.specs.View.{form_view};
ghost use Rattle.pb_schema.specs.Rules.{NamesType};
ghost use Rattle.pb_schema.specs.View.{field_view};
ghost use Rattle.pb_value.specs.Data.{message, one};
ghost use Rattle.pb_value.specs.View.{body_view, content_view, value_view};
ghost use Rattle.pb_json_read.specs.Answers.{Answers};
ghost use Rattle.pb_json_read.specs.Forms.{ReadsAlone};
ghost use Rattle.pb_json_read.specs.Reads.{DeepOf, DynamicOf, NestedOf};
ghost use Rattle.pb_json_read.specs.Steps.{Made, ReadsSingle};

use crate::construction::alone;
use crate::context::Context;
use crate::error::{JsonReadCause, JsonReadError, refused};
use crate::forms::{field_for, is_sole};
use crate::plain::read_plain;
use pb_json::well_known::well_known;
use pb_json_text::JsonValue;
use pb_schema::{Field, Kind, MessageId, Shape};
use pb_value::{Body, Content, Value};

impl Context<'_> {
    /// A message of type `google.protobuf.Value`.
    #[cycle(read)]
    pub(crate) fn read_dynamic(
        &self,
        id: MessageId,
        value: &JsonValue,
    ) -> Result<Body, JsonReadError>
        requires { id.0 < length self.now.pool.now.messages }
        ensures { Answers body_view (DynamicOf self.now.pool.now self.now.rules self.now.names.now
            value.now.at (form_view value.now.form) id.0) result }
    {
        match self.pool.field_by_number(id, field_for(&value.form)) {
            Some(field) => self.read_dynamic_field(field, value),
            None => Err(refused(value.at, JsonReadCause::BadValue)),
        }
    }

    /// A message of one field that may hold a Struct or a ListValue.
    #[cycle(read)]
    fn read_dynamic_field(&self, field: &Field, value: &JsonValue) -> Result<Body, JsonReadError>
        requires { NamesType (length self.now.pool.now.messages) (length self.now.pool.now.enums)
            field.now.kind }
        ensures { Answers body_view (ReadsAlone (Some (field_view field.now)) value.now.at
            (DeepOf self.now.pool.now self.now.rules self.now.names.now value.now.at
            (form_view value.now.form))) result }
    {
        let content = self.read_deep(field.shape, field.kind, value)?;
        alone(self.alloc, field.shape, field.number, content)
    }

    /// What a field holds that may be a Struct or a ListValue.
    #[cycle(read)]
    fn read_deep(
        &self,
        shape: Shape,
        kind: Kind,
        value: &JsonValue,
    ) -> Result<Option<Content>, JsonReadError>
        requires { NamesType (length self.now.pool.now.messages)
            (length self.now.pool.now.enums) kind }
        ensures { Answers (option_map content_view)
            (DeepOf self.now.pool.now self.now.rules self.now.names.now value.now.at
            (form_view value.now.form) shape kind) result }
    {
        match shape {
            Shape::Implicit => self.read_deep_one(kind, value),
            Shape::Explicit => self.read_deep_one(kind, value),
            Shape::OneofMember(_) => self.read_deep_one(kind, value),
            Shape::List { packed: _ } => self.read_listed(kind, value),
            Shape::Map { key } => self.read_mapped(key, kind, value),
        }
    }

    /// What a field of one value holds, which may be a Struct or a ListValue.
    #[cycle(read)]
    fn read_deep_one(&self, kind: Kind, value: &JsonValue) -> Result<Option<Content>, JsonReadError>
        requires { NamesType (length self.now.pool.now.messages)
            (length self.now.pool.now.enums) kind }
        ensures { Answers (option_map content_view)
            (Made (ReadsSingle self.now.pool.now self.now.rules kind value.now.at
            (form_view value.now.form)
            (NestedOf self.now.pool.now self.now.rules self.now.names.now value.now.at
            (form_view value.now.form))) (option_map one)) result }
    {
        match self.read_deep_single(kind, value)? {
            Some(one) => Ok(Some(Content::One(one))),
            None => Ok(None),
        }
    }

    /// A value of a kind, which may be a Struct or a ListValue.
    #[cycle(read)]
    fn read_deep_single(
        &self,
        kind: Kind,
        value: &JsonValue,
    ) -> Result<Option<Value>, JsonReadError>
        requires { NamesType (length self.now.pool.now.messages)
            (length self.now.pool.now.enums) kind }
        ensures { Answers (option_map value_view)
            (ReadsSingle self.now.pool.now self.now.rules kind value.now.at
            (form_view value.now.form)
            (NestedOf self.now.pool.now self.now.rules self.now.names.now value.now.at
            (form_view value.now.form))) result }
    {
        match kind.message() {
            Some(id) => self.read_nested_value(id, value),
            None => read_plain(self, kind, value),
        }
    }

    /// A Struct or a ListValue as a value.
    #[cycle(read)]
    fn read_nested_value(
        &self,
        id: MessageId,
        value: &JsonValue,
    ) -> Result<Option<Value>, JsonReadError>
        requires { id.0 < length self.now.pool.now.messages }
        ensures { Answers (option_map value_view)
            (Made (NestedOf self.now.pool.now self.now.rules self.now.names.now
            value.now.at (form_view value.now.form) id.0)
            (λ b. Some (message b))) result }
    {
        let body = self.read_nested(id, value)?;
        Ok(Some(Value::Message(body)))
    }

    /// A Struct or a ListValue.
    #[cycle(read)]
    fn read_nested(&self, id: MessageId, value: &JsonValue) -> Result<Body, JsonReadError>
        requires { id.0 < length self.now.pool.now.messages }
        ensures { Answers body_view (NestedOf self.now.pool.now self.now.rules self.now.names.now
            value.now.at (form_view value.now.form) id.0) result }
    {
        if is_sole(well_known(self.pool, id)) {
            self.read_sole(id, value)
        } else {
            Err(refused(value.at, JsonReadCause::BadValue))
        }
    }
}
