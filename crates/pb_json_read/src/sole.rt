//! Messages that are what their one field holds: wrappers, Structs and ListValues.

ghost use Rattle.std.specs.Prelude.{◌<◌, length, option_map, Some};
ghost use Rattle.pb_json_text.specs.View.{form_view};
ghost use Rattle.pb_schema.specs.Rules.{NamesType};
ghost use Rattle.pb_schema.specs.View.{field_view};
ghost use Rattle.pb_value.specs.View.{body_view, content_view};
ghost use Rattle.pb_json_read.specs.Answers.{Answers};
ghost use Rattle.pb_json_read.specs.Forms.{ReadsAlone};
ghost use Rattle.pb_json_read.specs.Reads.{FlatOf, SoleOf};

use crate::construction::alone;
use crate::context::Context;
use crate::error::{JsonReadCause, JsonReadError, refused};
use crate::plain::read_plain_one;
use pb_json_text::JsonValue;
use pb_schema::{Field, Kind, MessageId, Shape};
use pb_value::{Body, Content};

impl Context<'_> {
    /// A message that is what its field 1 holds.
    #[cycle(read)]
    pub(crate) fn read_sole(&self, id: MessageId, value: &JsonValue) -> Result<Body, JsonReadError>
        requires { id.0 < length self.now.pool.now.messages }
        ensures { Answers body_view (SoleOf self.now.pool.now self.now.rules self.now.names.now
            value.now.at (form_view value.now.form) id.0) result }
    {
        match self.pool.field_by_number(id, 1) {
            Some(field) => self.read_alone(field, value),
            None => Err(refused(value.at, JsonReadCause::BadValue)),
        }
    }

    /// A message of one field that holds no message.
    #[cycle(read)]
    fn read_alone(&self, field: &Field, value: &JsonValue) -> Result<Body, JsonReadError>
        requires { NamesType (length self.now.pool.now.messages) (length self.now.pool.now.enums)
            field.now.kind }
        ensures { Answers body_view (ReadsAlone (Some (field_view field.now)) value.now.at
            (FlatOf self.now.pool.now self.now.rules self.now.names.now value.now.at
            (form_view value.now.form))) result }
    {
        let content = self.read_flat(field.shape, field.kind, value)?;
        alone(self.alloc, field.shape, field.number, content)
    }

    /// What a field holds that is no message.
    #[cycle(read)]
    fn read_flat(
        &self,
        shape: Shape,
        kind: Kind,
        value: &JsonValue,
    ) -> Result<Option<Content>, JsonReadError>
        requires { NamesType (length self.now.pool.now.messages)
            (length self.now.pool.now.enums) kind }
        ensures { Answers (option_map content_view)
            (FlatOf self.now.pool.now self.now.rules self.now.names.now value.now.at
            (form_view value.now.form) shape kind) result }
    {
        match shape {
            Shape::Implicit => read_plain_one(self, kind, value),
            Shape::Explicit => read_plain_one(self, kind, value),
            Shape::OneofMember(_) => read_plain_one(self, kind, value),
            Shape::List { packed: _ } => self.read_listed(kind, value),
            Shape::Map { key } => self.read_mapped(key, kind, value),
        }
    }
}
