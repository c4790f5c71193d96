//! What a field holds.

ghost use Rattle.std.specs.Prelude.{◌<◌, length, option_map, Some};
ghost use Rattle.pb_json_text.specs.View.{form_view};
ghost use Rattle.pb_schema.specs.Rules.{NamesType};
ghost use Rattle.pb_value.specs.Data.{list, map, message, one};
ghost use Rattle.pb_value.specs.View.{content_view, value_view};
ghost use Rattle.pb_json_read.specs.Answers.{Answers};
ghost use Rattle.pb_json_read.specs.Reads.{ReadsContent, ReadsList, ReadsMap, ReadsMessage, ReadsValue};
ghost use Rattle.pb_json_read.specs.Steps.{Made};

use crate::context::Context;
use crate::error::JsonReadError;
use crate::plain::read_plain;
use pb_json_text::JsonValue;
use pb_schema::{Kind, MessageId, Shape};
use pb_value::{Content, Value};

impl Context<'_> {
    /// What a field holds; nothing where its value is passed over.
    #[cycle(read)]
    pub(crate) fn read_content(
        &self,
        shape: Shape,
        kind: Kind,
        value: &JsonValue,
    ) -> Result<Option<Content>, JsonReadError>
        requires { NamesType (length self.now.pool.now.messages)
            (length self.now.pool.now.enums) kind }
        ensures { Answers (option_map content_view)
            (ReadsContent self.now.pool.now self.now.rules self.now.names.now shape kind
            value.now.at (form_view value.now.form)) result }
    {
        match shape {
            Shape::Implicit => self.read_one(kind, value),
            Shape::Explicit => self.read_one(kind, value),
            Shape::OneofMember(_) => self.read_one(kind, value),
            Shape::List { packed: _ } => self.read_listed(kind, value),
            Shape::Map { key } => self.read_mapped(key, kind, value),
        }
    }

    /// What a field of one value holds.
    #[cycle(read)]
    fn read_one(&self, kind: Kind, value: &JsonValue) -> Result<Option<Content>, JsonReadError>
        requires { NamesType (length self.now.pool.now.messages)
            (length self.now.pool.now.enums) kind }
        ensures { Answers (option_map content_view)
            (Made (ReadsValue self.now.pool.now self.now.rules self.now.names.now
            kind value.now.at (form_view value.now.form))
            (option_map one)) result }
    {
        match self.read_single(kind, value)? {
            Some(one) => Ok(Some(Content::One(one))),
            None => Ok(None),
        }
    }

    /// What a list holds.
    #[cycle(read)]
    pub(crate) fn read_listed(
        &self,
        kind: Kind,
        value: &JsonValue,
    ) -> Result<Option<Content>, JsonReadError>
        requires { NamesType (length self.now.pool.now.messages)
            (length self.now.pool.now.enums) kind }
        ensures { Answers (option_map content_view)
            (Made (ReadsList self.now.pool.now self.now.rules self.now.names.now
            kind value.now.at (form_view value.now.form))
            (λ ds. Some (list ds))) result }
    {
        let values = self.read_list(kind, value)?;
        Ok(Some(Content::List(values)))
    }

    /// What a map holds.
    #[cycle(read)]
    pub(crate) fn read_mapped(
        &self,
        key: Kind,
        kind: Kind,
        value: &JsonValue,
    ) -> Result<Option<Content>, JsonReadError>
        requires { NamesType (length self.now.pool.now.messages)
            (length self.now.pool.now.enums) kind }
        ensures { Answers (option_map content_view)
            (Made (ReadsMap self.now.pool.now self.now.rules self.now.names.now
            key kind value.now.at (form_view value.now.form))
            (λ es. Some (map es))) result }
    {
        let entries = self.read_map(key, kind, value)?;
        Ok(Some(Content::Map(entries)))
    }

    /// A value of a kind; nothing where it is passed over.
    #[cycle(read)]
    pub(crate) fn read_single(
        &self,
        kind: Kind,
        value: &JsonValue,
    ) -> Result<Option<Value>, JsonReadError>
        requires { NamesType (length self.now.pool.now.messages)
            (length self.now.pool.now.enums) kind }
        ensures { Answers (option_map value_view)
            (ReadsValue self.now.pool.now self.now.rules self.now.names.now kind value.now.at
            (form_view value.now.form)) result }
    {
        match kind.message() {
            Some(id) => self.read_inside(id, value),
            None => read_plain(self, kind, value),
        }
    }

    /// A message of a type as a value.
    #[cycle(read)]
    fn read_inside(&self, id: MessageId, value: &JsonValue) -> Result<Option<Value>, JsonReadError>
        requires { id.0 < length self.now.pool.now.messages }
        ensures { Answers (option_map value_view)
            (Made (ReadsMessage self.now.pool.now self.now.rules self.now.names.now
            id.0 value.now.at (form_view value.now.form))
            (λ b. Some (message b))) result }
    {
        let body = self.read_message(id, value)?;
        Ok(Some(Value::Message(body)))
    }
}
