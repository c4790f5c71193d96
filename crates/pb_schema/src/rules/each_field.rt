//! Rules of each field.

ghost use Rattle.std.specs.Prelude.{◌↔◌, IsTrue, map};
ghost use Rattle.std.specs.List.{AllByRecursion};
ghost use Rattle.pb_schema.specs.View.{message_view, field_view};
ghost use Rattle.pb_schema.specs.Types.{FieldView, MessageView};
ghost use Rattle.pb_schema.specs.Rules.{EachField};

use crate::types::{Field, MessageType};

/// A rule of each field of each message.
pub(crate) trait FieldRule {
    ghost Holds: { Self → MessageView → FieldView → Type 0 };

    fn holds(&self, message: &MessageType, field: &Field) -> bool
        ensures { IsTrue result ↔ Holds self.now (message_view message.now) (field_view field.now) };
}

pub(crate) fn in_each_field<R: FieldRule>(rule: &R, message: &MessageType) -> bool
    ensures { IsTrue result ↔ AllByRecursion (R.Holds rule.now (message_view message.now)) (map field_view message.now.fields.items) }
{
    for field in &message.fields {
        if !rule.holds(message, field) {
            return false;
        }
    }
    true
}

pub(crate) fn each_field<R: FieldRule>(rule: &R, messages: &[MessageType]) -> bool
    ensures { IsTrue result ↔ EachField (R.Holds rule.now) (map message_view messages.now) }
{
    for message in messages {
        if !in_each_field(rule, message) {
            return false;
        }
    }
    true
}
