//! Values of kinds that are no messages.

ghost use Rattle.std.specs.Prelude.{length, option_map};
ghost use Rattle.pb_json_text.specs.View.{form_view};
ghost use Rattle.pb_schema.specs.Rules.{NamesType};
ghost use Rattle.pb_value.specs.Data.{one};
ghost use Rattle.pb_value.specs.View.{content_view, value_view};
ghost use Rattle.pb_json_read.specs.Answers.{Answers};
ghost use Rattle.pb_json_read.specs.Steps.{Made, ReadsScalar};

use crate::context::Context;
use crate::error::JsonReadError;
use crate::passing::without_value;
use crate::values::read_scalar;
use pb_json_text::JsonValue;
use pb_schema::Kind;
use pb_value::{Content, Value};

/// A value of a kind that is no message; nothing where it is passed over.
pub(crate) fn read_plain(
    context: &Context<'_>,
    kind: Kind,
    value: &JsonValue,
) -> Result<Option<Value>, JsonReadError>
    requires { NamesType (length context.now.pool.now.messages)
        (length context.now.pool.now.enums) kind }
    ensures { Answers (option_map value_view)
        (ReadsScalar context.now.pool.now context.now.rules kind value.now.at
        (form_view value.now.form)) result }
{
    match read_scalar(context, kind, &value.form)? {
        Some(read) => Ok(Some(read)),
        None => without_value(context.rules, kind, value),
    }
}

/// What a field of one value holds that is no message.
pub(crate) fn read_plain_one(
    context: &Context<'_>,
    kind: Kind,
    value: &JsonValue,
) -> Result<Option<Content>, JsonReadError>
    requires { NamesType (length context.now.pool.now.messages)
        (length context.now.pool.now.enums) kind }
    ensures { Answers (option_map content_view)
        (Made (ReadsScalar context.now.pool.now context.now.rules kind value.now.at
        (form_view value.now.form)) (option_map one)) result }
{
    match read_plain(context, kind, value)? {
        Some(one) => Ok(Some(Content::One(one))),
        None => Ok(None),
    }
}
