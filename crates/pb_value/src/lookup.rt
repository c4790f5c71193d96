//! What a pool says of a field.

ghost use Rattle.std.specs.Prelude.{◌≡◌, ◌<◌, length, option_map, IfSome};
ghost use Rattle.pb_schema.specs.Types.{message_fields, field_numbered};
ghost use Rattle.pb_schema.specs.View.{field_view};
ghost use Rattle.pb_schema.specs.Rules.{IsPool, NamesType};

use pb_schema::{Field, MessageId, Pool};

/// The field of a number in a message type. The type that its kind names is one of the pool.
pub(crate) fn field_at(pool: &Pool, message_type: MessageId, number: u32) -> Option<&Field>
    requires { message_type.0 < length pool.now.messages }
    ensures found { option_map (λ f. field_view f.now) result ≡ field_numbered number (message_fields pool.now message_type.0) }
    ensures named { IfSome result (λ f. NamesType (length pool.now.messages) (length pool.now.enums) f.now.kind) }
    ensures rules { IsPool pool.now }
{
    pool.field_by_number(message_type, number)
}
