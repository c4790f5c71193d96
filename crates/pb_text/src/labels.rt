//! The names before values.

ghost use Rattle.std.specs.Prelude.{◌≡◌, ◌<◌, length, slice_get, Some};
ghost use Rattle.pb_schema.specs.Rules.{NamesType};
ghost use Rattle.pb_schema.specs.View.{message_view};
ghost use Rattle.pb_text.specs.Text.{label_of, name_of_message};

use pb_schema::{Kind, MessageId, MessageType, Pool};

/// The name before a field's value: of a group its type's, and of others the field's.
pub(crate) fn label_of<'a>(pool: &'a Pool, kind: Kind, name: &'a [u8]) -> &'a [u8]
    requires { NamesType (length pool.now.messages) (length pool.now.enums) kind }
    ensures { result.now ≡ label_of pool.now kind name.now }
{
    match kind {
        Kind::Group(id) => name_of_message(pool, id),
        _ => name,
    }
}

/// The name of a message type, without its scope.
fn name_of_message(pool: &Pool, id: MessageId) -> &[u8]
    requires { id.0 < length pool.now.messages }
    ensures { result.now ≡ name_of_message pool.now id.0 }
{
    type_of(pool, id).name.as_str().as_bytes()
}

/// What a pool says of a message type.
fn type_of(pool: &Pool, id: MessageId) -> &MessageType
    requires { id.0 < length pool.now.messages }
    ensures { slice_get pool.now.messages id.0 ≡ Some (message_view result.now) }
{
    &pool.messages()[id.0]
}
