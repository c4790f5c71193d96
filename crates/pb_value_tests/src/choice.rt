//! A caller of oneofs, proved from public clauses alone.

ghost use Rattle.std.specs.Prelude.{◌≡◌, ◌≢◌, ℕ, Some, None, IfOk, OnOk, OnErr};
ghost use Rattle.pb_schema.specs.Types.{message_fields};
ghost use Rattle.pb_value.specs.Data.{fields_of, get_field};
ghost use Rattle.pb_value.specs.WellFormed.{oneof_at};

use pb_schema::Shape;
use pb_value::{Content, DynamicMessage, ValueError};

/// Sets a member of a oneof, and returns which member is set then: that one. Every other one is gone, whatever was there.
/// Where the field is no member, or the content cannot be set, the message is as before.
pub(crate) fn choose(
    message: &mut DynamicMessage<'_>,
    number: u32,
    content: Content,
) -> Result<Option<u32>, ValueError>
    ensures chosen { IfOk result (λ m. m ≡ Some number) }
    ensures alone { let all = message_fields message.old.pool message.old.kind in OnOk result ((o k : ℕ) → oneof_at all number ≡ Some o
        → oneof_at all k ≡ Some o → k ≢ number → get_field k (fields_of message.new.body) ≡ None) }
    ensures refused { OnErr result (message.new ≡ message.old) }
{
    let kind = message.message_type();
    let Some(field) = message.pool().field_by_number(kind, number) else {
        return Err(ValueError::NoSuchField);
    };
    let Shape::OneofMember(oneof) = field.shape else {
        return Err(ValueError::WrongShape);
    };
    message.set(number, content)?;
    // Its contract says that the message is well formed.
    let _ = message.body();
    Ok(message.which_oneof(oneof))
}
