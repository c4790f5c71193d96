//! Which message types have a JSON form of their own.

ghost use Rattle.std.specs.Prelude.{◌≡◌, ◌<◌, length};
ghost use Rattle.pb_schema.specs.Rules.{NamesType};
ghost use Rattle.pb_json.specs.WellKnown.{declares_any, is_null_enum, is_plain, is_wrapper_name, well_known, well_known_named};

use pb_schema::{Kind, MessageId, Pool};

/// The form of a message type.
#[derive(Clone, Copy, Debug, PartialEq, Eq)]
pub enum WellKnown {
    /// An object with a member for each field.
    Other,
    /// What its one field holds, or that field's default.
    Wrapper,
    /// An object.
    Struct,
    /// An array.
    ListValue,
    /// What its one member holds.
    Value,
    /// A string that is a point in time.
    Timestamp,
    /// A string that is a length of time.
    Duration,
    /// A string of the paths.
    FieldMask,
    /// An object with the URL of its type, and the members of the message in it or their form.
    Any,
}

/// What form a message type has.
pub fn well_known(pool: &Pool, id: MessageId) -> WellKnown
    requires { id.0 < length pool.now.messages }
    ensures { result ≡ well_known pool.now id.0 }
{
    well_known_named(pool.message_name(id))
}

fn well_known_named(name: &[u8]) -> WellKnown
    ensures { result ≡ well_known_named name.now }
{
    if is_wrapper_name(name) {
        WellKnown::Wrapper
    } else if name == b"google.protobuf.Struct".as_slice() {
        WellKnown::Struct
    } else if name == b"google.protobuf.ListValue".as_slice() {
        WellKnown::ListValue
    } else if name == b"google.protobuf.Value".as_slice() {
        WellKnown::Value
    } else if name == b"google.protobuf.Timestamp".as_slice() {
        WellKnown::Timestamp
    } else if name == b"google.protobuf.Duration".as_slice() {
        WellKnown::Duration
    } else if name == b"google.protobuf.FieldMask".as_slice() {
        WellKnown::FieldMask
    } else if name == b"google.protobuf.Any".as_slice() {
        WellKnown::Any
    } else {
        WellKnown::Other
    }
}

fn is_wrapper_name(name: &[u8]) -> bool
    ensures { result ≡ is_wrapper_name name.now }
{
    name == b"google.protobuf.DoubleValue".as_slice()
        || name == b"google.protobuf.FloatValue".as_slice()
        || name == b"google.protobuf.Int64Value".as_slice()
        || name == b"google.protobuf.UInt64Value".as_slice()
        || name == b"google.protobuf.Int32Value".as_slice()
        || name == b"google.protobuf.UInt32Value".as_slice()
        || name == b"google.protobuf.BoolValue".as_slice()
        || name == b"google.protobuf.StringValue".as_slice()
        || name == b"google.protobuf.BytesValue".as_slice()
}

/// Whether a kind is the enum whose one value means null.
pub(crate) fn is_null_enum(pool: &Pool, kind: Kind) -> bool
    requires { NamesType (length pool.now.messages) (length pool.now.enums) kind }
    ensures { result ≡ is_null_enum pool.now kind }
{
    match kind.enum_id() {
        Some(id) => pool.enum_name(id) == b"google.protobuf.NullValue".as_slice(),
        None => false,
    }
}

/// Whether a type has no form of its own.
pub fn is_plain(form: WellKnown) -> bool
    ensures { result ≡ is_plain form }
{
    matches!(form, WellKnown::Other)
}

/// Whether some type of a pool is `google.protobuf.Any`.
pub(crate) fn declares_any(pool: &Pool) -> bool
    ensures { result ≡ declares_any pool.now }
{
    pool.message_by_name("google.protobuf.Any").is_some()
}
