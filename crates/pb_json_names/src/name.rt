//! The name that a field of a descriptor set is given in JSON.

ghost use Rattle.std.specs.Prelude.{◌≡◌, ◌&&◌, not, option_map};
ghost use Rattle.std.specs.Str.{bytes_eq};
ghost use Rattle.pb_value.specs.View.{value_view};
ghost use Rattle.pb_json.specs.JsonNames.{lower_camel};
ghost use Rattle.pb_json_names.specs.Name.{name_in, natural, other_name};

use crate::held::{last_bytes, name_at};
use pb_json::names::is_camel;
use pb_value::Value;

/// The number of `FieldDescriptorProto.json_name`.
const JSON_NAME: u32 = 10;

/// The name that a field is given.
pub(crate) fn name_in(field: &Value) -> Option<&str>
    ensures { option_map (λ s. s.now) result ≡ name_in (value_view field.now) }
{
    match last_bytes(field, JSON_NAME) {
        Some(bytes) => other_name(name_at(field, 1), bytes),
        None => None,
    }
}

/// Bytes as a name, if they are one, and another than the declared one in lowerCamelCase.
fn other_name<'a>(declared: &str, bytes: &'a [u8]) -> Option<&'a str>
    ensures { option_map (λ s. s.now) result ≡ other_name declared.now bytes.now }
{
    if bytes.is_empty() || is_camel(declared.as_bytes(), bytes) {
        return None;
    }
    match simdutf8::basic::from_utf8(bytes) {
        Ok(name) => Some(name),
        Err(_) => None,
    }
}

/// The number of a field, if it is none below 0.
pub(crate) fn natural(number: i32) -> Option<u32>
    ensures { result ≡ natural number }
{
    if number < 0 {
        None
    } else {
        Some(number as u32)
    }
}
