//! One entry less of a map.

ghost use Rattle.std.specs.Prelude.{◌≡◌, option_and_then, option_map};
ghost use Rattle.pb_value.specs.Change.{ChangesFields};
ghost use Rattle.pb_value.specs.Data.{fields_of, get_field};
ghost use Rattle.pb_value.specs.Inner.{datum_under};
ghost use Rattle.pb_value.specs.View.{body_view, content_view, key_view, value_view};
ghost use Rattle.pb_value.specs.Change.{drop_entry, holds_empty_map, in_field, in_map, is_empty_map, remove_at};

use crate::body::{Body, Content, MapKey, Value};
use crate::change::clear_field;

/// Takes the value under a key out of a content that is a map.
fn take_from(content: &mut Content, key: &MapKey) -> Option<Value>
    ensures left { content_view content.new ≡ in_map (drop_entry (key_view key.now))
        (content_view content.old) }
    ensures taken { option_map value_view result
        ≡ datum_under (key_view key.now) (content_view content.old) }
{
    match content {
        Content::Map(entries) => entries.remove(key),
        _ => None,
    }
}

/// Takes the value under a key out of the map of a number. The map that is left may be empty.
fn take_entry(body: &mut Body, number: u32, key: &MapKey) -> Option<Value>
    ensures left { ChangesFields (in_field (in_map (drop_entry (key_view key.now))) number)
        (body_view body.old) (body_view body.new) }
    ensures taken { option_map value_view result
        ≡ option_and_then (datum_under (key_view key.now))
        (get_field number (fields_of (body_view body.old))) }
{
    match body.fields.get_mut(&number) {
        Some(content) => take_from(content, key),
        None => None,
    }
}

/// Whether a content is an empty map.
fn is_empty_map(content: &Content) -> bool
    ensures { result ≡ is_empty_map (content_view content.now) }
{
    match content {
        Content::Map(entries) => entries.is_empty(),
        _ => false,
    }
}

/// Whether the field of a number holds an empty map.
fn has_empty_map(body: &Body, number: u32) -> bool
    ensures { result ≡ holds_empty_map (get_field number (fields_of (body_view body.now))) }
{
    match body.fields.get(&number) {
        Some(content) => is_empty_map(content),
        None => false,
    }
}

/// Takes the value under a key out of the map of a number, and the map with it if no entry is left. A well-formed message stays so.
pub(crate) fn remove_entry(body: &mut Body, number: u32, key: &MapKey) -> Option<Value>
    ensures left { ChangesFields (remove_at number (key_view key.now)) (body_view body.old)
        (body_view body.new) }
    ensures taken { option_map value_view result
        ≡ option_and_then (datum_under (key_view key.now))
        (get_field number (fields_of (body_view body.old))) }
{
    let taken = take_entry(body, number, key);
    if has_empty_map(body, number) {
        clear_field(body, number);
    }
    taken
}
