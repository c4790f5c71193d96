//! Field masks.

ghost use Rattle.std.specs.Prelude.{◌≡◌, false};
ghost use Rattle.std.specs.List.{flat_map};
ghost use Rattle.pb_value.specs.View.{content_view, fields_view, values_view};
ghost use Rattle.pb_json.specs.Held.{strings_at, strings_held, strings_of};
ghost use Rattle.pb_json.specs.JsonText.{string_byte, string_text};
ghost use Rattle.pb_json.specs.Masks.{are_paths, is_path, is_path_from, mask_text, may_follow};
ghost use Rattle.pb_json.specs.Refusals.{mask_cause, unless};
ghost use Rattle.pb_json.specs.declared.error.JsonCause.TheVariants as cause;
ghost use Rattle.pb_output.specs.Sink.{Puts};

use crate::error::JsonCause;
use crate::held::string_of;
use crate::names::put_camel_bytes;
use crate::strings::put_separator;
use pb_output::Sink;
use pb_value::{Content, Value};
use pb_wire::Output;
use std::collections::BTreeMap;

/// The number of the field that holds the paths.
const PATHS: u32 = 1;

/// What is wrong with a `google.protobuf.FieldMask` of these fields.
pub(crate) fn mask_cause(fields: &BTreeMap<u32, Content>) -> Option<JsonCause>
    ensures { result ≡ mask_cause (fields_view fields.now.entries) }
{
    match fields.get(&PATHS) {
        Some(content) => held_cause(content),
        None => None,
    }
}

fn held_cause(content: &Content) -> Option<JsonCause>
    ensures { result ≡ unless (are_paths (strings_held (content_view content.now))) cause.BadPath }
{
    match content {
        Content::List(values) => paths_cause(values),
        Content::One(_) | Content::Map(_) => None,
    }
}

fn paths_cause(values: &Vec<Value>) -> Option<JsonCause>
    ensures { result ≡ unless (are_paths (strings_of (values_view values.now.items))) cause.BadPath }
{
    for value in values {
        if !is_path(string_of(value)) {
            return Some(JsonCause::BadPath);
        }
    }
    None
}

/// Whether a path is read back from lowerCamelCase.
fn is_path(path: &[u8]) -> bool
    ensures { result ≡ is_path path.now }
{
    !path.is_empty() && is_path_from(path)
}

/// Whether no byte is where it may not be.
fn is_path_from(path: &[u8]) -> bool
    ensures { result ≡ is_path_from false path.now }
{
    let mut is_after = false;
    for byte in path {
        if !may_follow(is_after, *byte) {
            return false;
        }
        is_after = *byte == b'_';
    }
    !is_after
}

/// Whether a byte may come, after an underscore or not.
fn may_follow(is_after: bool, byte: u8) -> bool
    ensures { result ≡ may_follow is_after byte }
{
    if is_after {
        byte.is_ascii_lowercase()
    } else {
        !(byte.is_ascii_uppercase() || byte == b',')
    }
}

/// A `google.protobuf.FieldMask` of these fields.
pub(crate) fn put_mask<O: Output>(sink: &mut Sink, out: &mut O, fields: &BTreeMap<u32, Content>)
    ensures { Puts O.written O.failures out.old out.new sink.old sink.new
        (string_text (mask_text (strings_at 1 (fields_view fields.now.entries)))) }
{
    sink.put(out, b"\"");
    put_inside(sink, out, fields);
    sink.put(out, b"\"");
}

/// The paths, joined by commas.
fn put_inside<O: Output>(sink: &mut Sink, out: &mut O, fields: &BTreeMap<u32, Content>)
    ensures { Puts O.written O.failures out.old out.new sink.old sink.new
        (flat_map string_byte (mask_text (strings_at 1 (fields_view fields.now.entries)))) }
{
    match fields.get(&PATHS) {
        Some(content) => put_held(sink, out, content),
        None => {}
    }
}

fn put_held<O: Output>(sink: &mut Sink, out: &mut O, content: &Content)
    ensures { Puts O.written O.failures out.old out.new sink.old sink.new
        (flat_map string_byte (mask_text (strings_held (content_view content.now)))) }
{
    match content {
        Content::List(values) => put_paths(sink, out, values),
        Content::One(_) | Content::Map(_) => {}
    }
}

fn put_paths<O: Output>(sink: &mut Sink, out: &mut O, values: &Vec<Value>)
    ensures { Puts O.written O.failures out.old out.new sink.old sink.new
        (flat_map string_byte (mask_text (strings_of (values_view values.now.items)))) }
{
    let mut is_first = true;
    for value in values {
        put_separator(sink, out, is_first);
        put_camel_bytes(sink, out, string_of(value));
        is_first = false;
    }
}
