//! The type of a `google.protobuf.Any`: the member `@type`.

ghost use Rattle.std.specs.Prelude.{◌≡◌, ◌<◌, length, option_map, IfSome};
ghost use Rattle.pb_json_text.specs.View.{form_view, members_view};
ghost use Rattle.pb_value.specs.View.{body_view};
ghost use Rattle.pb_json_read.specs.Answers.{Answers};
ghost use Rattle.pb_json_read.specs.Anys.{is_tag, only_tag, tags, untagged, url_meant};
ghost use Rattle.pb_json_read.specs.Steps.{given};
ghost use Rattle.pb_json_read.specs.WellKnown.{string_meant};

use crate::error::{JsonReadCause, JsonReadError, refused};
use pb_json::anys::type_meant;
use pb_json_text::{JsonForm, JsonMember, JsonValue};
use pb_schema::{MessageId, Pool};
use pb_value::Body;
use pb_value::bodies::empty_body;
use std::alloc::Global;

/// Whether a member of this name gives the type.
pub(crate) fn is_tag(name: &str) -> bool
    ensures { result ≡ is_tag name.now }
{
    name == "@type"
}

/// The value of the one member that gives the type, if there is one.
pub(crate) fn find_tag(members: &Vec<JsonMember>) -> Result<Option<&JsonValue>, JsonReadError>
    ensures { Answers (option_map (λ v. (v.now.at, form_view v.now.form))) (λ r. r ≡ only_tag
        (tags (members_view members.now.items))) result }
{
    let mut found = None;
    for member in members {
        if is_tag(member.name.as_str()) {
            if found.is_some() {
                return Err(refused(member.at, JsonReadCause::RepeatedName));
            }
            found = Some(&member.value);
        }
    }
    Ok(found)
}

/// The URL that a value is, and the type of the pool that it names.
pub(crate) fn url_meant<'v>(pool: &Pool, value: &'v JsonValue) -> Option<(&'v str, MessageId)>
    ensures found { option_map (λ u. (u.0.now, u.1.0)) result ≡ string_meant (url_meant pool.now)
        (form_view value.now.form) }
    ensures within { IfSome result (λ u. u.1.0 < length pool.now.messages) }
{
    let JsonForm::String(url) = &value.form else {
        return None;
    };
    match type_meant(pool, url.as_str()) {
        Some(id) => Some((url.as_str(), id)),
        None => None,
    }
}

/// An Any without a type, from an object that begins at this byte: it has no other members either.
pub(crate) fn read_untagged(
    alloc: Global,
    at: usize,
    members: &Vec<JsonMember>,
) -> Result<Body, JsonReadError>
    ensures { Answers body_view (λ r. r ≡ given at
        (untagged (members_view members.now.items))) result }
{
    if members.is_empty() {
        Ok(empty_body(alloc))
    } else {
        Err(JsonReadError::bad_value(at))
    }
}
