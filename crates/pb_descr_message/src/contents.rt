//! Contents of fields, as declarations are written.

ghost use Rattle.std.specs.Prelude.{◌≡◌, ◌≤◌, [], true, map, IfOk, option_map};
ghost use Rattle.pb_schema.specs.Scalar.{int32, text};
ghost use Rattle.pb_value.specs.Data.{scalar, one, body};
ghost use Rattle.pb_value.specs.View.{content_view, value_view, body_view};
ghost use Rattle.pb_descr_message.specs.Contents.{entry_view, is_rising};
ghost use Rattle.pb_descr_message.specs.Writing.{a_list, a_mark, fields_with, a_message};

use pb_value::{Body, Content, Value};
use std::alloc::{AllocError, Global};
use std::collections::BTreeMap;

/// A text.
pub(crate) fn text(alloc: Global, name: &str) -> Result<Content, AllocError>
    ensures { IfOk result (λ c. content_view c ≡ one (scalar (text name.now))) }
{
    let owned = String::from_str(alloc, name)?;
    Ok(Content::One(Value::Text(owned)))
}

/// A number.
pub(crate) fn number(number: i32) -> Content
    ensures { content_view result ≡ one (scalar (int32 number)) }
{
    Content::One(Value::I32(number))
}

/// A mark that is written where it is true alone.
pub(crate) fn mark(mark: bool) -> Option<Content>
    ensures { option_map content_view result ≡ a_mark mark }
{
    if mark {
        Some(Content::One(Value::Bool(true)))
    } else {
        None
    }
}

/// A list, where it has an element.
pub(crate) fn list(values: Vec<Value>) -> Option<Content>
    ensures { option_map content_view result ≡ a_list (map value_view values.items) }
{
    if values.is_empty() {
        None
    } else {
        Some(Content::List(values))
    }
}

/// The message of contents by number, some of which are absent.
pub(crate) fn body<const N: usize>(
    alloc: Global,
    contents: [(u32, Option<Content>); N],
) -> Result<Body, AllocError>
    requires few { N ≤ 16 }
    requires rising { is_rising (map entry_view contents) ≡ true }
    ensures { IfOk result (λ b. body_view b ≡ body
        (fields_with (map entry_view contents.entry)) []) }
{
    let mut fields = BTreeMap::new(alloc);
    for (number, content) in contents {
        if let Some(content) = content {
            drop(fields.insert(number, content)?);
        }
    }
    let unknown = Vec::new(alloc);
    Ok(Body { fields, unknown })
}

/// The message of contents by number as a value.
pub(crate) fn message<const N: usize>(
    alloc: Global,
    contents: [(u32, Option<Content>); N],
) -> Result<Value, AllocError>
    requires few { N ≤ 16 }
    requires rising { is_rising (map entry_view contents) ≡ true }
    ensures { IfOk result (λ v. value_view v ≡ a_message (map entry_view contents.entry)) }
{
    let body = body(alloc, contents)?;
    Ok(Value::Message(body))
}
