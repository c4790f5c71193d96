//! Whether closed enums declare the numbers of values.

ghost use Rattle.std.specs.Prelude.{◌≡◌};
ghost use Rattle.pb_value.specs.WellFormed.{datum_declared, datums_declared, holds_declared};
ghost use Rattle.pb_value.specs.View.{value_view, values_view, content_view};

use crate::body::{Content, Value};
use pb_schema::{Kind, Pool};

/// Whether a value of a kind that is a closed enum has a number that the enum declares.
pub(crate) fn is_declared(pool: &Pool, kind: Kind, value: &Value) -> bool
    ensures { result ≡ datum_declared pool.now kind (value_view value.now) }
{
    let Kind::ClosedEnum(id) = kind else {
        return true;
    };
    let Value::Enum(number) = value else {
        return true;
    };
    pool.declares(id, *number)
}

fn are_declared(pool: &Pool, kind: Kind, values: &Vec<Value>) -> bool
    ensures { result ≡ datums_declared pool.now kind (values_view values.now.items) }
{
    for value in values {
        if !is_declared(pool, kind, value) {
            return false;
        }
    }
    true
}

/// Whether each value of a content has such a number. No value of a map is of a closed enum.
pub(crate) fn holds_declared(pool: &Pool, kind: Kind, content: &Content) -> bool
    ensures { result ≡ holds_declared pool.now kind (content_view content.now) }
{
    match content {
        Content::One(value) => is_declared(pool, kind, value),
        Content::List(values) => are_declared(pool, kind, values),
        Content::Map(_) => true,
    }
}
