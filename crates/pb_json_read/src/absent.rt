//! Whether null is a value, or says that a field is absent.

ghost use Rattle.std.specs.Prelude.{◌≡◌, length, false};
ghost use Rattle.std.specs.Option.{option_map_or};
ghost use Rattle.pb_json.specs.WellKnown.{well_known as form_of};
ghost use Rattle.pb_json_text.specs.View.{form_view};
ghost use Rattle.pb_schema.specs.Kinds.{message_of_kind};
ghost use Rattle.pb_schema.specs.Rules.{NamesType};
ghost use Rattle.pb_json_read.specs.Steps.{has_null, is_absent, takes_null};
ghost use Rattle.pb_json_read.specs.WellKnown.{is_dynamic};

use crate::forms::is_dynamic;
use crate::scalars::is_null_enum;
use pb_json::well_known::well_known;
use pb_json_text::JsonForm;
use pb_schema::{Kind, Pool, Shape};

/// Whether null is a value of a kind.
fn has_null(pool: &Pool, kind: Kind) -> bool
    requires { NamesType (length pool.now.messages) (length pool.now.enums) kind }
    ensures { result ≡ has_null pool.now kind }
{
    match kind.enum_id() {
        Some(id) => is_null_enum(pool, id),
        None => holds_dynamic(pool, kind),
    }
}

/// Whether the messages of a kind are those of `google.protobuf.Value`.
fn holds_dynamic(pool: &Pool, kind: Kind) -> bool
    requires { NamesType (length pool.now.messages) (length pool.now.enums) kind }
    ensures { result ≡ option_map_or (λ m. is_dynamic (form_of pool.now m))
        (message_of_kind kind) false }
{
    match kind.message() {
        Some(id) => is_dynamic(well_known(pool, id)),
        None => false,
    }
}

/// Whether null is a value of a field.
fn takes_null(pool: &Pool, shape: Shape, kind: Kind) -> bool
    requires { NamesType (length pool.now.messages) (length pool.now.enums) kind }
    ensures { result ≡ takes_null pool.now shape kind }
{
    match shape {
        Shape::Implicit | Shape::Explicit | Shape::OneofMember(_) => has_null(pool, kind),
        Shape::List { packed: _ } | Shape::Map { key: _ } => false,
    }
}

/// Whether the value of a field says that the field is absent.
pub(crate) fn is_absent(pool: &Pool, shape: Shape, kind: Kind, form: &JsonForm) -> bool
    requires { NamesType (length pool.now.messages) (length pool.now.enums) kind }
    ensures { result ≡ is_absent pool.now shape kind (form_view form.now) }
{
    matches!(form, JsonForm::Null) && !takes_null(pool, shape, kind)
}
