//! What is passed over, and what is refused in its place.

ghost use Rattle.std.specs.Prelude.{◌≡◌, option_map, None, true, false, IfOk, IfErr};
ghost use Rattle.pb_json_text.specs.View.{form_view};
ghost use Rattle.pb_value.specs.View.{value_view};
ghost use Rattle.pb_json_read.specs.Answers.{Changes};
ghost use Rattle.pb_json_read.specs.declared.error.JsonReadCause.TheVariants.{BadValue};
ghost use Rattle.pb_json_read.specs.Faults.{fault};
ghost use Rattle.pb_json_read.specs.Steps.{Parts as PartsRead, passes_over, unknown_name};

use crate::error::{JsonReadCause, JsonReadError, refused};
use crate::rules::JsonRules;
use pb_json_text::{JsonForm, JsonValue};
use pb_schema::Kind;
use pb_value::Value;

/// What is read of a member whose name, at this byte, no field has.
pub(crate) fn unknown_name(rules: JsonRules, at: usize) -> Result<(), JsonReadError>
    ensures { (p : PartsRead) → Changes p (λ r. r ≡ unknown_name rules at p) result }
{
    match rules {
        JsonRules::Strict => Err(refused(at, JsonReadCause::UnknownName)),
        JsonRules::Lenient => Ok(()),
    }
}

/// Whether a value that is none of the kind is passed over: a string that names no value of an enum.
fn passes_over(rules: JsonRules, kind: Kind, form: &JsonForm) -> bool
    ensures { result ≡ passes_over rules kind (form_view form.now) }
{
    match rules {
        JsonRules::Strict => false,
        JsonRules::Lenient => kind.enum_id().is_some() && matches!(form, JsonForm::String(_)),
    }
}

/// A value that is none of the kind: passed over, or refused at this byte.
pub(crate) fn without_value(
    rules: JsonRules,
    kind: Kind,
    value: &JsonValue,
) -> Result<Option<Value>, JsonReadError>
    ensures passed { IfOk result (λ read. (option_map value_view read ≡ None)
        × (passes_over rules kind (form_view value.now.form) ≡ true)) }
    ensures refused { IfErr result (λ e. (e ≡ fault value.now.at BadValue)
        × (passes_over rules kind (form_view value.now.form) ≡ false)) }
{
    if passes_over(rules, kind, &value.form) {
        Ok(None)
    } else {
        Err(refused(value.at, JsonReadCause::BadValue))
    }
}
