//! An array as a list.

ghost use Rattle.std.specs.Prelude.{◌≡◌, length, option_map, IfErr, OnOk};
ghost use Rattle.pb_json_text.specs.View.{elements_view, form_view};
ghost use Rattle.pb_schema.specs.Rules.{NamesType};
ghost use Rattle.pb_value.specs.Data.{no_datums};
ghost use Rattle.pb_value.specs.View.{value_view, values_view};
ghost use Rattle.pb_json_read.specs.Answers.{Answers};
ghost use Rattle.pb_json_read.specs.Faults.{out_of_memory};
ghost use Rattle.pb_json_read.specs.Reads.{ReadsElements, ReadsList};
ghost use Rattle.pb_json_read.specs.Steps.{with_datum};

use crate::context::Context;
use crate::error::{JsonReadCause, JsonReadError, refused};
use pb_json_text::{JsonForm, JsonValue};
use pb_schema::Kind;
use pb_value::Value;

/// Puts a value, if there is one, after others.
fn push_some(values: &mut Vec<Value>, value: Option<Value>) -> Result<(), JsonReadError>
    ensures pushed { OnOk result (values_view values.new.items
        ≡ with_datum (values_view values.old.items) (option_map value_view value)) }
    ensures memory { IfErr result (λ e. e ≡ out_of_memory) }
{
    match value {
        Some(value) => {
            values.push(value)?;
            Ok(())
        }
        None => Ok(()),
    }
}

impl Context<'_> {
    /// The values of a list, from an array.
    #[cycle(read)]
    pub(crate) fn read_list(
        &self,
        kind: Kind,
        value: &JsonValue,
    ) -> Result<Vec<Value>, JsonReadError>
        requires { NamesType (length self.now.pool.now.messages)
            (length self.now.pool.now.enums) kind }
        ensures { Answers (λ v. values_view v.items)
            (ReadsList self.now.pool.now self.now.rules self.now.names.now kind value.now.at
            (form_view value.now.form)) result }
    {
        match &value.form {
            JsonForm::Array(items) => self.read_elements(kind, items),
            _ => Err(refused(value.at, JsonReadCause::BadValue)),
        }
    }

    /// The values of the elements of an array.
    #[cycle(read)]
    fn read_elements(&self, kind: Kind, items: &Vec<JsonValue>) -> Result<Vec<Value>, JsonReadError>
        requires { NamesType (length self.now.pool.now.messages)
            (length self.now.pool.now.enums) kind }
        ensures { Answers (λ v. values_view v.items)
            (ReadsElements self.now.pool.now self.now.rules self.now.names.now kind no_datums
            (elements_view items.now.items)) result }
    {
        let mut values = Vec::new(self.alloc);
        for item in items {
            let value = self.read_single(kind, item)?;
            push_some(&mut values, value)?;
        }
        Ok(values)
    }
}
