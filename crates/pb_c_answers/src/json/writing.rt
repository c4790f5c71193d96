//! The JSON of a message.

ghost use Rattle.std.specs.Prelude.{◌≡◌, ◌≢◌, ◌⊎◌, None, Some};
ghost use Rattle.pb_json.specs.Answers.{refused_view};
ghost use Rattle.pb_json.specs.Refusals.{Refused, refused};
ghost use Rattle.pb_c_answers.specs.Json.Numbers.{json_number};
ghost use Rattle.pb_c_answers.specs.Json.Writing.{IsJsonLaid, RefusesAs, json_form};

use crate::reporting::{DONE, MEMORY};
use crate::typed::write_out;
use pb_json::{JsonCause, JsonError, JsonForm, JsonNames, Layout, Names, Refusal, write_json};
use pb_value::DynamicMessage;
use pb_wire::{FailurePlan, MemOutput};

/// Why a part of a message has no JSON form.
const JSON_NO_KIND: u32 = 91;

const JSON_NOT_FINITE: u32 = 92;

const JSON_OUT_OF_RANGE: u32 = 93;

const JSON_BAD_PATH: u32 = 94;

const JSON_UNSUPPORTED: u32 = 95;

/// The form that two flags name. Fields have the names that they are given, unless they have the declared ones.
pub fn form_of(declared_names: bool, indented: bool, names: &JsonNames) -> JsonForm<'_>
    ensures { result ≡ json_form declared_names indented names.entry }
{
    JsonForm {
        names: if declared_names {
            Names::Declared
        } else {
            Names::Given(names)
        },
        layout: if indented {
            Layout::Indented
        } else {
            Layout::Compact
        },
    }
}

/// The number of a cause.
fn number_of(cause: JsonCause) -> u32
    ensures { result ≡ json_number cause }
{
    match cause {
        JsonCause::NoKind => JSON_NO_KIND,
        JsonCause::NotFinite => JSON_NOT_FINITE,
        JsonCause::OutOfRange => JSON_OUT_OF_RANGE,
        JsonCause::BadPath => JSON_BAD_PATH,
        JsonCause::Unsupported => JSON_UNSUPPORTED,
    }
}

/// Reports the part that has no JSON form, and answers the number of the cause.
fn tell_refusal(refusal: &Refusal, path: &mut [u32], steps: &mut usize) -> u32
    ensures { RefusesAs (refused_view refusal.now) result path.old path.new steps.new }
{
    let size = refusal.path.len().min(path.len());
    path[..size].copy_from_slice(&refusal.path[..size]);
    *steps = refusal.path.len();
    number_of(refusal.cause)
}

/// Writes the JSON of a message. It is made in memory first, so nothing is written where that runs out.
pub fn write_as_json(
    message: &DynamicMessage<'_>,
    form: JsonForm<'_>,
    out: &mut [u8],
    size: &mut usize,
    path: &mut [u32],
    steps: &mut usize,
) -> u32
    ensures written { result ≡ DONE → IsJsonLaid form.entry message.now out.old out.new size.new }
    ensures unwritten { result ≢ DONE → (out.new ≡ out.old) × (size.new ≡ size.old) }
    ensures formless { result ≢ DONE → result ≢ MEMORY
        → (r : Refused) × (refused message.now ≡ Some r)
        × RefusesAs r result path.old path.new steps.new }
    ensures unreported { (result ≡ DONE) ⊎ (result ≡ MEMORY)
        → (path.new ≡ path.old) × (steps.new ≡ steps.old) }
    ensures accepted { refused message.now ≡ None → (result ≡ DONE) ⊎ (result ≡ MEMORY) }
    ensures refused { (r : Refused) → refused message.now ≡ Some r
        → RefusesAs r result path.old path.new steps.new ⊎ (result ≡ MEMORY) }
{
    let alloc = message.alloc();
    let mut json = MemOutput::new(alloc, usize::MAX, FailurePlan::NEVER);
    match write_json(&mut json, alloc, &message.view(), form) {
        Ok(()) => {
            write_out(json.bytes(), out, size);
            DONE
        }
        Err(JsonError::Refused(refusal)) => tell_refusal(&refusal, path, steps),
        Err(JsonError::Memory | JsonError::Output) => MEMORY,
    }
}
