//! Whether a message that was read nests too deep, or has no JSON form.

ghost use Rattle.std.specs.Prelude.{◌≡◌, ◌≢◌, ◌⊎◌, ◌<◌, length, IfOk, IfErr};
ghost use Rattle.pb_json_read.specs.Answers.{HasForm, IsUnfit};
ghost use Rattle.pb_json_read.specs.declared.error.JsonReadCause.TheVariants.{TooDeep};
ghost use Rattle.pb_json_read.specs.Faults.{cause_of_form, fault, fault_of_form, out_of_memory};
ghost use Rattle.pb_value.specs.declared.error.ValueError.TheVariants.{Memory};
ghost use Rattle.pb_value.specs.View.{body_view};
ghost use Rattle.pb_value.specs.WellFormed.{IsWellFormed};

use crate::error::{JsonReadCause, JsonReadError, refused};
use pb_json::{JsonCause, JsonError, judge_json};
use pb_schema::{MessageId, Pool};
use pb_value::{Body, DynamicMessage, ValueError};
use std::alloc::Global;

/// The fault of a message that is not well formed; its text begins at this byte.
fn not_well_formed(error: ValueError, at: usize) -> JsonReadError
    ensures { ((error ≡ Memory) × (result ≡ out_of_memory))
        ⊎ ((error ≢ Memory) × (result ≡ fault at TooDeep)) }
{
    match error {
        ValueError::Memory => JsonReadError::out_of_memory(),
        _ => JsonReadError {
            byte: at,
            cause: JsonReadCause::TooDeep,
        },
    }
}

/// The message of a body, unless it nests too deep; its text begins at this byte.
pub(crate) fn within_depth<'p>(
    alloc: Global,
    pool: &'p Pool,
    message_type: MessageId,
    body: Body,
    at: usize,
) -> Result<DynamicMessage<'p>, JsonReadError>
    requires { message_type.0 < length pool.now.messages }
    ensures made { IfOk result (λ m.
        m ≡ record { pool = pool.now; kind = message_type.0; body = body_view body }) }
    ensures well_formed { IfOk result (λ m. IsWellFormed pool.now message_type.0 (body_view body)) }
    ensures refused { IfErr result (λ e. (e ≡ out_of_memory)
        ⊎ ((¬ IsWellFormed pool.now message_type.0 (body_view body)) × (e ≡ fault at TooDeep))) }
{
    match DynamicMessage::from_body(alloc, pool, message_type, body) {
        Ok(message) => Ok(message),
        Err(error) => Err(not_well_formed(error, at)),
    }
}

/// The cause where a message that was read has no JSON form.
fn cause_of_form(cause: JsonCause) -> JsonReadCause
    ensures { result ≡ cause_of_form cause }
{
    match cause {
        JsonCause::Unsupported => JsonReadCause::TooDeep,
        JsonCause::NoKind => JsonReadCause::BadValue,
        JsonCause::NotFinite => JsonReadCause::BadValue,
        JsonCause::OutOfRange => JsonReadCause::BadValue,
        JsonCause::BadPath => JsonReadCause::BadValue,
    }
}

/// The fault of a message that is not written; its text begins at this byte.
fn without_form(error: JsonError, at: usize) -> JsonReadError
    ensures { result ≡ fault_of_form at error }
{
    match error {
        JsonError::Refused(refusal) => refused(at, cause_of_form(refusal.cause)),
        JsonError::Memory => JsonReadError::out_of_memory(),
        JsonError::Output => JsonReadError::out_of_memory(),
    }
}

/// The message of a body, unless it nests too deep or has no JSON form; its text begins at this byte.
pub(crate) fn with_form<'p>(
    alloc: Global,
    pool: &'p Pool,
    message_type: MessageId,
    body: Body,
    at: usize,
) -> Result<DynamicMessage<'p>, JsonReadError>
    requires { message_type.0 < length pool.now.messages }
    ensures made { IfOk result (λ m.
        m ≡ record { pool = pool.now; kind = message_type.0; body = body_view body }) }
    ensures well_formed { IfOk result (λ m. IsWellFormed pool.now message_type.0 (body_view body)) }
    ensures has_form { IfOk result (λ m. HasForm pool.now message_type.0 (body_view body)) }
    ensures refused { IfErr result (λ e.
        (e ≡ out_of_memory) ⊎ IsUnfit pool.now message_type.0 at (body_view body) e) }
{
    let message = within_depth(alloc, pool, message_type, body, at)?;
    let judged = judge_json(alloc, &message.view());
    match judged {
        Ok(()) => Ok(message),
        Err(error) => Err(without_form(error, at)),
    }
}
