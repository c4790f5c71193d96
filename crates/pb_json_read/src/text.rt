//! A JSON text as a message.

ghost use Rattle.std.specs.Prelude.{◌≡◌, ◌≢◌, ◌⊎◌, ◌<◌, length, IfOk, IfErr, IsErrAnd, MatchResult};
ghost use Rattle.pb_json_read.specs.Answers.{IsReadAs, IsReadBy, IsRefusedBy, IsRefusedWith};
ghost use Rattle.pb_json_read.specs.declared.error.JsonReadCause.TheVariants.{TooDeep};
ghost use Rattle.pb_json_read.specs.declared.error.JsonReadError.{JsonReadError as ReadError};
ghost use Rattle.pb_json_read.specs.Faults.{fault, out_of_memory};
ghost use Rattle.pb_value.specs.Data.{Message};
ghost use Rattle.pb_value.specs.declared.error.ValueError.TheVariants.{Memory};
ghost use Rattle.pb_value.specs.View.{body_view};
ghost use Rattle.pb_value.specs.WellFormed.{IsWellFormed};

use crate::context::Context;
use crate::depth::with_form;
use crate::error::JsonReadError;
use crate::rules::JsonRules;
use crate::survey::tables_for;
use pb_json::JsonNames;
use pb_json_text::read_value;
use pb_schema::{MessageId, Pool};
use pb_value::DynamicMessage;
use std::alloc::Global;

/// Reads a message of a type from a JSON text, by the proto3 JSON mapping (ProtoJSON format, "JSON representation").
///
/// Fields are named in lowerCamelCase or as declared; null says that a field is absent. The well-known types
/// are read from their own forms. The fault is the first in the order of the text: its byte, counted from 0,
/// is where the name or the value begins that is refused. Bytes that are no JSON text are refused before all
/// else, and after all else a message that has no JSON form itself: one that nests more than 100 levels,
/// counted through each Any.
pub fn read_json<'p>(
    alloc: Global,
    pool: &'p Pool,
    message_type: MessageId,
    bytes: &[u8],
    rules: JsonRules,
) -> Result<DynamicMessage<'p>, JsonReadError>
    requires { message_type.0 < length pool.now.messages }
    ensures of_type { IfOk result (λ m. (m.pool ≡ pool.now) × (m.kind ≡ message_type.0)) }
    ensures read { IfOk result (λ m. IsReadAs pool.now rules message_type.0 bytes.now m.body) }
    ensures fault { IfErr result (λ e. (e ≡ out_of_memory)
        ⊎ IsRefusedWith pool.now rules message_type.0 bytes.now e) }

    // Each message is answered and each fault is reported, unless memory runs out.
    ensures accepted { (v : Message) → IsReadAs pool.now rules message_type.0 bytes.now v
        → MatchResult result (λ m. m.body ≡ v) (λ e. e ≡ out_of_memory) }
    ensures refused { (f : ReadError) → IsRefusedWith pool.now rules message_type.0 bytes.now f
        → IsErrAnd result (λ e. (e ≡ out_of_memory) ⊎ (e ≡ f)) }
{
    read_json_by(
        alloc,
        pool,
        message_type,
        bytes,
        rules,
        &JsonNames::none(alloc),
    )
}

/// Reads a message as `read_json` does. A field that is given a name is read under that name in place of its name in lowerCamelCase.
///
/// The name of a member means the field that is given it, or that is declared by it, or else the first whose name in lowerCamelCase it is.
pub fn read_json_by<'p>(
    alloc: Global,
    pool: &'p Pool,
    message_type: MessageId,
    bytes: &[u8],
    rules: JsonRules,
    names: &JsonNames,
) -> Result<DynamicMessage<'p>, JsonReadError>
    requires { message_type.0 < length pool.now.messages }
    ensures of_type { IfOk result (λ m. (m.pool ≡ pool.now) × (m.kind ≡ message_type.0)) }
    ensures read { IfOk result (λ m. IsReadBy pool.now rules names.now message_type.0
        bytes.now m.body) }
    ensures fault { IfErr result (λ e. (e ≡ out_of_memory)
        ⊎ IsRefusedBy pool.now rules names.now message_type.0 bytes.now e) }

    // Each message is answered and each fault is reported, unless memory runs out.
    ensures accepted { (v : Message) → IsReadBy pool.now rules names.now message_type.0 bytes.now v
        → MatchResult result (λ m. m.body ≡ v) (λ e. e ≡ out_of_memory) }
    ensures refused { (f : ReadError)
        → IsRefusedBy pool.now rules names.now message_type.0 bytes.now f
        → IsErrAnd result (λ e. (e ≡ out_of_memory) ⊎ (e ≡ f)) }
{
    let value = read_value(alloc, bytes)?;
    let tables = tables_for(alloc, pool, names, message_type, &value, bytes.len())?;
    let context = Context {
        alloc,
        pool,
        names,
        tables: &tables,
        rules,
    };
    let body = context.read_message(message_type, &value)?;
    with_form(alloc, pool, message_type, body, value.at)
}
