//! The message that a file holds as JSON, by its type.

ghost use Rattle.std.specs.Prelude.{◌≡◌, ◌⊎◌, ◌<◌, ◌≤◌, [], length, true, IfOk, IfErr};
ghost use Rattle.pb_wire.specs.Limits.{full};
ghost use Rattle.pbtool_files.specs.Answer.{refused};
ghost use Rattle.pbtool_files.specs.FileMap.{IsSaved, IsUnsaved};
ghost use Rattle.pbtool_files.specs.Refusal.{KeepsFailures, Refuses};
ghost use Rattle.pbtool_files.specs.Report.{json_text_line};
ghost use Rattle.pb_json_read.specs.Answers.{IsReadBy, IsRefusedBy};
ghost use Rattle.pb_json_read.specs.Faults.{name_of, out_of_memory};
ghost use Rattle.pb_json_read.specs.declared.error.JsonReadError.{JsonReadError as ReadError};
ghost use Rattle.pbtool_command.specs.FromJsonAnswer.{too_long_line};
ghost use Rattle.pbtool_command.specs.Steps.{Comes, IsNothing, JsonReadAt, JsonReadOf};

use crate::cleanup::{Cleanup, clean_up};
use crate::command::Source;
use crate::form::save_canonical;
use pb_json_read::{JsonReadCause, JsonReadError, JsonRules, read_json_by};
use pb_value::DynamicMessage;
use pb_wire::Limits;
use pbtool_files::{Files, NamedType, Refusal, find_named_type, read_file};
use std::alloc::Global;

/// How JSON is read, and the file for the bytes of its message.
#[derive(Clone, Copy)]
pub struct Conversion<'a> {
    pub rules: JsonRules,
    pub out: &'a str,
}

/// Writes the canonical bytes of the message that a file holds as JSON to a file: whole, or nothing where it is refused.
pub fn from_json<'a, F: Files>(
    alloc: Global,
    cleanup: Cleanup,
    conversion: Conversion<'a>,
    source: &Source<'a>,
    files: &mut F,
) -> Result<(), Refusal<'a>>
    ensures comes { Comes (λ text. text ≡ []) (λ _. ⊥)
        (IsSaved F.contents files.old files.new)
        (IsUnsaved F.contents F.failures files.old files.new)
        (JsonReadOf F.contents F.is_steady files.old conversion.entry.rules conversion.entry.out.now
        source.now) IsNothing result }
    ensures kept { KeepsFailures F.failures files.old files.new result }
    ensures unfailing { F.is_steady files.old ≡ true → F.takes_writes files.old ≡ true
        → F.failures files.new ≡ F.failures files.old }
{
    let named = find_named_type(alloc, source.reading, source.set, source.type_name, files)?;
    let answer = from_json_at(alloc, conversion, &named, source.file, files);
    clean_up(named, cleanup);
    answer
}

/// The same of a message type, with the names that are given to fields.
fn from_json_at<'a, F: Files>(
    alloc: Global,
    conversion: Conversion<'a>,
    named: &NamedType,
    path: &'a str,
    files: &mut F,
) -> Result<(), Refusal<'a>>
    requires { named.now.message_type.0 < length named.now.pool.messages }
    ensures comes { Comes (λ text. text ≡ []) (λ _. ⊥)
        (IsSaved F.contents files.old files.new)
        (IsUnsaved F.contents F.failures files.old files.new)
        (JsonReadAt F.contents F.is_steady files.old conversion.entry.rules named.now.names
        conversion.entry.out.now named.now.pool named.now.message_type.0 path.entry.now)
        IsNothing result }
    ensures kept { KeepsFailures F.failures files.old files.new result }
    ensures unfailing { F.is_steady files.old ≡ true → F.takes_writes files.old ≡ true
        → F.failures files.new ≡ F.failures files.old }
{
    let text = read_file(alloc, Limits::FULL, path, files)?;
    let message = read_text(alloc, conversion.rules, named, text.as_slice())?;
    save_canonical(&message, conversion.out, files)
}

/// The message of a text. One that is too long is refused.
fn read_text<'p, 'a>(
    alloc: Global,
    rules: JsonRules,
    named: &'p NamedType,
    text: &[u8],
) -> Result<DynamicMessage<'p>, Refusal<'a>>
    requires { named.now.message_type.0 < length named.now.pool.messages }
    ensures of_type { IfOk result (λ m. (m.pool ≡ named.now.pool)
        × (m.kind ≡ named.now.message_type.0)) }
    ensures short { IfOk result (λ m. length text.now ≤ full.bytes) }
    ensures read { IfOk result (λ m. IsReadBy named.now.pool rules named.now.names
        named.now.message_type.0 text.now m.body) }
    ensures refused { IfErr result
        (Refuses (λ a. ((full.bytes < length text.now) × (a ≡ refused too_long_line))
        ⊎ ((e : ReadError) × (length text.now ≤ full.bytes)
        × IsRefusedBy named.now.pool rules named.now.names named.now.message_type.0 text.now e
        × (a ≡ refused (json_text_line e.byte (name_of e.cause)))))) }
{
    if text.len() > Limits::FULL.max_bytes() as usize {
        return Err(Refusal::JsonText {
            byte: u64::from(Limits::FULL.max_bytes()),
            cause: "InputTooLarge",
        });
    }
    match read_json_by(
        alloc,
        &named.pool,
        named.message_type,
        text,
        rules,
        &named.names,
    ) {
        Ok(message) => Ok(message),
        Err(error) => Err(refusal_of(error)),
    }
}

/// Why a text is refused.
fn refusal_of<'a>(error: JsonReadError) -> Refusal<'a>
    ensures memory { error ≡ out_of_memory → result ≡ Refusal.Memory }
    ensures reported { Refuses (λ a. a ≡ refused
        (json_text_line error.byte (name_of error.cause))) result }
{
    if error.cause == JsonReadCause::OutOfMemory {
        return Refusal::Memory;
    }
    Refusal::JsonText {
        byte: error.byte as u64,
        cause: error.cause.name(),
    }
}
