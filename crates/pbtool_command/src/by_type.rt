//! The message of a type that a file holds.

ghost use Rattle.std.specs.Prelude.{◌≡◌, ◌≢◌, ◌+◌, ◌<◌, ◌⊎◌, true, ℕ, List, Option, Some, None, length, IfOk, IfErr};
ghost use Rattle.pb_wire.specs.Fault.{Fault};
ghost use Rattle.pbtool_files.specs.Answer.{refused, device_failed};
ghost use Rattle.pbtool_files.specs.FileMap.{KeepsMap};
ghost use Rattle.pbtool_files.specs.Refusal.{KeepsFailures, Refuses, names_device};
ghost use Rattle.pbtool_files.specs.Report.{fault_line};
ghost use Rattle.pb_value.specs.WellFormed.{IsWellFormed};
ghost use Rattle.pbtool_command.specs.Answers.{FaultAt, TextAt};
ghost use Rattle.pbtool_files.specs.Known.{IsReadOf, OfFiles, OfInput};
ghost use Rattle.pbtool_command.specs.Steps.{IsMissing};

use pb_decode::{DecodeError, decode_from};
use pb_schema::{MessageId, Pool};
use pb_value::DynamicMessage;
use pb_wire::{Input, Limits};
use pbtool_files::{Files, Refusal, open_file};
use std::alloc::Global;

/// The message of a type that a file holds.
pub fn read_message<'p, 'a, F: Files>(
    alloc: Global,
    pool: &'p Pool,
    message_type: MessageId,
    path: &'a str,
    files: &mut F,
) -> Result<DynamicMessage<'p>, Refusal<'a>>
    requires { message_type.0 < length pool.now.messages }
    ensures of_type { IfOk result (λ m. (m.pool ≡ pool.now) × (m.kind ≡ message_type.0)) }
    ensures read { IfOk result (λ m. IsWellFormed pool.now message_type.0 m.body
        × OfFiles F.contents F.is_steady files.old
        path.entry.now (λ content. TextAt content pool.now message_type.0 m.body)) }
    ensures refused { IfErr result
        (Refuses (λ a. IsMissing F.contents F.is_steady files.old path.entry.now a
        ⊎ ((f : Fault)
        × OfFiles F.contents F.is_steady files.old
        path.entry.now (λ content. FaultAt content pool.now message_type.0 f)
        × (a ≡ refused (fault_line f))))) }
    ensures kept { KeepsFailures F.failures files.old files.new result }
    ensures unfailing { F.is_steady files.old ≡ true → F.failures files.new ≡ F.failures files.old }
    ensures takes_writes { F.takes_writes files.old ≡ true → F.takes_writes files.new ≡ true }
    ensures files { KeepsMap (F.contents files.old) (F.contents files.new) }
{
    let mut input = open_file(path, files)?;
    let message = decode_input(alloc, pool, message_type, path, &mut input)?;
    Ok(message)
}

/// The message of a type that an input holds.
fn decode_input<'p, 'a, I: Input>(
    alloc: Global,
    pool: &'p Pool,
    message_type: MessageId,
    path: &'a str,
    input: &mut I,
) -> Result<DynamicMessage<'p>, Refusal<'a>>
    requires { message_type.0 < length pool.now.messages }
    ensures of_type { IfOk result (λ m. (m.pool ≡ pool.now) × (m.kind ≡ message_type.0)) }
    ensures well { IfOk result (λ m. IsWellFormed pool.now message_type.0 m.body) }
    ensures read { IfOk result (λ m. OfInput I.left I.is_steady
        input.old (λ content. TextAt content pool.now message_type.0 m.body)) }
    ensures refused { IfErr result
        (Refuses (λ a. (OfInput I.left I.is_steady input.old (λ content. content ≡ None)
        × (a ≡ device_failed path.entry.now))
        ⊎ ((f : Fault)
        × OfInput I.left I.is_steady input.old (λ content. FaultAt content pool.now message_type.0
        f) × (a ≡ refused (fault_line f))))) }
    ensures kept { KeepsFailures I.failures input.old input.new result }
    ensures failed { IfErr result (λ e. names_device e ≡ true
        → I.failures input.new ≢ I.failures input.old) }
{
    match decode_from(alloc, pool, message_type, input, Limits::FULL) {
        Ok(message) => {
            let _body = message.body();
            Ok(message)
        }
        Err(DecodeError::Fault { byte, path, cause }) => Err(Refusal::Fault { byte, path, cause }),
        Err(DecodeError::Device) => Err(Refusal::Device(path)),
        Err(DecodeError::Memory | DecodeError::Finished) => Err(Refusal::Memory),
    }
}
