//! Whether a file is a message of a type. Nothing is built of it: what is held is the bytes of the file.

ghost use Rattle.std.specs.Prelude.{◌≡◌, ◌≢◌, ◌+◌, ◌++◌, ◌<◌, ◌⊎◌, ℕ, List, Option, Some, None, false, length, true, IfErr, IfOk};
ghost use Rattle.pb_output.specs.Sending.{Cut, Sent};
ghost use Rattle.pb_value.specs.Data.{Message};
ghost use Rattle.pb_value.specs.Derives.{Text};
ghost use Rattle.pb_value.specs.WellFormed.{IsWellFormed};
ghost use Rattle.pb_wire.specs.Fault.{Fault};
ghost use Rattle.pb_wire.specs.Limits.{full};
ghost use Rattle.pbtool_files.specs.Answer.{device_failed, refused};
ghost use Rattle.pbtool_files.specs.FileMap.{IsSaved, IsUnsaved, KeepsMap};
ghost use Rattle.pbtool_files.specs.Known.{IsReadFrom, OfFiles, OfInput};
ghost use Rattle.pbtool_files.specs.Refusal.{KeepsFailures, Refuses, names_device};
ghost use Rattle.pbtool_files.specs.Report.{fault_line};
ghost use Rattle.pbtool_command.specs.Answers.{FaultAt, TextAt};
ghost use Rattle.pbtool_command.specs.Steps.{Comes, IsMissing, IsNoMessage, IsNothing, IsUnfit, MessageAt, MessageOf};
ghost use Rattle.pbtool_command.specs.declared.form.Form.TheVariants.{Check};

use crate::cleanup::{Cleanup, clean_up};
use crate::command::Source;
use crate::form::print_ok;
use pb_decode::{DecodeError, validate};
use pb_schema::{MessageId, Pool};
use pb_wire::{Input, Limits, Output};
use pbtool_files::{FIRST_PIECE, Files, Refusal, find_type, is_cut, open_file, read_on};
use std::alloc::Global;

/// Says that a file is a message: nothing is printed before all of it is judged.
pub fn check<'a, F: Files, O: Output>(
    alloc: Global,
    cleanup: Cleanup,
    source: &Source<'a>,
    files: &mut F,
    out: &mut O,
) -> Result<(), Refusal<'a>>
    ensures comes { Comes (Sent O.written O.failures out.old out.new)
        (Cut O.written O.failures out.old out.new)
        (IsSaved F.contents files.old files.new)
        (IsUnsaved F.contents F.failures files.old files.new)
        (MessageOf F.contents F.is_steady files.old Check source.now) IsNothing result }
    ensures kept { KeepsFailures F.failures files.old files.new result }
    ensures unfailing { F.is_steady files.old ≡ true → F.failures files.new ≡ F.failures files.old }
{
    let (pool, message_type) = find_type(
        alloc,
        source.reading,
        source.set,
        source.type_name,
        files,
    )?;
    let answer = check_at(alloc, &pool, message_type, source.file, files, out);
    clean_up(pool, cleanup);
    answer
}

/// Says that the file at a path is a message of a type.
fn check_at<'a, F: Files, O: Output>(
    alloc: Global,
    pool: &Pool,
    message_type: MessageId,
    path: &'a str,
    files: &mut F,
    out: &mut O,
) -> Result<(), Refusal<'a>>
    requires { message_type.0 < length pool.now.messages }
    ensures comes { Comes (Sent O.written O.failures out.old out.new)
        (Cut O.written O.failures out.old out.new)
        (IsSaved F.contents files.old files.new)
        (IsUnsaved F.contents F.failures files.old files.new)
        (MessageAt F.contents F.is_steady files.old Check pool.now message_type.0 path.entry.now)
        IsNothing result }
    ensures kept { KeepsFailures F.failures files.old files.new result }
    ensures unfailing { F.is_steady files.old ≡ true → F.failures files.new ≡ F.failures files.old }
{
    judge_file(alloc, pool, message_type, path, files)?;
    print_ok(out)
}

/// Judges the file at a path as a message of a type.
fn judge_file<'a, F: Files>(
    alloc: Global,
    pool: &Pool,
    message_type: MessageId,
    path: &'a str,
    files: &mut F,
) -> Result<(), Refusal<'a>>
    requires { message_type.0 < length pool.now.messages }
    ensures valid { IfOk result (λ _. (v : Message) × IsWellFormed pool.now message_type.0 v
        × OfFiles F.contents F.is_steady files.old
        path.entry.now (λ content. TextAt content pool.now message_type.0 v)) }
    ensures refused { IfErr result
        (Refuses (λ a. IsMissing F.contents F.is_steady files.old path.entry.now a
        ⊎ ((f : Fault)
        × OfFiles F.contents F.is_steady files.old
        path.entry.now (λ content. FaultAt content pool.now message_type.0 f)
        × (a ≡ refused (fault_line f))))) }
    ensures kept { KeepsFailures F.failures files.old files.new result }
    ensures unfailing { F.is_steady files.old ≡ true → F.failures files.new ≡ F.failures files.old }
    ensures files { KeepsMap (F.contents files.old) (F.contents files.new) }
{
    let mut input = open_file(path, files)?;
    judge_input(alloc, pool, message_type, path, &mut input)?;
    Ok(())
}

/// Judges an input, to its end, as a message of a type.
fn judge_input<'a, I: Input>(
    alloc: Global,
    pool: &Pool,
    message_type: MessageId,
    path: &'a str,
    input: &mut I,
) -> Result<(), Refusal<'a>>
    requires { message_type.0 < length pool.now.messages }
    ensures valid { IfOk result (λ _. (v : Message) × IsWellFormed pool.now message_type.0 v
        × OfInput I.left I.is_steady input.old (λ content. TextAt content pool.now
        message_type.0 v)) }
    ensures refused { IfErr result
        (Refuses (λ a. (OfInput I.left I.is_steady input.old (λ content. content ≡ None)
        × (a ≡ device_failed path.entry.now))
        ⊎ ((f : Fault)
        × OfInput I.left I.is_steady input.old (λ content. FaultAt content pool.now message_type.0
        f) × (a ≡ refused (fault_line f))))) }
    ensures kept { KeepsFailures I.failures input.old input.new result }
    ensures failed { IfErr result (λ e. names_device e ≡ true
        → I.failures input.new ≢ I.failures input.old) }
{
    let bytes = read_bytes(alloc, pool, message_type, path, input)?;
    judge(alloc, pool, message_type, bytes.as_slice())?;
    Ok(())
}

/// The bytes of an input, but at most one more than a message may have. Where the first of them have a fault
/// that is that of all longer inputs, no more are read.
fn read_bytes<'a, I: Input>(
    alloc: Global,
    pool: &Pool,
    message_type: MessageId,
    path: &'a str,
    input: &mut I,
) -> Result<Vec<u8>, Refusal<'a>>
    requires { message_type.0 < length pool.now.messages }
    ensures read { IfOk result (λ v. IsReadFrom I.left I.is_steady input.old (full.bytes + 1)
        (Some v.items)) }
    ensures refused { IfErr result (Refuses (λ a. (content : Option (List ℕ))
        × IsReadFrom I.left I.is_steady input.old (full.bytes + 1) content
        × IsUnfit pool.now message_type.0 path.entry.now content a)) }
    ensures kept { KeepsFailures I.failures input.old input.new result }
    ensures failed { IfErr result (λ e. names_device e ≡ true
        → I.failures input.new ≢ I.failures input.old) }
{
    let most = Limits::FULL.max_bytes() as usize + 1;
    let first = most.min(FIRST_PIECE);
    let mut bytes = Vec::new(alloc);
    read_on(input, &mut bytes, first, path)?;
    if bytes.len() < first {
        return Ok(bytes);
    }
    judge_first(alloc, pool, message_type, bytes.as_slice())?;
    read_on(input, &mut bytes, most, path)?;
    Ok(bytes)
}

/// Judges the first bytes of an input: fails where they have a fault that is that of all longer inputs.
fn judge_first<'a>(
    alloc: Global,
    pool: &Pool,
    message_type: MessageId,
    bytes: &[u8],
) -> Result<(), Refusal<'a>>
    requires { message_type.0 < length pool.now.messages }
    ensures refused { IfErr result (λ e. (more : List ℕ)
        → Refuses (IsNoMessage pool.now message_type.0 (bytes.now ++ more)) e) }
    ensures no_device { IfErr result (λ e. names_device e ≡ false) }
{
    match validate(alloc, pool, message_type, bytes, Limits::FULL) {
        Ok(()) => Ok(()),
        Err(DecodeError::Memory | DecodeError::Device | DecodeError::Finished) => {
            Err(Refusal::Memory)
        }
        Err(DecodeError::Fault { byte, path, cause }) => {
            if is_cut(cause) {
                return Ok(());
            }
            Err(Refusal::Fault { byte, path, cause })
        }
    }
}

/// Judges bytes as a message of a type.
fn judge<'a>(
    alloc: Global,
    pool: &Pool,
    message_type: MessageId,
    bytes: &[u8],
) -> Result<(), Refusal<'a>>
    requires { message_type.0 < length pool.now.messages }
    ensures valid { IfOk result (λ _. (v : Message) × IsWellFormed pool.now message_type.0 v
        × Text pool.now message_type.0 full bytes.now v) }
    ensures refused { IfErr result (Refuses (IsNoMessage pool.now message_type.0 bytes.now)) }
    ensures no_device { IfErr result (λ e. names_device e ≡ false) }
{
    let _types = pool.messages();
    match validate(alloc, pool, message_type, bytes, Limits::FULL) {
        Ok(()) => Ok(()),
        Err(DecodeError::Fault { byte, path, cause }) => Err(Refusal::Fault { byte, path, cause }),
        Err(DecodeError::Memory | DecodeError::Device | DecodeError::Finished) => {
            Err(Refusal::Memory)
        }
    }
}
