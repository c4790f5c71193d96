//! What each command does.

ghost use Rattle.std.specs.Prelude.{◌≡◌, ◌≢◌, ℕ, List, [], true, MatchResult};
ghost use Rattle.pbtool_files.specs.Answer.{Ends};
ghost use Rattle.pbtool_command.specs.Answers.{Answers, AnyAnswers, AnyBegins, Begins, Does, canonical_form};
ghost use Rattle.pbtool_files.specs.FileMap.{FileMap, IsHonest, IsSaved, IsUnsaved};
ghost use Rattle.pbtool_files.specs.Report.{device_line};
ghost use Rattle.pbtool_files.specs.Refusal.{KeepsFailures, refusal_line, refusal_status};
ghost use Rattle.pb_output.specs.Sending.{Cut, Sent, SentOrCut};
ghost use Rattle.pbtool_command.specs.Steps.{BegunOf, Comes, RightOf};

use crate::all_frames::all_frames;
use crate::check::check;
use crate::cleanup::Cleanup;
use crate::command::Command;
use crate::compat::compat;
use crate::compile::compile;
use crate::form::Form;
use crate::frames::frames;
use crate::from_json::{Conversion, from_json};
use crate::message::{json, message};
use crate::raw::raw;
use crate::types::types;
use pb_wire::{Limits, Output};
use pbtool_files::{Files, Refusal};
use std::alloc::Global;

/// Does a command: reads its files, writes its output and answers the exit status.
pub fn execute<F: Files, O: Output, E: Output>(
    alloc: Global,
    command: &Command<'_>,
    files: &mut F,
    out: &mut O,
    err: &mut E,
) -> u8
    // Over honest files the answer is the one of their bytes.
    ensures honest { (map : FileMap) → IsHonest F.contents F.is_steady files.old map
        → Ends (Sent O.written O.failures out.old out.new)
        (Cut O.written O.failures out.old out.new)
        (SentOrCut E.written E.failures err.old err.new) (IsSaved F.contents files.old files.new)
        (IsUnsaved F.contents F.failures files.old files.new) result (Answers map command.now)
        (Begins map command.now) }

    // Over any files it has the form of one.
    ensures any { Ends (Sent O.written O.failures out.old out.new)
        (Cut O.written O.failures out.old out.new)
        (SentOrCut E.written E.failures err.old err.new) (IsSaved F.contents files.old files.new)
        (IsUnsaved F.contents F.failures files.old files.new) result (AnyAnswers command.now)
        (AnyBegins command.now) }
    ensures status { result ≢ 2 }

    // Where opening or writing a file failed, the status is 3 and the line names a device. Inputs count
    // their failed reads themselves, of which these clauses do not speak.
    ensures kept { result ≢ 3 → F.failures files.new ≡ F.failures files.old }
    ensures failed { F.failures files.new ≢ F.failures files.old
        → (path : List ℕ) × SentOrCut E.written E.failures err.old err.new (device_line path) }

    // Steady files that take writes do not fail.
    ensures unfailing { F.is_steady files.old ≡ true → F.takes_writes files.old ≡ true
        → F.failures files.new ≡ F.failures files.old }
{
    execute_then(alloc, Cleanup::Free, command, files, out, err)
}

/// Does a command as `execute` does, in a program that goes on or ends after it. Where it ends, the pool and the message of the command
/// are not freed.
pub fn execute_then<F: Files, O: Output, E: Output>(
    alloc: Global,
    cleanup: Cleanup,
    command: &Command<'_>,
    files: &mut F,
    out: &mut O,
    err: &mut E,
) -> u8
    // Over honest files the answer is the one of their bytes, and over any files it has the form of one.
    ensures done { Does (Sent O.written O.failures out.old out.new)
        (Cut O.written O.failures out.old out.new)
        (SentOrCut E.written E.failures err.old err.new) (IsSaved F.contents files.old files.new)
        (IsUnsaved F.contents F.failures files.old files.new) result
        (IsHonest F.contents F.is_steady files.old) command.now }
    ensures status { result ≢ 2 }

    // Where opening or writing a file failed, the status is 3 and the line names a device. Inputs count
    // their failed reads themselves, of which these clauses do not speak.
    ensures kept { result ≢ 3 → F.failures files.new ≡ F.failures files.old }
    ensures failed { F.failures files.new ≢ F.failures files.old
        → (path : List ℕ) × SentOrCut E.written E.failures err.old err.new (device_line path) }

    // Steady files that take writes do not fail.
    ensures unfailing { F.is_steady files.old ≡ true → F.takes_writes files.old ≡ true
        → F.failures files.new ≡ F.failures files.old }
{
    let outcome = perform(alloc, cleanup, command, files, out);
    conclude(outcome, err)
}

/// The work of a command, without the line that reports a refusal.
pub fn perform<'a, F: Files, O: Output>(
    alloc: Global,
    cleanup: Cleanup,
    command: &Command<'a>,
    files: &mut F,
    out: &mut O,
) -> Result<(), Refusal<'a>>
    ensures comes { Comes (Sent O.written O.failures out.old out.new)
        (Cut O.written O.failures out.old out.new)
        (IsSaved F.contents files.old files.new)
        (IsUnsaved F.contents F.failures files.old files.new)
        (RightOf F.contents F.is_steady files.old command.now)
        (BegunOf F.contents F.is_steady files.old command.now) result }
    ensures kept { KeepsFailures F.failures files.old files.new result }
    ensures unfailing { F.is_steady files.old ≡ true → F.takes_writes files.old ≡ true
        → F.failures files.new ≡ F.failures files.old }
{
    match command {
        Command::Raw { form, file } => raw(alloc, Limits::FULL, *form, file, files, out),
        Command::Check { source } => check(alloc, cleanup, source, files, out),
        Command::Show { floats, source } => message(
            alloc,
            cleanup,
            Form::Listing(*floats),
            source,
            files,
            out,
        ),
        Command::Canon { out: to, source } => message(
            alloc,
            cleanup,
            form_of(*to),
            source,
            files,
            out,
        ),
        Command::Json { layout, source } => json(alloc, cleanup, *layout, source, files, out),
        Command::Text { form, source } => {
            message(alloc, cleanup, Form::Text(*form), source, files, out)
        }
        Command::FromJson {
            rules,
            out: to,
            source,
        } => {
            let conversion = Conversion {
                rules: *rules,
                out: to,
            };
            from_json(alloc, cleanup, conversion, source, files)
        }
        Command::Frames { form, source } => frames(alloc, cleanup, *form, source, files, out),
        Command::AllFrames { form, source } => all_frames(
            alloc, cleanup, *form, source, files, out,
        ),
        Command::Types { reading, set, name } => types(
            alloc, cleanup, *reading, set, *name, files, out,
        ),
        Command::Compile {
            roots,
            out: to,
            names,
        } => compile(alloc, *roots, to, names, files),
        Command::Compat { comparison } => compat(alloc, cleanup, comparison, files, out),
    }
}

/// Where canonical bytes go.
fn form_of<'a>(to: Option<&'a str>) -> Form<'a, 'static>
    ensures { result ≡ canonical_form to.entry }
{
    match to {
        None => Form::Canonical,
        Some(path) => Form::CanonicalFile(path),
    }
}

/// Reports a refusal, and answers the exit status.
fn conclude<E: Output>(outcome: Result<(), Refusal<'_>>, err: &mut E) -> u8
    ensures { MatchResult outcome.entry (λ _. (result ≡ 0)
        × Sent E.written E.failures err.old err.new [])
        (λ e. (result ≡ refusal_status e)
        × SentOrCut E.written E.failures err.old err.new (refusal_line e)) }
{
    match outcome {
        Ok(()) => 0,
        Err(refusal) => refusal.tell(err),
    }
}
