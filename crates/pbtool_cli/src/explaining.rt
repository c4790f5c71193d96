//! What each command does that explains its refusals.

ghost use Rattle.std.specs.Prelude.{◌≡◌, ◌≢◌, ℕ, List, [], MatchResult};
ghost use Rattle.pbtool_cli.specs.Explained.{DoesExplained, WithMore};
ghost use Rattle.pbtool_files.specs.FileMap.{IsHonest};
ghost use Rattle.pbtool_files.specs.Refusal.{refusal_line, refusal_status};
ghost use Rattle.pbtool_hints.specs.Lines.{AreLines};
ghost use Rattle.pb_output.specs.Sending.{Cut, Sent, SentOrCut};

use pb_output::Sink;
use pb_wire::Output;
use pbtool_command::{Cleanup, Command, Source, perform};
use pbtool_files::{Files, Refusal};
use pbtool_hints::{Subject, TypeOf, explain};
use std::alloc::Global;

/// Does a command as `execute_then` does. Where an input is refused, its line is followed by lines for a person: the files are read
/// again for them.
pub fn execute_explained<F: Files, O: Output, E: Output>(
    alloc: Global,
    cleanup: Cleanup,
    command: &Command<'_>,
    files: &mut F,
    out: &mut O,
    err: &mut E,
) -> u8
    // The status, what is printed and the first line are those of the command that explains nothing.
    ensures done { DoesExplained F.contents F.failures files.old
        (Sent O.written O.failures out.old out.new) (Cut O.written O.failures out.old out.new)
        (SentOrCut E.written E.failures err.old err.new) result
        (IsHonest F.contents F.is_steady files.old) command.now }
    ensures status { result ≢ 2 }

    // What is not refused is not explained.
    ensures quiet { result ≡ 0 → Sent E.written E.failures err.old err.new [] }
{
    let outcome = perform(alloc, cleanup, command, files, out);
    conclude(alloc, command, outcome, files, err)
}

/// Reports a refusal and explains it, and answers the exit status.
fn conclude<F: Files, E: Output>(
    alloc: Global,
    command: &Command<'_>,
    outcome: Result<(), Refusal<'_>>,
    files: &mut F,
    err: &mut E,
) -> u8
    ensures { MatchResult outcome.entry (λ _. (result ≡ 0)
        × Sent E.written E.failures err.old err.new [])
        (λ e. (result ≡ refusal_status e) × WithMore
        (SentOrCut E.written E.failures err.old err.new) (refusal_line e)) }
{
    match outcome {
        Ok(()) => 0,
        Err(refusal) => report(alloc, command, &refusal, files, err),
    }
}

/// Writes the line of a refusal and what explains it, and answers the exit status.
fn report<F: Files, E: Output>(
    alloc: Global,
    command: &Command<'_>,
    refusal: &Refusal<'_>,
    files: &mut F,
    err: &mut E,
) -> u8
    ensures status { result ≡ refusal_status refusal.now }
    ensures reported { WithMore (SentOrCut E.written E.failures err.old err.new)
        (refusal_line refusal.now) }
{
    write_explained(alloc, command, refusal, files, err);
    refusal.status()
}

/// Writes the line of a refusal and what explains it. Where the line cannot be written, nothing follows.
fn write_explained<F: Files, E: Output>(
    alloc: Global,
    command: &Command<'_>,
    refusal: &Refusal<'_>,
    files: &mut F,
    err: &mut E,
)
    ensures { WithMore (SentOrCut E.written E.failures err.old err.new) (refusal_line refusal.now) }
{
    match refusal.write(err) {
        Ok(()) => write_reasons(alloc, command, refusal, files, err),
        Err(_) => {}
    }
}

/// Writes what explains a refusal.
fn write_reasons<F: Files, E: Output>(
    alloc: Global,
    command: &Command<'_>,
    refusal: &Refusal<'_>,
    files: &mut F,
    err: &mut E,
)
    ensures { (more : List ℕ) × AreLines more × SentOrCut E.written E.failures err.old err.new more }
{
    let lines = explain(alloc, subject_of(command), refusal, files);
    write_bytes(lines.as_slice(), err);
}

fn write_bytes<E: Output>(bytes: &[u8], err: &mut E)
    ensures { SentOrCut E.written E.failures err.old err.new bytes.now }
{
    let mut sink = Sink::new();
    sink.put(err, bytes);
    match sink.finish(err) {
        Ok(()) => {}
        Err(_) => {}
    }
}

/// What a command reads.
fn subject_of<'a>(command: &Command<'a>) -> Subject<'a> {
    match command {
        Command::Raw { form: _, file } => Subject::Records { file },
        Command::Check { source }
        | Command::Show { floats: _, source }
        | Command::Canon { out: _, source }
        | Command::Json { layout: _, source }
        | Command::Text { form: _, source }
        | Command::FromJson {
            rules: _,
            out: _,
            source,
        }
        | Command::Frames { form: _, source }
        | Command::AllFrames { form: _, source } => messages(source),
        Command::Types {
            reading,
            set,
            name: _,
        } => Subject::Set {
            reading: *reading,
            file: set,
        },
        Command::Compile {
            roots,
            out: _,
            names: _,
        } => Subject::Sources {
            reading: roots.reading,
            root: roots.root,
            others: roots.others,
        },
        Command::Compat { comparison } => Subject::Set {
            reading: comparison.reading,
            file: comparison.new,
        },
    }
}

fn messages<'a>(source: &Source<'a>) -> Subject<'a> {
    Subject::Messages {
        message_type: TypeOf {
            reading: source.reading,
            set: source.set,
            name: source.type_name,
        },
        file: source.file,
    }
}
