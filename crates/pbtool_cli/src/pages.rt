//! What `help` and `version` print.

ghost use Rattle.std.specs.Prelude.{◌≡◌, ◌≢◌, ◌⊎◌, ℕ, IfSome, List, [], true};
ghost use Rattle.clap.specs.Words.{fault_of};
ghost use Rattle.pbtool_command.specs.CompileAnswer.{texts_of};
ghost use Rattle.pbtool_cli.specs.Misuse.{is_topic};
ghost use Rattle.pbtool_cli.specs.Words.{tool};
ghost use Rattle.pbtool_files.specs.Report.{memory_line};
ghost use Rattle.pb_output.specs.Sending.{Cut, Sent, SentOrCut};
ghost use Rattle.pbtool_cli.specs.Running.{IsPrinted, version_line};

use crate::command_line::out_of_memory;
use crate::words::{PROGRAM, VERSION, definition};
use clap::error::ErrorKind;
use pb_wire::{Output, write_all};
use pbtool_files::{OUTPUT, Refusal};
use std::alloc::{AllocError, Global};

/// The page of a command, or of the program where none is named.
fn page(alloc: Global, command: Option<&str>) -> Result<String, AllocError>
    requires { IfSome command (λ name. is_topic name.now ≡ true) }
{
    match command {
        Some(name) => usage_of(alloc, &[PROGRAM, name, "--help"]),
        None => usage_of(alloc, &[PROGRAM, "--help"]),
    }
}

/// What clap answers to words that it does not take.
fn usage_of(alloc: Global, words: &[&str]) -> Result<String, AllocError>
    requires { fault_of tool (texts_of words.now) ≢ [] }
{
    let definition = definition(alloc)?;
    let error = match definition.try_get_matches_from(words) {
        Ok(_) => unreachable!(),
        Err(error) => error,
    };
    if error.kind() == ErrorKind::OutOfMemory {
        return Err(AllocError);
    }
    error.to_string(alloc)
}

/// Prints the version.
pub(crate) fn print_version<O: Output, E: Output>(out: &mut O, err: &mut E) -> u8
    ensures printed { IsPrinted (Sent O.written O.failures out.old out.new)
        (Cut O.written O.failures out.old out.new)
        (SentOrCut E.written E.failures err.old err.new) result version_line }
    ensures status { result ≢ 2 }
{
    print(b"pbtool 0.1.0\n", out, err)
}

/// Prints the page of a command, or of the program where none is named.
pub(crate) fn print_page<O: Output, E: Output>(
    alloc: Global,
    command: Option<&str>,
    out: &mut O,
    err: &mut E,
) -> u8
    requires { IfSome command (λ name. is_topic name.now ≡ true) }
    ensures printed { ((page : List ℕ) × IsPrinted (Sent O.written O.failures out.old out.new)
        (Cut O.written O.failures out.old out.new)
        (SentOrCut E.written E.failures err.old err.new) result page)
        ⊎ ((result ≡ 3) × Sent O.written O.failures out.old out.new []
        × SentOrCut E.written E.failures err.old err.new memory_line) }
    ensures status { result ≢ 2 }
{
    match page(alloc, command) {
        Ok(page) => print(page.as_bytes(), out, err),
        Err(AllocError) => out_of_memory(err),
    }
}

/// Prints a text, and answers the exit status.
fn print<O: Output, E: Output>(text: &[u8], out: &mut O, err: &mut E) -> u8
    ensures printed { IsPrinted (Sent O.written O.failures out.old out.new)
        (Cut O.written O.failures out.old out.new)
        (SentOrCut E.written E.failures err.old err.new) result text.now }
    ensures status { result ≢ 2 }
{
    match write_all(out, text) {
        Ok(()) => 0,
        Err(_) => Refusal::Device(OUTPUT).tell(err),
    }
}
