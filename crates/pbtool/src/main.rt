//! The program: does the command that its words name, over the files and outputs of its process, and the
//! sources of protobuf's well-known types.
#![tactic(auto)]

use pb_wire::{Output, ReadInput, WriteOutput, write_all};
use pbtool_cli::{Cleanup, HostFiles, Refusal, StandardFiles, run_then};
use pbtool_layers::{Overlay, Progress, built_in_files, with_built_in};
use std::io::{ErrorKind, IsTerminal};
use std::process::ExitCode;
use std::{env, io};

fn main(rt: HostRuntime) -> ExitCode {
    let mut err = WriteOutput::new(rt.stderr());
    let args: Vec<String> = match command_line(&rt) {
        Ok(args) => args,
        Err(error) => return ExitCode::from(tell_unread(&error, &mut err)),
    };
    let input = ReadInput::new(rt.stdin());
    let output = WriteOutput::new(rt.stdout());
    let standard = StandardFiles::new(HostFiles::new(&rt), input, output);
    let Ok(built_in) = built_in_files(rt.alloc()) else {
        return ExitCode::from(Refusal::Memory.tell(&mut err));
    };
    let counted = Progress::new(&rt, standard, wants_progress(&rt, &args));
    let mut files = Overlay::new(counted, &built_in);
    let mut out = WriteOutput::new(rt.stdout());
    let status = run_then(
        rt.alloc(),
        Cleanup::LeaveToSystem,
        args.as_slice(),
        &mut files,
        &mut out,
        &mut err,
    );
    ExitCode::from(status)
}

/// Whether standard error is a terminal, and no other one shows what is printed of the input as it is read.
fn wants_progress(rt: &HostRuntime, args: &[String]) -> bool {
    rt.stderr().is_terminal() && (prints_last(args) || !rt.stdout().is_terminal())
}

/// Whether the command prints nothing before it has read its input.
fn prints_last(args: &[String]) -> bool {
    match args.get(1) {
        Some(word) => word.as_str() != "raw" && word.as_str() != "frames",
        None => false,
    }
}

/// The words of the command line, the program's name first, with the folder that is built in.
fn command_line(rt: &HostRuntime) -> io::Result<Vec<String>> {
    let args = env::args(rt)?.collect(rt.alloc())?;
    let words = with_built_in(rt.alloc(), args)?;
    Ok(words)
}

/// Tells why the words were not read, and answers the exit status.
fn tell_unread<E: Output>(error: &io::Error, err: &mut E) -> u8 {
    if error.kind() == ErrorKind::OutOfMemory {
        return Refusal::Memory.tell(err);
    }
    let _ = write_all(err, b"error: a word of the command line is not UTF-8\n");
    2
}
