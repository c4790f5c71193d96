//! Words that clap takes, and that are no command all the same.

ghost use Rattle.std.specs.Prelude.{◌≡◌, ◌++◌, MatchResult, codes, option_map};
ghost use Rattle.clap.specs.Words.{found_of, rows_of, subcommand_rows_of};
ghost use Rattle.pb_output.specs.Sending.{Cut, Sent, SentOrCut};
ghost use Rattle.pb_output.specs.Sink.{Puts};
ghost use Rattle.pbtool_command.specs.CompileAnswer.{texts_of};
ghost use Rattle.pbtool_cli.specs.Misuse.{compile_report, help_report, is_source, is_topic, line_of, report_of};

use crate::command_line::target_of;
use clap::ArgMatches;
use pb_output::Sink;
use pb_wire::{DeviceFault, Output};

/// The commands that `help` has a page of.
const TOPICS: &[&str] = &[
    "raw",
    "check",
    "show",
    "canon",
    "json",
    "text",
    "frames",
    "types",
    "compile",
    "compat",
    "from-json",
    "help",
    "version",
];

/// What is reported where `compile` is given no source, in clap's words.
const NO_SOURCE: &[u8] =
    b"error: the following required arguments were not provided:\n  <FILE>...\n\nUsage: pbtool compile [OPTIONS] <ROOT> <OUT> <FILE>...\n       pbtool compile [OPTIONS] -o <OUT> <ROOT> <FILE>...\n\nFor more information, try '--help'.\n";

/// Why words that clap takes are no command.
#[derive(Clone, Copy)]
pub(crate) enum Misuse<'a> {
    /// `compile` is given no source.
    NoSource,
    /// `compile` would write over this source.
    Overwrites(&'a str),
    /// `help` is asked about this word.
    NoCommand(&'a str),
}

/// Why the words are no command, if they are none.
pub(crate) fn misuse_of<'m>(matches: &'m ArgMatches<'_>) -> Option<Misuse<'m>>
    ensures { option_map line_of result ≡ report_of (subcommand_rows_of matches.now) }
{
    if let Some(inner) = matches.subcommand_matches("compile") {
        return misuse_of_compile(inner);
    }
    if let Some(inner) = matches.subcommand_matches("help") {
        return misuse_of_help(inner);
    }
    None
}

/// Why these words of `compile` are none.
fn misuse_of_compile<'m>(matches: &'m ArgMatches<'_>) -> Option<Misuse<'m>>
    ensures { option_map line_of result ≡ compile_report (rows_of (found_of matches.now)) }
{
    let target = target_of(matches);
    if target.names.is_empty() {
        return Some(Misuse::NoSource);
    }
    if is_source(target.out, target.names) {
        return Some(Misuse::Overwrites(target.out));
    }
    None
}

/// Whether a file is a source: it is among the names, or its own ends as that of a source.
fn is_source(path: &str, names: &[&str]) -> bool
    ensures { result ≡ is_source path.now (texts_of names.now) }
{
    names.contains(&path) || path.as_bytes().ends_with(b".proto")
}

/// Why these words of `help` are no command.
fn misuse_of_help<'m>(matches: &'m ArgMatches<'_>) -> Option<Misuse<'m>>
    ensures { option_map line_of result ≡ help_report (rows_of (found_of matches.now)) }
{
    let Some(word) = matches.get_str("COMMAND") else {
        return None;
    };
    if is_topic(word) {
        return None;
    }
    Some(Misuse::NoCommand(word))
}

/// Whether `help` has a page of it.
fn is_topic(word: &str) -> bool
    ensures { result ≡ is_topic word.now }
{
    TOPICS.contains(&word)
}

impl Misuse<'_> {
    /// Reports it. A failure to write the line is not reported.
    pub(crate) fn report<E: Output>(self, err: &mut E)
        ensures { SentOrCut E.written E.failures err.old err.new (line_of self.entry) }
    {
        let _ = self.write(err);
    }

    /// Writes the line.
    fn write<E: Output>(self, err: &mut E) -> Result<(), DeviceFault>
        ensures { MatchResult result
            (λ _. Sent E.written E.failures err.old err.new (line_of self.entry))
            (λ _. Cut E.written E.failures err.old err.new (line_of self.entry)) }
    {
        let mut sink = Sink::new();
        self.put(&mut sink, err);
        sink.finish(err)
    }

    /// Puts the line.
    fn put<E: Output>(self, sink: &mut Sink, err: &mut E)
        ensures { Puts E.written E.failures err.old err.new sink.old sink.new (line_of self.entry) }
    {
        match self {
            Misuse::NoSource => sink.put(err, NO_SOURCE),
            Misuse::Overwrites(path) => {
                put_quoted(sink, err, path, b"' is a source, and no file to write\n")
            }
            Misuse::NoCommand(word) => put_quoted(sink, err, word, b"' is no command\n"),
        }
    }
}

/// Puts an error that begins with a word.
fn put_quoted<E: Output>(sink: &mut Sink, err: &mut E, word: &str, rest: &[u8])
    ensures { Puts E.written E.failures err.old err.new sink.old sink.new
        (codes "error: '" ++ word.now ++ rest.now) }
{
    sink.put(err, b"error: '");
    sink.put(err, word.as_bytes());
    sink.put(err, rest);
}
