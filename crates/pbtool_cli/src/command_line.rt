//! From the words of the command line to the exit status.

ghost use Rattle.std.specs.Prelude.{◌≡◌, ◌≢◌, ◌⊎◌, ℕ, List, [], codes, true, false, Any, IfSome, IsSome, None, Some};
ghost use Rattle.clap.specs.Words.{fault_of, found_of, is_simple_and_free, kind_of, rows_of, subcommand_name_of, subcommand_of, subcommand_rows_of};
ghost use Rattle.pbtool_command.specs.Answers.{Does};
ghost use Rattle.pbtool_command.specs.CompileAnswer.{texts_of};
ghost use Rattle.pbtool_files.specs.FileMap.{IsHonest, IsSaved, IsUnsaved};
ghost use Rattle.pbtool_files.specs.Report.{device_line, memory_line};
ghost use Rattle.pb_output.specs.Sending.{Cut, Sent, SentOrCut};
ghost use Rattle.pbtool_cli.specs.Misuse.{report_of};
ghost use Rattle.pbtool_cli.specs.Running.{DoesBy, DoesNamed, IsNoCommand, RefusesWords, ReportsMisuse};
ghost use Rattle.pbtool_cli.specs.Explained.{DoesExplained};
ghost use Rattle.pbtool_cli.specs.Words.{AreJsonRules, AreRoots, IsFrameForm, IsMatched, IsRawForm, IsSource, ShowsFrames, flag_of, floats_of, layout_of, output_of, reading_of, sources_of, text_form_of};
ghost use Rattle.pbtool_cli.specs.Words.{IsComparison, is_explained, readers_of, value_of, values_of, tool, tool_names, words_of};

use crate::explaining::execute_explained;
use crate::misuse::misuse_of;
use crate::pages::{print_page, print_version};
use crate::words::definition;
use clap::error::ErrorKind;
use clap::{ArgMatches, Error};
use pb_text::{Characters, Layout as TextLayout, TextForm, UnknownRecords};
use pb_wire::{Output, write_all};
use pbtool_command::{
    Cleanup, Command, Comparison, Files, FloatForm, FrameForm, JsonRules, Layout, RawForm, Readers,
    Reading, Refusal, Roots, Source, execute_then,
};
use std::alloc::Global;

/// Reads the words, the program's name first, does the command that they name and answers the exit status: 2 where
/// the words are no command, with the usage on standard error.
pub fn run<F: Files, O: Output, E: Output>(
    alloc: Global,
    args: &[String],
    files: &mut F,
    out: &mut O,
    err: &mut E,
) -> u8
    // Where clap takes the words and nothing else is wrong with them, what they name is done, unless memory runs out before.
    ensures taken { fault_of tool (words_of args.now) ≡ []
        → report_of (subcommand_of tool (words_of args.now)) ≡ None
        → DoesNamed (Sent O.written O.failures out.old out.new)
        (Cut O.written O.failures out.old out.new) (SentOrCut E.written E.failures err.old err.new)
        (IsSaved F.contents files.old files.new)
        (IsUnsaved F.contents F.failures files.old files.new) result
        (IsHonest F.contents F.is_steady files.old)
        (DoesExplained F.contents F.failures files.old (Sent O.written O.failures out.old out.new)
        (Cut O.written O.failures out.old out.new)
        (SentOrCut E.written E.failures err.old err.new) result
        (IsHonest F.contents F.is_steady files.old)) (subcommand_of tool (words_of args.now)) }

    // Where something else is wrong with them, it is reported.
    ensures misused { fault_of tool (words_of args.now) ≡ []
        → IfSome (report_of (subcommand_of tool (words_of args.now)))
        (ReportsMisuse (Sent O.written O.failures out.old out.new)
        (SentOrCut E.written E.failures err.old err.new)
        (IsSaved F.contents files.old files.new) result) }

    // Where they are not taken, nothing goes to standard output.
    ensures refused { fault_of tool (words_of args.now) ≢ []
        → RefusesWords (Sent O.written O.failures out.old out.new)
        (SentOrCut E.written E.failures err.old err.new)
        (IsSaved F.contents files.old files.new) result }
    ensures usage { result ≡ 2 → IsNoCommand (words_of args.now) }
    // The command line is one whose words are judged as clap says, so that the clauses above are not empty.
    ensures simple { is_simple_and_free tool ≡ true }

    // Where opening or writing a file failed, the status is 3 and the line names a device. Inputs count
    // their failed reads themselves, of which these clauses do not speak.
    ensures kept { is_explained (subcommand_of tool (words_of args.now)) ≡ false
        → result ≢ 3 → F.failures files.new ≡ F.failures files.old }
    ensures failed { is_explained (subcommand_of tool (words_of args.now)) ≡ false
        → F.failures files.new ≢ F.failures files.old
        → (path : List ℕ) × SentOrCut E.written E.failures err.old err.new (device_line path) }

    // Steady files that take writes do not fail.
    ensures unfailing { is_explained (subcommand_of tool (words_of args.now)) ≡ false
        → F.is_steady files.old ≡ true → F.takes_writes files.old ≡ true
        → F.failures files.new ≡ F.failures files.old }
{
    run_then(alloc, Cleanup::Free, args, files, out, err)
}

/// Does what `run` does, in a program that goes on or ends after it. Where it ends, the pool and the message of the command are not
/// freed.
pub fn run_then<F: Files, O: Output, E: Output>(
    alloc: Global,
    cleanup: Cleanup,
    args: &[String],
    files: &mut F,
    out: &mut O,
    err: &mut E,
) -> u8
    // Where clap takes the words and nothing else is wrong with them, what they name is done, unless memory runs out before.
    ensures taken { fault_of tool (words_of args.now) ≡ []
        → report_of (subcommand_of tool (words_of args.now)) ≡ None
        → DoesNamed (Sent O.written O.failures out.old out.new)
        (Cut O.written O.failures out.old out.new) (SentOrCut E.written E.failures err.old err.new)
        (IsSaved F.contents files.old files.new)
        (IsUnsaved F.contents F.failures files.old files.new) result
        (IsHonest F.contents F.is_steady files.old)
        (DoesExplained F.contents F.failures files.old (Sent O.written O.failures out.old out.new)
        (Cut O.written O.failures out.old out.new)
        (SentOrCut E.written E.failures err.old err.new) result
        (IsHonest F.contents F.is_steady files.old)) (subcommand_of tool (words_of args.now)) }

    // Where something else is wrong with them, it is reported.
    ensures misused { fault_of tool (words_of args.now) ≡ []
        → IfSome (report_of (subcommand_of tool (words_of args.now)))
        (ReportsMisuse (Sent O.written O.failures out.old out.new)
        (SentOrCut E.written E.failures err.old err.new)
        (IsSaved F.contents files.old files.new) result) }

    // Where they are not taken, nothing goes to standard output.
    ensures refused { fault_of tool (words_of args.now) ≢ []
        → RefusesWords (Sent O.written O.failures out.old out.new)
        (SentOrCut E.written E.failures err.old err.new)
        (IsSaved F.contents files.old files.new) result }
    ensures usage { result ≡ 2 → IsNoCommand (words_of args.now) }
    // The command line is one whose words are judged as clap says, so that the clauses above are not empty.
    ensures simple { is_simple_and_free tool ≡ true }

    // Where opening or writing a file failed, the status is 3 and the line names a device. Inputs count
    // their failed reads themselves, of which these clauses do not speak.
    ensures kept { is_explained (subcommand_of tool (words_of args.now)) ≡ false
        → result ≢ 3 → F.failures files.new ≡ F.failures files.old }
    ensures failed { is_explained (subcommand_of tool (words_of args.now)) ≡ false
        → F.failures files.new ≢ F.failures files.old
        → (path : List ℕ) × SentOrCut E.written E.failures err.old err.new (device_line path) }

    // Steady files that take writes do not fail.
    ensures unfailing { is_explained (subcommand_of tool (words_of args.now)) ≡ false
        → F.is_steady files.old ≡ true → F.takes_writes files.old ≡ true
        → F.failures files.new ≡ F.failures files.old }
{
    let Ok(definition) = definition(alloc) else {
        return out_of_memory(err);
    };
    match definition.try_get_matches_from(args) {
        Ok(matches) => answer(alloc, cleanup, &matches, files, out, err),
        Err(error) => usage(alloc, &error, err),
    }
}

/// Reports that memory ran out, and answers the exit status.
pub(crate) fn out_of_memory<E: Output>(err: &mut E) -> u8
    ensures status { result ≡ 3 }
    ensures line { SentOrCut E.written E.failures err.old err.new memory_line }
{
    Refusal::Memory.tell(err)
}

/// Shows what is wrong with the words.
fn usage<E: Output>(alloc: Global, error: &Error, err: &mut E) -> u8
    ensures status { (result ≡ 2) ⊎ (result ≡ 3) }
    ensures memory { result ≡ 3 → SentOrCut E.written E.failures err.old err.new memory_line }
    ensures out_of_memory { kind_of error.now ≡ ErrorKind.OutOfMemory → result ≡ 3 }
{
    if error.kind() == ErrorKind::OutOfMemory {
        return out_of_memory(err);
    }
    let Ok(text) = error.to_string(alloc) else {
        return out_of_memory(err);
    };
    let _ = write_all(err, text.as_bytes());
    2
}

/// Does what the words say that clap took, or reports what is wrong with them all the same.
fn answer<F: Files, O: Output, E: Output>(
    alloc: Global,
    cleanup: Cleanup,
    matches: &ArgMatches<'_>,
    files: &mut F,
    out: &mut O,
    err: &mut E,
) -> u8
    requires { Any (λ name. subcommand_name_of matches.now ≡ Some name) tool_names }
    ensures done { report_of (subcommand_rows_of matches.now) ≡ None
        → DoesNamed (Sent O.written O.failures out.old out.new)
        (Cut O.written O.failures out.old out.new) (SentOrCut E.written E.failures err.old err.new)
        (IsSaved F.contents files.old files.new)
        (IsUnsaved F.contents F.failures files.old files.new) result
        (IsHonest F.contents F.is_steady files.old)
        (DoesExplained F.contents F.failures files.old (Sent O.written O.failures out.old out.new)
        (Cut O.written O.failures out.old out.new)
        (SentOrCut E.written E.failures err.old err.new) result
        (IsHonest F.contents F.is_steady files.old)) (subcommand_rows_of matches.now) }
    ensures misused { IfSome (report_of (subcommand_rows_of matches.now))
        (ReportsMisuse (Sent O.written O.failures out.old out.new)
        (SentOrCut E.written E.failures err.old err.new)
        (IsSaved F.contents files.old files.new) result) }
    ensures usage { result ≡ 2 → IsSome (report_of (subcommand_rows_of matches.now)) }
    ensures kept { is_explained (subcommand_rows_of matches.now) ≡ false
        → result ≢ 3 → F.failures files.new ≡ F.failures files.old }
    ensures failed { is_explained (subcommand_rows_of matches.now) ≡ false
        → F.failures files.new ≢ F.failures files.old
        → (path : List ℕ) × SentOrCut E.written E.failures err.old err.new (device_line path) }
    ensures unfailing { is_explained (subcommand_rows_of matches.now) ≡ false
        → F.is_steady files.old ≡ true → F.takes_writes files.old ≡ true
        → F.failures files.new ≡ F.failures files.old }
{
    if let Some(misuse) = misuse_of(matches) {
        misuse.report(err);
        return 2;
    }
    if let Some(inner) = matches.subcommand_matches("help") {
        return print_page(alloc, inner.get_str("COMMAND"), out, err);
    }
    if let Some(_inner) = matches.subcommand_matches("version") {
        return print_version(out, err);
    }
    let command = command_of(matches);
    if explains(matches) {
        execute_explained(alloc, cleanup, &command, files, out, err)
    } else {
        execute_then(alloc, cleanup, &command, files, out, err)
    }
}

/// Whether the command that the words named explains its refusal.
fn explains(matches: &ArgMatches<'_>) -> bool
    ensures { result ≡ is_explained (subcommand_rows_of matches.now) }
{
    match matches.subcommand() {
        Some((_, inner)) => flag(inner, "explain"),
        None => false,
    }
}

/// The command that the words named.
fn command_of<'m>(matches: &'m ArgMatches<'_>) -> Command<'m>
    requires names { Any (λ name. subcommand_name_of matches.now ≡ Some name) tool_names }
    requires no_help { subcommand_name_of matches.now ≢ Some (codes "help") }
    requires no_version { subcommand_name_of matches.now ≢ Some (codes "version") }
    ensures { IsMatched (subcommand_rows_of matches.now) result }
{
    if let Some(inner) = matches.subcommand_matches("raw") {
        let form = raw_form(inner);
        let file = value(inner, "FILE");
        return Command::Raw { form, file };
    }
    if let Some(inner) = matches.subcommand_matches("check") {
        return Command::Check {
            source: source(inner),
        };
    }
    if let Some(inner) = matches.subcommand_matches("show") {
        return Command::Show {
            floats: floats(inner),
            source: source(inner),
        };
    }
    if let Some(inner) = matches.subcommand_matches("canon") {
        let out = inner.get_str("out");
        return Command::Canon {
            out,
            source: source(inner),
        };
    }
    if let Some(inner) = matches.subcommand_matches("json") {
        return Command::Json {
            layout: layout(inner),
            source: source(inner),
        };
    }
    if let Some(inner) = matches.subcommand_matches("text") {
        return Command::Text {
            form: text_form(inner),
            source: source(inner),
        };
    }
    if let Some(inner) = matches.subcommand_matches("frames") {
        return stream(inner);
    }
    if let Some(inner) = matches.subcommand_matches("types") {
        return Command::Types {
            reading: reading(inner),
            set: value(inner, "SET"),
            name: inner.get_str("NAME"),
        };
    }
    if let Some(inner) = matches.subcommand_matches("compile") {
        let Target { out, names } = target_of(inner);
        return Command::Compile {
            roots: roots(inner),
            out,
            names,
        };
    }
    if let Some(inner) = matches.subcommand_matches("from-json") {
        return Command::FromJson {
            rules: json_rules(inner),
            out: value(inner, "OUT"),
            source: source(inner),
        };
    }
    if let Some(inner) = matches.subcommand_matches("compat") {
        return Command::Compat {
            comparison: comparison(inner),
        };
    }
    unreachable!()
}

/// The command that shows frames: up to the first that is refused, or all.
fn stream<'m>(matches: &ArgMatches<'m>) -> Command<'m>
    ensures { ShowsFrames (rows_of (found_of matches.now)) result }
{
    let form = frame_form(matches);
    let source = source(matches);
    if flag(matches, "keep-going") {
        Command::AllFrames { form, source }
    } else {
        Command::Frames { form, source }
    }
}

/// Where a message and its type are read.
fn source<'a>(matches: &ArgMatches<'a>) -> Source<'a>
    ensures { IsSource (rows_of (found_of matches.now)) result }
{
    Source {
        reading: reading(matches),
        set: value(matches, "SET"),
        type_name: value(matches, "TYPE"),
        file: value(matches, "FILE"),
    }
}

/// Which sets are compared, and how.
fn comparison<'a>(matches: &ArgMatches<'a>) -> Comparison<'a>
    ensures { IsComparison (rows_of (found_of matches.now)) result }
{
    Comparison {
        reading: reading(matches),
        old: value(matches, "OLD"),
        new: value(matches, "NEW"),
        type_name: matches.get_str("TYPE"),
        readers: readers(matches),
    }
}

/// Which readers a comparison asks about.
fn readers(matches: &ArgMatches<'_>) -> Readers
    ensures { result ≡ readers_of (flag_of (codes "both") (rows_of (found_of matches.now))) }
{
    if flag(matches, "both") {
        Readers::Both
    } else {
        Readers::New
    }
}

/// How records are shown. Of their shortest encoding no payload is listed, so `--short` comes first.
fn raw_form(matches: &ArgMatches<'_>) -> RawForm
    ensures { IsRawForm (rows_of (found_of matches.now)) result }
{
    if flag(matches, "short") {
        RawForm::Shortest
    } else if flag(matches, "nested") {
        RawForm::Nested
    } else {
        RawForm::Listing
    }
}

/// How a set or sources are read.
fn reading(matches: &ArgMatches<'_>) -> Reading
    ensures { result ≡ reading_of (flag_of (codes "lenient") (rows_of (found_of matches.now))) }
{
    if flag(matches, "lenient") {
        Reading::Lenient
    } else {
        Reading::Strict
    }
}

/// How JSON is read.
fn json_rules(matches: &ArgMatches<'_>) -> JsonRules
    ensures { AreJsonRules (rows_of (found_of matches.now)) result }
{
    if flag(matches, "ignore-unknown") || flag(matches, "lenient") {
        JsonRules::Lenient
    } else {
        JsonRules::Strict
    }
}

/// How floats are listed.
fn floats(matches: &ArgMatches<'_>) -> FloatForm
    ensures { result ≡ floats_of (flag_of (codes "decimal") (rows_of (found_of matches.now))) }
{
    if flag(matches, "decimal") {
        FloatForm::Decimal
    } else {
        FloatForm::Bits
    }
}

/// How frames are printed. JSON has no floats by their bits, so `--json` comes first.
fn frame_form(matches: &ArgMatches<'_>) -> FrameForm
    ensures { IsFrameForm (rows_of (found_of matches.now)) result }
{
    if flag(matches, "json") {
        FrameForm::Json
    } else {
        FrameForm::Listing(floats(matches))
    }
}

/// How JSON is laid out.
fn layout(matches: &ArgMatches<'_>) -> Layout
    ensures { result ≡ layout_of (flag_of (codes "pretty") (rows_of (found_of matches.now))) }
{
    if flag(matches, "pretty") {
        Layout::Indented
    } else {
        Layout::Compact
    }
}

/// The form of a text.
fn text_form(matches: &ArgMatches<'_>) -> TextForm
    ensures { result ≡ text_form_of (flag_of (codes "single-line") (rows_of (found_of matches.now))) }
{
    TextForm {
        layout: if flag(matches, "single-line") {
            TextLayout::OneLine
        } else {
            TextLayout::Lines
        },
        characters: Characters::Escaped,
        unknown: UnknownRecords::ByNumber,
    }
}

/// Where sources are looked for, and how they are read.
fn roots<'m>(matches: &'m ArgMatches<'_>) -> Roots<'m>
    ensures { AreRoots (rows_of (found_of matches.now)) result }
{
    Roots {
        reading: reading(matches),
        root: value(matches, "ROOT"),
        others: values(matches, "DIR"),
    }
}

/// What `compile` writes, and of which sources.
#[derive(Clone, Copy)]
pub(crate) struct Target<'m> {
    pub(crate) out: &'m str,
    pub(crate) names: &'m [&'m str],
}

/// What `compile` writes: the file of the option, and all words after the root are sources; or that of the first of these words.
pub(crate) fn target_of<'m>(matches: &'m ArgMatches<'_>) -> Target<'m>
    ensures out { result.out.now ≡ output_of (rows_of (found_of matches.now)) }
    ensures names { texts_of result.names.now ≡ sources_of (rows_of (found_of matches.now)) }
{
    let words = values(matches, "FILE");
    if let Some(out) = matches.get_str("out") {
        return Target { out, names: words };
    }
    match words.split_first() {
        Some((out, names)) => Target { out, names },
        None => Target {
            out: "",
            names: words,
        },
    }
}

fn flag(matches: &ArgMatches<'_>, id: &str) -> bool
    ensures { result ≡ flag_of id.now (rows_of (found_of matches.now)) }
{
    match matches.get_str(id) {
        Some(text) => text == "true",
        None => false,
    }
}

// The value of an argument that `clap` requires.
fn value<'a>(matches: &ArgMatches<'a>, id: &str) -> &'a str
    ensures { result.now ≡ value_of id.now (rows_of (found_of matches.now)) }
{
    match matches.get_str(id) {
        Some(text) => text,
        None => "",
    }
}

// The values of an argument that takes several; none where it is not given.
fn values<'m>(matches: &'m ArgMatches<'_>, id: &str) -> &'m [&'m str]
    ensures { texts_of result.now ≡ values_of id.now (rows_of (found_of matches.now)) }
{
    matches.get_strs(id).unwrap_or(&[])
}
