//! The words of the command line.
ghost use Rattle.std.specs.Prelude.{◌≡◌, false, IfOk};
ghost use Rattle.clap.specs.Words.{app_of, rule_of};
ghost use Rattle.clap.specs.declared.builder.command.Command.TheViews.{out-Command};
ghost use Rattle.pbtool_cli.specs.Words.{both_rule, commands_tool, compat_command, from_json_command, help_command, ignore_unknown_rule, message_tool, other_tool, output_rule, version_command};
ghost use Rattle.pbtool_cli.specs.Words.{canon_command, check_command, compile_command, frames_command, json_command, raw_command, show_command, types_command};
ghost use Rattle.pbtool_cli.specs.Words.{decimal_rule, directory_rule, explain_rule, json_rule, keep_going_rule, lenient_rule, nested_rule, of_source, wanted};
ghost use Rattle.pbtool_cli.specs.Words.{single_line_rule, text_command, tool, tool_top};

use clap::{Arg, ArgAction, Command};
use std::alloc::{AllocError, Global};

/// The name of the program.
pub(crate) const PROGRAM: &str = "pbtool";

/// Its version.
pub(crate) const VERSION: &str = "0.1.0";

/// The help of a file with a message.
const BYTES: &str = "The file with the bytes of the message";

/// The help of a file with a stream.
const STREAM: &str = "The file with the bytes of the stream";

/// The help of a file with a message as JSON.
const JSON: &str = "The file with the JSON of the message";

/// How `compile` is used.
const COMPILE_USAGE: &str =
    "pbtool compile [OPTIONS] <ROOT> <OUT> <FILE>...\n       pbtool compile [OPTIONS] -o <OUT> <ROOT> <FILE>...";

/// The help of the words after the root of sources.
const COMPILED: &str =
    "The file to write, unless -o names it, and then the sources, by their names below ROOT";

/// The definition of the command line.
pub fn definition<'a>(alloc: Global) -> Result<Command<'a>, AllocError>
    ensures app { IfOk result (λ c. app_of c ≡ tool) }
    ensures local { IfOk result (λ c. (out-Command c).has_globals ≡ false) }
    ensures closed { IfOk result (λ c. (out-Command c).allow_external_subcommands ≡ false) }
{
    let commands = commands(alloc)?;
    let with_help = commands.subcommand(help(alloc)?)?;
    let whole = with_help.subcommand(version(alloc))?;
    Ok(whole)
}

/// All commands but `help` and `version`.
fn commands<'a>(alloc: Global) -> Result<Command<'a>, AllocError>
    ensures app { IfOk result (λ c. app_of c ≡ commands_tool) }
    ensures local { IfOk result (λ c. (out-Command c).has_globals ≡ false) }
    ensures closed { IfOk result (λ c. (out-Command c).allow_external_subcommands ≡ false) }
{
    let others = other_commands(alloc)?;
    let with_compat = others.subcommand(compat(alloc)?)?;
    let whole = with_compat.subcommand(from_json(alloc)?)?;
    Ok(whole)
}

/// All of these commands but `compat` and `from-json`.
fn other_commands<'a>(alloc: Global) -> Result<Command<'a>, AllocError>
    ensures app { IfOk result (λ c. app_of c ≡ other_tool) }
    ensures local { IfOk result (λ c. (out-Command c).has_globals ≡ false) }
    ensures closed { IfOk result (λ c. (out-Command c).allow_external_subcommands ≡ false) }
{
    let messages = message_commands(alloc)?;
    let with_frames = messages.subcommand(frames(alloc)?)?;
    let with_types = with_frames.subcommand(types(alloc)?)?;
    let whole = with_types.subcommand(compile(alloc)?)?;
    Ok(whole)
}

/// The commands that read one message.
fn message_commands<'a>(alloc: Global) -> Result<Command<'a>, AllocError>
    ensures app { IfOk result (λ c. app_of c ≡ message_tool) }
    ensures local { IfOk result (λ c. (out-Command c).has_globals ≡ false) }
    ensures closed { IfOk result (λ c. (out-Command c).allow_external_subcommands ≡ false) }
{
    let with_raw = top(alloc).subcommand(raw(alloc)?)?;
    let with_check = with_raw.subcommand(check(alloc)?)?;
    let with_show = with_check.subcommand(show(alloc)?)?;
    let with_canon = with_show.subcommand(canon(alloc)?)?;
    let with_json = with_canon.subcommand(json(alloc)?)?;
    let whole = with_json.subcommand(text(alloc)?)?;
    Ok(whole)
}

fn top<'a>(alloc: Global) -> Command<'a>
    ensures app { app_of result ≡ tool_top }
    ensures local { (out-Command result).has_globals ≡ false }
    ensures closed { (out-Command result).allow_external_subcommands ≡ false }
{
    Command::new(alloc, PROGRAM)
        .version(VERSION)
        .about("Read, check, print and write Protocol Buffers messages")
        .after_help("The flags of a command, with an example: pbtool help COMMAND")
        .subcommand_required(true)
        .disable_help_subcommand(true)
}

fn raw<'a>(alloc: Global) -> Result<Command<'a>, AllocError>
    ensures app { IfOk result (λ c. app_of c ≡ raw_command) }
    ensures local { IfOk result (λ c. (out-Command c).has_globals ≡ false) }
{
    let short = Arg::new(alloc, "short")
        .long("short")
        .action(ArgAction::SetTrue)
        .help("Print the shortest encoding in hexadecimal instead");
    let file = Arg::new(alloc, "FILE")
        .required(true)
        .help("The file with the bytes of the message");
    let command = Command::new(alloc, "raw")
        .about("Print the records of a message without its schema")
        .after_help("Example: pbtool raw order.bin");
    let with_short = command.arg(short)?;
    let nested = nested_option(alloc);
    let with_nested = with_short.arg(nested)?;
    let explain = explain_option(alloc);
    let with_explain = with_nested.arg(explain)?;
    let whole = with_explain.arg(file)?;
    Ok(whole)
}

fn check<'a>(alloc: Global) -> Result<Command<'a>, AllocError>
    ensures app { IfOk result (λ c. app_of c ≡ check_command) }
    ensures local { IfOk result (λ c. (out-Command c).has_globals ≡ false) }
{
    let command = Command::new(alloc, "check")
        .about("Check that a file is a message of a type")
        .after_help("Example: pbtool check shop.set shop.Order order.bin");
    let whole = with_source(alloc, command, BYTES)?;
    Ok(whole)
}

fn show<'a>(alloc: Global) -> Result<Command<'a>, AllocError>
    ensures app { IfOk result (λ c. app_of c ≡ show_command) }
    ensures local { IfOk result (λ c. (out-Command c).has_globals ≡ false) }
{
    let command = Command::new(alloc, "show")
        .about("Print the fields of a message")
        .after_help("Example: pbtool show -d shop.set shop.Order order.bin");
    let decimal = decimal_option(alloc);
    let with_decimal = command.arg(decimal)?;
    let whole = with_source(alloc, with_decimal, BYTES)?;
    Ok(whole)
}

fn canon<'a>(alloc: Global) -> Result<Command<'a>, AllocError>
    ensures app { IfOk result (λ c. app_of c ≡ canon_command) }
    ensures local { IfOk result (λ c. (out-Command c).has_globals ≡ false) }
{
    let out = Arg::new(alloc, "out")
        .long("out")
        .action(ArgAction::Set)
        .help("Write the bytes to this file instead");
    let command = Command::new(alloc, "canon")
        .about("Print the canonical bytes of a message in hexadecimal")
        .after_help("Example: pbtool canon shop.set shop.Order order.bin");
    let with_out = command.arg(out)?;
    let whole = with_source(alloc, with_out, BYTES)?;
    Ok(whole)
}

fn json<'a>(alloc: Global) -> Result<Command<'a>, AllocError>
    ensures app { IfOk result (λ c. app_of c ≡ json_command) }
    ensures local { IfOk result (λ c. (out-Command c).has_globals ≡ false) }
{
    let pretty = Arg::new(alloc, "pretty")
        .long("pretty")
        .action(ArgAction::SetTrue)
        .help("Put each member and each element on its own line");
    let command = Command::new(alloc, "json")
        .about("Print a message as JSON")
        .after_help("Example: pbtool json shop.set shop.Order order.bin");
    let with_pretty = command.arg(pretty)?;
    let whole = with_source(alloc, with_pretty, BYTES)?;
    Ok(whole)
}

fn text<'a>(alloc: Global) -> Result<Command<'a>, AllocError>
    ensures app { IfOk result (λ c. app_of c ≡ text_command) }
    ensures local { IfOk result (λ c. (out-Command c).has_globals ≡ false) }
{
    let command = Command::new(alloc, "text")
        .about("Print a message in the text format, as protoc --decode does")
        .after_help("Example: pbtool text shop.set shop.Order order.bin");
    let single_line = single_line_option(alloc);
    let with_single_line = command.arg(single_line)?;
    let whole = with_source(alloc, with_single_line, BYTES)?;
    Ok(whole)
}

fn frames<'a>(alloc: Global) -> Result<Command<'a>, AllocError>
    ensures app { IfOk result (λ c. app_of c ≡ frames_command) }
    ensures local { IfOk result (λ c. (out-Command c).has_globals ≡ false) }
{
    let command = Command::new(alloc, "frames")
        .about("Print the messages of a stream, each after its length")
        .after_help("Example: pbtool frames shop.set shop.Order orders.bin");
    let decimal = decimal_option(alloc);
    let with_decimal = command.arg(decimal)?;
    let json = json_option(alloc);
    let with_json = with_decimal.arg(json)?;
    let keep_going = keep_going_option(alloc);
    let with_keep_going = with_json.arg(keep_going)?;
    let whole = with_source(alloc, with_keep_going, STREAM)?;
    Ok(whole)
}

fn types<'a>(alloc: Global) -> Result<Command<'a>, AllocError>
    ensures app { IfOk result (λ c. app_of c ≡ types_command) }
    ensures local { IfOk result (λ c. (out-Command c).has_globals ≡ false) }
{
    let command = Command::new(alloc, "types")
        .about("Print the declarations of a descriptor set, a line each")
        .after_help("Example: pbtool types shop.set shop.Order");
    let lenient = lenient_option(alloc);
    let with_lenient = command.arg(lenient)?;
    let set = wanted(alloc, "SET", "The file with the descriptor set");
    let with_set = with_lenient.arg(set)?;
    let name = Arg::new(alloc, "NAME").help("Print only the message or enum of this full name");
    let whole = with_set.arg(name)?;
    Ok(whole)
}

fn compile<'a>(alloc: Global) -> Result<Command<'a>, AllocError>
    ensures app { IfOk result (λ c. app_of c ≡ compile_command) }
    ensures local { IfOk result (λ c. (out-Command c).has_globals ≡ false) }
{
    let command = Command::new(alloc, "compile")
        .about("Make a descriptor set from sources and their imports")
        .override_usage(COMPILE_USAGE)
        .after_help("Example: pbtool compile -o shop.set . shop.proto");
    let explain = explain_option(alloc);
    let with_explain = command.arg(explain)?;
    let lenient = lenient_sources_option(alloc);
    let with_lenient = with_explain.arg(lenient)?;
    let directory = directory_option(alloc);
    let with_directory = with_lenient.arg(directory)?;
    let output = output_option(alloc);
    let with_output = with_directory.arg(output)?;
    let root = wanted(alloc, "ROOT", "The folder of the sources");
    let with_root = with_output.arg(root)?;
    let file = wanted(alloc, "FILE", COMPILED).action(ArgAction::Append);
    let whole = with_root.arg(file)?;
    Ok(whole)
}

fn compat<'a>(alloc: Global) -> Result<Command<'a>, AllocError>
    ensures app { IfOk result (λ c. app_of c ≡ compat_command) }
    ensures local { IfOk result (λ c. (out-Command c).has_globals ≡ false) }
{
    let command = Command::new(alloc, "compat")
        .about("Print how a new schema reads messages of an old schema, a line for each field")
        .after_help("Example: pbtool compat old.set new.set shop.Order");
    let lenient = lenient_option(alloc);
    let with_lenient = command.arg(lenient)?;
    let both = both_option(alloc);
    let with_both = with_lenient.arg(both)?;
    let old = wanted(
        alloc,
        "OLD",
        "The file with the descriptor set of the old types",
    );
    let with_old = with_both.arg(old)?;
    let new = wanted(
        alloc,
        "NEW",
        "The file with the descriptor set of the new types",
    );
    let with_new = with_old.arg(new)?;
    let name = Arg::new(alloc, "TYPE").help("Compare only the message type of this full name");
    let whole = with_new.arg(name)?;
    Ok(whole)
}

fn from_json<'a>(alloc: Global) -> Result<Command<'a>, AllocError>
    ensures app { IfOk result (λ c. app_of c ≡ from_json_command) }
    ensures local { IfOk result (λ c. (out-Command c).has_globals ≡ false) }
{
    let command = Command::new(alloc, "from-json")
        .about("Make a message from JSON, and write its canonical bytes")
        .after_help("Example: pbtool from-json shop.set shop.Order order.json order.bin");
    let ignore_unknown = ignore_unknown_option(alloc);
    let with_ignore_unknown = command.arg(ignore_unknown)?;
    let with_source = with_source(alloc, with_ignore_unknown, JSON)?;
    let out = wanted(alloc, "OUT", "The file to write");
    let whole = with_source.arg(out)?;
    Ok(whole)
}

fn help<'a>(alloc: Global) -> Result<Command<'a>, AllocError>
    ensures app { IfOk result (λ c. app_of c ≡ help_command) }
    ensures local { IfOk result (λ c. (out-Command c).has_globals ≡ false) }
{
    let command = Command::new(alloc, "help")
        .about("Print the help of the program or of a command")
        .after_help("Example: pbtool help compile");
    let topic = Arg::new(alloc, "COMMAND").help("The command");
    let whole = command.arg(topic)?;
    Ok(whole)
}

fn version<'a>(alloc: Global) -> Command<'a>
    ensures app { app_of result ≡ version_command }
    ensures local { (out-Command result).has_globals ≡ false }
{
    Command::new(alloc, "version")
        .about("Print the version of the program")
        .after_help("Example: pbtool version")
}

/// The flag for both directions.
fn both_option<'a>(alloc: Global) -> Arg<'a>
    ensures rule { rule_of result ≡ both_rule }
    ensures local { result.global ≡ false }
{
    Arg::new(alloc, "both")
        .long("both")
        .action(ArgAction::SetTrue)
        .help("Also print how the old types read messages of the new types")
}

/// The flag for members of JSON that no field has.
fn ignore_unknown_option<'a>(alloc: Global) -> Arg<'a>
    ensures rule { rule_of result ≡ ignore_unknown_rule }
    ensures local { result.global ≡ false }
{
    Arg::new(alloc, "ignore-unknown")
        .long("ignore-unknown")
        .action(ArgAction::SetTrue)
        .help("Skip members and enum names that the type does not have")
}

/// A directory where sources are looked for after the root.
fn directory_option<'a>(alloc: Global) -> Arg<'a>
    ensures rule { rule_of result ≡ directory_rule }
    ensures local { result.global ≡ false }
{
    Arg::new(alloc, "DIR")
        .short('I')
        .action(ArgAction::Append)
        .help("Search this folder for files that ROOT does not have; may be repeated")
}

/// The file that is written, by an option.
fn output_option<'a>(alloc: Global) -> Arg<'a>
    ensures rule { rule_of result ≡ output_rule }
    ensures local { result.global ≡ false }
{
    Arg::new(alloc, "out")
        .short('o')
        .long("descriptor_set_out")
        .action(ArgAction::Set)
        .value_name("OUT")
        .help("Write the set to this file; all words after ROOT are then sources")
}

/// The flag for payloads that are listed as messages.
fn nested_option<'a>(alloc: Global) -> Arg<'a>
    ensures rule { rule_of result ≡ nested_rule }
    ensures local { result.global ≡ false }
{
    Arg::new(alloc, "nested")
        .long("nested")
        .action(ArgAction::SetTrue)
        .help("Print each payload that could be a message as a message")
}

/// The flag for floats in decimal.
fn decimal_option<'a>(alloc: Global) -> Arg<'a>
    ensures rule { rule_of result ≡ decimal_rule }
    ensures local { result.global ≡ false }
{
    Arg::new(alloc, "decimal")
        .short('d')
        .long("decimal")
        .action(ArgAction::SetTrue)
        .help("Print floats in decimal, not by their bits")
}

/// The flag for a text on one line.
fn single_line_option<'a>(alloc: Global) -> Arg<'a>
    ensures rule { rule_of result ≡ single_line_rule }
    ensures local { result.global ≡ false }
{
    Arg::new(alloc, "single-line")
        .long("single-line")
        .action(ArgAction::SetTrue)
        .help("Print all fields on one line")
}

/// The flag for messages that are printed as JSON.
fn json_option<'a>(alloc: Global) -> Arg<'a>
    ensures rule { rule_of result ≡ json_rule }
    ensures local { result.global ≡ false }
{
    Arg::new(alloc, "json")
        .long("json")
        .action(ArgAction::SetTrue)
        .help("Print each message as JSON, on one line")
}

/// The flag for refused frames that are skipped.
fn keep_going_option<'a>(alloc: Global) -> Arg<'a>
    ensures rule { rule_of result ≡ keep_going_rule }
    ensures local { result.global ≡ false }
{
    Arg::new(alloc, "keep-going")
        .long("keep-going")
        .action(ArgAction::SetTrue)
        .help("Skip refused frames, and report them at the end")
}

/// The command with the arguments that name a type and a file of its messages. `help` says what the file holds.
fn with_source<'a>(
    alloc: Global,
    command: Command<'a>,
    help: &'a str,
) -> Result<Command<'a>, AllocError>
    ensures app { (out-Command command.entry).has_globals ≡ false
        → IfOk result (λ c. app_of c ≡ of_source (app_of command.entry)) }
    ensures local { (out-Command command.entry).has_globals ≡ false
        → IfOk result (λ c. (out-Command c).has_globals ≡ false) }
{
    let explain = explain_option(alloc);
    let with_explain = command.arg(explain)?;
    let lenient = lenient_option(alloc);
    let with_lenient = with_explain.arg(lenient)?;
    let set = wanted(alloc, "SET", "The file with the descriptor set of the type");
    let with_set = with_lenient.arg(set)?;
    let name = wanted(alloc, "TYPE", "The full name of the message type");
    let with_type = with_set.arg(name)?;
    let file = wanted(alloc, "FILE", help);
    let whole = with_type.arg(file)?;
    Ok(whole)
}

/// The flag for lines that explain a refusal.
fn explain_option<'a>(alloc: Global) -> Arg<'a>
    ensures rule { rule_of result ≡ explain_rule }
    ensures local { result.global ≡ false }
{
    Arg::new(alloc, "explain")
        .long("explain")
        .action(ArgAction::SetTrue)
        .help("Explain a refusal: its position, the expected input and the bytes nearby")
}

/// The flag for lenient reading of the set.
fn lenient_option<'a>(alloc: Global) -> Arg<'a>
    ensures rule { rule_of result ≡ lenient_rule }
    ensures local { result.global ≡ false }
{
    Arg::new(alloc, "lenient")
        .long("lenient")
        .action(ArgAction::SetTrue)
        .help("Accept extensions, required labels and default values in the set, and ignore them")
}

/// The flag for lenient reading of sources.
fn lenient_sources_option<'a>(alloc: Global) -> Arg<'a>
    ensures rule { rule_of result ≡ lenient_rule }
    ensures local { result.global ≡ false }
{
    Arg::new(alloc, "lenient")
        .long("lenient")
        .action(ArgAction::SetTrue)
        .help("Accept proto2, extensions and custom options, and leave extensions and options out")
}

/// An argument that is required.
fn wanted<'a>(alloc: Global, id: &'a str, help: &'a str) -> Arg<'a>
    ensures rule { rule_of result ≡ wanted id.now }
    ensures local { result.global ≡ false }
{
    Arg::new(alloc, id).required(true).help(help)
}
