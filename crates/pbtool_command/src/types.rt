//! What a descriptor set declares, and what reading left out of it.

ghost use Rattle.std.specs.Prelude.{◌≡◌, ◌<◌, map, option_map, true, length, MatchResult};
ghost use Rattle.std.specs.List.{flat_map};
ghost use Rattle.pb_descr_message.specs.Omitted.{omitted_view};
ghost use Rattle.pb_listing.specs.TypesListing.{enum_lines_at, message_lines_at};
ghost use Rattle.pb_output.specs.Sending.{Cut, Sent};
ghost use Rattle.pb_output.specs.Sink.{Puts};
ghost use Rattle.pbtool_files.specs.Answer.{done};
ghost use Rattle.pbtool_files.specs.FileMap.{IsSaved, IsUnsaved};
ghost use Rattle.pbtool_files.specs.Refusal.{KeepsFailures};
ghost use Rattle.pbtool_command.specs.Steps.{Comes, IsNothing, NoFile, TypesOf};
ghost use Rattle.pbtool_command.specs.TypesAnswer.{NamedAnswer, ShownAnswer, omitted_line, set_listing};

use crate::cleanup::{Cleanup, clean_up};
use pb_descr::Omitted;
use pb_listing::{file_name, put_enum_type, put_message_type, put_types};
use pb_output::Sink;
use pb_schema::{EnumId, MessageId, Pool};
use pb_wire::{DeviceFault, Output};
use pbtool_files::{Files, LinkedSet, OUTPUT, Reading, Refusal, pool_at};
use std::alloc::Global;

/// Shows what the set in a file declares and what reading left out of it, or the message type or enum of a name.
pub fn types<'a, F: Files, O: Output>(
    alloc: Global,
    cleanup: Cleanup,
    reading: Reading,
    set: &'a str,
    name: Option<&'a str>,
    files: &mut F,
    out: &mut O,
) -> Result<(), Refusal<'a>>
    ensures comes { Comes (Sent O.written O.failures out.old out.new)
        (Cut O.written O.failures out.old out.new)
        (IsSaved F.contents files.old files.new)
        (IsUnsaved F.contents F.failures files.old files.new)
        (TypesOf F.contents F.is_steady files.old reading set.entry.now
        (option_map (λ n. n.now) name.entry)) IsNothing result }
    ensures kept { KeepsFailures F.failures files.old files.new result }
    ensures unfailing { F.is_steady files.old ≡ true → F.failures files.new ≡ F.failures files.old }
{
    let linked = pool_at(alloc, reading, set, files)?;
    let answer = show(&linked, name, out);
    clean_up(linked, cleanup);
    answer
}

/// Shows all of a set, or the message type or enum of a name.
fn show<'a, O: Output>(
    set: &LinkedSet,
    name: Option<&'a str>,
    out: &mut O,
) -> Result<(), Refusal<'a>>
    ensures { Comes (Sent O.written O.failures out.old out.new)
        (Cut O.written O.failures out.old out.new) NoFile (λ _. ⊥)
        (ShownAnswer (option_map (λ n. n.now) name.entry) set.now.pool
        (map omitted_view set.now.omitted.items)) IsNothing result }
{
    match name {
        None => print_set(set, out),
        Some(name) => print_named(&set.pool, name, out),
    }
}

fn print_set<'a, O: Output>(set: &LinkedSet, out: &mut O) -> Result<(), Refusal<'a>>
    ensures { Comes (Sent O.written O.failures out.old out.new)
        (Cut O.written O.failures out.old out.new) NoFile (λ _. ⊥)
        (λ a. a ≡ done (set_listing set.now.pool (map omitted_view set.now.omitted.items)))
        IsNothing result }
{
    match write_set_listing(set, out) {
        Ok(()) => Ok(()),
        Err(_) => Err(Refusal::Device(OUTPUT)),
    }
}

fn write_set_listing<O: Output>(set: &LinkedSet, out: &mut O) -> Result<(), DeviceFault>
    ensures { MatchResult result
        (λ _. Sent O.written O.failures out.old out.new
        (set_listing set.now.pool (map omitted_view set.now.omitted.items)))
        (λ _. Cut O.written O.failures out.old out.new
        (set_listing set.now.pool (map omitted_view set.now.omitted.items))) }
{
    let mut sink = Sink::new();
    put_types(&mut sink, out, &set.pool);
    put_omitted(&mut sink, out, &set.pool, &set.omitted);
    sink.finish(out)
}

/// A line for each part that was left out.
fn put_omitted<O: Output>(sink: &mut Sink, out: &mut O, pool: &Pool, omitted: &[Omitted])
    ensures { Puts O.written O.failures out.old out.new sink.old sink.new
        (flat_map (omitted_line pool.now) (map omitted_view omitted.now)) }
{
    for part in omitted {
        put_omitted_part(sink, out, pool, part);
    }
}

fn put_omitted_part<O: Output>(sink: &mut Sink, out: &mut O, pool: &Pool, omitted: &Omitted)
    ensures { Puts O.written O.failures out.old out.new sink.old sink.new
        (omitted_line pool.now (omitted_view omitted.now)) }
{
    sink.put(out, b"omitted ");
    sink.put(out, file_name(pool, omitted.file));
    sink.put(out, b" ");
    sink.put(out, omitted.name.as_str().as_bytes());
    sink.put(out, b" ");
    sink.put(out, omitted.part.name().as_bytes());
    sink.put(out, b"\n");
}

/// Shows the message type of a name, or else the enum of this name.
fn print_named<'a, O: Output>(pool: &Pool, name: &'a str, out: &mut O) -> Result<(), Refusal<'a>>
    ensures { Comes (Sent O.written O.failures out.old out.new)
        (Cut O.written O.failures out.old out.new) NoFile (λ _. ⊥)
        (NamedAnswer name.entry.now pool.now) IsNothing result }
{
    if let Some(message_type) = pool.message_by_name(name) {
        return print_message_type(pool, message_type, out);
    }
    let Some(enum_type) = pool.enum_by_name(name) else {
        return Err(Refusal::UnknownType(name));
    };
    print_enum_type(pool, enum_type, out)
}

fn print_message_type<'a, O: Output>(
    pool: &Pool,
    message_type: MessageId,
    out: &mut O,
) -> Result<(), Refusal<'a>>
    requires { message_type.0 < length pool.now.messages }
    ensures { Comes (Sent O.written O.failures out.old out.new)
        (Cut O.written O.failures out.old out.new) NoFile (λ _. ⊥)
        (λ a. a ≡ done (message_lines_at pool.now message_type.0)) IsNothing result }
{
    match write_message_type(pool, message_type, out) {
        Ok(()) => Ok(()),
        Err(_) => Err(Refusal::Device(OUTPUT)),
    }
}

fn write_message_type<O: Output>(
    pool: &Pool,
    message_type: MessageId,
    out: &mut O,
) -> Result<(), DeviceFault>
    requires { message_type.0 < length pool.now.messages }
    ensures { MatchResult result (λ _. Sent O.written O.failures out.old out.new
        (message_lines_at pool.now message_type.0))
        (λ _. Cut O.written O.failures out.old out.new (message_lines_at pool.now message_type.0)) }
{
    let mut sink = Sink::new();
    put_message_type(&mut sink, out, pool, message_type);
    sink.finish(out)
}

fn print_enum_type<'a, O: Output>(
    pool: &Pool,
    enum_type: EnumId,
    out: &mut O,
) -> Result<(), Refusal<'a>>
    requires { enum_type.0 < length pool.now.enums }
    ensures { Comes (Sent O.written O.failures out.old out.new)
        (Cut O.written O.failures out.old out.new) NoFile (λ _. ⊥)
        (λ a. a ≡ done (enum_lines_at pool.now enum_type.0)) IsNothing result }
{
    match write_enum_type(pool, enum_type, out) {
        Ok(()) => Ok(()),
        Err(_) => Err(Refusal::Device(OUTPUT)),
    }
}

fn write_enum_type<O: Output>(
    pool: &Pool,
    enum_type: EnumId,
    out: &mut O,
) -> Result<(), DeviceFault>
    requires { enum_type.0 < length pool.now.enums }
    ensures { MatchResult result (λ _. Sent O.written O.failures out.old out.new
        (enum_lines_at pool.now enum_type.0))
        (λ _. Cut O.written O.failures out.old out.new (enum_lines_at pool.now enum_type.0)) }
{
    let mut sink = Sink::new();
    put_enum_type(&mut sink, out, pool, enum_type);
    sink.finish(out)
}
