//! The message of a file, by its type.

ghost use Rattle.std.specs.Prelude.{◌≡◌, ◌<◌, length, true};
ghost use Rattle.pbtool_files.specs.FileMap.{IsSaved, IsUnsaved};
ghost use Rattle.pb_output.specs.Sending.{Cut, Sent};
ghost use Rattle.pbtool_command.specs.Steps.{Comes, IsNothing, JsonOf, MessageAt, MessageOf};
ghost use Rattle.pbtool_files.specs.Refusal.{KeepsFailures};

use crate::by_type::read_message;
use crate::cleanup::{Cleanup, clean_up};
use crate::command::Source;
use crate::form::{Form, make};
use pb_json::Layout;
use pb_schema::{MessageId, Pool};
use pb_wire::Output;
use pbtool_files::{Files, Refusal, find_named_type, find_type};
use std::alloc::Global;

/// A pool and a type of it.
#[derive(Clone, Copy)]
struct Typed<'p> {
    pool: &'p Pool,
    message_type: MessageId,
}

/// Makes it of the message of a file: nothing is printed before the message is accepted.
pub fn message<'a, F: Files, O: Output>(
    alloc: Global,
    cleanup: Cleanup,
    form: Form<'a, '_>,
    source: &Source<'a>,
    files: &mut F,
    out: &mut O,
) -> Result<(), Refusal<'a>>
    ensures comes { Comes (Sent O.written O.failures out.old out.new)
        (Cut O.written O.failures out.old out.new)
        (IsSaved F.contents files.old files.new)
        (IsUnsaved F.contents F.failures files.old files.new)
        (MessageOf F.contents F.is_steady files.old form.entry source.now) IsNothing result }
    ensures kept { KeepsFailures F.failures files.old files.new result }
    ensures unfailing { F.is_steady files.old ≡ true → F.takes_writes files.old ≡ true
        → F.failures files.new ≡ F.failures files.old }
{
    let (pool, kind) = find_type(alloc, source.reading, source.set, source.type_name, files)?;
    let of = Typed {
        pool: &pool,
        message_type: kind,
    };
    let answer = message_at(alloc, cleanup, form, of, source.file, files, out);
    clean_up(pool, cleanup);
    answer
}

/// Writes the message of a file as JSON, with the names that the set gives to fields.
pub fn json<'a, F: Files, O: Output>(
    alloc: Global,
    cleanup: Cleanup,
    layout: Layout,
    source: &Source<'a>,
    files: &mut F,
    out: &mut O,
) -> Result<(), Refusal<'a>>
    ensures comes { Comes (Sent O.written O.failures out.old out.new)
        (Cut O.written O.failures out.old out.new)
        (IsSaved F.contents files.old files.new)
        (IsUnsaved F.contents F.failures files.old files.new)
        (JsonOf F.contents F.is_steady files.old layout source.now) IsNothing result }
    ensures kept { KeepsFailures F.failures files.old files.new result }
    ensures unfailing { F.is_steady files.old ≡ true → F.takes_writes files.old ≡ true
        → F.failures files.new ≡ F.failures files.old }
{
    let named = find_named_type(alloc, source.reading, source.set, source.type_name, files)?;
    let form = Form::Json(layout, &named.names);
    let of = Typed {
        pool: &named.pool,
        message_type: named.message_type,
    };
    let answer = message_at(alloc, cleanup, form, of, source.file, files, out);
    clean_up(named, cleanup);
    answer
}

/// Makes it of the message of a type that the file at a path holds.
fn message_at<'a, F: Files, O: Output>(
    alloc: Global,
    cleanup: Cleanup,
    form: Form<'a, '_>,
    of: Typed<'_>,
    path: &'a str,
    files: &mut F,
    out: &mut O,
) -> Result<(), Refusal<'a>>
    requires { of.message_type.0 < length of.pool.now.messages }
    ensures comes { Comes (Sent O.written O.failures out.old out.new)
        (Cut O.written O.failures out.old out.new)
        (IsSaved F.contents files.old files.new)
        (IsUnsaved F.contents F.failures files.old files.new)
        (MessageAt F.contents F.is_steady files.old form.entry of.entry.pool.now
        of.entry.message_type.0 path.entry.now) IsNothing result }
    ensures kept { KeepsFailures F.failures files.old files.new result }
    ensures unfailing { F.is_steady files.old ≡ true → F.takes_writes files.old ≡ true
        → F.failures files.new ≡ F.failures files.old }
{
    let message = read_message(alloc, of.pool, of.message_type, path, files)?;
    let answer = make(form, &message, files, out);
    clean_up(message, cleanup);
    answer
}
