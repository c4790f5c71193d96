//! What happens to messages of the types of one descriptor set that are read by those of another.

ghost use Rattle.std.specs.Prelude.{◌≡◌, option_map, true, IfSome, MatchResult};
ghost use Rattle.pb_output.specs.Sending.{Cut, Sent};
ghost use Rattle.pbtool_files.specs.FileMap.{IsSaved, IsUnsaved};
ghost use Rattle.pbtool_files.specs.Refusal.{KeepsFailures};
ghost use Rattle.pbtool_command.specs.CompatAnswer.{AnswersBreak, ComparesTo, verdict_answer};
ghost use Rattle.pbtool_command.specs.Steps.{Comes, CompatOf, IsNothing, NoFile};

use crate::cleanup::{Cleanup, clean_up};
use crate::command::Comparison;
use pb_compat_lines::{Readers, Verdict, judge};
use pb_schema::Pool;
use pb_wire::{DeviceFault, Output, write_all};
use pbtool_files::{Files, OUTPUT, Refusal, pool_at};
use std::alloc::Global;

/// Shows what happens to messages of the types of the old set that are read by the new one, and if asked also the other way.
pub fn compat<'a, F: Files, O: Output>(
    alloc: Global,
    cleanup: Cleanup,
    comparison: &Comparison<'a>,
    files: &mut F,
    out: &mut O,
) -> Result<(), Refusal<'a>>
    ensures comes { Comes (Sent O.written O.failures out.old out.new)
        (Cut O.written O.failures out.old out.new)
        (IsSaved F.contents files.old files.new)
        (IsUnsaved F.contents F.failures files.old files.new)
        (CompatOf F.contents F.is_steady files.old comparison.now) IsNothing result }
    ensures kept { KeepsFailures F.failures files.old files.new result }
    ensures unfailing { F.is_steady files.old ≡ true → F.failures files.new ≡ F.failures files.old }
{
    let before = pool_at(alloc, comparison.reading, comparison.old, files)?;
    let after = pool_at(alloc, comparison.reading, comparison.new, files)?;
    let answer = show(
        alloc,
        comparison.readers,
        &before.pool,
        &after.pool,
        comparison.type_name,
        out,
    );
    clean_up(before, cleanup);
    clean_up(after, cleanup);
    answer
}

/// Shows what a comparison of two pools reports.
fn show<'a, O: Output>(
    alloc: Global,
    readers: Readers,
    old: &Pool,
    new: &Pool,
    type_name: Option<&'a str>,
    out: &mut O,
) -> Result<(), Refusal<'a>>
    ensures { Comes (Sent O.written O.failures out.old out.new)
        (Cut O.written O.failures out.old out.new) NoFile (λ _. ⊥)
        (ComparesTo readers old.now new.now (option_map (λ n. n.now) type_name.entry))
        IsNothing result }
{
    match judge(alloc, readers, old, new, type_name)? {
        Some(verdict) => print(&verdict, out),
        None => Err(unknown(type_name)),
    }
}

/// No message type has the name.
fn unknown(type_name: Option<&str>) -> Refusal<'_>
    ensures { IfSome type_name.entry (λ n. result ≡ Refusal.UnknownType n) }
{
    Refusal::UnknownType(type_name.unwrap_or(""))
}

fn print<'a, O: Output>(verdict: &Verdict, out: &mut O) -> Result<(), Refusal<'a>>
    ensures { Comes (Sent O.written O.failures out.old out.new)
        (Cut O.written O.failures out.old out.new) NoFile (λ _. ⊥)
        (λ a. a ≡ verdict_answer verdict.now) IsNothing result }
{
    match write_text(&verdict.text, out) {
        Ok(()) => answer_of(verdict),
        Err(_) => Err(Refusal::Device(OUTPUT)),
    }
}

fn write_text<O: Output>(text: &[u8], out: &mut O) -> Result<(), DeviceFault>
    ensures { MatchResult result (λ _. Sent O.written O.failures out.old out.new text.now)
        (λ _. Cut O.written O.failures out.old out.new text.now) }
{
    match write_all(out, text) {
        Ok(()) => Ok(()),
        Err(_) => Err(DeviceFault),
    }
}

/// What is answered when the lines are out.
fn answer_of<'a>(verdict: &Verdict) -> Result<(), Refusal<'a>>
    ensures { AnswersBreak verdict.now.breaks result }
{
    if verdict.breaks {
        return Err(Refusal::Breaks);
    }
    Ok(())
}
