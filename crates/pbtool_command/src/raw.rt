//! The records of a file, without a schema.

ghost use Rattle.std.specs.Prelude.{◌≡◌, ◌+◌, ◌^◌, ◌<◌, ◌≤◌, ℕ, List, MatchResult, Option, true};
ghost use Rattle.pb_wire.specs.Record.{Record};
ghost use Rattle.pb_wire.specs.Schema.{blank};
ghost use Rattle.pb_wire.specs.Grammar.{IsText};
ghost use Rattle.pb_wire.specs.Limits.{full};
ghost use Rattle.pbtool_files.specs.FileMap.{IsSaved, IsUnsaved, KeepsMap};
ghost use Rattle.pbtool_command.specs.RawAnswer.{IsShownAs, RawAnswer, ShownAnswer};
ghost use Rattle.pb_listing.specs.Putting.{CutSome, SentSome};
ghost use Rattle.pb_output.specs.Sending.{Cut, Sent};
ghost use Rattle.pbtool_files.specs.Known.{IsReadOf};
ghost use Rattle.pbtool_command.specs.Steps.{Comes, IsNothing, Judges, NoFile};
ghost use Rattle.pbtool_files.specs.Refusal.{KeepsFailures};

use crate::command::RawForm;
use crate::early::read_records;
use pb_listing::{write_listing, write_nested, write_shortest};
use pb_wire::{DeviceFault, Limits, Output};
use pbtool_files::{Files, OUTPUT, Refusal, open_file};
use std::alloc::Global;

/// Shows the records of the file at a path: all of the file is judged before anything is written.
pub fn raw<'a, F: Files, O: Output>(
    alloc: Global,
    limits: Limits,
    form: RawForm,
    path: &'a str,
    files: &mut F,
    out: &mut O,
) -> Result<(), Refusal<'a>>
    requires bytes { limits.bytes < 2 ^ 31 }
    requires depth { limits.depth ≤ 100 }
    ensures comes { Comes (Sent O.written O.failures out.old out.new)
        (Cut O.written O.failures out.old out.new)
        (IsSaved F.contents files.old files.new)
        (IsUnsaved F.contents F.failures files.old files.new)
        (λ a. (content : Option (List ℕ))
        × IsReadOf F.contents F.is_steady files.old (limits.bytes + 1) path.entry.now content
        × RawAnswer limits form path.entry.now content a) IsNothing result }
    ensures kept { KeepsFailures F.failures files.old files.new result }
    ensures unfailing { F.is_steady files.old ≡ true → F.failures files.new ≡ F.failures files.old }
    ensures files { KeepsMap (F.contents files.old) (F.contents files.new) }
{
    let text = read_judged(alloc, limits, path, files)?;
    show(form, text.as_slice(), out)?;
    Ok(())
}

/// The bytes of a file, which are judged: at most one byte more than the limits allow is read.
fn read_judged<'a, F: Files>(
    alloc: Global,
    limits: Limits,
    path: &'a str,
    files: &mut F,
) -> Result<Vec<u8>, Refusal<'a>>
    ensures judged { Judges limits path.entry.now
        (IsReadOf F.contents F.is_steady files.old (limits.bytes + 1) path.entry.now) result }
    ensures kept { KeepsFailures F.failures files.old files.new result }
    ensures unfailing { F.is_steady files.old ≡ true → F.failures files.new ≡ F.failures files.old }
    ensures files { KeepsMap (F.contents files.old) (F.contents files.new) }
{
    let mut input = open_file(path, files)?;
    read_records(alloc, limits, path, &mut input)
}

/// Writes the records that the bytes encode in a form.
fn show<'a, O: Output>(form: RawForm, text: &[u8], out: &mut O) -> Result<(), Refusal<'a>>
    ensures { (rs : List Record) → IsText blank tt full text.now rs
        → Comes (Sent O.written O.failures out.old out.new)
        (Cut O.written O.failures out.old out.new) NoFile (λ _. ⊥)
        (ShownAnswer form rs) IsNothing result }
{
    match write_as(form, text, out) {
        Ok(()) => Ok(()),
        Err(_) => Err(Refusal::Device(OUTPUT)),
    }
}

fn write_as<O: Output>(form: RawForm, text: &[u8], out: &mut O) -> Result<(), DeviceFault>
    ensures { (rs : List Record) → IsText blank tt full text.now rs
        → MatchResult result (λ _. SentSome O.written O.failures out.old out.new
        (IsShownAs form rs))
        (λ _. CutSome O.written O.failures out.old out.new (IsShownAs form rs)) }
{
    match form {
        RawForm::Listing => write_listing(out, text),
        RawForm::Nested => write_nested(out, text),
        RawForm::Shortest => write_shortest(out, text),
    }
}
