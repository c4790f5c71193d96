//! The elements of a run go where they belong.

ghost use Rattle.std.specs.Prelude.{◌≡◌, ◌++◌, map, OnOk};
ghost use Rattle.pb_wire.specs.Unknown.{records_of};
ghost use Rattle.pb_value.specs.View.{body_view, value_view};
ghost use Rattle.pb_decode_parts.specs.Values.Run.{put_records, put_run, put_each, with_each};
ghost use Rattle.pb_decode_parts.specs.Open.PartView.{part_view};

use crate::error::memory_alone;
use crate::{Part, Put, Run};
use pb_value::bodies::{push_element, put_field};
use pb_value::{Body, Content, Value};
use pb_wire::Unknown;
use std::alloc::Global;

/// Puts values at the end of the list of a number. Where there is no list yet, they are it.
fn store_all(alloc: Global, message: &mut Body, number: u32, values: Vec<Value>) -> Put
    ensures { OnOk result (body_view message.new ≡ with_each number (map value_view values.items) (body_view message.old)) }
{
    if message.fields.contains_key(&number) {
        for value in values {
            push_element(alloc, message, number, value).map_err(memory_alone)?;
        }
        return Ok(());
    }
    if values.is_empty() {
        return Ok(());
    }
    put_field(message, number, Content::List(values)).map_err(memory_alone)
}

/// Puts values at the end of the list of a number in the part that its record belongs to.
pub fn put_elements(alloc: Global, part: &mut Part, number: u32, values: Vec<Value>) -> Put
    ensures { OnOk result (part_view part.new ≡ put_each number (map value_view values.items) (part_view part.old)) }
{
    match part {
        Part::Message(_, body) => store_all(alloc, body, number, values),
        Part::Entry(_) => Ok(()),
        Part::Group(_) => Ok(()),
    }
}

/// Puts records after others. Where there are none, they are them.
#[inline(always)]
fn append(records: &mut Vec<(u32, Unknown)>, mut more: Vec<(u32, Unknown)>) -> Put
    ensures { OnOk result (records.new.items ≡ records.old.items ++ more.items) }
{
    if records.is_empty() {
        *records = more;
        return Ok(());
    }
    Ok(records.append(&mut more)?)
}

/// Puts unknown records into the part they belong to. An entry drops them.
fn put_records(part: &mut Part, more: Vec<(u32, Unknown)>) -> Put
    ensures { OnOk result (part_view part.new ≡ put_records (records_of more.items) (part_view part.old)) }
{
    match part {
        Part::Message(_, body) => Ok(append(&mut body.unknown, more)?),
        Part::Entry(_) => Ok(()),
        Part::Group(records) => Ok(append(records, more)?),
    }
}

/// Puts the elements of a run into the part that holds the list of a number: the values at the end of the list, and the
/// undeclared numbers, which few runs have, among the unknown records.
pub fn put_run(alloc: Global, part: &mut Part, number: u32, run: Run) -> Put
    ensures { OnOk result (part_view part.new ≡ put_run number run (part_view part.old)) }
{
    let Run { values, undeclared } = run;
    if !undeclared.is_empty() {
        put_records(part, undeclared)?;
    }
    put_elements(alloc, part, number, values)
}
