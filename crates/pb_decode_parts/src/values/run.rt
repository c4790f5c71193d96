//! Packed lists: runs of their elements, and the values of one that is complete.

ghost use Rattle.std.specs.Prelude.{◌≡◌, ◌≤◌, ◌<◌, [], None, IsTrue, length, IfOk, IfSome, IfNone};
ghost use Rattle.pb_schema.specs.Kinds.{wire_type_of, closed_enum};
ghost use Rattle.pb_decode_parts.specs.Values.Puts.{GoesOn, TellsRun, ListGoesOn};
ghost use Rattle.pb_wire.specs.Scan.{IsNumberType};

use crate::values::put::{is_undeclared, unknown_number};
use crate::{NoMemory, number_value};
use pb_schema::{Kind, Pool};
use pb_value::Value;
use pb_wire::{Scanned, Unknown, before_end, left_after, scan_number};
use std::alloc::Global;

/// What the elements of a run are, each sort in its order. The unknown records have the number of the list.
#[derive(Drop)]
pub struct Run {
    pub values: Vec<Value>,
    pub undeclared: Vec<(u32, Unknown)>,
}

/// How many of the bytes end a varint.
fn varint_ends(bytes: &[u8]) -> usize {
    let mut ends = 0usize;
    for byte in bytes {
        ends = ends.wrapping_add(usize::from(*byte < 0x80));
    }
    ends
}

/// How many elements of a kind end within some bytes, where they are sound: space for all of them.
fn most_elements(kind: Kind, bytes: &[u8]) -> usize {
    match kind.wire_type() {
        1 => bytes.len() / 8,
        5 => bytes.len() / 4,
        _ => varint_ends(bytes),
    }
}

/// Puts the element at the start of some bytes, with this many bytes before the known end, after those of its sort, and how many
/// bytes it takes, if it is complete there. A number that its closed enum doesn't declare is an unknown record.
#[inline(always)]
fn add_element(
    pool: &Pool,
    kind: Kind,
    number: u32,
    bytes: &[u8],
    left: Option<u32>,
    run: &mut Run,
) -> Result<Option<usize>, NoMemory>
    requires { IsNumberType (wire_type_of kind) }
    ensures within { IfOk result (λ o. IfSome o (λ n. (0 < n) × (n ≤ length bytes.now))) }
    ensures none { IfOk result (λ o. IfNone o (run.new ≡ run.old)) }
    ensures put { IfOk result (λ o. IfSome o (GoesOn pool.now number kind bytes.now left run.old run.new)) }
{
    match scan_number(kind.wire_type(), bytes, left) {
        Scanned::Whole(value, size) => {
            if is_undeclared(pool, kind, value) {
                run.undeclared.push((number, unknown_number(value)))?;
            } else {
                run.values.push(number_value(kind, value))?;
            }
            Ok(Some(size))
        }
        Scanned::Short | Scanned::Fault(_) => Ok(None),
    }
}

/// Puts the elements that are complete at the start of some bytes, one after another, after those of their sorts, and how many
/// bytes they take.
fn add_elements(
    pool: &Pool,
    kind: Kind,
    number: u32,
    bytes: &[u8],
    left: Option<u32>,
    run: &mut Run,
) -> Result<usize, NoMemory>
    requires { IsNumberType (wire_type_of kind) }
    ensures within { IfOk result (λ n. n ≤ length bytes.now) }
    ensures put { IfOk result (GoesOn pool.now number kind bytes.now left run.old run.new) }
{
    let end = before_end(bytes, left);
    let mut here = 0;
    while here < end {
        let rest = &bytes[here..];
        let Some(size) = add_element(pool, kind, number, rest, left_after(left, here), run)? else {
            return Ok(here);
        };
        here += size;
    }
    Ok(here)
}

/// The elements that are complete at the start of some bytes, with this many bytes before the known end, and how many bytes they take.
/// Their list has this number.
pub fn read_run(
    alloc: Global,
    pool: &Pool,
    number: u32,
    kind: Kind,
    bytes: &[u8],
    left: Option<u32>,
) -> Result<(Run, usize), NoMemory>
    requires { IsNumberType (wire_type_of kind) }
    ensures within { IfOk result (λ r. r.1 ≤ length bytes.now) }
    ensures put { TellsRun pool.now number kind bytes.now left result }
{
    let most = most_elements(kind, &bytes[..before_end(bytes, left)]);
    let mut run = Run {
        values: Vec::with_capacity(alloc, most)?,
        undeclared: Vec::new(alloc),
    };
    let used = add_elements(pool, kind, number, bytes, left, &mut run)?;
    // Undeclared numbers took none of the space.
    run.values.shrink_to_fit();
    Ok((run, used))
}

/// Puts the values of the elements of a payload after the others, and says whether each is complete.
#[inline(always)]
fn push_values(kind: Kind, payload: &[u8], values: &mut Vec<Value>) -> Result<bool, NoMemory>
    requires number { IsNumberType (wire_type_of kind) }
    requires open { closed_enum kind ≡ None }
    ensures { IfOk result (λ all. IsTrue all → ListGoesOn kind payload.now values.old.items values.new.items (length payload.now)) }
{
    let mut here = 0;
    while here < payload.len() {
        let token = scan_number(kind.wire_type(), &payload[here..], None);
        let Scanned::Whole(value, size) = token else {
            return Ok(false);
        };
        values.push(number_value(kind, value))?;
        here += size;
    }
    Ok(true)
}

/// As `push_values`, by a loop for each kind that has numbers. The numbers of a closed enum are not read here.
#[inline(always)]
fn push_by_kind(kind: Kind, payload: &[u8], values: &mut Vec<Value>) -> Result<bool, NoMemory>
    ensures { IfOk result (λ all. IsTrue all → ListGoesOn kind payload.now values.old.items values.new.items (length payload.now)) }
{
    match kind {
        Kind::Int32 => push_values(Kind::Int32, payload, values),
        Kind::Int64 => push_values(Kind::Int64, payload, values),
        Kind::Uint32 => push_values(Kind::Uint32, payload, values),
        Kind::Uint64 => push_values(Kind::Uint64, payload, values),
        Kind::Sint32 => push_values(Kind::Sint32, payload, values),
        Kind::Sint64 => push_values(Kind::Sint64, payload, values),
        Kind::Bool => push_values(Kind::Bool, payload, values),
        Kind::Enum(id) => push_values(Kind::Enum(id), payload, values),
        Kind::Fixed64 => push_values(Kind::Fixed64, payload, values),
        Kind::Sfixed64 => push_values(Kind::Sfixed64, payload, values),
        Kind::Double => push_values(Kind::Double, payload, values),
        Kind::Fixed32 => push_values(Kind::Fixed32, payload, values),
        Kind::Sfixed32 => push_values(Kind::Sfixed32, payload, values),
        Kind::Float => push_values(Kind::Float, payload, values),
        _ => Ok(false),
    }
}

/// The values of a packed list whose payload this is, if each element is complete. Its kind is not a closed enum.
pub fn read_list(alloc: Global, kind: Kind, payload: &[u8]) -> Result<Option<Vec<Value>>, NoMemory>
    ensures { IfOk result (λ o. IfSome o (λ values. ListGoesOn kind payload.now [] values.items (length payload.now))) }
{
    let mut values = Vec::with_capacity(alloc, most_elements(kind, payload))?;
    let all = push_by_kind(kind, payload, &mut values)?;
    if all { Ok(Some(values)) } else { Ok(None) }
}
