//! Records as bytes.

ghost use Rattle.std.specs.Prelude.{◌≡◌, ◌++◌, ◌↔◌, ◌<◌, ◌≤◌, ◌^◌, ℕ, List, length, IsTrue, IfOk, IfErr, OnOk};
ghost use Rattle.pb_wire.specs.Varint.{shortest};
ghost use Rattle.pb_wire.specs.Record.{Record, records_depth};
ghost use Rattle.pb_wire.specs.Spell.{Spells, AreRecords, shortest_record, shortest_records};
ghost use Rattle.pb_wire.specs.Ranges.{AreBytes, IsNumber, IsInRange, AreInRange};
ghost use Rattle.pb_wire.specs.Writable.{IsWritable, AreWritable};
ghost use Rattle.pb_wire.specs.Unknown.{payload_of, records_of};
ghost use Rattle.pb_wire.specs.Schema.{blank};
ghost use Rattle.pb_wire.specs.Limits.{full};
ghost use Rattle.pb_wire.specs.Grammar.{IsText};

use crate::fault::RawError;
use crate::limits::MAX_BYTES;
use crate::unknown::Unknown;
use crate::varint::put_varint;
use std::alloc::{AllocError, Global};

/// The least number above those that a record may have.
const NUMBERS: u32 = 0x2000_0000;

/// Says whether records can be written: each number is from 1 to 2^29 - 1, and no payload is longer than 2^31 - 1.
///
/// What is written can be read in one way only: an input is at most one list of records, and no encoding of a record
/// begins an encoding of another.
pub fn can_write(records: &[(u32, Unknown)]) -> bool
    ensures exact { IsTrue result ↔ AreWritable (records_of records.now) }
    ensures one_list { (rs ss : List Record) (b : List ℕ) → AreRecords rs b → AreRecords ss b → rs ≡ ss }
    ensures no_beginning { (r s : Record) (a b x y : List ℕ) → Spells r a → Spells s b → a ++ x ≡ b ++ y → (r ≡ s) × (a ≡ b) }
{
    are_writable(records)
}

#[cycle(can)]
fn are_writable(records: &[(u32, Unknown)]) -> bool
    ensures { IsTrue result ↔ AreWritable (records_of records.now) }
{
    for (number, payload) in records {
        if !is_writable(*number, payload) {
            return false;
        }
    }
    true
}

#[cycle(can)]
fn is_writable(number: u32, payload: &Unknown) -> bool
    ensures { IsTrue result ↔ (IsNumber number × IsWritable (payload_of payload.now)) }
{
    if number == 0 || number >= NUMBERS {
        return false;
    }
    match payload {
        Unknown::Len(bytes) => bytes.len() <= MAX_BYTES as usize,
        Unknown::Group(inside) => are_writable(inside),
        Unknown::Varint(_) => true,
        Unknown::I64(_) => true,
        Unknown::I32(_) => true,
    }
}

/// The shortest encoding of records that `can_write` accepts. Fails only when memory runs out.
pub fn write_raw(alloc: Global, records: &[(u32, Unknown)]) -> Result<Vec<u8>, RawError>
    requires { AreWritable (records_of records.now) }
    ensures shortest { IfOk result (λ v. v.items ≡ shortest_records (records_of records.now)) }
    ensures spelled { IfOk result (λ v. AreRecords (records_of records.now) v.items) }
    ensures read_back { IfOk result (λ v. length v.items < 2 ^ 31 → records_depth (records_of records.now) ≤ 100
        → IsText blank tt full v.items (records_of records.now)) }
    ensures memory { IfErr result (λ e. e ≡ RawError.Memory) }
{
    let mut out = Vec::new(alloc);
    match push_records(&mut out, records) {
        Ok(()) => Ok(out),
        Err(_) => Err(RawError::Memory),
    }
}

#[cycle(push)]
fn push_records(out: &mut Vec<u8>, records: &[(u32, Unknown)]) -> Result<(), AllocError>
    ensures pushed { OnOk result (out.new.items ≡ out.old.items ++ shortest_records (records_of records.now)) }
    ensures ranges { OnOk result (AreInRange (records_of records.now)) }
{
    for (number, payload) in records {
        push_record(out, *number, payload)?;
    }
    Ok(())
}

#[cycle(push)]
fn push_record(out: &mut Vec<u8>, number: u32, payload: &Unknown) -> Result<(), AllocError>
    ensures pushed { OnOk result (out.new.items ≡ out.old.items ++ shortest_record number (payload_of payload.now)) }
    ensures ranges { OnOk result (IsInRange (payload_of payload.now)) }
{
    let tag = u64::from(number) * 8;
    match payload {
        Unknown::Varint(n) => {
            push_varint(out, tag)?;
            push_varint(out, *n)?;
        }
        Unknown::I64(n) => {
            push_varint(out, tag + 1)?;
            out.extend_from_slice(&n.to_le_bytes())?;
        }
        Unknown::Len(bytes) => {
            push_varint(out, tag + 2)?;
            push_varint(out, bytes.len() as u64)?;
            push_bytes(out, bytes)?;
        }
        Unknown::Group(inside) => {
            push_varint(out, tag + 3)?;
            push_records(out, inside)?;
            push_varint(out, tag + 4)?;
        }
        Unknown::I32(n) => {
            push_varint(out, tag + 5)?;
            out.extend_from_slice(&n.to_le_bytes())?;
        }
    }
    Ok(())
}

fn push_bytes(out: &mut Vec<u8>, bytes: &[u8]) -> Result<(), AllocError>
    ensures pushed { OnOk result (out.new.items ≡ out.old.items ++ bytes.now) }
    ensures ranges { AreBytes bytes.now }
{
    out.extend_from_slice(bytes)
}

fn push_varint(out: &mut Vec<u8>, number: u64) -> Result<(), AllocError>
    ensures { OnOk result (out.new.items ≡ out.old.items ++ shortest number) }
{
    out.extend_from_slice(put_varint(number).as_slice())
}
