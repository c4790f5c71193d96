//! Which messages of an old type can be read as a new one.

ghost use Rattle.std.specs.Prelude.{◌≡◌, ◌≢◌, ◌++◌, ◌≤◌, ◌↔◌, ◌⊎◌, List, None, length, map, Err, IfOk, OnOk, IfErr};
ghost use Rattle.pb_schema.specs.Types.{Types};
ghost use Rattle.pb_compat.specs.Pairs.{IsComparison};
ghost use Rattle.pb_compat.specs.declared.difference.ComparedTypes.{ComparedTypes as Compared};
ghost use Rattle.pb_c.specs.Compared.{IsReported, difference_row, rows_of, severity_number};
ghost use Rattle.pb_c_handles.specs.Held.{types_held};
ghost use Rattle.pb_c_answers.specs.Reporting.{laid_over};
ghost use Rattle.pb_c_answers.specs.Typed.{HasType, LacksType};

pub(crate) mod witness;

use pb_c_answers::{DONE, EMPTY, MEMORY, NO_TYPE, type_numbered};
use pb_c_handles::pool::{PoolHandle, put, take};
use pb_compat::{ComparedTypes, Difference, Severity, compare};
use pb_schema::Pool;
use std::alloc::{AllocError, Global};

/// What a difference does: some message is refused, or a value is read as another.
pub const BREAKS: u32 = 1;

/// The records become unknown, and stay.
pub const LOSES: u32 = 2;

/// The value is kept, but not always whether it was set.
pub const PRESENCE: u32 = 3;

/// The value is kept, in another kind or shape.
pub const CONVERTS: u32 = 4;

/// The field has another name.
pub const RENAMES: u32 = 5;

/// A difference: of which types, at the field of which number, and what it does.
#[repr(C)]
#[derive(Clone, Copy, Debug, PartialEq, Eq)]
pub struct DifferenceReport {
    /// The number of the old message type.
    pub old_type: usize,
    /// The number of the new message type.
    pub new_type: usize,
    /// The number of the old field.
    pub number: u32,
    /// What the difference does.
    pub severity: u32,
}

/// The number of what a difference does.
fn severity_number(severity: Severity) -> u32
    ensures { result ≡ severity_number severity }
{
    match severity {
        Severity::BreaksReading => BREAKS,
        Severity::Loses => LOSES,
        Severity::ChangesPresence => PRESENCE,
        Severity::Converts => CONVERTS,
        Severity::Renames => RENAMES,
    }
}

/// A difference as it is reported.
fn row_of(old_type: usize, new_type: usize, difference: Difference) -> DifferenceReport
    ensures { result ≡ difference_row old_type new_type difference }
{
    DifferenceReport {
        old_type,
        new_type,
        number: difference.number,
        severity: severity_number(difference.severity),
    }
}

/// Puts the differences of two types at the end of those that are reported.
fn push_rows(
    rows: &mut Vec<DifferenceReport>,
    old_type: usize,
    new_type: usize,
    differences: &[Difference],
) -> Result<(), AllocError>
    ensures { OnOk result (rows.new.items ≡ rows.old.items ++ map
        (difference_row old_type new_type) differences.now) }
{
    for difference in differences {
        rows.push(row_of(old_type, new_type, *difference))?;
    }
    Ok(())
}

/// All differences, as they are reported.
fn rows_of(alloc: Global, compared: &[ComparedTypes]) -> Result<Vec<DifferenceReport>, AllocError>
    ensures { IfOk result (λ v. v.items ≡ rows_of compared.now) }
{
    let mut rows = Vec::new(alloc);
    for types in compared {
        push_rows(&mut rows, types.old.0, types.new.0, &types.differences)?;
    }
    Ok(rows)
}

/// Lays differences over the start of a buffer, as many as it holds.
fn lay_rows(rows: &[DifferenceReport], buffer: &mut [DifferenceReport])
    ensures { buffer.new ≡ laid_over rows.now buffer.old }
{
    let size = rows.len().min(buffer.len());
    buffer[..size].copy_from_slice(&rows[..size]);
}

/// The differences between the types of two numbers, or what a call answers.
fn differences_of(
    alloc: Global,
    old: &Pool,
    old_type: u32,
    new: &Pool,
    new_type: u32,
) -> Result<Vec<DifferenceReport>, u32>
    ensures compared { IfOk result (λ v. (cs : List Compared)
        × IsComparison old.now new.now (old_type, new_type) cs × (v.items ≡ rows_of cs)) }
    ensures no_type { result ≡ Err NO_TYPE ↔ (length old.now.messages ≤ old_type)
        ⊎ (length new.now.messages ≤ new_type) }
    ensures answers { IfErr result (λ a. (a ≡ NO_TYPE) ⊎ (a ≡ MEMORY)) }
{
    let Some(from) = type_numbered(old, old_type) else {
        return Err(NO_TYPE);
    };
    let Some(to) = type_numbered(new, new_type) else {
        return Err(NO_TYPE);
    };
    let Ok(compared) = compare(alloc, old, from, new, to) else {
        return Err(MEMORY);
    };
    match rows_of(alloc, &compared) {
        Ok(rows) => Ok(rows),
        Err(_) => Err(MEMORY),
    }
}

/// Reports the differences between the types of two numbers.
fn report_differences(
    alloc: Global,
    old: &Pool,
    old_type: u32,
    new: &Pool,
    new_type: u32,
    out: &mut [DifferenceReport],
    count: &mut usize,
) -> u32
    ensures reported { result ≡ DONE
        → IsReported old.now old_type new.now new_type out.old out.new count.new }
    ensures unreported { result ≢ DONE → (out.new ≡ out.old) × (count.new ≡ count.old) }
    ensures no_type { result ≡ NO_TYPE ↔ (length old.now.messages ≤ old_type)
        ⊎ (length new.now.messages ≤ new_type) }
    ensures answers { (result ≡ DONE) ⊎ (result ≡ NO_TYPE) ⊎ (result ≡ MEMORY) }
{
    match differences_of(alloc, old, old_type, new, new_type) {
        Ok(rows) => {
            lay_rows(&rows, out);
            *count = rows.len();
            DONE
        }
        Err(answer) => answer,
    }
}

/// Reports what happens to messages of the type of this number in the old pool that are read as the type of that number in the new one: each
/// difference between fields of these types, and of the types that their fields lead to, by docs/COMPAT.md (language guide, "Updating A Message
/// Type"). As many are written as the buffer holds, and their number is reported.
///
/// Answers DONE; EMPTY where a handle holds nothing; NO_TYPE where a pool has no such type; or MEMORY. Differences and their number are
/// written at DONE alone.
#[unsafe(no_mangle)]
pub extern "C" fn mb_compat(
    alloc: Global,
    old_pool: &mut PoolHandle,
    old_type: u32,
    new_pool: &mut PoolHandle,
    new_type: u32,
    out: &mut [DifferenceReport],
    count: &mut usize,
) -> u32
    ensures reported { result ≡ DONE → (ts us : Types)
        × HasType (types_held old_pool.old) old_type ts
        × HasType (types_held new_pool.old) new_type us
        × IsReported ts old_type us new_type out.old out.new count.new }
    ensures unreported { result ≢ DONE → (out.new ≡ out.old) × (count.new ≡ count.old) }
    ensures empty { result ≡ EMPTY ↔ (types_held old_pool.old ≡ None)
        ⊎ (types_held new_pool.old ≡ None) }
    ensures no_type { result ≡ NO_TYPE → LacksType (types_held old_pool.old) old_type
        ⊎ LacksType (types_held new_pool.old) new_type }
    ensures typed { (ts us : Types) → HasType (types_held old_pool.old) old_type ts
        → HasType (types_held new_pool.old) new_type us → (result ≡ DONE) ⊎ (result ≡ MEMORY) }
    ensures answers { (result ≡ DONE) ⊎ (result ≡ EMPTY) ⊎ (result ≡ NO_TYPE) ⊎ (result ≡ MEMORY) }
    ensures same { (old_pool.new.seal.pool ≡ old_pool.old.seal.pool)
        × (new_pool.new.seal.pool ≡ new_pool.old.seal.pool) }
{
    let Some(from) = take(alloc, old_pool) else {
        return EMPTY;
    };
    let Some(to) = take(alloc, new_pool) else {
        put(old_pool, from);
        return EMPTY;
    };
    let answer = report_differences(alloc, &from.pool, old_type, &to.pool, new_type, out, count);
    put(old_pool, from);
    put(new_pool, to);
    answer
}
