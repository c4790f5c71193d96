//! An enum of a pool by its number, and its values by their indexes.

ghost use Rattle.std.specs.Prelude.{◌≡◌, ◌≢◌, ◌<◌, ◌≤◌, ◌↔◌, ◌⊎◌, None, Some, length, option_map, slice_get, string_bytes};
ghost use Rattle.pb_schema.specs.Types.{Types};
ghost use Rattle.pb_schema.specs.View.{enum_view};
ghost use Rattle.pb_c_handles.specs.Held.{types_held};
ghost use Rattle.pb_c.specs.PoolParts.{IsEnumAt, IsValueAt, enum_report, value_at};

use pb_c_answers::{ABSENT, DONE, EMPTY, NO_TYPE, write_out};
use pb_c_handles::pool::{PoolHandle, put, take};
use pb_schema::{EnumId, EnumType, Pool};
use std::alloc::Global;

/// What an enum is, but for its name.
#[repr(C)]
#[derive(Clone, Copy, Debug, PartialEq, Eq)]
pub struct EnumReport {
    /// The index of its file.
    pub file: usize,
    /// 1 where it is declared in a message type, else 0.
    pub nested: u32,
    /// The number of the message type that it is declared in, else 0.
    pub parent: usize,
    /// How many values it has.
    pub values: usize,
}

fn report_enum(entry: &EnumType) -> EnumReport
    ensures { result ≡ enum_report (enum_view entry.now) }
{
    let (nested, parent) = match entry.parent {
        Some(parent) => (1, parent.0),
        None => (0, 0),
    };
    EnumReport {
        file: entry.file,
        nested,
        parent,
        values: entry.values.len(),
    }
}

/// The enum of a number.
fn enum_at(pool: &Pool, number: usize) -> Option<&EnumType>
    ensures { option_map (λ t. enum_view t.now) result ≡ slice_get pool.now.enums number }
{
    pool.enums().get(number)
}

/// The name and the number of the value at an index of an enum.
fn value_of(entry: &EnumType, index: usize) -> Option<&(String, i32)>
    ensures { option_map (λ v. (string_bytes v.now.0, v.now.1)) result
        ≡ slice_get (enum_view entry.now).values index }
{
    entry.values.get(index)
}

/// The name and the number of the value at an index of the enum of a number.
fn value_at(pool: &Pool, number: usize, index: usize) -> Option<&(String, i32)>
    ensures { option_map (λ v. (string_bytes v.now.0, v.now.1)) result
        ≡ value_at pool.now number index }
{
    let entry = enum_at(pool, number)?;
    value_of(entry, index)
}

/// Reports the enum of a number, and writes its full name.
fn describe_enum(
    pool: &Pool,
    number: usize,
    report: &mut EnumReport,
    name: &mut [u8],
    size: &mut usize,
) -> u32
    ensures described { result ≡ DONE
        → IsEnumAt pool.now number report.new name.old name.new size.new }
    ensures unwritten { result ≢ DONE → (report.new ≡ report.old) × (name.new ≡ name.old)
        × (size.new ≡ size.old) }
    ensures no_type { result ≡ NO_TYPE ↔ length pool.now.enums ≤ number }
    ensures answers { (result ≡ DONE) ⊎ (result ≡ NO_TYPE) }
{
    if number >= pool.enums().len() {
        return NO_TYPE;
    }
    let Some(entry) = enum_at(pool, number) else {
        return NO_TYPE;
    };
    *report = report_enum(entry);
    write_out(pool.enum_name(EnumId(number)), name, size);
    DONE
}

/// Reports the number of the value at an index of the enum of a number, and writes its name.
fn describe_value(
    pool: &Pool,
    entry: usize,
    index: usize,
    number: &mut i32,
    name: &mut [u8],
    size: &mut usize,
) -> u32
    ensures described { result ≡ DONE
        → IsValueAt pool.now entry index number.new name.old name.new size.new }
    ensures unwritten { result ≢ DONE → (number.new ≡ number.old) × (name.new ≡ name.old)
        × (size.new ≡ size.old) }
    ensures no_type { result ≡ NO_TYPE ↔ length pool.now.enums ≤ entry }
    ensures absent { result ≡ ABSENT ↔ (entry < length pool.now.enums)
        × (value_at pool.now entry index ≡ None) }
    ensures answers { (result ≡ DONE) ⊎ (result ≡ NO_TYPE) ⊎ (result ≡ ABSENT) }
{
    if entry >= pool.enums().len() {
        return NO_TYPE;
    }
    let Some(value) = value_at(pool, entry, index) else {
        return ABSENT;
    };
    *number = value.1;
    write_out(value.0.as_bytes(), name, size);
    DONE
}

/// Reports the enum of a number, and writes its full name, as much of it as the buffer holds, and its whole length.
///
/// Answers DONE; EMPTY where the handle holds nothing; or NO_TYPE where its pool has no such enum. All is written at DONE alone.
#[unsafe(no_mangle)]
pub extern "C" fn mb_pool_enum(
    alloc: Global,
    pool: &mut PoolHandle,
    entry: usize,
    report: &mut EnumReport,
    name: &mut [u8],
    size: &mut usize,
) -> u32
    ensures described { result ≡ DONE → (ts : Types) × (types_held pool.old ≡ Some ts)
        × IsEnumAt ts entry report.new name.old name.new size.new }
    ensures unwritten { result ≢ DONE → (report.new ≡ report.old) × (name.new ≡ name.old)
        × (size.new ≡ size.old) }
    ensures empty { result ≡ EMPTY ↔ (types_held pool.old ≡ None) }
    ensures no_type { result ≡ NO_TYPE ↔ (ts : Types) × (types_held pool.old ≡ Some ts)
        × (length ts.enums ≤ entry) }
    ensures answers { (result ≡ DONE) ⊎ (result ≡ EMPTY) ⊎ (result ≡ NO_TYPE) }
    ensures same { pool.new.seal.pool ≡ pool.old.seal.pool }
{
    let Some(shared) = take(alloc, pool) else {
        return EMPTY;
    };
    let answer = describe_enum(&shared.pool, entry, report, name, size);
    put(pool, shared);
    answer
}

/// Reports the number of the value at an index of the enum of a number, and writes its name, as much of it as the buffer holds, and its whole
/// length.
///
/// Answers DONE; EMPTY where the handle holds nothing; NO_TYPE where its pool has no such enum; or ABSENT where the enum has fewer values. All is
/// written at DONE alone.
#[unsafe(no_mangle)]
pub extern "C" fn mb_pool_enum_value(
    alloc: Global,
    pool: &mut PoolHandle,
    entry: usize,
    index: usize,
    number: &mut i32,
    name: &mut [u8],
    size: &mut usize,
) -> u32
    ensures described { result ≡ DONE → (ts : Types) × (types_held pool.old ≡ Some ts)
        × IsValueAt ts entry index number.new name.old name.new size.new }
    ensures unwritten { result ≢ DONE → (number.new ≡ number.old) × (name.new ≡ name.old)
        × (size.new ≡ size.old) }
    ensures empty { result ≡ EMPTY ↔ (types_held pool.old ≡ None) }
    ensures no_type { result ≡ NO_TYPE ↔ (ts : Types) × (types_held pool.old ≡ Some ts)
        × (length ts.enums ≤ entry) }
    ensures absent { result ≡ ABSENT ↔ (ts : Types) × (types_held pool.old ≡ Some ts)
        × (entry < length ts.enums) × (value_at ts entry index ≡ None) }
    ensures answers { (result ≡ DONE) ⊎ (result ≡ EMPTY) ⊎ (result ≡ NO_TYPE) ⊎ (result ≡ ABSENT) }
    ensures same { pool.new.seal.pool ≡ pool.old.seal.pool }
{
    let Some(shared) = take(alloc, pool) else {
        return EMPTY;
    };
    let answer = describe_value(&shared.pool, entry, index, number, name, size);
    put(pool, shared);
    answer
}
