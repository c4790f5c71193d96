//! A file of a pool by its index.

ghost use Rattle.std.specs.Prelude.{◌≡◌, ◌≢◌, ◌↔◌, ◌⊎◌, None, Some, option_map, slice_get};
ghost use Rattle.pb_schema.specs.Types.{Types};
ghost use Rattle.pb_schema.specs.View.{file_view};
ghost use Rattle.pb_c_handles.specs.Held.{types_held};
ghost use Rattle.pb_c.specs.PoolParts.{IsFileAt, file_report};

use crate::pool::refusal::lay_both;
use pb_c_answers::{ABSENT, DONE, EMPTY};
use pb_c_handles::pool::{PoolHandle, put, take};
use pb_schema::{FileInfo, Pool};
use std::alloc::Global;

/// What a file is, but for its name and its package.
#[repr(C)]
#[derive(Clone, Copy, Debug, PartialEq, Eq)]
pub struct FileReport {
    /// The length of its name.
    pub name_len: usize,
    /// The length of its package.
    pub package_len: usize,
    /// How many files it imports.
    pub imports: usize,
    /// 1 where it is of the syntax proto2, else 0.
    pub proto2: u32,
}

fn report_file(file: &FileInfo) -> FileReport
    ensures { result ≡ file_report (file_view file.now) }
{
    FileReport {
        name_len: file.name.len(),
        package_len: file.package.len(),
        imports: file.imports.len(),
        proto2: u32::from(file.proto2),
    }
}

/// The file at an index.
fn file_at(pool: &Pool, index: usize) -> Option<&FileInfo>
    ensures { option_map (λ f. file_view f.now) result ≡ slice_get pool.now.files index }
{
    pool.files().get(index)
}

/// Reports the file at an index, and writes its name and its package.
fn describe_file(pool: &Pool, index: usize, report: &mut FileReport, names: &mut [u8]) -> u32
    ensures described { result ≡ DONE → IsFileAt pool.now index report.new names.old names.new }
    ensures unwritten { result ≢ DONE → (report.new ≡ report.old) × (names.new ≡ names.old) }
    ensures absent { result ≡ ABSENT ↔ (slice_get pool.now.files index ≡ None) }
    ensures answers { (result ≡ DONE) ⊎ (result ≡ ABSENT) }
{
    let Some(file) = file_at(pool, index) else {
        return ABSENT;
    };
    *report = report_file(file);
    lay_both(file.name.as_bytes(), file.package.as_bytes(), names);
    DONE
}

/// Reports the file at an index, and writes its name and after it its package, as much of both as the buffer holds.
///
/// Answers DONE; EMPTY where the handle holds nothing; or ABSENT where its pool has fewer files. All is written at DONE alone.
#[unsafe(no_mangle)]
pub extern "C" fn mb_pool_file(
    alloc: Global,
    pool: &mut PoolHandle,
    index: usize,
    report: &mut FileReport,
    names: &mut [u8],
) -> u32
    ensures described { result ≡ DONE → (ts : Types) × (types_held pool.old ≡ Some ts)
        × IsFileAt ts index report.new names.old names.new }
    ensures unwritten { result ≢ DONE → (report.new ≡ report.old) × (names.new ≡ names.old) }
    ensures empty { result ≡ EMPTY ↔ (types_held pool.old ≡ None) }
    ensures absent { result ≡ ABSENT ↔ (ts : Types) × (types_held pool.old ≡ Some ts)
        × (slice_get ts.files index ≡ None) }
    ensures answers { (result ≡ DONE) ⊎ (result ≡ EMPTY) ⊎ (result ≡ ABSENT) }
    ensures same { pool.new.seal.pool ≡ pool.old.seal.pool }
{
    let Some(shared) = take(alloc, pool) else {
        return EMPTY;
    };
    let answer = describe_file(&shared.pool, index, report, names);
    put(pool, shared);
    answer
}
