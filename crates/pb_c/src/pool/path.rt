//! The steps of a place, by a path with the names of fields.

ghost use Rattle.std.specs.Prelude.{◌≡◌, ◌≢◌, ◌↔◌, ◌⊎◌, ℕ, None, Ok, Err};
ghost use Rattle.pb_c_paths.specs.Path.{Read, read_view};
ghost use Rattle.pb_c_paths.specs.declared.unread.Unread.TheVariants.{NoField, NoPath};
ghost use Rattle.pb_c_handles.specs.Held.{types_held};
ghost use Rattle.pb_c_answers.specs.Reporting.{laid_over};
ghost use Rattle.pb_c_answers.specs.Typed.{LacksType};
ghost use Rattle.pb_c.specs.PathSteps.{IsPathHeld, ReportsPath, refused_at};

use pb_c_answers::{ABSENT, BAD_PLACE, DONE, EMPTY, MEMORY, NO_TYPE, lay_over, type_numbered};
use pb_c_handles::pool::{PoolHandle, put, take};
use pb_c_message::PlainValue;
use pb_c_paths::{ReadPath, Unread, read_path};
use std::alloc::Global;

/// What a path comes to: how many steps it has, how many of them are strings, and how many bytes these have.
/// Or where it is refused.
#[repr(C)]
#[derive(Clone, Copy, Debug, PartialEq, Eq)]
pub struct PathReport {
    pub steps: usize,
    pub strings: usize,
    pub bytes: usize,
    /// The byte of the path where it is refused, else 0.
    pub byte: usize,
}

fn lay_steps(steps: &[PlainValue], buffer: &mut [PlainValue])
    ensures { buffer.new ≡ laid_over steps.now buffer.old }
{
    let size = steps.len().min(buffer.len());
    buffer[..size].copy_from_slice(&steps[..size]);
}

fn lay_lengths(lengths: &[usize], buffer: &mut [usize])
    ensures { buffer.new ≡ laid_over lengths.now buffer.old }
{
    let size = lengths.len().min(buffer.len());
    buffer[..size].copy_from_slice(&lengths[..size]);
}

/// Writes what a path comes to, as far as the buffers hold it.
fn report_path(
    read: &ReadPath,
    place: &mut [PlainValue],
    lengths: &mut [usize],
    strings: &mut [u8],
) -> PathReport
    ensures { ReportsPath (read_view read.now) place.old place.new lengths.old lengths.new
        strings.old strings.new result }
{
    lay_steps(&read.steps, place);
    lay_lengths(&read.lengths, lengths);
    lay_over(&read.strings, strings);
    PathReport {
        steps: read.steps.len(),
        strings: read.lengths.len(),
        bytes: read.strings.len(),
        byte: 0,
    }
}

/// Where a path is refused.
fn refused_at(byte: usize) -> PathReport
    ensures { result ≡ refused_at byte }
{
    PathReport {
        steps: 0,
        strings: 0,
        bytes: 0,
        byte,
    }
}

/// Turns a path with the names of fields, as `lines[2].article` or `stock["pen"]`, into the steps of a place,
/// in messages of the type of this number. A step that is a string has its index among the strings. Their
/// lengths are written beside them, and they themselves one after another. As much is written as the buffers
/// hold, and the whole numbers are reported. The empty path has no step.
///
/// Answers DONE; EMPTY where the handle holds nothing; NO_TYPE where its pool has no such type; ABSENT where
/// no name of a field begins at the byte that is reported; BAD_PLACE where the path does not go on there as
/// it has to; or MEMORY. The steps are written at DONE alone.
#[unsafe(no_mangle)]
pub extern "C" fn mb_path(
    alloc: Global,
    pool: &mut PoolHandle,
    message_type: u32,
    path: &[u8],
    place: &mut [PlainValue],
    lengths: &mut [usize],
    strings: &mut [u8],
    report: &mut PathReport,
) -> u32
    ensures read { result ≡ DONE → (r : Read)
        × IsPathHeld (types_held pool.old) message_type path.now (Ok r)
        × ReportsPath r place.old place.new lengths.old lengths.new strings.old strings.new
        report.new }
    ensures no_field { result ≡ ABSENT → (b : ℕ) × (report.new ≡ refused_at b)
        × IsPathHeld (types_held pool.old) message_type path.now (Err (NoField b)) }
    ensures no_path { result ≡ BAD_PLACE → (b : ℕ) × (report.new ≡ refused_at b)
        × IsPathHeld (types_held pool.old) message_type path.now (Err (NoPath b)) }
    ensures unwritten { result ≢ DONE → (place.new ≡ place.old) × (lengths.new ≡ lengths.old)
        × (strings.new ≡ strings.old) }
    ensures unreported { (result ≡ EMPTY) ⊎ (result ≡ NO_TYPE) ⊎ (result ≡ MEMORY)
        → report.new ≡ report.old }
    ensures empty { result ≡ EMPTY ↔ (types_held pool.old ≡ None) }
    ensures no_type { result ≡ NO_TYPE ↔ LacksType (types_held pool.old) message_type }
    ensures answers { (result ≡ DONE) ⊎ (result ≡ EMPTY) ⊎ (result ≡ NO_TYPE) ⊎ (result ≡ ABSENT)
        ⊎ (result ≡ BAD_PLACE) ⊎ (result ≡ MEMORY) }
    ensures same { pool.new.seal.pool ≡ pool.old.seal.pool }

    // Each path is answered by what comes of it, unless memory runs out.
    ensures accepted { (r : Read) → IsPathHeld (types_held pool.old) message_type path.now (Ok r)
        → (result ≡ DONE) ⊎ (result ≡ MEMORY) }
    ensures unnamed { (b : ℕ)
        → IsPathHeld (types_held pool.old) message_type path.now (Err (NoField b))
        → (result ≡ ABSENT) ⊎ (result ≡ MEMORY) }
    ensures refused { (b : ℕ)
        → IsPathHeld (types_held pool.old) message_type path.now (Err (NoPath b))
        → (result ≡ BAD_PLACE) ⊎ (result ≡ MEMORY) }
{
    let Some(shared) = take(alloc, pool) else {
        return EMPTY;
    };
    let Some(found) = type_numbered(&shared.pool, message_type) else {
        put(pool, shared);
        return NO_TYPE;
    };
    let read = read_path(alloc, &shared.pool, found.0, path);
    put(pool, shared);
    match read {
        Ok(read) => {
            *report = report_path(&read, place, lengths, strings);
            DONE
        }
        Err(Unread::NoField(byte)) => {
            *report = refused_at(byte);
            ABSENT
        }
        Err(Unread::NoPath(byte)) => {
            *report = refused_at(byte);
            BAD_PLACE
        }
        Err(Unread::Memory) => MEMORY,
    }
}
