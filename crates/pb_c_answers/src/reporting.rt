//! What a call reports to its caller.

ghost use Rattle.std.specs.Prelude.{◌≡◌, map};
ghost use Rattle.pb_wire.specs.Fault.{fault};
ghost use Rattle.pb_c_answers.specs.Reporting.{Tells, laid_over, told_step};

use pb_wire::{Cause, PathStep};

/// What was asked is done.
pub const DONE: u32 = 0;

/// A limit is above the greatest.
pub const BAD_LIMITS: u32 = 1;

/// The pool has no message type of that name or number.
pub const NO_TYPE: u32 = 2;

/// The handle holds nothing.
pub const EMPTY: u32 = 3;

/// The name of a source is not UTF-8, or there are not as many names as texts.
pub const BAD_NAME: u32 = 4;

/// The bytes end before their frame does.
pub const PART: u32 = 5;

/// The type has no such field, or the message has nothing like that at the place.
pub const ABSENT: u32 = 6;

/// The steps say no place.
pub const BAD_PLACE: u32 = 7;

/// The value is none.
pub const BAD_VALUE: u32 = 8;

/// The bytes have a fault, which is reported.
pub const FAULT: u32 = 13;

/// Memory ran out.
pub const MEMORY: u32 = 14;

/// What would be made nests more than 100 levels deep.
pub const TOO_DEEP: u32 = 27;

/// What would be written has more than 2^31 - 1 bytes.
pub const TOO_LARGE: u32 = 31;

/// The decoder has given its message or its fault, or lost what it had to lack of memory.
pub const FINISHED: u32 = 43;

/// A fault of bytes, but for its path.
#[repr(C)]
#[derive(Clone, Copy, Debug, PartialEq, Eq)]
pub struct FaultReport {
    /// Where.
    pub byte: u64,
    /// How many steps its path has, whether or not the buffer holds them.
    pub steps: usize,
    /// Why: the number of a cause.
    pub cause: u32,
}

/// A step of a path, outermost first: a record, by its number and by how many whole records of that number come before it in what
/// holds it.
#[repr(C)]
#[derive(Clone, Copy, Debug, PartialEq, Eq)]
pub struct Step {
    pub number: u32,
    pub before: u32,
}

/// Lays bytes over the front of a buffer, as many as it holds.
pub fn lay_over(bytes: &[u8], buffer: &mut [u8])
    ensures { buffer.new ≡ laid_over bytes.now buffer.old }
{
    let size = bytes.len().min(buffer.len());
    buffer[..size].copy_from_slice(&bytes[..size]);
}

/// Lays the steps of a path over the front of a buffer, as many as it holds.
fn lay_path(path: &[PathStep], buffer: &mut [Step])
    ensures { buffer.new ≡ laid_over (map told_step path.now) buffer.old }
{
    let size = path.len().min(buffer.len());
    for i in 0..size {
        buffer[i] = Step {
            number: path[i].number,
            before: path[i].occurrence,
        };
    }
}

/// Tells a fault, and answers so.
pub fn tell_fault(
    byte: u64,
    path: &[PathStep],
    cause: Cause,
    report: &mut FaultReport,
    buffer: &mut [Step],
) -> u32
    ensures answer { result ≡ FAULT }
    ensures told { Tells (fault byte path.now cause) report.new buffer.old buffer.new }
{
    *report = FaultReport {
        byte,
        steps: path.len(),
        cause: u32::from(cause.number()),
    };
    lay_path(path, buffer);
    FAULT
}
