//! Why no pool is made, as it is reported.

ghost use Rattle.std.specs.Prelude.{◌≡◌, ◌++◌, ℕ, List, IfSome};
ghost use Rattle.pb_c.specs.PoolFault.{TellsBytes, TellsRefusal, link_fault, set_fault};
ghost use Rattle.pb_c_answers.specs.Reporting.{laid_over};

use pb_c_answers::{FaultReport, MEMORY, Step, lay_over, tell_fault};
use pb_descr::DescrError;
use pb_link::LinkError;

/// Where declarations are refused. What says nothing of an answer is 0.
#[repr(C)]
#[derive(Clone, Copy, Debug, PartialEq, Eq)]
pub struct Refusal {
    /// The index of the file in the set, or of the source.
    pub file: usize,
    /// Of a source: where.
    pub byte: u64,
    /// Of linking: the length of the file's name, with which the reported string begins.
    pub file_len: usize,
    /// Of linking: the length of the declaration's full name, which follows it there.
    pub name_len: usize,
}

/// Lays one text and then another over the front of a buffer, as much of both as it holds.
pub(crate) fn lay_both(first: &[u8], second: &[u8], buffer: &mut [u8])
    ensures { buffer.new ≡ laid_over (first.now ++ second.now) buffer.old }
{
    let size = first.len().min(buffer.len());
    lay_over(first, buffer);
    lay_over(second, &mut buffer[size..]);
}

/// Reports why a set is not read, and answers by its number.
pub(super) fn tell_set(
    error: &DescrError,
    fault: &mut FaultReport,
    path: &mut [Step],
    refusal: &mut Refusal,
) -> u32
    ensures bytes { IfSome (set_fault error.now)
        (λ w. TellsBytes w fault.old fault.new path.old path.new) }
    ensures refusal { IfSome (set_fault error.now)
        (λ w. (text : List ℕ) → TellsRefusal w result refusal.old refusal.new text text) }
    ensures memory { error.now ≡ DescrError.Memory
        → (result ≡ MEMORY) × (fault.new ≡ fault.old) × (path.new ≡ path.old)
        × (refusal.new ≡ refusal.old) }
{
    match error {
        DescrError::Fault {
            byte,
            path: steps,
            cause,
        } => tell_fault(*byte, steps, *cause, fault, path),
        DescrError::Decl { file, cause } => {
            *refusal = Refusal {
                file: *file,
                byte: 0,
                file_len: 0,
                name_len: 0,
            };
            u32::from(cause.number())
        }
        DescrError::Memory => MEMORY,
    }
}

/// Reports why files do not link, and answers by its number.
pub(super) fn tell_link(error: &LinkError, refusal: &mut Refusal, text: &mut [u8]) -> u32
    ensures fault { IfSome (link_fault error.now)
        (λ w. TellsRefusal w result refusal.old refusal.new text.old text.new) }
    ensures memory { error.now ≡ LinkError.Memory
        → (result ≡ MEMORY) × (refusal.new ≡ refusal.old) × (text.new ≡ text.old) }
{
    match error {
        LinkError::Fault {
            file,
            full_name,
            cause,
        } => {
            *refusal = Refusal {
                file: 0,
                byte: 0,
                file_len: file.len(),
                name_len: full_name.len(),
            };
            lay_both(file.as_bytes(), full_name.as_bytes(), text);
            u32::from(cause.number())
        }
        LinkError::Memory => MEMORY,
    }
}
