//! Faults of sets' bytes.

use pb_descr::DescrError;
use pb_wire::Cause;

/// Whether an error is the fault of a byte, with this number of steps to it and a cause.
pub(crate) fn is_fault(error: &DescrError, at: u64, steps: usize, why: Cause) -> bool {
    match error {
        DescrError::Fault { byte, path, cause } => {
            *byte == at && path.len() == steps && *cause == why
        }
        _ => false,
    }
}
