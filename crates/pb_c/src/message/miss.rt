//! Why nothing is found at a place, as a call answers it.

ghost use Rattle.std.specs.Prelude.{◌≡◌};
ghost use Rattle.pb_c.specs.Message.Places.{miss_number};

use pb_c_answers::{ABSENT, BAD_PLACE, MEMORY};
use pb_c_message::Miss;

/// The number of a miss.
pub(super) fn miss_number(miss: Miss) -> u32
    ensures { result ≡ miss_number miss }
{
    match miss {
        Miss::Absent => ABSENT,
        Miss::BadPlace => BAD_PLACE,
        Miss::Memory => MEMORY,
    }
}
