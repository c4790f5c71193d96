//! The listing of a message that a handle holds.

ghost use Rattle.std.specs.Prelude.{◌≡◌, ◌≢◌, ◌↔◌, ◌⊎◌, None, Some};
ghost use Rattle.pb_value.specs.Dynamic.{Dynamic};
ghost use Rattle.pb_listing.specs.Listing.{listing};
ghost use Rattle.pb_c_answers.specs.Reporting.{IsLaid};

use crate::listed::show_own;
use pb_c_answers::{DONE, EMPTY, MEMORY};
use pb_c_handles::message::{MessageHandle, put, take};
use pb_listing::FloatForm;
use std::alloc::Global;

/// Writes the listing of the message, as `pbtool show` prints it, as much of it as the buffer holds, and reports its whole length.
///
/// Answers DONE; EMPTY where the handle holds nothing; or MEMORY. The listing and its length are written at DONE alone.
#[unsafe(no_mangle)]
pub extern "C" fn mb_message_show(
    alloc: Global,
    message: &mut MessageHandle,
    out: &mut [u8],
    size: &mut usize,
) -> u32
    ensures written { result ≡ DONE → (m : Dynamic) × (message.old.seal.message ≡ Some m)
        × IsLaid (listing m) out.old out.new size.new }
    ensures unwritten { result ≢ DONE → (out.new ≡ out.old) × (size.new ≡ size.old) }
    ensures empty { result ≡ EMPTY ↔ (message.old.seal.message ≡ None) }
    ensures answers { (result ≡ DONE) ⊎ (result ≡ EMPTY) ⊎ (result ≡ MEMORY) }
    ensures same { message.new.seal.message ≡ message.old.seal.message }
{
    let Some(mut own) = take(alloc, message) else {
        return EMPTY;
    };
    let answer = show_own(alloc, &mut own, FloatForm::Bits, out, size);
    put(message, own);
    answer
}
