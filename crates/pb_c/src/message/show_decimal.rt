//! The listing of a message that a handle holds, with floats in decimal.

ghost use Rattle.std.specs.Prelude.{◌≡◌, ◌≢◌, ◌↔◌, ◌⊎◌, None};
ghost use Rattle.pb_c.specs.Message.Listed.{IsListed};

use crate::listed::show_own;
use pb_c_answers::{DONE, EMPTY, MEMORY};
use pb_c_handles::message::{MessageHandle, put, take};
use pb_listing::FloatForm;
use std::alloc::Global;

/// Writes the listing of the message as `mb_message_show` does, but with each float as the shortest decimal that reads back to the same bits,
/// or `nan`, `inf` or `-inf`, as `pbtool show --decimal` prints it.
///
/// Answers as `mb_message_show` does.
#[unsafe(no_mangle)]
pub extern "C" fn mb_message_show_decimal(
    alloc: Global,
    message: &mut MessageHandle,
    out: &mut [u8],
    size: &mut usize,
) -> u32
    ensures written { result ≡ DONE → IsListed message.old.seal.message out.old out.new size.new }
    ensures unwritten { result ≢ DONE → (out.new ≡ out.old) × (size.new ≡ size.old) }
    ensures empty { result ≡ EMPTY ↔ (message.old.seal.message ≡ None) }
    ensures answers { (result ≡ DONE) ⊎ (result ≡ EMPTY) ⊎ (result ≡ MEMORY) }
    ensures same { message.new.seal.message ≡ message.old.seal.message }
{
    let Some(mut own) = take(alloc, message) else {
        return EMPTY;
    };
    let answer = show_own(alloc, &mut own, FloatForm::Decimal, out, size);
    put(message, own);
    answer
}
