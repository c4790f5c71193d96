//! A message that a handle holds, freed.

ghost use Rattle.std.specs.Prelude.{◌≡◌};

use pb_c_handles::message::{MessageHandle, take};
use std::alloc::Global;

/// Frees the message that a handle holds, which holds nothing then. Its pool is freed with the last handle that holds it.
#[unsafe(no_mangle)]
pub extern "C" fn mb_message_free(alloc: Global, message: &mut MessageHandle)
    ensures left { message.new.seal.message ≡ None }
{
    let _ = take(alloc, message);
}
