//! The text of a message that a handle holds, in the text format.

ghost use Rattle.std.specs.Prelude.{◌≡◌, ◌≢◌, ◌↔◌, ◌⊎◌, None, Some};
ghost use Rattle.pb_value.specs.Dynamic.{Dynamic};
ghost use Rattle.pb_c_answers.specs.Text.{IsTextLaid};

use pb_c_answers::{DONE, EMPTY, MEMORY, TextFlags, write_as_text};
use pb_c_handles::message::own::OwnMessage;
use pb_c_handles::message::{MessageHandle, put, take};
use pb_c_message::{Held, take_body};
use pb_value::bodies::from_well_formed;
use std::alloc::Global;

/// Writes the text of a message that is owned.
fn text_own(
    alloc: Global,
    own: &mut OwnMessage,
    form: TextFlags,
    out: &mut [u8],
    size: &mut usize,
) -> u32
    ensures written { result ≡ DONE → IsTextLaid form own.old out.old out.new size.new }
    ensures unwritten { result ≢ DONE → (out.new ≡ out.old) × (size.new ≡ size.old) }
    ensures answers { (result ≡ DONE) ⊎ (result ≡ MEMORY) }
    ensures same { own.new ≡ own.old }
{
    let Some(body) = take_body(alloc, &own.pool, own.message_type, &mut own.held) else {
        return MEMORY;
    };
    let message = from_well_formed(alloc, &own.pool, own.message_type, body);
    let answer = write_as_text(&message, form, out, size);
    own.held = Held::Fields(message.into_body());
    answer
}

/// Writes the text of the message in the text format, in the form of flags, as much of it as the buffer holds, and reports its whole length.
///
/// Answers DONE; EMPTY where the handle holds nothing; or MEMORY. The text and its length are written at DONE alone.
#[unsafe(no_mangle)]
pub extern "C" fn mb_message_text(
    alloc: Global,
    message: &mut MessageHandle,
    form: &TextFlags,
    out: &mut [u8],
    size: &mut usize,
) -> u32
    ensures written { result ≡ DONE → (m : Dynamic) × (message.old.seal.message ≡ Some m)
        × IsTextLaid form.now m out.old out.new size.new }
    ensures unwritten { result ≢ DONE → (out.new ≡ out.old) × (size.new ≡ size.old) }
    ensures empty { result ≡ EMPTY ↔ (message.old.seal.message ≡ None) }
    ensures answers { (result ≡ DONE) ⊎ (result ≡ EMPTY) ⊎ (result ≡ MEMORY) }
    ensures same { message.new.seal.message ≡ message.old.seal.message }
{
    let Some(mut own) = take(alloc, message) else {
        return EMPTY;
    };
    let answer = text_own(alloc, &mut own, *form, out, size);
    put(message, own);
    answer
}
