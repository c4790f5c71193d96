//! A message as a frame of a stream: its canonical bytes after their length.

ghost use Rattle.std.specs.Prelude.{◌≡◌, ◌≢◌, ◌<◌, ◌≤◌, ◌^◌, ◌↔◌, ◌⊎◌, None, Some, length, IfOk};
ghost use Rattle.pb_value.specs.Dynamic.{Dynamic};
ghost use Rattle.pb_encode.specs.Encoding.{bytes_of};
ghost use Rattle.pb_stream.specs.Writing.{frame_of};
ghost use Rattle.pb_c_answers.specs.Reporting.{IsLaid};

use pb_c_answers::{DONE, EMPTY, MEMORY, TOO_LARGE, canonical_of, write_out};
use pb_c_handles::message::own::OwnMessage;
use pb_c_handles::message::{MessageHandle, put, take};
use pb_c_message::{Held, canonical_bytes, take_body};
use pb_value::DynamicMessage;
use pb_value::bodies::from_well_formed;
use pb_wire::put_varint;
use std::alloc::{AllocError, Global};

/// The shortest varint of the length of some bytes, and then the bytes.
fn framed(alloc: Global, bytes: &[u8]) -> Result<Vec<u8>, AllocError>
    ensures { IfOk result (λ f. f.items ≡ frame_of bytes.now) }
{
    let front = put_varint(bytes.len() as u64);
    let mut frame = Vec::from_slice(alloc, front.as_slice())?;
    frame.extend_from_slice(bytes)?;
    Ok(frame)
}

/// Writes the frame of some bytes.
fn write_framed(alloc: Global, bytes: &[u8], out: &mut [u8], size: &mut usize) -> u32
    ensures written { result ≡ DONE → IsLaid (frame_of bytes.now) out.old out.new size.new }
    ensures unwritten { result ≢ DONE → (out.new ≡ out.old) × (size.new ≡ size.old) }
    ensures answers { (result ≡ DONE) ⊎ (result ≡ MEMORY) }
{
    match framed(alloc, bytes) {
        Ok(frame) => {
            write_out(&frame, out, size);
            DONE
        }
        Err(_) => MEMORY,
    }
}

/// Writes the frame of the message.
fn write_frame(message: &DynamicMessage<'_>, out: &mut [u8], size: &mut usize) -> u32
    ensures written { result ≡ DONE → (length (bytes_of message.now) < 2 ^ 31)
        × IsLaid (frame_of (bytes_of message.now)) out.old out.new size.new }
    ensures too_large { result ≡ TOO_LARGE → 2 ^ 31 ≤ length (bytes_of message.now) }
    ensures unwritten { result ≢ DONE → (out.new ≡ out.old) × (size.new ≡ size.old) }
    ensures answers { (result ≡ DONE) ⊎ (result ≡ TOO_LARGE) ⊎ (result ≡ MEMORY) }
{
    match canonical_of(message) {
        Ok(bytes) => write_framed(message.alloc(), &bytes, out, size),
        Err(answer) => answer,
    }
}

/// Writes the frame of a message that is owned.
fn frame_own(alloc: Global, own: &mut OwnMessage, out: &mut [u8], size: &mut usize) -> u32
    ensures written { result ≡ DONE → (length (bytes_of own.old) < 2 ^ 31)
        × IsLaid (frame_of (bytes_of own.old)) out.old out.new size.new }
    ensures too_large { result ≡ TOO_LARGE → 2 ^ 31 ≤ length (bytes_of own.old) }
    ensures unwritten { result ≢ DONE → (out.new ≡ out.old) × (size.new ≡ size.old) }
    ensures answers { (result ≡ DONE) ⊎ (result ≡ TOO_LARGE) ⊎ (result ≡ MEMORY) }
    ensures same { own.new ≡ own.old }
{
    let _types = own.pool.messages();
    if let Some(bytes) = canonical_bytes(&own.held) {
        return write_framed(alloc, bytes, out, size);
    }
    let Some(body) = take_body(alloc, &own.pool, own.message_type, &mut own.held) else {
        return MEMORY;
    };
    let message = from_well_formed(alloc, &own.pool, own.message_type, body);
    let answer = write_frame(&message, out, size);
    own.held = Held::Fields(message.into_body());
    answer
}

/// Writes the message as a frame of a stream: the shortest varint of how many canonical bytes it has, and then these (the techniques of Protocol
/// Buffers, "Streaming Multiple Messages"). As much is written as the buffer holds, and the length of the whole frame is reported.
///
/// Answers as `mb_message_encode` does. The frame and its length are written at DONE alone.
#[unsafe(no_mangle)]
pub extern "C" fn mb_message_frame(
    alloc: Global,
    message: &mut MessageHandle,
    out: &mut [u8],
    size: &mut usize,
) -> u32
    ensures written { result ≡ DONE → (m : Dynamic) × (message.old.seal.message ≡ Some m)
        × (length (bytes_of m) < 2 ^ 31) × IsLaid (frame_of (bytes_of m)) out.old out.new size.new }
    ensures too_large { result ≡ TOO_LARGE → (m : Dynamic) × (message.old.seal.message ≡ Some m)
        × (2 ^ 31 ≤ length (bytes_of m)) }
    ensures unwritten { result ≢ DONE → (out.new ≡ out.old) × (size.new ≡ size.old) }
    ensures empty { result ≡ EMPTY ↔ (message.old.seal.message ≡ None) }
    ensures answers { (result ≡ DONE) ⊎ (result ≡ EMPTY) ⊎ (result ≡ TOO_LARGE)
        ⊎ (result ≡ MEMORY) }
    ensures same { message.new.seal.message ≡ message.old.seal.message }
{
    let Some(mut own) = take(alloc, message) else {
        return EMPTY;
    };
    let answer = frame_own(alloc, &mut own, out, size);
    put(message, own);
    answer
}
