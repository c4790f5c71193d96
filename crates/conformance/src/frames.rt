//! Requests and responses in turn, each after its length: four bytes, the lowest first.

ghost use Rattle.std.specs.Prelude.{◌≡◌, ◌<◌, ◌≤◌, ◌^◌, ℕ, List, [], Some, drop, length, take, IfNone, IfOk, IfSome, OnOk};
ghost use Rattle.std.specs.Io.KnownBytes.{Appends};
ghost use Rattle.conformance.specs.Frames.{Begins, Serves, frame};

use crate::stop::Stop;
use crate::testee::Testee;
use pb_wire::{Input, Output, ReadFault, read_up_to, write_all};
use std::alloc::Global;

/// Answers the requests of an input, which ends after the last of them.
pub fn serve<I: Input, O: Output>(
    testee: &Testee<'_>,
    input: &mut I,
    output: &mut O,
) -> Result<(), Stop>
    ensures { IfSome (I.left input.old) (λ left. OnOk result ((out : List ℕ)
        × Serves testee.now.pool.now testee.now.request.0 testee.now.response.0 left [] out × Appends (O.written output.old) (O.written output.new) out)) }
{
    for _ in 0..u64::MAX {
        let Some(request) = read_frame(testee.alloc, input)? else {
            return Ok(());
        };
        let response = testee.answer(&request)?;
        write_frame(&response, output)?;
    }
    Err(Stop::TooMany)
}

/// The bytes of the next frame, or nothing where nothing is left.
fn read_frame<I: Input>(alloc: Global, input: &mut I) -> Result<Option<Vec<u8>>, Stop>
    ensures frame { IfSome (I.left input.old) (λ left. IfOk result (λ o. IfSome o (λ v. (rest : List ℕ)
        × (I.left input.new ≡ Some rest) × Begins left v.items rest))) }
    ensures end { IfSome (I.left input.old) (λ left. IfOk result (λ o. IfNone o (left ≡ []))) }
{
    let length = read_most(alloc, input, 4)?;
    match *length.as_slice() {
        [] => Ok(None),
        [a, b, c, d] => {
            let size = u32::from_le_bytes([a, b, c, d]) as usize;
            let bytes = read_most(alloc, input, size)?;
            if bytes.len() < size {
                return Err(Stop::Cut);
            }
            Ok(Some(bytes))
        }
        _ => Err(Stop::Cut),
    }
}

/// `size` bytes, or all that are left where there are fewer.
fn read_most<I: Input>(alloc: Global, input: &mut I, most: usize) -> Result<Vec<u8>, Stop>
    ensures bytes { IfSome (I.left input.old) (λ left. IfOk result (λ v. v.items ≡ take most left)) }
    ensures rest { IfSome (I.left input.old) (λ left. OnOk result (I.left input.new ≡ Some (drop most left))) }
    ensures size { IfOk result (λ v. length v.items ≤ most) }
{
    match read_up_to(alloc, input, most) {
        Ok(bytes) => Ok(bytes),
        Err(ReadFault::Device) => Err(Stop::Device),
        Err(ReadFault::Memory) => Err(Stop::Memory),
    }
}

/// Writes bytes after their length.
fn write_frame<O: Output>(bytes: &[u8], output: &mut O) -> Result<(), Stop>
    requires { length bytes.now < 2 ^ 31 }
    ensures { OnOk result (Appends (O.written output.old) (O.written output.new) (frame bytes.now)) }
{
    let size = bytes.len() as u32;
    write_bytes(&size.to_le_bytes(), output)?;
    write_bytes(bytes, output)
}

fn write_bytes<O: Output>(bytes: &[u8], output: &mut O) -> Result<(), Stop>
    ensures { OnOk result (Appends (O.written output.old) (O.written output.new) bytes.now) }
{
    match write_all(output, bytes) {
        Ok(()) => Ok(()),
        Err(_) => Err(Stop::Device),
    }
}
