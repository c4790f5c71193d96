//! Bytes that are taken and not kept.

ghost use Rattle.std.specs.Prelude.{◌≡◌, ◌≢◌, ◌≤◌, ◌<◌, true, length, IfOk, IsOk, OnOk, OnErr};
ghost use Rattle.std.specs.Io.KnownBytes.{Consumes, IsAtEnd};
ghost use Rattle.pb_stream.specs.Taking.{Takes};

use pb_wire::{DeviceFault, Input};

/// The bytes that are asked for at a time.
const PIECE: usize = 16384;

/// Takes this many bytes, or all that are left, and returns how many they are.
pub(crate) fn pass_over<I: Input>(input: &mut I, count: u64) -> Result<u64, DeviceFault>
    ensures within { IfOk result (λ n. n ≤ count) }
    ensures taken { IfOk result (λ n. Takes n (I.left input.old) (I.left input.new)) }
    ensures ends { IfOk result (λ n. n < count → IsAtEnd (I.left input.new)) }
    ensures kept { OnOk result (I.failures input.new ≡ I.failures input.old) }
    ensures failed { OnErr result (I.failures input.new ≢ I.failures input.old) }
    ensures steady { I.is_steady input.old ≡ true → IsOk result × (I.is_steady input.new ≡ true) }
{
    let mut buffer = [0u8; PIECE];
    let mut done = 0;
    'passing: while done < count {
        let size = (count - done).min(PIECE as u64) as usize;
        let taken = input.read(&mut buffer[..size])?;
        if taken == 0 {
            return Ok(done);
        }
        done += taken as u64;
    }
    Ok(done)
}
