//! Complete inputs through devices.

ghost use Rattle.std.specs.Prelude.{◌≡◌, ◌≢◌, true, ◌<◌, ◌≤◌, Some, length, take, drop, IfOk, IfSome, IfErr, OnOk, IsErrOf};
ghost use Rattle.std.specs.Io.KnownBytes.{Appends};

use crate::device::{Input, Output};
use std::alloc::Global;
use thiserror::Error;

/// Why bytes were not read.
#[derive(Clone, Copy, Debug, PartialEq, Eq, Error)]
pub enum ReadFault {
    #[error("the device failed")]
    Device,
    #[error("out of memory")]
    Memory,
}

/// Reads to the end of the input, but at most `limit` bytes.
pub fn read_up_to<I: Input>(
    alloc: Global,
    input: &mut I,
    limit: usize,
) -> Result<Vec<u8>, ReadFault>
    ensures bytes { IfSome (I.left input.old) (λ left. IfOk result (λ text. text.items ≡ take limit left)) }
    ensures rest { IfSome (I.left input.old) (λ left. OnOk result (I.left input.new ≡ Some (drop limit left))) }
    ensures size { IfOk result (λ text. length text.items ≤ limit) }
    ensures kept { OnOk result (I.failures input.new ≡ I.failures input.old) }
    ensures failed { IsErrOf result ReadFault.Device → I.failures input.new ≢ I.failures input.old }
    ensures memory { IsErrOf result ReadFault.Memory → I.failures input.new ≡ I.failures input.old }
    ensures steady { I.is_steady input.old ≡ true → result ≢ Err ReadFault.Device }
    ensures stays { I.is_steady input.old ≡ true → I.is_steady input.new ≡ true }
{
    let mut text = Vec::new(alloc);
    let mut buffer = [0u8; 16384];
    'reading: while text.len() < limit {
        let size = buffer.len().min(limit - text.len());
        let count = input
            .read(&mut buffer[..size])
            .map_err(|_| ReadFault::Device)?;
        if count == 0 {
            return Ok(text);
        }
        text.extend_from_slice(&buffer[..count])
            .map_err(|_| ReadFault::Memory)?;
    }
    Ok(text)
}

/// How many bytes went out before the device failed.
#[derive(Clone, Copy, Debug, PartialEq, Eq, Error)]
#[error("the device failed after {written} bytes")]
pub struct WriteFault {
    pub written: u64,
}

/// Writes all the bytes, or where the device fails the first `written` of them.
pub fn write_all<O: Output>(output: &mut O, bytes: &[u8]) -> Result<(), WriteFault>
    ensures ok { OnOk result (Appends (O.written output.old) (O.written output.new) bytes.now) }
    ensures kept { OnOk result (O.failures output.new ≡ O.failures output.old) }
    ensures failed { IfErr result (λ fault. O.failures output.new ≢ O.failures output.old) }
    ensures part { IfErr result (λ fault. (fault.written < length bytes.now)
        × Appends (O.written output.old) (O.written output.new) (take fault.written bytes.now)) }
{
    let mut done = 0;
    'writing: while done < bytes.len() {
        match output.write(&bytes[done..]) {
            Ok(count) => done += count,
            Err(_) => {
                return Err(WriteFault {
                    written: done as u64,
                });
            }
        }
    }
    Ok(())
}
