//! Encodings of random records, the same at each run.

use pb_wire::put_varint;
use std::alloc::{AllocError, Global};

/// Numbers that look like chance, by a linear congruential generator.
#[derive(Drop)]
pub(crate) struct Random {
    state: u64,
}

impl Random {
    pub(crate) fn new(seed: u64) -> Random {
        Random { state: seed }
    }

    /// A number below this one, or 0.
    pub(crate) fn below(&mut self, end: usize) -> usize {
        self.state = self
            .state
            .wrapping_mul(6364136223846793005)
            .wrapping_add(1442695040888963407);
        let high = (self.state >> 33) as usize;
        if end == 0 { 0 } else { high % end }
    }

    /// One of the pieces.
    fn piece(&mut self, pieces: &[&'static [u8]]) -> &'static [u8] {
        match pieces.get(self.below(pieces.len())) {
            Some(piece) => *piece,
            None => b"",
        }
    }
}

/// What messages of a type are made of.
pub(crate) struct Parts {
    /// Whole records.
    pub(crate) records: &'static [&'static [u8]],
    /// Tags of fields whose payloads are messages of the same type.
    pub(crate) messages: &'static [&'static [u8]],
}

/// Up to four records.
fn put_records(random: &mut Random, parts: &Parts, bytes: &mut Vec<u8>) -> Result<(), AllocError> {
    for _ in 0..random.below(5) {
        bytes.extend_from_slice(random.piece(parts.records))?;
    }
    Ok(())
}

/// Records around a message that has these bytes.
fn around(
    alloc: Global,
    random: &mut Random,
    parts: &Parts,
    inside: &[u8],
) -> Result<Vec<u8>, AllocError> {
    let mut bytes = Vec::new(alloc);
    put_records(random, parts, &mut bytes)?;
    bytes.extend_from_slice(random.piece(parts.messages))?;
    bytes.extend_from_slice(put_varint(inside.len() as u64).as_slice())?;
    bytes.extend_from_slice(inside)?;
    put_records(random, parts, &mut bytes)?;
    Ok(bytes)
}

/// Another byte at a random index.
fn change(random: &mut Random, bytes: &mut Vec<u8>) {
    let index = random.below(bytes.len());
    let byte = u8::try_from(random.below(256)).unwrap_or(0);
    if let Some(place) = bytes.get_mut(index) {
        *place = byte;
    }
}

/// Records, up to four levels deep. In one of four encodings a byte is changed, so that many of these are of no message.
pub(crate) fn encoding(
    alloc: Global,
    random: &mut Random,
    parts: &Parts,
) -> Result<Vec<u8>, AllocError> {
    let mut bytes = Vec::new(alloc);
    put_records(random, parts, &mut bytes)?;
    for _ in 0..random.below(4) {
        bytes = around(alloc, random, parts, &bytes)?;
    }
    if random.below(4) == 0 {
        change(random, &mut bytes);
    }
    Ok(bytes)
}
