//! What streams hold, by worked rows.

ghost use Rattle.std.specs.Prelude.{◌<◌};

use super::sample::{Schema, closed_sample, sample};
use pb_decode::DecodeError;
use pb_encode::encode;
use pb_stream::{DelimitedReader, read_delimited};
use pb_wire::{Cause, FailurePlan, Input, Limits, MemInput, PathStep};
use std::alloc::Global;
use std::test::Fail;

/// A refusal: its place, the number of the record that it is in, the first of that number, if there is one, and its cause.
pub(crate) struct Refusal {
    byte: u64,
    number: Option<u32>,
    cause: Cause,
}

/// A stream: its bytes, the longest text that is read, for each message its canonical bytes and how many bytes were taken
/// so far, and the refusal after them, if there is one.
pub(crate) struct Row {
    pub(crate) input: &'static str,
    pub(crate) most: u32,
    pub(crate) messages: &'static [(&'static str, u64)],
    pub(crate) refusal: Option<Refusal>,
}

pub(crate) const ROWS: &[Row] = &[
    Row {
        input: "03089601000208",
        most: 100,
        messages: &[("089601", 4), ("", 5)],
        refusal: Some(Refusal {
            byte: 2,
            number: Some(1),
            cause: Cause::Truncated,
        }),
    },
    Row {
        input: "010805",
        most: 100,
        messages: &[],
        refusal: Some(Refusal {
            byte: 2,
            number: Some(1),
            cause: Cause::PastEnd,
        }),
    },
    Row {
        input: "80",
        most: 100,
        messages: &[],
        refusal: Some(Refusal {
            byte: 1,
            number: None,
            cause: Cause::Truncated,
        }),
    },
    Row {
        input: "",
        most: 100,
        messages: &[],
        refusal: None,
    },
    Row {
        input: "ffffffff0f",
        most: 0x7fff_ffff,
        messages: &[],
        refusal: Some(Refusal {
            byte: 0,
            number: None,
            cause: Cause::LengthTooLarge,
        }),
    },
    Row {
        input: "ffffffffffffffffffff",
        most: 100,
        messages: &[],
        refusal: Some(Refusal {
            byte: 0,
            number: None,
            cause: Cause::VarintTooLong,
        }),
    },
    Row {
        input: "03089601000408960100",
        most: 3,
        messages: &[("089601", 4), ("", 5)],
        refusal: Some(Refusal {
            byte: 0,
            number: None,
            cause: Cause::LengthTooLarge,
        }),
    },
    Row {
        input: "83000896010208960c",
        most: 100,
        messages: &[("089601", 5)],
        refusal: Some(Refusal {
            byte: 2,
            number: Some(1),
            cause: Cause::PastEnd,
        }),
    },
    Row {
        input: "020c00",
        most: 100,
        messages: &[],
        refusal: Some(Refusal {
            byte: 1,
            number: None,
            cause: Cause::StrayEnd,
        }),
    },
];

/// The same of the type `Q`: groups and closed enums.
pub(crate) const CLOSED: &[Row] = &[
    Row {
        input: "061b08051c2002062a0401070209021b24",
        most: 100,
        messages: &[("1b08051c2002", 7), ("2a02010228072809", 14)],
        refusal: Some(Refusal {
            byte: 2,
            number: Some(3),
            cause: Cause::WrongEnd,
        }),
    },
    Row {
        input: "081b08051c1b08061c04200720020620878080801000",
        most: 100,
        messages: &[
            ("1b08061c", 9),
            ("20022007", 14),
            ("208780808010", 21),
            ("", 22),
        ],
        refusal: None,
    },
    Row {
        input: "021b1c031b08051c",
        most: 100,
        messages: &[("1b1c", 3)],
        refusal: Some(Refusal {
            byte: 4,
            number: Some(3),
            cause: Cause::PastEnd,
        }),
    },
    Row {
        input: "041b08051c031b0805",
        most: 100,
        messages: &[("1b08051c", 5)],
        refusal: Some(Refusal {
            byte: 4,
            number: Some(3),
            cause: Cause::PastEnd,
        }),
    },
    Row {
        input: "041b0805",
        most: 100,
        messages: &[],
        refusal: Some(Refusal {
            byte: 4,
            number: Some(3),
            cause: Cause::Truncated,
        }),
    },
    Row {
        input: "032a020107",
        most: 100,
        messages: &[],
        refusal: Some(Refusal {
            byte: 2,
            number: Some(5),
            cause: Cause::PastEnd,
        }),
    },
];

fn is_path(path: &[PathStep], number: Option<u32>) -> bool {
    match number {
        None => path.is_empty(),
        Some(number) => {
            let step = PathStep {
                number,
                occurrence: 0,
            };
            path == [step].as_slice()
        }
    }
}

pub(crate) fn is_refusal(error: &DecodeError, refusal: &Refusal) -> bool {
    match error {
        DecodeError::Fault { byte, path, cause } => {
            *byte == refusal.byte && *cause == refusal.cause && is_path(path, refusal.number)
        }
        _ => false,
    }
}

/// Whether the reader reports the end, or the refusal and from then on that it is finished.
fn ends_so(reader: &mut DelimitedReader<'_, MemInput<'_>>, refusal: Option<&Refusal>) -> bool {
    let taken = reader.taken();
    let is_told = match (&reader.next(), refusal) {
        (Ok(None), None) => reader.taken() == taken,
        (Err(error), Some(refusal)) => is_refusal(error, refusal),
        _ => false,
    };
    let again = reader.next();
    is_told
        && match refusal {
            None => matches!(again, Ok(None)),
            Some(_) => matches!(again, Err(DecodeError::Finished)),
        }
}

/// Whether the next message has these canonical bytes, and this number of bytes is taken then.
fn is_next(
    alloc: Global,
    reader: &mut DelimitedReader<'_, MemInput<'_>>,
    text: &str,
    taken: u64,
) -> Result<bool, Fail> {
    let wanted = hex::decode(alloc, text)?;
    match reader.next()? {
        None => Ok(false),
        Some(message) => {
            Ok(encode(&message)?.as_slice() == wanted.as_slice() && reader.taken() == taken)
        }
    }
}

/// Whether a row is read so, at `piece` bytes a read.
fn is_read(alloc: Global, schema: &Schema, row: &Row, piece: usize) -> Result<bool, Fail>
    requires { 0 < piece }
{
    let limits = Limits::new(row.most, 100).ok_or("limits")?;
    let bytes = hex::decode(alloc, row.input)?;
    let input = MemInput::new(&bytes, piece, FailurePlan::NEVER);
    let mut reader = DelimitedReader::new(alloc, &schema.pool, schema.kind, input, limits);
    for (text, taken) in row.messages {
        if !is_next(alloc, &mut reader, text, *taken)? {
            return Ok(false);
        }
    }
    Ok(ends_so(&mut reader, row.refusal.as_ref()))
}

/// Reads each row, and fails with the bytes of one that is read otherwise.
fn read_rows(alloc: Global, schema: &Schema, rows: &[Row]) -> Result<(), Fail> {
    for row in rows {
        if !is_read(alloc, schema, row, 1)? || !is_read(alloc, schema, row, 100)? {
            return Err(Fail::new(row.input));
        }
    }
    Ok(())
}

#[test]
fn rows(rt: HostRuntime) -> Result<(), Fail> {
    let schema = sample(rt.alloc())?;
    read_rows(rt.alloc(), &schema, ROWS)
}

#[test]
fn groups_and_closed_enums(rt: HostRuntime) -> Result<(), Fail> {
    let schema = closed_sample(rt.alloc())?;
    read_rows(rt.alloc(), &schema, CLOSED)
}

/// How many bytes are left of an input after one read of a frame that is refused.
fn left_after(alloc: Global, schema: &Schema, bytes: &[u8]) -> Result<usize, Fail> {
    let mut input = MemInput::new(bytes, 100, FailurePlan::NEVER);
    let read = read_delimited(alloc, &schema.pool, schema.kind, &mut input, Limits::FULL);
    if !matches!(
        read,
        Err(DecodeError::Fault {
            byte: _,
            path: _,
            cause: _
        })
    ) {
        return Err(Fail::new("no fault"));
    }
    let mut rest = [0u8; 16];
    Ok(input.read(&mut rest)?)
}

/// Frames that are refused, and how many bytes come after each.
const REFUSED: &[(&[u8], usize)] = &[
    (b"\x01\x08\x05\x00", 2),
    (b"\xff\xff\xff\xff\x0f\x00\x00\x00", 3),
    (b"\xff\xff\xff\xff\xff\xff\xff\xff\xff\xff\x00", 1),
];

/// Whether what comes after each frame that is refused is left.
fn leaves_the_rest(alloc: Global, schema: &Schema) -> Result<bool, Fail> {
    for (bytes, after) in REFUSED {
        if left_after(alloc, schema, bytes)? != *after {
            return Ok(false);
        }
    }
    Ok(true)
}

#[test]
fn what_is_left(rt: HostRuntime) -> Result<(), Fail> {
    let schema = sample(rt.alloc())?;
    assert!(rt; leaves_the_rest(rt.alloc(), &schema)?);
    Ok(())
}

/// Whether there is this number of messages.
fn has_messages(reader: &mut DelimitedReader<'_, MemInput<'_>>, count: u64) -> Result<bool, Fail> {
    for _ in 0..count {
        if reader.next()?.is_none() {
            return Ok(false);
        }
    }
    Ok(reader.next()?.is_none())
}

/// Many empty messages.
#[test]
fn a_thousand_frames(rt: HostRuntime) -> Result<(), Fail> {
    let schema = sample(rt.alloc())?;
    let input = MemInput::new(&[0; 1000], 4096, FailurePlan::NEVER);
    let mut reader = DelimitedReader::new(
        rt.alloc(),
        &schema.pool,
        schema.kind,
        input,
        Limits::FULL,
    );
    assert!(rt; has_messages(&mut reader, 1000)? && reader.taken() == 1000);
    Ok(())
}
