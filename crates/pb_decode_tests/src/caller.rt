//! A caller of the decoder in pieces, proved from public clauses alone, and run beside `decode`.

ghost use Rattle.std.specs.Prelude.{◌<◌, length};
ghost use Rattle.pb_decode_tests.specs.Answer.{joined, Answers};

use super::answers::is_answered;
use super::sample::{Schema, sample};
use super::words::{bytes_of, word};
use pb_decode::{DecodeError, PushDecoder, decode, laws};
use pb_schema::{MessageId, Pool};
use pb_value::DynamicMessage;
use pb_wire::Limits;
use std::alloc::Global;
use std::test::Fail;

/// What is answered to bytes at once.
fn decode_whole<'p>(
    alloc: Global,
    pool: &'p Pool,
    message_type: MessageId,
    bytes: &[u8],
    limits: Limits,
) -> Result<DynamicMessage<'p>, DecodeError>
    requires { message_type.0 < length pool.now.messages }
    ensures { Answers pool.now message_type.0 limits bytes.now result }
{
    decode(alloc, pool, message_type, bytes, limits)
}

/// What is answered to pieces that are fed one by one: the same as to their joining at once.
fn decode_pieces<'p>(
    alloc: Global,
    pool: &'p Pool,
    message_type: MessageId,
    pieces: &[&[u8]],
    limits: Limits,
) -> Result<DynamicMessage<'p>, DecodeError>
    requires { message_type.0 < length pool.now.messages }
    ensures { Answers pool.now message_type.0 limits (joined pieces.now) result }
{
    laws::settled_fault();
    let mut decoder = PushDecoder::new(alloc, pool, message_type, limits)?;
    for piece in pieces {
        if let Err(error) = decoder.feed(piece) {
            return Err(error);
        }
    }
    decoder.finish()
}

/// Whether three pieces, of which the second is empty, are answered as expected, and so are their bytes at once.
fn is_joined(schema: &Schema, bytes: &[u8], cut: usize, expected: &str) -> Result<bool, Fail>
    requires { cut < length bytes.now }
{
    let (first, rest) = bytes.split_at(cut);
    let pieces: [&[u8]; 3] = [first, b"", rest];
    let fed = decode_pieces(
        schema.alloc,
        &schema.pool,
        schema.kind,
        &pieces,
        Limits::FULL,
    );
    let whole = decode_whole(schema.alloc, &schema.pool, schema.kind, bytes, Limits::FULL);
    Ok(is_answered(schema.alloc, fed, expected)? && is_answered(schema.alloc, whole, expected)?)
}

/// The first cut of a row at which it is answered otherwise, or none.
fn first_wrong(schema: &Schema, row: &str) -> Result<Option<usize>, Fail> {
    let (input, expected) = word(row);
    let bytes = bytes_of(schema.alloc, input)?;
    for cut in 0..bytes.len() {
        if !is_joined(schema, &bytes, cut, expected)? {
            return Ok(Some(cut));
        }
    }
    Ok(None)
}

fn wrong_cut(alloc: Global, row: &str) -> Result<Option<usize>, Fail> {
    let schema = sample(alloc, "T")?;
    first_wrong(&schema, row)
}

/// A text, one that is cut short, and one with a fault in its first piece.
const ROWS: &[&str] = &[
    "08960112017a1a0208012100000000000000803202030438054a050a016b100750005801 = 08960112017a1a0208012100000000000000803202030438054a050a016b100750005801",
    "1a050896 ! 4 3[0].1[0] Truncated",
    "0801120241ff0801 ! 5 2[0] BadText",
    "0c0801 ! 0 - StrayEnd",
];

#[test]
fn pieces_are_joined(rt: HostRuntime) -> Result<(), Fail> {
    for row in ROWS {
        let wrong = wrong_cut(rt.alloc(), row)?;
        assert!(rt; wrong.is_none(), "{row} at {wrong:?}");
    }
    Ok(())
}
