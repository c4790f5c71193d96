//! What the iterator over records gives: the records, the fault after them, and then nothing.

use super::rows::{bytes_of, limits_of};
use pb_wire::{Cause, Limits, Payload, RecordIter, WireFault};
use std::alloc::Global;
use std::test::Fail;

/// A row: bytes, the greatest length and depth, how many records are given, and the byte and cause of the fault after
/// them, if there is one.
const ROWS: &str = "
08050c - - 1 2 StrayEnd
0b080114 - - 0 3 WrongEnd
08050b13 - - 1 4 Truncated
- 0 100 0
0805 0 100 0 0 InputTooLarge
0805 1 100 0 1 InputTooLarge
0c05 1 100 0 0 StrayEnd
0805 2 100 1
08050805 2 100 1 2 InputTooLarge
0b0c0c 2 100 1 2 InputTooLarge
0b08010c 2 100 0 2 InputTooLarge
08050b0c - 0 1 2 TooDeep
0b0c - 1 1
0b13140c - 1 0 1 TooDeep
0b131413140c - 2 1
";

/// Whether nothing is left but this fault.
fn is_end(items: &mut RecordIter<'_>, wanted: Option<(u64, &str)>) -> bool {
    let told = match items.next() {
        None => None,
        Some(Err(fault)) => Some((fault.byte, fault.cause.name())),
        Some(Ok(_)) => return false,
    };
    told == wanted && items.next().is_none() && items.next().is_none()
}

fn is_walk(alloc: Global, row: &str) -> Result<bool, Fail> {
    let mut words = row.split_whitespace();
    let bytes = bytes_of(alloc, words.next().unwrap_or(""))?;
    let length = words.next().unwrap_or("");
    let limits = limits_of(length, words.next().unwrap_or(""))?;
    let count = words.next().unwrap_or("").parse::<usize>()?;
    let mut items = RecordIter::new(bytes.as_slice(), limits);
    for _ in 0..count {
        if !matches!(items.next(), Some(Ok(_))) {
            return Ok(false);
        }
    }
    let fault = match words.next() {
        Some(byte) => Some((byte.parse::<u64>()?, words.next().unwrap_or(""))),
        None => None,
    };
    Ok(is_end(&mut items, fault))
}

#[test]
fn ends(rt: HostRuntime) -> Result<(), Fail> {
    for row in ROWS.lines() {
        assert!(rt; row.is_empty() || is_walk(rt.alloc(), row)?, "{row}");
    }
    Ok(())
}

fn is_item(
    item: Option<Result<(u32, Payload<'_>), WireFault>>,
    number: u32,
    payload: Payload<'_>,
) -> bool {
    match item {
        Some(Ok((n, shown))) => n == number && shown == payload,
        _ => false,
    }
}

#[test]
fn payloads(rt: HostRuntime) {
    let bytes = b"\xa3\x01\x08\x01\xa4\x01\x08\x05";
    let mut items = RecordIter::new(bytes, Limits::FULL);
    assert!(rt;
        is_item(items.next(), 20, Payload::Group(&bytes[2..4]))
            && is_item(items.next(), 1, Payload::Varint(5))
            && is_end(&mut items, None)
    );
    let bytes = b"\x11\x01\x02\x03\x04\x05\x06\x07\x08\x1a\x02\x61\x62\x25\x01\x02\x03\x04\x2a\x00";
    let mut items = RecordIter::new(bytes, Limits::FULL);
    assert!(rt;
        is_item(items.next(), 2, Payload::I64(0x0807_0605_0403_0201))
            && is_item(items.next(), 3, Payload::Len(&bytes[11..13]))
            && is_item(items.next(), 4, Payload::I32(0x0403_0201))
            && is_item(items.next(), 5, Payload::Len(&bytes[20..]))
            && is_end(&mut items, None)
    );
}

/// A hundred groups in one another are one record, and one more is too deep.
#[test]
fn nests(rt: HostRuntime) -> Result<(), Fail> {
    let mut deepest = vec![in rt.alloc(); 0x0b; 100]?;
    let mut open = RecordIter::new(deepest.as_slice(), Limits::FULL);
    assert!(rt; is_end(&mut open, Some((100, Cause::Truncated.name()))));
    for _ in 0..100 {
        deepest.push(0x0c)?;
    }
    let inside = deepest.get(1..199).ok_or("200 bytes")?;
    let mut items = RecordIter::new(deepest.as_slice(), Limits::FULL);
    assert!(rt; is_item(items.next(), 1, Payload::Group(inside)) && is_end(&mut items, None));
    let mut deeper = RecordIter::new(&[0x0b; 101], Limits::FULL);
    assert!(rt; is_end(&mut deeper, Some((100, Cause::TooDeep.name()))));
    Ok(())
}
