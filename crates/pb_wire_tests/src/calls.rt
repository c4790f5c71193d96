//! Worked rows, and each call once. Expected values are those of the encoding guide or were worked out by hand.

use pb_wire::laws::{
    fault_bounds, longer_text, one_fault, path_bounds, read_back, shortest_spelling,
};
use pb_wire::{
    Cause, Limits, MAX_BYTES, MAX_DEPTH, PathStep, RawError, RecordIter, Unknown, WireFault,
    can_write, put_varint, read_raw, read_varint, unzigzag32, unzigzag64, write_raw, zigzag32,
    zigzag64,
};
use std::test::Fail;

#[test]
fn records(rt: HostRuntime) -> Result<(), Fail> {
    let alloc = rt.alloc();
    let text =
        b"\x08\x96\x81\x00\x12\x01\x7a\xa3\x01\x08\x01\xa4\x01\x3d\x01\x00\x00\x00\x09\x01\x00\x00\x00\x00\x00\x00\x80";
    let read = read_raw(alloc, text, Limits::FULL)?;
    let mut wanted = Vec::new(alloc);
    wanted.push((1, Unknown::Varint(150)))?;
    wanted.push((2, Unknown::Len(vec![in alloc; 0x7a]?)))?;
    wanted.push((20, Unknown::Group(vec![in alloc; (1, Unknown::Varint(1))]?)))?;
    wanted.push((7, Unknown::I32(1)))?;
    wanted.push((1, Unknown::I64(0x8000_0000_0000_0001)))?;
    let short =
        b"\x08\x96\x01\x12\x01\x7a\xa3\x01\x08\x01\xa4\x01\x3d\x01\x00\x00\x00\x09\x01\x00\x00\x00\x00\x00\x00\x80";
    assert!(rt;
        read == wanted
            && can_write(&read)
            && write_raw(alloc, &read)?.as_slice() == short.as_slice()
    );
    Ok(())
}

#[test]
fn records_to_write(rt: HostRuntime) -> Result<(), Fail> {
    let alloc = rt.alloc();
    let none: Vec<(u32, Unknown)> = Vec::new(alloc);
    let inside = vec![in alloc; (0, Unknown::Varint(1))]?;
    assert!(rt;
        write_raw(alloc, &none)?.is_empty()
            && !can_write(&[(1, Unknown::Group(inside))])
            && !can_write(&[(0x2000_0000, Unknown::Varint(1))])
            && can_write(&[(0x1fff_ffff, Unknown::Varint(1))])
    );
    Ok(())
}

const TOO_LONG: &[u8] = b"\xff\xff\xff\xff\xff\xff\xff\xff\xff\xff\x01";

#[test]
fn varints(rt: HostRuntime) {
    let mut number: u64 = 1;
    for size in 1..11 {
        let bytes = put_varint(number);
        assert!(rt;
            bytes.as_slice().len() == size && read_varint(bytes.as_slice()) == Ok((number, size))
        );
        number = number.wrapping_mul(128);
    }
    for end in 0..10 {
        let cut = WireFault {
            byte: end as u64,
            cause: Cause::Truncated,
        };
        assert!(rt; read_varint(&TOO_LONG[..end]) == Err(cut), "{end} bytes");
    }
    let too_long = WireFault {
        byte: 0,
        cause: Cause::VarintTooLong,
    };
    assert!(rt;
        put_varint(300).as_slice() == b"\xac\x02".as_slice()
            && put_varint(u64::MAX).as_slice()
                == b"\xff\xff\xff\xff\xff\xff\xff\xff\xff\x01".as_slice()
            && read_varint(b"\x96\x81\x00\x08") == Ok((150, 3))
            && read_varint(b"\xff\xff\xff\xff\xff\xff\xff\xff\xff\x7f") == Ok((u64::MAX, 10))
            && read_varint(TOO_LONG) == Err(too_long)
    );
}

const ZIGZAG_32: &[(i32, u32)] = &[
    (0, 0),
    (-1, 1),
    (1, 2),
    (-2, 3),
    (i32::MAX, u32::MAX - 1),
    (i32::MIN, u32::MAX),
];

const ZIGZAG_64: &[(i64, u64)] = &[
    (0, 0),
    (-1, 1),
    (1, 2),
    (-2, 3),
    (i64::MAX, u64::MAX - 1),
    (i64::MIN, u64::MAX),
];

#[test]
fn zigzags(rt: HostRuntime) {
    for (number, code) in ZIGZAG_32 {
        assert!(rt;
            zigzag32(*number) == *code && unzigzag32(*code) == *number,
            "{number}"
        );
    }
    for (number, code) in ZIGZAG_64 {
        assert!(rt;
            zigzag64(*number) == *code && unzigzag64(*code) == *number,
            "{number}"
        );
    }
}

#[test]
fn limits(rt: HostRuntime) {
    let least = Limits::new(0, 0).map(|limits| (limits.max_bytes(), limits.max_depth()));
    assert!(rt;
        least == Some((0, 0))
            && Limits::new(MAX_BYTES, MAX_DEPTH) == Some(Limits::FULL)
            && Limits::new(MAX_BYTES + 1, 0).is_none()
            && Limits::new(0, MAX_DEPTH + 1).is_none()
    );
}

fn step(number: u32, occurrence: u32) -> PathStep {
    PathStep { number, occurrence }
}

#[test]
fn causes(rt: HostRuntime) -> Result<(), Fail> {
    let alloc = rt.alloc();
    let fault = WireFault {
        byte: 7,
        cause: Cause::BadText,
    };
    let shown = format!(in alloc; "{fault}")?;
    let refusal = RawError::Fault {
        byte: 2,
        path: Vec::new(alloc),
        cause: Cause::WrongEnd,
    };
    let told = format!(in alloc; "{refusal}")?;
    let inside = RawError::Fault {
        byte: 65,
        path: vec![in alloc; step(9, 1), step(5, 0)]?,
        cause: Cause::Truncated,
    };
    let told_inside = format!(in alloc; "{inside}")?;
    assert!(rt;
        shown.as_str() == "BadText at byte 7"
            && told.as_str() == "WrongEnd at byte 2, path -"
            && told_inside.as_str() == "Truncated at byte 65, path 9[1].5[0]"
            && (Cause::Truncated.number(), Cause::InputTooLarge.number()) == (1, 12)
            && (refusal.number(), RawError::Memory.number()) == (13, 14)
    );
    Ok(())
}

#[test]
fn laws() {
    shortest_spelling();
    one_fault::<()>();
    longer_text::<()>();
    fault_bounds::<()>();
    path_bounds::<()>();
    read_back();
}

#[test]
fn copies(rt: HostRuntime) -> Result<(), Fail> {
    let mut items = RecordIter::new(b"\x08\x01\x08\x02", Limits::FULL);
    let mut others = items.clone()?;
    for _ in 0..3 {
        assert!(rt; items.next() == others.next());
    }
    assert!(rt; put_varint(300) == put_varint(300) && put_varint(300) != put_varint(301));
    Ok(())
}
