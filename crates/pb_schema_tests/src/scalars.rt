//! Payloads that are written and read, by the table of kinds.

use pb_schema::scalars::*;
use std::alloc::Global;
use std::test::Fail;

fn is_varint(payload: ScalarPayload<'_>, number: u64) -> bool {
    match payload {
        ScalarPayload::Varint(written) => written == number,
        _ => false,
    }
}

fn is_eight(payload: ScalarPayload<'_>, number: u64) -> bool {
    match payload {
        ScalarPayload::I64(written) => written == number,
        _ => false,
    }
}

fn is_four(payload: ScalarPayload<'_>, number: u32) -> bool {
    match payload {
        ScalarPayload::I32(written) => written == number,
        _ => false,
    }
}

/// Whether a payload is read as this value.
fn reads<S: Scalar>(alloc: Global, payload: ScalarPayload<'_>, wanted: &S::Item) -> bool
where
    S::Item: PartialEq,
{
    match S::read(alloc, payload) {
        Ok(Some(item)) => item == *wanted,
        _ => false,
    }
}

/// Whether a payload is of another wire type, or no text.
fn reads_none<S: Scalar>(alloc: Global, payload: ScalarPayload<'_>) -> bool {
    match S::read(alloc, payload) {
        Ok(read) => read.is_none(),
        Err(_) => false,
    }
}

/// A number, and what an int32, a sint32 and an sfixed32 are written as.
#[derive(Clone, Copy)]
struct Signed {
    number: i32,
    varint: u64,
    zigzag: u64,
    fixed: u32,
}

const SIGNED: &[Signed] = &[
    Signed {
        number: 0,
        varint: 0,
        zigzag: 0,
        fixed: 0,
    },
    Signed {
        number: 1,
        varint: 1,
        zigzag: 2,
        fixed: 1,
    },
    Signed {
        number: -1,
        varint: 0xffff_ffff_ffff_ffff,
        zigzag: 1,
        fixed: 0xffff_ffff,
    },
    Signed {
        number: -2,
        varint: 0xffff_ffff_ffff_fffe,
        zigzag: 3,
        fixed: 0xffff_fffe,
    },
    Signed {
        number: i32::MAX,
        varint: 0x7fff_ffff,
        zigzag: 0xffff_fffe,
        fixed: 0x7fff_ffff,
    },
    Signed {
        number: i32::MIN,
        varint: 0xffff_ffff_8000_0000,
        zigzag: 0xffff_ffff,
        fixed: 0x8000_0000,
    },
];

fn are_written(row: &Signed) -> bool {
    let long = i64::from(row.number);
    is_varint(Int32::write(&row.number), row.varint)
        && is_varint(EnumNumber::write(&row.number), row.varint)
        && is_varint(Int64::write(&long), row.varint)
        && is_varint(Sint32::write(&row.number), row.zigzag)
        && is_varint(Sint64::write(&long), row.zigzag)
        && is_four(Sfixed32::write(&row.number), row.fixed)
        && is_eight(Sfixed64::write(&long), row.varint)
}

fn varints_are_read(alloc: Global, row: &Signed) -> bool {
    let long = i64::from(row.number);
    let varint = ScalarPayload::Varint(row.varint);
    let zigzag = ScalarPayload::Varint(row.zigzag);
    reads::<Int32>(alloc, varint, &row.number)
        && reads::<EnumNumber>(alloc, varint, &row.number)
        && reads::<Int64>(alloc, varint, &long)
        && reads::<Sint32>(alloc, zigzag, &row.number)
        && reads::<Sint64>(alloc, zigzag, &long)
}

fn fixed_are_read(alloc: Global, row: &Signed) -> bool {
    let four = ScalarPayload::I32(row.fixed);
    let eight = ScalarPayload::I64(row.varint);
    reads::<Sfixed32>(alloc, four, &row.number)
        && reads::<Fixed32>(alloc, four, &row.fixed)
        && reads::<Float>(alloc, four, &row.fixed)
        && reads::<Sfixed64>(alloc, eight, &i64::from(row.number))
        && reads::<Fixed64>(alloc, eight, &row.varint)
        && reads::<Double>(alloc, eight, &row.varint)
}

#[test]
fn signed_numbers(rt: HostRuntime) {
    for row in SIGNED {
        assert!(rt;
            are_written(row)
                && varints_are_read(rt.alloc(), row)
                && fixed_are_read(rt.alloc(), row),
            "{}",
            row.number
        );
    }
}

#[test]
fn other_numbers_written(rt: HostRuntime) {
    assert!(rt;
        is_varint(Uint32::write(&u32::MAX), 0xffff_ffff)
            && is_varint(Uint64::write(&u64::MAX), u64::MAX)
            && is_varint(Bool::write(&true), 1)
            && is_varint(Bool::write(&false), 0)
            && is_four(Fixed32::write(&0x8000_0001), 0x8000_0001)
            && is_four(Float::write(&0x3f80_0000), 0x3f80_0000)
            && is_eight(Fixed64::write(&u64::MAX), u64::MAX)
            && is_eight(Double::write(&0x8000_0000_0000_0000), 0x8000_0000_0000_0000)
    );
}

/// The low 32 bits are taken before ZigZag is undone.
#[test]
fn high_bits_dropped(rt: HostRuntime) {
    let alloc = rt.alloc();
    let low = ScalarPayload::Varint(0xffff_fffe);
    let high = ScalarPayload::Varint(0x1_ffff_ffff);
    assert!(rt;
        reads::<Int32>(alloc, low, &-2)
            && reads::<Int64>(alloc, low, &0xffff_fffe)
            && reads::<Uint32>(alloc, high, &0xffff_ffff)
            && reads::<Sint32>(alloc, high, &i32::MIN)
            && reads::<EnumNumber>(alloc, high, &-1)
            && reads::<Uint64>(alloc, high, &0x1_ffff_ffff)
    );
}

const TRUTHS: &[(u64, bool)] = &[
    (0, false),
    (1, true),
    (2, true),
    (0x1_0000_0000, true),
    (0x8000_0000_0000_0000, true),
    (u64::MAX, true),
];

#[test]
fn truth_of_numbers(rt: HostRuntime) {
    for (number, truth) in TRUTHS {
        assert!(rt;
            reads::<Bool>(rt.alloc(), ScalarPayload::Varint(*number), truth),
            "{number}"
        );
    }
}

#[test]
fn payloads_of_other_types(rt: HostRuntime) {
    let alloc = rt.alloc();
    let four = ScalarPayload::I32(5);
    assert!(rt;
        reads_none::<Int32>(alloc, four)
            && reads_none::<Sfixed32>(alloc, ScalarPayload::Varint(5))
            && reads_none::<Double>(alloc, four)
            && reads_none::<Text>(alloc, four)
            && reads_none::<Bytes>(alloc, ScalarPayload::I64(5))
            && four.wire_type() == 5
            && ScalarPayload::Len(b"").wire_type() == 2
    );
}

/// The text is read, and written as the bytes that it was read of.
fn text_back(alloc: Global, bytes: &[u8]) -> Result<bool, Fail> {
    let Some(text) = Text::read(alloc, ScalarPayload::Len(bytes))? else {
        return Ok(false);
    };
    match Text::write(&text) {
        ScalarPayload::Len(written) => Ok(written == bytes),
        _ => Ok(false),
    }
}

fn bytes_back(alloc: Global, bytes: &[u8]) -> Result<bool, Fail> {
    let Some(read) = Bytes::read(alloc, ScalarPayload::Len(bytes))? else {
        return Ok(false);
    };
    match Bytes::write(&read) {
        ScalarPayload::Len(written) => Ok(written == bytes),
        _ => Ok(false),
    }
}

/// Bytes, and whether they are a text.
const TEXTS: &[(&[u8], bool)] = &[
    (b"", true),
    (b"z\xc3\xa9", true),
    (b"A\xff", false),
    (b"\xc3", false),
];

#[test]
fn texts_and_bytes(rt: HostRuntime) -> Result<(), Fail> {
    for (bytes, is_text) in TEXTS {
        assert!(rt;
            text_back(rt.alloc(), bytes)? == *is_text && bytes_back(rt.alloc(), bytes)?,
            "{bytes:?}"
        );
    }
    Ok(())
}
