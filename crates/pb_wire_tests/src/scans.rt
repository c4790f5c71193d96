//! What is at the front of bytes, up to a known end. Expected values are worked out by hand.

use pb_wire::{
    Cause, Number, Scanned, Tag, scan_fixed32, scan_fixed64, scan_length, scan_number, scan_tag,
    scan_varint,
};
use std::test::Fail;

#[test]
fn varints(rt: HostRuntime) -> Result<(), Fail> {
    assert!(rt; scan_varint(b"\x96\x01\x08", None) == Scanned::Whole(150, 2));
    assert!(rt; scan_varint(b"\x96\x01\x08", Some(2)) == Scanned::Whole(150, 2));
    assert!(rt; scan_varint(b"\x96\x01\x08", Some(3)) == Scanned::Whole(150, 2));
    assert!(rt; scan_varint(b"\x96\x01\x08", Some(4294967295)) == Scanned::Whole(150, 2));
    assert!(rt; scan_varint(b"\x96\x01\x08", Some(1)) == Scanned::Fault(Cause::PastEnd));
    assert!(rt; scan_varint(b"\x08", Some(0)) == Scanned::Fault(Cause::PastEnd));
    assert!(rt; scan_varint(b"\x96", Some(1)) == Scanned::Fault(Cause::PastEnd));
    assert!(rt; scan_varint(b"\x96", Some(2)) == Scanned::Short);
    assert!(rt; scan_varint(b"\x96", None) == Scanned::Short);
    assert!(rt; scan_varint(b"", None) == Scanned::Short);
    Ok(())
}

#[test]
fn long_varints(rt: HostRuntime) -> Result<(), Fail> {
    let eleven = b"\xff\xff\xff\xff\xff\xff\xff\xff\xff\xff\x01";
    assert!(rt; scan_varint(eleven, None) == Scanned::Fault(Cause::VarintTooLong));
    assert!(rt; scan_varint(eleven, Some(11)) == Scanned::Fault(Cause::VarintTooLong));
    assert!(rt; scan_varint(eleven, Some(10)) == Scanned::Fault(Cause::VarintTooLong));
    assert!(rt; scan_varint(eleven, Some(9)) == Scanned::Fault(Cause::PastEnd));
    Ok(())
}

#[test]
fn numbers_of_a_fixed_width(rt: HostRuntime) -> Result<(), Fail> {
    let nine = b"\x01\x00\x00\x00\x02\x00\x00\x00\xff";
    let seven = b"\x01\x00\x00\x00\x02\x00\x00";
    assert!(rt; scan_fixed64(nine, Some(8)) == Scanned::Whole(8589934593, 8));
    assert!(rt; scan_fixed64(nine, None) == Scanned::Whole(8589934593, 8));
    assert!(rt; scan_fixed64(nine, Some(7)) == Scanned::Fault(Cause::PastEnd));
    assert!(rt; scan_fixed64(seven, Some(7)) == Scanned::Fault(Cause::PastEnd));
    assert!(rt; scan_fixed64(seven, Some(8)) == Scanned::Short);
    assert!(rt; scan_fixed32(nine, Some(4)) == Scanned::Whole(1, 4));
    assert!(rt; scan_fixed32(nine, Some(3)) == Scanned::Fault(Cause::PastEnd));
    assert!(rt; scan_fixed32(b"\x01\x00\x00", None) == Scanned::Short);
    Ok(())
}

#[test]
fn numbers(rt: HostRuntime) -> Result<(), Fail> {
    let nine = b"\x01\x00\x00\x00\x02\x00\x00\x00\xff";
    assert!(rt; scan_number(0, nine, None) == Scanned::Whole(Number::Varint(1), 1));
    assert!(rt; scan_number(1, nine, Some(9)) == Scanned::Whole(Number::I64(8589934593), 8));
    assert!(rt; scan_number(5, nine, Some(4)) == Scanned::Whole(Number::I32(1), 4));
    assert!(rt; scan_number(0, nine, Some(0)) == Scanned::Fault(Cause::PastEnd));
    assert!(rt; scan_number(1, nine, Some(4)) == Scanned::Fault(Cause::PastEnd));
    assert!(rt; scan_number(5, nine, Some(3)) == Scanned::Fault(Cause::PastEnd));
    assert!(rt; scan_number(0, b"\x80", None) == Scanned::Short);
    assert!(rt; scan_number(1, b"\x80", None) == Scanned::Short);
    assert!(rt; scan_number(5, b"\x80", None) == Scanned::Short);
    Ok(())
}

#[test]
fn tags(rt: HostRuntime) -> Result<(), Fail> {
    // Number 1 with each wire type. The end of a group is a tag like another here.
    assert!(rt;
        scan_tag(b"\x08", None)
            == Scanned::Whole(
                Tag {
                    number: 1,
                    wire_type: 0
                },
                1
            )
    );
    assert!(rt;
        scan_tag(b"\x0c", None)
            == Scanned::Whole(
                Tag {
                    number: 1,
                    wire_type: 4
                },
                1
            )
    );
    assert!(rt;
        scan_tag(b"\x0d", None)
            == Scanned::Whole(
                Tag {
                    number: 1,
                    wire_type: 5
                },
                1
            )
    );
    assert!(rt; scan_tag(b"\x0e", None) == Scanned::Fault(Cause::BadType));
    assert!(rt; scan_tag(b"\x0f", None) == Scanned::Fault(Cause::BadType));
    // Number 0, in one byte and in two.
    assert!(rt; scan_tag(b"\x07", None) == Scanned::Fault(Cause::NumberZero));
    assert!(rt; scan_tag(b"\x80\x00", None) == Scanned::Fault(Cause::NumberZero));
    // The greatest number, 2^29 - 1, and a tag of 2^32.
    let greatest = Tag {
        number: 536870911,
        wire_type: 5,
    };
    assert!(rt; scan_tag(b"\xfd\xff\xff\xff\x0f", Some(5)) == Scanned::Whole(greatest, 5));
    assert!(rt; scan_tag(b"\xff\xff\xff\xff\x0f", None) == Scanned::Fault(Cause::BadType));
    assert!(rt; scan_tag(b"\x80\x80\x80\x80\x10", None) == Scanned::Fault(Cause::TagTooLarge));
    assert!(rt; scan_tag(b"\x96", None) == Scanned::Short);
    assert!(rt; scan_tag(b"\x96\x01", Some(1)) == Scanned::Fault(Cause::PastEnd));
    Ok(())
}

#[test]
fn lengths(rt: HostRuntime) -> Result<(), Fail> {
    assert!(rt; scan_length(b"\x03", None) == Scanned::Whole(3, 1));
    assert!(rt; scan_length(b"\x03", Some(4)) == Scanned::Whole(3, 1));
    assert!(rt; scan_length(b"\x03", Some(3)) == Scanned::Fault(Cause::PastEnd));
    assert!(rt; scan_length(b"\x00", Some(1)) == Scanned::Whole(0, 1));
    assert!(rt; scan_length(b"\x00", Some(0)) == Scanned::Fault(Cause::PastEnd));
    // The greatest length, 2^31 - 1, and one more.
    assert!(rt; scan_length(b"\xff\xff\xff\xff\x07", None) == Scanned::Whole(2147483647, 5));
    assert!(rt;
        scan_length(b"\xff\xff\xff\xff\x07", Some(2147483652)) == Scanned::Whole(2147483647, 5)
    );
    assert!(rt;
        scan_length(b"\xff\xff\xff\xff\x07", Some(2147483651)) == Scanned::Fault(Cause::PastEnd)
    );
    assert!(rt;
        scan_length(b"\x80\x80\x80\x80\x08", None) == Scanned::Fault(Cause::LengthTooLarge)
    );
    assert!(rt;
        scan_length(b"\x80\x80\x80\x80\x08", Some(5)) == Scanned::Fault(Cause::LengthTooLarge)
    );
    assert!(rt; scan_length(b"\x80", None) == Scanned::Short);
    assert!(rt; scan_length(b"\x80", Some(1)) == Scanned::Fault(Cause::PastEnd));
    Ok(())
}
