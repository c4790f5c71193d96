//! Packed lists of any packable kind, written and read through the trait of kinds.

ghost use Rattle.std.specs.Prelude.{◌≡◌, ◌++◌, [], IfOk, IfSome, IfNone, OnOk, IsTrue, map};
ghost use Rattle.std.specs.List.{flat_map};
ghost use Rattle.pb_wire.specs.Record.{len};
ghost use Rattle.pb_wire.specs.Schema.{a_varint, eight_bytes, four_bytes};
ghost use Rattle.pb_wire.specs.Sound.{AreElements};
ghost use Rattle.pb_schema.specs.Kinds.{is_packable, wire_type_of};
ghost use Rattle.pb_schema.specs.Context.{element_of};
ghost use Rattle.pb_schema.specs.Packed.{elements, number_bytes, element_bytes};
ghost use Rattle.pb_schema.specs.PayloadView.{payload_view};
ghost use Rattle.pb_schema_tests.specs.Cuts.{Cuts};

use pb_schema::Kind;
use pb_schema::laws::{packed_numbers, path_bounds, reads_back};
use pb_schema::scalars::*;
use pb_wire::{put_varint, read_varint};
use std::alloc::{AllocError, Global};
use std::test::Fail;

/// Adds a number of a packed list. Bytes are no number.
fn push_number(bytes: &mut Vec<u8>, payload: ScalarPayload<'_>) -> Result<(), AllocError>
    ensures { OnOk result (bytes.new.items ≡ bytes.old.items ++ number_bytes (payload_view payload.entry)) }
{
    match payload {
        ScalarPayload::Varint(number) => bytes.extend_from_slice(put_varint(number).as_slice())?,
        ScalarPayload::I64(number) => bytes.extend_from_slice(&number.to_le_bytes())?,
        ScalarPayload::I32(number) => bytes.extend_from_slice(&number.to_le_bytes())?,
        ScalarPayload::Len(_) => {}
    }
    Ok(())
}

/// The payload of a packed list.
fn write_packed<S: Scalar>(alloc: Global, items: &[S::Item]) -> Result<Vec<u8>, AllocError>
    ensures { IfOk result (λ v. v.items ≡ flat_map (λ x. element_bytes S.kind (S.view x)) items.now) }
{
    let mut bytes = Vec::new(alloc);
    for item in items {
        push_number(&mut bytes, S::write(item))?;
    }
    Ok(bytes)
}

/// A number of a packed list, and the bytes after it.
type FirstNumber<'a> = Option<(ScalarPayload<'a>, &'a [u8])>;

fn first_varint(bytes: &[u8]) -> FirstNumber<'_>
    ensures some { IfSome result (λ r. Cuts a_varint 0 (payload_view r.0) bytes.now r.1.now) }
    ensures none { IfNone result (AreElements a_varint bytes.now → bytes.now ≡ []) }
{
    match read_varint(bytes) {
        Ok((number, size)) => Some((ScalarPayload::Varint(number), &bytes[size..])),
        Err(_) => None,
    }
}

fn first_eight(bytes: &[u8]) -> FirstNumber<'_>
    ensures some { IfSome result (λ r. Cuts eight_bytes 1 (payload_view r.0) bytes.now r.1.now) }
    ensures none { IfNone result (AreElements eight_bytes bytes.now → bytes.now ≡ []) }
{
    if bytes.len() < 8 {
        return None;
    }
    let front = [
        bytes[0], bytes[1], bytes[2], bytes[3], bytes[4], bytes[5], bytes[6], bytes[7],
    ];
    Some((ScalarPayload::I64(u64::from_le_bytes(front)), &bytes[8..]))
}

fn first_four(bytes: &[u8]) -> FirstNumber<'_>
    ensures some { IfSome result (λ r. Cuts four_bytes 5 (payload_view r.0) bytes.now r.1.now) }
    ensures none { IfNone result (AreElements four_bytes bytes.now → bytes.now ≡ []) }
{
    if bytes.len() < 4 {
        return None;
    }
    let front = [bytes[0], bytes[1], bytes[2], bytes[3]];
    Some((ScalarPayload::I32(u32::from_le_bytes(front)), &bytes[4..]))
}

fn first_number(kind: Kind, bytes: &[u8]) -> FirstNumber<'_>
    requires { IsTrue (is_packable kind) }
    ensures some { IfSome result (λ r. Cuts (element_of kind) (wire_type_of kind) (payload_view r.0) bytes.now r.1.now) }
    ensures none { IfNone result (AreElements (element_of kind) bytes.now → bytes.now ≡ []) }
{
    match kind.wire_type() {
        0 => first_varint(bytes),
        1 => first_eight(bytes),
        _ => first_four(bytes),
    }
}

/// The elements of a packed payload. None where the payload is not whole elements.
fn read_packed<S: Scalar>(
    alloc: Global,
    kind: Kind,
    bytes: &[u8],
) -> Result<Option<Vec<S::Item>>, AllocError>
    requires kind { kind ≡ S.kind }
    requires packable { IsTrue (is_packable kind) }
    ensures read { IfOk result (λ o. IfSome o (λ v. map S.view v.items ≡ elements kind (len bytes.now))) }
    ensures whole { IfOk result (λ o. IfSome o (λ v. AreElements (element_of kind) bytes.now)) }
    ensures none { IfOk result (λ o. IfNone o (¬ AreElements (element_of kind) bytes.now)) }
{
    let mut items = Vec::new(alloc);
    let mut rest = bytes;
    while !rest.is_empty() {
        let Some((payload, others)) = first_number(kind, rest) else {
            return Ok(None);
        };
        let Some(item) = S::read(alloc, payload)? else {
            return Ok(None);
        };
        items.push(item)?;
        rest = others;
    }
    Ok(Some(items))
}

#[test]
fn numbers_of_lists(rt: HostRuntime) -> Result<(), Fail> {
    let alloc = rt.alloc();
    let numbers: &[i32] = &[3, 270, 86942];
    let bytes: &[u8] = b"\x03\x8e\x02\x9e\xa7\x05";
    let written = write_packed::<Int32>(alloc, numbers)?;
    let read = read_packed::<Int32>(alloc, Kind::Int32, bytes)?.ok_or("whole")?;
    let longer = read_packed::<Int32>(alloc, Kind::Int32, b"\x83\x80\x00\x01")?.ok_or("whole")?;
    let cut = read_packed::<Int32>(alloc, Kind::Int32, b"\x03\x8e")?;
    assert!(rt;
        written.as_slice() == bytes
            && read.as_slice() == numbers
            && longer.as_slice() == [3, 1].as_slice()
            && cut.is_none()
    );
    Ok(())
}

#[test]
fn signs_of_lists(rt: HostRuntime) -> Result<(), Fail> {
    let alloc = rt.alloc();
    let two = write_packed::<Int32>(alloc, &[-2])?;
    let numbers: &[i32] = &[-1, 1, i32::MIN];
    let bytes: &[u8] = b"\x01\x02\xff\xff\xff\xff\x0f";
    let written = write_packed::<Sint32>(alloc, numbers)?;
    let read = read_packed::<Sint32>(alloc, Kind::Sint32, bytes)?.ok_or("whole")?;
    assert!(rt;
        two.as_slice() == b"\xfe\xff\xff\xff\xff\xff\xff\xff\xff\x01".as_slice()
            && written.as_slice() == bytes
            && read.as_slice() == numbers
    );
    Ok(())
}

#[test]
fn fixed_lists(rt: HostRuntime) -> Result<(), Fail> {
    let alloc = rt.alloc();
    let numbers: &[u32] = &[0x8000_0001, 2];
    let bytes: &[u8] = b"\x01\x00\x00\x80\x02\x00\x00\x00";
    let written = write_packed::<Fixed32>(alloc, numbers)?;
    let read = read_packed::<Fixed32>(alloc, Kind::Fixed32, bytes)?.ok_or("whole")?;
    let long = read_packed::<Double>(alloc, Kind::Double, bytes)?.ok_or("whole")?;
    let cut = read_packed::<Double>(alloc, Kind::Double, &bytes[..7])?;
    assert!(rt;
        written.as_slice() == bytes
            && read.as_slice() == numbers
            && long.as_slice() == [0x2_8000_0001].as_slice()
            && cut.is_none()
    );
    Ok(())
}

#[test]
fn laws() {
    reads_back();
    packed_numbers();
    path_bounds();
}
