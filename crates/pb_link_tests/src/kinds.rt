//! Kinds and shapes of the fields of pools with files of proto2. A row is the set in hexadecimal, the full name of a message, and for each of its
//! fields the name, the kind and the shape.

use super::declarations::pool_of;
use pb_schema::{Field, Pool};
use std::alloc::{AllocError, Global};
use std::test::Fail;

const ROWS: &str = "
0a7e0a07712e70726f746f225c0a015112090a016118012001280512090a0165180220032805120f0a016718032001280a32042e512e47120d0a016b18042001280e32022e4512110a016c18052003280e32022e45420210011a0e0a014712090a01781801200128052a150a014512070a034f4e45100112070a0354574f1002 | Q | a Int32 Explicit, e Int32 List { packed: false }, g Group(MessageId(1)) Explicit, k ClosedEnum(EnumId(0)) Explicit, l ClosedEnum(EnumId(0)) List { packed: true }
0ae5010a07722e70726f746f22d9010a0152120f0a016c18012003280a32042e522e4c12110a016818022001280a32042e522e484800120b0a016e180320012805480012140a016d18042003280b32092e522e4d456e747279120d0a017018052003281142021000120d0a01661806200328074202100112090a0173180720012809120d0a017218082001280b32022e521a0e0a014c12090a01781801200128051a120a0148120d0a017218012001280b32022e521a2c0a064d456e747279120b0a036b657918012001280512110a0576616c756518022001280b32022e523a02380142030a016f | R | l Group(MessageId(1)) List { packed: false }, h Group(MessageId(2)) OneofMember(0), n Int32 OneofMember(0), m Message(MessageId(0)) Map { key: Int32 }, p Sint32 List { packed: false }, f Fixed32 List { packed: true }, s Text Explicit, r Message(MessageId(0)) Explicit
0a7e0a07712e70726f746f225c0a015112090a016118012001280512090a0165180220032805120f0a016718032001280a32042e512e47120d0a016b18042001280e32022e4512110a016c18052003280e32022e45420210011a0e0a014712090a01781801200128052a150a014512070a034f4e45100112070a0354574f10020a4a0a07702e70726f746f1a07712e70726f746f222e0a0150120d0a017118012001280b32022e51120f0a016718022003280b32042e512e4712090a0161180320012805620670726f746f33 | P | q Message(MessageId(0)) Explicit, g Message(MessageId(1)) List { packed: false }, a Int32 Implicit
0a7e0a07712e70726f746f225c0a015112090a016118012001280512090a0165180220032805120f0a016718032001280a32042e512e47120d0a016b18042001280e32022e4512110a016c18052003280e32022e45420210011a0e0a014712090a01781801200128052a150a014512070a034f4e45100112070a0354574f10020a4a0a07702e70726f746f1a07712e70726f746f222e0a0150120d0a017118012001280b32022e51120f0a016718022003280b32042e512e4712090a0161180320012805620670726f746f33 | Q.G | x Int32 Explicit
0a1d0a077a2e70726f746f2a0a0a015a12050a014e1000620670726f746f330a9c010a076d2e70726f746f1a077a2e70726f746f22750a014d120d0a017a18012001280e32022e5a120e0a027a7318022003280e32022e5a12140a016d18032003280b32092e4d2e4d456e747279120d0a016318042001280e32022e431a2c0a064d456e747279120b0a036b657918012001280512110a0576616c756518022001280e32022e5a3a0238012a110a014312050a0142100712050a01411000 | M | z Enum(EnumId(0)) Explicit, zs Enum(EnumId(0)) List { packed: false }, m Enum(EnumId(0)) Map { key: Int32 }, c ClosedEnum(EnumId(1)) Explicit
";

fn put_field(alloc: Global, text: &mut String, field: &Field) -> Result<(), AllocError> {
    if !text.is_empty() {
        text.push_str(", ")?;
    }
    let told = format!(in alloc; "{} {:?} {:?}", field.name, field.kind, field.shape)?;
    text.push_str(told.as_str())
}

/// The fields of a message in a row.
fn told(alloc: Global, fields: &[Field]) -> Result<String, AllocError> {
    let mut text = String::new(alloc);
    for field in fields {
        put_field(alloc, &mut text, field)?;
    }
    Ok(text)
}

/// Whether the fields of a message are these.
fn has_fields(alloc: Global, pool: &Pool, message: &str, wanted: &str) -> Result<bool, Fail> {
    let id = pool.message_by_name(message).ok_or("no such message")?;
    let kind = pool.messages().get(id.0).ok_or("no message")?;
    let text = told(alloc, &kind.fields)?;
    Ok(text.as_str() == wanted)
}

fn holds(alloc: Global, row: &str) -> Result<bool, Fail> {
    let (set, rest) = row.split_once(" | ").ok_or("no message")?;
    let (message, wanted) = rest.split_once(" | ").ok_or("no fields")?;
    let pool = pool_of(alloc, set)?;
    has_fields(alloc, &pool, message, wanted)
}

#[test]
fn fields(rt: HostRuntime) -> Result<(), Fail> {
    for row in ROWS.lines() {
        assert!(rt; row.is_empty() || holds(rt.alloc(), row)?, "{row}");
    }
    Ok(())
}
