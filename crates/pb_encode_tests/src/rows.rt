//! Messages and their canonical bytes. The bytes are those of a second implementation (protoc, deterministic) or written
//! out by hand.

use super::schema::pool;
use super::writing::{is_cut, is_cut_at_each_byte, is_written, is_written_or_memory};
use pb_encode::EncodeError;
use pb_schema::Pool;
use pb_test_types::body_of;
use pb_value::{Content, DynamicMessage, Value};
use pb_wire::put_varint;
use std::alloc::{AllocError, Global};
use std::test::Fail;

/// A row: the type, its fields and unknown records, how many entries a plan of it has, and its bytes.
const ROWS: &str = "
T | | 0 |
T | 1:i150 | 0 | 089601
T | 1:i-2 | 0 | 08feffffffffffffffff01
T | 1:i-1 | 0 | 08ffffffffffffffffff01
T | 6:[i3,i270,i86942,i1] | 1 | 3207038e029ea70501
T | 3:m1=i1;2=tz | 1 | 1a05080112017a
T | 8:m1=i1;11=i1 | 1 | 420408015802
T | 8:m11=i1 | 1 | 42025802
T | 4:F9223372036854775808 | 0 | 210000000000000080
T | 9:{t=i7} | 1 | 4a040a001007
T | 20~o1 | 0 | a3010801a401
T | 1~lA | 0 | 0a0141
T | 3:n99 | 100 | 1ae9011ae6011ae3011ae0011add011ada011ad7011ad4011ad1011ace011acb011ac8011ac5011ac2011abf011abc011ab9011ab6011ab3011ab0011aad011aaa011aa7011aa4011aa1011a9e011a9b011a98011a95011a92011a8f011a8c011a89011a86011a83011a80011a7e1a7c1a7a1a781a761a741a721a701a6e1a6c1a6a1a681a661a641a621a601a5e1a5c1a5a1a581a561a541a521a501a4e1a4c1a4a1a481a461a441a421a401a3e1a3c1a3a1a381a361a341a321a301a2e1a2c1a2a1a281a261a241a221a201a1e1a1c1a1a1a181a161a141a121a101a0e1a0c1a0a1a081a061a041a021a00
T | 3:w98 | 101 | 1aef011aec011ae9011ae6011ae3011ae0011add011ada011ad7011ad4011ad1011ace011acb011ac8011ac5011ac2011abf011abc011ab9011ab6011ab3011ab0011aad011aaa011aa7011aa4011aa1011a9e011a9b011a98011a95011a92011a8f011a8c011a89011a86011a83011a80011a7e1a7c1a7a1a781a761a741a721a701a6e1a6c1a6a1a681a661a641a621a601a5e1a5c1a5a1a581a561a541a521a501a4e1a4c1a4a1a481a461a441a421a401a3e1a3c1a3a1a381a361a341a321a301a2e1a2c1a2a1a281a261a241a221a201a1e1a1c1a1a1a181a161a141a121a101a0e1a0c1a0a1a081a06620408001200
T | 1:i150 2:tz 3:m1=i1 4:F9223372036854775808 6:[i3,i4] 7:u5 9:{tk=i7} 10:b0 11:i-1 12:{u3=m} 20~o1 | 5 | 08960112017a1a0208012100000000000000803202030438054a050a016b100750005801620408031200a3010801a401
F | 14:[i-1,i1] | 0 | 70017002
F | 16:f2147483648 | 0 | 850100000080
F | 17:e-1 | 0 | 8801ffffffffffffffffff01
F | 17:e5 | 0 | 880105
F | 13:[t,tx] | 0 | 6a006a0178
F | 10:b1 | 0 | 5001
F | 11:i-2147483648 | 0 | 58ffffffff0f
F | 1:i5 100~v1 100~v2 | 0 | 0805a00601a00602
T | 12:{u1=m11=i-1} | 2 | 6206080112025801
T | 12:{u1=m1=i1;11=i-1} | 2 | 62080801120408015801
T | 9:{tb=i1,ta=i2} | 2 | 4a050a016110024a050a01621001
T | 9:{tk=i7} | 1 | 4a050a016b1007
T | 9:{t=i0} | 1 | 4a040a001000
T | 7:u5 | 0 | 3805
T | 7:u0 | 0 | 3800
T | 8:m | 1 | 4200
T | 9:{tb=i0,ta=i0,t=i-1} 12:{u300=m1=i1,u2=m} | 7 | 4a0d0a0010ffffffffffffffffff014a050a016110004a050a01621000620408021200620708ac0212020801
F | 1:i1 15:yab 16:f1065353216 17:e-1 18:[u1,u4294967295] | 1 | 08017a02616285010000803f8801ffffffffffffffffff0192010801000000ffffffff
W | 1:I-1 2:U18446744073709551615 3:I-9223372036854775808 4:U1 5:i-2 6:I-3 7:u4294967295 8:u4294967295 9:b1 | 0 | 08ffffffffffffffffff0110ffffffffffffffffff0118ffffffffffffffffff012101000000000000002dfeffffff31fdffffffffffffff3dffffffff40ffffffff0f4801
W | 1:I127 2:U128 3:I64 8:u16383 | 0 | 087f10800118800140ff7f
W | 10:[b1,b0] 11:[F4607182418800017408,F9223372036854775808] 12:[I-1,I64] | 3 | 520201005a10000000000000f03f00000000000000806203018001
W | 13:[y,yab] 14:[e0,e-1,e0] | 1 | 6a006a026162720c00ffffffffffffffffff0100
W | 15:{b1=tt,b0=t} | 2 | 7a04080012007a050801120174
W | 16:{i1=b1,i-1=b0,i0=b1} | 3 | 820104080110008201040800100182010408021001
W | 17:{U256=yx,U1=y} | 2 | 8a010b09010000000000000012008a010c090001000000000000120178
W | 18:[m,n1,m1=i1] | 4 | 9201009201021a009201020801
W | 19:{tb=e-1,t=e0,tab=e-1} | 3 | 9a01040a0010009a010f0a02616210ffffffffffffffffff019a010e0a016210ffffffffffffffffff01
W | 20:{I-1=f1069547520,I1=f2147483648,I0=f0} | 3 | a2011008ffffffffffffffffff01150000c03fa2010708001500000000a2010708011500000080
W | 22:t | 0 | b20100
W | 536870911:[f1065353216,f2147483648] | 1 | faffffff0f080000803f00000080
T | 19~w1 19~d2 1~o0 19~l | 0 | 9d0101000000990102000000000000000b08000c9a0100
T | 15~v1 15~d2 15~l 15~lA 15~o1 15~w1 | 0 | 78017902000000000000007a007a01417b08017c7d01000000
T | 536870911~v1 536870911~d2 536870911~l 536870911~lA 536870911~o1 536870911~w1 | 0 | f8ffffff0f01f9ffffff0f0200000000000000faffffff0f00faffffff0f0141fbffffff0f0801fcffffff0ffdffffff0f01000000
T | 16~w1 2047~w1 2048~w1 262143~w1 262144~w1 33554431~w1 33554432~w1 | 0 | 850101000000fd7f0100000085800101000000fdff7f010000008580800101000000fdffff7f01000000858080800101000000
T | 15~v0 15~v127 15~v128 15~v16383 15~v16384 15~v2097151 15~v2097152 15~v268435455 | 0 | 7800787f78800178ff7f7880800178ffff7f788080800178ffffff7f
T | 15~v268435456 15~v34359738367 15~v72057594037927935 15~v72057594037927936 | 0 | 78808080800178ffffffff7f78ffffffffffffff7f78808080808080808001
T | 15~v9223372036854775807 15~v9223372036854775808 15~v18446744073709551615 | 0 | 78ffffffffffffffff7f788080808080808080800178ffffffffffffffffff01
";

/// The same of the type `Q`.
const CLOSED: &str = "
Q | 1:i0 | 0 | 0800
Q | 2:[i1,i2] | 0 | 10011002
Q | 3:m1=i6 | 0 | 1b08061c
Q | 3:m | 0 | 1b1c
Q | 3~x0805 | 0 | 1a020805
Q | 4:e2 4~v7 | 0 | 20022007
Q | 4:e1 | 0 | 2001
Q | 4:e-1 | 0 | 20ffffffffffffffffff01
Q | 4~v4294967303 | 0 | 208780808010
Q | 5:[e1,e2] 5~v7 5~v9 | 1 | 2a02010228072809
Q | 5:[e1,e2,e-1] | 1 | 2a0c0102ffffffffffffffffff01
Q | 9:[e1,e-1] | 0 | 480148ffffffffffffffffff01
Q | 6:e1 | 0 | 3001
Q | 536870911:m1=i7 | 0 | fbffffff0f0807fcffffff0f
Q | 3:m1=i5 4:e2 | 0 | 1b08051c2002
Q | 3:m1=i5;2=e2 | 0 | 1b080510021c
Q | 3:n1 | 1 | 1b1a001c
Q | 3:n2 | 1 | 1b1a021b1c1c
Q | 3:n26 | 13 | 1b1a321b1a2e1b1a2a1b1a261b1a221b1a1e1b1a1a1b1a161b1a121b1a0e1b1a0a1b1a061b1a021b1c1c1c1c1c1c1c1c1c1c1c1c1c1c
Q | 16:[m1=i5,m,m1=i-1] | 0 | 83010805840183018401830108ffffffffffffffffff018401
Q | 16:[n2,n1] | 2 | 83011a021b1c840183011a008401
Q | 10:{i1=n1} | 2 | 5206080112021b1c
Q | 10:{i1=m4=e2,i-1=m} | 4 | 520d08ffffffffffffffffff0112005206080112022002
";

/// A message of a type and these fields.
fn message_of<'p>(
    alloc: Global,
    pool: &'p Pool,
    name: &str,
    fields: &str,
) -> Result<DynamicMessage<'p>, Fail> {
    let kind = pool.message_by_name(name).ok_or("no such type")?;
    let body = body_of(alloc, fields)?;
    Ok(DynamicMessage::from_body(alloc, pool, kind, body)?)
}

/// Whether a message is written so, and cut where each write of one byte fails in turn.
fn is_told(
    alloc: Global,
    message: &DynamicMessage<'_>,
    text: &str,
    entries: usize,
) -> Result<bool, Fail> {
    let bytes = hex::decode(alloc, text)?;
    Ok(is_written(alloc, message, &bytes, entries)? && is_cut_at_each_byte(alloc, message, &bytes))
}

/// The type, the fields, the number of entries and the bytes of a row.
fn parts_of(row: &str) -> Result<(&str, &str, usize, &str), Fail> {
    let (name, row) = row.split_once('|').ok_or("no type")?;
    let (fields, row) = row.split_once('|').ok_or("no fields")?;
    let (entries, text) = row.split_once('|').ok_or("no entries")?;
    let entries = entries.trim().parse::<usize>()?;
    Ok((name.trim(), fields, entries, text.trim()))
}

/// Whether a row's message is written as the row says.
fn is_encoded(alloc: Global, pool: &Pool, row: &str) -> Result<bool, Fail> {
    let (name, fields, entries, text) = parts_of(row)?;
    let message = message_of(alloc, pool, name, fields)?;
    is_told(alloc, &message, text, entries)
}

/// The first row that is answered otherwise, or none.
fn first_wrong<'a>(alloc: Global, pool: &Pool, rows: &'a str) -> Result<Option<&'a str>, Fail> {
    for row in rows.lines() {
        if !row.is_empty() && !is_encoded(alloc, pool, row)? {
            return Ok(Some(row));
        }
    }
    Ok(None)
}

fn wrong_row(alloc: Global, rows: &'static str) -> Result<Option<&'static str>, Fail> {
    let pool = pool(alloc)?;
    first_wrong(alloc, &pool, rows)
}

#[test]
fn rows(rt: HostRuntime) -> Result<(), Fail> {
    let wrong = wrong_row(rt.alloc(), ROWS)?;
    assert!(rt; wrong.is_none(), "{wrong:?}");
    Ok(())
}

#[test]
fn groups_and_closed_enums(rt: HostRuntime) -> Result<(), Fail> {
    let wrong = wrong_row(rt.alloc(), CLOSED)?;
    assert!(rt; wrong.is_none(), "{wrong:?}");
    Ok(())
}

/// Lengths of a string, with the records around it past the buffer's size and at it.
const SIZES: &[usize] = &[4080, 4090, 4091, 4092, 4093, 4094, 4095, 4096, 4097, 9000];

/// Field 1 is 1, field 2 a string of `size` letters, and field 15 two bytes.
fn long_message(alloc: Global, pool: &Pool, size: usize) -> Result<DynamicMessage<'_>, Fail> {
    let mut message = message_of(alloc, pool, "F", "1:i1 15:yab")?;
    let text = String::from_utf8(vec![in alloc; b'x'; size]?)?;
    message.set(2, Content::One(Value::Text(text)))?;
    Ok(message)
}

fn long_bytes(alloc: Global, size: usize) -> Result<Vec<u8>, AllocError> {
    let mut bytes = Vec::from_slice(alloc, b"\x08\x01\x12")?;
    bytes.extend_from_slice(put_varint(size as u64).as_slice())?;
    bytes.resize(bytes.len().saturating_add(size), b'x')?;
    bytes.extend_from_slice(b"\x7a\x02ab")?;
    Ok(bytes)
}

fn is_long_told(alloc: Global, message: &DynamicMessage<'_>, size: usize) -> Result<bool, Fail> {
    let bytes = long_bytes(alloc, size)?;
    Ok(
        is_written(alloc, message, &bytes, 0)?
            && is_cut(alloc, message, &bytes, 100)
            && is_cut(alloc, message, &bytes, 10_000),
    )
}

fn is_long(alloc: Global, pool: &Pool, size: usize) -> Result<bool, Fail> {
    let message = long_message(alloc, pool, size)?;
    is_long_told(alloc, &message, size)
}

/// The first length that is answered otherwise, or none.
fn wrong_among(alloc: Global, pool: &Pool, sizes: &[usize]) -> Result<Option<usize>, Fail> {
    for size in sizes {
        if !is_long(alloc, pool, *size)? {
            return Ok(Some(*size));
        }
    }
    Ok(None)
}

fn wrong_size(alloc: Global) -> Result<Option<usize>, Fail> {
    let pool = pool(alloc)?;
    wrong_among(alloc, &pool, SIZES)
}

#[test]
fn long_texts(rt: HostRuntime) -> Result<(), Fail> {
    let wrong = wrong_size(rt.alloc())?;
    assert!(rt; wrong.is_none(), "{wrong:?}");
    Ok(())
}

/// Whether a message is written so where no allocation is refused.
fn is_grown(
    alloc: Global,
    message: &DynamicMessage<'_>,
    text: &str,
    entries: usize,
) -> Result<bool, Fail> {
    let bytes = hex::decode(alloc, text)?;
    Ok(is_written_or_memory(alloc, message, &bytes, entries))
}

fn is_row_grown(alloc: Global, pool: &Pool, row: &str) -> Result<bool, Fail> {
    let (name, fields, entries, text) = parts_of(row)?;
    let message = message_of(alloc, pool, name, fields)?;
    is_grown(alloc, &message, text, entries)
}

fn are_grown(alloc: Global, pool: &Pool, rows: &str) -> Result<bool, Fail> {
    for row in rows.lines() {
        if !row.is_empty() && !is_row_grown(alloc, pool, row)? {
            return Ok(false);
        }
    }
    Ok(true)
}

fn are_refusals_reported(alloc: Global) -> Result<bool, Fail> {
    let pool = pool(alloc)?;
    Ok(are_grown(alloc, &pool, ROWS)? && are_grown(alloc, &pool, CLOSED)?)
}

/// What the calls answer where an allocation is refused, which `.ci/allocations` does.
#[test]
fn allocations(rt: HostRuntime) -> Result<(), Fail> {
    let are_reported = are_refusals_reported(rt.alloc())?;
    assert!(rt; are_reported);
    Ok(())
}

#[test]
fn errors(rt: HostRuntime) -> Result<(), Fail> {
    let cut = EncodeError::Device { written: 3 };
    let text = format!(in rt.alloc(); "{cut}, {}, {}", EncodeError::Memory, EncodeError::TooLarge)?;
    assert!(rt;
        EncodeError::TooLarge.number() == 31
            && EncodeError::Memory.number() == 32
            && cut.number() == 33
            && text.as_str()
                == "the device failed after 3 bytes, out of memory, the encoding has more than 2147483647 bytes"
    );
    Ok(())
}
