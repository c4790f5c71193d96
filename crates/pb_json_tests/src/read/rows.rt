//! JSON texts, and the messages that they are read as.

ghost use Rattle.std.specs.Prelude.{◌<◌, length};

use crate::schema::pool;
use pb_encode::encode;
use pb_json_read::{JsonReadCause, JsonRules, read_json};
use pb_schema::{MessageId, Pool};
use std::alloc::{AllocError, Global};
use std::test::Fail;

/// A row: a text, and the bytes that Python's protobuf 3.21 writes of the message of type `t.M` that it reads. Those of the types with a form of
/// their own are what libprotobuf 3.21 reads, in canonical form; those of an Any are what protoc 3.21 writes of it in the text format.
const ROWS: &str = "
{} | 
 {\"intA\":1}  | 0801
{\"int_a\":\"-5\",\"textB\":\"x\\u00e9\\n\"} | 08fbffffffffffffffff01120478c3a90a
{\"innerC\":{\"intA\":1,\"innerC\":{}},\"listF\":[1,2]} | 1a0408011a0032020102
{\"realD\":1.5,\"singleE\":\"0.1\"} | 21000000000000f83f2dcdcccc3d
{\"realD\":\"NaN\",\"singleE\":\"-Infinity\"} | 21000000000000f87f2d000080ff
{\"realsY\":[1e3,\"2.5E-1\",0,-0.0]} | 9a01200000000000408f40000000000000d03f00000000000000000000000000000080
{\"longQ\":\"9223372036854775807\",\"ulongR\":18446744073709551615} | 58ffffffffffffffff7f60ffffffffffffffffff01
{\"longQ\":-1e3,\"intA\":100e-1} | 080a5898f8ffffffffffffff01
{\"rawS\":\"-_8\",\"colorT\":\"RED\"} | 6a02fbff7001
{\"rawS\":\"+/8=\",\"colorT\":2} | 6a02fbff7002
{\"colorT\":\"2\",\"colorsZ\":[\"COLOR_NONE\",7,\"BLUE\"]} | 7002a20103000705
{\"mapM\":{\"b\":1,\"a\":-2},\"byIdV\":{\"-3\":{},\"10\":{\"intA\":1}},\"byFlagW\":{\"true\":\"x\",\"false\":\"\"}} | 4a0e0a016110feffffffffffffffff014a050a0162100182010d08fdffffffffffffffff011200820106080a120208018a0104080012008a01050801120178
{\"pickX\":null,\"pickY\":{\"intA\":3}} | 42020803
{\"pickX\":0} | 3800
{\"flagP\":false,\"intA\":0,\"textB\":\"\",\"listF\":[],\"mapM\":{}} | 5000
{\"flagP\":null,\"innerC\":null,\"listF\":null,\"mapM\":null} | 
{\"OddName9x\":4,\"nullD\":null} | 950104000000
{\"__odd__name_9x\":4,\"nullD\":\"NULL_VALUE\"} | 950104000000
{\"structA\":{}} | aa0100
{\"structA\":{\"a\":null,\"b\":true,\"c\":1.5,\"d\":\"x\",\"e\":[1,[]],\"f\":{\"g\":{}}}} | aa01560a070a0161120208000a070a0162120220010a0e0a0163120911000000000000f83f0a080a016412031a01780a160a01651211320f0a0911000000000000f03f0a0232000a100a0166120b2a090a070a016712022a00
{\"valueB\":null} | b201020800
{\"valueB\":false} | b201022000
{\"valueB\":-0.25} | b2010911000000000000d0bf
{\"valueB\":\"\\u00e9\"} | b201041a02c3a9
{\"valueB\":[]} | b201023200
{\"valueB\":{\"a\":[{}]}} | b2010f2a0d0a0b0a0161120632040a022a00
{\"listC\":[null,1,\"x\",[],{}]} | ba011c0a0208000a0911000000000000f03f0a031a01780a0232000a022a00
{\"i32Value\":-1,\"i64Value\":\"9223372036854775807\",\"u32Value\":4294967295,\"u64Value\":\"18446744073709551615\"} | ca010b08ffffffffffffffffff01d2010a08ffffffffffffffff7faa020608ffffffff0fb2020b08ffffffffffffffffff01
{\"stringValue\":\"\",\"boolValue\":false,\"doubleValue\":0,\"floatValue\":\"0\",\"bytesValue\":\"\"} | da0100e20100ea0100f20100ba0200
{\"doubleValue\":\"NaN\",\"floatValue\":\"-Infinity\"} | ea010909000000000000f87fba02050d000080ff
{\"bytesValue\":\"AQID\"} | f201050a03010203
{\"i32Value\":null,\"stringValue\":null,\"time\":null,\"span\":null,\"mask\":null,\"any\":null} | 
{\"emptyValue\":{}} | fa0100
{\"time\":\"1970-01-01T00:00:00Z\"} | 820200
{\"time\":\"0001-01-01T00:00:00Z\"} | 82020b088092b8c398feffffff01
{\"time\":\"9999-12-31T23:59:59.999999999Z\"} | 82020d08ff82d1ffaf0710ff93ebdc03
{\"time\":\"2000-02-29T12:00:00.5Z\"} | 82020c08c0e9eec5031080cab5ee01
{\"time\":\"2000-02-29T12:00:00.000001+01:30\"} | 82020908a8bfeec50310e807
{\"time\":\"2000-03-01T00:00:00-08:00\"} | 82020608809cf3c503
{\"times\":[\"1969-12-31T23:59:59.000000001Z\",\"2024-02-29T00:00:00Z\"]} | ca020d08ffffffffffffffffff011001ca0206088092ffae06
{\"span\":\"0s\"} | 8a0200
{\"span\":\"315576000000.999999999s\"} | 8a020d0880bcaece970910ff93ebdc03
{\"span\":\"-315576000000.999999999s\"} | 8a02160880c4d1b1e8f6ffffff011081ec94a3fcffffffff01
{\"span\":\"-0.5s\"} | 8a020b1080b6ca91feffffffff01
{\"span\":\"1.000001s\"} | 8a0205080110e807
{\"mask\":\"\"} | 920200
{\"mask\":\"a,fooBar.bazQux\"} | 9202140a01610a0f666f6f5f6261722e62617a5f717578
{\"values\":[null,1,[null],{\"a\":null}]} | a202020800a2020911000000000000f03fa2020632040a020800a2020b2a090a070a016112020800
{\"nulls\":{\"a\":null,\"b\":\"NULL_VALUE\"}} | c202050a01611000c202050a01621000
{\"any\":{}} | 9a0200
{\"any\":{\"@type\":\"type.googleapis.com/t.M\"}} | 9a02190a17747970652e676f6f676c65617069732e636f6d2f742e4d
{\"any\":{\"@type\":\"type.googleapis.com/t.M\",\"intA\":12345,\"textB\":\"x\"}} | 9a02210a17747970652e676f6f676c65617069732e636f6d2f742e4d120608b960120178
{\"any\":{\"textB\":\"x\",\"@type\":\"type.googleapis.com/t.M\",\"int_a\":12345}} | 9a02210a17747970652e676f6f676c65617069732e636f6d2f742e4d120608b960120178
{\"any\":{\"textB\":\"x\",\"intA\":\"12345\",\"@type\":\"type.googleapis.com/t.M\",\"flagP\":null}} | 9a02210a17747970652e676f6f676c65617069732e636f6d2f742e4d120608b960120178
{\"any\":{\"@type\":\"type.googleapis.com/t.M\",\"any\":{\"intA\":12345,\"@type\":\"type.googleapis.com/t.M\"}}} | 9a023c0a17747970652e676f6f676c65617069732e636f6d2f742e4d12219a021e0a17747970652e676f6f676c65617069732e636f6d2f742e4d120308b960
{\"any\":{\"value\":{\"@type\":\"type.googleapis.com/t.M\",\"intA\":12345},\"@type\":\"type.googleapis.com/google.protobuf.Any\"}} | 9a02490a27747970652e676f6f676c65617069732e636f6d2f676f6f676c652e70726f746f6275662e416e79121e0a17747970652e676f6f676c65617069732e636f6d2f742e4d120308b960
{\"any\":{\"@type\":\"type.googleapis.com/google.protobuf.Any\",\"value\":{}}} | 9a02290a27747970652e676f6f676c65617069732e636f6d2f676f6f676c652e70726f746f6275662e416e79
{\"any\":{\"@type\":\"type.googleapis.com/google.protobuf.Timestamp\",\"value\":\"1970-01-01T00:00:01.000000002Z\"}} | 9a02350a2d747970652e676f6f676c65617069732e636f6d2f676f6f676c652e70726f746f6275662e54696d657374616d70120408011002
{\"any\":{\"@type\":\"type.googleapis.com/google.protobuf.Duration\",\"value\":\"-1.5s\"}} | 9a02460a2c747970652e676f6f676c65617069732e636f6d2f676f6f676c652e70726f746f6275662e4475726174696f6e121608ffffffffffffffffff011080b6ca91feffffffff01
{\"any\":{\"@type\":\"type.googleapis.com/google.protobuf.FieldMask\",\"value\":\"foo,barBaz\"}} | 9a023f0a2d747970652e676f6f676c65617069732e636f6d2f676f6f676c652e70726f746f6275662e4669656c644d61736b120e0a03666f6f0a076261725f62617a
{\"any\":{\"@type\":\"type.googleapis.com/google.protobuf.Int32Value\",\"value\":7}} | 9a02340a2e747970652e676f6f676c65617069732e636f6d2f676f6f676c652e70726f746f6275662e496e74333256616c756512020807
{\"any\":{\"@type\":\"type.googleapis.com/google.protobuf.Struct\",\"value\":{\"foo\":1}}} | 9a02400a2a747970652e676f6f676c65617069732e636f6d2f676f6f676c652e70726f746f6275662e53747275637412120a100a03666f6f120911000000000000f03f
{\"any\":{\"@type\":\"type.googleapis.com/google.protobuf.Value\",\"value\":{\"a\":1}}} | 9a023f0a29747970652e676f6f676c65617069732e636f6d2f676f6f676c652e70726f746f6275662e56616c756512122a100a0e0a0161120911000000000000f03f
{\"any\":{\"@type\":\"type.googleapis.com/google.protobuf.Value\",\"value\":null}} | 9a022f0a29747970652e676f6f676c65617069732e636f6d2f676f6f676c652e70726f746f6275662e56616c756512020800
{\"any\":{\"@type\":\"type.googleapis.com/google.protobuf.Empty\"}} | 9a022b0a29747970652e676f6f676c65617069732e636f6d2f676f6f676c652e70726f746f6275662e456d707479
{\"any\":{\"@type\":\"type.googleapis.com/google.protobuf.Empty\",\"value\":{}}} | 9a022b0a29747970652e676f6f676c65617069732e636f6d2f676f6f676c652e70726f746f6275662e456d707479
{\"any\":{\"value\":null,\"@type\":\"type.googleapis.com/google.protobuf.Empty\"}} | 9a022b0a29747970652e676f6f676c65617069732e636f6d2f676f6f676c652e70726f746f6275662e456d707479
{\"any\":{\"@type\":\"a.b/c/t.M\",\"intA\":5}} | 9a020f0a09612e622f632f742e4d12020805
";

/// Whether a text is read as a message with this encoding.
fn is_read(
    alloc: Global,
    pool: &Pool,
    id: MessageId,
    text: &str,
    digits: &str,
) -> Result<bool, Fail>
    requires { id.0 < length pool.now.messages }
{
    match read_json(alloc, pool, id, text.as_bytes(), JsonRules::Strict) {
        Ok(message) => Ok(hex::encode(alloc, &encode(&message)?)?.as_str() == digits),
        Err(error) if error.cause == JsonReadCause::OutOfMemory => Err(AllocError.into()),
        Err(_) => Ok(false),
    }
}

#[test]
fn rows(rt: HostRuntime) -> Result<(), Fail> {
    let pool = pool(rt.alloc())?;
    let id = pool.message_by_name("t.M").ok_or("no type t.M")?;
    for row in ROWS.lines() {
        if let Some((text, digits)) = row.rsplit_once(" | ") {
            assert!(rt; is_read(rt.alloc(), &pool, id, text, digits)?, "{row}");
        }
    }
    Ok(())
}
