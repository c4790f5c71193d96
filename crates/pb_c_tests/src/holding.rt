//! Messages that are held as their canonical bytes.

ghost use Rattle.pb_c_message.specs.Holds.{IsHeld};

use super::schema::Schema;
use pb_c_message::{
    Held, PlainValue, bytes_held, bytes_to_hold, canonical_bytes, plain_held, take_body,
};
use pb_canonical::is_canonical;
use pb_test_types::body_of;
use pb_value::Body;
use std::alloc::Global;
use std::test::Fail;

/// A row: the canonical bytes of a message in hexadecimal, as protoc writes them, the steps of a place, what is found there in the bytes, and the
/// fields of the message. A step and a value are a kind, a dot and a number; `-` is nothing.
pub(crate) const ROWS: &str = "
0805 | 21.1 | 5.5 - | 1:i5
0805 | 21.2 | - - | 1:i5
0805 | 21.9 | - - | 1:i5
0805 | | - - | 1:i5
0805 | 22.1 | - - | 1:i5
0805 | 21.4294967297 | - - | 1:i5
0805 | 21.1 21.1 | - - | 1:i5
| 21.1 | - - |
08ffffffffffffffffff01 | 21.1 | 5.18446744073709551615 - | 1:i-1
120378797a | 21.2 | 9.3 xyz | 2:txyz
1a020805 | 21.3 21.1 | 5.5 - | 3:m1=i5
1a020805 | 21.3 | - - | 3:m1=i5
1a020805 | 21.3 21.2 | - - | 3:m1=i5
1a041a020805 | 21.3 21.3 21.1 | 5.5 - | 3:n1.1=i5
32020400 | 21.6 | - - | 6:[i4,i0]
32020400 | 21.6 22.0 | - - | 6:[i4,i0]
3804 | 21.7 | 13.4 - | 7:u4
42020805 | 21.8 21.1 | 5.5 - | 8:m1=i5
5000 | 21.10 | 8.0 - | 10:b0
5001 | 21.10 | 8.1 - | 10:b1
0805980607 | 21.1 | 5.5 - | 1:i5 99~v7
";

fn value_of(word: &str) -> Result<PlainValue, Fail> {
    let (kind, number) = word.split_once('.').ok_or("no dot")?;
    Ok(PlainValue {
        kind: kind.parse().map_err(|_| "no kind")?,
        number: number.parse().map_err(|_| "no number")?,
    })
}

fn place_of(alloc: Global, words: &str) -> Result<Vec<PlainValue>, Fail> {
    let mut place = Vec::new(alloc);
    for word in words.split_whitespace() {
        place.push(value_of(word)?)?;
    }
    Ok(place)
}

/// Whether what is found in held bytes is as two words say.
fn is_found(
    alloc: Global,
    schema: &Schema,
    held: &Held,
    place: &[PlainValue],
    words: &str,
) -> Result<bool, Fail>
    requires { IsHeld schema.now.pool schema.now.message_type.0 held.now }
{
    let (value, bytes) = words.split_once(' ').ok_or("one word")?;
    let value_is = match plain_held(alloc, &schema.pool, schema.message_type, held, place) {
        Some(found) => value != "-" && found == value_of(value)?,
        None => value == "-",
    };
    let bytes_are = match bytes_held(alloc, &schema.pool, schema.message_type, held, place) {
        Some(found) => found == bytes.as_bytes(),
        None => bytes == "-",
    };
    Ok(value_is && bytes_are)
}

/// Whether a row holds.
pub(crate) fn is_right(alloc: Global, schema: &Schema, row: &str) -> Result<bool, Fail> {
    let (encoded, rest) = row.split_once('|').ok_or("no place")?;
    let (place, rest) = rest.split_once('|').ok_or("nothing found")?;
    let (found, fields) = rest.split_once('|').ok_or("no fields")?;
    let bytes = hex::decode(alloc, encoded.trim())?;
    let place = place_of(alloc, place)?;
    if !is_canonical(&schema.pool, schema.message_type, &bytes) {
        return Ok(false);
    }
    let mut held = bytes_to_hold(alloc, &bytes)?;
    if canonical_bytes(&held) != Some(bytes.as_slice()) {
        return Ok(false);
    }
    if !is_found(alloc, schema, &held, &place, found.trim())? {
        return Ok(false);
    }
    let body = take_body(alloc, &schema.pool, schema.message_type, &mut held).ok_or("memory")?;
    let wanted: Body = body_of(alloc, fields.trim())?;
    Ok(body == wanted && canonical_bytes(&held).is_none())
}
