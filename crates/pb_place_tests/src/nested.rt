//! Changes of nested messages, beside the calls of `DynamicMessage` on the same message by itself.

use super::schema::Schema;
use pb_place::{PlaceStep, clear_at, drop_unknown_at, insert_at, push_at, remove_at, set_at};
use pb_test_types::{body_of, content_of, key_of, value_of};
use pb_value::{Body, Content, DynamicMessage, MapKey, Value};
use std::alloc::Global;
use std::test::Fail;

/// A row: the fields of a message, and a change of one of its fields.
pub(crate) const ROWS: &str = "
1:i5 2:tx 99~v7 | set 1 i7
1:i5 2:tx 99~v7 | set 1 i0
7:u1 1:i5 | set 8 n1.1=i6
8:n1 | set 7 u0
1:i5 | set 6 [i4,i0]
6:[i4] | set 9 {ta=i8}
9:{ta=i8} 3:n2 | clear 9
3:n2.1=i5 99~v7 | clear 3
1:i5 | push 6 i4
6:[i4] | push 6 i0
19:[n0] 1:i5 | push 19 n1.1=i5
1:i5 | insert 9 ta=i8
9:{ta=i8,tb=i7} | insert 9 ta=i6
12:{u8=n0} 99~v7 | insert 12 u7=n1.1=i5
";

/// A row: the fields of a message, a change of it, and its fields after that.
pub(crate) const LEFT: &str = "
1:i5 99~v7 98~v1 | drop 0 | 1:i5
1:i5 | drop 0 | 1:i5
9:{ta=i8,tb=i7} | remove 9 ta | 9:{tb=i7}
9:{ta=i8} 1:i5 99~v7 | remove 9 ta | 1:i5 99~v7
12:{u7=n0,u8=n1} | remove 12 u8 | 12:{u7=n0}
9:{ta=i8} | remove 9 tb | 9:{ta=i8}
1:i5 | remove 9 ta | 1:i5
";

/// Where a nested message is in the one around it.
#[derive(Clone, Copy)]
enum Way {
    Single,
    Element,
    Entry,
}

const WAYS: &[Way] = &[Way::Single, Way::Element, Way::Entry];

/// A message around another: in its field 3, last in its list 19, or in its map 12.
fn around<'p>(
    alloc: Global,
    schema: &'p Schema,
    way: Way,
    inner: Body,
) -> Result<DynamicMessage<'p>, Fail> {
    let mut message = schema.made(alloc, body_of(alloc, "1:i5 98~v1")?)?;
    match way {
        Way::Single => message.set(3, Content::One(Value::Message(inner)))?,
        Way::Element => {
            message.push(19, value_of(alloc, "m1=i1")?)?;
            message.push(19, Value::Message(inner))?;
        }
        Way::Entry => {
            drop(message.insert(12, MapKey::U32(9), value_of(alloc, "m1=i1")?)?);
            drop(message.insert(12, MapKey::U32(8), Value::Message(inner))?);
        }
    }
    Ok(message)
}

/// The steps to the nested message.
fn steps_to(alloc: Global, way: Way) -> Result<Vec<PlaceStep>, Fail> {
    let mut place = Vec::new(alloc);
    match way {
        Way::Single => place.push(PlaceStep::Field(3))?,
        Way::Element => {
            place.push(PlaceStep::Field(19))?;
            place.push(PlaceStep::Index(1))?;
        }
        Way::Entry => {
            place.push(PlaceStep::Field(12))?;
            place.push(PlaceStep::Key(MapKey::U32(8)))?;
        }
    }
    Ok(place)
}

/// A change as words say: its name, a number, and what it stores.
#[derive(Clone, Copy)]
struct Words {
    name: &'static str,
    number: u32,
    word: &'static str,
}

fn words_of(words: &'static str) -> Result<Words, Fail> {
    let (name, rest) = words.trim().split_once(' ').ok_or("no number")?;
    let (number, word) = rest.split_once(' ').unwrap_or((rest, ""));
    let number: u32 = number.parse().map_err(|_| "no number")?;
    Ok(Words { name, number, word })
}

/// The change of the message by itself.
fn change_alone(alloc: Global, message: &mut DynamicMessage<'_>, words: Words) -> Result<(), Fail> {
    let Words { name, number, word } = words;
    match name {
        "set" => message.set(number, content_of(alloc, word)?)?,
        "clear" => message.clear(number),
        "push" => message.push(number, value_of(alloc, word)?)?,
        _ => {
            let (key, value) = word.split_once('=').ok_or("no value")?;
            drop(message.insert(number, key_of(alloc, key)?, value_of(alloc, value)?)?);
        }
    }
    Ok(())
}

/// The change by the place, of the message around.
fn change_inside(
    alloc: Global,
    message: &mut DynamicMessage<'_>,
    place: &[PlaceStep],
    words: Words,
) -> Result<(), Fail> {
    match words.name {
        "set" => set_at(message, place, content_of(alloc, words.word)?)?,
        "clear" => clear_at(message, place)?,
        "push" => push_at(message, place, value_of(alloc, words.word)?)?,
        "drop" => drop_unknown_at(message, place)?,
        "remove" => drop(remove_at(message, place, key_of(alloc, words.word)?)?),
        _ => {
            let (key, value) = words.word.split_once('=').ok_or("no value")?;
            drop(insert_at(message, place, key_of(alloc, key)?, value_of(alloc, value)?)?);
        }
    }
    Ok(())
}

/// Whether a change by a place leaves what the change of the message by itself does, put in the same place.
fn is_same(
    alloc: Global,
    schema: &Schema,
    way: Way,
    fields: &str,
    words: Words,
) -> Result<bool, Fail> {
    let mut alone = schema.made(alloc, body_of(alloc, fields)?)?;
    change_alone(alloc, &mut alone, words)?;
    let wanted = around(alloc, schema, way, alone.into_body())?;
    let mut message = around(alloc, schema, way, body_of(alloc, fields)?)?;
    change_inside(
        alloc,
        &mut message,
        &place_in(alloc, way, words.number)?,
        words,
    )?;
    Ok(*message.body() == *wanted.body())
}

/// The place of a field in a nested message, or of the message itself.
fn place_in(alloc: Global, way: Way, number: u32) -> Result<Vec<PlaceStep>, Fail> {
    let mut place = steps_to(alloc, way)?;
    if number > 0 {
        place.push(PlaceStep::Field(number))?;
    }
    Ok(place)
}

/// Whether a change by a place leaves a message of these fields in that place.
fn leaves(
    alloc: Global,
    schema: &Schema,
    way: Way,
    fields: &str,
    words: Words,
    left: &str,
) -> Result<bool, Fail> {
    let wanted = around(alloc, schema, way, body_of(alloc, left)?)?;
    let mut message = around(alloc, schema, way, body_of(alloc, fields)?)?;
    change_inside(
        alloc,
        &mut message,
        &place_in(alloc, way, words.number)?,
        words,
    )?;
    Ok(*message.body() == *wanted.body())
}

/// Whether a row of what is left holds.
pub(crate) fn is_left(alloc: Global, schema: &Schema, row: &'static str) -> Result<bool, Fail> {
    let (fields, rest) = row.split_once('|').ok_or("no change")?;
    let (words, left) = rest.split_once('|').ok_or("no fields")?;
    let words = words_of(words)?;
    for way in WAYS {
        if !leaves(alloc, schema, *way, fields.trim(), words, left.trim())? {
            return Ok(false);
        }
    }
    Ok(true)
}

/// Whether a row holds.
pub(crate) fn is_right(alloc: Global, schema: &Schema, row: &'static str) -> Result<bool, Fail> {
    let (fields, words) = row.split_once('|').ok_or("no change")?;
    let words = words_of(words)?;
    for way in WAYS {
        if !is_same(alloc, schema, *way, fields.trim(), words)? {
            return Ok(false);
        }
    }
    Ok(true)
}
