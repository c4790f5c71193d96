//! What messages have at places.

use super::places::place_of;
use super::schema::Schema;
use pb_place::{Found, at};
use pb_test_types::{body_of, content_of, value_of};
use pb_value::{Content, DynamicMessage};
use std::alloc::Global;
use std::test::Fail;

/// A row: the fields of a message, a place, and what is there: a message by its fields, one value, a list, a map, or nothing.
const FIELDS: &str = "
1:i5 2:tx | | message 1:i5 2:tx
1:i5 2:tx | f1 | i5
1:i5 2:tx | f2 | tx
1:i5 2:tx | f3 | none
1:i5 2:tx | f99 | none
1:i5 | #0 | none
1:i5 | ku1 | none
1:i5 | f1 f1 | none
1:i5 | f1 #0 | none
10:b0 | f10 | b0
7:u0 | f7 | u0
7:u0 | f8 | none
";

const LISTS: &str = "
6:[i4,i0] | f6 | [i4,i0]
6:[i4,i0] | f6 #0 | i4
6:[i4,i0] | f6 #1 | i0
6:[i4,i0] | f6 #2 | none
6:[i4,i0] | f6 f0 | none
6:[i4,i0] | f6 ki0 | none
6:[i4,i0] | f6 #0 #0 | none
6:[i4,i0] | f13 | none
6:[i4,i0] | f13 #0 | none
";

const MAPS: &str = "
9:{ta=i8,tk=i4} | f9 | {ta=i8,tk=i4}
9:{ta=i8,tk=i4} | f9 kta | i8
9:{ta=i8,tk=i4} | f9 ktk | i4
9:{ta=i8,tk=i4} | f9 ktb | none
9:{ta=i8,tk=i4} | f9 ki0 | none
9:{ta=i8,tk=i4} | f9 #0 | none
9:{ta=i8,tk=i4} | f9 kta f1 | none
";

const NESTED: &str = "
3:m1=i5;2=tx | f3 | message 1:i5 2:tx
3:m1=i5;2=tx | f3 f1 | i5
3:m1=i5;2=tx | f3 f3 | none
3:m1=i5;2=tx | f3 #0 | none
3:m1=i5;2=tx | f8 f1 | none
3:n2.1=i5 | f3 f3 f3 f1 | i5
3:n2.1=i5 | f3 f3 f3 | message 1:i5
3:n2.1=i5 | f3 f3 f3 f3 | none
8:n0 | f8 | message
19:[m1=i7,m1=i8] | f19 | [m1=i7,m1=i8]
19:[m1=i7,m1=i8] | f19 #1 | message 1:i8
19:[m1=i7,m1=i8] | f19 #0 f1 | i7
19:[m1=i7,m1=i8] | f19 #2 f1 | none
19:[m1=i7,m1=i8] | f19 f1 | none
12:{u8=n1.1=i5,u9=m1=i6} | f12 | {u8=n1.1=i5,u9=m1=i6}
12:{u8=n1.1=i5,u9=m1=i6} | f12 ku9 | message 1:i6
12:{u8=n1.1=i5,u9=m1=i6} | f12 ku8 f3 f1 | i5
12:{u8=n1.1=i5,u9=m1=i6} | f12 ku7 f3 f1 | none
12:{u8=n1.1=i5,u9=m1=i6} | f12 ki9 f1 | none
20:m1=tx | f20 f1 | tx
";

pub(crate) const TABLES: &[&str] = &[FIELDS, LISTS, MAPS, NESTED];

/// Whether a list or map is as a word says.
fn is_content(alloc: Global, found: &Found<'_>, word: &str) -> Result<bool, Fail> {
    match (found, content_of(alloc, word)?) {
        (Found::List(values), Content::List(wanted)) => Ok(**values == wanted),
        (Found::Map(entries), Content::Map(wanted)) => Ok(**entries == wanted),
        _ => Ok(false),
    }
}

/// Whether what was found is as words say.
fn is_as_said(alloc: Global, found: &Found<'_>, words: &str) -> Result<bool, Fail> {
    match found {
        Found::Message(message) => match words.strip_prefix("message") {
            Some(fields) => Ok(*message.body() == body_of(alloc, fields.trim())?),
            None => Ok(false),
        },
        Found::Scalar(value) => Ok(**value == value_of(alloc, words)?),
        _ => is_content(alloc, found, words),
    }
}

fn is_found(
    alloc: Global,
    message: &DynamicMessage<'_>,
    place: &str,
    words: &str,
) -> Result<bool, Fail> {
    let place = place_of(alloc, place)?;
    match at(message.view(), &place) {
        None => Ok(words == "none"),
        Some(found) => is_as_said(alloc, &found, words),
    }
}

/// Whether a row holds.
pub(crate) fn is_right(alloc: Global, schema: &Schema, row: &str) -> Result<bool, Fail> {
    let (fields, rest) = row.split_once('|').ok_or("no place")?;
    let (place, words) = rest.split_once('|').ok_or("no words")?;
    let message = schema.made(alloc, body_of(alloc, fields.trim())?)?;
    is_found(alloc, &message, place, words.trim())
}
